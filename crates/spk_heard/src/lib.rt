//! What a host consumes of an edge node, by positions: at each call of a host session the answer is that of the positions, and what is
//! handed out is what was published there (Sparkplug 3.0.0, chapter 5). Laws alone; there is no code here.
#![tactic(auto)]

pub mod laws;
