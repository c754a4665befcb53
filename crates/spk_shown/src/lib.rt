//! What a host shows of an edge node, by what the host's session follows (Sparkplug 3.0.0, chapters 4 and 5). Laws alone; there is no code
//! here.
#![tactic(auto)]

pub mod laws;
