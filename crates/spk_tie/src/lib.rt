//! What ties an edge node's bytes to the order of its messages: what a host reads in them is what was published at that
//! position, under the number that the position has (Sparkplug 3.0.0, chapters 4 and 6). Laws alone; there is no code here.
#![tactic(auto)]

pub mod laws;
