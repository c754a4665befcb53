//! A world of edge nodes and host applications of Sparkplug 3.0.0 (chapters 5 and 6), by plain data: what was done, what each node
//! published, what each host consumed of it; and the laws of every world. No node and no host is here.
#![tactic(auto)]

pub mod laws;
