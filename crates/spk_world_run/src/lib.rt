//! What a world of edge nodes and host applications (Sparkplug 3.0.0, chapters 5 and 6) keeps, by plain data, and that it is what the list
//! of all that was done asks for. There is no node and no host here.
#![tactic(auto)]

pub mod laws;
