//! What the hosts of a world show of its edge nodes (Sparkplug 3.0.0, chapters 4 and 5). Laws alone; there is no code here.
#![tactic(auto)]

pub mod laws;
