//! What the program of an edge node does (`spk_edge_app`) is a careful life (`spk_lives`): so what all its lives published is one node record, at whatever
//! moments it was cut (Sparkplug 3.0.0, chapter 6; the record is an own rule). Laws alone; there is no code here.
#![tactic(auto)]

pub mod laws;
