//! The lives of one edge node, each begun from the record that survived the one before: what they published end to end is one node record
//! (Sparkplug 3.0.0, chapter 6, on `bdSeq`, `seq` and timestamps; the record is an own rule). Laws alone; there is no code here.
#![tactic(auto)]

pub mod laws;
