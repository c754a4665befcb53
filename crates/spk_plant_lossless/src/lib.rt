//! What isn't lost of an edge node in a plant: from the host's SUBSCRIBE on all that the node published is consumed, where nothing was refused
//! and no connection ended early (Sparkplug 3.0.0, chapter 5, over MQTT 3.1.1). Laws alone; there is no code here.
#![tactic(auto)]

pub mod laws;
