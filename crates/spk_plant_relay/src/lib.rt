//! What a plant's broker relays of an edge node to the host, and why no window is asked for: the laws of a running plant (Sparkplug 3.0.0,
//! chapter 5, over MQTT 3.1.1). Laws alone; there is no code here.
#![tactic(auto)]

pub mod laws;
