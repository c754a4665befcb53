//! What a SUBSCRIBE brings and how long it lasts: laws over every list of events (MQTT 3.1.1, 3.8 to 3.10).
#![tactic(auto)]

pub mod laws;
