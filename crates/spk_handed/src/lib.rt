//! What a host consumes of a node over any broker that keeps the order (MQTT 3.1.1, section 4.6; Sparkplug 3.0.0, chapter 5 on the ordering
//! of messages): the headline, from what such a broker hands over. Laws alone; there is no code here.
#![tactic(auto)]

pub mod laws;
