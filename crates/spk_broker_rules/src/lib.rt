//! The rules of an MQTT 3.1.1 broker (chapters 3 and 4, QoS 0 and 1, with kept sessions) as definitions, and laws
//! above them. What a broker's calls do is stated by these definitions; here is no broker.
#![tactic(auto)]

pub mod laws;
mod silence;

pub use silence::is_silent;
