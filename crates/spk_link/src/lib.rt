//! How a client's connection with a broker stands: when to connect, when to ping and when to give it up (MQTT 3.1.1, section 3.1.2.10 on keep
//! alive; pauses between tries are an own rule). No IO, and no clock: each call is told the moment.
#![tactic(auto)]

pub mod laws;
mod link;
mod stand;

pub use link::Link;
pub use stand::{Due, Moments, Stand};
