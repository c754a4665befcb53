//! The body of a plant's broker thread: frames in, sends to the clients' rings, refused ones told. No standard speaks of it
//! (own rule); the broker is one of MQTT 3.1.1.
#![tactic(auto)]

mod answers;
mod bells;
mod desk;
mod done;
mod fault;
mod hub;
mod line;
mod part;
mod run;

pub use bells::Bells;
pub use fault::BrokerFailed;
pub use part::{BrokerEnd, BrokerStart, Refusal};
pub use run::run_broker;
