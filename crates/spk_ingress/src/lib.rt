//! Frames from many threads to one: each sender's frames arrive in the order in which they were put, each once.
//! No standard speaks of it (own rule); a frame's bytes are one MQTT 3.1.1 packet.
#![tactic(auto)]

mod channel;
mod fault;
mod frame;
mod rule;

pub use channel::{Ingress, PutPass, TakePass, Taken};
pub use fault::{Closed, FrameFault, Gone, OpenFault, Refused, SettleFault};
pub use frame::{Frame, Whole};
pub use rule::Message;
