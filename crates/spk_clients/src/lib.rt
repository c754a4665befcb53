//! The clients of a server, without its broker and its sockets: for each the bytes of a packet that isn't whole, the packets
//! that wait to be written to it, and how far it is. No standard speaks of it (own rules).
#![tactic(auto)]

mod cause;
mod client;
mod clients;
mod coming;
mod ending;
pub mod laws;
mod offering;
mod writing;

pub use cause::Cause;
pub use client::{Client, Offered, Phase};
pub use clients::Clients;
pub use spk_bytes::Bytes;
