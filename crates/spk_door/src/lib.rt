//! A door in front of an MQTT 3.1.1 broker, without IO: who comes in by a CONNECT, and what becomes of each packet behind it (own rules over chapter 3).
#![tactic(auto)]

mod door;
pub mod laws;
mod verdict;

pub use door::{Door, Entry, Login, User, Who};
pub use verdict::Verdict;
