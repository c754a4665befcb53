//! What a host application says: how its session with the server begins and ends, its STATE, its subscription, what it
//! acknowledges, and its rebirth requests (Sparkplug 3.0.0, chapter 5 on host applications, chapter 6 on STATE).
#![tactic(auto)]

mod config;
mod fault;
mod names;
mod packets;
mod requests;
mod session;

pub use config::HostConfig;
pub use fault::HostFault;
pub use packets::acknowledgement;
pub use requests::{rebirth, request_bytes};
pub use session::HostSession;
