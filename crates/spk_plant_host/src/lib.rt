//! The thread of a host application in a plant (Sparkplug 3.0.0, chapter 5, over MQTT 3.1.1): what comes out of its ring is told to the
//! host, and what the host answers is put. No standard speaks of the plant (own rule).
#![tactic(auto)]

mod asking;
mod body;
mod desk;
mod ends;
mod fault;
pub mod laws;
mod line;
mod watch;

pub use body::run_host;
pub use ends::{Given, HostEnd, HostFailed, HostStart};
pub use fault::HostCause;
