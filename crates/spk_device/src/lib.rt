//! The devices and metrics of one edge node: names, aliases, datatypes and the values last set.
//!
//! Follows the Sparkplug specification 3.0.0, chapter 6 "Sparkplug Payloads", on metrics, aliases and births.
#![tactic(auto)]

mod adding;
mod births;
mod device;
mod fault;
mod gauge;
pub mod laws;
mod names;
mod outcome;
mod owned;
mod owner;
mod registry;
mod setting;
mod values;

pub use fault::{DeviceFault, Refusal};
pub use gauge::Gauge;
pub use outcome::Outcome;
pub use owner::Owner;
pub use registry::{Alias, Registry};
