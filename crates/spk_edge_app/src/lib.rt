//! The core of an edge node's program, without IO (Eclipse Sparkplug 3.0.0, chapters 5 and 6, over MQTT 3.1.1): it is told what was read, written and
//! kept, with the moment, and says what is to be written and kept. No socket, no clock and no disk.
#![tactic(auto)]

mod app;
mod fault;
pub mod laws;
mod login;
mod moments;
mod opening;
mod reading;
mod sending;
mod telling;
mod writes;

pub use app::EdgeApp;
pub use fault::{ChangesRefused, EdgeAppFault};
pub use login::Login;
pub use spk_link::Due;
