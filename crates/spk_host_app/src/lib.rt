//! The program of a host application without its socket (Eclipse Sparkplug 3.0.0, chapter 5; MQTT 3.1.1): it is told what was read of its connection,
//! what was written, and the moment, and says what is to be written and what is to be printed. No IO, and no clock.
#![tactic(auto)]

mod app;
mod asking;
mod fault;
mod hearing;
mod joining;
pub mod laws;
mod login;
mod meant;
mod moments;
mod said;
mod words;

pub use app::HostApp;
pub use fault::HostAppFault;
pub use login::Login;
pub use said::Said;
pub use spk_link::Due;
