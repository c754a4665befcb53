//! The user name and the password of a CONNECT (MQTT 3.1.1, section 3.1), which `spk_packets` reads and leaves out.
#![tactic(auto)]

mod credentials;
pub mod laws;
mod parts;

pub use credentials::{Credentials, read};
