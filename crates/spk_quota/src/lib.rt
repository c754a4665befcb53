//! What each user of an MQTT 3.1.1 broker holds, and may hold, without IO (own rules over chapter 3): connections, kept sessions, topic filters, retained
//! messages and their bytes.
#![tactic(auto)]

mod filters;
mod judging;
pub mod laws;
mod limits;
mod message;
mod messages;
mod names;
mod quotas;
mod sessions;

pub use limits::{Held, Limits};
pub use quotas::Quotas;
