//! A broker's journal as bytes, without IO (own rules): the lines that it begins with, and the broker that its bytes put together.
#![tactic(auto)]

mod adding;
mod assembly;
mod ending;
mod event;
pub mod laws;
mod lent;
mod putting;
mod restoring;
mod saying;
mod session;

pub use ending::ended;
pub use putting::append_broker;
pub use restoring::{Replayed, replay};
