//! One client of an MQTT 3.1.1 broker behind a door, without IO: of what it sends that goes on to the broker which the door lets through, and what goes
//! back to it (own rules over chapter 3).
#![tactic(auto)]

mod answer;
pub mod laws;
mod replies;
mod visitor;

pub use answer::Answer;
pub use replies::Replies;
pub use visitor::Visitor;
