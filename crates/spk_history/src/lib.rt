//! The bytes of a history file, without IO: one record for each message that a host consumed, and records of births, deaths, gaps, holes and sessions.
//! What was appended is read again, in order, of a file that was cut off at whatever byte, or whose end was spoiled (own rules).
#![tactic(auto)]

mod entries;
mod entry;
mod fault;
pub mod laws;
mod parse;
mod parts;
mod reading;
mod size;
#[cfg(test)]
mod tests;
mod write;

pub use entries::Entries;
pub use entry::{Ending, Entry, Kind, SessionEvent};
pub use fault::HistoryFault;
pub use parts::Parts;
pub use reading::{Beginning, Front, HEAD, head, read};
pub use size::MOST_RECORD;
pub use write::append;
