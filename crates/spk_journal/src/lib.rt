//! A file of lines that survives a crash, without its disk: which lines still wait, what is to be written, and what a file says that was torn
//! at whatever byte (own rules). No line has a meaning here.
#![tactic(auto)]

mod fault;
mod journal;
pub mod laws;
mod reading;
mod tail;

pub use fault::JournalFault;
pub use journal::Journal;
pub use reading::{Lines, is_mark, read};
