//! A host's historian, without IO: what of the words that it is told is put into the parts of a history (`spk_history`): each message that was consumed, in
//! order, once, and what befell its nodes (own rules).
#![tactic(auto)]

mod entry;
mod event;
mod historian;
pub mod laws;
mod nodes;
mod spelled;

pub use event::{Event, Node, What};
pub use historian::Historian;
