//! The order of one edge node's messages at a host application: one byte of sequence number, a
//! window of held messages, a timer, and the birth/death sequence number decide what is consumed
//! (Sparkplug 3.0.0, chapter 5 on the ordering of messages at a host, chapter 6 on `seq` and `bdSeq`).
#![tactic(auto)]

mod answer;
pub mod laws;
mod message;
mod phase;
mod sequence;
mod slots;
mod width;

pub use answer::{Gap, Loss, Match, Step};
pub use message::Kind;
pub use phase::Phase;
pub use sequence::Sequence;
pub use width::Width;
