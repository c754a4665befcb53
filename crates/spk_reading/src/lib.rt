//! What a host application reads of a packet's bytes: the message of which node it is, under which number, and what is to be
//! acknowledged (Sparkplug 3.0.0, chapter 4 on topics, chapter 6 on payloads).
#![tactic(auto)]

mod copying;
mod fault;
mod numbers;
mod published;
mod reading;
mod said;

pub use fault::ReadFault;
pub use reading::read;
pub use said::{Content, Heard, Numbered, Subject};
