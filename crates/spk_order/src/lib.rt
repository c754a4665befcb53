//! The order of one edge node's messages at a host application, with their payloads: what is held is
//! kept until the order consumes or drops it (Sparkplug 3.0.0, chapter 5 on the ordering of messages).
#![tactic(auto)]

mod order;
mod slots;

pub use order::{Handed, NoMemory, Order};
