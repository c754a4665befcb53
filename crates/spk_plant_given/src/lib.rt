//! What a plant's host was handed of one edge node, by the positions of the node's messages, and what it consumed of it: by the lists that
//! the broker's thread and the host's handed on (own rules, over Sparkplug 3.0.0, chapter 5).
#![tactic(auto)]

mod book;
mod count;
mod handed;
mod part;

pub use handed::{Handed, OfNode, of_node};
