//! What a host application keeps of one edge node: the order of its messages with those that it holds, and what is shown of the
//! node (Sparkplug 3.0.0, chapter 5 on the ordering of messages and on host applications).
#![tactic(auto)]

mod alone;
mod hearing;
mod kept;
pub mod laws;
mod node;
mod plain;

pub use hearing::Handed;
pub use node::{HostNode, Ticked};
