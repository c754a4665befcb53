//! Topic names and topic filters of MQTT 3.1.1 (chapter 4.7), the topics of Sparkplug 3.0.0 (chapter 4),
//! and the grants of a broker, by filter and key.
#![tactic(auto)]

mod edges;
mod fault;
mod filter;
mod found;
mod growth;
pub mod laws;
mod levels;
mod matching;
mod node;
mod nodes;
mod path;
mod spark;
mod topic;
mod tree;
mod walk;

pub use fault::TopicFault;
pub use filter::Filter;
pub use matching::{matches, matches_text};
pub use spark::{Spark, Verb, device_type, node_type};
pub use topic::Topic;
pub use tree::Tree;
