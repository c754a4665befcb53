//! The rows of a history: each entry of its parts, in order, with its place, the name of its node and the node's last birth (own rules).
#![tactic(auto)]

mod fault;
pub mod laws;
mod message;
mod naming;
mod node;
mod part;
mod row;
mod rows;

pub use fault::RowsFault;
pub use message::meaning;
pub use node::NodeName;
pub use part::PartRows;
pub use row::Row;
pub use rows::{MOST_ROWS, Rows};
