//! What a host application of Sparkplug 3.0.0 (chapters 5 and 6) shows of a node, and when it asks the node for a rebirth:
//! definitions, and laws above them. No host is here.
#![tactic(auto)]

pub mod laws;
mod limit;
mod shown;

pub use limit::may_ask;
pub use shown::{Shown, shown_value};
