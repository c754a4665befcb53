//! The body of an edge node's thread in a plant: it runs its script (own rule) on an edge node of Sparkplug 3.0.0 (chapters 5 and 6),
//! hears what its ring brings, and puts what the node answers.
#![tactic(auto)]

mod desk;
mod edge;
mod fault;
mod laws;
mod sending;
mod steps;
mod told;

pub use edge::{EdgeEnd, EdgeFailure, EdgeStart, run_edge};
pub use fault::EdgeCause;
pub use told::{Told, ToldAct};
