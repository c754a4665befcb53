//! What a plant is given: its nodes with their scripts, its limits, and a gate that is told what happens. No standard
//! speaks of it (own rule).
#![tactic(auto)]

mod fault;
mod gate;
mod plan;
mod script;

pub use fault::PlantFault;
pub use gate::Gate;
pub use plan::{Plan, PlanNode};
pub use script::{Sort, Step};
