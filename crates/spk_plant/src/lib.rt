//! A plant: edge nodes, a broker and a host application (Sparkplug 3.0.0, over MQTT 3.1.1), each on a thread of its own, from a plan to
//! the report of what they did. No standard speaks of a plant (own rule).
#![tactic(auto)]

mod choice;
mod plant;
mod report;
mod start;
mod threads;
mod tie;

pub use plant::run_plant;
pub use report::{NodeReport, Report};
pub use spk_plant_given::Handed;
