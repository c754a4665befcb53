//! What an edge node of Sparkplug 3.0.0 (chapters 5 and 6) has to do, over MQTT 3.1.1: its rules, its run over any list of
//! inputs, and the laws of that run. No node is here: the crate `spk_edge` has one, whose contracts cite these definitions.
#![tactic(auto)]

mod fault;
pub mod laws;
mod phase;

pub use fault::EdgeFault;
pub use phase::Phase;
