//! A broker whose events are noted, as the records that its journal goes on with, without IO (own rules).
#![tactic(auto)]

mod broker;
mod calls;
mod fault;
mod late;
pub mod laws;
mod notes;
mod packets;

pub use broker::NotedBroker;
pub use fault::NoteFault;
