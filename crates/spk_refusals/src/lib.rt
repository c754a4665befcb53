//! Public calls under copies of their clauses, so that wrong bodies of them are tried where a try costs little.
#![tactic(auto)]

pub mod broker;
pub mod edge;
pub mod packets;
pub mod payload;
pub mod plant;
mod turning;
pub mod view;
pub mod world;
