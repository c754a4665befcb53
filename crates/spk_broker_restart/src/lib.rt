//! What stands after a restart, whatever byte a broker's journal ended at: a law of the definitions alone (own rules).
#![tactic(auto)]

pub mod laws;
