//! What of a broker's data survives a restart: laws over every list of events, of the events that are noted and of what they lead to.
#![tactic(auto)]

pub mod laws;
