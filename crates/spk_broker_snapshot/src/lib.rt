//! What a broker keeps, as lines, and what lines put together: laws over all data that a broker may have (own rules).
#![tactic(auto)]

pub mod laws;
