//! What of the words of a host's program a history keeps: each message that was consumed, in order, once, and what befell its nodes (own rules). No IO.
#![tactic(auto)]

mod history;
mod nodes;
mod pasts;
mod words;

pub use history::HostHistory;
