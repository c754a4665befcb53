//! What a broker holds at most, whatever comes, to whom it sends, and what it routes: laws over every list of events (own rules; MQTT 3.1.1,
//! chapters 3 and 4).
#![tactic(auto)]

pub mod laws;
