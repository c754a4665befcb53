//! What a client of a broker may do: on which topics it may publish, to which filters it may subscribe, and whose topics are whose (own rules over
//! MQTT 3.1.1, section 4.7, and Sparkplug 3.0.0, chapter 4).
#![tactic(auto)]

mod covering;
pub mod laws;
mod levels;
mod rights;

pub use covering::covers;
pub use rights::{NodeName, Rights};
