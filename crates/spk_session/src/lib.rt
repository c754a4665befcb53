//! The session of one client of an MQTT 3.1.1 broker: the packet identifiers of what was sent to it at QoS 1
//! and isn't acknowledged (chapters 2.3.1 and 4.4), and its budget of drops (own rule).
#![tactic(auto)]

mod answer;
mod budget;
mod circle;
mod fault;
mod identifiers;
pub mod laws;
mod session;
mod table;

pub use answer::{Sort, Verdict};
pub use budget::Budget;
pub use fault::SessionFault;
pub use identifiers::Identifiers;
pub use session::Session;
