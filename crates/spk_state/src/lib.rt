//! STATE messages of Sparkplug 3.0.0 (chapters 4 and 6): the JSON that says whether a host application is online, and
//! the rule by which an edge node hears its primary host.
#![tactic(auto)]

mod fault;
pub mod laws;
mod primary;
mod state;

pub use fault::StateFault;
pub use primary::{Heard, Primary};
pub use state::State;
