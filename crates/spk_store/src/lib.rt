//! The changes that an edge node keeps while its host application is away: the last ones, in
//! order, for sending later as historical data (Sparkplug 3.0.0, chapters 5 and 6: store and
//! forward, `is_historical`).
#![tactic(auto)]

mod change;
mod fault;
pub mod laws;
mod store;

pub use change::Change;
pub use fault::StoreFault;
pub use store::Store;
