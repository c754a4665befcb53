//! A ring of packets from a broker's thread to one client's: one thread offers, one takes, and neither waits.
//! No standard speaks of it (own rule).
#![tactic(auto)]

mod fault;
mod inlet;
mod item;
mod outlet;
mod token;

pub use fault::{Full, RingFault};
pub use inlet::Inlet;
pub use item::Item;
pub use outlet::{Outlet, ring};
pub use spk_bytes::Bytes;
pub use token::Token;
