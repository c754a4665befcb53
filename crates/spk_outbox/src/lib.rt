//! What waits to be written to one client: packets in order, byte for byte; and how long others wait for it. No standard
//! speaks of either (own rules).
#![tactic(auto)]

mod fault;
pub mod laws;
mod outbox;
mod patience;
#[cfg(test)]
mod tests;

pub use fault::OfferFault;
pub use outbox::Outbox;
pub use patience::Patience;
pub use spk_bytes::Bytes;
