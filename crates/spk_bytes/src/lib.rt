//! The bytes of a packet, of one owner or shared by many, in one piece or in two. No standard speaks of it (own rule).
#![tactic(auto)]

mod packet;
mod piece;
#[cfg(test)]
mod tests;

pub use packet::Bytes;
pub use piece::Piece;
