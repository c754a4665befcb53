//! Numbers, texts and contents as bytes: what files of records are made of (own rules). A content stands behind its length and before its CRC-32.
#![tactic(auto)]

mod contents;
mod fault;
mod framing;
pub mod laws;
mod pieces;
mod sum;
mod table;
mod writing;

pub use contents::Contents;
pub use fault::FrameFault;
pub use framing::{Framed, frame};
pub use pieces::{eight, four, name, one, two};
pub use sum::crc32;
pub use writing::append;
