//! Fields of the protobuf wire format, read and written.
//!
//! Follows "Encoding" of the Protocol Buffers documentation: base 128 varints, tags, and the wire types
//! 0, 1, 2 and 5. Groups (wire types 3 and 4) are refused.
#![tactic(auto)]

mod fault;
mod field;
mod reading;
mod writing;

pub use fault::WireFault;
pub use field::{Field, Fields, Wire};
pub use writing::{put_bytes, put_varint, varint_size};
