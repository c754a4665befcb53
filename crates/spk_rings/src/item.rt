//! What a ring carries.

use spk_bytes::Bytes;

/// A packet for a client, and the number of ends of connections that its client had sent until then.
#[derive(Debug, Drop)]
pub struct Item {
    pub bytes: Bytes,
    pub cuts: u64,
}
