//! What a world keeps of messages.
use spk_payload::Payload;

/// A message that a node published.
#[derive(Debug, PartialEq, Drop)]
pub struct Published {
    /// The birth that it belongs to, counted from 0.
    pub birth: u64,
    /// The session in which it was published, counted from 0.
    pub session: u64,
    /// Its stamp, in milliseconds since 1970.
    pub stamp: u64,
    pub topic: String,
    pub payload: Payload,
}

/// A message that a host consumed.
#[derive(Debug, PartialEq, Drop)]
pub struct Consumed {
    /// Its position among all that its node published.
    pub position: u64,
    /// The topic that the host heard.
    pub topic: String,
    /// The payload that the host heard.
    pub payload: Payload,
}
