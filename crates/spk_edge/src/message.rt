//! What an edge node gives.
use spk_edge_rules::Phase;
use spk_packets::Packet;
use spk_payload::{Payload, Value};
use spk_state::Primary;
use spk_store::Change;

/// A value that a command asks to be written.
#[derive(Debug, PartialEq, Drop)]
pub struct Write {
    /// The metric's alias.
    pub alias: u64,
    /// The value, of the metric's datatype.
    pub value: Value,
}

/// What a call answers.
#[derive(Debug, PartialEq, Drop)]
pub struct Out {
    /// The packets to send, in order, encoded.
    pub packets: Vec<Vec<u8>>,
    /// The values to write, in order.
    pub writes: Vec<Write>,
    /// Whether the connection is to be closed once the packets are sent.
    pub close: bool,
}

/// A numbered message that was published.
#[derive(Debug, PartialEq, Drop)]
pub struct Published {
    /// Its topic.
    pub topic: String,
    /// Its payload, with its sequence number.
    pub payload: Payload,
    /// Its stamp, in milliseconds since 1970.
    pub stamp: u64,
    /// Whether it is an NBIRTH.
    pub opens: bool,
}

/// What is done to the kept changes.
#[derive(Debug, PartialEq, Drop)]
pub(crate) enum Keeping {
    Nothing,
    /// One more is kept.
    Push(Change),
    /// So many at the front go, and count as lost or not.
    DropFront(usize, bool),
}

/// What the rules give, before packets are encoded and messages numbered.
#[derive(Debug, PartialEq, Drop)]
pub(crate) struct Given {
    pub(crate) plain: Vec<Packet>,
    /// Without their numbers.
    pub(crate) messages: Vec<Published>,
    pub(crate) writes: Vec<Write>,
    pub(crate) close: bool,
    pub(crate) phase: Phase,
    /// The greatest timestamp heard of the primary host after it.
    pub(crate) heard: Primary,
    pub(crate) kept: Keeping,
}
