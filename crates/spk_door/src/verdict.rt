//! What becomes of a packet.

/// What becomes of a packet.
#[derive(Debug, PartialEq, Eq, Drop)]
pub enum Verdict {
    /// It goes on to the broker.
    Pass,
    /// A SUBSCRIBE of which not every entry is allowed: which are, in order. The others are granted 128 (section 3.9.3).
    Cut(Vec<bool>),
    /// Its connection is closed.
    Close,
}
