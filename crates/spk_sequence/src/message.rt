//! What a host knows of a numbered message.

/// What a host knows of a message that carries a sequence number, beside that number.
/// Timestamps are in milliseconds (Sparkplug 3.0.0, chapter 6).
#[derive(Clone, Copy, Debug, PartialEq, Eq)]
pub enum Kind {
    /// An NBIRTH, with its timestamp and its bdSeq.
    Birth { stamp: u64, bd: u8 },
    /// Any other message with a sequence number, with its timestamp where it has one.
    Other { stamp: Option<u64> },
}
