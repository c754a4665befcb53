//! What became of a message, a death or a moment, and what was lost by it.

/// What became of a message that was handed in.
#[derive(Clone, Copy, Debug, PartialEq, Eq)]
pub enum Step {
    /// So many messages are consumed in the order of their numbers: this one, then held ones.
    Consumed(u8),
    /// The message is ahead of the one that comes next, and is held.
    Held,
    /// The message is an old one or one that is held already, and is dropped.
    Old,
    /// The message is too far ahead: messages were lost. It and the held ones are dropped.
    Gap,
    /// An NBIRTH that is not newer than the last one taken, and is dropped.
    OldBirth,
    /// An NBIRTH of the session whose NDEATH came, and is dropped.
    DeadSession,
    /// The node is not followed, and the message is dropped for good.
    NotLive,
}

/// Whether an NDEATH is that of the session of the last birth taken.
#[derive(Clone, Copy, Debug, PartialEq, Eq)]
pub enum Match {
    /// It is, and the session is dead.
    Matched,
    /// It is not, or no birth was taken, and it changes nothing.
    Ignored,
}

/// A held message waited too long for one before it: messages were lost.
#[derive(Clone, Copy, Debug, PartialEq, Eq)]
pub struct Gap;

/// What was lost where held messages are dropped: at a birth that is taken, a gap, a matching death, a reset (own rule).
#[derive(Clone, Copy, Debug, PartialEq, Eq)]
pub struct Loss {
    /// How many held messages are dropped.
    pub held: u8,
    /// How many numbers there are from the one that comes next to the nearest held one, without it: messages that
    /// didn't come before it. 0 where no held message is dropped.
    pub missing: u8,
}

pub(crate) const NO_LOSS: Loss = Loss {
    held: 0,
    missing: 0,
};
