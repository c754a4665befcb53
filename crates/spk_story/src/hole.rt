//! A hole in the readings of a node.

/// What ends a hole first.
#[derive(Clone, Copy, Debug, PartialEq, Eq)]
pub enum End {
    /// The next birth.
    Birth,
    /// The node's session was over before it.
    Death,
    /// The host's own session was over before it.
    Session,
}

/// Messages that were held are dropped.
#[derive(Clone, Copy, Debug, PartialEq, Eq)]
pub struct Loss {
    /// How many came, and aren't used.
    pub unused: u64,
    /// How many hadn't come before the nearest of them.
    pub missing: u64,
}

/// A stretch of time from which readings are missing. Moments are in milliseconds.
#[derive(Clone, Copy, Debug, PartialEq, Eq)]
pub struct Hole {
    /// When the last message before it was consumed; where there was none, when the loss was found.
    pub from: u64,
    /// When the next birth was consumed; None while it is open.
    pub until: Option<u64>,
    /// How many messages are known not to have come.
    pub missing: u64,
    /// How many came, and weren't used.
    pub unused: u64,
    /// What ended it first, or was over when it began; None where nothing did yet.
    pub end: Option<End>,
}
