//! What a world answers.
use crate::fault::WorldFault;
use spk_sequence::{Match, Step};

/// What an event did.
#[derive(Clone, Copy, Debug, PartialEq, Eq)]
pub enum Done {
    /// So many messages were published.
    Edge { added: usize },
    /// What became of the message.
    Hand(Step),
    /// Whether the NDEATH was that of the session of the last birth taken.
    Death(Match),
    /// So many nodes had a gap.
    Tick { gaps: usize },
    /// A session began.
    Session,
}

/// The first event of a list that was refused, by its place, and why.
#[derive(Clone, Copy, Debug, PartialEq, Eq)]
pub struct Stopped {
    pub index: usize,
    pub fault: WorldFault,
}
