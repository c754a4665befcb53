//! How a node stands.
ghost use Rattle.std.specs.Prelude.{◌≡◌};
ghost use Rattle.spk_story.specs.Data.{end_of};
ghost use Rattle.spk_story.specs.Standing.{is_same};

use crate::hole::End;

/// How a node stands, by what the host was told of it last.
#[derive(Clone, Copy, Debug, PartialEq, Eq)]
pub enum Stand {
    /// No birth of it was consumed.
    Unborn,
    /// Its values are current: each message since its birth was used, in order.
    Current,
    /// Messages were lost: its values aren't current until the next birth.
    Lost,
    /// Its session is over.
    Dead,
    /// The host's own session is over, and the node wasn't born since.
    OutOfReach,
}

impl Stand {
    /// What is over where a node stands so.
    pub(crate) fn end(self) -> Option<End>
        ensures { result ≡ end_of self }
    {
        match self {
            Stand::Dead => Some(End::Death),
            Stand::OutOfReach => Some(End::Session),
            _ => None,
        }
    }

    /// Whether two are the same.
    pub(crate) fn is_same(self, other: Stand) -> bool
        ensures { result ≡ is_same self other }
    {
        match (self, other) {
            (Stand::Unborn, Stand::Unborn) => true,
            (Stand::Current, Stand::Current) => true,
            (Stand::Lost, Stand::Lost) => true,
            (Stand::Dead, Stand::Dead) => true,
            (Stand::OutOfReach, Stand::OutOfReach) => true,
            _ => false,
        }
    }
}
