//! How a host stands to a node.

/// How a host stands to a node.
#[derive(Clone, Copy, Debug, PartialEq, Eq)]
pub enum Phase {
    /// No birth was taken in this host session.
    Unknown,
    /// The node is followed.
    Live,
    /// Messages were lost, and a newer birth is awaited.
    Gap,
    /// The NDEATH of the last birth taken came, and a birth of another session is awaited.
    Dead,
}

impl Phase {
    ghost use Rattle.std.specs.Prelude.{◌≡◌};
    ghost use Rattle.spk_sequence.specs.Step.{is_live, is_dead, is_known};

    /// Whether the node is followed.
    pub(crate) fn is_live(self) -> bool
        ensures { result ≡ is_live self }
    {
        match self {
            Phase::Live => true,
            _ => false,
        }
    }

    /// Whether the last session followed is dead.
    pub(crate) fn is_dead(self) -> bool
        ensures { result ≡ is_dead self }
    {
        match self {
            Phase::Dead => true,
            _ => false,
        }
    }

    /// Whether a birth was taken.
    pub(crate) fn is_known(self) -> bool
        ensures { result ≡ is_known self }
    {
        match self {
            Phase::Unknown => false,
            _ => true,
        }
    }
}
