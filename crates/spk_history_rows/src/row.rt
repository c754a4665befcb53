//! A row.
ghost use Rattle.std.specs.Prelude.{◌≡◌, ◌&&◌, is_some, not};
ghost use Rattle.spk_history.specs.Entry.{said};
ghost use Rattle.spk_history_rows.specs.Row.{is_birth, number_of};

use spk_history::Entry;

/// An entry of a history, with what the entries before it say.
#[derive(Clone, Copy, Debug)]
pub struct Row<'a> {
    /// How many entries stand before it, in all parts.
    pub place: u64,
    /// The place of its node among those that were named (`Rows::node`); none of a session, or where its number wasn't named in its part.
    pub node: Option<usize>,
    /// The place of the node's last birth: of a birth its own.
    pub birth: Option<u64>,
    pub entry: Entry<'a>,
}

/// The number of the node that an entry is of.
pub(crate) fn number(entry: &Entry) -> Option<u32>
    ensures { result ≡ number_of (said entry.now) }
{
    match entry {
        Entry::Session { .. } => None,
        Entry::Node { node, .. } => Some(*node),
        Entry::Birth { node, .. } => Some(*node),
        Entry::Death { node, .. } => Some(*node),
        Entry::Gap { node, .. } => Some(*node),
        Entry::Hole { node, .. } => Some(*node),
        Entry::Message { node, .. } => Some(*node),
    }
}

/// Whether an entry is a birth of a node.
pub(crate) fn is_birth(entry: &Entry) -> bool
    ensures { result ≡ is_birth (said entry.now) }
{
    matches!(entry, Entry::Birth { .. })
}

impl Row<'_> {
    /// Whether it has a number that wasn't named in its part.
    pub fn is_unnamed(&self) -> bool
        ensures { result
            ≡ (not (is_some self.now.node) && is_some (number_of (said self.now.entry))) }
    {
        self.node.is_none() && number(&self.entry).is_some()
    }
}
