//! What is asked of a history.

use spk_history::Entry;

/// Where the parts of a history are read: the machine, or bytes in memory.
pub trait PartFiles {
    /// Puts the bytes of the file of this name behind those that are there. Answers whether it was read to its end.
    fn read(&mut self, name: &str, bytes: &mut Vec<u8>) -> bool;
}

/// Moments by the host's clock, in milliseconds since 1970: from the first on, and before the second, if there is one.
#[derive(Clone, Copy, Debug, PartialEq, Eq)]
pub struct Window {
    pub from: u64,
    pub to: Option<u64>,
}

/// The parts of a history, oldest first, by the names of their files, and which moments are asked for.
#[derive(Clone, Copy, Debug)]
pub struct Plan<'a> {
    pub parts: &'a [String],
    pub window: Window,
}

/// What is printed.
#[derive(Clone, Copy, Debug)]
pub enum Print<'a> {
    /// The values of each metric with this name, as CSV.
    Csv(&'a str),
    /// The holes, as CSV.
    Holes,
    /// Counts, one a line.
    Summary,
}

/// When an entry was made; none of a name.
pub(crate) fn moment(entry: &Entry) -> Option<u64> {
    match entry {
        Entry::Session { at, .. } => Some(*at),
        Entry::Node { .. } => None,
        Entry::Birth { at, .. } => Some(*at),
        Entry::Death { at, .. } => Some(*at),
        Entry::Gap { at, .. } => Some(*at),
        Entry::Hole { to, .. } => Some(*to),
        Entry::Message { at, .. } => Some(*at),
    }
}

impl Window {
    /// Every moment.
    pub fn all() -> Window {
        Window { from: 0, to: None }
    }

    /// Whether a moment is in it.
    pub(crate) fn has(&self, at: u64) -> bool {
        self.from <= at && self.ends_behind(at)
    }

    fn ends_behind(&self, at: u64) -> bool {
        match self.to {
            Some(to) => at < to,
            None => true,
        }
    }

    /// Whether an entry is in it: a name always.
    pub(crate) fn has_entry(&self, entry: &Entry) -> bool {
        match moment(entry) {
            Some(at) => self.has(at),
            None => true,
        }
    }

    /// Whether a time from one moment to another, or without an end, has a moment in it.
    pub(crate) fn meets(&self, from: u64, to: Option<u64>) -> bool {
        self.ends_behind(from)
            && match to {
                Some(to) => self.from <= to,
                None => true,
            }
    }
}
