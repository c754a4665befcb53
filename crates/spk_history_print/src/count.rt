//! How much a history has.

use crate::plan::moment;
use spk_history::Entry;
use spk_history_rows::Row;

/// How much of a history was read, of the moments that were asked for.
#[derive(Clone, Copy, Debug, PartialEq, Eq)]
pub struct Counts {
    pub records: u64,
    /// Nodes that were named.
    pub nodes: u64,
    /// Messages that were consumed, births too.
    pub messages: u64,
    /// Metrics of these messages.
    pub values: u64,
    pub births: u64,
    pub deaths: u64,
    /// Holes, closed or not.
    pub holes: u64,
    /// The moments of the first and the last record that has one.
    pub first: Option<u64>,
    pub last: Option<u64>,
    /// Records whose number wasn't named in their part: they are in no table.
    pub unnamed: u64,
    /// Messages whose payload means nothing: they have no values.
    pub meaningless: u64,
}

impl Counts {
    pub(crate) fn none() -> Counts {
        Counts {
            records: 0,
            nodes: 0,
            messages: 0,
            values: 0,
            births: 0,
            deaths: 0,
            holes: 0,
            first: None,
            last: None,
            unnamed: 0,
            meaningless: 0,
        }
    }

    /// One more row, in the moments that are asked for.
    pub(crate) fn add(&mut self, row: &Row) {
        self.records = self.records.saturating_add(1);
        if row.is_unnamed() {
            self.unnamed = self.unnamed.saturating_add(1);
        }
        if let Some(at) = moment(&row.entry) {
            self.first = Some(self.first.unwrap_or(at).min(at));
            self.last = Some(self.last.unwrap_or(at).max(at));
        }
        self.add_kind(&row.entry);
    }

    fn add_kind(&mut self, entry: &Entry) {
        match entry {
            Entry::Birth { .. } => {
                self.births = self.births.saturating_add(1);
                self.messages = self.messages.saturating_add(1);
            }
            Entry::Message { .. } => self.messages = self.messages.saturating_add(1),
            Entry::Death { .. } => self.deaths = self.deaths.saturating_add(1),
            _ => {}
        }
    }

    /// Nodes up to this place were named.
    pub(crate) fn reach(&mut self, place: usize) {
        self.nodes = self.nodes.max((place as u64).saturating_add(1));
    }

    /// A message has so many metrics.
    pub(crate) fn add_values(&mut self, count: usize) {
        self.values = self.values.saturating_add(count as u64);
    }
}
