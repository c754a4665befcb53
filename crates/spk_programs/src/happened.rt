//! What happened, as a page tells it.

use spk_page::{Entry, What};

/// What happened.
#[derive(Drop)]
pub(crate) enum Happened {
    Plain(What<'static>),
    DeviceBorn(String),
    DeviceDied(String),
}

/// One thing that happened.
#[derive(Drop)]
pub(crate) struct Event {
    pub(crate) number: u64,
    pub(crate) at: u64,
    pub(crate) place: Option<usize>,
    pub(crate) what: Happened,
}

impl Event {
    /// As the page tells it.
    pub(crate) fn entry(&self) -> Entry<'_> {
        let what = match &self.what {
            Happened::Plain(what) => *what,
            Happened::DeviceBorn(name) => What::DeviceBorn(name.as_str()),
            Happened::DeviceDied(name) => What::DeviceDied(name.as_str()),
        };
        Entry {
            number: self.number,
            at: self.at,
            place: self.place,
            what,
        }
    }
}
