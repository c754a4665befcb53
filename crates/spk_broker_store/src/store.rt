//! The store.

use crate::disk::Disk;
use std::fmt;
use std::marker::Model;

/// The journal of a broker on its disk. Once a call of the disk failed all are refused until the journal began anew. Contracts see `Data`.
#[derive(Drop)]
pub struct Store<D: Disk> {
    pub(crate) disk: D,
    /// How many bytes the journal began with.
    pub(crate) begun: usize,
    /// How many it has.
    pub(crate) len: usize,
    /// The moment of the first put that isn't synced.
    pub(crate) since: Option<u64>,
    /// Each put is synced at once.
    pub(crate) each: bool,
    /// A call of the disk failed.
    pub(crate) broken: bool,
}

impl<D: Disk> fmt::Debug for Store<D> {
    fn fmt<W: fmt::Write>(&self, f: &mut fmt::Formatter<W>) -> fmt::Result {
        f.write_str("Store { .. }")
    }
}

impl<D: Disk> Model for Store<D> {
    ghost use Rattle.spk_broker_store.specs.Data as plain;

    ghost Value = { plain.Data };

    ghost view = { λ s. record { begun = s.begun; len = s.len; since = s.since; each = s.each; broken = s.broken } };
}
