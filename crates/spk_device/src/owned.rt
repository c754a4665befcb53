//! An owner's metrics, one at a time.
ghost use Rattle.std.specs.Prelude.{◌≡◌, length, IfSome, IfNone, Some, None};
ghost use Rattle.spk_device.specs.Book.{owned};
ghost use Rattle.spk_device.specs.Owned.{owned_at};
ghost use Rattle.spk_device.specs.View.{gauge_view};

use crate::gauge::Gauge;
use crate::owner::Owner;
use crate::registry::{Alias, Registry};

impl Registry {
    /// How many metrics an owner has: as many as `births` lists, and none where it isn't there. Takes no memory.
    pub fn owned_count(&self, owner: Owner) -> usize
        ensures { result ≡ length (owned owner self.now.gauges) }
    {
        match self.table(owner) {
            Some(table) => table.len(),
            None => 0,
        }
    }

    /// An owner's metric and its alias, by its place among the owner's, counted from 0 in order of adding. Takes no memory.
    pub fn owned_at(&self, owner: Owner, place: usize) -> Option<(Alias, &Gauge)>
        ensures some { IfSome result
            (λ m. owned_at self.now owner place ≡ Some (m.0, gauge_view m.1.now)) }
        ensures none { IfNone result (owned_at self.now owner place ≡ None) }
    {
        let table = self.table(owner)?;
        let number = table.at(place)?;
        let gauge = &self.gauges[number];
        Some((number as u64 + 1, gauge))
    }
}
