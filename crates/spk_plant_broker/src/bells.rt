//! The bells at which the clients' threads are parked.
ghost use Rattle.std.specs.Prelude.{◌≡◌};
ghost use Rattle.spk_plant_broker.specs.Bells.{AreRung};

use std::fmt;
use std::thread::Parker;

/// The bells at which the clients' threads are parked while their rings are empty, and how often all of them were rung. Contracts
/// see that count (`AreRung`), which stands at the greatest `u64`.
#[derive(Drop)]
pub struct Bells<'a> {
    pub(crate) parkers: &'a [Parker],
    pub(crate) rung: u64,
}

impl fmt::Debug for Bells<'_> {
    fn fmt<W: fmt::Write>(&self, f: &mut fmt::Formatter<W>) -> fmt::Result {
        f.write_str("Bells { .. }")
    }
}

impl<'a> Bells<'a> {
    /// These bells, which weren't rung yet.
    pub fn new(parkers: &'a [Parker]) -> Bells<'a>
        ensures parkers { result.parkers ≡ parkers.entry }
        ensures rung { result.rung ≡ 0 }
    {
        Bells { parkers, rung: 0 }
    }

    /// Wakes who is parked at these bells.
    pub(crate) fn ring_all(&mut self)
        ensures { AreRung 1 self.old self.new }
    {
        for bell in self.parkers {
            bell.unpark();
        }
        self.rung = self.rung.saturating_add(1);
    }
}
