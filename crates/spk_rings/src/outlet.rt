//! The end that offers.
ghost use Rattle.std.specs.Prelude.{◌≡◌, ◌+◌, ◌<◌, ◌≤◌, [], ◌∷◌, ◌++◌, IfOk, IfErr, OnOk, IsOk, IfSome};
ghost use Rattle.spk_rings.specs.Ring.{IsCapacity, AreEnds, SameOutlet, FinishedFrom, free, offered, popped, ahead, all_offered};

use crate::fault::{Full, RingFault};
use crate::inlet::Inlet;
use crate::item::Item;
use crate::token::Token;
use rtrb::{Producer, PushError, RingBuffer};
use std::alloc::Global;
use std::fmt;

/// The end of a ring that offers items. Contracts see the list of all that it took.
#[derive(Drop)]
pub struct Outlet {
    pub(crate) end: Producer<Item>,
}

impl fmt::Debug for Outlet {
    fn fmt<W: fmt::Write>(&self, f: &mut fmt::Formatter<W>) -> fmt::Result {
        f.write_str("Outlet { .. }")
    }
}

/// A ring with room for so many items, 1 to 65,536, and its two ends.
pub fn ring(alloc: Global, capacity: usize) -> Result<(Outlet, Inlet), RingFault>
    ensures ends { IfOk result (λ r. AreEnds r.0 r.1) }
    ensures empty { IfOk result (λ r. (offered r.0 ≡ []) × (popped r.1 ≡ []) × (ahead r.1 ≡ [])) }
    ensures room { IfOk result (λ r. free r.0 ≡ capacity) }
    ensures ok { OnOk result (IsCapacity capacity) }
    ensures bad_plan { IfErr result (λ e. e ≡ RingFault.BadPlan → ¬ (IsCapacity capacity)) }
    ensures no_memory { IfErr result (λ e. e ≡ RingFault.NoMemory → IsCapacity capacity) }
{
    if !(1..=65_536).contains(&capacity) {
        return Err(RingFault::BadPlan);
    }
    let Ok((producer, consumer)) = RingBuffer::new(alloc, capacity) else {
        return Err(RingFault::NoMemory);
    };
    Ok((Outlet { end: producer }, Inlet { end: consumer }))
}

impl Outlet {
    /// Puts an item in, if there is room, and waits for nobody. A full ring hands it back. It is full only where no
    /// room is known to be left: of a new ring so many offers succeed as it has room for.
    pub fn offer(&mut self, item: Item) -> Result<(), Full>
        ensures end { SameOutlet self.old self.new }
        ensures ok { OnOk result
            ((offered self.new ≡ offered self.old ++ item ∷ [])
            × (free self.old ≤ free self.new + 1)) }
        ensures full { IfErr result
            (λ e. (e.item ≡ item) × (offered self.new ≡ offered self.old) × (free self.new ≡ 0)) }
        ensures room { 0 < free self.old → IsOk result }
    {
        match self.end.push(item) {
            Ok(()) => Ok(()),
            Err(PushError::Full(item)) => Err(Full { item }),
        }
    }

    /// Ends the offers. The token holds all that was offered; there is none if the other end was dropped before.
    pub fn finish(self) -> Option<Token>
        ensures token { IfSome result (λ t. FinishedFrom self t) }
        ensures all { IfSome result (λ t. all_offered t ≡ offered self) }
    {
        let end = self.end.finish()?;
        Some(Token { end })
    }
}
