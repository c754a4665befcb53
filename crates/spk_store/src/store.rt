//! The store.
ghost use Rattle.std.specs.Prelude.{◌≡◌, ◌≤◌, length, min, slice_get, option_copied, IfOk};
ghost use Rattle.std.specs.List.{prefix_len};
ghost use Rattle.spk_store.specs.Owners.{is_of, is_at, have_one_owner};
ghost use Rattle.spk_store.specs.Step.{counted, empty_store, after_push, overwritten, after_drop, run_of};

use crate::change::Change;
use crate::fault::StoreFault;
use circular_buffer::HeapCircularBuffer;
use spk_device::Owner;
use std::alloc::Global;
use std::fmt;
use std::marker::Model;

/// The last changes, in order: at most `capacity` of them. Contracts see them as a list, the oldest first,
/// with the capacity and the count of lost ones (`Kept`).
#[derive(Drop)]
pub struct Store {
    changes: HeapCircularBuffer<Change>,
    lost: u64,
}

impl fmt::Debug for Store {
    fn fmt<W: fmt::Write>(&self, f: &mut fmt::Formatter<W>) -> fmt::Result {
        f.write_str("Store { .. }")
    }
}

impl Model for Store {
    ghost use Rattle.std.specs.Prelude.{◌≤◌, ℕ};
    ghost use Rattle.spk_store.specs.declared.change.Change.{Change};
    ghost use Rattle.spk_store.specs.Data.{Kept};

    ghost Value = { Kept Change };

    ghost view = { λ s. record {
      items = s.changes.items;
      capacity = s.changes.capacity;
      lost = s.lost;
    } };

    ghost invariant = { λ s. (1 ≤ s.changes.capacity) × (s.changes.capacity ≤ 4096) };
}

impl Store {
    /// A store of at most so many changes, with room for all of them: 1 to 4,096, which is the caller's to see to.
    /// NoMemory is its only refusal.
    pub fn new(alloc: Global, capacity: usize) -> Result<Store, StoreFault>
        requires { (1 ≤ capacity) × (capacity ≤ 4096) }
        ensures { IfOk result (λ s. s ≡ empty_store capacity) }
    {
        let changes = HeapCircularBuffer::with_capacity(alloc, capacity)?;
        Ok(Store { changes, lost: 0 })
    }

    /// Keeps a change. A full store gives up its oldest one, which counts as lost and is handed back.
    pub fn push(&mut self, change: Change) -> Option<Change>
        ensures data { self.new ≡ after_push self.old change }
        ensures answer { result ≡ overwritten self.old change }
    {
        let old = self.changes.push_back(change);
        if old.is_some() {
            self.count(1);
        }
        old
    }

    /// How many changes at the front are of the first one's owner, but no more than `max`: what one message may carry.
    /// It takes no memory.
    pub fn front_run(&self, max: usize) -> usize
        ensures answer { result ≡ min max (run_of have_one_owner self.now.items) }
        ensures kept { result ≤ length self.now.items }
    {
        match self.get(0) {
            Some(change) => self.run_of_owner(change.owner, max),
            None => 0,
        }
    }

    /// The change at a place, counted from 0 at the oldest.
    pub fn get(&self, place: usize) -> Option<&Change>
        ensures { option_copied result ≡ slice_get self.now.items place }
    {
        self.changes.get(place)
    }

    /// How many changes are kept.
    pub fn len(&self) -> usize
        ensures { result ≡ length self.now.items }
    {
        self.changes.len()
    }

    /// Drops the `n` oldest changes, which count as lost or not. That so many are kept is the caller's to see to.
    pub fn drop_front(&mut self, n: usize, is_lost: bool)
        requires { n ≤ length self.old.items }
        ensures { self.new ≡ after_drop self.old n is_lost }
    {
        let left = self.len() - n;
        self.changes.truncate_front(left);
        if is_lost {
            self.count(n as u64);
        }
    }

    /// How many changes were overwritten, or dropped as lost. It stays at the greatest u64.
    pub fn lost(&self) -> u64
        ensures { result ≡ self.now.lost }
    {
        self.lost
    }

    /// Whether the change at a place is of an owner.
    fn is_of(&self, place: usize, owner: Owner) -> bool
        ensures { result ≡ is_at owner (slice_get self.now.items place) }
    {
        match self.get(place) {
            Some(change) => owner.is_same(change.owner),
            None => false,
        }
    }

    /// So many more are lost.
    fn count(&mut self, n: u64)
        ensures items { self.new.items ≡ self.old.items }
        ensures capacity { self.new.capacity ≡ self.old.capacity }
        ensures lost { self.new.lost ≡ counted self.old.lost n }
    {
        self.lost = self.lost.saturating_add(n);
    }

    /// How many changes at the front are of an owner, but no more than `max`.
    fn run_of_owner(&self, owner: Owner, max: usize) -> usize
        ensures { result ≡ min max (prefix_len (is_of owner) self.now.items) }
    {
        let most = max.min(self.len());
        for n in 0..most {
            if !self.is_of(n, owner) {
                return n;
            }
        }
        most
    }
}
