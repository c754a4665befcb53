//! The values that commands ask to be written to the machine.
ghost use Rattle.std.specs.Prelude.{◌≡◌, drop, slice_get, IfOk};
ghost use Rattle.spk_store.specs.Step.{after_push, counted, empty_store, is_full, last_of};
ghost use Rattle.spk_edge_app.specs.Step.{after_pushes, most_writes};

use circular_buffer::HeapCircularBuffer;
use spk_edge::Write;
use std::alloc::{AllocError, Global};
use std::marker::Model;

/// How many wait at most (own rule).
const MOST: usize = 4_096;

/// The values that wait, the oldest first: the last 4,096 of them. Contracts see them with the count of those that were dropped (`Kept`).
#[derive(Drop)]
pub(crate) struct Writes {
    ring: HeapCircularBuffer<Write>,
    lost: u64,
}

impl Model for Writes {
    ghost use Rattle.std.specs.Prelude.{◌≤◌, ℕ};
    ghost use Rattle.spk_edge.specs.declared.message.Write.{Write};
    ghost use Rattle.spk_store.specs.Data.{Kept};

    ghost Value = { Kept Write };

    ghost view = { λ w. record { items = w.ring.items; capacity = w.ring.capacity; lost = w.lost } };

    ghost invariant = { λ w. (1 ≤ w.ring.capacity) × (w.ring.capacity ≤ 4096) };
}

impl Writes {
    /// None waits, and there is room for all that may.
    pub(crate) fn new(alloc: Global) -> Result<Writes, AllocError>
        ensures { IfOk result (λ w. w ≡ empty_store most_writes) }
    {
        let ring = HeapCircularBuffer::with_capacity(alloc, MOST)?;
        Ok(Writes { ring, lost: 0 })
    }

    /// One more waits. Where there is no room the oldest is dropped, and counts.
    pub(crate) fn push(&mut self, write: Write)
        ensures { self.new ≡ after_push self.old write }
    {
        let old = self.ring.push_back(write);
        if old.is_some() {
            self.lost = self.lost.saturating_add(1);
        }
    }

    /// These wait too, in order.
    pub(crate) fn push_all(&mut self, writes: Vec<Write>)
        ensures { self.new ≡ after_pushes self.old writes.items }
    {
        for write in writes {
            self.push(write);
        }
    }

    /// The oldest one, which waits no more.
    pub(crate) fn next(&mut self) -> Option<Write>
        ensures value { result ≡ slice_get self.old.items 0 }
        ensures rest { self.new ≡ record self.old { items = drop 1 self.old.items } }
    {
        self.ring.pop_front()
    }

    /// How many were dropped. It stays at the greatest u64.
    pub(crate) fn lost(&self) -> u64
        ensures { result ≡ self.now.lost }
    {
        self.lost
    }
}
