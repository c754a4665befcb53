//! The slots of the reorder window.
ghost use Rattle.std.specs.Prelude.{◌≡◌, ℕ, ◌+◌, ◌%◌, ◌<◌, ◌≤◌, List, length, get_or, set, replicate, Option, Some, None, not, is_some, if◌then◌else◌, nat_lt};
ghost use Rattle.std.specs.List.{list_any};
ghost use Rattle.spk_sequence.specs.Step.{run_of, is_kept};
ghost use Rattle.spk_sequence.specs.Slots.{places_of, IsClearedTo, IsKeptBy};

use std::marker::Model;

/// One slot for each sequence number modulo 128: a bit that says whether a message is held, and
/// the stamp of that message.
#[derive(Debug, Drop)]
pub(crate) struct Slots {
    mask: u128,
    stamps: [Option<u64>; 128],
}

impl Model for Slots {
    ghost use Rattle.std.specs.Prelude.{ℕ, ◌≡◌, ◌<◌, ◌^◌, List, length, Option};
    ghost use Rattle.spk_sequence.specs.Slots.{slots_of};

    ghost Value = { List (Option (Option ℕ)) };

    ghost view = { λ s. slots_of s.mask s.stamps };

    ghost invariant = { λ s. (s.mask < 2 ^ 128) × (length s.stamps ≡ 128) };
}

impl Slots {
    pub(crate) fn new() -> Slots
        ensures { result ≡ replicate 128 None }
    {
        Slots {
            mask: 0,
            stamps: [None; 128],
        }
    }

    /// Slots that hold the same.
    pub(crate) fn copied(&self) -> Slots
        ensures { result ≡ self.now }
    {
        Slots {
            mask: self.mask,
            stamps: self.stamps,
        }
    }

    /// What a slot holds.
    pub(crate) fn get(&self, slot: u8) -> Option<Option<u64>>
        requires { slot < 128 }
        ensures entry { result ≡ get_or self.now slot None }
        ensures sized { length self.now ≡ 128 }
    {
        if self.mask >> slot & 1 == 1 {
            Some(self.stamps[slot as usize])
        } else {
            None
        }
    }

    pub(crate) fn put(&mut self, slot: u8, stamp: Option<u64>)
        requires { slot < 128 }
        ensures { self.new ≡ set self.old slot (Some stamp) }
    {
        self.mask |= 1 << slot;
        self.stamps[slot as usize] = stamp;
    }

    pub(crate) fn clear(&mut self, slot: u8)
        requires { slot < 128 }
        ensures { self.new ≡ set self.old slot None }
    {
        self.mask &= !(1 << slot);
    }

    pub(crate) fn clear_all(&mut self)
        ensures { self.new ≡ replicate 128 None }
    {
        self.mask = 0;
    }

    pub(crate) fn is_empty(&self) -> bool
        ensures { result ≡ not (list_any is_some self.now) }
    {
        self.mask == 0
    }

    /// How many slots are full in a row from a number on, at most so many.
    pub(crate) fn run(&self, from: u8, width: u8) -> u8
        requires { width ≤ 128 }
        ensures count { result ≡ run_of (places_of self.now from width) }
        ensures bounded { result ≤ width }
    {
        let first = self.get(from % 128);
        if first.is_none() {
            return 0;
        }
        for place in 0..width {
            if self.get(from.wrapping_add(place) % 128).is_none() {
                return place;
            }
        }
        width
    }

    /// Empties the slots that are full in a row from a number on, and says how many they are, at most so many.
    pub(crate) fn take_run(&mut self, from: u8, width: u8) -> u8
        requires few { width ≤ 128 }
        requires sized { length self.old ≡ 128 }
        ensures count { result ≡ run_of (places_of self.old from width) }
        ensures bounded { result ≤ width }
        ensures cleared { IsClearedTo self.old self.new from result }
    {
        for place in 0..width {
            let slot = from.wrapping_add(place) % 128;
            if self.get(slot).is_none() {
                return place;
            }
            self.clear(slot);
        }
        width
    }

    /// Whether a birth of this stamp keeps what a slot holds.
    fn is_kept(&self, slot: u8, stamp: u64) -> bool
        requires { slot < 128 }
        ensures { result ≡ is_kept (get_or self.now slot None) stamp }
    {
        match self.get(slot) {
            Some(Some(own)) => stamp <= own,
            _ => false,
        }
    }

    /// Empties the slots that a birth of this number and stamp does not keep. Until now the places
    /// were counted from `from`, so each slot stands for one number.
    pub(crate) fn keep(&mut self, from: u8, width: u8, number: u8, stamp: u64)
        requires { length self.old ≡ 128 }
        ensures { IsKeptBy self.old self.new from width number stamp }
    {
        if self.is_empty() {
            return;
        }
        for slot in 0..128u8 {
            let past = from
                .wrapping_add(slot.wrapping_sub(from) % 128)
                .wrapping_sub(number);
            if past == 0 || past >= width || !self.is_kept(slot, stamp) {
                self.clear(slot);
            }
        }
    }
}
