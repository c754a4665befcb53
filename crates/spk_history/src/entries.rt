//! The entries of a file, one after the other.
ghost use Rattle.std.specs.Prelude.{◌≡◌, ◌≤◌, ◌+◌, ◌++◌, [], ◌∷◌, drop, length, take, IfNone, IfSome, List};
ghost use Rattle.spk_history.specs.Entries.{AreTaken, EntriesData};
ghost use Rattle.spk_history.specs.Entry.{EntryData, said};
ghost use Rattle.spk_history.specs.File.{Holds, IsFront};

use crate::entry::Entry;
use crate::reading::{Front, read};
use std::marker::Model;

/// The entries of bytes behind a head, one after the other.
#[derive(Debug, Drop)]
pub struct Entries<'a> {
    bytes: &'a [u8],
    /// How many of the bytes are the records of the entries that were given.
    whole: usize,
}

impl<'a> Model for Entries<'a> {
    ghost use Rattle.std.specs.Prelude.{◌≤◌, length};
    ghost use Rattle.spk_history.specs.Entries.{EntriesData};

    ghost Value = { EntriesData };

    ghost view = { λ e. record { bytes = e.bytes.now; whole = e.whole } };

    ghost invariant = { λ e. e.whole ≤ length e.bytes.now };
}

impl<'a> Entries<'a> {
    /// Those of these bytes, which stand behind a head.
    pub fn new(bytes: &'a [u8]) -> Entries<'a>
        ensures bytes { result.bytes ≡ bytes.now }
        ensures none { AreTaken result [] }
    {
        Entries { bytes, whole: 0 }
    }

    /// The next entry; none where no record stands there.
    pub fn next(&mut self) -> Option<Entry<'a>>
        ensures bytes { self.new.bytes ≡ self.old.bytes }
        ensures taken { IfSome result (λ entry. (entries : List EntryData) → AreTaken self.old entries
            → AreTaken self.new (entries ++ said entry ∷ [])) }
        ensures over { IfNone result ((self.new ≡ self.old) × ((entries : List EntryData)
            → AreTaken self.old entries → Holds self.old.bytes entries (drop self.old.whole self.old.bytes))) }
    {
        match self.front() {
            Front::Record { entry, len } => {
                self.whole += len;
                Some(entry)
            }
            Front::End => None,
            Front::Torn => None,
            Front::Broken => None,
        }
    }

    /// How many of the bytes are the records of the entries that were given.
    pub fn whole(&self) -> usize
        ensures { result ≡ self.now.whole }
    {
        self.whole
    }

    /// What stands behind them: where `next` gives none, whether the bytes end there.
    pub fn front(&self) -> Front<'a>
        ensures { IsFront (drop self.now.whole self.now.bytes) result }
    {
        read(&self.bytes[self.whole..])
    }
}
