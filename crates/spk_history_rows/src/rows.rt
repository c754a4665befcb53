//! The rows of entries, one after the other.
ghost use Rattle.std.specs.Prelude.{◌≡◌, ◌<◌, ◌≤◌, ◌⊎◌, ◌++◌, [], ◌∷◌, ℕ, List, length, slice_get, IfErr, IfOk, OnErr, OnOk};
ghost use Rattle.std.specs.Option.{option_map};
ghost use Rattle.spk_history.specs.Entry.{EntryData, said};
ghost use Rattle.spk_history_rows.specs.Data.{Follows};
ghost use Rattle.spk_history_rows.specs.Keeping.{IsNaming, birth_at, births_with, place_in};
ghost use Rattle.spk_history_rows.specs.Row.{RowData, is_birth, number_of, row_of};
ghost use Rattle.spk_history_rows.specs.View.{node_view, row_view};

use crate::fault::RowsFault;
use crate::naming::{Number, place_for, place_of};
use crate::node::NodeName;
use crate::row::{Row, is_birth, number};
use spk_history::Entry;
use std::alloc::{AllocError, Global};
use std::marker::Model;

/// The most rows of a history: so many have a place that SQLite counts.
pub const MOST_ROWS: u64 = 0x7fff_ffff_ffff_ffff;

/// What is known behind the entries of a history so far: the nodes that were named, the last birth of each, and which numbers stand for them in the
/// part. Contracts see a `RowsData`.
#[derive(Drop)]
pub struct Rows {
    alloc: Global,
    names: Vec<NodeName>,
    births: Vec<Option<u64>>,
    numbers: Vec<Number>,
    count: u64,
}

impl Model for Rows {
    ghost use Rattle.std.specs.Prelude.{map};
    ghost use Rattle.spk_history_rows.specs.Data.{RowsData};
    ghost use Rattle.spk_history_rows.specs.View.{node_view};

    ghost Value = { RowsData };

    ghost view = { λ r. record {
      names = map node_view r.names.items;
      births = r.births.items;
      numbers = r.numbers.items;
      count = r.count;
    } };
}

impl Rows {
    /// Before the first entry. Takes no memory.
    pub fn new(alloc: Global) -> Rows
        ensures { Follows result [] [] }
    {
        Rows {
            alloc,
            names: Vec::new(alloc),
            births: Vec::new(alloc),
            numbers: Vec::new(alloc),
            count: 0,
        }
    }

    /// The next part begins: its numbers are named anew.
    pub fn begin_part(&mut self)
        ensures names { self.new.names ≡ self.old.names }
        ensures follows { (rows : List RowData) (part : List EntryData) → Follows self.old rows part
            → Follows self.new rows [] }
    {
        self.numbers.clear();
    }

    /// How many rows were given.
    pub fn count(&self) -> u64
        ensures { result ≡ self.now.count }
    {
        self.count
    }

    /// The node at a place.
    pub fn node(&self, place: usize) -> Option<&NodeName>
        ensures { option_map (λ n. node_view n.now) result ≡ slice_get self.now.names place }
    {
        self.names.get(place)
    }

    /// The number of an entry that names a node stands for it from now on.
    fn learn(&mut self, entry: &Entry) -> Result<(), AllocError>
        ensures named { OnOk result (IsNaming self.old (said entry.now) self.new) }
        ensures err { OnErr result (self.new ≡ self.old) }
    {
        let Entry::Node { node, group, name } = entry else {
            return Ok(());
        };
        self.numbers.reserve(1)?;
        let place = place_for(self.alloc, &mut self.names, &mut self.births, group, name)?;
        self.numbers.push_reserved(Number {
            number: *node,
            place,
        });
        Ok(())
    }

    /// The place of the node of an entry, if its number was named.
    fn place_of(&self, entry: &Entry) -> Option<usize>
        ensures { result ≡ place_in self.now (number_of (said entry.now)) }
    {
        match number(entry) {
            Some(number) => place_of(&self.numbers, number),
            None => None,
        }
    }

    /// The row that an entry would have is a birth of its node, if the entry is one.
    fn bear(&mut self, entry: &Entry, node: Option<usize>)
        ensures { self.new ≡ record self.old {
          births = births_with (is_birth (said entry.now)) node self.old.count self.old.births;
        } }
    {
        if !is_birth(entry) {
            return;
        }
        let Some(place) = node else {
            return;
        };
        if place < self.births.len() {
            self.births[place] = Some(self.count);
        }
    }

    /// The last birth of the node at a place.
    fn birth_at(&self, node: Option<usize>) -> Option<u64>
        ensures { result ≡ birth_at self.now.births node }
    {
        let place = node?;
        match self.births.get(place) {
            Some(birth) => *birth,
            None => None,
        }
    }

    /// The row of the next entry. Refused with LongHistory (132) exactly where `MOST_ROWS` were given, and else where memory is; then nothing has
    /// changed.
    pub fn take<'a>(&mut self, entry: &Entry<'a>) -> Result<Row<'a>, RowsFault>
        ensures row { IfOk result (λ row. (rows : List RowData) (part : List EntryData)
            → Follows self.old rows part
            → row_view self.new row ≡ row_of rows part (said entry.now)) }
        ensures entry { IfOk result (λ row. row.entry ≡ entry.now) }
        ensures follows { OnOk result ((rows : List RowData) (part : List EntryData)
            → Follows self.old rows part → Follows self.new
            (rows ++ row_of rows part (said entry.now) ∷ []) (part ++ said entry.now ∷ [])) }
        ensures refused { IfErr result (λ e. (e ≡ RowsFault.NoMemory)
            ⊎ ((e ≡ RowsFault.LongHistory) × (MOST_ROWS ≤ self.old.count))) }
        ensures not_full { OnOk result (self.old.count < MOST_ROWS) }
        ensures err { OnErr result (self.new ≡ self.old) }
    {
        let place = self.count;
        if place >= MOST_ROWS {
            return Err(RowsFault::LongHistory);
        }
        self.learn(entry)?;
        let node = self.place_of(entry);
        self.bear(entry, node);
        let birth = self.birth_at(node);
        self.count = place + 1;
        Ok(Row {
            place,
            node,
            birth,
            entry: *entry,
        })
    }
}
