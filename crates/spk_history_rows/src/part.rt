//! The rows of a part, from its bytes.
ghost use Rattle.std.specs.Prelude.{◌≡◌, ◌≤◌, ◌⊎◌, ◌++◌, [], ◌∷◌, List, drop, IfErr, IfNone, IfOk, IfSome, OnErr};
ghost use Rattle.spk_history.specs.Entry.{EntryData, said};
ghost use Rattle.spk_history.specs.File.{Holds, IsFront};
ghost use Rattle.spk_history_rows.specs.Data.{Follows};
ghost use Rattle.spk_history_rows.specs.Part.{Gave, IsAt};
ghost use Rattle.spk_history_rows.specs.Row.{RowData, row_of};

use crate::fault::RowsFault;
use crate::row::Row;
use crate::rows::{MOST_ROWS, Rows};
use spk_history::{Entries, Entry, Front};
use std::marker::Model;

/// The rows of the bytes behind a part's head, one after the other. Contracts see a `PartData`.
#[derive(Debug, Drop)]
pub struct PartRows<'a> {
    entries: Entries<'a>,
    /// The entry of the next row, which `entries` gave.
    next: Option<Entry<'a>>,
}

impl<'a> Model for PartRows<'a> {
    ghost use Rattle.std.specs.Option.{option_map};
    ghost use Rattle.spk_history.specs.Entry.{said};
    ghost use Rattle.spk_history_rows.specs.Part.{PartData};

    ghost Value = { PartData };

    ghost view = { λ p. record { entries = p.entries; next = option_map said p.next } };
}

impl<'a> PartRows<'a> {
    /// Those of these bytes, which stand behind a head.
    pub fn new(bytes: &'a [u8]) -> PartRows<'a>
        ensures bytes { result.entries.bytes ≡ bytes.now }
        ensures first { IsAt result [] }
    {
        let mut entries = Entries::new(bytes);
        let next = entries.next();
        PartRows { entries, next }
    }

    /// The next row: of the record that stands there. None where no record does, one that is cut off neither. Refused as `Rows::take` says; then
    /// nothing has changed.
    pub fn next(&mut self, rows: &mut Rows) -> Result<Option<Row<'a>>, RowsFault>
        ensures bytes { self.new.entries.bytes ≡ self.old.entries.bytes }
        ensures row { IfOk result (λ found. IfSome found
            (λ row. Gave rows.old self.old row rows.new self.new)) }
        ensures over { IfOk result (λ found. IfNone found ((part : List EntryData)
            → IsAt self.old part
            → Holds self.old.entries.bytes part (drop self.old.entries.whole self.old.entries.bytes))) }
        ensures end { IfOk result (λ found. IfNone found ((self.new ≡ self.old) × (rows.new ≡ rows.old))) }
        ensures refused { IfErr result (λ e. (e ≡ RowsFault.NoMemory)
            ⊎ ((e ≡ RowsFault.LongHistory) × (MOST_ROWS ≤ rows.old.count))) }
        ensures err { OnErr result (self.new ≡ self.old) }
        ensures rows { OnErr result (rows.new ≡ rows.old) }
    {
        let Some(entry) = self.next else {
            return Ok(None);
        };
        let row = rows.take(&entry)?;
        self.next = self.entries.next();
        Ok(Some(row))
    }

    /// How many of the bytes are the records of the rows, once `next` gives none.
    pub fn whole(&self) -> usize
        ensures { result ≡ self.now.entries.whole }
    {
        self.entries.whole()
    }

    /// What stands behind them.
    pub fn front(&self) -> Front<'a>
        ensures { IsFront (drop self.now.entries.whole self.now.entries.bytes) result }
    {
        self.entries.front()
    }
}
