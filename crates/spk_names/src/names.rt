//! The table of names.
ghost use Rattle.std.specs.Prelude.{◌≡◌, ◌<◌, [], None, OnOk, OnErr, IfOk, is_none, string_bytes, length, slice_get};
ghost use Rattle.std.specs.Option.{option_map};
ghost use Rattle.spk_names.specs.Names.{number_in, entered};

use indexmap::IndexMap;
use std::alloc::{AllocError, Global};
use std::fmt;
use std::marker::Model;

/// Names with numbers, no two of one name. Contracts see them as the list of pairs of a name's bytes and its number, in the
/// order in which they were entered.
#[derive(Drop)]
pub struct Names {
    table: IndexMap<String, usize>,
}

impl fmt::Debug for Names {
    fn fmt<W: fmt::Write>(&self, f: &mut fmt::Formatter<W>) -> fmt::Result {
        f.write_str("Names { .. }")
    }
}

impl Model for Names {
    ghost use Rattle.std.specs.Prelude.{ℕ, List, map, string_bytes};

    ghost Value = { List (List ℕ × ℕ) };

    ghost view = { λ a. map (λ e. (string_bytes e.0, e.1)) a.table.entries };
}

impl Names {
    /// No names.
    pub fn new(alloc: Global) -> Names
        ensures { result ≡ [] }
    {
        Names {
            table: IndexMap::new(alloc),
        }
    }

    /// The number of a name. It takes no memory.
    pub fn find(&self, name: &str) -> Option<usize>
        ensures { result ≡ number_in self.now name.now }
    {
        self.table.get(name).copied()
    }

    /// How many names there are.
    pub fn len(&self) -> usize
        ensures { result ≡ length self.now }
    {
        self.table.len()
    }

    /// The number of the name at a place, counted from 0 in order of entering. It takes no memory.
    pub fn at(&self, place: usize) -> Option<usize>
        ensures { result ≡ option_map (λ e. e.1) (slice_get self.now place) }
    {
        match self.table.get_index(place) {
            Some((_, number)) => Some(*number),
            None => None,
        }
    }

    /// Enters a name with its number, behind the others, and says whether it is new. A name that is there keeps its number.
    /// It fails only for a new name and where a growth was refused, and then nothing has changed.
    pub fn enter(&mut self, name: String, number: usize) -> Result<bool, AllocError>
        ensures is_new { IfOk result
            (λ is_new. is_new ≡ is_none (number_in self.old (string_bytes name))) }
        ensures ok { OnOk result (self.new ≡ entered self.old (string_bytes name) number) }
        ensures err { OnErr result (self.new ≡ self.old) }
        ensures fails_new { OnErr result (number_in self.old (string_bytes name) ≡ None) }
    {
        match self.find(name.as_str()) {
            Some(_) => Ok(false),
            None => self.push(name, number),
        }
    }

    /// A new name goes last.
    fn push(&mut self, name: String, number: usize) -> Result<bool, AllocError>
        requires { number_in self.old (string_bytes name) ≡ None }
        ensures is_new { IfOk result
            (λ is_new. is_new ≡ is_none (number_in self.old (string_bytes name))) }
        ensures ok { OnOk result (self.new ≡ entered self.old (string_bytes name) number) }
        ensures err { OnErr result (self.new ≡ self.old) }
    {
        self.table.insert(name, number)?;
        Ok(true)
    }
}
