//! From a node's names to its place, in one step.
ghost use Rattle.std.specs.Prelude.{◌≡◌, ◌<◌, ℕ, List, [], ◌∷◌, Some, None, OnOk, OnErr, IfOk, length, set, slice_get, string_bytes, if◌then◌else◌};
ghost use Rattle.spk_names.specs.Names.{entered, number_in};
ghost use Rattle.spk_host.specs.Index.{IsIndexed, in_table, place_in};
ghost use Rattle.spk_host.specs.Inputs.{is_same};

use spk_names::Names;
use spk_names::laws::found_again;
use std::alloc::{AllocError, Global};
use std::marker::Model;

/// Of each group, by hash, a table of its nodes' names with their places.
#[derive(Drop)]
pub(crate) struct Index {
    groups: Names,
    tables: Vec<Names>,
}

impl Model for Index {
    ghost use Rattle.spk_host.specs.Index.{IndexData, IsLeading};

    ghost Value = { IndexData };

    ghost view = { λ a. record { groups = a.groups; tables = a.tables.items } };

    ghost invariant = { λ a. IsLeading a.groups a.tables.items };
}

/// A table of one name.
fn one_name(alloc: Global, name: String, place: usize) -> Result<Names, AllocError>
    ensures { IfOk result (λ t. t ≡ (string_bytes name, place) ∷ []) }
{
    let mut table = Names::new(alloc);
    table.enter(name, place)?;
    Ok(table)
}

/// One more name in the table of a number.
fn enter_at(
    tables: &mut Vec<Names>,
    number: usize,
    name: String,
    place: usize,
) -> Result<(), AllocError>
    requires { number < length tables.old.items }
    ensures entered { (names : List (List ℕ × ℕ)) → slice_get tables.old.items number ≡ Some names
        → OnOk result (tables.new.items
        ≡ set tables.old.items number (entered names (string_bytes name) place)) }
    ensures unchanged { OnErr result (tables.new.items ≡ tables.old.items) }
    ensures count { length tables.new.items ≡ length tables.old.items }
{
    tables[number].enter(name, place)?;
    Ok(())
}

impl Index {
    /// Of no nodes. Takes no memory.
    pub(crate) fn new(alloc: Global) -> Index
        ensures { IsIndexed [] result }
    {
        Index {
            groups: Names::new(alloc),
            tables: Vec::new(alloc),
        }
    }

    /// The place of a node. Takes no memory.
    pub(crate) fn find(&self, group: &str, node: &str) -> Option<usize>
        ensures { result ≡ place_in self.now group.now node.now }
    {
        let number = self.groups.find(group)?;
        self.tables.get(number)?.find(node)
    }

    /// The place of one more node. Where memory is refused nothing has changed.
    pub(crate) fn enter(
        &mut self,
        alloc: Global,
        group: &str,
        node: &str,
        place: usize,
    ) -> Result<(), AllocError>
        requires { place_in self.old group.now node.now ≡ None }
        ensures entered { OnOk result ((g n : List ℕ) → place_in self.new g n
            ≡ (if is_same g n group.now node.now then Some place else place_in self.old g n)) }
        ensures unchanged { OnErr result (self.new ≡ self.old) }
    {
        let name = String::from_str(alloc, node)?;
        found_again();
        match self.groups.find(group) {
            Some(number) => enter_at(&mut self.tables, number, name, place),
            None => {
                let table = one_name(alloc, name, place)?;
                self.tables.reserve(1)?;
                let group = String::from_str(alloc, group)?;
                self.groups.enter(group, self.tables.len())?;
                self.tables.push_reserved(table);
                Ok(())
            }
        }
    }
}
