//! Which node a number stands for in a part.
ghost use Rattle.std.specs.Prelude.{◌≡◌, ◌≢◌, ◌++◌, [], ◌∷◌, ℕ, Some, None, length, map, slice_get, IfNone, IfOk, IfSome, OnErr, OnOk};
ghost use Rattle.spk_history_rows.specs.Data.{place_of};
ghost use Rattle.spk_history_rows.specs.Keeping.{HasPlace};
ghost use Rattle.spk_history_rows.specs.Row.{last};
ghost use Rattle.spk_history_rows.specs.View.{node_view};

use crate::node::{NodeName, node_name};
use std::alloc::{AllocError, Global};

/// A number, and the place of the node that it stands for.
#[derive(Clone, Copy, Debug)]
pub(crate) struct Number {
    pub(crate) number: u32,
    pub(crate) place: usize,
}

/// The place that a number was given last.
pub(crate) fn place_of(numbers: &[Number], number: u32) -> Option<usize>
    ensures { result ≡ last (place_of number) numbers.now }
{
    let mut left = numbers.len();
    while left > 0 {
        left -= 1;
        let given = numbers[left];
        if given.number == number {
            return Some(given.place);
        }
    }
    None
}

/// The place of the node of these names.
pub(crate) fn place_named(names: &[NodeName], group: &str, name: &str) -> Option<usize>
    ensures some { IfSome result (λ i. slice_get (map node_view names.now) i
        ≡ Some (record { group = group.now; name = name.now })) }
    ensures none { IfNone result ((i : ℕ) → slice_get (map node_view names.now) i
        ≢ Some (record { group = group.now; name = name.now })) }
{
    for (i, node) in names.iter().enumerate() {
        if node.is(group, name) {
            return Some(i);
        }
    }
    None
}

/// A node is named for the first time. Answers its place.
fn enter(
    alloc: Global,
    names: &mut Vec<NodeName>,
    births: &mut Vec<Option<u64>>,
    group: &str,
    name: &str,
) -> Result<usize, AllocError>
    ensures place { IfOk result (λ i. i ≡ length (map node_view names.old.items)) }
    ensures names { OnOk result (map node_view names.new.items
        ≡ map node_view names.old.items ++ record { group = group.now; name = name.now } ∷ []) }
    ensures births { OnOk result (births.new.items ≡ births.old.items ++ None ∷ []) }
    ensures same { OnErr result (names.new.items ≡ names.old.items) }
    ensures err { OnErr result (births.new.items ≡ births.old.items) }
{
    let place = names.len();
    names.reserve(1)?;
    births.reserve(1)?;
    let node = node_name(alloc, group, name)?;
    names.push_reserved(node);
    births.push_reserved(None);
    Ok(place)
}

/// The place of a node, which is new where it wasn't named.
pub(crate) fn place_for(
    alloc: Global,
    names: &mut Vec<NodeName>,
    births: &mut Vec<Option<u64>>,
    group: &str,
    name: &str,
) -> Result<usize, AllocError>
    ensures place { IfOk result (λ i. HasPlace (map node_view names.old.items) births.old.items
        (record { group = group.now; name = name.now }) i
        (map node_view names.new.items) births.new.items) }
    ensures same { OnErr result (names.new.items ≡ names.old.items) }
    ensures err { OnErr result (births.new.items ≡ births.old.items) }
{
    match place_named(names, group, name) {
        Some(place) => Ok(place),
        None => enter(alloc, names, births, group, name),
    }
}
