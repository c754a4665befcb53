//! Names of what stands in a list.
ghost use Rattle.std.specs.Prelude.{◌≡◌, ◌<◌, ◌++◌, ◌∷◌, [], Some, None, OnOk, OnErr, string_bytes, length, slice_get};
ghost use Rattle.std.specs.Option.{option_map};
ghost use Rattle.spk_names.specs.Names.{number_in};

use spk_names::Names;
use std::alloc::AllocError;

/// The number of the name at a place.
pub(crate) fn at(names: &Names, place: usize) -> usize
    requires { place < length names.now }
    ensures { Some result ≡ option_map (λ e. e.1) (slice_get names.now place) }
{
    match names.at(place) {
        Some(number) => number,
        None => unreachable!(),
    }
}

/// A new name goes last, and what it names goes last too. Where that fails nothing has changed.
pub(crate) fn enter_with<T: Drop>(
    names: &mut Names,
    items: &mut Vec<T>,
    name: String,
    item: T,
) -> Result<(), AllocError>
    requires { number_in names.old (string_bytes name) ≡ None }
    ensures names { OnOk result
        (names.new ≡ names.old ++ (string_bytes name, length items.old.items) ∷ []) }
    ensures items { OnOk result (items.new.items ≡ items.old.items ++ item ∷ []) }
    ensures names_err { OnErr result (names.new ≡ names.old) }
    ensures items_err { OnErr result (items.new.items ≡ items.old.items) }
{
    items.reserve(1)?;
    names.enter(name, items.len())?;
    items.push(item)?;
    Ok(())
}
