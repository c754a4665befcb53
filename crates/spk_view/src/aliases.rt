//! The places of metrics by their aliases.
ghost use Rattle.std.specs.Prelude.{◌≡◌, ℕ, [], Some, IfOk, OnOk, if◌then◌else◌};
ghost use Rattle.spk_host_rules.specs.Table.{is_alias};
ghost use Rattle.spk_view.specs.Indexed.{place_in};

use crate::keys::Keys;
use std::alloc::{AllocError, Global};
use std::marker::Model;

/// Aliases, each once with a place, in the order in which they were first entered. Contracts see the list of pairs.
#[derive(Drop)]
pub(crate) struct Aliases {
    keys: Keys,
    places: Vec<usize>,
}

impl Model for Aliases {
    ghost use Rattle.std.specs.Prelude.{◌≡◌, ℕ, List, length};
    ghost use Rattle.std.specs.List.{zip};

    ghost Value = { List (ℕ × ℕ) };

    ghost view = { λ a. zip a.keys.keys a.places.items };

    ghost invariant = { λ a. length a.places.items ≡ length a.keys.keys };
}

impl Aliases {
    /// No aliases. Takes no memory.
    pub(crate) fn new(alloc: Global) -> Aliases
        ensures { result ≡ [] }
    {
        Aliases {
            keys: Keys::new(alloc),
            places: Vec::new(alloc),
        }
    }

    /// No aliases, with room for so many.
    pub(crate) fn with_room(alloc: Global, count: usize) -> Result<Aliases, AllocError>
        ensures { IfOk result (λ aliases. aliases ≡ []) }
    {
        Ok(Aliases {
            keys: Keys::with_room(alloc, count)?,
            places: Vec::with_capacity(alloc, count)?,
        })
    }

    /// The place that was entered last for an alias.
    pub(crate) fn find(&self, alias: u64) -> Option<usize>
        ensures { result ≡ place_in self.now alias }
    {
        let at = self.keys.last(alias)?;
        Some(self.places[at])
    }

    /// Enters the place of an alias, if there is one.
    pub(crate) fn enter(&mut self, alias: Option<u64>, place: usize) -> Result<(), AllocError>
        ensures { OnOk result ((q : ℕ)
            → place_in self.new q
            ≡ (if is_alias alias q then Some place else place_in self.old q)) }
    {
        let Some(alias) = alias else {
            return Ok(());
        };
        if let Some(at) = self.keys.last(alias) {
            self.places[at] = place;
            return Ok(());
        }
        self.places.reserve(1)?;
        self.keys.push(alias)?;
        self.places.push_reserved(place);
        Ok(())
    }
}
