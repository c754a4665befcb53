//! Filters by their text: what looks for one compares it with few others, however many there are and whatever they are.
ghost use Rattle.std.specs.Prelude.{◌≡◌, ℕ, List, IfOk, OnOk, None, Some, is_some, map, string_bytes, if◌then◌else◌};
ghost use Rattle.std.specs.List.{list_any};
ghost use Rattle.std.specs.Str.{bytes_eq};
ghost use Rattle.spk_broker_rules.specs.Table.{has};
ghost use Rattle.spk_broker.specs.Parts.{grant_view};
ghost use Rattle.spk_broker.specs.Tables.{found, last_of};

use crate::session::Grant;
use std::alloc::{AllocError, Global};
use std::collections::BTreeMap;

/// Filters, each with the QoS of the last entry of this call that is of it, where one is.
#[derive(Drop)]
pub(crate) struct FilterTable<'a> {
    by_text: BTreeMap<&'a str, Option<u8>>,
}

impl<'a> FilterTable<'a> {
    /// None.
    fn new(alloc: Global) -> FilterTable<'a>
        ensures { (name : List ℕ) → found result name ≡ None }
    {
        FilterTable {
            by_text: BTreeMap::new(alloc),
        }
    }

    /// Whether this filter is among them. It takes no memory.
    pub(crate) fn has(&self, name: &str) -> bool
        ensures { result ≡ is_some (found self.now name.now) }
    {
        self.by_text.contains_key(name)
    }

    /// The QoS of the last entry that is of this filter. It takes no memory.
    pub(crate) fn last(&self, name: &str) -> Option<u8>
        ensures { result ≡ last_of (found self.now name.now) }
    {
        match self.by_text.get(name) {
            Some(qos) => *qos,
            None => None,
        }
    }

    /// This filter is among them, with this QoS.
    pub(crate) fn note(&mut self, name: &'a str, qos: Option<u8>) -> Result<(), AllocError>
        ensures { OnOk result ((other : List ℕ) → found self.new other
            ≡ (if bytes_eq name.now other then Some qos else found self.old other)) }
    {
        self.by_text.insert(name, qos)?;
        Ok(())
    }
}

/// The filters of these grants.
pub(crate) fn granted_filters<'a>(
    alloc: Global,
    grants: &'a [Grant],
) -> Result<FilterTable<'a>, AllocError>
    ensures { IfOk result (λ t. (name : List ℕ) → found t name
        ≡ (if has name (map grant_view grants.now) then Some None else None)) }
{
    let mut table = FilterTable::new(alloc);
    for grant in grants {
        table.note(grant.filter.as_str(), None)?;
    }
    Ok(table)
}

/// These filters.
pub(crate) fn named_filters<'a>(
    alloc: Global,
    names: &'a [String],
) -> Result<FilterTable<'a>, AllocError>
    ensures { IfOk result (λ t. (name : List ℕ) → is_some (found t name)
        ≡ list_any (λ n. bytes_eq n name) (map (λ n. string_bytes n) names.now)) }
{
    let mut table = FilterTable::new(alloc);
    for name in names {
        table.note(name.as_str(), None)?;
    }
    Ok(table)
}
