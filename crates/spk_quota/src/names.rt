//! Texts, each once: what looks for one compares it with few others, however many there are and whatever they are.
ghost use Rattle.std.specs.Prelude.{◌≡◌, ◌||◌, ℕ, List, IfOk, OnOk, false, map};
ghost use Rattle.std.specs.List.{list_any};
ghost use Rattle.std.specs.Str.{bytes_eq};
ghost use Rattle.spk_quota.specs.Names.{has};
ghost use Rattle.spk_quota.specs.Step.{is_it};

use crate::filters::Filter;
use std::alloc::{AllocError, Global};
use std::collections::BTreeMap;

/// Texts, each once.
#[derive(Drop)]
pub(crate) struct Names<'a> {
    by_text: BTreeMap<&'a str, ()>,
}

impl<'a> Names<'a> {
    /// None.
    pub(crate) fn new(alloc: Global) -> Names<'a>
        ensures { (name : List ℕ) → has result name ≡ false }
    {
        Names {
            by_text: BTreeMap::new(alloc),
        }
    }

    /// Whether this is one of them. It takes no memory.
    pub(crate) fn has(&self, name: &str) -> bool
        ensures { result ≡ has self.now name.now }
    {
        self.by_text.contains_key(name)
    }

    /// This is one of them.
    pub(crate) fn note(&mut self, name: &'a str) -> Result<(), AllocError>
        ensures { OnOk result ((other : List ℕ) → has self.new other ≡ (bytes_eq name.now other || has self.old other)) }
    {
        self.by_text.insert(name, ())?;
        Ok(())
    }
}

/// These texts.
pub(crate) fn names_of<'a>(alloc: Global, texts: &[&'a str]) -> Result<Names<'a>, AllocError>
    ensures { IfOk result (λ t. (name : List ℕ) → has t name
        ≡ list_any (λ n. bytes_eq n name) (map (λ n. n.now) texts.now)) }
{
    let mut names = Names::new(alloc);
    for text in texts {
        names.note(text)?;
    }
    Ok(names)
}

/// The filters of a session.
pub(crate) fn filters_of<'a>(
    alloc: Global,
    filters: &'a [Filter],
    user: usize,
    client: &str,
) -> Result<Names<'a>, AllocError>
    ensures { IfOk result (λ t. (name : List ℕ) → has t name
        ≡ list_any (is_it user client.now name) filters.now) }
{
    let mut names = Names::new(alloc);
    for filter in filters {
        if filter.is_of(user, client) {
            names.note(filter.text())?;
        }
    }
    Ok(names)
}
