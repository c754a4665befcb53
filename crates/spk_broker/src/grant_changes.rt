//! Grants as a SUBSCRIBE or UNSUBSCRIBE changes them (sections 3.8 to 3.11).
ghost use Rattle.std.specs.Prelude.{◌≡◌, not, IfOk, IfSome, is_some, map, string_bytes, false};
ghost use Rattle.std.specs.List.{filter, fold, list_any};
ghost use Rattle.std.specs.Option.{option_map};
ghost use Rattle.std.specs.Str.{bytes_eq};
ghost use Rattle.spk_broker_rules.specs.Table.{has};
ghost use Rattle.spk_broker.specs.Filing.{IsAlike};
ghost use Rattle.spk_broker.specs.Granting.{regranted, standing_grants, taken_from};
ghost use Rattle.spk_broker.specs.Parts.{grant_view};
ghost use Rattle.spk_broker.specs.Tables.{found};

use crate::filters::{FilterTable, named_filters};
use crate::session::{Grant, Session};
use std::alloc::{AllocError, Global};

/// The grants of a session in a SUBSCRIBE: by now, the codes of SUBACK, and the entries that were granted.
#[derive(Debug, Drop)]
pub(crate) struct Granting {
    pub(crate) grants: Vec<Grant>,
    pub(crate) codes: Vec<u8>,
    pub(crate) given: Vec<Grant>,
}

impl Grant {
    pub(crate) fn copied(&self) -> Result<Grant, AllocError>
        ensures { IfOk result (λ g. grant_view g ≡ grant_view self.now) }
    {
        Ok(Grant {
            filter: self.filter.clone()?,
            qos: self.qos,
        })
    }

    /// Whether it is of this filter.
    pub(crate) fn is_of(&self, name: &str) -> bool
        ensures { result ≡ bytes_eq (string_bytes self.now.filter) name.now }
    {
        self.filter.as_str() == name
    }
}

/// The same grants.
pub(crate) fn copied(alloc: Global, grants: &[Grant]) -> Result<Vec<Grant>, AllocError>
    ensures { IfOk result (λ v. map grant_view v.items ≡ map grant_view grants.now) }
{
    let mut same = Vec::new(alloc);
    for grant in grants {
        same.push(grant.copied()?)?;
    }
    Ok(same)
}

fn has_one(grants: &[Grant], name: &str) -> bool
    ensures { result ≡ list_any (λ g. bytes_eq (string_bytes g.filter) name.now) grants.now }
{
    grants.iter().any(|grant| grant.is_of(name))
}

/// Whether a filter is granted.
pub(crate) fn has(grants: &[Grant], name: &str) -> bool
    ensures { result ≡ has name.now (map grant_view grants.now) }
{
    has_one(grants, name)
}

/// Of these grants those whose filters are not in the table.
fn left_by(
    alloc: Global,
    grants: &[Grant],
    taken: &FilterTable<'_>,
) -> Result<Vec<Grant>, AllocError>
    ensures { IfOk result (λ v. map grant_view v.items
        ≡ filter (λ g. not (is_some (found taken.now g.0))) (map grant_view grants.now)) }
{
    let mut left = Vec::new(alloc);
    for grant in grants {
        if !taken.has(grant.filter.as_str()) {
            left.push(grant.copied()?)?;
        }
    }
    Ok(left)
}

/// What is left of these grants where those of these filters are taken back: one pass over them, beside a table of the filters.
pub(crate) fn without(
    alloc: Global,
    grants: &[Grant],
    names: &[String],
) -> Result<Vec<Grant>, AllocError>
    ensures { IfOk result (λ v. map grant_view v.items
        ≡ fold taken_from (map grant_view grants.now)
        (map (λ name. string_bytes name) names.now)) }
{
    let taken = named_filters(alloc, names)?;
    let left = left_by(alloc, grants, &taken)?;
    Ok(left)
}

impl Session {
    /// The grants by now.
    pub(crate) fn grants(&self) -> &[Grant]
        ensures { IfSome self.now.now (λ s. map grant_view result.now ≡ s.grants) }
    {
        match &self.regrant {
            Some(grants) => grants,
            None => &self.grants,
        }
    }

    /// The grants by now, none of a session that ended.
    pub(crate) fn standing(&self) -> &[Grant]
        ensures { map grant_view result.now ≡ standing_grants self.now.now }
    {
        if self.ended {
            return &[];
        }
        self.grants()
    }

    /// The grants of before the call.
    pub(crate) fn grants_before(&self) -> &[Grant]
        ensures { map grant_view result.now ≡ self.now.was.grants }
    {
        &self.grants
    }

    /// Whether this call may have changed its grants, or ended it.
    pub(crate) fn is_turned(&self) -> bool
        ensures { result ≡ false → IsAlike self.now }
    {
        self.ended || self.regrant.is_some()
    }

    /// Other grants.
    pub(crate) fn set_grants(&mut self, grants: Vec<Grant>)
        ensures was { self.new.was ≡ self.old.was }
        ensures now { self.new.now
            ≡ option_map (regranted (map grant_view grants.items)) self.old.now }
    {
        self.regrant = Some(grants);
    }
}
