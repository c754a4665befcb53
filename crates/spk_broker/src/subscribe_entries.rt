//! The entries of a SUBSCRIBE, one after the other (section 3.8.4). A table tells which filters stand, so that an entry costs no look over all
//! grants; those that stood get their QoS at the end, in one pass.
ghost use Rattle.std.specs.Prelude.{◌≡◌, [], IfOk, OnOk, length, map, string_bytes, true};
ghost use Rattle.std.specs.List.{fold};
ghost use Rattle.spk_packets.specs.View.{request_view};
ghost use Rattle.spk_broker_rules.specs.Table.{has, put};
ghost use Rattle.spk_broker.specs.Filters.{AreFilters, is_filter};
ghost use Rattle.spk_broker.specs.Granting.{granting_view, may_grant, with_request};
ghost use Rattle.spk_broker.specs.Parts.{grant_view};
ghost use Rattle.spk_broker.specs.Tables.{AreTold, found, renewed, requests_view, with_last};

use crate::filters::{FilterTable, granted_filters};
use crate::grant_changes::{Granting, copied};
use crate::session::Grant;
use spk_packets::Request;
use std::alloc::{AllocError, Global};

/// The most pairs of session and filter (own rule).
const MOST_GRANTS: usize = 10_000;

/// A SUBSCRIBE so far.
#[derive(Drop)]
pub(crate) struct Requests<'a> {
    /// Of grants that stood before it the QoS is that of before.
    granting: Granting,
    /// The filters of the grants.
    standing: FilterTable<'a>,
}

impl Grant {
    /// It gets the QoS of the last entry that is of its filter.
    fn renew(&mut self, standing: &FilterTable<'_>)
        ensures { self.new ≡ renewed (found standing.now) self.old }
    {
        if let Some(qos) = standing.last(self.filter.as_str()) {
            self.qos = qos;
        }
    }
}

/// Each gets the QoS of the last entry that is of its filter.
fn renew_all(grants: &mut [Grant], standing: &FilterTable<'_>)
    ensures { map grant_view grants.new
        ≡ map (with_last (found standing.now)) (map grant_view grants.old) }
{
    for grant in grants.iter_mut() {
        grant.renew(standing);
    }
}

impl<'a> Requests<'a> {
    /// No entry yet, in a session with these grants.
    pub(crate) fn new(alloc: Global, grants: &'a [Grant]) -> Result<Requests<'a>, AllocError>
        ensures view { IfOk result (λ r. requests_view r
            ≡ record { grants = map grant_view grants.now; codes = []; given = [] }) }
        ensures told { IfOk result (λ r. AreTold r) }
    {
        let granting = Granting {
            grants: copied(alloc, grants)?,
            codes: Vec::new(alloc),
            given: Vec::new(alloc),
        };
        let standing = granted_filters(alloc, grants)?;
        Ok(Requests { granting, standing })
    }

    /// Whether a filter is granted.
    fn stands(&self, name: &str) -> bool
        requires { AreTold self.now }
        ensures { result ≡ has name.now (requests_view self.now).grants }
    {
        self.standing.has(name)
    }

    /// How many grants there are.
    fn count(&self) -> usize
        ensures { result ≡ length (requests_view self.now).grants }
    {
        self.granting.grants.len()
    }

    /// Whether a filter stands, or there may be one more beside those of the other sessions (own rule).
    fn may_grant(&self, others: usize, name: &str) -> bool
        requires { AreTold self.now }
        ensures { result ≡ may_grant others (requests_view self.now).grants name.now }
    {
        self.stands(name) || self.count() < MOST_GRANTS.saturating_sub(others)
    }

    /// A filter that is granted keeps its place, a new one goes last.
    fn put(&mut self, filter: &'a String, qos: u8) -> Result<(), AllocError>
        requires filter { is_filter (string_bytes filter.now) ≡ true }
        requires told { AreTold self.old }
        ensures told { OnOk result (AreTold self.new) }
        ensures view { OnOk result (requests_view self.new ≡ record (requests_view self.old) {
          grants = put (string_bytes filter.now) qos (requests_view self.old).grants;
        }) }
    {
        let stands = self.stands(filter.as_str());
        self.standing.note(filter.as_str(), Some(qos))?;
        if stands {
            return Ok(());
        }
        self.granting.grants.push(Grant {
            filter: filter.clone()?,
            qos,
        })?;
        Ok(())
    }

    /// One more entry.
    fn request(&mut self, others: usize, entry: &'a Request) -> Result<(), AllocError>
        requires filter { is_filter (request_view entry.now).0 ≡ true }
        requires told { AreTold self.old }
        ensures told { OnOk result (AreTold self.new) }
        ensures view { OnOk result
            (requests_view self.new
            ≡ with_request others (requests_view self.old) (request_view entry.now)) }
    {
        if !self.may_grant(others, entry.filter.as_str()) {
            self.granting.codes.push(128)?;
            return Ok(());
        }
        let qos = entry.qos.min(1);
        self.put(&entry.filter, qos)?;
        self.granting.codes.push(qos)?;
        self.granting.given.push(Grant {
            filter: entry.filter.clone()?,
            qos,
        })?;
        Ok(())
    }

    /// All entries, in their order.
    pub(crate) fn request_all(
        &mut self,
        others: usize,
        entries: &'a [Request],
    ) -> Result<(), AllocError>
        requires filters { AreFilters (map request_view entries.now) }
        requires told { AreTold self.old }
        ensures { OnOk result (requests_view self.new
            ≡ fold (with_request others) (requests_view self.old) (map request_view entries.now)) }
    {
        for entry in entries {
            self.request(others, entry)?;
        }
        Ok(())
    }

    /// What came of it.
    pub(crate) fn settled(self) -> Granting
        ensures { granting_view result ≡ requests_view self.entry }
    {
        let Requests { granting, standing } = self;
        let mut granting = granting;
        renew_all(&mut granting.grants, &standing);
        granting
    }
}
