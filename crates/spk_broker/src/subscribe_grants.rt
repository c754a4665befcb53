//! How many grants there are, and which entries of a SUBSCRIBE are granted (section 3.8.4).
ghost use Rattle.std.specs.Prelude.{◌≡◌, ◌+◌, ◌<◌, ◌≤◌, ◌^◌, IfOk, IfSome, get_or, length, map, min, true};
ghost use Rattle.std.specs.List.{fold, list_all};
ghost use Rattle.spk_packets.specs.Grammar.{is_grant};
ghost use Rattle.spk_packets.specs.View.{request_view};
ghost use Rattle.spk_broker_rules.specs.Step.{all_grants, other_grants};
ghost use Rattle.spk_broker_rules.specs.Words.{codes_of, granted_of, with_entry};
ghost use Rattle.spk_broker.specs.Asking.{sessions_now};
ghost use Rattle.spk_broker.specs.Both.{Both};
ghost use Rattle.spk_broker.specs.Counting.{grants_in};
ghost use Rattle.spk_broker.specs.Filters.{AreFilters};
ghost use Rattle.spk_broker.specs.Granting.{granting_view};

use crate::grant_changes::Granting;
use crate::session::Session;
use crate::subscribe_entries::Requests;
use spk_packets::Request;
use std::alloc::{AllocError, Global};

/// The most pairs of session and filter (own rule).
const MOST_GRANTS: usize = 10_000;

impl Session {
    /// How many grants it has.
    fn grant_count(&self) -> usize
        ensures count { result ≡ grants_in self.now.now }
        ensures small { result < 2 ^ 63 }
    {
        if self.ended {
            return 0;
        }
        match &self.regrant {
            Some(grants) => grants.len(),
            None => self.grants.len(),
        }
    }
}

/// How many grants these sessions have, but at most as many as there may be.
fn count_grants(sessions: &[Session]) -> usize
    ensures count { result ≡ min (all_grants (sessions_now sessions.now)) 10000 }
    ensures small { result ≤ 10000 }
{
    let mut count = 0;
    for session in sessions {
        count = (count + session.grant_count()).min(MOST_GRANTS);
    }
    count
}

/// How many grants the other sessions have, at least as far as there may be so many.
fn count_others(sessions: &[Session], place: usize) -> usize
    requires { place < length sessions.now }
    ensures { (d : Both) → IfSome (get_or sessions.now place d).now (λ s.
        min result 10000 ≡ min (other_grants s (sessions_now sessions.now)) 10000) }
{
    count_grants(&sessions[..place]) + count_grants(&sessions[place + 1..])
}

/// The grants of the session at a place after a SUBSCRIBE, the codes of SUBACK, and the entries that were granted.
pub(crate) fn granted<'a>(
    alloc: Global,
    sessions: &'a [Session],
    place: usize,
    entries: &'a [Request],
) -> Result<Granting, AllocError>
    requires place { place < length sessions.now }
    requires filters { AreFilters (map request_view entries.now) }
    ensures codes { IfOk result (λ g. length g.codes.items ≡ length entries.now) }
    ensures granted { IfOk result (λ g. list_all is_grant g.codes.items ≡ true) }
    ensures view { IfOk result
        (λ g. (d : Both) → IfSome (get_or sessions.now place d).now (λ s. granting_view g ≡ record {
          grants = fold (with_entry (other_grants s (sessions_now sessions.now))) s.grants
              (map request_view entries.now);
          codes = codes_of (other_grants s (sessions_now sessions.now)) s.grants
              (map request_view entries.now);
          given = granted_of (other_grants s (sessions_now sessions.now)) s.grants
              (map request_view entries.now);
        })) }
{
    let others = count_others(sessions, place);
    let mut requests = Requests::new(alloc, sessions[place].grants())?;
    requests.request_all(others, entries)?;
    Ok(requests.settled())
}
