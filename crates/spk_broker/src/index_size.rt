//! Whether the grants are few enough for an index of them (own rule).
ghost use Rattle.std.specs.Prelude.{◌≡◌, ◌+◌, ◌<◌, ◌≤◌, nat_lt, MatchOption, length, map, not};
ghost use Rattle.spk_topics.specs.Levels.{levels};
ghost use Rattle.spk_broker.specs.Parts.{grant_view};
ghost use Rattle.spk_broker.specs.Sizes.{size_of, size_of_all, size_of_grants};
ghost use Rattle.spk_broker.specs.Asking.{sessions_now};

use crate::session::{Grant, Session};

/// The most that the filters of all grants may have together, by levels.
// A filter takes at most two nodes of 112 bytes of an index, three times that while their vector doubles, a map or two of some 500 bytes, and three
// times its text (`spk_topics`). So an index of 10,000 grants, the most that there may be, with the 6.4 MB of text that this leaves them takes some 40 MB at
// most. One client may ask for 10,000 filters of 65,535 bytes, which would take 2 GB. Without an index a publish is matched against all grants.
pub(crate) const MOST_LEVELS: usize = 100_000;

/// How many levels a filter has (section 4.7.1.1).
fn level_count(filter: &[u8]) -> usize
    ensures count { result ≡ length (levels filter.now) }
    ensures few { result ≤ length filter.now + 1 }
{
    let mut slashes = 0;
    for byte in filter {
        if *byte == b'/' {
            slashes += 1;
        }
    }
    slashes + 1
}

/// What a filter takes: its levels, and one more for each 64 bytes.
pub(crate) fn size(filter: &str) -> usize
    ensures { result ≡ size_of filter.now }
{
    level_count(filter.as_bytes()) + filter.len() / 64
}

/// What is left once these grants have taken their part; none where they take more.
pub(crate) fn left_by(grants: &[Grant], left: usize) -> Option<usize>
    ensures { MatchOption result (left < size_of_grants (map grant_view grants.now))
        (λ rest. rest + size_of_grants (map grant_view grants.now) ≡ left) }
{
    let mut rest = left;
    for grant in grants {
        rest = rest.checked_sub(size(grant.filter.as_str()))?;
    }
    Some(rest)
}

/// How much more the grants of these sessions might take; none where they take too much.
fn room(sessions: &[Session]) -> Option<usize>
    ensures { MatchOption result (100000 < size_of_all (sessions_now sessions.now))
        (λ rest. rest + size_of_all (sessions_now sessions.now) ≡ 100000) }
{
    let mut left = MOST_LEVELS;
    for session in sessions {
        match left_by(session.standing(), left) {
            Some(rest) => left = rest,
            None => return None,
        }
    }
    Some(left)
}

/// Whether the grants of these sessions are few enough.
pub(crate) fn is_small(sessions: &[Session]) -> bool
    ensures { result ≡ not (nat_lt 100000 (size_of_all (sessions_now sessions.now))) }
{
    room(sessions).is_some()
}

/// What the grants of these sessions take, where they are few enough.
pub(crate) fn total(sessions: &[Session]) -> usize
    ensures { size_of_all (sessions_now sessions.now) ≤ 100000
        → result ≡ size_of_all (sessions_now sessions.now) }
{
    MOST_LEVELS.saturating_sub(room(sessions).unwrap_or(0))
}
