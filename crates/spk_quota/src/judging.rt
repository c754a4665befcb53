//! Whether a user may hold more.
ghost use Rattle.std.specs.Prelude.{◌≡◌, ◌+◌, ◌^◌, ◌<◌, true};
ghost use Rattle.spk_quota.specs.Held.{fits, may_be};
ghost use Rattle.spk_quota.specs.Figures.{sum_of};

use crate::limits::{Held, Limits};

/// Whether a figure may stand behind a call, which is `others` and `more` of it.
fn may_be(most: u64, before: u64, others: u64, more: u64) -> bool
    ensures may { result ≡ may_be most before (others + more) }
    ensures fit { result ≡ true → others + more < 2 ^ 64 }
{
    match others.checked_add(more) {
        Some(behind) => behind <= most || behind <= before,
        None => false,
    }
}

/// Whether a user who holds `before` may come to hold `others` and `more`.
pub(crate) fn fits(limits: &Limits, before: &Held, others: &Held, more: &Held) -> bool
    ensures may { result ≡ fits limits.now before.now (sum_of others.now more.now) }
    ensures fit { result ≡ true → others.now.bytes + more.now.bytes < 2 ^ 64 }
{
    may_be(
        u64::from(limits.connections),
        before.connections,
        others.connections,
        more.connections,
    ) && may_be(
        u64::from(limits.sessions),
        before.sessions,
        others.sessions,
        more.sessions,
    ) && may_be(
        u64::from(limits.filters),
        before.filters,
        others.filters,
        more.filters,
    ) && may_be(
        u64::from(limits.retained),
        before.retained,
        others.retained,
        more.retained,
    ) && may_be(limits.bytes, before.bytes, others.bytes, more.bytes)
}
