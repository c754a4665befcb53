//! The limit of rebirth requests.

ghost use Rattle.std.specs.Prelude.{◌≡◌};
ghost use Rattle.spk_host_rules.specs.Step.{may_ask};

/// Whether a rebirth may be asked for at `now`, where one was last asked for at `asked` (milliseconds): none was, a birth was
/// taken since, or `wait` or more has passed. A moment before the last request's counts as no time passed (own rule).
pub fn may_ask(wait: u64, now: u64, asked: Option<u64>, born_since: bool) -> bool
    ensures { result ≡ may_ask wait now asked born_since }
{
    match asked {
        None => true,
        Some(before) => born_since || wait <= now.saturating_sub(before),
    }
}
