//! How long a connection may be silent (section 3.1.2.10).
ghost use Rattle.std.specs.Prelude.{◌≡◌};
ghost use Rattle.spk_broker_rules.specs.Words.{is_silent};

/// Milliseconds of silence for each second of keep alive: one and a half times as long.
const PATIENCE: u64 = 1500;

/// Whether a connection is silent for too long: longer than one and a half times its keep alive, in seconds; 0
/// switches this off. Moments are milliseconds, and an earlier one than the last packet's counts as no time.
pub fn is_silent(clock: u64, keep_alive: u16, heard: u64) -> bool
    ensures { result ≡ is_silent clock keep_alive heard }
{
    keep_alive != 0 && u64::from(keep_alive) * PATIENCE < clock.saturating_sub(heard)
}
