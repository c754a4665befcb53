//! Up to when no connection is silent for too long (section 3.1.2.10).
ghost use Rattle.std.specs.Prelude.{◌≡◌, ◌≤◌, ◌+◌, IfOk, IfSome, if◌then◌else◌};
ghost use Rattle.std.specs.List.{flat_map};
ghost use Rattle.spk_broker_rules.specs.Step.{silent_at};
ghost use Rattle.spk_broker.specs.Asking.{sessions_now};
ghost use Rattle.spk_broker.specs.Calm.{AreCalm, IsCalmConnection};

use crate::out::Conn;
use crate::session::Session;
use std::alloc::{AllocError, Global};

/// How long a connection may be silent at least, in milliseconds: one and a half times one second of keep alive.
const LEAST: u64 = 1_500;

impl Session {
    /// Up to when its connection isn't silent for too long.
    fn due(&self) -> u64
        ensures { IfSome self.now.now (λ s. IsCalmConnection result s.here) }
    {
        match &self.here {
            Some(connection) if connection.alive != 0 => {
                connection
                    .heard
                    .saturating_add(u64::from(connection.alive) * LEAST)
            }
            _ => u64::MAX,
        }
    }
}

/// The connections that are silent for too long, in the order of connecting, and up to when none was, nor can one be that is heard by now.
fn look(alloc: Global, sessions: &[Session], clock: u64) -> Result<(Vec<Conn>, u64), AllocError>
    ensures silent { IfOk result
        (λ r. r.0.items ≡ flat_map (silent_at clock) (sessions_now sessions.now)) }
    ensures calm { IfOk result (λ r. AreCalm r.1 (sessions_now sessions.now)) }
    ensures soon { IfOk result (λ r. r.1 ≤ clock + 1500) }
{
    let mut silent = Vec::new(alloc);
    let mut until = clock.saturating_add(LEAST);
    for session in sessions {
        if let Some(conn) = session.silent(clock) {
            silent.push(conn)?;
        }
        until = until.min(session.due());
    }
    Ok((silent, until))
}

/// The connections that are silent for too long, in the order of connecting. Up to a moment none is, and no session is looked at; behind it
/// all are, and it is found anew.
pub(crate) fn silent(
    alloc: Global,
    sessions: &[Session],
    clock: u64,
    calm: &mut u64,
) -> Result<Vec<Conn>, AllocError>
    requires calm { AreCalm calm.old (sessions_now sessions.now) }
    requires soon { calm.old ≤ clock + 1500 }
    ensures silent { IfOk result (λ v. v.items ≡ flat_map (silent_at clock) (sessions_now sessions.now)) }
    ensures calm { AreCalm calm.new (sessions_now sessions.now) }
    ensures soon { calm.new ≤ clock + 1500 }
{
    if clock <= *calm {
        return Ok(Vec::new(alloc));
    }
    let (silent, until) = look(alloc, sessions, clock)?;
    *calm = until;
    Ok(silent)
}

/// The moment that a tick found, where it was done; else the one that was noted.
pub(crate) fn next(done: bool, found: u64, noted: u64) -> u64
    ensures { result ≡ if done then found else noted }
{
    if done { found } else { noted }
}
