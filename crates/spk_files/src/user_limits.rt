//! What a user may hold of a broker, as a line of a users' file says it.
ghost use Rattle.std.specs.Prelude.{◌≡◌, ◌≤◌, IfOk};
ghost use Rattle.spk_files.specs.Users.{IsBounded};

use crate::misfit::Misfit;
use crate::part::Part;
use spk_quota::Limits;
use std::alloc::Global;

const LIMITS: [&str; 6] = [
    "connections",
    "sessions",
    "filters",
    "retained",
    "retained_bytes",
    "waiting_bytes",
];

/// The most clients at once, as many as `serve` takes.
const MOST_CONNECTIONS: u64 = 1_000;

/// The most kept sessions, as many as a broker holds.
const MOST_SESSIONS: u64 = 1_000;

/// The most filters, and the most retained messages, as many as a broker holds.
const MOST_ENTRIES: u64 = 10_000;

/// The most bytes: a tebibyte (own rule).
const MOST_BYTES: u64 = 1_099_511_627_776;

/// What a user may hold where nothing is said: a tenth of what a broker holds, and 64 MiB of retained messages and of those that wait (own rules).
const USUAL: Limits = Limits {
    connections: 100,
    sessions: 100,
    filters: 1_000,
    retained: 1_000,
    bytes: 67_108_864,
    waiting: 67_108_864,
};

/// A number of at most so many, where it is said.
fn bound_of(part: Option<Part<'_>>, usual: u64, most: u64) -> Result<u64, Misfit>
    ensures { IfOk result (λ n. usual ≤ most → n ≤ most) }
{
    match part {
        Some(part) => part.number(0, most),
        None => Ok(usual),
    }
}

/// What a user may hold.
pub(crate) fn limits_of(alloc: Global, part: Option<Part<'_>>) -> Result<Limits, Misfit>
    ensures { IfOk result (λ l. IsBounded l) }
{
    let Some(part) = part else {
        return Ok(USUAL);
    };
    part.only(alloc, &LIMITS)?;
    Ok(Limits {
        connections: bound_of(
            part.find("connections"),
            USUAL.connections as u64,
            MOST_CONNECTIONS,
        )? as u32,
        sessions: bound_of(part.find("sessions"), USUAL.sessions as u64, MOST_SESSIONS)? as u32,
        filters: bound_of(part.find("filters"), USUAL.filters as u64, MOST_ENTRIES)? as u32,
        retained: bound_of(part.find("retained"), USUAL.retained as u64, MOST_ENTRIES)? as u32,
        bytes: bound_of(part.find("retained_bytes"), USUAL.bytes, MOST_BYTES)?,
        waiting: bound_of(part.find("waiting_bytes"), USUAL.waiting, MOST_BYTES)?,
    })
}
