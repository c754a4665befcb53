//! What is noted where somebody is silent for too long.
ghost use Rattle.std.specs.Prelude.{◌≡◌, ◌++◌, ◌∷◌, [], IfErr, IfOk, OnErr, OnOk, false, map};
ghost use Rattle.std.specs.List.{flat_map};
ghost use Rattle.std.specs.Option.{option_map};
ghost use Rattle.spk_broker_replay.specs.Replay.{heard_at, ping};
ghost use Rattle.spk_broker_rules.specs.Plan.{Tick};
ghost use Rattle.spk_broker_rules.specs.Words.{option_list};
ghost use Rattle.spk_broker_notes.specs.Fault.{IsLimit};
ghost use Rattle.spk_broker_notes.specs.Logs.{Begins, log_view, with_late};
ghost use Rattle.spk_broker_notes.specs.Noted.{is_late, is_over_at, records};

use crate::fault::NoteFault;
use crate::notes::Log;
use spk_broker::{Broker, Conn, SessionRef};
use spk_broker_events::{Event, append, append_packet};
use spk_packets::{Packet, PacketFault};
use std::alloc::{AllocError, Global};

/// How much later the replay ticks, in milliseconds: more than one and a half times the keep alive of all its connections.
const PAUSE: u64 = 2_000;

/// Whether a connection is silent for too long (section 3.1.2.10).
fn is_late(broker: &Broker, clock: u64) -> Result<bool, AllocError>
    ensures { IfOk result (λ late. late ≡ is_late clock broker.now.sessions) }
{
    for at in 0..usize::MAX {
        let Some(session) = broker.session(at) else {
            return Ok(false);
        };
        if session.silent(clock).is_some() {
            return Ok(true);
        }
    }
    Err(AllocError)
}

/// The connection of a session, where it isn't silent for too long.
fn heard(session: &SessionRef<'_>, clock: u64) -> Option<Conn>
    ensures { option_list result ≡ heard_at clock session.now }
{
    match session.silent(clock) {
        Some(_conn) => None,
        None => session.connection(),
    }
}

/// It is heard at this moment, if it is one.
fn add_ping(
    alloc: Global,
    conn: Option<Conn>,
    moment: u64,
    bytes: &mut Vec<u8>,
) -> Result<(), PacketFault>
    ensures added { OnOk result (bytes.new.items ≡ bytes.old.items ++ records (map (ping moment) (option_list conn))) }
    ensures err { OnErr result (bytes.new.items ≡ bytes.old.items) }
{
    let Some(conn) = conn else {
        return Ok(());
    };
    append_packet(alloc, conn, &Packet::PingReq, moment, bytes)
}

/// All others are heard at this moment.
fn add_pings(
    alloc: Global,
    broker: &Broker,
    clock: u64,
    moment: u64,
    bytes: &mut Vec<u8>,
) -> Result<(), PacketFault>
    ensures added { OnOk result (bytes.new.items ≡ bytes.old.items ++ records (map (ping moment) (flat_map (heard_at clock) broker.now.sessions))) }
    ensures err { OnErr result (Begins bytes.old.items bytes.new.items) }
{
    for at in 0..usize::MAX {
        let Some(session) = broker.session(at) else {
            return Ok(());
        };
        let conn = heard(&session, clock);
        add_ping(alloc, conn, moment, bytes)?;
    }
    Err(PacketFault::NoMemory)
}

/// All others are heard at this moment of the replay, and then it ticks.
fn add_late(
    alloc: Global,
    broker: &Broker,
    clock: u64,
    moment: u64,
    bytes: &mut Vec<u8>,
) -> Result<(), PacketFault>
    ensures added { OnOk result (bytes.new.items ≡ bytes.old.items ++ records (map (ping moment) (flat_map (heard_at clock) broker.now.sessions) ++ Tick moment ∷ [])) }
    ensures err { OnErr result (Begins bytes.old.items bytes.new.items) }
{
    add_pings(alloc, broker, clock, moment, bytes)?;
    append(alloc, &Event::Tick { moment }, bytes)
}

/// What is noted of a tick at this clock of the broker's, where events are noted. Refused with Limit exactly where the clock of the replay can't go on.
pub(crate) fn note_late(
    alloc: Global,
    broker: &Broker,
    log: &mut Option<Log>,
    clock: u64,
) -> Result<(), NoteFault>
    ensures done { OnOk result (option_map log_view log.new ≡ option_map (with_late clock broker.now) (option_map log_view log.old)) }
    ensures ready { OnOk result (is_over_at clock broker.now (option_map log_view log.old) ≡ false) }
    ensures refused { IfErr result (IsLimit (is_over_at clock broker.now (option_map log_view log.old))) }
    ensures err { OnErr result (option_map log_view log.new ≡ option_map log_view log.old) }
{
    let Some(log) = log else {
        return Ok(());
    };
    if !is_late(broker, clock)? {
        return Ok(());
    }
    let Some(moment) = log.clock.checked_add(PAUSE) else {
        return Err(NoteFault::Limit);
    };
    let before = log.bytes.len();
    match add_late(alloc, broker, clock, moment, &mut log.bytes) {
        Ok(()) => {
            log.clock = moment;
            Ok(())
        }
        Err(_) => {
            log.bytes.truncate(before);
            Err(NoteFault::NoMemory)
        }
    }
}
