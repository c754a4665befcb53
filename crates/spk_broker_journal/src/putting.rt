//! What a broker keeps, as the bytes that a journal begins with.
ghost use Rattle.std.specs.Prelude.{◌≡◌, ◌++◌, ◌∷◌, map, IfErr, None, OnErr, OnOk};
ghost use Rattle.std.specs.List.{flat_map};
ghost use Rattle.spk_packets.specs.Fault.{IsNamed};
ghost use Rattle.spk_broker_events.specs.declared.line.Kind.TheVariants as kind;
ghost use Rattle.spk_broker_snapshot.specs.Lines.{in_flight_line, grant_line, in_use_line, line, lines, retained_line, session_lines, waiting_line};
ghost use Rattle.spk_broker_journal.specs.Adding.{Begins, IsAdded, IsNamedIn, first_refusal, records};

use crate::adding::{Source, add};
use spk_broker::{Broker, SessionRef};
use spk_packets::PacketFault;
use std::alloc::Global;

/// The records of the identifier that a session gave last, and of its messages.
fn add_kept(alloc: Global, of: &SessionRef<'_>, out: &mut Vec<u8>) -> Result<(), PacketFault>
    ensures added { OnOk result (IsAdded (line kind.Last of.now.last 0 None ∷ map in_flight_line of.now.in_flight) out.old.items out.new.items) }
    ensures refused { IfErr result (λ e. IsNamedIn e (line kind.Last of.now.last 0 None ∷ map in_flight_line of.now.in_flight)) }
    ensures err { OnErr result (Begins out.old.items out.new.items) }
{
    add(alloc, Source::Last(of), out)?;
    add(alloc, Source::InFlight(of), out)
}

/// These behind its identifiers in use.
fn add_given(alloc: Global, of: &SessionRef<'_>, out: &mut Vec<u8>) -> Result<(), PacketFault>
    ensures added { OnOk result (IsAdded (map in_use_line of.now.used ++ (line kind.Last of.now.last 0 None ∷ map in_flight_line of.now.in_flight)) out.old.items out.new.items) }
    ensures refused { IfErr result (λ e. IsNamedIn e (map in_use_line of.now.used ++ (line kind.Last of.now.last 0 None ∷ map in_flight_line of.now.in_flight))) }
    ensures err { OnErr result (Begins out.old.items out.new.items) }
{
    match add(alloc, Source::InUse(of), out) {
        Ok(()) => add_kept(alloc, of, out),
        Err(fault) => Err(fault),
    }
}

/// These behind its grants.
fn add_granted(alloc: Global, of: &SessionRef<'_>, out: &mut Vec<u8>) -> Result<(), PacketFault>
    ensures added { OnOk result (IsAdded (map grant_line of.now.grants
        ++ (map in_use_line of.now.used ++ (line kind.Last of.now.last 0 None ∷ map in_flight_line of.now.in_flight))) out.old.items out.new.items) }
    ensures refused { IfErr result (λ e. IsNamedIn e (map grant_line of.now.grants
        ++ (map in_use_line of.now.used ++ (line kind.Last of.now.last 0 None ∷ map in_flight_line of.now.in_flight)))) }
    ensures err { OnErr result (Begins out.old.items out.new.items) }
{
    match add(alloc, Source::Grants(of), out) {
        Ok(()) => add_given(alloc, of, out),
        Err(fault) => Err(fault),
    }
}

/// The records of a session.
fn add_session(alloc: Global, of: &SessionRef<'_>, out: &mut Vec<u8>) -> Result<(), PacketFault>
    ensures added { OnOk result (IsAdded (session_lines of.now) out.old.items out.new.items) }
    ensures refused { IfErr result (λ e. IsNamedIn e (session_lines of.now)) }
    ensures err { OnErr result (Begins out.old.items out.new.items) }
{
    add(alloc, Source::Begin(of), out)?;
    add_granted(alloc, of, out)
}

/// The records of all sessions.
fn add_sessions(alloc: Global, broker: &Broker, out: &mut Vec<u8>) -> Result<(), PacketFault>
    ensures added { OnOk result (IsAdded (flat_map session_lines broker.now.sessions) out.old.items out.new.items) }
    ensures refused { IfErr result (λ e. IsNamedIn e (flat_map session_lines broker.now.sessions)) }
    ensures err { OnErr result (Begins out.old.items out.new.items) }
{
    for at in 0..usize::MAX {
        let Some(session) = broker.session(at) else {
            return Ok(());
        };
        match add_session(alloc, &session, out) {
            Ok(()) => {}
            Err(fault) => return Err(fault),
        }
    }
    Err(PacketFault::NoMemory)
}

/// Those of sessions and retained messages.
fn add_stored(alloc: Global, broker: &Broker, out: &mut Vec<u8>) -> Result<(), PacketFault>
    ensures added { OnOk result (IsAdded (flat_map session_lines broker.now.sessions ++ map retained_line broker.now.retained) out.old.items out.new.items) }
    ensures refused { IfErr result (λ e. IsNamedIn e (flat_map session_lines broker.now.sessions ++ map retained_line broker.now.retained)) }
    ensures err { OnErr result (Begins out.old.items out.new.items) }
{
    match add_sessions(alloc, broker, out) {
        Ok(()) => add(alloc, Source::Retained(broker), out),
        Err(fault) => Err(fault),
    }
}

/// These behind those of the connections without CONNECT.
fn add_behind(alloc: Global, broker: &Broker, out: &mut Vec<u8>) -> Result<(), PacketFault>
    ensures added { OnOk result (IsAdded (map waiting_line broker.now.newcomers
        ++ (flat_map session_lines broker.now.sessions ++ map retained_line broker.now.retained)) out.old.items out.new.items) }
    ensures refused { IfErr result (λ e. IsNamedIn e (map waiting_line broker.now.newcomers
        ++ (flat_map session_lines broker.now.sessions ++ map retained_line broker.now.retained))) }
    ensures err { OnErr result (Begins out.old.items out.new.items) }
{
    match add(alloc, Source::Waiting(broker), out) {
        Ok(()) => add_stored(alloc, broker, out),
        Err(fault) => Err(fault),
    }
}

/// All that a broker keeps.
fn add_all(alloc: Global, broker: &Broker, out: &mut Vec<u8>) -> Result<(), PacketFault>
    ensures added { OnOk result (IsAdded (lines broker.now) out.old.items out.new.items) }
    ensures refused { IfErr result (λ e. IsNamedIn e (lines broker.now)) }
    ensures err { OnErr result (Begins out.old.items out.new.items) }
{
    add(alloc, Source::Numbers(broker), out)?;
    add_behind(alloc, broker, out)
}

/// Puts the records of all that a broker keeps behind what stands in `out`, line by line, in order (own rule). Refused where a line has a packet
/// that can't be written, with what `encode` refuses the first of these for; then, and where memory is refused, `out` is as it was. Linear in what
/// the broker keeps.
pub fn append_broker(alloc: Global, broker: &Broker, out: &mut Vec<u8>) -> Result<(), PacketFault>
    ensures put { OnOk result (out.new.items ≡ out.old.items ++ records (lines broker.now)) }
    ensures writable { OnOk result (first_refusal (lines broker.now) ≡ None) }
    ensures refused { IfErr result (λ e. IsNamed e (first_refusal (lines broker.now))) }
    ensures err { OnErr result (out.new.items ≡ out.old.items) }
{
    let before = out.len();
    match add_all(alloc, broker, out) {
        Ok(()) => Ok(()),
        Err(fault) => {
            out.truncate(before);
            Err(fault)
        }
    }
}
