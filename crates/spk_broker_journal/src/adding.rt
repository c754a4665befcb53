//! Records of lines behind bytes.
ghost use Rattle.std.specs.Prelude.{◌≡◌, ◌∷◌, [], IfErr, IfOk, None, OnErr, OnOk, slice_get};
ghost use Rattle.std.specs.Option.{option_map};
ghost use Rattle.spk_broker_events.specs.Line.{kept};
ghost use Rattle.spk_broker_events.specs.declared.line.Kind.TheVariants as kind;
ghost use Rattle.spk_broker_snapshot.specs.Lines.{line};
ghost use Rattle.spk_broker_journal.specs.Adding.{Begins, IsAdded, IsNamedIn};
ghost use Rattle.spk_broker_journal.specs.Sources.{begin_lines, lines_of};

use crate::lent::{grant, in_flight, in_use, last, retained, session, sits, waiting};
use spk_broker::{Broker, SessionRef};
use spk_broker_events::{Kind, Line, append_line};
use spk_packets::PacketFault;
use std::alloc::{AllocError, Global};

/// Lines of one sort that a broker or a session is told by.
#[derive(Clone, Copy)]
pub(crate) enum Source<'a, 'b> {
    Numbers(&'a Broker),
    Waiting(&'a Broker),
    Retained(&'a Broker),
    /// The first line of a session, and that of its connection.
    Begin(&'a SessionRef<'b>),
    Grants(&'a SessionRef<'b>),
    InUse(&'a SessionRef<'b>),
    Last(&'a SessionRef<'b>),
    InFlight(&'a SessionRef<'b>),
}

/// How many were numbered.
fn numbers(broker: &Broker) -> Line
    ensures { kept result ≡ line kind.Numbers broker.now.given broker.now.made None }
{
    let (given, made) = broker.numbers();
    Line {
        kind: Kind::Numbers,
        first: given,
        second: made,
        packet: None,
    }
}

/// One line at place 0, none behind it.
fn alone(line: Line, at: usize) -> Option<Line>
    ensures { option_map kept result ≡ slice_get (kept line ∷ []) at }
{
    if at == 0 { Some(line) } else { None }
}

/// The first line of a session, and that of its connection.
fn begin(alloc: Global, of: &SessionRef<'_>, at: usize) -> Result<Option<Line>, AllocError>
    ensures { IfOk result (λ o. option_map kept o ≡ slice_get (begin_lines of.now) at) }
{
    if at == 0 {
        return Ok(Some(session(alloc, of)?));
    }
    if at == 1 {
        return sits(alloc, of);
    }
    Ok(None)
}

/// The line of a source at this place.
fn line_at(alloc: Global, source: Source<'_, '_>, at: usize) -> Result<Option<Line>, AllocError>
    ensures { IfOk result (λ o. option_map kept o ≡ slice_get (lines_of source.entry) at) }
{
    match source {
        Source::Numbers(broker) => Ok(alone(numbers(broker), at)),
        Source::Waiting(broker) => Ok(waiting(broker, at)),
        Source::Retained(broker) => retained(alloc, broker, at),
        Source::Begin(of) => begin(alloc, of, at),
        Source::Grants(of) => grant(alloc, of, at),
        Source::InUse(of) => Ok(in_use(of, at)),
        Source::Last(of) => Ok(alone(last(of), at)),
        Source::InFlight(of) => in_flight(alloc, of, at),
    }
}

/// The records of the lines of a source.
pub(crate) fn add(
    alloc: Global,
    source: Source<'_, '_>,
    out: &mut Vec<u8>,
) -> Result<(), PacketFault>
    ensures added { OnOk result (IsAdded (lines_of source.entry) out.old.items out.new.items) }
    ensures refused { IfErr result (λ e. IsNamedIn e (lines_of source.entry)) }
    ensures err { OnErr result (Begins out.old.items out.new.items) }
{
    for at in 0..usize::MAX {
        let Some(line) = line_at(alloc, source, at)? else {
            return Ok(());
        };
        match append_line(alloc, &line, out) {
            Ok(()) => {}
            Err(fault) => return Err(fault),
        }
    }
    Err(PacketFault::NoMemory)
}
