//! The lines of a broker, one by one, as `spk_broker` lends what it keeps.
ghost use Rattle.std.specs.Prelude.{◌≡◌, ◌∷◌, [], IfOk, None, slice_get};
ghost use Rattle.std.specs.Option.{option_map};
ghost use Rattle.spk_packets.specs.Message.{Publish, Subscribe};
ghost use Rattle.spk_packets.specs.View.{view};
ghost use Rattle.spk_broker_rules.specs.Words.{option_list};
ghost use Rattle.spk_broker_events.specs.Line.{kept};
ghost use Rattle.spk_broker_events.specs.declared.line.Kind.TheVariants as kind;
ghost use Rattle.spk_broker_snapshot.specs.Lines.{any_id, in_flight_line, grant_line, in_use_line, line, retained_line, session_line, sits_lines, waiting_line, will_packet};
ghost use Rattle.spk_broker.specs.Looking.{message_ref};

use spk_broker::{Broker, MessageRef, SessionRef};
use spk_broker_events::{Kind, Line};
use spk_packets::{Packet, Request};
use std::alloc::{AllocError, Global};

fn bytes(alloc: Global, from: &[u8]) -> Result<Vec<u8>, AllocError>
    ensures { IfOk result (λ v. v.items ≡ from.now) }
{
    let mut out = Vec::with_capacity(alloc, from.len())?;
    out.extend_from_slice(from)?;
    Ok(out)
}

/// Any identifier, where a message of this QoS has one.
fn any_id(qos: u8) -> Option<u16>
    ensures { result ≡ any_id qos }
{
    if qos == 0 { None } else { Some(1) }
}

/// A message as a PUBLISH (section 3.3).
fn publish(
    alloc: Global,
    message: &MessageRef<'_>,
    dup: bool,
    id: Option<u16>,
) -> Result<Packet, AllocError>
    ensures { IfOk result (λ p. view p
        ≡ Publish dup (message_ref message.now).qos (message_ref message.now).retain (message_ref message.now).topic id (message_ref message.now).payload) }
{
    Ok(Packet::Publish {
        dup,
        qos: message.qos,
        retain: message.retain,
        topic: String::from_str(alloc, message.topic)?,
        id,
        payload: bytes(alloc, message.payload)?,
    })
}

/// A will as a PUBLISH.
fn will_packet(alloc: Global, will: &Option<MessageRef<'_>>) -> Result<Option<Packet>, AllocError>
    ensures { IfOk result (λ o. option_map view o
        ≡ option_map will_packet (option_map message_ref will.now)) }
{
    match will {
        Some(message) => Ok(Some(publish(alloc, message, false, any_id(message.qos))?)),
        None => Ok(None),
    }
}

/// The line of the connection without CONNECT at this place.
pub(crate) fn waiting(broker: &Broker, at: usize) -> Option<Line>
    ensures { option_map kept result ≡ option_map waiting_line (slice_get broker.now.newcomers at) }
{
    match broker.connection(at) {
        Some(conn) => Some(Line {
            kind: Kind::Waiting,
            first: conn,
            second: 0,
            packet: None,
        }),
        None => None,
    }
}

/// The first line of a session.
pub(crate) fn session(alloc: Global, session: &SessionRef<'_>) -> Result<Line, AllocError>
    ensures { IfOk result (λ l. kept l ≡ session_line session.now) }
{
    Ok(Line {
        kind: Kind::Session,
        first: session.key(),
        second: 0,
        packet: Some(Packet::Connect {
            client: String::from_str(alloc, session.client())?,
            clean: !session.is_kept(),
            keep: 0,
            will: None,
        }),
    })
}

/// The line of its connection, if it has one.
pub(crate) fn sits(alloc: Global, session: &SessionRef<'_>) -> Result<Option<Line>, AllocError>
    ensures { IfOk result (λ o. option_list (option_map kept o) ≡ sits_lines session.now.here) }
{
    let Some(conn) = session.connection() else {
        return Ok(None);
    };
    let packet = will_packet(alloc, &session.will())?;
    Ok(Some(Line {
        kind: Kind::Sits,
        first: conn,
        second: 0,
        packet,
    }))
}

/// A SUBSCRIBE of one entry (section 3.8).
fn subscribe(alloc: Global, filter: &str, qos: u8) -> Result<Packet, AllocError>
    ensures { IfOk result (λ p. view p ≡ Subscribe 1 ((filter.now, qos) ∷ [])) }
{
    let mut filters = Vec::with_capacity(alloc, 1)?;
    filters.push(Request {
        filter: String::from_str(alloc, filter)?,
        qos,
    })?;
    Ok(Packet::Subscribe { id: 1, filters })
}

/// The line of its grant at this place.
pub(crate) fn grant(
    alloc: Global,
    session: &SessionRef<'_>,
    at: usize,
) -> Result<Option<Line>, AllocError>
    ensures { IfOk result (λ o. option_map kept o
        ≡ option_map grant_line (slice_get session.now.grants at)) }
{
    match session.grant(at) {
        Some((filter, qos)) => {
            let packet = subscribe(alloc, filter, qos)?;
            Ok(Some(Line {
                kind: Kind::Grant,
                first: 0,
                second: 0,
                packet: Some(packet),
            }))
        }
        None => Ok(None),
    }
}

/// The line of its identifier at this place that is in use.
pub(crate) fn in_use(session: &SessionRef<'_>, at: usize) -> Option<Line>
    ensures { option_map kept result ≡ option_map in_use_line (slice_get session.now.used at) }
{
    match session.given().get(at) {
        Some(id) => Some(Line {
            kind: Kind::InUse,
            first: u64::from(*id),
            second: 0,
            packet: None,
        }),
        None => None,
    }
}

/// The line of the identifier that it gave last.
pub(crate) fn last(session: &SessionRef<'_>) -> Line
    ensures { kept result ≡ line kind.Last session.now.last 0 None }
{
    Line {
        kind: Kind::Last,
        first: u64::from(session.last()),
        second: 0,
        packet: None,
    }
}

/// The line of its message at this place that isn't acknowledged.
pub(crate) fn in_flight(
    alloc: Global,
    session: &SessionRef<'_>,
    at: usize,
) -> Result<Option<Line>, AllocError>
    ensures { IfOk result (λ o. option_map kept o
        ≡ option_map in_flight_line (slice_get session.now.in_flight at)) }
{
    match session.kept(at) {
        Some((id, message, handed)) => {
            let packet = publish(alloc, &message, handed, Some(id))?;
            Ok(Some(Line {
                kind: Kind::Unacknowledged,
                first: 0,
                second: 0,
                packet: Some(packet),
            }))
        }
        None => Ok(None),
    }
}

/// The line of the retained message at this place.
pub(crate) fn retained(
    alloc: Global,
    broker: &Broker,
    at: usize,
) -> Result<Option<Line>, AllocError>
    ensures { IfOk result (λ o. option_map kept o
        ≡ option_map retained_line (slice_get broker.now.retained at)) }
{
    match broker.retained_at(at) {
        Some((topic, payload, qos)) => {
            let message = MessageRef {
                topic,
                payload,
                qos,
                retain: true,
            };
            let packet = publish(alloc, &message, false, any_id(qos))?;
            Ok(Some(Line {
                kind: Kind::Retained,
                first: 0,
                second: 0,
                packet: Some(packet),
            }))
        }
        None => Ok(None),
    }
}
