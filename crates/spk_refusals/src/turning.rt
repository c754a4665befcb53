//! Packets whose payload says something else: what wrong bodies of `spk_edge` make of an answer.
ghost use Rattle.std.specs.Prelude.{◌≡◌, map, IfSome};
ghost use Rattle.spk_packets.specs.Grammar.{Spells};
ghost use Rattle.spk_packets.specs.View.{view};
ghost use Rattle.spk_payload.specs.View.{metric_view, payload_view};
ghost use Rattle.spk_refusals.specs.Wrong.{AreTurned, IsTurned, IsTurnedPacket, is_of_device, is_taken, stamped, turned};

use spk_packets::Packet;
use spk_payload::{Metric, Payload};
use std::alloc::Global;

/// What says something else.
#[derive(Clone, Copy)]
pub(crate) enum Turn {
    /// The sequence number of a device's message is 0.
    DeviceNumber,
    /// Each stamp is this one, in milliseconds since 1970.
    Stamp(u64),
}

/// Whether a topic names a device.
fn is_of_device(topic: &str) -> bool
    ensures { result ≡ is_of_device topic.now }
{
    let bytes = topic.as_bytes();
    bytes.iter().filter(|byte| **byte == b'/').count() == 4
}

/// The metrics get this stamp.
fn stamp_metrics(metrics: &mut [Metric], stamp: u64)
    ensures { map metric_view metrics.new ≡ map (stamped stamp) (map metric_view metrics.old) }
{
    for metric in metrics.iter_mut() {
        metric.timestamp = Some(stamp);
    }
}

/// Whether the messages on a topic are turned.
fn is_taken(turn: Turn, topic: &str) -> bool
    ensures { result ≡ is_taken turn topic.now }
{
    match turn {
        Turn::DeviceNumber => is_of_device(topic),
        Turn::Stamp(_stamp) => true,
    }
}

fn turn_payload(turn: Turn, payload: &mut Payload)
    ensures { payload_view payload.new ≡ turned turn (payload_view payload.old) }
{
    match turn {
        Turn::DeviceNumber => payload.seq = Some(0),
        Turn::Stamp(stamp) => {
            payload.timestamp = Some(stamp);
            stamp_metrics(&mut payload.metrics, stamp);
        }
    }
}

/// The packet that these bytes spell, and nothing else.
fn packet_of(alloc: Global, bytes: &[u8]) -> Option<Packet>
    ensures { IfSome result (λ p. Spells bytes.now (view p)) }
{
    match spk_packets::decode(alloc, bytes) {
        Ok((packet, size)) if size == bytes.len() => Some(packet),
        _ => None,
    }
}

/// The same PUBLISH with its payload turned.
fn rewritten(alloc: Global, turn: Turn, packet: Packet) -> Option<Vec<u8>>
    ensures { IfSome result (λ v. IsTurned turn (view packet) v.items) }
{
    let Packet::Publish {
        dup,
        qos,
        retain,
        topic,
        id,
        payload: text,
    } = packet
    else {
        return None;
    };
    if !is_taken(turn, topic.as_str()) {
        return None;
    }
    let Ok(mut payload) = spk_payload::decode(alloc, &text) else {
        return None;
    };
    turn_payload(turn, &mut payload);
    let Ok(text) = spk_payload::encode(alloc, &payload) else {
        return None;
    };
    let publish = Packet::Publish {
        dup,
        qos,
        retain,
        topic,
        id,
        payload: text,
    };
    spk_packets::encode(alloc, &publish).ok()
}

fn turn_packet(alloc: Global, turn: Turn, packet: &mut Vec<u8>)
    ensures { IsTurnedPacket turn packet.old.items packet.new.items }
{
    let Some(said) = packet_of(alloc, packet) else {
        return;
    };
    if let Some(bytes) = rewritten(alloc, turn, said) {
        *packet = bytes;
    }
}

/// Each packet whose payload is turned has its new bytes; the others stay.
pub(crate) fn turn_packets(alloc: Global, turn: Turn, packets: &mut [Vec<u8>])
    ensures { AreTurned turn packets.old packets.new }
{
    for packet in packets.iter_mut() {
        turn_packet(alloc, turn, packet);
    }
}
