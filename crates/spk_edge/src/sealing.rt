//! Messages get their numbers, and packets are written.
ghost use Rattle.std.specs.Prelude.{◌≡◌, ◌⊎◌, IfOk, IfErr, OnOk, None, map, true, false, ◌∷◌, []};
ghost use Rattle.std.specs.List.{AllByRecursion, list_all};
ghost use Rattle.spk_payload.specs.Spelling.{PayloadFits};
ghost use Rattle.spk_packets.specs.Message.{Publish};
ghost use Rattle.spk_packets.specs.Spelling.{spelling};
ghost use Rattle.spk_packets.specs.View.{view};
ghost use Rattle.spk_edge_rules.specs.Writable.{is_writable};
ghost use Rattle.spk_edge.specs.Sealing as seal;
ghost use Rattle.spk_edge.specs.View.{message_view, numbering_view};

use crate::config::Numbering;
use crate::message::Published;
use crate::texts::spelled;
use spk_edge_rules::EdgeFault;
use spk_packets::laws::spelling_spells;
use spk_packets::{Packet, PacketFault, PublishRef, encode};
use std::alloc::Global;

/// A packet's bytes; TooLarge where it can't be written.
pub(crate) fn written(alloc: Global, packet: &Packet) -> Result<Vec<u8>, EdgeFault>
    ensures bytes { IfOk result (λ v. seal.bytes_of v ≡ spelling (view packet.now)) }
    ensures writable { OnOk result (is_writable (view packet.now) ≡ true) }
    ensures fault { IfErr result (λ e. (e ≡ EdgeFault.NoMemory) ⊎ ((e ≡ EdgeFault.TooLarge)
        × (is_writable (view packet.now) ≡ false))) }
{
    match encode(alloc, packet) {
        Ok(bytes) => Ok(bytes),
        Err(PacketFault::NoMemory) => Err(EdgeFault::NoMemory),
        Err(_) => Err(EdgeFault::TooLarge),
    }
}

/// The packets' bytes, in order.
pub(crate) fn written_packets(alloc: Global, packets: &[Packet]) -> Result<Vec<Vec<u8>>, EdgeFault>
    ensures bytes { IfOk result (λ out. map seal.bytes_of out.items
        ≡ map spelling (map view packets.now)) }
    ensures writable { OnOk result (list_all is_writable (map view packets.now) ≡ true) }
    ensures fault { IfErr result (seal.IsUnwritten (map view packets.now)) }
{
    let mut out = Vec::with_capacity(alloc, packets.len())?;
    for packet in packets {
        out.push(written(alloc, packet)?)?;
    }
    Ok(out)
}

/// The bytes of a PUBLISH of QoS 0; TooLarge where it can't be written.
pub(crate) fn published(alloc: Global, topic: &str, payload: &[u8]) -> Result<Vec<u8>, EdgeFault>
    ensures bytes { IfOk result (λ v. seal.bytes_of v
        ≡ spelling (Publish false 0 false topic.now None payload.now)) }
    ensures writable { OnOk result
        (is_writable (Publish false 0 false topic.now None payload.now) ≡ true) }
    ensures fault { IfErr result (λ e. (e ≡ EdgeFault.NoMemory) ⊎ ((e ≡ EdgeFault.TooLarge)
        × (is_writable (Publish false 0 false topic.now None payload.now) ≡ false))) }
{
    let packet = PublishRef {
        dup: false,
        qos: 0,
        retain: false,
        topic,
        id: None,
        payload,
    };
    match packet.encode(alloc) {
        Ok(bytes) => Ok(bytes),
        Err(PacketFault::NoMemory) => Err(EdgeFault::NoMemory),
        Err(_) => Err(EdgeFault::TooLarge),
    }
}

/// A message's bytes.
fn written_message(alloc: Global, message: &Published) -> Result<Vec<u8>, EdgeFault>
    requires { seal.AreKnown (message_view message.now).payload.metrics }
    ensures bytes { IfOk result (λ v. seal.bytes_of v
        ≡ spelling (seal.wire_of (message_view message.now))) }
    ensures writable { OnOk result (is_writable (seal.wire_of (message_view message.now)) ≡ true) }
    ensures whole { OnOk result (seal.IsWhole (message_view message.now)) }
    ensures fault { IfErr result (λ e. (e ≡ EdgeFault.NoMemory)
        ⊎ ((e ≡ EdgeFault.TooLarge) × (is_writable (seal.wire_of (message_view message.now))
        ≡ false))) }
{
    spelling_spells();
    let payload = spelled(alloc, &message.payload)?;
    published(alloc, message.topic.as_str(), &payload)
}

/// The messages' bytes, in order.
pub(crate) fn written_messages(
    alloc: Global,
    messages: &[Published],
) -> Result<Vec<Vec<u8>>, EdgeFault>
    requires { AllByRecursion (λ m. seal.AreKnown (message_view m).payload.metrics) messages.now }
    ensures bytes { IfOk result (λ out. map seal.bytes_of out.items
        ≡ map spelling (map (λ m. seal.wire_of (message_view m)) messages.now)) }
    ensures writable { OnOk result (list_all is_writable (map (λ m. seal.wire_of
        (message_view m)) messages.now) ≡ true) }
    ensures whole { OnOk result (seal.AreWhole (map message_view messages.now)) }
    ensures fault { IfErr result (seal.IsUnwritten (map (λ m. seal.wire_of
        (message_view m)) messages.now)) }
{
    let mut out = Vec::with_capacity(alloc, messages.len())?;
    for message in messages {
        out.push(written_message(alloc, message)?)?;
    }
    Ok(out)
}

/// The number of a message, by the one that comes next.
fn number_of(numbering: Numbering, seq: u8, message: &Published) -> u8
    ensures { result ≡ seal.number_in (numbering_view numbering) seq (message_view message.now) }
{
    match numbering {
        Numbering::RunsOn => seq,
        Numbering::Restarts => { if message.opens { 0 } else { seq } }
    }
}

/// Each message gets its number, in order; the answer is the one that comes next.
pub(crate) fn number(messages: &mut [Published], numbering: Numbering, seq: u8) -> u8
    ensures messages { map message_view messages.new ≡ seal.numbered (numbering_view numbering) seq
        (map message_view messages.old) }
    ensures next { result ≡ seal.seq_past (numbering_view numbering) seq
        (map message_view messages.old) }
{
    let mut next = seq;
    for message in messages.iter_mut() {
        let number = number_of(numbering, next, message);
        message.payload.seq = Some(u64::from(number));
        next = number.wrapping_add(1);
    }
    next
}
