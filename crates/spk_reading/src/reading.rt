//! Reading a packet.
ghost use Rattle.std.specs.Prelude.{◌≡◌, ◌≢◌, ◌⊎◌, IfOk, IfErr, Ok, Err, None, true, Bool, List, ℕ};
ghost use Rattle.spk_packets.specs.Grammar.{Spells, begins_publish};
ghost use Rattle.spk_packets.specs.Message.{Message, Publish};
ghost use Rattle.spk_packets.specs.View.{publish_view, view};
ghost use Rattle.spk_payload.specs.declared.values.Values.TheVariants as choice;
ghost use Rattle.spk_payload.specs.Reading.{payload_at};
ghost use Rattle.spk_payload.specs.View.{payload_view};
ghost use Rattle.spk_reading.specs.Answer.{Gives};
ghost use Rattle.spk_reading.specs.Data.{HeardData};
ghost use Rattle.spk_reading.specs.Meaning.{IsReadFault, Says, heard};
ghost use Rattle.spk_reading.specs.View.{heard_view};

use crate::fault::ReadFault;
use crate::published::{content_at, content_of};
use crate::said::Heard;
use spk_packets::laws::prefix_free;
use spk_packets::{Packet, PacketFault, PublishRef, begins_publish, decode, decode_publish};
use spk_payload::Payload;
use std::alloc::Global;

/// Bytes that aren't a packet at their front.
fn fault_of(fault: PacketFault) -> ReadFault
    ensures { (result ≡ ReadFault.NoMemory)
        ⊎ ((result ≡ ReadFault.BadPayload) × (fault ≢ PacketFault.NoMemory)) }
{
    match fault {
        PacketFault::NoMemory => ReadFault::NoMemory,
        _ => ReadFault::BadPayload,
    }
}

/// The packet that all the bytes spell.
fn packet_in(alloc: Global, bytes: &[u8]) -> Result<Packet, ReadFault>
    ensures found { IfOk result (λ p. Spells bytes.now (view p)) }
    ensures fault { IfErr result (λ f. (f ≡ ReadFault.NoMemory)
        ⊎ ((f ≡ ReadFault.BadPayload) × ((p : Message) → Spells bytes.now p → ⊥))) }
{
    match decode(alloc, bytes) {
        Ok((packet, size)) => {
            if size == bytes.len() {
                Ok(packet)
            } else {
                Err(ReadFault::BadPayload)
            }
        }
        Err(fault) => Err(fault_of(fault)),
    }
}

/// The PUBLISH that all the bytes spell, lent from them.
fn publish_in(bytes: &[u8]) -> Result<PublishRef<'_>, ReadFault>
    requires { begins_publish bytes.now ≡ true }
    ensures found { IfOk result (λ p. Spells bytes.now (publish_view p)) }
    ensures fault { IfErr result (λ f. (f ≡ ReadFault.NoMemory)
        ⊎ ((f ≡ ReadFault.BadPayload) × ((p : Message) → Spells bytes.now p → ⊥))) }
{
    match decode_publish(bytes) {
        Ok((packet, size)) => {
            if size < bytes.len() {
                return Err(ReadFault::BadPayload);
            }
            Ok(packet)
        }
        Err(fault) => Err(fault_of(fault)),
    }
}

/// What a PUBLISH says.
fn published(alloc: Global, packet: PublishRef<'_>) -> Result<Heard, ReadFault>
    ensures { Gives heard_view result (heard (publish_view packet.entry)) }
{
    let content = content_at(alloc, packet.topic, packet.payload)?;
    let ack = if packet.qos == 1 { packet.id } else { None };
    Ok(Heard::Published { ack, content })
}

/// What a packet says.
fn heard_of(alloc: Global, packet: Packet) -> Result<Heard, ReadFault>
    ensures { Gives heard_view result (heard (view packet)) }
{
    match packet {
        Packet::Publish {
            qos,
            topic,
            id,
            payload,
            ..
        } => {
            let content = content_at(alloc, topic.as_str(), &payload)?;
            let ack = if qos == 1 { id } else { None };
            Ok(Heard::Published { ack, content })
        }
        Packet::ConnAck { code, .. } => Ok(Heard::Answered(code)),
        Packet::SubAck { .. } => Ok(Heard::Granted),
        _ => Ok(Heard::Other),
    }
}

/// What the bytes of one packet say to a host (Sparkplug 3.0.0, chapters 4 and 6).
///
/// Refuses, in this order, bytes that aren't one packet (BadPayload), and of a PUBLISH a topic that isn't one of Sparkplug
/// (NotSparkplug), a payload that can't be read (BadPayload), and a `seq` (NoSeq), a timestamp (NoStamp) or a bdSeq (NoBdSeq)
/// that the message has to carry and doesn't. The payload of a command or a STATE isn't read.
pub fn read(alloc: Global, bytes: &[u8]) -> Result<Heard, ReadFault>
    // What is answered is what the bytes say.
    ensures found { IfOk result (λ h. Says bytes.now (heard_view h)) }
    // What the bytes say is answered, unless memory was refused.
    ensures only { (h : HeardData) → Says bytes.now h → Gives heard_view result (Ok h) }
    // A fault is that of the bytes, and theirs is answered, unless memory was refused.
    ensures fault { IfErr result (λ f. (f ≡ ReadFault.NoMemory) ⊎ IsReadFault bytes.now f) }
    ensures only_fault { (f : ReadFault) → IsReadFault bytes.now f
        → Gives heard_view result (Err f) }
{
    prefix_free();
    if begins_publish(bytes) {
        return match publish_in(bytes) {
            Ok(packet) => published(alloc, packet),
            Err(fault) => Err(fault),
        };
    }
    match packet_in(alloc, bytes) {
        Ok(packet) => heard_of(alloc, packet),
        Err(fault) => Err(fault),
    }
}

impl Heard {
    /// What a PUBLISH at QoS 0 on this topic says, whose payload's bytes mean this payload: as `read` says of its bytes, without them
    /// (Sparkplug 3.0.0, chapters 4 and 6). Refused as there, but for bytes that aren't a packet, or a payload that can't be read.
    pub fn of(alloc: Global, topic: &str, payload: Payload) -> Result<Heard, ReadFault>
        ensures { (dup retain : Bool) (bytes : List ℕ) → payload_at choice.All bytes ≡ Ok (payload_view payload)
            → Gives heard_view result (heard (Publish dup 0 retain topic.now None bytes)) }
    {
        let content = content_of(alloc, topic, payload)?;
        Ok(Heard::Published { ack: None, content })
    }
}
