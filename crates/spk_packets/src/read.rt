//! Reading a packet at the front of bytes (chapter 2).

ghost use Rattle.std.specs.Prelude.{◌≡◌, ℕ, ◌≤◌, length, take, IfOk, IfErr, IsTrue, OnOk, Ok, None, false, true};
ghost use Rattle.spk_packets.specs.Fault.{Gives, IsNamed, first_of, is_of_bytes};
ghost use Rattle.spk_packets.specs.Message.{Message};
ghost use Rattle.spk_packets.specs.Grammar.{IsLength, Spells, begins_publish, keeps};
ghost use Rattle.spk_packets.specs.Refusals.{refusals, length_refusals};
ghost use Rattle.spk_packets.specs.Reading.{length_at, cut_at, body_at, packet_at, ended, is_publish_kind, keeps_kind};
ghost use Rattle.spk_packets.specs.View.{view, front_view, lent_view, publish_view};

use crate::borrowed::PublishRef;
use crate::connect::connect;
use crate::fault::PacketFault;
use crate::packet::Packet;
use crate::parts::end;
use crate::publish::{lent_publish, publish};
use crate::small::{connack, id_alone};
use crate::subscribe::{suback, subscribe, unsubscribe};
use crate::table::{Kind, judged};
use std::alloc::Global;

/// The greatest packet, in bytes, header and all (own rule).
pub(crate) const LARGEST: usize = 1_048_576;

/// The remaining length, and how many bytes it takes.
#[tactic(auto, unfolding(crate::specs::Reading::length_within))]
fn sevens(bytes: &[u8]) -> Result<(u32, usize), PacketFault>
    ensures given { result ≡ length_at bytes.now }
    ensures short { IfOk result (λ x. x.1 ≤ 4) }
    ensures bytes { IfErr result (λ e. IsTrue (is_of_bytes e)) }
{
    match bytes {
        [a, ..] if *a < 128 => Ok((u32::from(*a), 1)),
        [a, b, ..] if *b < 128 => Ok((u32::from(*a % 128) + 128 * u32::from(*b), 2)),
        [a, b, c, ..] if *c < 128 => {
            let high = u32::from(*b % 128) + 128 * u32::from(*c);
            Ok((u32::from(*a % 128) + 128 * high, 3))
        }
        [a, b, c, d, ..] if *d < 128 => {
            let high = u32::from(*c % 128) + 128 * u32::from(*d);
            let high = u32::from(*b % 128) + 128 * high;
            Ok((u32::from(*a % 128) + 128 * high, 4))
        }
        [_, _, _, _, ..] => Err(PacketFault::BadLength),
        _ => Err(PacketFault::More),
    }
}

/// The kind, the body, and how many bytes the packet takes.
#[tactic(auto, unfolding(crate::specs::Reading::cut_at))]
fn cut(bytes: &[u8]) -> Result<(Kind, &[u8], usize), PacketFault>
    ensures given { Gives (λ x. (x.0, (x.1.now, x.2))) result (cut_at bytes.now) }
    ensures kept { IfOk result (λ x. keeps_kind x.0 ≡ keeps bytes.now) }
    ensures publish { IfOk result (λ x. is_publish_kind x.0 ≡ begins_publish bytes.now) }
    ensures bytes { IfErr result (λ e. IsTrue (is_of_bytes e)) }
{
    let [first, rest @ ..] = bytes else {
        return Err(PacketFault::More);
    };
    let kind = judged(*first)?;
    let (len, size) = sevens(rest)?;
    let len = len as usize;
    let whole = 1 + size + len;
    if whole > LARGEST {
        return Err(PacketFault::TooLarge);
    }
    if bytes.len() < whole {
        return Err(PacketFault::More);
    }
    Ok((kind, &rest[size..size + len], whole))
}

/// The packet of this kind with this body. Not inlined: a caller that finds no whole packet pays for no packet's room.
#[inline(never)]
#[tactic(auto, unfolding(crate::specs::Reading::body_at, crate::specs::Reading::ended))]
fn packet(alloc: Global, kind: Kind, body: &[u8]) -> Result<Packet, PacketFault>
    ensures given { Gives view result (body_at kind body.now) }
    ensures memory { IfErr result (λ e. is_of_bytes e ≡ false → IsTrue (keeps_kind kind)) }
{
    match kind {
        Kind::Connect => connect(alloc, body),
        Kind::ConnAck => connack(body),
        Kind::Publish { dup, qos, retain } => publish(alloc, dup, qos, retain, body),
        Kind::PubAck => Ok(Packet::PubAck {
            id: id_alone(body)?,
        }),
        Kind::Subscribe => subscribe(alloc, body),
        Kind::SubAck => suback(alloc, body),
        Kind::Unsubscribe => unsubscribe(alloc, body),
        Kind::UnsubAck => Ok(Packet::UnsubAck {
            id: id_alone(body)?,
        }),
        Kind::PingReq => bare(Packet::PingReq, body),
        Kind::PingResp => bare(Packet::PingResp, body),
        Kind::Disconnect => bare(Packet::Disconnect, body),
    }
}

/// A packet without a body.
#[tactic(auto, unfolding(crate::specs::Reading::ended))]
fn bare(packet: Packet, body: &[u8]) -> Result<Packet, PacketFault>
    ensures given { Gives view result (ended (view packet) body.now) }
    ensures bytes { IfErr result (λ e. IsTrue (is_of_bytes e)) }
{
    end(body)?;
    Ok(packet)
}

#[tactic(auto, unfolding(crate::specs::Reading::packet_at))]
fn front(alloc: Global, bytes: &[u8]) -> Result<(Packet, usize), PacketFault>
    ensures given { Gives front_view result (packet_at bytes.now) }
    ensures memory { IfErr result (λ e. is_of_bytes e ≡ false → IsTrue (keeps bytes.now)) }
{
    let (kind, body, whole) = cut(bytes)?;
    Ok((packet(alloc, kind, body)?, whole))
}

/// The PUBLISH with this body.
#[tactic(auto, unfolding(crate::specs::Reading::body_at))]
fn lent(kind: Kind, body: &[u8]) -> Result<PublishRef<'_>, PacketFault>
    requires { is_publish_kind kind ≡ true }
    ensures given { Gives publish_view result (body_at kind body.now) }
    ensures bytes { IfErr result (λ e. IsTrue (is_of_bytes e)) }
{
    match kind {
        Kind::Publish { dup, qos, retain } => lent_publish(dup, qos, retain, body),
        _ => unreachable!(),
    }
}

#[tactic(auto, unfolding(crate::specs::Reading::packet_at))]
fn lent_front(bytes: &[u8]) -> Result<(PublishRef<'_>, usize), PacketFault>
    requires { begins_publish bytes.now ≡ true }
    ensures given { Gives lent_view result (packet_at bytes.now) }
    ensures bytes { IfErr result (λ e. IsTrue (is_of_bytes e)) }
{
    let (kind, body, whole) = cut(bytes)?;
    Ok((lent(kind, body)?, whole))
}

/// Whether the bytes begin a PUBLISH (section 2.2.1), whole or not, right or wrong.
pub fn begins_publish(bytes: &[u8]) -> bool
    ensures { result ≡ begins_publish bytes.now }
{
    match bytes {
        [first, ..] => *first / 16 == 3,
        _ => false,
    }
}

/// The remaining length at the front of the bytes, and how many bytes it takes (section 2.2.3). A form longer than
/// needed is read too (own rule). It takes no memory. Refused are bytes that end within it, `More`, and a fourth byte
/// that says that a fifth follows, `BadLength`.
pub fn read_length(bytes: &[u8]) -> Result<(u32, usize), PacketFault>
    ensures found { IfOk result
        (λ x. (x.1 ≤ length bytes.now) × IsLength (take x.1 bytes.now) x.0) }
    ensures only { (n size : ℕ) → size ≤ length bytes.now → IsLength (take size bytes.now) n
        → result ≡ Ok (n, size) }
    ensures refused { IfErr result (λ e. first_of (length_refusals bytes.now) ≡ Some e) }
    ensures not_refused { OnOk result (first_of (length_refusals bytes.now) ≡ None) }
{
    sevens(bytes)
}

/// The packet at the front of the bytes, and how many bytes it takes (chapters 2 and 3). More may follow. It copies
/// each text and payload that the packet keeps once, and asks for no memory for a length that the bytes don't hold.
pub fn decode(alloc: Global, bytes: &[u8]) -> Result<(Packet, usize), PacketFault>
    // The bytes that it takes spell the packet.
    ensures found { IfOk result
        (λ x. (x.1 ≤ length bytes.now) × Spells (take x.1 bytes.now) (view x.0)) }
    // Where the first n bytes spell a packet, that is the answer, unless memory runs out.
    ensures only { (p : Message) (n : ℕ) → n ≤ length bytes.now → Spells (take n bytes.now) p
        → Gives front_view result (Ok (p, n)) }
    // A fault is the first of the order that holds, unless memory ran out.
    ensures refused { IfErr result (λ e. IsNamed e (first_of (refusals bytes.now))) }
    // What is read has none: where one holds, nothing is read.
    ensures not_refused { OnOk result (first_of (refusals bytes.now) ≡ None) }
    // A packet that keeps no text, payload or list takes no memory.
    ensures memory { IfErr result (λ e. is_of_bytes e ≡ false → IsTrue (keeps bytes.now)) }
{
    front(alloc, bytes)
}

/// The PUBLISH at the front of the bytes, with its topic and its payload lent from them, and how many bytes it takes (section 3.3). More
/// may follow. It takes no memory. Refused as `decode` refuses the bytes.
pub fn decode_publish(bytes: &[u8]) -> Result<(PublishRef<'_>, usize), PacketFault>
    requires { begins_publish bytes.now ≡ true }
    // The bytes that it takes spell the packet.
    ensures found { IfOk result
        (λ x. (x.1 ≤ length bytes.now) × Spells (take x.1 bytes.now) (publish_view x.0)) }
    // Where the first n bytes spell a packet, that is the answer.
    ensures only { (p : Message) (n : ℕ) → n ≤ length bytes.now → Spells (take n bytes.now) p
        → Gives lent_view result (Ok (p, n)) }
    // A fault is the first of the order that holds.
    ensures refused { IfErr result (λ e. IsNamed e (first_of (refusals bytes.now))) }
    // What is read has none: where one holds, nothing is read.
    ensures not_refused { OnOk result (first_of (refusals bytes.now) ≡ None) }
    // It takes no memory.
    ensures memory { IfErr result (λ e. IsTrue (is_of_bytes e)) }
{
    lent_front(bytes)
}
