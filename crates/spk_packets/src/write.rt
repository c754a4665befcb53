//! Writing a packet (chapters 2 and 3), canonically.

ghost use Rattle.std.specs.Prelude.{◌≡◌, ◌⊎◌, ◌∷◌, ◌%◌, ◌^◌, ◌+◌, ◌++◌, ◌<◌, ◌≤◌, Some, length, string_bytes, map, false, None, is_none, IfOk, IfErr, OnOk};
ghost use Rattle.std.specs.Option.{option_map};
ghost use Rattle.std.specs.List.{flat_map};
ghost use Rattle.spk_packets.specs.Fault.{first_of, IsNamed};
ghost use Rattle.spk_packets.specs.Grammar.{Spells, connect_flags, will_bits, first_byte, largest, protocol};
ghost use Rattle.spk_packets.specs.Spelling.{number, counted, request, id_part, will_part, body, shortest, spelling, unwritable, IsWord, HasWords};
ghost use Rattle.spk_packets.specs.View.{view, will_view, request_view};

use crate::fault::PacketFault;
use crate::judge::judge;
use crate::packet::{Packet, Request, Will};
use crate::read::LARGEST;
use crate::size::body_size;
use std::alloc::{AllocError, Global};

/// The low 16 bits at the end, the most significant byte first.
#[inline(always)]
fn put_number(out: &mut Vec<u8>, n: usize) -> Result<(), AllocError>
    ensures { OnOk result (out.new.items ≡ out.old.items ++ number n) }
{
    out.push((n / 256 % 256) as u8)?;
    out.push((n % 256) as u8)?;
    Ok(())
}

/// Bytes behind their length.
#[inline(always)]
pub(crate) fn put_counted(out: &mut Vec<u8>, bytes: &[u8]) -> Result<(), AllocError>
    ensures { OnOk result (out.new.items ≡ out.old.items ++ counted bytes.now) }
{
    put_number(out, bytes.len())?;
    out.extend_from_slice(bytes)
}

fn put_request(out: &mut Vec<u8>, entry: &Request) -> Result<(), AllocError>
    ensures { OnOk result (out.new.items ≡ out.old.items ++ request (request_view entry.now)) }
{
    put_counted(out, entry.filter.as_bytes())?;
    out.push(entry.qos)?;
    Ok(())
}

fn put_requests(out: &mut Vec<u8>, requests: &[Request]) -> Result<(), AllocError>
    ensures { OnOk result
        (out.new.items ≡ out.old.items ++ flat_map request (map request_view requests.now)) }
{
    for entry in requests {
        put_request(out, entry)?;
    }
    Ok(())
}

fn put_filters(out: &mut Vec<u8>, filters: &[String]) -> Result<(), AllocError>
    ensures { OnOk result
        (out.new.items
        ≡ out.old.items ++ flat_map counted (map (λ filter. string_bytes filter) filters.now)) }
{
    for filter in filters {
        put_counted(out, filter.as_bytes())?;
    }
    Ok(())
}

/// The will topic and the will message, where there is a will.
fn put_will(out: &mut Vec<u8>, will: &Option<Will>) -> Result<(), AllocError>
    ensures { OnOk result
        (out.new.items ≡ out.old.items ++ will_part (option_map will_view will.now)) }
{
    if let Some(will) = will {
        put_counted(out, will.topic.as_bytes())?;
        put_counted(out, &will.message)?;
    }
    Ok(())
}

pub(crate) fn put_id(out: &mut Vec<u8>, id: Option<u16>) -> Result<(), AllocError>
    ensures put { OnOk result (out.new.items ≡ out.old.items ++ id_part id) }
    ensures word { IsWord id }
{
    match id {
        Some(id) => put_number(out, usize::from(id)),
        None => Ok(()),
    }
}

/// What stands behind the header of a CONNECT.
fn put_connect(
    out: &mut Vec<u8>,
    client: &str,
    clean: bool,
    keep: u16,
    will: &Option<Will>,
) -> Result<(), AllocError>
    ensures { OnOk result (out.new.items ≡ out.old.items
        ++ (protocol ++ (connect_flags false false (option_map will_view will.now) clean % 256
        ∷ (number keep ++ (counted client.now ++ will_part (option_map will_view will.now)))))) }
{
    out.extend_from_slice(&[0, 4, 77, 81, 84, 84, 4])?;
    out.push(flags(clean, will))?;
    put_number(out, usize::from(keep))?;
    put_counted(out, client.as_bytes())?;
    put_will(out, will)?;
    Ok(())
}

/// What stands behind the header.
#[tactic(auto, unfolding(crate::specs::Spelling::body, crate::specs::Spelling::HasWords))]
fn put_body(out: &mut Vec<u8>, packet: &Packet) -> Result<(), AllocError>
    ensures body { OnOk result (out.new.items ≡ out.old.items ++ body (view packet.now)) }
    ensures words { OnOk result (HasWords (view packet.now)) }
{
    match packet {
        Packet::Connect {
            client,
            clean,
            keep,
            will,
        } => {
            put_connect(out, client.as_str(), *clean, *keep, will)?;
        }
        Packet::ConnAck { present, code } => {
            out.push(u8::from(*present))?;
            out.push(*code)?;
        }
        Packet::Publish {
            topic,
            id,
            payload,
            ..
        } => {
            put_counted(out, topic.as_bytes())?;
            put_id(out, *id)?;
            out.extend_from_slice(payload)?;
        }
        Packet::PubAck { id } | Packet::UnsubAck { id } => put_number(out, usize::from(*id))?,
        Packet::Subscribe { id, filters } => {
            put_number(out, usize::from(*id))?;
            put_requests(out, filters)?;
        }
        Packet::SubAck { id, codes } => {
            put_number(out, usize::from(*id))?;
            out.extend_from_slice(codes)?;
        }
        Packet::Unsubscribe { id, filters } => {
            put_number(out, usize::from(*id))?;
            put_filters(out, filters)?;
        }
        Packet::PingReq | Packet::PingResp | Packet::Disconnect => {}
    }
    Ok(())
}

/// The low eight bits of the connect flags, without user name and password.
fn flags(clean: bool, will: &Option<Will>) -> u8
    ensures { result ≡ connect_flags false false (option_map will_view will.now) clean % 256 }
{
    let bits = match will {
        Some(will) => will_flags(will),
        None => 0,
    };
    ((bits + 2 * u16::from(clean)) % 256) as u8
}

fn will_flags(will: &Will) -> u16
    ensures bits { result ≡ will_bits (Some (will_view will.now)) }
    ensures small { result < 4096 }
{
    let qos = will.qos;
    32 * u16::from(will.retain) + 8 * u16::from(qos) + 4
}

/// The low eight bits of the first byte.
fn first(packet: &Packet) -> u8
    ensures { result ≡ first_byte (view packet.now) % 256 }
{
    match packet {
        Packet::Connect { .. } => 0x10,
        Packet::ConnAck { .. } => 0x20,
        Packet::Publish {
            dup,
            qos,
            retain,
            ..
        } => {
            let flags = 8 * u16::from(*dup) + 2 * u16::from(*qos) + u16::from(*retain);
            ((0x30 + flags) % 256) as u8
        }
        Packet::PubAck { .. } => 0x40,
        Packet::Subscribe { .. } => 0x82,
        Packet::SubAck { .. } => 0x90,
        Packet::Unsubscribe { .. } => 0xa2,
        Packet::UnsubAck { .. } => 0xb0,
        Packet::PingReq => 0xc0,
        Packet::PingResp => 0xd0,
        Packet::Disconnect => 0xe0,
    }
}

/// How many bytes the remaining length takes.
#[tactic(auto, unfolding(crate::specs::Spelling::shortest))]
fn size_of(len: usize) -> usize
    ensures size { result ≡ length (shortest len) }
    ensures small { result ≤ 4 }
{
    if len < 128 {
        1
    } else if len < 16_384 {
        2
    } else if len < 2_097_152 {
        3
    } else {
        4
    }
}

/// The remaining length at the end, in as few bytes as it has groups of seven bits.
#[tactic(auto, unfolding(crate::specs::Spelling::shortest))]
pub(crate) fn put_length(out: &mut Vec<u8>, len: usize) -> Result<(), AllocError>
    requires { len < 2097152 }
    ensures { OnOk result (out.new.items ≡ out.old.items ++ shortest len) }
{
    if len < 128 {
        out.push(len as u8)?;
    } else if len < 16_384 {
        out.push((len % 128 + 128) as u8)?;
        out.push((len / 128) as u8)?;
    } else {
        out.push((len % 128 + 128) as u8)?;
        out.push((len / 128 % 128 + 128) as u8)?;
        out.push((len / 16_384) as u8)?;
    }
    Ok(())
}

/// How many bytes a packet with a body of this length has, if that isn't too much.
pub(crate) fn whole_of(len: usize) -> Result<usize, PacketFault>
    ensures ok { IfOk result (λ n. (n ≡ 1 + length (shortest len) + len) × (n ≤ largest)) }
    ensures err { IfErr result
        (λ e. (e ≡ PacketFault.TooLarge) × (largest < 1 + length (shortest len) + len)) }
{
    if len > LARGEST {
        return Err(PacketFault::TooLarge);
    }
    let whole = 1 + size_of(len) + len;
    if whole > LARGEST {
        return Err(PacketFault::TooLarge);
    }
    Ok(whole)
}

/// The header and the body.
fn join(alloc: Global, packet: &Packet) -> Result<Vec<u8>, PacketFault>
    ensures ok { IfOk result (λ v. v.items ≡ first_byte (view packet.now) % 256
        ∷ (shortest (length (body (view packet.now))) ++ body (view packet.now))) }
    ensures words { OnOk result (HasWords (view packet.now)) }
    ensures within { OnOk result
        (1 + length (shortest (length (body (view packet.now)))) + length (body (view packet.now))
        ≤ largest) }
    ensures over { IfErr result (λ e. (e ≡ PacketFault.NoMemory) ⊎ ((e ≡ PacketFault.TooLarge)
        × (largest < 1 + length (shortest (length (body (view packet.now))))
        + length (body (view packet.now))))) }
{
    let len = body_size(packet);
    let whole = whole_of(len)?;
    let mut out = Vec::with_capacity(alloc, whole)?;
    out.push(first(packet))?;
    put_length(&mut out, len)?;
    put_body(&mut out, packet)?;
    Ok(out)
}

/// The canonical spelling of the packet: the shortest remaining length, no user name and no password. Refused are, in
/// this order over the whole packet: a text over 65,535 bytes or with U+0000, `BadText`; identifier 0, an identifier
/// without QoS 1 or QoS 1 without one, an empty list, DUP with QoS 0, a QoS or code outside its table, a will message
/// over 65,535 bytes, `BadBody`; a publish or a will of QoS 2, `QosTwo`; more than 1,048,576 bytes in all, `TooLarge`.
pub fn encode(alloc: Global, packet: &Packet) -> Result<Vec<u8>, PacketFault>
    // What is written spells the packet.
    ensures spells { IfOk result (λ v. Spells v.items (view packet.now)) }
    // It is the canonical spelling.
    ensures spelled { IfOk result (λ v. v.items ≡ spelling (view packet.now)) }
    // A refusal is the first of the order that holds, unless memory ran out; where one holds, nothing is written.
    ensures refused { IfErr result (λ e. IsNamed e (first_of (unwritable (view packet.now)))) }
    ensures not_refused { OnOk result (first_of (unwritable (view packet.now)) ≡ None) }
{
    judge(packet)?;
    join(alloc, packet)
}

/// Whether the packet can be written: exactly where none of the refusals of `encode` holds. It takes no memory.
pub fn is_writable(packet: &Packet) -> bool
    ensures { result ≡ is_none (first_of (unwritable (view packet.now))) }
{
    judge(packet).is_ok() && whole_of(body_size(packet)).is_ok()
}
