//! The event that a content says.
ghost use Rattle.std.specs.Prelude.{◌≡◌, ◌≢◌, ◌<◌, ◌^◌, ◌++◌, ◌∷◌, ℕ, List, None, IfNone, IfOk, IfSome, OnOk};
ghost use Rattle.spk_frames.specs.Numbers.{eight};
ghost use Rattle.spk_packets.specs.Fault.{number_of};
ghost use Rattle.spk_packets.specs.declared.fault.PacketFault.{PacketFault};
ghost use Rattle.spk_packets.specs.declared.fault.PacketFault.TheVariants as PacketFault;
ghost use Rattle.spk_broker_events.specs.Record.{IsSaid, sort_code};

use crate::event::Event;
use spk_frames::eight;
use spk_packets::{PacketFault, decode};
use spk_session::Sort;
use std::alloc::{AllocError, Global};

/// A moment, and nothing else.
fn moment_in(bytes: &[u8]) -> Option<u64>
    ensures some { IfSome result (λ m. (m < 2 ^ 64) × (bytes.now ≡ eight m)) }
    ensures none { IfNone result ((m : ℕ) → m < 2 ^ 64 → bytes.now ≡ eight m → ⊥) }
{
    let Some((moment, rest)) = eight(bytes) else {
        return None;
    };
    if rest.is_empty() { Some(moment) } else { None }
}

/// A connection and a moment, and what follows.
pub(crate) fn front_in(bytes: &[u8]) -> Option<(u64, u64, &[u8])>
    ensures some { IfSome result (λ x. (x.0 < 2 ^ 64) × (x.1 < 2 ^ 64)
        × (bytes.now ≡ eight x.0 ++ (eight x.1 ++ x.2.now))) }
    ensures none { IfNone result ((conn moment : ℕ) (rest : List ℕ) → conn < 2 ^ 64 → moment < 2 ^ 64
        → bytes.now ≡ eight conn ++ (eight moment ++ rest) → ⊥) }
{
    let Some((conn, behind)) = eight(bytes) else {
        return None;
    };
    let Some((moment, rest)) = eight(behind) else {
        return None;
    };
    Some((conn, moment, rest))
}

/// The fault of a number.
fn fault_of(number: u8) -> Option<PacketFault>
    ensures some { IfSome result (λ f. number_of f ≡ number) }
    ensures none { IfNone result ((f : PacketFault) → number_of f ≡ number → ⊥) }
{
    match number {
        1 => Some(PacketFault::NoMemory),
        10 => Some(PacketFault::More),
        11 => Some(PacketFault::BadLength),
        12 => Some(PacketFault::BadFlags),
        13 => Some(PacketFault::BadType),
        14 => Some(PacketFault::BadText),
        15 => Some(PacketFault::BadBody),
        16 => Some(PacketFault::TooLarge),
        17 => Some(PacketFault::QosTwo),
        18 => Some(PacketFault::BadLevel),
        _ => None,
    }
}

fn open(bytes: &[u8]) -> Option<Event>
    ensures { IsSaid (1 ∷ bytes.now) result }
{
    let Some(moment) = moment_in(bytes) else {
        return None;
    };
    Some(Event::Open { moment })
}

/// Bytes that are no packet say nothing, unless memory was refused.
fn none_by(fault: PacketFault) -> Result<Option<Event>, AllocError>
    ensures none { IfOk result (λ o. o ≡ None) }
    ensures named { OnOk result (fault ≢ PacketFault.NoMemory) }
{
    match fault {
        PacketFault::NoMemory => Err(AllocError),
        _ => Ok(None),
    }
}

fn packet(alloc: Global, bytes: &[u8]) -> Result<Option<Event>, AllocError>
    ensures { IfOk result (λ o. IsSaid (2 ∷ bytes.now) o) }
{
    let Some((conn, moment, rest)) = front_in(bytes) else {
        return Ok(None);
    };
    match decode(alloc, rest) {
        Ok((packet, len)) => {
            if len == rest.len() {
                Ok(Some(Event::Packet {
                    conn,
                    packet,
                    moment,
                }))
            } else {
                Ok(None)
            }
        }
        Err(fault) => none_by(fault),
    }
}

fn fault(bytes: &[u8]) -> Option<Event>
    ensures { IsSaid (3 ∷ bytes.now) result }
{
    let Some((conn, moment, rest)) = front_in(bytes) else {
        return None;
    };
    if rest.len() != 1 {
        return None;
    }
    let Some(fault) = fault_of(rest[0]) else {
        return None;
    };
    Some(Event::Fault {
        conn,
        fault,
        moment,
    })
}

fn closed(bytes: &[u8]) -> Option<Event>
    ensures { IsSaid (4 ∷ bytes.now) result }
{
    let Some((conn, moment, rest)) = front_in(bytes) else {
        return None;
    };
    if rest.is_empty() {
        Some(Event::Closed { conn, moment })
    } else {
        None
    }
}

fn tick(bytes: &[u8]) -> Option<Event>
    ensures { IsSaid (5 ∷ bytes.now) result }
{
    let Some(moment) = moment_in(bytes) else {
        return None;
    };
    Some(Event::Tick { moment })
}

fn refused(sort: Sort, bytes: &[u8]) -> Option<Event>
    ensures { IsSaid (sort_code sort ∷ bytes.now) result }
{
    let Some((conn, moment, rest)) = front_in(bytes) else {
        return None;
    };
    if rest.is_empty() {
        Some(Event::Refused { conn, sort, moment })
    } else {
        None
    }
}

/// The event that a content says; none where it says none. Refused only where memory is. Linear in the content.
pub fn read(alloc: Global, content: &[u8]) -> Result<Option<Event>, AllocError>
    ensures { IfOk result (λ o. IsSaid content.now o) }
{
    let [code, rest @ ..] = content else {
        return Ok(None);
    };
    let code = *code;
    if code == 1 {
        return Ok(open(rest));
    }
    if code == 2 {
        return packet(alloc, rest);
    }
    if code == 3 {
        return Ok(fault(rest));
    }
    if code == 4 {
        return Ok(closed(rest));
    }
    if code == 5 {
        return Ok(tick(rest));
    }
    if code == 6 {
        return Ok(refused(Sort::QosZero, rest));
    }
    if code == 7 {
        return Ok(refused(Sort::Other, rest));
    }
    Ok(None)
}
