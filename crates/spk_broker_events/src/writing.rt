//! An event's record at the end of bytes.
ghost use Rattle.std.specs.Prelude.{◌≡◌, ◌≤◌, ◌<◌, ◌++◌, ◌∷◌, [], length, None, IfErr, IfOk, OnErr, OnOk};
ghost use Rattle.spk_frames.specs.Numbers.{eight};
ghost use Rattle.spk_packets.specs.Fault.{IsNamed, number_of};
ghost use Rattle.spk_packets.specs.View.{view};
ghost use Rattle.spk_packets.specs.declared.fault.PacketFault.TheVariants as PacketFault;
ghost use Rattle.spk_broker_rules.specs.Plan as plan;
ghost use Rattle.spk_frames.specs.Frame.{framed};
ghost use Rattle.spk_broker_events.specs.Record.{Says, content, front, most, record_of, refusal, said, sort_code};

use crate::event::Event;
use spk_frames::FrameFault;
use spk_packets::{Packet, PacketFault, encode};
use spk_session::Sort;
use std::alloc::{AllocError, Global};

/// The most bytes of a content: a packet has 1,048,576.
pub const MOST: u32 = 1_048_593;

fn sort_code(sort: Sort) -> u8
    ensures { result ≡ sort_code sort }
{
    match sort {
        Sort::QosZero => 6,
        Sort::Other => 7,
    }
}

/// A fault's number, in one byte.
fn fault_code(fault: PacketFault) -> u8
    ensures { result ≡ number_of fault }
{
    match fault {
        PacketFault::NoMemory => 1,
        PacketFault::More => 10,
        PacketFault::BadLength => 11,
        PacketFault::BadFlags => 12,
        PacketFault::BadType => 13,
        PacketFault::BadText => 14,
        PacketFault::BadBody => 15,
        PacketFault::TooLarge => 16,
        PacketFault::QosTwo => 17,
        PacketFault::BadLevel => 18,
    }
}

/// A code and the moment.
#[tactic(auto, unfolding(spk_frames::specs::Numbers::eight))]
fn timed(alloc: Global, code: u8, moment: u64) -> Result<Vec<u8>, AllocError>
    ensures { IfOk result (λ v. v.items ≡ code ∷ eight moment) }
{
    let mut out = Vec::with_capacity(alloc, 9)?;
    out.push(code)?;
    out.extend_from_slice(&moment.to_le_bytes())?;
    Ok(out)
}

/// A code, the connection and the moment.
#[tactic(auto, unfolding(spk_frames::specs::Numbers::eight, crate::specs::Record::front))]
fn fronted(alloc: Global, code: u8, conn: u64, moment: u64) -> Result<Vec<u8>, AllocError>
    ensures { IfOk result (λ v. v.items ≡ front code conn moment) }
{
    let mut out = Vec::with_capacity(alloc, 18)?;
    out.push(code)?;
    out.extend_from_slice(&conn.to_le_bytes())?;
    out.extend_from_slice(&moment.to_le_bytes())?;
    Ok(out)
}

/// The content of a packet that came. Refused where it can't be written, as `encode` refuses it.
#[tactic(auto, unfolding(crate::specs::Record::content, crate::specs::Record::HasWords, crate::specs::Record::Spelled))]
fn packet_content(
    alloc: Global,
    conn: u64,
    packet: &Packet,
    moment: u64,
) -> Result<Vec<u8>, PacketFault>
    ensures is { IfOk result (λ v. v.items ≡ content (plan.Packet conn (view packet.now) moment)) }
    ensures says { OnOk result (Says (content (plan.Packet conn (view packet.now) moment)) (plan.Packet conn (view packet.now) moment)) }
    ensures writable { OnOk result (refusal (plan.Packet conn (view packet.now) moment) ≡ None) }
    ensures refused { IfErr result (λ e. IsNamed e (refusal (plan.Packet conn (view packet.now) moment))) }
{
    let spelled = encode(alloc, packet)?;
    let mut out = fronted(alloc, 2, conn, moment)?;
    out.extend_from_slice(&spelled)?;
    Ok(out)
}

/// The content of an event. Refused where its packet can't be written, as `encode` refuses it.
#[tactic(auto, unfolding(crate::specs::Record::content, crate::specs::Record::HasWords, crate::specs::Record::Spelled))]
fn content_of(alloc: Global, event: &Event) -> Result<Vec<u8>, PacketFault>
    ensures is { IfOk result (λ v. v.items ≡ content (said event.now)) }
    ensures says { OnOk result (Says (content (said event.now)) (said event.now)) }
    ensures writable { OnOk result (refusal (said event.now) ≡ None) }
    ensures refused { IfErr result (λ e. IsNamed e (refusal (said event.now))) }
{
    match event {
        Event::Open { moment } => Ok(timed(alloc, 1, *moment)?),
        Event::Packet {
            conn,
            packet,
            moment,
        } => packet_content(alloc, *conn, packet, *moment),
        Event::Fault {
            conn,
            fault,
            moment,
        } => {
            let mut out = fronted(alloc, 3, *conn, *moment)?;
            out.push(fault_code(*fault))?;
            Ok(out)
        }
        Event::Closed { conn, moment } => Ok(fronted(alloc, 4, *conn, *moment)?),
        Event::Tick { moment } => Ok(timed(alloc, 5, *moment)?),
        Event::Refused { conn, sort, moment } => {
            Ok(fronted(alloc, sort_code(*sort), *conn, *moment)?)
        }
    }
}

/// The frame of a content behind what stands in `out`.
fn put(content: &[u8], out: &mut Vec<u8>) -> Result<(), PacketFault>
    requires few { length content.now ≤ most }
    ensures put { OnOk result (out.new.items ≡ out.old.items ++ framed content.now) }
    ensures refused { IfErr result (λ e. e ≡ PacketFault.NoMemory) }
    ensures err { OnErr result (out.new.items ≡ out.old.items) }
{
    match spk_frames::append(content, MOST, out) {
        Ok(()) => Ok(()),
        Err(FrameFault::NoMemory) => Err(PacketFault::NoMemory),
        Err(FrameFault::LongContent) => unreachable!(),
    }
}

/// Puts the record of an event behind what stands in `out`. Refused where its packet can't be written, as `encode` refuses it; then, and where memory is
/// refused, `out` is as it was. Linear in the packet.
pub fn append(alloc: Global, event: &Event, out: &mut Vec<u8>) -> Result<(), PacketFault>
    ensures put { OnOk result (out.new.items ≡ out.old.items ++ record_of (said event.now)) }
    ensures says { OnOk result (Says (content (said event.now)) (said event.now)) }
    ensures writable { OnOk result (refusal (said event.now) ≡ None) }
    ensures refused { IfErr result (λ e. IsNamed e (refusal (said event.now))) }
    ensures err { OnErr result (out.new.items ≡ out.old.items) }
{
    let content = content_of(alloc, event)?;
    put(&content, out)
}

/// The same of a packet that came, which is lent.
pub fn append_packet(
    alloc: Global,
    conn: u64,
    packet: &Packet,
    moment: u64,
    out: &mut Vec<u8>,
) -> Result<(), PacketFault>
    ensures put { OnOk result (out.new.items ≡ out.old.items ++ record_of (plan.Packet conn (view packet.now) moment)) }
    ensures says { OnOk result (Says (content (plan.Packet conn (view packet.now) moment)) (plan.Packet conn (view packet.now) moment)) }
    ensures writable { OnOk result (refusal (plan.Packet conn (view packet.now) moment) ≡ None) }
    ensures refused { IfErr result (λ e. IsNamed e (refusal (plan.Packet conn (view packet.now) moment))) }
    ensures err { OnErr result (out.new.items ≡ out.old.items) }
{
    let content = packet_content(alloc, conn, packet, moment)?;
    put(&content, out)
}
