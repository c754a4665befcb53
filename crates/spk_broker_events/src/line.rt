//! What is kept of a broker, line by line.
ghost use Rattle.std.specs.Prelude.{◌≡◌, ◌++◌, None, IfErr, IfNone, IfOk, IfSome, OnErr, OnOk};
ghost use Rattle.std.specs.Option.{option_map};
ghost use Rattle.spk_packets.specs.Fault.{IsNamed};
ghost use Rattle.spk_packets.specs.View.{view};
ghost use Rattle.spk_broker_events.specs.Line.{IsText, SaysLine, kind_code, kept, line_content, line_front, line_record, line_refusal, text_of};
ghost use Rattle.spk_broker_events.specs.declared.line.Kind.{Kind};

use crate::writing::MOST;
use spk_frames::FrameFault;
use spk_packets::{Packet, PacketFault, encode};
use std::alloc::{AllocError, Global};

/// What a line says.
#[derive(Clone, Copy, Debug, PartialEq, Eq, Drop)]
pub enum Kind {
    /// How many connections were given a number, and how many sessions were made.
    Numbers,
    /// A connection without CONNECT: its number.
    Waiting,
    /// A session: its number, and a CONNECT: its client, and whether it is clean.
    Session,
    /// The connection of the session before: its number, and its will as a PUBLISH, where it has one.
    Sits,
    /// A grant of that session: a SUBSCRIBE of one entry.
    Grant,
    /// An identifier of it that is in use.
    InUse,
    /// The identifier that it gave last.
    Last,
    /// A message of it that isn't acknowledged: a PUBLISH of QoS 1, with DUP where it was handed out.
    Unacknowledged,
    /// A retained message: a PUBLISH.
    Retained,
}

/// A line: what it says, two numbers, 0 where it has none, and a packet, where it has one.
#[derive(Debug, PartialEq, Eq, Drop)]
pub struct Line {
    pub kind: Kind,
    pub first: u64,
    pub second: u64,
    pub packet: Option<Packet>,
}

fn code(kind: Kind) -> u8
    ensures { result ≡ kind_code kind }
{
    match kind {
        Kind::Numbers => 16,
        Kind::Waiting => 17,
        Kind::Session => 18,
        Kind::Sits => 19,
        Kind::Grant => 20,
        Kind::InUse => 21,
        Kind::Last => 22,
        Kind::Unacknowledged => 23,
        Kind::Retained => 24,
    }
}

/// The kind of a code.
pub(crate) fn kind_of(code: u8) -> Option<Kind>
    ensures some { IfSome result (λ k. kind_code k ≡ code) }
    ensures none { IfNone result ((k : Kind) → kind_code k ≡ code → ⊥) }
{
    match code {
        16 => Some(Kind::Numbers),
        17 => Some(Kind::Waiting),
        18 => Some(Kind::Session),
        19 => Some(Kind::Sits),
        20 => Some(Kind::Grant),
        21 => Some(Kind::InUse),
        22 => Some(Kind::Last),
        23 => Some(Kind::Unacknowledged),
        24 => Some(Kind::Retained),
        _ => None,
    }
}

/// A code and two numbers.
#[tactic(auto, unfolding(spk_frames::specs::Numbers::eight, crate::specs::Line::line_front))]
fn fronted(alloc: Global, code: u8, first: u64, second: u64) -> Result<Vec<u8>, AllocError>
    ensures { IfOk result (λ v. v.items ≡ line_front code first second) }
{
    let mut out = Vec::with_capacity(alloc, 18)?;
    out.push(code)?;
    out.extend_from_slice(&first.to_le_bytes())?;
    out.extend_from_slice(&second.to_le_bytes())?;
    Ok(out)
}

/// The canonical spelling of a packet, where there is one.
fn spelled(alloc: Global, packet: &Option<Packet>) -> Result<Vec<u8>, PacketFault>
    ensures is { IfOk result (λ v. v.items ≡ text_of (option_map view packet.now)) }
    ensures says { OnOk result (IsText (option_map view packet.now) (text_of (option_map view packet.now))) }
    ensures writable { OnOk result (line_refusal (option_map view packet.now) ≡ None) }
    ensures refused { IfErr result (λ e. IsNamed e (line_refusal (option_map view packet.now))) }
{
    match packet {
        Some(packet) => encode(alloc, packet),
        None => Ok(Vec::new(alloc)),
    }
}

/// Puts the record of a line behind what stands in `out`. Refused where its packet can't be written, as `encode` refuses it; then, and where memory is
/// refused, `out` is as it was. Linear in the packet.
pub fn append_line(alloc: Global, line: &Line, out: &mut Vec<u8>) -> Result<(), PacketFault>
    ensures put { OnOk result (out.new.items ≡ out.old.items ++ line_record (kept line.now)) }
    ensures says { OnOk result (SaysLine (line_content (kept line.now)) (kept line.now)) }
    ensures writable { OnOk result (line_refusal (kept line.now).packet ≡ None) }
    ensures refused { IfErr result (λ e. IsNamed e (line_refusal (kept line.now).packet)) }
    ensures err { OnErr result (out.new.items ≡ out.old.items) }
{
    let text = spelled(alloc, &line.packet)?;
    let mut content = fronted(alloc, code(line.kind), line.first, line.second)?;
    content.extend_from_slice(&text)?;
    match spk_frames::append(&content, MOST, out) {
        Ok(()) => Ok(()),
        Err(FrameFault::NoMemory) => Err(PacketFault::NoMemory),
        Err(FrameFault::LongContent) => unreachable!(),
    }
}
