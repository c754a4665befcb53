//! What a sender puts.
ghost use Rattle.std.specs.Prelude.{◌≡◌, ◌<◌, ◌≤◌, length, take, IfOk, IfErr, ℕ};
ghost use Rattle.spk_packets.specs.Message as packets;
ghost use Rattle.spk_packets.specs.Grammar.{Spells};
ghost use Rattle.spk_packets.specs.Fault.{IsNamed, first_of};
ghost use Rattle.spk_packets.specs.Refusals.{refusals};
ghost use Rattle.spk_packets.specs.View.{view};
ghost use Rattle.spk_ingress.specs.Frame.{IsOnePacket, NamesFault, HasMore};

use crate::fault::{FrameFault, Refused};
use spk_packets::{Packet, PacketFault, begins_publish, decode, decode_publish};
use std::alloc::Global;
use std::marker::Model;

/// The bytes of exactly one packet. Contracts see them as a list of numbers.
#[derive(Debug, Drop)]
pub struct Whole {
    bytes: Vec<u8>,
}

impl Model for Whole {
    ghost use Rattle.std.specs.Prelude.{ℕ, List};
    ghost use Rattle.spk_ingress.specs.Frame.{IsOnePacket};

    ghost Value = { List ℕ };

    ghost view = { λ s. s.bytes.items };

    ghost invariant = { λ s. IsOnePacket s.bytes.items };
}

impl Whole {
    /// The bytes, lent.
    pub fn as_slice(&self) -> &[u8]
        ensures bytes { result.now ≡ self.now }
        ensures one { IsOnePacket self.now }
    {
        self.bytes.as_slice()
    }

    /// The packet at the front of the bytes, copied. More may follow. Refused as the packet reader refuses the bytes,
    /// or for want of memory.
    pub fn front(alloc: Global, bytes: &[u8]) -> Result<Whole, PacketFault>
        ensures front { IfOk result (λ w. take (length w) bytes.now ≡ w) }
        ensures one { IfOk result
            (λ w. IsOnePacket w × (0 < length w) × (length w ≤ length bytes.now)) }
        ensures refused { IfErr result (λ e. IsNamed e (first_of (refusals bytes.now))) }
        ensures only { (n : ℕ) → n ≤ length bytes.now → IsOnePacket (take n bytes.now)
            → IfErr result (λ e. e ≡ PacketFault.NoMemory) }
    {
        let count = match count_of(alloc, bytes) {
            Ok(count) => count,
            Err(fault) => return Err(fault),
        };
        let copy = Vec::from_slice(alloc, &bytes[..count])?;
        Ok(Whole { bytes: copy })
    }

    /// How many bytes there are.
    pub fn len(&self) -> usize
        ensures { result ≡ length self.now }
    {
        self.bytes.len()
    }

    /// The bytes, given back.
    pub fn into_vec(self) -> Vec<u8>
        ensures { result.items ≡ self }
    {
        self.bytes
    }

    /// The packet. Want of memory is the only refusal, since the bytes are one packet.
    pub fn read(&self, alloc: Global) -> Result<Packet, PacketFault>
        ensures packet { IfOk result (λ p. Spells self.now (view p)) }
        ensures memory { IfErr result (λ e. e ≡ PacketFault.NoMemory) }
    {
        match decode(alloc, self.bytes.as_slice()) {
            Ok((packet, _)) => Ok(packet),
            Err(fault) => Err(fault),
        }
    }
}

/// How many bytes the packet at the front takes.
fn count_of(alloc: Global, bytes: &[u8]) -> Result<usize, PacketFault>
    ensures found { IfOk result
        (λ n. (n ≤ length bytes.now) × (p : packets.Message) × Spells (take n bytes.now) p) }
    ensures front { (p : packets.Message) (n : ℕ) → n ≤ length bytes.now
        → Spells (take n bytes.now) p → IfOk result (λ m. m ≡ n) }
    ensures memory { (p : packets.Message) (n : ℕ) → n ≤ length bytes.now
        → Spells (take n bytes.now) p → IfErr result (λ e. e ≡ PacketFault.NoMemory) }
    ensures refused { IfErr result (λ e. IsNamed e (first_of (refusals bytes.now))) }
{
    // a PUBLISH is counted without a copy of it
    if begins_publish(bytes) {
        return match decode_publish(bytes) {
            Ok((_, whole)) => Ok(whole),
            Err(fault) => Err(fault),
        };
    }
    match decode(alloc, bytes) {
        Ok((_, count)) => Ok(count),
        Err(fault) => Err(fault),
    }
}

/// What a sender puts: a packet, bytes that are none, the end of its connection, or its own end.
#[derive(Debug, Drop)]
pub enum Frame {
    Packet(Whole),
    Fault(PacketFault),
    Cut,
    End,
}

impl Frame {
    /// These bytes as a frame, exactly where they are one packet. Every refusal hands them back.
    pub fn packet(alloc: Global, bytes: Vec<u8>) -> Result<Frame, Refused>
        ensures ok { IfOk result (λ f. f ≡ Frame.Packet bytes.items) }
        ensures one { IfOk result (λ f. IsOnePacket bytes.items) }
        ensures only { IsOnePacket bytes.items
            → IfErr result (λ r. r.fault ≡ FrameFault.Packet PacketFault.NoMemory) }
        ensures back { IfErr result (λ r. r.bytes.items ≡ bytes.items) }
        ensures named { IfErr result (λ r. NamesFault bytes.items r.fault) }
    {
        match count_of(alloc, bytes.as_slice()) {
            Ok(count) if count == bytes.len() => Ok(Frame::Packet(Whole { bytes })),
            Ok(_) => Err(Refused {
                fault: FrameFault::NotOne,
                bytes,
            }),
            Err(fault) => Err(Refused {
                fault: FrameFault::Packet(fault),
                bytes,
            }),
        }
    }
}
