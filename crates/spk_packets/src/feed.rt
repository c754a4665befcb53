//! A stream of packets that comes in any pieces.

ghost use Rattle.std.specs.Prelude.{◌≡◌, ◌≢◌, ◌↔◌, ◌⊎◌, ℕ, ◌+◌, ◌*◌, ◌<◌, ◌≤◌, List, [], ◌++◌, length, drop, vec_len, Some, MatchOption, IfOk, IfErr, IsTrue, OnOk, OnErr, false};
ghost use Rattle.spk_packets.specs.Fault.{first_of, is_of_bytes, IsNamed};
ghost use Rattle.spk_packets.specs.Message.{Message};
ghost use Rattle.spk_packets.specs.Grammar.{Spells, keeps};
ghost use Rattle.spk_packets.specs.Refusals.{refusals};
ghost use Rattle.spk_packets.specs.Stream.{most_waiting, TakesPacket, IsGiven};
ghost use Rattle.spk_packets.specs.View.{view};

use crate::fault::PacketFault;
use crate::packet::Packet;
use crate::read::decode;
use std::alloc::Global;
use std::fmt;
use std::marker::Model;

/// The most bytes that may wait (own rule).
const MOST_WAITING: usize = 2_097_152;

/// The bytes of a stream that wait to be whole packets. Contracts see them as a list. Packets that were taken are
/// passed over, and their room is used again once they are half of the buffer, so that a stream costs time in
/// proportion to its length, in whatever pieces it comes.
#[derive(Drop)]
pub struct Feed {
    alloc: Global,
    buffer: Vec<u8>,
    start: usize,
}

impl fmt::Debug for Feed {
    fn fmt<W: fmt::Write>(&self, f: &mut fmt::Formatter<W>) -> fmt::Result {
        f.write_str("Feed { .. }")
    }
}

impl Model for Feed {
    ghost Value = { List ℕ };

    ghost view = { λ f. drop f.start f.buffer.items };

    ghost invariant = { λ f. (2 * f.start ≤ vec_len f.buffer)
        × (vec_len f.buffer ≤ f.start + most_waiting) };
}

/// What waits.
fn rest(buffer: &[u8], start: usize) -> &[u8]
    requires { start ≤ length buffer.now }
    ensures { result.now ≡ drop start buffer.now }
{
    &buffer[start..]
}

/// Passes over the front of a buffer: where its rest begins afterwards. At least as many bytes are passed over as moved.
fn pass(buffer: &mut Vec<u8>, start: usize) -> usize
    requires { start ≤ vec_len buffer.old }
    ensures rest { drop result buffer.new.items ≡ drop start buffer.old.items }
    ensures half { 2 * result ≤ vec_len buffer.new }
    ensures len { vec_len buffer.new + start ≡ vec_len buffer.old + result }
{
    let len = buffer.len();
    let left = len - start;
    if start < left {
        return start;
    }
    buffer.copy_within(start..len, 0);
    buffer.truncate(left);
    0
}

impl Feed {
    /// Nothing waits.
    pub fn new(alloc: Global) -> Feed
        ensures { result ≡ [] }
    {
        Feed {
            alloc,
            buffer: Vec::new(alloc),
            start: 0,
        }
    }

    /// Takes in the next piece of the stream. `TooLarge` where more than 2,097,152 bytes would wait; a refused piece
    /// is not taken in.
    pub fn feed(&mut self, piece: &[u8]) -> Result<(), PacketFault>
        ensures ok { OnOk result (self.new ≡ self.old ++ piece.now) }
        ensures room { OnOk result (length self.new ≤ most_waiting) }
        ensures refused { IfErr result (λ e. (e ≡ PacketFault.NoMemory)
            ⊎ ((e ≡ PacketFault.TooLarge) × (most_waiting < length self.old + length piece.now))) }
        ensures err { OnErr result (self.new ≡ self.old) }
    {
        let waiting = self.buffer.len() - self.start;
        if piece.len() > MOST_WAITING - waiting {
            return Err(PacketFault::TooLarge);
        }
        self.buffer.extend_from_slice(piece)?;
        Ok(())
    }

    /// Takes the packet at the front, if a whole one waits. A fault is answered each time, and then nothing is taken:
    /// it is the first of the order of faults, and never `More`, which is the answer None.
    pub fn next(&mut self) -> Result<Option<Packet>, PacketFault>
        // What is given stood at the front, and what stood behind it waits.
        ensures taken { IfOk result (λ o. MatchOption o
            ((first_of (refusals self.old) ≡ Some PacketFault.More) × (self.new ≡ self.old))
            (λ packet. TakesPacket self.old (view packet) self.new)) }

        // A packet at the front is given, unless memory runs out.
        ensures only { (front rest : List ℕ) (p : Message) → Spells front p
            → self.old ≡ front ++ rest → IsGiven result p }
        ensures refused { IfErr result
            (λ e. IsNamed e (first_of (refusals self.old)) × (e ≢ PacketFault.More)) }
        ensures err { OnErr result (self.new ≡ self.old) }
        // A packet that keeps no text, payload or list takes no memory.
        ensures memory { IfErr result (λ e. is_of_bytes e ≡ false → IsTrue (keeps self.old)) }
    {
        match decode(self.alloc, rest(self.buffer.as_slice(), self.start)) {
            Ok((packet, n)) => {
                self.start = pass(&mut self.buffer, self.start + n);
                Ok(Some(packet))
            }
            Err(fault) => match fault {
                PacketFault::More => Ok(None),
                _ => Err(fault),
            },
        }
    }
}
