//! The packets that wait to be written to one client.
ghost use Rattle.std.specs.Prelude.{ℕ, List, ◌≡◌, ◌-◌, ◌+◌, ◌<◌, ◌≤◌, ◌==◌, ◌++◌, ◌∷◌, [], length, true, false, take, drop, OnOk, OnErr, IfOk, IfErr, IfSome, IfNone};
ghost use Rattle.spk_outbox.specs.Data.{first_room, fresh_outbox, rest_of_first, waiting};
ghost use Rattle.spk_outbox.specs.Step.{most_waiting, put, written};

use crate::fault::OfferFault;
use spk_bytes::Bytes;
use std::alloc::{AllocError, Global};
use std::collections::VecDeque;
use std::fmt;
use std::marker::Model;

/// The most packets that may wait (own rule).
const MOST_WAITING: usize = 1_024;

/// For so many packets there is room from the start: while fewer wait none is refused (own rule).
const FIRST: usize = 4;

/// What is joined to one write, in bytes (own rule).
const BATCH: usize = 65_536;

/// The packets that wait to be written to one client, oldest first, and how much of the first was written.
#[derive(Drop)]
pub struct Outbox {
    packets: VecDeque<Bytes>,
    written: usize,
}

impl fmt::Debug for Outbox {
    fn fmt<W: fmt::Write>(&self, f: &mut fmt::Formatter<W>) -> fmt::Result {
        f.write_str("Outbox { .. }")
    }
}

impl Model for Outbox {
    ghost use Rattle.std.specs.Prelude.{◌≤◌};
    ghost use Rattle.std.specs.VecDeque.{deque_capacity};
    ghost use Rattle.spk_outbox.specs.Data as plain;

    ghost Value = { plain.Outbox };

    ghost view = { λ o. record { packets = o.packets.items; written = o.written } };

    ghost invariant = { λ o. plain.IsPartOfFirst o.written o.packets.items
        × (plain.first_room ≤ deque_capacity o.packets) };
}

/// The packet at this place.
fn packet_at(packets: &VecDeque<Bytes>, place: usize) -> &Bytes
    requires { place < length packets.now.items }
    ensures { drop place packets.now.items ≡ result.now ∷ drop (place + 1) packets.now.items }
{
    &packets[place]
}

/// Puts a piece behind these bytes, where both fit into 65,536 bytes and memory is there. Whether it did.
fn add(batch: &mut Vec<u8>, piece: &[u8]) -> bool
    ensures added { result ≡ true → batch.new.items ≡ batch.old.items ++ piece.now }
    ensures same { result ≡ false → batch.new.items ≡ batch.old.items }
{
    if piece.len() > BATCH || batch.len() > BATCH - piece.len() {
        return false;
    }
    batch.extend_from_slice(piece).is_ok()
}

/// Puts what stands behind the first so many bytes of a packet behind these bytes, piece by piece, as far as the pieces can be. Whether
/// all of it could.
fn join(batch: &mut Vec<u8>, packet: &Bytes, skipped: usize) -> bool
    ensures whole { result ≡ true
        → batch.new.items ≡ batch.old.items ++ drop skipped packet.now }
    ensures front { (rest : List ℕ)
        × (batch.new.items ++ rest ≡ batch.old.items ++ drop skipped packet.now) }
    ensures longer { length batch.old.items ≤ length batch.new.items }
{
    let (head, body) = packet.behind(skipped);
    if !add(batch, head) {
        return false;
    }
    add(batch, body)
}

impl Outbox {
    /// Nothing waits, and there is room for four packets. Refused only where memory is.
    pub fn new(alloc: Global) -> Result<Outbox, AllocError>
        ensures { IfOk result (λ o. o ≡ fresh_outbox) }
    {
        let packets = VecDeque::with_capacity(alloc, FIRST)?;
        Ok(Outbox {
            packets,
            written: 0,
        })
    }

    /// How many packets wait, one that was written in part among them.
    pub fn len(&self) -> usize
        ensures { result ≡ length self.now.packets }
    {
        self.packets.len()
    }

    /// Whether nothing waits.
    pub fn is_empty(&self) -> bool
        ensures { result ≡ (length self.now.packets == 0) }
    {
        self.packets.is_empty()
    }

    /// One more packet, behind those that wait. Refused with Full (91) exactly where 1,024 wait, else only where memory is, and never
    /// while fewer than four wait. A refused one changes nothing.
    pub fn offer(&mut self, packet: Bytes) -> Result<(), OfferFault>
        ensures ok { OnOk result (self.new ≡ put packet self.old) }
        ensures room { OnOk result (length self.old.packets < most_waiting) }
        ensures full { IfErr result
            (λ e. e ≡ OfferFault.Full → most_waiting ≤ length self.old.packets) }
        ensures no_memory { IfErr result
            (λ e. e ≡ OfferFault.NoMemory → length self.old.packets < most_waiting) }
        ensures first { OnErr result (first_room ≤ length self.old.packets) }
        ensures err { OnErr result (self.new ≡ self.old) }
    {
        if self.packets.len() >= MOST_WAITING {
            return Err(OfferFault::Full);
        }
        match self.packets.push_back(packet) {
            Ok(()) => Ok(()),
            Err(_) => Err(OfferFault::NoMemory),
        }
    }

    /// What is left of the first packet, in two pieces of which the second stands behind the first. None exactly where no packet waits.
    pub fn first(&self) -> Option<(&[u8], &[u8])>
        ensures some { IfSome result (λ s. s.0.now ++ s.1.now ≡ rest_of_first self.now) }
        ensures none { IfNone result (length self.now.packets ≡ 0) }
    {
        let first = self.packets.front()?;
        Some(first.behind(self.written))
    }

    /// Joins a front of what waits behind these bytes: whole packets, as many as fit into 65,536 bytes and for which memory
    /// is there, and of one that lies in two pieces the first where the second doesn't fit.
    pub fn gather(&self, batch: &mut Vec<u8>)
        ensures front { batch.new.items ≡ batch.old.items
            ++ take (length batch.new.items - length batch.old.items) (waiting self.now) }
    {
        let mut skipped = self.written;
        for i in 0..self.packets.len() {
            if !join(batch, packet_at(&self.packets, i), skipped) {
                return;
            }
            skipped = 0;
        }
    }

    /// So many bytes were written. More than waits is all.
    pub fn wrote(&mut self, count: usize)
        ensures { self.new ≡ written count self.old }
    {
        let mut left = count;
        while let Some(first) = self.packets.front() {
            let rest = first.len().saturating_sub(self.written);
            if left < rest {
                self.written += left;
                return;
            }
            left -= rest;
            self.written = 0;
            let _ = self.packets.pop_front();
        }
    }
}
