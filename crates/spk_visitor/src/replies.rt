//! What goes back to a client.
ghost use Rattle.std.specs.Prelude.{◌≡◌, ◌≢◌, ◌++◌, ◌∷◌, [], Bool, List, IfErr, IfOk, OnErr, OnOk, false};
ghost use Rattle.std.specs.Option.{option_map};
ghost use Rattle.spk_packets.specs.Fault.{IsNamed, first_of};
ghost use Rattle.spk_packets.specs.Message.{SubAck};
ghost use Rattle.spk_packets.specs.Refusals.{refusals};
ghost use Rattle.spk_packets.specs.View.{view};
ghost use Rattle.spk_packets.specs.declared.fault.PacketFault.TheVariants as PacketFault;
ghost use Rattle.spk_visitor.specs.Replies.{IsAsBefore, IsReplied, awaited, awaited_too, cuts_of, cuts_view, is_any, reply, said_later, said_now, woven, woven_for};

use crate::visitor::put;
use spk_packets::{Feed, Packet, PacketFault};
use std::alloc::{AllocError, Global};
use std::collections::VecDeque;

/// The code of an entry that isn't allowed (section 3.9.3).
const REFUSED: u8 = 128;

/// A SUBSCRIBE that was cut, and whose SUBACK is awaited.
#[derive(Debug, PartialEq, Eq, Drop)]
pub(crate) struct Cut {
    pub(crate) id: u16,
    pub(crate) allowed: Vec<bool>,
}

/// What goes back to one client of a broker behind a door: it is told what the broker sent and which SUBSCRIBEs were cut, and says what the client gets.
#[derive(Drop)]
pub struct Replies {
    alloc: Global,
    pub(crate) feed: Feed,
    pub(crate) cuts: VecDeque<Cut>,
    /// The broker's first packet went on.
    pub(crate) greeted: bool,
    /// What goes behind it.
    pub(crate) owed: Vec<u8>,
}

/// The code of the next entry, by whether it is allowed, and the broker's that are left.
fn next_code(may: bool, codes: &[u8]) -> (u8, &[u8])
    ensures { (more : List Bool) → woven (may ∷ more) codes.now
        ≡ result.0 ∷ woven more result.1.now }
{
    if !may {
        return (REFUSED, codes);
    }
    match codes.split_first() {
        Some((code, rest)) => (*code, rest),
        None => (REFUSED, codes),
    }
}

/// The codes of a SUBACK.
fn weave(alloc: Global, allowed: &[bool], codes: &[u8]) -> Result<Vec<u8>, AllocError>
    ensures { IfOk result (λ v. v.items ≡ woven allowed.now codes.now) }
{
    let mut all = Vec::with_capacity(alloc, allowed.len())?;
    let mut rest = codes;
    for may in allowed {
        let (code, more) = next_code(*may, rest);
        all.push(code)?;
        rest = more;
    }
    Ok(all)
}

/// Whether an entry is allowed.
fn is_any(allowed: &[bool]) -> bool
    ensures { result ≡ is_any allowed.now }
{
    allowed.iter().any(|one| *one)
}

/// What the codes of a SUBACK of this identifier come to. None where it isn't the one that is awaited first.
fn awaited_codes(
    alloc: Global,
    cuts: &VecDeque<Cut>,
    id: u16,
    codes: &[u8],
) -> Result<Option<Vec<u8>>, AllocError>
    ensures { IfOk result (λ o. option_map (λ v. SubAck id v.items) o
        ≡ woven_for (cuts_view cuts.now.items) id codes.now) }
{
    match cuts.front() {
        Some(cut) if cut.id == id => Ok(Some(weave(alloc, &cut.allowed, codes)?)),
        _ => Ok(None),
    }
}

/// What a packet of the broker comes to, where these SUBACKs are awaited. Refused where memory was.
fn reply(alloc: Global, cuts: &mut VecDeque<Cut>, packet: Packet) -> Result<Packet, AllocError>
    ensures reply { IfOk result (λ p. view p ≡ reply (cuts_view cuts.old.items) (view packet)) }
    ensures awaited { OnOk result (cuts_view cuts.new.items ≡ awaited (cuts_view cuts.old.items) (view packet)) }
{
    match packet {
        Packet::SubAck { id, codes } => match awaited_codes(alloc, cuts, id, &codes)? {
            Some(codes) => {
                let _ = cuts.pop_front();
                Ok(Packet::SubAck { id, codes })
            }
            None => Ok(Packet::SubAck { id, codes }),
        },
        other => Ok(other),
    }
}

impl Replies {
    /// Nothing was sent yet.
    pub fn new(alloc: Global) -> Replies
        ensures feed { result.feed ≡ [] }
        ensures cuts { cuts_of result ≡ [] }
        ensures greeted { result.greeted ≡ false }
        ensures owes { result.owed.items ≡ [] }
    {
        Replies {
            alloc,
            feed: Feed::new(alloc),
            cuts: VecDeque::new(alloc),
            greeted: false,
            owed: Vec::new(alloc),
        }
    }

    /// Takes in bytes that the broker sent. Refused as `Feed::feed` refuses; then nothing is taken in.
    pub fn feed(&mut self, piece: &[u8]) -> Result<(), PacketFault>
        ensures ok { OnOk result (self.new.feed ≡ self.old.feed ++ piece.now) }
        ensures err { OnErr result (self.new.feed ≡ self.old.feed) }
        ensures cuts { self.new.cuts ≡ self.old.cuts }
        ensures greeted { self.new.greeted ≡ self.old.greeted }
        ensures owes { self.new.owed ≡ self.old.owed }
    {
        self.feed.feed(piece)
    }

    /// A SUBSCRIBE of this identifier was cut: which of its entries are allowed. Its SUBACK is awaited; where none is allowed the broker sends none, and it is put behind
    /// `out` at once, or is owed until the broker's first packet went on, which is its CONNACK (section 3.2.0-1). Refused where memory was; then all is as before.
    pub fn cut(&mut self, id: u16, allowed: Vec<bool>, out: &mut Vec<u8>) -> Result<(), AllocError>
        ensures out { OnOk result (out.new.items
            ≡ out.old.items ++ said_now self.old.greeted id allowed.items) }
        ensures owes { OnOk result (self.new.owed.items
            ≡ self.old.owed.items ++ said_later self.old.greeted id allowed.items) }
        ensures cuts { OnOk result (cuts_of self.new ≡ awaited_too (cuts_of self.old) id allowed.items) }
        ensures err { OnErr result (IsAsBefore self.old self.new out.old.items out.new.items) }
        ensures feed { self.new.feed ≡ self.old.feed }
        ensures greeted { self.new.greeted ≡ self.old.greeted }
    {
        if is_any(&allowed) {
            self.cuts.push_back(Cut { id, allowed })?;
            return Ok(());
        }
        let codes = weave(self.alloc, &allowed, &[])?;
        let packet = Packet::SubAck { id, codes };
        if self.greeted {
            put(self.alloc, &packet, out)
        } else {
            put(self.alloc, &packet, &mut self.owed)
        }
    }

    /// Takes the next packet of what the broker sent, if it is whole, and puts what the client gets of it behind `out`: the SUBACK of a SUBSCRIBE that was cut has code
    /// 128 at the entries that aren't allowed. Behind it stands what is owed. Whether there was one. Refused where memory was, and where no packet stands there, as
    /// `Feed::next` refuses; then its client is to be closed.
    pub fn next(&mut self, out: &mut Vec<u8>) -> Result<bool, PacketFault>
        ensures ok { IfOk result (λ whole. IsReplied self.old self.new out.old.items out.new.items whole) }
        ensures refused { IfErr result (λ e. IsNamed e (first_of (refusals self.old.feed))
            × (e ≢ PacketFault.More)) }
    {
        let Some(packet) = self.feed.next()? else {
            return Ok(false);
        };
        let packet = reply(self.alloc, &mut self.cuts, packet)?;
        put(self.alloc, &packet, out)?;
        out.extend_from_slice(&self.owed)?;
        self.owed.clear();
        self.greeted = true;
        Ok(true)
    }
}
