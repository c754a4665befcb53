//! One client.
ghost use Rattle.std.specs.Prelude.{◌≡◌, ◌≢◌, ◌⊎◌, ◌++◌, ◌||◌, ◌&&◌, nat_lt, nat_le, length, true, false, IfOk, IfSome, IfNone, None, OnOk, OnErr};
ghost use Rattle.spk_packets.specs.Fault.{first_of, IsNamed};
ghost use Rattle.spk_packets.specs.Refusals.{refusals};
ghost use Rattle.spk_packets.specs.declared.fault.PacketFault.TheVariants as PacketFault;
ghost use Rattle.spk_packets.specs.View.{view};
ghost use Rattle.spk_clients.specs.Client.{GivesFront, IsOffered, after_hearing, cause_done, fresh_client, given_up, has_many, has_moment, has_some, is_done, is_due, is_leaving, is_numbered, is_over, is_to_shut, is_untold, over_until, settled, settles, sort_untold, told};

use crate::cause::Cause;
use spk_bytes::Bytes;
use spk_outbox::{Outbox, Patience};
use spk_packets::{Feed, Packet, PacketFault};
use spk_session::Sort;
use std::alloc::{AllocError, Global};

/// Above so many packets that wait or aren't acknowledged others wait for a client (own rule).
const MANY: usize = 512;

/// Below so many they go on (own rule).
const FEW: usize = 256;

/// How far a client is.
#[derive(Clone, Copy, Debug, PartialEq, Eq)]
pub enum Phase {
    /// It sent no packet yet.
    Quiet,
    Open,
    /// It left, or was closed: what it still sends is passed over, and it may read what is left.
    Over,
    /// Its socket is to be shut.
    Done,
}

/// What became of an offer.
#[derive(Clone, Copy, Debug, PartialEq, Eq)]
pub enum Offered {
    /// It waits to be written.
    Taken,
    /// 1,024 packets wait, or four and memory was refused: the broker is to be told.
    Refused,
    /// The client isn't there, or its end came before.
    Passed,
}

/// One client.
#[derive(Drop)]
pub struct Client {
    pub phase: Phase,
    /// What waits to be whole packets.
    pub feed: Feed,
    pub outbox: Outbox,
    /// When it is to be shut, in milliseconds; only looked at while it is Quiet or Over.
    pub until: u64,
    /// Why its end came; only looked at where it came.
    pub cause: Cause,
    /// It is among those to whom something is to be written.
    pub touched: bool,
    /// Its socket takes no more.
    pub cut: bool,
    /// How many messages of QoS 1 were put into its outbox and not acknowledged.
    pub unacknowledged: usize,
    pub patience: Patience,
    /// It isn't read until this client has taken some of what waits for it.
    pub waits_for: Option<u64>,
    /// Refused packets of which the broker isn't told yet: of QoS 0, and whether there is another.
    pub drops: u64,
    pub lost: bool,
}

/// Whether these are the bytes of a PUBLISH of QoS 1 (section 3.3.1).
fn is_numbered(bytes: &Bytes) -> bool
    ensures { result ≡ is_numbered bytes.now }
{
    match bytes.first() {
        Some(first) => matches!(first, 0x32 | 0x33 | 0x3a | 0x3b),
        None => false,
    }
}

impl Client {
    /// One that just came. Refused only where memory is.
    pub fn new(alloc: Global, until: u64) -> Result<Client, AllocError>
        ensures { IfOk result (λ c. c ≡ fresh_client until) }
    {
        let outbox = Outbox::new(alloc)?;
        Ok(Client {
            phase: Phase::Quiet,
            feed: Feed::new(alloc),
            outbox,
            until,
            cause: Cause::Gone,
            touched: false,
            cut: false,
            unacknowledged: 0,
            patience: Patience::new(),
            waits_for: None,
            drops: 0,
            lost: false,
        })
    }

    /// Whether its end came.
    pub fn is_over(&self) -> bool
        ensures { result ≡ is_over self.now }
    {
        matches!(self.phase, Phase::Over | Phase::Done)
    }

    /// Whether the broker wasn't told of a refused packet.
    pub fn is_untold(&self) -> bool
        ensures { result ≡ is_untold self.now }
    {
        self.lost || self.drops > 0
    }

    /// The refused packet of which the broker is told next.
    pub fn take_refused(&mut self) -> Option<Sort>
        ensures sort { result ≡ sort_untold self.old }
        ensures after { self.new ≡ told self.old }
    {
        if self.lost {
            self.lost = false;
            return Some(Sort::Other);
        }
        if self.drops == 0 {
            return None;
        }
        self.drops -= 1;
        Some(Sort::QosZero)
    }

    /// Puts a packet behind those that wait, unless its end came.
    pub fn offer(&mut self, sort: Sort, bytes: Bytes) -> Offered
        ensures { IsOffered sort bytes self.old result self.new }
    {
        if self.is_over() {
            return Offered::Passed;
        }
        let numbered = is_numbered(&bytes);
        if self.outbox.offer(bytes).is_err() {
            match sort {
                Sort::QosZero => self.drops = self.drops.saturating_add(1),
                Sort::Other => self.lost = true,
            }
            return Offered::Refused;
        }
        if numbered {
            self.unacknowledged = self.unacknowledged.saturating_add(1);
        }
        self.touched = true;
        Offered::Taken
    }

    /// A packet of it came.
    pub fn heard(&mut self, packet: &Packet)
        ensures { self.new ≡ after_hearing (view packet.now) self.old }
    {
        if self.phase == Phase::Quiet {
            self.phase = Phase::Open;
        }
        if let Packet::PubAck { .. } = packet {
            self.unacknowledged = self.unacknowledged.saturating_sub(1);
        }
    }

    /// The packet at the front of what it sent, or why there can be none.
    pub fn next(&mut self) -> Option<Result<Packet, PacketFault>>
        ensures { GivesFront self.old result self.new }
    {
        if self.is_over() {
            return None;
        }
        match self.feed.next() {
            Ok(Some(packet)) => Some(Ok(packet)),
            Ok(None) => None,
            Err(fault) => Some(Err(fault)),
        }
    }

    /// Whether so many packets wait for it that others are to wait. Its own packets don't wait for its acknowledgements.
    pub fn has_many(&self, own: bool) -> bool
        ensures { result ≡ has_many own self.now }
    {
        self.outbox.len() > MANY || (!own && self.unacknowledged > MANY)
    }

    /// Whether others are to wait still.
    pub fn has_some(&self, own: bool) -> bool
        ensures { result ≡ has_some own self.now }
    {
        !self.is_over() && (self.outbox.len() >= FEW || (!own && self.unacknowledged >= FEW))
    }

    /// Its end came: what is left may be read until this moment. Where its end came before, nothing changes.
    pub fn end(&mut self, until: u64, cause: Cause)
        ensures { self.new ≡ over_until until cause self.old }
    {
        if !self.is_over() {
            self.phase = Phase::Over;
            self.until = until;
            self.cause = cause;
        }
    }

    /// Where its end came and it is done, its socket is to be shut. Whether that is new.
    pub fn settle(&mut self) -> bool
        ensures is_new { result ≡ settles self.old }
        ensures after { self.new ≡ settled self.old }
    {
        if self.phase == Phase::Over && self.is_done() {
            self.phase = Phase::Done;
            return true;
        }
        false
    }

    /// Where its end came, its socket is to be shut, whatever is left. Whether that is new.
    pub fn give_up(&mut self) -> bool
        ensures is_new { result ≡ is_leaving self.old.phase }
        ensures after { self.new ≡ given_up self.old }
    {
        if self.phase == Phase::Over {
            self.phase = Phase::Done;
            return true;
        }
        false
    }

    /// Whether its socket is to be shut.
    pub fn is_to_shut(&self) -> bool
        ensures { result ≡ is_to_shut self.now }
    {
        self.phase == Phase::Done
    }

    /// Why its end came, where its socket is to be shut.
    pub fn done(&self) -> Option<Cause>
        ensures { result ≡ cause_done self.now }
    {
        if self.phase == Phase::Done {
            return Some(self.cause);
        }
        None
    }

    /// Whether there is a moment at which it is to be shut.
    pub fn has_moment(&self) -> bool
        ensures { result ≡ has_moment self.now.phase }
    {
        matches!(self.phase, Phase::Quiet | Phase::Over)
    }

    /// Whether its moment has come: it sent nothing, or its end came and something is left.
    pub fn is_due(&self, now: u64) -> bool
        ensures { result ≡ is_due now self.now }
    {
        self.has_moment() && self.until <= now
    }

    /// Whether nothing is left to be written, or nothing can be.
    pub fn is_done(&self) -> bool
        ensures { result ≡ is_done self.now }
    {
        self.outbox.is_empty() || self.cut
    }
}
