//! A connection.
ghost use Rattle.std.specs.Prelude.{◌≡◌, ◌≢◌, ◌↔◌, ℕ, ◌-◌, ◌<◌, ◌^◌, List, ◌++◌, true, false, Some, IfOk, IfErr, IfSome, IfNone, IsTrue, MatchOption, OnErr, OnOk};
ghost use Rattle.spk_link.specs.Step as link;
ghost use Rattle.spk_packets.specs.Fault.{first_of, is_of_bytes, IsNamed};
ghost use Rattle.spk_packets.specs.Grammar.{Spells, begins_publish, keeps};
ghost use Rattle.spk_packets.specs.Message.{Message};
ghost use Rattle.spk_packets.specs.Refusals.{refusals};
ghost use Rattle.spk_packets.specs.Stream.{IsGiven};
ghost use Rattle.spk_packets.specs.View.{view};
ghost use Rattle.spk_connection.specs.Step as step;

use crate::fault::ConnectionFault;
use crate::waiting::Waiting;
use spk_link::{Due, Link, Stand};
use spk_packets::{Packet, PacketFault, begins_publish, decode, decode_publish};
use std::alloc::Global;
use std::fmt;
use std::marker::Model;

/// PINGREQ (MQTT 3.1.1, section 3.12).
const PING: [u8; 2] = [0xc0, 0];

/// The most bytes that may wait to be taken (own rule).
const MOST_WAITING: usize = 2_097_152;

/// A client's connection with a broker, without its socket. Contracts see the `Connection` of `specs/Data.antt`. Moments are in milliseconds.
#[derive(Drop)]
pub struct Connection {
    alloc: Global,
    link: Link,
    unread: Waiting,
    unwritten: Waiting,
}

impl fmt::Debug for Connection {
    fn fmt<W: fmt::Write>(&self, f: &mut fmt::Formatter<W>) -> fmt::Result {
        f.write_str("Connection { .. }")
    }
}

impl Model for Connection {
    ghost use Rattle.spk_connection.specs.Data as plain;

    ghost Value = { plain.Connection };

    ghost view = { λ c. record { link = c.link; unread = c.unread; unwritten = c.unwritten } };
}

/// How many bytes the PUBLISH at the front has.
fn publish_size(bytes: &[u8]) -> Result<usize, PacketFault>
    requires { begins_publish bytes.now ≡ true }
    ensures found { IfOk result (λ n. step.IsFront bytes.now n) }
    ensures only { (front rest : List ℕ) (p : Message) → Spells front p → bytes.now ≡ front ++ rest
        → step.IsSize front result }
    ensures refused { IfErr result (λ e. IsNamed e (first_of (refusals bytes.now))) }
    ensures memory { IfErr result (λ e. IsTrue (is_of_bytes e)) }
{
    match decode_publish(bytes) {
        Ok((_, size)) => Ok(size),
        Err(fault) => Err(fault),
    }
}

/// How many bytes a packet takes that was read.
fn size_of(front: (Packet, usize)) -> usize
    ensures { result ≡ front.1 }
{
    let (_, size) = front;
    size
}

/// How many bytes the packet at the front has.
fn other_size(alloc: Global, bytes: &[u8]) -> Result<usize, PacketFault>
    ensures found { IfOk result (λ n. step.IsFront bytes.now n) }
    ensures only { (front rest : List ℕ) (p : Message) → Spells front p → bytes.now ≡ front ++ rest
        → step.IsSize front result }
    ensures refused { IfErr result (λ e. IsNamed e (first_of (refusals bytes.now))) }
    ensures memory { IfErr result (λ e. is_of_bytes e ≡ false → IsTrue (keeps bytes.now)) }
{
    match decode(alloc, bytes) {
        Ok(front) => Ok(size_of(front)),
        Err(fault) => Err(fault),
    }
}

/// How many bytes the packet at the front has; of a PUBLISH without memory.
fn front_size(alloc: Global, bytes: &[u8]) -> Result<usize, PacketFault>
    ensures found { IfOk result (λ n. step.IsFront bytes.now n) }
    ensures only { (front rest : List ℕ) (p : Message) → Spells front p → bytes.now ≡ front ++ rest
        → step.IsSize front result }
    ensures refused { IfErr result (λ e. IsNamed e (first_of (refusals bytes.now))) }
    ensures memory { IfErr result (λ e. is_of_bytes e ≡ false → IsTrue (keeps bytes.now)) }
{
    if begins_publish(bytes) {
        publish_size(bytes)
    } else {
        other_size(alloc, bytes)
    }
}

impl Connection {
    /// There was no connection yet: a try is due at once. The keep alive is in seconds, 0 is none; each pause is longer by `spread` 1,024ths (`Link`).
    pub fn new(alloc: Global, keep: u16, spread: u8) -> Connection
        ensures { result ≡ step.fresh_connection keep spread }
    {
        Connection {
            alloc,
            link: Link::new(keep, spread),
            unread: Waiting::new(alloc),
            unwritten: Waiting::new(alloc),
        }
    }

    /// Whether there is a connection.
    pub fn is_open(&self) -> bool
        ensures { result ≡ step.is_open self.now }
    {
        match self.link.stand() {
            Stand::Off(_) => false,
            Stand::On(_) => true,
        }
    }

    /// What is to be done at a moment (`Link::due`): a try to connect, PINGREQ, or the end of a connection on which nothing is heard.
    pub fn due(&self, now: u64) -> Due
        ensures { result ≡ link.due_at self.now.link now }
    {
        self.link.due(now)
    }

    /// When something is due next, if nothing is done until then: before it nothing is due, and from it on something is. None where nothing will be. A
    /// moment behind the greatest one counts as that.
    pub fn next_due(&self) -> Option<u64>
        ensures some { IfSome result (λ at. (now : ℕ) → now < 2 ^ 64 - 1
            → (link.due_at self.now.link now ≡ Due.Nothing) ↔ (now < at)) }
        ensures none { IfNone result ((now : ℕ) → link.due_at self.now.link now ≡ Due.Nothing) }
    {
        self.link.next()
    }

    /// A connection begins. Where there is one already, nothing changes.
    pub fn opened(&mut self, now: u64)
        ensures { self.new ≡ step.after_opened self.old now }
    {
        self.link.opened(now);
    }

    /// These bytes were read. Refused with NotOpen (112) where there is no connection, with TooLarge (16) only where more than 2,097,152 bytes would wait
    /// to be taken (own rule), else with NoMemory (1). A refused piece isn't taken in, and nothing changes.
    pub fn read(&mut self, piece: &[u8], now: u64) -> Result<(), ConnectionFault>
        ensures ok { OnOk result (self.new ≡ step.after_read self.old piece.now now) }
        ensures open { OnOk result (step.is_open self.old ≡ true) }
        ensures refused { IfErr result (step.IsUnread self.old piece.now) }
        ensures err { OnErr result (self.new ≡ self.old) }
    {
        if !self.is_open() {
            return Err(ConnectionFault::NotOpen);
        }
        let waiting = self.unread.as_slice().len();
        if piece.len() > MOST_WAITING.saturating_sub(waiting) {
            return Err(ConnectionFault::TooLarge);
        }
        self.unread.put(piece)?;
        self.link.heard(now);
        Ok(())
    }

    /// Takes the packet at the front of what was read, if a whole one waits. A fault is answered each time, and then nothing is taken :
    /// the connection is to be closed.
    pub fn take(&mut self) -> Result<Option<Packet>, PacketFault>
        ensures taken { IfOk result (λ o. MatchOption o
            ((first_of (refusals self.old.unread) ≡ Some PacketFault.More) × (self.new ≡ self.old))
            (λ packet. step.IsTaken self.old (view packet) self.new)) }
        ensures only { (front rest : List ℕ) (p : Message) → Spells front p
            → self.old.unread ≡ front ++ rest → IsGiven result p }
        ensures refused { IfErr result
            (λ e. IsNamed e (first_of (refusals self.old.unread)) × (e ≢ PacketFault.More)) }
        ensures err { OnErr result (self.new ≡ self.old) }
        // A packet that keeps no text, payload or list takes no memory.
        ensures memory { IfErr result (λ e. is_of_bytes e ≡ false → IsTrue (keeps self.old.unread)) }
    {
        match decode(self.alloc, self.unread.as_slice()) {
            Ok((packet, size)) => {
                self.unread.pass(size);
                Ok(Some(packet))
            }
            Err(fault) => match fault {
                PacketFault::More => Ok(None),
                _ => Err(fault),
            },
        }
    }

    /// The bytes of the packet at the front of what was read, if a whole one waits, lent: `pass` takes it then. A fault is the one that `take` answers.
    /// Of a PUBLISH it takes no memory.
    pub fn front(&self) -> Result<Option<&[u8]>, PacketFault>
        ensures lent { IfOk result (λ o. MatchOption o
            (first_of (refusals self.now.unread) ≡ Some PacketFault.More)
            (λ bytes. step.IsLent self.now bytes.now)) }
        ensures only { (front rest : List ℕ) (p : Message) → Spells front p
            → self.now.unread ≡ front ++ rest
            → IfOk result (λ o. MatchOption o ⊥ (λ bytes. bytes.now ≡ front)) }
        ensures only_fault { (front rest : List ℕ) (p : Message) → Spells front p
            → self.now.unread ≡ front ++ rest → IfErr result (λ e. e ≡ PacketFault.NoMemory) }
        ensures refused { IfErr result (λ e. IsNamed e (first_of (refusals self.now.unread))
            × (e ≢ PacketFault.More)) }
        ensures memory { IfErr result (λ e. is_of_bytes e ≡ false → IsTrue (keeps self.now.unread)) }
    {
        let bytes = self.unread.as_slice();
        match front_size(self.alloc, bytes) {
            Ok(size) => Ok(Some(&bytes[..size])),
            Err(fault) => match fault {
                PacketFault::More => Ok(None),
                _ => Err(fault),
            },
        }
    }

    /// So many bytes of what was read are passed over: as many as `front` lent, and its packet is taken (`laws::any_list`, `passes`). More than wait are all.
    pub fn pass(&mut self, size: usize)
        ensures { self.new ≡ step.after_passed self.old size }
    {
        self.unread.pass(size);
    }

    /// These bytes are to be written, behind those that wait. Refused with NotOpen (112) exactly where there is no connection, else with NoMemory (1);
    /// nothing changes then.
    pub fn send(&mut self, packet: &[u8]) -> Result<(), ConnectionFault>
        ensures ok { OnOk result (self.new ≡ step.after_sent self.old packet.now) }
        ensures open { OnOk result (step.is_open self.old ≡ true) }
        ensures refused { IfErr result (step.IsUnsent self.old) }
        ensures err { OnErr result (self.new ≡ self.old) }
    {
        if !self.is_open() {
            return Err(ConnectionFault::NotOpen);
        }
        self.unwritten.put(packet)?;
        Ok(())
    }

    /// PINGREQ is to be written, as `due` asks. Refused as `send` is.
    pub fn ask(&mut self, now: u64) -> Result<(), ConnectionFault>
        ensures ok { OnOk result (self.new ≡ step.after_asked self.old now) }
        ensures open { OnOk result (step.is_open self.old ≡ true) }
        ensures refused { IfErr result (step.IsUnsent self.old) }
        ensures err { OnErr result (self.new ≡ self.old) }
    {
        self.send(&PING)?;
        self.link.asked(now);
        Ok(())
    }

    /// All that waits to be written.
    pub fn unwritten(&self) -> &[u8]
        ensures { result.now ≡ self.now.unwritten }
    {
        self.unwritten.as_slice()
    }

    /// So many bytes of what waits were written. More than wait are all; where it is none, nothing changes.
    pub fn wrote(&mut self, count: usize, now: u64)
        ensures { self.new ≡ step.after_wrote self.old count now }
    {
        if count == 0 {
            return;
        }
        self.unwritten.pass(count);
        self.link.sent(now);
    }

    /// The connection is over, or a try came to none. What was read and isn't taken, and what waits to be written, is dropped: nothing of it comes into
    /// the next connection.
    pub fn over(&mut self, now: u64)
        ensures { self.new ≡ step.after_over self.old now }
    {
        self.link.over(now);
        self.unread = Waiting::new(self.alloc);
        self.unwritten = Waiting::new(self.alloc);
    }
}
