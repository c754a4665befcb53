//! What was read, and what the host answers.
ghost use Rattle.std.specs.Prelude.{◌≡◌, ◌++◌, ◌||◌, ◌⊎◌, ◌∷◌, [], drop, map, true, false, IfOk, IfErr, OnOk, OnErr, MatchOption, Option, Some, Err, ℕ};
ghost use Rattle.std.specs.String.{string_bytes};
ghost use Rattle.spk_packets.specs.Fault.{first_of};
ghost use Rattle.spk_packets.specs.Message.{Message};
ghost use Rattle.spk_packets.specs.Refusals.{refusals};
ghost use Rattle.spk_packets.specs.Stream.{TakesPacket};
ghost use Rattle.spk_packets.specs.declared.fault.PacketFault.TheVariants as PacketFault;
ghost use Rattle.spk_reading.specs.View.{heard_view};
ghost use Rattle.spk_host.specs.Step.{acks, spelled};
ghost use Rattle.spk_host.specs.View.{out_view};
ghost use Rattle.spk_connection.specs.Step.{is_open};
ghost use Rattle.spk_host_app.specs.Data.{Read, Whole};
ghost use Rattle.spk_host_app.specs.Data as plain;
ghost use Rattle.spk_host_app.specs.Log.{DoesOne, IsAnswered, IsGivenUp, IsReason, IsTakenUp, IsTold, Reaches, takes, takes_packet};
ghost use Rattle.spk_host_app.specs.Meant.{IsMeant};
ghost use Rattle.spk_host_app.specs.Step.{after, answered, ends_heard, is_full, join, out_words, put_words, taken};
ghost use Rattle.spk_host_app.specs.View.{word};

use crate::app::HostApp;
use crate::fault::HostAppFault;
use crate::joining::{answers, words_before};
use crate::meant::{Meant, meaning_of};
use crate::said::Said;
use spk_connection::ConnectionFault;
use spk_host::{HostFault, Out};
use spk_host_session::acknowledgement;
use spk_packets::PacketFault;
use spk_reading::Heard;
use std::alloc::{AllocError, Global};

/// One word.
fn one(alloc: Global, said: Said) -> Result<Vec<Said>, AllocError>
    ensures { IfOk result (λ v. v.items ≡ said ∷ []) }
{
    let mut words = Vec::new(alloc);
    words.push(said)?;
    Ok(words)
}

/// The acknowledgement of a message at QoS 1.
fn ack_of(alloc: Global, id: Option<u16>) -> Result<Vec<u8>, AllocError>
    ensures { IfOk result (λ v. v.items ≡ join (spelled (acks id))) }
{
    match id {
        Some(id) => acknowledgement(alloc, id),
        None => Ok(Vec::new(alloc)),
    }
}

/// Whether the connection is to be closed behind what a packet says.
fn ends(heard: &Heard) -> bool
    ensures { result ≡ ends_heard (heard_view heard.now) }
{
    match heard {
        Heard::Answered(code) => *code != 0,
        _ => false,
    }
}

impl HostApp {
    /// The connection is given up.
    pub(crate) fn give_up(&mut self, fault: HostAppFault) -> HostAppFault
        ensures new { self.new ≡ record self.old { closing = true } }
        ensures fault { result ≡ fault }
    {
        self.closing = true;
        fault
    }

    /// Words are said, then bytes are sent. Where memory is refused the connection is given up.
    pub(crate) fn answer(&mut self, words: Vec<Said>, bytes: &[u8]) -> Result<(), HostAppFault>
        ensures answered { IsAnswered (map word words.items) bytes.now self.old self.new }
        ensures ok { OnOk result
            (self.new ≡ answered Whole (map word words.items) bytes.now self.old) }
        ensures err { OnErr result (self.new.closing ≡ true) }
    {
        if self.words.put(words).is_err() {
            return Err(self.give_up(HostAppFault::NoMemory));
        }
        if self.connection.send(bytes).is_err() {
            return Err(self.give_up(HostAppFault::NoMemory));
        }
        Ok(())
    }

    /// What the host answered is said behind the first words, and its packets are sent.
    pub(crate) fn hand(&mut self, first: Vec<Said>, out: Out) -> Result<(), HostAppFault>
        ensures answered { IsAnswered (map word first.items ++ out_words (out_view out))
            (join (out_view out).packets) self.old self.new }
        ensures ok { OnOk result
            (self.new ≡ answered Whole (map word first.items ++ out_words (out_view out))
            (join (out_view out).packets) self.old) }
        ensures err { OnErr result (self.new.closing ≡ true) }
    {
        let mut words = first;
        match answers(self.alloc, &mut words, out) {
            Ok(bytes) => self.answer(words, bytes.as_slice()),
            Err(_) => Err(self.give_up(HostAppFault::NoMemory)),
        }
    }

    /// The packet at the front, of so many bytes, is taken; behind some the connection is to be closed.
    fn take_off(&mut self, size: usize, over: bool)
        ensures { self.new ≡ record (taken (drop size self.old.connection.unread) self.old) { closing = self.old.closing || over } }
    {
        self.connection.pass(size);
        self.closing = self.closing || over;
    }

    /// What the packet at the front says comes to the host.
    fn tell(&mut self, size: usize, heard: Heard, now: u64) -> Result<(), HostAppFault>
        ensures told { OnOk result (IsTold size (heard_view heard) now self.old self.new) }
        ensures failed { OnErr result (IsTold size (heard_view heard) now self.old self.new
            ⊎ IsGivenUp self.old self.new) }
        ensures err { OnErr result (self.new.closing ≡ true) }
    {
        let Ok(first) = words_before(self.alloc, &self.host, &heard, now) else {
            return Err(self.give_up(HostAppFault::NoMemory));
        };
        let over = ends(&heard);
        match self.host.heard(heard, now) {
            Ok(out) => {
                self.take_off(size, over);
                self.hand(first, out)
            }
            Err(HostFault::WrongPhase) => Err(self.give_up(HostAppFault::WrongPhase)),
            Err(_) => Err(self.give_up(HostAppFault::NoMemory)),
        }
    }

    /// The message at the front is refused: that is said, and at QoS 1 it is acknowledged.
    fn deny(
        &mut self,
        size: usize,
        fault: HostFault,
        topic: String,
        id: Option<u16>,
    ) -> Result<(), HostAppFault>
        ensures denied { OnOk result (IsAnswered (plain.Refused fault (string_bytes topic) ∷ [])
            (join (spelled (acks id))) (taken (drop size self.old.connection.unread) self.old) self.new) }
        ensures failed { OnErr result (IsAnswered (plain.Refused fault (string_bytes topic) ∷ [])
            (join (spelled (acks id))) (taken (drop size self.old.connection.unread) self.old) self.new
            ⊎ IsGivenUp self.old self.new) }
        ensures err { OnErr result (self.new.closing ≡ true) }
    {
        let Ok(words) = one(self.alloc, Said::Refused { fault, topic }) else {
            return Err(self.give_up(HostAppFault::NoMemory));
        };
        let Ok(bytes) = ack_of(self.alloc, id) else {
            return Err(self.give_up(HostAppFault::NoMemory));
        };
        self.take_off(size, false);
        self.answer(words, bytes.as_slice())
    }

    /// The SUBACK at the front refuses the subscription: that is said, and the connection is to be closed.
    fn unsubscribed(&mut self, size: usize) -> Result<(), HostAppFault>
        ensures unsubscribed { OnOk result
            (self.new ≡ record (taken (drop size self.old.connection.unread) self.old)
            { words = put_words (plain.SubscriptionRefused ∷ []) self.old.words; closing = true }) }
        ensures failed { OnErr result (IsGivenUp self.old self.new) }
        ensures err { OnErr result (self.new.closing ≡ true) }
    {
        let Ok(words) = one(self.alloc, Said::SubscriptionRefused) else {
            return Err(self.give_up(HostAppFault::NoMemory));
        };
        if self.words.put(words).is_err() {
            return Err(self.give_up(HostAppFault::NoMemory));
        }
        self.take_off(size, true);
        Ok(())
    }

    /// What the packet at the front of what was read is to the program, and how many bytes it has, if a whole one waits.
    fn front(&self) -> Result<Option<(usize, Meant)>, HostAppFault>
        ensures front { IfOk result (λ o. MatchOption o
            (first_of (refusals self.now.connection.unread) ≡ Some PacketFault.More)
            (λ x. (p : Message) × TakesPacket self.now.connection.unread p (drop x.0 self.now.connection.unread)
            × IsMeant p x.1)) }
        ensures reason { IfErr result (λ e. IsReason e self.now) }
    {
        match self.connection.front() {
            Ok(None) => Ok(None),
            Ok(Some(bytes)) => Ok(Some((bytes.len(), meaning_of(self.alloc, bytes)?))),
            Err(PacketFault::NoMemory) => Err(HostAppFault::NoMemory),
            Err(_) => Err(HostAppFault::NoPacket),
        }
    }

    /// The packet at the front is taken, by what it is to the program.
    fn take(&mut self, size: usize, meant: Meant, now: u64) -> Result<(), HostAppFault>
        ensures takes { (p : Message) → TakesPacket self.old.connection.unread p (drop size self.old.connection.unread)
            → IsMeant p meant → self.old.closing ≡ false → is_full self.old ≡ false
            → OnOk result (DoesOne takes_packet self.old self.new) }
        ensures failed { (p : Message) → TakesPacket self.old.connection.unread p (drop size self.old.connection.unread)
            → IsMeant p meant → self.old.closing ≡ false → is_full self.old ≡ false
            → OnErr result (DoesOne takes self.old self.new) }
        ensures err { OnErr result (self.new.closing ≡ true) }
    {
        match meant {
            Meant::Heard(heard) => self.tell(size, heard, now),
            Meant::Refused { fault, topic, id } => self.deny(size, fault, topic, id),
            Meant::SubscriptionRefused => self.unsubscribed(size),
        }
    }

    /// Takes the packet at the front of what was read, as `go_on` takes each, and answers whether one was taken. None is where the connection is to be
    /// closed, where 1,024 words or more wait to be printed, and where no whole packet stands at the front; nothing has changed then.
    ///
    /// Fails as `go_on` does, and then the connection is to be closed.
    pub fn hear(&mut self, now: u64) -> Result<bool, HostAppFault>
        ensures one { IfOk result (λ more. more ≡ true → DoesOne takes_packet self.old self.new) }
        ensures none { IfOk result (λ more. more ≡ false → (self.new ≡ self.old)
            × IsTakenUp self.new) }
        ensures failed { OnErr result (DoesOne takes self.old self.new) }
        ensures err { OnErr result (self.new.closing ≡ true) }
    {
        if self.closing || self.is_full() {
            return Ok(false);
        }
        let found = match self.front() {
            Ok(found) => found,
            Err(fault) => return Err(self.give_up(fault)),
        };
        match found {
            None => Ok(false),
            Some((size, meant)) => {
                self.take(size, meant, now)?;
                Ok(true)
            }
        }
    }

    /// Takes the whole packets of what was read, in order, until the connection is to be closed or too many words wait to be printed: what each says comes
    /// to the host, and what that answers is said and waits to be written; a message that is refused is said, and acknowledged at QoS 1; so is a
    /// SUBACK that refuses the subscription, behind which the connection is to be closed.
    ///
    /// Where it fails the connection is to be closed: with NoPacket (120) for bytes that aren't a packet, with WrongPhase (75) where the host is
    /// outside a session, with NoMemory (1).
    pub fn go_on(&mut self, now: u64) -> Result<(), HostAppFault>
        ensures takes { Reaches takes self.old self.new }
        ensures up { IsTakenUp self.new }
        ensures err { OnErr result (self.new.closing ≡ true) }
    {
        for _ in 0..u64::MAX {
            if !self.hear(now)? {
                return Ok(());
            }
        }
        Err(self.give_up(HostAppFault::NoMemory))
    }

    /// These bytes were read, and stand behind what was read before: `hear` takes the packets that are whole. Where the connection is to be closed, they
    /// are passed over.
    ///
    /// Refused with NotOpen (112) exactly where there is no connection; nothing has changed then. Where it fails otherwise the connection is to be
    /// closed: with TooLarge (16) where more than 2,097,152 bytes would wait to be taken (own rule), with NoMemory (1).
    pub fn feed(&mut self, piece: &[u8], now: u64) -> Result<(), HostAppFault>
        ensures fed { is_open self.old.connection ≡ true → self.old.closing ≡ false
            → OnOk result (self.new ≡ after (Read piece.now now) self.old) }
        ensures failed { is_open self.old.connection ≡ true → self.old.closing ≡ false
            → OnErr result (IsGivenUp self.old self.new) }
        ensures over { self.old.closing ≡ true → self.new ≡ self.old }
        ensures shut { is_open self.old.connection ≡ false → (self.new ≡ self.old)
            × (result ≡ Err HostAppFault.NotOpen) }
        ensures err { IfErr result (λ e. ((e ≡ HostAppFault.NotOpen)
            × (is_open self.old.connection ≡ false)) ⊎ (self.new.closing ≡ true)) }
    {
        if !self.connection.is_open() {
            return Err(HostAppFault::NotOpen);
        }
        if self.closing {
            return Ok(());
        }
        match self.connection.read(piece, now) {
            Ok(()) => Ok(()),
            Err(ConnectionFault::TooLarge) => Err(self.give_up(HostAppFault::TooLarge)),
            Err(_) => Err(self.give_up(HostAppFault::NoMemory)),
        }
    }

    /// These bytes were read: the packets that they make whole are taken, as `go_on` says. Where the connection is to be closed, they are passed over.
    ///
    /// Refused with NotOpen (112) exactly where there is no connection; nothing has changed then. Where it fails otherwise the connection is to be
    /// closed: as `go_on` fails, and with TooLarge (16) where more than 2,097,152 bytes would wait to be taken (own rule).
    pub fn read(&mut self, piece: &[u8], now: u64) -> Result<(), HostAppFault>
        ensures read { is_open self.old.connection ≡ true → self.old.closing ≡ false
            → Reaches takes (after (Read piece.now now) self.old) self.new
            ⊎ IsGivenUp self.old self.new }
        ensures up { is_open self.old.connection ≡ true → IsTakenUp self.new }
        ensures over { self.old.closing ≡ true → self.new ≡ self.old }
        ensures shut { is_open self.old.connection ≡ false → (self.new ≡ self.old)
            × (result ≡ Err HostAppFault.NotOpen) }
        ensures err { IfErr result (λ e. ((e ≡ HostAppFault.NotOpen)
            × (is_open self.old.connection ≡ false)) ⊎ (self.new.closing ≡ true)) }
    {
        self.feed(piece, now)?;
        if self.closing {
            return Ok(());
        }
        self.go_on(now)
    }
}
