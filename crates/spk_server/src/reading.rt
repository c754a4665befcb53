//! What clients send.
ghost use Rattle.std.specs.Prelude.{◌≡◌, ◌≢◌, ◌⊎◌, [], Option, IfOk, OnOk, Ok, false, true};
ghost use Rattle.spk_packets.specs.Fault.{first_of, IsNamed};
ghost use Rattle.spk_packets.specs.Refusals.{refusals};
ghost use Rattle.spk_packets.specs.View.{view};
ghost use Rattle.spk_packets.specs.declared.fault.PacketFault.TheVariants as PacketFault;
ghost use Rattle.spk_broker_rules.specs.Plan as event;
ghost use Rattle.spk_clients.specs.declared.cause.Cause.TheVariants as Cause;
ghost use Rattle.spk_clients.specs.Client.{is_over};
ghost use Rattle.spk_clients.specs.Data.{AreNoted, IsSettled, client_at};
ghost use Rattle.spk_server.specs.Calls.{IsDone, IsTakenUp, RanOut, TookUp};
ghost use Rattle.spk_server.specs.Calls as call;
ghost use Rattle.spk_server.specs.Data.{Slow};
ghost use Rattle.spk_server.specs.Step.{broke, cause_fault, cause_other, ends_behind, is_disconnect, left};
ghost use Rattle.spk_server.specs.Tallies.{is_publish};
ghost use Rattle.spk_server.specs.Log.{HasClient, Reaches, follows, is_open, takes};
ghost use Rattle.spk_server.specs.Rooms.{amid, room_of, slow_for, with_packet};

use crate::answers::{fault_on, packet_on};
use crate::fault::ServerFault;
use crate::server::Server;
use spk_broker::Conn;
use spk_clients::Cause;
use spk_packets::{Packet, PacketFault};

/// Whether a packet publishes.
fn is_publish(packet: &Packet) -> bool
    ensures { result ≡ is_publish (view packet.now) }
{
    matches!(packet, Packet::Publish { .. })
}

/// Whether a packet is a client's own end.
fn is_disconnect(packet: &Packet) -> bool
    ensures { result ≡ is_disconnect (view packet.now) }
{
    matches!(packet, Packet::Disconnect)
}

/// Why another client than its sender is ended at a packet: taken over by a CONNECT (section 3.1.4), else since too many messages for it are
/// unacknowledged.
fn cause_other(packet: &Packet) -> Cause
    ensures { result ≡ cause_other (view packet.now) }
{
    match packet {
        Packet::Connect { .. } => Cause::TakenOver,
        _ => Cause::Slow,
    }
}

/// Why a client is ended whose bytes are no packet: one of another protocol level is refused (section 3.1.2.2).
fn cause_fault(fault: PacketFault) -> Cause
    ensures { result ≡ cause_fault fault }
{
    match fault {
        PacketFault::BadLevel => Cause::Refused,
        _ => Cause::Unreadable,
    }
}

impl Server {
    /// Behind a DISCONNECT a client's end came.
    fn leave_behind(&mut self, conn: Conn, packet: &Packet) -> Result<(), ServerFault>
        ensures ends { OnOk result ((before : Option Slow) → Reaches follows
            (amid self.old [] (ends_behind (record { conn = conn; packet = view packet.now })) before)
            (amid self.new [] [] before)) }
        ensures noted { OnOk result (AreNoted self.old.clients → AreNoted self.new.clients) }
    {
        if is_disconnect(packet) {
            self.over(conn, Cause::Left)?;
            return Ok(());
        }
        Ok(())
    }

    /// A packet of a client comes to the broker. Where memory is refused the client is ended. Of a PUBLISH the last of those to
    /// whom it goes and for whom many packets wait.
    fn come_packet(&mut self, conn: Conn, packet: &Packet) -> Result<Option<Conn>, ServerFault>
        ensures comes { IfOk result (λ slow. Reaches (takes conn)
            (with_packet conn (view packet.now) (room_of self.old))
            (amid self.new [] [] (slow_for conn slow))) }
        ensures noted { OnOk result (AreNoted self.old.clients → AreNoted self.new.clients) }
    {
        let other = cause_other(packet);
        self.clients.heard(conn, packet);
        self.tally.hear(packet);
        let Ok(answer) = packet_on(&mut self.noted, conn, packet, self.now) else {
            self.end(conn, Cause::Memory)?;
            return Ok(None);
        };
        let slow = self.hand_on(answer, Some((conn, other)), Cause::Refused)?;
        self.leave_behind(conn, packet)?;
        if is_publish(packet) {
            return Ok(slow);
        }
        Ok(None)
    }

    /// A packet of a client, and what comes of it.
    fn packet(&mut self, conn: Conn, packet: &Packet) -> Result<Option<Conn>, ServerFault>
        ensures comes { IfOk result (λ slow. AreNoted self.old.clients → Reaches (takes conn)
            (with_packet conn (view packet.now) (room_of self.old))
            (amid self.new [] [] (slow_for conn slow))) }
        ensures settled { OnOk result (AreNoted self.old.clients → IsSettled self.new.clients) }
    {
        let slow = self.come_packet(conn, packet)?;
        self.tell_all()?;
        self.tick()?;
        Ok(slow)
    }

    /// Bytes of a client that are no packet come to the broker. Where memory is refused the client is ended.
    fn come_fault(&mut self, conn: Conn, fault: PacketFault) -> Result<(), ServerFault>
        ensures comes { OnOk result (Reaches follows
            (broke conn (event.Fault conn fault self.old.now) (room_of self.old)) (room_of self.new)
            ⊎ Reaches follows (left conn Cause.Memory (room_of self.old)) (room_of self.new)) }
        ensures noted { OnOk result (AreNoted self.old.clients → AreNoted self.new.clients) }
    {
        let Ok(answer) = fault_on(&mut self.noted, conn, fault, self.now) else {
            self.end(conn, Cause::Memory)?;
            return Ok(());
        };
        let cause = cause_fault(fault);
        self.hand_on(answer, Some((conn, Cause::Slow)), cause)?;
        self.over(conn, cause)?;
        Ok(())
    }

    /// Bytes of a client that are no packet, and what comes of them.
    fn fault(&mut self, conn: Conn, fault: PacketFault) -> Result<(), ServerFault>
        ensures comes { OnOk result (Reaches follows
            (broke conn (event.Fault conn fault self.old.now) (room_of self.old)) (room_of self.new)
            ⊎ Reaches follows (left conn Cause.Memory (room_of self.old)) (room_of self.new)) }
        ensures settled { OnOk result (AreNoted self.old.clients → IsSettled self.new.clients) }
    {
        self.come_fault(conn, fault)?;
        self.tell_all()?;
        Ok(())
    }

    /// Ends a client's connection, for this cause.
    pub(crate) fn give_up(&mut self, conn: Conn, cause: Cause) -> Result<(), ServerFault>
        ensures ends { OnOk result
            (Reaches follows (left conn cause (room_of self.old)) (room_of self.new)) }
        ensures settled { OnOk result (AreNoted self.old.clients → IsSettled self.new.clients) }
    {
        self.end(conn, cause)?;
        self.tell_all()?;
        Ok(())
    }

    /// Takes the fault at the front of what a client sent.
    fn take_fault(&mut self, conn: Conn, fault: PacketFault) -> Result<(), ServerFault>
        ensures takes { OnOk result (IsSettled self.old.clients
            → HasClient (λ c. (is_over c ≡ false) × IsNamed fault (first_of (refusals c.feed)))
            conn (room_of self.old) → fault ≢ PacketFault.More
            → Reaches (takes conn) (room_of self.old) (room_of self.new)) }
        ensures settled { OnOk result (AreNoted self.old.clients → IsSettled self.new.clients) }
    {
        match fault {
            PacketFault::NoMemory => {
                self.give_up(conn, Cause::Memory)?;
                return Ok(());
            }
            _ => {
                self.fault(conn, fault)?;
                return Ok(());
            }
        }
    }

    /// Takes a packet of a client. Whether it is to wait for another behind it.
    fn take_whole(&mut self, conn: Conn, packet: &Packet) -> Result<bool, ServerFault>
        ensures takes { IfOk result (λ held. AreNoted self.old.clients
            → Reaches (takes conn) (with_packet conn (view packet.now) (room_of self.old))
            (room_of self.new)) }
        ensures waits { result ≡ Ok true → IsTakenUp (client_at self.new.clients conn) }
        ensures settled { OnOk result (AreNoted self.old.clients → IsSettled self.new.clients) }
    {
        let slow = self.packet(conn, packet)?;
        let held = self.holds(conn, slow)?;
        Ok(held)
    }

    /// Takes one packet of a client, or its fault. Whether it may go on.
    fn take_packet(&mut self, conn: Conn) -> Result<bool, ServerFault>
        ensures takes { OnOk result (IsSettled self.old.clients
            → Reaches (takes conn) (room_of self.old) (room_of self.new)) }
        ensures up { result ≡ Ok false → IsTakenUp (client_at self.new.clients conn) }
        ensures settled { OnOk result (IsSettled self.old.clients → IsSettled self.new.clients) }
    {
        let Some(front) = self.clients.next(conn) else {
            return Ok(false);
        };
        match front {
            Ok(packet) => {
                let held = self.take_whole(conn, &packet)?;
                return Ok(!held);
            }
            Err(fault) => {
                self.take_fault(conn, fault)?;
                return Ok(true);
            }
        }
    }

    /// Takes the whole packets of a client, until it is to wait for another.
    pub(crate) fn take_packets(&mut self, conn: Conn) -> Result<(), ServerFault>
        ensures takes { OnOk result (IsSettled self.old.clients
            → Reaches (takes conn) (room_of self.old) (room_of self.new)) }
        ensures up { OnOk result (IsTakenUp (client_at self.new.clients conn)) }
        ensures settled { OnOk result (IsSettled self.old.clients → IsSettled self.new.clients) }
    {
        for _ in 0..u64::MAX {
            if !self.take_packet(conn)? {
                return Ok(());
            }
        }
        Err(ServerFault::NoMemory)
    }

    /// Bytes of a client are put behind what it sent, and its packets are taken. Where there is no memory it is ended.
    fn take_in(&mut self, conn: Conn, piece: &[u8]) -> Result<(), ServerFault>
        ensures done { OnOk result (IsSettled self.old.clients → is_open (room_of self.old) conn ≡ true
            → TookUp conn piece.now (room_of self.old) (room_of self.new)
            ⊎ RanOut conn (room_of self.old) (room_of self.new)) }
        ensures settled { OnOk result (IsSettled self.old.clients → IsSettled self.new.clients) }
    {
        if self.clients.feed(conn, piece) {
            self.take_packets(conn)?;
            return Ok(());
        }
        self.give_up(conn, Cause::Memory)?;
        Ok(())
    }

    /// Bytes of a client were read: its whole packets come to the broker. What follows its end is passed over. Refused, where
    /// memory is refused twice, the server is at its end.
    pub fn read(&mut self, conn: Conn, piece: &[u8], now: u64) -> Result<(), ServerFault>
        ensures done { OnOk result (IsSettled self.old.clients
            → IsDone (call.Read conn piece.now now) (room_of self.old) (room_of self.new)) }
        ensures settled { OnOk result (IsSettled self.old.clients → IsSettled self.new.clients) }
    {
        self.at(now);
        if self.is_open(conn) {
            self.take_in(conn, piece)?;
            return Ok(());
        }
        Ok(())
    }

    /// Whether a client is here and its end didn't come.
    fn is_open(&self, conn: Conn) -> bool
        ensures { result ≡ is_open (room_of self.entry.now) conn }
    {
        match self.clients.get(conn) {
            Some(client) => !client.is_over(),
            None => false,
        }
    }

    /// A client sends no more.
    pub fn gone(&mut self, conn: Conn, now: u64) -> Result<(), ServerFault>
        ensures done { OnOk result (IsSettled self.old.clients
            → IsDone (call.Gone conn now) (room_of self.old) (room_of self.new)) }
        ensures settled { OnOk result (IsSettled self.old.clients → IsSettled self.new.clients) }
    {
        self.at(now);
        if self.is_open(conn) {
            self.give_up(conn, Cause::Gone)?;
            return Ok(());
        }
        Ok(())
    }
}
