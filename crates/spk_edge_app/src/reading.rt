//! What was read: each whole packet is told to the node, in order.
ghost use Rattle.std.specs.Prelude.{◌≡◌, ◌≢◌, ◌⊎◌, Option, None, Ok, true, false, is_none, IfOk, IfErr, OnErr, OnOk};
ghost use Rattle.spk_packets.specs.View.{view};
ghost use Rattle.spk_edge_rules.specs.Arriving.{input_of};
ghost use Rattle.spk_edge_app.specs.Calls.{EndsBy, HearsAll, HearsSome, IsKept, IsTakenUp, IsUnread, WasRead};
ghost use Rattle.spk_edge_app.specs.Data.{Coming};
ghost use Rattle.spk_edge_app.specs.Step.{Comes, MayAcknowledge, acknowledged, given_up};
ghost use Rattle.spk_edge_app.specs.Fault.{packet_fault};

use crate::app::EdgeApp;
use crate::fault::EdgeAppFault;
use spk_edge::EdgeFault;
use spk_packets::{Packet, PacketFault};

impl EdgeApp {
    /// Acknowledges a message that the node refused, where its QoS is 1 (MQTT 3.1.1, section 4.3.2).
    fn acknowledge(&mut self, ack: Option<u16>) -> Result<(), EdgeAppFault>
        ensures sent { OnOk result (MayAcknowledge ack self.old.connection
            × (self.new ≡ acknowledged ack self.old)) }
        ensures err { OnErr result (self.new ≡ self.old) }
    {
        if let Some(id) = ack {
            self.connection
                .send(&[0x40, 2, (id / 256) as u8, (id % 256) as u8])?;
        }
        Ok(())
    }

    /// A packet that the node refused. Where there is no memory to acknowledge it the connection is given up.
    fn refuse(&mut self, ack: Option<u16>, now: u64) -> Result<(), EdgeAppFault>
        ensures sent { OnOk result (MayAcknowledge ack self.old.connection
            × (self.new ≡ acknowledged ack self.old)) }
        ensures err { OnErr result (self.new ≡ given_up now self.old) }
        ensures memory { IfErr result (λ e. e ≡ EdgeAppFault.NoMemory) }
    {
        if self.acknowledge(ack).is_err() {
            self.give_up(now);
            return Err(EdgeAppFault::NoMemory);
        }
        Ok(())
    }

    /// A packet that the node refused: it is acknowledged, or, where memory was refused, the connection is given up.
    fn turn_down(
        &mut self,
        fault: EdgeFault,
        ack: Option<u16>,
        now: u64,
    ) -> Result<(), EdgeAppFault>
        ensures sent { OnOk result ((fault ≢ EdgeFault.NoMemory)
            × MayAcknowledge ack self.old.connection × (self.new ≡ acknowledged ack self.old)) }
        ensures err { OnErr result (self.new ≡ given_up now self.old) }
        ensures memory { IfErr result (λ e. e ≡ EdgeAppFault.NoMemory) }
    {
        match fault {
            EdgeFault::NoMemory => {
                self.give_up(now);
                Err(EdgeAppFault::NoMemory)
            }
            _ => self.refuse(ack, now),
        }
    }

    /// A packet comes to the node.
    fn come(&mut self, packet: &Packet, now: u64) -> Result<(), EdgeAppFault>
        ensures comes { OnOk result ((came : Coming) × IsKept came
            × Comes (input_of self.old.node.config now (view packet.now)) came self.old self.new) }
        ensures err { OnErr result (self.new ≡ given_up now self.old) }
        ensures memory { IfErr result (λ e. e ≡ EdgeAppFault.NoMemory) }
    {
        match self.node.packet(now, packet) {
            Ok(out) => {
                self.answer(out, now);
                Ok(())
            }
            Err(fault) => {
                let ack = self.node.input_of(now, packet).ack;
                self.turn_down(fault, ack, now)
            }
        }
    }

    /// Takes the next whole packet, if there is one. Whether it may go on.
    fn hear_next(&mut self, now: u64) -> Result<bool, EdgeAppFault>
        requires { self.old.closing ≡ None }
        ensures heard { OnOk result (HearsAll now self.old self.new) }
        ensures more { result ≡ Ok true → self.new.closing ≡ None }
        ensures up { result ≡ Ok false → IsTakenUp self.new }
        ensures ends { IfErr result (EndsBy self.old now self.new) }
    {
        match self.connection.take() {
            Ok(Some(packet)) => {
                self.come(&packet, now)?;
                Ok(self.closing.is_none())
            }
            Ok(None) => Ok(false),
            Err(fault) => self.break_off(fault, now),
        }
    }

    /// The bytes at the front are no packet, or there is no memory for it.
    fn break_off(&mut self, fault: PacketFault, now: u64) -> Result<bool, EdgeAppFault>
        ensures up { self.new ≡ given_up now self.old }
        ensures err { IfErr result (λ e. e ≡ packet_fault fault) }
        ensures no { IfOk result (λ _. ⊥) }
    {
        self.give_up(now);
        Err(fault.into())
    }

    /// Takes the whole packets, until none is left or the connection is to be closed.
    fn hear_all(&mut self, now: u64) -> Result<(), EdgeAppFault>
        requires { self.old.closing ≡ None }
        ensures heard { OnOk result (HearsAll now self.old self.new) }
        ensures up { OnOk result (IsTakenUp self.new) }
        ensures ends { IfErr result (HearsSome self.old now self.new) }
    {
        for _ in 0..u64::MAX {
            if !self.hear_next(now)? {
                return Ok(());
            }
        }
        self.give_up(now);
        Err(EdgeAppFault::NoMemory)
    }

    /// Bytes came: each whole packet is told to the node, in order, and what it answers waits to be written. A PUBLISH of QoS 1 that the node refuses is
    /// acknowledged. Bytes of a connection that is to be closed are passed over.
    ///
    /// Where the bytes are no packet (Packet, 117), where more than 2,097,152 would wait (TooLarge, 16), where memory is refused (NoMemory, 1) or where there
    /// is no connection (NotOpen, 112) the connection is given up, and the answer says why.
    pub fn read(&mut self, piece: &[u8], now: u64) -> Result<(), EdgeAppFault>
        ensures read { OnOk result (WasRead self.old piece.now now self.new) }
        ensures unread { IfErr result (IsUnread self.old piece.now now self.new) }
    {
        if self.closing.is_some() {
            return Ok(());
        }
        if let Err(fault) = self.connection.read(piece, now) {
            self.give_up(now);
            return Err(fault.into());
        }
        self.hear_all(now)
    }
}
