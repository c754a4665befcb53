//! The call of a broker for a packet.
ghost use Rattle.std.specs.Prelude.{◌≡◌, map, true, IfErr, IfOk, OnErr, OnOk};
ghost use Rattle.spk_packets.specs.View.{view};
ghost use Rattle.spk_broker.specs.Fault.{IsUnknown};
ghost use Rattle.spk_broker.specs.Sent.{outgoing, sent_view};
ghost use Rattle.spk_broker_rules.specs.Plan.{Packet as PacketEvent};
ghost use Rattle.spk_broker_rules.specs.Step.{knows, step};

use crate::broker::Broker;
use crate::fault::BrokerFault;
use crate::out::{Conn, Draft, Out};
use crate::state::State;
use spk_packets::Packet;

impl Broker {
    /// A packet of a connection came (chapter 3). One that can't be written closes the connection as its bytes would.
    /// Refused with NoSuchConn (30) exactly where the connection isn't open. Where it fails nothing has changed.
    pub fn packet(&mut self, conn: Conn, packet: &Packet, now: u64) -> Result<Out, BrokerFault>
        ensures sends { IfOk result (λ out. map sent_view out.sends.items
            ≡ map outgoing (step self.old (PacketEvent conn (view packet.now) now)).sends) }
        ensures closes { IfOk result (λ out. out.closes.items
            ≡ (step self.old (PacketEvent conn (view packet.now) now)).closes) }
        ensures done { OnOk result (self.new
            ≡ (step self.old (PacketEvent conn (view packet.now) now)).broker) }
        ensures accepted { OnOk result (knows self.old conn ≡ true) }
        ensures fault { IfErr result (IsUnknown (knows self.old conn)) }
        ensures err { OnErr result (self.new ≡ self.old) }
    {
        let sought = self
            .hints
            .seek(&self.state, conn, !matches!(packet, Packet::Disconnect));
        if !sought.known {
            return Err(BrokerFault::NoSuchConn);
        }
        let place = sought.place;
        let mut draft = Draft::new(self.state.alloc);
        self.index.ready(&self.state, packet);
        let drafted = self
            .state
            .draft_packet(&mut draft, &self.index.tree, conn, place, packet, now);
        let concluded = self.state.conclude(drafted, draft, &mut self.index);
        self.hints.meet(&self.state.sessions, conn, packet);
        concluded
    }
}
