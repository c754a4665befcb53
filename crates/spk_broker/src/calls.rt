//! The calls of a broker for what isn't a packet.
ghost use Rattle.std.specs.Prelude.{◌≡◌, map, true, IfErr, IfOk, OnErr, OnOk};
ghost use Rattle.spk_broker.specs.declared.fault.BrokerFault.TheVariants as BrokerFault;
ghost use Rattle.spk_broker.specs.Fault.{IsUnknown};
ghost use Rattle.spk_broker.specs.Sent.{outgoing, sent_view};
ghost use Rattle.spk_broker_rules.specs.Plan.{Closed, Fault, Refused, Tick};
ghost use Rattle.spk_broker_rules.specs.Step.{knows, step};

use crate::broker::Broker;
use crate::fault::BrokerFault;
use crate::keep_alive::next;
use crate::out::{Conn, Draft, Out};
use spk_packets::PacketFault;
use spk_session::Sort;

impl Broker {
    /// A connection ended without the broker: its will is routed (section 3.1.2.5). Refused with NoSuchConn (30)
    /// exactly where the connection isn't open. Where it fails nothing has changed.
    pub fn closed(&mut self, conn: Conn, now: u64) -> Result<Out, BrokerFault>
        ensures sends { IfOk result (λ out. map sent_view out.sends.items
            ≡ map outgoing (step self.old (Closed conn now)).sends) }
        ensures closes { IfOk result (λ out. out.closes.items
            ≡ (step self.old (Closed conn now)).closes) }
        ensures done { OnOk result (self.new ≡ (step self.old (Closed conn now)).broker) }
        ensures accepted { OnOk result (knows self.old conn ≡ true) }
        ensures fault { IfErr result (IsUnknown (knows self.old conn)) }
        ensures err { OnErr result (self.new ≡ self.old) }
    {
        let sought = self.hints.seek(&self.state, conn, false);
        if !sought.known {
            return Err(BrokerFault::NoSuchConn);
        }
        let place = sought.place;
        let mut draft = Draft::new(self.state.alloc);
        let drafted = self
            .state
            .draft_closed(&mut draft, &self.index.tree, conn, place, now);
        self.state.conclude(drafted, draft, &mut self.index)
    }

    /// Bytes of a connection are no packet: a first packet of another protocol level gets CONNACK code 1 (section
    /// 3.1.2.2), and the connection is closed (section 4.8). Refused with NoSuchConn (30) exactly where the connection
    /// isn't open. Where it fails nothing has changed.
    pub fn fault(&mut self, conn: Conn, fault: PacketFault, now: u64) -> Result<Out, BrokerFault>
        ensures sends { IfOk result (λ out. map sent_view out.sends.items
            ≡ map outgoing (step self.old (Fault conn fault now)).sends) }
        ensures closes { IfOk result (λ out. out.closes.items
            ≡ (step self.old (Fault conn fault now)).closes) }
        ensures done { OnOk result (self.new ≡ (step self.old (Fault conn fault now)).broker) }
        ensures accepted { OnOk result (knows self.old conn ≡ true) }
        ensures fault { IfErr result (IsUnknown (knows self.old conn)) }
        ensures err { OnErr result (self.new ≡ self.old) }
    {
        let sought = self.hints.seek(&self.state, conn, false);
        if !sought.known {
            return Err(BrokerFault::NoSuchConn);
        }
        let place = sought.place;
        let mut draft = Draft::new(self.state.alloc);
        let drafted = self
            .state
            .draft_fault(&mut draft, &self.index.tree, conn, place, fault, now);
        self.state.conclude(drafted, draft, &mut self.index)
    }

    /// Time has passed: connections that were silent for more than one and a half times their keep alive are closed
    /// (section 3.1.2.10), all of them before the first of their wills is routed. Where it fails nothing has changed.
    pub fn tick(&mut self, now: u64) -> Result<Out, BrokerFault>
        ensures sends { IfOk result (λ out. map sent_view out.sends.items
            ≡ map outgoing (step self.old (Tick now)).sends) }
        ensures closes { IfOk result (λ out. out.closes.items ≡ (step self.old (Tick now)).closes) }
        ensures done { OnOk result (self.new ≡ (step self.old (Tick now)).broker) }
        ensures fault { IfErr result (λ e. e ≡ BrokerFault.NoMemory) }
        ensures err { OnErr result (self.new ≡ self.old) }
    {
        let mut draft = Draft::new(self.state.alloc);
        let mut calm = self.calm;
        let drafted = self
            .state
            .draft_tick(&mut draft, &self.index.tree, &mut calm, now);
        let concluded = self.state.conclude(drafted, draft, &mut self.index);
        self.calm = next(concluded.is_ok(), calm, self.calm);
        concluded
    }

    /// A send to a connection couldn't be taken: a PUBLISH of QoS 0 is dropped, and drop number `limit` closes the
    /// connection; any other send closes it (own rule). Refused with NoSuchConn (30) exactly where the connection isn't
    /// open. Where it fails nothing has changed.
    pub fn refused(&mut self, conn: Conn, sort: Sort, now: u64) -> Result<Out, BrokerFault>
        ensures sends { IfOk result (λ out. map sent_view out.sends.items
            ≡ map outgoing (step self.old (Refused conn sort now)).sends) }
        ensures closes { IfOk result (λ out. out.closes.items
            ≡ (step self.old (Refused conn sort now)).closes) }
        ensures done { OnOk result (self.new ≡ (step self.old (Refused conn sort now)).broker) }
        ensures accepted { OnOk result (knows self.old conn ≡ true) }
        ensures fault { IfErr result (IsUnknown (knows self.old conn)) }
        ensures err { OnErr result (self.new ≡ self.old) }
    {
        let sought = self.hints.seek(&self.state, conn, true);
        if !sought.known {
            return Err(BrokerFault::NoSuchConn);
        }
        let place = sought.place;
        let mut draft = Draft::new(self.state.alloc);
        let drafted = self.state.draft_refused(&mut draft, conn, place, sort, now);
        self.state.conclude(drafted, draft, &mut self.index)
    }
}
