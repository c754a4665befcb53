//! The calls of the broker, each with what is noted of it.
ghost use Rattle.std.specs.Prelude.{◌≡◌, ◌+◌, ◌==◌, ◌&&◌, false, map, max, not, true, IfErr, IfOk, OnErr, OnOk};
ghost use Rattle.std.specs.List.{list_any};
ghost use Rattle.spk_packets.specs.View.{view};
ghost use Rattle.spk_broker.specs.Fault as broker;
ghost use Rattle.spk_broker.specs.Sent.{outgoing, sent_view};
ghost use Rattle.spk_broker.specs.declared.fault.BrokerFault.TheVariants as BrokerFault;
ghost use Rattle.spk_broker_rules.specs.Plan.{Closed, Fault, Open, Packet as PacketEvent, Refused, Tick};
ghost use Rattle.spk_broker_rules.specs.Step.{is_full, knows, step};
ghost use Rattle.spk_broker_replay.specs.Replay.{is_idle};
ghost use Rattle.spk_broker_notes.specs.Fault.{IsLimit, IsUnknown};
ghost use Rattle.spk_broker_notes.specs.Logs.{is_drop, settled};
ghost use Rattle.spk_broker_notes.specs.Noted.{after, is_over, is_unwritten};

use crate::broker::NotedBroker;
use crate::fault::NoteFault;
use crate::late::note_late;
use crate::laws;
use crate::notes::{add, clock, cut, len, wind};
use crate::packets::{add_packet, is_idle};
use spk_broker::{BrokerFault, Conn, Out};
use spk_broker_events::Event;
use spk_packets::{Packet, PacketFault};
use spk_session::Sort;

/// Whether a call closes this connection.
fn is_closed(out: &Out, conn: Conn) -> bool
    ensures { result ≡ list_any (λ d. d == conn) out.now.closes.items }
{
    out.closes.contains(&conn)
}

/// Whether a packet changed nothing but when its connection was heard, where this was answered.
fn is_nothing(packet: &Packet, out: &Out, conn: Conn) -> bool
    ensures { result ≡ (is_idle (view packet.now) && not (list_any (λ d. d == conn) out.now.closes.items)) }
{
    is_idle(packet) && !is_closed(out, conn)
}

/// Whether a refused send was a drop that closed nothing, where this was answered.
fn is_drop(sort: Sort, out: &Out, conn: Conn) -> bool
    ensures { result ≡ (is_drop sort && not (list_any (λ d. d == conn) out.now.closes.items)) }
{
    matches!(sort, Sort::QosZero) && !is_closed(out, conn)
}

impl NotedBroker {
    /// Where nothing was to be noted behind so many bytes, it is taken back.
    fn settle(&mut self, before: usize, nothing: bool)
        ensures { self.new ≡ settled nothing before self.old }
    {
        if nothing {
            cut(&mut self.log, before);
        }
    }

    /// A connection is opened, and nothing noted.
    fn tell_open(&mut self, now: u64) -> Result<Conn, BrokerFault>
        ensures number { IfOk result (λ conn. conn ≡ self.old.broker.given + 1) }
        ensures done { OnOk result (self.new ≡ record self.old { broker = (step self.old.broker (Open now)).broker }) }
        ensures accepted { OnOk result (is_full self.old.broker ≡ false) }
        ensures fault { IfErr result (broker.IsLimit (is_full self.old.broker)) }
        ensures err { OnErr result (self.new ≡ self.old) }
    {
        laws::clocked();
        let conn = self.broker.open(now)?;
        self.now = self.now.max(now);
        Ok(conn)
    }

    /// A connection is opened: its number, as `Broker::open` gives it. Refused with Limit (31) as there. Where it fails nothing has changed.
    pub fn open(&mut self, now: u64) -> Result<Conn, NoteFault>
        ensures number { IfOk result (λ conn. conn ≡ self.old.broker.given + 1) }
        ensures done { OnOk result (self.new ≡ after (Open now) self.old) }
        ensures accepted { OnOk result (is_full self.old.broker ≡ false) }
        ensures fault { IfErr result (IsLimit (is_full self.old.broker)) }
        ensures err { OnErr result (self.new ≡ self.old) }
    {
        let before = len(&self.log);
        add(self.alloc, &mut self.log, &Event::Open { moment: 0 })?;
        match self.tell_open(now) {
            Ok(conn) => Ok(conn),
            Err(fault) => {
                cut(&mut self.log, before);
                Err(fault.into())
            }
        }
    }

    /// A packet comes, and nothing is noted.
    fn tell_packet(&mut self, conn: Conn, packet: &Packet, now: u64) -> Result<Out, BrokerFault>
        ensures sends { IfOk result (λ out. map sent_view out.sends.items
            ≡ map outgoing (step self.old.broker (PacketEvent conn (view packet.now) now)).sends) }
        ensures closes { IfOk result (λ out. out.closes.items
            ≡ (step self.old.broker (PacketEvent conn (view packet.now) now)).closes) }
        ensures done { OnOk result (self.new ≡ record self.old { broker = (step self.old.broker (PacketEvent conn (view packet.now) now)).broker }) }
        ensures accepted { OnOk result (knows self.old.broker conn ≡ true) }
        ensures fault { IfErr result (broker.IsUnknown (knows self.old.broker conn)) }
        ensures err { OnErr result (self.new ≡ self.old) }
    {
        laws::clocked();
        let out = self.broker.packet(conn, packet, now)?;
        self.now = self.now.max(now);
        Ok(out)
    }

    /// A packet of a connection came, as `Broker::packet` takes it. Refused with Unwritten (140) exactly where it is to be noted and can't be written, else with
    /// NoSuchConn (30) exactly where the connection isn't open. Where it fails nothing has changed.
    pub fn packet(&mut self, conn: Conn, packet: &Packet, now: u64) -> Result<Out, NoteFault>
        ensures sends { IfOk result (λ out. map sent_view out.sends.items
            ≡ map outgoing (step self.old.broker (PacketEvent conn (view packet.now) now)).sends) }
        ensures closes { IfOk result (λ out. out.closes.items
            ≡ (step self.old.broker (PacketEvent conn (view packet.now) now)).closes) }
        ensures done { OnOk result (self.new ≡ after (PacketEvent conn (view packet.now) now) self.old) }
        ensures accepted { OnOk result (knows self.old.broker conn ≡ true) }
        ensures written { OnOk result (is_unwritten self.old.notes (view packet.now) ≡ false) }
        ensures fault { IfErr result (IsUnknown (is_unwritten self.old.notes (view packet.now)) (knows self.old.broker conn)) }
        ensures err { OnErr result (self.new ≡ self.old) }
    {
        let before = len(&self.log);
        add_packet(self.alloc, &mut self.log, conn, packet)?;
        match self.tell_packet(conn, packet, now) {
            Ok(out) => {
                self.settle(before, is_nothing(packet, &out, conn));
                Ok(out)
            }
            Err(fault) => {
                cut(&mut self.log, before);
                Err(fault.into())
            }
        }
    }

    /// What is no packet comes, and nothing is noted.
    fn tell_fault(&mut self, conn: Conn, fault: PacketFault, now: u64) -> Result<Out, BrokerFault>
        ensures sends { IfOk result (λ out. map sent_view out.sends.items
            ≡ map outgoing (step self.old.broker (Fault conn fault now)).sends) }
        ensures closes { IfOk result (λ out. out.closes.items
            ≡ (step self.old.broker (Fault conn fault now)).closes) }
        ensures done { OnOk result (self.new ≡ record self.old { broker = (step self.old.broker (Fault conn fault now)).broker }) }
        ensures accepted { OnOk result (knows self.old.broker conn ≡ true) }
        ensures fault { IfErr result (broker.IsUnknown (knows self.old.broker conn)) }
        ensures err { OnErr result (self.new ≡ self.old) }
    {
        laws::clocked();
        let out = self.broker.fault(conn, fault, now)?;
        self.now = self.now.max(now);
        Ok(out)
    }

    /// Bytes of a connection are no packet, as `Broker::fault` takes it. Refused with NoSuchConn (30) exactly where the connection isn't open. Where it fails
    /// nothing has changed.
    pub fn fault(&mut self, conn: Conn, fault: PacketFault, now: u64) -> Result<Out, NoteFault>
        ensures sends { IfOk result (λ out. map sent_view out.sends.items
            ≡ map outgoing (step self.old.broker (Fault conn fault now)).sends) }
        ensures closes { IfOk result (λ out. out.closes.items
            ≡ (step self.old.broker (Fault conn fault now)).closes) }
        ensures done { OnOk result (self.new ≡ after (Fault conn fault now) self.old) }
        ensures accepted { OnOk result (knows self.old.broker conn ≡ true) }
        ensures fault { IfErr result (IsUnknown false (knows self.old.broker conn)) }
        ensures err { OnErr result (self.new ≡ self.old) }
    {
        let before = len(&self.log);
        add(
            self.alloc,
            &mut self.log,
            &Event::Fault {
                conn,
                fault,
                moment: 0,
            },
        )?;
        match self.tell_fault(conn, fault, now) {
            Ok(out) => Ok(out),
            Err(fault) => {
                cut(&mut self.log, before);
                Err(fault.into())
            }
        }
    }

    /// An end comes, and nothing is noted.
    fn tell_closed(&mut self, conn: Conn, now: u64) -> Result<Out, BrokerFault>
        ensures sends { IfOk result (λ out. map sent_view out.sends.items
            ≡ map outgoing (step self.old.broker (Closed conn now)).sends) }
        ensures closes { IfOk result (λ out. out.closes.items
            ≡ (step self.old.broker (Closed conn now)).closes) }
        ensures done { OnOk result (self.new ≡ record self.old { broker = (step self.old.broker (Closed conn now)).broker }) }
        ensures accepted { OnOk result (knows self.old.broker conn ≡ true) }
        ensures fault { IfErr result (broker.IsUnknown (knows self.old.broker conn)) }
        ensures err { OnErr result (self.new ≡ self.old) }
    {
        laws::clocked();
        let out = self.broker.closed(conn, now)?;
        self.now = self.now.max(now);
        Ok(out)
    }

    /// A connection ended, as `Broker::closed` takes it. Refused with NoSuchConn (30) exactly where the connection isn't open. Where it fails nothing has
    /// changed.
    pub fn closed(&mut self, conn: Conn, now: u64) -> Result<Out, NoteFault>
        ensures sends { IfOk result (λ out. map sent_view out.sends.items
            ≡ map outgoing (step self.old.broker (Closed conn now)).sends) }
        ensures closes { IfOk result (λ out. out.closes.items
            ≡ (step self.old.broker (Closed conn now)).closes) }
        ensures done { OnOk result (self.new ≡ after (Closed conn now) self.old) }
        ensures accepted { OnOk result (knows self.old.broker conn ≡ true) }
        ensures fault { IfErr result (IsUnknown false (knows self.old.broker conn)) }
        ensures err { OnErr result (self.new ≡ self.old) }
    {
        let before = len(&self.log);
        add(
            self.alloc,
            &mut self.log,
            &Event::Closed { conn, moment: 0 },
        )?;
        match self.tell_closed(conn, now) {
            Ok(out) => Ok(out),
            Err(fault) => {
                cut(&mut self.log, before);
                Err(fault.into())
            }
        }
    }

    /// A send was refused, and nothing is noted.
    fn tell_refused(&mut self, conn: Conn, sort: Sort, now: u64) -> Result<Out, BrokerFault>
        ensures sends { IfOk result (λ out. map sent_view out.sends.items
            ≡ map outgoing (step self.old.broker (Refused conn sort now)).sends) }
        ensures closes { IfOk result (λ out. out.closes.items
            ≡ (step self.old.broker (Refused conn sort now)).closes) }
        ensures done { OnOk result (self.new ≡ record self.old { broker = (step self.old.broker (Refused conn sort now)).broker }) }
        ensures accepted { OnOk result (knows self.old.broker conn ≡ true) }
        ensures fault { IfErr result (broker.IsUnknown (knows self.old.broker conn)) }
        ensures err { OnErr result (self.new ≡ self.old) }
    {
        laws::clocked();
        let out = self.broker.refused(conn, sort, now)?;
        self.now = self.now.max(now);
        Ok(out)
    }

    /// A send to a connection couldn't be taken, as `Broker::refused` takes it. Refused with NoSuchConn (30) exactly where the connection isn't open. Where it
    /// fails nothing has changed.
    pub fn refused(&mut self, conn: Conn, sort: Sort, now: u64) -> Result<Out, NoteFault>
        ensures sends { IfOk result (λ out. map sent_view out.sends.items
            ≡ map outgoing (step self.old.broker (Refused conn sort now)).sends) }
        ensures closes { IfOk result (λ out. out.closes.items
            ≡ (step self.old.broker (Refused conn sort now)).closes) }
        ensures done { OnOk result (self.new ≡ after (Refused conn sort now) self.old) }
        ensures accepted { OnOk result (knows self.old.broker conn ≡ true) }
        ensures fault { IfErr result (IsUnknown false (knows self.old.broker conn)) }
        ensures err { OnErr result (self.new ≡ self.old) }
    {
        let before = len(&self.log);
        add(
            self.alloc,
            &mut self.log,
            &Event::Refused {
                conn,
                sort: Sort::Other,
                moment: 0,
            },
        )?;
        match self.tell_refused(conn, sort, now) {
            Ok(out) => {
                self.settle(before, is_drop(sort, &out, conn));
                Ok(out)
            }
            Err(fault) => {
                cut(&mut self.log, before);
                Err(fault.into())
            }
        }
    }

    /// Time passes, and nothing is noted.
    fn tell_tick(&mut self, now: u64) -> Result<Out, BrokerFault>
        ensures sends { IfOk result (λ out. map sent_view out.sends.items
            ≡ map outgoing (step self.old.broker (Tick now)).sends) }
        ensures closes { IfOk result (λ out. out.closes.items
            ≡ (step self.old.broker (Tick now)).closes) }
        ensures done { OnOk result (self.new ≡ record self.old { broker = (step self.old.broker (Tick now)).broker }) }
        ensures fault { IfErr result (λ e. e ≡ BrokerFault.NoMemory) }
        ensures err { OnErr result (self.new ≡ self.old) }
    {
        laws::clocked();
        let out = self.broker.tick(now)?;
        self.now = self.now.max(now);
        Ok(out)
    }

    /// Time has passed, as `Broker::tick` takes it. Refused with Limit (31) exactly where somebody is silent for too long and the clock of the replay can't go
    /// on, after nine quadrillion such ticks. Where it fails nothing has changed.
    pub fn tick(&mut self, now: u64) -> Result<Out, NoteFault>
        ensures sends { IfOk result (λ out. map sent_view out.sends.items
            ≡ map outgoing (step self.old.broker (Tick now)).sends) }
        ensures closes { IfOk result (λ out. out.closes.items
            ≡ (step self.old.broker (Tick now)).closes) }
        ensures done { OnOk result (self.new ≡ after (Tick now) self.old) }
        ensures ready { OnOk result (is_over self.old now ≡ false) }
        ensures fault { IfErr result (IsLimit (is_over self.old now)) }
        ensures err { OnErr result (self.new ≡ self.old) }
    {
        let before = len(&self.log);
        let clock_before = clock(&self.log);
        note_late(self.alloc, &self.broker, &mut self.log, self.now.max(now))?;
        match self.tell_tick(now) {
            Ok(out) => Ok(out),
            Err(fault) => {
                cut(&mut self.log, before);
                wind(&mut self.log, clock_before);
                Err(fault.into())
            }
        }
    }
}
