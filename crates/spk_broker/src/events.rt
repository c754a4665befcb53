//! What each event drafts, but for packets.
ghost use Rattle.std.specs.Prelude.{◌≡◌, ◌≤◌, ◌<◌, ◌∷◌, [], IfOk, IfSome, None, OnOk, Option, length, true, false, ◌&&◌, is_none};
ghost use Rattle.std.specs.List.{flat_map};
ghost use Rattle.spk_packets.specs.Message.{ConnAck};
ghost use Rattle.spk_topics.specs.Grants.{Grants};
ghost use Rattle.spk_broker_rules.specs.Plan.{Closed, Fault, Leave, Refused, Route, Say, Tell, Tick, is_bad_level, shut, turn_away};
ghost use Rattle.spk_broker_rules.specs.Step.{Turn, acts, noted};
ghost use Rattle.spk_session.specs.declared.answer.Sort.TheVariants as Sort;
ghost use Rattle.spk_broker.specs.Asking.{place_in};
ghost use Rattle.spk_broker.specs.Called.{AreInOrder, AreKeyed};
ghost use Rattle.spk_broker.specs.Calm.{IsCalm};
ghost use Rattle.spk_broker.specs.Endings.{IsReady, Leads};
ghost use Rattle.spk_broker.specs.Filing.{IsIndex};
ghost use Rattle.spk_broker.specs.Touched.{IsAlone};
ghost use Rattle.spk_broker.specs.View.{IsSettled, Stands, state_now, state_was, ends, stepped};

use crate::keep_alive::silent;
use crate::out::{Conn, Draft};
use crate::packet_end::Ending;
use crate::session::Session;
use crate::state::State;
use spk_packets::{Packet, PacketFault};
use spk_session::Sort;
use spk_topics::Tree;
use std::alloc::AllocError;

/// Whether bytes name another protocol level (section 3.1.2.2).
fn is_bad_level(fault: PacketFault) -> bool
    ensures { result ≡ is_bad_level fault }
{
    match fault {
        PacketFault::BadLevel => true,
        _ => false,
    }
}

/// Whether bytes that are no packet get CONNACK code 1: those of a connection that sits nowhere.
fn is_of_other_level(fault: PacketFault, place: Option<usize>) -> bool
    ensures { result ≡ (is_bad_level fault && is_none place) }
{
    is_bad_level(fault) && place.is_none()
}

/// Where the first session stands, if there is one.
fn first_place(sessions: &[Session]) -> Option<usize>
    ensures none { result ≡ None → length sessions.now ≡ 0 }
    ensures some { IfSome result (λ p. (p ≡ 0) × (p < length sessions.now)) }
{
    if sessions.is_empty() { None } else { Some(0) }
}

impl State {
    /// CONNACK with this code, and closed (section 3.2.2.3).
    pub(crate) fn turn_away(
        &mut self,
        draft: &mut Draft,
        conn: Conn,
        code: u8,
    ) -> Result<(), AllocError>
        requires { code ≤ 5 }
        ensures done { OnOk result ((t : Turn) → Stands self.old draft.old t
            → Stands self.new draft.new (acts (turn_away conn code) t)) }
        ensures same { state_was self.new ≡ state_was self.old }
    {
        let packet = Packet::ConnAck {
            present: false,
            code,
        };
        draft.say(conn, &packet)?;
        self.shut(draft, conn)?;
        Ok(())
    }

    /// The connection ended without the broker. It sits at this place, if it does.
    pub(crate) fn draft_closed(
        &mut self,
        draft: &mut Draft,
        tree: &Option<Tree>,
        conn: Conn,
        place: Option<usize>,
        now: u64,
    ) -> Result<Ending, AllocError>
        requires index { IsIndex tree.now (state_now self.old).sessions }
        requires order { AreInOrder tree.now self.old.sessions.items }
        requires place { place_in conn self.old.sessions.items ≡ place }
        requires alone { IsAlone place self.old }
        ensures done { IfOk result (λ e. (t : Turn) → Stands self.old draft.old t
            → Leads self.new draft.new e (stepped (Closed conn now) t)) }
        ensures ready { IfOk result (λ e. IsReady e self.new) }
        ensures same { state_was self.new ≡ state_was self.old }
    {
        self.at(now);
        self.leave_at(draft, conn, place, true)?;
        let ending = self.route_near(draft, tree, place)?;
        Ok(ending)
    }

    /// Bytes that are no packet: of another protocol level they get CONNACK code 1, where the connection has no
    /// accepted CONNECT; else the connection is closed. It sits at this place, if it does.
    pub(crate) fn draft_fault(
        &mut self,
        draft: &mut Draft,
        tree: &Option<Tree>,
        conn: Conn,
        place: Option<usize>,
        fault: PacketFault,
        now: u64,
    ) -> Result<Ending, AllocError>
        requires index { IsIndex tree.now (state_now self.old).sessions }
        requires order { AreInOrder tree.now self.old.sessions.items }
        requires place { place_in conn self.old.sessions.items ≡ place }
        requires alone { IsAlone place self.old }
        ensures done { IfOk result (λ e. (t : Turn) → Stands self.old draft.old t
            → Leads self.new draft.new e (stepped (Fault conn fault now) t)) }
        ensures ready { IfOk result (λ e. IsReady e self.new) }
        ensures same { state_was self.new ≡ state_was self.old }
    {
        self.at(now);
        if is_of_other_level(fault, place) {
            self.turn_away(draft, conn, 1)?;
            return Ok(Ending::Nothing);
        }
        let ending = self.shut_at(draft, tree, conn, place)?;
        Ok(ending)
    }

    /// These connections end, and the caller is told to close them.
    fn end_all(&mut self, draft: &mut Draft, conns: &[Conn]) -> Result<(), AllocError>
        ensures done { OnOk result ((t : Turn) → Stands self.old draft.old t
            → Stands self.new draft.new (acts (flat_map ends conns.now) t)) }
        ensures same { state_was self.new ≡ state_was self.old }
        ensures index { OnOk result ((i : Option Grants) → IsIndex i (state_now self.old).sessions
            → IsIndex i (state_now self.new).sessions) }
        ensures keyed { OnOk result
            (AreKeyed self.old.sessions.items → AreKeyed self.new.sessions.items) }
    {
        for conn in conns {
            self.leave(draft, *conn, true)?;
            draft.tell(*conn)?;
        }
        Ok(())
    }

    /// All that are silent for too long are ended, then their wills are routed in that order (section 3.1.2.10). Where nobody is, no
    /// session changes. Up to the moment `calm` nobody is, which is found anew behind it.
    pub(crate) fn draft_tick(
        &mut self,
        draft: &mut Draft,
        tree: &Option<Tree>,
        calm: &mut u64,
        now: u64,
    ) -> Result<Ending, AllocError>
        requires index { IsIndex tree.now (state_now self.old).sessions }
        requires order { AreInOrder tree.now self.old.sessions.items }
        requires settled { IsSettled self.old }
        requires calm { IsCalm calm.old (state_was self.old) }
        ensures done { IfOk result (λ e. (t : Turn) → Stands self.old draft.old t
            → Leads self.new draft.new e (stepped (Tick now) t)) }
        ensures calm { IsCalm calm.new (noted (state_was self.old) (Tick now)).broker }
        ensures ready { IfOk result (λ e. IsReady e self.new) }
        ensures same { state_was self.new ≡ state_was self.old }
    {
        self.at(now);
        let conns = silent(self.alloc, &self.sessions, self.clock, calm)?;
        if conns.is_empty() {
            let first = first_place(&self.sessions);
            let ending = self.route_near(draft, tree, first)?;
            return Ok(ending);
        }
        self.end_all(draft, &conns)?;
        self.route_after(draft, tree)?;
        Ok(Ending::Nothing)
    }

    /// A PUBLISH of QoS 0 is dropped, and as many drops as close the connection close it (own rule).
    fn draft_dropped(
        &mut self,
        draft: &mut Draft,
        conn: Conn,
        place: Option<usize>,
        now: u64,
    ) -> Result<Ending, AllocError>
        requires place { place_in conn self.old.sessions.items ≡ place }
        requires alone { IsAlone place self.old }
        ensures done { IfOk result (λ e. (t : Turn) → Stands self.old draft.old t
            → Leads self.new draft.new e (stepped (Refused conn Sort.QosZero now) t)) }
        ensures ready { IfOk result (λ e. IsReady e self.new) }
        ensures same { state_was self.new ≡ state_was self.old }
    {
        self.at(now);
        self.count_drop(conn, place);
        if !self.is_spent(conn, place) {
            return Ok(Ending::alone(place));
        }
        let ending = self.shut_at(draft, &None, conn, place)?;
        Ok(ending)
    }

    /// A send to this connection couldn't be taken; any but a PUBLISH of QoS 0 closes it (own rule). It sits at this place, if
    /// it does.
    pub(crate) fn draft_refused(
        &mut self,
        draft: &mut Draft,
        conn: Conn,
        place: Option<usize>,
        sort: Sort,
        now: u64,
    ) -> Result<Ending, AllocError>
        requires place { place_in conn self.old.sessions.items ≡ place }
        requires alone { IsAlone place self.old }
        ensures done { IfOk result (λ e. (t : Turn) → Stands self.old draft.old t
            → Leads self.new draft.new e (stepped (Refused conn sort now) t)) }
        ensures ready { IfOk result (λ e. IsReady e self.new) }
        ensures same { state_was self.new ≡ state_was self.old }
    {
        match sort {
            Sort::QosZero => {
                let ending = self.draft_dropped(draft, conn, place, now)?;
                Ok(ending)
            }
            Sort::Other => {
                self.at(now);
                let ending = self.shut_at(draft, &None, conn, place)?;
                Ok(ending)
            }
        }
    }
}
