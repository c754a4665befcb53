//! The broker's thread between two frames: connections, rings, and what is handed on at its end.
ghost use Rattle.std.specs.Prelude.{◌≡◌, ◌+◌, ◌<◌, ◌^◌, ◌||◌, ◌++◌, ◌∷◌, [], ℕ, Bool, List, map, length, Some, None, IfOk, OnOk, IfSome, true, false};
ghost use Rattle.std.specs.List.{slice_get};
ghost use Rattle.std.specs.Option.{IfNone};
ghost use Rattle.spk_ingress.specs.declared.rule.Message.{Message};
ghost use Rattle.spk_broker.specs.Sent.{Sent, sent_view};
ghost use Rattle.spk_rings.specs.declared.outlet.Outlet.{Outlet};
ghost use Rattle.spk_rings.specs.declared.item.Item.{Item};
ghost use Rattle.spk_plant_broker.specs.Data.{Entry};
ghost use Rattle.spk_plant_broker.specs.Done.{AreFresh};
ghost use Rattle.spk_plant_broker.specs.Holding.{CountsCuts, FitLines, HasRings, Holds, IsAccepted, IsIdle, IsNoted, IsRefused, IsTaken, LinesGive, Offers, Rests, Setting, setting_of};
ghost use Rattle.spk_plant_broker.specs.Log.{room_of};
ghost use Rattle.spk_plant_broker.specs.Step.{client_of, have_ended, is_client, holds_client};

use crate::desk::Desk;
use crate::line::Line;
use crate::part::Refusal;
use spk_broker::{Bytes, Conn, Out, Outgoing};
use spk_ingress::{Frame, Message, Whole};
use spk_packets::PacketFault;
use spk_plan::Gate;
use spk_rings::Outlet;
use spk_session::Sort;
use std::alloc::{AllocError, Global};
use std::collections::VecDeque;
use std::sync::Wait;

/// A refused offer of which the broker isn't told yet.
#[derive(Clone, Copy, Drop)]
pub(crate) struct Untold {
    pub(crate) conn: Conn,
    pub(crate) sort: Sort,
}

/// What the broker's thread holds.
#[derive(Drop)]
pub(crate) struct Hub {
    pub(crate) alloc: Global,
    pub(crate) desk: Desk,
    pub(crate) lines: Vec<Line>,
    /// How many clients are edge nodes. The one behind them is the host.
    pub(crate) edges: usize,
    /// All edge nodes have ended.
    pub(crate) over: bool,
    pub(crate) untold: VecDeque<Untold>,
    pub(crate) taken: Vec<Message>,
    pub(crate) refusals: Vec<Refusal>,
    pub(crate) accepted: Vec<usize>,
}

/// A line for each ring.
fn lines_of(alloc: Global, outlets: Vec<Outlet>) -> Result<Vec<Line>, AllocError>
    ensures fits { IfOk result
        (λ ls. AreFresh outlets.items → FitLines outlets.items (λ k. false) (λ k. []) [] ls.items) }
    ensures sized { IfOk result (λ ls. length ls.items ≡ length outlets.items) }
{
    let mut lines = Vec::new(alloc);
    for outlet in outlets {
        lines.push(Line::new(outlet))?;
    }
    Ok(lines)
}

/// Offers a packet to a client's ring: whether it took it. None where the ring was dropped.
fn offer_to(lines: &mut Vec<Line>, client: usize, bytes: Bytes) -> Option<bool>
    requires { client < length lines.old.items }
    ensures gives { (firsts : List Outlet) (dropped : ℕ → Bool) (got : ℕ → List Item)
        (taken : List Message)
        → FitLines firsts dropped got taken lines.old.items
        → LinesGive firsts dropped got taken client bytes lines.new.items result }
    ensures sized { length lines.new.items ≡ length lines.old.items }
{
    lines[client].offer(bytes)
}

/// A client's Cut was taken.
fn note_cut(lines: &mut Vec<Line>, client: usize)
    requires below { client < length lines.old.items }
    requires few { (l : Line) → slice_get lines.old.items client ≡ Some l → l.cuts + 1 < 2 ^ 64 }
    ensures fits { (firsts : List Outlet) (dropped : ℕ → Bool) (got : ℕ → List Item)
        (taken : List Message) → FitLines firsts dropped got taken lines.old.items
        → FitLines firsts dropped got
        (taken ++ (record { sender = client; frame = Frame.Cut }) ∷ []) lines.new.items }
    ensures sized { length lines.new.items ≡ length lines.old.items }
{
    lines[client].cut();
}

/// A client's End was taken.
fn note_end(lines: &mut Vec<Line>, client: usize)
    requires { client < length lines.old.items }
    ensures fits { (firsts : List Outlet) (dropped : ℕ → Bool) (got : ℕ → List Item)
        (taken : List Message) → FitLines firsts dropped got taken lines.old.items
        → FitLines firsts dropped got
        (taken ++ (record { sender = client; frame = Frame.End }) ∷ []) lines.new.items }
    ensures sized { length lines.new.items ≡ length lines.old.items }
{
    lines[client].ended = true;
}

/// Drops a client's ring.
fn finish_at(lines: &mut Vec<Line>, client: usize)
    ensures fits { (firsts : List Outlet) (dropped : ℕ → Bool) (got : ℕ → List Item)
        (taken : List Message) → FitLines firsts dropped got taken lines.old.items
        → FitLines firsts (λ k. dropped k || is_client k (Some client)) got taken lines.new.items }
    ensures sized { length lines.new.items ≡ length lines.old.items }
{
    if client < lines.len() {
        lines[client].finish();
    }
}

/// Drops all rings.
fn finish_all(lines: &mut Vec<Line>)
    ensures fits { (firsts : List Outlet) (dropped : ℕ → Bool) (got : ℕ → List Item)
        (taken : List Message) → FitLines firsts dropped got taken lines.old.items
        → FitLines firsts (λ k. true) got taken lines.new.items }
    ensures sized { length lines.new.items ≡ length lines.old.items }
{
    for client in 0..lines.len() {
        finish_at(lines, client);
    }
}

/// Whether each of the first so many clients has ended.
pub(crate) fn have_ended(lines: &Vec<Line>, count: usize) -> bool
    requires { count < length lines.now.items + 1 }
    ensures { (firsts : List Outlet) (dropped : ℕ → Bool) (got : ℕ → List Item)
        (taken : List Message) → FitLines firsts dropped got taken lines.now.items
        → result ≡ have_ended count taken }
{
    for i in 0..count {
        if !lines[i].ended {
            return false;
        }
    }
    true
}

impl Hub {
    /// Nothing was taken.
    pub(crate) fn new(alloc: Global, limit: u16, outlets: Vec<Outlet>) -> Result<Hub, AllocError>
        ensures idle { IfOk result
            (λ h. AreFresh outlets.items → IsIdle (setting_of limit outlets.items) h []) }
        ensures rings { IfOk result HasRings }
    {
        let count = outlets.len();
        Ok(Hub {
            alloc,
            desk: Desk::new(alloc, limit, count)?,
            lines: lines_of(alloc, outlets)?,
            edges: count.saturating_sub(1),
            over: false,
            untold: VecDeque::new(alloc),
            taken: Vec::new(alloc),
            refusals: Vec::new(alloc),
            accepted: Vec::new(alloc),
        })
    }

    /// A client's ring took a packet.
    fn note_accepted(&mut self, client: usize) -> Result<(), AllocError>
        ensures { OnOk result (IsAccepted client self.old self.new) }
    {
        if client == self.edges {
            self.accepted.push(self.taken.len())?;
        }
        Ok(())
    }

    /// A client's ring was full.
    fn note_refused(&mut self, client: usize, conn: Conn, sort: Sort) -> Result<(), AllocError>
        ensures { OnOk result (IsRefused client conn sort self.old self.new) }
    {
        self.refusals.push(Refusal {
            client,
            sort,
            taken: self.taken.len(),
        })?;
        self.untold.push_back(Untold { conn, sort })?;
        Ok(())
    }

    /// Offers a send to its client's ring, unless that was dropped.
    fn offer<G: Gate>(&mut self, gate: &G, send: Outgoing) -> Result<(), AllocError>
        requires { HasRings self.old }
        ensures offers { OnOk result
            ((s : Setting) (closed : ℕ → Bool) (log : List Entry) (sends : List Sent)
            (closes : List ℕ)
            → Offers s closed self.old log (sent_view send ∷ sends) closes → (e : Entry)
            × Offers s closed self.new (e ∷ log) sends closes) }
        ensures taken { OnOk result (self.new.taken ≡ self.old.taken) }
        ensures rings { OnOk result (HasRings self.new) }
    {
        let Outgoing { conn, sort, bytes } = send;
        let Some(client) = self.desk.client_of(conn) else {
            return Ok(());
        };
        let Some(passed) = offer_to(&mut self.lines, client, bytes) else {
            return Ok(());
        };
        gate.after_offer(client, passed);
        if passed {
            self.note_accepted(client)?;
            return Ok(());
        }
        self.note_refused(client, conn, sort)?;
        Ok(())
    }

    /// Offers the sends of a call, in order.
    fn offer_all<G: Gate>(&mut self, gate: &G, sends: Vec<Outgoing>) -> Result<(), AllocError>
        requires { HasRings self.old }
        ensures offers { OnOk result
            ((s : Setting) (closed : ℕ → Bool) (log : List Entry) (closes : List ℕ)
            → Offers s closed self.old log (map sent_view sends.items) closes → (l : List Entry)
            × Offers s closed self.new l [] closes) }
        ensures taken { OnOk result (self.new.taken ≡ self.old.taken) }
        ensures rings { OnOk result (HasRings self.new) }
    {
        for send in sends {
            self.offer(gate, send)?;
        }
        Ok(())
    }

    /// The broker closed a connection: its client opens none any more, and its ring is dropped.
    fn close(&mut self, conn: Conn)
        ensures holds { (s : Setting) (closed : ℕ → Bool) (log : List Entry)
            → Holds s closed self.old log
            → Holds s (λ k. closed k || is_client k
            (client_of (room_of s.limit s.edges log).openers conn)) self.new log }
        ensures taken { self.new.taken ≡ self.old.taken }
        ensures rings { HasRings self.old → HasRings self.new }
    {
        let Some(client) = self.desk.client_of(conn) else {
            return;
        };
        self.desk.shut(client);
        finish_at(&mut self.lines, client);
    }

    /// The broker closed these connections.
    fn close_all(&mut self, conns: &[Conn])
        ensures holds { (s : Setting) (closed : ℕ → Bool) (log : List Entry)
            → Holds s closed self.old log
            → Holds s (λ k. closed k || holds_client
            (room_of s.limit s.edges log).openers k conns.now) self.new log }
        ensures taken { self.new.taken ≡ self.old.taken }
        ensures rings { HasRings self.old → HasRings self.new }
    {
        for conn in conns {
            self.close(*conn);
        }
    }

    /// Offers what a call answered, in order, and then drops the rings of those that it closes.
    fn hand_out<G: Gate>(&mut self, gate: &G, out: Out) -> Result<(), AllocError>
        requires { HasRings self.old }
        ensures rests { OnOk result ((s : Setting) (closed : ℕ → Bool) (log : List Entry)
            → Offers s closed self.old log (map sent_view out.sends.items) out.closes.items
            → (l : List Entry) × Rests s self.new l) }
        ensures taken { OnOk result (self.new.taken ≡ self.old.taken) }
        ensures rings { OnOk result (HasRings self.new) }
    {
        let Out { sends, closes } = out;
        self.offer_all(gate, sends)?;
        self.close_all(closes.as_slice());
        Ok(())
    }

    /// Tells the broker of the first refused offer of which it isn't told yet. None where there is none.
    fn tell(&mut self) -> Result<Option<Out>, AllocError>
        requires { HasRings self.old }
        ensures some { IfOk result
            (λ o. IfSome o (λ out. (s : Setting) (log : List Entry) → Rests s self.old log
            → (e : Entry)
            × Offers s (room_of s.limit s.edges log).closed self.new (e ∷ log)
            (map sent_view out.sends.items) out.closes.items)) }
        ensures none { IfOk result
            (λ o. IfNone o
            ((s : Setting) (log : List Entry) → Rests s self.old log → IsIdle s self.new log)) }
        ensures taken { OnOk result (self.new.taken ≡ self.old.taken) }
        ensures rings { OnOk result (HasRings self.new) }
    {
        let Some(untold) = self.untold.pop_front() else {
            return Ok(None);
        };
        let now = self.taken.len() as u64;
        let out = self.desk.refused(untold.conn, untold.sort, now)?;
        Ok(Some(out))
    }

    /// Tells the broker of all refused offers, in order, and offers what it answers before the next.
    fn tell_all<R: Wait, G: Gate>(&mut self, rt: &R, gate: &G) -> Result<(), AllocError>
        requires { HasRings self.old }
        ensures idle { OnOk result
            ((s : Setting) (log : List Entry) → Rests s self.old log → (l : List Entry)
            × IsIdle s self.new l) }
        ensures taken { OnOk result (self.new.taken ≡ self.old.taken) }
        ensures rings { OnOk result (HasRings self.new) }
    {
        for _ in rt.forever() {
            let Some(out) = self.tell()? else {
                return Ok(());
            };
            self.hand_out(gate, out)?;
        }
        unreachable!()
    }

    /// Notes a frame, and answers how many were taken by now: the broker's moment.
    fn note(&mut self, sender: usize, frame: Frame) -> Result<u64, AllocError>
        ensures { IfOk result
            (λ now. IsNoted (record { sender = sender; frame = frame }) now self.old self.new) }
    {
        self.taken.push(Message { sender, frame })?;
        Ok(self.taken.len() as u64)
    }

    /// A client's packet.
    fn packet(&mut self, sender: usize, whole: Whole) -> Result<Out, AllocError>
        requires clients { sender < length self.old.desk.clients.items }
        requires lines { sender < length self.old.lines.items }
        requires rings { HasRings self.old }
        ensures taken { IfOk result
            (λ out. IsTaken
            (record { sender = sender; frame = Frame.Packet whole }) self.old self.new out) }
        ensures rings { OnOk result (HasRings self.new) }
    {
        let Ok(packet) = whole.read(self.alloc) else {
            return Err(AllocError);
        };
        let now = self.note(sender, Frame::Packet(whole))?;
        self.desk.packet(sender, &packet, now)
    }

    /// A client's bytes that are no packet.
    fn fault(&mut self, sender: usize, fault: PacketFault) -> Result<Out, AllocError>
        requires clients { sender < length self.old.desk.clients.items }
        requires rings { HasRings self.old }
        ensures taken { IfOk result
            (λ out. IsTaken
            (record { sender = sender; frame = Frame.Fault fault }) self.old self.new out) }
        ensures rings { OnOk result (HasRings self.new) }
    {
        let now = self.note(sender, Frame::Fault(fault))?;
        self.desk.fault(sender, fault, now)
    }

    /// The end of a client's connection.
    fn cut(&mut self, sender: usize) -> Result<Out, AllocError>
        requires clients { sender < length self.old.desk.clients.items }
        requires lines { sender < length self.old.lines.items }
        requires rings { HasRings self.old }
        requires cuts { CountsCuts sender self.old }
        ensures taken { IfOk result
            (λ out. IsTaken (record { sender = sender; frame = Frame.Cut }) self.old self.new out) }
        ensures rings { OnOk result (HasRings self.new) }
    {
        let now = self.note(sender, Frame::Cut)?;
        note_cut(&mut self.lines, sender);
        self.desk.cut(sender, now)
    }

    /// A client's own end. When all edge nodes have ended all rings are dropped.
    fn end(&mut self, sender: usize) -> Result<Out, AllocError>
        requires lines { sender < length self.old.lines.items }
        requires edges { self.old.edges < length self.old.lines.items + 1 }
        requires rings { HasRings self.old }
        ensures taken { IfOk result
            (λ out. IsTaken (record { sender = sender; frame = Frame.End }) self.old self.new out) }
        ensures rings { OnOk result (HasRings self.new) }
    {
        self.note(sender, Frame::End)?;
        note_end(&mut self.lines, sender);
        if self.over {
            return Ok(self.desk.nothing());
        }
        if !have_ended(&self.lines, self.edges) {
            return Ok(self.desk.nothing());
        }
        self.over = true;
        finish_all(&mut self.lines);
        Ok(self.desk.nothing())
    }

    /// What a frame does.
    fn frame(&mut self, sender: usize, frame: Frame) -> Result<Out, AllocError>
        requires clients { sender < length self.old.desk.clients.items }
        requires lines { sender < length self.old.lines.items }
        requires edges { self.old.edges < length self.old.lines.items + 1 }
        requires rings { HasRings self.old }
        requires cuts { CountsCuts sender self.old }
        ensures taken { IfOk result
            (λ out. IsTaken (record { sender = sender; frame = frame }) self.old self.new out) }
        ensures rings { OnOk result (HasRings self.new) }
    {
        match frame {
            Frame::Packet(whole) => self.packet(sender, whole),
            Frame::Fault(fault) => self.fault(sender, fault),
            Frame::Cut => self.cut(sender),
            Frame::End => self.end(sender),
        }
    }

    /// Takes in a frame: its sends are offered and its refused offers told before the next.
    pub(crate) fn take<R: Wait, G: Gate>(
        &mut self,
        rt: &R,
        gate: &G,
        sender: usize,
        frame: Frame,
    ) -> Result<(), AllocError>
        requires clients { sender < length self.old.desk.clients.items }
        requires lines { sender < length self.old.lines.items }
        requires edges { self.old.edges < length self.old.lines.items + 1 }
        requires rings { HasRings self.old }
        requires cuts { CountsCuts sender self.old }
        ensures idle { OnOk result
            ((s : Setting) (log : List Entry) → IsIdle s self.old log → (l : List Entry)
            × IsIdle s self.new l) }
        ensures taken { OnOk result
            (self.new.taken.items
            ≡ self.old.taken.items ++ (record { sender = sender; frame = frame }) ∷ []) }
        ensures rings { OnOk result (HasRings self.new) }
    {
        let out = self.frame(sender, frame)?;
        self.hand_out(gate, out)?;
        self.tell_all(rt, gate)
    }
}
