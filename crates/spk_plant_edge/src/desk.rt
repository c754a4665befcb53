//! An edge node with what it was told and what it gave.
ghost use Rattle.std.specs.Prelude.{◌≡◌, ◌+◌, List, [], ◌∷◌, length, ◌&&◌, ◌||◌, nat_lt, is_err, Ok, false, Some, None, if◌then◌else◌, OnErr, OnOk, IfErr, IfOk};
ghost use Rattle.spk_edge.specs.Patch.{IsRefusal};
ghost use Rattle.spk_edge.specs.View.{NodeData, act_view, input_view};
ghost use Rattle.spk_edge.specs.Along.{node_of};
ghost use Rattle.spk_edge_rules.specs.Config.{Setup};
ghost use Rattle.spk_edge_rules.specs.Inputs as inputs;
ghost use Rattle.spk_edge_rules.specs.Rules.{is_born, is_idle};
ghost use Rattle.spk_edge_rules.specs.Run.{right_at, run_of};
ghost use Rattle.spk_ingress.specs.Passes.{PutsInto};
ghost use Rattle.spk_rings.specs.Ring.{SameInlet, ahead, popped};
ghost use Rattle.spk_plant_edge.specs.At.{Goes, IsAt, IsOf, IsReadAs, Origin, PutsOn, Stands, input_in};
ghost use Rattle.spk_plant_edge.specs.Frames as frames;
ghost use Rattle.spk_plant_edge.specs.Log.{Asks, MayMove, Move, asked_at, inputs_of};
ghost use Rattle.spk_plant_edge.specs.Script.{Asked, is_refused};
ghost use Rattle.spk_plant_edge.specs.Taking.{IsTakenUp};
ghost use Rattle.spk_plant_edge.specs.Told.{told_act, told_view};
ghost use Rattle.spk_plant_edge.specs.Vain as vain;

use crate::fault::EdgeCause;
use crate::laws::stepping;
use crate::sending::Sender;
use crate::told::{Told, ToldAct};
use spk_edge::{Act, EdgeFault, EdgeNode, Input, Out, Phase, Published, Taken};
use spk_ingress::{Ingress, PutPass};
use spk_packets::{Packet, PacketFault, decode};
use spk_plan::Gate;
use spk_rings::{Inlet, Item};
use spk_state::{State, StateFault};
use std::alloc::{AllocError, Global};
use std::sync::Wait;

/// The moment of the first input.
const BEGIN: u64 = 1_000_000;

/// An edge node, its ring and its sender, what it was told and what it published.
#[derive(Drop)]
pub(crate) struct Desk {
    pub(crate) alloc: Global,
    pub(crate) node: EdgeNode,
    pub(crate) inputs: Vec<Told>,
    pub(crate) published: Vec<Published>,
    pub(crate) sender: Sender,
    pub(crate) inlet: Inlet,
    /// Whether the last STATE since a connection was opened was offline, or was refused.
    pub(crate) in_vain: bool,
}

/// Whether the connection is gone by this act.
fn is_cut(act: &Act<'_>) -> bool
    ensures { result ≡ frames.is_cut (act_view act.now) }
{
    match act {
        Act::Cut => true,
        _ => false,
    }
}

/// Whether the connection was gone by this act.
fn was_cut(act: &ToldAct) -> bool
    ensures { result ≡ frames.is_cut (told_act act.now) }
{
    match act {
        ToldAct::Cut => true,
        _ => false,
    }
}

/// Whether the connection is over by this act and what the node answered.
fn is_over(act: &ToldAct, out: &Out) -> bool
    ensures { result ≡ (frames.is_cut (told_act act.now) || out.now.close) }
{
    was_cut(act) || out.close
}

/// No packet, unless memory was refused.
fn unread(fault: PacketFault) -> Result<Option<Packet>, AllocError>
    ensures none { IfOk result (λ p. (p ≡ None) × (fault ≡ PacketFault.NoMemory → ⊥)) }
{
    match fault {
        PacketFault::NoMemory => Err(AllocError),
        _ => Ok(None),
    }
}

/// Want of memory is a fault; any other refusal of a node is not.
fn unless_memory(fault: EdgeFault) -> Result<(), AllocError>
    ensures other { OnOk result (fault ≡ EdgeFault.NoMemory → ⊥) }
{
    match fault {
        EdgeFault::NoMemory => Err(AllocError),
        _ => Ok(()),
    }
}

/// The packet that these bytes are, if they are one.
fn packet_of(alloc: Global, bytes: &[u8]) -> Result<Option<Packet>, AllocError>
    ensures read { IfOk result (λ p. IsReadAs bytes.now p) }
{
    let (packet, count) = match decode(alloc, bytes) {
        Ok(front) => front,
        Err(fault) => return unread(fault),
    };
    if count < bytes.len() {
        return Ok(None);
    }
    Ok(Some(packet))
}

/// Whether a STATE says that its host is offline, or can't be read.
fn is_offline(alloc: Global, payload: &[u8]) -> Result<bool, AllocError>
    ensures offline { IfOk result (λ b. b ≡ vain.is_offline payload.now) }
{
    match State::decode(alloc, payload) {
        Ok(state) => Ok(!state.online),
        Err(StateFault::NoMemory) => Err(AllocError),
        Err(StateFault::BadState) => Ok(true),
    }
}

/// Tells a node an input, and takes its plan up.
fn taken_up(node: &mut EdgeNode, input: Input<'_>) -> Result<Taken, EdgeFault>
    ensures taken { IfOk result (IsTakenUp node.old (input_view input.entry) node.new) }
    ensures refused { IfErr result (IsRefusal node.old (input_view input.entry)) }
    ensures err { OnErr result (node.new ≡ node.old) }
{
    let plan = node.plan(input)?;
    Ok(plan.take_up())
}

impl Desk {
    /// A node that was told nothing.
    pub(crate) fn new(
        alloc: Global,
        node: EdgeNode,
        pass: PutPass,
        place: usize,
        inlet: Inlet,
    ) -> Desk
        ensures begun { (s : Setup) → node ≡ node_of s []
            → IsAt (record { setup = s; pass = pass; inlet = inlet }) [] result }
        ensures pass { result.sender.pass ≡ pass }
    {
        Desk {
            alloc,
            node,
            inputs: Vec::new(alloc),
            published: Vec::new(alloc),
            sender: Sender {
                pass,
                place,
                count: 0,
                cuts: 0,
            },
            inlet,
            in_vain: false,
        }
    }

    /// The moment of the next input.
    fn now(&self) -> u64
        ensures { result ≡ 1000000 + length self.now.inputs.items }
    {
        BEGIN + self.inputs.len() as u64
    }

    /// The moment of an act of the script: a cut has the moment 0.
    fn moment_of(&self, act: &Act<'_>) -> u64
        ensures { result ≡ (if frames.is_cut (act_view act.now) then 0
            else 1000000 + length self.now.inputs.items) }
    {
        if is_cut(act) {
            return 0;
        }
        self.now()
    }

    /// The input that a packet is; bytes that are none ask for nothing.
    fn input_for<'a>(&self, now: u64, packet: &'a Option<Packet>) -> Input<'a>
        ensures { input_view result ≡ input_in self.now.node.config now packet.now }
    {
        match packet {
            Some(packet) => self.node.input_of(now, packet),
            None => Input {
                now,
                ack: None,
                act: Act::Pass,
            },
        }
    }

    /// Whether a node that was told this would wait for its births in vain.
    fn waits_in_vain(&self, act: &ToldAct, refused: bool) -> Result<bool, AllocError>
        ensures vain { IfOk result
            (λ b. b ≡ vain.vain_after (told_act act.now) refused self.now.in_vain) }
    {
        match act {
            ToldAct::Open => Ok(refused && self.in_vain),
            ToldAct::State(payload) => Ok(refused || is_offline(self.alloc, payload.as_slice())?),
            _ => Ok(self.in_vain),
        }
    }

    /// What was taken up is published, and put: its packets, then Cut where the connection is gone or closed by it.
    fn put<R: Wait, G: Gate>(
        &mut self,
        rt: &R,
        gate: &G,
        ingress: &Ingress,
        told: Told,
        taken: Taken,
    ) -> Result<(), EdgeCause>
        requires { PutsInto ingress.now self.old.sender.pass }
        ensures pass { PutsOn ingress.now self.old.sender.pass self.new.sender.pass }
        ensures taken { OnOk result ((o : Origin) (is : List inputs.Input) (n : NodeData)
            → Stands o is (record self.old { node = n })
            → IsTakenUp n (told_view told) self.old.node taken
            → Stands o (told_view told ∷ is) self.new) }
        ensures inlet { self.new.inlet ≡ self.old.inlet }
    {
        stepping();
        let in_vain = self.waits_in_vain(&told.act, false)?;
        self.in_vain = in_vain;
        let Taken { out, mut messages } = taken;
        let is_over = is_over(&told.act, &out);
        self.inputs.push(told)?;
        self.published.append(&mut messages)?;
        self.sender
            .put_answer(rt, gate, ingress, self.alloc, out.packets, is_over)?;
        Ok(())
    }

    /// Tells the node an input, and puts what it answers. Answers whether the node refused it; want of memory is a fault.
    fn tell<R: Wait, G: Gate>(
        &mut self,
        rt: &R,
        gate: &G,
        ingress: &Ingress,
        input: Input<'_>,
    ) -> Result<bool, EdgeCause>
        requires { PutsInto ingress.now self.old.sender.pass }
        ensures pass { PutsOn ingress.now self.old.sender.pass self.new.sender.pass }
        ensures told { IfOk result
            (λ refused. (o : Origin) (is : List inputs.Input) → Stands o is self.old
            → Stands o (input_view input.entry ∷ is) self.new
            × (refused ≡ is_err (right_at o.setup (run_of o.setup is) (input_view input.entry)))) }
        ensures inlet { self.new.inlet ≡ self.old.inlet }
    {
        stepping();
        let told = Told::of(self.alloc, input)?;
        let taken = match taken_up(&mut self.node, input) {
            Ok(taken) => taken,
            Err(fault) => {
                unless_memory(fault)?;
                let in_vain = self.waits_in_vain(&told.act, true)?;
                self.in_vain = in_vain;
                self.inputs.push(told)?;
                return Ok(true);
            }
        };
        self.put(rt, gate, ingress, told, taken)?;
        Ok(false)
    }

    /// Asks the node to do an act of the script. Answers whether the node refused it.
    pub(crate) fn ask<R: Wait, G: Gate>(
        &mut self,
        rt: &R,
        gate: &G,
        ingress: &Ingress,
        act: Act<'_>,
    ) -> Result<bool, EdgeCause>
        requires { PutsInto ingress.now self.old.sender.pass }
        ensures pass { PutsOn ingress.now self.old.sender.pass self.new.sender.pass }
        ensures asked { IfOk result (λ refused. Goes (λ s before after.
            (after ≡ Asks (asked_at before (act_view act.entry)) ∷ before)
            × (refused ≡ is_refused s before (asked_at before (act_view act.entry)))) self.old
            self.new) }
        ensures inlet { self.new.inlet ≡ self.old.inlet }
    {
        let now = self.moment_of(&act);
        let input = Input {
            now,
            ack: None,
            act,
        };
        let refused = self.tell(rt, gate, ingress, input)?;
        Ok(refused)
    }

    /// The node hears a packet, or bytes that are none, which ask for nothing.
    fn hear_packet<R: Wait, G: Gate>(
        &mut self,
        rt: &R,
        gate: &G,
        ingress: &Ingress,
        packet: &Option<Packet>,
    ) -> Result<(), EdgeCause>
        requires { PutsInto ingress.now self.old.sender.pass }
        ensures pass { PutsOn ingress.now self.old.sender.pass self.new.sender.pass }
        ensures heard { OnOk result ((o : Origin) (is : List inputs.Input) → Stands o is self.old
            → Stands o (input_in o.setup.config (1000000 + length is) packet.now ∷ is) self.new) }
        ensures inlet { self.new.inlet ≡ self.old.inlet }
    {
        let input = self.input_for(self.now(), packet);
        self.tell(rt, gate, ingress, input)?;
        Ok(())
    }

    /// The node hears an item, unless it is of a connection that was ended since.
    fn hear<R: Wait, G: Gate>(
        &mut self,
        rt: &R,
        gate: &G,
        ingress: &Ingress,
        item: Item,
    ) -> Result<(), EdgeCause>
        requires { PutsInto ingress.now self.old.sender.pass }
        ensures pass { PutsOn ingress.now self.old.sender.pass self.new.sender.pass }
        ensures heard { OnOk result
            ((o : Origin) (log : List Move) → Stands o (inputs_of log) self.old
            → (move : Move) × Stands o (inputs_of (move ∷ log)) self.new × MayMove o.setup log move
            × IsOf item move) }
        ensures inlet { self.new.inlet ≡ self.old.inlet }
    {
        if item.cuts < self.sender.cuts {
            return Ok(());
        }
        let whole = item.bytes.joined(self.alloc)?;
        let packet = packet_of(self.alloc, whole.as_slice())?;
        self.hear_packet(rt, gate, ingress, &packet)?;
        Ok(())
    }

    /// Takes one item out of the ring, if there is one, and hears it. Answers whether there was one.
    fn read_one<R: Wait, G: Gate>(
        &mut self,
        rt: &R,
        gate: &G,
        ingress: &Ingress,
    ) -> Result<bool, EdgeCause>
        requires { PutsInto ingress.now self.old.sender.pass }
        ensures pass { PutsOn ingress.now self.old.sender.pass self.new.sender.pass }
        ensures read { OnOk result
            (Goes (λ s before after. Asked [] before after) self.old self.new) }
        ensures none { result ≡ Ok false → ahead self.new.inlet ≡ [] }
    {
        let Some(item) = self.inlet.next() else {
            return Ok(false);
        };
        self.hear(rt, gate, ingress, item)?;
        Ok(true)
    }

    /// Reads the ring until nothing is in it.
    pub(crate) fn read<R: Wait, G: Gate>(
        &mut self,
        rt: &R,
        gate: &G,
        ingress: &Ingress,
    ) -> Result<(), EdgeCause>
        requires { PutsInto ingress.now self.old.sender.pass }
        ensures pass { PutsOn ingress.now self.old.sender.pass self.new.sender.pass }
        ensures read { OnOk result
            (Goes (λ s before after. Asked [] before after) self.old self.new) }
        ensures emptied { OnOk result (ahead self.new.inlet ≡ []) }
    {
        for _ in rt.forever() {
            if !self.read_one(rt, gate, ingress)? {
                return Ok(());
            }
        }
        unreachable!()
    }

    /// Whether the ring's other end was dropped.
    pub(crate) fn is_ring_gone(&mut self) -> bool
        ensures same { (o : Origin) (log : List Move) → IsAt o log self.old → IsAt o log self.new }
        ensures rest { self.new.sender ≡ self.old.sender }
    {
        self.inlet.gone()
    }

    /// Whether there is nothing to wait for: the node is born or idle, or its host is offline.
    pub(crate) fn is_settled(&self) -> bool
        ensures { result ≡ (self.now.in_vain || is_born self.now.node.standing.asked.phase
            || is_idle self.now.node.standing.asked.phase) }
    {
        self.in_vain || self.node.phase() == Phase::Born || self.node.phase() == Phase::Idle
    }

    /// Whether kept changes can be sent.
    pub(crate) fn may_drain(&self) -> bool
        ensures { result ≡ (is_born self.now.node.standing.asked.phase
            && nat_lt 0 (length self.now.node.standing.asked.store.items)) }
    {
        self.node.phase() == Phase::Born && self.node.kept() > 0
    }
}
