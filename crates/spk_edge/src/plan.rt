//! What an input comes to: a plan makes all growths, and what it plans is taken up without memory.
ghost use Rattle.std.specs.Prelude.{◌≡◌, ◌⊎◌, ◌+◌, ◌++◌, ◌^◌, ◌<◌, IfOk, IfErr, OnOk, OnErr, is_none, length, map, true, false, nat_lt, Ok, Err};
ghost use Rattle.std.specs.List.{AllByRecursion, list_all, last_or};
ghost use Rattle.std.specs.Option.{option_map};
ghost use Rattle.spk_payload.specs.Typing.{typed_view};
ghost use Rattle.spk_packets.specs.Spelling.{spelling};
ghost use Rattle.spk_packets.specs.View.{view};
ghost use Rattle.spk_edge_rules.specs.Writable.{is_writable};
ghost use Rattle.spk_edge_rules.specs.Inputs as inputs;
ghost use Rattle.spk_edge_rules.specs.Rules as rule;
ghost use Rattle.spk_edge_rules.specs.Step as step;
ghost use Rattle.spk_edge.specs.Patch as patch;
ghost use Rattle.spk_edge.specs.Sealing as seal;
ghost use Rattle.spk_edge.specs.View.{act_view, given_of, given_view, input_view, kept_view, message_view, numbering_view};

use crate::command::orders_of;
use crate::input::{Act, Input};
use crate::message::{Given, Keeping, Out, Published};
use crate::node::{EdgeNode, Tally};
use crate::sealing::{number, written_messages, written_packets};
use crate::values::copied;
use spk_device::{Alias, Outcome, Registry};
use spk_edge_rules::{EdgeFault, Phase};
use spk_packets::Packet;
use spk_payload::Value;
use spk_state::Primary;
use spk_store::Store;
use std::alloc::{AllocError, Global};
use std::fmt;

/// The first moment that isn't one.
pub(crate) const END: u64 = 1 << 63;

/// What is set in the registry.
#[derive(Drop)]
pub(crate) enum Setting {
    Nothing,
    Value(Alias, Option<Value>),
    Turn(String, bool),
}

/// What an input comes to: what is answered, and what changes.
#[derive(Drop)]
pub struct Plan {
    pub(crate) out: Out,
    pub(crate) messages: Vec<Published>,
    pub(crate) tally: Tally,
    pub(crate) setting: Setting,
    pub(crate) kept: Keeping,
}

impl fmt::Debug for Plan {
    fn fmt<W: fmt::Write>(&self, f: &mut fmt::Formatter<W>) -> fmt::Result {
        f.write_str("Plan { .. }")
    }
}

/// What was taken up: what is answered, and what was published. The last of the packets are the messages' bytes.
#[derive(Debug, PartialEq, Drop)]
pub struct Taken {
    pub out: Out,
    pub messages: Vec<Published>,
}

/// Whether all stamps are below the end.
fn are_timely(messages: &[Published]) -> bool
    ensures { result ≡ list_all (λ m. nat_lt m.stamp (2 ^ 63)) (map message_view messages.now) }
{
    let mut timely = true;
    for message in messages {
        timely = timely && message.stamp < END;
    }
    timely
}

/// Plain packets, and behind them the messages, as bytes.
fn packets(
    alloc: Global,
    plain: &[Packet],
    messages: &[Published],
) -> Result<Vec<Vec<u8>>, EdgeFault>
    requires { AllByRecursion (λ m. seal.AreKnown (message_view m).payload.metrics) messages.now }
    ensures bytes { IfOk result (λ out. map seal.bytes_of out.items
        ≡ map spelling (map view plain.now ++ map (λ m. seal.wire_of
        (message_view m)) messages.now)) }
    ensures writable { OnOk result (list_all is_writable
        (map view plain.now ++ map (λ m. seal.wire_of (message_view m)) messages.now) ≡ true) }
    ensures whole { OnOk result (seal.AreWhole (map message_view messages.now)) }
    ensures fault { IfErr result (seal.IsUnwritten
        (map view plain.now ++ map (λ m. seal.wire_of (message_view m)) messages.now)) }
    ensures memory { OnErr result (0 < length plain.now + length messages.now) }
{
    if plain.is_empty() && messages.is_empty() {
        return Ok(Vec::new(alloc));
    }
    if plain.is_empty() {
        return written_messages(alloc, messages);
    }
    let mut out = written_packets(alloc, plain)?;
    if messages.is_empty() {
        return Ok(out);
    }
    let mut more = written_messages(alloc, messages)?;
    out.append(&mut more)?;
    Ok(out)
}

/// The stamp of the last message, or else the one before.
fn last_stamp(before: Option<u64>, messages: &[Published]) -> Option<u64>
    ensures { result ≡ last_or before (map (λ m. m.stamp) (map message_view messages.now)) }
{
    let mut last = before;
    for message in messages {
        last = Some(message.stamp);
    }
    last
}

/// Whether a connection is to be opened.
fn is_open(act: &Act<'_>) -> bool
    ensures { result ≡ step.is_open (act_view act.now) }
{
    match act {
        Act::Open => true,
        _ => false,
    }
}

/// Sets what is to be set.
pub(crate) fn set(registry: &mut Registry, setting: Setting)
    ensures { registry.new ≡ patch.setting_book registry.old setting }
{
    match setting {
        Setting::Nothing => {}
        Setting::Value(alias, value) => {
            let _ = registry.set(alias, value);
        }
        Setting::Turn(name, true) => {
            let _ = registry.device_up(name.as_str());
        }
        Setting::Turn(name, false) => {
            let _ = registry.device_down(name.as_str());
        }
    }
}

/// Does to the kept changes what is to be done.
pub(crate) fn keep(store: &mut Store, keeping: Keeping)
    ensures { kept_view store.new ≡ patch.kept_after (kept_view store.old) keeping }
{
    match keeping {
        Keeping::Nothing => {}
        Keeping::Push(change) => {
            store.push(change);
        }
        Keeping::DropFront(count, is_lost) => {
            let count = count.min(store.len());
            store.drop_front(count, is_lost);
        }
    }
}

/// What came at QoS 1 is acknowledged first.
fn acked(given: Given, ack: Option<u16>) -> Result<Given, AllocError>
    ensures acked { IfOk result (λ g. given_view g ≡ patch.acked_data ack (given_view given)) }
    ensures memory { OnErr result (is_none ack ≡ false) }
{
    let mut given = given;
    if let Some(id) = ack {
        given.plain.insert(0, Packet::PubAck { id })?;
    }
    Ok(given)
}

impl EdgeNode {
    /// What a value of a metric sets: nothing where it is the present one, so that no equal value is copied.
    fn value_set(&self, alias: Alias, value: &Option<Value>) -> Result<Setting, AllocError>
        ensures set { IfOk result (patch.IsSetBy self.now.standing.asked.book
            (inputs.Change alias (option_map typed_view value.now))) }
        ensures memory { OnErr result (rule.is_same_value self.now.standing.asked.book alias
            (option_map typed_view value.now) ≡ false) }
    {
        match self.registry.would_set(alias, value) {
            Ok(Outcome::Changed) => Ok(Setting::Value(alias, copied(self.alloc, value)?)),
            Ok(Outcome::Same) => Ok(Setting::Nothing),
            Err(_refused) => Ok(Setting::Nothing),
        }
    }

    /// What an act sets.
    fn set_by(&self, act: &Act<'_>) -> Result<Setting, AllocError>
        ensures set { IfOk result (patch.IsSetBy self.now.standing.asked.book (act_view act.now)) }
        ensures memory { OnErr result (patch.is_still self.now.standing.asked (act_view act.now)
            ≡ false) }
    {
        match act {
            Act::Change(alias, value) => self.value_set(*alias, value),
            Act::Device(name, up) => Ok(Setting::Turn(String::from_str(self.alloc, name)?, *up)),
            _ => Ok(Setting::Nothing),
        }
    }

    /// What it counts after an input that gave these messages, when this number comes next.
    fn tally_after(
        &self,
        input: Input<'_>,
        phase: Phase,
        heard: Primary,
        messages: &[Published],
        seq: u8,
    ) -> Tally
        ensures { patch.IsTallyAfter self.now.standing.asked (input_view input.entry) phase heard
            (map message_view messages.now) seq result }
    {
        let mut tally = Tally {
            phase,
            heard,
            stamp: last_stamp(self.tally.stamp, messages),
            seq,
            bd: self.tally.bd,
            will_bd: self.tally.will_bd,
            will_time: self.tally.will_time,
        };
        if is_open(&input.act) {
            tally.bd = self.tally.bd.wrapping_add(1);
            tally.will_bd = self.tally.bd;
            tally.will_time = input.now;
        }
        tally
    }

    /// The plan of what was given.
    fn sealed(&self, input: Input<'_>, given: Given, setting: Setting) -> Result<Plan, EdgeFault>
        requires { AllByRecursion (λ m. seal.AreKnown m.payload.metrics)
            (map message_view given.messages.items) }
        ensures sealed { IfOk result (patch.IsSealed self.now (input_view input.entry)
            (given_view given) setting) }
        ensures fault { IfErr result (patch.IsUnsealed self.now (given_view given)) }
        ensures memory { OnErr result (0 < length (given_view given).plain
            + length (given_view given).messages) }
    {
        if !are_timely(&given.messages) {
            return Err(EdgeFault::ClockEnd);
        }
        let mut messages = given.messages;
        let seq = number(&mut messages, self.config.numbering, self.tally.seq);
        let packets = packets(self.alloc, &given.plain, &messages)?;
        let tally = self.tally_after(input, given.phase, given.heard, &messages, seq);
        Ok(Plan {
            out: Out {
                packets,
                writes: given.writes,
                close: given.close,
            },
            messages,
            tally,
            setting,
            kept: given.kept,
        })
    }

    /// What a plan says is so from now on.
    pub(crate) fn take(&mut self, plan: Plan) -> Taken
        ensures data { self.new ≡ patch.patched self.old plan }
        ensures out { result.out ≡ plan.out }
        ensures messages { result.messages ≡ plan.messages }
    {
        let Plan {
            out,
            messages,
            tally,
            setting,
            kept,
        } = plan;
        set(&mut self.registry, setting);
        keep(&mut self.store, kept);
        self.tally = tally;
        Taken { out, messages }
    }

    /// Whether an act is taken in the present phase.
    pub(crate) fn fits(&self, act: &Act<'_>) -> bool
        ensures { result ≡ rule.fits self.now.standing.asked.phase (act_view act.now) }
    {
        match act {
            Act::Open => self.tally.phase == Phase::Idle,
            Act::Accepted => self.tally.phase == Phase::Connecting,
            Act::Drain => self.tally.phase == Phase::Born,
            Act::Stop | Act::Command(_, _) | Act::State(_) => self.tally.phase == Phase::Waiting
                || self.tally.phase == Phase::Born,
            Act::Change(_, _) | Act::Device(_, _) | Act::Cut | Act::TurnedAway | Act::Pass => true,
        }
    }

    /// What the act gives.
    fn given(&self, input: Input<'_>) -> Result<Given, EdgeFault>
        ensures given { IfOk result (patch.IsGivenBy self.now (input_view input.entry)) }
        ensures fault { IfErr result (patch.IsRefusedBy self.now (input_view input.entry)) }
        ensures memory { IfErr result (λ e. e ≡ EdgeFault.NoMemory
            → patch.is_still self.now.standing.asked (input_view input.entry).act ≡ false) }
    {
        match input.act {
            Act::Open => Ok(self.opening(input.now)?),
            Act::Accepted => self.accepting(input.now),
            Act::Change(alias, value) => self.changing(input.now, alias, value),
            Act::Device(name, up) => self.turning(input.now, name, up),
            Act::Command(topic, payload) => {
                let orders = orders_of(self.alloc, &self.config, &self.registry, topic, payload)?;
                self.obeying(input.now, orders)
            }
            Act::State(payload) => self.stating(input.now, payload),
            Act::Drain => Ok(self.draining(input.now)?),
            Act::Stop => Ok(self.leaving()?),
            Act::Cut => Ok(self.cutting()),
            Act::TurnedAway => Ok(self.turned_away()),
            Act::Pass => Ok(self.nothing()),
        }
    }

    /// What an input comes to, with all growths made.
    pub(crate) fn planned(&self, input: Input<'_>) -> Result<Plan, EdgeFault>
        ensures planned { IfOk result (patch.IsPlan self.now (input_view input.entry)) }
        ensures refused { IfErr result (patch.IsRefusal self.now (input_view input.entry)) }
        ensures memory { IfErr result (patch.IsShort self.now (input_view input.entry)) }
    {
        if !self.fits(&input.act) {
            return Err(EdgeFault::WrongPhase);
        }
        if input.now >= END {
            return Err(EdgeFault::ClockEnd);
        }
        if let Act::Change(alias, value) = input.act {
            if input.ack.is_none() {
                return self.change_plan(input.now, alias, value);
            }
        }
        let given = self.given(input)?;
        let given = acked(given, input.ack)?;
        let setting = self.set_by(&input.act)?;
        self.sealed(input, given, setting)
    }
}
