//! Calls of `spk_edge`.
ghost use Rattle.std.specs.Prelude.{◌≡◌, true, false, IfOk, IfErr, OnErr, Err};
ghost use Rattle.std.specs.Option.{option_map};
ghost use Rattle.spk_payload.specs.Typing.{typed_view};
ghost use Rattle.spk_edge_rules.specs.Inputs as inputs;
ghost use Rattle.spk_edge.specs.Patch as patch;
ghost use Rattle.spk_refusals.specs.Wrong.{AreTurned, IsStampRepeated, IsTurnedAnswer, further_on, not_passed, with_other};

use crate::turning::{Turn, turn_packets};
use spk_device::{Alias, Registry};
use spk_edge::{EdgeConfig, EdgeFault, EdgeNode, Numbering, Out, Record};
use spk_payload::Value;
use std::alloc::Global;
use std::marker::Model;

/// A `spk_edge::EdgeNode`, and memory for wrong bodies.
#[derive(Drop)]
pub struct Edge {
    pub node: EdgeNode,
    pub alloc: Global,
}

impl Model for Edge {
    ghost use Rattle.spk_edge.specs.View.{NodeData};

    ghost Value = { NodeData };

    ghost view = { λ e. e.node };
}

impl Edge {
    /// `spk_edge::EdgeNode::accepted`.
    pub fn accepted(&mut self, now: u64) -> Result<Out, EdgeFault>
        ensures done { IfOk result (patch.IsDone self.old
            (patch.plain_input now inputs.Accepted) self.new) }
        ensures refused { IfErr result (patch.IsRefusal self.old
            (patch.plain_input now inputs.Accepted)) }
        ensures err { OnErr result (self.new ≡ self.old) }
    {
        self.node.accepted(now)
    }

    /// `spk_edge::EdgeNode::change`.
    pub fn change(
        &mut self,
        now: u64,
        alias: Alias,
        value: &Option<Value>,
    ) -> Result<Out, EdgeFault>
        ensures done { IfOk result (patch.IsDone self.old
            (patch.plain_input now (inputs.Change alias
            (option_map typed_view value.now))) self.new) }
        ensures refused { IfErr result (patch.IsRefusal self.old
            (patch.plain_input now (inputs.Change alias (option_map typed_view value.now)))) }
        ensures memory { IfErr result (patch.IsShort self.old
            (patch.plain_input now (inputs.Change alias (option_map typed_view value.now)))) }
        ensures err { OnErr result (self.new ≡ self.old) }
    {
        self.node.change(now, alias, value)
    }
}

/// Each packet of an answer is turned that can be; all else stays.
fn turned_out(alloc: Global, turn: Turn, out: Out) -> Out
    ensures packets { AreTurned turn out.packets.items result.packets.items }
    ensures writes { result.writes ≡ out.writes }
    ensures close { result.close ≡ out.close }
{
    let mut out = out;
    turn_packets(alloc, turn, &mut out.packets);
    out
}

fn turned_answer(
    alloc: Global,
    turn: Turn,
    answer: Result<Out, EdgeFault>,
) -> Result<Out, EdgeFault>
    ensures { IsTurnedAnswer turn answer result }
{
    match answer {
        Ok(out) => Ok(turned_out(alloc, turn, out)),
        Err(fault) => Err(fault),
    }
}

/// The births of devices have number 0, as if each device counted its own messages.
fn number_per_device(
    turns: bool,
    alloc: Global,
    answer: Result<Out, EdgeFault>,
) -> Result<Out, EdgeFault>
    ensures control { turns ≡ false → result ≡ answer }
    ensures turned { turns ≡ true → IsTurnedAnswer Turn.DeviceNumber answer result }
{
    if turns {
        turned_answer(alloc, Turn::DeviceNumber, answer)
    } else {
        answer
    }
}

/// The stamp of births is the last one again, where the clock isn't past it.
fn birth_repeats_stamp(
    turns: bool,
    alloc: Global,
    last: Option<u64>,
    now: u64,
    answer: Result<Out, EdgeFault>,
) -> Result<Out, EdgeFault>
    ensures control { turns ≡ false → result ≡ answer }
    ensures turned { turns ≡ true → IsStampRepeated (not_passed last now) answer result }
    ensures refusal { IfErr result (λ e. answer ≡ Err e) }
{
    match last {
        Some(stamp) if turns && now <= stamp => turned_answer(alloc, Turn::Stamp(stamp), answer),
        _ => answer,
    }
}

/// Another node, with names of its own and without metrics, that goes on with this one's record, one number further.
fn further_on(alloc: Global, node: &EdgeNode) -> Result<EdgeNode, EdgeFault>
    ensures made { IfOk result (λ n. n ≡ further_on node.now) }
    ensures fault { IfErr result (λ e. e ≡ EdgeFault.NoMemory) }
{
    let record = node.record();
    let start = Record {
        seq: record.seq.wrapping_add(1),
        bd: record.bd,
        stamp: record.stamp,
    };
    let config = EdgeConfig {
        group: String::from_str(alloc, "g")?,
        node: String::from_str(alloc, "n")?,
        primary: None,
        keep: 0,
        capacity: 1,
        numbering: Numbering::RunsOn,
    };
    EdgeNode::new(alloc, config, start, Registry::new(alloc))
}

/// A change that is kept spends a number: where more are kept than before, this one goes on in the node's place, a number further.
fn kept_change_takes_number(
    turns: bool,
    answer: Result<Out, EdgeFault>,
    node: &mut EdgeNode,
    kept: usize,
    other: Option<EdgeNode>,
) -> Result<Out, EdgeFault>
    ensures answer { result ≡ answer }
    ensures control { turns ≡ false → node.new ≡ node.old }
    ensures turned { turns ≡ true → node.new ≡ with_other kept other node.old }
{
    match other {
        Some(other) if turns && node.kept() > kept => {
            *node = other;
        }
        _ => {}
    }
    answer
}
