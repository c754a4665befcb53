//! The plan of a change of a metric, made from what the change says: it is sent, kept or only set.
ghost use Rattle.std.specs.Prelude.{◌≡◌, ◌⊎◌, ◌∷◌, ◌+◌, ◌%◌, ◌^◌, ◌<◌, [], map, IfOk, IfErr, OnOk, Some, None, true, false};
ghost use Rattle.std.specs.Option.{option_map};
ghost use Rattle.spk_payload.specs.Typing.{typed_view};
ghost use Rattle.spk_packets.specs.Spelling.{spelling};
ghost use Rattle.spk_device.specs.Step.{set_refusal};
ghost use Rattle.spk_edge_rules.specs.Writable.{is_writable};
ghost use Rattle.spk_edge_rules.specs.Births as births;
ghost use Rattle.spk_edge_rules.specs.Rules as rule;
ghost use Rattle.spk_edge.specs.Changing as done;
ghost use Rattle.spk_edge.specs.Patch as patch;
ghost use Rattle.spk_edge.specs.Sealing as seal;
ghost use Rattle.spk_edge.specs.View.{change_view, message_view};

use crate::message::{Keeping, Out, Published};
use crate::node::{EdgeNode, Tally};
use crate::packet::Saying;
use crate::plan::{END, Plan, Setting};
use crate::values::copied;
use spk_device::{Alias, Outcome};
use spk_edge_rules::{EdgeFault, Phase};
use spk_packets::laws::spelling_spells;
use spk_payload::{Metric, Payload, Value};

/// A message, and its bytes.
#[derive(Drop)]
struct Sent {
    message: Published,
    packet: Vec<u8>,
}

impl EdgeNode {
    /// What it counts, when a message with this stamp was sent.
    fn tally_sent(&self, stamp: u64) -> Tally
        ensures { done.IsSentTally self.now stamp result }
    {
        let mut tally = self.tally;
        tally.stamp = Some(stamp);
        tally.seq = tally.seq.wrapping_add(1);
        tally
    }

    /// The message of a change, under the number that comes next, and its bytes.
    fn change_sent(&self, now: u64, alias: Alias, value: &Option<Value>) -> Result<Sent, EdgeFault>
        requires { done.Asks self.now now alias (option_map typed_view value.now)
            (done.sent self.now.standing.asked now alias (option_map typed_view value.now)) }
        ensures message { IfOk result (λ s. message_view s.message
            ≡ done.change_message self.now now alias (option_map typed_view value.now)) }
        ensures bytes { IfOk result (λ s. seal.bytes_of s.packet
            ≡ spelling (done.change_wire self.now now alias (option_map typed_view value.now))) }
        ensures writable { OnOk result (is_writable
            (done.change_wire self.now now alias (option_map typed_view value.now)) ≡ true) }
        ensures whole { OnOk result (seal.IsWhole
            (done.change_message self.now now alias (option_map typed_view value.now))) }
        ensures fault { IfErr result (λ e. (e ≡ EdgeFault.NoMemory) ⊎ ((e ≡ EdgeFault.TooLarge)
            × (is_writable (done.change_wire self.now now alias (option_map typed_view value.now))
            ≡ false))) }
    {
        spelling_spells();
        let owner = self.owner(alias);
        let topic = self.data_topic(owner)?;
        let raw = self.value_written(alias, value)?;
        let stamp = self.later_stamp(now);
        let null = value.is_none();
        let saying = Saying {
            group: self.config.group.as_str(),
            node: self.config.node.as_str(),
            device: self.device_of(owner),
            alias,
            stamp,
            seq: self.tally.seq,
            null,
            value: &raw,
        };
        let packet = saying.packet(self.alloc)?;
        let mut metrics = Vec::with_capacity(self.alloc, 1)?;
        metrics.push(Metric {
            name: None,
            alias: Some(alias),
            timestamp: Some(stamp),
            datatype: None,
            historical: None,
            transient: None,
            null: if null { Some(true) } else { None },
            value: raw,
        })?;
        let message = Published {
            topic,
            payload: Payload {
                timestamp: Some(stamp),
                metrics,
                seq: Some(u64::from(self.tally.seq)),
            },
            stamp,
            opens: false,
        };
        Ok(Sent { message, packet })
    }
    /// A plan that gives nothing and sets this.
    fn still_plan(&self, setting: Setting) -> Plan
        ensures packets { result.out.packets.items ≡ [] }
        ensures writes { result.out.writes.items ≡ [] }
        ensures close { result.out.close ≡ false }
        ensures messages { result.messages.items ≡ [] }
        ensures tally { done.IsTally self.now result.tally }
        ensures set { result.setting ≡ setting }
        ensures kept { result.kept ≡ Keeping.Nothing }
    {
        Plan {
            out: Out {
                packets: Vec::new(self.alloc),
                writes: Vec::new(self.alloc),
                close: false,
            },
            messages: Vec::new(self.alloc),
            tally: self.tally,
            setting,
            kept: Keeping::Nothing,
        }
    }

    /// The plan of a change that a Born node sends.
    fn sent_plan(&self, now: u64, alias: Alias, value: &Option<Value>) -> Result<Plan, EdgeFault>
        requires moment { now < 2 ^ 63 }
        requires accepted { set_refusal self.now.standing.asked.book alias
            (option_map typed_view value.now) ≡ None }
        requires asked { done.Asks self.now now alias (option_map typed_view value.now)
            (done.sent self.now.standing.asked now alias (option_map typed_view value.now)) }
        ensures planned { IfOk result (patch.IsPlan self.now
            (done.change_of now alias (option_map typed_view value.now))) }
        ensures refused { IfErr result (patch.IsRefusal self.now
            (done.change_of now alias (option_map typed_view value.now))) }
    {
        let stamp = self.later_stamp(now);
        if stamp >= END {
            return Err(EdgeFault::ClockEnd);
        }
        let Sent { message, packet } = self.change_sent(now, alias, value)?;
        let mut packets = Vec::with_capacity(self.alloc, 1)?;
        packets.push(packet)?;
        let mut messages = Vec::with_capacity(self.alloc, 1)?;
        messages.push(message)?;
        let value = copied(self.alloc, value)?;
        Ok(Plan {
            out: Out {
                packets,
                writes: Vec::new(self.alloc),
                close: false,
            },
            messages,
            tally: self.tally_sent(stamp),
            setting: Setting::Value(alias, value),
            kept: Keeping::Nothing,
        })
    }

    /// The plan of a change that a node keeps which isn't Born.
    fn kept_plan(&self, now: u64, alias: Alias, value: &Option<Value>) -> Result<Plan, EdgeFault>
        requires moment { now < 2 ^ 63 }
        requires accepted { set_refusal self.now.standing.asked.book alias
            (option_map typed_view value.now) ≡ None }
        requires asked { done.Asks self.now now alias (option_map typed_view value.now)
            (done.kept self.now.standing.asked now alias (option_map typed_view value.now)) }
        ensures planned { IfOk result (patch.IsPlan self.now
            (done.change_of now alias (option_map typed_view value.now))) }
        ensures fault { IfErr result (λ e. e ≡ EdgeFault.NoMemory) }
    {
        let change = self.kept_change(now, alias, value)?;
        let value = copied(self.alloc, value)?;
        let mut plan = self.still_plan(Setting::Value(alias, value));
        plan.kept = Keeping::Push(change);
        Ok(plan)
    }

    /// The plan of a change of a device that is down.
    fn set_plan(&self, now: u64, alias: Alias, value: &Option<Value>) -> Result<Plan, EdgeFault>
        requires moment { now < 2 ^ 63 }
        requires accepted { set_refusal self.now.standing.asked.book alias
            (option_map typed_view value.now) ≡ None }
        requires asked { done.Asks self.now now alias (option_map typed_view value.now)
            (rule.nothing self.now.standing.asked) }
        ensures planned { IfOk result (patch.IsPlan self.now
            (done.change_of now alias (option_map typed_view value.now))) }
        ensures fault { IfErr result (λ e. e ≡ EdgeFault.NoMemory) }
    {
        let value = copied(self.alloc, value)?;
        Ok(self.still_plan(Setting::Value(alias, value)))
    }

    /// The plan of a change to another value.
    fn another_plan(&self, now: u64, alias: Alias, value: &Option<Value>) -> Result<Plan, EdgeFault>
        requires moment { now < 2 ^ 63 }
        requires accepted { set_refusal self.now.standing.asked.book alias
            (option_map typed_view value.now) ≡ None }
        requires another { rule.is_same_value self.now.standing.asked.book alias
            (option_map typed_view value.now) ≡ false }
        ensures planned { IfOk result (patch.IsPlan self.now
            (done.change_of now alias (option_map typed_view value.now))) }
        ensures refused { IfErr result (patch.IsRefusal self.now
            (done.change_of now alias (option_map typed_view value.now))) }
    {
        if !self.is_owner_up(self.owner(alias)) {
            return self.set_plan(now, alias, value);
        }
        if let Phase::Born = self.tally.phase {
            return self.sent_plan(now, alias, value);
        }
        self.kept_plan(now, alias, value)
    }

    /// The plan of a change at a moment.
    pub(crate) fn change_plan(
        &self,
        now: u64,
        alias: Alias,
        value: &Option<Value>,
    ) -> Result<Plan, EdgeFault>
        requires { now < 2 ^ 63 }
        ensures planned { IfOk result (patch.IsPlan self.now
            (done.change_of now alias (option_map typed_view value.now))) }
        ensures refused { IfErr result (patch.IsRefusal self.now
            (done.change_of now alias (option_map typed_view value.now))) }
        ensures memory { IfErr result (patch.IsShort self.now
            (done.change_of now alias (option_map typed_view value.now))) }
    {
        match self.registry.would_set(alias, value) {
            Ok(Outcome::Changed) => self.another_plan(now, alias, value),
            Ok(Outcome::Same) => Ok(self.still_plan(Setting::Nothing)),
            Err(refusal) => Err(EdgeFault::Device(refusal)),
        }
    }
}
