//! A change of a metric, done at once: it is sent, kept or only set, and no plan of it is made.
ghost use Rattle.std.specs.Prelude.{◌≡◌, ◌⊎◌, ◌^◌, ◌<◌, [], IfOk, IfErr, OnOk, OnErr, None, Some, true, false};
ghost use Rattle.std.specs.Option.{option_map};
ghost use Rattle.spk_payload.specs.Typing.{typed_view};
ghost use Rattle.spk_packets.specs.Spelling.{spelling};
ghost use Rattle.spk_device.specs.Step.{set_refusal};
ghost use Rattle.spk_store.specs.Step.{after_push};
ghost use Rattle.spk_edge_rules.specs.Writable.{is_writable};
ghost use Rattle.spk_edge_rules.specs.Births as births;
ghost use Rattle.spk_edge_rules.specs.Rules as rule;
ghost use Rattle.spk_edge.specs.Changing as done;
ghost use Rattle.spk_edge.specs.Patch as patch;
ghost use Rattle.spk_edge.specs.Sealing as seal;
ghost use Rattle.spk_edge.specs.View.{change_view};

use crate::message::{Keeping, Out};
use crate::node::EdgeNode;
use crate::packet::Saying;
use crate::plan::{END, Setting, keep, set};
use crate::values::copied;
use spk_device::{Alias, Outcome};
use spk_edge_rules::{EdgeFault, Phase};
use spk_packets::laws::spelling_spells;
use spk_payload::Value;
use spk_store::Change;

impl EdgeNode {
    /// What a call answers that gives these packets and nothing else.
    pub(crate) fn answer(&self, packets: Vec<Vec<u8>>) -> Out
        ensures packets { result.packets ≡ packets }
        ensures writes { result.writes.items ≡ [] }
        ensures close { result.close ≡ false }
    {
        Out {
            packets,
            writes: Vec::new(self.alloc),
            close: false,
        }
    }

    /// What a call answers that gives nothing.
    pub(crate) fn silence(&self) -> Out
        ensures packets { result.packets.items ≡ [] }
        ensures writes { result.writes.items ≡ [] }
        ensures close { result.close ≡ false }
    {
        self.answer(Vec::new(self.alloc))
    }

    /// The value is set, and nothing else changes.
    pub(crate) fn put_value(&mut self, alias: Alias, value: Option<Value>)
        ensures { self.new ≡ done.with_book self.old
            (patch.setting_book self.old.standing.asked.book (Setting.Value alias value)) }
    {
        set(&mut self.registry, Setting::Value(alias, value));
    }

    /// A message with this stamp was sent.
    pub(crate) fn count_sent(&mut self, stamp: u64)
        ensures { self.new ≡ done.with_sent self.old stamp }
    {
        self.tally.stamp = Some(stamp);
        self.tally.seq = self.tally.seq.wrapping_add(1);
    }

    /// A change is kept.
    pub(crate) fn keep_one(&mut self, change: Change)
        ensures { self.new ≡ done.with_store self.old
            (after_push self.old.standing.asked.store (change_view change)) }
    {
        keep(&mut self.store, Keeping::Push(change));
    }

    /// The bytes of the message of a change, under the number that comes next.
    fn change_packet(
        &self,
        now: u64,
        alias: Alias,
        value: &Option<Value>,
    ) -> Result<Vec<u8>, EdgeFault>
        requires { done.Asks self.now now alias (option_map typed_view value.now)
            (done.sent self.now.standing.asked now alias (option_map typed_view value.now)) }
        ensures bytes { IfOk result (λ v. seal.bytes_of v
            ≡ spelling (done.change_wire self.now now alias (option_map typed_view value.now))) }
        ensures writable { OnOk result (is_writable
            (done.change_wire self.now now alias (option_map typed_view value.now)) ≡ true) }
        ensures whole { OnOk result (seal.IsWhole
            (done.change_message self.now now alias (option_map typed_view value.now))) }
        ensures fault { IfErr result (λ e. (e ≡ EdgeFault.NoMemory) ⊎ ((e ≡ EdgeFault.TooLarge)
            × (is_writable (done.change_wire self.now now alias (option_map typed_view value.now))
            ≡ false))) }
    {
        spelling_spells();
        let raw = self.value_written(alias, value)?;
        let saying = Saying {
            group: self.config.group.as_str(),
            node: self.config.node.as_str(),
            device: self.device_of(self.owner(alias)),
            alias,
            stamp: self.later_stamp(now),
            seq: self.tally.seq,
            null: value.is_none(),
            value: &raw,
        };
        saying.packet(self.alloc)
    }

    /// A change of a Born node is sent, and its value is set.
    fn send_change(
        &mut self,
        now: u64,
        alias: Alias,
        value: &Option<Value>,
    ) -> Result<Out, EdgeFault>
        requires moment { now < 2 ^ 63 }
        requires accepted { set_refusal self.old.standing.asked.book alias
            (option_map typed_view value.now) ≡ None }
        requires asked { done.Asks self.old now alias (option_map typed_view value.now)
            (done.sent self.old.standing.asked now alias (option_map typed_view value.now)) }
        ensures done { IfOk result (patch.IsDone self.old
            (done.change_of now alias (option_map typed_view value.now)) self.new) }
        ensures refused { IfErr result (patch.IsRefusal self.old
            (done.change_of now alias (option_map typed_view value.now))) }
        ensures err { OnErr result (self.new ≡ self.old) }
    {
        let stamp = self.later_stamp(now);
        if stamp >= END {
            return Err(EdgeFault::ClockEnd);
        }
        let mut packets = Vec::with_capacity(self.alloc, 1)?;
        packets.push(self.change_packet(now, alias, value)?)?;
        let value = copied(self.alloc, value)?;
        self.put_value(alias, value);
        self.count_sent(stamp);
        Ok(self.answer(packets))
    }

    /// A change of a node that isn't Born is kept, and its value is set.
    fn keep_change(
        &mut self,
        now: u64,
        alias: Alias,
        value: &Option<Value>,
    ) -> Result<Out, EdgeFault>
        requires moment { now < 2 ^ 63 }
        requires accepted { set_refusal self.old.standing.asked.book alias
            (option_map typed_view value.now) ≡ None }
        requires asked { done.Asks self.old now alias (option_map typed_view value.now)
            (done.kept self.old.standing.asked now alias (option_map typed_view value.now)) }
        ensures done { IfOk result (patch.IsDone self.old
            (done.change_of now alias (option_map typed_view value.now)) self.new) }
        ensures fault { IfErr result (λ e. e ≡ EdgeFault.NoMemory) }
        ensures err { OnErr result (self.new ≡ self.old) }
    {
        let change = self.kept_change(now, alias, value)?;
        let value = copied(self.alloc, value)?;
        self.put_value(alias, value);
        self.keep_one(change);
        Ok(self.silence())
    }

    /// Of a change of a device that is down the value is set.
    fn set_change(
        &mut self,
        now: u64,
        alias: Alias,
        value: &Option<Value>,
    ) -> Result<Out, EdgeFault>
        requires moment { now < 2 ^ 63 }
        requires accepted { set_refusal self.old.standing.asked.book alias
            (option_map typed_view value.now) ≡ None }
        requires asked { done.Asks self.old now alias (option_map typed_view value.now)
            (rule.nothing self.old.standing.asked) }
        ensures done { IfOk result (patch.IsDone self.old
            (done.change_of now alias (option_map typed_view value.now)) self.new) }
        ensures fault { IfErr result (λ e. e ≡ EdgeFault.NoMemory) }
        ensures err { OnErr result (self.new ≡ self.old) }
    {
        let value = copied(self.alloc, value)?;
        self.put_value(alias, value);
        Ok(self.silence())
    }

    /// A change to another value.
    fn take_change(
        &mut self,
        now: u64,
        alias: Alias,
        value: &Option<Value>,
    ) -> Result<Out, EdgeFault>
        requires moment { now < 2 ^ 63 }
        requires accepted { set_refusal self.old.standing.asked.book alias
            (option_map typed_view value.now) ≡ None }
        requires another { rule.is_same_value self.old.standing.asked.book alias
            (option_map typed_view value.now) ≡ false }
        ensures done { IfOk result (patch.IsDone self.old
            (done.change_of now alias (option_map typed_view value.now)) self.new) }
        ensures refused { IfErr result (patch.IsRefusal self.old
            (done.change_of now alias (option_map typed_view value.now))) }
        ensures err { OnErr result (self.new ≡ self.old) }
    {
        if !self.is_owner_up(self.owner(alias)) {
            return self.set_change(now, alias, value);
        }
        if let Phase::Born = self.tally.phase {
            return self.send_change(now, alias, value);
        }
        self.keep_change(now, alias, value)
    }

    /// What a change at a moment does.
    pub(crate) fn changed(
        &mut self,
        now: u64,
        alias: Alias,
        value: &Option<Value>,
    ) -> Result<Out, EdgeFault>
        requires { now < 2 ^ 63 }
        ensures done { IfOk result (patch.IsDone self.old
            (done.change_of now alias (option_map typed_view value.now)) self.new) }
        ensures refused { IfErr result (patch.IsRefusal self.old
            (done.change_of now alias (option_map typed_view value.now))) }
        ensures memory { IfErr result (patch.IsShort self.old
            (done.change_of now alias (option_map typed_view value.now))) }
        ensures err { OnErr result (self.new ≡ self.old) }
    {
        match self.registry.would_set(alias, value) {
            Ok(Outcome::Changed) => self.take_change(now, alias, value),
            Ok(Outcome::Same) => Ok(self.silence()),
            Err(refusal) => Err(EdgeFault::Device(refusal)),
        }
    }
}
