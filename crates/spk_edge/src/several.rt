//! Several changes of metrics of one owner, done at once: one message says them, and no metric of it is made.
ghost use Rattle.std.specs.Prelude.{◌≡◌, ◌⊎◌, ◌++◌, ◌==◌, ◌^◌, ◌<◌, [], All, IfOk, IfErr, OnOk, OnErr, map, None, true, false, if◌then◌else◌};
ghost use Rattle.std.specs.List.{flat_map};
ghost use Rattle.std.specs.Option.{option_map, option_map_or};
ghost use Rattle.spk_payload.specs.Spelling as payload;
ghost use Rattle.spk_payload.specs.Typing.{typed_view};
ghost use Rattle.spk_packets.specs.Spelling.{spelling};
ghost use Rattle.spk_device.specs.Book as book;
ghost use Rattle.spk_device.specs.Values.{value_eq};
ghost use Rattle.spk_edge_rules.specs.Births as births;
ghost use Rattle.spk_edge_rules.specs.Rules as rule;
ghost use Rattle.spk_edge_rules.specs.Run.{last_in};
ghost use Rattle.spk_edge_rules.specs.Writable.{is_writable};
ghost use Rattle.spk_edge.specs.Changing as done;
ghost use Rattle.spk_edge.specs.Rows.{payload_with, spelled};
ghost use Rattle.spk_edge.specs.Sealing as seal;
ghost use Rattle.spk_edge.specs.Several as several;
ghost use Rattle.spk_edge.specs.View.{change_view};

use crate::message::Out;
use crate::node::EdgeNode;
use crate::packet::put_field;
use crate::plan::END;
use crate::row::Row;
use crate::sealing::published;
use crate::values::{copied, is_same_value};
use spk_device::{Alias, Owner};
use spk_edge_rules::{EdgeFault, Phase};
use spk_packets::laws::spelling_spells;
use spk_payload::Value;
use spk_store::Change;
use std::alloc::AllocError;
use thiserror::Error;

/// The bytes that a message asks for at first, and for each of its metrics, up to so many of them.
const FEW: usize = 64;

const EACH: usize = 16;

const MANY: usize = 1_024;

/// Why several changes were refused, none of which was done, and which of them is the first one refused. No place is given where
/// none of them is: by want of memory, a moment of 2^63 or more, a stamp that is needed, or a message that can't be written.
#[derive(Clone, Copy, Debug, PartialEq, Eq, Error)]
#[error("{fault}")]
pub struct ChangesFault {
    pub fault: EdgeFault,
    /// Counted from 0.
    pub place: Option<usize>,
}

/// Whether a value is the last one of an alias with one change more, where it was or wasn't before.
fn is_last_by(
    same: bool,
    change: &(Alias, Option<Value>),
    alias: Alias,
    value: &Option<Value>,
) -> bool
    ensures { result ≡ (if alias == change.now.0 then value_eq
        (option_map typed_view change.now.1) (option_map typed_view value.now) else same) }
{
    if alias == change.0 {
        is_same_value(&change.1, value)
    } else {
        same
    }
}

/// Whether a value is the last one of an alias in changes, or else the one before.
fn is_last(
    changes: &[(Alias, Option<Value>)],
    alias: Alias,
    before: &Option<Value>,
    value: &Option<Value>,
) -> bool
    ensures { result ≡ value_eq
        (last_in (several.pairs changes.now) alias (option_map typed_view before.now))
        (option_map typed_view value.now) }
{
    let mut same = is_same_value(before, value);
    for change in changes {
        same = is_last_by(same, change, alias, value);
    }
    same
}

impl EdgeNode {
    // ---- what is refused

    /// The owner of changes: that of the first one, and the node where there is none.
    fn owner_of(&self, changes: &[(Alias, Option<Value>)]) -> Owner
        ensures { result ≡ rule.owner_of self.now.standing.asked.book
            (several.pairs changes.now) }
    {
        match changes.first() {
            Some(change) => self.owner(change.0),
            None => Owner::Node,
        }
    }

    /// What one of the changes of an owner is refused with.
    fn change_fault(&self, owner: Owner, alias: Alias, value: &Option<Value>) -> Option<EdgeFault>
        ensures { result ≡ rule.change_fault self.now.standing.asked.book owner
            (alias, option_map typed_view value.now) }
    {
        match self.registry.would_set(alias, value) {
            Err(refusal) => Some(EdgeFault::Device(refusal)),
            Ok(_outcome) => {
                if owner.is_same(self.owner(alias)) {
                    None
                } else {
                    Some(EdgeFault::TwoOwners)
                }
            }
        }
    }

    /// The first of the changes that is refused, and with what.
    fn refused_first(&self, changes: &[(Alias, Option<Value>)]) -> Option<(usize, EdgeFault)>
        ensures { result ≡ rule.refused_first self.now.standing.asked.book
            (several.pairs changes.now) }
    {
        let owner = self.owner_of(changes);
        for place in 0..changes.len() {
            let change = &changes[place];
            if let Some(fault) = self.change_fault(owner, change.0, &change.1) {
                return Some((place, fault));
            }
        }
        None
    }

    // ---- which of them set something

    /// Whether a value is the one that an alias has behind changes.
    fn is_same_behind(
        &self,
        before: &[(Alias, Option<Value>)],
        alias: Alias,
        value: &Option<Value>,
    ) -> bool
        ensures { result ≡ rule.is_same_value (rule.with_values self.now.standing.asked.book
            (several.pairs before.now)) alias (option_map typed_view value.now) }
    {
        match self.registry.metric(alias) {
            Some(gauge) => is_last(before, alias, &gauge.value, value),
            None => false,
        }
    }

    /// Those of the changes that set something, copied.
    fn others_in(
        &self,
        changes: &[(Alias, Option<Value>)],
    ) -> Result<Vec<(Alias, Option<Value>)>, AllocError>
        ensures { IfOk result (λ v. several.pairs v.items
            ≡ rule.others_in self.now.standing.asked.book (several.pairs changes.now)) }
    {
        let mut others = Vec::with_capacity(self.alloc, changes.len())?;
        for change in changes {
            if !self.is_same_behind(&others, change.0, &change.1) {
                others.push((change.0, copied(self.alloc, &change.1)?))?;
            }
        }
        Ok(others)
    }

    // ---- their message

    /// A change as a metric of a message with this stamp.
    fn put_change(
        &self,
        out: &mut Vec<u8>,
        stamp: u64,
        alias: Alias,
        value: &Option<Value>,
    ) -> Result<(), AllocError>
        ensures ok { OnOk result (out.new.items ≡ out.old.items ++ spelled
            (births.data_metric self.now.standing.asked.book alias stamp None
            (option_map typed_view value.now))) }
        ensures fits { OnOk result (payload.MetricFits
            (births.data_metric self.now.standing.asked.book alias stamp None
            (option_map typed_view value.now))) }
    {
        let raw = self.value_written(alias, value)?;
        let row = Row {
            name: None,
            alias: Some(alias),
            time: stamp,
            datatype: None,
            historical: false,
            null: value.is_none(),
            value: &raw,
        };
        row.put(out)
    }

    /// The changes as metrics of a message with this stamp.
    fn put_changes(
        &self,
        out: &mut Vec<u8>,
        stamp: u64,
        changes: &[(Alias, Option<Value>)],
    ) -> Result<(), AllocError>
        ensures ok { OnOk result (out.new.items ≡ out.old.items ++ flat_map spelled
            (several.rows self.now.standing.asked.book stamp (several.pairs changes.now))) }
        ensures fits { OnOk result (All payload.MetricFits
            (several.rows self.now.standing.asked.book stamp (several.pairs changes.now))) }
    {
        for change in changes {
            self.put_change(out, stamp, change.0, &change.1)?;
        }
        Ok(())
    }

    /// The payload of the changes, under the number that comes next.
    fn changes_bytes(
        &self,
        stamp: u64,
        changes: &[(Alias, Option<Value>)],
    ) -> Result<Vec<u8>, AllocError>
        ensures bytes { IfOk result (λ v. v.items
            ≡ payload.spelling (payload_with stamp self.now.standing.seq
            (several.rows self.now.standing.asked.book stamp (several.pairs changes.now)))) }
        ensures fits { OnOk result (payload.PayloadFits (payload_with stamp self.now.standing.seq
            (several.rows self.now.standing.asked.book stamp (several.pairs changes.now)))) }
    {
        let size = changes
            .len()
            .min(MANY)
            .saturating_mul(EACH)
            .saturating_add(FEW);
        let mut out = Vec::with_capacity(self.alloc, size)?;
        put_field(&mut out, 8, stamp)?;
        self.put_changes(&mut out, stamp, changes)?;
        put_field(&mut out, 3 * 8, u64::from(self.tally.seq))?;
        Ok(out)
    }

    /// The packet of the changes, which are an owner's, under the number that comes next.
    fn changes_packet(
        &self,
        owner: Owner,
        stamp: u64,
        changes: &[(Alias, Option<Value>)],
    ) -> Result<Vec<u8>, EdgeFault>
        ensures bytes { IfOk result (λ v. seal.bytes_of v ≡ spelling (seal.wire_of
            (several.message self.now owner stamp (several.pairs changes.now)))) }
        ensures writable { OnOk result (is_writable (seal.wire_of
            (several.message self.now owner stamp (several.pairs changes.now))) ≡ true) }
        ensures whole { OnOk result (seal.IsWhole
            (several.message self.now owner stamp (several.pairs changes.now))) }
        ensures fault { IfErr result (λ e. (e ≡ EdgeFault.NoMemory) ⊎ ((e ≡ EdgeFault.TooLarge)
            × (is_writable (seal.wire_of (several.message self.now owner stamp
            (several.pairs changes.now))) ≡ false))) }
    {
        spelling_spells();
        let topic = self.data_topic(owner)?;
        let payload = self.changes_bytes(stamp, changes)?;
        published(self.alloc, topic.as_str(), &payload)
    }

    // ---- what is kept and set

    /// The changes as ones that are kept.
    fn kept_changes(
        &self,
        now: u64,
        changes: &[(Alias, Option<Value>)],
    ) -> Result<Vec<Change>, AllocError>
        ensures { IfOk result (λ v. map change_view v.items
            ≡ several.all_at self.now.standing.asked.book now (several.pairs changes.now)) }
    {
        let mut kept = Vec::with_capacity(self.alloc, changes.len())?;
        for change in changes {
            kept.push(self.kept_change(now, change.0, &change.1)?)?;
        }
        Ok(kept)
    }

    /// The values are set, and nothing else changes.
    fn put_values(&mut self, changes: Vec<(Alias, Option<Value>)>)
        ensures { self.new ≡ done.with_book self.old
            (several.set_each self.old.standing.asked.book (several.pairs changes.items)) }
    {
        for (alias, value) in changes {
            self.put_value(alias, value);
        }
    }

    /// The changes are kept.
    fn keep_each(&mut self, kept: Vec<Change>)
        ensures { self.new ≡ done.with_store self.old
            (several.push_each self.old.standing.asked.store (map change_view kept.items)) }
    {
        for change in kept {
            self.keep_one(change);
        }
    }

    // ---- what is done

    /// The values are set of changes of an owner that is down, or where none of them sets anything.
    fn set_others(
        &mut self,
        now: u64,
        changes: &[(Alias, Option<Value>)],
        others: Vec<(Alias, Option<Value>)>,
    ) -> Out
        requires moment { now < 2 ^ 63 }
        requires accepted { rule.changes_fault self.old.standing.asked.book
            (several.pairs changes.now) ≡ None }
        requires others { several.pairs others.items
            ≡ rule.others_in self.old.standing.asked.book (several.pairs changes.now) }
        requires down { (several.pairs others.items ≡ []) ⊎ (births.owner_is_up self.old.standing.asked.book
            (rule.owner_of self.old.standing.asked.book (several.pairs changes.now)) ≡ false) }
        ensures { several.IsTold self.old now (several.pairs changes.now) self.new result }
    {
        self.put_values(others);
        self.silence()
    }

    /// The changes of a Born node are sent, and their values are set.
    fn send_others(
        &mut self,
        now: u64,
        changes: &[(Alias, Option<Value>)],
        others: Vec<(Alias, Option<Value>)>,
    ) -> Result<Out, EdgeFault>
        requires moment { now < 2 ^ 63 }
        requires born { rule.is_born self.old.standing.asked.phase ≡ true }
        requires accepted { rule.changes_fault self.old.standing.asked.book
            (several.pairs changes.now) ≡ None }
        requires others { several.pairs others.items
            ≡ rule.others_in self.old.standing.asked.book (several.pairs changes.now) }
        requires some { several.pairs others.items ≡ [] → ⊥ }
        requires up { births.owner_is_up self.old.standing.asked.book
            (rule.owner_of self.old.standing.asked.book (several.pairs changes.now)) ≡ true }
        ensures done { IfOk result (several.IsTold self.old now (several.pairs changes.now) self.new) }
        ensures refused { IfErr result (several.IsRefused self.old now (several.pairs changes.now)) }
        ensures err { OnErr result (self.new ≡ self.old) }
    {
        let stamp = self.later_stamp(now);
        if stamp >= END {
            return Err(EdgeFault::ClockEnd);
        }
        let mut packets = Vec::with_capacity(self.alloc, 1)?;
        packets.push(self.changes_packet(self.owner_of(changes), stamp, &others)?)?;
        self.put_values(others);
        self.count_sent(stamp);
        Ok(self.answer(packets))
    }

    /// The changes of a node that isn't Born are kept, and their values are set.
    fn keep_others(
        &mut self,
        now: u64,
        changes: &[(Alias, Option<Value>)],
        others: Vec<(Alias, Option<Value>)>,
    ) -> Result<Out, AllocError>
        requires moment { now < 2 ^ 63 }
        requires waits { rule.is_born self.old.standing.asked.phase ≡ false }
        requires accepted { rule.changes_fault self.old.standing.asked.book
            (several.pairs changes.now) ≡ None }
        requires others { several.pairs others.items
            ≡ rule.others_in self.old.standing.asked.book (several.pairs changes.now) }
        requires up { births.owner_is_up self.old.standing.asked.book
            (rule.owner_of self.old.standing.asked.book (several.pairs changes.now)) ≡ true }
        ensures done { IfOk result (several.IsTold self.old now (several.pairs changes.now) self.new) }
        ensures err { OnErr result (self.new ≡ self.old) }
    {
        let kept = self.kept_changes(now, &others)?;
        self.put_values(others);
        self.keep_each(kept);
        Ok(self.silence())
    }

    /// Changes that aren't refused.
    fn take_changes(
        &mut self,
        now: u64,
        changes: &[(Alias, Option<Value>)],
    ) -> Result<Out, EdgeFault>
        requires moment { now < 2 ^ 63 }
        requires accepted { rule.changes_fault self.old.standing.asked.book
            (several.pairs changes.now) ≡ None }
        ensures done { IfOk result (several.IsTold self.old now (several.pairs changes.now) self.new) }
        ensures refused { IfErr result (several.IsRefused self.old now (several.pairs changes.now)) }
        ensures err { OnErr result (self.new ≡ self.old) }
    {
        let others = self.others_in(changes)?;
        if others.is_empty() || !self.is_owner_up(self.owner_of(changes)) {
            return Ok(self.set_others(now, changes, others));
        }
        if let Phase::Born = self.tally.phase {
            return self.send_others(now, changes, others);
        }
        Ok(self.keep_others(now, changes, others)?)
    }

    /// What several changes do.
    fn told_at_once(
        &mut self,
        now: u64,
        changes: &[(Alias, Option<Value>)],
    ) -> Result<Out, EdgeFault>
        ensures done { IfOk result (several.IsTold self.old now (several.pairs changes.now) self.new) }
        ensures refused { IfErr result (several.IsRefused self.old now (several.pairs changes.now)) }
        ensures err { OnErr result (self.new ≡ self.old) }
    {
        if now >= END {
            return Err(EdgeFault::ClockEnd);
        }
        match self.refused_first(changes) {
            Some((_place, fault)) => Err(fault),
            None => self.take_changes(now, changes),
        }
    }

    /// The place of the first change that is refused, at a moment.
    fn place_of(&self, now: u64, changes: &[(Alias, Option<Value>)]) -> Option<usize>
        ensures { result ≡ several.place_at self.now.standing.asked.book now
            (several.pairs changes.now) }
    {
        if now >= END {
            return None;
        }
        match self.refused_first(changes) {
            Some((place, _fault)) => Some(place),
            None => None,
        }
    }

    /// Several metrics of one owner have values: one NDATA or DDATA when Born, with a metric for each in their order, else each
    /// change is kept by itself as `change` keeps it. One that is equal to the value present by then is left out, and nothing is
    /// sent where all are; of a device that is down they only set values. Done whole or not at all: the first one that the
    /// registry refuses, or whose owner isn't the first one's (TwoOwners, 119), refuses all, with its place. A message that can't
    /// be written is refused whole with TooLarge (64). Taken in every phase.
    pub fn changes(
        &mut self,
        now: u64,
        changes: &[(Alias, Option<Value>)],
    ) -> Result<Out, ChangesFault>
        ensures done { IfOk result (several.IsTold self.old now (several.pairs changes.now) self.new) }
        ensures refused { IfErr result
            (λ e. several.IsRefused self.old now (several.pairs changes.now) e.fault) }
        ensures place { IfErr result (λ e. e.place
            ≡ several.place_at self.old.standing.asked.book now (several.pairs changes.now)) }
        ensures err { OnErr result (self.new ≡ self.old) }
    {
        match self.told_at_once(now, changes) {
            Ok(out) => Ok(out),
            Err(fault) => Err(ChangesFault {
                fault,
                place: self.place_of(now, changes),
            }),
        }
    }
}
