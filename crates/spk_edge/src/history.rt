//! Kept changes that are sent at once (Sparkplug 3.0.0, chapter 6, historical values): no metric or message of them is made.
ghost use Rattle.std.specs.Prelude.{◌≡◌, ◌⊎◌, ◌-◌, ◌^◌, ◌<◌, ◌≤◌, length, IfOk, IfErr, IfSome, OnOk, OnErr, None, true, false, if◌then◌else◌};
ghost use Rattle.spk_packets.specs.Grammar.{largest};
ghost use Rattle.spk_packets.specs.Spelling.{is_bad_text};
ghost use Rattle.spk_payload.specs.Spelling as payload;
ghost use Rattle.spk_edge_rules.specs.Births as births;
ghost use Rattle.spk_edge_rules.specs.Inputs as inputs;
ghost use Rattle.spk_edge_rules.specs.Rules as rule;
ghost use Rattle.spk_edge.specs.History as history;
ghost use Rattle.spk_edge.specs.Patch as patch;

use crate::draining::{MOST, room};
use crate::message::{Keeping, Out};
use crate::node::EdgeNode;
use crate::packet::{field_size, put_field};
use crate::plan::{END, keep};
use crate::row::Row;
use crate::sealing::published;
use spk_device::Owner;
use spk_edge_rules::EdgeFault;
use spk_packets::laws::spelling_spells;
use std::alloc::AllocError;

/// The bytes that a message asks for at first, and for each of its metrics.
const FEW: usize = 64;

const EACH: usize = 16;

/// Kept changes that go out, as bytes, and how many they are.
#[derive(Drop)]
pub(crate) struct Front {
    pub(crate) bytes: Vec<u8>,
    pub(crate) count: usize,
}

impl EdgeNode {
    /// The kept change at a place, as a historical metric, where no more than so many bytes are there behind it; else nothing is
    /// put. The answer is whether it was.
    fn put_kept(&self, out: &mut Vec<u8>, place: usize, limit: usize) -> Result<bool, AllocError>
        requires { limit ≤ largest }
        ensures { IfOk result (history.IsTriedAt limit out.old.items out.new.items
            (history.all_kept self.now.standing.asked) place) }
    {
        let Some(change) = self.store.get(place) else {
            return Ok(true);
        };
        let value = self.value_written(change.alias, &change.value)?;
        let row = Row {
            name: None,
            alias: Some(change.alias),
            time: change.time,
            datatype: None,
            historical: true,
            null: change.value.is_none(),
            value: &value,
        };
        row.put_within(out, limit)
    }

    /// The first kept changes, at most so many, as far as no more than so many bytes are there behind them; and how many they are.
    fn put_first(&self, out: &mut Vec<u8>, most: usize, limit: usize) -> Result<usize, AllocError>
        requires small { limit ≤ largest }
        requires few { most ≤ length self.now.standing.asked.store.items }
        ensures { IfOk result (history.IsFilled limit most out.old.items out.new.items
            (history.all_kept self.now.standing.asked)) }
    {
        for place in 0..most {
            if !self.put_kept(out, place, limit)? {
                return Ok(place);
            }
        }
        Ok(most)
    }

    /// The payload of as many of the first kept changes, of at most so many, as can go in one of so many bytes.
    fn history_bytes(&self, now: u64, most: usize, room: usize) -> Result<Front, AllocError>
        requires small { room ≤ largest }
        requires few { most ≤ length self.now.standing.asked.store.items }
        ensures bytes { IfOk result (λ f. f.bytes.items
            ≡ payload.spelling (history.payload_of self.now now f.count)) }
        ensures fits { IfOk result (λ f. payload.PayloadFits
            (history.payload_of self.now now f.count)) }
        ensures front { IfOk result (λ f. history.IsFront self.now now room most f.count) }
    {
        let size = most.saturating_mul(EACH).saturating_add(FEW);
        let mut out = Vec::with_capacity(self.alloc, size)?;
        put_field(&mut out, 8, self.later_stamp(now))?;
        let seq = u64::from(self.tally.seq);
        let limit = room.saturating_sub(field_size(3 * 8, seq));
        let count = self.put_first(&mut out, most, limit)?;
        put_field(&mut out, 3 * 8, seq)?;
        Ok(Front { bytes: out, count })
    }

    /// The packet of the longest front of the first kept changes, which are an owner's, of at most so many, that can be written
    /// under the number that comes next; None where not even the first one can.
    fn history_packet(
        &self,
        now: u64,
        owner: Owner,
        most: usize,
    ) -> Result<Option<Front>, EdgeFault>
        requires { most ≤ length self.now.standing.asked.store.items }
        ensures some { IfOk result (λ o. IfSome o (history.IsGoing self.now now owner most)) }
        ensures none { IfOk result (λ o. o ≡ None
            → history.going self.now now owner most ≡ 0) }
        ensures fault { IfErr result (λ e. e ≡ EdgeFault.NoMemory) }
    {
        spelling_spells();
        let topic = self.data_topic(owner)?;
        let Front { bytes, count } = self.history_bytes(now, most, room(topic.as_str()))?;
        if count == 0 {
            return Ok(None);
        }
        let bytes = published(self.alloc, topic.as_str(), &bytes)?;
        Ok(Some(Front { bytes, count }))
    }

    /// So many kept changes at the front go.
    fn drop_kept(&mut self, count: usize, is_lost: bool)
        ensures { self.new ≡ history.with_fewer self.old count is_lost }
    {
        keep(&mut self.store, Keeping::DropFront(count, is_lost));
    }

    /// The longest front of the first kept changes, which are an owner's, is sent that can be written, of at most so many; where
    /// not even the first one can, it is dropped, as lost.
    fn send_kept(&mut self, now: u64, owner: Owner, most: usize) -> Result<Out, EdgeFault>
        requires moment { now < 2 ^ 63 }
        requires born { rule.is_born self.old.standing.asked.phase ≡ true }
        requires asked { history.Asks self.old now (history.sending self.old.standing.asked now
            owner (history.going self.old now owner most)) }
        requires few { most ≤ length self.old.standing.asked.store.items }
        requires some { 0 < length self.old.standing.asked.store.items }
        ensures done { IfOk result (patch.IsDone self.old
            (patch.plain_input now inputs.Drain) self.new) }
        ensures refused { IfErr result (patch.IsRefusal self.old
            (patch.plain_input now inputs.Drain)) }
        ensures fault { IfErr result (λ e. (e ≡ EdgeFault.NoMemory) ⊎ (e ≡ EdgeFault.ClockEnd)) }
        ensures err { OnErr result (self.new ≡ self.old) }
    {
        let Some(front) = self.history_packet(now, owner, most)? else {
            self.drop_kept(1, true);
            return Ok(self.silence());
        };
        let stamp = self.later_stamp(now);
        if stamp >= END {
            return Err(EdgeFault::ClockEnd);
        }
        let mut packets = Vec::with_capacity(self.alloc, 1)?;
        packets.push(front.bytes)?;
        self.drop_kept(front.count, false);
        self.count_sent(stamp);
        Ok(self.answer(packets))
    }

    /// Sends the kept changes at the front, or drops them, as lost.
    pub(crate) fn drained(&mut self, now: u64) -> Result<Out, EdgeFault>
        requires moment { now < 2 ^ 63 }
        requires born { rule.is_born self.old.standing.asked.phase ≡ true }
        ensures done { IfOk result (patch.IsDone self.old
            (patch.plain_input now inputs.Drain) self.new) }
        ensures refused { IfErr result (patch.IsRefusal self.old
            (patch.plain_input now inputs.Drain)) }
        ensures fault { IfErr result (λ e. (e ≡ EdgeFault.NoMemory) ⊎ (e ≡ EdgeFault.ClockEnd)) }
        ensures memory { IfErr result (patch.IsShort self.old
            (patch.plain_input now inputs.Drain)) }
        ensures err { OnErr result (self.new ≡ self.old) }
    {
        let Some(first) = self.store.get(0) else {
            return Ok(self.silence());
        };
        let owner = first.owner;
        let count = self.store.front_run(MOST);
        if self.is_owner_up(owner) {
            return self.send_kept(now, owner, count);
        }
        self.drop_kept(count, true);
        Ok(self.silence())
    }
}
