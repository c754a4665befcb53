//! Kept changes are sent (Sparkplug 3.0.0, chapter 6, historical values).
ghost use Rattle.std.specs.Prelude.{◌≡◌, ◌==◌, ◌≤◌, IfOk, OnErr, None, Some, false, length, map, string_bytes};
ghost use Rattle.spk_packets.specs.Grammar.{largest};
ghost use Rattle.spk_payload.specs.View.{metric_view};
ghost use Rattle.spk_edge_rules.specs.Rules as rule;
ghost use Rattle.spk_edge.specs.History as history;
ghost use Rattle.spk_edge.specs.View.{given_of, given_view, message_view};

use crate::message::{Given, Keeping, Published};
use crate::node::EdgeNode;
use crate::packet::{LARGEST, field_size, has_zero};
use crate::row::Row;
use spk_device::Owner;
use spk_payload::{Metric, Payload};
use std::alloc::AllocError;

/// At most so many changes go into one message (own rule).
pub(crate) const MOST: usize = 32;

/// The greatest packet without its first byte, a remaining length of three bytes, and the length of its topic.
const MOST_BYTES: usize = LARGEST - 6;

/// How many bytes the payload of a PUBLISH may have on a topic (own rule): none where the topic can't be written.
pub(crate) fn room(topic: &str) -> usize
    ensures room { result ≡ history.room topic.now }
    ensures small { result ≤ largest }
{
    if topic.len() > 65_535 || has_zero(topic) {
        return 0;
    }
    MOST_BYTES - topic.len()
}

/// A message of data on a topic, before it has its number.
fn unnumbered(topic: String, stamp: u64, metrics: Vec<Metric>) -> Published
    ensures { message_view result ≡ record {
      topic = string_bytes topic;
      payload = record { timestamp = Some stamp; metrics = map metric_view metrics.items; seq = None };
      stamp = stamp;
      opens = false;
    } }
{
    Published {
        topic,
        payload: Payload {
            timestamp: Some(stamp),
            metrics,
            seq: None,
        },
        stamp,
        opens: false,
    }
}

impl EdgeNode {
    /// The kept change at a place, as a historical metric behind others that have so many bytes, where all of them stay within a
    /// limit; else nothing is pushed. The answer is how many bytes they have then, or would have.
    fn push_kept(
        &self,
        metrics: &mut Vec<Metric>,
        place: usize,
        size: usize,
        limit: usize,
    ) -> Result<usize, AllocError>
        ensures { IfOk result (history.IsPushedAt size limit (map metric_view metrics.old.items)
            (map metric_view metrics.new.items) (history.all_kept self.now.standing.asked) place) }
    {
        let Some(change) = self.store.get(place) else {
            return Ok(size);
        };
        let metric = self.data_metric(change.alias, change.time, Some(true), &change.value)?;
        let row = Row {
            name: None,
            alias: Some(change.alias),
            time: change.time,
            datatype: None,
            historical: true,
            null: change.value.is_none(),
            value: &metric.value,
        };
        let total = size.saturating_add(row.whole_size());
        if total > limit {
            return Ok(total);
        }
        metrics.push(metric)?;
        Ok(total)
    }

    /// The first kept changes, as historical metrics: at most so many, as far as they stay within a limit behind so many bytes.
    fn kept_metrics(
        &self,
        most: usize,
        base: usize,
        limit: usize,
    ) -> Result<Vec<Metric>, AllocError>
        requires small { limit ≤ largest }
        requires few { most ≤ length self.now.standing.asked.store.items }
        ensures { IfOk result (λ ms. history.IsTaken base limit most
            (history.all_kept self.now.standing.asked) (map metric_view ms.items)) }
    {
        let mut metrics = Vec::with_capacity(self.alloc, most)?;
        let mut size = base;
        for place in 0..most {
            size = self.push_kept(&mut metrics, place, size, limit)?;
            if size > limit {
                return Ok(metrics);
            }
        }
        Ok(metrics)
    }

    /// So many kept changes at the front are dropped, as lost.
    fn dropping(&self, count: usize) -> Given
        ensures { given_view result ≡ given_of self.now.config self.now.standing.asked.heard
            (history.dropped self.now.standing.asked count) }
    {
        let mut given = self.nothing();
        given.kept = Keeping::DropFront(count, true);
        given
    }

    /// A message of so many kept changes at the front is given, which go.
    fn giving(&self, message: Published, count: usize) -> Result<Given, AllocError>
        ensures { IfOk result (λ g. given_view g ≡ history.given_with self.now.config
            self.now.standing.asked (message_view message) count) }
    {
        let mut given = self.nothing();
        given.messages.push(message)?;
        given.kept = Keeping::DropFront(count, false);
        Ok(given)
    }

    /// The longest front of the first kept changes, which are an owner's, goes out in one message, of at most so many; where not
    /// even the first one can be written, it is dropped, as lost.
    fn sending(&self, now: u64, owner: Owner, most: usize) -> Result<Given, AllocError>
        requires { most ≤ length self.now.standing.asked.store.items }
        ensures { IfOk result (λ g. given_view g
            ≡ given_of self.now.config self.now.standing.asked.heard
            (history.sending self.now.standing.asked now owner
            (history.going self.now now owner most))) }
    {
        let topic = self.data_topic(owner)?;
        let stamp = self.later_stamp(now);
        let tail = field_size(3 * 8, u64::from(self.tally.seq));
        let limit = room(topic.as_str()).saturating_sub(tail);
        let metrics = self.kept_metrics(most, field_size(8, stamp), limit)?;
        let count = metrics.len();
        if count == 0 {
            return Ok(self.dropping(1));
        }
        self.giving(unnumbered(topic, stamp, metrics), count)
    }

    /// The front run of kept changes, which are of one owner: sent, as far as one message can say it, or dropped, as lost, where
    /// the owner is down; nothing where none are kept.
    pub(crate) fn draining(&self, now: u64) -> Result<Given, AllocError>
        ensures given { IfOk result (λ g. given_view g
            ≡ given_of self.now.config self.now.standing.asked.heard
            (rule.draining self.now.config self.now.standing.seq self.now.standing.asked now
            self.now.standing.asked.store.items)) }
        ensures memory { OnErr result ((length self.now.standing.asked.store.items == 0)
            ≡ false) }
    {
        let Some(first) = self.store.get(0) else {
            return Ok(self.nothing());
        };
        let owner = first.owner;
        let count = self.store.front_run(MOST);
        if self.is_owner_up(owner) {
            return self.sending(now, owner, count);
        }
        Ok(self.dropping(count))
    }
}
