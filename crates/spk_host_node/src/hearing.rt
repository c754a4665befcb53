//! What the view hears of a node by a step of the node's order.
ghost use Rattle.std.specs.Prelude.{◌≡◌, true, ◌+◌, ◌++◌, ◌<◌, ◌≤◌, [], map, length, vec_len, vec_capacity};
ghost use Rattle.spk_reading.specs.View.{numbered_view};
ghost use Rattle.spk_host_rules.specs.Data.{Consumed, Message};
ghost use Rattle.spk_host_rules.specs.Step as rules;
ghost use Rattle.spk_view.specs.Prepared.{prepared};
ghost use Rattle.spk_host_node.specs.Room.{IsDropped, IsNothing, most_heard};
ghost use Rattle.spk_host_node.specs.Step as spec;

use crate::kept::Kept;
use spk_reading::Numbered;
use spk_sequence::Step;
use spk_view::{Ready, Watch};

/// What became of a message: its step, the messages consumed in the order of their numbers, and how many rebirths are asked for.
#[derive(Debug, Drop)]
pub struct Handed {
    pub step: Step,
    pub consumed: Vec<Numbered>,
    pub requests: usize,
}

/// How many events the view hears by a step, at most.
pub(crate) fn most_heard(step: Step) -> usize
    ensures most { result ≡ most_heard step }
    ensures few { result ≤ 256 }
{
    match step {
        Step::Consumed(count) => 1 + usize::from(count.saturating_sub(1)),
        Step::Gap | Step::NotLive => 1,
        _ => 0,
    }
}

/// Whether a step drops the message: it is neither consumed nor held.
pub(crate) fn is_dropped(step: Step) -> bool
    ensures { result ≡ true → IsDropped step }
{
    match step {
        Step::Consumed(_) | Step::Held => false,
        Step::Old | Step::Gap | Step::OldBirth | Step::DeadSession | Step::NotLive => true,
    }
}

/// A message is shown, for which there is room. Answers whether a rebirth is asked for.
pub(crate) fn show(watch: &mut Watch, wait: u64, ready: Ready, now: u64) -> bool
    requires { 0 < watch.old.room }
    ensures asks { (m : Message) → prepared m ≡ ready
        → result ≡ rules.asks wait watch.old.watch (Consumed m now) }
    ensures watch { (m : Message) → prepared m ≡ ready
        → watch.new.watch ≡ rules.step wait watch.old.watch (Consumed m now) }
    ensures room { watch.old.room ≤ watch.new.room + 1 }
{
    match watch.consume(wait, ready, now) {
        Ok(asks) => asks,
        Err(_) => unreachable!(),
    }
}

/// Messages are shown, in order, for which there is room. Answers how many rebirths are asked for.
fn show_all(
    watch: &mut Watch,
    wait: u64,
    taken: Vec<Kept>,
    consumed: &mut Vec<Numbered>,
    now: u64,
) -> usize
    requires room { length taken.items ≤ watch.old.room }
    requires capacity { vec_len consumed.old + length taken.items ≤ vec_capacity consumed.old }
    ensures watch { watch.new.watch
        ≡ spec.watched wait watch.old.watch (map (spec.consumed_at now) taken.items) }
    ensures requests { result
        ≡ spec.requests wait watch.old.watch (map (spec.consumed_at now) taken.items) }
    ensures consumed { map numbered_view consumed.new.items
        ≡ map numbered_view consumed.old.items ++ taken.items }
{
    let mut requests = 0;
    for kept in taken {
        let (message, ready) = kept.open();
        requests += usize::from(show(watch, wait, ready, now));
        consumed.push_reserved(message);
    }
    requests
}

/// The view hears what a step of the node's order says.
pub(crate) fn hear(
    watch: &mut Watch,
    wait: u64,
    handed: spk_order::Handed<Kept>,
    mut consumed: Vec<Numbered>,
    now: u64,
) -> Handed
    requires nothing { IsNothing handed.step handed.consumed.items }
    requires room { length handed.consumed.items ≤ watch.old.room }
    requires empty { consumed.items ≡ [] }
    requires capacity { length handed.consumed.items ≤ vec_capacity consumed }
    ensures step { result.step ≡ handed.step }
    ensures consumed { map numbered_view result.consumed.items ≡ handed.consumed.items }
    ensures requests { result.requests
        ≡ spec.requests wait watch.old.watch (spec.heard_by handed.step handed.consumed.items now) }
    ensures watch { watch.new.watch
        ≡ spec.watched wait watch.old.watch (spec.heard_by handed.step handed.consumed.items now) }
{
    let step = handed.step;
    let requests = match step {
        Step::Consumed(_) => show_all(watch, wait, handed.consumed, &mut consumed, now),
        Step::Gap => usize::from(watch.gap(wait, now)),
        Step::NotLive => usize::from(watch.not_live(wait, now)),
        _ => 0,
    };
    Handed {
        step,
        consumed,
        requests,
    }
}
