//! The order of one node with the payloads that it holds.
ghost use Rattle.std.specs.Prelude.{◌⊎◌, true, false, ◌≡◌, ℕ, ◌+◌, ◌^◌, ◌<◌, ◌≤◌, map, length, Some, is_some, replicate, IfOk, IfErr, OnOk, OnErr};
ghost use Rattle.spk_sequence.specs.declared.message.Kind.{Kind};
ghost use Rattle.spk_sequence.specs.declared.answer.Step.{Step};
ghost use Rattle.spk_sequence.specs.declared.answer.Match.{Match};
ghost use Rattle.spk_sequence.specs.Data.{IsWhole};
ghost use Rattle.spk_sequence.specs.Calls.{Hand, Tick, Death};
ghost use Rattle.spk_sequence.specs.Due.{has_come};
ghost use Rattle.spk_sequence.specs.Losses.{Called, Reset, loss_at};
ghost use Rattle.spk_sequence.specs.Numbers.{held_count};
ghost use Rattle.spk_sequence.specs.Step.{is_any_held as is_any_held_in, hand, is_over, tick, match_of, death, fresh_standing};
ghost use Rattle.spk_order.specs.Ordered.{IsKept};
ghost use Rattle.spk_order.specs.Step.{consumed_with, handed, stands_so, fresh_order, IsAlone};

use crate::slots::{empty_slots, place, settle};
use spk_sequence::{Gap, Kind, Loss, Match, Sequence, Step, Width, laws};
use std::alloc::{AllocError, Global};
use std::fmt;
use std::marker::Model;

/// What became of a message that was handed in, and the payloads consumed, in the order of their numbers.
#[derive(Debug, Drop)]
pub struct Handed<T: Drop> {
    pub step: Step,
    pub consumed: Vec<T>,
}

/// Memory was refused, and nothing has changed: the payload comes back.
#[derive(Debug, Drop)]
pub struct NoMemory<T: Drop> {
    pub payload: T,
}

/// The order of one node's messages at a host, from the beginning of a host session, with the payloads of
/// the messages that it holds.
#[derive(Drop)]
pub struct Order<T: Drop> {
    alloc: Global,
    sequence: Sequence,
    slots: Vec<Option<T>>,
}

impl<T: Drop> fmt::Debug for Order<T> {
    fn fmt<W: fmt::Write>(&self, f: &mut fmt::Formatter<W>) -> fmt::Result {
        f.write_str("Order { .. }")
    }
}

impl<T: Drop> Model for Order<T> {
    ghost use Rattle.spk_order.specs.Ordered.{Ordered, IsKept};

    ghost Value = { Ordered T };

    ghost view = { λ o. record { standing = o.sequence; kept = o.slots.items } };

    ghost invariant = { λ o. IsKept o.sequence o.slots.items };
}

impl<T: Drop> Order<T> {
    /// A node of which nothing is known. A held message waits `wait` milliseconds for the ones
    /// before it, and `width` numbers are taken at a time. Refused only where memory is.
    pub fn new(alloc: Global, wait: u64, width: Width) -> Result<Order<T>, AllocError>
        ensures fresh { IfOk result (λ o. o ≡ fresh_order wait width) }
        ensures whole { IfOk result (λ o. IsKept o.standing o.kept) }
    {
        let slots = empty_slots(alloc)?;
        let sequence = Sequence::new(wait, width);
        Ok(Order {
            alloc,
            sequence,
            slots,
        })
    }

    /// A message of the node, with its sequence number and its payload, at a moment in milliseconds. What
    /// becomes of it is the step of `Sequence::hand`. Where it is held, its payload is kept; where it is
    /// consumed, its payload comes out, and behind it those that were kept under the numbers after its
    /// own, as many as the step says. The payloads of what the order drops are freed. Refused only where
    /// memory is, before anything changes.
    pub fn hand(
        &mut self,
        number: u8,
        kind: Kind,
        payload: T,
        now: u64,
    ) -> Result<Handed<T>, NoMemory<T>>
        ensures step { IfOk result (λ h. h.step ≡ (hand self.old.standing number kind now).0) }
        ensures consumed { IfOk result (λ h.
            map Some h.consumed.items ≡ consumed_with self.old.kept number payload h.step) }
        ensures few { IfOk result (λ h. length h.consumed.items ≤ self.old.standing.width) }
        ensures data { OnOk result (self.new ≡ handed self.old number kind payload now) }
        ensures returned { IfErr result (λ e. e.payload ≡ payload) }
        ensures unchanged { OnErr result (self.new ≡ self.old) }
        ensures whole { IsKept self.new.standing self.new.kept }
    {
        laws::numbers();
        let is_any_held = self.sequence.is_any_held();
        let room = room_for(&self.sequence, is_any_held);
        let Ok(consumed) = Vec::with_capacity(self.alloc, room) else {
            return Err(NoMemory { payload });
        };
        let step = self.sequence.hand(number, kind, now);
        let consumed = place(&mut self.slots, consumed, number, payload, step);
        settle(&mut self.slots, &self.sequence, may_drop(step, is_any_held));
        Ok(Handed { step, consumed })
    }

    /// A message that isn't held, and with which no held one is consumed: its payload stays with the caller. What `hand` does with it,
    /// whatever its payload is. Takes no memory.
    pub fn pass(&mut self, number: u8, kind: Kind, now: u64)
        requires { IsAlone (hand self.old.standing number kind now).0 }
        ensures data { (payload : T) → self.new ≡ handed self.old number kind payload now }
        ensures whole { IsKept self.new.standing self.new.kept }
    {
        laws::numbers();
        let is_any_held = self.sequence.is_any_held();
        let passed = self.sequence.hand(number, kind, now);
        settle(
            &mut self.slots,
            &self.sequence,
            may_drop(passed, is_any_held),
        );
    }

    /// A moment in milliseconds: a gap if a held message has waited long enough for one before it.
    /// The payloads of what the order drops are freed.
    pub fn tick(&mut self, now: u64) -> Option<Gap>
        ensures gap { is_some result ≡ is_over self.old.standing now }
        ensures data { self.new ≡ stands_so (tick self.old.standing now) self.old.kept }
        ensures whole { IsKept self.new.standing self.new.kept }
    {
        laws::numbers();
        let gap = self.sequence.tick(now);
        settle(&mut self.slots, &self.sequence, gap.is_some());
        gap
    }

    /// An NDEATH of the node, with its bdSeq. The payloads of what the order drops are freed.
    pub fn death(&mut self, bd: u8) -> Match
        ensures answer { result ≡ match_of self.old.standing bd }
        ensures data { self.new ≡ stands_so (death self.old.standing bd) self.old.kept }
        ensures whole { IsKept self.new.standing self.new.kept }
    {
        laws::numbers();
        let is_any_held = self.sequence.is_any_held();
        let answer = self.sequence.death(bd);
        settle(
            &mut self.slots,
            &self.sequence,
            may_end(answer, is_any_held),
        );
        answer
    }

    /// A new host session: nothing is known of the node, and every payload is freed.
    pub fn reset(&mut self)
        ensures data { self.new ≡ fresh_order self.old.standing.wait self.old.standing.width }
        ensures whole { IsKept self.new.standing self.new.kept }
    {
        let is_any_held = self.sequence.is_any_held();
        self.sequence.reset();
        settle(&mut self.slots, &self.sequence, is_any_held);
    }

    /// The moment from which on `tick` is a gap, as long as nothing else happens. None where no moment is. At any other moment nothing
    /// changes.
    pub fn due(&self) -> Option<u64>
        ensures due { (now : ℕ) → now < 2 ^ 64
            → is_over self.now.standing now ≡ has_come result now }
        ensures still { (now : ℕ) → is_over self.now.standing now ≡ false
            → stands_so (tick self.now.standing now) self.now.kept ≡ self.now }
    {
        self.sequence.due()
    }

    /// How many messages are held, with their payloads.
    pub fn held(&self) -> u8
        ensures count { result ≡ held_count self.now.standing.held }
        ensures bounded { result ≤ self.now.standing.width }
    {
        Sequence::held(&self.sequence)
    }

    /// What `hand` and `pass` would lose with this message: how many held messages they would drop, with their payloads, and
    /// how many are missing before the nearest held one (`Sequence::loss_at_hand`). Nothing changes, and no memory is taken.
    pub fn loss_at_hand(&self, number: u8, kind: Kind, now: u64) -> Loss
        ensures { result ≡ loss_at self.now.standing (Called (Hand number kind now)) }
    {
        self.sequence.loss_at_hand(number, kind, now)
    }

    /// What `tick` would lose at this moment: all that is held, if it is a gap. Nothing changes.
    pub fn loss_at_tick(&self, now: u64) -> Loss
        ensures { result ≡ loss_at self.now.standing (Called (Tick now)) }
    {
        self.sequence.loss_at_tick(now)
    }

    /// What `death` would lose with this bdSeq: all that is held, if it matches. Nothing changes.
    pub fn loss_at_death(&self, bd: u8) -> Loss
        ensures { result ≡ loss_at self.now.standing (Called (Death bd)) }
    {
        self.sequence.loss_at_death(bd)
    }

    /// What `reset` would lose: all that is held. Nothing changes.
    pub fn loss_at_reset(&self) -> Loss
        ensures { result ≡ loss_at self.now.standing Reset }
    {
        self.sequence.loss_at_reset()
    }

    /// How the order stands.
    pub fn sequence(&self) -> &Sequence
        ensures standing { result.now ≡ self.now.standing }
        ensures whole { IsKept self.now.standing self.now.kept }
    {
        &self.sequence
    }
}

/// So many payloads at most come out at the next message: one, while nothing is held.
fn room_for(sequence: &Sequence, is_any_held: bool) -> usize
    requires any { is_any_held ≡ is_any_held_in sequence.now.held }
    requires whole { IsWhole sequence.now }
    ensures some { 0 < result }
    ensures enough { (number now n : ℕ) (kind : Kind) → number < 256
        → (hand sequence.now number kind now).0 ≡ Step.Consumed n → n ≤ result }
{
    laws::numbers();
    if is_any_held { 96 } else { 1 }
}

/// Whether a death may have dropped a held message: it ended the session that is followed, and any was held.
fn may_end(answer: Match, is_any_held: bool) -> bool
    ensures { result ≡ false → (answer ≡ Match.Ignored) ⊎ (is_any_held ≡ false) }
{
    match answer {
        Match::Matched => is_any_held,
        Match::Ignored => false,
    }
}

/// Whether a step may have dropped or consumed a held message.
fn may_drop(step: Step, is_any_held: bool) -> bool
    ensures { result ≡ false → (step ≡ Step.Held) ⊎ (is_any_held ≡ false) }
{
    match step {
        Step::Held => false,
        _ => is_any_held,
    }
}
