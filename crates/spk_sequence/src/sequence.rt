//! The order of one node by sequence numbers: what comes next, what is held, and what was lost.
ghost use Rattle.std.specs.Prelude.{◌≡◌, ℕ, ◌+◌, ◌^◌, ◌<◌, ◌≤◌, ◌==◌, nat_le, is_some, if◌then◌else◌, Option, None};
ghost use Rattle.spk_sequence.specs.Data.{Standing, IsWhole, held_at};
ghost use Rattle.spk_sequence.specs.Due.{has_come};
ghost use Rattle.spk_sequence.specs.Calls.{Hand, Tick, Death};
ghost use Rattle.spk_sequence.specs.Losses.{Called, Reset, missing_in, at_stake, loss_at, no_loss};
ghost use Rattle.spk_sequence.specs.Numbers.{held_as, held_count};
ghost use Rattle.spk_sequence.specs.Step.{is_any_held, ahead, is_below, places_from, places_after, kept_places, run_of, after_consumed, after_stop, after_held, hand_birth, hand_other, hand_ahead, hand, is_over, tick, match_of, death, fresh_standing, next_of};

use crate::answer::{Gap, Loss, Match, NO_LOSS, Step};
use crate::message::Kind;
use crate::phase::Phase;
use crate::slots::Slots;
use crate::width::Width;
use std::marker::Model;

/// The order of one node's messages at a host, from the beginning of a host session.
///
/// It keeps no message: a caller keeps those that are `Held`, under their numbers.
#[derive(Debug, Drop)]
pub struct Sequence {
    wait: u64,
    width: Width,
    phase: Phase,
    stamp: u64,
    bd: u8,
    next: u8,
    since: u64,
    slots: Slots,
}

impl Model for Sequence {
    ghost use Rattle.spk_sequence.specs.Data.{Standing};
    ghost use Rattle.spk_sequence.specs.Slots.{places_of, IsWithin};

    ghost Value = { Standing };

    ghost view = { λ s. record {
      wait = s.wait;
      width = s.width;
      phase = s.phase;
      stamp = s.stamp;
      bd = s.bd;
      next = s.next;
      since = s.since;
      held = places_of s.slots s.next s.width;
    } };

    ghost invariant = { λ s. IsWithin s.slots s.next s.width };
}

impl Sequence {
    /// A node of which nothing is known. A held message waits `wait` milliseconds for the ones
    /// before it, and `width` numbers are taken at a time.
    pub fn new(wait: u64, width: Width) -> Sequence
        ensures fresh { result ≡ fresh_standing wait width }
        ensures whole { IsWhole result }
    {
        let _places = width.get();
        Sequence {
            wait,
            width,
            phase: Phase::Unknown,
            stamp: 0,
            bd: 0,
            next: 0,
            since: 0,
            slots: Slots::new(),
        }
    }

    /// A message of the node, with its sequence number, at a moment in milliseconds (Sparkplug 3.0.0,
    /// chapter 5 on the ordering of messages). The first rule that fits decides:
    ///
    /// 1. An NBIRTH whose stamp is not above that of the birth taken last is `OldBirth`.
    /// 2. An NBIRTH with the bdSeq of the birth taken last, while that session is dead, is `DeadSession`.
    /// 3. Any other NBIRTH is taken, and the node is followed from it on. Of what is held, those stay
    ///    whose number is 1 to width - 1 past the birth's and whose stamp is there and not below its own.
    ///    It is `Consumed`, with those that follow it without a hole.
    /// 4. Any other message, while the node isn't followed, is `NotLive`.
    /// 5. A message whose stamp is below that of the birth taken last is `Old`.
    /// 6. Else the distance from the number that comes next decides: 0 is `Consumed`, with those held
    ///    that follow without a hole; below width it is `Held`, or `Old` if that number is held already;
    ///    below 256 - width it is `Gap`, and all that is held is dropped; above that it is `Old`.
    ///
    /// Stamps and the window are this project's own rules.
    pub fn hand(&mut self, number: u8, kind: Kind, now: u64) -> Step
        ensures step { result ≡ (hand self.old number kind now).0 }
        ensures data { self.new ≡ (hand self.old number kind now).1 }
        ensures whole { IsWhole self.new }
    {
        match kind {
            Kind::Birth { stamp, bd } => self.hand_birth(number, stamp, bd, now),
            Kind::Other { stamp } => self.hand_other(number, stamp, now),
        }
    }

    /// What would become of a message: the step that `hand` would answer. Nothing changes.
    pub fn step_of(&self, number: u8, kind: Kind, now: u64) -> Step
        ensures step { result ≡ (hand self.now number kind now).0 }
    {
        match kind {
            Kind::Birth { .. } => {
                let mut copy = self.copied();
                copy.hand(number, kind, now)
            }
            Kind::Other { stamp } => self.other_step(number, stamp),
        }
    }

    /// A moment in milliseconds: a gap if a held message has waited long enough for one before it.
    pub fn tick(&mut self, now: u64) -> Option<Gap>
        ensures gap { is_some result ≡ is_over self.old now }
        ensures data { self.new ≡ tick self.old now }
        ensures whole { IsWhole self.new }
    {
        if self.is_over(now) {
            self.stop(Phase::Gap);
            Some(Gap)
        } else {
            None
        }
    }

    /// An NDEATH of the node, with its bdSeq (Sparkplug 3.0.0, chapter 5).
    pub fn death(&mut self, bd: u8) -> Match
        ensures answer { result ≡ match_of self.old bd }
        ensures data { self.new ≡ death self.old bd }
        ensures whole { IsWhole self.new }
    {
        if self.phase().is_known() && self.is_session(bd) {
            self.stop(Phase::Dead);
            Match::Matched
        } else {
            Match::Ignored
        }
    }

    /// A new host session: nothing is known of the node.
    pub fn reset(&mut self)
        ensures data { self.new ≡ fresh_standing self.old.wait self.old.width }
        ensures whole { IsWhole self.new }
    {
        self.phase = Phase::Unknown;
        self.stamp = 0;
        self.bd = 0;
        self.next = 0;
        self.since = 0;
        self.slots.clear_all();
    }

    /// Whether a held message has waited long enough for one before it, so that `tick` would answer a gap.
    pub fn is_over(&self, now: u64) -> bool
        ensures value { result ≡ is_over self.now now }
        ensures whole { IsWhole self.now }
    {
        self.is_any_held() && self.wait <= now.saturating_sub(self.since)
    }

    /// The moment from which on `is_over` holds. None while no message is held, or where no moment is late enough.
    pub fn due(&self) -> Option<u64>
        ensures { (now : ℕ) → now < 2 ^ 64 → is_over self.now now ≡ has_come result now }
    {
        let is_held = self.is_any_held();
        if is_held && self.wait == 0 {
            Some(0)
        } else if is_held {
            self.since.checked_add(self.wait)
        } else {
            None
        }
    }

    /// How long a held message waits for the ones before it, in milliseconds.
    pub fn wait(&self) -> u64
        ensures { result ≡ self.now.wait }
    {
        self.wait
    }

    /// How the host stands to the node.
    pub fn phase(&self) -> Phase
        ensures value { result ≡ self.now.phase }
        ensures whole { IsWhole self.now }
    {
        self.phase
    }

    /// The number that comes next, while the node is followed.
    pub fn next(&self) -> Option<u8>
        ensures value { result ≡ next_of self.now }
        ensures whole { IsWhole self.now }
    {
        if self.phase().is_live() {
            Some(self.next)
        } else {
            None
        }
    }

    /// How many messages are held.
    pub fn held(&self) -> u8
        ensures count { result ≡ held_count self.now.held }
        ensures bounded { result ≤ self.now.width }
        ensures whole { IsWhole self.now }
    {
        if !self.is_any_held() {
            return 0;
        }
        let width = self.width();
        let mut count = 0u8;
        for distance in 0..width {
            count += u8::from(self.is_held_at(distance));
        }
        count
    }

    /// Whether the message of this number is held.
    pub fn is_held(&self, number: u8) -> bool
        ensures value { result ≡ is_some (held_as self.now number) }
        ensures whole { IsWhole self.now }
    {
        let place = self.place_of(number);
        place < self.width() && self.is_held_at(place)
    }

    /// What `hand` would lose with this message: how many held messages it would drop, and how many were missing before
    /// the nearest held one. An NBIRTH that is taken drops those that it neither keeps nor brings out with itself; its own
    /// number may be among those missing. Any other message drops all if it is a `Gap`. Else nothing is lost. Nothing changes.
    pub fn loss_at_hand(&self, number: u8, kind: Kind, now: u64) -> Loss
        ensures { result ≡ loss_at self.now (Called (Hand number kind now)) }
    {
        match kind {
            _ if !self.is_any_held() => NO_LOSS,
            Kind::Birth { stamp, bd } => self.birth_loss(number, stamp, bd, now),
            Kind::Other { stamp } => match self.other_step(number, stamp) {
                Step::Gap => self.at_stake(),
                _ => NO_LOSS,
            },
        }
    }

    /// What `tick` would lose at this moment: all that is held, if it is a gap. Nothing changes.
    pub fn loss_at_tick(&self, now: u64) -> Loss
        ensures { result ≡ loss_at self.now (Called (Tick now)) }
    {
        self.loss_if(self.is_over(now))
    }

    /// What `death` would lose with this bdSeq: all that is held, if it matches. Nothing changes.
    pub fn loss_at_death(&self, bd: u8) -> Loss
        ensures { result ≡ loss_at self.now (Called (Death bd)) }
    {
        self.loss_if(self.phase().is_known() && self.is_session(bd))
    }

    /// What `reset` would lose: all that is held. Nothing changes.
    pub fn loss_at_reset(&self) -> Loss
        ensures { result ≡ loss_at self.now Reset }
    {
        Sequence::at_stake(self)
    }

    /// All that is held, and what is missing before the nearest held message: what would be lost if all were dropped,
    /// as at a gap, a matching death and a `reset`.
    pub fn at_stake(&self) -> Loss
        ensures value { result ≡ at_stake self.now }
        ensures whole { IsWhole self.now }
    {
        Loss {
            held: self.held(),
            missing: self.missing(),
        }
    }

    /// All that is held, where it is dropped.
    fn loss_if(&self, is_dropped: bool) -> Loss
        ensures { result ≡ (if is_dropped then at_stake self.now else no_loss) }
    {
        if is_dropped { self.at_stake() } else { NO_LOSS }
    }

    /// How many numbers there are from the one that comes next to the nearest held one.
    fn missing(&self) -> u8
        ensures value { result ≡ missing_in self.now.held }
        ensures whole { IsWhole self.now }
    {
        let width = self.width();
        for place in 0..width {
            if self.is_held_at(place) {
                return place;
            }
        }
        0
    }

    /// What `hand` would lose with an NBIRTH: what was held and is neither consumed with it nor kept.
    fn birth_loss(&self, number: u8, stamp: u64, bd: u8, now: u64) -> Loss
        ensures { result ≡ loss_at self.now (Called (Hand number (Kind.Birth stamp bd) now)) }
    {
        let mut after = self.copied();
        let Step::Consumed(count) = after.hand_birth(number, stamp, bd, now) else {
            return NO_LOSS;
        };
        let held = self.held() - (count - 1) - after.held();
        if held == 0 {
            return NO_LOSS;
        }
        Loss {
            held,
            missing: self.missing(),
        }
    }

    /// An order that stands the same.
    fn copied(&self) -> Sequence
        ensures { result ≡ self.now }
    {
        Sequence {
            wait: self.wait,
            width: self.width,
            phase: self.phase,
            stamp: self.stamp,
            bd: self.bd,
            next: self.next,
            since: self.since,
            slots: self.slots.copied(),
        }
    }

    /// What would become of a message that is no NBIRTH. The moment plays no part.
    fn other_step(&self, number: u8, stamp: Option<u64>) -> Step
        ensures { (now : ℕ) → result ≡ (hand_other self.now number stamp now).0 }
    {
        let Phase::Live = self.phase() else {
            return Step::NotLive;
        };
        if self.is_before_birth(stamp) {
            return Step::Old;
        }
        let place = self.place_of(number);
        if place != 0 {
            return self.ahead_step(place);
        }
        Step::Consumed(1 + self.run_after(number))
    }

    /// What would become of a message whose number is not the one that comes next.
    fn ahead_step(&self, place: u8) -> Step
        ensures { (stamp : Option ℕ) (now : ℕ)
            → result ≡ (hand_ahead self.now place stamp now).0 }
    {
        let width = self.width();
        if place >= width {
            if u16::from(place) < 256 - u16::from(width) {
                Step::Gap
            } else {
                Step::Old
            }
        } else if self.is_held_at(place) {
            Step::Old
        } else {
            Step::Held
        }
    }

    /// How many held messages follow the one that comes next without a hole.
    fn run_after(&self, number: u8) -> u8
        requires { number ≡ self.now.next }
        ensures value { result ≡ run_of (places_after self.now) }
        ensures bounded { result ≤ 96 }
    {
        let first = number.wrapping_add(1);
        self.slots.run(first, self.width.get())
    }

    fn hand_birth(&mut self, number: u8, stamp: u64, bd: u8, now: u64) -> Step
        ensures step { result ≡ (hand_birth self.old number stamp bd now).0 }
        ensures data { self.new ≡ (hand_birth self.old number stamp bd now).1 }
        ensures whole { IsWhole self.new }
    {
        if self.phase().is_known() && self.is_not_newer(stamp) {
            return Step::OldBirth;
        }
        if self.phase().is_dead() && self.is_session(bd) {
            return Step::DeadSession;
        }
        self.restart(number, stamp, bd);
        self.consume(number, now)
    }

    fn hand_other(&mut self, number: u8, stamp: Option<u64>, now: u64) -> Step
        ensures step { result ≡ (hand_other self.old number stamp now).0 }
        ensures data { self.new ≡ (hand_other self.old number stamp now).1 }
        ensures whole { IsWhole self.new }
    {
        if !self.phase().is_live() {
            return Step::NotLive;
        }
        if self.is_before_birth(stamp) {
            return Step::Old;
        }
        let place = self.place_of(number);
        if place == 0 {
            return self.consume(number, now);
        }
        self.hand_ahead(place, stamp, now)
    }

    /// A message whose number is not the one that comes next.
    fn hand_ahead(&mut self, place: u8, stamp: Option<u64>, now: u64) -> Step
        requires { 0 < place }
        ensures step { result ≡ (hand_ahead self.old place stamp now).0 }
        ensures data { self.new ≡ (hand_ahead self.old place stamp now).1 }
        ensures whole { IsWhole self.new }
    {
        let width = self.width();
        if place < width {
            if self.is_held_at(place) {
                return Step::Old;
            }
            self.hold(place, stamp, now);
            return Step::Held;
        }
        if u16::from(place) < 256 - u16::from(width) {
            self.stop(Phase::Gap);
            return Step::Gap;
        }
        Step::Old
    }

    /// Whether a birth of this stamp is not newer than the one taken last.
    fn is_not_newer(&self, stamp: u64) -> bool
        ensures { result ≡ nat_le stamp self.now.stamp }
    {
        stamp <= self.stamp
    }

    /// Whether a bdSeq is that of the birth taken last.
    fn is_session(&self, bd: u8) -> bool
        ensures { result ≡ (bd == self.now.bd) }
    {
        bd == self.bd
    }

    /// Whether a message is older than the birth taken last, by its stamp.
    fn is_before_birth(&self, stamp: Option<u64>) -> bool
        ensures { result ≡ is_below stamp self.now.stamp }
    {
        match stamp {
            Some(own) => own < self.stamp,
            None => false,
        }
    }

    fn width(&self) -> u8
        ensures value { result ≡ self.now.width }
        ensures bounded { result ≤ 96 }
        ensures whole { IsWhole self.now }
    {
        self.width.get()
    }

    /// How far a number is ahead of the one that comes next.
    fn place_of(&self, number: u8) -> u8
        ensures value { result ≡ ahead number self.now.next }
        ensures next { result ≡ 0 → number ≡ self.now.next }
    {
        number.wrapping_sub(self.next)
    }

    /// Whether any message is held.
    pub fn is_any_held(&self) -> bool
        ensures value { result ≡ is_any_held self.now.held }
        ensures whole { IsWhole self.now }
    {
        !self.slots.is_empty()
    }

    fn is_held_at(&self, place: u8) -> bool
        requires { place < self.now.width }
        ensures { result ≡ is_some (held_at self.now.held place) }
    {
        self.slots
            .get(self.next.wrapping_add(place) % 128)
            .is_some()
    }

    /// The node is no longer followed, and what is held is dropped.
    fn stop(&mut self, phase: Phase)
        ensures data { self.new ≡ after_stop self.old phase }
        ensures whole { IsWhole self.new }
    {
        self.phase = phase;
        self.slots.clear_all();
    }

    /// The moment from which on the wait counts once one more message is held.
    fn wait_start(&self, now: u64) -> u64
        ensures { result ≡ (if is_any_held self.now.held then self.now.since else now) }
    {
        if self.is_any_held() { self.since } else { now }
    }

    /// One more message is held. The wait begins if none was.
    fn hold(&mut self, place: u8, stamp: Option<u64>, now: u64)
        requires ahead { 0 < place }
        requires within { place < self.old.width }
        ensures data { self.new ≡ after_held self.old place stamp now }
        ensures whole { IsWhole self.new }
    {
        let since = self.wait_start(now);
        self.since = since;
        self.slots.put(self.next.wrapping_add(place) % 128, stamp);
    }

    /// A birth is taken: of what is held, there stays what it keeps.
    fn restart(&mut self, number: u8, stamp: u64, bd: u8)
        ensures data { self.new
            ≡ record self.old { stamp = stamp; bd = bd; next = number; held = self.new.held } }
        ensures kept { places_from self.new.held self.new.width 1
            ≡ kept_places self.old number stamp }
    {
        let width = self.width.get();
        self.slots.keep(self.next, width, number, stamp);
        self.next = number;
        self.stamp = stamp;
        self.bd = bd;
    }

    /// The message that comes next is consumed, and those that follow it without a hole.
    fn consume(&mut self, number: u8, now: u64) -> Step
        requires { number ≡ self.old.next }
        ensures step { result ≡ Step.Consumed (1 + run_of (places_after self.old)) }
        ensures data { self.new ≡ after_consumed self.old number (places_after self.old) now }
        ensures whole { IsWhole self.new }
    {
        let first = number.wrapping_add(1);
        let run = self.slots.take_run(first, self.width.get());
        self.phase = Phase::Live;
        self.next = first.wrapping_add(run);
        self.since = now;
        Step::Consumed(1 + run)
    }
}
