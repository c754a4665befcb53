//! What a host keeps of one node.
ghost use Rattle.std.specs.Prelude.{◌≡◌, ◌+◌, ◌^◌, ◌<◌, ◌≤◌, ◌∷◌, [], true, false, ℕ, map, length, IfOk, OnOk, OnErr, is_some, if◌then◌else◌};
ghost use Rattle.std.specs.Option.{option_map};
ghost use Rattle.spk_reading.specs.View.{numbered_view};
ghost use Rattle.spk_sequence.specs.Calls.{Hand, Tick, Death};
ghost use Rattle.spk_sequence.specs.Due.{has_come};
ghost use Rattle.spk_sequence.specs.Losses.{Called, Reset, loss_at};
ghost use Rattle.spk_sequence.specs.Step as sequence;
ghost use Rattle.spk_host_rules.specs.Data.{Gap};
ghost use Rattle.spk_host_rules.specs.Step as rules;
ghost use Rattle.spk_order.specs.Step.{handed};
ghost use Rattle.spk_host_node.specs.Data as plain;
ghost use Rattle.spk_host_node.specs.Plain.{IsPlain};
ghost use Rattle.spk_host_node.specs.Room.{IsDropped};
ghost use Rattle.spk_host_node.specs.Soon.{devices_in, is_near, is_soon_told, is_told};
ghost use Rattle.spk_host_node.specs.Step as spec;

use crate::alone::show_alone;
use crate::hearing::{Handed, hear, is_dropped, most_heard};
use crate::kept::Kept;
use crate::plain::{is_plain, show_plain};
use spk_order::Order;
use spk_reading::{Numbered, Subject};
use spk_sequence::{Loss, Match, Phase, Step, Width};
use spk_view::{NodeView, Watch};
use std::alloc::{AllocError, Global};
use std::fmt;
use std::marker::Model;

/// So many metrics are few: to look them up costs no more than a rebirth request that is made in vain, and a metric as much as to pass
/// over four devices (docs/PERF.md).
const FEW: usize = 64;

/// What came of a moment: whether there was a gap, and whether a rebirth is asked for.
#[derive(Clone, Copy, Debug, PartialEq, Eq)]
pub struct Ticked {
    pub is_gap: bool,
    pub asks: bool,
}

/// What a host keeps of one node (Sparkplug 3.0.0, chapter 5): the order of its messages in the host's present session, and its
/// view and the limit of rebirth requests, which outlive the session. Contracts see a `NodeData`.
#[derive(Drop)]
pub struct HostNode {
    alloc: Global,
    order: Order<Kept>,
    watch: Watch,
}

impl fmt::Debug for HostNode {
    fn fmt<W: fmt::Write>(&self, f: &mut fmt::Formatter<W>) -> fmt::Result {
        f.write_str("HostNode { .. }")
    }
}

impl Model for HostNode {
    ghost use Rattle.spk_host_node.specs.Data.{NodeData};

    ghost Value = { NodeData };

    ghost view = { λ n. record { order = n.order; watch = n.watch.watch } };
}

impl HostNode {
    /// A node of which nothing was ever heard. A held message waits `wait` milliseconds for the ones before it, and so much time
    /// passes between two rebirth requests; `width` numbers are taken at a time. Refused only where memory is.
    pub fn new(alloc: Global, wait: u64, width: Width) -> Result<HostNode, AllocError>
        ensures { IfOk result (λ n. n ≡ plain.fresh_node wait width) }
    {
        let order = Order::new(alloc, wait, width)?;
        let watch = Watch::new(alloc);
        Ok(HostNode {
            alloc,
            order,
            watch,
        })
    }

    /// How the host stands to the node. Takes no memory.
    pub fn phase(&self) -> Phase
        ensures { result ≡ self.now.order.standing.phase }
    {
        self.order.sequence().phase()
    }

    /// What is shown of the node, from its first birth on. Takes no memory.
    pub fn view(&self) -> Option<&NodeView>
        ensures { option_map (λ v. v.now.view) result ≡ self.now.watch.view }
    {
        self.watch.view()
    }

    /// What would become of a message.
    fn step_of(&self, message: &Numbered, now: u64) -> Step
        ensures { result ≡ spec.step_of self.now.order (numbered_view message.now) now }
    {
        self.order
            .sequence()
            .step_of(message.number, message.kind, now)
    }

    /// How many rebirths may be asked for at a message, at most. Takes no memory.
    pub fn most_requests(&self, message: &Numbered, now: u64) -> usize
        ensures enough { spec.requests_of self.now (numbered_view message.now) now ≤ result }
        ensures few { result ≤ 256 }
    {
        most_heard(self.step_of(message, now))
    }

    /// How many rebirths may be asked for at a message, at most; where the view hears one event, and it costs little to tell, how many
    /// are. Takes no memory.
    pub fn requests_at(&self, message: &Numbered, now: u64) -> usize
        ensures enough { spec.requests_of self.now (numbered_view message.now) now ≤ result }
        ensures few { result ≤ 256 }
        ensures told { is_told (spec.step_of self.now.order (numbered_view message.now) now)
            self.now.watch (numbered_view message.now) ≡ true
            → result ≡ spec.requests_of self.now (numbered_view message.now) now }
    {
        let step = self.step_of(message, now);
        match step {
            Step::Consumed(1) if self.is_soon_told(message) => {
                usize::from(self.asks_at(message, now))
            }
            Step::Gap | Step::NotLive => usize::from(self.asks_at_gap(now)),
            _ => most_heard(step),
        }
    }

    /// Whether it costs no more to tell if a message asks for a rebirth than to make a request in vain: its metrics are looked up once
    /// more when they are shown, and a device is looked for one by one.
    fn is_soon_told(&self, message: &Numbered) -> bool
        ensures { result ≡ is_soon_told self.now.watch (numbered_view message.now) }
    {
        let metrics = message.payload.metrics.len();
        match &message.subject {
            Subject::NodeBirth | Subject::DeviceBirth(_) => true,
            Subject::NodeData => metrics <= FEW,
            Subject::DeviceData(_) => metrics <= FEW && self.is_near(metrics),
            Subject::DeviceDeath(_) => self.is_near(0),
        }
    }

    /// Whether a device is soon found beside so many metrics.
    fn is_near(&self, metrics: usize) -> bool
        ensures { result ≡ is_near metrics (devices_in self.now.watch.view) }
    {
        let devices = match self.view() {
            Some(view) => view.devices().len(),
            None => 0,
        };
        devices / 4 <= FEW.saturating_sub(metrics)
    }

    /// Whether a rebirth would be asked for at a gap.
    fn asks_at_gap(&self, now: u64) -> bool
        ensures { result ≡ rules.asks self.now.order.standing.wait self.now.watch (Gap now) }
    {
        self.watch.asks_at_gap(self.order.sequence().wait(), now)
    }

    /// Whether a rebirth would be asked for at a message that is consumed.
    fn asks_at(&self, message: &Numbered, now: u64) -> bool
        ensures { result ≡ rules.asks self.now.order.standing.wait self.now.watch
            (spec.consumed_at now (numbered_view message.now)) }
    {
        let wait = self.order.sequence().wait();
        let metrics = &message.payload.metrics;
        match &message.subject {
            Subject::NodeBirth | Subject::DeviceBirth(_) => false,
            Subject::NodeData => self.watch.asks_at_node_data(wait, metrics, now),
            Subject::DeviceData(device) => {
                self.watch
                    .asks_at_device_data(wait, device.as_str(), metrics, now)
            }
            Subject::DeviceDeath(device) => {
                self.watch.asks_at_device_death(wait, device.as_str(), now)
            }
        }
    }

    /// A message of the node at a moment, in milliseconds. What becomes of it is the step of the node's order; where messages are
    /// consumed, they are shown in order. Refused only where memory is, before anything changes.
    pub fn hand(&mut self, message: Numbered, now: u64) -> Result<Handed, AllocError>
        ensures step { IfOk result
            (λ h. h.step ≡ spec.step_of self.old.order (numbered_view message) now) }
        ensures consumed { IfOk result (λ h.
            map numbered_view h.consumed.items
            ≡ spec.taken_of self.old.order (numbered_view message) now) }
        ensures requests { IfOk result
            (λ h. h.requests ≡ spec.requests_of self.old (numbered_view message) now) }
        ensures data { OnOk result (self.new ≡ spec.hand self.old (numbered_view message) now) }
        ensures unchanged { OnErr result (self.new ≡ self.old) }
    {
        let step = self.step_of(&message, now);
        if step == Step::Consumed(1) {
            if is_plain(&message) {
                return self.hand_plain(message, now);
            }
            return self.hand_alone(message, now);
        }
        if is_dropped(step) {
            return Ok(self.hand_dropped(&message, step, now));
        }
        let room = most_heard(step);
        self.watch.reserve(room)?;
        let consumed = Vec::with_capacity(self.alloc, room)?;
        let wait = self.order.sequence().wait();
        let (number, kind) = (message.number, message.kind);
        let kept = Kept::new(self.alloc, message)?;
        let Ok(handed) = self.order.hand(number, kind, kept, now) else {
            return Err(AllocError);
        };
        Ok(hear(&mut self.watch, wait, handed, consumed, now))
    }

    /// A message that is dropped: the view hears what its step says. Takes no memory.
    fn hand_dropped(&mut self, message: &Numbered, step: Step, now: u64) -> Handed
        requires is { step ≡ spec.step_of self.old.order (numbered_view message.now) now }
        requires dropped { IsDropped step }
        ensures step { result.step ≡ step }
        ensures consumed { map numbered_view result.consumed.items
            ≡ spec.taken_of self.old.order (numbered_view message.now) now }
        ensures requests { result.requests
            ≡ spec.requests_of self.old (numbered_view message.now) now }
        ensures data { self.new ≡ spec.hand self.old (numbered_view message.now) now }
    {
        let wait = self.order.sequence().wait();
        self.order.pass(message.number, message.kind, now);
        let handed = spk_order::Handed {
            step,
            consumed: Vec::new(self.alloc),
        };
        let consumed = Vec::new(self.alloc);
        hear(&mut self.watch, wait, handed, consumed, now)
    }

    /// Data without texts that are consumed alone: they are shown as they came. All memory is asked for before anything changes.
    fn hand_plain(&mut self, message: Numbered, now: u64) -> Result<Handed, AllocError>
        requires alone { spec.step_of self.old.order (numbered_view message) now ≡ Step.Consumed 1 }
        requires plain { IsPlain (numbered_view message) }
        ensures step { IfOk result (λ h. h.step ≡ Step.Consumed 1) }
        ensures consumed { IfOk result (λ h.
            map numbered_view h.consumed.items ≡ numbered_view message ∷ []) }
        ensures requests { IfOk result (λ h. h.requests
            ≡ (if rules.asks self.old.order.standing.wait self.old.watch
            (spec.consumed_at now (numbered_view message)) then 1 else 0)) }
        ensures order { OnOk result (self.new.order ≡ handed self.old.order
            message.number message.kind (numbered_view message) now) }
        ensures watch { OnOk result (self.new.watch ≡ rules.step self.old.order.standing.wait
            self.old.watch (spec.consumed_at now (numbered_view message))) }
        ensures unchanged { OnErr result (self.new ≡ self.old) }
    {
        let mut consumed = Vec::with_capacity(self.alloc, 1)?;
        let wait = self.order.sequence().wait();
        self.order.pass(message.number, message.kind, now);
        let asks = show_plain(&mut self.watch, wait, &message, now);
        consumed.push_reserved(message);
        Ok(Handed {
            step: Step::Consumed(1),
            consumed,
            requests: usize::from(asks),
        })
    }

    /// Any message that is consumed alone: it is shown without being kept between. All memory is asked for before anything changes.
    fn hand_alone(&mut self, message: Numbered, now: u64) -> Result<Handed, AllocError>
        requires { spec.step_of self.old.order (numbered_view message) now ≡ Step.Consumed 1 }
        ensures step { IfOk result (λ h. h.step ≡ Step.Consumed 1) }
        ensures consumed { IfOk result (λ h.
            map numbered_view h.consumed.items ≡ numbered_view message ∷ []) }
        ensures requests { IfOk result (λ h. h.requests
            ≡ (if rules.asks self.old.order.standing.wait self.old.watch
            (spec.consumed_at now (numbered_view message)) then 1 else 0)) }
        ensures order { OnOk result (self.new.order ≡ handed self.old.order
            message.number message.kind (numbered_view message) now) }
        ensures watch { OnOk result (self.new.watch ≡ rules.step self.old.order.standing.wait
            self.old.watch (spec.consumed_at now (numbered_view message))) }
        ensures unchanged { OnErr result (self.new ≡ self.old) }
    {
        let mut consumed = Vec::with_capacity(self.alloc, 1)?;
        let wait = self.order.sequence().wait();
        let is_asked = show_alone(self.alloc, &mut self.watch, wait, &message, now)?;
        self.order.pass(message.number, message.kind, now);
        consumed.push_reserved(message);
        Ok(Handed {
            step: Step::Consumed(1),
            consumed,
            requests: usize::from(is_asked),
        })
    }

    /// Whether a held message has waited long enough for one before it, so that `tick` would be a gap. Takes no memory.
    pub fn is_over(&self, now: u64) -> bool
        ensures { result ≡ sequence.is_over self.now.order.standing now }
    {
        self.order.sequence().is_over(now)
    }

    /// The moment from which on `tick` is a gap, as long as nothing else happens. None where no moment is. At any other moment nothing
    /// changes. Takes no memory.
    pub fn due(&self) -> Option<u64>
        ensures due { (now : ℕ) → now < 2 ^ 64
            → sequence.is_over self.now.order.standing now ≡ has_come result now }
        ensures still { (now : ℕ) → sequence.is_over self.now.order.standing now ≡ false
            → spec.tick self.now now ≡ self.now }
    {
        self.order.due()
    }

    /// Whether `tick` would be a gap at which a rebirth is asked for. Takes no memory.
    pub fn is_asked(&self, now: u64) -> bool
        ensures { result ≡ spec.tick_asks self.now now }
    {
        self.is_over(now) && self.asks_at_gap(now)
    }

    /// A moment, in milliseconds: a gap, if a held message has waited long enough for one before it. Takes no memory.
    pub fn tick(&mut self, now: u64) -> Ticked
        ensures gap { result.is_gap ≡ sequence.is_over self.old.order.standing now }
        ensures asks { result.asks ≡ spec.tick_asks self.old now }
        ensures data { self.new ≡ spec.tick self.old now }
    {
        let wait = self.order.sequence().wait();
        let is_gap = self.order.tick(now).is_some();
        let asks = is_gap && self.watch.gap(wait, now);
        Ticked { is_gap, asks }
    }

    /// An NDEATH of the node, with its bdSeq. Takes no memory.
    pub fn death(&mut self, bd: u8) -> Match
        ensures answer { result ≡ sequence.match_of self.old.order.standing bd }
        ensures data { self.new ≡ spec.death self.old bd }
    {
        let answer = self.order.death(bd);
        if let Match::Matched = answer {
            self.watch.over();
        }
        answer
    }

    /// The host's session is over: nothing is known of the node's order, and what is shown is offline and stale. Takes no memory.
    pub fn over(&mut self)
        ensures { self.new ≡ spec.over self.old }
    {
        self.order.reset();
        self.watch.over();
    }

    /// What `hand` of this message would lose of what is held: how many messages that came before it, and how many are missing before
    /// the nearest of them. Nothing changes, and no memory is taken.
    pub fn loss_at_hand(&self, message: &Numbered, now: u64) -> Loss
        ensures { result ≡ loss_at self.now.order.standing
            (Called (Hand message.now.number message.now.kind now)) }
    {
        self.order.loss_at_hand(message.number, message.kind, now)
    }

    /// What `tick` would lose of what is held. Nothing changes, and no memory is taken.
    pub fn loss_at_tick(&self, now: u64) -> Loss
        ensures { result ≡ loss_at self.now.order.standing (Called (Tick now)) }
    {
        self.order.loss_at_tick(now)
    }

    /// What `death` with this bdSeq would lose of what is held. Nothing changes, and no memory is taken.
    pub fn loss_at_death(&self, bd: u8) -> Loss
        ensures { result ≡ loss_at self.now.order.standing (Called (Death bd)) }
    {
        self.order.loss_at_death(bd)
    }

    /// What `over` would lose of what is held. Nothing changes, and no memory is taken.
    pub fn loss_at_over(&self) -> Loss
        ensures { result ≡ loss_at self.now.order.standing Reset }
    {
        self.order.loss_at_reset()
    }
}
