//! A world.
ghost use Rattle.std.specs.Prelude.{◌≡◌, ◌⊎◌, ℕ, IfOk, IfErr, OnErr, OnOk, None, List, ◌∷◌, map, take, slice_get};
ghost use Rattle.spk_sequence.specs.Claims.{AfterDeath, AfterGap, HasCause, TakesBirth};
ghost use Rattle.spk_sequence.specs.HostRecord.{Input, MessageComes};
ghost use Rattle.spk_world_rules.specs.Answers.{answer_of};
ghost use Rattle.spk_world_rules.specs.Events as rules;
ghost use Rattle.spk_world_rules.specs.Claims.{ComesAs, event_of};
ghost use Rattle.spk_world_rules.specs.Events.{Deed, Hand};
ghost use Rattle.spk_world_rules.specs.Files.{deed_of};
ghost use Rattle.spk_world_rules.specs.Queries.{record_of, setting_of};
ghost use Rattle.spk_world_rules.specs.Refusals.{refusal_of};
ghost use Rattle.spk_world_run.specs.Run.{IsRun};
ghost use Rattle.spk_world.specs.Listed.{IsRefusedBy, IsStoppedBy, with_events};
ghost use Rattle.spk_world_run.specs.Step.{IsStep};
ghost use Rattle.spk_world_run.specs.Tests.{refusal_at};
ghost use Rattle.spk_world.specs.Outcome.{IsDone, IsRefused};
ghost use Rattle.spk_world.specs.Stopping.{IsStopped};
ghost use Rattle.spk_world.specs.Steps.{AreSteps, deed_at};
ghost use Rattle.spk_world.specs.View.{event_view, done_view};

use crate::answer::{Done, Stopped};
use crate::event::Event;
use crate::fault::WorldFault;
use crate::member::Member;
use crate::node::Node;
use spk_edge::Act;
use spk_world_rules::laws::headline;
use spk_world_run::laws;
use std::alloc::Global;
use std::fmt;
use std::marker::Model;

/// Edge nodes, host applications, what each node published, and what each host consumed. Contracts see a `WorldData`.
#[derive(Drop)]
pub struct World {
    pub(crate) alloc: Global,
    pub(crate) nodes: Vec<Node>,
    pub(crate) hosts: Vec<Member>,
}

impl fmt::Debug for World {
    fn fmt<W: fmt::Write>(&self, f: &mut fmt::Formatter<W>) -> fmt::Result {
        f.write_str("World { .. }")
    }
}

impl Model for World {
    ghost use Rattle.std.specs.Prelude.{◌≡◌, true};
    ghost use Rattle.spk_world_run.specs.Data.{WorldData};
    ghost use Rattle.spk_world.specs.Fresh.{are_tracked};

    ghost Value = { WorldData };

    ghost view = { λ w. record { nodes = w.nodes.items; hosts = w.hosts.items } };

    ghost invariant = { λ w. are_tracked w.nodes.items w.hosts.items ≡ true };
}

impl World {
    /// Does what an event says.
    fn done(&mut self, event: &Event) -> Result<Done, WorldFault>
        ensures done { IfOk result
            (IsDone self.old (deed_at self.old (event_view event.now)) self.new) }
        ensures refused { IfErr result
            (IsRefused self.old (deed_at self.old (event_view event.now))) }
        ensures unchanged { OnErr result (self.new ≡ self.old) }
    {
        match event {
            Event::Open { node, now } => self.act(*node, *now, Act::Open),
            Event::Accepted { node, now } => self.act(*node, *now, Act::Accepted),
            Event::Drain { node, now } => self.act(*node, *now, Act::Drain),
            Event::Stop { node, now } => self.act(*node, *now, Act::Stop),
            Event::Cut { node } => self.act(*node, 0, Act::Cut),
            Event::Set {
                node,
                now,
                alias,
                value,
            } => self.act(*node, *now, Act::Change(*alias, value)),
            Event::Device {
                node,
                now,
                name,
                up,
            } => self.act(*node, *now, Act::Device(name.as_str(), *up)),
            Event::Rebirth { node, now } => self.ask_rebirth(*node, *now),
            Event::State {
                node,
                now,
                online,
                timestamp,
            } => self.tell_state(*node, *now, *online, *timestamp),
            Event::Hand {
                host,
                node,
                position,
                now,
            } => self.hand(*host, *node, *position, *now),
            Event::Death {
                host,
                node,
                session,
                now,
            } => self.tell_death(*host, *node, *session, *now),
            Event::Tick { host, now } => self.tick(*host, *now),
            Event::Session { host, now } => self.renew(*host, *now),
        }
    }

    /// An event. What is refused changes nothing.
    ///
    /// Refused in this order: NoSuch (80), NotPublished (81), OutsideWindow (82), TooFar (83), OvertakesBirth (86); and with Edge (84) where
    /// the node refuses. NoMemory (1) may stand in place of any of them, and of an answer.
    pub fn step(&mut self, event: &Event) -> Result<Done, WorldFault>
        ensures step { IfOk result
            (λ a. IsStep self.old (deed_at self.old (event_view event.now)) self.new
            (done_view a)) }
        ensures passed { OnOk result
            (refusal_at self.old (deed_at self.old (event_view event.now)) ≡ None) }
        ensures refused { IfErr result
            (IsRefused self.old (deed_at self.old (event_view event.now))) }
        ensures unchanged { OnErr result (self.new ≡ self.old) }
        // in a world in which a list of things was done it is the next thing of the list, answers what is asked of the list, and is
        // refused exactly where the list refuses it
        ensures runs { (w : rules.World) (done : List Deed) → IsRun w done self.old
            → OnOk result (IsRun w (deed_of w (event_view event.now) ∷ done) self.new) }
        ensures answers { (w : rules.World) (done : List Deed) → IsRun w done self.old
            → IfOk result (λ a. done_view a ≡ answer_of w done (deed_of w (event_view event.now))) }
        ensures allowed { (w : rules.World) (done : List Deed) → IsRun w done self.old
            → OnOk result (refusal_of w done (deed_of w (event_view event.now)) ≡ None) }
        ensures ruled { (w : rules.World) (done : List Deed) → IsRun w done self.old
            → IfErr result (IsRefusedBy w done (event_view event.now)) }
        // and of what each host consumes of each node: where the event comes to a host that doesn't follow the node, as after a gap,
        // nothing is consumed but a newer birth
        ensures after_gap { (w : rules.World) (done : List Deed) (h n : ℕ) (input : Input)
            → IsRun w done self.old → ComesAs done (deed_of w (event_view event.now)) h n input
            → OnOk result (AfterGap (setting_of w done h n) (record_of w done h n)
            (event_of w done h n input)) }
        // nothing of a session whose matching death came
        ensures after_death { (w : rules.World) (done : List Deed) (h n : ℕ) (input : Input)
            → IsRun w done self.old → ComesAs done (deed_of w (event_view event.now)) h n input
            → OnOk result (AfterDeath (setting_of w done h n) (record_of w done h n)
            (event_of w done h n input)) }
        // an NBIRTH that is handed is taken unless that birth or a later one was taken before, or the matching death of its session
        // came and no birth was taken since
        ensures births { (w : rules.World) (done : List Deed) (h n p now : ℕ)
            → IsRun w done self.old → deed_of w (event_view event.now) ≡ Hand h n p now
            → OnOk result (TakesBirth (setting_of w done h n) (record_of w done h n) p
            (event_of w done h n (MessageComes p now))) }
        // and wherever consumption stands behind it, it stands for a cause
        ensures cause { (w : rules.World) (done : List Deed) (h n : ℕ) → IsRun w done self.old
            → OnOk result (HasCause (setting_of w (deed_of w (event_view event.now) ∷ done) h n)
            (record_of w (deed_of w (event_view event.now) ∷ done) h n)) }
    {
        laws::any_list();
        laws::refusals();
        laws::sent();
        headline();
        self.done(event)
    }

    /// Events, in order, up to the first that is refused.
    pub fn run(&mut self, events: &[Event]) -> Result<(), Stopped>
        ensures all { OnOk result (AreSteps self.old (map event_view events.now) self.new) }
        ensures stopped { IfErr result (IsStopped self.old (map event_view events.now) self.new) }
        // the list of what was done goes on with these events, or with those before the one that the list refuses
        ensures runs { (w : rules.World) (done : List Deed) → IsRun w done self.old
            → OnOk result (IsRun w (with_events w (map event_view events.now) done) self.new) }
        ensures ruled { (w : rules.World) (done : List Deed) → IsRun w done self.old
            → IfErr result (IsStoppedBy w done (map event_view events.now) self.new) }
    {
        laws::any_list();
        laws::refusals();
        laws::sent();
        for (index, event) in events.iter().enumerate() {
            if let Err(fault) = self.step(event) {
                return Err(Stopped { index, fault });
            }
        }
        Ok(())
    }
}
