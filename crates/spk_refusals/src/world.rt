//! Calls of `spk_world`.
ghost use Rattle.std.specs.Prelude.{◌≡◌, ℕ, Ok, IfOk, IfErr, OnErr, OnOk, None, List, ◌∷◌, if◌then◌else◌};
ghost use Rattle.spk_sequence.specs.Claims.{AfterDeath, AfterGap, HasCause, TakesBirth};
ghost use Rattle.spk_sequence.specs.HostRecord.{Input, MessageComes};
ghost use Rattle.spk_world_rules.specs.Answers.{answer_of};
ghost use Rattle.spk_world_rules.specs.Claims.{ComesAs, event_of};
ghost use Rattle.spk_world_rules.specs.Events as rules;
ghost use Rattle.spk_world_rules.specs.Events.{Deed, Hand};
ghost use Rattle.spk_world_rules.specs.Files.{deed_of};
ghost use Rattle.spk_world_rules.specs.Queries.{record_of, setting_of};
ghost use Rattle.spk_world_rules.specs.Refusals.{refusal_of};
ghost use Rattle.spk_world_run.specs.Run.{IsRun};
ghost use Rattle.spk_world.specs.Listed.{IsRefusedBy};
ghost use Rattle.spk_world_run.specs.Step.{IsStep};
ghost use Rattle.spk_world_run.specs.Tests.{refusal_at};
ghost use Rattle.spk_world.specs.Outcome.{IsRefused};
ghost use Rattle.spk_world.specs.Steps.{deed_at};
ghost use Rattle.spk_world.specs.View.{event_view, done_view};
ghost use Rattle.spk_refusals.specs.Wrong.{is_act, is_hand};

use spk_world::{Done, Event, WorldFault};
use std::marker::Model;

/// A `spk_world::World`.
#[derive(Drop)]
pub struct World {
    pub world: spk_world::World,
}

impl Model for World {
    ghost use Rattle.spk_world_run.specs.Data.{WorldData};

    ghost Value = { WorldData };

    ghost view = { λ w. w.world };
}

impl World {
    /// `spk_world::World::step`.
    pub fn step(&mut self, event: &Event) -> Result<Done, WorldFault>
        ensures step { IfOk result
            (λ a. IsStep self.old (deed_at self.old (event_view event.now)) self.new
            (done_view a)) }
        ensures passed { OnOk result
            (refusal_at self.old (deed_at self.old (event_view event.now)) ≡ None) }
        ensures refused { IfErr result
            (IsRefused self.old (deed_at self.old (event_view event.now))) }
        ensures unchanged { OnErr result (self.new ≡ self.old) }
        ensures runs { (w : rules.World) (done : List Deed) → IsRun w done self.old
            → OnOk result (IsRun w (deed_of w (event_view event.now) ∷ done) self.new) }
        ensures answers { (w : rules.World) (done : List Deed) → IsRun w done self.old
            → IfOk result (λ a. done_view a ≡ answer_of w done (deed_of w (event_view event.now))) }
        ensures allowed { (w : rules.World) (done : List Deed) → IsRun w done self.old
            → OnOk result (refusal_of w done (deed_of w (event_view event.now)) ≡ None) }
        ensures ruled { (w : rules.World) (done : List Deed) → IsRun w done self.old
            → IfErr result (IsRefusedBy w done (event_view event.now)) }
        ensures after_gap { (w : rules.World) (done : List Deed) (h n : ℕ) (input : Input)
            → IsRun w done self.old → ComesAs done (deed_of w (event_view event.now)) h n input
            → OnOk result (AfterGap (setting_of w done h n) (record_of w done h n)
            (event_of w done h n input)) }
        ensures after_death { (w : rules.World) (done : List Deed) (h n : ℕ) (input : Input)
            → IsRun w done self.old → ComesAs done (deed_of w (event_view event.now)) h n input
            → OnOk result (AfterDeath (setting_of w done h n) (record_of w done h n)
            (event_of w done h n input)) }
        ensures births { (w : rules.World) (done : List Deed) (h n p now : ℕ)
            → IsRun w done self.old → deed_of w (event_view event.now) ≡ Hand h n p now
            → OnOk result (TakesBirth (setting_of w done h n) (record_of w done h n) p
            (event_of w done h n (MessageComes p now))) }
        ensures cause { (w : rules.World) (done : List Deed) (h n : ℕ) → IsRun w done self.old
            → OnOk result (HasCause (setting_of w (deed_of w (event_view event.now) ∷ done) h n)
            (record_of w (deed_of w (event_view event.now) ∷ done) h n)) }
    {
        self.world.step(event)
    }
}

/// Whether an event comes to a node.
fn is_act(event: &Event) -> bool
    ensures { result ≡ is_act event.now }
{
    match event {
        Event::Hand { .. } | Event::Death { .. } | Event::Tick { .. } | Event::Session { .. } => {
            false
        }
        _ => true,
    }
}

/// An event that no world has stands in place of each that comes to a node.
fn but_acts<'a>(event: &'a Event, nowhere: &'a Event) -> &'a Event
    ensures { result.now ≡ (if is_act event.now then nowhere.now else event.now) }
{
    if is_act(event) { nowhere } else { event }
}

/// What comes to a node is answered, and publishes nothing.
fn publishes_nothing(event: &Event, answer: Result<Done, WorldFault>) -> Result<Done, WorldFault>
    ensures { result ≡ (if is_act event.now then Ok (Done.Edge 0) else answer) }
{
    if is_act(event) {
        Ok(Done::Edge { added: 0 })
    } else {
        answer
    }
}

/// An event that no world has stands in place of each message that is handed to a host.
fn refuses_every_hand<'a>(event: &'a Event, nowhere: &'a Event) -> &'a Event
    ensures { result.now ≡ (if is_hand event.now then nowhere.now else event.now) }
{
    match event {
        Event::Hand { .. } => nowhere,
        _ => event,
    }
}
