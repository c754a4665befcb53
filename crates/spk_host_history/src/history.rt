//! The history of a host.
ghost use Rattle.std.specs.Prelude.{◌≡◌, ◌⊎◌, ◌++◌, ◌∷◌, [], ◌<◌, ℕ, List, IfErr, IfOk, IfSome, None, OnErr, OnOk, length, take};
ghost use Rattle.spk_history.specs.Entry.{EntryData};
ghost use Rattle.spk_history.specs.File.{file_of};
ghost use Rattle.spk_history.specs.declared.fault.HistoryFault.TheVariants as faults;
ghost use Rattle.spk_reading.specs.View.{numbered_view};
ghost use Rattle.spk_historian.specs.Event.{Began, EventData, event_view};
ghost use Rattle.spk_historian.specs.Told.{IsNotTold, Tells};
ghost use Rattle.spk_historian.specs.Told as told;
ghost use Rattle.spk_host_app.specs.View.{word};
ghost use Rattle.spk_host_history.specs.Telling.{Adds, Befalls};
ghost use Rattle.spk_host_history.specs.Words.{consumed, events_of};

use crate::nodes::{hole_of, stand_of};
use crate::pasts::Pasts;
use crate::words::consumed;
use spk_historian::{Event, Historian, Node};
use spk_history::HistoryFault;
use spk_host::Taken;
use spk_host_app::Said;
use spk_sequence::Kind;
use spk_story::Story;
use std::alloc::Global;
use std::fmt;
use std::marker::Model;

/// What is to be written of a host's history, part by part. Contracts see it as its `Historian`. Moments are milliseconds since 1970.
#[derive(Drop)]
pub struct HostHistory {
    historian: Historian,
    pasts: Pasts,
}

impl fmt::Debug for HostHistory {
    fn fmt<W: fmt::Write>(&self, f: &mut fmt::Formatter<W>) -> fmt::Result {
        f.write_str("HostHistory { .. }")
    }
}

impl Model for HostHistory {
    ghost use Rattle.spk_historian.specs.Told.{HistorianData};

    ghost Value = { HistorianData };

    ghost view = { λ h. h.historian };
}

impl HostHistory {
    /// Nothing was told: the head of the first part is to be written, which has this many bytes at most. Refused only where memory is.
    pub fn new(alloc: Global, most: usize) -> Result<HostHistory, HistoryFault>
        ensures tells { IfOk result (λ h. Tells [] [] [] [] h) }
        ensures refused { IfErr result (λ e. e ≡ faults.NoMemory) }
    {
        let historian = Historian::new(alloc, most)?;
        Ok(HostHistory {
            historian,
            pasts: Pasts::new(alloc),
        })
    }

    /// What is to be written behind what stands in the part.
    pub fn unwritten(&self) -> &[u8]
        ensures { result.now ≡ self.now.parts.unwritten }
    {
        self.historian.unwritten()
    }

    /// This many bytes of it stand in the part now: all, where there are fewer.
    pub fn written(&mut self, count: usize)
        ensures tells { (before entries : List EntryData) (part : List ℕ) (es : List EventData)
            → Tells before entries part es self.old
            → Tells before entries (part ++ take count self.old.parts.unwritten) es self.new }
    {
        self.historian.written(count);
    }

    /// The next part begins: its head and the nodes that were named are to be written. Refused with Unwritten (126) where something is still to be
    /// written of the part before; then, and where memory is refused, nothing has changed.
    pub fn roll(&mut self) -> Result<(), HistoryFault>
        ensures tells { OnOk result ((before entries : List EntryData) (part : List ℕ) (es : List EventData)
            → Tells before entries part es self.old → (part ≡ file_of entries)
            × ((nodes : List EntryData) × Tells (before ++ entries) nodes [] es self.new)) }
        ensures refused { IfErr result (λ e. (e ≡ faults.NoMemory)
            ⊎ ((e ≡ faults.Unwritten) × (0 < length self.old.parts.unwritten))) }
        ensures err { OnErr result (self.new ≡ self.old) }
    {
        self.historian.roll()?;
        Ok(())
    }

    /// An event is told, and nothing else.
    fn tell(&mut self, event: &Event<'_>) -> Result<(), HistoryFault>
        ensures tells { OnOk result (Adds (event_view event.now ∷ []) self.old self.new) }
        ensures refused { IfErr result (λ e. IsNotTold self.new (event_view event.now) e) }
        ensures err { OnErr result (Adds [] self.old self.new) }
    {
        self.historian.tell(event)
    }

    /// The host's session begins: what is told behind it was heard in it. Refused as `Historian::tell` is, and then it isn't told.
    pub fn began(&mut self, now: u64) -> Result<(), HistoryFault>
        ensures tells { OnOk result (Adds (Began now ∷ []) self.old self.new) }
        ensures refused { IfErr result (λ e. IsNotTold self.new (Began now) e) }
        ensures err { OnErr result (Adds [] self.old self.new) }
    {
        self.tell(&Event::Began { at: now })
    }

    /// A message of the node of this number was consumed.
    fn message(&mut self, number: u32, message: &Taken, now: u64) -> Result<(), HistoryFault>
        ensures tells { OnOk result (Adds (consumed number now (numbered_view message.now) ∷ []) self.old self.new) }
        ensures refused { IfErr result (λ e. (e ≡ faults.NoMemory)
            ⊎ IsNotTold self.new (consumed number now (numbered_view message.now)) e) }
        ensures err { OnErr result (Adds [] self.old self.new) }
    {
        self.pasts.make_place(number)?;
        self.tell(&consumed(message, number, now))?;
        if let Kind::Birth { bd, .. } = message.kind {
            self.pasts.bear(number, bd);
        }
        Ok(())
    }

    /// A word comes, which is of the node of this number where it is a node's: a message that was consumed is told, and the end of the host's session.
    /// Refused as `Historian::tell` is: then nothing is told of it, and it is to be told again, with FullPart (125) in the next part.
    pub fn word(&mut self, number: u32, said: &Said, now: u64) -> Result<(), HistoryFault>
        ensures tells { OnOk result (Adds (events_of number now (word said.now)) self.old self.new) }
        ensures err { OnErr result (Adds [] self.old self.new) }
    {
        match said {
            Said::Consumed(message) => self.message(number, message, now),
            Said::Ended => self.tell(&Event::Ended { at: now }),
            _ => Ok(()),
        }
    }

    /// An event that is no message is told, if there is one.
    fn befall(&mut self, event: &Option<Event<'_>>) -> Result<(), HistoryFault>
        requires { IfSome event.now (λ e. told.consumed (event_view e) ≡ None) }
        ensures { Befalls self.old self.new }
    {
        match event {
            Some(event) => self.tell(event),
            None => Ok(()),
        }
    }

    /// How a node stands by its story behind a word is told, where it changed: a hole that is over, a gap, and a death, of the session of its last birth.
    /// No message is. Refused as `Historian::tell` is: what wasn't told yet is once it is called again.
    pub fn node(&mut self, node: &Node<'_>, story: &Story, now: u64) -> Result<(), HistoryFault>
        ensures { Befalls self.old self.new }
    {
        self.pasts.make_place(node.number)?;
        let past = self.pasts.at(node.number);
        self.befall(&hole_of(node, story, past.holes))?;
        self.pasts.mend(node.number, story.counts().holes);
        self.befall(&stand_of(node, story, past, now))?;
        self.pasts.turn(node.number, story.stand());
        Ok(())
    }
}
