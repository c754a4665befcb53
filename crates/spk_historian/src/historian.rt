//! The historian of a host.
ghost use Rattle.std.specs.Prelude.{◌≡◌, ◌⊎◌, ◌++◌, ◌∷◌, [], ℕ, List, OnErr, OnOk, IfErr, IfOk, drop, take, ◌==◌, ◌<◌, Some, length, true, IfSome};
ghost use Rattle.spk_history.specs.Entry.{EntryData};
ghost use Rattle.spk_history.specs.File.{file_of};
ghost use Rattle.spk_history.specs.declared.fault.HistoryFault.TheVariants as faults;
ghost use Rattle.spk_historian.specs.Event.{EventData, event_view, name_view, node_of};
ghost use Rattle.spk_historian.specs.Told.{Fits, HistorianData, IsNotTold, Tells, entry_of, entry_with, kept_at, naming, naming_as, naming_of, position_in};
ghost use Rattle.spk_history.specs.Parts.{IsNotPut};

use crate::entry::{node_of, payload_of, position_of, put};
use crate::event::{Event, Node};
use crate::nodes::{Kept, count, keep, kept_of, make_place};
use spk_history::{Entry, HistoryFault, Parts};
use std::alloc::Global;
use std::fmt;
use std::marker::Model;

/// What is to be written of a history, part by part. Contracts see the `HistorianData` of `specs/Told.antt`.
#[derive(Drop)]
pub struct Historian {
    alloc: Global,
    parts: Parts,
    nodes: Vec<Kept>,
}

impl fmt::Debug for Historian {
    fn fmt<W: fmt::Write>(&self, f: &mut fmt::Formatter<W>) -> fmt::Result {
        f.write_str("Historian { .. }")
    }
}

impl Model for Historian {
    ghost use Rattle.spk_historian.specs.Told.{HistorianData};

    ghost Value = { HistorianData };

    ghost view = { λ h. record { parts = h.parts; nodes = h.nodes.items } };
}

impl Historian {
    /// Nothing was told: the head of the first part is to be written, which has this many bytes at most. Refused only where memory is.
    pub fn new(alloc: Global, most: usize) -> Result<Historian, HistoryFault>
        ensures tells { IfOk result (λ h. Tells [] [] [] [] h) }
        ensures most { IfOk result (λ h. h.parts.most ≡ most) }
        ensures refused { IfErr result (λ e. e ≡ faults.NoMemory) }
    {
        let parts = Parts::new(alloc, most)?;
        Ok(Historian {
            alloc,
            parts,
            nodes: Vec::new(alloc),
        })
    }

    /// What is to be written behind what stands in the part.
    pub fn unwritten(&self) -> &[u8]
        ensures { result.now ≡ self.now.parts.unwritten }
    {
        self.parts.unwritten()
    }

    /// This many bytes of it stand in the part now: all, where there are fewer.
    pub fn written(&mut self, count: usize)
        ensures tells { (before entries : List EntryData) (part : List ℕ) (es : List EventData)
            → Tells before entries part es self.old
            → Tells before entries (part ++ take count self.old.parts.unwritten) es self.new }
        ensures most { self.new.parts.most ≡ self.old.parts.most }
    {
        self.parts.written(count);
    }

    /// The next part begins: its head and the nodes that were named are to be written. Refused with Unwritten (126) where something is still to be
    /// written of the part before; then, and where memory is refused, nothing has changed.
    pub fn roll(&mut self) -> Result<(), HistoryFault>
        ensures tells { OnOk result ((before entries : List EntryData) (part : List ℕ) (es : List EventData)
            → Tells before entries part es self.old → (part ≡ file_of entries)
            × ((nodes : List EntryData) × Tells (before ++ entries) nodes [] es self.new)) }
        ensures most { OnOk result (self.new.parts.most ≡ self.old.parts.most) }
        ensures refused { IfErr result (λ e. (e ≡ faults.NoMemory)
            ⊎ ((e ≡ faults.Unwritten) × (0 < length self.old.parts.unwritten))) }
        ensures err { OnErr result (self.new ≡ self.old) }
    {
        self.parts.roll()?;
        Ok(())
    }

    /// Names a node in this part, where it wasn't. It has a place then.
    fn name(&mut self, node: &Node<'_>) -> Result<(), HistoryFault>
        ensures room { OnOk result (node.now.number < length self.new.nodes) }
        ensures tells { OnOk result ((before entries : List EntryData) (part : List ℕ) (es : List EventData)
            → Tells before entries part es self.old
            → Tells before (entries ++ naming_as self.old.nodes (name_view node.now)) part es self.new) }
        ensures most { OnOk result (self.new.parts.most ≡ self.old.parts.most) }
        ensures is_named { OnOk result ((kept_at self.new.nodes node.now.number).is_named ≡ true) }
        ensures refused { IfErr result (λ e. (e ≡ faults.NoMemory) ⊎ IsNotPut self.new.parts (naming_of (name_view node.now)) e) }
        ensures err { OnErr result (self.new.parts ≡ self.old.parts) }
        ensures same { OnErr result ((n : ℕ) → kept_at self.new.nodes n ≡ kept_at self.old.nodes n) }
    {
        make_place(&mut self.nodes, node.number)?;
        let kept = kept_of(&self.nodes, node.number);
        if kept.is_named {
            return Ok(());
        }
        let entry = Entry::Node {
            node: node.number,
            group: node.group,
            name: node.name,
        };
        self.parts.put(&entry)?;
        let kept = Kept {
            is_named: true,
            used: kept.used,
        };
        keep(&mut self.nodes, node.number, kept);
        Ok(())
    }

    /// The entry of an event whose node is named and has a place, is put and counted.
    fn put(&mut self, event: &Event<'_>) -> Result<(), HistoryFault>
        requires named { IfSome (node_of (event_view event.now)) (λ n. (kept_at self.old.nodes n.number).is_named ≡ true) }
        requires room { IfSome (node_of (event_view event.now)) (λ n. n.number < length self.old.nodes) }
        ensures tells { OnOk result ((before entries : List EntryData) (part : List ℕ) (es : List EventData)
            → Tells before entries part es self.old
            → Tells before (entries ++ entry_of es (event_view event.now) ∷ []) part (event_view event.now ∷ es) self.new) }
        ensures most { OnOk result (self.new.parts.most ≡ self.old.parts.most) }
        ensures fits { OnOk result (Fits (event_view event.now)) }
        ensures refused { IfErr result (λ e. (e ≡ faults.NoMemory)
            ⊎ IsNotPut self.new.parts (entry_with (position_in self.new.nodes (event_view event.now))
            (event_view event.now)) e) }
        ensures err { OnErr result (self.new ≡ self.old) }
    {
        let bytes = payload_of(self.alloc, event)?;
        let position = position_of(&self.nodes, event);
        put(&mut self.parts, event, position, &bytes)?;
        count(&mut self.nodes, event);
        Ok(())
    }

    /// Tells an event: its entry is put behind those before, and before it the naming of its node, where that wasn't named yet. Refused as
    /// `Parts::put` is: with FullPart (125) where the part has a record and would pass its most bytes; then what is to be written is to be
    /// written, the next part is to begin, and it is to be told again. Where it is refused nothing has changed, but that the node may be named.
    pub fn tell(&mut self, event: &Event<'_>) -> Result<(), HistoryFault>
        ensures tells { OnOk result ((before entries : List EntryData) (part : List ℕ) (es : List EventData)
            → Tells before entries part es self.old
            → Tells before (entries ++ naming self.old.nodes (event_view event.now) ++ entry_of es (event_view event.now) ∷ [])
            part (event_view event.now ∷ es) self.new) }
        ensures most { OnOk result (self.new.parts.most ≡ self.old.parts.most) }
        ensures fits { OnOk result (Fits (event_view event.now)) }
        ensures refused { IfErr result (λ e. IsNotTold self.new (event_view event.now) e) }
        ensures err { OnErr result ((before entries : List EntryData) (part : List ℕ) (es : List EventData)
            → Tells before entries part es self.old
            → Tells before entries part es self.new
            ⊎ Tells before (entries ++ naming self.old.nodes (event_view event.now)) part es self.new) }
    {
        if let Some(node) = node_of(event) {
            self.name(&node)?;
        }
        self.put(event)?;
        Ok(())
    }
}
