//! The nodes that a host heard, in the order in which they were first heard.
ghost use Rattle.std.specs.Prelude.{◌≡◌, ◌<◌, false, ◌++◌, ◌∷◌, ℕ, List, [], None, Some, map, length, slice_get, IfOk, OnOk, OnErr, if◌then◌else◌};
ghost use Rattle.std.specs.List.{position};
ghost use Rattle.spk_reading.specs.View.{numbered_view};
ghost use Rattle.spk_sequence.specs.Step as sequence;
ghost use Rattle.spk_host_node.specs.Data.{fresh_node};
ghost use Rattle.spk_host_node.specs.Step as one_node;
ghost use Rattle.spk_host.specs.Data.{Entry};
ghost use Rattle.spk_host.specs.Idle.{AreStillUntil, IsStillUntil};
ghost use Rattle.spk_host.specs.Index.{place_in};
ghost use Rattle.spk_host.specs.Inputs.{is_same};
ghost use Rattle.spk_host.specs.Losses.{losing};
ghost use Rattle.spk_host.specs.Nodes as spec;
ghost use Rattle.spk_host.specs.Step as step;
ghost use Rattle.spk_host.specs.View.{AreWhole, out_view};

use crate::asking::ask;
use crate::entry::Entry;
use crate::index::Index;
use crate::messages::hear_message;
use crate::out::Out;
use spk_reading::Numbered;
use spk_sequence::{Match, Step, Width};
use std::alloc::{AllocError, Global};
use std::marker::Model;

/// The nodes that a host heard, each found by its names in one step. Contracts see the list of nodes.
#[derive(Drop)]
pub(crate) struct Nodes {
    entries: Vec<Entry>,
    /// The place of each node, by its names.
    index: Index,
    /// No moment before this one is a gap of any node, or changes anything.
    due: u64,
}

impl Model for Nodes {
    ghost use Rattle.std.specs.Prelude.{List};
    ghost use Rattle.spk_host.specs.Data as plain;
    ghost use Rattle.spk_host.specs.Idle.{IsInOrder};

    ghost Value = { List plain.Entry };

    ghost view = { λ a. a.entries.items };

    ghost invariant = { λ a. IsInOrder a.entries.items a.index a.due };
}

/// A message of a node that was never heard. All memory is asked for before anything changes.
fn hear_first(
    alloc: Global,
    entries: &mut Vec<Entry>,
    index: &mut Index,
    wait: u64,
    width: Width,
    ack: Option<u16>,
    message: Numbered,
    now: u64,
) -> Result<Out, AllocError>
    requires { place_in index.old (numbered_view message).group (numbered_view message).node
        ≡ None }
    ensures out { IfOk result (λ o.
        out_view o ≡ step.message_out (fresh_node wait width) ack (numbered_view message) now) }
    ensures whole { step.IsIdentified ack → IfOk result (λ o. AreWhole o) }
    ensures nodes { OnOk result (entries.new.items ≡ entries.old.items ++ (record {
      group = (numbered_view message).group;
      node = (numbered_view message).node;
      kept = one_node.hand (fresh_node wait width) (numbered_view message) now;
    }) ∷ []) }
    ensures entered { let m = numbered_view message in
        OnOk result ((g n : List ℕ) → place_in index.new g n
        ≡ (if is_same g n m.group m.node then Some
        (length entries.old.items) else place_in index.old g n)) }
    ensures unchanged { OnErr result (entries.new.items ≡ entries.old.items) }
    ensures not_entered { OnErr result (index.new ≡ index.old) }
{
    let (group, name) = (message.group.as_str(), message.node.as_str());
    let mut entry = Entry::new(alloc, group, name, wait, width)?;
    entries.reserve(1)?;
    let out = hear_message(alloc, &mut entry, ack, message, now)?;
    index.enter(alloc, entry.group(), entry.node(), entries.len())?;
    entries.push_reserved(entry);
    Ok(out)
}

impl Nodes {
    /// No nodes. Takes no memory.
    pub(crate) fn new(alloc: Global) -> Nodes
        ensures { result ≡ [] }
    {
        Nodes {
            entries: Vec::new(alloc),
            index: Index::new(alloc),
            due: u64::MAX,
        }
    }

    /// The nodes in their order.
    pub(crate) fn entries(&self) -> &[Entry]
        ensures { result.now ≡ self.now }
    {
        &self.entries
    }

    /// The place of the node of these names, if it was heard. Takes no memory.
    pub(crate) fn place_of(&self, group: &str, node: &str) -> Option<usize>
        ensures { result ≡ position (spec.is_of group.now node.now) self.now }
    {
        self.index.find(group, node)
    }

    /// A message of a node.
    pub(crate) fn hear(
        &mut self,
        alloc: Global,
        wait: u64,
        width: Width,
        ack: Option<u16>,
        message: Numbered,
        now: u64,
    ) -> Result<Out, AllocError>
        ensures out { let m = numbered_view message in
            IfOk result (λ o. out_view o
            ≡ step.message_out
            (spec.node_or (fresh_node wait width) self.old m.group m.node) ack m now) }
        ensures whole { step.IsIdentified ack → IfOk result (λ o. AreWhole o) }
        ensures nodes { let m = numbered_view message in
            OnOk result (self.new ≡ spec.put_node m.group m.node
            (one_node.hand (spec.node_or (fresh_node wait width) self.old m.group m.node) m now)
            self.old) }
        ensures unchanged { OnErr result (self.new ≡ self.old) }
    {
        match self.place_of(message.group.as_str(), message.node.as_str()) {
            Some(place) => {
                let entry = &mut self.entries[place];
                let out = hear_message(alloc, entry, ack, message, now);
                self.due = self.due.min(due_of(entry));
                out
            }
            None => {
                self.due = 0;
                hear_first(
                    alloc,
                    &mut self.entries,
                    &mut self.index,
                    wait,
                    width,
                    ack,
                    message,
                    now,
                )
            }
        }
    }

    /// An NDEATH of a node. Of a node that was never heard it changes nothing.
    pub(crate) fn hear_death(&mut self, group: &str, node: &str, bd: u8) -> Match
        ensures answer { (wait width : ℕ) → result ≡ sequence.match_of
            (spec.node_or (fresh_node wait width) self.old group.now node.now).order.standing bd }
        ensures nodes { self.new
            ≡ spec.change_node group.now node.now (λ n. one_node.death n bd) self.old }
    {
        match self.place_of(group, node) {
            Some(place) => {
                let entry = &mut self.entries[place];
                let answer = entry.death(bd);
                self.due = self.due.min(due_of(entry));
                answer
            }
            None => Match::Ignored,
        }
    }

    /// What a moment hands out: the gaps, and the requests to the nodes that had one, in their order.
    pub(crate) fn ask(&self, alloc: Global, now: u64) -> Result<Out, AllocError>
        ensures out { IfOk result (λ o. out_view o ≡ step.tick_out self.now now) }
        ensures whole { IfOk result (λ o. AreWhole o) }
    {
        if now < self.due {
            return ask_at(alloc, &[], now);
        }
        ask_at(alloc, &self.entries, now)
    }

    /// The nodes to be asked what a moment loses: any other loses nothing.
    pub(crate) fn losing(&self, now: u64) -> &[Entry]
        ensures { losing now result.now ≡ losing now self.now }
    {
        if self.due > now {
            return &[];
        }
        &self.entries
    }

    /// A moment, at each node.
    pub(crate) fn tick(&mut self, now: u64)
        ensures { self.new ≡ map (step.tick_entry now) self.old }
    {
        if now >= self.due {
            self.due = tick_all(&mut self.entries, now);
        }
    }

    /// The host's session is over, for each node.
    pub(crate) fn over(&mut self)
        ensures { self.new ≡ map step.over_entry self.old }
    {
        self.due = 0;
        end_all(&mut self.entries);
    }
}

/// The moment before which a node has no gap.
fn due_of(entry: &Entry) -> u64
    ensures { IsStillUntil result entry.now.kept }
{
    match entry.kept().due() {
        Some(due) => due,
        None => u64::MAX,
    }
}

/// What a moment hands out: the gaps, and the requests to the nodes that had one, in their order.
fn ask_at(alloc: Global, nodes: &[Entry], now: u64) -> Result<Out, AllocError>
    ensures out { IfOk result (λ o. out_view o ≡ step.tick_out nodes.now now) }
    ensures whole { IfOk result (λ o. AreWhole o) }
{
    let mut steps = Vec::new(alloc);
    let mut gaps = Vec::new(alloc);
    let mut rebirths = Vec::new(alloc);
    let mut packets = Vec::new(alloc);
    for (place, entry) in nodes.iter().enumerate() {
        if entry.kept().is_over(now) {
            steps.push(Step::Gap)?;
            gaps.push(place)?;
        }
        if entry.kept().is_asked(now) {
            ask(
                alloc,
                entry.group(),
                entry.node(),
                now,
                &mut rebirths,
                &mut packets,
            )?;
        }
    }
    Ok(Out {
        consumed: Vec::new(alloc),
        steps,
        gaps,
        death: None,
        rebirths,
        packets,
    })
}

/// A moment, at each node. Answers the moment before which none of them has a gap after it.
fn tick_all(nodes: &mut [Entry], now: u64) -> u64
    ensures ticked { nodes.new ≡ map (step.tick_entry now) nodes.old }
    ensures still { AreStillUntil result nodes.new }
{
    let mut due = u64::MAX;
    for entry in nodes.iter_mut() {
        entry.tick(now);
        due = due.min(due_of(entry));
    }
    due
}

/// The host's session is over, for each node.
fn end_all(nodes: &mut [Entry])
    ensures { nodes.new ≡ map step.over_entry nodes.old }
{
    for entry in nodes.iter_mut() {
        entry.over();
    }
}
