//! A node by its names.
ghost use Rattle.std.specs.Prelude.{◌≡◌, ◌≤◌, map, IfOk, OnOk, OnErr, string_bytes};
ghost use Rattle.spk_reading.specs.View.{numbered_view};
ghost use Rattle.spk_host_node.specs.Data.{fresh_node};
ghost use Rattle.spk_sequence.specs.Step as sequence;
ghost use Rattle.spk_host_node.specs.Step as node;
ghost use Rattle.spk_host.specs.Step as step;

use spk_host_node::{Handed, HostNode};
use spk_reading::Numbered;
use spk_sequence::{Match, Width};
use spk_view::NodeView;
use std::alloc::{AllocError, Global};
use std::fmt;
use std::marker::Model;

/// A node that a host heard, with what it keeps of it.
#[derive(Drop)]
pub struct Entry {
    group: String,
    node: String,
    kept: HostNode,
}

impl fmt::Debug for Entry {
    fn fmt<W: fmt::Write>(&self, f: &mut fmt::Formatter<W>) -> fmt::Result {
        f.write_str("Entry { .. }")
    }
}

impl Model for Entry {
    ghost use Rattle.std.specs.Prelude.{string_bytes};
    ghost use Rattle.spk_host.specs.Data as plain;

    ghost Value = { plain.Entry };

    ghost view = { λ e. record { group = string_bytes e.group; node = string_bytes e.node; kept = e.kept } };
}

impl Entry {
    /// A node that was never heard.
    pub(crate) fn new(
        alloc: Global,
        group: &str,
        node: &str,
        wait: u64,
        width: Width,
    ) -> Result<Entry, AllocError>
        ensures { IfOk result
            (λ e. e ≡ record { group = group.now; node = node.now; kept = fresh_node wait width }) }
    {
        Ok(Entry {
            group: String::from_str(alloc, group)?,
            node: String::from_str(alloc, node)?,
            kept: HostNode::new(alloc, wait, width)?,
        })
    }

    /// The node's group.
    pub fn group(&self) -> &str
        ensures { result.now ≡ self.now.group }
    {
        self.group.as_str()
    }

    /// The node's name.
    pub fn node(&self) -> &str
        ensures { result.now ≡ self.now.node }
    {
        self.node.as_str()
    }

    /// What is kept of it: how the host stands to it, and what is shown of it.
    pub fn kept(&self) -> &HostNode
        ensures { result.now ≡ self.now.kept }
    {
        &self.kept
    }

    /// A message of it.
    pub(crate) fn hand(&mut self, message: Numbered, now: u64) -> Result<Handed, AllocError>
        ensures step { IfOk result
            (λ h. h.step ≡ node.step_of self.old.kept.order (numbered_view message) now) }
        ensures consumed { IfOk result (λ h.
            map numbered_view h.consumed.items
            ≡ node.taken_of self.old.kept.order (numbered_view message) now) }
        ensures requests { IfOk result
            (λ h. h.requests ≡ node.requests_of self.old.kept (numbered_view message) now) }
        ensures data { OnOk result
            (self.new ≡ record self.old
            { kept = node.hand self.old.kept (numbered_view message) now }) }
        ensures unchanged { OnErr result (self.new ≡ self.old) }
    {
        self.kept.hand(message, now)
    }

    /// An NDEATH of it.
    pub(crate) fn death(&mut self, bd: u8) -> Match
        ensures answer { result ≡ sequence.match_of self.old.kept.order.standing bd }
        ensures data { self.new ≡ record self.old { kept = node.death self.old.kept bd } }
    {
        self.kept.death(bd)
    }

    /// A moment.
    pub(crate) fn tick(&mut self, now: u64)
        ensures { self.new ≡ step.tick_entry now self.old }
    {
        let _ticked = self.kept.tick(now);
    }

    /// The host's session is over.
    pub(crate) fn over(&mut self)
        ensures { self.new ≡ step.over_entry self.old }
    {
        self.kept.over();
    }
}
