//! A node of a world.
ghost use Rattle.std.specs.Prelude.{◌≡◌, ◌⊎◌, slice_get, IfOk, IfErr, IfSome, OnErr, OnSome, option_map, ◌<◌, ◌^◌};
ghost use Rattle.spk_edge.specs.View.{act_view, config_view, input_view};
ghost use Rattle.spk_edge_rules.specs.Step.{answer_at, is_open};
ghost use Rattle.spk_world_rules.specs.Refusals.{edge_refusal};
ghost use Rattle.spk_world_run.specs.Tests as test;

use crate::fault::WorldFault;
use crate::log::Log;
use crate::records::Published;
use spk_edge::{Act, EdgeConfig, EdgeNode, Input, Taken};
use std::marker::Model;

/// A node with what it published. Contracts see a `NodePart`.
#[derive(Drop)]
pub(crate) struct Node {
    pub(crate) edge: EdgeNode,
    pub(crate) log: Log,
}

impl Model for Node {
    ghost use Rattle.std.specs.Prelude.{map};
    ghost use Rattle.spk_world_run.specs.Data.{NodePart};
    ghost use Rattle.spk_world.specs.Parts.{AreReadable};
    ghost use Rattle.spk_world.specs.View.{published_view};

    ghost Value = { NodePart };

    ghost view = { λ n. record {
      node = n.edge;
      published = map published_view n.log.published.items;
      starts = n.log.starts.items;
      births = n.log.births;
      opened = n.log.opened.items;
    } };

    // what it published can be read
    ghost invariant = { λ n. AreReadable (map published_view n.log.published.items) };
}

/// Whether a connection is to be opened.
fn is_open(act: &Act<'_>) -> bool
    ensures { result ≡ is_open (act_view act.now) }
{
    match act {
        Act::Open => true,
        _ => false,
    }
}

impl Node {
    ghost use Rattle.spk_world.specs.Fault.{IsRefusal};
    ghost use Rattle.spk_world.specs.Parts.{IsReadable, IsTaken};
    ghost use Rattle.spk_world.specs.View.{published_view};

    /// What the node is.
    pub(crate) fn config(&self) -> &EdgeConfig
        ensures { config_view result.now ≡ self.now.node.config }
    {
        self.edge.config()
    }

    /// The message of a position.
    pub(crate) fn message_at(&self, position: u64) -> Option<&Published>
        ensures is { option_map (λ m. published_view m.now) result
            ≡ slice_get self.now.published position }
        ensures readable { IfSome result (λ m. IsReadable (published_view m.now)) }
        ensures few { OnSome result (position < 2 ^ 63) }
    {
        self.log.published.get(position as usize)
    }

    /// When a session was opened.
    pub(crate) fn opened_at(&self, session: u64) -> Option<u64>
        ensures { result ≡ slice_get self.now.opened session }
    {
        self.log.opened.get(session as usize).copied()
    }

    /// The position of the NBIRTH of a message's birth.
    pub(crate) fn start_at(&self, position: u64) -> u64
        ensures { result ≡ test.start_at self.now position }
    {
        self.log.starts.get(position as usize).copied().unwrap_or(0)
    }

    /// Whether the message of a position is an NBIRTH.
    pub(crate) fn is_opening(&self, position: u64) -> bool
        ensures { result ≡ test.is_opening self.now position }
    {
        self.start_at(position) == position
    }

    /// An input. Answers how many messages it published.
    pub(crate) fn take(&mut self, input: Input<'_>) -> Result<usize, WorldFault>
        ensures done { IfOk result
            (λ added. IsTaken self.old (input_view input.entry) self.new added) }
        ensures refused { IfErr result (λ e. (e ≡ WorldFault.NoMemory) ⊎ IsRefusal
            (edge_refusal
            (answer_at self.old.node.config self.old.node.standing (input_view input.entry))) e) }
        ensures unchanged { OnErr result (self.new ≡ self.old) }
    {
        let plan = self.edge.plan(input)?;
        let added = plan.messages().len();
        self.log.reserve(added)?;
        let session = self.log.session();
        let Taken { out: _, messages } = plan.take_up();
        self.log.add(session, messages);
        if is_open(&input.act) {
            self.log.open(input.now);
        }
        Ok(added)
    }
}
