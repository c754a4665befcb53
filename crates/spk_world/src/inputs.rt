//! An input comes to a node.
ghost use Rattle.std.specs.Prelude.{◌≡◌, IfOk, IfErr, OnErr};
ghost use Rattle.spk_edge.specs.View.{act_view};
ghost use Rattle.spk_world_rules.specs.Files as file;
ghost use Rattle.spk_world.specs.Outcome.{IsDone, IsRefused};
ghost use Rattle.spk_world.specs.Steps.{configs_at};

use crate::answer::Done;
use crate::fault::WorldFault;
use crate::world::World;
use spk_edge::{Act, Input, node_topic};
use spk_host_session::request_bytes;
use spk_state::{State, StateFault};
use spk_topics::Verb;

impl World {
    /// An act comes to a node, and nothing is to be acknowledged.
    pub(crate) fn act(&mut self, node: usize, now: u64, act: Act<'_>) -> Result<Done, WorldFault>
        ensures done { IfOk result
            (IsDone self.old (file.at_node node now (act_view act.entry)) self.new) }
        ensures refused { IfErr result
            (IsRefused self.old (file.at_node node now (act_view act.entry))) }
        ensures unchanged { OnErr result (self.new ≡ self.old) }
    {
        if node >= self.nodes.len() {
            return Err(WorldFault::NoSuch);
        }
        let added = self.nodes[node].take(Input {
            now,
            ack: None,
            act,
        })?;
        Ok(Done::Edge { added })
    }

    /// A command for a rebirth comes to a node.
    pub(crate) fn ask_rebirth(&mut self, node: usize, now: u64) -> Result<Done, WorldFault>
        ensures done { IfOk result (IsDone self.old
            (file.deed_of (configs_at self.old) (file.Rebirth node now)) self.new) }
        ensures refused { IfErr result
            (IsRefused self.old (file.deed_of (configs_at self.old) (file.Rebirth node now))) }
        ensures unchanged { OnErr result (self.new ≡ self.old) }
    {
        if node >= self.nodes.len() {
            return Err(WorldFault::NoSuch);
        }
        let topic = node_topic(self.alloc, self.nodes[node].config(), Verb::Command)?;
        let payload = request_bytes(self.alloc, now)?;
        self.act(node, now, Act::Command(topic.as_str(), &payload))
    }

    /// A STATE of the primary host comes to a node.
    pub(crate) fn tell_state(
        &mut self,
        node: usize,
        now: u64,
        online: bool,
        timestamp: u64,
    ) -> Result<Done, WorldFault>
        ensures done { IfOk result
            (IsDone self.old (file.at_node node now (file.state_of online timestamp)) self.new) }
        ensures refused { IfErr result
            (IsRefused self.old (file.at_node node now (file.state_of online timestamp))) }
        ensures unchanged { OnErr result (self.new ≡ self.old) }
    {
        let state = State { online, timestamp };
        let Ok(text) = state.encode(self.alloc) else {
            return Err(WorldFault::NoMemory);
        };
        self.act(node, now, Act::State(text.as_bytes()))
    }
}
