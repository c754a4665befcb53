//! What is asked of a world.
ghost use Rattle.std.specs.Prelude.{◌≡◌, List, map, IfSome};
ghost use Rattle.std.specs.Option.{option_map};
ghost use Rattle.spk_sequence.specs.Claims.{BirthPrefixes, HasCause};
ghost use Rattle.spk_edge_rules.specs.Run.{outline};
ghost use Rattle.spk_world_rules.specs.Events as rules;
ghost use Rattle.spk_world_rules.specs.Events.{Deed, node_at};
ghost use Rattle.spk_world_rules.specs.Queries.{consumed_of, published_of, record_of, setting_of};
ghost use Rattle.spk_world_run.specs.Run.{AreConsumed, IsRun, posts_of};
ghost use Rattle.spk_world.specs.Listed.{IsHeard};
ghost use Rattle.spk_world.specs.Seen as spec;
ghost use Rattle.spk_world.specs.View.{consumed_view, published_view};

use crate::records::{Consumed, Published};
use crate::world::World;
use spk_host::Host;
use spk_host::laws::any_list;
use spk_world_rules::laws::headline;

impl World {
    /// What a host consumed of a node in its present session, in order. Takes no memory.
    pub fn consumed(&self, host: usize, node: usize) -> Option<&[Consumed]>
        ensures exact { option_map (λ s. map consumed_view s.now) result
            ≡ spec.consumed_at self.now host node }
        // in a world in which a list of things was done: the positions that the list consumes, each with the topic and the payload
        // that were published there
        ensures unaltered { (w : rules.World) (done : List Deed) → IsRun w done self.now
            → IfSome result (λ s. AreConsumed (node_at w node) (published_of w done node)
            (consumed_of w done host node) (map consumed_view s.now)) }
        // birth by birth in increasing order a prefix of what the node published under that birth, each once
        ensures prefixes { (w : rules.World) (done : List Deed) → IsRun w done self.now
            → IfSome result (λ s. BirthPrefixes (outline (published_of w done node))
            (map (λ c. c.position) (map consumed_view s.now))) }
        // and where it stands there, it stands for a cause
        ensures cause { (w : rules.World) (done : List Deed) → IsRun w done self.now
            → HasCause (setting_of w done host node) (record_of w done host node) }
    {
        headline();
        self.consumed_there(host, node)
    }

    fn consumed_there(&self, host: usize, node: usize) -> Option<&[Consumed]>
        ensures { option_map (λ s. map consumed_view s.now) result
            ≡ spec.consumed_at self.now host node }
    {
        let member = self.hosts.get(host)?;
        let track = member.tracks.get(node)?;
        Some(&track.consumed)
    }

    /// What a node published, in order. Takes no memory.
    pub fn published(&self, node: usize) -> Option<&[Published]>
        ensures exact { option_map (λ s. map published_view s.now) result
            ≡ spec.published_at self.now node }
        // in a world in which a list of things was done: what the run of the node's inputs published, each message under the number
        // of its position
        ensures listed { (w : rules.World) (done : List Deed) → IsRun w done self.now
            → IfSome result (λ s. map published_view s.now
            ≡ posts_of (node_at w node) (published_of w done node) 0 (published_of w done node)) }
    {
        self.published_there(node)
    }

    fn published_there(&self, node: usize) -> Option<&[Published]>
        ensures { option_map (λ s. map published_view s.now) result
            ≡ spec.published_at self.now node }
    {
        let part = self.nodes.get(node)?;
        Some(&part.log.published)
    }

    /// A host: what it shows is its view. Takes no memory.
    pub fn host(&self, host: usize) -> Option<&Host>
        ensures exact { option_map (λ h. h.now) result ≡ spec.host_at self.now host }
        // in a world in which a list of things was done: it was told what came of each node, and shows the values at the last
        // message consumed of it
        ensures listed { (w : rules.World) (done : List Deed) → IsRun w done self.now
            → IfSome result (λ h. IsHeard w done host h.now) }
    {
        any_list();
        self.host_there(host)
    }

    fn host_there(&self, host: usize) -> Option<&Host>
        ensures { option_map (λ h. h.now) result ≡ spec.host_at self.now host }
    {
        let member = self.hosts.get(host)?;
        Some(&member.host)
    }
}
