//! A host of a world.
ghost use Rattle.std.specs.Prelude.{◌≡◌, ◌⊎◌, true, false, IfOk, IfErr, OnOk};
ghost use Rattle.spk_host_session.specs.Data.{is_good};
ghost use Rattle.spk_host_session.specs.View.{config_view};
ghost use Rattle.spk_world_run.specs.Step as step;
ghost use Rattle.spk_world_run.specs.Tests as test;

use crate::fault::WorldFault;
use crate::node::Node;
use crate::track::Track;
use spk_host::{Host, HostConfig, HostFault};
use spk_sequence::Phase;
use std::alloc::Global;
use std::marker::Model;

/// A host, with a track of each node. Contracts see a `HostPart`.
#[derive(Drop)]
pub(crate) struct Member {
    pub(crate) host: Host,
    pub(crate) tracks: Vec<Track>,
}

impl Model for Member {
    ghost use Rattle.std.specs.Prelude.{map};
    ghost use Rattle.spk_world_run.specs.Data.{HostPart};
    ghost use Rattle.spk_world.specs.View.{track_view};

    ghost Value = { HostPart };

    ghost view = { λ m. record { host = m.host; tracks = map track_view m.tracks.items } };
}

/// Whether a host follows a node.
pub(crate) fn follows(host: &Host, node: &Node) -> bool
    ensures { result ≡ test.follows host.now node.now }
{
    let config = node.config();
    match host.phase(config.group.as_str(), config.node.as_str()) {
        Phase::Live => true,
        _ => false,
    }
}

/// How many nodes a host follows.
pub(crate) fn followed(host: &Host, nodes: &[Node]) -> usize
    ensures { result ≡ step.followed host.now nodes.now }
{
    nodes.iter().filter(|node| follows(host, node)).count()
}

impl Member {
    ghost use Rattle.spk_world.specs.Fresh.{fresh_host};

    /// A host that begins its first session at moment 0, with a track of each of so many nodes.
    pub(crate) fn new(alloc: Global, config: HostConfig, nodes: usize) -> Result<Member, WorldFault>
        ensures made { IfOk result (λ m. m ≡ fresh_host nodes (config_view config)) }
        ensures good { OnOk result (is_good (config_view config) ≡ true) }
        ensures fault { IfErr result
            (λ e. (e ≡ WorldFault.NoMemory) ⊎ ((e ≡ WorldFault.Host HostFault.NotSparkplug)
            × (is_good (config_view config) ≡ false))) }
    {
        let mut tracks = Vec::with_capacity(alloc, nodes)?;
        for _place in 0..nodes {
            tracks.push_reserved(Track::new(alloc));
        }
        let mut host = Host::new(alloc, config)?;
        host.connected(0)?;
        Ok(Member { host, tracks })
    }
}
