//! A world is made.
ghost use Rattle.std.specs.Prelude.{◌≡◌, ◌⊎◌, map, length, true, false, [], IfOk, IfErr, OnOk};
ghost use Rattle.std.specs.List.{AllByRecursion, list_any, list_all};
ghost use Rattle.spk_device.specs.Lawful.{IsLawful};
ghost use Rattle.spk_edge.specs.Patch as patch;
ghost use Rattle.spk_edge.specs.View.{config_view};
ghost use Rattle.spk_world.specs.Fresh.{are_apart, are_namesakes, fresh_part};
ghost use Rattle.spk_world.specs.Listed.{world_of};
ghost use Rattle.spk_world.specs.Setups.{AreBadNodes, HasLawful, HasWide, fresh_member, fresh_node, is_good_host, is_good_setup};
ghost use Rattle.spk_world_run.specs.Run.{IsRun};

use crate::fault::WorldFault;
use crate::log::Log;
use crate::member::Member;
use crate::node::Node;
use crate::world::World;
use spk_device::Registry;
use spk_edge::{EdgeConfig, EdgeFault, EdgeNode, Record};
use spk_host::{HostConfig, HostFault};
use spk_world_run::laws::begins;
use std::alloc::Global;

/// What a node begins with that none ran before.
const FIRST: Record = Record {
    seq: 0,
    bd: 0,
    stamp: None,
};

impl Node {
    /// A node that was told nothing.
    fn new(alloc: Global, config: EdgeConfig, registry: Registry) -> Result<Node, WorldFault>
        ensures made { IfOk result
            (λ n. n ≡ fresh_part (config_view config) config.capacity registry) }
        ensures good { OnOk result (patch.is_good (config_view config) config.capacity ≡ true) }
        ensures fault { IfErr result
            (λ e. (e ≡ WorldFault.NoMemory) ⊎ ((e ≡ WorldFault.Edge EdgeFault.BadConfig)
            × (patch.is_good (config_view config) config.capacity ≡ false))) }
    {
        let edge = EdgeNode::new(alloc, config, FIRST, registry)?;
        Ok(Node {
            edge,
            log: Log::new(alloc),
        })
    }
}

/// Whether there is a node of that group and name.
fn is_there(nodes: &[Node], config: &EdgeConfig) -> bool
    ensures { result ≡ list_any
        (λ n. are_namesakes n.node.config (config_view config.now)) nodes.now }
{
    nodes.iter().any(|node| {
        let other = node.config();
        other.group.as_str() == config.group.as_str() && other.node.as_str() == config.node.as_str()
    })
}

/// Every registry is lawful.
fn is_lawful(registry: &Registry)
    ensures { IsLawful registry.now }
{
    let _count = registry.device_count();
}

/// The nodes.
fn nodes_of(alloc: Global, setups: Vec<(EdgeConfig, Registry)>) -> Result<Vec<Node>, WorldFault>
    ensures made { IfOk result (λ ns. ns.items ≡ map fresh_node setups.items) }
    ensures good { OnOk result (list_all is_good_setup setups.items ≡ true) }
    ensures apart { OnOk result (are_apart (map fresh_node setups.items) ≡ true) }
    ensures lawful { OnOk result (AllByRecursion HasLawful setups.items) }
    ensures fault { IfErr result
        (λ e. (e ≡ WorldFault.NoMemory) ⊎ ((e ≡ WorldFault.Edge EdgeFault.BadConfig)
        × AreBadNodes setups.items)) }
{
    let mut nodes = Vec::with_capacity(alloc, setups.len())?;
    for (config, registry) in setups {
        is_lawful(&registry);
        if is_there(&nodes, &config) {
            return Err(WorldFault::Edge(EdgeFault::BadConfig));
        }
        nodes.push_reserved(Node::new(alloc, config, registry)?);
    }
    Ok(nodes)
}

/// Every width is one of a window.
fn are_wide(configs: &[HostConfig])
    ensures { AllByRecursion HasWide configs.now }
{
    for config in configs {
        let _places = config.width.get();
    }
}

/// The hosts, with a track of each of so many nodes.
fn hosts_of(
    alloc: Global,
    configs: Vec<HostConfig>,
    nodes: usize,
) -> Result<Vec<Member>, WorldFault>
    ensures made { IfOk result (λ ms. ms.items ≡ map (fresh_member nodes) configs.items) }
    ensures good { OnOk result (list_all is_good_host configs.items ≡ true) }
    ensures fault { IfErr result
        (λ e. (e ≡ WorldFault.NoMemory) ⊎ ((e ≡ WorldFault.Host HostFault.NotSparkplug)
        × (list_all is_good_host configs.items ≡ false))) }
{
    let mut hosts = Vec::with_capacity(alloc, configs.len())?;
    for config in configs {
        hosts.push_reserved(Member::new(alloc, config, nodes)?);
    }
    Ok(hosts)
}

impl World {
    /// A world of nodes that were told nothing, and of hosts whose first sessions began at moment 0: one in which nothing was
    /// done.
    ///
    /// Refused with Edge (84) for a node that `spk_edge` refuses, or two nodes of one group and name; with Host (85) for a host that
    /// `spk_host` refuses.
    pub fn new(
        alloc: Global,
        nodes: Vec<(EdgeConfig, Registry)>,
        hosts: Vec<HostConfig>,
    ) -> Result<World, WorldFault>
        ensures begins { IfOk result (IsRun (world_of nodes.items hosts.items) []) }
        ensures nodes { IfOk result (λ w. w.nodes ≡ map fresh_node nodes.items) }
        ensures hosts { IfOk result
            (λ w. w.hosts ≡ map (fresh_member (length nodes.items)) hosts.items) }
        ensures good_nodes { OnOk result (list_all is_good_setup nodes.items ≡ true) }
        ensures apart { OnOk result (are_apart (map fresh_node nodes.items) ≡ true) }
        ensures lawful { OnOk result (AllByRecursion HasLawful nodes.items) }
        ensures good_hosts { OnOk result (list_all is_good_host hosts.items ≡ true) }
        ensures fault { IfErr result (λ e. (e ≡ WorldFault.NoMemory)
            ⊎ (((e ≡ WorldFault.Edge EdgeFault.BadConfig) × AreBadNodes nodes.items)
            ⊎ ((e ≡ WorldFault.Host HostFault.NotSparkplug)
            × (list_all is_good_host hosts.items ≡ false)))) }
        ensures order { IfErr result (λ e. e ≡ WorldFault.Host HostFault.NotSparkplug
            → (list_all is_good_setup nodes.items ≡ true)
            × (are_apart (map fresh_node nodes.items) ≡ true)) }
    {
        begins();
        are_wide(&hosts);
        let nodes = nodes_of(alloc, nodes)?;
        let hosts = hosts_of(alloc, hosts, nodes.len())?;
        Ok(World {
            alloc,
            nodes,
            hosts,
        })
    }
}
