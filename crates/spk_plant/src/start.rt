//! What the threads of a plant begin with.
ghost use Rattle.std.specs.Prelude.{◌≡◌, ◌+◌, ◌⊎◌, length, map, IfOk, IfErr, OnOk, true};
ghost use Rattle.std.specs.String.{string_bytes};
ghost use Rattle.spk_device.specs.Book.{Book};
ghost use Rattle.spk_edge.specs.Along.{node_of};
ghost use Rattle.spk_host.specs.Inputs.{new_host};
ghost use Rattle.spk_host_session.specs.Data as host_names;
ghost use Rattle.spk_rings.specs.Ring.{IsCapacity, free};
ghost use Rattle.spk_plan_rules.specs.Plan.{AreEdges, CanRun, edge_setup, host_config, is_edge};
ghost use Rattle.spk_plant.specs.Choice.{IsRefused};
ghost use Rattle.spk_plant.specs.Start.{AreParts, AreRings, AreStarts, IsRing, IsStart, names_in};

use spk_edge::{EdgeConfig, EdgeFault, EdgeNode, Numbering, Record};
use spk_host::{Host, HostConfig};
use spk_ingress::{Ingress, OpenFault, PutPass};
use spk_plan::{Plan, PlanNode, PlantFault};
use spk_plan_rules::is_within;
use spk_plant_broker::BrokerStart;
use spk_plant_edge::EdgeStart;
use spk_plant_host::HostStart;
use spk_rings::{Inlet, Outlet, RingFault, ring};
use spk_sequence::Width;
use std::alloc::{AllocError, Global};
use std::sync::Wait;

/// What the threads begin with.
#[derive(Drop)]
pub(crate) struct Parts {
    pub(crate) ingress: Ingress,
    pub(crate) edges: Vec<EdgeStart>,
    pub(crate) broker: BrokerStart,
    pub(crate) host: HostStart,
}

/// A new ring with room for so many items.
fn new_ring(alloc: Global, capacity: usize) -> Result<(Outlet, Inlet), PlantFault>
    ensures ring { IfOk result (λ r. IsRing r.0 r.1) }
    ensures room { IfOk result (λ r. free r.0 ≡ capacity) }
    ensures fault { IfErr result (λ e. (e ≡ PlantFault.NoMemory)
        ⊎ ((e ≡ PlantFault.BadPlan) × (IsCapacity capacity → ⊥))) }
{
    match ring(alloc, capacity) {
        Ok(ends) => Ok(ends),
        Err(RingFault::NoMemory) => Err(PlantFault::NoMemory),
        Err(RingFault::BadPlan) => Err(PlantFault::BadPlan),
    }
}

/// So many rings of one capacity.
fn rings_of(
    alloc: Global,
    capacity: usize,
    count: usize,
) -> Result<(Vec<Outlet>, Vec<Inlet>), PlantFault>
    ensures rings { IfOk result (λ r. AreRings capacity count r.0.items r.1.items) }
    ensures fault { IfErr result (λ e. (e ≡ PlantFault.NoMemory)
        ⊎ ((e ≡ PlantFault.BadPlan) × (IsCapacity capacity → ⊥))) }
{
    let mut outlets = Vec::new(alloc);
    let mut inlets = Vec::new(alloc);
    for _place in 0..count {
        let (outlet, inlet) = match new_ring(alloc, capacity) {
            Ok(ends) => ends,
            Err(fault) => return Err(fault),
        };
        outlets.push(outlet)?;
        inlets.push(inlet)?;
    }
    Ok((outlets, inlets))
}

/// What an edge's thread begins with. Its node begins with nothing done before.
fn start_of(
    alloc: Global,
    group: &str,
    host: &str,
    node: PlanNode,
    place: usize,
    pass: PutPass,
    inlet: Inlet,
) -> Result<EdgeStart, PlantFault>
    ensures start { IfOk result (λ s. IsStart group.now host.now node s) }
    ensures ends { IfOk result (λ s. (s.pass ≡ pass) × (s.inlet ≡ inlet)) }
    ensures place { IfOk result (λ s. s.place ≡ place) }
    ensures good { OnOk result (is_edge group.now host.now node ≡ true) }
    ensures fault { IfErr result (λ e. (e ≡ PlantFault.NoMemory)
        ⊎ ((e ≡ PlantFault.BadPlan) × (is_edge group.now host.now node ≡ true → ⊥))) }
{
    let PlanNode {
        node,
        capacity,
        registry,
        script,
    } = node;
    let config = EdgeConfig {
        group: String::from_str(alloc, group)?,
        node,
        primary: Some(String::from_str(alloc, host)?),
        keep: 0,
        capacity,
        numbering: Numbering::RunsOn,
    };
    let start = Record {
        seq: 0,
        bd: 0,
        stamp: None,
    };
    let node = match EdgeNode::new(alloc, config, start, registry) {
        Ok(node) => node,
        Err(EdgeFault::NoMemory) => return Err(PlantFault::NoMemory),
        Err(_) => return Err(PlantFault::BadPlan),
    };
    Ok(EdgeStart {
        node,
        script,
        pass,
        place,
        inlet,
    })
}

/// What the edges' threads begin with, in the order of their nodes.
fn starts_of(
    alloc: Global,
    group: &str,
    host: &str,
    mut nodes: Vec<PlanNode>,
    mut passes: Vec<PutPass>,
    mut inlets: Vec<Inlet>,
) -> Result<Vec<EdgeStart>, PlantFault>
    requires passes { length passes.items ≡ length nodes.items }
    requires inlets { length inlets.items ≡ length nodes.items }
    ensures starts { IfOk result (λ v. AreStarts group.now host.now nodes.items passes.items
        inlets.items v.items) }
    ensures good { OnOk result (AreEdges group.now host.now nodes.items) }
    ensures fault { IfErr result (λ e. (e ≡ PlantFault.NoMemory)
        ⊎ ((e ≡ PlantFault.BadPlan) × (AreEdges group.now host.now nodes.items → ⊥))) }
{
    let Some(node) = nodes.pop() else {
        return Ok(Vec::new(alloc));
    };
    let Some(pass) = passes.pop() else {
        unreachable!()
    };
    let Some(inlet) = inlets.pop() else {
        unreachable!()
    };
    let place = nodes.len();
    let start = match start_of(alloc, group, host, node, place, pass, inlet) {
        Ok(start) => start,
        Err(fault) => return Err(fault),
    };
    let mut starts = match starts_of(alloc, group, host, nodes, passes, inlets) {
        Ok(starts) => starts,
        Err(fault) => return Err(fault),
    };
    starts.push(start)?;
    Ok(starts)
}

/// The nodes' names.
fn names_of(alloc: Global, nodes: &[PlanNode]) -> Result<Vec<String>, AllocError>
    ensures { IfOk result (λ v. map (λ name. string_bytes name) v.items ≡ names_in nodes.now) }
{
    let mut names = Vec::new(alloc);
    for node in nodes {
        names.push(String::from_str(alloc, node.node.as_str())?)?;
    }
    Ok(names)
}

/// The host of a plan, which is new.
fn host_of(
    alloc: Global,
    group: &str,
    name: &str,
    wait: u64,
    width: Width,
) -> Result<Host, PlantFault>
    ensures host { IfOk result (λ h. h ≡ new_host (host_config group.now name.now wait width)) }
    ensures good { OnOk result
        (host_names.is_good (host_config group.now name.now wait width) ≡ true) }
    ensures fault { IfErr result (λ e. (e ≡ PlantFault.NoMemory) ⊎ ((e ≡ PlantFault.BadPlan)
        × (host_names.is_good (host_config group.now name.now wait width) ≡ true → ⊥))) }
{
    let config = HostConfig {
        name: String::from_str(alloc, name)?,
        group: String::from_str(alloc, group)?,
        wait,
        keep: 0,
        width,
    };
    let Ok(host) = Host::new(alloc, config) else {
        return Err(PlantFault::BadPlan);
    };
    Ok(host)
}

/// What all threads of a plan begin with. BadPlan (92) only where it can't run.
pub(crate) fn parts_of<R: Wait>(rt: &R, alloc: Global, plan: Plan) -> Result<Parts, PlantFault>
    ensures parts { IfOk result (λ r. AreParts plan r.ingress r.edges.items r.broker r.host) }
    ensures can { OnOk result (CanRun plan) }
    ensures fault { IfErr result (IsRefused plan) }
{
    if !is_within(&plan) {
        return Err(PlantFault::BadPlan);
    }
    let Plan {
        group,
        host,
        ring,
        ingress,
        wait,
        width,
        nodes,
    } = plan;
    let names = names_of(alloc, nodes.as_slice())?;
    let count = nodes.len();
    let node = match host_of(alloc, group.as_str(), host.as_str(), wait, width) {
        Ok(node) => node,
        Err(fault) => return Err(fault),
    };
    let (channel, mut passes, taker) = match Ingress::open(rt, alloc, ingress, count + 1) {
        Ok(opened) => opened,
        Err(OpenFault::NoMemory) => return Err(PlantFault::NoMemory),
        Err(OpenFault::BadPlan) => return Err(PlantFault::BadPlan),
    };
    let (outlets, mut inlets) = match rings_of(alloc, ring, count + 1) {
        Ok(rings) => rings,
        Err(fault) => return Err(fault),
    };
    let Some(pass) = passes.pop() else {
        unreachable!()
    };
    let Some(inlet) = inlets.pop() else {
        unreachable!()
    };
    let edges = match starts_of(alloc, group.as_str(), host.as_str(), nodes, passes, inlets) {
        Ok(edges) => edges,
        Err(fault) => return Err(fault),
    };
    Ok(Parts {
        ingress: channel,
        edges,
        broker: BrokerStart {
            width,
            pass: taker,
            outlets,
        },
        host: HostStart {
            host: node,
            nodes: names,
            pass,
            inlet,
        },
    })
}
