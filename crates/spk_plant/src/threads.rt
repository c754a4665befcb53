//! The threads of a plant, started and joined.
ghost use Rattle.std.specs.Prelude.{◌≡◌, ◌⊎◌, ◌≤◌, ◌+◌, [], ◌∷◌, ◌++◌, length, IfOk, IfErr, IfSome, None};
ghost use Rattle.std.specs.Thread.{IsSync};
ghost use Rattle.spk_ingress.specs.Passes.{PutsInto};
ghost use Rattle.spk_plant_broker.specs.Done.{BrokerDone, BrokerReady};
ghost use Rattle.spk_plant_edge.specs.Done.{EdgeFailed};
ghost use Rattle.spk_plant_host.specs.Ends.{HostBroke, HostDone, HostReady};
ghost use Rattle.spk_plant.specs.Choice.{IsChosen, IsOfEdges};
ghost use Rattle.spk_plant.specs.Done.{AllDone, AreDone, AreReady, IsEdgeDone};

use crate::choice::{Ends, edges_of, ends_of};
use spk_ingress::Ingress;
use spk_plan::{Gate, PlantFault};
use spk_plant_broker::{Bells, BrokerEnd, BrokerFailed, BrokerStart, run_broker};
use spk_plant_edge::{EdgeEnd, EdgeFailure, EdgeStart, run_edge};
use spk_plant_host::{HostEnd, HostFailed, HostStart, run_host};
use std::alloc::{AllocError, Global};
use std::sync::Wait;
use std::thread::{Parker, Threads, join};

/// One edge's thread.
fn one_edge<R: Wait, G: Gate>(
    rt: &R,
    alloc: Global,
    ingress: &Ingress,
    gate: &G,
    bell: &Parker,
    start: EdgeStart,
) -> Result<EdgeEnd, EdgeFailure>
    requires { PutsInto ingress.now start.pass }
    ensures done { IfOk result (λ e. IsEdgeDone ingress.now start e) }
    ensures failed { IfErr result (EdgeFailed start) }
{
    run_edge(rt, alloc, ingress, gate, bell, start)
}

/// So many bells, at which threads are parked while their rings are empty.
fn bells_of(alloc: Global, count: usize) -> Result<Vec<Parker>, AllocError>
    ensures sized { IfOk result (λ bells. length bells.items ≡ count) }
{
    let mut bells = Vec::new(alloc);
    for _place in 0..count {
        bells.push(Parker::new())?;
    }
    Ok(bells)
}

/// The last of these, if there is one.
fn next_of(ingress: &Ingress, starts: &mut Vec<EdgeStart>) -> Option<EdgeStart>
    requires { AreReady ingress.now starts.old.items }
    ensures ready { IfSome result (λ s. PutsInto ingress.now s.pass) }
    ensures others { IfSome result (λ _. AreReady ingress.now starts.new.items) }
    ensures items { IfSome result (λ s. starts.old.items ≡ starts.new.items ++ s ∷ []) }
    ensures fewer { IfSome result (λ _. length starts.old.items ≡ length starts.new.items + 1) }
    ensures none { result ≡ None → length starts.old.items ≡ 0 }
{
    starts.pop()
}

/// The edges' threads: the last one's beside all others, which are run likewise. Each has the bell of its place. Of several faults the
/// first edge node's is answered.
fn run_edges<R: Threads + Wait + Sync, G: Gate + Sync>(
    rt: &R,
    alloc: Global,
    ingress: &Ingress,
    gate: &G,
    bells: &[Parker],
    mut starts: Vec<EdgeStart>,
) -> Result<Vec<EdgeEnd>, PlantFault>
    requires ready { AreReady ingress.now starts.items }
    requires bells { length starts.items ≤ length bells.now }
    ensures done { IfOk result (λ es. AreDone ingress.now starts.items es.items) }
    ensures fault { IfErr result (IsOfEdges ingress.now starts.items) }
{
    let Some(start) = next_of(ingress, &mut starts) else {
        return Ok(Vec::new(alloc));
    };
    let bell = &bells[starts.len()];
    let (last, others) = join(
        rt,
        move || -> Result<EdgeEnd, EdgeFailure>
            requires { PutsInto ingress.now start.pass }
            ensures done { IfOk result (λ e. IsEdgeDone ingress.entry.now start e) }
            ensures failed { IfErr result (EdgeFailed start) }
        { one_edge(rt, alloc, ingress, gate, bell, start) },
        move || -> Result<Vec<EdgeEnd>, PlantFault>
            requires { IsSync R.row × IsSync G.row × AreReady ingress.now starts.items
                × (length starts.items ≤ length bells.now) }
            ensures done { IfOk result (λ es. AreDone ingress.entry.now starts.items es.items) }
            ensures fault { IfErr result (IsOfEdges ingress.entry.now starts.items) }
        { run_edges(rt, alloc, ingress, gate, bells, starts) },
    );
    edges_of(others, last)
}

/// All threads: the edges' beside the broker's and the host's. Of several faults the broker's is answered, else that of the first edge
/// node, else the host's.
pub(crate) fn run_all<R: Threads + Wait + Sync, G: Gate + Sync>(
    rt: &R,
    alloc: Global,
    ingress: &Ingress,
    gate: &G,
    edges: Vec<EdgeStart>,
    broker: BrokerStart,
    host: HostStart,
) -> Result<Ends, PlantFault>
    requires edges { AreReady ingress.now edges.items }
    requires broker { BrokerReady ingress.now broker }
    requires host { HostReady ingress.now host }
    ensures done { IfOk result (λ e. AllDone ingress.now edges.items broker host e) }
    ensures fault { IfErr result (λ e. (e ≡ PlantFault.NoMemory)
        ⊎ IsChosen ingress.now edges.items broker host e) }
{
    let bells = bells_of(alloc, edges.len() + 1)?;
    let bells = bells.as_slice();
    let bell = &bells[edges.len()];
    let (edges, (broker, host)) = join(
        rt,
        move || -> Result<Vec<EdgeEnd>, PlantFault>
            requires { IsSync R.row × IsSync G.row × AreReady ingress.now edges.items
                × (length edges.items ≤ length bells.now) }
            ensures done { IfOk result (λ es. AreDone ingress.entry.now edges.items es.items) }
            ensures fault { IfErr result (IsOfEdges ingress.entry.now edges.items) }
        { run_edges(rt, alloc, ingress, gate, bells, edges) },
        move || -> (Result<BrokerEnd, BrokerFailed>, Result<HostEnd, HostFailed>)
            requires { IsSync R.row × IsSync G.row × BrokerReady ingress.now broker
                × HostReady ingress.now host }
            ensures broker { IfOk result.0 (λ e. BrokerDone ingress.entry.now broker e) }
            ensures host { IfOk result.1 (λ e. HostDone ingress.entry.now host e) }
            ensures host_fault { IfErr result.1 (HostBroke ingress.entry.now host) }
        { run_two(rt, alloc, ingress, gate, bells, bell, broker, host) },
    );
    ends_of(broker, edges, host)
}

/// The broker's thread beside the host's, which has this bell.
fn run_two<R: Threads + Wait + Sync, G: Gate + Sync>(
    rt: &R,
    alloc: Global,
    ingress: &Ingress,
    gate: &G,
    bells: &[Parker],
    bell: &Parker,
    broker: BrokerStart,
    host: HostStart,
) -> (Result<BrokerEnd, BrokerFailed>, Result<HostEnd, HostFailed>)
    requires broker { BrokerReady ingress.now broker }
    requires host { HostReady ingress.now host }
    ensures broker { IfOk result.0 (λ e. BrokerDone ingress.now broker e) }
    ensures host { IfOk result.1 (λ e. HostDone ingress.now host e) }
    ensures host_fault { IfErr result.1 (HostBroke ingress.now host) }
{
    join(
        rt,
        move || -> Result<BrokerEnd, BrokerFailed>
            requires { BrokerReady ingress.now broker }
            ensures done { IfOk result (λ e. BrokerDone ingress.entry.now broker e) }
        {
            let mut bells = Bells::new(bells);
            run_broker(rt, alloc, ingress, gate, &mut bells, broker)
        },
        move || -> Result<HostEnd, HostFailed>
            requires { HostReady ingress.now host }
            ensures done { IfOk result (λ e. HostDone ingress.entry.now host e) }
            ensures fault { IfErr result (HostBroke ingress.entry.now host) }
        { run_host(rt, alloc, ingress, gate, bell, host) },
    )
}
