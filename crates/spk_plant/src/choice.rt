//! What the threads come to, joined: their ends, or one of their faults.
ghost use Rattle.std.specs.Prelude.{◌≡◌, ◌⊎◌, IfOk, IfErr, Some, None};
ghost use Rattle.spk_plant.specs.Choice.{AreAll, AreJoined, fault_of_all, fault_of_edges};

use spk_plan::PlantFault;
use spk_plant_broker::{BrokerEnd, BrokerFailed};
use spk_plant_edge::{EdgeEnd, EdgeFailure};
use spk_plant_host::{HostEnd, HostFailed};

/// What the threads hand on at their ends.
#[derive(Drop)]
pub(crate) struct Ends {
    pub(crate) edges: Vec<EdgeEnd>,
    pub(crate) broker: BrokerEnd,
    pub(crate) host: HostEnd,
}

/// The ends of edge nodes and of one more that stands last in the plan. Of several faults that of the first one in the plan.
pub(crate) fn edges_of(
    others: Result<Vec<EdgeEnd>, PlantFault>,
    last: Result<EdgeEnd, EdgeFailure>,
) -> Result<Vec<EdgeEnd>, PlantFault>
    ensures joined { IfOk result (λ es. AreJoined others last es.items) }
    ensures fault { IfErr result (λ e. (fault_of_edges others last ≡ Some e)
        ⊎ ((fault_of_edges others last ≡ None) × (e ≡ PlantFault.NoMemory))) }
{
    let mut ends = match others {
        Ok(ends) => ends,
        Err(fault) => return Err(fault),
    };
    let last = match last {
        Ok(last) => last,
        Err(failure) => return Err(failure.fault()),
    };
    ends.push(last)?;
    Ok(ends)
}

/// The ends of all threads. Of several faults the broker's, else the edge nodes', else the host's.
pub(crate) fn ends_of(
    broker: Result<BrokerEnd, BrokerFailed>,
    edges: Result<Vec<EdgeEnd>, PlantFault>,
    host: Result<HostEnd, HostFailed>,
) -> Result<Ends, PlantFault>
    ensures all { IfOk result (AreAll broker edges host) }
    ensures fault { IfErr result (λ e. fault_of_all broker edges host ≡ Some e) }
{
    let broker = match broker {
        Ok(broker) => broker,
        Err(cause) => return Err(cause.fault()),
    };
    let edges = match edges {
        Ok(edges) => edges,
        Err(fault) => return Err(fault),
    };
    let host = match host {
        Ok(host) => host,
        Err(failed) => return Err(failed.fault()),
    };
    Ok(Ends {
        edges,
        broker,
        host,
    })
}
