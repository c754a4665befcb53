//! A plant, from its plan to its report.
ghost use Rattle.std.specs.Prelude.{IfOk, IfErr, OnOk};
ghost use Rattle.spk_plan_rules.specs.Plan.{CanRun, IsMade};
ghost use Rattle.spk_plant.specs.Choice.{IsFault};
ghost use Rattle.spk_plant.specs.Report.{RunsAs};

use crate::report::Report;
use crate::start::{Parts, parts_of};
use crate::threads::run_all;
use crate::tie::report_of;
use spk_plan::{Gate, Plan, PlantFault};
use spk_plan_rules::is_made;
use std::alloc::Global;
use std::sync::Wait;
use std::thread::Threads;

/// Runs a plan: each edge node, the broker and the host on a thread of its own, until the edges have run their scripts and
/// stopped, the host's ring is empty, and the broker has taken all frames. Moments are counts: of an edge node 1,000,000 and its
/// inputs so far, of the broker its frames, of the host its items.
///
/// Refused with BadPlan (92) where there are no or over 16 nodes, two of one name, a node with over 200 `Open` steps or over 100,000
/// changes, a ring outside 4 to 65,536, an ingress outside 1 to 65,536, or names and capacities of which no edge node or no host can
/// be made; with NoMemory (1) where a growth was refused; with the fault of a thread that failed, Closed (90) where the frames' taker or
/// their senders are gone, of several faults the broker's, else that of the first edge node in the plan's order, else the host's; and with
/// Unsettled (93) where all threads ran to their ends and a ring's token isn't there, the host's ring isn't empty, or frames weren't
/// taken. Where the machine has no further thread, the plan may never end.
pub fn run_plant<R: Threads + Wait + Sync, G: Gate + Sync>(
    rt: &R,
    alloc: Global,
    plan: Plan,
    gate: &G,
) -> Result<Report, PlantFault>
    ensures ran { IfOk result (λ r. RunsAs plan r) }
    ensures can { OnOk result (CanRun plan) }
    ensures made { OnOk result (IsMade plan) }
    ensures fault { IfErr result (λ e. IsFault plan e) }
{
    is_made(&plan);
    let parts = match parts_of(rt, alloc, plan) {
        Ok(parts) => parts,
        Err(fault) => return Err(fault),
    };
    let Parts {
        ingress,
        edges,
        broker,
        host,
    } = parts;
    let ends = match run_all(rt, alloc, &ingress, gate, edges, broker, host) {
        Ok(ends) => ends,
        Err(fault) => return Err(fault),
    };
    report_of(rt, alloc, ingress, ends)
}
