//! Calls of `spk_plant`.
ghost use Rattle.std.specs.Prelude.{◌≡◌, true, false, IfOk, IfErr, OnOk};
ghost use Rattle.spk_plan_rules.specs.Plan.{CanRun, IsMade};
ghost use Rattle.spk_plant.specs.Choice.{IsFault};
ghost use Rattle.spk_plant.specs.Report.{RunsAs};
ghost use Rattle.spk_refusals.specs.Wrong.{IsEmptied, IsReportEmptied};

use spk_plan::{Gate, Plan, PlantFault};
use spk_plant::Report;
use std::alloc::Global;
use std::sync::Wait;
use std::thread::Threads;

/// `spk_plant::run_plant`.
pub fn run_plant<R: Threads + Wait + Sync, G: Gate + Sync>(
    rt: &R,
    alloc: Global,
    plan: Plan,
    gate: &G,
) -> Result<Report, PlantFault>
    ensures ran { IfOk result (λ r. RunsAs plan r) }
    ensures can { OnOk result (CanRun plan) }
    ensures made { OnOk result (IsMade plan) }
    ensures fault { IfErr result (λ e. IsFault plan e) }
{
    spk_plant::run_plant(rt, alloc, plan, gate)
}

/// Nothing is said of what was taken, refused and given.
fn emptied(alloc: Global, report: Report) -> Report
    ensures { IsEmptied report result }
{
    Report {
        taken: Vec::new(alloc),
        refusals: Vec::new(alloc),
        nodes: report.nodes,
        given: Vec::new(alloc),
        accepted: Vec::new(alloc),
        refused: 0,
        is_cut: false,
    }
}

/// A report says nothing of what was taken, refused and given.
fn empty_report(
    turns: bool,
    alloc: Global,
    answer: Result<Report, PlantFault>,
) -> Result<Report, PlantFault>
    ensures control { turns ≡ false → result ≡ answer }
    ensures turned { turns ≡ true → IsReportEmptied answer result }
{
    if !turns {
        return answer;
    }
    match answer {
        Ok(report) => Ok(emptied(alloc, report)),
        Err(fault) => Err(fault),
    }
}
