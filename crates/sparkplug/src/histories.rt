//! A host's history, read from the machine's files.

use spk_commands::{HistoryForm, HistoryPlan};
use spk_history_export::{Counts, ExportFault, PartsOnDisk, Plan, Print, Window, export_to, print};
use std::io::Write;

/// Makes of a history what is asked for, and answers the status: 0, or 1 where a fault ended it, which is printed.
pub(crate) fn read_history<W: Write, N: Write>(
    rt: &HostRuntime,
    plan: &HistoryPlan,
    out: &mut W,
    notes: &mut N,
) -> u8 {
    match made(rt, plan, out, notes) {
        Ok(_counts) => 0,
        Err(fault) => {
            let number = fault.number();
            let _ = writeln!(out, "fault {fault} ({number})");
            1
        }
    }
}

/// What is asked for, and what was read; or why it isn't made.
fn made<W: Write, N: Write>(
    rt: &HostRuntime,
    plan: &HistoryPlan,
    out: &mut W,
    notes: &mut N,
) -> Result<Counts, ExportFault> {
    let alloc = rt.alloc();
    let mut files = PartsOnDisk::new(rt);
    let what = Plan {
        parts: plan.parts.as_slice(),
        window: Window {
            from: plan.from,
            to: plan.to,
        },
    };
    match &plan.form {
        HistoryForm::Tables(name) => {
            export_to(rt, alloc, &what, name.as_str(), &mut files, notes)
        }
        HistoryForm::Csv(metric) => {
            print(
                alloc,
                &what,
                Print::Csv(metric.as_str()),
                &mut files,
                out,
                notes,
            )
        }
        HistoryForm::Holes => print(alloc, &what, Print::Holes, &mut files, out, notes),
        HistoryForm::Summary => print(alloc, &what, Print::Summary, &mut files, out, notes),
    }
}
