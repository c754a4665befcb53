//! How serving went, and how a plant ended, as they are said.

use spk_commands::told;
use spk_plan::PlantFault;
use spk_runtime::ServeFault;
use spk_serving::said;
use std::io::{self, Write};

/// How serving can go.
const SERVED: [Result<u32, ServeFault>; 3] = [
    Ok(2),
    Err(ServeFault::Device),
    Err(ServeFault::NoMemory),
];

/// How a plant can fail.
const FAILED: [PlantFault; 4] = [
    PlantFault::NoMemory,
    PlantFault::Closed,
    PlantFault::BadPlan,
    PlantFault::Unsettled,
];

/// Prints each, and its status.
pub(crate) fn print_all<W: Write>(out: &mut W) -> io::Result<()> {
    for answer in SERVED {
        let status = said(out, answer)?;
        writeln!(out, "status {status}")?;
    }
    for fault in FAILED {
        let status = told(out, Err(fault))?;
        writeln!(out, "status {status}")?;
    }
    Ok(())
}
