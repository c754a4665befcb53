//! Plants that are run.

use crate::case::{Around, text_of};
use crate::flaw::Flaw;
use crate::runs::{REFUSED, ROOM};
use serde_json::Value as Json;
use spk_commands::plant;
use spk_files::{FileFault, read_plan};
use spk_plan::Plan;
use std::alloc::{AllocError, Global};
use std::io::Eprint;
use std::sync::Wait;
use std::thread::Threads;

/// The plan that a text says, if it says one.
fn plan_of(alloc: Global, text: &str) -> Result<Option<Plan>, AllocError> {
    match read_plan(alloc, text) {
        Ok(plan) => Ok(Some(plan)),
        Err(FileFault::NoMemory) => Err(AllocError),
        Err(_) => Ok(None),
    }
}

/// What the plant of a plan prints, and its status.
fn ran<R>(rt: &R, plan: Plan) -> Result<(Vec<u8>, u8), AllocError>
where
    R: AllocGlobal + Threads + Wait + Eprint + Sync,
{
    let mut held = Vec::with_capacity(rt.alloc(), ROOM)?;
    let status = plant(rt, plan, &mut held);
    Ok((held, status))
}

/// Whether this is what a case says, with status 0. Where memory was refused the case is tried again.
fn is_right(case: &Json, held: &[u8], status: u8) -> Result<bool, AllocError> {
    if held == REFUSED.as_slice() && status == 1 {
        return Err(AllocError);
    }
    Ok(held == text_of(case, "plant").unwrap_or("").as_bytes() && status == 0)
}

/// What isn't as wanted of the plant of a case, if something isn't.
pub(crate) fn judge<R>(rt: &R, around: &Around, case: &Json) -> Result<Option<Flaw>, AllocError>
where
    R: AllocGlobal + Threads + Wait + Eprint + Sync,
{
    let Some(file) = around.file_of(rt.alloc(), case)? else {
        return Ok(Some(Flaw::NoFile));
    };
    let Some(plan) = plan_of(rt.alloc(), file.as_str())? else {
        return Ok(Some(Flaw::NoPlan));
    };
    let (held, status) = ran(rt, plan)?;
    if is_right(case, held.as_slice(), status)? {
        Ok(None)
    } else {
        Ok(Some(Flaw::Printed))
    }
}
