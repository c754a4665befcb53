//! A part whose reading fails, and writers that fail.

use crate::cases::print_fault;
use crate::files::{InMemory, Narrow};
use spk_history_export::{ExportFault, PartsOnDisk, Plan, Print, print};
use std::{fs, io};

/// The most bytes that a writer is tried with.
const MOST: usize = 100_000;

/// A history whose reading fails behind its last byte but one.
pub(crate) fn try_broken(rt: &HostRuntime, plan: &Plan) -> io::Result<bool> {
    let name = plan.parts.get(0).map_or("", |name| name.as_str());
    let bytes = fs::read(rt, name)?;
    let front = bytes.len().saturating_sub(1);
    let mut files = InMemory {
        bytes: &bytes.as_slice()[..front],
        is_broken: true,
    };
    let mut out = io::writer(rt);
    let mut notes = io::writer(rt);
    match print(
        rt.alloc(),
        plan,
        Print::Summary,
        &mut files,
        &mut out,
        &mut notes,
    ) {
        Ok(_) => {
            println!(rt; "it is read")?;
            Ok(true)
        }
        Err(fault) => print_fault(rt, fault),
    }
}

/// What comes where the writer takes so many bytes.
fn stuck(rt: &HostRuntime, plan: &Plan, what: Print, room: usize) -> Result<(), ExportFault> {
    let mut files = PartsOnDisk::new(rt);
    let mut out = Narrow { room };
    let mut notes: Vec<u8> = Vec::new(rt.alloc());
    print(rt.alloc(), plan, what, &mut files, &mut out, &mut notes)?;
    Ok(())
}

/// Prints to writers that take more and more bytes, and tells with how many all is printed: with fewer each fails.
pub(crate) fn try_stuck(rt: &HostRuntime, plan: &Plan, what: Print) -> io::Result<bool> {
    for room in 0..MOST {
        match stuck(rt, plan, what, room) {
            Ok(()) => {
                println!(rt; "printed in {room} bytes")?;
                return Ok(true);
            }
            Err(ExportFault::NoOutput) => {}
            Err(fault) => return print_fault(rt, fault),
        }
    }
    println!(rt; "never printed")?;
    Ok(false)
}
