//! A history that is cut off at each byte.

use crate::cases::print_fault;
use crate::files::InMemory;
use spk_history_export::{Counts, ExportFault, Plan, Print, Window, print};
use std::{fs, io};

/// What is read of the front of a history, and how many notes are made.
fn cut(rt: &HostRuntime, parts: &[String], front: &[u8]) -> Result<(Counts, usize), ExportFault> {
    let plan = Plan {
        parts,
        window: Window::all(),
    };
    let mut files = InMemory {
        bytes: front,
        is_broken: false,
    };
    let mut out: Vec<u8> = Vec::new(rt.alloc());
    let mut notes: Vec<u8> = Vec::new(rt.alloc());
    let counts = print(
        rt.alloc(),
        &plan,
        Print::Summary,
        &mut files,
        &mut out,
        &mut notes,
    )?;
    let lines = notes.as_slice().iter().filter(|b| **b == b'\n').count();
    Ok((counts, lines))
}

/// Tells of one cut.
fn tell_cut(rt: &HostRuntime, parts: &[String], len: usize, front: &[u8]) -> io::Result<bool> {
    match cut(rt, parts, front) {
        Ok((counts, notes)) => {
            println!(rt;
                "{len}: {} records, {} values, {notes} notes",
                counts.records, counts.values
            )?;
            Ok(true)
        }
        Err(fault) => print_fault(rt, fault),
    }
}

/// Cuts a history off at each byte.
pub(crate) fn try_cuts(rt: &HostRuntime, name: &str) -> io::Result<bool> {
    let bytes = fs::read(rt, name)?;
    let mut parts = Vec::new(rt.alloc());
    parts.push(String::from_str(rt.alloc(), name)?)?;
    for len in 0..=bytes.len() {
        if !tell_cut(rt, &parts, len, &bytes.as_slice()[..len])? {
            return Ok(false);
        }
    }
    Ok(true)
}
