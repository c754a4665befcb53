//! What a file of an edge node's lines says at the start (own rules).
//!
//! A line is `MOMENT TEXT`: a line of standard input as it came, and when. What stands above the last mark only sets values.

use crate::fault::ProgramFault;
use spk_device::Registry;
use spk_files::{Misfit, Said, line_of};
use spk_journal::{Lines, is_mark, read};
use std::alloc::Global;
use std::str;

/// The first moment that is none.
const END: u64 = 9_223_372_036_854_775_808;

/// A line that the file had.
#[derive(Drop)]
pub(crate) struct Again {
    pub(crate) moment: u64,
    pub(crate) text: String,
    pub(crate) said: Vec<Said>,
}

/// What a file said at the start.
#[derive(Drop)]
pub(crate) struct Replay {
    /// What is to be told once more.
    pub(crate) lines: Vec<Again>,
    /// How many lines say nothing, and were passed over.
    pub(crate) passed: u64,
    /// Its last line was torn.
    pub(crate) is_torn: bool,
}

/// A device is up, or down.
fn turn(registry: &mut Registry, name: &str, up: bool) {
    let _ = if up {
        registry.device_up(name)
    } else {
        registry.device_down(name)
    };
}

/// Sets what a line says.
pub(crate) fn set(registry: &mut Registry, said: Said) {
    match said {
        Said::Values(values) => {
            for (alias, value) in values {
                let _ = registry.set(alias, value);
            }
        }
        Said::Device { name, up } => turn(registry, name.as_str(), up),
    }
}

/// What a line of the file says, and of when. None where it says nothing.
fn line_in(alloc: Global, names: &Registry, line: &[u8]) -> Result<Option<Again>, ProgramFault> {
    let Some((moment, text)) = str::from_utf8(line)
        .ok()
        .and_then(|text| text.split_once(' '))
    else {
        return Ok(None);
    };
    let moment = moment.parse::<u64>().unwrap_or(END);
    if moment >= END {
        return Ok(None);
    }
    match line_of(alloc, names, text) {
        Ok(said) => Ok(Some(Again {
            moment,
            text: String::from_str(alloc, text)?,
            said,
        })),
        Err(Misfit::NoMemory) => Err(ProgramFault::NoMemory),
        Err(_) => Ok(None),
    }
}

/// What a line says, once more.
fn said_again(alloc: Global, names: &Registry, again: &Again) -> Result<Vec<Said>, ProgramFault> {
    match line_of(alloc, names, again.text.as_str()) {
        Ok(said) => Ok(said),
        Err(_) => Err(ProgramFault::NoMemory),
    }
}

/// Takes what a line said: it is set in both registries, or told once more.
fn take(
    alloc: Global,
    names: &Registry,
    again: Again,
    waits: bool,
    replay: &mut Replay,
    registry: &mut Registry,
    base: &mut Registry,
) -> Result<(), ProgramFault> {
    if waits {
        replay.lines.push(again)?;
        return Ok(());
    }
    for said in said_again(alloc, names, &again)? {
        set(registry, said);
    }
    for said in again.said {
        set(base, said);
    }
    Ok(())
}

/// Reads what a file says: what only sets values is set in both registries.
pub(crate) fn replay_of(
    alloc: Global,
    bytes: &[u8],
    names: &Registry,
    registry: &mut Registry,
    base: &mut Registry,
) -> Result<Replay, ProgramFault> {
    let Lines {
        lines,
        settled,
        is_torn,
    } = read(alloc, bytes)?;
    let mut replay = Replay {
        lines: Vec::new(alloc),
        passed: 0,
        is_torn,
    };
    for (place, line) in lines.iter().enumerate() {
        if is_mark(line) {
            continue;
        }
        match line_in(alloc, names, line)? {
            Some(again) => take(
                alloc,
                names,
                again,
                place >= settled,
                &mut replay,
                registry,
                base,
            )?,
            None => replay.passed = replay.passed.saturating_add(1),
        }
    }
    Ok(replay)
}
