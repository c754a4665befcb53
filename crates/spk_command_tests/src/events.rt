//! What is read of a world's file: its events, or what is wrong with it.

use crate::case::{Around, text_of};
use crate::flaw::Flaw;
use serde_json::Value as Json;
use spk_files::{FileFault, Misfit, read_world, world_of};
use spk_world::Event;
use std::alloc::{AllocError, Global};

/// The events, one behind the other.
fn listed(alloc: Global, events: &[Event]) -> Result<String, AllocError> {
    let mut text = String::new(alloc);
    for event in events {
        let line = format!(in alloc; "{event:?};")?;
        text.push_str(line.as_str())?;
    }
    Ok(text)
}

/// What is read of a text, and its fault.
fn read(alloc: Global, text: &str) -> Result<(String, Option<FileFault>), AllocError> {
    match world_of(alloc, text) {
        Ok((_world, events)) => Ok((listed(alloc, events.as_slice())?, None)),
        Err(Misfit::NoMemory) => Err(AllocError),
        Err(Misfit::Wrong(place, cause)) => {
            let said = format!(in alloc; "{place} {cause}")?;
            Ok((said, Some(FileFault::BadPlan)))
        }
    }
}

/// The fault of a text, if it has one.
fn fault_of(alloc: Global, text: &str) -> Result<Option<FileFault>, AllocError> {
    match read_world(alloc, text) {
        Ok(_read) => Ok(None),
        Err(FileFault::NoMemory) => Err(AllocError),
        Err(fault) => Ok(Some(fault)),
    }
}

/// What isn't as wanted of what is read of a case's file, if something isn't.
pub(crate) fn judge(
    alloc: Global,
    around: &Around,
    case: &Json,
) -> Result<Option<Flaw>, AllocError> {
    let Some(file) = around.file_of(alloc, case)? else {
        return Ok(Some(Flaw::NoFile));
    };
    let (said, fault) = read(alloc, file.as_str())?;
    if said.as_str() != text_of(case, "reads").unwrap_or("") {
        return Ok(Some(Flaw::Read));
    }
    if fault_of(alloc, file.as_str())? != fault {
        return Ok(Some(Flaw::Fault));
    }
    Ok(None)
}
