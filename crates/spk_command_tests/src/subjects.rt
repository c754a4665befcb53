//! The cases of one file, one behind the other.

use crate::case::{Around, has, is_known};
use crate::flaw::Flaw;
use crate::{events, plants, runs};
use serde_json::{Error as JsonError, Value as Json};
use std::alloc::AllocError;
use std::fs;
use std::io::{self, Eprint, ErrorKind};
use std::rt::Files;
use std::sync::Wait;
use std::thread::Threads;

/// What became of a line.
#[derive(Clone, Copy, Debug, PartialEq, Eq)]
enum Verdict {
    /// It isn't a case.
    None,
    Good,
    Bad(Flaw),
}

/// How many cases there were, and how many of them were as wanted.
#[derive(Clone, Copy, Debug, PartialEq, Eq)]
pub(crate) struct Counts {
    pub(crate) all: u64,
    pub(crate) good: u64,
}

/// What isn't as wanted of a case, if something isn't.
fn complaint<R>(rt: &R, around: &Around, case: &Json) -> Result<Option<Flaw>, AllocError>
where
    R: AllocGlobal + Threads + Wait + Eprint + Sync,
{
    if has(case, "run") {
        return runs::judge(rt, around, case);
    }
    if has(case, "reads") {
        return events::judge(rt.alloc(), around, case);
    }
    if has(case, "plant") {
        return plants::judge(rt, around, case);
    }
    Ok(Some(Flaw::NoCase))
}

/// What becomes of a line.
fn tried<R>(rt: &R, around: &mut Around, line: &str) -> Result<Verdict, AllocError>
where
    R: AllocGlobal + Threads + Wait + Eprint + Sync,
{
    let case = match Json::from_str(rt.alloc(), line) {
        Ok(case) => case,
        Err(error) if error.is_memory() => return Err(AllocError),
        Err(_) => return Ok(Verdict::Bad(Flaw::NoJson)),
    };
    if !is_known(&case) {
        return Ok(Verdict::Bad(Flaw::Unknown));
    }
    if has(&case, "front") {
        around.set(rt.alloc(), &case)?;
        return Ok(Verdict::None);
    }
    Ok(match complaint(rt, around, &case)? {
        None => Verdict::Good,
        Some(what) => Verdict::Bad(what),
    })
}

/// What becomes of a line. Where memory was refused it is tried again.
fn tried_again<R>(rt: &R, around: &mut Around, line: &str) -> Result<Verdict, AllocError>
where
    R: AllocGlobal + Threads + Wait + Eprint + Sync,
{
    match tried(rt, around, line) {
        Ok(verdict) => Ok(verdict),
        Err(_) => tried(rt, around, line),
    }
}

/// The text of a file in data/. Where memory was refused it is read again.
fn text_of<R: Files + AllocGlobal>(rt: &R, path: &str) -> io::Result<String> {
    match fs::read_to_string(rt, path) {
        Err(error) if error.kind() == ErrorKind::OutOfMemory => fs::read_to_string(rt, path),
        answer => answer,
    }
}

/// Tries the cases of a file, the one of this line alone if there is a line, and prints those that aren't as wanted.
pub(crate) fn try_all<R>(rt: &R, name: &str, path: &str, only: Option<u64>) -> io::Result<Counts>
where
    R: AllocGlobal + Threads + Wait + Eprint + Print + Files + Sync,
{
    let text = text_of(rt, path)?;
    let mut around = Around::new(rt.alloc());
    let mut counts = Counts { all: 0, good: 0 };
    let mut number = 0u64;
    for line in text.as_str().split('\n') {
        number = number.saturating_add(1);
        let is_asked = only.is_none_or(|wanted| wanted == number) || line.starts_with("{\"front\"");
        if line.is_empty() || !is_asked {
            continue;
        }
        match tried_again(rt, &mut around, line)? {
            Verdict::None => {}
            Verdict::Good => {
                counts.all = counts.all.saturating_add(1);
                counts.good = counts.good.saturating_add(1);
            }
            Verdict::Bad(what) => {
                counts.all = counts.all.saturating_add(1);
                println!(rt; "{name}, line {number}: not as wanted: {}", what.text())?;
            }
        }
    }
    Ok(counts)
}
