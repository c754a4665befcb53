//! Runs the commands of `sparkplug` on the cases of the files in data/, and prints of each file how many of its cases were as wanted, and which
//! weren't. README.md tells what a case says.
//!
//! A word says in which folder the files are, if not here; two more, the name of a file and the number of a line, that it tries that line alone.
#![tactic(auto)]

mod answers;
mod case;
mod events;
mod files;
mod flaw;
mod outcomes;
mod plants;
mod runs;
mod subjects;

use std::alloc::{AllocError, Global};
use std::env;
use std::env::Env;
use std::io::{self, Eprint};
use std::process::ExitCode;
use std::rt::Files;
use std::sync::Wait;
use std::thread::Threads;
use subjects::try_all;

/// The files of cases.
const SUBJECTS: [&str; 8] = [
    "show", "packets", "words", "world", "events", "plant", "edge", "users",
];

/// The path of a file of cases.
fn path_of(alloc: Global, folder: &str, name: &str) -> Result<String, AllocError> {
    match format!(in alloc; "{folder}/{name}.jsonl") {
        Ok(path) => Ok(path),
        Err(_) => format!(in alloc; "{folder}/{name}.jsonl"),
    }
}

/// Tries the cases of a file, or one of them, and says how many were as wanted. Whether all were.
fn told<R>(rt: &R, folder: &str, name: &str, only: Option<u64>) -> io::Result<bool>
where
    R: AllocGlobal + Threads + Wait + Eprint + Print + Files + Sync,
{
    let path = path_of(rt.alloc(), folder, name)?;
    let counts = try_all(rt, name, path.as_str(), only)?;
    println!(rt; "{name}: {} of {} cases as wanted", counts.good, counts.all)?;
    Ok(counts.all > 0 && counts.good == counts.all)
}

/// Tries all cases. Whether all were as wanted.
fn told_all<R>(rt: &R, folder: &str) -> io::Result<bool>
where
    R: AllocGlobal + Threads + Wait + Eprint + Print + Files + Sync,
{
    let mut all = true;
    for name in SUBJECTS {
        all = told(rt, folder, name, None)? && all;
    }
    Ok(all)
}

/// The words that the program was called with.
fn words<R: Env + AllocGlobal>(rt: &R) -> io::Result<Vec<String>> {
    match env::args(rt)?.collect(rt.alloc()) {
        Ok(words) => Ok(words),
        Err(_) => Ok(env::args(rt)?.collect(rt.alloc())?),
    }
}

fn main(rt: HostRuntime) -> io::Result<ExitCode> {
    let words = words(&rt)?;
    let folder = words.get(1).map_or(".", |word| word.as_str());
    let name = words.get(2).map_or("", |word| word.as_str());
    let line = words
        .get(3)
        .and_then(|word| word.as_str().parse::<u64>().ok());
    let good = if line.is_some() {
        told(&rt, folder, name, line)?
    } else {
        answers::print_all(&mut io::writer(&rt))?;
        told_all(&rt, folder)?
    };
    Ok(ExitCode::from(if good { 0 } else { 1 }))
}
