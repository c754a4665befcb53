//! Tries the cases of the file `cases` on the histories beside it, and prints what each gives. With the word `export`, the name of a new database and
//! those of histories it makes that database; with `print` and the words of a case it tries that case alone.
#![tactic(auto)]

mod cases;
mod cuts;
mod failing;
mod files;
mod tables;

use cases::try_case;
use spk_history_export::{PartsOnDisk, Plan, Window, export_to};
use std::io::{self, Write};
use std::process::ExitCode;
use std::{env, fs};

/// Makes a database of histories.
fn export(rt: &HostRuntime, out: &str, parts: &[String]) -> io::Result<ExitCode> {
    let plan = Plan {
        parts,
        window: Window::all(),
    };
    let mut files = PartsOnDisk::new(rt);
    let mut notes = io::writer(rt);
    match export_to(rt, rt.alloc(), &plan, out, &mut files, &mut notes) {
        Ok(counts) => {
            println!(rt; "{} values", counts.values)?;
            Ok(ExitCode::from(0))
        }
        Err(fault) => {
            println!(rt; "{fault} {}", fault.number())?;
            Ok(ExitCode::from(1))
        }
    }
}

/// Tries each case of the file.
fn try_all(rt: &HostRuntime) -> io::Result<ExitCode> {
    let cases = fs::read_to_string(rt, "cases")?;
    for line in cases.as_str().lines() {
        println!(rt; "== {line}")?;
        let _good = try_case(rt, line)?;
    }
    Ok(ExitCode::from(0))
}

fn main(rt: HostRuntime) -> io::Result<ExitCode> {
    let words: Vec<String> = env::args(&rt)?.collect(rt.alloc())?;
    let word = words.get(1).map_or("", |word| word.as_str());
    match (word, words.get(2)) {
        ("export", Some(out)) => export(&rt, out.as_str(), words.get(3..).unwrap_or(&[])),
        ("print", Some(line)) => {
            let good = try_case(&rt, line.as_str())?;
            Ok(ExitCode::from(if good { 0 } else { 1 }))
        }
        _ => try_all(&rt),
    }
}
