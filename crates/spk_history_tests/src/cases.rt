//! A case: what is asked of which histories.

use crate::cuts::try_cuts;
use crate::failing::{try_broken, try_stuck};
use crate::tables::print_tables;
use spk_history_export::{ExportFault, PartsOnDisk, Plan, Print, Window, print};
use std::io;

/// A moment; none of a dash.
fn moment(word: Option<&String>) -> Option<u64> {
    match word {
        Some(word) => word.as_str().parse::<u64>().ok(),
        None => None,
    }
}

/// Prints what a refusal is called, and its number. Not all is as it should be then.
pub(crate) fn print_fault(rt: &HostRuntime, fault: ExportFault) -> io::Result<bool> {
    println!(rt; "{fault} {}", fault.number())?;
    Ok(false)
}

fn printed(rt: &HostRuntime, plan: &Plan, what: Print) -> io::Result<bool> {
    let mut files = PartsOnDisk::new(rt);
    let mut out = io::writer(rt);
    let mut notes = io::writer(rt);
    match print(rt.alloc(), plan, what, &mut files, &mut out, &mut notes) {
        Ok(_) => Ok(true),
        Err(fault) => print_fault(rt, fault),
    }
}

/// The words of a case.
fn words_of(rt: &HostRuntime, line: &str) -> io::Result<Vec<String>> {
    let mut words = Vec::new(rt.alloc());
    for word in line.split(' ') {
        words.push(String::from_str(rt.alloc(), word)?)?;
    }
    Ok(words)
}

fn plan_of<'a>(words: &'a [String], first: usize) -> Plan<'a> {
    Plan {
        parts: words.get(first..).unwrap_or(&[]),
        window: Window {
            from: moment(words.get(1)).unwrap_or(0),
            to: moment(words.get(2)),
        },
    }
}

/// What is printed, by its name; else the values of metrics of that name.
fn print_of(name: &str) -> Print<'_> {
    match name {
        "holes" => Print::Holes,
        "summary" => Print::Summary,
        _ => Print::Csv(name),
    }
}

/// Tries a case. Answers whether nothing was refused.
pub(crate) fn try_case(rt: &HostRuntime, line: &str) -> io::Result<bool> {
    let words = words_of(rt, line)?;
    let what = words.get(0).map_or("", |word| word.as_str());
    let name = words.get(3).map_or("", |word| word.as_str());
    match what {
        "csv" => printed(rt, &plan_of(&words, 4), Print::Csv(name)),
        "holes" => printed(rt, &plan_of(&words, 3), Print::Holes),
        "summary" => printed(rt, &plan_of(&words, 3), Print::Summary),
        "tables" => print_tables(rt, &plan_of(&words, 3)),
        "broken" => try_broken(rt, &plan_of(&words, 3)),
        "stuck" => try_stuck(rt, &plan_of(&words, 4), print_of(name)),
        "cuts" => try_cuts(rt, words.get(1).map_or("", |word| word.as_str())),
        _ => {
            println!(rt; "no such case")?;
            Ok(false)
        }
    }
}
