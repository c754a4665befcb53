//! What is printed of a history.

use crate::called::Called;
use crate::count::Counts;
use crate::fault::ExportFault;
use crate::hole::Hole;
use crate::holes::HoleLines;
use crate::listing::Listing;
use crate::plan::{PartFiles, Plan, Print};
use crate::walk::{Takes, walk_over};
use csv::Writer;
use spk_history_rows::{Row, Rows};
use spk_payload::Payload;
use std::alloc::Global;
use std::io::{self, Write};

/// Nothing is done with the rows but that they are counted.
#[derive(Drop)]
struct Counting;

impl Takes for Counting {
    fn row(&mut self, _rows: &Rows, _row: &Row, _inside: bool) -> Result<(), ExportFault> {
        Ok(())
    }

    fn message(
        &mut self,
        _rows: &Rows,
        _row: &Row,
        _node: usize,
        _payload: Option<&Payload>,
        _called: &Called,
        _inside: bool,
    ) -> Result<(), ExportFault> {
        Ok(())
    }

    fn hole(&mut self, _rows: &Rows, _hole: &Hole) -> Result<(), ExportFault> {
        Ok(())
    }
}

/// A count with its name; nothing where there is none.
fn write_count<W: Write>(out: &mut W, name: &str, count: Option<u64>) -> io::Result<()> {
    match count {
        Some(count) => writeln!(out, "{name} {count}"),
        None => writeln!(out, "{name} -"),
    }
}

fn write_counts<W: Write>(out: &mut W, counts: &Counts) -> io::Result<()> {
    write_count(out, "records", Some(counts.records))?;
    write_count(out, "nodes", Some(counts.nodes))?;
    write_count(out, "messages", Some(counts.messages))?;
    write_count(out, "values", Some(counts.values))?;
    write_count(out, "births", Some(counts.births))?;
    write_count(out, "deaths", Some(counts.deaths))?;
    write_count(out, "holes", Some(counts.holes))?;
    write_count(out, "first", counts.first)?;
    write_count(out, "last", counts.last)
}

fn print_summary<F: PartFiles, W: Write, N: Write>(
    alloc: Global,
    plan: &Plan,
    files: &mut F,
    out: &mut W,
    notes: &mut N,
) -> Result<Counts, ExportFault> {
    let counts = walk_over(alloc, plan, files, &mut Counting, notes)?;
    match write_counts(out, &counts) {
        Ok(()) => Ok(counts),
        Err(_) => Err(ExportFault::NoOutput),
    }
}

fn print_values<F: PartFiles, W: Write, N: Write>(
    alloc: Global,
    plan: &Plan,
    name: &str,
    files: &mut F,
    out: &mut W,
    notes: &mut N,
) -> Result<Counts, ExportFault> {
    let mut listing = Listing::new(alloc, name, Writer::from_writer(out))?;
    let counts = walk_over(alloc, plan, files, &mut listing, notes)?;
    listing.end()?;
    Ok(counts)
}

fn print_holes<F: PartFiles, W: Write, N: Write>(
    alloc: Global,
    plan: &Plan,
    files: &mut F,
    out: &mut W,
    notes: &mut N,
) -> Result<Counts, ExportFault> {
    let mut lines = HoleLines::new(alloc, Writer::from_writer(out))?;
    let counts = walk_over(alloc, plan, files, &mut lines, notes)?;
    lines.end()?;
    Ok(counts)
}

/// Prints of a history what is asked for. What is odd about a part is said on `notes`.
///
/// Refused with NoMemory (1), LongHistory (132), NoPart (134), NotHistory (135) or NoOutput (137).
pub fn print<F: PartFiles, W: Write, N: Write>(
    alloc: Global,
    plan: &Plan,
    what: Print,
    files: &mut F,
    out: &mut W,
    notes: &mut N,
) -> Result<Counts, ExportFault> {
    match what {
        Print::Csv(name) => print_values(alloc, plan, name, files, out, notes),
        Print::Holes => print_holes(alloc, plan, files, out, notes),
        Print::Summary => print_summary(alloc, plan, files, out, notes),
    }
}
