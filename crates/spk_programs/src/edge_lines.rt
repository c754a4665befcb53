//! What an edge node's core is told by lines of standard input, and what it prints.

use crate::disk::Disk;
use crate::journal::{Journal, kept_in, tell};
use crate::texts::{json_text, owner_text, value_text};
use spk_device::Registry;
use spk_edge::Write as Asked;
use spk_edge_app::{ChangesRefused, EdgeApp, EdgeAppFault};
use spk_files::{Misfit, Said, line_of};
use std::alloc::Global;
use std::io::{self, Write};

/// A fault, and its number: of what the node or a packet is refused for, that.
pub(crate) fn write_fault<N: Write>(notes: &mut N, fault: EdgeAppFault) {
    let _ = match fault {
        EdgeAppFault::Edge(inner) => {
            let number = inner.number();
            writeln!(notes, "{inner} ({number})")
        }
        EdgeAppFault::Packet(inner) => {
            let number = inner.number();
            writeln!(notes, "{inner} ({number})")
        }
        EdgeAppFault::Login(inner) => {
            let number = inner.number();
            writeln!(notes, "{inner} ({number})")
        }
        other => {
            let number = other.number();
            writeln!(notes, "{other} ({number})")
        }
    };
}

/// How many items of a line it is.
fn size_of(said: &Said) -> usize {
    match said {
        Said::Values(values) => values.len(),
        Said::Device { .. } => 1,
    }
}

/// A line was refused, or the item at a place of it, behind so many others.
fn write_refused<N: Write>(notes: &mut N, number: u64, before: usize, refused: ChangesRefused) {
    let _ = match refused.place {
        Some(place) => {
            let place = before.saturating_add(place);
            write!(notes, "sparkplug: line {number}: [{place}] ")
        }
        None => write!(notes, "sparkplug: line {number}: "),
    };
    write_fault(notes, refused.fault);
}

/// What is wrong with a line.
fn write_misfit<N: Write>(notes: &mut N, number: u64, misfit: &Misfit) {
    let _ = match misfit {
        Misfit::NoMemory => writeln!(notes, "sparkplug: line {number}: NoMemory (1)"),
        Misfit::Wrong(place, cause) => {
            writeln!(notes, "sparkplug: line {number}: {place} {cause}")
        }
    };
}

/// Does what stands in a line, one after the other, and tells what is refused: how many.
fn say_all<N: Write>(app: &mut EdgeApp, notes: &mut N, number: u64, all: &[Said], now: u64) -> u64 {
    let mut items = 0usize;
    let mut count = 0u64;
    for said in all {
        if let Err(refused) = tell(app, said, now) {
            count = count.saturating_add(1);
            write_refused(notes, number, items, refused);
        }
        items = items.saturating_add(size_of(said));
    }
    count
}

/// A line was done: it is noted where values survive.
fn note_line<D: Disk, N: Write>(
    journal: &mut Option<Journal<D>>,
    notes: &mut N,
    number: u64,
    text: &str,
    all: Vec<Said>,
    kept: u64,
    now: u64,
) {
    let Some(journal) = journal else {
        return;
    };
    if !journal.note(now, text, all, kept) {
        let _ = writeln!(notes, "sparkplug: line {number} isn't kept: NoMemory (1)");
    }
}

/// Does what a line says, and tells what is refused of it: how many items.
pub(crate) fn tell_line<D: Disk, N: Write>(
    alloc: Global,
    app: &mut EdgeApp,
    names: &Registry,
    journal: &mut Option<Journal<D>>,
    notes: &mut N,
    number: u64,
    text: &str,
    now: u64,
) -> u64 {
    match line_of(alloc, names, text) {
        Ok(all) => {
            let before = kept_in(app);
            let refused = say_all(app, notes, number, &all, now);
            let kept = kept_in(app).saturating_sub(before);
            note_line(journal, notes, number, text, all, kept, now);
            refused
        }
        Err(misfit) => {
            write_misfit(notes, number, &misfit);
            1
        }
    }
}

/// Prints a write that a command asked for.
fn print_write<O: Write, N: Write>(
    alloc: Global,
    names: &Registry,
    write: &Asked,
    out: &mut O,
    notes: &mut N,
) -> io::Result<()> {
    let Some(gauge) = names.metric(write.alias) else {
        return Ok(());
    };
    let owner = owner_text(alloc, names, gauge.owner);
    let value = value_text(alloc, &write.value);
    let name = json_text(alloc, gauge.name.as_str());
    let (Ok(owner), Ok(value), Ok(name)) = (owner, value, name) else {
        let _ = writeln!(notes, "sparkplug: a write isn't told: NoMemory (1)");
        return Ok(());
    };
    writeln!(
        out,
        "{{\"write\":{{\"device\":{owner},\"metric\":{name},\"value\":{value}}}}}"
    )
}

/// Prints the writes that commands asked for, and hands them on. A failure is answered; the other writes are printed all the same.
pub(crate) fn print_writes<O: Write, N: Write>(
    alloc: Global,
    app: &mut EdgeApp,
    names: &Registry,
    out: &mut O,
    notes: &mut N,
) -> io::Result<()> {
    let mut printed: io::Result<()> = Ok(());
    let mut count = 0u64;
    for _ in 0..u64::MAX {
        let Some(write) = app.next_write() else {
            break;
        };
        let line = print_write(alloc, names, &write, out, notes);
        if line.is_err() {
            printed = line;
        }
        count = count.saturating_add(1);
    }
    if count > 0 {
        let flushed = out.flush();
        if flushed.is_err() {
            printed = flushed;
        }
    }
    printed
}
