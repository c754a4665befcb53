//! The entries of a part of a history, as lines.

use spk_history::{Beginning, Entries, Entry, Front, Kind, head};
use std::alloc::Global;
use std::io::Write;

/// Writes which message it is.
fn write_kind(page: &mut Vec<u8>, kind: &Kind<'_>) -> Option<()> {
    match kind {
        Kind::NodeData => write!(page, "NDATA").ok(),
        Kind::DeviceBirth(device) => write!(page, "DBIRTH {device}").ok(),
        Kind::DeviceData(device) => write!(page, "DDATA {device}").ok(),
        Kind::DeviceDeath(device) => write!(page, "DDEATH {device}").ok(),
    }
}

/// Writes a payload's bytes.
fn write_bytes(alloc: Global, page: &mut Vec<u8>, bytes: &[u8]) -> Option<()> {
    let digits = hex::encode(alloc, bytes).ok()?;
    writeln!(page, " {}", digits.as_str()).ok()
}

/// Writes a message: when, whose, which, its seq and its payload.
fn write_message(
    alloc: Global,
    page: &mut Vec<u8>,
    start: (u64, u32),
    kind: &Kind<'_>,
    seq: u8,
    payload: &[u8],
) -> Option<()> {
    write!(page, "{} node {} ", start.0, start.1).ok()?;
    write_kind(page, kind)?;
    write!(page, " seq {seq}").ok()?;
    write_bytes(alloc, page, payload)
}

/// Writes an entry.
fn write_entry(alloc: Global, page: &mut Vec<u8>, entry: &Entry<'_>) -> Option<()> {
    match entry {
        Entry::Session { at, what } => writeln!(page, "{at} session {what:?}").ok(),
        Entry::Node { node, group, name } => writeln!(page, "node {node} is {group}/{name}").ok(),
        Entry::Birth {
            at,
            node,
            stamp,
            bd,
            payload,
        } => {
            write!(page, "{at} node {node} NBIRTH time {stamp} bdSeq {bd}").ok()?;
            write_bytes(alloc, page, payload)
        }
        Entry::Death { at, node, bd } => writeln!(page, "{at} node {node} NDEATH bdSeq {bd}").ok(),
        Entry::Gap {
            at,
            node,
            awaited,
            missing,
        } => writeln!(
            page,
            "{at} node {node} gap awaited {awaited} missing {missing}"
        )
        .ok(),
        Entry::Hole {
            node,
            from,
            to,
            missing,
            unused,
            ended_by,
        } => writeln!(
            page,
            "node {node} hole {from} to {to} missing {missing} unused {unused} ended by {ended_by:?}"
        )
        .ok(),
        Entry::Message {
            at,
            node,
            kind,
            seq,
            payload,
        } => write_message(alloc, page, (*at, *node), kind, *seq, payload),
    }
}

/// Writes the entries of a part, and whether it ends there.
pub(crate) fn write_history(alloc: Global, page: &mut Vec<u8>, bytes: &[u8]) -> Option<()> {
    let Beginning::Head(behind) = head(bytes) else {
        return writeln!(page, "no history").ok();
    };
    let mut entries = Entries::new(behind);
    for _ in 0..bytes.len() {
        let Some(entry) = entries.next() else {
            break;
        };
        write_entry(alloc, page, &entry)?;
    }
    match entries.front() {
        Front::End => Some(()),
        _ => writeln!(page, "a torn end").ok(),
    }
}
