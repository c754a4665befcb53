//! The walk over the rows of a history.

use crate::called::{Called, Names};
use crate::count::Counts;
use crate::fault::ExportFault;
use crate::hole::{Hole, OpenHoles, begins_session, closed, hole_of};
use crate::plan::{PartFiles, Plan, Window};
use spk_history::{Beginning, Entry, Front, HEAD, Kind, head};
use spk_history_rows::{PartRows, Row, Rows, meaning};
use spk_payload::Payload;
use std::alloc::Global;
use std::io::Write;

/// What is done with the rows of a history. `inside` tells whether a row is in the moments that are asked for.
pub trait Takes {
    /// The next row.
    fn row(&mut self, rows: &Rows, row: &Row, inside: bool) -> Result<(), ExportFault>;

    /// The message of the row: what its payload means, if it means something, and by what its metrics are called.
    fn message(
        &mut self,
        rows: &Rows,
        row: &Row,
        node: usize,
        payload: Option<&Payload>,
        called: &Called,
        inside: bool,
    ) -> Result<(), ExportFault>;

    /// A hole that has a moment among those that are asked for, once it is closed, or won't be.
    fn hole(&mut self, rows: &Rows, hole: &Hole) -> Result<(), ExportFault>;
}

/// What is known on the way.
#[derive(Drop)]
pub(crate) struct Walk {
    alloc: Global,
    window: Window,
    rows: Rows,
    names: Names,
    open: OpenHoles,
    counts: Counts,
}

/// The kind of message that a row is, with its payload; none of another record.
fn payload_of<'a>(entry: &Entry<'a>) -> Option<(Option<Kind<'a>>, &'a [u8])> {
    match entry {
        Entry::Birth { payload, .. } => Some((None, payload)),
        Entry::Message { kind, payload, .. } => Some((Some(*kind), payload)),
        _ => None,
    }
}

impl Walk {
    fn new(alloc: Global, window: Window) -> Walk {
        Walk {
            alloc,
            window,
            rows: Rows::new(alloc),
            names: Names::new(alloc),
            open: OpenHoles::new(alloc),
            counts: Counts::none(),
        }
    }

    /// A hole is told, if it is asked for.
    fn tell<T: Takes>(&mut self, sink: &mut T, hole: &Hole) -> Result<(), ExportFault> {
        if !self.window.meets(hole.from, hole.to) {
            return Ok(());
        }
        self.counts.holes = self.counts.holes.saturating_add(1);
        sink.hole(&self.rows, hole)
    }

    /// The holes that aren't closed are told.
    fn tell_open<T: Takes>(&mut self, sink: &mut T) -> Result<(), ExportFault> {
        for place in 0..self.open.reached() {
            if let Some(hole) = self.open.take(place) {
                self.tell(sink, &hole)?;
            }
        }
        Ok(())
    }

    /// The first row of a part: where a session of the host begins with it, another run of the host does, which tells nothing more of the holes before.
    fn follow_run<T: Takes>(&mut self, sink: &mut T, row: &Row) -> Result<(), ExportFault> {
        if begins_session(&row.entry) {
            self.tell_open(sink)?;
        }
        Ok(())
    }

    /// What a row says of holes.
    fn follow_holes<T: Takes>(&mut self, sink: &mut T, row: &Row) -> Result<(), ExportFault> {
        let Some(hole) = hole_of(row) else {
            return Ok(());
        };
        if hole.to.is_none() {
            return Ok(self.open.begin(hole)?);
        }
        let begun = self.open.take(hole.node);
        self.tell(sink, &closed(hole, begun))
    }

    /// The names that a message gives are learnt.
    fn learn(
        &mut self,
        node: usize,
        kind: Option<Kind>,
        payload: &Payload,
    ) -> Result<(), ExportFault> {
        match kind {
            None => Ok(self.names.birth(node, &payload.metrics)?),
            Some(Kind::DeviceBirth(device)) => {
                Ok(self.names.device_birth(node, device, &payload.metrics)?)
            }
            Some(_) => Ok(()),
        }
    }

    /// The message of a row, whose payload means this.
    fn told<T: Takes>(
        &mut self,
        sink: &mut T,
        row: &Row,
        node: usize,
        kind: Option<Kind>,
        payload: &Payload,
    ) -> Result<(), ExportFault> {
        self.learn(node, kind, payload)?;
        let inside = self.window.has_entry(&row.entry);
        if inside {
            self.counts.add_values(payload.metrics.len());
        }
        let called = self.names.called(node, kind);
        sink.message(&self.rows, row, node, Some(payload), &called, inside)
    }

    /// What a row says of values.
    fn follow_message<T: Takes>(&mut self, sink: &mut T, row: &Row) -> Result<(), ExportFault> {
        let Some((kind, bytes)) = payload_of(&row.entry) else {
            return Ok(());
        };
        let Some(node) = row.node else {
            return Ok(());
        };
        match meaning(self.alloc, bytes)? {
            Some(payload) => self.told(sink, row, node, kind, &payload),
            None => {
                let inside = self.window.has_entry(&row.entry);
                if inside {
                    self.counts.meaningless = self.counts.meaningless.saturating_add(1);
                }
                sink.message(&self.rows, row, node, None, &Called::Own, inside)
            }
        }
    }

    /// What a row says.
    fn take<T: Takes>(&mut self, sink: &mut T, row: &Row) -> Result<(), ExportFault> {
        let inside = self.window.has_entry(&row.entry);
        if inside {
            self.counts.add(row);
        }
        if let Some(place) = row.node {
            self.counts.reach(place);
        }
        sink.row(&self.rows, row, inside)?;
        self.follow_holes(sink, row)?;
        self.follow_message(sink, row)
    }

    /// The rows of a part, whose bytes behind its head these are. Answers how many of them were read, and what stands behind.
    fn rows<'a, T: Takes>(
        &mut self,
        sink: &mut T,
        bytes: &'a [u8],
    ) -> Result<(usize, Front<'a>), ExportFault> {
        self.rows.begin_part();
        let mut part = PartRows::new(bytes);
        let mut is_first = true;
        for _ in 0..u64::MAX {
            let Some(row) = part.next(&mut self.rows)? else {
                break;
            };
            if is_first {
                self.follow_run(sink, &row)?;
                is_first = false;
            }
            self.take(sink, &row)?;
        }
        Ok((part.whole(), part.front()))
    }

    /// A part.
    fn part<T: Takes, N: Write>(
        &mut self,
        sink: &mut T,
        notes: &mut N,
        name: &str,
        bytes: &[u8],
    ) -> Result<(), ExportFault> {
        match head(bytes) {
            Beginning::Head(behind) => {
                let (whole, front) = self.rows(sink, behind)?;
                let read = HEAD.len().saturating_add(whole);
                note_end(notes, name, read, bytes.len(), &front);
                Ok(())
            }
            Beginning::Torn => {
                note_torn(notes, name, 0, bytes.len());
                Ok(())
            }
            Beginning::Other => {
                note(notes, name, "it is no history");
                Err(ExportFault::NotHistory)
            }
        }
    }
}

/// Something about a part is said. Where it can't be written, nothing is.
fn note<N: Write>(notes: &mut N, name: &str, what: &str) {
    let _ = writeln!(notes, "{name}: {what}");
}

fn note_torn<N: Write>(notes: &mut N, name: &str, read: usize, len: usize) {
    let _ = writeln!(
        notes,
        "{name}: its end is cut off: {read} of {len} bytes are read"
    );
}

/// What stands behind the last record of a part is said.
fn note_end<N: Write>(notes: &mut N, name: &str, read: usize, len: usize, front: &Front) {
    match front {
        Front::End => {}
        Front::Torn => note_torn(notes, name, read, len),
        _ => {
            let _ = writeln!(
                notes,
                "{name}: a record is spoiled: {read} of {len} bytes are read"
            );
        }
    }
}

/// What is in no table is said.
fn note_left<N: Write>(notes: &mut N, counts: &Counts) {
    if counts.unnamed > 0 {
        let count = counts.unnamed;
        let _ = writeln!(
            notes,
            "{count} records are of a node that their part doesn't name: they are left out"
        );
    }
    if counts.meaningless > 0 {
        let count = counts.meaningless;
        let _ = writeln!(
            notes,
            "{count} payloads mean nothing: their values are left out"
        );
    }
}

/// Reads a part, and walks over its rows.
fn read_part<F: PartFiles, T: Takes, N: Write>(
    walk: &mut Walk,
    sink: &mut T,
    files: &mut F,
    notes: &mut N,
    name: &str,
) -> Result<(), ExportFault> {
    let mut bytes = Vec::new(walk.alloc);
    if !files.read(name, &mut bytes) {
        note(notes, name, "it can't be read");
        return Err(ExportFault::NoPart);
    }
    walk.part(sink, notes, name, &bytes)
}

/// Walks over the rows of a history, and says on `notes` what is odd about a part. Refused with NoMemory (1), LongHistory (132), NoPart (134) or
/// NotHistory (135), and with what `sink` refuses.
pub fn walk_over<F: PartFiles, T: Takes, N: Write>(
    alloc: Global,
    plan: &Plan,
    files: &mut F,
    sink: &mut T,
    notes: &mut N,
) -> Result<Counts, ExportFault> {
    let mut walk = Walk::new(alloc, plan.window);
    for name in plan.parts {
        read_part(&mut walk, sink, files, notes, name.as_str())?;
    }
    walk.tell_open(sink)?;
    note_left(notes, &walk.counts);
    Ok(walk.counts)
}
