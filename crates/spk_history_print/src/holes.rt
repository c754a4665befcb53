//! The holes, as CSV.

use crate::called::Called;
use crate::fault::ExportFault;
use crate::hole::{Hole, ending};
use crate::listing::{end_line, flush, write_field, write_heading, write_number};
use crate::walk::Takes;
use csv::Writer;
use spk_history_rows::{Row, Rows};
use spk_payload::Payload;
use std::alloc::Global;
use std::io::Write;

/// The line above the holes.
const HEADING: &[&[u8]] = &[
    b"group",
    b"node",
    b"from",
    b"to",
    b"missing",
    b"unused",
    b"ended_by",
];

/// The lines that are printed.
#[derive(Drop)]
pub(crate) struct HoleLines<W: Write + Drop> {
    alloc: Global,
    lines: Writer<W>,
}

impl<W: Write + Drop> HoleLines<W> {
    /// Begins with the line above the holes.
    pub(crate) fn new(alloc: Global, mut lines: Writer<W>) -> Result<HoleLines<W>, ExportFault> {
        write_heading(&mut lines, HEADING)?;
        Ok(HoleLines { alloc, lines })
    }

    /// Writes what is held back.
    pub(crate) fn end(&mut self) -> Result<(), ExportFault> {
        flush(&mut self.lines)
    }
}

impl<W: Write + Drop> Takes for HoleLines<W> {
    fn row(&mut self, _rows: &Rows, _row: &Row, _inside: bool) -> Result<(), ExportFault> {
        Ok(())
    }

    fn message(
        &mut self,
        _rows: &Rows,
        _row: &Row,
        _node: usize,
        _payload: Option<&Payload>,
        _called: &Called,
        _inside: bool,
    ) -> Result<(), ExportFault> {
        Ok(())
    }

    fn hole(&mut self, rows: &Rows, hole: &Hole) -> Result<(), ExportFault> {
        let Some(node) = rows.node(hole.node) else {
            return Ok(());
        };
        let ended_by = match hole.ended_by {
            Some(ended_by) => ending(ended_by),
            None => "",
        };
        write_field(&mut self.lines, node.group.as_str())?;
        write_field(&mut self.lines, node.name.as_str())?;
        write_number(self.alloc, &mut self.lines, Some(hole.from))?;
        write_number(self.alloc, &mut self.lines, hole.to)?;
        write_number(self.alloc, &mut self.lines, Some(hole.missing))?;
        write_number(self.alloc, &mut self.lines, hole.unused)?;
        write_field(&mut self.lines, ended_by)?;
        end_line(&mut self.lines)
    }
}
