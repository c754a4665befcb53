//! The values of metrics of one name, as CSV.

use crate::called::Called;
use crate::fault::ExportFault;
use crate::hole::{Hole, hole_of};
use crate::metrics::{MetricKey, Metrics};
use crate::plan::moment;
use crate::shown::{number_text, shown_text};
use crate::walk::Takes;
use csv::Writer;
use spk_history::{Entry, Kind};
use spk_history_rows::{NodeName, Row, Rows};
use spk_payload::{Metric, Payload};
use std::alloc::{AllocError, Global};
use std::io::Write;

/// The line above the values.
const HEADING: &[&[u8]] = &[
    b"at", b"time", b"group", b"node", b"device", b"metric", b"type", b"value", b"hole",
];

/// Writes a heading.
pub(crate) fn write_heading<W: Write + Drop>(
    lines: &mut Writer<W>,
    names: &[&[u8]],
) -> Result<(), ExportFault> {
    match lines.write_fields(names) {
        Ok(()) => Ok(()),
        Err(_) => Err(ExportFault::NoOutput),
    }
}

/// Writes the next field of a line.
pub(crate) fn write_field<W: Write + Drop>(
    lines: &mut Writer<W>,
    field: &str,
) -> Result<(), ExportFault> {
    match lines.write_field(field.as_bytes()) {
        Ok(()) => Ok(()),
        Err(_) => Err(ExportFault::NoOutput),
    }
}

/// Writes the next field, a number: empty where there is none.
pub(crate) fn write_number<W: Write + Drop>(
    alloc: Global,
    lines: &mut Writer<W>,
    number: Option<u64>,
) -> Result<(), ExportFault> {
    let number = number_text(alloc, number)?;
    write_field(lines, number.as_str())
}

/// Ends a line.
pub(crate) fn end_line<W: Write + Drop>(lines: &mut Writer<W>) -> Result<(), ExportFault> {
    match lines.end_record() {
        Ok(()) => Ok(()),
        Err(_) => Err(ExportFault::NoOutput),
    }
}

/// Writes what is held back.
pub(crate) fn flush<W: Write + Drop>(lines: &mut Writer<W>) -> Result<(), ExportFault> {
    match lines.flush() {
        Ok(()) => Ok(()),
        Err(_) => Err(ExportFault::NoOutput),
    }
}

/// The places of records, by the places or numbers of what they are of.
#[derive(Drop)]
struct Latest {
    places: Vec<Option<u64>>,
}

impl Latest {
    fn at(&self, of: usize) -> Option<u64> {
        match self.places.get(of) {
            Some(place) => *place,
            None => None,
        }
    }

    fn set(&mut self, of: usize, place: u64) -> Result<(), AllocError> {
        for _ in self.places.len()..=of {
            self.places.push(None)?;
        }
        if let Some(latest) = self.places.get_mut(of) {
            *latest = Some(place);
        }
        Ok(())
    }
}

/// The lines that are printed.
#[derive(Drop)]
pub(crate) struct Listing<'n, W: Write + Drop> {
    alloc: Global,
    name: &'n str,
    lines: Writer<W>,
    metrics: Metrics,
    /// The last record of a hole of each node, and the last value of each metric.
    holed: Latest,
    valued: Latest,
}

/// The device that a message is of.
fn device_of<'a>(entry: &Entry<'a>) -> Option<&'a str> {
    match entry {
        Entry::Message { kind, .. } => match kind {
            Kind::NodeData => None,
            Kind::DeviceBirth(device) => Some(*device),
            Kind::DeviceData(device) => Some(*device),
            Kind::DeviceDeath(device) => Some(*device),
        },
        _ => None,
    }
}

impl<'n, W: Write + Drop> Listing<'n, W> {
    /// Begins with the line above the values.
    pub(crate) fn new(
        alloc: Global,
        name: &'n str,
        mut lines: Writer<W>,
    ) -> Result<Listing<'n, W>, ExportFault> {
        write_heading(&mut lines, HEADING)?;
        Ok(Listing {
            alloc,
            name,
            lines,
            metrics: Metrics::new(alloc),
            holed: Latest {
                places: Vec::new(alloc),
            },
            valued: Latest {
                places: Vec::new(alloc),
            },
        })
    }

    /// Writes what is held back.
    pub(crate) fn end(&mut self) -> Result<(), ExportFault> {
        flush(&mut self.lines)
    }

    /// Whether a hole of the node began or ended between the value before of a metric and this one, which is kept.
    fn follows_hole(
        &mut self,
        place: u64,
        node: usize,
        device: Option<&str>,
    ) -> Result<bool, ExportFault> {
        let (number, _) = self.metrics.number(&MetricKey {
            node,
            device,
            name: None,
            datatype: None,
        })?;
        let before = self.valued.at(number as usize);
        self.valued.set(number as usize, place)?;
        Ok(match (before, self.holed.at(node)) {
            (Some(before), Some(hole)) => before < hole,
            _ => false,
        })
    }

    /// A value.
    fn write(
        &mut self,
        at: u64,
        time: Option<u64>,
        names: (&NodeName, Option<&str>),
        metric: &Metric,
        datatype: Option<u32>,
        hole: bool,
    ) -> Result<(), ExportFault> {
        let (node, device) = names;
        let value = shown_text(self.alloc, metric, datatype)?;
        write_number(self.alloc, &mut self.lines, Some(at))?;
        write_number(self.alloc, &mut self.lines, time)?;
        write_field(&mut self.lines, node.group.as_str())?;
        write_field(&mut self.lines, node.name.as_str())?;
        write_field(&mut self.lines, device.unwrap_or(""))?;
        write_field(&mut self.lines, self.name)?;
        write_number(self.alloc, &mut self.lines, datatype.map(u64::from))?;
        write_field(&mut self.lines, value.as_str())?;
        write_field(&mut self.lines, if hole { "1" } else { "0" })?;
        end_line(&mut self.lines)
    }

    /// A metric of a message, if it has the name.
    fn take(
        &mut self,
        rows: &Rows,
        row: &Row,
        node: usize,
        payload: &Payload,
        metric: &Metric,
        called: &Called,
        inside: bool,
    ) -> Result<(), ExportFault> {
        let (name, datatype) = called.name(metric);
        if name != Some(self.name) {
            return Ok(());
        }
        let device = device_of(&row.entry);
        let hole = self.follows_hole(row.place, node, device)?;
        if !inside {
            return Ok(());
        }
        let (Some(names), Some(at)) = (rows.node(node), moment(&row.entry)) else {
            return Ok(());
        };
        let time = match metric.timestamp {
            Some(time) => Some(time),
            None => payload.timestamp,
        };
        self.write(at, time, (names, device), metric, datatype, hole)
    }
}

impl<W: Write + Drop> Takes for Listing<'_, W> {
    fn row(&mut self, _rows: &Rows, row: &Row, _inside: bool) -> Result<(), ExportFault> {
        match hole_of(row) {
            Some(hole) => Ok(self.holed.set(hole.node, row.place)?),
            None => Ok(()),
        }
    }

    fn message(
        &mut self,
        rows: &Rows,
        row: &Row,
        node: usize,
        payload: Option<&Payload>,
        called: &Called,
        inside: bool,
    ) -> Result<(), ExportFault> {
        let Some(payload) = payload else {
            return Ok(());
        };
        for metric in &payload.metrics {
            self.take(rows, row, node, payload, metric, called, inside)?;
        }
        Ok(())
    }

    fn hole(&mut self, _rows: &Rows, _hole: &Hole) -> Result<(), ExportFault> {
        Ok(())
    }
}
