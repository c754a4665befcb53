//! The command `show`: a payload, line by line.

use crate::fault::{Fault, Stop};
use crate::places::place_of_fault;
use crate::texts::{OrDash, json_text, value_text};
use hex::FromHexError;
use spk_payload::{Metric, Payload, PayloadFault, Values, decode_as};
use spk_view::{NodeView, Ready, Watch};
use std::alloc::Global;
use std::io::Write;

/// The bytes of a hexadecimal text.
pub(crate) fn bytes_of(alloc: Global, digits: &str) -> Result<Vec<u8>, Stop> {
    match hex::decode(alloc, digits) {
        Ok(bytes) => Ok(bytes),
        Err(FromHexError::OutOfMemory) => Err(Stop::no_memory()),
        Err(_) => Err(Stop::Fault(Fault::BadHex)),
    }
}

/// The datatype by which a metric's value is read: that of the birth's metric that it means, or else its own.
fn datatype_at(birth: Option<&NodeView>, metric: &Metric) -> Option<u32> {
    let Some(node) = birth else {
        return metric.datatype;
    };
    match node.meant_by(metric) {
        Some(row) => row.datatype(),
        None => metric.datatype,
    }
}

fn metric_line<W: Write>(
    alloc: Global,
    out: &mut W,
    birth: Option<&NodeView>,
    index: usize,
    metric: Metric,
) -> Result<(), Stop> {
    let value_type = datatype_at(birth, &metric);
    let Metric {
        name,
        alias,
        timestamp,
        datatype,
        historical,
        transient,
        null,
        value,
    } = metric;
    let name = match name {
        Some(text) => Some(json_text(alloc, text)?),
        None => None,
    };
    let value = value_text(alloc, value_type, value)?;
    let name = OrDash(name);
    let alias = OrDash(alias);
    let time = OrDash(timestamp);
    let datatype = OrDash(datatype);
    let historical = OrDash(historical);
    let transient = OrDash(transient);
    let null = OrDash(null);
    write!(out, "metric {index} name {name} alias {alias} time {time} ")?;
    write!(out, "type {datatype} historical {historical} ")?;
    writeln!(out, "transient {transient} null {null} value {value}")?;
    Ok(())
}

/// Decodes a payload; of a fault the notes tell the place. A note that can't be written is left out.
fn decode_noting<N: Write>(
    alloc: Global,
    notes: &mut N,
    whose: &str,
    values: Values,
    bytes: &[u8],
) -> Result<Payload, Stop> {
    match decode_as(alloc, values, bytes) {
        Ok(payload) => Ok(payload),
        Err(PayloadFault::NoMemory) => Err(Stop::no_memory()),
        Err(fault) => {
            let at = place_of_fault(alloc, bytes)?;
            let count = bytes.len();
            let _ = writeln!(
                notes,
                "sparkplug: {fault} in the field at byte {at} of {count}{whose}"
            );
            Err(Stop::from(fault))
        }
    }
}

/// What a host keeps of a birth that the hexadecimal digits spell.
fn watch_of<N: Write>(
    alloc: Global,
    notes: &mut N,
    values: Values,
    digits: &str,
) -> Result<Watch, Stop> {
    let bytes = bytes_of(alloc, digits)?;
    let payload = decode_noting(alloc, notes, " of the birth", values, &bytes)?;
    let ready = Ready::node_birth(alloc, &payload.metrics)?;
    let mut watch = Watch::new(alloc);
    let _ = watch.consume(0, ready, 0);
    Ok(watch)
}

fn print<W: Write>(
    alloc: Global,
    out: &mut W,
    birth: Option<&NodeView>,
    payload: Payload,
) -> Result<(), Stop> {
    let Payload {
        timestamp,
        metrics,
        seq,
    } = payload;
    let time = OrDash(timestamp);
    let seq = OrDash(seq);
    let count = metrics.len();
    writeln!(out, "timestamp {time} seq {seq} metrics {count}")?;
    for (index, metric) in metrics.into_iter().enumerate() {
        metric_line(alloc, out, birth, index, metric)?;
    }
    Ok(())
}

/// Prints the payload that the hexadecimal digits spell, with these values. Where a birth is given, the datatypes of its metrics count, as
/// they do at a host application.
pub(crate) fn show<W: Write, N: Write>(
    alloc: Global,
    out: &mut W,
    notes: &mut N,
    digits: &str,
    birth: Option<&str>,
    values: Values,
) -> Result<(), Stop> {
    let bytes = bytes_of(alloc, digits)?;
    let payload = decode_noting(alloc, notes, "", values, &bytes)?;
    match birth {
        Some(digits) => {
            let watch = watch_of(alloc, notes, values, digits)?;
            print(alloc, out, watch.view(), payload)
        }
        None => print(alloc, out, None, payload),
    }
}
