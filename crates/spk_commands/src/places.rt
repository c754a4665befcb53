//! Where in its bytes a payload's fault stands.

use crate::fault::Stop;
use spk_payload::{PayloadFault, decode};
use spk_protobuf::{Field, Fields, Wire};
use std::alloc::Global;

/// How many bytes the varint at the front takes.
fn varint_len(bytes: &[u8]) -> usize {
    match bytes.iter().position(|byte| *byte < 128) {
        Some(last) => last.saturating_add(1),
        None => bytes.len(),
    }
}

/// How many bytes stand before the text of a field that stands at the front: its tag and its length.
fn front_len(bytes: &[u8]) -> usize {
    let tag = varint_len(bytes);
    let rest = bytes.get(tag..).unwrap_or(&[]);
    tag.saturating_add(varint_len(rest))
}

/// How many bytes a field takes that stands at the front.
fn field_len(bytes: &[u8], field: &Field<'_>) -> usize {
    match &field.wire {
        Wire::Varint(_) => front_len(bytes),
        Wire::Bytes(text) => front_len(bytes).saturating_add(text.len()),
        Wire::Eight(_) => varint_len(bytes).saturating_add(8),
        Wire::Four(_) => varint_len(bytes).saturating_add(4),
    }
}

/// Whether a field of a metric is a name or a string that isn't UTF-8.
fn is_no_text(field: &Field<'_>) -> bool {
    match &field.wire {
        Wire::Bytes(text) => matches!(field.number, 1 | 15) && str::from_utf8(text).is_err(),
        _ => false,
    }
}

/// The place of the first field of a metric that is a fault, counted from the metric's first byte.
fn place_in_metric(bytes: &[u8]) -> usize {
    let mut at = 0usize;
    for item in Fields::new(bytes) {
        let Ok(field) = item else {
            return at;
        };
        if is_no_text(&field) {
            return at;
        }
        let rest = bytes.get(at..).unwrap_or(&[]);
        at = at.saturating_add(field_len(rest, &field));
    }
    at
}

/// Whether the bytes of one field are a payload's fault. Want of memory is none.
fn is_fault(alloc: Global, bytes: &[u8]) -> Result<bool, Stop> {
    match decode(alloc, bytes) {
        Ok(_) => Ok(false),
        Err(PayloadFault::NoMemory) => Err(Stop::no_memory()),
        Err(_) => Ok(true),
    }
}

/// The place of the field with which decoding a payload ends: its first byte, counted from 0. Where no field is a
/// fault it is the end.
pub(crate) fn place_of_fault(alloc: Global, bytes: &[u8]) -> Result<usize, Stop> {
    let mut at = 0usize;
    for item in Fields::new(bytes) {
        let Ok(field) = item else {
            return Ok(at);
        };
        let rest = bytes.get(at..).unwrap_or(&[]);
        let len = field_len(rest, &field);
        let whole = rest.get(..len).unwrap_or(rest);
        if is_fault(alloc, whole)? {
            let inside = rest.get(front_len(rest)..len).unwrap_or(&[]);
            return Ok(
                at.saturating_add(front_len(rest))
                    .saturating_add(place_in_metric(inside)),
            );
        }
        at = at.saturating_add(len);
    }
    Ok(at)
}
