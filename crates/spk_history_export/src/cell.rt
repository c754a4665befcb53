//! What a value is in a table.

use hex::encode;
use spk_floats::{double_text, float_text};
use spk_history_print::value_of;
use spk_payload::{Metric, Value};
use sqlite::types::ValueRef;
use std::alloc::{AllocError, Global};
use std::num::{f32_from_bits_with_nan, f64_from_bits_with_nan};

/// A value of a table.
#[derive(Drop)]
pub(crate) enum Cell {
    Null,
    Whole(i64),
    Real(f64),
    Text(String),
}

impl Cell {
    /// The same as a parameter of a statement.
    pub(crate) fn bound(&self) -> ValueRef<'_> {
        match self {
            Cell::Null => ValueRef::Null,
            Cell::Whole(number) => ValueRef::Int(*number),
            Cell::Real(number) => ValueRef::Real(*number),
            Cell::Text(text) => ValueRef::Text(text.as_bytes()),
        }
    }
}

/// A place of the journal, or the number of a value.
pub(crate) fn id_cell(number: u64) -> Cell {
    match i64::try_from(number) {
        Ok(number) => Cell::Whole(number),
        Err(_) => Cell::Null,
    }
}

/// The number of the node at a place: from 1 on.
pub(crate) fn node_cell(place: usize) -> Cell {
    id_cell((place as u64).saturating_add(1))
}

/// The number of a metric: from 1 on.
pub(crate) fn metric_cell(number: u32) -> Cell {
    Cell::Whole(i64::from(number) + 1)
}

/// A text, if there is one.
pub(crate) fn text_cell(alloc: Global, given: Option<&str>) -> Result<Cell, AllocError> {
    match given {
        Some(given) => Ok(Cell::Text(String::from_str(alloc, given)?)),
        None => Ok(Cell::Null),
    }
}

/// A number: from 2^63 on as text.
pub(crate) fn whole(alloc: Global, number: u64) -> Result<Cell, AllocError> {
    match i64::try_from(number) {
        Ok(number) => Ok(Cell::Whole(number)),
        Err(_) => Ok(Cell::Text(format!(in alloc; "{number}")?)),
    }
}

/// A number, if there is one.
pub(crate) fn whole_or_null(alloc: Global, number: Option<u64>) -> Result<Cell, AllocError> {
    match number {
        Some(number) => whole(alloc, number),
        None => Ok(Cell::Null),
    }
}

/// A Float: what isn't a number, or is infinite, as text.
fn float(alloc: Global, bits: u32) -> Result<Cell, AllocError> {
    let x = f32_from_bits_with_nan(bits);
    if x.is_finite() {
        return Ok(Cell::Real(f64::from(x)));
    }
    Ok(Cell::Text(float_text(alloc, bits)?))
}

/// A Double, likewise.
fn double(alloc: Global, bits: u64) -> Result<Cell, AllocError> {
    let x = f64_from_bits_with_nan(bits);
    if x.is_finite() {
        return Ok(Cell::Real(x));
    }
    Ok(Cell::Text(double_text(alloc, bits)?))
}

/// A value in a table: a Boolean as 0 or 1, bytes as their hexadecimal digits.
fn cell_of(alloc: Global, value: Value) -> Result<Cell, AllocError> {
    match value {
        Value::Signed(number) => Ok(Cell::Whole(number)),
        Value::Unsigned(number) => whole(alloc, number),
        Value::Flag(flag) => Ok(Cell::Whole(i64::from(flag))),
        Value::Words(text) => Ok(Cell::Text(text)),
        Value::Octets(bytes) => Ok(Cell::Text(encode(alloc, bytes.as_slice())?)),
        Value::Float(bits) => float(alloc, bits),
        Value::Double(bits) => double(alloc, bits),
    }
}

/// The value of a metric in a table.
pub(crate) fn shown(
    alloc: Global,
    metric: &Metric,
    datatype: Option<u32>,
) -> Result<Cell, AllocError> {
    match value_of(alloc, metric, datatype)? {
        Some(value) => cell_of(alloc, value),
        None => Ok(Cell::Null),
    }
}
