//! What is shown of a value.

use hex::encode;
use spk_floats::{double_text, float_text};
use spk_payload::{Metric, Value, typed};
use std::alloc::{AllocError, Global};

/// The value of a metric, as its datatype reads it; none where it is null or isn't read.
pub fn value_of(
    alloc: Global,
    metric: &Metric,
    datatype: Option<u32>,
) -> Result<Option<Value>, AllocError> {
    if metric.null == Some(true) {
        return Ok(None);
    }
    let (Some(value), Some(datatype)) = (&metric.value, datatype) else {
        return Ok(None);
    };
    Ok(typed(datatype, value.copy(alloc)?).ok())
}

/// A value in a line of CSV: numbers in their shortest decimals, a Boolean as a word, bytes as their hexadecimal digits.
fn value_text(alloc: Global, value: Value) -> Result<String, AllocError> {
    match value {
        Value::Signed(number) => format!(in alloc; "{number}"),
        Value::Unsigned(number) => format!(in alloc; "{number}"),
        Value::Flag(flag) => format!(in alloc; "{flag}"),
        Value::Words(text) => Ok(text),
        Value::Octets(bytes) => encode(alloc, bytes.as_slice()),
        Value::Float(bits) => float_text(alloc, bits),
        Value::Double(bits) => double_text(alloc, bits),
    }
}

/// The value of a metric in a line of CSV: empty where it is null or isn't read.
pub(crate) fn shown_text(
    alloc: Global,
    metric: &Metric,
    datatype: Option<u32>,
) -> Result<String, AllocError> {
    match value_of(alloc, metric, datatype)? {
        Some(value) => value_text(alloc, value),
        None => Ok(String::new(alloc)),
    }
}

/// A number in a line of CSV: empty where there is none.
pub(crate) fn number_text(alloc: Global, number: Option<u64>) -> Result<String, AllocError> {
    match number {
        Some(number) => format!(in alloc; "{number}"),
        None => Ok(String::new(alloc)),
    }
}
