//! How values are printed.

use hex::encode;
use serde_json::Value as Json;
use spk_files::{double_json, float_json};
use spk_payload::{Raw, Value, typed};
use std::alloc::{AllocError, Global};
use std::fmt;

/// What is there, or `-`.
#[derive(Drop)]
pub(crate) struct OrDash<T>(pub(crate) Option<T>);

impl<T: fmt::Display> fmt::Display for OrDash<T> {
    fn fmt<W: fmt::Write>(&self, f: &mut fmt::Formatter<W>) -> fmt::Result {
        match &self.0 {
            Some(value) => write!(f, "{value}"),
            None => write!(f, "-"),
        }
    }
}

/// A text as a compact JSON string.
pub(crate) fn json_text(alloc: Global, text: String) -> Result<String, AllocError> {
    Json::String(text).to_string(alloc)
}

/// Bytes as `hex:` and their digits.
pub(crate) fn hex_text(alloc: Global, bytes: &[u8]) -> Result<String, AllocError> {
    let digits = encode(alloc, bytes)?;
    format!(in alloc; "hex:{digits}")
}

fn typed_text(alloc: Global, value: Value) -> Result<String, AllocError> {
    match value {
        Value::Signed(number) => format!(in alloc; "{number}"),
        Value::Unsigned(number) => format!(in alloc; "{number}"),
        Value::Flag(flag) => format!(in alloc; "{flag}"),
        Value::Words(text) => json_text(alloc, text),
        Value::Octets(bytes) => hex_text(alloc, &bytes),
        Value::Float(bits) => float_json(alloc, bits),
        Value::Double(bits) => double_json(alloc, bits),
    }
}

/// A metric's value: `-` without one, `other` for one that isn't read, and else what the datatype makes of it,
/// or `mistyped`.
pub(crate) fn value_text(
    alloc: Global,
    datatype: Option<u32>,
    value: Option<Raw>,
) -> Result<String, AllocError> {
    match value {
        None => String::from_str(alloc, "-"),
        Some(Raw::Other) => String::from_str(alloc, "other"),
        Some(raw) => match typed(datatype.unwrap_or(0), raw) {
            Ok(value) => typed_text(alloc, value),
            Err(_) => String::from_str(alloc, "mistyped"),
        },
    }
}
