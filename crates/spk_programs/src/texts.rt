//! JSON texts of names and values.

use hex::encode;
use serde_json::Value as Json;
use spk_device::{Owner, Registry};
use spk_files::{double_json, float_json};
use spk_payload::Value;
use std::alloc::{AllocError, Global};

/// A text as a compact JSON string.
pub(crate) fn json_text(alloc: Global, text: &str) -> Result<String, AllocError> {
    Json::String(String::from_str(alloc, text)?).to_string(alloc)
}

/// The name of a metric's device, or null for the node.
pub(crate) fn owner_text(
    alloc: Global,
    names: &Registry,
    owner: Owner,
) -> Result<String, AllocError> {
    let Owner::Device(number) = owner else {
        return String::from_str(alloc, "null");
    };
    match names.device_name(number) {
        Some(name) => json_text(alloc, name),
        None => String::from_str(alloc, "null"),
    }
}

/// A value, as in a world's file.
pub(crate) fn value_text(alloc: Global, value: &Value) -> Result<String, AllocError> {
    match value {
        Value::Signed(number) => format!(in alloc; "{number}"),
        Value::Unsigned(number) => format!(in alloc; "{number}"),
        Value::Flag(flag) => format!(in alloc; "{flag}"),
        Value::Words(text) => json_text(alloc, text.as_str()),
        Value::Octets(bytes) => {
            let digits = encode(alloc, bytes.as_slice())?;
            format!(in alloc; "{{\"hex\":\"{digits}\"}}")
        }
        Value::Float(bits) => float_json(alloc, *bits),
        Value::Double(bits) => double_json(alloc, *bits),
    }
}
