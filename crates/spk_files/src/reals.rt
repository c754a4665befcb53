//! Floats and doubles in a file, and in lines.

use serde_json::Value as Json;
use spk_floats::{double_in, double_text, float_in, float_text};
use spk_payload::{Value, Values};
use std::alloc::{AllocError, Global};
use std::num::f64_to_bits_with_nan;

/// The datatypes Float and Double (Sparkplug 3.0.0, 6.4.16).
pub(crate) const FLOAT: u32 = 9;

pub(crate) const DOUBLE: u32 = 10;

/// The words for what is no finite number (own rule).
const WORDS: [&str; 3] = ["NaN", "Infinity", "-Infinity"];

/// The datatype as which a value is read where these values are: by whole values alone a float is read as any other.
pub(crate) fn read_as(values: Values, datatype: u32) -> u32 {
    match (values, datatype) {
        (Values::Whole, FLOAT | DOUBLE) => 0,
        _ => datatype,
    }
}

/// The nearest Double of a number.
pub(crate) fn double_of(json: &Json) -> Option<Value> {
    match json.as_f64() {
        Some(number) => Some(Value::Double(f64_to_bits_with_nan(number))),
        None => None,
    }
}

/// The nearest Float of a number, where there is a finite one. A number that isn't whole is read as the nearest Double first, and
/// then as the shortest decimal that says this one: so a decimal of up to 15 digits is rounded once.
fn float_of(alloc: Global, json: &Json) -> Result<Option<Value>, AllocError> {
    let text = json.to_string(alloc)?;
    Ok(float_in(text.as_str()).map(Value::Float))
}

/// The value of the datatype Float or Double that a number says, where there is a finite one.
pub(crate) fn real_of(
    alloc: Global,
    json: &Json,
    datatype: u32,
) -> Result<Option<Value>, AllocError> {
    if datatype == FLOAT {
        float_of(alloc, json)
    } else {
        Ok(double_of(json))
    }
}

/// The value of the datatype Float or Double that a word says: `NaN`, `Infinity` or `-Infinity`.
pub(crate) fn word_of(text: &str, datatype: u32) -> Option<Value> {
    if !WORDS.iter().any(|word| *word == text) {
        return None;
    }
    match datatype {
        FLOAT => float_in(text).map(Value::Float),
        DOUBLE => double_in(text).map(Value::Double),
        _ => None,
    }
}

/// A number as it is, and a word in quotes.
fn quoted(alloc: Global, text: String) -> Result<String, AllocError> {
    if WORDS.iter().any(|word| *word == text.as_str()) {
        format!(in alloc; "\"{text}\"")
    } else {
        Ok(text)
    }
}

/// A Float, by its bits, as JSON: the shortest decimal that is read as the same bits, or `"NaN"`, `"Infinity"` or `"-Infinity"`.
pub fn float_json(alloc: Global, bits: u32) -> Result<String, AllocError> {
    quoted(alloc, float_text(alloc, bits)?)
}

/// A Double, by its bits, likewise.
pub fn double_json(alloc: Global, bits: u64) -> Result<String, AllocError> {
    quoted(alloc, double_text(alloc, bits)?)
}
