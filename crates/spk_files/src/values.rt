//! Values of metrics in a file.

use crate::misfit::{Cause, Misfit};
use crate::part::Part;
use crate::reals::{DOUBLE, FLOAT, double_of, real_of, word_of};
use hex::FromHexError;
use serde_json::Value as Json;
use spk_payload::Value;
use std::alloc::Global;

/// What a value may be.
const VALUE: &str =
    "null, a whole number of 64 bits, true, false, a text, or bytes as {\"hex\":\"0a\"}";

/// Whether the datatype of this number has signed values: Int8, Int16, Int32, Int64.
pub(crate) fn is_signed(datatype: u32) -> bool {
    matches!(datatype, 1..=4)
}

/// A whole number: Signed where the datatype is a signed one, else Unsigned, as far as it fits there.
fn whole_number(json: &Json, datatype: u32) -> Option<Value> {
    let signed = json.as_i64().map(Value::Signed);
    let unsigned = json.as_u64().map(Value::Unsigned);
    if is_signed(datatype) {
        signed.or(unsigned)
    } else {
        unsigned.or(signed)
    }
}

/// A number: Signed where the datatype is a signed one, else Unsigned, as far as it fits there.
fn number_of(part: Part<'_>, datatype: u32) -> Result<Value, Misfit> {
    match whole_number(part.json, datatype) {
        Some(value) => Ok(value),
        None => Err(part.wrong(Cause::Not(VALUE))),
    }
}

/// Bytes, by their hexadecimal digits.
fn octets_of(alloc: Global, part: Part<'_>) -> Result<Value, Misfit> {
    part.only(alloc, &["hex"])?;
    let digits = part.member("hex")?;
    match hex::decode(alloc, digits.text()?) {
        Ok(bytes) => Ok(Value::Octets(bytes)),
        Err(FromHexError::OutOfMemory) => Err(Misfit::NoMemory),
        Err(_) => Err(digits.wrong(Cause::Not("an even number of hexadecimal digits"))),
    }
}

/// A number of a Float or a Double.
fn real_in(alloc: Global, part: Part<'_>, datatype: u32) -> Result<Value, Misfit> {
    match real_of(alloc, part.json, datatype)? {
        Some(value) => Ok(value),
        None => Err(part.wrong(Cause::Not("a number that a Float has"))),
    }
}

/// A text, or the word for what is no finite number.
fn text_of(alloc: Global, part: Part<'_>, datatype: u32) -> Result<Value, Misfit> {
    match word_of(part.text()?, datatype) {
        Some(value) => Ok(value),
        None => Ok(Value::Words(part.owned_text(alloc)?)),
    }
}

/// The value of a metric of this datatype; null is none.
pub(crate) fn value_of(
    alloc: Global,
    part: Part<'_>,
    datatype: u32,
) -> Result<Option<Value>, Misfit> {
    match part.json {
        Json::Null => Ok(None),
        Json::Bool(flag) => Ok(Some(Value::Flag(*flag))),
        Json::Number(_) if matches!(datatype, FLOAT | DOUBLE) => {
            Ok(Some(real_in(alloc, part, datatype)?))
        }
        Json::Number(_) => Ok(Some(number_of(part, datatype)?)),
        Json::String(_) => Ok(Some(text_of(alloc, part, datatype)?)),
        Json::Object(_) => Ok(Some(octets_of(alloc, part)?)),
        Json::Array(_) => Err(part.wrong(Cause::Not(VALUE))),
    }
}

/// What `value_of` says, where that takes no memory and nothing is wrong.
pub(crate) fn plain_value(json: &Json, datatype: u32) -> Option<Option<Value>> {
    match json {
        Json::Null => Some(None),
        Json::Bool(flag) => Some(Some(Value::Flag(*flag))),
        Json::Number(_) if datatype == FLOAT => None,
        Json::Number(_) if datatype == DOUBLE => Some(Some(double_of(json)?)),
        Json::Number(_) => Some(Some(whole_number(json, datatype)?)),
        Json::String(_) | Json::Object(_) | Json::Array(_) => None,
    }
}
