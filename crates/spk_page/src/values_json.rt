//! Values of metrics as JSON.
ghost use Rattle.std.specs.Prelude.{◌≡◌, IfOk, Some, decimal, string_bytes, from_bits};
ghost use Rattle.std.specs.Fmt.{signed_decimal};
ghost use Rattle.std.specs.Float.{binary32, binary64};
ghost use Rattle.serde_json.specs.Data.{number, string, unsigned};
ghost use Rattle.serde_json.specs.Find.{of_integer};
ghost use Rattle.serde_json.specs.View.{view};
ghost use Rattle.spk_page.specs.Values.{float_data, is_wide, shown_data, signed_data, unsigned_data};

use crate::node::Shown;
use serde_json::{Value, json};
use spk_floats::{double_text, float_text};
use std::alloc::{AllocError, Global};
use std::num::{f32_from_bits_with_nan, f64_from_bits_with_nan};

/// Whether a datatype has 64 bits: Int64, UInt64 and DateTime (Sparkplug 3.0.0, 6.4.16).
fn is_wide(datatype: Option<u32>) -> bool
    ensures { result ≡ is_wide datatype }
{
    matches!(datatype, Some(4 | 8 | 13))
}

/// A whole number with a sign: of 64 bits as a text.
fn signed_value(alloc: Global, datatype: Option<u32>, number: i64) -> Result<Value, AllocError>
    ensures { IfOk result (λ v. view v ≡ signed_data datatype number) }
{
    if is_wide(datatype) {
        let text = format!(in alloc; "{number}")?;
        return Ok(Value::String(text));
    }
    Ok(Value::from(number))
}

/// A whole number without a sign: of 64 bits as a text.
fn unsigned_value(alloc: Global, datatype: Option<u32>, number: u64) -> Result<Value, AllocError>
    ensures { IfOk result (λ v. view v ≡ unsigned_data datatype number) }
{
    if is_wide(datatype) {
        let text = format!(in alloc; "{number}")?;
        return Ok(Value::String(text));
    }
    Ok(Value::from(number))
}

/// A Float: a number, or the word for what is no finite one.
fn float_value(alloc: Global, bits: u32) -> Result<Value, AllocError>
    ensures { IfOk result (λ v. view v ≡ float_data (from_bits binary32 bits)) }
{
    let x = f32_from_bits_with_nan(bits);
    if x.is_finite() {
        return Ok(Value::from(x));
    }
    Ok(Value::String(float_text(alloc, bits)?))
}

/// A Double.
fn double_value(alloc: Global, bits: u64) -> Result<Value, AllocError>
    ensures { IfOk result (λ v. view v ≡ float_data (from_bits binary64 bits)) }
{
    let x = f64_from_bits_with_nan(bits);
    if x.is_finite() {
        return Ok(Value::from(x));
    }
    Ok(Value::String(double_text(alloc, bits)?))
}

/// What is shown of a metric of this datatype.
pub(crate) fn shown_value(
    alloc: Global,
    datatype: Option<u32>,
    shown: Shown<'_>,
) -> Result<Value, AllocError>
    ensures { IfOk result (λ v. view v ≡ shown_data datatype shown.entry) }
{
    match shown {
        Shown::Nothing => Ok(Value::Null),
        Shown::Other => json!(in alloc; {"other": true}),
        Shown::Signed(number) => signed_value(alloc, datatype, number),
        Shown::Unsigned(number) => unsigned_value(alloc, datatype, number),
        Shown::Flag(flag) => Ok(Value::Bool(flag)),
        Shown::Words(words) => Value::try_from_str(alloc, words),
        Shown::Octets(octets) => Ok(Value::String(hex::encode(alloc, octets)?)),
        Shown::Float(bits) => float_value(alloc, bits),
        Shown::Double(bits) => double_value(alloc, bits),
    }
}
