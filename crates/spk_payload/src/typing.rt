//! What a value is by its datatype.

ghost use Rattle.std.specs.Prelude.{◌≡◌, ◌⊎◌, ◌*◌, ◌^◌, ◌≤◌, Option, Some, None, Err, IfOk, IfErr, IsTrue, MatchResult, option_map};
ghost use Rattle.spk_payload.specs.Meaning.{Int, Long};
ghost use Rattle.spk_payload.specs.Typing as spec;
ghost use Rattle.spk_payload.specs.View.{content_of, Writes};

use crate::fault::PayloadFault;
use crate::metric::Raw;
use std::alloc::Global;

/// A value with its type.
#[derive(Debug, Drop, PartialEq)]
pub enum Value {
    /// Int8, Int16, Int32, Int64.
    Signed(i64),
    /// UInt8, UInt16, UInt32, UInt64, and DateTime in milliseconds since 1970.
    Unsigned(u64),
    /// Boolean.
    Flag(bool),
    /// String, Text, UUID.
    Words(String),
    /// Bytes, File.
    Octets(Vec<u8>),
    /// Float, by its bits (IEEE 754 binary32): equal where the bits are.
    Float(u32),
    /// Double, by its bits (IEEE 754 binary64), likewise.
    Double(u64),
}

/// A signed number of 8, 16 or 32 bits in an `int_value`.
fn narrow_signed(half: u32, number: u32) -> Option<Value>
    requires { half ≤ 2 ^ 31 }
    ensures { option_map spec.typed_view result ≡ spec.narrow_signed half number }
{
    let half = i64::from(half);
    let number = i64::from(number);
    if number < half {
        Some(Value::Signed(number))
    } else if number < 2 * half {
        Some(Value::Signed(number - 2 * half))
    } else if number < (1 << 32) - half {
        None
    } else {
        Some(Value::Signed(number - (1 << 32)))
    }
}

fn below(limit: u64, number: u64) -> Option<Value>
    ensures { option_map spec.typed_view result ≡ spec.below limit number }
{
    (number < limit).then_some(Value::Unsigned(number))
}

fn typed_int(datatype: u32, number: u32) -> Option<Value>
    ensures { option_map spec.typed_view result ≡ spec.typed_of datatype (Int number) }
{
    match datatype {
        1 => narrow_signed(1 << 7, number),
        2 => narrow_signed(1 << 15, number),
        3 => narrow_signed(1 << 31, number),
        5 => below(1 << 8, u64::from(number)),
        6 => below(1 << 16, u64::from(number)),
        7 => below(1 << 32, u64::from(number)),
        13 => Some(Value::Unsigned(u64::from(number))),
        _ => None,
    }
}

fn typed_long(datatype: u32, number: u64) -> Option<Value>
    ensures { option_map spec.typed_view result ≡ spec.typed_of datatype (Long number) }
{
    match datatype {
        4 => Some(Value::Signed(number.cast_signed())),
        7 => below(1 << 32, number),
        8 | 13 => Some(Value::Unsigned(number)),
        _ => None,
    }
}

/// The value that a datatype reads, by its number (Sparkplug 3.0.0, 6.4.16; docs/DEFINITIONS.md has the table).
/// Takes no memory.
///
/// A value that the datatype doesn't read is handed back as it was.
pub fn typed(datatype: u32, raw: Raw) -> Result<Value, Raw>
    ensures { MatchResult result
        (λ v. spec.typed_of datatype (content_of raw) ≡ Some (spec.typed_view v))
        (λ back. (spec.typed_of datatype (content_of raw) ≡ None) × (back ≡ raw)) }
{
    match raw {
        Raw::Int(number) => typed_int(datatype, number).ok_or(Raw::Int(number)),
        Raw::Long(number) => typed_long(datatype, number).ok_or(Raw::Long(number)),
        Raw::Flag(flag) => match datatype {
            11 => Ok(Value::Flag(flag)),
            _ => Err(Raw::Flag(flag)),
        },
        Raw::Words(text) => match datatype {
            12 | 14 | 15 => Ok(Value::Words(text)),
            _ => Err(Raw::Words(text)),
        },
        Raw::Octets(bytes) => match datatype {
            17 | 18 => Ok(Value::Octets(bytes)),
            _ => Err(Raw::Octets(bytes)),
        },
        Raw::Float(bits) => match datatype {
            9 => Ok(Value::Float(bits)),
            _ => Err(Raw::Float(bits)),
        },
        Raw::Double(bits) => match datatype {
            10 => Ok(Value::Double(bits)),
            _ => Err(Raw::Double(bits)),
        },
        Raw::Other => Err(Raw::Other),
    }
}

/// A signed number of 8, 16 or 32 bits, in 32 bits of two's complement.
fn int_of_signed(half: u32, value: &Value) -> Option<Raw>
    requires { half ≤ 2 ^ 31 }
    ensures { option_map content_of result ≡ spec.int_of_signed half (spec.typed_view value.now) }
{
    let Value::Signed(number) = value else {
        return None;
    };
    let half = i64::from(half);
    if -half <= *number && *number < half {
        Some(Raw::Int((*number as i32).cast_unsigned()))
    } else {
        None
    }
}

fn long_of_signed(value: &Value) -> Option<Raw>
    ensures { option_map content_of result ≡ spec.long_of_signed (spec.typed_view value.now) }
{
    match value {
        Value::Signed(number) => Some(Raw::Long(number.cast_unsigned())),
        _ => None,
    }
}

fn int_of_unsigned(limit: u64, value: &Value) -> Option<Raw>
    requires { limit ≤ 2 ^ 32 }
    ensures { option_map content_of result
        ≡ spec.int_of_unsigned limit (spec.typed_view value.now) }
{
    match value {
        Value::Unsigned(number) if *number < limit => Some(Raw::Int(*number as u32)),
        _ => None,
    }
}

fn long_of_unsigned(value: &Value) -> Option<Raw>
    ensures { option_map content_of result ≡ spec.long_of_unsigned (spec.typed_view value.now) }
{
    match value {
        Value::Unsigned(number) => Some(Raw::Long(*number)),
        _ => None,
    }
}

#[tactic(auto)]
fn written_as(alloc: Global, datatype: u32, value: &Value) -> Result<Raw, PayloadFault>
    ensures given { Writes result (spec.written_of datatype (spec.typed_view value.now)) }
    ensures memory { IfErr result
        (λ f. f ≡ PayloadFault.NoMemory
        → IsTrue (spec.is_text_or_bytes (spec.typed_view value.now))) }
{
    match datatype {
        1 => int_of_signed(1 << 7, value).ok_or(PayloadFault::Mistyped),
        2 => int_of_signed(1 << 15, value).ok_or(PayloadFault::Mistyped),
        3 => int_of_signed(1 << 31, value).ok_or(PayloadFault::Mistyped),
        4 => long_of_signed(value).ok_or(PayloadFault::Mistyped),
        5 => int_of_unsigned(1 << 8, value).ok_or(PayloadFault::Mistyped),
        6 => int_of_unsigned(1 << 16, value).ok_or(PayloadFault::Mistyped),
        7 => int_of_unsigned(1 << 32, value).ok_or(PayloadFault::Mistyped),
        8 | 13 => long_of_unsigned(value).ok_or(PayloadFault::Mistyped),
        9 => match value {
            Value::Float(bits) => Ok(Raw::Float(*bits)),
            _ => Err(PayloadFault::Mistyped),
        },
        10 => match value {
            Value::Double(bits) => Ok(Raw::Double(*bits)),
            _ => Err(PayloadFault::Mistyped),
        },
        11 => match value {
            Value::Flag(flag) => Ok(Raw::Flag(*flag)),
            _ => Err(PayloadFault::Mistyped),
        },
        12 | 14 | 15 => match value {
            Value::Words(text) => Ok(Raw::Words(String::from_str(alloc, text.as_str())?)),
            _ => Err(PayloadFault::Mistyped),
        },
        17 | 18 => match value {
            Value::Octets(bytes) => Ok(Raw::Octets(Vec::from_slice(alloc, bytes)?)),
            _ => Err(PayloadFault::Mistyped),
        },
        _ => Err(PayloadFault::Mistyped),
    }
}

/// How a value of a datatype is written (own rule; docs/DEFINITIONS.md has the table). What is written, `typed` reads as
/// the same value: `laws::written_again`.
///
/// Mistyped (9) exactly where the datatype isn't written or the value isn't of it. NoMemory comes for texts and bytes
/// alone.
pub fn written(alloc: Global, datatype: u32, value: &Value) -> Result<Raw, PayloadFault>
    ensures ok { IfOk result (λ raw.
        spec.written_of datatype (spec.typed_view value.now) ≡ Some (content_of raw)) }
    ensures mistyped { spec.written_of datatype (spec.typed_view value.now) ≡ None
        → result ≡ Err PayloadFault.Mistyped }
    ensures fault { IfErr result (λ f. (f ≡ PayloadFault.NoMemory)
        ⊎ ((f ≡ PayloadFault.Mistyped)
        × (spec.written_of datatype (spec.typed_view value.now) ≡ None))) }
    // A number or a truth value takes no memory.
    ensures memory { IfErr result
        (λ f. f ≡ PayloadFault.NoMemory
        → IsTrue (spec.is_text_or_bytes (spec.typed_view value.now))) }
{
    written_as(alloc, datatype, value)
}
