//! Values: when two are equal, and which are of a datatype.
ghost use Rattle.std.specs.Prelude.{◌≡◌, ◌≤◌, ◌^◌, is_some};
ghost use Rattle.std.specs.Option.{option_map};
ghost use Rattle.spk_payload.specs.Typing.{typed_view, written_of, int_of_signed, long_of_signed, int_of_unsigned, long_of_unsigned, flag_of, words_of, octets_of, float_written, double_written};
ghost use Rattle.spk_device.specs.Values as spec;

use spk_payload::{Value, Values};

/// Whether two values are equal. Texts and octets are compared byte by byte, floats and doubles by their bits: a NaN is equal to
/// itself, and 0 and -0 differ.
pub(crate) fn is_same(a: &Value, b: &Value) -> bool
    ensures { result ≡ spec.typed_eq (typed_view a.now) (typed_view b.now) }
{
    match (a, b) {
        (Value::Signed(x), Value::Signed(y)) => *x == *y,
        (Value::Unsigned(x), Value::Unsigned(y)) => *x == *y,
        (Value::Flag(x), Value::Flag(y)) => *x == *y,
        (Value::Words(x), Value::Words(y)) => x.as_str() == y.as_str(),
        (Value::Octets(x), Value::Octets(y)) => x.as_slice() == y.as_slice(),
        (Value::Float(x), Value::Float(y)) => *x == *y,
        (Value::Double(x), Value::Double(y)) => *x == *y,
        _ => false,
    }
}

/// Whether two values that may be missing are equal.
pub(crate) fn is_same_value(a: &Option<Value>, b: &Option<Value>) -> bool
    ensures { result ≡ spec.value_eq (option_map typed_view a.now) (option_map typed_view b.now) }
{
    match (a, b) {
        (Some(x), Some(y)) => is_same(x, y),
        (None, None) => true,
        _ => false,
    }
}

/// Whether a datatype is of whole values: neither Float (9) nor Double (10).
fn is_whole(datatype: u32) -> bool
    ensures { result ≡ spec.is_whole datatype }
{
    matches!(datatype, 1..=8 | 11..=15 | 17 | 18)
}

/// Whether values of a datatype are written, by a choice.
pub(crate) fn is_written(values: Values, datatype: u32) -> bool
    ensures { result ≡ spec.is_written values datatype }
{
    match values {
        Values::Whole => is_whole(datatype),
        Values::All => is_whole(datatype) || matches!(datatype, 9 | 10),
    }
}

/// Whether a signed number fits 8, 16 or 32 bits.
fn is_narrow(half: u32, value: &Value) -> bool
    requires { half ≤ 2 ^ 31 }
    ensures { result ≡ is_some (int_of_signed half (typed_view value.now)) }
{
    let half = i64::from(half);
    match value {
        Value::Signed(number) => -half <= *number && *number < half,
        _ => false,
    }
}

fn is_below(limit: u64, value: &Value) -> bool
    requires { limit ≤ 2 ^ 32 }
    ensures { result ≡ is_some (int_of_unsigned limit (typed_view value.now)) }
{
    match value {
        Value::Unsigned(number) => *number < limit,
        _ => false,
    }
}

fn is_signed(value: &Value) -> bool
    ensures { result ≡ is_some (long_of_signed (typed_view value.now)) }
{
    matches!(value, Value::Signed(_))
}

fn is_unsigned(value: &Value) -> bool
    ensures { result ≡ is_some (long_of_unsigned (typed_view value.now)) }
{
    matches!(value, Value::Unsigned(_))
}

fn is_flag(value: &Value) -> bool
    ensures { result ≡ is_some (flag_of (typed_view value.now)) }
{
    matches!(value, Value::Flag(_))
}

fn is_words(value: &Value) -> bool
    ensures { result ≡ is_some (words_of (typed_view value.now)) }
{
    matches!(value, Value::Words(_))
}

fn is_octets(value: &Value) -> bool
    ensures { result ≡ is_some (octets_of (typed_view value.now)) }
{
    matches!(value, Value::Octets(_))
}

fn is_float(value: &Value) -> bool
    ensures { result ≡ is_some (float_written (typed_view value.now)) }
{
    matches!(value, Value::Float(_))
}

fn is_double(value: &Value) -> bool
    ensures { result ≡ is_some (double_written (typed_view value.now)) }
{
    matches!(value, Value::Double(_))
}

/// Whether a datatype writes a value.
fn writes(datatype: u32, value: &Value) -> bool
    ensures { result ≡ is_some (written_of datatype (typed_view value.now)) }
{
    match datatype {
        1 => is_narrow(1 << 7, value),
        2 => is_narrow(1 << 15, value),
        3 => is_narrow(1 << 31, value),
        4 => is_signed(value),
        5 => is_below(1 << 8, value),
        6 => is_below(1 << 16, value),
        7 => is_below(1 << 32, value),
        8 | 13 => is_unsigned(value),
        9 => is_float(value),
        10 => is_double(value),
        11 => is_flag(value),
        12 | 14 | 15 => is_words(value),
        17 | 18 => is_octets(value),
        _ => false,
    }
}

/// Whether a value is missing, or one that the datatype writes.
pub(crate) fn is_of(datatype: u32, value: &Option<Value>) -> bool
    ensures { result ≡ spec.is_of datatype (option_map typed_view value.now) }
{
    match value {
        Some(value) => writes(datatype, value),
        None => true,
    }
}
