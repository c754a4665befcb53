//! Values, copied, and as their datatypes write them.
ghost use Rattle.std.specs.Prelude.{◌≡◌, IfOk};
ghost use Rattle.std.specs.Option.{option_map};
ghost use Rattle.spk_payload.specs.Typing.{typed_view, written_of};
ghost use Rattle.spk_payload.specs.View.{content_of};
ghost use Rattle.spk_device.specs.Values.{typed_eq, value_eq};

use spk_payload::{PayloadFault, Raw, Value, written};
use std::alloc::{AllocError, Global};

/// A copy of a value.
pub(crate) fn copied(alloc: Global, value: &Option<Value>) -> Result<Option<Value>, AllocError>
    ensures { IfOk result (λ v. option_map typed_view v ≡ option_map typed_view value.now) }
{
    match value {
        Some(value) => Ok(Some(value.copy(alloc)?)),
        None => Ok(None),
    }
}

/// Whether two values are equal: texts and octets byte by byte, floats and doubles by their bits.
fn is_same(a: &Value, b: &Value) -> bool
    ensures { result ≡ typed_eq (typed_view a.now) (typed_view b.now) }
{
    match (a, b) {
        (Value::Signed(x), Value::Signed(y)) => *x == *y,
        (Value::Unsigned(x), Value::Unsigned(y)) => *x == *y,
        (Value::Flag(x), Value::Flag(y)) => *x == *y,
        (Value::Words(x), Value::Words(y)) => x.as_str() == y.as_str(),
        (Value::Octets(x), Value::Octets(y)) => x.as_slice() == y.as_slice(),
        (Value::Float(x), Value::Float(y)) => *x == *y,
        (Value::Double(x), Value::Double(y)) => *x == *y,
        _ => false,
    }
}

/// Whether two values that may be missing are equal.
pub(crate) fn is_same_value(a: &Option<Value>, b: &Option<Value>) -> bool
    ensures { result ≡ value_eq (option_map typed_view a.now) (option_map typed_view b.now) }
{
    match (a, b) {
        (Some(x), Some(y)) => is_same(x, y),
        (None, None) => true,
        _ => false,
    }
}

/// How a value of a datatype is written, if it is.
pub(crate) fn written_value(
    alloc: Global,
    datatype: u32,
    value: &Value,
) -> Result<Option<Raw>, AllocError>
    ensures { IfOk result (λ raw. option_map content_of raw
        ≡ written_of datatype (typed_view value.now)) }
{
    match written(alloc, datatype, value) {
        Ok(raw) => Ok(Some(raw)),
        Err(PayloadFault::NoMemory) => Err(AllocError),
        Err(_) => Ok(None),
    }
}
