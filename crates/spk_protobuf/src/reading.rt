//! The parts of a field, each read from the front of a text.

ghost use Rattle.std.specs.Prelude.{◌≡◌};
ghost use Rattle.spk_protobuf.specs.Reading as spec;
ghost use Rattle.spk_protobuf.specs.View.{Gives, shape_of, entry_of};

use crate::fault::WireFault;
use crate::field::{Field, Wire};

/// The varint at the front, and the bytes after it. Most have one byte, which is its own number.
#[inline(always)]
#[tactic(auto, using(crate::proofs::Groups::varint_at_small))]
fn varint_at(bytes: &[u8]) -> Result<(u64, &[u8]), WireFault>
    ensures { Gives (λ x. (x.0, x.1.now)) result (spec.varint_at bytes.now) }
{
    match bytes.split_first() {
        Some((byte, rest)) if *byte < 128 => Ok((u64::from(*byte), rest)),
        _ => any_varint_at(bytes),
    }
}

/// The same, of any length.
fn any_varint_at(bytes: &[u8]) -> Result<(u64, &[u8]), WireFault>
    ensures { Gives (λ x. (x.0, x.1.now)) result (spec.varint_at bytes.now) }
{
    let mut value: u64 = 0;
    let mut weight: u64 = 1;
    let mut rest = bytes;
    for _ in 0..10u32 {
        let Some((byte, after)) = rest.split_first() else {
            return Err(WireFault::Truncated);
        };
        value = value.wrapping_add(u64::from(*byte % 128).wrapping_mul(weight));
        if *byte < 128 {
            return Ok((value, after));
        }
        weight = weight.wrapping_mul(128);
        rest = after;
    }
    Err(WireFault::VarintTooLong)
}

/// So many bytes from the front, and the bytes after them.
#[inline(always)]
#[tactic(auto, unfolding(crate::specs::Reading::some_at))]
fn some_at(len: u64, bytes: &[u8]) -> Result<(&[u8], &[u8]), WireFault>
    ensures { Gives (λ x. (x.0.now, x.1.now)) result (spec.some_at len bytes.now) }
{
    if (bytes.len() as u64) < len {
        return Err(WireFault::Truncated);
    }
    Ok(bytes.split_at(len as usize))
}

#[inline(always)]
#[tactic(auto, unfolding(crate::specs::Reading::some_at))]
fn eight_at(bytes: &[u8]) -> Result<([u8; 8], &[u8]), WireFault>
    ensures { Gives (λ x. (x.0, x.1.now)) result (spec.some_at 8 bytes.now) }
{
    match bytes.split_first_chunk::<8>() {
        Some((front, rest)) => Ok((*front, rest)),
        None => Err(WireFault::Truncated),
    }
}

#[inline(always)]
#[tactic(auto, unfolding(crate::specs::Reading::some_at))]
fn four_at(bytes: &[u8]) -> Result<([u8; 4], &[u8]), WireFault>
    ensures { Gives (λ x. (x.0, x.1.now)) result (spec.some_at 4 bytes.now) }
{
    match bytes.split_first_chunk::<4>() {
        Some((front, rest)) => Ok((*front, rest)),
        None => Err(WireFault::Truncated),
    }
}

/// The value of a wire type.
#[inline(always)]
#[tactic(auto, unfolding(crate::specs::Reading::value_at))]
fn value_at(kind: u64, bytes: &[u8]) -> Result<(Wire<'_>, &[u8]), WireFault>
    ensures { Gives (λ x. (shape_of x.0, x.1.now)) result (spec.value_at kind bytes.now) }
{
    match kind {
        0 => {
            let (number, rest) = varint_at(bytes)?;
            Ok((Wire::Varint(number), rest))
        }
        1 => {
            let (front, rest) = eight_at(bytes)?;
            Ok((Wire::Eight(front), rest))
        }
        2 => {
            let (len, rest) = varint_at(bytes)?;
            let (text, rest) = some_at(len, rest)?;
            Ok((Wire::Bytes(text), rest))
        }
        3 | 4 => Err(WireFault::Group),
        5 => {
            let (front, rest) = four_at(bytes)?;
            Ok((Wire::Four(front), rest))
        }
        _ => Err(WireFault::WireType),
    }
}

/// The field at the front, and the bytes after it.
#[inline(always)]
#[tactic(auto, unfolding(crate::specs::Reading::field_at))]
pub(crate) fn field_at(bytes: &[u8]) -> Result<(Field<'_>, &[u8]), WireFault>
    ensures { Gives (λ x. (entry_of x.0, x.1.now)) result (spec.field_at bytes.now) }
{
    let (tag, rest) = varint_at(bytes)?;
    let number = tag / 8;
    if number == 0 {
        return Err(WireFault::FieldZero);
    }
    let (wire, rest) = value_at(tag % 8, rest)?;
    Ok((Field { number, wire }, rest))
}
