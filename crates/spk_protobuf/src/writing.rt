//! Varints and length-delimited fields, appended.

ghost use Rattle.std.specs.Prelude.{◌≡◌, ℕ, ◌+◌, ◌*◌, ◌-◌, ◌/◌, ◌%◌, ◌^◌, ◌<◌, ◌≤◌, ◌++◌, ◌∷◌, [], List, length, take, OnOk, OnErr};
ghost use Rattle.spk_protobuf.specs.Grammar.{Entry, Bytes, IsVarint, IsField};
ghost use Rattle.spk_protobuf.specs.Spelling.{varint, bytes_field};

use std::alloc::AllocError;

#[inline(always)]
fn put_byte(out: &mut Vec<u8>, byte: u8) -> Result<(), AllocError>
    ensures ok { OnOk result (out.new.items ≡ out.old.items ++ byte ∷ []) }
    ensures err { OnErr result (out.new.items ≡ out.old.items) }
{
    match out.push(byte) {
        Ok(()) => Ok(()),
        Err(_) => Err(AllocError),
    }
}

/// The lowest group of a number, with the bit that says that more follow.
#[inline(always)]
fn followed(rest: u64) -> u8
    ensures { result ≡ rest % 128 + 128 }
{
    (rest % 128) as u8 + 128
}

/// A varint of any length: its bytes are filled in an array, and appended at once.
fn put_groups(out: &mut Vec<u8>, number: u64) -> Result<(), AllocError>
    ensures ok { OnOk result (out.new.items ≡ out.old.items ++ varint number) }
    ensures err { OnErr result (out.new.items ≡ out.old.items) }
{
    let mut groups = [0; 10];
    let mut rest = number;
    for i in 0..9usize {
        if rest < 128 {
            groups[i] = rest as u8;
            return out.extend_from_slice(&groups[..i + 1]);
        }
        groups[i] = followed(rest);
        rest /= 128;
    }
    groups[9] = rest as u8;
    out.extend_from_slice(&groups)
}

/// A varint of two bytes or more. Those of up to six, as a time in milliseconds has, are appended without a loop.
fn put_any_varint(out: &mut Vec<u8>, number: u64) -> Result<(), AllocError>
    requires { 128 ≤ number }
    ensures ok { OnOk result (out.new.items ≡ out.old.items ++ varint number) }
    ensures err { OnErr result (out.new.items ≡ out.old.items) }
{
    let (a, second) = (followed(number), number / 128);
    if second < 128 {
        return out.extend_from_slice(&[a, second as u8]);
    }
    let (b, third) = (followed(second), second / 128);
    if third < 128 {
        return out.extend_from_slice(&[a, b, third as u8]);
    }
    let (c, fourth) = (followed(third), third / 128);
    if fourth < 128 {
        return out.extend_from_slice(&[a, b, c, fourth as u8]);
    }
    let (d, fifth) = (followed(fourth), fourth / 128);
    if fifth < 128 {
        return out.extend_from_slice(&[a, b, c, d, fifth as u8]);
    }
    let (e, sixth) = (followed(fifth), fifth / 128);
    if sixth < 128 {
        return out.extend_from_slice(&[a, b, c, d, e, sixth as u8]);
    }
    put_groups(out, number)
}

/// Appends the number as the shortest varint, 1 to 10 bytes (protobuf encoding, "Base 128 Varints").
///
/// Where no memory is given, `out` is as it was.
#[inline(always)]
#[tactic(auto, using(crate::proofs::Shortest::varint_small))]
pub fn put_varint(out: &mut Vec<u8>, number: u64) -> Result<(), AllocError>
    ensures ok { OnOk result (out.new.items ≡ out.old.items ++ varint number) }
    // What is appended is a varint of the number, and none is shorter.
    ensures reads { IsVarint (varint number) number }
    ensures shortest { (text : List ℕ) → IsVarint text number
        → length (varint number) ≤ length text }
    ensures err { OnErr result (out.new.items ≡ out.old.items) }
{
    // A number below 128 is its own varint.
    if number < 128 {
        return put_byte(out, number as u8);
    }
    put_any_varint(out, number)
}

/// How many bytes the shortest varint of the number has, 1 to 10. Takes no memory.
pub fn varint_size(number: u64) -> usize
    ensures size { result ≡ length (varint number) }
    ensures bound { result ≤ 10 }
{
    if number < 128 {
        return 1;
    }
    (number.ilog2() / 7) as usize + 1
}

/// The tag of a length-delimited field, the length, and the bytes. After an `Err` some of it may stand in `out`.
fn put_parts(out: &mut Vec<u8>, number: u64, bytes: &[u8]) -> Result<(), AllocError>
    ensures ok { OnOk result (out.new.items ≡ out.old.items ++ bytes_field number bytes.now) }
    ensures err { OnErr result (take (length out.old.items) out.new.items ≡ out.old.items) }
{
    put_varint(out, number.wrapping_mul(8).wrapping_add(2))?;
    put_varint(out, bytes.len() as u64)?;
    out.extend_from_slice(bytes)
}

/// Appends a length-delimited field: its tag, the length and the bytes (protobuf encoding, "Length-Delimited
/// Records").
///
/// A number from 1 to 2^61 - 1 gives a field of that number. Another number is written too: of its tag the low
/// 64 bits. Where no memory is given, `out` is as it was.
pub fn put_bytes(out: &mut Vec<u8>, number: u64, bytes: &[u8]) -> Result<(), AllocError>
    ensures ok { OnOk result (out.new.items ≡ out.old.items ++ bytes_field number bytes.now) }
    ensures field { 0 < number → number < 2 ^ 61
        → IsField (bytes_field number bytes.now)
        (record { number = number; shape = Bytes bytes.now }) }
    ensures err { OnErr result (out.new.items ≡ out.old.items) }
{
    let before = out.len();
    let put = put_parts(out, number, bytes);
    if put.is_err() {
        out.truncate(before);
    }
    put
}
