//! Values of the datatype Double, by their 64 bits.
ghost use Rattle.std.specs.Prelude.{◌≡◌, Some, true, false, IfOk, string_bytes, from_bits};
ghost use Rattle.std.specs.Float.{binary64, float_is_finite};
ghost use Rattle.std.proofs.lemmas.Float.{T_from_false};
ghost use Rattle.ryu.specs.Plain.{IsPlainNumber};
ghost use Rattle.spk_floats.specs.Text.{bits_in, finite_bits_in, one_nan, word_bits, word_of};

use ryu::Buffer;
use std::alloc::{AllocError, Global};
use std::num::{f64_from_bits_with_nan, f64_to_bits_with_nan};

/// The text of a value that isn't a number, or is infinite.
fn word(x: f64) -> &'static str
    ensures { float_is_finite x ≡ false → result.now ≡ word_of x }
{
    if x.is_nan() {
        "NaN"
    } else if x.is_sign_negative() {
        "-Infinity"
    } else {
        "Infinity"
    }
}

/// The decimal text of the Double with these bits, which is read again as the same bits: a number as JSON has it, with a fraction or an exponent. What
/// isn't a number is `NaN`, whichever of its bits it has, and the infinities are `Infinity` and `-Infinity`. Refused only where memory is.
pub fn double_text(alloc: Global, bits: u64) -> Result<String, AllocError>
    ensures number { float_is_finite (from_bits binary64 bits) ≡ true
        → IfOk result (λ text. IsPlainNumber (string_bytes text)) }
    ensures word { float_is_finite (from_bits binary64 bits) ≡ false
        → IfOk result (λ text. string_bytes text ≡ word_of (from_bits binary64 bits)) }
    // it is read again as the same bits, but for what isn't a number
    ensures again { IfOk result (λ text. bits_in binary64 (string_bytes text) ≡ Some (one_nan binary64 bits)) }
{
    let x = f64_from_bits_with_nan(bits);
    if x.is_finite() {
        return String::from_str(alloc, Buffer::new().format_finite(x));
    }
    String::from_str(alloc, word(x))
}

/// The bits of what a decimal text says, where that is a finite Double.
fn finite_in(text: &str) -> Option<u64>
    ensures { result ≡ finite_bits_in binary64 text.now }
{
    match fast_float::parse::<f64, _>(text) {
        Ok(x) if x.is_finite() => Some(f64_to_bits_with_nan(x)),
        _ => None,
    }
}

/// The bits of what a word says.
fn word_in(text: &str) -> Option<u64>
    ensures { result ≡ word_bits binary64 text.now }
{
    match text {
        "NaN" => Some(0x7ff8_0000_0000_0000),
        "Infinity" => Some(0x7ff0_0000_0000_0000),
        "-Infinity" => Some(0xfff0_0000_0000_0000),
        _ => None,
    }
}

/// The bits of the Double that a text says: of a decimal number, as Rust reads one, the nearest Double, and of two that are as near the even one
/// (IEEE 754, roundTiesToEven), where that is finite; of `NaN`, `Infinity` and `-Infinity` what they name. None where it says none.
pub fn double_in(text: &str) -> Option<u64>
    ensures { result ≡ bits_in binary64 text.now }
{
    match finite_in(text) {
        Some(bits) => Some(bits),
        None => word_in(text),
    }
}
