//! Names and topics.

use std::alloc::Global;

/// Three texts, one behind the other.
pub(crate) fn joined(alloc: Global, first: &str, second: &str, third: &str) -> Option<String> {
    let mut text = String::from_str(alloc, first).ok()?;
    text.push_str(second).ok()?;
    text.push_str(third).ok()?;
    Some(text)
}

/// A number of four digits behind a text, as `Line 0042`.
pub(crate) fn numbered(alloc: Global, front: &str, number: usize) -> Option<String> {
    let mut text = String::from_str(alloc, front).ok()?;
    let low = number % 10_000;
    for digit in [low / 1000, low / 100 % 10, low / 10 % 10, low % 10] {
        text.push(char::from(b'0' + digit as u8)).ok()?;
    }
    Some(text)
}

/// The number that stands in the last four digits of a name.
pub(crate) fn number_in(name: &str) -> usize {
    let mut number = 0usize;
    for byte in name.as_bytes() {
        if byte.is_ascii_digit() {
            number = number
                .wrapping_mul(10)
                .wrapping_add(usize::from(*byte - b'0'))
                % 10_000;
        }
    }
    number
}
