//! The parts of a CONNECT.
ghost use Rattle.std.specs.Prelude.{◌≡◌, ◌≤◌, ◌++◌, length, drop, OnOk};
ghost use Rattle.spk_packets.specs.Spelling.{counted};
ghost use Rattle.spk_login.specs.Bytes.{after_length, body_of};

use std::alloc::AllocError;

/// What stands behind the remaining length.
pub(crate) fn after_length(bytes: &[u8]) -> &[u8]
    ensures { result.now ≡ after_length bytes.now }
{
    let mut rest = bytes;
    for _ in 0..bytes.len() {
        let [first, tail @ ..] = rest else {
            return rest;
        };
        if *first < 128 {
            return tail;
        }
        rest = tail;
    }
    rest
}

/// What stands behind the first byte and the remaining length.
pub(crate) fn body_of(bytes: &[u8]) -> &[u8]
    ensures { result.now ≡ body_of bytes.now }
{
    match bytes {
        [_, tail @ ..] => after_length(tail),
        [] => after_length(bytes),
    }
}

/// Appends bytes behind their length in two bytes.
pub(crate) fn put_counted(out: &mut Vec<u8>, bytes: &[u8]) -> Result<(), AllocError>
    requires { length bytes.now ≤ 65535 }
    ensures { OnOk result (out.new.items ≡ out.old.items ++ counted bytes.now) }
{
    let count = bytes.len();
    out.push((count / 256) as u8)?;
    out.push((count % 256) as u8)?;
    out.extend_from_slice(bytes)?;
    Ok(())
}
