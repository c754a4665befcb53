//! A content at the end of bytes.
ghost use Rattle.std.specs.Prelude.{◌≡◌, ◌<◌, ◌≤◌, ◌^◌, ◌+◌, ◌++◌, length, vec_len, vec_capacity, IfErr, OnErr, OnOk};
ghost use Rattle.spk_frames.specs.Fault.{IsRefusedFor};
ghost use Rattle.spk_frames.specs.Frame.{framed};
ghost use Rattle.spk_frames.specs.Numbers.{four};

use crate::fault::FrameFault;
use crate::sum::crc32;

/// Bytes at the end, where there is room for them.
#[inline(always)]
fn put(out: &mut Vec<u8>, bytes: &[u8])
    requires { vec_len out.old + length bytes.now ≤ vec_capacity out.old }
    ensures items { out.new.items ≡ out.old.items ++ bytes.now }
    ensures len { vec_len out.new ≡ vec_len out.old + length bytes.now }
    ensures room { vec_capacity out.old ≤ vec_capacity out.new }
{
    match out.extend_from_slice(bytes) {
        Ok(()) => {}
        Err(_) => unreachable!(),
    }
}

#[inline(always)]
#[tactic(auto, unfolding(crate::specs::Numbers::four))]
fn put_four(out: &mut Vec<u8>, n: u32)
    requires { vec_len out.old + 4 ≤ vec_capacity out.old }
    ensures items { out.new.items ≡ out.old.items ++ four n }
    ensures len { vec_len out.new ≡ vec_len out.old + 4 }
    ensures room { vec_capacity out.old ≤ vec_capacity out.new }
    ensures word { n < 2 ^ 32 }
{
    put(out, &n.to_le_bytes());
}

/// Puts a content, with its length and its sum, behind what stands in `out`, which grows once at most. Refused with LongContent (138) where it has
/// more than `most` bytes; then, and where memory is refused, `out` is as it was. Linear in the content.
#[tactic(auto, unfolding(crate::specs::Frame::framed))]
pub fn append(content: &[u8], most: u32, out: &mut Vec<u8>) -> Result<(), FrameFault>
    ensures put { OnOk result (out.new.items ≡ out.old.items ++ framed content.now) }
    ensures fits { OnOk result (length content.now ≤ most) }
    ensures refused { IfErr result (λ e. IsRefusedFor most content.now e) }
    ensures err { OnErr result (out.new.items ≡ out.old.items) }
{
    let len = content.len();
    if len > most as usize {
        return Err(FrameFault::LongContent);
    }
    out.reserve(len + 8)?;
    put_four(out, len as u32);
    put(out, content);
    put_four(out, crc32(content));
    Ok(())
}
