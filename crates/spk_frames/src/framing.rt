//! A content with its length and its sum, at the front of bytes that may have been cut off or spoiled.
ghost use Rattle.std.specs.Prelude.{◌≡◌, ◌<◌, ◌≤◌};
ghost use Rattle.spk_frames.specs.Frame.{IsFrame};

use crate::pieces::four;
use crate::sum::crc32;

/// What stands at the front of bytes.
#[derive(Clone, Copy, Debug)]
pub enum Framed<'a> {
    /// A content; its frame has eight bytes more.
    Content(&'a [u8]),
    /// No bytes.
    End,
    /// A content that is cut off: behind more bytes it may be whole.
    Torn,
    /// A wrong sum, or a length that no content has.
    Broken,
}

/// What stands at the front of bytes: a content with its length and its sum, where it has so many bytes at most. Linear in the content.
pub fn frame(bytes: &[u8], most: u32) -> Framed<'_>
    ensures { IsFrame most bytes.now result }
{
    if bytes.is_empty() {
        return Framed::End;
    }
    let Some((len, rest)) = four(bytes) else {
        return Framed::Torn;
    };
    let len = len as usize;
    if len > most as usize {
        return Framed::Broken;
    }
    if rest.len() < len + 4 {
        return Framed::Torn;
    }
    let (content, behind) = rest.split_at(len);
    let Some((sum, _)) = four(behind) else {
        unreachable!()
    };
    if sum == crc32(content) {
        Framed::Content(content)
    } else {
        Framed::Broken
    }
}
