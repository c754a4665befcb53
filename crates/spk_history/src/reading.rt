//! What stands at the front of bytes that may have been cut off or spoiled.
ghost use Rattle.std.specs.Prelude.{◌≡◌, ◌<◌, ◌≤◌};
ghost use Rattle.spk_history.specs.File.{IsFront, IsBeginning, head};

use crate::entry::Entry;
use crate::parse::entry;
use crate::size::MOST_CONTENT;
use spk_frames::{Framed, frame};

/// The line that a history file begins with, and its end.
pub const HEAD: &[u8; 19] = b"Juldremm history 1\n";

/// What a file begins with.
#[derive(Clone, Copy, Debug)]
pub enum Beginning<'a> {
    /// The head of a history; this stands behind it.
    Head(&'a [u8]),
    /// Fewer bytes than the head has, as the head has them: the file was cut off.
    Torn,
    /// It is no history of this version.
    Other,
}

/// What stands at the front of bytes behind the head.
#[derive(Clone, Copy, Debug)]
pub enum Front<'a> {
    /// A record, of this many bytes.
    Record { entry: Entry<'a>, len: usize },
    /// No bytes.
    End,
    /// A record that is cut off: behind more bytes, `MOST_RECORD` in all at most, it may be whole.
    Torn,
    /// No record: a wrong sum or length, or no entry.
    Broken,
}

/// Whether bytes begin with the head, and what stands behind it.
pub fn head(bytes: &[u8]) -> Beginning<'_>
    ensures { IsBeginning bytes.now result }
{
    if bytes.starts_with(HEAD) {
        Beginning::Head(&bytes[HEAD.len()..])
    } else if HEAD.starts_with(bytes) {
        Beginning::Torn
    } else {
        Beginning::Other
    }
}

/// What stands at the front of bytes behind the head: the record of an entry, which is borrowed from them, nothing, a record that is cut off, or
/// something else. Linear in the record.
pub fn read(bytes: &[u8]) -> Front<'_>
    ensures { IsFront bytes.now result }
{
    match frame(bytes, MOST_CONTENT as u32) {
        Framed::Content(content) => match entry(content) {
            Some(entry) => Front::Record {
                entry,
                len: content.len() + 8,
            },
            None => Front::Broken,
        },
        Framed::End => Front::End,
        Framed::Torn => Front::Torn,
        Framed::Broken => Front::Broken,
    }
}
