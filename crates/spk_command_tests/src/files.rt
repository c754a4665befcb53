//! What the runs read and write: files in memory, and a writer that fails.

use spk_commands::Files;
use std::io::{self, Read, Write};

/// A file in memory: its text comes in pieces of at most `piece` bytes, `turns` times over, and once `good` bytes were
/// read, reading fails, or is interrupted for ever.
#[derive(Drop)]
pub(crate) struct Memory<'a> {
    text: &'a [u8],
    at: usize,
    turns: usize,
    piece: usize,
    good: usize,
    is_interrupted: bool,
}

impl<'a> Memory<'a> {
    /// One that is read whole.
    fn whole(text: &'a [u8]) -> Memory<'a> {
        Memory {
            text,
            at: 0,
            turns: 1,
            piece: usize::MAX,
            good: usize::MAX,
            is_interrupted: false,
        }
    }
}

impl Read for Memory<'_> {
    fn read(&mut self, buf: &mut [u8]) -> io::Result<usize> {
        if self.at >= self.text.len() {
            self.at = 0;
            self.turns = self.turns.saturating_sub(1);
        }
        if self.turns == 0 || self.text.is_empty() {
            return Ok(0);
        }
        let rest = &self.text[self.at..];
        let count = self.piece.min(self.good).min(buf.len()).min(rest.len());
        if count == 0 {
            let kind = if self.is_interrupted {
                io::ErrorKind::Interrupted
            } else {
                io::ErrorKind::Other
            };
            return Err(io::Error::from(kind));
        }
        buf[..count].copy_from_slice(&rest[..count]);
        self.at = self.at.saturating_add(count);
        self.good = self.good.saturating_sub(count);
        Ok(count)
    }
}

const DIGITS: &[u8; 64] = b"0000000000000000000000000000000000000000000000000000000000000000";

/// A file that every case finds, by its name.
fn known(name: &str) -> Option<Memory<'static>> {
    match name {
        "payload" => Some(Memory::whole(b"08050807")),
        "lines" => Some(Memory {
            piece: 1,
            ..Memory::whole(b"08050807 \n\n")
        }),
        "two lines" => Some(Memory {
            piece: 3,
            ..Memory::whole(b"0805\n0807\n")
        }),
        "fails" => Some(Memory {
            piece: 2,
            good: 4,
            ..Memory::whole(b"08050807")
        }),
        "interrupted" => Some(Memory {
            piece: 2,
            good: 4,
            is_interrupted: true,
            ..Memory::whole(b"08050807")
        }),
        "not a text" => Some(Memory::whole(b"08\xff")),
        "empty" => Some(Memory::whole(b"")),
        "birth" => Some(Memory::whole(b"120b0a017410011806200350071800\n")),
        "password" => Some(Memory::whole(b"secret \n")),
        "longest" => Some(Memory {
            turns: 16_384,
            ..Memory::whole(DIGITS)
        }),
        "too long" => Some(Memory {
            turns: 16_385,
            piece: 50,
            ..Memory::whole(DIGITS)
        }),
        _ => None,
    }
}

/// The files of a case: its own, which is called FILE, and those that every case finds.
#[derive(Drop)]
pub(crate) struct Texts<'a> {
    pub(crate) file: Option<&'a str>,
}

impl<'a> Files for Texts<'a> {
    type Reader = Memory<'a>;

    fn open(&mut self, name: &str) -> Option<Memory<'a>> {
        if name == "FILE" {
            return self.file.map(|text| Memory::whole(text.as_bytes()));
        }
        known(name)
    }
}

/// A writer that holds what it is given up to `room` bytes, and fails at the next.
#[derive(Drop)]
pub(crate) struct Narrow {
    pub(crate) held: Vec<u8>,
    pub(crate) room: usize,
}

impl Write for Narrow {
    fn write(&mut self, buf: &[u8]) -> io::Result<usize> {
        let count = buf.len().min(self.room);
        if count == 0 && !buf.is_empty() {
            return Err(io::Error::from(io::ErrorKind::BrokenPipe));
        }
        self.held.extend_from_slice(&buf[..count])?;
        self.room = self.room.saturating_sub(count);
        Ok(count)
    }

    fn flush(&mut self) -> io::Result<()> {
        Ok(())
    }
}
