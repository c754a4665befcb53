//! Parts and writers that fail.

use spk_history_export::PartFiles;
use std::io::{self, ErrorKind, Write};

/// The front of a history, under whatever name. Where it is broken, its reading fails behind these bytes.
#[derive(Drop)]
pub(crate) struct InMemory<'a> {
    pub(crate) bytes: &'a [u8],
    pub(crate) is_broken: bool,
}

impl PartFiles for InMemory<'_> {
    fn read(&mut self, _name: &str, bytes: &mut Vec<u8>) -> bool {
        bytes.extend_from_slice(self.bytes).is_ok() && !self.is_broken
    }
}

/// Takes so many bytes, and fails then.
#[derive(Drop)]
pub(crate) struct Narrow {
    pub(crate) room: usize,
}

impl Write for Narrow {
    fn write(&mut self, buf: &[u8]) -> io::Result<usize> {
        let count = buf.len().min(self.room);
        if count == 0 && !buf.is_empty() {
            return Err(io::Error::from(ErrorKind::BrokenPipe));
        }
        self.room = self.room.saturating_sub(count);
        Ok(count)
    }

    fn flush(&mut self) -> io::Result<()> {
        Ok(())
    }
}
