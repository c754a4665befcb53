//! Bytes that wait.
ghost use Rattle.std.specs.Prelude.{◌≡◌, ℕ, ◌+◌, ◌*◌, ◌≤◌, List, [], ◌++◌, drop, length, vec_len, OnOk, OnErr};

use std::alloc::{AllocError, Global};
use std::marker::Model;

/// Bytes that wait to be taken or written, oldest first. Those that are done are passed over, and their room is used again once they are half of the
/// buffer, so that it all costs time in proportion to the bytes, in whatever pieces.
#[derive(Drop)]
pub(crate) struct Waiting {
    buffer: Vec<u8>,
    start: usize,
}

impl Model for Waiting {
    ghost Value = { List ℕ };

    ghost view = { λ w. drop w.start w.buffer.items };

    ghost invariant = { λ w. 2 * w.start ≤ vec_len w.buffer };
}

/// Passes over the front of a buffer: where its rest begins afterwards. At least as many bytes are passed over as moved.
fn pass(buffer: &mut Vec<u8>, start: usize) -> usize
    requires { start ≤ vec_len buffer.old }
    ensures rest { drop result buffer.new.items ≡ drop start buffer.old.items }
    ensures half { 2 * result ≤ vec_len buffer.new }
{
    let len = buffer.len();
    let left = len - start;
    if start < left {
        return start;
    }
    buffer.copy_within(start..len, 0);
    buffer.truncate(left);
    0
}

impl Waiting {
    /// Nothing waits.
    pub(crate) fn new(alloc: Global) -> Waiting
        ensures { result ≡ [] }
    {
        Waiting {
            buffer: Vec::new(alloc),
            start: 0,
        }
    }

    /// Some more bytes, behind those that wait.
    pub(crate) fn put(&mut self, more: &[u8]) -> Result<(), AllocError>
        ensures ok { OnOk result (self.new ≡ self.old ++ more.now) }
        ensures err { OnErr result (self.new ≡ self.old) }
    {
        self.buffer.extend_from_slice(more)?;
        Ok(())
    }

    /// All that waits.
    pub(crate) fn as_slice(&self) -> &[u8]
        ensures { result.now ≡ self.now }
    {
        &self.buffer.as_slice()[self.start..]
    }

    /// So many bytes are passed over. More than wait are all.
    pub(crate) fn pass(&mut self, count: usize)
        ensures { self.new ≡ drop count self.old }
    {
        let start = self.start + count.min(self.buffer.len() - self.start);
        self.start = pass(&mut self.buffer, start);
    }
}
