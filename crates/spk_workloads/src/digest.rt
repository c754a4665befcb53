//! A sum of all that a job answered.

use std::io::{self, Write};

/// A sum of numbers and bytes, by place. It isn't made to withstand anybody.
#[derive(Drop)]
pub(crate) struct Digest {
    sum: u64,
}

impl Digest {
    pub(crate) fn new() -> Digest {
        Digest { sum: 1 }
    }

    /// One number more.
    pub(crate) fn number(&mut self, number: u64) {
        let mixed = (self.sum ^ number).wrapping_mul(0x9e37_79b9_7f4a_7c15);
        self.sum = mixed ^ (mixed >> 29);
    }

    /// Bytes more, and how many.
    pub(crate) fn bytes(&mut self, bytes: &[u8]) {
        self.number(bytes.len() as u64);
        for eight in bytes.chunks(8) {
            match eight {
                [a, b, c, d, e, f, g, h] => {
                    self.number(u64::from_le_bytes([*a, *b, *c, *d, *e, *f, *g, *h]));
                }
                rest => {
                    for byte in rest {
                        self.number(u64::from(*byte));
                    }
                }
            }
        }
    }

    pub(crate) fn sum(&self) -> u64 {
        self.sum
    }
}

impl Write for Digest {
    fn write(&mut self, buf: &[u8]) -> io::Result<usize> {
        self.bytes(buf);
        Ok(buf.len())
    }

    fn flush(&mut self) -> io::Result<()> {
        Ok(())
    }
}
