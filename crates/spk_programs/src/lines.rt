//! Lines of standard input, whatever the pieces in which they come.

use std::alloc::Global;
use std::mem;

/// The longest line (own rule).
const LONGEST: usize = 1_048_576;

/// What becomes of lines.
pub trait Listener {
    /// A whole line came, without its end: its number, from 1.
    fn line(&mut self, number: u64, bytes: &[u8], now: u64);

    /// A line is too long, or there was no memory for it: it is passed over.
    fn passed(&mut self, number: u64);
}

/// The front of a line that isn't whole yet.
#[derive(Drop)]
pub struct Lines {
    alloc: Global,
    front: Vec<u8>,
    /// The rest of the line is passed over.
    passing: bool,
    /// How many lines came, the one that isn't whole yet not.
    count: u64,
}

impl Lines {
    pub fn new(alloc: Global) -> Lines {
        Lines {
            alloc,
            front: Vec::new(alloc),
            passing: false,
            count: 0,
        }
    }

    /// Keeps some of a line that isn't whole.
    fn keep(&mut self, part: &[u8]) {
        let fits = self.front.len().saturating_add(part.len()) <= LONGEST;
        if !self.passing && (!fits || self.front.extend_from_slice(part).is_err()) {
            self.passing = true;
            self.front.clear();
        }
    }

    /// A line is whole.
    fn end<L: Listener>(&mut self, part: &[u8], listener: &mut L, now: u64) {
        self.count = self.count.saturating_add(1);
        if self.front.is_empty() && !self.passing && part.len() <= LONGEST {
            listener.line(self.count, part, now);
            return;
        }
        self.keep(part);
        if self.passing {
            self.passing = false;
            listener.passed(self.count);
            return;
        }
        let mut whole = mem::replace(&mut self.front, Vec::new(self.alloc));
        listener.line(self.count, &whole, now);
        whole.clear();
        self.front = whole;
    }

    /// Takes some bytes, and tells of each line that they end.
    pub fn take<L: Listener>(&mut self, piece: &[u8], listener: &mut L, now: u64) {
        for part in piece.split_inclusive(|byte| *byte == b'\n') {
            match part.strip_suffix(b"\n") {
                Some(end) => self.end(end, listener, now),
                None => self.keep(part),
            }
        }
    }

    /// No more bytes come: what is left is a line, too.
    pub fn finish<L: Listener>(&mut self, listener: &mut L, now: u64) {
        if !self.front.is_empty() || self.passing {
            self.end(&[], listener, now);
        }
    }
}
