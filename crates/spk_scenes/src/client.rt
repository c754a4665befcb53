//! Another client of the broker.

use spk_link::Due;
use spk_network::{App, Note};
use std::alloc::Global;

/// A client that sends the bytes that it is given, and passes over what it is sent.
#[derive(Drop)]
pub(crate) struct Client {
    waiting: Vec<u8>,
    heard: usize,
}

impl Client {
    pub(crate) fn new(alloc: Global) -> Client {
        Client {
            waiting: Vec::new(alloc),
            heard: 0,
        }
    }

    /// These bytes are to be sent, behind those that wait.
    pub(crate) fn send(&mut self, bytes: &[u8]) -> Option<()> {
        self.waiting.extend_from_slice(bytes).ok()
    }
}

impl App for Client {
    fn due(&self, _at: usize, _now: u64) -> Due {
        if self.waiting.is_empty() {
            Due::Nothing
        } else {
            Due::Connect
        }
    }

    fn pause(&self, _at: usize, _now: u64) -> Option<u64> {
        None
    }

    fn opened(&mut self, _at: usize, _now: u64) {}

    fn over(&mut self, _at: usize, _now: u64) {
        self.waiting.clear();
    }

    fn may_read(&self, _at: usize) -> bool {
        true
    }

    fn read(&mut self, _at: usize, piece: &[u8], _now: u64) {
        self.heard = self.heard.saturating_add(piece.len());
    }

    fn takes_input(&self) -> bool {
        false
    }

    fn input(&mut self, _piece: &[u8], _now: u64) {}

    fn input_over(&mut self, _now: u64) {}

    fn turn(&mut self, _now: u64) {}

    fn unwritten(&self, _at: usize) -> &[u8] {
        self.waiting.as_slice()
    }

    fn wrote(&mut self, _at: usize, count: usize, _now: u64) {
        self.waiting.drain(..count.min(self.waiting.len()));
    }

    fn is_closing(&self, _at: usize) -> bool {
        false
    }

    fn is_done(&self) -> bool {
        false
    }

    fn note(&mut self, _at: usize, _note: &Note) {}
}
