//! The sockets of the status page: at most sixteen ask at once, and no client waits for one of them.

use mio::net::{TcpListener, TcpStream};
use mio::{Interest, Poll, Token};
use spk_status::{Asked, Figures, answer};
use std::alloc::{AllocError, Global};
use std::io::{ErrorKind, Read, Write};

/// How many ask at once (own rule).
const MOST: usize = 16;

/// How long one who asks may take, in milliseconds (own rule).
const PATIENCE: u64 = 5_000;

/// How long nobody is accepted after accepting failed, in milliseconds (own rule).
const REST: u64 = 1_000;

/// How many bytes are read at once: one more than are looked at of a request.
const PIECE: usize = 4_097;

/// The token of the listening socket.
pub(crate) const PAGE: usize = usize::MAX;

/// The first token of those who ask. No client has one from here on.
pub(crate) const FIRST: usize = usize::MAX - MOST;

/// One who asks.
#[derive(Drop)]
struct Visit {
    stream: TcpStream,
    /// When it is shut, in milliseconds.
    until: u64,
    /// It may be read or written to.
    ready: bool,
    asked: Vec<u8>,
    answer: Option<String>,
    written: usize,
}

impl Visit {
    /// Reads once what is asked. Whether it may go on.
    fn read(&mut self, piece: &mut [u8]) -> bool {
        match self.stream.read(&mut *piece) {
            Ok(0) => false,
            Ok(count) => match piece.get(..count) {
                Some(bytes) => self.asked.extend_from_slice(bytes).is_ok(),
                None => false,
            },
            Err(error) => match error.kind() {
                ErrorKind::WouldBlock => {
                    self.ready = false;
                    true
                }
                ErrorKind::Interrupted => true,
                _ => false,
            },
        }
    }

    /// Looks for an answer to what is asked. Whether it may go on.
    fn look(&mut self, alloc: Global, figures: &Figures) -> bool {
        match answer(alloc, Asked::of(self.asked.as_slice()), figures) {
            Ok(text) => {
                self.answer = text;
                true
            }
            Err(_) => false,
        }
    }

    /// Writes once of the answer, if there is one. Whether it may go on.
    fn write(&mut self) -> bool {
        let Some(text) = &self.answer else {
            return true;
        };
        let Some(rest) = text.as_bytes().get(self.written..) else {
            return false;
        };
        match self.stream.write(rest) {
            Ok(count) => {
                self.written = self.written.saturating_add(count);
                count < rest.len()
            }
            Err(error) => match error.kind() {
                ErrorKind::WouldBlock => {
                    self.ready = false;
                    true
                }
                ErrorKind::Interrupted => true,
                _ => false,
            },
        }
    }

    /// Reads and writes once. Whether it may go on.
    fn go_on(&mut self, alloc: Global, figures: &Figures, piece: &mut [u8], now: u64) -> bool {
        if self.until <= now {
            return false;
        }
        if !self.ready {
            return true;
        }
        if self.answer.is_none() && !(self.read(piece) && self.look(alloc, figures)) {
            return false;
        }
        self.write()
    }
}

/// The page's listening socket, and who asks.
#[derive(Drop)]
pub(crate) struct Page {
    listener: TcpListener,
    /// Somebody may wait.
    knocked: bool,
    /// Nobody is accepted before this moment, in milliseconds.
    from: u64,
    /// As many places as may ask at once.
    visits: Vec<Option<Visit>>,
    piece: Vec<u8>,
}

impl Page {
    pub(crate) fn new(alloc: Global, listener: TcpListener) -> Result<Page, AllocError> {
        let mut visits = Vec::with_capacity(alloc, MOST)?;
        for _ in 0..MOST {
            visits.push(None)?;
        }
        Ok(Page {
            listener,
            knocked: false,
            from: 0,
            visits,
            piece: Vec::from_elem(alloc, 0, PIECE)?,
        })
    }

    /// The socket with this token, which no client has, is ready.
    pub(crate) fn note(&mut self, token: usize) {
        if token == PAGE {
            self.knocked = true;
            return;
        }
        let place = token.saturating_sub(FIRST);
        if let Some(Some(visit)) = self.visits.get_mut(place) {
            visit.ready = true;
        }
    }

    /// A place that is free.
    fn free(&self) -> Option<usize> {
        for place in 0..self.visits.len() {
            if matches!(self.visits.get(place), Some(None)) {
                return Some(place);
            }
        }
        None
    }

    /// The next one who waits, if one does.
    fn next(&mut self, now: u64) -> Option<TcpStream> {
        match self.listener.accept() {
            Ok((stream, _)) => Some(stream),
            Err(error) => {
                match error.kind() {
                    ErrorKind::Interrupted
                    | ErrorKind::ConnectionAborted
                    | ErrorKind::ConnectionReset => {}
                    ErrorKind::WouldBlock => self.knocked = false,
                    _ => self.from = now.saturating_add(REST),
                }
                None
            }
        }
    }

    /// Accepts one who waits, where there is a place.
    fn accept(&mut self, alloc: Global, poll: &Poll, now: u64) {
        let Some(place) = self.free() else {
            return;
        };
        let Some(mut stream) = self.next(now) else {
            return;
        };
        let Some(token) = FIRST.checked_add(place) else {
            return;
        };
        let interest = Interest::READABLE | Interest::WRITABLE;
        let registered = poll
            .registry()
            .register(&mut stream, Token(token), interest);
        if registered.is_err() {
            return;
        }
        if let Some(visit) = self.visits.get_mut(place) {
            *visit = Some(Visit {
                stream,
                until: now.saturating_add(PATIENCE),
                ready: true,
                asked: Vec::new(alloc),
                answer: None,
                written: 0,
            });
        }
    }

    /// Whether somebody may be accepted now.
    fn may_accept(&self, now: u64) -> bool {
        self.knocked && now >= self.from && self.free().is_some()
    }

    /// Whether nobody is to be waited for: somebody may be accepted, read or written to.
    pub(crate) fn is_ready(&self, now: u64) -> bool {
        if self.may_accept(now) {
            return true;
        }
        for visit in &self.visits {
            if let Some(visit) = visit
                && visit.ready
            {
                return true;
            }
        }
        false
    }

    /// When a round is to begin at the latest, if no socket does anything; the greatest number where it need not.
    pub(crate) fn due(&self, now: u64) -> u64 {
        let mut due = u64::MAX;
        if self.knocked && now < self.from {
            due = self.from;
        }
        for visit in &self.visits {
            if let Some(visit) = visit {
                due = due.min(visit.until);
            }
        }
        due
    }

    /// The visit at a place is over: its socket is closed with it.
    fn forget(&mut self, place: usize) {
        if let Some(visit) = self.visits.get_mut(place) {
            *visit = None;
        }
    }

    /// Reads and writes each of those who ask once, and shuts those who are answered, failed or took too long; then accepts one more.
    pub(crate) fn round(&mut self, alloc: Global, poll: &Poll, figures: &Figures, now: u64) {
        for place in 0..self.visits.len() {
            let goes_on = match self.visits.get_mut(place) {
                Some(Some(visit)) => visit.go_on(alloc, figures, self.piece.as_mut_slice(), now),
                _ => true,
            };
            if !goes_on {
                self.forget(place);
            }
        }
        if self.may_accept(now) {
            self.accept(alloc, poll, now);
        }
    }
}
