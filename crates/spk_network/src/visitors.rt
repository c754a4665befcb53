//! The sockets of a page: those who ask, in the loop of the program's own connection.

use crate::app::{App, Seen};
use crate::fault::NetworkFault;
use mio::net::{TcpListener, TcpStream};
use mio::{Interest, Poll, Token};
use spk_page::{Client, Stage};
use std::alloc::Global;
use std::io::{ErrorKind, Read, Write};
use std::net::{IpAddr, Ipv4Addr, Net, SocketAddr};

/// How many are connected at once (own rule).
const MOST: usize = 64;

/// How long nobody is accepted after accepting failed, in milliseconds (own rule).
const REST: u64 = 1_000;

/// How many bytes are read at once (own rule).
const PIECE: usize = 4_096;

/// How often is written in a round at most (own rule).
const ROUND: usize = 16;

/// The token of the listening socket.
const LISTENER: usize = 2;

/// The first token of those who ask.
const FIRST: usize = 3;

/// One who asks.
#[derive(Drop)]
struct Visit {
    stream: TcpStream,
    client: Client,
    seen: Seen,
    readable: bool,
    writable: bool,
}

/// Whether a call is to be tried again when the socket is ready, at once, or never.
#[derive(Clone, Copy, PartialEq, Eq)]
enum Again {
    Later,
    Now,
    Never,
}

/// What a failed call says.
fn again_by(kind: ErrorKind) -> Again {
    match kind {
        ErrorKind::WouldBlock => Again::Later,
        ErrorKind::Interrupted => Again::Now,
        _ => Again::Never,
    }
}

impl Visit {
    /// Bytes came. Whether it may go on.
    fn hear<A: App>(&mut self, app: &mut A, bytes: &[u8], now: u64) -> bool {
        let Ok(asked) = self.client.hear(bytes) else {
            return false;
        };
        if self.client.stage() == Stage::Asked {
            app.show(asked, &mut self.client, &mut self.seen, now);
        }
        self.client.stage() != Stage::Asked
    }

    /// Reads once. Whether it may go on: what comes behind a request is dropped, and who sends no more still gets the answer.
    fn read<A: App>(&mut self, app: &mut A, piece: &mut [u8], now: u64) -> bool {
        if !self.readable {
            return true;
        }
        match self.stream.read(&mut *piece) {
            Ok(0) => {
                self.readable = false;
                self.client.stage() == Stage::Ending
            }
            Ok(count) => match piece.get(..count) {
                Some(bytes) => self.hear(app, bytes, now),
                None => false,
            },
            Err(error) => match again_by(error.kind()) {
                Again::Later => {
                    self.readable = false;
                    true
                }
                Again::Now => true,
                Again::Never => false,
            },
        }
    }

    /// Writes once. Whether it may go on.
    fn write(&mut self, now: u64) -> bool {
        let bytes = self.client.unwritten();
        if bytes.is_empty() || !self.writable {
            return true;
        }
        match self.stream.write(bytes) {
            Ok(0) => false,
            Ok(count) => {
                self.client.wrote(count, now);
                true
            }
            Err(error) => match again_by(error.kind()) {
                Again::Later => {
                    self.writable = false;
                    true
                }
                Again::Now => true,
                Again::Never => false,
            },
        }
    }

    /// Writes as far as a round goes. Whether it may go on.
    fn write_all(&mut self, now: u64) -> bool {
        for _ in 0..ROUND {
            if !self.write(now) {
                return false;
            }
        }
        true
    }

    /// When the next event is due.
    fn next_event<A: App>(&self, app: &A) -> Option<u64> {
        self.client.next_event(app.has_news(&self.seen))
    }

    /// Tells an event, if one is due. Whether it may go on.
    fn tell<A: App>(&mut self, app: &mut A, now: u64) -> bool {
        let is_due = self.next_event(app).is_some_and(|due| now >= due);
        if !is_due {
            return true;
        }
        if app.has_news(&self.seen) {
            app.tell(&mut self.client, &mut self.seen, now)
        } else {
            self.client.ping(now).is_ok()
        }
    }

    /// Reads, tells and writes. Whether it may go on.
    fn go_on<A: App>(&mut self, app: &mut A, piece: &mut [u8], now: u64) -> bool {
        self.read(app, piece, now)
            && self.tell(app, now)
            && self.write_all(now)
            && !self.client.is_over(now)
    }

    /// Whether it can go on at once.
    fn is_ready(&self) -> bool {
        self.readable || (self.writable && !self.client.unwritten().is_empty())
    }

    /// When it is to be looked at again at the latest.
    fn due<A: App>(&self, app: &A) -> Option<u64> {
        match (self.client.deadline(), self.next_event(app)) {
            (Some(a), Some(b)) => Some(a.min(b)),
            (a, b) => a.or(b),
        }
    }
}

/// Those who ask, and the socket at which they knock; or none, where there is no page.
#[derive(Drop)]
pub(crate) struct Visitors {
    listener: Option<TcpListener>,
    /// Somebody may wait.
    knocked: bool,
    /// Nobody is accepted before this moment, in milliseconds.
    from: u64,
    /// As many places as may be connected at once.
    visits: Vec<Option<Visit>>,
    piece: Vec<u8>,
}

/// The socket of a page at this port of 127.0.0.1.
fn listener_at<R: Net>(rt: &R, poll: &Poll, port: u16) -> Result<TcpListener, NetworkFault> {
    let address = SocketAddr::new(IpAddr::V4(Ipv4Addr::LOCALHOST), port);
    let Ok(mut listener) = TcpListener::bind(rt, address) else {
        return Err(NetworkFault::Device);
    };
    let registered = poll
        .registry()
        .register(&mut listener, Token(LISTENER), Interest::READABLE);
    match registered {
        Ok(()) => Ok(listener),
        Err(_) => Err(NetworkFault::Device),
    }
}

impl Visitors {
    /// Nobody asks yet. Refused with NoMemory (1), and with Device (96) where the port is taken.
    pub(crate) fn new<R: Net>(
        rt: &R,
        alloc: Global,
        poll: &Poll,
        port: Option<u16>,
    ) -> Result<Visitors, NetworkFault> {
        let mut visits = Vec::new(alloc);
        let mut piece = Vec::new(alloc);
        let listener = match port {
            Some(port) => {
                for _ in 0..MOST {
                    visits.push(None)?;
                }
                piece = Vec::from_elem(alloc, 0, PIECE)?;
                Some(listener_at(rt, poll, port)?)
            }
            None => None,
        };
        Ok(Visitors {
            listener,
            knocked: false,
            from: 0,
            visits,
            piece,
        })
    }

    /// The socket with this token is ready for this.
    pub(crate) fn note(&mut self, token: usize, readable: bool, writable: bool) {
        if token == LISTENER {
            self.knocked = true;
            return;
        }
        let place = token.saturating_sub(FIRST);
        if let Some(Some(visit)) = self.visits.get_mut(place) {
            visit.readable = visit.readable || readable;
            visit.writable = visit.writable || writable;
        }
    }

    /// A place that is free.
    fn free(&self) -> Option<usize> {
        for place in 0..self.visits.len() {
            if matches!(self.visits.get(place), Some(None)) {
                return Some(place);
            }
        }
        None
    }

    /// The next one who waits, if one does.
    fn next(&mut self, now: u64) -> Option<TcpStream> {
        match self.listener.as_ref()?.accept() {
            Ok((stream, _)) => Some(stream),
            Err(error) => {
                match error.kind() {
                    ErrorKind::Interrupted
                    | ErrorKind::ConnectionAborted
                    | ErrorKind::ConnectionReset => {}
                    ErrorKind::WouldBlock => self.knocked = false,
                    _ => self.from = now.saturating_add(REST),
                }
                None
            }
        }
    }

    /// Accepts one who waits, where there is a place.
    fn accept(&mut self, alloc: Global, poll: &Poll, now: u64) {
        let Some(place) = self.free() else {
            return;
        };
        let Some(mut stream) = self.next(now) else {
            return;
        };
        let _ = stream.set_nodelay(true);
        let interest = Interest::READABLE | Interest::WRITABLE;
        let token = Token(FIRST.saturating_add(place));
        if poll
            .registry()
            .register(&mut stream, token, interest)
            .is_err()
        {
            return;
        }
        if let Some(visit) = self.visits.get_mut(place) {
            *visit = Some(Visit {
                stream,
                client: Client::new(alloc, now),
                seen: Seen::new(),
                readable: true,
                writable: true,
            });
        }
    }

    /// Whether somebody may be accepted now.
    fn may_accept(&self, now: u64) -> bool {
        self.knocked && now >= self.from && self.free().is_some()
    }

    /// How long may be waited on their account, in milliseconds; None where for ever.
    pub(crate) fn pause<A: App>(&self, app: &A, now: u64) -> Option<u64> {
        if self.may_accept(now) {
            return Some(0);
        }
        let mut due = u64::MAX;
        if self.knocked && now < self.from {
            due = self.from;
        }
        for visit in &self.visits {
            if let Some(visit) = visit {
                if visit.is_ready() {
                    return Some(0);
                }
                due = due.min(visit.due(app).unwrap_or(u64::MAX));
            }
        }
        if due == u64::MAX {
            None
        } else {
            Some(due.saturating_sub(now))
        }
    }

    /// The visit at a place is over: its socket is closed with it.
    fn forget(&mut self, place: usize) {
        if let Some(visit) = self.visits.get_mut(place) {
            *visit = None;
        }
    }

    /// Goes on with each of those who ask, and closes those who are answered, failed or took too long; then accepts one more.
    pub(crate) fn round<A: App>(&mut self, alloc: Global, poll: &Poll, app: &mut A, now: u64) {
        for place in 0..self.visits.len() {
            let goes_on = match self.visits.get_mut(place) {
                Some(Some(visit)) => visit.go_on(app, self.piece.as_mut_slice(), now),
                _ => true,
            };
            if !goes_on {
                self.forget(place);
            }
        }
        if self.may_accept(now) {
            self.accept(alloc, poll, now);
        }
    }
}
