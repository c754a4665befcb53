//! The socket of a connection, or of a try.

use crate::app::{App, Note};
use crate::port::Port;
use std::io::ErrorKind;
use std::net::SocketAddr;

/// How long a try takes at most, in milliseconds (own rule).
pub(crate) const TRY: u64 = 3_000;

/// How long an end may take, in milliseconds (own rule): what is to be written, and then the peer's own end.
const LAST: u64 = 5_000;

/// How often is read, and written, in a round at most (own rule).
const ROUND: usize = 16;

/// How far a socket is.
#[derive(Clone, Copy, Debug, PartialEq, Eq)]
enum Stage {
    /// A connection is tried, until this moment at most.
    Trying(u64),
    /// A connection stands.
    On,
    /// It is to be closed once nothing is to be written, and at this moment at the latest.
    Closing(u64),
    /// All is written, and the peer was told so. What it sends is passed over until it ends the connection, and until this moment at the latest: a socket
    /// that is closed while bytes lie unread resets its connection, and the peer may lose what it hadn't read.
    Finished(u64),
}

/// A socket, and what it is ready for.
#[derive(Drop)]
struct Socket<P: Port> {
    port: P,
    address: SocketAddr,
    stage: Stage,
    readable: bool,
    writable: bool,
}

/// The socket of a connection, or of a try, or none.
#[derive(Drop)]
pub struct Wire<P: Port> {
    /// The connection's number.
    at: usize,
    socket: Option<Socket<P>>,
}

/// What a read or a write came to.
#[derive(Clone, Copy, Debug, PartialEq, Eq)]
enum Went {
    /// So many bytes.
    Some(usize),
    /// None now.
    Nothing,
    /// The connection is over.
    Over,
}

impl<P: Port> Socket<P> {
    /// Reads once.
    fn read(&mut self, piece: &mut [u8]) -> Went {
        match self.port.take(piece) {
            Ok(0) => Went::Over,
            Ok(count) => Went::Some(count),
            Err(error) => match error.kind() {
                ErrorKind::WouldBlock => {
                    self.readable = false;
                    Went::Nothing
                }
                ErrorKind::Interrupted => Went::Nothing,
                _ => Went::Over,
            },
        }
    }

    /// Writes once.
    fn write(&mut self, bytes: &[u8]) -> Went {
        match self.port.put(bytes) {
            Ok(count) => Went::Some(count),
            Err(error) => match error.kind() {
                ErrorKind::WouldBlock => {
                    self.writable = false;
                    Went::Nothing
                }
                ErrorKind::Interrupted => Went::Nothing,
                _ => Went::Over,
            },
        }
    }
}

impl<P: Port> Wire<P> {
    /// No socket of the connection of this number.
    pub fn new(at: usize) -> Wire<P> {
        Wire { at, socket: None }
    }

    /// Whether there is no socket.
    pub fn is_off(&self) -> bool {
        self.socket.is_none()
    }

    /// Whether a connection is tried.
    pub fn is_trying(&self) -> bool {
        matches!(&self.socket, Some(socket) if matches!(socket.stage, Stage::Trying(_)))
    }

    /// A try begins.
    pub fn begin(&mut self, port: P, address: SocketAddr, now: u64) {
        self.socket = Some(Socket {
            port,
            address,
            stage: Stage::Trying(now.saturating_add(TRY)),
            readable: false,
            writable: false,
        });
    }

    /// It may be ready for this.
    pub fn note(&mut self, readable: bool, writable: bool) {
        if let Some(socket) = &mut self.socket {
            socket.readable = socket.readable || readable;
            socket.writable = socket.writable || writable;
        }
    }

    /// There is no socket any more.
    fn end<A: App>(&mut self, app: &mut A, now: u64, note: &Note) {
        if let Some(mut socket) = self.socket.take() {
            socket.port.shut();
        }
        app.over(self.at, now);
        app.note(self.at, note);
    }

    /// Whether a try failed: it came to nothing, or takes too long. A try of which a connection came is one.
    pub fn settle<A: App>(&mut self, app: &mut A, now: u64) -> bool {
        let at = self.at;
        let Some(socket) = &mut self.socket else {
            return false;
        };
        let Stage::Trying(until) = socket.stage else {
            return false;
        };
        if socket.writable && socket.port.stands() {
            socket.stage = Stage::On;
            let note = Note::Connected(socket.address);
            app.opened(at, now);
            app.note(at, &note);
            return false;
        }
        socket.writable || socket.readable || now >= until
    }

    /// A try failed.
    pub fn fail(&mut self) -> Option<SocketAddr> {
        let mut socket = self.socket.take()?;
        socket.port.shut();
        Some(socket.address)
    }

    /// Reads once. Whether more may be read in this round.
    fn read_once<A: App>(&mut self, app: &mut A, piece: &mut [u8], now: u64) -> bool {
        let at = self.at;
        let Some(socket) = &mut self.socket else {
            return false;
        };
        let may_read = match socket.stage {
            Stage::Trying(_) => false,
            Stage::On | Stage::Closing(_) => app.may_read(at),
            Stage::Finished(_) => true,
        };
        if !socket.readable || !may_read {
            return false;
        }
        let is_heard = !matches!(socket.stage, Stage::Finished(_));
        match socket.read(piece) {
            Went::Some(count) => {
                if is_heard && let Some(bytes) = piece.get(..count) {
                    app.read(at, bytes, now);
                }
                true
            }
            Went::Nothing => true,
            Went::Over => {
                self.end(app, now, &Note::Over);
                false
            }
        }
    }

    /// Reads what came, as far as a round goes.
    pub fn read<A: App>(&mut self, app: &mut A, piece: &mut [u8], now: u64) {
        for _ in 0..ROUND {
            if !self.read_once(app, piece, now) {
                break;
            }
        }
    }

    /// Writes once. Whether more may be written in this round.
    fn write_once<A: App>(&mut self, app: &mut A, now: u64) -> bool {
        let at = self.at;
        let Some(socket) = &mut self.socket else {
            return false;
        };
        if matches!(socket.stage, Stage::Trying(_) | Stage::Finished(_)) || !socket.writable {
            return false;
        }
        let bytes = app.unwritten(at);
        if bytes.is_empty() {
            return false;
        }
        match socket.write(bytes) {
            Went::Some(count) => {
                if count > 0 {
                    app.wrote(at, count, now);
                }
                true
            }
            Went::Nothing => true,
            Went::Over => {
                self.end(app, now, &Note::Over);
                false
            }
        }
    }

    /// Writes what is to be written, as far as a round goes.
    pub fn write<A: App>(&mut self, app: &mut A, now: u64) {
        for _ in 0..ROUND {
            if !self.write_once(app, now) {
                break;
            }
        }
    }

    /// Closes the connection where nothing is heard, or where its end was asked for and has come, or is past its time. Once all is written behind which an
    /// end was asked for, the peer is told that nothing follows, and its own end is waited for.
    pub fn close<A: App>(&mut self, app: &mut A, silent: bool, now: u64) {
        let at = self.at;
        let Some(socket) = &mut self.socket else {
            return;
        };
        if matches!(socket.stage, Stage::Trying(_)) {
            return;
        }
        if socket.stage == Stage::On && app.is_closing(at) {
            socket.stage = Stage::Closing(now.saturating_add(LAST));
        }
        if let Stage::Closing(until) = socket.stage
            && app.unwritten(at).is_empty()
        {
            socket.port.finish();
            socket.stage = Stage::Finished(until);
        }
        let is_late = match socket.stage {
            Stage::Closing(until) | Stage::Finished(until) => now >= until,
            _ => false,
        };
        if silent || is_late {
            self.end(app, now, &Note::Over);
        }
    }

    /// Whether a round is to follow at once.
    pub fn goes_on<A: App>(&self, app: &A) -> bool {
        let Some(socket) = &self.socket else {
            return false;
        };
        let is_written = app.unwritten(self.at).is_empty();
        let may_go_on = (socket.readable && app.may_read(self.at))
            || (socket.writable && !is_written)
            || (app.is_closing(self.at) && is_written);
        match socket.stage {
            Stage::Trying(_) => false,
            Stage::On | Stage::Closing(_) => may_go_on,
            Stage::Finished(_) => socket.readable,
        }
    }

    /// When a round is to begin at the latest on its account.
    pub fn until(&self) -> Option<u64> {
        match self.socket.as_ref()?.stage {
            Stage::Trying(until) | Stage::Closing(until) | Stage::Finished(until) => Some(until),
            Stage::On => None,
        }
    }
}
