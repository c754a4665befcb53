//! A program's connection with the broker, as the loop over TCP has it, with bytes in place of a socket.

use crate::serves::Serves;
use spk_link::Due;
use spk_network::App;
use spk_server::Conn;
use std::alloc::Global;

/// A connection, or none.
#[derive(Drop)]
pub(crate) struct Seat {
    /// The program's number of it.
    pub(crate) at: usize,
    /// The broker's number of it.
    pub(crate) conn: Option<Conn>,
    /// What the broker wrote.
    pub(crate) pipe: Vec<u8>,
    /// How many bytes of it the program read.
    read: usize,
    /// The broker closed it.
    pub(crate) is_shut: bool,
    /// The next connection is turned away.
    pub(crate) is_denied: bool,
}

/// CONNACK with the code 5, not authorized (MQTT 3.1.1, section 3.2.2.3).
const DENIED: [u8; 4] = [32, 2, 0, 5];

impl Seat {
    pub(crate) fn new(alloc: Global, at: usize) -> Seat {
        Seat {
            at,
            conn: None,
            pipe: Vec::new(alloc),
            read: 0,
            is_shut: false,
            is_denied: false,
        }
    }

    /// There is no connection any more.
    pub(crate) fn leave(&mut self) {
        self.conn = None;
        self.pipe.clear();
        self.read = 0;
        self.is_shut = false;
    }

    /// The program reads a piece, and is told the end behind the last one.
    fn read<A: App>(&mut self, app: &mut A, most: usize, now: u64) -> bool {
        let rest = self.pipe.get(self.read..).unwrap_or(&[]);
        if rest.is_empty() {
            if self.is_shut {
                self.leave();
                app.over(self.at, now);
                return true;
            }
            return false;
        }
        if !app.may_read(self.at) {
            return false;
        }
        let piece = rest.get(..most).unwrap_or(rest);
        app.read(self.at, piece, now);
        self.read = self.read.saturating_add(piece.len());
        true
    }

    /// A piece of what the program lends goes to the broker.
    fn write<A: App, S: Serves>(
        &mut self,
        app: &mut A,
        conn: Conn,
        server: &mut S,
        most: usize,
        now: u64,
    ) -> Option<bool> {
        let rest = app.unwritten(self.at);
        let piece = rest.get(..most).unwrap_or(rest);
        let count = piece.len();
        if count == 0 || self.is_shut || server.is_held(conn) {
            return Some(false);
        }
        server.read(conn, piece, now)?;
        app.wrote(self.at, count, now);
        Some(true)
    }

    /// The program's end of the connection, where it asks for it.
    fn close<A: App, S: Serves>(
        &mut self,
        app: &mut A,
        conn: Conn,
        server: &mut S,
        now: u64,
    ) -> Option<bool> {
        let is_written = app.unwritten(self.at).is_empty();
        if !(app.is_closing(self.at) && is_written) && app.due(self.at, now) != Due::End {
            return Some(false);
        }
        server.gone(conn, now)?;
        self.leave();
        app.over(self.at, now);
        Some(true)
    }

    /// The connection is turned away in the broker's place, which hears nothing of it.
    fn deny<S: Serves>(&mut self, conn: Conn, server: &mut S, now: u64) -> Option<()> {
        server.gone(conn, now)?;
        self.is_denied = false;
        self.is_shut = true;
        self.pipe.extend_from_slice(&DENIED).ok()
    }

    /// A program without a connection tries to connect where a try is due.
    fn connect<A: App, S: Serves>(
        &mut self,
        app: &mut A,
        server: &mut S,
        now: u64,
    ) -> Option<bool> {
        app.turn(now);
        if app.is_done() || app.due(self.at, now) != Due::Connect {
            return Some(false);
        }
        let conn = server.accepted(now)?;
        self.conn = Some(conn);
        app.opened(self.at, now);
        if self.is_denied {
            self.deny(conn, server, now)?;
        }
        Some(true)
    }

    /// A round of the loop: whether something moved. None where the broker refused a call.
    pub(crate) fn round<A: App, S: Serves>(
        &mut self,
        app: &mut A,
        server: &mut S,
        most: usize,
        now: u64,
    ) -> Option<bool> {
        let Some(conn) = self.conn else {
            return self.connect(app, server, now);
        };
        let has_read = self.read(app, most, now);
        app.turn(now);
        if self.conn.is_none() {
            return Some(true);
        }
        let has_written = self.write(app, conn, server, most, now)?;
        let has_closed = self.close(app, conn, server, now)?;
        Some(has_read || has_written || has_closed)
    }
}

/// Seats for all connections of a program.
pub(crate) fn seats_of<A: App>(alloc: Global, app: &A) -> Option<Vec<Seat>> {
    let mut seats = Vec::new(alloc);
    for at in 0..app.connections() {
        seats.push(Seat::new(alloc, at)).ok()?;
    }
    Some(seats)
}

/// A round of the loop at each seat: whether something moved. None where the broker refused a call.
pub(crate) fn round_at<A: App, S: Serves>(
    seats: &mut [Seat],
    app: &mut A,
    server: &mut S,
    most: usize,
    now: u64,
) -> Option<bool> {
    let mut has_moved = false;
    for seat in seats {
        let moves = seat.round(app, server, most, now)?;
        has_moved = has_moved || moves;
    }
    Some(has_moved)
}

/// A round in which each try to connect fails, where one is due.
pub(crate) fn refused<A: App>(app: &mut A, now: u64) -> bool {
    app.turn(now);
    let mut has_tried = false;
    for at in 0..app.connections() {
        if !app.is_done() && app.due(at, now) == Due::Connect {
            app.over(at, now);
            has_tried = true;
        }
    }
    has_tried
}
