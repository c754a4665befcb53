//! The loop.

use crate::app::App;
use crate::clockwork::Clockwork;
use crate::connection::{Connection, FIRST, shorter};
use crate::door::{Door, INPUT};
use crate::fault::NetworkFault;
use crate::visitors::Visitors;
use mio::{Events, Poll, Token};
use std::alloc::{AllocError, Global};
use std::io::Read;
use std::net::Net;
use std::sync::Wait;
use std::time::{Clock, Duration};

/// How many events are asked for at once.
const EVENTS: usize = 16;

/// How many bytes are read at once (own rule).
const PIECE: usize = 65_536;

/// The connections of a program, none of which stands yet.
fn connections_of<'a, A: App>(
    alloc: Global,
    names: &'a [String],
    app: &A,
) -> Result<Vec<Connection<'a>>, AllocError> {
    let mut all = Vec::new(alloc);
    for at in 0..app.connections() {
        all.push(Connection::new(alloc, at, names))?;
    }
    Ok(all)
}

/// Whether none of them stands or is tried.
fn are_off(connections: &[Connection<'_>]) -> bool {
    for connection in connections {
        if !connection.wire.is_off() {
            return false;
        }
    }
    true
}

/// How long may be waited. None where nothing is due.
fn timeout<A: App>(
    connections: &[Connection<'_>],
    visitors: &Visitors,
    reads: bool,
    app: &A,
    now: u64,
) -> Option<Duration> {
    if reads {
        return Some(Duration::ZERO);
    }
    let mut pause = shorter(app.rest(now), visitors.pause(app, now));
    for connection in connections {
        pause = shorter(pause, connection.pause(app, now));
    }
    pause.map(Duration::from_millis)
}

/// Notes what is ready.
fn note<I: Read + Drop>(
    events: &Events<Global>,
    connections: &mut [Connection<'_>],
    visitors: &mut Visitors,
    door: &mut Door<I>,
) {
    for event in events.iter() {
        let Token(token) = event.token();
        let over = event.is_read_closed() || event.is_error();
        let readable = event.is_readable() || over;
        let writable = event.is_writable() || over;
        if token == INPUT {
            door.note();
        } else if token < FIRST {
            visitors.note(token, readable, writable);
        } else if let Some(connection) = connections.get_mut(token.saturating_sub(FIRST)) {
            connection.wire.note(readable, writable);
        }
    }
}

/// Runs a program that has connections with one of these brokers, each named HOST:PORT, and reads standard input where it is to.
/// Of a connection the brokers are tried in turn, and of each its addresses in turn, for three seconds each. It ends where the program says that it is done
/// and no connection stands. Where the program has a page, it is served on 127.0.0.1 in the same loop. Refused with NoMemory (1), and with Device (96)
/// where nothing can be waited for or the page's port is taken. No contract says what goes over a socket.
pub fn run_app<R: Wait + Clock + Net, I: Read + Drop, A: App>(
    rt: &R,
    alloc: Global,
    names: &[String],
    input: I,
    reads: bool,
    app: &mut A,
) -> Result<(), NetworkFault> {
    let Ok(mut poll) = Poll::new(rt) else {
        return Err(NetworkFault::Device);
    };
    let mut events = Events::with_capacity(alloc, EVENTS)?;
    let mut piece = Vec::from_elem(alloc, 0, PIECE)?;
    let mut connections = connections_of(alloc, names, app)?;
    let mut door = Door::new(&poll, input, reads);
    let mut visitors = Visitors::new(rt, alloc, &poll, app.page_port())?;
    let mut clockwork = Clockwork::new(rt);
    let mut now = clockwork.now(rt);
    for _ in rt.forever() {
        let is_off = are_off(connections.as_slice());
        if app.is_done() && is_off {
            break;
        }
        let timeout = timeout(
            connections.as_slice(),
            &visitors,
            door.is_ready(app),
            app,
            now,
        );
        if poll.poll(&mut events, timeout).is_err() {
            return Err(NetworkFault::Device);
        }
        if is_off {
            clockwork.follow(rt);
        }
        now = clockwork.now(rt);
        note(
            &events,
            connections.as_mut_slice(),
            &mut visitors,
            &mut door,
        );
        for connection in connections.iter_mut() {
            connection.settle(rt, &poll, app, now);
            connection.wire.read(app, piece.as_mut_slice(), now);
        }
        door.read(&poll, app, piece.as_mut_slice(), now);
        app.turn(now);
        for connection in connections.iter_mut() {
            connection.wire.write(app, now);
        }
        visitors.round(alloc, &poll, app, now);
        for connection in connections.iter_mut() {
            connection.turn(rt, &poll, app, now);
        }
    }
    Ok(())
}
