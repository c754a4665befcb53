//! A connection of a program: its socket, and the brokers that it is tried with.

use crate::app::{App, Note};
use crate::brokers::Brokers;
use crate::wire::Wire;
use mio::net::TcpStream;
use mio::{Interest, Poll, Token};
use spk_link::Due;
use std::alloc::Global;
use std::net::{Net, SocketAddr};

/// The first token of the connections, each of which has its number more: standard input has 1, and those who ask for a page have those from 2 to 66.
pub(crate) const FIRST: usize = 128;

/// A connection of a program, or none.
#[derive(Drop)]
pub(crate) struct Connection<'a> {
    at: usize,
    brokers: Brokers<'a>,
    pub(crate) wire: Wire<TcpStream>,
}

/// A try at an address, under this token. None where it failed at once.
fn begun<R: Net>(rt: &R, poll: &Poll, token: usize, address: SocketAddr) -> Option<TcpStream> {
    let mut stream = TcpStream::connect(rt, address).ok()?;
    let _ = stream.set_nodelay(true);
    let interest = Interest::READABLE | Interest::WRITABLE;
    poll.registry()
        .register(&mut stream, Token(token), interest)
        .ok()?;
    Some(stream)
}

/// The shorter of two pauses, where None is for ever.
pub(crate) fn shorter(one: Option<u64>, other: Option<u64>) -> Option<u64> {
    match (one, other) {
        (Some(one), Some(other)) => Some(one.min(other)),
        (one, other) => one.or(other),
    }
}

impl<'a> Connection<'a> {
    /// The connection of this number, which doesn't stand yet.
    pub(crate) fn new(alloc: Global, at: usize, names: &'a [String]) -> Connection<'a> {
        Connection {
            at,
            brokers: Brokers::new(alloc, names),
            wire: Wire::new(at),
        }
    }

    /// Tries the next address of the broker looked up last. Where there is none that can be tried the program is told that nothing came of it.
    fn try_next<R: Net, A: App>(&mut self, rt: &R, poll: &Poll, app: &mut A, now: u64) {
        for _ in 0..u64::MAX {
            let Some(address) = self.brokers.next() else {
                break;
            };
            if let Some(stream) = begun(rt, poll, FIRST.saturating_add(self.at), address) {
                self.wire.begin(stream, address, now);
                return;
            }
            app.note(self.at, &Note::Failed(address));
        }
        app.over(self.at, now);
    }

    /// A connection is due: the next broker is looked up and tried.
    fn connect<R: Net, A: App>(&mut self, rt: &R, poll: &Poll, app: &mut A, now: u64) {
        let number = self.brokers.look_up(rt);
        if self.brokers.is_empty() {
            app.note(self.at, &Note::NoAddress(number));
        }
        self.try_next(rt, poll, app, now);
    }

    /// What became of a try.
    pub(crate) fn settle<R: Net, A: App>(&mut self, rt: &R, poll: &Poll, app: &mut A, now: u64) {
        if !self.wire.settle(app, now) {
            return;
        }
        if let Some(address) = self.wire.fail() {
            app.note(self.at, &Note::Failed(address));
        }
        self.try_next(rt, poll, app, now);
    }

    /// Ends it where that is due, and tries one where that is.
    pub(crate) fn turn<R: Net, A: App>(&mut self, rt: &R, poll: &Poll, app: &mut A, now: u64) {
        let is_silent = app.due(self.at, now) == Due::End;
        self.wire.close(app, is_silent, now);
        if self.wire.is_off() && app.due(self.at, now) == Due::Connect {
            self.connect(rt, poll, app, now);
        }
    }

    /// How long may be waited on its account, in milliseconds. None where nothing is due.
    pub(crate) fn pause<A: App>(&self, app: &A, now: u64) -> Option<u64> {
        if self.wire.goes_on(app) {
            return Some(0);
        }
        let own = self.wire.until().map(|until| until.saturating_sub(now));
        if self.wire.is_trying() {
            return own;
        }
        shorter(own, app.pause(self.at, now))
    }
}
