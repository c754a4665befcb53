//! What the loop asks of a program.

use spk_link::Due;
use spk_page::{Asked, Client};
use std::net::SocketAddr;

/// What the loop tells of its connections.
#[derive(Clone, Copy, Debug, PartialEq, Eq)]
pub enum Note {
    /// A connection with this address stands.
    Connected(SocketAddr),
    /// No connection came of a try at this address.
    Failed(SocketAddr),
    /// The name of the broker of this number, from 0, has no address.
    NoAddress(usize),
    /// The connection is over: the broker closed it, it failed, nothing was heard for too long, or its end was asked for.
    Over,
}

/// What a client of a page was told last: up to which revision, and up to which entry.
#[derive(Clone, Copy, Debug, PartialEq, Eq)]
pub struct Seen {
    pub revision: u64,
    pub number: u64,
}

impl Seen {
    /// Nothing.
    pub fn new() -> Seen {
        Seen {
            revision: 0,
            number: 0,
        }
    }
}

/// A program that has connections with brokers, each of which stands or doesn't. They have numbers from 0 on, which is what `at` is. Moments are in
/// milliseconds since 1970, and never fall.
pub trait App {
    /// How many connections it has; it stays so.
    fn connections(&self) -> usize {
        1
    }

    /// What is due of a connection: a try to connect, PINGREQ (which `turn` sends), or its end where nothing is heard on it.
    fn due(&self, at: usize, now: u64) -> Due;

    /// How long nothing is to be done for a connection if nothing happens, in milliseconds; None where it is for ever. While it is tried nobody asks.
    fn pause(&self, at: usize, now: u64) -> Option<u64>;

    /// The same of what is to be done besides.
    fn rest(&self, _now: u64) -> Option<u64> {
        None
    }

    /// A connection stands.
    fn opened(&mut self, at: usize, now: u64);

    /// The connection is over, or none came of a try.
    fn over(&mut self, at: usize, now: u64);

    /// Whether bytes of the connection are to be read.
    fn may_read(&self, at: usize) -> bool;

    /// These bytes were read of it.
    fn read(&mut self, at: usize, piece: &[u8], now: u64);

    /// Whether standard input is to be read.
    fn takes_input(&self) -> bool;

    /// These bytes of standard input were read.
    fn input(&mut self, piece: &[u8], now: u64);

    /// Standard input is over.
    fn input_over(&mut self, now: u64);

    /// What is to be done in each round, behind what was read.
    fn turn(&mut self, now: u64);

    /// The bytes that are to be written to a connection.
    fn unwritten(&self, at: usize) -> &[u8];

    /// So many of them were written, at least one.
    fn wrote(&mut self, at: usize, count: usize, now: u64);

    /// Whether the connection is to be closed, once nothing is to be written.
    fn is_closing(&self, at: usize) -> bool;

    /// Whether the program is over, once there is no connection.
    fn is_done(&self) -> bool;

    /// The loop tells this of a connection.
    fn note(&mut self, at: usize, note: &Note);

    /// The port of 127.0.0.1 on which the program has a page; None where it has none.
    fn page_port(&self) -> Option<u16> {
        None
    }

    /// Answers what a client of the page asks for. One that isn't answered is shut.
    fn show(&mut self, _asked: Asked, _client: &mut Client, _seen: &mut Seen, _now: u64) {}

    /// Whether there is something that a client of the page wasn't told.
    fn has_news(&self, _seen: &Seen) -> bool {
        false
    }

    /// Tells a client of the page what it wasn't told. Whether it may go on.
    fn tell(&mut self, _client: &mut Client, _seen: &mut Seen, _now: u64) -> bool {
        false
    }
}
