//! The listening socket: who comes is accepted, while there is room.

use crate::client::Client;
use crate::page::FIRST;
use crate::rounds::Rounds;
use mio::net::{TcpListener, TcpStream};
use mio::{Interest, Poll, Token};
use spk_door::Door;
use spk_server::{Conn, ServerFault};
use std::alloc::Global;
use std::io;
use std::io::ErrorKind;

/// How many are accepted in a round (own rule).
const ROUND: usize = 64;

/// How long nobody is accepted after accepting failed, in milliseconds (own rule).
const REST: u64 = 1_000;

/// The listening socket, and the door behind which those are who come, if there is one.
#[derive(Drop)]
pub(crate) struct Doors<'a> {
    alloc: Global,
    pub(crate) listener: TcpListener,
    door: Option<&'a Door>,
    /// Somebody may wait.
    pub(crate) knocked: bool,
    /// How many may come yet; none where as many as like.
    pub(crate) left: Option<u32>,
    /// How many came.
    pub(crate) served: u32,
    /// Accepting failed, and no more come.
    pub(crate) failed: bool,
    /// Nobody is accepted before this moment, in milliseconds.
    pub(crate) from: u64,
}

/// Whether an error of `accept` is of one client alone.
fn is_passing(error: &io::Error) -> bool {
    matches!(
        error.kind(),
        ErrorKind::Interrupted | ErrorKind::ConnectionAborted | ErrorKind::ConnectionReset
    )
}

impl<'a> Doors<'a> {
    pub(crate) fn new(
        alloc: Global,
        listener: TcpListener,
        door: Option<&'a Door>,
        left: Option<u32>,
    ) -> Doors<'a> {
        Doors {
            alloc,
            listener,
            door,
            knocked: false,
            left,
            served: 0,
            failed: false,
            from: 0,
        }
    }

    /// Whether no more come.
    pub(crate) fn are_closed(&self) -> bool {
        self.failed || self.left == Some(0)
    }

    /// The next client, if one waits.
    fn next(&mut self, now: u64) -> Option<TcpStream> {
        for _ in 0..ROUND {
            match self.listener.accept() {
                Ok((stream, _)) => return Some(stream),
                Err(error) if is_passing(&error) => {}
                Err(error) if error.kind() == ErrorKind::WouldBlock => {
                    self.knocked = false;
                    return None;
                }
                Err(_) => {
                    self.failed = self.left.is_some();
                    self.from = now.saturating_add(REST);
                    return None;
                }
            }
        }
        None
    }

    /// One more came.
    fn count(&mut self) {
        self.served = self.served.saturating_add(1);
        if let Some(left) = &mut self.left {
            *left = left.saturating_sub(1);
        }
    }

    /// Whether somebody may be accepted now.
    pub(crate) fn may_accept(&self, rounds: &Rounds<Client<'a>>, now: u64) -> bool {
        self.knocked && !self.are_closed() && now >= self.from && !rounds.server.is_full()
    }

    /// Accepts who waits, while there is room. One for whom there is no memory is refused.
    pub(crate) fn accept(
        &mut self,
        rounds: &mut Rounds<Client<'a>>,
        poll: &Poll,
        now: u64,
    ) -> Result<(), ServerFault> {
        for _ in 0..ROUND {
            if !self.may_accept(rounds, now) {
                break;
            }
            let Some(stream) = self.next(now) else {
                break;
            };
            self.count();
            self.admit(rounds, poll, stream, now)?;
        }
        Ok(())
    }

    /// A client's socket is registered under the number of its connection, and kept.
    fn keep(
        &self,
        rounds: &mut Rounds<Client<'a>>,
        poll: &Poll,
        mut stream: TcpStream,
        conn: Conn,
    ) -> bool {
        let token = match usize::try_from(conn) {
            Ok(token) if token < FIRST => token,
            _ => return false,
        };
        let interest = Interest::READABLE | Interest::WRITABLE;
        let registered = poll
            .registry()
            .register(&mut stream, Token(token), interest);
        registered.is_ok()
            && rounds
                .seat(conn, Client::new(self.alloc, stream, self.door))
                .is_ok()
    }

    /// A client came.
    fn admit(
        &self,
        rounds: &mut Rounds<Client<'a>>,
        poll: &Poll,
        stream: TcpStream,
        now: u64,
    ) -> Result<(), ServerFault> {
        let _ = stream.set_nodelay(true);
        if rounds.reserve().is_err() {
            return Ok(());
        }
        let Ok(conn) = rounds.server.accepted(now) else {
            return Ok(());
        };
        if !self.keep(rounds, poll, stream, conn) {
            rounds.turn_away(conn, now)?;
        }
        Ok(())
    }
}
