//! A client's socket over TCP, with a door in front of the server or without one; and a client of the server's own.

use crate::farewell::Farewell;
use crate::guarded::Guarded;
use crate::port::Port;
use mio::net::TcpStream;
use spk_door::Door;
use spk_quota::Quotas;
use spk_server::Conn;
use std::alloc::Global;
use std::io;

/// A client's socket over TCP, or a client of the server's own.
#[derive(Drop)]
pub(crate) enum Client<'a> {
    Plain(TcpStream),
    Guarded(Guarded<'a, TcpStream>),
    Own(Farewell),
}

impl<'a> Client<'a> {
    /// The socket of a client who comes to this door, if there is one.
    pub(crate) fn new(alloc: Global, stream: TcpStream, door: Option<&'a Door>) -> Client<'a> {
        match door {
            Some(door) => Client::Guarded(Guarded::new(alloc, stream, door)),
            None => Client::Plain(stream),
        }
    }
}

impl Port for Client<'_> {
    fn take(&mut self, piece: &mut [u8]) -> io::Result<usize> {
        match self {
            Client::Plain(stream) => stream.take(piece),
            Client::Guarded(guarded) => guarded.take(piece),
            Client::Own(own) => own.take(piece),
        }
    }

    fn take_within(
        &mut self,
        piece: &mut [u8],
        conn: Conn,
        quotas: &mut Quotas,
    ) -> io::Result<usize> {
        match self {
            Client::Plain(stream) => stream.take(piece),
            Client::Guarded(guarded) => guarded.take_within(piece, conn, quotas),
            Client::Own(own) => own.take(piece),
        }
    }

    fn put(&mut self, bytes: &[u8]) -> io::Result<usize> {
        match self {
            Client::Plain(stream) => stream.put(bytes),
            Client::Guarded(guarded) => guarded.put(bytes),
            Client::Own(own) => own.put(bytes),
        }
    }

    fn may_take(&self) -> bool {
        match self {
            Client::Plain(_) | Client::Own(_) => false,
            Client::Guarded(guarded) => guarded.may_take(),
        }
    }

    fn waits(&self) -> bool {
        match self {
            Client::Plain(_) | Client::Own(_) => false,
            Client::Guarded(guarded) => guarded.waits(),
        }
    }

    fn flush(&mut self) -> io::Result<()> {
        match self {
            Client::Plain(_) | Client::Own(_) => Ok(()),
            Client::Guarded(guarded) => guarded.flush(),
        }
    }

    fn is_barred(&self) -> bool {
        match self {
            Client::Plain(_) | Client::Own(_) => false,
            Client::Guarded(guarded) => guarded.is_barred(),
        }
    }

    fn may_log_in(&self) -> bool {
        match self {
            Client::Plain(_) | Client::Own(_) => false,
            Client::Guarded(guarded) => guarded.may_log_in(),
        }
    }

    fn bar(&mut self) {
        if let Client::Guarded(guarded) = self {
            guarded.bar();
        }
    }

    fn leave(&mut self, conn: Conn, now: u64, quotas: &mut Quotas) {
        if let Client::Guarded(guarded) = self {
            guarded.leave(conn, now, quotas);
        }
    }

    fn shut(&mut self) {
        match self {
            Client::Plain(stream) => stream.shut(),
            Client::Guarded(guarded) => guarded.shut(),
            Client::Own(own) => own.shut(),
        }
    }
}
