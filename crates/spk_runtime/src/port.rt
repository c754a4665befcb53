//! What the loop asks of a client's socket.

use mio::net::TcpStream;
use spk_quota::Quotas;
use spk_server::Conn;
use std::io;
use std::io::{Read, Write};
use std::net::Shutdown;

/// A client's socket: reads and writes answer `WouldBlock` where they would wait.
pub trait Port: Drop {
    /// Reads some bytes; 0 at the end.
    fn take(&mut self, piece: &mut [u8]) -> io::Result<usize>;

    /// Reads as `take` does, for the connection of this number; behind a door only what stays within what its user may hold.
    fn take_within(
        &mut self,
        piece: &mut [u8],
        _conn: Conn,
        _quotas: &mut Quotas,
    ) -> io::Result<usize> {
        self.take(piece)
    }

    /// Writes some of these bytes.
    fn put(&mut self, bytes: &[u8]) -> io::Result<usize>;

    /// Whether more may be taken at once, though the last piece wasn't a full one.
    fn may_take(&self) -> bool {
        false
    }

    /// Whether bytes wait here that were taken in by `put`, or come of nobody else.
    fn waits(&self) -> bool {
        false
    }

    /// Writes them, as far as it goes; `WouldBlock` where some are left.
    fn flush(&mut self) -> io::Result<()> {
        Ok(())
    }

    /// Whether a door ended it.
    fn is_barred(&self) -> bool {
        false
    }

    /// Whether what it sends next may be a password, which takes a while to try.
    fn may_log_in(&self) -> bool {
        false
    }

    /// Its door ends it: nothing more of it is taken.
    fn bar(&mut self) {}

    /// The connection of this number is over, at this moment: what it held alone its user doesn't hold any more.
    fn leave(&mut self, _conn: Conn, _now: u64, _quotas: &mut Quotas) {}

    /// Reading and writing are over.
    fn shut(&mut self);
}

impl Port for TcpStream {
    fn take(&mut self, piece: &mut [u8]) -> io::Result<usize> {
        self.read(piece)
    }

    fn put(&mut self, bytes: &[u8]) -> io::Result<usize> {
        self.write(bytes)
    }

    fn shut(&mut self) {
        let _ = self.shutdown(Shutdown::Both);
    }
}
