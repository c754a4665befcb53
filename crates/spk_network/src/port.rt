//! What the loop asks of a socket.

use mio::net::TcpStream;
use std::io;
use std::io::{Read, Write};
use std::net::Shutdown;

/// A socket: reads and writes answer `WouldBlock` where they would wait.
pub trait Port: Drop {
    /// Reads some bytes; 0 at the end.
    fn take(&mut self, piece: &mut [u8]) -> io::Result<usize>;

    /// Writes some of these bytes.
    fn put(&mut self, bytes: &[u8]) -> io::Result<usize>;

    /// Whether a connection came of a try, where it may be written to for the first time.
    fn stands(&mut self) -> bool;

    /// Writing is over: behind what was written the peer reads the end. It may still be read.
    fn finish(&mut self);

    /// Reading and writing are over.
    fn shut(&mut self);
}

impl Port for TcpStream {
    fn take(&mut self, piece: &mut [u8]) -> io::Result<usize> {
        self.read(piece)
    }

    fn put(&mut self, bytes: &[u8]) -> io::Result<usize> {
        self.write(bytes)
    }

    fn stands(&mut self) -> bool {
        match self.take_error() {
            Ok(None) => self.peer_addr().is_ok(),
            _ => false,
        }
    }

    fn finish(&mut self) {
        let _ = self.shutdown(Shutdown::Write);
    }

    fn shut(&mut self) {
        let _ = self.shutdown(Shutdown::Both);
    }
}
