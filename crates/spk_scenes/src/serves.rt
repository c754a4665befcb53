//! What the broker of `serve` does for those who are connected with it.

use spk_server::{Conn, Server};
use std::alloc::Global;

/// A broker. Where it refuses a call, which it does for want of memory alone, the answer is None.
pub(crate) trait Serves {
    /// One that nobody is connected with.
    fn fresh(alloc: Global) -> Self;

    /// Somebody connects.
    fn accepted(&mut self, now: u64) -> Option<Conn>;

    /// Bytes come.
    fn read(&mut self, conn: Conn, piece: &[u8], now: u64) -> Option<()>;

    /// Whether somebody isn't read for now.
    fn is_held(&self, conn: Conn) -> bool;

    /// Somebody is gone.
    fn gone(&mut self, conn: Conn, now: u64) -> Option<()>;

    /// Who is to be written to.
    fn next_to_write(&mut self) -> Option<Conn>;

    /// What is to be written to somebody, behind these bytes.
    fn gather(&mut self, conn: Conn, batch: &mut Vec<u8>);

    /// So many bytes were written.
    fn wrote(&mut self, conn: Conn, count: usize) -> Option<()>;

    /// Whose connection is to be closed.
    fn next_to_shut(&mut self) -> Option<Conn>;

    /// Those who waited are looked at.
    fn go_on(&mut self, now: u64) -> Option<()>;

    /// A moment comes.
    fn moment(&mut self, now: u64) -> Option<()>;
}

impl Serves for Server {
    fn fresh(alloc: Global) -> Server {
        Server::new(alloc)
    }

    fn accepted(&mut self, now: u64) -> Option<Conn> {
        Server::accepted(self, now).ok()
    }

    fn read(&mut self, conn: Conn, piece: &[u8], now: u64) -> Option<()> {
        Server::read(self, conn, piece, now).ok()
    }

    fn is_held(&self, conn: Conn) -> bool {
        Server::is_held(self, conn)
    }

    fn gone(&mut self, conn: Conn, now: u64) -> Option<()> {
        Server::gone(self, conn, now).ok()
    }

    fn next_to_write(&mut self) -> Option<Conn> {
        Server::next_to_write(self)
    }

    fn gather(&mut self, conn: Conn, batch: &mut Vec<u8>) {
        Server::gather(self, conn, batch);
    }

    fn wrote(&mut self, conn: Conn, count: usize) -> Option<()> {
        Server::wrote(self, conn, count).ok()
    }

    fn next_to_shut(&mut self) -> Option<Conn> {
        let (conn, _) = Server::next_to_shut(self)?;
        Some(conn)
    }

    fn go_on(&mut self, now: u64) -> Option<()> {
        Server::go_on(self, now).ok()
    }

    fn moment(&mut self, now: u64) -> Option<()> {
        let _ = Server::moment(self, now).ok()?;
        Some(())
    }
}
