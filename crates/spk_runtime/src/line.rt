//! One client's socket, and what it is ready for.

use crate::port::Port;
use spk_quota::Quotas;
use spk_server::Conn;
use std::io;
use std::io::ErrorKind;

/// One client's socket.
#[derive(Drop)]
pub(crate) struct Line<P: Port> {
    pub(crate) port: P,
    /// A write may be tried.
    pub(crate) writable: bool,
    /// It is among those that took nothing at their last write.
    pub(crate) blocked: bool,
    /// It is among those that are to be read.
    pub(crate) ready: bool,
    /// The client sends no more: what it sent is read to its end.
    pub(crate) closing: bool,
    /// In which turn it was read last.
    pub(crate) heard: u64,
}

/// What a read gave.
#[derive(Clone, Copy, Debug, PartialEq, Eq)]
pub(crate) enum Read {
    /// So many bytes.
    Some(usize),
    /// Nothing now.
    Nothing,
    /// The client sends no more.
    End,
    /// The socket failed.
    Failed,
}

/// What a write gave.
#[derive(Clone, Copy, Debug, PartialEq, Eq)]
pub(crate) enum Written {
    /// So many bytes.
    Some(usize),
    /// Nothing now.
    Nothing,
    /// The socket failed.
    Failed,
}

impl<P: Port> Line<P> {
    pub(crate) fn new(port: P) -> Line<P> {
        Line {
            port,
            writable: true,
            blocked: false,
            ready: false,
            closing: false,
            heard: 0,
        }
    }

    /// What came of a read of at most so many bytes. It is to be read again where there may be more.
    fn came(&mut self, answer: io::Result<usize>, most: usize) -> Read {
        match answer {
            Ok(0) => {
                self.ready = false;
                Read::End
            }
            Ok(count) => {
                self.ready = self.closing || count >= most || self.port.may_take();
                Read::Some(count)
            }
            Err(error) => match error.kind() {
                ErrorKind::WouldBlock => {
                    self.ready = false;
                    Read::Nothing
                }
                ErrorKind::Interrupted => Read::Nothing,
                _ => {
                    self.ready = false;
                    Read::Failed
                }
            },
        }
    }

    /// Reads once.
    pub(crate) fn read(&mut self, piece: &mut [u8]) -> Read {
        let most = piece.len();
        let answer = self.port.take(piece);
        self.came(answer, most)
    }

    /// Reads once of the connection of this number, as far as its user may hold what it asks for.
    pub(crate) fn read_within(
        &mut self,
        piece: &mut [u8],
        conn: Conn,
        quotas: &mut Quotas,
    ) -> Read {
        let most = piece.len();
        let answer = self.port.take_within(piece, conn, quotas);
        self.came(answer, most)
    }

    /// What came of a write that failed.
    fn failed(&mut self, kind: ErrorKind) -> Written {
        match kind {
            ErrorKind::WouldBlock => {
                self.writable = false;
                Written::Nothing
            }
            ErrorKind::Interrupted => Written::Some(0),
            _ => {
                self.writable = false;
                Written::Failed
            }
        }
    }

    /// Writes once.
    pub(crate) fn write(&mut self, bytes: &[u8]) -> Written {
        match self.port.put(bytes) {
            Ok(count) => Written::Some(count),
            Err(error) => self.failed(error.kind()),
        }
    }

    /// Writes what waits at the socket itself. None where nothing is left there.
    pub(crate) fn flush(&mut self) -> Option<Written> {
        if !self.port.waits() {
            return None;
        }
        match self.port.flush() {
            Ok(()) => None,
            Err(error) => Some(self.failed(error.kind())),
        }
    }
}
