//! A client of the server's own, which ends a kept session: it connects as its client with clean session 1 (section 3.1.2.4), and leaves.

use crate::port::Port;
use spk_packets::{Packet, encode};
use std::alloc::{AllocError, Global};
use std::io;

/// A client of the server's own: what it has to say, and how much of it was read.
#[derive(Drop)]
pub struct Farewell {
    bytes: Vec<u8>,
    given: usize,
}

impl Farewell {
    /// It ends the session of this client. Refused where memory was, or where no CONNECT has that client identifier.
    pub fn new(alloc: Global, client: &str) -> Result<Farewell, AllocError> {
        let connect = Packet::Connect {
            client: String::from_str(alloc, client)?,
            clean: true,
            keep: 0,
            will: None,
        };
        let Ok(mut bytes) = encode(alloc, &connect) else {
            return Err(AllocError);
        };
        let Ok(leave) = encode(alloc, &Packet::Disconnect) else {
            return Err(AllocError);
        };
        bytes.extend_from_slice(&leave)?;
        Ok(Farewell { bytes, given: 0 })
    }
}

impl Port for Farewell {
    fn take(&mut self, piece: &mut [u8]) -> io::Result<usize> {
        let left = self.bytes.get(self.given..).unwrap_or(&[]);
        let count = left.len().min(piece.len());
        for (slot, byte) in piece.iter_mut().zip(left.iter()) {
            *slot = *byte;
        }
        self.given = self.given.saturating_add(count);
        Ok(count)
    }

    fn put(&mut self, bytes: &[u8]) -> io::Result<usize> {
        Ok(bytes.len())
    }

    fn shut(&mut self) {}
}
