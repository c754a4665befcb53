//! What is asked of a server, and what goes out of it.

use crate::digest::Digest;
use crate::packets::acknowledge;
use crate::random::Random;
use spk_server::{Conn, Server};
use std::alloc::Global;

/// The most packets that go out behind one that came in.
const MOST: u64 = 1_000_000;

/// How many bytes of content there are to choose from.
const CONTENT: usize = 8_192;

/// A server, as the jobs ask of it. None where it refuses.
pub(crate) trait Serves {
    /// A client comes.
    fn come(&mut self, now: u64) -> Option<Conn>;

    /// A client sends bytes.
    fn hear(&mut self, conn: Conn, bytes: &[u8], now: u64) -> Option<()>;

    /// A client's socket is gone.
    fn lose(&mut self, conn: Conn, now: u64) -> Option<()>;

    /// Time passes.
    fn wait(&mut self, now: u64) -> Option<()>;

    /// What is to be written to the next client, if there is one. It is written whole.
    fn write(&mut self, batch: &mut Vec<u8>) -> Option<Option<Conn>>;

    /// The next client whose socket is shut, if there is one.
    fn shut(&mut self) -> Option<Conn>;
}

impl Serves for Server {
    fn come(&mut self, now: u64) -> Option<Conn> {
        self.accepted(now).ok()
    }

    fn hear(&mut self, conn: Conn, bytes: &[u8], now: u64) -> Option<()> {
        self.read(conn, bytes, now).ok()
    }

    fn lose(&mut self, conn: Conn, now: u64) -> Option<()> {
        self.gone(conn, now).ok()
    }

    fn wait(&mut self, now: u64) -> Option<()> {
        self.moment(now).ok()?;
        Some(())
    }

    fn write(&mut self, batch: &mut Vec<u8>) -> Option<Option<Conn>> {
        let Some(conn) = self.next_to_write() else {
            return Some(None);
        };
        batch.clear();
        self.gather(conn, batch);
        self.wrote(conn, batch.len()).ok()?;
        Some(Some(conn))
    }

    fn shut(&mut self) -> Option<Conn> {
        let (conn, _) = self.next_to_shut()?;
        Some(conn)
    }
}

/// What a job of the broker keeps beside the server and its clients.
#[derive(Drop)]
pub(crate) struct Room {
    pub(crate) alloc: Global,
    pub(crate) random: Random,
    pub(crate) digest: Digest,
    /// The moment, in milliseconds.
    pub(crate) now: u64,
    /// What goes out at once.
    batch: Vec<u8>,
    acks: Vec<u8>,
    /// Bytes of which payloads are taken.
    content: Vec<u8>,
}

impl Room {
    pub(crate) fn new(alloc: Global, seed: u64) -> Option<Room> {
        let mut random = Random::new(seed);
        let mut content = Vec::with_capacity(alloc, CONTENT).ok()?;
        for _ in 0..CONTENT / 8 {
            content
                .extend_from_slice(&random.draw().to_le_bytes())
                .ok()?;
        }
        Some(Room {
            alloc,
            random,
            digest: Digest::new(),
            now: 1_000,
            batch: Vec::with_capacity(alloc, 65_536).ok()?,
            acks: Vec::new(alloc),
            content,
        })
    }

    /// A payload of so many bytes, 4,096 at the most, from a random place.
    pub(crate) fn payload(&mut self, size: usize) -> Option<Vec<u8>> {
        let at = self.random.place(4_096);
        let whole = self.content.get(at..)?;
        Vec::from_slice(self.alloc, whole.get(..size)?).ok()
    }

    /// A payload as messages have it: mostly some dozens of bytes, and of one in twelve up to 2,000.
    pub(crate) fn message(&mut self) -> Option<Vec<u8>> {
        let most = if self.random.is_one_of(12) {
            2_000
        } else {
            270
        };
        let size = self.random.place(most).saturating_add(30);
        self.payload(size)
    }

    /// What the next client gets, which it acknowledges. Whether there was one.
    fn pass_one<S: Serves>(&mut self, server: &mut S) -> Option<bool> {
        let Some(conn) = server.write(&mut self.batch)? else {
            return Some(false);
        };
        self.digest.number(conn);
        self.digest.bytes(self.batch.as_slice());
        self.acks.clear();
        acknowledge(self.batch.as_slice(), &mut self.acks)?;
        if !self.acks.is_empty() {
            server.hear(conn, self.acks.as_slice(), self.now)?;
        }
        Some(true)
    }

    /// All that is to be written goes out, and sockets are shut.
    pub(crate) fn pass<S: Serves>(&mut self, server: &mut S) -> Option<()> {
        for _ in 0..MOST {
            if !self.pass_one(server)? {
                break;
            }
        }
        for _ in 0..MOST {
            let Some(conn) = server.shut() else {
                break;
            };
            self.digest.number(conn);
        }
        Some(())
    }

    /// A client sends bytes, and what comes of it goes out.
    pub(crate) fn send<S: Serves>(
        &mut self,
        server: &mut S,
        conn: Conn,
        bytes: &[u8],
    ) -> Option<()> {
        server.hear(conn, bytes, self.now)?;
        self.pass(server)
    }
}
