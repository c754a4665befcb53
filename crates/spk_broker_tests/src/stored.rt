//! A broker that is kept, run by the loop: nothing of what came is written before it is kept, and what was kept is there behind a restart.

use spk_broker_store::{Disk, Kept, Store, StoreFault, open};
use spk_runtime::{Port, Rounds, ServeFault};
use spk_server::Conn;
use std::alloc::{AllocError, Global};
use std::io;
use std::io::ErrorKind;
use std::test::Fail;

/// CONNECT of a client whose session is kept, and CONNACK without and with that session (sections 3.1 and 3.2 of MQTT 3.1.1).
static CONNECT: &[u8] = b"\x10\x0d\x00\x04MQTT\x04\x00\x00\x00\x00\x01a";

static WELCOME: &[u8] = b"\x20\x02\x00\x00";

static AGAIN: &[u8] = b"\x20\x02\x01\x00";

/// CONNECT of a clean client.
static CLEAN: &[u8] = b"\x10\x0d\x00\x04MQTT\x04\x02\x00\x00\x00\x01b";

/// SUBSCRIBE to `t` with QoS 1, and SUBACK (sections 3.8 and 3.9).
static WATCH: &[u8] = b"\x82\x06\x00\x01\x00\x01t\x01";

static WATCHED: &[u8] = b"\x90\x03\x00\x01\x01";

/// PUBLISH on `t` with QoS 1, its PUBACK, and the same as the subscriber gets it, at first and once more (sections 3.3 and 3.4, 4.4).
static SAY: &[u8] = b"\x32\x06\x00\x01t\x00\x07x";

static SAID: &[u8] = b"\x40\x02\x00\x07";

static HEARD: &[u8] = b"\x32\x06\x00\x01t\x00\x01x";

static REPEATED: &[u8] = b"\x3a\x06\x00\x01t\x00\x01x";

/// A journal in memory, which takes so many bytes by `append`, and then fails.
#[derive(Drop)]
struct Tape<'a> {
    bytes: &'a mut Vec<u8>,
    left: usize,
}

impl Disk for Tape<'_> {
    fn read(&mut self, bytes: &mut Vec<u8>) -> bool {
        bytes.extend_from_slice(self.bytes.as_slice()).is_ok()
    }

    fn replace(&mut self, bytes: &[u8]) -> bool {
        self.bytes.clear();
        self.bytes.extend_from_slice(bytes).is_ok()
    }

    fn append(&mut self, bytes: &[u8]) -> bool {
        if bytes.len() > self.left {
            return false;
        }
        self.left -= bytes.len();
        self.bytes.extend_from_slice(bytes).is_ok()
    }

    fn sync(&mut self) -> bool {
        true
    }
}

/// A socket in memory.
#[derive(Drop)]
struct Pipe {
    sent: &'static [u8],
    got: Vec<u8>,
}

impl Port for Pipe {
    fn take(&mut self, piece: &mut [u8]) -> io::Result<usize> {
        if self.sent.is_empty() {
            return Err(ErrorKind::WouldBlock.into());
        }
        let count = self.sent.len().min(piece.len());
        let (front, rest) = self.sent.split_at(count);
        piece[..count].copy_from_slice(front);
        self.sent = rest;
        Ok(count)
    }

    fn put(&mut self, bytes: &[u8]) -> io::Result<usize> {
        match self.got.extend_from_slice(bytes) {
            Ok(()) => Ok(bytes.len()),
            Err(_) => Err(ErrorKind::OutOfMemory.into()),
        }
    }

    fn shut(&mut self) {}
}

/// The loop with its store, as the tests ask of it.
trait Loops {
    /// A client comes. None where it is refused.
    fn come(&mut self, alloc: Global) -> Option<Conn>;

    /// A client sends these bytes: they are read, and nothing of what came of them is kept or written.
    fn send(&mut self, conn: Conn, bytes: &'static [u8]) -> Option<()>;

    /// What came is kept. Whether the store took it.
    fn keep(&mut self) -> bool;

    /// What waits is written, and what a client got so far is answered.
    fn write(&mut self, conn: Conn) -> Option<&[u8]>;
}

/// The loop, and its store.
#[derive(Drop)]
struct Stored<'a> {
    rounds: Rounds<Pipe>,
    store: Store<Tape<'a>>,
}

impl Loops for Stored<'_> {
    fn come(&mut self, alloc: Global) -> Option<Conn> {
        let pipe = Pipe {
            sent: b"",
            got: Vec::new(alloc),
        };
        self.rounds.come(pipe, 0).ok()?
    }

    fn send(&mut self, conn: Conn, bytes: &'static [u8]) -> Option<()> {
        let pipe = self.rounds.port(conn)?;
        pipe.sent = bytes;
        self.rounds.may_read(conn, false);
        let _more = self.rounds.take(0).ok()?;
        Some(())
    }

    fn keep(&mut self) -> bool {
        match self.rounds.keep(&mut self.store, 0) {
            Ok(()) => true,
            Err(ServeFault::Unkept) => false,
            Err(_) => false,
        }
    }

    fn write(&mut self, conn: Conn) -> Option<&[u8]> {
        let _more = self.rounds.write_all().ok()?;
        Some(self.rounds.port(conn)?.got.as_slice())
    }
}

/// The loop over what a tape keeps, which takes so many bytes. None where there is no memory.
fn keeping<'a>(
    alloc: Global,
    bytes: &'a mut Vec<u8>,
    left: usize,
) -> Result<Stored<'a>, AllocError> {
    match open(alloc, Tape { bytes, left }, false) {
        Ok(
            Kept {
                store,
                broker,
                cut: _cut,
            },
        ) => Ok(Stored {
            rounds: Rounds::over_broker(alloc, broker)?,
            store,
        }),
        Err(StoreFault::NoMemory) => Err(AllocError),
        Err(_) => Err(AllocError),
    }
}

/// A client says this, and it is kept. What it got by then; None where the loop refuses, or it was answered before it was kept.
fn says<'a>(
    loops: &'a mut impl Loops,
    conn: Conn,
    bytes: &'static [u8],
    before: usize,
) -> Option<&'a [u8]> {
    loops.send(conn, bytes)?;
    if loops.write(conn)?.len() != before || !loops.keep() {
        return None;
    }
    loops.write(conn)
}

/// Two clients: one subscribes in a session that is kept, the other one publishes. Whether each got what is due to it, and nothing before it was kept.
fn talks(alloc: Global, loops: &mut impl Loops) -> Option<bool> {
    let watcher = loops.come(alloc)?;
    let mut right = says(loops, watcher, CONNECT, 0)? == WELCOME;
    right = right && says(loops, watcher, WATCH, 4)?.ends_with(WATCHED);
    let sayer = loops.come(alloc)?;
    right = right && says(loops, sayer, CLEAN, 0)? == WELCOME;
    right = right && says(loops, sayer, SAY, 4)?.ends_with(SAID);
    Some(right && loops.write(watcher)?.ends_with(HEARD))
}

/// Behind the restart: the session is there, and the message that nobody acknowledged comes again.
fn talks_on(alloc: Global, loops: &mut impl Loops) -> Option<bool> {
    let watcher = loops.come(alloc)?;
    let got = says(loops, watcher, CONNECT, 0)?;
    Some(got.len() == 12 && got.starts_with(AGAIN) && got.ends_with(REPEATED))
}

/// A client subscribes in a session that is kept.
fn watches(alloc: Global, loops: &mut impl Loops) -> Option<bool> {
    let watcher = loops.come(alloc)?;
    let right = says(loops, watcher, CONNECT, 0)? == WELCOME;
    Some(right && says(loops, watcher, WATCH, 4)?.ends_with(WATCHED))
}

/// How far a message comes before everything ends at once: it was read, it was kept, or it was answered.
#[derive(Clone, Copy, Debug, PartialEq, Eq)]
enum Killed {
    BeforeItIsKept,
    BeforeItIsAnswered,
    BehindItsAnswer,
}

/// One life: the watcher comes back, to whom so many messages are due, and one more is published. Whether it got them, and the answer came where it was due.
fn lives(alloc: Global, loops: &mut impl Loops, killed: Killed, due: usize) -> Option<bool> {
    let watcher = loops.come(alloc)?;
    let got = says(loops, watcher, CONNECT, 0)?;
    let right = got.starts_with(AGAIN) && got.len() == due.saturating_mul(8).saturating_add(4);
    let sayer = loops.come(alloc)?;
    let welcome = says(loops, sayer, CLEAN, 0)? == WELCOME;
    loops.send(sayer, SAY)?;
    if killed == Killed::BeforeItIsKept {
        return Some(right && welcome);
    }
    if !loops.keep() {
        return None;
    }
    if killed == Killed::BeforeItIsAnswered {
        return Some(right && welcome);
    }
    let said = loops.write(sayer)?.ends_with(SAID);
    Some(right && welcome && said)
}

/// The disk takes nothing more: a packet is answered neither before nor behind that. Whether it is so.
fn stops(alloc: Global, loops: &mut impl Loops) -> Option<bool> {
    let watcher = loops.come(alloc)?;
    loops.send(watcher, CONNECT)?;
    let refused = !loops.keep();
    let silent = loops.write(watcher)?.is_empty();
    Some(refused && silent && !loops.keep())
}

#[test]
fn what_was_kept_is_there_behind_a_restart(rt: HostRuntime) -> Result<(), Fail> {
    let alloc = rt.alloc();
    let mut bytes = Vec::new(alloc);
    let mut first = keeping(alloc, &mut bytes, usize::MAX)?;
    assert_eq!(rt; talks(alloc, &mut first), Some(true));
    drop(first);
    let mut second = keeping(alloc, &mut bytes, usize::MAX)?;
    assert_eq!(rt; talks_on(alloc, &mut second), Some(true));
    Ok(())
}

#[test]
fn ten_kills_cost_nothing_that_was_answered(rt: HostRuntime) -> Result<(), Fail> {
    let alloc = rt.alloc();
    let mut bytes = Vec::new(alloc);
    let mut first = keeping(alloc, &mut bytes, usize::MAX)?;
    assert_eq!(rt; watches(alloc, &mut first), Some(true));
    drop(first);
    let mut due = 0usize;
    for kill in 0..10usize {
        let killed = match kill % 3 {
            0 => Killed::BeforeItIsKept,
            1 => Killed::BeforeItIsAnswered,
            _ => Killed::BehindItsAnswer,
        };
        let mut loops = keeping(alloc, &mut bytes, usize::MAX)?;
        assert_eq!(rt; lives(alloc, &mut loops, killed, due), Some(true), "{kill}");
        drop(loops);
        if killed != Killed::BeforeItIsKept {
            due = due.saturating_add(1);
        }
    }
    assert_eq!(rt; due, 6);
    Ok(())
}

#[test]
fn nothing_is_answered_that_the_disk_did_not_take(rt: HostRuntime) -> Result<(), Fail> {
    let alloc = rt.alloc();
    for left in 0..8usize {
        let mut bytes = Vec::new(alloc);
        let mut loops = keeping(alloc, &mut bytes, left)?;
        assert_eq!(rt; stops(alloc, &mut loops), Some(true), "{left}");
    }
    Ok(())
}
