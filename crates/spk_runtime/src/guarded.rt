//! A client's socket behind a door: of what the client sends the server reads what the door lets through, and of what the server writes the client gets what the
//! door makes of it.

use crate::holdings::{UNAVAILABLE, Weight, is_weighed, weigh};
use crate::port::Port;
use spk_door::Door;
use spk_packets::{PacketFault, decode};
use spk_quota::Quotas;
use spk_server::Conn;
use spk_visitor::{Answer, Replies, Visitor};
use std::alloc::Global;
use std::io::{self, ErrorKind};

/// How many bytes of the door's own may wait for a client before it is shut (own rule).
const MOST_WAITING: usize = 262_144;

/// How far bytes that wait were given.
#[derive(Drop)]
struct Rest {
    bytes: Vec<u8>,
    given: usize,
}

impl Rest {
    fn new(alloc: Global) -> Rest {
        Rest {
            bytes: Vec::new(alloc),
            given: 0,
        }
    }

    /// What wasn't given.
    fn left(&self) -> &[u8] {
        self.bytes.get(self.given..).unwrap_or(&[])
    }

    /// So many more were given. Their room is used again once they are half of all.
    fn give(&mut self, count: usize) {
        let len = self.bytes.len();
        self.given = self.given.saturating_add(count).min(len);
        let left = len.saturating_sub(self.given);
        if self.given >= left {
            self.bytes.copy_within(self.given..len, 0);
            self.bytes.truncate(left);
            self.given = 0;
        }
    }
}

/// A client's socket behind a door.
#[derive(Drop)]
pub struct Guarded<'a, P: Port> {
    alloc: Global,
    port: P,
    door: &'a Door,
    visitor: Visitor,
    replies: Replies,
    /// What was let through, and isn't read yet.
    passed: Rest,
    /// What is to be written to the client, before anything else.
    waiting: Rest,
    /// It came in.
    inside: bool,
    /// Its SUBSCRIBEs may be cut, so that what the server writes is looked through.
    bounded: bool,
    /// The last read of the socket was a full one: more may be there.
    full: bool,
    /// The door ended it: nothing more of the client is taken.
    barred: bool,
    /// The name of its session among what its user holds, once it is counted.
    client: Option<String>,
}

/// What a fault of a client's bytes is for a socket.
fn error_of(fault: PacketFault) -> io::Error {
    io::Error::from(match fault {
        PacketFault::NoMemory => ErrorKind::OutOfMemory,
        _ => ErrorKind::InvalidData,
    })
}

impl<'a, P: Port> Guarded<'a, P> {
    /// The socket of a client who comes to this door.
    pub fn new(alloc: Global, port: P, door: &'a Door) -> Guarded<'a, P> {
        Guarded {
            alloc,
            port,
            door,
            visitor: Visitor::new(alloc),
            replies: Replies::new(alloc),
            passed: Rest::new(alloc),
            waiting: Rest::new(alloc),
            inside: false,
            bounded: false,
            full: false,
            barred: false,
            client: None,
        }
    }

    /// The socket itself.
    pub fn port(&mut self) -> &mut P {
        &mut self.port
    }

    /// CONNACK with a code that refuses (section 3.2).
    fn refuse(&mut self, code: u8) -> io::Result<()> {
        match self.waiting.bytes.extend_from_slice(&[0x20, 2, 0, code]) {
            Ok(()) => Ok(()),
            Err(_) => Err(ErrorKind::OutOfMemory.into()),
        }
    }

    /// Does what the door answered of a packet. Whether the next one is to be taken.
    fn follow(&mut self, answer: Answer) -> io::Result<bool> {
        match answer {
            Answer::Goes => {
                if !self.inside {
                    self.inside = true;
                    self.bounded = self.visitor.may_be_cut(self.door);
                }
                return Ok(true);
            }
            Answer::More => return Ok(false),
            Answer::Cuts(id, allowed) => {
                let said = self.replies.cut(id, allowed, &mut self.waiting.bytes);
                if said.is_err() {
                    return Err(ErrorKind::OutOfMemory.into());
                }
                return Ok(true);
            }
            Answer::Refuses(code) => self.refuse(code)?,
            Answer::Closes => {}
        }
        self.barred = true;
        Ok(false)
    }

    /// What becomes of a packet that the door let through, and that stands behind so many bytes, by what its user holds: beyond a limit it doesn't go on, and
    /// its client is refused.
    fn weigh(
        &mut self,
        answer: Answer,
        before: usize,
        conn: Conn,
        quotas: &mut Quotas,
    ) -> io::Result<Answer> {
        let bytes = self.passed.bytes.get(before..).unwrap_or(&[]);
        let (Some(first), Some(user)) = (bytes.first(), self.visitor.user()) else {
            return Ok(answer);
        };
        if !is_weighed(*first) {
            return Ok(answer);
        }
        let packet = match decode(self.alloc, bytes) {
            Ok((packet, _)) => packet,
            Err(fault) => return Err(error_of(fault)),
        };
        match weigh(self.alloc, quotas, user, conn, &mut self.client, &packet) {
            Ok(Weight::Within) => Ok(answer),
            Ok(Weight::Beyond) => {
                self.passed.bytes.truncate(before);
                Ok(if self.inside {
                    Answer::Closes
                } else {
                    Answer::Refuses(UNAVAILABLE)
                })
            }
            Err(_) => Err(ErrorKind::OutOfMemory.into()),
        }
    }

    /// Takes in what was read of the socket. Whether the door takes more of it.
    fn hear(&mut self, piece: &[u8]) -> io::Result<bool> {
        match self.visitor.feed(piece) {
            Ok(()) => Ok(true),
            Err(PacketFault::TooLarge) => {
                self.barred = true;
                Ok(false)
            }
            Err(fault) => Err(error_of(fault)),
        }
    }

    /// What becomes of the next packet of it, if it is whole.
    fn next(&mut self) -> io::Result<Answer> {
        match self.visitor.next(self.door, &mut self.passed.bytes) {
            Ok(answer) => Ok(answer),
            Err(_) => Err(ErrorKind::OutOfMemory.into()),
        }
    }

    /// Takes in what was read of the socket, and lets through what may go on.
    fn let_through(&mut self, piece: &[u8]) -> io::Result<()> {
        if !self.hear(piece)? {
            return Ok(());
        }
        for _ in 0..u64::MAX {
            let answer = self.next()?;
            if !self.follow(answer)? {
                break;
            }
        }
        Ok(())
    }

    /// The same, of what stays within what its user may hold.
    fn let_through_within(
        &mut self,
        piece: &[u8],
        conn: Conn,
        quotas: &mut Quotas,
    ) -> io::Result<()> {
        if !self.hear(piece)? {
            return Ok(());
        }
        for _ in 0..u64::MAX {
            let before = self.passed.bytes.len();
            let answer = self.next()?;
            let answer = self.weigh(answer, before, conn, quotas)?;
            if !self.follow(answer)? {
                break;
            }
        }
        Ok(())
    }

    /// Whether the socket is to be read: nothing of it waits that was let through.
    fn is_to_be_read(&self) -> bool {
        self.passed.left().is_empty() && !self.barred
    }

    /// Reads the socket.
    fn read(&mut self, piece: &mut [u8]) -> io::Result<usize> {
        let count = self.port.take(piece)?;
        self.full = count >= piece.len();
        Ok(count)
    }

    /// Hands on what was let through, if there is something.
    fn give(&mut self, piece: &mut [u8]) -> io::Result<usize> {
        let count = self.hand_on(piece);
        if count == 0 && !self.barred {
            // nothing goes on of what was read
            return Err(ErrorKind::Interrupted.into());
        }
        Ok(count)
    }

    /// Writes what is to be written before anything else, as far as it goes. One for whom too much waits is given up.
    fn say(&mut self) -> io::Result<()> {
        match self.flush() {
            Ok(()) => Ok(()),
            Err(error) if error.kind() == ErrorKind::WouldBlock => {
                if self.waiting.left().len() > MOST_WAITING {
                    return Err(ErrorKind::TimedOut.into());
                }
                Ok(())
            }
            Err(error) => Err(error),
        }
    }

    /// Hands on what was let through. How much.
    fn hand_on(&mut self, piece: &mut [u8]) -> usize {
        let left = self.passed.left();
        let count = left.len().min(piece.len());
        for (slot, byte) in piece.iter_mut().zip(left.iter()) {
            *slot = *byte;
        }
        self.passed.give(count);
        count
    }

    /// Takes in what the server writes, and puts what the client gets of it behind what waits.
    fn turn(&mut self, bytes: &[u8]) -> io::Result<()> {
        if let Err(fault) = self.replies.feed(bytes) {
            return Err(error_of(fault));
        }
        for _ in 0..u64::MAX {
            match self.replies.next(&mut self.waiting.bytes) {
                Ok(true) => {}
                Ok(false) => break,
                Err(fault) => return Err(error_of(fault)),
            }
        }
        Ok(())
    }
}

impl<P: Port> Port for Guarded<'_, P> {
    fn take(&mut self, piece: &mut [u8]) -> io::Result<usize> {
        if self.is_to_be_read() {
            let count = self.read(piece)?;
            if count == 0 {
                return Ok(0);
            }
            self.let_through(piece.get(..count).unwrap_or(&[]))?;
            self.say()?;
        }
        self.give(piece)
    }

    fn take_within(
        &mut self,
        piece: &mut [u8],
        conn: Conn,
        quotas: &mut Quotas,
    ) -> io::Result<usize> {
        if self.is_to_be_read() {
            let count = self.read(piece)?;
            if count == 0 {
                return Ok(0);
            }
            self.let_through_within(piece.get(..count).unwrap_or(&[]), conn, quotas)?;
            self.say()?;
        }
        self.give(piece)
    }

    fn put(&mut self, bytes: &[u8]) -> io::Result<usize> {
        self.flush()?;
        if !self.bounded {
            return self.port.put(bytes);
        }
        self.turn(bytes)?;
        self.say()?;
        Ok(bytes.len())
    }

    fn may_take(&self) -> bool {
        self.full || self.barred || !self.passed.left().is_empty()
    }

    fn waits(&self) -> bool {
        !self.waiting.left().is_empty()
    }

    fn flush(&mut self) -> io::Result<()> {
        for _ in 0..u64::MAX {
            let left = self.waiting.left();
            if left.is_empty() {
                break;
            }
            match self.port.put(left) {
                Ok(0) => return Err(ErrorKind::WriteZero.into()),
                Ok(count) => self.waiting.give(count),
                Err(error) if error.kind() == ErrorKind::Interrupted => {}
                Err(error) => return Err(error),
            }
        }
        Ok(())
    }

    fn is_barred(&self) -> bool {
        self.barred
    }

    fn may_log_in(&self) -> bool {
        !self.inside && !self.barred && self.door.users.is_some()
    }

    fn bar(&mut self) {
        self.barred = true;
    }

    fn leave(&mut self, conn: Conn, now: u64, quotas: &mut Quotas) {
        if let Some(client) = &self.client {
            quotas.ended(conn, client.as_str(), now);
        }
    }

    fn shut(&mut self) {
        let _ = self.flush();
        self.port.shut();
    }
}
