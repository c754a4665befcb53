//! Three clients of the loop, over sockets that aren't TCP: each reads and writes one to three bytes at a time, and one of the three fails in
//! the midst of what it sends or gets. The two others get all that they are owed, in order, and the third is shut, as one that is gone.

use crate::pressure::PATIENT;
use crate::serve::{PING, PONG, WATCH, WATCHED, WELCOME, WILL};
use crate::sockets::is_order;
use spk_runtime::{Port, Rounds};
use spk_server::{Cause, Conn};
use std::alloc::{AllocError, Global};
use std::io;
use std::io::ErrorKind;
use std::test::Fail;

/// What each client sends, packet by packet: the first two watch and ping, the third publishes.
static PACKETS: [&[&[u8]]; 3] = [
    &[PATIENT, WATCH, PING],
    &[PATIENT, WATCH, PING],
    &[PATIENT, WILL],
];

/// Where a socket fails: at its read or write of this number, and at each behind it.
#[derive(Clone, Copy, Debug)]
enum Breaks {
    Never,
    AtRead(usize),
    AtWrite(usize),
}

/// A socket in memory.
#[derive(Drop)]
struct Wire {
    breaks: Breaks,
    broken: bool,
    reads: usize,
    writes: usize,
    /// The most bytes of a read or a write.
    most: usize,
    /// What its client sent that isn't read yet.
    sent: &'static [u8],
    /// What its client got.
    got: Vec<u8>,
}

impl Wire {
    fn new(alloc: Global, breaks: Breaks, most: usize) -> Wire {
        Wire {
            breaks,
            broken: false,
            reads: 0,
            writes: 0,
            most,
            sent: b"",
            got: Vec::new(alloc),
        }
    }
}

impl Port for Wire {
    fn take(&mut self, piece: &mut [u8]) -> io::Result<usize> {
        if let Breaks::AtRead(at) = self.breaks {
            self.broken = self.broken || self.reads >= at;
        }
        if self.broken {
            return Err(ErrorKind::ConnectionReset.into());
        }
        if self.sent.is_empty() {
            return Err(ErrorKind::WouldBlock.into());
        }
        self.reads = self.reads.saturating_add(1);
        let count = self.sent.len().min(self.most).min(piece.len());
        let (front, rest) = self.sent.split_at(count);
        piece[..count].copy_from_slice(front);
        self.sent = rest;
        Ok(count)
    }

    fn put(&mut self, bytes: &[u8]) -> io::Result<usize> {
        if let Breaks::AtWrite(at) = self.breaks {
            self.broken = self.broken || self.writes >= at;
        }
        if self.broken {
            return Err(ErrorKind::BrokenPipe.into());
        }
        self.writes = self.writes.saturating_add(1);
        if self.writes % 3 == 0 {
            return Err(ErrorKind::WouldBlock.into());
        }
        let count = bytes.len().min(self.most);
        match self.got.extend_from_slice(&bytes[..count]) {
            Ok(()) => Ok(count),
            Err(_) => Err(ErrorKind::OutOfMemory.into()),
        }
    }

    fn shut(&mut self) {}
}

/// The loop, as the test asks of it. None where it refuses.
trait Loops {
    fn come(&mut self, wire: Wire) -> Option<Conn>;

    /// A client sends these bytes, if its socket is there.
    fn send(&mut self, conn: Conn, bytes: &'static [u8]);

    /// Its socket may be read and written.
    fn wake(&mut self, conn: Conn) -> Option<()>;

    fn turn(&mut self) -> Option<()>;

    /// Whose socket was shut, and why.
    fn shut(&mut self) -> Option<(Conn, Cause)>;

    /// Whether a client's socket is there.
    fn is_there(&mut self, conn: Conn) -> bool;

    /// Whether a client got these bytes, and no others.
    fn got(&mut self, conn: Conn, bytes: &[u8]) -> bool;
}

impl Loops for Rounds<Wire> {
    fn come(&mut self, wire: Wire) -> Option<Conn> {
        Rounds::come(self, wire, 0).ok()?
    }

    fn send(&mut self, conn: Conn, bytes: &'static [u8]) {
        if let Some(wire) = self.port(conn) {
            wire.sent = bytes;
        }
    }

    fn wake(&mut self, conn: Conn) -> Option<()> {
        self.may_read(conn, false);
        self.may_write(conn).ok()
    }

    fn turn(&mut self) -> Option<()> {
        let _ = self.round(0).ok()?;
        Some(())
    }

    fn shut(&mut self) -> Option<(Conn, Cause)> {
        self.shut_next()
    }

    fn is_there(&mut self, conn: Conn) -> bool {
        self.port(conn).is_some()
    }

    fn got(&mut self, conn: Conn, bytes: &[u8]) -> bool {
        match self.port(conn) {
            Some(wire) => wire.got.as_slice() == bytes,
            None => false,
        }
    }
}

/// A client: the number of its connection, how its socket fails, the most bytes of a read or a write, how many of its packets were sent, in
/// how many reads, and what is due to it.
#[derive(Drop)]
struct Client {
    conn: Conn,
    breaks: Breaks,
    most: usize,
    sent: usize,
    reads: usize,
    due: Vec<u8>,
}

/// What is due to a client of this number for its packet of that one.
fn answer(who: usize, at: usize) -> &'static [u8] {
    match at {
        0 => WELCOME,
        1 if who < 2 => WATCHED,
        2 => PONG,
        _ => b"",
    }
}

/// What was published is due to those who watch.
fn spread(clients: &mut Vec<Client>) -> Result<(), AllocError> {
    for (at, client) in clients.iter_mut().enumerate() {
        if at < 2 && client.sent > 1 {
            client.due.extend_from_slice(WILL)?;
        }
    }
    Ok(())
}

/// A client sends its next packet, if its socket is there. Whether all of it is read is known: so many reads as it takes must not fail.
fn send(loops: &mut impl Loops, clients: &mut Vec<Client>, who: usize) -> Result<(), AllocError> {
    let Some(client) = clients.get_mut(who) else {
        return Ok(());
    };
    let at = client.sent;
    let Some(packet) = PACKETS[who % 3].get(at) else {
        return Ok(());
    };
    client.sent = at.saturating_add(1);
    client.reads = client
        .reads
        .saturating_add(packet.len().div_ceil(client.most.max(1)));
    let comes = match client.breaks {
        Breaks::AtRead(most) => client.reads <= most,
        _ => true,
    };
    let is_there = loops.is_there(client.conn);
    loops.send(client.conn, *packet);
    if !is_there || !comes {
        return Ok(());
    }
    client.due.extend_from_slice(answer(who, at))?;
    if who == 2 && at == 1 {
        spread(clients)?;
    }
    Ok(())
}

/// Who was shut last, and why, and how many were.
#[derive(Clone, Copy, Debug, PartialEq, Eq)]
struct Shut {
    last: Option<(Conn, Cause)>,
    count: usize,
}

/// Rounds until nothing moves any more: the longest packet has 14 bytes. None where the loop refuses one.
fn run(loops: &mut impl Loops, clients: &Vec<Client>, shut: &mut Shut) -> Option<()> {
    for _ in 0..20 {
        for client in clients.iter() {
            loops.wake(client.conn)?;
        }
        loops.turn()?;
        if let Some(next) = loops.shut() {
            shut.last = Some(next);
            shut.count = shut.count.saturating_add(1);
        }
    }
    Some(())
}

/// Three clients come.
fn come(
    alloc: Global,
    loops: &mut impl Loops,
    order: usize,
    victim: usize,
    breaks: Breaks,
) -> Result<Vec<Client>, AllocError> {
    let mut clients = Vec::new(alloc);
    for at in 0..3usize {
        let own = if at == victim { breaks } else { Breaks::Never };
        let most = 1 + order % 3;
        let Some(conn) = loops.come(Wire::new(alloc, own, most)) else {
            return Err(AllocError);
        };
        clients.push(Client {
            conn,
            breaks: own,
            most,
            sent: 0,
            reads: 0,
            due: Vec::new(alloc),
        })?;
    }
    Ok(clients)
}

/// Whether each whose socket works got what is due to it, and the one whose socket fails was shut alone, as one that is gone.
fn is_right(loops: &mut impl Loops, clients: &Vec<Client>, victim: usize, shut: Shut) -> bool {
    for (at, client) in clients.iter().enumerate() {
        let right = if at == victim {
            shut.last == Some((client.conn, Cause::Gone)) && shut.count == 1
        } else {
            loops.got(client.conn, client.due.as_slice())
        };
        if !right {
            return false;
        }
    }
    true
}

/// Three clients come, and send their packets in this order; the socket of one of them fails.
fn plays(
    alloc: Global,
    loops: &mut impl Loops,
    order: usize,
    victim: usize,
    breaks: Breaks,
) -> Result<bool, AllocError> {
    let mut clients = come(alloc, loops, order, victim, breaks)?;
    let mut shut = Shut {
        last: None,
        count: 0,
    };
    let mut rest = order;
    for _ in 0..8 {
        send(loops, &mut clients, rest % 3)?;
        rest /= 3;
        if run(loops, &clients, &mut shut).is_none() {
            return Ok(false);
        }
    }
    Ok(is_right(loops, &clients, victim, shut))
}

/// The same of a new loop.
fn plays_anew(
    alloc: Global,
    order: usize,
    victim: usize,
    breaks: Breaks,
) -> Result<bool, AllocError> {
    let mut loops = Rounds::new(alloc)?;
    plays(alloc, &mut loops, order, victim, breaks)
}

/// How many reads of a socket that takes three bytes at a time the fewest packets need, and how many writes the fewest answers.
const READS: [usize; 3] = [10, 10, 8];

const WRITES: [usize; 3] = [5, 5, 2];

#[test]
fn a_socket_that_fails_in_mid_stream_costs_the_others_nothing(rt: HostRuntime) -> Result<(), Fail> {
    let alloc = rt.alloc();
    let mut tried = 0usize;
    for order in 0..6_561usize {
        if is_order(order) {
            let victim = tried % 3;
            let breaks = match tried / 3 % 2 {
                0 => Breaks::AtRead(order % READS[victim]),
                _ => Breaks::AtWrite(order % WRITES[victim]),
            };
            let right = plays_anew(alloc, order, victim, breaks)?;
            assert!(rt; right, "order {order}, client {victim}, {breaks:?}");
            tried = tried.saturating_add(1);
        }
    }
    assert_eq!(rt; tried, 560);
    Ok(())
}
