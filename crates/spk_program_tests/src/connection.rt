//! A client's connection by tables: what is done, and what it answers.
use spk_connection::{Connection, ConnectionFault, Due};
use spk_packets::{Packet, PacketFault};
use std::test::Fail;

/// What is done, or asked.
#[derive(Clone, Copy)]
enum Act {
    Opens,
    Ends,
    /// Bytes came, and why they are refused, if they are.
    Hears(&'static [u8], Option<ConnectionFault>),
    /// The next packet: 1 for a CONNACK that takes the client, 2 for a PINGRESP, 3 for any other, 0 for none.
    Takes(u8),
    /// A packet is to be written, and why it is refused, if it is.
    Says(&'static [u8], Option<ConnectionFault>),
    /// So many bytes were written.
    Wrote(usize),
    /// PINGREQ is to be written.
    Asks,
    /// These bytes wait.
    Waits(&'static [u8]),
    Is(Due),
    Next(Option<u64>),
}

/// What the tests ask of a connection. They are written over any type that answers it, since a function over a type parameter is proved
/// without the parts of a connection. Where memory was refused a call is made again.
trait Speaks {
    fn open(&mut self, now: u64);

    fn end(&mut self, now: u64);

    fn hear(&mut self, piece: &[u8], now: u64) -> Option<ConnectionFault>;

    fn next(&mut self) -> Option<u8>;

    fn say(&mut self, packet: &[u8]) -> Option<ConnectionFault>;

    fn note(&mut self, count: usize, now: u64);

    fn ping(&mut self, now: u64) -> bool;

    fn waiting(&self) -> &[u8];

    fn due_at(&self, now: u64) -> Due;

    fn next_moment(&self) -> Option<u64>;
}

impl Speaks for Connection {
    fn open(&mut self, now: u64) {
        self.opened(now);
    }

    fn end(&mut self, now: u64) {
        self.over(now);
    }

    fn hear(&mut self, piece: &[u8], now: u64) -> Option<ConnectionFault> {
        match self.read(piece, now) {
            Err(ConnectionFault::NoMemory) => self.read(piece, now).err(),
            answer => answer.err(),
        }
    }

    fn next(&mut self) -> Option<u8> {
        let answer = match self.take() {
            Err(PacketFault::NoMemory) => self.take().ok()?,
            answer => answer.ok()?,
        };
        Some(match answer {
            None => 0,
            Some(Packet::ConnAck { code: 0, .. }) => 1,
            Some(Packet::PingResp) => 2,
            Some(_) => 3,
        })
    }

    fn say(&mut self, packet: &[u8]) -> Option<ConnectionFault> {
        match self.send(packet) {
            Err(ConnectionFault::NoMemory) => self.send(packet).err(),
            answer => answer.err(),
        }
    }

    fn note(&mut self, count: usize, now: u64) {
        self.wrote(count, now);
    }

    fn ping(&mut self, now: u64) -> bool {
        self.ask(now).is_ok() || self.ask(now).is_ok()
    }

    fn waiting(&self) -> &[u8] {
        self.unwritten()
    }

    fn due_at(&self, now: u64) -> Due {
        self.due(now)
    }

    fn next_moment(&self) -> Option<u64> {
        self.next_due()
    }
}

/// Whether it answers so.
fn is_right(connection: &mut impl Speaks, now: u64, act: Act) -> bool {
    match act {
        Act::Opens => connection.open(now),
        Act::Ends => connection.end(now),
        Act::Wrote(count) => connection.note(count, now),
        Act::Hears(piece, fault) => return connection.hear(piece, now) == fault,
        Act::Takes(kind) => return connection.next() == Some(kind),
        Act::Says(packet, fault) => return connection.say(packet) == fault,
        Act::Asks => return connection.ping(now),
        Act::Waits(bytes) => return connection.waiting() == bytes,
        Act::Is(due) => return connection.due_at(now) == due,
        Act::Next(moment) => return connection.next_moment() == moment,
    }
    true
}

/// How many are right before the first that isn't.
fn plays(connection: &mut impl Speaks, acts: &[(u64, Act)]) -> usize {
    for (place, (now, act)) in acts.iter().enumerate() {
        if !is_right(connection, *now, *act) {
            return place;
        }
    }
    acts.len()
}

/// There is no connection.
const NOT_OPEN: Option<ConnectionFault> = Some(ConnectionFault::NotOpen);

/// A packet that is cut by a connection's end is not taken in the next one.
static CUT: [(u64, Act); 19] = [
    (0, Act::Is(Due::Connect)),
    (0, Act::Next(Some(0))),
    (0, Act::Hears(b"\x20", NOT_OPEN)),
    (0, Act::Opens),
    (
        1,
        Act::Hears(b"\x20\x02\x00\x00\x30\x07\x00\x01a\x20", None),
    ),
    (1, Act::Takes(1)),
    (1, Act::Takes(0)),
    (1, Act::Says(b"\xc0\x00", None)),
    (2, Act::Ends),
    (2, Act::Hears(b"\x20", NOT_OPEN)),
    (2, Act::Waits(b"")),
    (2, Act::Next(Some(502))),
    (600, Act::Opens),
    (601, Act::Hears(b"\x20\x02\x00", None)),
    (601, Act::Takes(0)),
    (602, Act::Hears(b"\x00\xd0\x00", None)),
    (602, Act::Takes(1)),
    (602, Act::Takes(2)),
    (602, Act::Takes(0)),
];

/// What is sent is written in pieces.
static PIECES: [(u64, Act); 10] = [
    (0, Act::Says(b"x", NOT_OPEN)),
    (0, Act::Opens),
    (0, Act::Says(b"abc", None)),
    (1, Act::Wrote(2)),
    (1, Act::Says(b"de", None)),
    (1, Act::Waits(b"cde")),
    (2, Act::Wrote(2)),
    (2, Act::Waits(b"e")),
    (3, Act::Wrote(9)),
    (3, Act::Waits(b"")),
];

/// A ping is due behind half the keep alive, and the end behind one and a half times of it.
static PINGS: [(u64, Act); 9] = [
    (0, Act::Opens),
    (14_999, Act::Is(Due::Nothing)),
    (15_000, Act::Is(Due::Ping)),
    (15_000, Act::Asks),
    (15_000, Act::Waits(b"\xc0\x00")),
    (15_000, Act::Is(Due::Nothing)),
    (16_000, Act::Hears(b"\xd0\x00", None)),
    (60_999, Act::Is(Due::Ping)),
    (61_000, Act::Is(Due::End)),
];

#[test]
fn a_connection_does_and_answers_so(rt: HostRuntime) -> Result<(), Fail> {
    let tables: [&[(u64, Act)]; 3] = [&CUT, &PIECES, &PINGS];
    for acts in tables {
        let mut connection = Connection::new(rt.alloc(), 30, 0);
        assert_eq!(rt; plays(&mut connection, acts), acts.len());
    }
    assert_eq!(rt; ConnectionFault::NotOpen.number(), 112);
    Ok(())
}
