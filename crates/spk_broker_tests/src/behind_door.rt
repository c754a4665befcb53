//! Two clients of the loop behind a door, over sockets that aren't TCP: each takes and gives so many bytes at a time, and nothing at each third write. Rows: packets made
//! by Python's struct as MQTT 3.1.1, chapter 3, says, and the key by its hashlib.

use spk_access::{NodeName, Rights};
use spk_door::{Door, User};
use spk_runtime::{Guarded, Port, Rounds};
use spk_server::{Cause, Conn};
use std::alloc::Global;
use std::io;
use std::io::ErrorKind;
use std::test::Fail;

/// PBKDF2 with HMAC-SHA-256 of `secret`, with the salt `salt of pump`, in 3 rounds.
static KEY: [u8; 32] = [
    0xe9, 0xaf, 0x2d, 0xcd, 0xc0, 0xba, 0x22, 0xbd, 0xfd, 0x0b, 0x6d, 0x47, 0x42, 0x83, 0x93, 0x2d,
    0x52, 0x4b, 0xc0, 0x7a, 0x31, 0x6a, 0xcc, 0xb5, 0xca, 0x00, 0x5d, 0xe5, 0x11, 0x7a, 0x3c, 0xa7,
];

/// The node Pump of the group Plant, with a will on its death.
const NODE: &[u8] =
    b"\x107\x00\x04MQTT\x04\x06\x00<\x00\x0aPlant/Pump\x00\x19spBv1.0/Plant/NDEATH/Pump\x00\x04gone";

/// The same with a will on another node's death.
const FOREIGN: &[u8] =
    b"\x104\x00\x04MQTT\x04\x06\x00<\x00\x0aPlant/Pump\x00\x1aspBv1.0/Plant/NDEATH/Valve\x00\x00";

const HOST: &[u8] = b"\x10\x10\x00\x04MQTT\x04\x02\x00<\x00\x04Host";

/// SUBSCRIBE to births, data and deaths of the group's nodes.
const WATCH: &[u8] =
    b"\x82L\x00\x01\x00\x16spBv1.0/Plant/NBIRTH/+\x00\x00\x15spBv1.0/Plant/NDATA/+\x00\x00\x16spBv1.0/Plant/NDEATH/+\x00";

const BIRTH: &[u8] = b"0\x1c\x00\x19spBv1.0/Plant/NBIRTH/Pump1";

/// Data of another node.
const OTHER: &[u8] = b"0\x1c\x00\x19spBv1.0/Plant/NDATA/Valve2";

const USER: &[u8] = b"\x10\x1d\x00\x04MQTT\x04\xc2\x00<\x00\x03any\x00\x04pump\x00\x06secret";

const WRONG: &[u8] = b"\x10\x1d\x00\x04MQTT\x04\xc2\x00<\x00\x03any\x00\x04pump\x00\x06Secret";

const NOBODY: &[u8] = b"\x10\x0f\x00\x04MQTT\x04\x02\x00<\x00\x03any";

/// SUBSCRIBE to three filters, of which the user may subscribe to the second.
const THREE: &[u8] =
    b"\x827\x00\x09\x00\x01#\x00\x00\x17spBv1.0/Plant/NCMD/Pump\x01\x00\x14spBv1.0/Plant/NCMD/+\x02";

/// The user's CONNECT, a SUBSCRIBE to everything, to which he may not subscribe, those three, and PINGREQ, in one piece.
const ALL: &[u8] =
    b"\x10\x1d\x00\x04MQTT\x04\xc2\x00<\x00\x03any\x00\x04pump\x00\x06secret\x82\x06\x00\x0a\x00\x01#\x00\x827\x00\x09\x00\x01#\x00\x00\x17spBv1.0/Plant/NCMD/Pump\x01\x00\x14spBv1.0/Plant/NCMD/+\x02\xc0\x00";

/// A socket in memory.
#[derive(Drop)]
struct Wire {
    /// The most bytes of a read or a write.
    most: usize,
    writes: usize,
    /// What its client sent that isn't read yet.
    sent: &'static [u8],
    /// What its client got.
    got: Vec<u8>,
}

impl Port for Wire {
    fn take(&mut self, piece: &mut [u8]) -> io::Result<usize> {
        if self.sent.is_empty() {
            return Err(ErrorKind::WouldBlock.into());
        }
        let count = self.sent.len().min(self.most).min(piece.len());
        let (front, rest) = self.sent.split_at(count);
        piece[..count].copy_from_slice(front);
        self.sent = rest;
        Ok(count)
    }

    fn put(&mut self, bytes: &[u8]) -> io::Result<usize> {
        self.writes = self.writes.saturating_add(1);
        if self.writes % 3 == 0 {
            return Err(ErrorKind::WouldBlock.into());
        }
        let count = bytes.len().min(self.most);
        match self.got.extend_from_slice(&bytes[..count]) {
            Ok(()) => Ok(count),
            Err(_) => Err(ErrorKind::OutOfMemory.into()),
        }
    }

    fn shut(&mut self) {}
}

/// A door with a guard: one that knows the user `pump` with the password `secret`, or nobody.
fn door(alloc: Global, known: bool) -> Option<Door> {
    let mut filters = Vec::new(alloc);
    filters
        .push(String::from_str(alloc, "spBv1.0/Plant/NCMD/Pump").ok()?)
        .ok()?;
    let mut users = Vec::new(alloc);
    users
        .push(User {
            name: String::from_str(alloc, "pump").ok()?,
            salt: Vec::from_slice(alloc, b"salt of pump").ok()?,
            rounds: 3,
            key: KEY,
            rights: Rights {
                node: Some(NodeName {
                    group: String::from_str(alloc, "Plant").ok()?,
                    node: String::from_str(alloc, "Pump").ok()?,
                }),
                host: None,
                publish: None,
                subscribe: Some(filters),
            },
        })
        .ok()?;
    Some(Door {
        users: if known { Some(users) } else { None },
        guard: true,
    })
}

/// The loop, as the tests ask of it.
trait Loops {
    fn come(&mut self, alloc: Global, most: usize) -> Option<Conn>;

    /// A client sends these bytes, if its socket is there.
    fn send(&mut self, conn: Conn, bytes: &'static [u8]);

    /// Its socket may be read and written, and a round goes by.
    fn turn(&mut self, conn: Conn) -> Option<()>;

    /// What it got, if its socket is there.
    fn got(&mut self, alloc: Global, conn: Conn) -> Option<Vec<u8>>;

    /// Whose socket was shut, and why.
    fn shut(&mut self) -> Option<(Conn, Cause)>;
}

/// A loop whose clients come to a door.
#[derive(Drop)]
struct Behind<'a> {
    door: &'a Door,
    rounds: Rounds<Guarded<'a, Wire>>,
}

impl Loops for Behind<'_> {
    fn come(&mut self, alloc: Global, most: usize) -> Option<Conn> {
        let wire = Wire {
            most,
            writes: 0,
            sent: b"",
            got: Vec::new(alloc),
        };
        let guarded = Guarded::new(alloc, wire, self.door);
        self.rounds.come(guarded, 0).ok()?
    }

    fn send(&mut self, conn: Conn, bytes: &'static [u8]) {
        if let Some(guarded) = self.rounds.port(conn) {
            guarded.port().sent = bytes;
        }
    }

    fn turn(&mut self, conn: Conn) -> Option<()> {
        self.rounds.may_read(conn, false);
        self.rounds.may_write(conn).ok()?;
        let _ = self.rounds.round(0).ok()?;
        Some(())
    }

    fn got(&mut self, alloc: Global, conn: Conn) -> Option<Vec<u8>> {
        let guarded = self.rounds.port(conn)?;
        Vec::from_slice(alloc, &guarded.port().got).ok()
    }

    fn shut(&mut self) -> Option<(Conn, Cause)> {
        self.rounds.shut_next()
    }
}

/// What two clients got, and why the socket of each was shut.
#[derive(Debug, PartialEq, Eq, Drop)]
struct Seen {
    got: [Vec<u8>; 2],
    shut: [Option<Cause>; 2],
}

/// What two clients get who send this in turn.
fn plays(
    alloc: Global,
    loops: &mut impl Loops,
    most: usize,
    steps: &[(usize, &'static [u8])],
) -> Option<Seen> {
    let conns = [loops.come(alloc, most)?, loops.come(alloc, most)?];
    let mut seen = Seen {
        got: [Vec::new(alloc), Vec::new(alloc)],
        shut: [None, None],
    };
    for (who, bytes) in steps {
        loops.send(*conns.get(*who)?, bytes);
        for _ in 0..600 {
            loops.turn(conns[0])?;
            loops.turn(conns[1])?;
        }
        for (at, conn) in conns.iter().enumerate() {
            if let Some(got) = loops.got(alloc, *conn)
                && let Some(place) = seen.got.get_mut(at)
            {
                *place = got;
            }
        }
        for _ in 0..2u8 {
            if let Some((conn, cause)) = loops.shut() {
                let at = if conn == conns[0] { 0usize } else { 1 };
                if let Some(place) = seen.shut.get_mut(at) {
                    *place = Some(cause);
                }
            }
        }
    }
    Some(seen)
}

/// What it is, whether users are known, who sends what, what each gets, and why its socket was shut.
static ROWS: [(
    &str,
    bool,
    &[(usize, &[u8])],
    [&[u8]; 2],
    [Option<Cause>; 2],
); 8] = [
    (
        "a node's own goes on, and another node's data end it: its will is sent",
        false,
        &[(1, HOST), (1, WATCH), (0, NODE), (0, BIRTH), (0, OTHER)],
        [
            b"\x20\x02\x00\x00",
            b"\x20\x02\x00\x00\x90\x05\x00\x01\x00\x00\x000\x1c\x00\x19spBv1.0/Plant/NBIRTH/Pump10\x1f\x00\x19spBv1.0/Plant/NDEATH/Pumpgone",
        ],
        [Some(Cause::Refused), None],
    ),
    (
        "a host publishes no birth",
        false,
        &[(1, HOST), (1, BIRTH)],
        [b"", b"\x20\x02\x00\x00"],
        [None, Some(Cause::Refused)],
    ),
    (
        "a will on another node's death ends it, and is never sent",
        false,
        &[(1, HOST), (1, WATCH), (0, FOREIGN)],
        [b"", b"\x20\x02\x00\x00\x90\x05\x00\x01\x00\x00\x00"],
        [Some(Cause::Refused), None],
    ),
    (
        "a user gets 128 where he may not subscribe",
        true,
        &[(0, USER), (0, THREE), (0, b"\xc0\x00")],
        [b"\x20\x02\x00\x00\x90\x05\x00\x09\x80\x01\x80\xd0\x00", b""],
        [None, None],
    ),
    (
        "in one piece CONNACK comes first all the same",
        true,
        &[(0, ALL)],
        [
            b"\x20\x02\x00\x00\x90\x03\x00\x0a\x80\x90\x05\x00\x09\x80\x01\x80\xd0\x00",
            b"",
        ],
        [None, None],
    ),
    (
        "a wrong password is told, and ends it",
        true,
        &[(0, WRONG)],
        [b"\x20\x02\x00\x04", b""],
        [Some(Cause::Refused), None],
    ),
    (
        "no user is told, and ends it",
        true,
        &[(0, NOBODY)],
        [b"\x20\x02\x00\x05", b""],
        [Some(Cause::Refused), None],
    ),
    (
        "what is no packet ends it",
        false,
        &[(0, NODE), (0, b"\xc0\x00\x00\x00\xc0\x00")],
        [b"\x20\x02\x00\x00\xd0\x00", b""],
        [Some(Cause::Refused), None],
    ),
];

#[test]
fn two_clients_behind_a_door_get_what_is_theirs(rt: HostRuntime) -> Result<(), Fail> {
    let alloc = rt.alloc();
    for (what, known, steps, got, shut) in ROWS {
        for most in [1, 3, 100] {
            let door = door(alloc, known).expect(&rt, "a door");
            let mut loops = Behind {
                door: &door,
                rounds: Rounds::new(alloc).expect(&rt, "a loop"),
            };
            let seen = plays(alloc, &mut loops, most, steps).expect(&rt, "rounds");
            assert_eq!(rt; seen.got[0].as_slice(), got[0], "{what}");
            assert_eq!(rt; seen.got[1].as_slice(), got[1], "{what}");
            assert_eq!(rt; seen.shut, shut, "{what}");
        }
    }
    Ok(())
}

/// The user's CONNECT under another client identifier.
const FIRST: &[u8] = b"\x10\x1d\x00\x04MQTT\x04\xc2\x00<\x00\x03one\x00\x04pump\x00\x06secret";

/// How many of three clients were told something by now.
fn told(loops: &mut Behind<'_>, conns: &[Conn; 3]) -> Option<usize> {
    let mut count = 0usize;
    for conn in conns {
        if !loops.rounds.port(*conn)?.port().got.is_empty() {
            count = count.saturating_add(1);
        }
    }
    Some(count)
}

/// A client who came in sends PINGREQ, its socket takes writes, and a round goes by: how many bytes it got by then.
fn pings(loops: &mut Behind<'_>, conn: Conn) -> Option<usize> {
    loops.rounds.port(conn)?.port().writes = 0;
    loops.send(conn, b"\xc0\x00");
    loops.turn(conn)?;
    Some(loops.rounds.port(conn)?.port().got.len())
}

#[test]
fn of_those_who_log_in_one_is_read_in_a_round(rt: HostRuntime) -> Result<(), Fail> {
    let alloc = rt.alloc();
    let door = door(alloc, true).expect(&rt, "a door");
    let mut loops = Behind {
        door: &door,
        rounds: Rounds::new(alloc).expect(&rt, "a loop"),
    };
    let inside = loops.come(alloc, 100).expect(&rt, "a client");
    loops.send(inside, FIRST);
    loops.turn(inside).expect(&rt, "a round");
    let mut conns = [inside; 3];
    for conn in conns.iter_mut() {
        *conn = loops.come(alloc, 100).expect(&rt, "a client");
        loops.send(*conn, WRONG);
        loops.rounds.may_read(*conn, false);
    }
    for round in 1..=3usize {
        assert_eq!(rt;
            pings(&mut loops, inside),
            Some(4 + 2 * round),
            "in round {round}"
        );
        assert_eq!(rt; told(&mut loops, &conns), Some(round), "in round {round}");
    }
    Ok(())
}
