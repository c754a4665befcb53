//! What users may hold: clients of one user behind a door, over sockets in memory that take a few bytes at a time. Rows: packets made by hand as MQTT 3.1.1, chapter 3,
//! says, and the key by Python's hashlib.

use spk_access::Rights;
use spk_door::{Door, User};
use spk_quota::{Limits, Quotas};
use spk_runtime::{Farewell, Guarded, Holdings, Port, Rounds};
use spk_server::{Cause, Conn};
use std::alloc::Global;
use std::io;
use std::io::ErrorKind;
use std::test::Fail;

/// PBKDF2 with HMAC-SHA-256 of `secret`, with the salt `salt of pump`, in 3 rounds.
static KEY: [u8; 32] = [
    0xe9, 0xaf, 0x2d, 0xcd, 0xc0, 0xba, 0x22, 0xbd, 0xfd, 0x0b, 0x6d, 0x47, 0x42, 0x83, 0x93, 0x2d,
    0x52, 0x4b, 0xc0, 0x7a, 0x31, 0x6a, 0xcc, 0xb5, 0xca, 0x00, 0x5d, 0xe5, 0x11, 0x7a, 0x3c, 0xa7,
];

/// CONNECT of the client `a` with clean session 0, of `b`, and of `a`, `b` and `c` with clean session 1.
const KEPT_A: &[u8] = b"\x10\x1b\x00\x04MQTT\x04\xc0\x00<\x00\x01a\x00\x04pump\x00\x06secret";

const KEPT_B: &[u8] = b"\x10\x1b\x00\x04MQTT\x04\xc0\x00<\x00\x01b\x00\x04pump\x00\x06secret";

const A: &[u8] = b"\x10\x1b\x00\x04MQTT\x04\xc2\x00<\x00\x01a\x00\x04pump\x00\x06secret";

const B: &[u8] = b"\x10\x1b\x00\x04MQTT\x04\xc2\x00<\x00\x01b\x00\x04pump\x00\x06secret";

const C: &[u8] = b"\x10\x1b\x00\x04MQTT\x04\xc2\x00<\x00\x01c\x00\x04pump\x00\x06secret";

/// CONNECT with clean session 0 and no client identifier, and the CONNACK that refuses it (section 3.1.3.1).
const NAMELESS: &[u8] = b"\x10\x1a\x00\x04MQTT\x04\xc0\x00<\x00\x00\x00\x04pump\x00\x06secret";

const NO_NAME: &[u8] = b"\x20\x02\x00\x02";

/// CONNECT of `a` with the retained will `w` on the topic `t`.
const WILLING_A: &[u8] =
    b"\x10\x21\x00\x04MQTT\x04\xe6\x00<\x00\x01a\x00\x01t\x00\x01w\x00\x04pump\x00\x06secret";

/// SUBSCRIBE to `x`, to `y`, to `x` and `z`, to `x` twice.
const X: &[u8] = b"\x82\x06\x00\x01\x00\x01x\x00";

const Y: &[u8] = b"\x82\x06\x00\x02\x00\x01y\x00";

const X_AND_Z: &[u8] = b"\x82\x0a\x00\x03\x00\x01x\x00\x00\x01z\x00";

const X_TWICE: &[u8] = b"\x82\x0a\x00\x04\x00\x01x\x00\x00\x01x\x01";

/// UNSUBSCRIBE from `y`.
const NO_Y: &[u8] = b"\xa2\x05\x00\x05\x00\x01y";

/// PUBLISH with RETAIN: `ab` on `t`, seven bytes on `t`, eight, nothing, and `ab` on `u`.
const T: &[u8] = b"\x31\x05\x00\x01tab";

const T_SEVEN: &[u8] = b"\x31\x0a\x00\x01t1234567";

const T_EIGHT: &[u8] = b"\x31\x0b\x00\x01t12345678";

const T_NONE: &[u8] = b"\x31\x03\x00\x01t";

const U: &[u8] = b"\x31\x05\x00\x01uab";

/// PUBLISH of eight bytes on `t` with QoS 1, without RETAIN.
const LOUD: &[u8] = b"\x32\x0d\x00\x01t\x00\x0912345678";

/// SUBSCRIBE to `t` with QoS 1.
const HEARS: &[u8] = b"\x82\x06\x00\x01\x00\x01t\x01";

const PING: &[u8] = b"\xc0\x00";

const BYE: &[u8] = b"\xe0\x00";

/// A socket in memory.
#[derive(Drop)]
struct Wire {
    /// The most bytes of a read.
    most: usize,
    sent: &'static [u8],
    /// Nothing comes behind what it sent.
    gone: bool,
    got: Vec<u8>,
}

impl Port for Wire {
    fn take(&mut self, piece: &mut [u8]) -> io::Result<usize> {
        if self.sent.is_empty() {
            if self.gone {
                return Ok(0);
            }
            return Err(ErrorKind::WouldBlock.into());
        }
        let count = self.sent.len().min(self.most).min(piece.len());
        let (front, rest) = self.sent.split_at(count);
        piece[..count].copy_from_slice(front);
        self.sent = rest;
        Ok(count)
    }

    fn put(&mut self, bytes: &[u8]) -> io::Result<usize> {
        match self.got.extend_from_slice(bytes) {
            Ok(()) => Ok(bytes.len()),
            Err(_) => Err(ErrorKind::OutOfMemory.into()),
        }
    }

    fn shut(&mut self) {}
}

/// A client behind the door, or one of the server's own.
#[derive(Drop)]
enum Either<'a> {
    Guarded(Guarded<'a, Wire>),
    Own(Farewell),
}

impl Port for Either<'_> {
    fn take(&mut self, piece: &mut [u8]) -> io::Result<usize> {
        match self {
            Either::Guarded(guarded) => guarded.take(piece),
            Either::Own(own) => own.take(piece),
        }
    }

    fn take_within(
        &mut self,
        piece: &mut [u8],
        conn: Conn,
        quotas: &mut Quotas,
    ) -> io::Result<usize> {
        match self {
            Either::Guarded(guarded) => guarded.take_within(piece, conn, quotas),
            Either::Own(own) => own.take(piece),
        }
    }

    fn put(&mut self, bytes: &[u8]) -> io::Result<usize> {
        match self {
            Either::Guarded(guarded) => guarded.put(bytes),
            Either::Own(own) => own.put(bytes),
        }
    }

    fn may_take(&self) -> bool {
        match self {
            Either::Guarded(guarded) => guarded.may_take(),
            Either::Own(_) => false,
        }
    }

    fn waits(&self) -> bool {
        match self {
            Either::Guarded(guarded) => guarded.waits(),
            Either::Own(_) => false,
        }
    }

    fn flush(&mut self) -> io::Result<()> {
        match self {
            Either::Guarded(guarded) => guarded.flush(),
            Either::Own(_) => Ok(()),
        }
    }

    fn is_barred(&self) -> bool {
        match self {
            Either::Guarded(guarded) => guarded.is_barred(),
            Either::Own(_) => false,
        }
    }

    fn bar(&mut self) {
        if let Either::Guarded(guarded) = self {
            guarded.bar();
        }
    }

    fn leave(&mut self, conn: Conn, now: u64, quotas: &mut Quotas) {
        if let Either::Guarded(guarded) = self {
            guarded.leave(conn, now, quotas);
        }
    }

    fn shut(&mut self) {}
}

/// A door that knows the user `pump` with the password `secret`, who may do everything.
fn door(alloc: Global) -> Option<Door> {
    let mut users = Vec::new(alloc);
    users
        .push(User {
            name: String::from_str(alloc, "pump").ok()?,
            salt: Vec::from_slice(alloc, b"salt of pump").ok()?,
            rounds: 3,
            key: KEY,
            rights: Rights {
                node: None,
                host: None,
                publish: None,
                subscribe: None,
            },
        })
        .ok()?;
    Some(Door {
        users: Some(users),
        guard: false,
    })
}

/// Two clients at once, one kept session, two filters, one retained message of eight bytes, and 20 bytes that wait; a kept session ends after a second.
fn holdings(alloc: Global) -> Option<Holdings> {
    let mut limits = Vec::new(alloc);
    limits
        .push(Limits {
            connections: 2,
            sessions: 1,
            filters: 2,
            retained: 1,
            bytes: 8,
            waiting: 20,
        })
        .ok()?;
    Holdings::new(alloc, limits, 1_000).ok()
}

/// The loop, as the tests ask of it.
trait Loops {
    fn come(&mut self, alloc: Global, most: usize) -> Option<Conn>;

    /// A client sends these bytes, or is gone, and some rounds go by at this moment.
    fn send(&mut self, conn: Conn, bytes: Option<&'static [u8]>, now: u64) -> Option<()>;

    /// What it got since this was asked last.
    fn got(&mut self, alloc: Global, conn: Conn) -> Option<Vec<u8>>;

    fn shut(&mut self) -> Option<(Conn, Cause)>;

    /// The session that is to end at this moment ends. Whether there was one.
    fn expire(&mut self, alloc: Global, now: u64) -> Option<bool>;

    /// The session for which too much waits ends, or its client first. Whether there was one, and whether its client was here.
    fn lighten(&mut self, alloc: Global, now: u64) -> Option<(bool, bool)>;
}

#[derive(Drop)]
struct Within<'a> {
    door: &'a Door,
    rounds: Rounds<Either<'a>>,
}

impl Within<'_> {
    fn wire(&mut self, conn: Conn) -> Option<&mut Wire> {
        match self.rounds.port(conn)? {
            Either::Guarded(guarded) => Some(guarded.port()),
            Either::Own(_) => None,
        }
    }

    fn end(&mut self, alloc: Global, client: &str, now: u64) -> Option<()> {
        let own = Farewell::new(alloc, client).ok()?;
        self.rounds.end_session(client, Either::Own(own), now).ok()?;
        let _ = self.rounds.round(now).ok()?;
        Some(())
    }
}

impl Loops for Within<'_> {
    fn come(&mut self, alloc: Global, most: usize) -> Option<Conn> {
        let wire = Wire {
            most,
            sent: b"",
            gone: false,
            got: Vec::new(alloc),
        };
        let guarded = Guarded::new(alloc, wire, self.door);
        self.rounds.come(Either::Guarded(guarded), 0).ok()?
    }

    fn send(&mut self, conn: Conn, bytes: Option<&'static [u8]>, now: u64) -> Option<()> {
        if let Some(wire) = self.wire(conn) {
            match bytes {
                Some(bytes) => wire.sent = bytes,
                None => wire.gone = true,
            }
        }
        for _ in 0..60u8 {
            self.rounds.may_read(conn, false);
            let _ = self.rounds.round(now).ok()?;
        }
        Some(())
    }

    fn got(&mut self, alloc: Global, conn: Conn) -> Option<Vec<u8>> {
        let wire = self.wire(conn)?;
        let got = Vec::from_slice(alloc, &wire.got).ok()?;
        wire.got.clear();
        Some(got)
    }

    fn shut(&mut self) -> Option<(Conn, Cause)> {
        self.rounds.shut_next()
    }

    fn expire(&mut self, alloc: Global, now: u64) -> Option<bool> {
        let Some(client) = self.rounds.expired(now) else {
            return Some(false);
        };
        let client = String::from_str(alloc, client).ok()?;
        self.end(alloc, client.as_str(), now)?;
        Some(true)
    }

    fn lighten(&mut self, alloc: Global, now: u64) -> Option<(bool, bool)> {
        let Some(heavy) = self.rounds.heaviest() else {
            return Some((false, false));
        };
        match heavy.conn {
            Some(conn) => {
                self.rounds.bar(conn);
                Some((true, true))
            }
            None => {
                self.end(alloc, heavy.client.as_str(), now)?;
                Some((true, false))
            }
        }
    }
}

/// What a client does, and what comes of it.
#[derive(Clone, Copy)]
enum Step {
    /// The client at this place sends this, and gets this.
    Gets(usize, &'static [u8], &'static [u8]),
    /// It sends this, or is gone where there is nothing, and its socket is shut for this cause.
    Ends(usize, Option<&'static [u8]>, Cause),
    /// It sends this and gets that, and the socket of another one is shut, whose session it took over.
    TakesOver(usize, &'static [u8], &'static [u8], usize),
    /// It is refused: it gets this, and its socket is shut.
    Refused(usize, &'static [u8], &'static [u8]),
    /// At this moment a session was away for too long, or none was.
    Expires(u64, bool),
    /// For a session too much waits, whose client is here; or there is none.
    Heavy(bool, bool),
}

/// CONNACK without a session, with one, and the server is unavailable (section 3.2.2.3).
const WELCOME: &[u8] = b"\x20\x02\x00\x00";

const AGAIN: &[u8] = b"\x20\x02\x01\x00";

const UNAVAILABLE: &[u8] = b"\x20\x02\x00\x03";

static ROWS: [(&str, &[Step]); 16] = [
    (
        "two clients at once",
        &[
            Step::Gets(0, A, WELCOME),
            Step::Gets(1, B, WELCOME),
            Step::Refused(2, C, UNAVAILABLE),
            Step::Gets(0, PING, b"\xd0\x00"),
            Step::Gets(1, PING, b"\xd0\x00"),
        ],
    ),
    (
        "one that is gone gives its place back",
        &[
            Step::Gets(0, A, WELCOME),
            Step::Gets(1, KEPT_B, WELCOME),
            Step::Ends(1, None, Cause::Gone),
            Step::Gets(2, C, WELCOME),
        ],
    ),
    (
        "one that takes its own session over makes none more",
        &[
            Step::Gets(0, KEPT_A, WELCOME),
            Step::Gets(1, B, WELCOME),
            Step::TakesOver(2, KEPT_A, AGAIN, 0),
            Step::Gets(1, PING, b"\xd0\x00"),
        ],
    ),
    (
        "one that the broker turns away counts nothing",
        &[
            Step::Refused(0, NAMELESS, NO_NAME),
            Step::Gets(1, KEPT_A, WELCOME),
        ],
    ),
    (
        "one kept session, and a clean one beside it",
        &[
            Step::Gets(0, KEPT_A, WELCOME),
            Step::Refused(1, KEPT_B, UNAVAILABLE),
            Step::Gets(2, B, WELCOME),
        ],
    ),
    (
        "a kept session counts while its client is away, and it may come back to it",
        &[
            Step::Gets(0, KEPT_A, WELCOME),
            Step::Ends(0, Some(BYE), Cause::Left),
            Step::Refused(1, KEPT_B, UNAVAILABLE),
            Step::Gets(2, KEPT_A, AGAIN),
        ],
    ),
    (
        "one that its client gave up counts no more",
        &[
            Step::Gets(0, KEPT_A, WELCOME),
            Step::Ends(0, Some(BYE), Cause::Left),
            Step::Gets(1, A, WELCOME),
            Step::Gets(2, KEPT_B, WELCOME),
        ],
    ),
    (
        "two filters of both its sessions, each once",
        &[
            Step::Gets(0, A, WELCOME),
            Step::Gets(1, B, WELCOME),
            Step::Gets(0, X, b"\x90\x03\x00\x01\x00"),
            Step::Gets(0, X_TWICE, b"\x90\x04\x00\x04\x00\x01"),
            Step::Gets(1, Y, b"\x90\x03\x00\x02\x00"),
            Step::Refused(0, X_AND_Z, b""),
        ],
    ),
    (
        "what an UNSUBSCRIBE and an end gave back may be asked for anew",
        &[
            Step::Gets(0, A, WELCOME),
            Step::Gets(0, X, b"\x90\x03\x00\x01\x00"),
            Step::Gets(0, Y, b"\x90\x03\x00\x02\x00"),
            Step::Gets(0, NO_Y, b"\xb0\x02\x00\x05"),
            Step::Gets(1, B, WELCOME),
            Step::Gets(1, Y, b"\x90\x03\x00\x02\x00"),
            Step::Ends(0, None, Cause::Gone),
            Step::Gets(1, X, b"\x90\x03\x00\x01\x00"),
            Step::Refused(1, X_AND_Z, b""),
        ],
    ),
    (
        "one retained message, of eight bytes with its topic",
        &[
            Step::Gets(0, A, WELCOME),
            Step::Gets(0, T, b""),
            Step::Gets(0, T_SEVEN, b""),
            Step::Gets(1, B, WELCOME),
            Step::Refused(1, T_EIGHT, b""),
            Step::Refused(0, U, b""),
        ],
    ),
    (
        "a topic that was cleared counts no more",
        &[
            Step::Gets(0, A, WELCOME),
            Step::Gets(0, T, b""),
            Step::Gets(0, T_NONE, b""),
            Step::Gets(0, U, b""),
            Step::Refused(0, T, b""),
        ],
    ),
    (
        "a will counts at once, and behind its sending",
        &[
            Step::Gets(0, WILLING_A, WELCOME),
            Step::Gets(1, B, WELCOME),
            Step::Refused(1, U, b""),
            Step::Ends(0, None, Cause::Gone),
            Step::Gets(2, B, WELCOME),
            Step::Refused(2, U, b""),
        ],
    ),
    (
        "one that DISCONNECT discards counts no more",
        &[
            Step::Gets(0, WILLING_A, WELCOME),
            Step::Ends(0, Some(BYE), Cause::Left),
            Step::Gets(1, B, WELCOME),
            Step::Gets(1, U, b""),
        ],
    ),
    (
        "a will beside a retained message is one too many",
        &[
            Step::Gets(0, B, WELCOME),
            Step::Gets(0, U, b""),
            Step::Refused(1, WILLING_A, UNAVAILABLE),
            Step::Gets(0, PING, b"\xd0\x00"),
        ],
    ),
    (
        "a session that is away for a second ends, and another one has its place",
        &[
            Step::Gets(0, KEPT_A, WELCOME),
            Step::Expires(5_000, false),
            Step::Ends(0, Some(BYE), Cause::Left),
            Step::Expires(999, false),
            Step::Expires(1_000, true),
            Step::Expires(1_000, false),
            Step::Gets(1, KEPT_B, WELCOME),
        ],
    ),
    (
        "where more than twenty bytes wait its session ends, its client first",
        &[
            Step::Gets(0, KEPT_A, WELCOME),
            Step::Gets(0, HEARS, b"\x90\x03\x00\x01\x01"),
            Step::Gets(1, B, WELCOME),
            Step::Gets(1, LOUD, b"\x40\x02\x00\x09"),
            Step::Gets(1, LOUD, b"\x40\x02\x00\x09"),
            Step::Heavy(false, false),
            Step::Gets(1, LOUD, b"\x40\x02\x00\x09"),
            Step::Heavy(true, true),
            Step::Ends(0, None, Cause::Refused),
            Step::Heavy(true, false),
            Step::Heavy(false, false),
            Step::Gets(2, KEPT_A, WELCOME),
        ],
    ),
];

/// Whether a step comes to what it says.
fn holds(alloc: Global, loops: &mut impl Loops, conns: &[Conn; 3], step: Step) -> Option<bool> {
    match step {
        Step::Gets(who, bytes, gets) => {
            let conn = *conns.get(who)?;
            loops.send(conn, Some(bytes), 0)?;
            let is_open = loops.shut().is_none();
            Some(is_open && loops.got(alloc, conn)?.as_slice() == gets)
        }
        Step::Ends(who, bytes, cause) => {
            let conn = *conns.get(who)?;
            loops.send(conn, bytes, 0)?;
            Some(loops.shut() == Some((conn, cause)))
        }
        Step::TakesOver(who, bytes, gets, old) => {
            let conn = *conns.get(who)?;
            let old = *conns.get(old)?;
            loops.send(conn, Some(bytes), 0)?;
            let got = loops.got(alloc, conn)?;
            Some(got.as_slice() == gets && loops.shut() == Some((old, Cause::TakenOver)))
        }
        Step::Refused(who, bytes, gets) => {
            let conn = *conns.get(who)?;
            loops.send(conn, Some(bytes), 0)?;
            let got = loops.got(alloc, conn)?;
            Some(got.as_slice() == gets && loops.shut() == Some((conn, Cause::Refused)))
        }
        Step::Expires(now, is) => {
            let was = loops.expire(alloc, now)?;
            if was {
                let _own = loops.shut();
            }
            Some(was == is)
        }
        Step::Heavy(is, here) => {
            let (was, was_here) = loops.lighten(alloc, 0)?;
            if was && !was_here {
                let _own = loops.shut();
            }
            Some((was, was_here) == (is, here))
        }
    }
}

/// The place of the first step that doesn't come to what it says; None where each does.
fn first_wrong(
    alloc: Global,
    loops: &mut impl Loops,
    conns: &[Conn; 3],
    steps: &[Step],
) -> Option<Option<usize>> {
    let mut place: usize = 0;
    for step in steps {
        if !holds(alloc, loops, conns, *step)? {
            return Some(Some(place));
        }
        place = place.saturating_add(1);
    }
    Some(None)
}

#[test]
fn no_user_comes_to_hold_more_than_it_may(rt: HostRuntime) -> Result<(), Fail> {
    let alloc = rt.alloc();
    for (what, steps) in ROWS {
        for most in [1, 3, 100] {
            let door = door(alloc).expect(&rt, "a door");
            let mut loops = Within {
                door: &door,
                rounds: Rounds::new(alloc).expect(&rt, "a loop"),
            };
            let holdings = holdings(alloc).expect(&rt, "limits");
            loops.rounds.hold(&door, holdings).expect(&rt, "memory");
            let mut conns: [Conn; 3] = [0; 3];
            for conn in conns.iter_mut() {
                *conn = loops.come(alloc, most).expect(&rt, "a client");
            }
            let wrong = first_wrong(alloc, &mut loops, &conns, steps).expect(&rt, "rounds");
            assert_eq!(rt; wrong, None, "{what}: {most} bytes at a time");
        }
    }
    Ok(())
}
