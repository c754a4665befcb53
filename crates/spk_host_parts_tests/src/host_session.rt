//! Whole sessions and requests, their bytes by hand from MQTT 3.1.1 (chapter 3) and Sparkplug 3.0.0 (chapters 5 and 6). Out of memory is a right
//! answer wherever memory is asked for: the call is made again.
use spk_host_session::{HostConfig, HostFault, HostSession, acknowledgement, rebirth};
use spk_sequence::Width;
use std::alloc::{AllocError, Global};
use std::process::Abort;

const CONNECT: &[u8] =
    b"\x10>\x00\x04MQTT\x04.\x00<\x00\x01H\x00\x0fspBv1.0/STATE/H\x00\x1e{\"online\":false,\"timestamp\":5}";

const SUBSCRIBE: &[u8] = b"\x82\x10\x00\x01\x00\x0bspBv1.0/G/#\x01";

const ONLINE: &[u8] = b"30\x00\x0fspBv1.0/STATE/H\x00\x02{\"online\":true,\"timestamp\":5}";

const OFFLINE: &[u8] = b"32\x00\x0fspBv1.0/STATE/H\x00\x03{\"online\":false,\"timestamp\":12}";

const DISCONNECT: &[u8] = b"\xe0\x00";

const REBIRTH: &[u8] =
    b"02\x00\x10spBv1.0/G/NCMD/N\x08\x09\x12\x1c\x0a\x14Node Control/Rebirth\x18\x09 \x0bp\x01";

/// A text. Where memory was refused it is made again.
fn text(rt: &(impl Abort + AllocGlobal), words: &str) -> String {
    match String::from_str(rt.alloc(), words) {
        Ok(text) => text,
        Err(_) => String::from_str(rt.alloc(), words).expect(rt, "memory is there again"),
    }
}

fn config(rt: &(impl Abort + AllocGlobal), name: &str, group: &str) -> HostConfig {
    HostConfig {
        name: text(rt, name),
        group: text(rt, group),
        wait: 2000,
        keep: 60,
        width: Width::new(64).expect(rt, "a width"),
    }
}

fn host(rt: &(impl Abort + AllocGlobal)) -> HostSession {
    HostSession::new(rt.alloc(), config(rt, "H", "G")).expect(rt, "a host")
}

/// What the tests ask of a session; they are written over any that answers it. Where memory was refused a call is made again.
trait Talks {
    fn connect(&mut self, now: u64) -> Result<Vec<u8>, HostFault>;

    fn answer(&mut self, code: u8) -> Result<Vec<Vec<u8>>, HostFault>;

    fn grant(&mut self) -> Result<Vec<u8>, HostFault>;

    fn halt(&mut self, now: u64) -> Result<Vec<Vec<u8>>, HostFault>;

    fn begin_anew(&mut self, now: u64) -> Option<Vec<u8>>;

    fn end(&mut self);

    fn is_talking(&self) -> bool;

    /// Its keep alive, in seconds.
    fn keep(&self) -> u16;
}

impl Talks for HostSession {
    fn connect(&mut self, now: u64) -> Result<Vec<u8>, HostFault> {
        match self.connected(now) {
            Err(HostFault::NoMemory) => self.connected(now),
            answer => answer,
        }
    }

    fn answer(&mut self, code: u8) -> Result<Vec<Vec<u8>>, HostFault> {
        match self.answered(code) {
            Err(HostFault::NoMemory) => self.answered(code),
            answer => answer,
        }
    }

    fn grant(&mut self) -> Result<Vec<u8>, HostFault> {
        match self.granted() {
            Err(HostFault::NoMemory) => self.granted(),
            answer => answer,
        }
    }

    fn halt(&mut self, now: u64) -> Result<Vec<Vec<u8>>, HostFault> {
        match self.stop(now) {
            Err(HostFault::NoMemory) => self.stop(now),
            answer => answer,
        }
    }

    fn begin_anew(&mut self, now: u64) -> Option<Vec<u8>> {
        match self.renew(now) {
            Err(_) => self.renew(now).ok(),
            answer => answer.ok(),
        }
    }

    fn end(&mut self) {
        self.ended();
    }

    fn is_talking(&self) -> bool {
        self.is_open()
    }

    fn keep(&self) -> u16 {
        self.config().keep
    }
}

#[derive(Clone, Copy)]
enum Call {
    Connected(u64),
    Answered(u8),
    Granted,
    Stop(u64),
    Renew(u64),
    Ended,
}

/// A row: a call, the packets that it says, whether it is refused, and whether the session is open then.
struct Row {
    call: Call,
    says: &'static [&'static [u8]],
    refused: bool,
    open: bool,
}

const WHOLE: &[Row] = &[
    Row {
        call: Call::Connected(5),
        says: &[CONNECT],
        refused: false,
        open: true,
    },
    Row {
        call: Call::Answered(0),
        says: &[SUBSCRIBE],
        refused: false,
        open: true,
    },
    Row {
        call: Call::Granted,
        says: &[ONLINE],
        refused: false,
        open: true,
    },
    Row {
        call: Call::Stop(12),
        says: &[OFFLINE, DISCONNECT],
        refused: false,
        open: false,
    },
];

const PHASES: &[Row] = &[
    Row {
        call: Call::Ended,
        says: &[],
        refused: false,
        open: false,
    },
    Row {
        call: Call::Answered(0),
        says: &[],
        refused: true,
        open: false,
    },
    Row {
        call: Call::Granted,
        says: &[],
        refused: true,
        open: false,
    },
    Row {
        call: Call::Stop(1),
        says: &[],
        refused: true,
        open: false,
    },
    Row {
        call: Call::Connected(5),
        says: &[CONNECT],
        refused: false,
        open: true,
    },
    Row {
        call: Call::Connected(6),
        says: &[],
        refused: true,
        open: true,
    },
    // a code other than 0 ends the session
    Row {
        call: Call::Answered(5),
        says: &[],
        refused: false,
        open: false,
    },
    Row {
        call: Call::Granted,
        says: &[],
        refused: true,
        open: false,
    },
];

const RENEWED: &[Row] = &[
    Row {
        call: Call::Renew(5),
        says: &[CONNECT],
        refused: false,
        open: true,
    },
    Row {
        call: Call::Granted,
        says: &[ONLINE],
        refused: false,
        open: true,
    },
    Row {
        call: Call::Renew(5),
        says: &[CONNECT],
        refused: false,
        open: true,
    },
    Row {
        call: Call::Granted,
        says: &[ONLINE],
        refused: false,
        open: true,
    },
    Row {
        call: Call::Ended,
        says: &[],
        refused: false,
        open: false,
    },
];

fn same(found: &[Vec<u8>], wanted: &[&[u8]]) -> bool {
    for (one, other) in found.iter().zip(wanted) {
        if one.as_slice() != *other {
            return false;
        }
    }
    found.len() == wanted.len()
}

/// Whether a call is refused so as the row says.
fn is_refused(fault: HostFault, row: &Row) -> bool {
    row.refused && fault == HostFault::WrongPhase
}

fn is_one(answer: Result<Vec<u8>, HostFault>, row: &Row) -> bool {
    match answer {
        Ok(packet) => match row.says {
            [says] => !row.refused && packet.as_slice() == *says,
            _ => false,
        },
        Err(fault) => is_refused(fault, row),
    }
}

fn are_all(answer: Result<Vec<Vec<u8>>, HostFault>, row: &Row) -> bool {
    match answer {
        Ok(packets) => !row.refused && same(packets.as_slice(), row.says),
        Err(fault) => is_refused(fault, row),
    }
}

fn is_answered<T: Talks>(session: &mut T, row: &Row) -> bool {
    match row.call {
        Call::Connected(now) => is_one(session.connect(now), row),
        Call::Answered(code) => are_all(session.answer(code), row),
        Call::Granted => is_one(session.grant(), row),
        Call::Stop(now) => are_all(session.halt(now), row),
        Call::Renew(now) => match session.begin_anew(now) {
            Some(packet) => is_one(Ok(packet), row),
            None => false,
        },
        Call::Ended => {
            session.end();
            true
        }
    }
}

/// The first row that isn't answered so, or leaves the session otherwise.
fn first_wrong<T: Talks>(session: &mut T, rows: &[Row]) -> Option<usize> {
    for (place, row) in rows.iter().enumerate() {
        if !is_answered(session, row) || session.is_talking() != row.open {
            return Some(place);
        }
    }
    None
}

fn plays<T: Talks>(session: &mut T, rows: &[Row]) -> bool {
    !session.is_talking() && session.keep() == 60 && first_wrong(session, rows).is_none()
}

/// What a run shows, and its rows.
static RUNS: [(&str, &[Row]); 3] = [
    ("a session from CONNECT to DISCONNECT", WHOLE),
    ("calls in the wrong phase", PHASES),
    ("a session is renewed in any phase", RENEWED),
];

fn is_run(rt: &(impl Abort + AllocGlobal), rows: &[Row]) -> bool {
    plays(&mut host(rt), rows)
}

#[test]
fn a_session_says_its_packets_in_its_phases(rt: HostRuntime) {
    for (shows, rows) in &RUNS {
        assert!(rt; is_run(&rt, rows), "{shows}");
    }
}

/// A host's name and its group, one of which can't stand in a topic.
static NO_NAMES: [(&str, &str); 6] = [
    ("", "G"),
    ("H", ""),
    ("a/b", "G"),
    ("H", "+"),
    ("#", "G"),
    ("H", "\0"),
];

/// Why there is no host of this name and group, if there is none.
fn no_host(rt: &(impl Abort + AllocGlobal), name: &str, group: &str) -> Option<HostFault> {
    HostSession::new(rt.alloc(), config(rt, name, group)).err()
}

/// A rebirth request at moment 9, for a node of this group and name. Where memory was refused it is made again.
fn rebirth_again(alloc: Global, group: &str, node: &str) -> Result<Vec<u8>, HostFault> {
    match rebirth(alloc, group, node, 9) {
        Err(HostFault::NoMemory) => rebirth(alloc, group, node, 9),
        answer => answer,
    }
}

/// Why there is no such request, if there is none.
fn no_rebirth(alloc: Global, group: &str, node: &str) -> Option<HostFault> {
    rebirth_again(alloc, group, node).err()
}

#[test]
fn names_that_cannot_stand_in_a_topic(rt: HostRuntime) {
    let refused = Some(HostFault::NotSparkplug);
    for (name, group) in &NO_NAMES {
        let is_so = no_host(&rt, name, group) == refused
            && no_rebirth(rt.alloc(), name, group) == refused;
        assert!(rt; is_so, "{name:?} {group:?}");
    }
}

/// The acknowledgement of an identifier. Where memory was refused it is made again.
fn acknowledged(alloc: Global, id: u16) -> Result<Vec<u8>, AllocError> {
    match acknowledgement(alloc, id) {
        Err(_) => acknowledgement(alloc, id),
        answer => answer,
    }
}

fn is_requested(alloc: Global) -> bool {
    match rebirth_again(alloc, "G", "N") {
        Ok(packet) => packet.as_slice() == REBIRTH,
        Err(_) => false,
    }
}

fn is_acknowledged(alloc: Global) -> bool {
    match acknowledged(alloc, 0x1234) {
        Ok(packet) => packet.as_slice() == b"\x40\x02\x12\x34".as_slice(),
        Err(_) => false,
    }
}

#[test]
fn a_rebirth_request_and_an_acknowledgement(rt: HostRuntime) {
    assert!(rt; is_requested(rt.alloc()));
    assert!(rt; is_acknowledged(rt.alloc()));
}

#[test]
fn faults_have_their_numbers(rt: HostRuntime) {
    assert!(rt; HostFault::NotSparkplug.number() == 70 && HostFault::WrongPhase.number() == 75);
}
