//! Unfriendly clients of `serve`, over loopback.
use crate::serve::{
    CONNECT, DISCONNECT, PING, PONG, Turn, WATCH, WATCHED, WELCOME, WILL, WILLED, client, ends,
    send, serves,
};
use std::io::Read;
use std::net::{Net, Shutdown, TcpListener, TcpStream};
use std::process::Abort;
use std::time::Clock;

/// The greatest packet has 1,048,576 bytes (own rule); this is the head of one with a byte more: 1,048,573 behind its four.
const TOO_LARGE: &[u8] = b"\x30\xfd\xff\x3f";

/// How many messages pass: so many times so many.
const ROUNDS: u32 = 250;

const TOGETHER: u32 = 64;

/// A message of 1,024 bytes on `w`, at QoS 0: 1,021 bytes behind its head of three.
fn message() -> [u8; 1024] {
    let mut bytes = [b'x'; 1024];
    bytes[0] = 0x30;
    bytes[1] = 0xfd;
    bytes[2] = 7;
    bytes[3] = 0;
    bytes[4] = 1;
    bytes[5] = b'w';
    bytes
}

/// What still comes until the connection ends, in bytes.
pub(crate) fn rest(stream: &TcpStream) -> u64 {
    let mut found = [0u8; 1024];
    let mut total = 0u64;
    let mut reader = stream;
    for _ in 0..1_000_000 {
        match reader.read(&mut found) {
            Ok(0) | Err(_) => return total,
            Ok(count) => total = total.saturating_add(count as u64),
        }
    }
    total
}

/// A client whose CONNECT is cut before a byte.
fn cut_at(rt: &impl Abort, stream: &TcpStream, cut: usize) {
    send(rt, stream, WILLED.get(..cut).expect(rt, "its first bytes"));
    stream.shutdown(Shutdown::Write).expect(rt, "an end");
    ends(rt, stream);
}

/// One client for each byte of a CONNECT, cut before it.
pub(crate) fn cuts<R>(rt: &R, port: u16)
where
    R: Net<Listener = TcpListener, Stream = TcpStream> + Clock + Abort,
{
    for cut in 0..20usize {
        cut_at(rt, &client(rt, port), cut);
    }
}

static CUT: [Turn; 13] = [
    Turn::Comes,
    Turn::Sends(0, CONNECT),
    Turn::Gets(0, WELCOME),
    Turn::Sends(0, WATCH),
    Turn::Gets(0, WATCHED),
    Turn::Cuts,
    Turn::Sends(0, PING),
    Turn::Gets(0, PONG),
    // the whole one, as a check that its will would come
    Turn::Comes,
    Turn::Sends(1, WILLED),
    Turn::Gets(1, WELCOME),
    Turn::Shuts(1, false),
    Turn::Gets(0, WILL),
];

#[test]
fn a_connect_that_is_cut_routes_no_will(rt: HostRuntime) {
    serves(&rt, 22, &CUT);
}

static LARGE: [Turn; 11] = [
    Turn::Comes,
    Turn::Sends(0, CONNECT),
    Turn::Gets(0, WELCOME),
    Turn::Sends(0, WATCH),
    Turn::Gets(0, WATCHED),
    Turn::Comes,
    Turn::Sends(1, WILLED),
    Turn::Gets(1, WELCOME),
    Turn::Sends(1, TOO_LARGE),
    Turn::Ends(1),
    Turn::Gets(0, WILL),
];

#[test]
fn a_packet_over_the_limit_is_refused_at_its_head(rt: HostRuntime) {
    serves(&rt, 2, &LARGE);
}

/// So many messages of one client come to another.
fn round(rt: &impl Abort, speaker: &TcpStream, awake: &TcpStream, sent: &[u8; 1024]) {
    for _ in 0..TOGETHER {
        send(rt, speaker, sent);
    }
    let mut found = [0u8; 1024];
    let mut reader = awake;
    for _ in 0..TOGETHER {
        reader.read_exact(&mut found).expect(rt, "a message");
        assert!(rt; found == *sent);
    }
}

/// All messages of one client come to another.
pub(crate) fn floods(rt: &impl Abort, speaker: &TcpStream, awake: &TcpStream) {
    let sent = message();
    for _ in 0..ROUNDS {
        round(rt, speaker, awake, &sent);
    }
}

static ASLEEP: [Turn; 17] = [
    Turn::Comes,
    Turn::Sends(0, CONNECT),
    Turn::Gets(0, WELCOME),
    Turn::Sends(0, WATCH),
    Turn::Gets(0, WATCHED),
    Turn::Comes,
    Turn::Sends(1, CONNECT),
    Turn::Gets(1, WELCOME),
    Turn::Sends(1, WATCH),
    Turn::Gets(1, WATCHED),
    Turn::Comes,
    Turn::Sends(2, CONNECT),
    Turn::Gets(2, WELCOME),
    Turn::Floods(2, 1),
    // its ring is full long before, and 128 refused sends close it
    Turn::Rest(0, 16_000 * 1024),
    Turn::Sends(1, DISCONNECT),
    Turn::Ends(1),
];

#[test]
fn one_that_never_reads_costs_no_other_a_message(rt: HostRuntime) {
    serves(&rt, 3, &ASLEEP);
}
