ghost use Rattle.std.specs.Prelude.{◌≡◌};

use crate::unfriendly::{cuts, floods, rest};
use spk_runtime::{ServeFault, serve};
use std::io::{ErrorKind, Read, Write};
use std::net::{Ipv4Addr, Net, Shutdown, TcpListener, TcpStream};
use std::process::Abort;
use std::sync::Wait;
use std::thread::{Threads, join};
use std::time::{Clock, Duration};
use std::{io, thread};

/// A writer that takes so many bytes.
#[derive(Drop)]
pub(crate) struct Narrow {
    pub(crate) room: usize,
}

impl Write for Narrow {
    fn write(&mut self, buf: &[u8]) -> io::Result<usize> {
        let count = buf.len().min(self.room);
        if count == 0 {
            return Err(ErrorKind::BrokenPipe.into());
        }
        self.room = self.room.saturating_sub(count);
        Ok(count)
    }

    fn flush(&mut self) -> io::Result<()> {
        Ok(())
    }
}

/// A port on which nobody listens.
pub(crate) fn free_port<R: Net<Listener = TcpListener, Stream = TcpStream> + Abort>(rt: &R) -> u16 {
    let listener = TcpListener::bind(rt, (Ipv4Addr::LOCALHOST, 0)).expect(rt, "a port");
    listener.local_addr().expect(rt, "its number").port()
}

/// A client of the server on this port, once it listens.
pub(crate) fn client<R: Net<Listener = TcpListener, Stream = TcpStream> + Clock + Abort>(
    rt: &R,
    port: u16,
) -> TcpStream {
    for _ in 0..500 {
        if let Ok(stream) = TcpStream::connect(rt, (Ipv4Addr::LOCALHOST, port)) {
            let wait = Some(Duration::from_secs(20));
            stream.set_read_timeout(wait).expect(rt, "a timeout");
            return stream;
        }
        let _ = thread::sleep(rt, Duration::from_millis(10));
    }
    panic!(rt; "nobody listens on {port}")
}

/// Sends these bytes.
pub(crate) fn send(rt: &impl Abort, stream: &TcpStream, bytes: &[u8]) {
    let mut writer = stream;
    writer.write_all(bytes).expect(rt, "the server takes it");
}

/// Reads just these bytes.
pub(crate) fn gets(rt: &impl Abort, stream: &TcpStream, bytes: &[u8]) {
    let mut found = [0u8; 64];
    let count = bytes.len().min(64);
    let mut reader = stream;
    reader
        .read_exact(&mut found[..count])
        .expect(rt, "the server sends");
    assert_eq!(rt; &found[..count], bytes);
}

/// Nothing more comes, and the connection ends.
pub(crate) fn ends(rt: &impl Abort, stream: &TcpStream) {
    let mut found = [0u8; 1];
    let mut reader = stream;
    let end = reader.read(&mut found);
    assert!(rt; !matches!(end, Ok(1)));
}

/// CONNECT without a client id, clean session 1.
pub(crate) const CONNECT: &[u8] = b"\x10\x0c\x00\x04MQTT\x04\x02\x00\x3c\x00\x00";

/// CONNECT of client `x`, clean session 0.
const KEPT: &[u8] = b"\x10\x0d\x00\x04MQTT\x04\x00\x00\x3c\x00\x01x";

/// CONNECT with the will `g` on `w`, QoS 0.
pub(crate) const WILLED: &[u8] = b"\x10\x12\x00\x04MQTT\x04\x06\x00\x3c\x00\x00\x00\x01w\x00\x01g";

/// That will, as it is routed.
pub(crate) const WILL: &[u8] = b"\x30\x04\x00\x01wg";

/// CONNACK: accepted.
pub(crate) const WELCOME: &[u8] = b"\x20\x02\x00\x00";

/// SUBSCRIBE to `w` at QoS 0, and its SUBACK.
pub(crate) const WATCH: &[u8] = b"\x82\x06\x00\x01\x00\x01w\x00";

pub(crate) const WATCHED: &[u8] = b"\x90\x03\x00\x01\x00";

pub(crate) const DISCONNECT: &[u8] = b"\xe0\x00";

pub(crate) const PING: &[u8] = b"\xc0\x00";

pub(crate) const PONG: &[u8] = b"\xd0\x00";

/// What clients do, each by its place in the order in which they came.
pub(crate) enum Turn {
    /// One more comes.
    Comes,
    Sends(usize, &'static [u8]),
    /// Each byte in a frame of its own.
    SendsEach(usize, &'static [u8]),
    Gets(usize, &'static [u8]),
    /// It sends no more, or neither sends nor reads.
    Shuts(usize, bool),
    /// Nothing more comes.
    Ends(usize),
    /// Others come with a CONNECT that is cut.
    Cuts,
    /// The first floods the second with messages.
    Floods(usize, usize),
    /// Fewer than so many bytes still come.
    Rest(usize, u64),
}

fn send_each(rt: &impl Abort, stream: &TcpStream, bytes: &[u8]) {
    for byte in bytes {
        send(rt, stream, &[*byte]);
    }
}

fn shut(rt: &impl Abort, stream: &TcpStream, both: bool) {
    let how = if both {
        Shutdown::Both
    } else {
        Shutdown::Write
    };
    stream.shutdown(how).expect(rt, "an end");
}

/// The client of a place.
fn at<'a>(rt: &impl Abort, streams: &'a [TcpStream], place: usize) -> &'a TcpStream {
    streams.get(place).expect(rt, "a client")
}

fn floods_another(rt: &impl Abort, streams: &[TcpStream], from: usize, to: usize) {
    floods(rt, at(rt, streams, from), at(rt, streams, to));
}

/// A turn of clients that are there.
fn act(rt: &impl Abort, streams: &[TcpStream], turn: &Turn) {
    match turn {
        Turn::Sends(place, bytes) => send(rt, at(rt, streams, *place), bytes),
        Turn::SendsEach(place, bytes) => send_each(rt, at(rt, streams, *place), bytes),
        Turn::Gets(place, bytes) => gets(rt, at(rt, streams, *place), bytes),
        Turn::Shuts(place, both) => shut(rt, at(rt, streams, *place), *both),
        Turn::Ends(place) => ends(rt, at(rt, streams, *place)),
        Turn::Floods(from, to) => floods_another(rt, streams, *from, *to),
        Turn::Rest(place, most) => {
            let got = rest(at(rt, streams, *place));
            assert!(rt; got < *most, "{got}");
        }
        _ => {}
    }
}

/// What clients do, one turn after the other.
fn play<R>(rt: &R, port: u16, turns: &[Turn])
where
    R: Net<Listener = TcpListener, Stream = TcpStream> + Clock + Abort + AllocGlobal,
{
    let mut streams = Vec::new(rt.alloc());
    for turn in turns {
        match turn {
            Turn::Comes => streams.push(client(rt, port)).expect(rt, "room"),
            Turn::Cuts => cuts(rt, port),
            turn => act(rt, streams.as_slice(), turn),
        }
    }
}

/// Clients do this while so many are served.
pub(crate) fn serves<R>(rt: &R, clients: u32, turns: &'static [Turn])
where
    R: Net<Listener = TcpListener, Stream = TcpStream>
        + Clock
        + Abort
        + AllocGlobal
        + Threads
        + Wait
        + Sync,
{
    let port = free_port(rt);
    let mut out = Narrow { room: 64 };
    let (served, ()) = join(
        rt,
        || serve(rt, rt.alloc(), port, clients as usize, &mut out),
        || play(rt, port, turns),
    );
    assert_eq!(rt; served, Ok(clients));
}

static ONE: [Turn; 5] = [
    Turn::Comes,
    Turn::Sends(0, CONNECT),
    Turn::Gets(0, WELCOME),
    Turn::Sends(0, DISCONNECT),
    Turn::Ends(0),
];

#[test]
fn one_client_is_served(rt: HostRuntime) {
    serves(&rt, 1, &ONE);
}

static MISSED: [Turn; 15] = [
    Turn::Comes,
    Turn::Sends(0, KEPT),
    Turn::Gets(0, WELCOME),
    Turn::Sends(0, b"\x82\x06\x00\x01\x00\x01a\x01"),
    Turn::Gets(0, b"\x90\x03\x00\x01\x01"),
    Turn::Sends(0, DISCONNECT),
    Turn::Ends(0),
    Turn::Comes,
    Turn::Sends(1, CONNECT),
    Turn::Gets(1, WELCOME),
    Turn::Sends(1, b"\x32\x06\x00\x01a\x00\x07x"),
    Turn::Gets(1, b"\x40\x02\x00\x07"),
    Turn::Comes,
    Turn::Sends(2, KEPT),
    Turn::Gets(2, b"\x20\x02\x01\x00\x32\x06\x00\x01a\x00\x01x"),
];

#[test]
fn what_a_kept_session_missed_is_sent_when_it_is_back(rt: HostRuntime) {
    serves(&rt, 3, &MISSED);
}

static NO_PACKET: [Turn; 13] = [
    Turn::Comes,
    Turn::Sends(0, CONNECT),
    Turn::Gets(0, WELCOME),
    Turn::Sends(0, WATCH),
    Turn::Gets(0, WATCHED),
    Turn::Comes,
    Turn::Sends(1, WILLED),
    Turn::Gets(1, WELCOME),
    Turn::Sends(1, b"\x30"),
    Turn::Shuts(1, true),
    Turn::Gets(0, WILL),
    Turn::Sends(0, PING),
    Turn::Gets(0, PONG),
];

#[test]
fn a_client_that_sends_what_is_no_packet_has_its_will_routed(rt: HostRuntime) {
    serves(&rt, 2, &NO_PACKET);
}

static BEHIND_THE_END: [Turn; 5] = [
    Turn::Comes,
    Turn::SendsEach(0, CONNECT),
    Turn::Gets(0, WELCOME),
    Turn::Sends(0, b"\xe0\x00\xc0\x00"),
    Turn::Ends(0),
];

#[test]
fn what_follows_a_disconnect_is_passed_over(rt: HostRuntime) {
    serves(&rt, 1, &BEHIND_THE_END);
}

/// What a server answers without a client.
fn fault_of<R>(rt: &R, port: u16, clients: usize, room: usize) -> Option<ServeFault>
where
    R: Net<Listener = TcpListener, Stream = TcpStream>
        + Clock
        + AllocGlobal
        + Threads
        + Wait
        + Sync,
{
    serve(rt, rt.alloc(), port, clients, &mut Narrow { room }).err()
}

#[test]
fn a_writer_that_fails_a_port_in_use_and_no_clients_are_refused(rt: HostRuntime) {
    let port = free_port(&rt);
    assert_eq!(rt; fault_of(&rt, port, 1, 0), Some(ServeFault::Device));
    let taken = TcpListener::bind(&rt, (Ipv4Addr::UNSPECIFIED, port));
    assert_eq!(rt; fault_of(&rt, port, 1, 64), Some(ServeFault::Device));
    drop(taken);
    for clients in [0, 1_001] {
        assert_eq!(rt; fault_of(&rt, port, clients, 64), Some(ServeFault::BadPlan));
    }
    assert_eq!(rt; ServeFault::Device.number(), 96);
    assert_eq!(rt; ServeFault::BadPlan.number(), 92);
}
