//! Why a client's socket is shut, and what is counted.

use crate::pressure::PATIENT;
use crate::serve::{PING, WATCH, WILL};
use spk_server::{Cause, Conn, Server, Tally};
use std::alloc::Global;
use std::process::Abort;

/// CONNECT with the client id `a`, clean session 1, and a keep alive of one second.
const NAMED: &[u8] = b"\x10\x0d\x00\x04MQTT\x04\x02\x00\x01\x00\x01a";

/// The same of another protocol level.
const OLDER: &[u8] = b"\x10\x0d\x00\x04MQTT\x03\x02\x00\x01\x00\x01a";

/// CONNECT without a client id, clean session 0 (section 3.1.3.1).
const NAMELESS: &[u8] = b"\x10\x0c\x00\x04MQTT\x04\x00\x00\x00\x00\x00";

/// What a client does, or what is done to it.
#[derive(Clone, Copy, Debug)]
enum Act {
    /// It sends these bytes.
    Sends(&'static [u8]),
    /// Its socket is gone.
    Ends,
    /// Another one comes with these bytes.
    Another(&'static [u8]),
    /// So many milliseconds pass.
    Waits(u64),
}

/// What a client sends first, what happens then, and why its socket is shut.
const ROWS: [(&[u8], Act, Cause); 14] = [
    (NAMED, Act::Sends(b"\xe0\x00"), Cause::Left),
    // what follows doesn't count any more
    (NAMED, Act::Sends(b"\xe0\x00\x00\x00"), Cause::Left),
    (NAMED, Act::Ends, Cause::Gone),
    (b"", Act::Ends, Cause::Gone),
    (b"", Act::Waits(10_000), Cause::Silent),
    (NAMED, Act::Sends(b"\x00\x00"), Cause::Unreadable),
    (NAMED, Act::Sends(b"\x00\x00\xe0\x00"), Cause::Unreadable),
    (b"", Act::Sends(OLDER), Cause::Refused),
    (b"", Act::Sends(PING), Cause::Refused),
    (b"", Act::Sends(b"\xe0\x00"), Cause::Refused),
    (b"", Act::Sends(NAMELESS), Cause::Refused),
    (NAMED, Act::Sends(NAMED), Cause::Refused),
    (NAMED, Act::Waits(1_501), Cause::KeepAlive),
    (NAMED, Act::Another(NAMED), Cause::TakenOver),
];

/// A server without sockets, as the test asks of it. None where it refuses.
trait Serves {
    /// A client comes, and sends these bytes.
    fn come(&mut self, bytes: &[u8], now: u64) -> Option<Conn>;

    /// A client sends bytes. Whether it is made to wait then.
    fn hear(&mut self, conn: Conn, bytes: &[u8], now: u64) -> Option<bool>;

    /// A client's socket is gone.
    fn lose(&mut self, conn: Conn, now: u64) -> Option<()>;

    /// Time passes.
    fn pass(&mut self, now: u64) -> Option<()>;

    /// All that waits is written.
    fn write(&mut self, batch: &mut Vec<u8>) -> Option<()>;

    /// Whose socket is to be shut, and why.
    fn shut(&mut self) -> Option<(Conn, Cause)>;

    fn told(&self) -> Tally;
}

impl Serves for Server {
    fn come(&mut self, bytes: &[u8], now: u64) -> Option<Conn> {
        let conn = self.accepted(now).ok()?;
        self.read(conn, bytes, now).ok()?;
        Some(conn)
    }

    fn hear(&mut self, conn: Conn, bytes: &[u8], now: u64) -> Option<bool> {
        self.read(conn, bytes, now).ok()?;
        Some(self.is_held(conn))
    }

    fn lose(&mut self, conn: Conn, now: u64) -> Option<()> {
        self.gone(conn, now).ok()
    }

    fn pass(&mut self, now: u64) -> Option<()> {
        self.moment(now).ok()?;
        self.go_on(now).ok()
    }

    fn write(&mut self, batch: &mut Vec<u8>) -> Option<()> {
        for _ in 0..4_096 {
            let Some(conn) = self.next_to_write() else {
                break;
            };
            for _ in 0..16 {
                batch.clear();
                self.gather(conn, batch);
                self.wrote(conn, batch.len()).ok()?;
            }
        }
        Some(())
    }

    fn shut(&mut self) -> Option<(Conn, Cause)> {
        self.next_to_shut()
    }

    fn told(&self) -> Tally {
        self.tally()
    }
}

/// Why a client's socket is shut. None where it isn't.
fn cause_of(alloc: Global, server: &mut impl Serves, first: &[u8], act: Act) -> Option<Cause> {
    let mut batch = Vec::new(alloc);
    let conn = server.come(first, 1_000)?;
    server.write(&mut batch)?;
    match act {
        Act::Sends(bytes) => {
            server.hear(conn, bytes, 1_000)?;
        }
        Act::Ends => server.lose(conn, 1_000)?,
        Act::Another(bytes) => {
            server.come(bytes, 1_000)?;
        }
        Act::Waits(span) => server.pass(span.saturating_add(1_000))?,
    }
    server.write(&mut batch)?;
    let (shut, cause) = server.shut()?;
    if shut == conn { Some(cause) } else { None }
}

#[test]
fn a_socket_is_shut_for_its_first_cause(rt: HostRuntime) {
    for (first, act, cause) in ROWS {
        let mut server = Server::new(rt.alloc());
        let found = cause_of(rt.alloc(), &mut server, first, act);
        assert_eq!(rt; found, Some(cause), "of {act:?}");
    }
}

/// One who subscribes and doesn't read is sent 1,152 messages: what is counted, and why its socket is shut.
fn flooded(alloc: Global, server: &mut impl Serves) -> Option<(Tally, Cause)> {
    let mut batch = Vec::new(alloc);
    let slow = server.come(PATIENT, 1_000)?;
    server.hear(slow, WATCH, 1_000)?;
    let publisher = server.come(PATIENT, 1_000)?;
    server.write(&mut batch)?;
    for _ in 0..513 {
        server.hear(publisher, WILL, 1_005)?;
    }
    server.pass(1_205)?;
    for _ in 0..639 {
        server.hear(publisher, WILL, 1_206)?;
    }
    server.hear(publisher, PING, 1_206)?;
    let tally = server.told();
    server.write(&mut batch)?;
    let (_, cause) = server.shut()?;
    Some((tally, cause))
}

#[test]
fn what_came_and_went_is_counted(rt: HostRuntime) {
    let mut server = Server::new(rt.alloc());
    let wanted = Tally {
        heard: 1_152,
        sent: 1_024,
        dropped: 128,
        stalls: 1,
    };
    let found = flooded(rt.alloc(), &mut server);
    assert_eq!(rt; found, Some((wanted, Cause::Slow)));
}

/// How many sessions and retained messages there are.
fn kept(server: &mut Server) -> Option<(usize, usize)> {
    server.come(NAMED, 1_000)?;
    let conn = server.come(PATIENT, 1_000)?;
    server.come(b"", 1_000)?;
    server.hear(conn, b"\x31\x04\x00\x01wg", 1_000)?;
    Some((server.sessions(), server.retained()))
}

#[test]
fn sessions_and_retained_messages_are_counted(rt: HostRuntime) {
    let mut server = Server::new(rt.alloc());
    assert_eq!(rt; kept(&mut server), Some((2, 1)));
}
