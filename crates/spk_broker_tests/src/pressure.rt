//! Who is made to wait for a client for whom many packets wait: who published to it, and nobody else.

use crate::serve::{PING, PONG, WATCH, WILL};
use spk_server::{Conn, Server};
use std::alloc::Global;
use std::process::Abort;

/// CONNECT without a client id, clean session 1, no keep alive.
pub(crate) const PATIENT: &[u8] = b"\x10\x0c\x00\x04MQTT\x04\x02\x00\x00\x00\x00";

/// The same with the will `g` on `w`, QoS 0, and a keep alive of one second.
const MORTAL: &[u8] = b"\x10\x12\x00\x04MQTT\x04\x06\x00\x01\x00\x00\x00\x01w\x00\x01g";

/// How many messages of one client wait for another before that is made to wait.
const MANY: usize = 513;

/// What brings one more message to the client for whom many wait. It is nobody's PUBLISH.
#[derive(Clone, Copy, Debug)]
enum Cause {
    /// A client's socket is gone: its will is routed.
    Lost,
    /// A client is silent for too long: its will is routed at a tick.
    Silent,
    /// A client sends bytes that are no packet: its will is routed.
    Nonsense,
}

const CAUSES: [Cause; 3] = [Cause::Lost, Cause::Silent, Cause::Nonsense];

/// A server without sockets, as the test asks of it. None where it refuses.
trait Serves {
    /// A client comes, and sends these bytes.
    fn come(&mut self, bytes: &[u8], now: u64) -> Option<Conn>;

    /// A client sends bytes. Whether it is made to wait then.
    fn hear(&mut self, conn: Conn, bytes: &[u8], now: u64) -> Option<bool>;

    /// A client's socket is gone.
    fn lose(&mut self, conn: Conn, now: u64) -> Option<()>;

    /// Time passes.
    fn pass(&mut self, now: u64) -> Option<()>;

    /// How many bytes wait for a client.
    fn waiting(&self, conn: Conn, batch: &mut Vec<u8>) -> usize;
}

impl Serves for Server {
    fn come(&mut self, bytes: &[u8], now: u64) -> Option<Conn> {
        let conn = self.accepted(now).ok()?;
        self.read(conn, bytes, now).ok()?;
        Some(conn)
    }

    fn hear(&mut self, conn: Conn, bytes: &[u8], now: u64) -> Option<bool> {
        self.read(conn, bytes, now).ok()?;
        Some(self.is_held(conn))
    }

    fn lose(&mut self, conn: Conn, now: u64) -> Option<()> {
        self.gone(conn, now).ok()
    }

    fn pass(&mut self, now: u64) -> Option<()> {
        self.moment(now).ok()?;
        Some(())
    }

    fn waiting(&self, conn: Conn, batch: &mut Vec<u8>) -> usize {
        batch.clear();
        self.gather(conn, batch);
        batch.len()
    }
}

/// One more message comes.
fn bring(server: &mut impl Serves, cause: Cause, mortal: Conn) -> Option<()> {
    match cause {
        Cause::Lost => server.lose(mortal, 1_010),
        Cause::Silent => server.pass(1_010 + 5_000),
        Cause::Nonsense => {
            server.hear(mortal, b"\x00\x00", 1_010)?;
            Some(())
        }
    }
}

/// Whether the publisher is made to wait, and then one that pings; and how many more bytes wait for each.
fn pressed(alloc: Global, server: &mut impl Serves, cause: Cause) -> Option<(bool, bool, usize)> {
    let slow = server.come(PATIENT, 1_000)?;
    server.hear(slow, WATCH, 1_000)?;
    let publisher = server.come(PATIENT, 1_000)?;
    let mortal = server.come(MORTAL, 1_000)?;
    let innocent = server.come(PATIENT, 1_000)?;
    let mut held = false;
    for _ in 0..MANY {
        held = server.hear(publisher, WILL, 1_005)?;
    }
    bring(server, cause, mortal)?;
    let mut batch = Vec::new(alloc);
    let before = server.waiting(innocent, &mut batch);
    let waits = server.hear(innocent, PING, 1_010 + 5_000)?;
    let after = server.waiting(innocent, &mut batch);
    Some((held, waits, after.saturating_sub(before)))
}

#[test]
fn only_who_published_to_a_slow_client_waits_for_it(rt: HostRuntime) {
    let alloc = rt.alloc();
    for cause in CAUSES {
        let mut server = Server::new(alloc);
        let found = pressed(alloc, &mut server, cause);
        assert_eq!(rt; found, Some((true, false, PONG.len())));
    }
}
