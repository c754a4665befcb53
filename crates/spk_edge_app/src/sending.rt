//! What the node answers is sent, behind what waits.
ghost use Rattle.std.specs.Prelude.{◌≡◌, ◌≢◌, ◌⊎◌, Bool, true, false, []};
ghost use Rattle.std.specs.List.{flat_map};
ghost use Rattle.spk_connection.specs.Step.{after_sent, is_open};
ghost use Rattle.spk_edge.specs.Sealing.{bytes_of};
ghost use Rattle.spk_edge_app.specs.Step.{MaySend, bytes_in, ending, noted, given_up, sending, sent_where, shutting, told, until, wanted_by, with_connection};

use crate::app::{EdgeApp, wanted_by};
use spk_edge::{Out, Write};

/// How long a connection that is to be closed may take to write what waits, in milliseconds (own rule).
const GRACE: u64 = 5_000;

impl EdgeApp {
    /// The connection, if there is one, is to be closed.
    pub(crate) fn shut(&mut self, now: u64)
        ensures { self.new ≡ shutting now self.old }
    {
        if self.closing.is_none() && self.connection.is_open() {
            self.closing = Some(now.saturating_add(GRACE));
        }
    }

    /// The session is over, and the connection is to be closed.
    pub(crate) fn give_up(&mut self, now: u64)
        ensures { self.new ≡ given_up now self.old }
    {
        self.node.cut();
        self.shut(now);
    }

    /// Sends bytes, if there are some. Whether they were sent.
    pub(crate) fn send(&mut self, bytes: &[u8]) -> bool
        ensures sent { self.new ≡ sent_where result bytes.now self.old }
        ensures may { result ≡ true → (bytes.now ≡ []) ⊎ (is_open self.old.connection ≡ true) }
    {
        if bytes.is_empty() {
            return true;
        }
        self.connection.send(bytes).is_ok()
    }

    /// Sends packets. Whether they were sent.
    fn send_all(&mut self, packets: &Vec<Vec<u8>>) -> bool
        ensures sent { self.new ≡ sent_where result (flat_map bytes_of packets.now.items) self.old }
        ensures may { result ≡ true → (flat_map bytes_of packets.now.items ≡ [])
            ⊎ (is_open self.old.connection ≡ true) }
        ensures some { result ≡ false → packets.now.items ≢ [] }
    {
        if packets.is_empty() {
            return true;
        }
        match packets.as_slice().concat(self.alloc) {
            Ok(bytes) => self.send(&bytes),
            Err(_) => false,
        }
    }

    /// Ends the connection where an answer was dropped, or asks so.
    pub(crate) fn end(&mut self, sent: bool, close: bool, now: u64)
        ensures { self.new ≡ ending sent close now self.old }
    {
        if !sent {
            self.give_up(now);
        } else if close {
            self.shut(now);
        }
    }

    /// The record is wanted that covers what the node did, and the values that it gave wait for the machine.
    pub(crate) fn note(&mut self, writes: Vec<Write>)
        ensures { self.new ≡ noted writes.items self.old }
    {
        self.wanted = wanted_by(self.kept, self.wanted, &self.node);
        self.writes.push_all(writes);
    }

    /// The node answered this: its packets are sent, and its values wait for the machine. Where the packets can't be sent, the connection is given up.
    pub(crate) fn answer(&mut self, out: Out, now: u64)
        ensures { (sent : Bool) × MaySend sent out (bytes_in out) self.old.connection
            × (self.new ≡ sending sent (bytes_in out) out.close now (told self.old.node out self.old)) }
    {
        let Out {
            packets,
            writes,
            close,
        } = out;
        self.note(writes);
        let sent = self.send_all(&packets);
        self.end(sent, close, now);
    }
}
