//! What came and went since the server began, in numbers.
ghost use Rattle.std.specs.Prelude.{◌≡◌};
ghost use Rattle.spk_packets.specs.View.{view};
ghost use Rattle.spk_server.specs.Tallies.{handed_with, heard_with, is_message, stalled};

use spk_clients::{Bytes, Offered};
use spk_packets::Packet;

/// What came and went since the server began. Each count stands at the greatest number.
#[derive(Clone, Copy, Debug, PartialEq, Eq)]
pub struct Tally {
    /// How many PUBLISH packets of clients were taken.
    pub heard: u64,
    /// How many PUBLISH packets for clients were put among what waits to be written.
    pub sent: u64,
    /// How many packets for clients were refused: too many waited, or there was no memory.
    pub dropped: u64,
    /// How often a publisher was made to wait for a client, itself among these, for whom many packets wait.
    pub stalls: u64,
}

/// Whether these are the bytes of a PUBLISH (section 2.2.1).
pub(crate) fn is_message(bytes: &Bytes) -> bool
    ensures { result ≡ is_message bytes.now }
{
    match bytes.first() {
        Some(first) => first >= 0x30 && first < 0x40,
        None => false,
    }
}

impl Tally {
    /// A packet of a client was taken.
    pub(crate) fn hear(&mut self, packet: &Packet)
        ensures { self.new ≡ heard_with (view packet.now) self.old }
    {
        if let Packet::Publish { .. } = packet {
            self.heard = self.heard.saturating_add(1);
        }
    }

    /// A packet was offered to its client. Whether it is a PUBLISH is known.
    pub(crate) fn hand(&mut self, fate: Offered, message: bool)
        ensures { self.new ≡ handed_with fate message self.old }
    {
        match fate {
            Offered::Taken => {
                if message {
                    self.sent = self.sent.saturating_add(1);
                }
            }
            Offered::Refused => self.dropped = self.dropped.saturating_add(1),
            Offered::Passed => {}
        }
    }

    /// A publisher is made to wait.
    pub(crate) fn stall(&mut self)
        ensures { self.new ≡ stalled self.old }
    {
        self.stalls = self.stalls.saturating_add(1);
    }
}
