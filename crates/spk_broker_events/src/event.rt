//! What comes to a broker.

use spk_packets::{Packet, PacketFault};
use spk_session::Sort;

/// What comes to a broker, each with its moment in milliseconds, as the rules have it (`spk_broker_rules`, `Event`). Connections are numbers.
#[derive(Debug, PartialEq, Eq, Drop)]
pub enum Event {
    Open {
        moment: u64,
    },
    Packet {
        conn: u64,
        packet: Packet,
        moment: u64,
    },
    /// Bytes that are no packet.
    Fault {
        conn: u64,
        fault: PacketFault,
        moment: u64,
    },
    /// The connection ended without the broker.
    Closed {
        conn: u64,
        moment: u64,
    },
    Tick {
        moment: u64,
    },
    /// A send to this connection couldn't be taken.
    Refused {
        conn: u64,
        sort: Sort,
        moment: u64,
    },
}
