//! What happens in a world.
use spk_device::Alias;
use spk_payload::Value;

/// An event. Nodes and hosts are by number, from 0; moments are in milliseconds since 1970.
#[derive(Debug, PartialEq, Drop)]
pub enum Event {
    /// A node opens a connection.
    Open {
        node: usize,
        now: u64,
    },
    /// The server accepts it.
    Accepted {
        node: usize,
        now: u64,
    },
    /// Kept changes are to be sent.
    Drain {
        node: usize,
        now: u64,
    },
    /// A node ends its session in order.
    Stop {
        node: usize,
        now: u64,
    },
    /// A node's connection is gone.
    Cut {
        node: usize,
    },
    /// A metric, by its alias, has a value.
    Set {
        node: usize,
        now: u64,
        alias: Alias,
        value: Option<Value>,
    },
    /// A device, by its name, is up or down.
    Device {
        node: usize,
        now: u64,
        name: String,
        up: bool,
    },
    /// A command for a rebirth comes to a node.
    Rebirth {
        node: usize,
        now: u64,
    },
    /// A STATE of the primary host comes to a node.
    State {
        node: usize,
        now: u64,
        online: bool,
        timestamp: u64,
    },
    /// The message of a position, among all that its node published, is handed to a host.
    Hand {
        host: usize,
        node: usize,
        position: u64,
        now: u64,
    },
    /// The NDEATH of a session of a node, counted from 0, is handed to a host.
    Death {
        host: usize,
        node: usize,
        session: u64,
        now: u64,
    },
    /// A moment comes to a host.
    Tick {
        host: usize,
        now: u64,
    },
    /// A host's session ends, and its next begins.
    Session {
        host: usize,
        now: u64,
    },
}
