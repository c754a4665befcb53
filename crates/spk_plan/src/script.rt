//! The steps of a node's script.
use spk_device::Alias;
use spk_payload::Value;

/// How the whole numbers of a ramp are values: as those of signed datatypes, or of unsigned ones.
#[derive(Clone, Copy, Debug, PartialEq, Eq)]
pub enum Sort {
    Signed,
    Unsigned,
}

/// One step of the script of an edge node. A step that the edge node refuses is passed over.
#[derive(Debug, Drop)]
pub enum Step {
    /// Opens a connection.
    Open,
    /// Waits until the node is born or idle, the last STATE since its connection was opened was offline or was refused, or its
    /// ring is gone.
    Born,
    /// A metric, by its alias, has a value.
    Set {
        alias: Alias,
        value: Option<Value>,
    },
    /// So many changes of a metric, by its alias: to 1, to 2, and so on.
    Ramp {
        alias: Alias,
        sort: Sort,
        changes: u32,
    },
    /// A device, by its name, is up or down.
    Device {
        name: String,
        up: bool,
    },
    /// Kept changes are sent until none is left, the node isn't born, or it is refused.
    Drain,
    /// The connection is gone.
    Cut,
    /// The session ends in order.
    Stop,
}
