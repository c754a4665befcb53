//! What one record of a history says.

/// What happened to the session of the host.
#[derive(Clone, Copy, Debug, PartialEq, Eq)]
pub enum SessionEvent {
    /// It began: what comes behind it was heard in it.
    Began,
    /// It ended.
    Ended,
}

/// What ended a hole.
#[derive(Clone, Copy, Debug, PartialEq, Eq)]
pub enum Ending {
    /// An NBIRTH of the same session of the node.
    Birth,
    /// A new session of the node, behind its death.
    NewSession,
    /// An end of the host's session.
    HostSession,
}

/// Which message of a node was consumed; of a device it has the device's name. An NBIRTH is `Entry::Birth`.
#[derive(Clone, Copy, Debug)]
pub enum Kind<'a> {
    /// NDATA.
    NodeData,
    /// DBIRTH.
    DeviceBirth(&'a str),
    /// DDATA.
    DeviceData(&'a str),
    /// DDEATH.
    DeviceDeath(&'a str),
}

/// One record. Moments (`at`, `from`, `to`) and stamps are milliseconds since 1970. A node goes by its number.
#[derive(Clone, Copy, Debug)]
pub enum Entry<'a> {
    /// The host's session began or ended.
    Session {
        at: u64,
        what: SessionEvent,
    },
    /// The group and the name of a node: once in each part, before the first record that has its number.
    Node {
        node: u32,
        group: &'a str,
        name: &'a str,
    },
    /// An NBIRTH was taken: its timestamp, its bdSeq, and its payload as received.
    Birth {
        at: u64,
        node: u32,
        stamp: u64,
        bd: u8,
        payload: &'a [u8],
    },
    /// An NDEATH was taken, with its bdSeq.
    Death {
        at: u64,
        node: u32,
        bd: u8,
    },
    /// A gap began: the position that is awaited, and how many messages are missing at least.
    Gap {
        at: u64,
        node: u32,
        awaited: u64,
        missing: u64,
    },
    /// A hole was closed: how many messages are known not to have come, and how many came and weren't used.
    Hole {
        node: u32,
        from: u64,
        to: u64,
        missing: u64,
        unused: u64,
        ended_by: Ending,
    },
    /// A message was consumed: its `seq`, and its payload as received.
    Message {
        at: u64,
        node: u32,
        kind: Kind<'a>,
        seq: u8,
        payload: &'a [u8],
    },
}
