//! What a historian is told.
use spk_history::Ending;
use spk_payload::Payload;

/// Whose something is: a node by a number, which is no other node's, and its group and its name. By these the first event with its number names it.
#[derive(Clone, Copy, Debug)]
pub struct Node<'a> {
    pub number: u32,
    pub group: &'a str,
    pub name: &'a str,
}

/// What a message that was consumed is about (Sparkplug 3.0.0, chapter 6).
#[derive(Clone, Copy, Debug)]
pub enum What<'a> {
    /// NBIRTH, with its timestamp and its bdSeq.
    NodeBirth { stamp: u64, bd: u8 },
    /// NDATA.
    NodeData,
    /// DBIRTH of this device.
    DeviceBirth(&'a str),
    /// DDATA of this device.
    DeviceData(&'a str),
    /// DDEATH of this device.
    DeviceDeath(&'a str),
}

/// What is told. Moments are milliseconds since 1970.
#[derive(Clone, Copy, Debug)]
pub enum Event<'a> {
    /// The host's session began.
    Began {
        at: u64,
    },
    /// The host's session ended.
    Ended {
        at: u64,
    },
    /// A message of the node was consumed, with this `seq`.
    Consumed {
        at: u64,
        node: Node<'a>,
        what: What<'a>,
        seq: u8,
        payload: &'a Payload,
    },
    /// The node's session ended by an NDEATH of this bdSeq.
    Died {
        at: u64,
        node: Node<'a>,
        bd: u8,
    },
    /// A gap: messages of the node were lost, so many at least as far as is known.
    Gap {
        at: u64,
        node: Node<'a>,
        missing: u64,
    },
    /// A hole in the node's readings is closed: from when, until when, how many messages are known not to have come, how many came and weren't used, and
    /// what ended it.
    Hole {
        node: Node<'a>,
        from: u64,
        to: u64,
        missing: u64,
        unused: u64,
        ended_by: Ending,
    },
}
