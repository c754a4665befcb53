//! What an edge node is, and what it takes over from the one that ran before it.

/// How sequence numbers count.
#[derive(Clone, Copy, Debug, PartialEq, Eq)]
pub enum Numbering {
    /// On and on, over births and connections: 0 follows 255 (own rule).
    RunsOn,
    /// From 0 at each NBIRTH (Sparkplug 3.0.0, chapter 6, `seq`).
    Restarts,
}

/// What an edge node is.
#[derive(Debug, PartialEq, Eq, Drop)]
pub struct EdgeConfig {
    /// The name of its group: not empty, and without `+`, `/`, `#` and U+0000.
    pub group: String,
    /// Its own name, likewise.
    pub node: String,
    /// The name of its primary host application, if it has one, likewise.
    pub primary: Option<String>,
    /// Its keep alive, in seconds; 0 for none.
    pub keep: u16,
    /// How many changes it keeps while its host is away: 1 to 4,096.
    pub capacity: usize,
    /// How its sequence numbers count.
    pub numbering: Numbering,
}

/// What a node that runs later goes on with. The caller keeps it.
#[derive(Clone, Copy, Debug, PartialEq, Eq)]
pub struct Record {
    /// The sequence number that comes next; 0 where numbers restart.
    pub seq: u8,
    /// The bdSeq of the next session.
    pub bd: u8,
    /// The last stamp, in milliseconds since 1970.
    pub stamp: Option<u64>,
}
