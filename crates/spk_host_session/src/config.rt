//! What a host application is.
use spk_sequence::Width;

/// What a host application is.
#[derive(Debug, PartialEq, Eq, Drop)]
pub struct HostConfig {
    /// Its name: not empty, without `+`, `/`, `#` and U+0000, and of at most 60,000 bytes (own bound).
    pub name: String,
    /// The group that it follows, likewise.
    pub group: String,
    /// How long a held message waits for the ones before it, and the time between two rebirth requests to a node, in
    /// milliseconds.
    pub wait: u64,
    /// Its keep alive, in seconds; 0 for none.
    pub keep: u16,
    /// How many sequence numbers it takes at a time.
    pub width: Width,
}
