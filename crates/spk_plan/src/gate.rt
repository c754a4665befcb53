//! What a plant tells of itself while it runs.

/// Is told what happens in the threads of a plant, as it happens. A call may hold its thread back. Nothing is promised of a gate,
/// and nothing that a plant promises rests on it.
pub trait Gate {
    /// A sender is about to put a frame; so many frames it put before. Edge nodes are senders by their place, the host is
    /// the last.
    fn before_put(&self, sender: usize, number: u64);

    /// A packet was offered to a client's ring, and was taken or refused.
    fn after_offer(&self, client: usize, passed: bool);

    /// The host consumed a message of a node; so many of that node it consumed before.
    fn after_consume(&self, node: usize, number: u64);
}
