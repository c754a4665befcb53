//! What one user may hold, and holds.

/// What one user may hold.
#[derive(Clone, Copy, Debug, PartialEq, Eq)]
pub struct Limits {
    /// Clients that are connected.
    pub connections: u32,
    /// Sessions with clean session 0.
    pub sessions: u32,
    /// Topic filters of all its sessions together.
    pub filters: u32,
    /// Retained messages, and wills with RETAIN.
    pub retained: u32,
    /// The bytes of their topics and payloads.
    pub bytes: u64,
    /// The bytes of the messages of QoS 1 that wait for its sessions. No call here counts them: it is kept for who does.
    pub waiting: u64,
}

/// What one user holds.
#[derive(Clone, Copy, Debug, PartialEq, Eq)]
pub struct Held {
    /// Clients that are connected.
    pub connections: u64,
    /// Sessions with clean session 0.
    pub sessions: u64,
    /// Topic filters of all its sessions together.
    pub filters: u64,
    /// Retained messages, and wills with RETAIN.
    pub retained: u64,
    /// The bytes of their topics and payloads.
    pub bytes: u64,
}
