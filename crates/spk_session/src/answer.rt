//! What is sent to a client, and what becomes of one that couldn't take it.

/// What was to be sent to a client that couldn't take it.
#[derive(Clone, Copy, Debug, PartialEq, Eq)]
pub enum Sort {
    /// A PUBLISH of QoS 0, which may be lost (MQTT 3.1.1, 4.3.1).
    QosZero,
    /// Anything else.
    Other,
}

/// What becomes of a client that couldn't take a send (own rule).
#[derive(Clone, Copy, Debug, PartialEq, Eq)]
pub enum Verdict {
    /// The send is dropped, and the connection stands.
    Dropped,
    /// The connection is to be closed.
    Close,
}
