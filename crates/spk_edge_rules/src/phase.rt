//! How far an edge node's session is.

/// How far an edge node's session is (own rule).
#[derive(Clone, Copy, Debug, PartialEq, Eq)]
pub enum Phase {
    /// There is no connection.
    Idle,
    /// CONNECT was given, and the server hasn't answered.
    Connecting,
    /// The server accepted, and the primary host isn't online.
    Waiting,
    /// The births were given.
    Born,
}
