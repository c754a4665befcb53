//! Whether there is a connection.

/// The moments of a connection, in milliseconds.
#[derive(Clone, Copy, Debug, PartialEq, Eq)]
pub struct Moments {
    /// When it began.
    pub since: u64,
    /// When something was sent last.
    pub sent: u64,
    /// When something was heard last.
    pub heard: u64,
    /// When a PINGREQ was sent last.
    pub asked: u64,
}

/// Whether there is a connection.
#[derive(Clone, Copy, Debug, PartialEq, Eq)]
pub enum Stand {
    /// There is none; the next try is due at this moment, in milliseconds.
    Off(u64),
    /// There is one.
    On(Moments),
}

/// What is to be done at a moment.
#[derive(Clone, Copy, Debug, PartialEq, Eq)]
pub enum Due {
    /// Nothing.
    Nothing,
    /// A try to connect.
    Connect,
    /// PINGREQ.
    Ping,
    /// The connection is to be given up: the broker is silent.
    End,
}
