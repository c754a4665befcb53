//! How far a client's connection is.

/// How far a client's connection is.
#[derive(Clone, Copy, Debug, PartialEq, Eq)]
pub enum Stage {
    /// The head of a request hasn't come whole.
    Hearing,
    /// It has, and is to be answered.
    Asked,
    /// Events go out. The last was told at this moment, in milliseconds.
    Streaming(u64),
    /// It is closed once all is written.
    Ending,
}
