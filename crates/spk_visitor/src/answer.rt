//! What a call answers.

/// What became of what a client sent.
#[derive(Debug, PartialEq, Eq, Drop)]
pub enum Answer {
    /// No whole packet waits.
    More,
    /// A packet went on.
    Goes,
    /// Of a SUBSCRIBE the allowed entries went on, if there are some: its identifier, and which are allowed, in order. In its SUBACK the others have code 128
    /// (section 3.9.3); where none is allowed no SUBACK comes of the broker.
    Cuts(u16, Vec<bool>),
    /// CONNACK with this code is due, and the connection's end (section 3.2.2.3).
    Refuses(u8),
    /// Its connection is to be closed.
    Closes,
}
