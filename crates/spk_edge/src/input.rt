//! What an edge node is told.
use spk_device::Alias;
use spk_payload::Value;

/// What an edge node is asked to do, or told.
#[derive(Clone, Copy, Debug)]
pub enum Act<'a> {
    /// A connection is to be opened.
    Open,
    /// The server accepted it.
    Accepted,
    /// A metric, by its alias, has a value.
    Change(Alias, &'a Option<Value>),
    /// A device, by its name, is up or down.
    Device(&'a str, bool),
    /// A message on a topic of commands: its topic and its payload.
    Command(&'a str, &'a [u8]),
    /// A message on the topic of the primary host's STATE: its payload.
    State(&'a [u8]),
    /// Kept changes are to be sent.
    Drain,
    /// The session is to be ended in order.
    Stop,
    /// The connection is gone.
    Cut,
    /// The server didn't accept the connection.
    TurnedAway,
    /// A packet that asks for nothing.
    Pass,
}

/// An act at a moment, in milliseconds since 1970, and the identifier of the message that brought it, where that is to
/// be acknowledged. A cut has the moment 0.
#[derive(Clone, Copy, Debug)]
pub struct Input<'a> {
    pub now: u64,
    pub ack: Option<u16>,
    pub act: Act<'a>,
}
