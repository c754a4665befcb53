//! What happened.

use spk_story::Hole;

/// What happened to a node, a device of it or the host.
#[derive(Clone, Copy, Debug)]
pub enum What<'a> {
    /// There is a connection with a broker.
    Connected,
    /// There is none any more.
    Disconnected,
    /// A node was born for the first time.
    Born,
    /// It was born again, and no hole was open.
    BornAgain,
    /// It was born again, which ends this hole.
    Mended(Hole),
    /// Messages of it were lost.
    Lost,
    /// Its session is over.
    Died,
    /// A rebirth of it was asked for.
    Asked,
    /// A device of it was born.
    DeviceBorn(&'a str),
    /// A device of it died.
    DeviceDied(&'a str),
    /// A message was refused, with this number.
    Refused(u32),
    /// The broker turned the host away, with this code.
    TurnedAway(u8),
    /// The broker refused the subscription.
    NotSubscribed,
    /// The host's own session is over.
    Ended,
}

/// One thing that happened.
#[derive(Clone, Copy, Debug)]
pub struct Entry<'a> {
    /// Its number: later ones have greater numbers.
    pub number: u64,
    /// When, in milliseconds since 1970.
    pub at: u64,
    /// The place of the node, if it is of one.
    pub place: Option<usize>,
    pub what: What<'a>,
}
