//! Sessions (section 3.1.2.4) and their connections.

ghost use Rattle.std.specs.Prelude.{◌≡◌, is_some, string_bytes, true};
ghost use Rattle.spk_broker.specs.Filters.{is_filter};
ghost use Rattle.spk_broker.specs.Sendable.{is_numbered};

use crate::app_message::AppMessage;
use spk_session::Identifiers;
use std::marker::Model;

/// A connection with an accepted CONNECT.
#[derive(Debug, Drop)]
pub(crate) struct Connection {
    /// Its number.
    pub(crate) conn: u64,
    /// Keep alive, in seconds.
    pub(crate) alive: u16,
    /// The clock at its last packet.
    pub(crate) heard: u64,
    pub(crate) will: Option<AppMessage>,
    /// How many sends were dropped on it, up to 65,535.
    pub(crate) drops: u16,
    /// Both as they were before the call.
    pub(crate) heard_before: u64,
    pub(crate) drops_before: u16,
}

/// The QoS of a topic filter.
#[derive(Debug, Drop)]
pub(crate) struct Grant {
    pub(crate) filter: String,
    /// 0 or 1.
    pub(crate) qos: u8,
    /// The filter is a topic filter (section 4.7).
    ghost read: { is_filter (string_bytes filter) ≡ true },
}

/// A QoS 1 message that a kept session hasn't acknowledged.
#[derive(Debug, Drop)]
pub(crate) struct InFlight {
    pub(crate) id: u16,
    pub(crate) app_message: AppMessage,
    /// Whether it was ever handed out.
    pub(crate) handed: bool,
    /// It is of QoS 1, and its identifier isn't 0.
    ghost numbered: { is_numbered app_message.qos id ≡ true },
}

/// A session and all that hangs on it. In the midst of a call it is seen as before the call and as by now: what a
/// call drafts stands beside or behind what was there, until it is settled or undone.
#[derive(Debug, Drop)]
pub(crate) struct Session {
    /// Its number, from 1 in the order of making.
    pub(crate) key: u64,
    pub(crate) client: String,
    /// Made with clean session 0.
    pub(crate) kept: bool,
    pub(crate) here: Option<Connection>,
    /// The connection that left it in this call.
    pub(crate) left: Option<Connection>,
    /// It ended in this call.
    pub(crate) ended: bool,
    pub(crate) grants: Vec<Grant>,
    /// The grants after this call, where it changes them.
    pub(crate) regrant: Option<Vec<Grant>>,
    /// Apart, since its table is much larger than all else here.
    pub(crate) ids: Box<Identifiers>,
    /// Of a kept session: what stands behind the identifiers in use.
    pub(crate) in_flight: Vec<InFlight>,
    /// How many identifiers were in use before the call, the one given last, and how many messages were in flight.
    pub(crate) used_before: usize,
    pub(crate) last_before: u16,
    pub(crate) in_flight_before: usize,
}

impl Model for Session {
    ghost use Rattle.spk_broker.specs.Both.{Both};

    ghost Value = { Both };

    ghost use Rattle.spk_broker.specs.Sitting.{session_both, IsDrafted};

    ghost view = { session_both };

    ghost invariant = { IsDrafted };
}

impl Session {
    /// Whether it had a connection before the call.
    pub(crate) fn had_connection(&self) -> bool
        ensures { result ≡ is_some self.now.was.here }
    {
        self.left.is_some() || self.here.is_some()
    }
}
