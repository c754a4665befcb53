//! What a broker keeps, part by part, as `Broker::{restore_connection, restore_session, restore_retained}` take it.
ghost use Rattle.std.specs.Prelude.{◌≡◌, slice_get};
ghost use Rattle.std.specs.Option.{option_map};
ghost use Rattle.spk_broker_rules.specs.Step.{conn_at, silent_at};
ghost use Rattle.spk_broker_rules.specs.Words.{option_list};
ghost use Rattle.spk_broker.specs.Looking.{message_ref, will_of};
ghost use Rattle.spk_broker.specs.Parts.{app_message_view};

use crate::app_message::AppMessage;
use crate::broker::Broker;
use crate::out::Conn;
use crate::session::Session;
use std::marker::Model;

/// An application message (section 3.3): a will (section 3.1.2.5), or one that a session keeps.
#[derive(Debug, Drop)]
pub struct MessageRef<'a> {
    pub topic: &'a str,
    pub payload: &'a [u8],
    pub qos: u8,
    pub retain: bool,
}

impl AppMessage {
    /// The message.
    fn lent(&self) -> MessageRef<'_>
        ensures { message_ref result ≡ app_message_view self.now }
    {
        MessageRef {
            topic: self.topic.as_str(),
            payload: self.payload.as_slice(),
            qos: self.qos,
            retain: self.retain,
        }
    }
}

/// A session (section 3.1.2.4) between two calls.
#[derive(Debug, Drop)]
pub struct SessionRef<'a> {
    session: &'a Session,
}

impl<'a> Model for SessionRef<'a> {
    ghost use Rattle.std.specs.Prelude.{◌≡◌};
    ghost use Rattle.spk_broker_rules.specs.Data as plain;
    ghost use Rattle.spk_broker.specs.Entering.{whole};

    ghost Value = { plain.Session };

    ghost view = { λ s. s.session.now.was };

    ghost invariant = { λ s. s.session.now ≡ whole s.session.now.was };
}

impl<'a> SessionRef<'a> {
    /// Its number, from 1 in the order of making.
    pub fn key(&self) -> u64
        ensures { result ≡ self.now.key }
    {
        let session = self.session;
        session.key
    }

    /// Its client identifier (section 3.1.3.1).
    pub fn client(&self) -> &str
        ensures { result.now ≡ self.now.client }
    {
        let session = self.session;
        session.client.as_str()
    }

    /// Whether it was made with clean session 0.
    pub fn is_kept(&self) -> bool
        ensures { result ≡ self.now.kept }
    {
        let session = self.session;
        session.kept
    }

    /// Its connection, if it has one.
    pub fn connection(&self) -> Option<Conn>
        ensures { result ≡ conn_at self.now }
    {
        let session = self.session;
        match &session.here {
            Some(connection) => Some(connection.conn),
            None => None,
        }
    }

    /// Its connection, where that is silent for too long at this moment (section 3.1.2.10).
    pub fn silent(&self, clock: u64) -> Option<Conn>
        ensures { option_list result ≡ silent_at clock self.now }
    {
        let session = self.session;
        session.silent(clock)
    }

    /// The will of its connection, if it has one.
    pub fn will(&self) -> Option<MessageRef<'_>>
        ensures { option_map message_ref result ≡ will_of self.now }
    {
        let session = self.session;
        match &session.here {
            Some(connection) => match &connection.will {
                Some(app_message) => Some(app_message.lent()),
                None => None,
            },
            None => None,
        }
    }

    /// The grant at this place: its filter and its QoS, in the order in which the filters were first given.
    pub fn grant(&self, at: usize) -> Option<(&str, u8)>
        ensures { option_map (λ g. (g.0.now, g.1)) result ≡ slice_get self.now.grants at }
    {
        let session = self.session;
        match session.grants.get(at) {
            Some(grant) => Some((grant.filter.as_str(), grant.qos)),
            None => None,
        }
    }

    /// The packet identifiers in use, in the order in which they were given (section 2.3.1).
    pub fn given(&self) -> &[u16]
        ensures { result.now ≡ self.now.used }
    {
        let session = self.session;
        session.ids.waiting()
    }

    /// The identifier given last, 0 where none was.
    pub fn last(&self) -> u16
        ensures { result ≡ self.now.last }
    {
        let session = self.session;
        session.ids.last()
    }

    /// The message at this place that isn't acknowledged: its identifier, the message, and whether it was ever handed out.
    pub fn kept(&self, at: usize) -> Option<(u16, MessageRef<'_>, bool)>
        ensures { option_map
            (λ c. record { id = c.0; app_message = message_ref c.1; handed = c.2 }) result
            ≡ slice_get self.now.in_flight at }
    {
        let session = self.session;
        match session.in_flight.get(at) {
            Some(message) => Some((message.id, message.app_message.lent(), message.handed)),
            None => None,
        }
    }
}

impl Broker {
    /// How many connections were given a number, and how many sessions were made.
    pub fn numbers(&self) -> (u64, u64)
        ensures { result ≡ (self.now.given, self.now.made) }
    {
        (self.state.given, self.state.made)
    }

    /// The connection without CONNECT at this place, in the order of opening.
    pub fn connection(&self, at: usize) -> Option<Conn>
        ensures { result ≡ option_map (λ g. g.conn) (slice_get self.now.newcomers at) }
    {
        match self.state.newcomers.get(at) {
            Some(newcomer) => Some(newcomer.conn),
            None => None,
        }
    }

    /// The session at this place, in the order of making (section 3.1.2.4).
    pub fn session(&self, at: usize) -> Option<SessionRef<'_>>
        ensures { result ≡ slice_get self.now.sessions at }
    {
        match self.state.sessions.get(at) {
            Some(session) => Some(SessionRef { session }),
            None => None,
        }
    }

    /// The retained message at this place: topic, payload and QoS, in the order in which the present stay of each topic began (section 3.3.1.3).
    pub fn retained_at(&self, at: usize) -> Option<(&str, &[u8], u8)>
        ensures { option_map
            (λ e. (e.0.now, record { payload = e.1.now; qos = e.2 })) result
            ≡ slice_get self.now.retained at }
    {
        match self.state.retained.get_index(at) {
            Some((topic, stored)) => {
                Some((topic.as_str(), stored.payload.as_slice(), stored.qos))
            }
            None => None,
        }
    }
}
