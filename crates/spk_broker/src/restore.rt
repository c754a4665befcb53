//! A broker's data put together again, part by part, as they were kept before a restart (own rule). The connections that were open then are
//! there as if they had a keep alive of one second and were heard at the moment 0.
ghost use Rattle.std.specs.Prelude.{◌≡◌, ◌≤◌, ◌∷◌, ◌++◌, [], nat_le, true, Some, None, if◌then◌else◌, IfOk, IfErr, OnOk, OnErr, string_bytes};
ghost use Rattle.spk_broker_rules.specs.Data.{fresh_broker};
ghost use Rattle.spk_broker_rules.specs.Step.{knows};
ghost use Rattle.spk_broker.specs.Restoring.{IsRefused, is_newcomer_fit, is_new, is_new_connection, is_new_topic, is_retained_fit, is_session_fit, last_key};
ghost use Rattle.spk_broker.specs.declared.part_fault.PartFault.TheVariants as fault;

use crate::broker::Broker;
use crate::index::GrantIndex;
use crate::message::{Message, app_message};
use crate::newcomer::Newcomer;
use crate::out::Conn;
use crate::part_fault::PartFault;
use crate::queries::place_of;
use crate::restored_session::RestoredSession;
use crate::retained::retain_all;
use crate::state::State;
use std::alloc::Global;
use std::collections::VecDeque;

/// The most topics with a retained message (own rule).
const MOST_TOPICS: usize = 10_000;

impl Broker {
    /// A broker without connections, sessions and retained messages, where so many connections were given a number and so many sessions were made.
    /// `limit` is that of `new`. None where more sessions were made than connections opened.
    pub fn restored(alloc: Global, limit: u16, given: u64, made: u64) -> Option<Broker>
        ensures { result
            ≡ (if nat_le made given then Some (record (fresh_broker limit) { given = given; made = made }) else None) }
    {
        if made > given {
            return None;
        }
        let mut broker = Broker::new(alloc, limit);
        broker.state.given = given;
        broker.state.made = made;
        Some(broker)
    }

    /// Whether the number of a connection was given and it isn't there.
    fn is_new(&self, conn: Conn) -> bool
        ensures { result ≡ is_new self.now conn }
    {
        let place = place_of(&self.state.sessions, conn);
        conn <= self.state.given && !self.state.knows(conn, place)
    }

    /// The number of the last session, 0 where there is none.
    fn last_key(&self) -> u64
        ensures { result ≡ last_key 0 self.now.sessions }
    {
        match self.state.sessions.last() {
            Some(session) => session.key(),
            None => 0,
        }
    }

    /// The same of the connection of a session, if it has one.
    fn is_new_connection(&self, session: &RestoredSession) -> bool
        ensures { result ≡ is_new_connection self.now session.now.here }
    {
        match session.connection() {
            Some(conn) => self.is_new(conn),
            None => true,
        }
    }

    /// Whether one more topic may have a retained message, and this one has none.
    fn is_new_topic(&self, topic: &str) -> bool
        ensures { result ≡ is_new_topic self.now topic.now }
    {
        !self.state.retained.contains_key(topic) && self.state.retained.len() < MOST_TOPICS
    }

    /// Whether a connection without CONNECT may be one more.
    fn is_newcomer_fit(&self, conn: Conn) -> bool
        ensures { result ≡ is_newcomer_fit self.now conn }
    {
        let left = self.state.given.saturating_sub(self.state.made);
        self.is_new(conn) && (self.state.newcomers.len() as u64) < left
    }

    /// Whether a session may be one more.
    fn is_session_fit(&self, session: &RestoredSession) -> bool
        ensures { result ≡ is_session_fit self.now session.now }
    {
        self.last_key() < session.key()
            && session.key() <= self.state.made
            && self.is_new_connection(session)
    }

    /// A connection without CONNECT, behind those that are there. Refused with Unfit (139) where its number wasn't given or it is there, or where so
    /// many sessions were made that it can't be without CONNECT.
    pub fn restore_connection(&mut self, conn: Conn) -> Result<(), PartFault>
        ensures done { OnOk result (self.new
            ≡ record self.old {
              newcomers = self.old.newcomers ++ (record { conn = conn; heard = 0; drops = 0 }) ∷ [];
            }) }
        ensures fit { OnOk result (is_newcomer_fit self.old conn ≡ true) }
        ensures refused { IfErr result (IsRefused (is_newcomer_fit self.old conn)) }
        ensures err { OnErr result (self.new ≡ self.old) }
    {
        if !self.is_newcomer_fit(conn) {
            return Err(PartFault::Unfit);
        }
        self.state.newcomers.push(Newcomer {
            conn,
            heard: 0,
            drops: 0,
            heard_before: 0,
            drops_before: 0,
            gone: false,
        })?;
        Ok(())
    }

    /// A session, behind those that are there. Refused with Unfit (139) where it wasn't made behind them, or where its connection's number wasn't given or that is there.
    pub fn restore_session(&mut self, session: RestoredSession) -> Result<(), PartFault>
        ensures done { OnOk result
            (self.new ≡ record self.old { sessions = self.old.sessions ++ session ∷ [] }) }
        ensures fit { OnOk result (is_session_fit self.old session ≡ true) }
        ensures refused { IfErr result (IsRefused (is_session_fit self.old session)) }
        ensures err { OnErr result (self.new ≡ self.old) }
    {
        if !self.is_session_fit(&session) {
            return Err(PartFault::Unfit);
        }
        self.state.sessions.push(session.into_session())?;
        self.index = GrantIndex::new();
        self.calm = 0;
        Ok(())
    }

    /// A retained message, behind those that are there (section 3.3.1.3). Refused with Unfit (139) where one is there on its topic, where it is empty or can't be written as a PUBLISH,
    /// and where 10,000 topics have one.
    pub fn restore_retained(
        &mut self,
        topic: String,
        payload: Vec<u8>,
        qos: u8,
    ) -> Result<(), PartFault>
        ensures done { OnOk result (self.new
            ≡ record self.old {
              retained = self.old.retained
                  ++ (string_bytes topic, record { payload = payload.items; qos = qos }) ∷ [];
            }) }
        ensures fit { OnOk result (is_retained_fit self.old (string_bytes topic) payload.items qos ≡ true) }
        ensures refused { IfErr result (IsRefused (is_retained_fit self.old (string_bytes topic) payload.items qos)) }
        ensures err { OnErr result (self.new ≡ self.old) }
    {
        if payload.is_empty() || !self.is_new_topic(topic.as_str()) {
            return Err(PartFault::Unfit);
        }
        let message = Message {
            topic,
            payload,
            qos,
            retain: true,
        };
        let Some(app_message) = app_message(message) else {
            return Err(PartFault::Unfit);
        };
        let mut keeps = VecDeque::new(self.state.alloc);
        keeps.push_back(app_message)?;
        self.state.retained.reserve(1)?;
        retain_all(&mut self.state.retained, keeps);
        Ok(())
    }
}
