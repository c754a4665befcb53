//! A CONNECT is accepted (sections 3.1.2.4 and 3.1.4): all memory is asked for first, and what enters then needs none.
ghost use Rattle.std.specs.Prelude.{ℕ, ◌≡◌, ◌==◌, not, ◌++◌, ◌<◌, ◌≤◌, ◌∷◌, [], length, IfOk, IfSome, OnOk, None, Some, false, true, map, string_bytes, vec_capacity, vec_len};
ghost use Rattle.std.specs.List.{filter, find, position};
ghost use Rattle.spk_session.specs.Parts.{fresh_ids};
ghost use Rattle.spk_broker_rules.specs.Lawful.{IsLawful, Rises};
ghost use Rattle.spk_broker_rules.specs.Plan.{Ack, Forget};
ghost use Rattle.spk_broker_rules.specs.Step.{Turn, act, away_for, begun, is_away, new_session, other_newcomers, sits, take_up};
ghost use Rattle.spk_broker_rules.specs.Words.{handed_out, resent};
ghost use Rattle.spk_broker.specs.Asking.{newcomers_now, passes, sessions_now};
ghost use Rattle.spk_broker.specs.Changes.{IsChanged, forgot};
ghost use Rattle.spk_broker.specs.Drafts.{draft_view};
ghost use Rattle.spk_broker.specs.declared.out.Draft.{Draft};
ghost use Rattle.spk_broker.specs.Entering.{HasRoom, IsWhole, acked, again, entered, taken, taken_up, whole, with_sends};
ghost use Rattle.spk_broker.specs.Parts.{in_flight_view, connection_now, connection_was};
ghost use Rattle.spk_broker.specs.Sent.{outgoing};
ghost use Rattle.spk_broker.specs.Touched.{IsStill};
ghost use Rattle.spk_broker.specs.View.{IsSettled, Stands, state_now, state_was, newcomer_was, session_was};

use crate::newcomer::Newcomer;
use crate::out::{Conn, Draft};
use crate::queries::{away_place, place_near};
use crate::session::{Connection, InFlight, Session};
use crate::state::State;
use spk_packets::Packet;
use spk_session::{Identifiers, Sort};
use std::alloc::{AllocError, Global};

/// What enters once a call is settled: what a new session is made of, or the connection of the kept one that is taken up.
#[derive(Debug, Drop)]
pub(crate) enum Entry {
    Made {
        key: u64,
        client: String,
        kept: bool,
        connection: Connection,
        ids: Box<Identifiers>,
    },
    Back {
        client: String,
        connection: Connection,
    },
}

/// All messages in flight were handed out.
fn hand_out(in_flight: &mut [InFlight])
    ensures { map in_flight_view in_flight.new ≡ map handed_out (map in_flight_view in_flight.old) }
{
    for message in in_flight.iter_mut() {
        message.handed = true;
    }
}

/// Those of other identifiers stay in flight.
fn drop_in_flight(in_flight: &mut Vec<InFlight>, id: u16)
    ensures { in_flight.new.items ≡ filter (λ c. not (c.id == id)) in_flight.old.items }
{
    in_flight.retain(|message| message.id != id);
}

/// The other connections stay.
fn drop_newcomer(newcomers: &mut Vec<Newcomer>, conn: Conn)
    ensures { newcomers.new.items ≡ filter (λ g. not (g.conn == conn)) newcomers.old.items }
{
    newcomers.retain(|newcomer| newcomer.conn != conn);
}

/// A connection isn't without CONNECT any more.
fn take_newcomer(newcomers: &mut Vec<Newcomer>, conn: Conn)
    ensures now { newcomers_now newcomers.new.items ≡ other_newcomers conn (newcomers_now newcomers.old.items) }
    ensures was { map newcomer_was newcomers.new.items
        ≡ other_newcomers conn (map newcomer_was newcomers.old.items) }
{
    drop_newcomer(newcomers, conn);
}

impl Session {
    /// Its number.
    pub(crate) fn key(&self) -> u64
        ensures was { result ≡ self.now.was.key }
        ensures now { IfSome self.now.now (λ s. result ≡ s.key) }
    {
        self.key
    }

    /// A session without a past. It takes no memory.
    fn new(
        alloc: Global,
        key: u64,
        client: String,
        kept: bool,
        connection: Connection,
        ids: Box<Identifiers>,
    ) -> Session
        requires connection { connection_was connection ≡ connection_now connection }
        requires ids { ids.value ≡ fresh_ids }
        ensures { result ≡ whole (new_session key (string_bytes client) kept (connection_now connection)) }
    {
        Session {
            key,
            client,
            kept,
            here: Some(connection),
            left: None,
            ended: false,
            grants: Vec::new(alloc),
            regrant: None,
            ids,
            in_flight: Vec::new(alloc),
            used_before: 0,
            last_before: 0,
            in_flight_before: 0,
        }
    }

    /// A connection takes up the session, and all that it keeps is handed out.
    fn take_up(&mut self, connection: Connection)
        requires settled { self.old ≡ whole self.old.was }
        requires connection { connection_was connection ≡ connection_now connection }
        ensures { self.new ≡ whole (taken_up (connection_now connection) self.old.was) }
    {
        self.left = None;
        self.here = Some(connection);
        hand_out(&mut self.in_flight);
        self.used_before = self.ids.waiting().len();
        self.last_before = self.ids.last();
        self.in_flight_before = self.in_flight.len();
    }

    /// Its client acknowledged a message (section 4.3.2).
    fn acked(&mut self, id: u16)
        requires { self.old ≡ whole self.old.was }
        ensures { self.new ≡ whole (acked id self.old.was) }
    {
        let _ = self.ids.acked(id);
        drop_in_flight(&mut self.in_flight, id);
        self.used_before = self.ids.waiting().len();
        self.last_before = self.ids.last();
        self.in_flight_before = self.in_flight.len();
    }
}

/// The connection of a client takes up its session.
fn take_up_in(sessions: &mut [Session], client: &str, connection: Connection)
    requires settled { sessions_now sessions.old ≡ map session_was sessions.old }
    requires connection { connection_was connection ≡ connection_now connection }
    ensures { IsChanged sessions.old sessions.new (is_away client.now) (taken_up (connection_now connection)) }
{
    match away_place(sessions, client) {
        Some(place) => sessions[place].take_up(connection),
        None => {}
    }
}

/// The session of a connection, looked for at one place first, has no message of this identifier any more.
fn ack_in(sessions: &mut [Session], conn: Conn, near: usize, id: u16)
    requires settled { sessions_now sessions.old ≡ map session_was sessions.old }
    requires few { length (filter (sits conn) (sessions_now sessions.old)) ≤ 1 }
    ensures { IsChanged sessions.old sessions.new (sits conn) (acked id) }
{
    match place_near(sessions, conn, near) {
        Some(place) => sessions[place].acked(id),
        None => {}
    }
}

/// A message in flight is sent again, with DUP where it was handed out before (sections 3.3.1.1 and 4.4).
fn resend(draft: &mut Draft, conn: Conn, message: &InFlight) -> Result<(), AllocError>
    ensures { OnOk result
        (draft_view draft.new
        ≡ with_sends (again conn (in_flight_view message.now) ∷ []) (draft_view draft.old)) }
{
    let bytes = message.app_message.spelled(
        draft.alloc,
        message.handed,
        1,
        message.app_message.retain,
        Some(message.id),
    )?;
    draft.send(conn, Sort::Other, bytes)
}

/// All messages in flight are sent again, in the order in which they were made.
fn resend_all(draft: &mut Draft, conn: Conn, in_flight: &[InFlight]) -> Result<(), AllocError>
    ensures { OnOk result
        (draft_view draft.new
        ≡ with_sends (resent conn (map in_flight_view in_flight.now)) (draft_view draft.old)) }
{
    for message in in_flight {
        resend(draft, conn, message)?;
    }
    Ok(())
}

impl Session {
    /// What it keeps is sent again.
    fn resend(&self, draft: &mut Draft, conn: Conn) -> Result<(), AllocError>
        ensures { OnOk result
            (IfSome self.now.now
            (λ s. draft_view draft.new
            ≡ with_sends (resent conn s.in_flight) (draft_view draft.old))) }
    {
        resend_all(draft, conn, &self.in_flight)
    }

    /// The session ends.
    fn end(&mut self)
        ensures { self.new ≡ record self.old { now = None } }
    {
        self.ended = true;
    }
}

/// The kept session of a client without a connection, which stands at this place, ends. Whether there was one.
fn end_away(sessions: &mut [Session], client: &str, away: Option<usize>) -> bool
    requires { away ≡ position (passes (is_away client.now)) sessions.old }
    ensures none { result ≡ false → sessions.new ≡ sessions.old }
    ensures now { (low top : ℕ) → Rises low top (sessions_now sessions.old)
        → sessions_now sessions.new
        ≡ forgot (find (is_away client.now) (sessions_now sessions.old)) (sessions_now sessions.old) }
    ensures was { map session_was sessions.new ≡ map session_was sessions.old }
{
    match away {
        Some(place) => {
            sessions[place].end();
            true
        }
        None => false,
    }
}

impl State {
    /// The session of a connection, looked for at one place first, has no message of this identifier any more (section 4.3.2).
    pub(crate) fn ack(&mut self, conn: Conn, near: usize, id: u16)
        requires settled { IsSettled self.old }
        requires lawful { IsLawful (state_was self.old) }
        ensures done { state_was self.new ≡ (act (Ack conn id) (begun (state_was self.old))).broker }
        ensures settled { IsSettled self.new }
    {
        ack_in(&mut self.sessions, conn, near, id);
    }

    /// What was prepared enters. It takes no memory.
    pub(crate) fn enter(&mut self, entry: Entry)
        requires settled { IsSettled self.old }
        requires lawful { IsLawful (state_was self.old) }
        requires whole { IsWhole entry }
        requires room { HasRoom entry self.old.sessions }
        ensures done { state_was self.new ≡ entered entry (state_was self.old) }
        ensures settled { IsSettled self.new }
    {
        match entry {
            Entry::Made {
                key,
                client,
                kept,
                connection,
                ids,
            } => {
                take_newcomer(&mut self.newcomers, connection.conn);
                self.made = key;
                let session = Session::new(self.alloc, key, client, kept, connection, ids);
                self.sessions.push_reserved(session);
            }
            Entry::Back { client, connection } => {
                take_newcomer(&mut self.newcomers, connection.conn);
                take_up_in(&mut self.sessions, client.as_str(), connection);
            }
        }
    }

    /// The kept session of this client without a connection, which stands at this place, ends. Whether there was one.
    pub(crate) fn forget(&mut self, client: &str, away: Option<usize>) -> bool
        requires away { away ≡ position (passes (is_away client.now)) self.old.sessions.items }
        ensures still { result ≡ false → IsStill self.old → IsStill self.new }
        ensures done { (draft : Draft) (t : Turn) → Stands self.old draft t
            → Stands self.new draft (act (Forget client.now) t) }
        ensures same { state_was self.new ≡ state_was self.old }
    {
        end_away(&mut self.sessions, client, away)
    }

    /// A new session is prepared: CONNACK, and room for it.
    fn make(
        &mut self,
        draft: &mut Draft,
        client: &str,
        kept: bool,
        connection: Connection,
    ) -> Result<Entry, AllocError>
        requires connection { connection_was connection ≡ connection_now connection }
        requires number { self.old.made < self.old.given }
        ensures entry { IfOk result (λ e. entered e (state_now self.old)
            ≡ (take_up None client.now kept (connection_now connection) (begun (state_now self.old))).broker) }
        ensures whole { IfOk result IsWhole }
        ensures room { IfOk result (λ e. HasRoom e self.new.sessions) }
        ensures sends { OnOk result (draft_view draft.new
            ≡ with_sends
            (take_up None client.now kept (connection_now connection) (begun (state_now self.old))).sends
            (draft_view draft.old)) }
        ensures now { state_now self.new ≡ state_now self.old }
        ensures retained { self.new.retained ≡ self.old.retained }
        ensures same { state_was self.new ≡ state_was self.old }
    {
        let key = self.made + 1;
        draft.say(
            connection.conn,
            &Packet::ConnAck {
                present: false,
                code: 0,
            },
        )?;
        self.sessions.reserve(1)?;
        let client = String::from_str(self.alloc, client)?;
        let ids = Box::new(self.alloc, Identifiers::new())?;
        Ok(Entry::Made {
            key,
            client,
            kept,
            connection,
            ids,
        })
    }

    /// A kept session is about to be taken up: CONNACK, and what it keeps is sent again.
    fn come_back(
        &self,
        draft: &mut Draft,
        place: usize,
        client: &str,
        connection: Connection,
    ) -> Result<Entry, AllocError>
        requires connection { connection_was connection ≡ connection_now connection }
        requires place { position (passes (is_away client.now)) self.now.sessions.items ≡ Some place }
        ensures entry { IfOk result (λ e. entered e (state_now self.now)
            ≡ (take_up (find (is_away client.now) (state_now self.now).sessions) client.now true
            (connection_now connection) (begun (state_now self.now))).broker) }
        ensures whole { IfOk result IsWhole }
        ensures room { IfOk result (λ e. HasRoom e self.now.sessions) }
        ensures sends { OnOk result (draft_view draft.new
            ≡ with_sends
            (take_up (find (is_away client.now) (state_now self.now).sessions) client.now true
            (connection_now connection) (begun (state_now self.now))).sends
            (draft_view draft.old)) }
    {
        let conn = connection.conn;
        draft.say(
            conn,
            &Packet::ConnAck {
                present: true,
                code: 0,
            },
        )?;
        self.sessions[place].resend(draft, conn)?;
        Ok(Entry::Back {
            client: String::from_str(self.alloc, client)?,
            connection,
        })
    }

    /// What an accepted CONNECT comes to is prepared; the kept session of its client stands at this place, if there is one.
    pub(crate) fn prepare(
        &mut self,
        draft: &mut Draft,
        client: &str,
        kept: bool,
        away: Option<usize>,
        connection: Connection,
    ) -> Result<Entry, AllocError>
        requires connection { connection_was connection ≡ connection_now connection }
        requires number { self.old.made < self.old.given }
        requires away { kept ≡ true
            → away ≡ position (passes (is_away client.now)) self.old.sessions.items }
        ensures entry { IfOk result
            (λ e. entered e (state_now self.old)
            ≡ (taken client.now kept (connection_now connection) (state_now self.old)).broker) }
        ensures whole { IfOk result IsWhole }
        ensures room { IfOk result (λ e. HasRoom e self.new.sessions) }
        ensures sends { OnOk result (draft_view draft.new
            ≡ with_sends (taken client.now kept (connection_now connection) (state_now self.old)).sends
            (draft_view draft.old)) }
        ensures now { state_now self.new ≡ state_now self.old }
        ensures retained { self.new.retained ≡ self.old.retained }
        ensures same { state_was self.new ≡ state_was self.old }
    {
        if !kept {
            return self.make(draft, client, false, connection);
        }
        match away {
            Some(place) => self.come_back(draft, place, client, connection),
            None => self.make(draft, client, true, connection),
        }
    }
}
