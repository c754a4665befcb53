//! What the rules ask of connections and sessions by now.
ghost use Rattle.std.specs.Prelude.{◌≡◌, ◌≤◌, Some, None, is_some, count_by, length, true};
ghost use Rattle.std.specs.List.{filter, find, flat_map, list_any, position};
ghost use Rattle.std.specs.Option.{option_and_then, option_map_or};
ghost use Rattle.spk_session.specs.Step.{is_spent};
ghost use Rattle.spk_broker_rules.specs.Lawful.{places};
ghost use Rattle.spk_broker_rules.specs.Step.{conn_at, drops_in, is_away, is_newcomer, is_kept_of, knows, older_in, silent_at, sits, welcome_in};
ghost use Rattle.spk_broker_rules.specs.Words.{option_list};
ghost use Rattle.spk_broker.specs.Asking.{SitsAt, drops_at, newcomer_here, newcomers_now, is_joined_by, is_named, passes, place_in, sessions_now, test_at};
ghost use Rattle.spk_broker.specs.View.{state_now, session_now};

use crate::newcomer::Newcomer;
use crate::out::Conn;
use crate::session::Session;
use crate::state::State;
use spk_broker_rules::is_silent;

/// The most kept sessions (own rule).
const MOST_KEPT_SESSIONS: usize = 1_000;

/// Where sessions of a client stand.
#[derive(Debug, Drop)]
pub(crate) struct ClientPlaces {
    /// The first one in which a connection sits.
    pub(crate) joined: Option<usize>,
    /// The first kept one without a connection.
    pub(crate) away: Option<usize>,
}

impl Session {
    /// Whether this connection sits here.
    pub(crate) fn sits(&self, conn: Conn) -> bool
        ensures { result ≡ passes (sits conn) self.now }
    {
        match &self.here {
            Some(connection) => !self.ended && connection.conn == conn,
            None => false,
        }
    }

    /// Whether it is a kept session of this client, with or without a connection.
    pub(crate) fn is_kept_of(&self, client: &str) -> bool
        ensures { result ≡ passes (is_kept_of client.now) self.now }
    {
        !self.ended && self.kept && self.client.as_str() == client
    }

    /// Whether it is a kept session of this client without a connection.
    pub(crate) fn is_away(&self, client: &str) -> bool
        ensures { result ≡ passes (is_away client.now) self.now }
    {
        !self.ended && self.kept && self.here.is_none() && self.client.as_str() == client
    }

    /// Whether it is a kept session.
    pub(crate) fn is_kept(&self) -> bool
        ensures { result ≡ passes (λ s. s.kept) self.now }
    {
        !self.ended && self.kept
    }

    /// Whether it is a session of this client.
    fn is_named(&self, client: &str) -> bool
        ensures { result ≡ passes (is_named client.now) self.now }
    {
        !self.ended && self.client.as_str() == client
    }

    /// Whether a connection of this client sits here.
    fn is_joined_by(&self, client: &str) -> bool
        ensures { result ≡ passes (is_joined_by client.now) self.now }
    {
        !self.ended && self.here.is_some() && self.client.as_str() == client
    }

    /// Its connection, where that is silent for too long (section 3.1.2.10).
    pub(crate) fn silent(&self, clock: u64) -> Option<Conn>
        ensures { option_list result ≡ flat_map (silent_at clock) (session_now self.now) }
    {
        match &self.here {
            Some(connection)
                if !self.ended && is_silent(clock, connection.alive, connection.heard) => {
                Some(connection.conn)
            }
            _ => None,
        }
    }

    /// How many sends were dropped on its connection.
    fn drops(&self) -> u16
        ensures { result ≡ option_map_or drops_at self.now.now 0 }
    {
        match &self.here {
            Some(connection) if !self.ended => connection.drops,
            _ => 0,
        }
    }

    /// Its connection.
    fn conn(&self) -> Option<Conn>
        ensures { result ≡ option_and_then conn_at self.now.now }
    {
        match &self.here {
            Some(connection) if !self.ended => Some(connection.conn),
            _ => None,
        }
    }
}

/// Where this connection sits.
pub(crate) fn place_of(sessions: &[Session], conn: Conn) -> Option<usize>
    ensures { result ≡ place_in conn sessions.now }
{
    sessions.iter().position(|session| session.sits(conn))
}

/// Where a kept session of this client without a connection stands.
pub(crate) fn away_place(sessions: &[Session], client: &str) -> Option<usize>
    ensures { result ≡ position (passes (is_away client.now)) sessions.now }
{
    sessions.iter().position(|session| session.is_away(client))
}

/// Whether this connection sits at a place.
pub(crate) fn sits_at(sessions: &[Session], conn: Conn, place: usize) -> bool
    ensures { result ≡ true → SitsAt conn place sessions.now }
{
    place < sessions.len() && sessions[place].sits(conn)
}

/// Where this connection sits, looked for at a place first: it sits at no more than one.
pub(crate) fn place_near(sessions: &[Session], conn: Conn, near: usize) -> Option<usize>
    requires { length (filter (sits conn) (sessions_now sessions.now)) ≤ 1 }
    ensures { result ≡ place_in conn sessions.now }
{
    if sits_at(sessions, conn, near) {
        return Some(near);
    }
    place_of(sessions, conn)
}

/// Whether the client has a kept session.
fn has_kept(sessions: &[Session], client: &str) -> bool
    ensures { result ≡ list_any (passes (is_kept_of client.now)) sessions.now }
{
    sessions.iter().any(|session| session.is_kept_of(client))
}

/// How many kept sessions there are.
fn kept_count(sessions: &[Session]) -> usize
    ensures { result ≡ count_by (passes (λ s. s.kept)) sessions.now }
{
    let mut count = 0;
    for session in sessions {
        if session.is_kept() {
            count += 1;
        }
    }
    count
}

/// Whether the client has a kept session, or there may be one more. Where there are fewer sessions than may be kept none is looked at.
pub(crate) fn is_welcome(sessions: &[Session], client: &str) -> bool
    ensures { result ≡ welcome_in client.now (sessions_now sessions.now) }
{
    if sessions.len() < MOST_KEPT_SESSIONS {
        return true;
    }
    has_kept(sessions, client) || kept_count(sessions) < MOST_KEPT_SESSIONS
}

/// Whether the client has a session.
fn has_one(sessions: &[Session], client: &str) -> bool
    ensures { result ≡ list_any (passes (is_named client.now)) sessions.now }
{
    sessions.iter().any(|session| session.is_named(client))
}

/// Where a connection of this client sits first.
fn joined_place(sessions: &[Session], client: &str) -> Option<usize>
    ensures { result ≡ position (passes (is_joined_by client.now)) sessions.now }
{
    sessions
        .iter()
        .position(|session| session.is_joined_by(client))
}

/// Where sessions of this client stand: each session is looked at once where it has none, as when it comes for the first time.
pub(crate) fn client_places(sessions: &[Session], client: &str) -> ClientPlaces
    ensures joined { result.joined ≡ position (passes (is_joined_by client.now)) sessions.now }
    ensures away { result.away ≡ position (passes (is_away client.now)) sessions.now }
{
    if !has_one(sessions, client) {
        return ClientPlaces {
            joined: None,
            away: None,
        };
    }
    ClientPlaces {
        joined: joined_place(sessions, client),
        away: away_place(sessions, client),
    }
}

/// The connection that sits for a client, which is at this place, if there is one; none for the empty client id (section 3.1.3.1).
pub(crate) fn older(sessions: &[Session], client: &str, joined: Option<usize>) -> Option<Conn>
    requires { joined ≡ position (passes (is_joined_by client.now)) sessions.now }
    ensures { result ≡ older_in client.now (sessions_now sessions.now) }
{
    if client.is_empty() {
        return None;
    }
    match joined {
        Some(place) => sessions[place].conn(),
        None => None,
    }
}

/// Whether a newcomer is this connection.
fn has_newcomer(newcomers: &[Newcomer], conn: Conn) -> bool
    ensures { result ≡ list_any (test_at newcomer_here (is_newcomer conn)) newcomers.now }
{
    newcomers
        .iter()
        .any(|newcomer| !newcomer.gone && newcomer.conn == conn)
}

/// Where an open connection without an accepted CONNECT stands.
pub(crate) fn newcomer_place(newcomers: &[Newcomer], conn: Conn) -> Option<usize>
    ensures { result ≡ position (test_at newcomer_here (is_newcomer conn)) newcomers.now }
{
    newcomers
        .iter()
        .position(|newcomer| !newcomer.gone && newcomer.conn == conn)
}

/// Whether this connection is open without an accepted CONNECT.
pub(crate) fn is_newcomer(newcomers: &[Newcomer], conn: Conn) -> bool
    ensures { result ≡ list_any (is_newcomer conn) (newcomers_now newcomers.now) }
{
    has_newcomer(newcomers, conn)
}

/// How many sends were dropped on an open connection without an accepted CONNECT.
fn newcomer_drops(newcomers: &[Newcomer], conn: Conn) -> u16
    ensures { result ≡ option_map_or (λ g. g.drops)
        (find (is_newcomer conn) (newcomers_now newcomers.now)) 0 }
{
    match newcomer_place(newcomers, conn) {
        Some(place) => newcomers[place].drops,
        None => 0,
    }
}

impl State {
    /// How many sends were dropped on this connection, which sits at this place, if it does.
    fn drops(&self, conn: Conn, place: Option<usize>) -> u16
        requires { place_in conn self.now.sessions.items ≡ place }
        ensures { places conn (state_now self.now) ≤ 1 → result ≡ drops_in conn (state_now self.now) }
    {
        match place {
            Some(place) => self.sessions[place].drops(),
            None => newcomer_drops(&self.newcomers, conn),
        }
    }

    /// Whether as many sends were dropped on this connection as close it; limit 0 acts as 1 (own rule).
    pub(crate) fn is_spent(&self, conn: Conn, place: Option<usize>) -> bool
        requires { place_in conn self.now.sessions.items ≡ place }
        ensures { places conn (state_now self.now) ≤ 1
            → result ≡ is_spent self.now.limit (drops_in conn (state_now self.now)) }
    {
        self.drops(conn, place) >= self.limit.max(1)
    }

    /// Whether this connection is open, which sits at this place, if it does.
    pub(crate) fn knows(&self, conn: Conn, place: Option<usize>) -> bool
        requires { place_in conn self.now.sessions.items ≡ place }
        ensures { result ≡ knows (state_now self.now) conn }
    {
        place.is_some() || is_newcomer(&self.newcomers, conn)
    }
}
