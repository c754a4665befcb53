//! Sessions (section 3.1.2.4).
ghost use Rattle.std.specs.Prelude.{◌≡◌, ◌++◌, ◌∷◌, [], ◌<◌, ◌≤◌, ◌&&◌, IfOk, Some, count_by, map, not, vec_capacity, vec_len};
ghost use Rattle.std.specs.List.{filter, find, list_any};
ghost use Rattle.std.specs.Option.{option_map};
ghost use Rattle.spk_quota.specs.Figures.{connections_beside, is_here_with};
ghost use Rattle.spk_quota.specs.Held.{is_here_by, is_kept_by};
ghost use Rattle.spk_quota.specs.Step.{is_here, is_left, is_long_away, is_named, is_session, left_at, left_of, with_conn};

use crate::message::has_conn;
use std::alloc::{AllocError, Global};
use std::marker::Model;

/// A session.
#[derive(Debug, Drop)]
pub(crate) struct Session {
    user: usize,
    client: String,
    /// It was made with clean session 0.
    kept: bool,
    /// Its connection; None while its client is away.
    conn: Option<u64>,
    /// Since when its client is away, in milliseconds.
    since: u64,
}

impl Model for Session {
    ghost use Rattle.std.specs.Prelude.{string_bytes};
    ghost use Rattle.spk_quota.specs.Data.{SessionData};

    ghost Value = { SessionData };

    ghost view = { λ s. record { user = s.user; client = string_bytes s.client; kept = s.kept; conn = s.conn; since = s.since } };
}

impl Session {
    /// A session of this client.
    pub(crate) fn new(
        alloc: Global,
        user: usize,
        client: &str,
        kept: bool,
        conn: Option<u64>,
        since: u64,
    ) -> Result<Session, AllocError>
        ensures { IfOk result (λ s. s ≡ record { user = user; client = client.now; kept = kept; conn = conn; since = since }) }
    {
        Ok(Session {
            user,
            client: String::from_str(alloc, client)?,
            kept,
            conn,
            since,
        })
    }

    /// Its client identifier.
    fn client(&self) -> &str
        ensures { result.now ≡ self.now.client }
    {
        self.client.as_str()
    }

    /// Whose it is.
    fn user(&self) -> usize
        ensures { result ≡ self.now.user }
    {
        self.user
    }

    /// Whether it is kept.
    fn is_kept(&self) -> bool
        ensures { result ≡ self.now.kept }
    {
        self.kept
    }

    /// Whether it is this user's, and kept.
    fn is_kept_by(&self, user: usize) -> bool
        ensures { result ≡ is_kept_by user self.now }
    {
        self.kept && self.user == user
    }

    /// Whether it is this user's, and has a connection.
    fn is_here_by(&self, user: usize) -> bool
        ensures { result ≡ is_here_by user self.now }
    {
        self.conn.is_some() && self.user == user
    }

    /// Whether it is this user's, and has a connection once the session of this client has one.
    fn is_here_with(&self, user: usize, client: &str) -> bool
        ensures { result ≡ is_here_with user client.now self.now }
    {
        self.is_of(user, client) || self.is_here_by(user)
    }

    /// Whether it is the session of this user and this client.
    fn is_of(&self, user: usize, client: &str) -> bool
        ensures { result ≡ is_session user client.now self.now }
    {
        self.user == user && self.client.as_str() == client
    }

    /// Whether it is this client's.
    fn is_named(&self, client: &str) -> bool
        ensures { result ≡ is_named client.now self.now }
    {
        self.client.as_str() == client
    }

    /// Whether it is this client's, by this connection.
    fn is_here(&self, conn: u64, client: &str) -> bool
        ensures { result ≡ is_here conn client.now self.now }
    {
        self.client.as_str() == client && has_conn(self.conn, conn)
    }

    /// Whether it is this client's, without a connection.
    fn is_left(&self, client: &str) -> bool
        ensures { result ≡ is_left client.now self.now }
    {
        self.client.as_str() == client && self.conn.is_none()
    }

    /// Whether it is kept, and its client was away for so long.
    fn is_long_away(&self, now: u64, patience: u64) -> bool
        ensures { result ≡ is_long_away now patience self.now }
    {
        self.kept && self.conn.is_none() && patience <= now.saturating_sub(self.since)
    }

    /// It has this connection, if it is of this user and this client.
    fn seat(&mut self, user: usize, client: &str, conn: u64)
        ensures { self.new ≡ with_conn user client.now conn self.old }
    {
        if self.user == user && self.client.as_str() == client {
            self.conn = Some(conn);
        }
    }

    /// Its client is away since now, if it is this user's and this client's, by this connection.
    fn leave(&mut self, user: usize, conn: u64, client: &str, now: u64)
        ensures { self.new ≡ left_at user conn client.now now self.old }
    {
        if self.user == user && self.is_here(conn, client) {
            self.conn = None;
            self.since = now;
        }
    }
}

/// How many sessions of a user have a connection.
pub(crate) fn connections(sessions: &[Session], user: usize) -> u64
    ensures { result ≡ count_by (is_here_by user) sessions.now }
{
    sessions.iter().filter(|s| s.is_here_by(user)).count() as u64
}

/// How many sessions of a user have a connection, but for that of this client.
pub(crate) fn other_connections(sessions: &[Session], user: usize, client: &str) -> u64
    ensures { result ≡ count_by (is_here_by user) (filter (λ s. not (is_session user client.now s)) sessions.now) }
{
    sessions
        .iter()
        .filter(|s| !s.is_of(user, client))
        .filter(|s| s.is_here_by(user))
        .count() as u64
}

/// How many sessions of a user have a connection once that of this client has one, but for this one.
pub(crate) fn connections_beside(sessions: &[Session], user: usize, client: &str) -> u64
    ensures { result ≡ connections_beside user client.now sessions.now }
{
    let all = sessions
        .iter()
        .filter(|s| s.is_here_with(user, client))
        .count() as u64;
    all.saturating_sub(1)
}

/// How many kept sessions a user has.
pub(crate) fn count(sessions: &[Session], user: usize) -> u64
    ensures { result ≡ count_by (is_kept_by user) sessions.now }
{
    sessions.iter().filter(|s| s.is_kept_by(user)).count() as u64
}

/// How many kept sessions a user has, but for that of this client.
pub(crate) fn count_others(sessions: &[Session], user: usize, client: &str) -> u64
    ensures { result ≡ count_by (is_kept_by user) (filter (λ s. not (is_session user client.now s)) sessions.now) }
{
    sessions
        .iter()
        .filter(|s| !s.is_of(user, client))
        .filter(|s| s.is_kept_by(user))
        .count() as u64
}

/// Whether the session of this user and this client is kept.
pub(crate) fn is_kept(sessions: &[Session], user: usize, client: &str) -> bool
    ensures { result ≡ list_any (λ s. is_session user client.now s && s.kept) sessions.now }
{
    sessions
        .iter()
        .any(|s| s.is_of(user, client) && s.is_kept())
}

/// The session of this user and this client is no more.
pub(crate) fn remove(sessions: &mut Vec<Session>, user: usize, client: &str)
    ensures items { sessions.new.items ≡ filter (λ s. not (is_session user client.now s)) sessions.old.items }
    ensures len { vec_len sessions.new ≤ vec_len sessions.old }
    ensures capacity { vec_capacity sessions.new ≡ vec_capacity sessions.old }
{
    sessions.retain(|s| !s.is_of(user, client));
}

/// The session of this user and this client is this one.
pub(crate) fn renew(sessions: &mut Vec<Session>, user: usize, client: &str, session: Session)
    requires { vec_len sessions.old < vec_capacity sessions.old }
    ensures { sessions.new.items ≡ filter (λ s. not (is_session user client.now s)) sessions.old.items ++ session ∷ [] }
{
    remove(sessions, user, client);
    let _ = sessions.push(session);
}

/// The session of this user and this client has this connection.
pub(crate) fn seat(sessions: &mut [Session], user: usize, client: &str, conn: u64)
    ensures { sessions.new ≡ map (with_conn user client.now conn) sessions.old }
{
    for session in sessions.iter_mut() {
        session.seat(user, client, conn);
    }
}

/// The client of this user is away since now, if its session has this connection.
fn leave_by(sessions: &mut [Session], user: usize, conn: u64, client: &str, now: u64)
    ensures { sessions.new ≡ map (left_at user conn client.now now) sessions.old }
{
    for session in sessions.iter_mut() {
        session.leave(user, conn, client, now);
    }
}

/// The client is away since now, if its session has this connection: of two users' sessions the first.
pub(crate) fn leave(sessions: &mut [Session], conn: u64, client: &str, now: u64)
    ensures { sessions.new ≡ left_of conn client.now now sessions.old }
{
    if let Some((user, _)) = owner_here(sessions, conn, client) {
        leave_by(sessions, user, conn, client, now);
    }
}

/// Whose the session of this client is.
pub(crate) fn owner(sessions: &[Session], client: &str) -> Option<usize>
    ensures { result ≡ option_map (λ s. s.user) (find (is_named client.now) sessions.now) }
{
    sessions
        .iter()
        .find(|s| s.is_named(client))
        .map(|s| s.user())
}

/// Whose the session of this client is that has this connection, and whether it is kept.
pub(crate) fn owner_here(sessions: &[Session], conn: u64, client: &str) -> Option<(usize, bool)>
    ensures { result ≡ option_map (λ s. (s.user, s.kept)) (find (is_here conn client.now) sessions.now) }
{
    sessions
        .iter()
        .find(|s| s.is_here(conn, client))
        .map(|s| (s.user(), s.is_kept()))
}

/// Whose the session of this client is that has no connection.
pub(crate) fn owner_left(sessions: &[Session], client: &str) -> Option<usize>
    ensures { result ≡ option_map (λ s. s.user) (find (is_left client.now) sessions.now) }
{
    sessions
        .iter()
        .find(|s| s.is_left(client))
        .map(|s| s.user())
}

/// The first client that was away for so long.
pub(crate) fn long_away(sessions: &[Session], now: u64, patience: u64) -> Option<&str>
    ensures { option_map (λ c. c.now) result
        ≡ option_map (λ s. s.client) (find (is_long_away now patience) sessions.now) }
{
    sessions
        .iter()
        .find(|s| s.is_long_away(now, patience))
        .map(|s| s.client())
}
