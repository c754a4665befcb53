//! Where connections sit: what is kept here is looked at first and never believed, so that it may be out of date.
ghost use Rattle.std.specs.Prelude.{◌≡◌, ◌≤◌, IfSome, false, length};
ghost use Rattle.std.specs.List.{list_any};
ghost use Rattle.spk_broker_rules.specs.Lawful.{places};
ghost use Rattle.spk_broker_rules.specs.Step.{is_newcomer, knows};
ghost use Rattle.spk_broker.specs.Asking.{SitsAt, place_in};
ghost use Rattle.spk_broker.specs.Touched.{IsAlone};
ghost use Rattle.spk_broker.specs.View.{IsSound, state_now};

use crate::out::Conn;
use crate::queries::{is_newcomer, place_near, sits_at};
use crate::session::Session;
use crate::state::State;
use spk_packets::Packet;
use std::alloc::Global;

/// The most connections that are kept here, twice as many as may be open: those that ended stay until there are so many.
const MOST_HINTS: usize = 2_000;

/// A connection, the number of the session in which it sat, and where that stood.
#[derive(Debug, Drop)]
struct Hint {
    conn: Conn,
    key: u64,
    place: usize,
}

/// Where a connection sits, if it does, and whether it is open.
#[derive(Debug, Drop)]
pub(crate) struct Sought {
    pub(crate) place: Option<usize>,
    pub(crate) known: bool,
}

/// Whether a connection that sits at this place, if it does, is open. Where it was looked for at none of the sessions first it isn't one
/// without CONNECT.
fn is_known(state: &State, conn: Conn, place: Option<usize>, near: usize) -> bool
    requires place { place_in conn state.now.sessions.items ≡ place }
    requires new { length state.now.sessions.items ≤ near
        → list_any (is_newcomer conn) (state_now state.now).newcomers ≡ false }
    ensures { result ≡ knows (state_now state.now) conn }
{
    if near < state.sessions.len() {
        return state.knows(conn, place);
    }
    place.is_some()
}

/// The last place, where this connection sits there.
fn last_place(sessions: &[Session], conn: Conn) -> Option<usize>
    ensures { IfSome result (λ place. SitsAt conn place sessions.now) }
{
    let last = sessions.len().checked_sub(1)?;
    if sits_at(sessions, conn, last) {
        Some(last)
    } else {
        None
    }
}

/// In the order of connections.
#[derive(Debug, Drop)]
pub(crate) struct Hints {
    list: Vec<Hint>,
}

impl Hints {
    /// Nothing yet.
    pub(crate) fn new(alloc: Global) -> Hints {
        Hints {
            list: Vec::new(alloc),
        }
    }

    /// Where this connection is in the list. Connections are numbered one after the other, and most of them sat: so it is looked for as
    /// far behind the first as its number is.
    fn at(&self, conn: Conn) -> Option<usize> {
        let first = self.list.first()?;
        let at = conn.saturating_sub(first.conn) as usize;
        if let Some(hint) = self.list.get(at) {
            if hint.conn == conn {
                return Some(at);
            }
        }
        self.list.binary_search_by_key(&conn, |hint| hint.conn).ok()
    }

    /// Where the connection that is there in the list sat: where it stood, or by the number of its session, since sessions stand in the
    /// order of their numbers.
    fn guess(&self, sessions: &[Session], at: Option<usize>) -> usize {
        let Some(at) = at else {
            return sessions.len();
        };
        let Some(hint) = self.list.get(at) else {
            return sessions.len();
        };
        if let Some(session) = sessions.get(hint.place) {
            if session.key() == hint.key {
                return hint.place;
            }
        }
        match sessions.binary_search_by_key(&hint.key, |session| session.key()) {
            Ok(place) => place,
            Err(place) => place,
        }
    }

    /// The connection sits in this session, which stands there. Where memory is refused that isn't kept.
    fn learn(&mut self, conn: Conn, key: u64, place: usize) {
        if self.list.len() >= MOST_HINTS {
            self.list.clear();
        }
        match self.list.binary_search_by_key(&conn, |hint| hint.conn) {
            Ok(at) => {
                self.list[at].key = key;
                self.list[at].place = place;
            }
            Err(at) => {
                let _ = self.list.insert(at, Hint { conn, key, place });
            }
        }
    }

    /// The same of a connection that may be there in the list.
    fn note(&mut self, at: Option<usize>, conn: Conn, key: u64, place: usize) {
        if let Some(at) = at {
            if let Some(hint) = self.list.get_mut(at) {
                if hint.conn == conn {
                    hint.key = key;
                    hint.place = place;
                    return;
                }
            }
        }
        self.learn(conn, key, place);
    }

    /// Where the connection sits, and whether it is open: where nothing is known of it and it has no accepted CONNECT, no session is looked
    /// at. Where it sits is noted where it may call again.
    fn seek_in(&mut self, state: &State, conn: Conn, stays: bool) -> Sought
        requires { places conn (state_now state.now) ≤ 1 }
        ensures place { result.place ≡ place_in conn state.now.sessions.items }
        ensures known { result.known ≡ knows (state_now state.now) conn }
    {
        let at = self.at(conn);
        let near = self.guess(&state.sessions, at);
        if near >= state.sessions.len() && is_newcomer(&state.newcomers, conn) {
            return Sought {
                place: None,
                known: true,
            };
        }
        let place = place_near(&state.sessions, conn, near);
        if stays {
            self.note_place(&state.sessions, at, conn, place);
        }
        let known = is_known(state, conn, place, near);
        Sought { place, known }
    }

    /// Where the connection sits is noted, if it does.
    fn note_place(
        &mut self,
        sessions: &[Session],
        at: Option<usize>,
        conn: Conn,
        place: Option<usize>,
    ) {
        let Some(place) = place else {
            return;
        };
        if let Some(session) = sessions.get(place) {
            self.note(at, conn, session.key(), place);
        }
    }

    /// After a packet: a CONNECT may have made a session for this connection, which then stands last.
    pub(crate) fn meet(&mut self, sessions: &[Session], conn: Conn, packet: &Packet) {
        let Packet::Connect { .. } = packet else {
            return;
        };
        if let Some(place) = last_place(sessions, conn) {
            self.learn(conn, sessions[place].key(), place);
        }
    }

    /// Where the connection sits between calls, if it does, and whether it is open. It is noted where it may call again.
    pub(crate) fn seek(&mut self, state: &State, conn: Conn, stays: bool) -> Sought
        requires { IsSound state.now }
        ensures place { result.place ≡ place_in conn state.now.sessions.items }
        ensures known { result.known ≡ knows (state_now state.now) conn }
        ensures alone { IsAlone result.place state.now }
    {
        self.seek_in(state, conn, stays)
    }
}
