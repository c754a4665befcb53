//! How sessions come out of a call, and how their connections leave.
ghost use Rattle.std.specs.Prelude.{ℕ, ◌≡◌, ◌++◌, ◌∷◌, ◌<◌, ◌≤◌, [], OnOk, Some, get_or, is_some, length, map, false, true, vec_capacity, vec_len};
ghost use Rattle.std.specs.List.{filter, flat_map, list_any};
ghost use Rattle.std.specs.Option.{option_map};
ghost use Rattle.spk_broker_rules.specs.Step.{left_behind, will_at};
ghost use Rattle.spk_broker_rules.specs.Words.{option_list};
ghost use Rattle.spk_broker.specs.Both.{Both};
ghost use Rattle.spk_broker.specs.Called.{is_place};
ghost use Rattle.spk_broker.specs.Drafts.{draft_view};
ghost use Rattle.spk_broker.specs.Sessions.{session_dropped, session_heard};
ghost use Rattle.spk_broker.specs.Settling.{has_ended, session_left};
ghost use Rattle.spk_broker.specs.Touched.{AreTouched};
ghost use Rattle.spk_broker.specs.View.{session_now, session_was};

use crate::out::{Conn, Draft};
use crate::session::Session;
use std::alloc::AllocError;

impl Session {
    /// A packet of this connection came.
    pub(crate) fn hear(&mut self, conn: Conn, clock: u64)
        ensures was { self.new.was ≡ self.old.was }
        ensures now { self.new.now ≡ option_map (session_heard conn clock) self.old.now }
    {
        let Some(connection) = &mut self.here else {
            return;
        };
        if connection.conn == conn {
            connection.heard = clock;
        }
    }

    /// A send to this connection was dropped.
    pub(crate) fn count_drop(&mut self, conn: Conn)
        ensures was { self.new.was ≡ self.old.was }
        ensures now { self.new.now ≡ option_map (session_dropped conn) self.old.now }
    {
        let Some(connection) = &mut self.here else {
            return;
        };
        if connection.conn == conn {
            connection.drops = connection.drops.saturating_add(1);
        }
    }

    /// Its connection leaves: a kept session stays, any other one ends.
    fn part(&mut self)
        ensures was { self.new.was ≡ self.old.was }
        ensures left { option_list self.new.now ≡ flat_map left_behind (option_list self.old.now) }
    {
        if !self.kept {
            self.ended = true;
            return;
        }
        let connection = self.here.take();
        if self.left.is_none() {
            self.left = connection;
        }
    }

    /// Its will waits.
    fn queue_will(&self, draft: &mut Draft) -> Result<(), AllocError>
        ensures { OnOk result (draft_view draft.new ≡ record (draft_view draft.old) {
          waiting = (draft_view draft.old).waiting ++ flat_map (will_at true)
              (option_list self.now.now);
        }) }
    {
        if self.ended {
            return Ok(());
        }
        if let Some(connection) = &self.here {
            if let Some(will) = &connection.will {
                draft.queue(will.copied(will.qos, will.retain)?)?;
            }
        }
        Ok(())
    }

    /// Its connection leaves, and its will waits or is discarded (section 3.1.2.5).
    pub(crate) fn leave(&mut self, draft: &mut Draft, wills: bool) -> Result<(), AllocError>
        ensures was { self.new.was ≡ self.old.was }
        ensures left { OnOk result (
            option_list self.new.now ≡ flat_map left_behind (option_list self.old.now)) }
        ensures drafted { OnOk result (draft_view draft.new ≡ record (draft_view draft.old) {
          waiting = (draft_view draft.old).waiting ++ flat_map (will_at wills)
              (option_list self.old.now);
        }) }
    {
        if wills {
            self.queue_will(draft)?;
        }
        self.part();
        Ok(())
    }

    /// Whether it didn't end.
    pub(crate) fn is_there(&self) -> bool
        ensures { result ≡ is_some self.now.now }
    {
        !self.ended
    }

    /// What was drafted stands, unless it ended.
    fn settle(&mut self)
        ensures now { self.new.now ≡ self.old.now }
        ensures left { session_left self.new ≡ option_list self.old.now }
    {
        self.left = None;
        self.used_before = self.ids.waiting().len();
        self.last_before = self.ids.last();
        self.in_flight_before = self.in_flight.len();
        if let Some(grants) = self.regrant.take() {
            self.grants = grants;
        }
        if let Some(connection) = &mut self.here {
            connection.heard_before = connection.heard;
            connection.drops_before = connection.drops;
        }
    }

    /// What was drafted stands, unless it ended. Whether it ended.
    fn settle_ended(&mut self) -> bool
        ensures ended { result ≡ has_ended self.new }
        ensures now { self.new.now ≡ self.old.now }
        ensures left { session_left self.new ≡ option_list self.old.now }
    {
        self.settle();
        !self.is_there()
    }

    /// What was drafted is taken back.
    fn undo(&mut self)
        ensures was { self.new.was ≡ self.old.was }
        ensures now { self.new.now ≡ Some self.old.was }
    {
        self.ended = false;
        self.ids.rewind(self.used_before, self.last_before);
        self.in_flight.truncate(self.in_flight_before);
        self.regrant = None;
        if let Some(connection) = self.left.take() {
            self.here = Some(connection);
        }
        if let Some(connection) = &mut self.here {
            connection.heard = connection.heard_before;
            connection.drops = connection.drops_before;
        }
    }
}

/// What was drafted of each stands. Whether one of them ended.
fn settle_each(sessions: &mut [Session]) -> bool
    ensures ended { result ≡ list_any has_ended sessions.new }
    ensures now { flat_map session_now sessions.new ≡ flat_map session_now sessions.old }
    ensures left { flat_map session_left sessions.new ≡ flat_map session_now sessions.old }
{
    let mut ended = false;
    for session in sessions.iter_mut() {
        session.settle();
        ended = ended | !session.is_there();
    }
    ended
}

/// What was drafted is taken back.
pub(crate) fn undo(sessions: &mut [Session])
    ensures was { map session_was sessions.new ≡ map session_was sessions.old }
    ensures now { flat_map session_now sessions.new ≡ map session_was sessions.old }
{
    for session in sessions.iter_mut() {
        session.undo();
    }
}

/// What was drafted of those at these places and at that one stands. Whether one of them ended.
fn settle_places(sessions: &mut [Session], places: &[usize], last: usize) -> bool
    requires { AreTouched (places.now ++ last ∷ []) sessions.old }
    ensures ended { result ≡ list_any has_ended sessions.new }
    ensures now { flat_map session_now sessions.new ≡ flat_map session_now sessions.old }
    ensures left { flat_map session_left sessions.new ≡ flat_map session_now sessions.old }
    ensures stay { (i : ℕ) (d : Both) → i < length sessions.new
        → is_place i (places.now ++ last ∷ []) ≡ false
        → has_ended (get_or sessions.new i d) ≡ false }
    ensures long { length sessions.new ≡ length sessions.old }
{
    let mut ended = false;
    for place in places {
        let gone = sessions[*place].settle_ended();
        ended = ended | gone;
    }
    let other = sessions[last].settle_ended();
    ended | other
}

/// Who ended is gone, where one did, and none but those at these places and at that one can have. Where that one alone can, no other is looked
/// at.
fn drop_ended(sessions: &mut Vec<Session>, places: &[usize], place: usize)
    requires low { place < length sessions.old.items }
    requires some { list_any has_ended sessions.old.items ≡ true }
    requires stay { (i : ℕ) (d : Both) → i < length sessions.old.items
        → is_place i (places.now ++ place ∷ []) ≡ false
        → has_ended (get_or sessions.old.items i d) ≡ false }
    ensures { sessions.new.items ≡ filter (λ b. is_some b.now) sessions.old.items }
{
    if places.is_empty() {
        let _ = sessions.remove(place);
        return;
    }
    sessions.retain(|session| session.is_there());
}

/// What was drafted stands, where only the sessions at these places and at that one may have changed; which of them ended is
/// gone.
pub(crate) fn settle_at(sessions: &mut Vec<Session>, places: &[usize], place: usize)
    requires { AreTouched (places.now ++ place ∷ []) sessions.old.items }
    ensures was { map session_was sessions.new.items ≡ flat_map session_now sessions.old.items }
    ensures now { flat_map session_now sessions.new.items ≡ flat_map session_now sessions.old.items }
{
    if settle_places(sessions, places, place) {
        drop_ended(sessions, places, place);
    }
}

/// What was drafted stands, and which session ended is gone.
pub(crate) fn settle(sessions: &mut Vec<Session>)
    ensures was { map session_was sessions.new.items ≡ flat_map session_now sessions.old.items }
    ensures now { flat_map session_now sessions.new.items ≡ flat_map session_now sessions.old.items }
    ensures capacity { vec_capacity sessions.new ≡ vec_capacity sessions.old }
    ensures fewer { vec_len sessions.new ≤ vec_len sessions.old }
{
    if settle_each(sessions) {
        sessions.retain(|session| session.is_there());
    }
}
