//! How the index of grants follows a call: it has the grants of before the call, and then those of by now.
ghost use Rattle.std.specs.Prelude.{◌≡◌, ◌+◌, ◌≤◌, ◌++◌, ◌∷◌, [], false, true, IfSome, OnOk, length, map, get_or};
ghost use Rattle.std.specs.List.{flat_map, fold};
ghost use Rattle.spk_broker.specs.Called.{AreOrdered, IsKeyed};
ghost use Rattle.spk_broker.specs.Filing.{AreAlikeAt, Holds, IsHeld, IsTurned, Walk, entry_of, is_next, walked, with_entry, without_entry};
ghost use Rattle.spk_broker.specs.Granting.{standing_grants};
ghost use Rattle.spk_broker.specs.Parts.{grant_view};
ghost use Rattle.spk_broker.specs.Sizes.{size_of, size_of_grants};
ghost use Rattle.spk_broker.specs.Touched.{AreTouched};
ghost use Rattle.spk_broker.specs.View.{session_now, session_was};

use crate::grant_changes::has;
use crate::index::{GrantIndex, file_one};
use crate::index_size::{self, MOST_LEVELS, left_by};
use crate::session::{Grant, Session};
use spk_topics::{Filter, Tree};
use std::alloc::AllocError;

/// Whether a grant's filter is that of the new one at this place.
fn is_next(wanted: &[Grant], met: usize, grant: &Grant) -> bool
    ensures next { result ≡ is_next (map grant_view wanted.now) met (grant_view grant.now) }
    ensures low { result ≡ true → met + 1 ≤ length wanted.now }
{
    met < wanted.len() && wanted[met].is_of(grant.filter.as_str())
}

/// The entry of a grant is taken back, unless its filter is among the new ones: a session has each filter once, which isn't known here.
/// It takes no memory.
fn drop_entry(tree: &mut Tree, key: u64, grant: &Grant, wanted: &[Grant])
    ensures { tree.new
        ≡ without_entry key (map grant_view wanted.now) tree.old (grant_view grant.now) }
{
    if has(wanted, grant.filter.as_str()) {
        return;
    }
    let Ok(filter) = Filter::read(grant.filter.as_str()) else {
        unreachable!()
    };
    let _ = tree.take_back(&filter, key);
}

/// Of the grants that a session had those are taken back that are gone. Both lists have what stays in the same order. Answers how many of the
/// new ones it had. It takes no memory.
fn drop_gone(tree: &mut Tree, size: &mut usize, key: u64, had: &[Grant], wanted: &[Grant]) -> usize
    ensures walked { record { index = tree.new; size = size.new; met = result }
        ≡ fold (walked key (map grant_view wanted.now))
        (record { index = tree.old; size = size.old; met = 0 }) (map grant_view had.now) }
    ensures low { result ≤ length wanted.now }
{
    let mut met = 0;
    for grant in had {
        if is_next(wanted, met, grant) {
            met += 1;
        } else {
            *size = size.saturating_sub(index_size::size(grant.filter.as_str()));
            drop_entry(tree, key, grant, wanted);
        }
    }
    met
}

/// These grants of a session are put in.
fn add(tree: &mut Tree, key: u64, grants: &[Grant]) -> Result<(), AllocError>
    ensures { OnOk result (tree.new
        ≡ fold with_entry tree.old (map (entry_of key) (map grant_view grants.now))) }
{
    for grant in grants {
        let _ = file_one(tree, key, grant)?;
    }
    Ok(())
}

/// The same, unless there'd be too many levels, or memory is refused: then it answers false.
fn add_few(tree: &mut Tree, size: &mut usize, key: u64, grants: &[Grant]) -> bool
    ensures filed { result ≡ true → tree.new
        ≡ fold with_entry tree.old (map (entry_of key) (map grant_view grants.now)) }
    ensures size { result ≡ true → size.old ≤ 100000
        → size.new ≡ size.old + size_of_grants (map grant_view grants.now) }
    ensures small { result ≡ true → size.new ≤ 100000 }
{
    let Some(left) = left_by(grants, MOST_LEVELS.saturating_sub(*size)) else {
        return false;
    };
    if add(tree, key, grants).is_err() {
        return false;
    }
    *size = MOST_LEVELS.saturating_sub(left);
    true
}

/// A session's grants of before the call give way to those of by now. Answers false where there can't be an index of them.
fn turn(tree: &mut Tree, size: &mut usize, session: &Session) -> bool
    ensures turned { result ≡ true
        → IsTurned tree.old tree.new session.now }
    ensures size { result ≡ true → size.old ≤ 100000
        → size_of_grants session.now.was.grants ≤ size.old
        → size.new + size_of_grants session.now.was.grants
        ≡ size.old + size_of_grants (standing_grants session.now.now) }
    ensures small { result ≡ true → size.old ≤ 100000 → size.new ≤ 100000 }
{
    if !session.is_turned() {
        return true;
    }
    let key = session.key();
    let new = session.standing();
    let met = drop_gone(tree, size, key, session.grants_before(), new);
    add_few(tree, size, key, &new[met..])
}

/// The index of the grants of by now.
fn turned(tree: Tree, size: &mut usize, sessions: &[Session]) -> Option<Tree>
    ensures { IfSome result (λ t. AreOrdered sessions.now → Holds tree size.old (map session_was sessions.now)
        → Holds t size.new (flat_map session_now sessions.now)) }
{
    let mut tree = tree;
    for session in sessions {
        session.keyed();
        if !turn(&mut tree, size, session) {
            return None;
        }
    }
    Some(tree)
}

/// The index where this session alone may have changed.
fn turned_one(tree: Tree, size: &mut usize, session: &Session) -> Option<Tree>
    ensures turned { IfSome result (λ t. IsTurned tree t session.now) }
    ensures keyed { IsKeyed session.now }
    ensures size { IfSome result (λ t. size.old ≤ 100000
        → size_of_grants session.now.was.grants ≤ size.old
        → size.new + size_of_grants session.now.was.grants
        ≡ size.old + size_of_grants (standing_grants session.now.now)) }
    ensures small { IfSome result (λ t. size.old ≤ 100000 → size.new ≤ 100000) }
{
    let mut tree = tree;
    session.keyed();
    if !turn(&mut tree, size, session) {
        return None;
    }
    Some(tree)
}

/// Whether the call may have changed the grants of a session at one of these places.
fn is_any_turned(sessions: &[Session], places: &[usize], last: usize) -> bool
    requires { AreTouched (places.now ++ last ∷ []) sessions.now }
    ensures { result ≡ false → AreAlikeAt (places.now ++ last ∷ []) sessions.now }
{
    for place in places {
        if sessions[*place].is_turned() {
            return true;
        }
    }
    sessions[last].is_turned()
}

impl GrantIndex {
    /// A call is about to stand: what a session that ended had is taken back, and of the others what they lost; what they got is put in.
    /// There is none where that would be too much, or where memory for it is refused: where no session got a grant none is asked for.
    pub(crate) fn follow(&mut self, sessions: &[Session])
        ensures { AreOrdered sessions.now → IsHeld self.old.tree self.old.size (map session_was sessions.now)
            → IsHeld self.new.tree self.new.size (flat_map session_now sessions.now) }
    {
        let Some(tree) = self.tree.take() else {
            return;
        };
        self.tree = turned(tree, &mut self.size, sessions);
        self.trim();
    }

    /// The same where only the session at this place may have changed.
    fn follow_one(&mut self, sessions: &[Session], place: usize)
        requires { AreTouched (place ∷ []) sessions.now }
        ensures { AreOrdered sessions.now → IsHeld self.old.tree self.old.size (map session_was sessions.now)
            → IsHeld self.new.tree self.new.size (flat_map session_now sessions.now) }
    {
        let Some(tree) = self.tree.take() else {
            return;
        };
        self.tree = turned_one(tree, &mut self.size, &sessions[place]);
        self.trim();
    }

    /// The same where only the sessions at these places and at that one may have changed.
    pub(crate) fn follow_at(&mut self, sessions: &[Session], places: &[usize], place: usize)
        requires { AreTouched (places.now ++ place ∷ []) sessions.now }
        ensures { AreOrdered sessions.now → IsHeld self.old.tree self.old.size (map session_was sessions.now)
            → IsHeld self.new.tree self.new.size (flat_map session_now sessions.now) }
    {
        if places.is_empty() {
            self.follow_one(sessions, place);
            return;
        }
        if self.tree.is_some() && is_any_turned(sessions, places, place) {
            self.follow(sessions);
        }
    }
}
