//! Which sessions a message calls at: those that the index found, each by its number.
ghost use Rattle.std.specs.Prelude.{ℕ, ◌≡◌, ◌+◌, ◌<◌, IfOk, IfSome, None, OnOk, get_or, length, map, true};
ghost use Rattle.std.specs.List.{flat_map, list_any};
ghost use Rattle.std.specs.List.Sorted.{IsStrictlyIncreasing};
ghost use Rattle.spk_broker_rules.specs.Step.{serve};
ghost use Rattle.spk_broker.specs.Asking.{passes};
ghost use Rattle.spk_broker.specs.Both.{Both};
ghost use Rattle.spk_broker.specs.Called.{AreAllFound, AreCalled, AreKeyed, AreOrdered, ArePlaces, IsKeyed, IsPast, has_number, is_there};
ghost use Rattle.spk_broker.specs.Drafts.{draft_view};
ghost use Rattle.spk_broker.specs.Parts.{app_message_view};
ghost use Rattle.spk_broker.specs.Rounds.{left_of_round, with_round};
ghost use Rattle.spk_broker.specs.Touched.{AreVisited};
ghost use Rattle.spk_broker.specs.View.{session_now, session_was};

use crate::app_message::AppMessage;
use crate::delivery::Delivery;
use crate::out::Draft;
use crate::session::Session;
use std::alloc::{AllocError, Global};

impl Session {
    /// Its number is the one that it had before the call.
    pub(crate) fn keyed(&self)
        ensures { IsKeyed self.now }
    {
        let _ = &self.key;
    }

    /// Whether it has this number and didn't end.
    fn has_number(&self, key: u64) -> bool
        ensures now { result ≡ passes (has_number key) self.now }
        ensures was { result ≡ is_there key self.now }
    {
        !self.ended && self.key == key
    }
}

/// Where a session of this number may stand, looked for at one place first: sessions stand in the order of their numbers.
fn guess(sessions: &[Session], near: usize, key: u64) -> usize
    ensures { AreOrdered sessions.now
        → (i : ℕ) (d : Both) → i < length sessions.now
        → (get_or sessions.now i d).was.key ≡ key → i ≡ result }
{
    if near < sessions.len() && sessions[near].key() == key {
        return near;
    }
    match sessions.binary_search_by_key(&key, |session| session.key()) {
        Ok(place) => place,
        Err(place) => place,
    }
}

/// Where the session of this number stands, if it does and no further ahead than here.
pub(crate) fn place_from(sessions: &[Session], from: usize, key: u64) -> Option<usize>
    ensures low { IfSome result (λ p. p < length sessions.now) }
    ensures behind { IfSome result (λ p. from < p + 1) }
    ensures there { IfSome result
        (λ p. (d : Both) → is_there key (get_or sessions.now p d) ≡ true) }
    ensures none { result ≡ None → AreOrdered sessions.now → IsPast key from sessions.now }
{
    let place = guess(sessions, from, key);
    if place < from || place >= sessions.len() || !sessions[place].has_number(key) {
        return None;
    }
    Some(place)
}

/// The places of the sessions that were found, in the order of their numbers. Those that ended are passed over.
pub(crate) fn places(
    alloc: Global,
    sessions: &[Session],
    found: &[(u64, u8)],
) -> Result<Vec<usize>, AllocError>
    ensures places { IfOk result (λ ps. ArePlaces ps.items sessions.now) }
    ensures found { IfOk result (λ ps. (k : ℕ) (d : Both) → k < length ps.items
        → list_any (λ g. is_there g.0 (get_or sessions.now (get_or ps.items k 0) d)) found.now
        ≡ true) }
    ensures others { IfOk result
        (λ ps. AreOrdered sessions.now → AreKeyed sessions.now
        → IsStrictlyIncreasing (map (λ g. g.0) found.now)
        → AreAllFound found.now ps.items sessions.now) }
{
    let mut places = Vec::new(alloc);
    let mut from = 0;
    for entry in found {
        if let Some(place) = place_from(sessions, from, entry.0) {
            places.push(place)?;
            from = place + 1;
        }
    }
    Ok(places)
}

/// What a routed message does to the sessions at these places, where it does nothing to any other.
pub(crate) fn call(
    sessions: &mut [Session],
    draft: &mut Draft,
    app_message: &AppMessage,
    places: &[usize],
) -> Result<(), AllocError>
    requires places { ArePlaces places.now sessions.old }
    requires others { AreCalled (app_message_view app_message.now).topic places.now sessions.old }
    ensures was { map session_was sessions.new ≡ map session_was sessions.old }
    ensures left { OnOk result (flat_map session_now sessions.new
        ≡ left_of_round (serve (app_message_view app_message.now)) (flat_map session_now sessions.old)) }
    ensures drafted { OnOk result (draft_view draft.new
        ≡ with_round (serve (app_message_view app_message.now)) (flat_map session_now sessions.old)
        (draft_view draft.old)) }
    ensures visited { OnOk result (AreVisited places.now sessions.old sessions.new) }
    ensures keyed { OnOk result (AreKeyed sessions.old → AreKeyed sessions.new) }
{
    let mut delivery = Delivery::new(app_message);
    for place in places {
        sessions[*place].serve(draft, &mut delivery)?;
        sessions[*place].keyed();
    }
    Ok(())
}
