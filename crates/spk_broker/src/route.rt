//! Routing: each message that waits goes to all sessions before the next.
ghost use Rattle.std.specs.Prelude.{ℕ, ◌≡◌, ◌+◌, ◌≤◌, [], List, length, IfOk, IfSome, OnOk, is_none, map};
ghost use Rattle.std.specs.List.{flat_map};
ghost use Rattle.indexmap.specs.IndexMap.{spare};
ghost use Rattle.spk_broker_rules.specs.Plan.{Route};
ghost use Rattle.spk_broker_rules.specs.Step.{Turn, act, route_one, serve};
ghost use Rattle.spk_broker.specs.Called.{AreAscending, AreCalled, AreInOrder, AreKeyed, AreOrdered, ArePlaces};
ghost use Rattle.spk_broker.specs.Drafts.{draft_view};
ghost use Rattle.spk_broker.specs.Endings.{IsReady, Leads, alone_at};
ghost use Rattle.spk_broker.specs.Filing.{ArePassed, IsIndex};
ghost use Rattle.spk_broker.specs.Parts.{app_message_view};
ghost use Rattle.spk_broker.specs.Rounds.{kept_with, left_of_round, with_round};
ghost use Rattle.spk_broker.specs.Touched.{AreVisited, IsAlone};
ghost use Rattle.spk_broker.specs.View.{Stands, state_now, state_was, how_many, session_now, session_was};

use crate::app_message::AppMessage;
use crate::delivery::Delivery;
use crate::index::reach;
use crate::out::Draft;
use crate::packet_end::Ending;
use crate::receivers::{call, places};
use crate::session::Session;
use crate::state::{State, Stored};
use indexmap::IndexMap;
use spk_topics::Tree;
use std::alloc::{AllocError, Global};

/// What a routed message does to all sessions.
fn visit(
    sessions: &mut [Session],
    draft: &mut Draft,
    app_message: &AppMessage,
) -> Result<(), AllocError>
    ensures was { map session_was sessions.new ≡ map session_was sessions.old }
    ensures left { OnOk result (flat_map session_now sessions.new
        ≡ left_of_round (serve (app_message_view app_message.now)) (flat_map session_now sessions.old)) }
    ensures drafted { OnOk result (draft_view draft.new
        ≡ with_round (serve (app_message_view app_message.now)) (flat_map session_now sessions.old)
        (draft_view draft.old)) }
    ensures keyed { OnOk result (AreKeyed sessions.old → AreKeyed sessions.new) }
{
    let mut delivery = Delivery::new(app_message);
    for session in sessions.iter_mut() {
        session.serve(draft, &mut delivery)?;
        session.keyed();
    }
    Ok(())
}

/// Where those stand that the index found, but for those that ended; none exactly where it isn't known who they are.
fn found_places(
    alloc: Global,
    sessions: &[Session],
    found: &Option<Vec<(u64, u8)>>,
) -> Result<Option<Vec<usize>>, AllocError>
    ensures places { IfOk result (λ o. IfSome o (λ ps. ArePlaces ps.items sessions.now)) }
    ensures others { IfOk result (λ o. IfSome o
        (λ ps. (topic : List ℕ) → AreOrdered sessions.now → AreKeyed sessions.now → AreAscending found.now
        → ArePassed found.now topic (flat_map session_now sessions.now)
        → AreCalled topic ps.items sessions.now)) }
    ensures unknown { IfOk result (λ o. is_none o ≡ is_none found.now) }
{
    match found {
        Some(found) => Ok(Some(places(alloc, sessions, found)?)),
        None => Ok(None),
    }
}

/// What a routed message does to all sessions. Answers the places at which it called, where it looked at no others.
fn round(
    sessions: &mut [Session],
    draft: &mut Draft,
    app_message: &AppMessage,
    tree: &Option<Tree>,
) -> Result<Option<Vec<usize>>, AllocError>
    requires index { IsIndex tree.now (flat_map session_now sessions.old) }
    requires order { AreInOrder tree.now sessions.old }
    ensures was { map session_was sessions.new ≡ map session_was sessions.old }
    ensures left { OnOk result (flat_map session_now sessions.new
        ≡ left_of_round (serve (app_message_view app_message.now)) (flat_map session_now sessions.old)) }
    ensures drafted { OnOk result (draft_view draft.new
        ≡ with_round (serve (app_message_view app_message.now)) (flat_map session_now sessions.old)
        (draft_view draft.old)) }
    ensures visited { IfOk result (λ o. IfSome o (λ ps. AreVisited ps.items sessions.old sessions.new)) }
    ensures keyed { OnOk result (AreKeyed sessions.old → AreKeyed sessions.new) }
{
    let found = reach(tree, app_message.topic.as_str()).unwrap_or(None);
    if tree.is_none() {
        visit(sessions, draft, app_message)?;
        return Ok(None);
    }
    let Some(places) = found_places(draft.alloc, sessions, &found).unwrap_or(None) else {
        visit(sessions, draft, app_message)?;
        return Ok(None);
    };
    call(sessions, draft, app_message, &places)?;
    Ok(Some(places))
}

/// Whether more of these sessions are there than ended in this call.
fn are_most_there(sessions: &[Session]) -> bool {
    let mut there: usize = 0;
    for session in sessions {
        if session.is_there() {
            there = there.saturating_add(1);
        }
    }
    there > sessions.len() / 2
}

/// Room for what is to be retained, where the message is.
fn keep(
    retained: &mut IndexMap<String, Stored>,
    draft: &mut Draft,
    app_message: AppMessage,
) -> Result<(), AllocError>
    ensures same { retained.new.entries ≡ retained.old.entries }
    ensures room { OnOk result (length (draft_view draft.old).keeps ≤ spare retained.old
        → length (draft_view draft.new).keeps ≤ spare retained.new) }
    ensures drafted { OnOk result (draft_view draft.new ≡ record (draft_view draft.old) {
      keeps = kept_with (app_message_view app_message) (draft_view draft.old).keeps;
    }) }
{
    if app_message.retain {
        retained.reserve(draft.keeps.len() + 1)?;
        draft.keeps.push_back(app_message)?;
    }
    Ok(())
}

impl State {
    /// One message, routed whole. Answers the places at which it called, where it looked at no others.
    fn route_one(
        &mut self,
        draft: &mut Draft,
        app_message: AppMessage,
        tree: &Option<Tree>,
    ) -> Result<Option<Vec<usize>>, AllocError>
        requires index { IsIndex tree.now (state_now self.old).sessions }
        requires order { AreInOrder tree.now self.old.sessions.items }
        ensures done { OnOk result ((t : Turn) → Stands self.old draft.old t
            → Stands self.new draft.new (route_one (app_message_view app_message) t)) }
        ensures same { state_was self.new ≡ state_was self.old }
        ensures fewer { OnOk result (how_many self.new draft.new ≤ how_many self.old draft.old) }
        ensures index { OnOk result (IsIndex tree.now (state_now self.new).sessions) }
        ensures order { OnOk result (AreInOrder tree.now self.new.sessions.items) }
        ensures visited { IfOk result
            (λ o. IfSome o (λ ps. AreVisited ps.items self.old.sessions.items self.new.sessions.items)) }
        ensures newcomers { self.new.newcomers ≡ self.old.newcomers }
    {
        let places = round(&mut self.sessions, draft, &app_message, tree)?;
        keep(&mut self.retained, draft, app_message)?;
        Ok(places)
    }

    /// Those that wait are routed, each whole before the next.
    pub(crate) fn route(&mut self, draft: &mut Draft, tree: &Option<Tree>) -> Result<(), AllocError>
        requires index { IsIndex tree.now (state_now self.old).sessions }
        requires order { AreInOrder tree.now self.old.sessions.items }
        ensures done { OnOk result ((t : Turn) → Stands self.old draft.old t
            → Stands self.new draft.new (act Route t)) }
        ensures same { state_was self.new ≡ state_was self.old }
    {
        while let Some(app_message) = draft.waiting.pop_front() {
            self.route_one(draft, app_message, tree)?;
        }
        Ok(())
    }

    /// The same where many sessions may have ended in this call: where as many did as are there, all are looked at, since each message would
    /// find those that ended.
    pub(crate) fn route_after(
        &mut self,
        draft: &mut Draft,
        tree: &Option<Tree>,
    ) -> Result<(), AllocError>
        requires index { IsIndex tree.now (state_now self.old).sessions }
        requires order { AreInOrder tree.now self.old.sessions.items }
        ensures done { OnOk result ((t : Turn) → Stands self.old draft.old t
            → Stands self.new draft.new (act Route t)) }
        ensures same { state_was self.new ≡ state_was self.old }
    {
        if are_most_there(&self.sessions) {
            return self.route(draft, tree);
        }
        self.route(draft, &None)
    }

    /// Those that wait are routed, each whole before the next. Answers which sessions may have changed since the call began,
    /// where no other but that at this place had, and where none waits or one alone.
    pub(crate) fn route_near(
        &mut self,
        draft: &mut Draft,
        tree: &Option<Tree>,
        place: Option<usize>,
    ) -> Result<Ending, AllocError>
        requires index { IsIndex tree.now (state_now self.old).sessions }
        requires order { AreInOrder tree.now self.old.sessions.items }
        requires alone { IsAlone place self.old }
        ensures done { IfOk result (λ e. (t : Turn) → Stands self.old draft.old t
            → Leads self.new draft.new e (act Route t)) }
        ensures alone { IfOk result
            (λ e. (draft_view draft.old).waiting ≡ [] → e ≡ alone_at place) }
        ensures ready { IfOk result (λ e. IsReady e self.new) }
        ensures same { state_was self.new ≡ state_was self.old }
    {
        let Some(app_message) = draft.waiting.pop_front() else {
            return Ok(Ending::alone(place));
        };
        let places = self.route_one(draft, app_message, tree)?;
        if draft.waiting.is_empty() {
            return Ok(Ending::few(places, place));
        }
        self.route(draft, tree)?;
        Ok(Ending::Nothing)
    }
}
