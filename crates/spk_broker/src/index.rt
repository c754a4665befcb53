//! The index of grants: whom a message may concern.
ghost use Rattle.std.specs.Prelude.{◌≡◌, ℕ, List, IfOk, IfSome, Ok, OnOk, None, Some, false, is_some, length, map, true, string_bytes};
ghost use Rattle.std.specs.List.{flat_map, fold};
ghost use Rattle.spk_packets.specs.View.{view};
ghost use Rattle.spk_broker_rules.specs.Data as plain;
ghost use Rattle.spk_broker_rules.specs.Step.{session_by, serve};
ghost use Rattle.spk_broker_rules.specs.Words.{best, option_list};
ghost use Rattle.spk_broker.specs.Asking.{place_in, sessions_now};
ghost use Rattle.spk_broker.specs.Called.{AreOrdered};
ghost use Rattle.spk_broker.specs.Drafts.{draft_view, left_by, served_by};
ghost use Rattle.spk_broker.specs.Filing.{ArePassed, HasNoOther, IsHeld, IsIndex, IsReached, entries_of, index_of, is_publish, made_index, with_entry};
ghost use Rattle.spk_broker.specs.View.{state_now, session_now, session_was};

use crate::delivery::Delivery;
use crate::index_size::{is_small, total};
use crate::out::Draft;
use crate::session::{Grant, Session};
use crate::state::State;
use spk_packets::Packet;
use spk_topics::{Filter, Topic, Tree, laws};
use std::alloc::{AllocError, Global};

/// The numbers of the sessions that the index finds for a topic; none where there is no index, or where the text is no topic.
pub(crate) fn reach(tree: &Option<Tree>, topic: &str) -> Result<Option<Vec<(u64, u8)>>, AllocError>
    ensures reached { IfOk result (λ o. IsReached tree.now topic.now o) }
    ensures passed { IfOk result (λ o. (ss : List plain.Session)
        → IsIndex tree.now ss → ArePassed o topic.now ss) }
{
    laws::matching();
    let Some(tree) = tree else {
        return Ok(None);
    };
    let Ok(name) = Topic::read(topic) else {
        return Ok(None);
    };
    match tree.find(&name) {
        Ok(found) => Ok(Some(found)),
        Err(_) => Err(AllocError),
    }
}

/// One more grant of a session in the index. Answers whether it is new there.
pub(crate) fn file_one(tree: &mut Tree, key: u64, grant: &Grant) -> Result<bool, AllocError>
    ensures { OnOk result
        (tree.new ≡ with_entry tree.old ((string_bytes grant.now.filter, key), grant.now.qos)) }
{
    let Ok(filter) = Filter::read(grant.filter.as_str()) else {
        unreachable!()
    };
    match tree.grant(&filter, key, grant.qos) {
        Ok(is_new) => Ok(is_new),
        Err(_) => Err(AllocError),
    }
}

/// The grants of a session in the index.
fn file_session(tree: &mut Tree, session: &Session) -> Result<(), AllocError>
    ensures { OnOk result
        (tree.new ≡ fold with_entry tree.old (flat_map entries_of (session_now session.now))) }
{
    let key = session.key();
    for grant in session.standing() {
        let _ = file_one(tree, key, grant)?;
    }
    Ok(())
}

/// An index of the grants of all sessions; none where they are too many.
fn index(alloc: Global, sessions: &[Session]) -> Result<Option<Tree>, AllocError>
    ensures made { IfOk result (λ o. o ≡ made_index (flat_map session_now sessions.now)) }
    ensures index { IfOk result (λ o. IsIndex o (flat_map session_now sessions.now)) }
    ensures only { IfOk result
        (λ o. IfSome o (λ tree. HasNoOther tree (flat_map session_now sessions.now))) }
{
    laws::granted();
    if !is_small(sessions) {
        return Ok(None);
    }
    Ok(Some(filed(alloc, sessions)?))
}

/// An index of the grants of all sessions.
fn filed(alloc: Global, sessions: &[Session]) -> Result<Tree, AllocError>
    ensures { IfOk result (λ tree. tree ≡ index_of (flat_map session_now sessions.now)) }
{
    let mut tree = Tree::new(alloc);
    for session in sessions {
        file_session(&mut tree, session)?;
    }
    Ok(tree)
}

/// What an index may have taken and have room for, beside four times what it has.
const SPARE: usize = 1_000;

/// The index of grants, where there is one, and what its filters take.
#[derive(Drop)]
pub(crate) struct GrantIndex {
    pub(crate) tree: Option<Tree>,
    pub(crate) size: usize,
    /// The most that they took since it was made.
    most: usize,
}

impl GrantIndex {
    /// None.
    pub(crate) fn new() -> GrantIndex
        ensures { result.tree ≡ None }
    {
        GrantIndex {
            tree: None,
            size: 0,
            most: 0,
        }
    }

    /// Before a packet is drafted: for a publish there is one, unless there can't be.
    pub(crate) fn ready(&mut self, state: &State, packet: &Packet)
        requires { IsHeld self.old.tree self.old.size (state_now state.now).sessions }
        ensures index { IsHeld self.new.tree self.new.size (state_now state.now).sessions }
        ensures kept { is_some self.old.tree ≡ true → self.new ≡ self.old }
    {
        if self.tree.is_none() {
            self.make(state, packet);
        }
    }

    /// There is none, and for a publish it is made, where it can be.
    fn make(&mut self, state: &State, packet: &Packet)
        ensures { IsHeld self.new.tree self.new.size (state_now state.now).sessions }
    {
        self.tree = index_for(state, packet).unwrap_or(None);
        if self.tree.is_some() {
            self.size = total(&state.sessions);
            self.most = self.size;
        }
    }

    /// It is dropped where a quarter is left of the most that it took, since what was taken back keeps room in it: the next publish makes it anew.
    pub(crate) fn trim(&mut self)
        ensures { (sessions : List plain.Session) → IsHeld self.old.tree self.old.size sessions
            → IsHeld self.new.tree self.new.size sessions }
    {
        self.most = self.most.max(self.size);
        if self.size.saturating_add(SPARE) < self.most / 4 {
            self.tree = None;
        }
    }
}

/// The index for what this packet does, where there is none: a new one for a publish.
fn index_for(state: &State, packet: &Packet) -> Result<Option<Tree>, AllocError>
    ensures index { IfOk result (λ o. IsIndex o (state_now state.now).sessions) }
    ensures none { is_publish (view packet.now) ≡ false → result ≡ Ok None }
    ensures made { is_publish (view packet.now) ≡ true
        → IfOk result (λ o. o ≡ made_index (state_now state.now).sessions) }
{
    match packet {
        Packet::Publish { .. } => index(state.alloc, &state.sessions),
        _ => Ok(None),
    }
}
