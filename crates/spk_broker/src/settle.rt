//! How a call ends: what was drafted stands, or is taken back.
ghost use Rattle.std.specs.Prelude.{◌≡◌, ◌≤◌, ◌∷◌, ◌++◌, [], length, map, vec_capacity, vec_len};
ghost use Rattle.indexmap.specs.IndexMap.{spare};
ghost use Rattle.spk_broker_rules.specs.Step.{Turn};
ghost use Rattle.spk_broker.specs.Called.{AreOrdered};
ghost use Rattle.spk_broker.specs.Drafts.{draft_view};
ghost use Rattle.spk_broker.specs.Filing.{IsHeld};
ghost use Rattle.spk_broker.specs.Sent.{sent_view};
ghost use Rattle.spk_broker.specs.Touched.{IsStill, OnlyAt};
ghost use Rattle.spk_broker.specs.View.{IsSettled, Stands, state_was};

use crate::index::GrantIndex;
use crate::out::{Draft, Out};
use crate::retained::retain_all;
use crate::state::State;
use crate::{newcomer, session_settle};

impl State {
    /// What was drafted stands. It takes no memory but for new grants in the index of grants, which is dropped where it is refused.
    pub(crate) fn settle(&mut self, draft: Draft, index: &mut GrantIndex) -> Out
        requires { length (draft_view draft).keeps ≤ spare self.old.retained }
        ensures done { (t : Turn) → Stands self.old draft t → state_was self.new ≡ t.broker }
        ensures settled { IsSettled self.new }
        ensures sends { map sent_view result.sends.items ≡ (draft_view draft).sends }
        ensures closes { result.closes.items ≡ (draft_view draft).closes }
        ensures capacity { vec_capacity self.new.sessions ≡ vec_capacity self.old.sessions }
        ensures fewer { vec_len self.new.sessions ≤ vec_len self.old.sessions }
        ensures held { AreOrdered self.old.sessions.items
            → IsHeld index.old.tree index.old.size (state_was self.old).sessions
            → IsHeld index.new.tree index.new.size (state_was self.new).sessions }
    {
        index.follow(&self.sessions);
        newcomer::settle(&mut self.newcomers);
        session_settle::settle(&mut self.sessions);
        retain_all(&mut self.retained, draft.keeps);
        self.clock_before = self.clock;
        Out {
            sends: draft.sends,
            closes: draft.closes,
        }
    }

    /// What was drafted stands, where the call has changed only the sessions at these places and at that one, and no
    /// connection without CONNECT. It takes no more memory than `settle`.
    pub(crate) fn settle_at(
        &mut self,
        draft: Draft,
        places: &[usize],
        place: usize,
        index: &mut GrantIndex,
    ) -> Out
        requires room { length (draft_view draft).keeps ≤ spare self.old.retained }
        requires only { OnlyAt (places.now ++ place ∷ []) self.old }
        ensures done { (t : Turn) → Stands self.old draft t → state_was self.new ≡ t.broker }
        ensures settled { IsSettled self.new }
        ensures sends { map sent_view result.sends.items ≡ (draft_view draft).sends }
        ensures closes { result.closes.items ≡ (draft_view draft).closes }
        ensures held { AreOrdered self.old.sessions.items
            → IsHeld index.old.tree index.old.size (state_was self.old).sessions
            → IsHeld index.new.tree index.new.size (state_was self.new).sessions }
    {
        index.follow_at(&self.sessions, places, place);
        session_settle::settle_at(&mut self.sessions, places, place);
        retain_all(&mut self.retained, draft.keeps);
        self.clock_before = self.clock;
        Out {
            sends: draft.sends,
            closes: draft.closes,
        }
    }

    /// What was drafted stands, where the call has changed no session. It takes no memory.
    pub(crate) fn settle_newcomers(&mut self, draft: Draft) -> Out
        requires room { length (draft_view draft).keeps ≤ spare self.old.retained }
        requires still { IsStill self.old }
        ensures done { (t : Turn) → Stands self.old draft t → state_was self.new ≡ t.broker }
        ensures settled { IsSettled self.new }
        ensures sends { map sent_view result.sends.items ≡ (draft_view draft).sends }
        ensures closes { result.closes.items ≡ (draft_view draft).closes }
        ensures sessions { self.new.sessions ≡ self.old.sessions }
    {
        newcomer::settle(&mut self.newcomers);
        retain_all(&mut self.retained, draft.keeps);
        self.clock_before = self.clock;
        Out {
            sends: draft.sends,
            closes: draft.closes,
        }
    }

    /// What was drafted is taken back. It takes no memory.
    pub(crate) fn undo(&mut self)
        ensures same { state_was self.new ≡ state_was self.old }
        ensures settled { IsSettled self.new }
    {
        newcomer::undo(&mut self.newcomers);
        session_settle::undo(&mut self.sessions);
        self.clock = self.clock_before;
    }
}
