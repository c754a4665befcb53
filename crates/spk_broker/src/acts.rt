//! Drafted acts: the clock, what was heard and dropped, and connections that leave.
ghost use Rattle.std.specs.Prelude.{◌≡◌, ◌∷◌, ◌++◌, [], IfOk, None, OnOk, Option, Some, max, true};
ghost use Rattle.spk_topics.specs.Grants.{Grants};
ghost use Rattle.spk_broker_rules.specs.Plan.{At, Drop, Hear, Leave, Say, Tell, shut};
ghost use Rattle.spk_broker_rules.specs.Step.{Turn, act, acts};
ghost use Rattle.spk_broker.specs.Asking.{place_in};
ghost use Rattle.spk_broker.specs.Called.{AreInOrder, AreKeyed};
ghost use Rattle.spk_broker.specs.Endings.{IsReady, Leads};
ghost use Rattle.spk_broker.specs.Filing.{IsIndex};
ghost use Rattle.spk_broker.specs.Touched.{IsAlone, IsStill, OnlyAt};
ghost use Rattle.spk_broker.specs.View.{Stands, state_now, state_was};
ghost use Rattle.spk_broker.specs.declared.out.Draft.{Draft};

use crate::newcomer;
use crate::out::{Conn, Draft};
use crate::packet_end::Ending;
use crate::queries::place_of;
use crate::state::State;
use spk_topics::Tree;
use std::alloc::AllocError;

impl State {
    /// The clock is at least here.
    pub(crate) fn at(&mut self, now: u64)
        ensures done { (x : Draft) (t : Turn) → Stands self.old x t
            → Stands self.new x (act (At now) t) }
        ensures same { state_was self.new ≡ state_was self.old }
        ensures sessions { self.new.sessions ≡ self.old.sessions }
        ensures newcomers { self.new.newcomers ≡ self.old.newcomers }
        ensures clock { self.new.clock ≡ max self.old.clock now }
    {
        self.clock = self.clock.max(now);
    }

    /// A packet of the connection that sits at this place came.
    fn hear_at(&mut self, conn: Conn, place: usize)
        requires { place_in conn self.old.sessions.items ≡ Some place }
        ensures done { (x : Draft) (t : Turn) → Stands self.old x t
            → Stands self.new x (act (Hear conn) t) }
        ensures same { state_was self.new ≡ state_was self.old }
        ensures place { place_in conn self.new.sessions.items ≡ Some place }
        ensures alone { OnlyAt (place ∷ []) self.old → OnlyAt (place ∷ []) self.new }
        ensures keyed { AreKeyed self.old.sessions.items → AreKeyed self.new.sessions.items }
    {
        let clock = self.clock;
        self.sessions[place].hear(conn, clock);
        self.sessions[place].keyed();
    }

    /// A packet of this connection came, which sits at this place, if it does.
    pub(crate) fn hear(&mut self, conn: Conn, place: Option<usize>)
        requires { place_in conn self.old.sessions.items ≡ place }
        ensures done { (x : Draft) (t : Turn) → Stands self.old x t
            → Stands self.new x (act (Hear conn) t) }
        ensures same { state_was self.new ≡ state_was self.old }
        ensures place { place_in conn self.new.sessions.items ≡ place }
        ensures still { place ≡ None → IsStill self.old → IsStill self.new }
        ensures alone { IsAlone place self.old → IsAlone place self.new }
        ensures keyed { AreKeyed self.old.sessions.items → AreKeyed self.new.sessions.items }
    {
        match place {
            Some(place) => self.hear_at(conn, place),
            None => {
                let clock = self.clock;
                newcomer::hear(&mut self.newcomers, conn, clock);
            }
        }
    }

    /// A send to the connection that sits at this place was dropped.
    fn drop_at(&mut self, conn: Conn, place: usize)
        requires { place_in conn self.old.sessions.items ≡ Some place }
        ensures done { (x : Draft) (t : Turn) → Stands self.old x t
            → Stands self.new x (act (Drop conn) t) }
        ensures same { state_was self.new ≡ state_was self.old }
        ensures place { place_in conn self.new.sessions.items ≡ Some place }
        ensures alone { OnlyAt (place ∷ []) self.old → OnlyAt (place ∷ []) self.new }
    {
        self.sessions[place].count_drop(conn);
    }

    /// A send to this connection was dropped, which sits at this place, if it does.
    pub(crate) fn count_drop(&mut self, conn: Conn, place: Option<usize>)
        requires { place_in conn self.old.sessions.items ≡ place }
        ensures done { (x : Draft) (t : Turn) → Stands self.old x t
            → Stands self.new x (act (Drop conn) t) }
        ensures same { state_was self.new ≡ state_was self.old }
        ensures place { place_in conn self.new.sessions.items ≡ place }
        ensures alone { IsAlone place self.old → IsAlone place self.new }
    {
        match place {
            Some(place) => self.drop_at(conn, place),
            None => newcomer::count_drop(&mut self.newcomers, conn),
        }
    }

    /// This connection leaves, which sits at this place, if it does; its will waits or is discarded.
    pub(crate) fn leave_at(
        &mut self,
        draft: &mut Draft,
        conn: Conn,
        place: Option<usize>,
        wills: bool,
    ) -> Result<(), AllocError>
        requires { place_in conn self.old.sessions.items ≡ place }
        ensures done { OnOk result ((t : Turn) → Stands self.old draft.old t
            → Stands self.new draft.new (act (Leave conn wills) t)) }
        ensures same { state_was self.new ≡ state_was self.old }
        ensures alone { OnOk result (IsAlone place self.old → IsAlone place self.new) }
        ensures index { OnOk result ((i : Option Grants) → IsIndex i (state_now self.old).sessions
            → IsIndex i (state_now self.new).sessions) }
        ensures keyed { OnOk result
            (AreKeyed self.old.sessions.items → AreKeyed self.new.sessions.items) }
    {
        let Some(place) = place else {
            newcomer::leave(&mut self.newcomers, conn);
            return Ok(());
        };
        self.sessions[place].leave(draft, wills)?;
        self.sessions[place].keyed();
        Ok(())
    }

    /// This connection leaves; its will waits or is discarded.
    pub(crate) fn leave(
        &mut self,
        draft: &mut Draft,
        conn: Conn,
        wills: bool,
    ) -> Result<(), AllocError>
        ensures done { OnOk result ((t : Turn) → Stands self.old draft.old t
            → Stands self.new draft.new (act (Leave conn wills) t)) }
        ensures same { state_was self.new ≡ state_was self.old }
        ensures index { OnOk result ((i : Option Grants) → IsIndex i (state_now self.old).sessions
            → IsIndex i (state_now self.new).sessions) }
        ensures keyed { OnOk result
            (AreKeyed self.old.sessions.items → AreKeyed self.new.sessions.items) }
    {
        let place = place_of(&self.sessions, conn);
        self.leave_at(draft, conn, place, wills)?;
        Ok(())
    }

    /// This connection is closed, and its will is routed (section 3.1.2.5).
    pub(crate) fn shut(&mut self, draft: &mut Draft, conn: Conn) -> Result<(), AllocError>
        ensures done { OnOk result ((t : Turn) → Stands self.old draft.old t
            → Stands self.new draft.new (acts (shut conn) t)) }
        ensures same { state_was self.new ≡ state_was self.old }
    {
        self.leave(draft, conn, true)?;
        draft.tell(conn)?;
        self.route(draft, &None)?;
        Ok(())
    }

    /// The same of a connection that sits at this place, if it does, and that alone has changed.
    pub(crate) fn shut_at(
        &mut self,
        draft: &mut Draft,
        tree: &Option<Tree>,
        conn: Conn,
        place: Option<usize>,
    ) -> Result<Ending, AllocError>
        requires index { IsIndex tree.now (state_now self.old).sessions }
        requires order { AreInOrder tree.now self.old.sessions.items }
        requires place { place_in conn self.old.sessions.items ≡ place }
        requires alone { IsAlone place self.old }
        ensures done { IfOk result (λ e. (t : Turn) → Stands self.old draft.old t
            → Leads self.new draft.new e (acts (shut conn) t)) }
        ensures ready { IfOk result (λ e. IsReady e self.new) }
        ensures same { state_was self.new ≡ state_was self.old }
    {
        self.leave_at(draft, conn, place, true)?;
        draft.tell(conn)?;
        let ending = self.route_near(draft, tree, place)?;
        Ok(ending)
    }
}
