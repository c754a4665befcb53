//! How a packet ends: what changes a settled session, once nothing can fail any more.
ghost use Rattle.std.specs.Prelude.{ℕ, ◌≡◌, ◌≤◌, Option, length, map, is_ok, IfErr, IfOk, IfSome, OnErr, OnOk};
ghost use Rattle.spk_broker_rules.specs.Data as plain;
ghost use Rattle.spk_broker_rules.specs.Lawful.{IsLawful};
ghost use Rattle.spk_broker_rules.specs.Step.{Turn};
ghost use Rattle.spk_broker.specs.declared.fault.BrokerFault.TheVariants as BrokerFault;
ghost use Rattle.spk_broker.specs.declared.state.State.{State};
ghost use Rattle.spk_broker.specs.Called.{AreOrdered};
ghost use Rattle.spk_broker.specs.Drafts.{draft_view};
ghost use Rattle.spk_broker.specs.Filing.{IsHeld};
ghost use Rattle.spk_topics.specs.Grants.{Grants};
ghost use Rattle.indexmap.specs.IndexMap.{spare};
ghost use Rattle.spk_broker.specs.Endings.{IsFit, IsReady, alone_at, ended, few_at};
ghost use Rattle.spk_broker.specs.Sent.{sent_view};
ghost use Rattle.spk_broker.specs.Touched.{AreVisited, IsAlone};
ghost use Rattle.spk_broker.specs.View.{IsSettled, Stands, state_was};

use crate::accept::Entry;
use crate::fault::BrokerFault;
use crate::index::GrantIndex;
use crate::out::{Conn, Draft, Out};
use crate::state::State;
use std::alloc::AllocError;

/// What follows once a call is settled. It takes no memory. Where it names places, only the sessions there may have changed, and
/// no connection without CONNECT.
#[derive(Debug, Drop)]
pub(crate) enum Ending {
    Nothing,
    /// Nothing, and only the session at this place may have changed.
    One(usize),
    /// Nothing, and only the sessions at these places and the sender's may have changed.
    Few { places: Vec<usize>, sender: usize },
    Enters(Entry),
    /// This enters, and no session has changed.
    Joins(Entry),
    /// The connection at this place acknowledged a message. Only its session may have changed.
    Acked { conn: Conn, place: usize, id: u16 },
}

impl Ending {
    /// Nothing follows, and only the session at this place may have changed, where it is known.
    pub(crate) fn alone(place: Option<usize>) -> Ending
        ensures exact { result ≡ alone_at place }
        ensures nothing { (b : plain.Broker) → ended result b ≡ b }
        ensures ready { (d : State) → IsAlone place d → IsReady result d }
    {
        match place {
            Some(place) => Ending::One(place),
            None => Ending::Nothing,
        }
    }

    /// Nothing follows a message. Where it's known at which places it called, and where the one sits that sent it, only the
    /// sessions there may have changed. It takes no memory.
    pub(crate) fn few(places: Option<Vec<usize>>, sender: Option<usize>) -> Ending
        ensures exact { result ≡ few_at sender places }
        ensures nothing { (b : plain.Broker) → ended result b ≡ b }
        ensures ready { (old new : State) → IsAlone sender old
            → IfSome places (λ ps. AreVisited ps.items old.sessions.items new.sessions.items)
            → new.newcomers ≡ old.newcomers → IsReady result new }
    {
        let Some(sender) = sender else {
            return Ending::Nothing;
        };
        let Some(places) = places else {
            return Ending::Nothing;
        };
        Ending::Few { places, sender }
    }
}

impl State {
    /// What follows on a settled state.
    fn end(&mut self, ending: Ending)
        requires settled { IsSettled self.old }
        requires lawful { IsLawful (state_was self.old) }
        requires fit { IsFit ending self.old.sessions }
        ensures done { state_was self.new ≡ ended ending (state_was self.old) }
        ensures settled { IsSettled self.new }
        ensures held { (index : Option Grants) (size : ℕ)
            → IsHeld index size (state_was self.old).sessions
            → IsHeld index size (state_was self.new).sessions }
    {
        match ending {
            Ending::Nothing | Ending::One(_) | Ending::Few { .. } => {}
            Ending::Enters(entry) => self.enter(entry),
            Ending::Joins(entry) => self.enter(entry),
            Ending::Acked { conn, place, id } => self.ack(conn, place, id),
        }
    }

    /// What was drafted stands. Where few sessions may have changed, no other one is looked at.
    fn settle_by(&mut self, draft: Draft, ending: &Ending, index: &mut GrantIndex) -> Out
        requires room { length (draft_view draft).keeps ≤ spare self.old.retained }
        requires ready { IsReady ending.now self.old }
        ensures done { (t : Turn) → Stands self.old draft t → state_was self.new ≡ t.broker }
        ensures settled { IsSettled self.new }
        ensures sends { map sent_view result.sends.items ≡ (draft_view draft).sends }
        ensures closes { result.closes.items ≡ (draft_view draft).closes }
        ensures fit { IsFit ending.now self.new.sessions }
        ensures held { AreOrdered self.old.sessions.items
            → IsHeld index.old.tree index.old.size (state_was self.old).sessions
            → IsHeld index.new.tree index.new.size (state_was self.new).sessions }
    {
        match ending {
            Ending::One(place) => self.settle_at(draft, &[], *place, index),
            Ending::Few {
                places,
                sender: place,
            } => self.settle_at(draft, places, *place, index),
            Ending::Acked { place, .. } => self.settle_at(draft, &[], *place, index),
            Ending::Joins(_) => self.settle_newcomers(draft),
            _ => self.settle(draft, index),
        }
    }

    /// What was drafted stands, in the index of grants too, and what follows is done; or it is taken back where a growth was refused.
    pub(crate) fn conclude(
        &mut self,
        drafted: Result<Ending, AllocError>,
        draft: Draft,
        index: &mut GrantIndex,
    ) -> Result<Out, BrokerFault>
        requires stands { OnOk drafted ((t : Turn) × Stands self.old draft t) }
        requires ready { IfOk drafted (λ e. IsReady e self.old) }
        ensures done { IfOk drafted (λ e. OnOk result ((t : Turn) → Stands self.old draft t
            → state_was self.new ≡ ended e t.broker)) }
        ensures sends { IfOk result
            (λ out. map sent_view out.sends.items ≡ (draft_view draft).sends) }
        ensures closes { IfOk result (λ out. out.closes.items ≡ (draft_view draft).closes) }
        ensures variant { is_ok result ≡ is_ok drafted }
        ensures fault { IfErr result (λ e. e ≡ BrokerFault.NoMemory) }
        ensures same { OnErr result (state_was self.new ≡ state_was self.old) }
        ensures settled { IsSettled self.new }
        ensures held { AreOrdered self.old.sessions.items
            → IsHeld index.old.tree index.old.size (state_was self.old).sessions
            → IsHeld index.new.tree index.new.size (state_was self.new).sessions }
    {
        let Ok(ending) = drafted else {
            self.undo();
            return Err(BrokerFault::NoMemory);
        };
        let out = self.settle_by(draft, &ending, index);
        self.end(ending);
        Ok(out)
    }
}
