//! SUBSCRIBE (sections 3.8 and 3.9).
ghost use Rattle.std.specs.Prelude.{ℕ, ◌≡◌, ◌∷◌, [], List, IfOk, OnOk, Some, is_some, length, map, true};
ghost use Rattle.std.specs.List.{list_all, list_any};
ghost use Rattle.spk_packets.specs.Grammar.{is_grant};
ghost use Rattle.spk_packets.specs.Message.{SubAck, Subscribe};
ghost use Rattle.spk_packets.specs.View.{request_view};
ghost use Rattle.spk_topics.specs.Text.{filter_refusal};
ghost use Rattle.spk_broker_rules.specs.Data as plain;
ghost use Rattle.spk_broker_rules.specs.Plan.{Give, Seen, subscribe};
ghost use Rattle.spk_broker_rules.specs.Step.{Turn, act, acts, heavy_in, other_grants, session_by};
ghost use Rattle.spk_broker.specs.Asking.{place_in};
ghost use Rattle.spk_broker.specs.Drafts.{draft_view};
ghost use Rattle.spk_broker.specs.Endings.{IsReady, Leads};
ghost use Rattle.spk_broker.specs.Filters.{AreFilters};
ghost use Rattle.spk_broker.specs.Granting.{granting_view, grown_by};
ghost use Rattle.spk_broker.specs.Sendable.{IsWritable};
ghost use Rattle.spk_broker.specs.Touched.{OnlyAt};
ghost use Rattle.spk_broker.specs.View.{Stands, state_was};
ghost use Rattle.spk_broker.specs.declared.out.Draft.{Draft};

use crate::grant_changes::Granting;
use crate::out::{Conn, Draft};
use crate::packet_end::Ending;
use crate::retained_weight::is_heavy;
use crate::state::State;
use crate::subscribe_grants::granted;
use crate::unsubscribe::is_bad_filter;
use spk_packets::{Packet, Request};
use std::alloc::AllocError;

fn has_one_bad(entries: &[Request]) -> bool
    ensures { result ≡ list_any (λ e. is_some (filter_refusal (request_view e).0)) entries.now }
{
    entries
        .iter()
        .any(|entry| is_bad_filter(entry.filter.as_str()))
}

/// Whether an entry has no topic filter (section 4.7).
fn has_bad_entry(entries: &[Request]) -> bool
    ensures { result ≡ list_any (λ e. is_some (filter_refusal e.0)) (map request_view entries.now) }
{
    has_one_bad(entries)
}

impl State {
    /// The session at a place gets its grants; SUBACK, and then the retained messages for each.
    fn give_at(
        &mut self,
        draft: &mut Draft,
        conn: Conn,
        place: usize,
        id: u16,
        granting: Granting,
    ) -> Result<(), AllocError>
        requires writable { IsWritable (SubAck id granting.codes.items) }
        requires place { place_in conn self.old.sessions.items ≡ Some place }
        requires keeps { (draft_view draft.old).keeps ≡ [] }
        ensures done { OnOk result
            ((t : Turn) (session : plain.Session) (entries : List (List ℕ × ℕ))
            → Stands self.old draft.old t
            → session_by conn t.broker.sessions ≡ Some session
            → granting_view granting
            ≡ grown_by (other_grants session t.broker.sessions) session.grants entries
            → Stands self.new draft.new (act (Give conn id entries) t)) }
        ensures only { OnOk result (OnlyAt (place ∷ []) self.old → OnlyAt (place ∷ []) self.new) }
        ensures same { state_was self.new ≡ state_was self.old }
    {
        let Granting {
            grants,
            codes,
            given,
        } = granting;
        self.sessions[place].set_grants(grants);
        draft.say(conn, &Packet::SubAck { id, codes })?;
        self.offer_all(draft, place, &given)?;
        Ok(())
    }

    /// What a SUBSCRIBE makes of the grants of the session of the connection at a place.
    fn granted_at(
        &self,
        conn: Conn,
        place: usize,
        entries: &[Request],
    ) -> Result<Granting, AllocError>
        requires filters { AreFilters (map request_view entries.now) }
        requires place { place_in conn self.now.sessions.items ≡ Some place }
        ensures codes { IfOk result (λ g. length g.codes.items ≡ length entries.now) }
        ensures granted { IfOk result (λ g. list_all is_grant g.codes.items ≡ true) }
        ensures view { IfOk result (λ g. (x : Draft) (t : Turn) → Stands self.now x t
            → (session : plain.Session) × (session_by conn t.broker.sessions ≡ Some session)
            × (granting_view g ≡ grown_by (other_grants session t.broker.sessions) session.grants
            (map request_view entries.now))) }
    {
        let granting = granted(self.alloc, &self.sessions, place, entries)?;
        Ok(granting)
    }

    /// A SUBSCRIBE of the connection at a place. A text that is no topic filter closes the connection, and so do entries that are
    /// given more than 64 MB of retained messages together (own rule): then none of it is made.
    pub(crate) fn subscribe(
        &mut self,
        draft: &mut Draft,
        conn: Conn,
        place: usize,
        id: u16,
        entries: &[Request],
    ) -> Result<Ending, AllocError>
        requires writable { IsWritable (Subscribe id (map request_view entries.now)) }
        requires place { place_in conn self.old.sessions.items ≡ Some place }
        requires only { OnlyAt (place ∷ []) self.old }
        requires keeps { (draft_view draft.old).keeps ≡ [] }
        ensures done { IfOk result (λ e. (seen : Seen) (t : Turn)
            → seen.heavy ≡ heavy_in conn (map request_view entries.now) t.broker
            → Stands self.old draft.old t
            → Leads self.new draft.new e
            (acts (subscribe seen conn id (map request_view entries.now)) t)) }
        ensures ready { IfOk result (λ e. IsReady e self.new) }
        ensures same { state_was self.new ≡ state_was self.old }
    {
        if has_bad_entry(entries) {
            let ending = self.shut_at(draft, &None, conn, Some(place))?;
            return Ok(ending);
        }
        let granting = self.granted_at(conn, place, entries)?;
        if is_heavy(&self.retained, &granting.given) {
            let ending = self.shut_at(draft, &None, conn, Some(place))?;
            return Ok(ending);
        }
        self.give_at(draft, conn, place, id, granting)?;
        let ending = self.route_near(draft, &None, Some(place))?;
        Ok(ending)
    }
}
