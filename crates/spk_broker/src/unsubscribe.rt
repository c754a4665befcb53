//! UNSUBSCRIBE (sections 3.10 and 3.11), and which texts are no filters (section 4.7).
ghost use Rattle.std.specs.Prelude.{ℕ, ◌≡◌, ◌∷◌, [], IfOk, OnOk, Some, is_some, map, string_bytes};
ghost use Rattle.std.specs.List.{list_any};
ghost use Rattle.spk_packets.specs.Message.{Unsubscribe};
ghost use Rattle.spk_topics.specs.Text.{filter_refusal};
ghost use Rattle.spk_broker_rules.specs.Lawful.{Rises};
ghost use Rattle.spk_broker_rules.specs.Plan.{Take, has_bad_filter, unsubscribe};
ghost use Rattle.spk_broker_rules.specs.Step.{Turn, act, acts, session_by};
ghost use Rattle.spk_broker.specs.Asking.{place_in, sessions_now};
ghost use Rattle.spk_broker.specs.Changes.{changed_at};
ghost use Rattle.spk_broker.specs.Endings.{IsReady, Leads};
ghost use Rattle.spk_broker.specs.Granting.{without_grants};
ghost use Rattle.spk_broker.specs.Sendable.{IsWritable};
ghost use Rattle.spk_broker.specs.Touched.{AreTouched, OnlyAt};
ghost use Rattle.spk_broker.specs.View.{Stands, state_was, session_was};
ghost use Rattle.spk_broker.specs.declared.out.Draft.{Draft};

use crate::grant_changes::without;
use crate::out::{Conn, Draft};
use crate::packet_end::Ending;
use crate::session::Session;
use crate::state::State;
use spk_packets::Packet;
use spk_topics::Filter;
use std::alloc::{AllocError, Global};

/// Whether a text is no topic filter (section 4.7).
pub(crate) fn is_bad_filter(name: &str) -> bool
    ensures { result ≡ is_some (filter_refusal name.now) }
{
    Filter::read(name).is_err()
}

fn has_one_bad(names: &[String]) -> bool
    ensures { result ≡ list_any (λ name. is_some (filter_refusal (string_bytes name))) names.now }
{
    names.iter().any(|name| is_bad_filter(name.as_str()))
}

/// Whether one of these is no topic filter.
fn has_bad_filter(names: &[String]) -> bool
    ensures { result ≡ has_bad_filter (map (λ name. string_bytes name) names.now) }
{
    has_one_bad(names)
}

/// The session of the connection at a place has no grants of these filters any more.
fn take_in(
    alloc: Global,
    sessions: &mut [Session],
    conn: Conn,
    place: usize,
    names: &[String],
) -> Result<(), AllocError>
    requires { place_in conn sessions.old ≡ Some place }
    ensures was { map session_was sessions.new ≡ map session_was sessions.old }
    ensures now { OnOk result
        ((low top : ℕ) → Rises low top (sessions_now sessions.old) → sessions_now sessions.new
        ≡ changed_at (session_by conn (sessions_now sessions.old))
        (without_grants (map (λ name. string_bytes name) names.now)) (sessions_now sessions.old)) }
    ensures touched { AreTouched (place ∷ []) sessions.old → AreTouched (place ∷ []) sessions.new }
{
    let grants = without(alloc, sessions[place].grants(), names)?;
    sessions[place].set_grants(grants);
    Ok(())
}

impl State {
    /// The grants of these filters are taken back.
    fn take(&mut self, conn: Conn, place: usize, names: &[String]) -> Result<(), AllocError>
        requires { place_in conn self.old.sessions.items ≡ Some place }
        ensures done { OnOk result ((x : Draft) (t : Turn) → Stands self.old x t
            → Stands self.new x (act (Take conn (map (λ name. string_bytes name) names.now)) t)) }
        ensures only { OnlyAt (place ∷ []) self.old → OnlyAt (place ∷ []) self.new }
        ensures same { state_was self.new ≡ state_was self.old }
    {
        take_in(self.alloc, &mut self.sessions, conn, place, names)?;
        Ok(())
    }

    /// An UNSUBSCRIBE of the connection at a place.
    pub(crate) fn unsubscribe(
        &mut self,
        draft: &mut Draft,
        conn: Conn,
        place: usize,
        id: u16,
        names: &[String],
    ) -> Result<Ending, AllocError>
        requires writable { IsWritable
            (Unsubscribe id (map (λ name. string_bytes name) names.now)) }
        requires place { place_in conn self.old.sessions.items ≡ Some place }
        requires only { OnlyAt (place ∷ []) self.old }
        ensures done { IfOk result
            (λ e. (t : Turn) → Stands self.old draft.old t → Leads self.new draft.new e
            (acts (unsubscribe conn id (map (λ name. string_bytes name) names.now)) t)) }
        ensures ready { IfOk result (λ e. IsReady e self.new) }
        ensures same { state_was self.new ≡ state_was self.old }
    {
        if has_bad_filter(names) {
            let ending = self.shut_at(draft, &None, conn, Some(place))?;
            return Ok(ending);
        }
        self.take(conn, place, names)?;
        draft.say(conn, &Packet::UnsubAck { id })?;
        Ok(Ending::One(place))
    }
}
