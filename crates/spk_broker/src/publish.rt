//! PUBLISH (section 3.3), and each other packet of a connection whose CONNECT was accepted, but for PUBACK.
ghost use Rattle.std.specs.Prelude.{◌≡◌, ◌==◌, ◌∷◌, IfOk, IfSome, OnOk, Some, true, false, is_some, []};
ghost use Rattle.spk_packets.specs.View.{view};
ghost use Rattle.spk_topics.specs.Text.{topic_refusal};
ghost use Rattle.spk_broker_rules.specs.Plan.{Seen, entries_in, next_packet, publish, puback};
ghost use Rattle.spk_broker_rules.specs.Step.{Turn, acts, heavy_in};
ghost use Rattle.spk_broker.specs.Asking.{place_in};
ghost use Rattle.spk_broker.specs.Drafts.{draft_view};
ghost use Rattle.spk_broker.specs.Endings.{IsReady, Leads};
ghost use Rattle.spk_broker.specs.Called.{AreInOrder};
ghost use Rattle.spk_broker.specs.Filing.{IsIndex};
ghost use Rattle.spk_broker.specs.Parts.{app_message_view};
ghost use Rattle.spk_broker.specs.Plain.{is_plain};
ghost use Rattle.spk_broker.specs.Sendable.{IsWritable};
ghost use Rattle.spk_broker.specs.Touched.{OnlyAt};
ghost use Rattle.spk_broker.specs.View.{Stands, state_now, state_was};

use crate::app_message::AppMessage;
use crate::out::{Conn, Draft};
use crate::packet_end::Ending;
use crate::state::State;
use spk_packets::Packet;
use spk_topics::{Topic, Tree};
use std::alloc::AllocError;

/// Whether a text is no topic name (section 4.7).
pub(crate) fn is_no_topic(text: &str) -> bool
    ensures { result ≡ is_some (topic_refusal text.now) }
{
    match Topic::read(text) {
        Ok(_topic) => false,
        Err(_fault) => true,
    }
}

impl State {
    /// PUBACK, where the publish has an identifier (section 3.4).
    fn puback(&self, draft: &mut Draft, conn: Conn, id: Option<u16>) -> Result<(), AllocError>
        requires { IfSome id (λ n. (n == 0) ≡ false) }
        ensures { OnOk result ((t : Turn) → Stands self.now draft.old t
            → Stands self.now draft.new (acts (puback conn id) t)) }
    {
        let Some(id) = id else {
            return Ok(());
        };
        draft.say(conn, &Packet::PubAck { id })?;
        Ok(())
    }

    /// A publish is acknowledged, then routed; one on no topic name closes the connection (section 3.3). Its sender sits at
    /// this place.
    pub(crate) fn publish(
        &mut self,
        draft: &mut Draft,
        tree: &Option<Tree>,
        conn: Conn,
        place: usize,
        id: Option<u16>,
        app_message: AppMessage,
    ) -> Result<Ending, AllocError>
        requires index { IsIndex tree.now (state_now self.old).sessions }
        requires order { AreInOrder tree.now self.old.sessions.items }
        requires id { IfSome id (λ n. (n == 0) ≡ false) }
        requires place { place_in conn self.old.sessions.items ≡ Some place }
        requires only { OnlyAt (place ∷ []) self.old }
        ensures done { IfOk result (λ e. (t : Turn) → Stands self.old draft.old t
            → Leads self.new draft.new e (acts (publish conn id (app_message_view app_message)) t)) }
        ensures ready { IfOk result (λ e. IsReady e self.new) }
        ensures same { state_was self.new ≡ state_was self.old }
    {
        if is_no_topic(app_message.topic.as_str()) {
            let ending = self.shut_at(draft, tree, conn, Some(place))?;
            return Ok(ending);
        }
        self.puback(draft, conn, id)?;
        draft.queue(app_message)?;
        let ending = self.route_near(draft, tree, Some(place))?;
        Ok(ending)
    }

    /// A further packet, but for PUBLISH and PUBACK. Its sender sits at this place.
    pub(crate) fn next_packet(
        &mut self,
        draft: &mut Draft,
        conn: Conn,
        place: usize,
        packet: &Packet,
    ) -> Result<Ending, AllocError>
        requires writable { IsWritable (view packet.now) }
        requires plain { is_plain (view packet.now) ≡ true }
        requires empty { (draft_view draft.old).keeps ≡ [] }
        requires place { place_in conn self.old.sessions.items ≡ Some place }
        requires only { OnlyAt (place ∷ []) self.old }
        ensures done { IfOk result (λ e. (seen : Seen) (t : Turn)
            → seen.heavy ≡ heavy_in conn (entries_in (view packet.now)) t.broker
            → Stands self.old draft.old t
            → Leads self.new draft.new e (acts (next_packet seen conn (view packet.now)) t)) }
        ensures ready { IfOk result (λ e. IsReady e self.new) }
        ensures same { state_was self.new ≡ state_was self.old }
    {
        match packet {
            Packet::Subscribe { id, filters } => {
                let ending = self.subscribe(draft, conn, place, *id, filters)?;
                Ok(ending)
            }
            Packet::Unsubscribe { id, filters } => {
                let ending = self.unsubscribe(draft, conn, place, *id, filters)?;
                Ok(ending)
            }
            Packet::PingReq => {
                draft.say(conn, &Packet::PingResp)?;
                Ok(Ending::One(place))
            }
            Packet::Disconnect => {
                self.leave_at(draft, conn, Some(place), false)?;
                Ok(Ending::One(place))
            }
            _ => {
                let ending = self.shut_at(draft, &None, conn, Some(place))?;
                Ok(ending)
            }
        }
    }
}
