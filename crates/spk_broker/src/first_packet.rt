//! Which packet it is: the first one of a connection, or a further one.
ghost use Rattle.std.specs.Prelude.{◌≡◌, ◌∷◌, [], None, Some, is_some, IfOk};
ghost use Rattle.spk_packets.specs.View.{view};
ghost use Rattle.spk_broker_rules.specs.Lawful.{IsLawful};
ghost use Rattle.spk_broker_rules.specs.Plan.{Seen, client_in, entries_in, first_packet, next_packet, packet as packet_acts};
ghost use Rattle.spk_broker_rules.specs.Plan.{Packet as PacketEvent};
ghost use Rattle.spk_broker_rules.specs.Step.{Turn, acts, heavy_in, older_in, session_by, welcome_in};
ghost use Rattle.spk_broker.specs.Asking.{place_in};
ghost use Rattle.spk_broker.specs.Drafts.{draft_view};
ghost use Rattle.spk_broker.specs.Endings.{IsReady, Leads};
ghost use Rattle.spk_broker.specs.Called.{AreInOrder, AreKeyed};
ghost use Rattle.spk_broker.specs.Filing.{IsIndex};
ghost use Rattle.spk_broker.specs.Sendable.{IsWritable};
ghost use Rattle.spk_broker.specs.Touched.{IsAlone, IsStill, OnlyAt};
ghost use Rattle.spk_broker.specs.View.{Stands, state_now, state_was, stepped};

use crate::app_message::AppMessage;
use crate::out::{Conn, Draft};
use crate::packet_end::Ending;
use crate::state::State;
use spk_packets::{Packet, is_writable};
use spk_topics::Tree;
use std::alloc::AllocError;

impl State {
    /// The first packet of a connection: a CONNECT is judged, any other one closes it (section 3.1.0).
    fn first_packet(
        &mut self,
        draft: &mut Draft,
        tree: &Option<Tree>,
        conn: Conn,
        packet: &Packet,
    ) -> Result<Ending, AllocError>
        requires writable { IsWritable (view packet.now) }
        requires index { IsIndex tree.now (state_now self.old).sessions }
        requires order { AreInOrder tree.now self.old.sessions.items }
        requires lawful { IsLawful (state_was self.old) }
        requires still { IsStill self.old }
        ensures done { IfOk result (λ e. (seen : Seen) (t : Turn)
            → seen.older ≡ older_in (client_in (view packet.now)) t.broker.sessions
            → seen.welcome ≡ welcome_in (client_in (view packet.now)) t.broker.sessions
            → Stands self.old draft.old t
            → Leads self.new draft.new e (acts (first_packet seen conn (view packet.now)) t)) }
        ensures ready { IfOk result (λ e. IsReady e self.new) }
        ensures same { state_was self.new ≡ state_was self.old }
    {
        let Packet::Connect {
            client,
            clean,
            keep,
            will,
        } = packet
        else {
            self.shut(draft, conn)?;
            return Ok(Ending::Nothing);
        };
        let Some(entry) = self.connect(draft, tree, conn, client.as_str(), *clean, *keep, will)?
        else {
            return Ok(Ending::Nothing);
        };
        if draft.is_still {
            return Ok(Ending::Joins(entry));
        }
        Ok(Ending::Enters(entry))
    }

    /// A further packet. Its sender sits at this place.
    fn further_packet(
        &mut self,
        draft: &mut Draft,
        tree: &Option<Tree>,
        conn: Conn,
        place: usize,
        packet: &Packet,
    ) -> Result<Ending, AllocError>
        requires writable { IsWritable (view packet.now) }
        requires place { place_in conn self.old.sessions.items ≡ Some place }
        requires only { OnlyAt (place ∷ []) self.old }
        requires index { IsIndex tree.now (state_now self.old).sessions }
        requires order { AreInOrder tree.now self.old.sessions.items }
        requires keeps { (draft_view draft.old).keeps ≡ [] }
        ensures done { IfOk result (λ e. (seen : Seen) (t : Turn)
            → seen.heavy ≡ heavy_in conn (entries_in (view packet.now)) t.broker
            → Stands self.old draft.old t
            → Leads self.new draft.new e (acts (next_packet seen conn (view packet.now)) t)) }
        ensures ready { IfOk result (λ e. IsReady e self.new) }
        ensures same { state_was self.new ≡ state_was self.old }
    {
        match packet {
            Packet::PubAck { id } => Ok(Ending::Acked {
                conn,
                place,
                id: *id,
            }),
            Packet::Publish {
                qos,
                retain,
                topic,
                id,
                payload,
                ..
            } => {
                let app_message = AppMessage::of(topic, payload, *qos, *retain)?;
                self.publish(draft, tree, conn, place, *id, app_message)
            }
            _ => {
                let ending = self.next_packet(draft, conn, place, packet)?;
                Ok(ending)
            }
        }
    }

    /// What is done with a packet of a connection, which sits at this place, if it does: one that can't be written closes the
    /// connection as its bytes would.
    fn judge_packet(
        &mut self,
        draft: &mut Draft,
        tree: &Option<Tree>,
        conn: Conn,
        place: Option<usize>,
        packet: &Packet,
    ) -> Result<Ending, AllocError>
        requires place { place_in conn self.old.sessions.items ≡ place }
        requires alone { IsAlone place self.old }
        requires index { IsIndex tree.now (state_now self.old).sessions }
        requires order { AreInOrder tree.now self.old.sessions.items }
        requires keeps { (draft_view draft.old).keeps ≡ [] }
        requires lawful { IsLawful (state_was self.old) }
        requires still { place ≡ None → IsStill self.old }
        ensures done { IfOk result (λ e. (seen : Seen) (t : Turn)
            → seen.joined ≡ is_some (session_by conn t.broker.sessions)
            → seen.older ≡ older_in (client_in (view packet.now)) t.broker.sessions
            → seen.welcome ≡ welcome_in (client_in (view packet.now)) t.broker.sessions
            → seen.heavy ≡ heavy_in conn (entries_in (view packet.now)) t.broker
            → Stands self.old draft.old t
            → Leads self.new draft.new e (acts (packet_acts seen conn (view packet.now)) t)) }
        ensures ready { IfOk result (λ e. IsReady e self.new) }
        ensures same { state_was self.new ≡ state_was self.old }
    {
        if !is_writable(packet) {
            let ending = self.shut_at(draft, tree, conn, place)?;
            return Ok(ending);
        }
        if let Some(place) = place {
            let ending = self.further_packet(draft, tree, conn, place, packet)?;
            return Ok(ending);
        }
        let ending = self.first_packet(draft, tree, conn, packet)?;
        Ok(ending)
    }

    /// A packet of this connection came, which sits at this place, if it does.
    pub(crate) fn draft_packet(
        &mut self,
        draft: &mut Draft,
        tree: &Option<Tree>,
        conn: Conn,
        place: Option<usize>,
        packet: &Packet,
        now: u64,
    ) -> Result<Ending, AllocError>
        requires place { place_in conn self.old.sessions.items ≡ place }
        requires alone { IsAlone place self.old }
        requires index { IsIndex tree.now (state_now self.old).sessions }
        requires keyed { AreKeyed self.old.sessions.items }
        requires stands { (t : Turn) × Stands self.old draft.old t }
        requires keeps { (draft_view draft.old).keeps ≡ [] }
        requires lawful { IsLawful (state_was self.old) }
        requires still { IsStill self.old }
        ensures done { IfOk result (λ e. (t : Turn) → Stands self.old draft.old t
            → Leads self.new draft.new e (stepped (PacketEvent conn (view packet.now) now) t)) }
        ensures ready { IfOk result (λ e. IsReady e self.new) }
        ensures same { state_was self.new ≡ state_was self.old }
    {
        self.at(now);
        self.hear(conn, place);
        let ending = self.judge_packet(draft, tree, conn, place, packet)?;
        Ok(ending)
    }
}
