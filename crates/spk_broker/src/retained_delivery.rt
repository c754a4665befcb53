//! Retained messages for new grants (sections 3.3.1.3 and 3.8.4).
ghost use Rattle.std.specs.Prelude.{ℕ, List, ◌≡◌, ◌<◌, ◌∷◌, [], IfOk, OnOk, Some, length, map, string_bytes, true, slice_index_or, slice_set, vec_len};
ghost use Rattle.std.specs.List.{flat_map, fold};
ghost use Rattle.std.specs.List.{slice_get};
ghost use Rattle.spk_topics.specs.Text.{is_plain};
ghost use Rattle.spk_broker_rules.specs.Data as plain;
ghost use Rattle.spk_broker_rules.specs.Step.{Turn, hand, offer};
ghost use Rattle.spk_broker_rules.specs.Words.{offers_to};
ghost use Rattle.spk_broker.specs.Drafts.{draft_view, left_by, served_by};
ghost use Rattle.spk_broker.specs.Encoded.{AreBytesOf, AreEncoded, AreGiven, encoded_at};
ghost use Rattle.spk_broker.specs.Offering.{Offering, offers_at, offers_in, retained_at};
ghost use Rattle.spk_broker.specs.Parts.{grant_view, app_message_view, retained_view, stored_view};
ghost use Rattle.spk_broker.specs.Sendable.{are_sendable, is_sendable};
ghost use Rattle.spk_broker.specs.Touched.{OnlyAt};
ghost use Rattle.spk_broker.specs.View.{state_was};

use crate::app_message::AppMessage;
use crate::encoded::Encoded;
use crate::out::Draft;
use crate::session::{Grant, Session};
use crate::state::{State, Stored};
use crate::topic_match::{is_match, is_plain};
use indexmap::IndexMap;
use spk_bytes::Bytes;
use std::alloc::AllocError;

/// A retained message as it is offered at a QoS.
fn app_message_at(topic: &String, stored: &Stored, qos: u8) -> Result<AppMessage, AllocError>
    requires { is_sendable (string_bytes topic.now) stored.now.payload qos ≡ true }
    ensures { IfOk result
        (λ p. app_message_view p ≡ retained_at qos (string_bytes topic.now) (stored_view stored.now)) }
{
    AppMessage::sharing(topic, &stored.payload, qos, true)
}

/// What is given of a retained message: its bytes, where it goes with QoS 0, or the message itself.
#[derive(Drop)]
pub(crate) enum Given {
    Plain(Bytes),
    Numbered(AppMessage),
}

/// A retained message for a grant, where its topic matches: with RETAIN, and the lesser QoS.
fn offered_one(
    encoded: &mut Encoded,
    place: usize,
    topic: &String,
    stored: &Stored,
    grant: &Grant,
) -> Result<Option<Given>, AllocError>
    requires sendable { is_sendable (string_bytes topic.now) stored.now.payload stored.now.qos
        ≡ true }
    requires right { AreBytesOf (encoded_at encoded.old place)
        (Some (string_bytes topic.now, stored_view stored.now)) }
    ensures given { IfOk result (λ g. AreGiven g
        (offers_to ((string_bytes topic.now, stored_view stored.now) ∷ [])
        (grant_view grant.now))) }
    ensures right { OnOk result ((es : List (List ℕ × plain.Stored))
        → slice_get es place ≡ Some (string_bytes topic.now, stored_view stored.now)
        → AreEncoded encoded.old es → AreEncoded encoded.new es) }
{
    if !is_match(grant.filter.as_str(), topic.as_str()) {
        return Ok(None);
    }
    let qos = stored.qos.min(grant.qos);
    if qos == 0 {
        let bytes = encoded.bytes(place, topic, stored)?;
        return Ok(Some(Given::Plain(bytes)));
    }
    let app_message = app_message_at(topic, stored, qos)?;
    Ok(Some(Given::Numbered(app_message)))
}

/// The retained message at this place for a grant.
fn offered(
    encoded: &mut Encoded,
    retained: &IndexMap<String, Stored>,
    place: usize,
    grant: &Grant,
) -> Result<Option<Given>, AllocError>
    requires sendable { are_sendable (map retained_view retained.now.entries) ≡ true }
    requires right { AreEncoded encoded.old (map retained_view retained.now.entries) }
    ensures given { IfOk result (λ g. AreGiven g
        (offers_at (slice_get (map retained_view retained.now.entries) place)
        (grant_view grant.now))) }
    ensures right { OnOk result (AreEncoded encoded.new (map retained_view retained.now.entries)) }
{
    match retained.get_index(place) {
        Some((topic, stored)) => {
            let given = offered_one(encoded, place, topic, stored, grant)?;
            Ok(given)
        }
        None => Ok(None),
    }
}

/// The place of the retained message on a topic; a filter without wildcards is offered that one alone.
pub(crate) fn place_on(retained: &IndexMap<String, Stored>, topic: &str) -> Option<usize>
    ensures { (qos : ℕ) → is_plain topic.now ≡ true
        → offers_in result (map retained_view retained.now.entries) (topic.now, qos)
        ≡ offers_to (map retained_view retained.now.entries) (topic.now, qos) }
{
    retained.get_index_of(topic)
}

impl State {
    /// One retained message is offered to the session at a place.
    fn offer_one(
        &mut self,
        draft: &mut Draft,
        encoded: &mut Encoded,
        place: usize,
        grant: &Grant,
        from: usize,
    ) -> Result<(), AllocError>
        requires low { place < vec_len self.old.sessions }
        requires right { AreEncoded encoded.old (map retained_view self.old.retained.entries) }
        ensures done { OnOk result
            ((key : ℕ) (t : Turn) → Offering self.old draft.old place key t
            → Offering self.new draft.new place key
            (fold (offer key) t
            (offers_at (slice_get (map retained_view self.old.retained.entries) from)
            (grant_view grant.now)))) }
        ensures only { OnOk result (OnlyAt (place ∷ []) self.old → OnlyAt (place ∷ []) self.new) }
        ensures right { OnOk result
            (AreEncoded encoded.new (map retained_view self.old.retained.entries)) }
        ensures retained { self.new.retained ≡ self.old.retained }
        ensures len { vec_len self.new.sessions ≡ vec_len self.old.sessions }
        ensures same { state_was self.new ≡ state_was self.old }
    {
        match offered(encoded, &self.retained, from, grant)? {
            Some(given) => {
                self.sessions[place].hand_given(draft, given)?;
                Ok(())
            }
            None => Ok(()),
        }
    }

    /// All retained messages are looked at, and those that match a grant offered, in the table's order.
    fn offer_each(
        &mut self,
        draft: &mut Draft,
        encoded: &mut Encoded,
        place: usize,
        grant: &Grant,
    ) -> Result<(), AllocError>
        requires low { place < vec_len self.old.sessions }
        requires right { AreEncoded encoded.old (map retained_view self.old.retained.entries) }
        ensures done { OnOk result
            ((key : ℕ) (t : Turn) → Offering self.old draft.old place key t
            → Offering self.new draft.new place key
            (fold (offer key) t
            (offers_to (map retained_view self.old.retained.entries) (grant_view grant.now)))) }
        ensures only { OnOk result (OnlyAt (place ∷ []) self.old → OnlyAt (place ∷ []) self.new) }
        ensures right { OnOk result
            (AreEncoded encoded.new (map retained_view self.old.retained.entries)) }
        ensures retained { self.new.retained ≡ self.old.retained }
        ensures len { vec_len self.new.sessions ≡ vec_len self.old.sessions }
        ensures same { state_was self.new ≡ state_was self.old }
    {
        for from in 0..self.retained.len() {
            self.offer_one(draft, encoded, place, grant, from)?;
        }
        Ok(())
    }

    /// The retained message on the topic that a grant's filter is, where there is one, is offered.
    fn offer_named(
        &mut self,
        draft: &mut Draft,
        encoded: &mut Encoded,
        place: usize,
        grant: &Grant,
    ) -> Result<(), AllocError>
        requires low { place < vec_len self.old.sessions }
        requires right { AreEncoded encoded.old (map retained_view self.old.retained.entries) }
        requires plain { is_plain (string_bytes grant.now.filter) ≡ true }
        ensures done { OnOk result
            ((key : ℕ) (t : Turn) → Offering self.old draft.old place key t
            → Offering self.new draft.new place key
            (fold (offer key) t
            (offers_to (map retained_view self.old.retained.entries) (grant_view grant.now)))) }
        ensures only { OnOk result (OnlyAt (place ∷ []) self.old → OnlyAt (place ∷ []) self.new) }
        ensures right { OnOk result
            (AreEncoded encoded.new (map retained_view self.old.retained.entries)) }
        ensures retained { self.new.retained ≡ self.old.retained }
        ensures len { vec_len self.new.sessions ≡ vec_len self.old.sessions }
        ensures same { state_was self.new ≡ state_was self.old }
    {
        match place_on(&self.retained, grant.filter.as_str()) {
            Some(from) => {
                self.offer_one(draft, encoded, place, grant, from)?;
                Ok(())
            }
            None => Ok(()),
        }
    }

    /// All retained messages that match a grant are offered, in the table's order.
    fn offer_table(
        &mut self,
        draft: &mut Draft,
        encoded: &mut Encoded,
        place: usize,
        grant: &Grant,
    ) -> Result<(), AllocError>
        requires low { place < vec_len self.old.sessions }
        requires right { AreEncoded encoded.old (map retained_view self.old.retained.entries) }
        ensures done { OnOk result
            ((key : ℕ) (t : Turn) → Offering self.old draft.old place key t
            → Offering self.new draft.new place key
            (fold (offer key) t
            (offers_to (map retained_view self.old.retained.entries) (grant_view grant.now)))) }
        ensures only { OnOk result (OnlyAt (place ∷ []) self.old → OnlyAt (place ∷ []) self.new) }
        ensures right { OnOk result
            (AreEncoded encoded.new (map retained_view self.old.retained.entries)) }
        ensures retained { self.new.retained ≡ self.old.retained }
        ensures len { vec_len self.new.sessions ≡ vec_len self.old.sessions }
        ensures same { state_was self.new ≡ state_was self.old }
    {
        if is_plain(grant.filter.as_str()) {
            self.offer_named(draft, encoded, place, grant)?;
            return Ok(());
        }
        self.offer_each(draft, encoded, place, grant)?;
        Ok(())
    }

    /// All retained messages that match are offered for each grant, one grant after the other. Each that goes with QoS 0 is encoded once.
    pub(crate) fn offer_all(
        &mut self,
        draft: &mut Draft,
        place: usize,
        given: &[Grant],
    ) -> Result<(), AllocError>
        requires { place < vec_len self.old.sessions }
        ensures done { OnOk result
            ((key : ℕ) (t : Turn) → Offering self.old draft.old place key t
            → Offering self.new draft.new place key
            (fold (offer key) t
            (flat_map (offers_to (map retained_view self.old.retained.entries))
            (map grant_view given.now)))) }
        ensures only { OnOk result (OnlyAt (place ∷ []) self.old → OnlyAt (place ∷ []) self.new) }
        ensures same { state_was self.new ≡ state_was self.old }
    {
        let mut encoded = Encoded::new(self.alloc, given.len());
        for grant in given {
            self.offer_table(draft, &mut encoded, place, grant)?;
        }
        Ok(())
    }
}
