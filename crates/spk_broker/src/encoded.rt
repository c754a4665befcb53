//! Retained messages as they are given with QoS 0 in one call: each is encoded once, however many entries of a SUBSCRIBE give it.
ghost use Rattle.std.specs.Prelude.{ℕ, List, ◌≡◌, IfOk, None, OnOk, Some, cond, slice_get, string_bytes, true};
ghost use Rattle.std.specs.Ordering.{is_eq, nat_cmp};
ghost use Rattle.spk_packets.specs.Spelling.{spelling};
ghost use Rattle.spk_broker_rules.specs.Data as plain;
ghost use Rattle.spk_broker_rules.specs.Words.{plain_packet};
ghost use Rattle.spk_broker.specs.Encoded.{AreBytesOf, AreEncoded, encoded_at};
ghost use Rattle.spk_broker.specs.Offering.{retained_at};
ghost use Rattle.spk_broker.specs.Parts.{stored_view};
ghost use Rattle.spk_broker.specs.Sendable.{is_sendable};

use crate::out::spelled_publish;
use crate::state::Stored;
use spk_bytes::Bytes;
use spk_packets::PublishRef;
use std::alloc::{AllocError, Global};
use std::collections::BTreeMap;

/// The bytes of a retained message with QoS 0 and RETAIN. Refused only where memory is.
fn spelled_retained(alloc: Global, topic: &String, stored: &Stored) -> Result<Vec<u8>, AllocError>
    requires { is_sendable (string_bytes topic.now) stored.now.payload stored.now.qos ≡ true }
    ensures { IfOk result (λ v. v.items ≡ spelling
        (plain_packet (retained_at 0 (string_bytes topic.now) (stored_view stored.now)))) }
{
    let publish = PublishRef {
        dup: false,
        qos: 0,
        retain: true,
        topic: topic.as_str(),
        id: None,
        payload: stored.payload.as_slice(),
    };
    spelled_publish(alloc, &publish)
}

/// Retained messages that were encoded, by their places.
#[derive(Drop)]
pub(crate) struct Encoded {
    alloc: Global,
    /// Whether a message may be given more than once: else none is kept here.
    shares: bool,
    by_place: BTreeMap<usize, Bytes>,
}

impl Encoded {
    /// None yet, for so many entries of a SUBSCRIBE.
    pub(crate) fn new(alloc: Global, entries: usize) -> Encoded
        ensures { (place : ℕ) → encoded_at result place ≡ None }
    {
        Encoded {
            alloc,
            shares: entries > 1,
            by_place: BTreeMap::new(alloc),
        }
    }

    /// These bytes are those of the retained message at a place.
    fn note(&mut self, place: usize, bytes: Bytes) -> Result<(), AllocError>
        ensures { OnOk result ((other : ℕ) → encoded_at self.new other
            ≡ cond (is_eq (nat_cmp place other)) (Some bytes) (encoded_at self.old other)) }
    {
        self.by_place.insert(place, bytes)?;
        Ok(())
    }

    /// These bytes are those of the retained message at a place, for each entry that gives it in this call.
    fn keep(&mut self, place: usize, bytes: Vec<u8>) -> Result<Bytes, AllocError>
        ensures bytes { IfOk result (λ b. b ≡ bytes.items) }
        ensures right { OnOk result ((es : List (List ℕ × plain.Stored)) (e : List ℕ × plain.Stored)
            → slice_get es place ≡ Some e → bytes.items ≡ spelling (plain_packet (retained_at 0 e.0 e.1))
            → AreEncoded self.old es → AreEncoded self.new es) }
    {
        if !self.shares {
            return Ok(Bytes::new(bytes));
        }
        let kept = Bytes::shared(bytes)?;
        let given = kept.share()?;
        self.note(place, kept)?;
        Ok(given)
    }

    /// The bytes of the retained message at a place with QoS 0 and RETAIN: encoded at the first call, shared at the others.
    pub(crate) fn bytes(
        &mut self,
        place: usize,
        topic: &String,
        stored: &Stored,
    ) -> Result<Bytes, AllocError>
        requires sendable { is_sendable (string_bytes topic.now) stored.now.payload stored.now.qos ≡ true }
        requires right { AreBytesOf (encoded_at self.old place)
            (Some (string_bytes topic.now, stored_view stored.now)) }
        ensures bytes { IfOk result (λ b. b ≡ spelling
            (plain_packet (retained_at 0 (string_bytes topic.now) (stored_view stored.now)))) }
        ensures right { OnOk result ((es : List (List ℕ × plain.Stored))
            → slice_get es place ≡ Some (string_bytes topic.now, stored_view stored.now)
            → AreEncoded self.old es → AreEncoded self.new es) }
    {
        if let Some(bytes) = self.by_place.get(&place) {
            return bytes.share();
        }
        let bytes = spelled_retained(self.alloc, topic, stored)?;
        let given = self.keep(place, bytes)?;
        Ok(given)
    }
}
