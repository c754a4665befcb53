//! Application messages.
ghost use Rattle.std.specs.Prelude.{◌≡◌, ◌≤◌, IfOk, string_bytes, true};
ghost use Rattle.spk_packets.specs.Spelling.{spelling};
ghost use Rattle.spk_broker.specs.Sendable.{IsWritable, is_sendable};

use crate::out::{spelled_head, spelled_publish};
use spk_bytes::{Bytes, Piece};
use spk_packets::PublishRef;
use std::alloc::{AllocError, Global};

/// From so many bytes on a payload is held once for all who get it; a shorter one is copied (own rule).
const SHARED_FROM: usize = 1_024;

/// A copy of a payload, which is shared from now on unless it is short.
fn payload_of(bytes: &Vec<u8>) -> Result<Piece, AllocError>
    ensures { IfOk result (λ p. p ≡ bytes.now.items) }
{
    let copy = bytes.clone()?;
    if copy.len() < SHARED_FROM {
        return Ok(Piece::new(copy));
    }
    Piece::shared(copy)
}

/// An application message: a will that waits for its connection's end (section 3.1.2.5), or what a kept session keeps.
#[derive(Debug, Drop)]
pub(crate) struct AppMessage {
    pub(crate) topic: String,
    pub(crate) payload: Piece,
    /// 0 or 1.
    pub(crate) qos: u8,
    pub(crate) retain: bool,
    /// It can be written as a PUBLISH.
    ghost sendable: { is_sendable (string_bytes topic) payload qos ≡ true },
}

impl AppMessage {
    ghost use Rattle.spk_packets.specs.Message.{Publish};
    ghost use Rattle.spk_packets.specs.View.{publish_view};
    ghost use Rattle.spk_broker.specs.Parts.{app_message_view};

    /// A message with copies of this topic and payload.
    pub(crate) fn of(
        topic: &String,
        payload: &Vec<u8>,
        qos: u8,
        retain: bool,
    ) -> Result<AppMessage, AllocError>
        requires { is_sendable (string_bytes topic.now) payload.now.items qos ≡ true }
        ensures { IfOk result (λ p. app_message_view p
            ≡ record {
              topic = string_bytes topic.now;
              payload = payload.now.items;
              qos = qos;
              retain = retain;
            }) }
    {
        Ok(AppMessage {
            topic: topic.clone()?,
            payload: payload_of(payload)?,
            qos,
            retain,
        })
    }

    /// A message with a copy of this topic and with this payload, shared.
    pub(crate) fn sharing(
        topic: &String,
        payload: &Piece,
        qos: u8,
        retain: bool,
    ) -> Result<AppMessage, AllocError>
        requires { is_sendable (string_bytes topic.now) payload.now qos ≡ true }
        ensures { IfOk result (λ p. app_message_view p
            ≡ record {
              topic = string_bytes topic.now;
              payload = payload.now;
              qos = qos;
              retain = retain;
            }) }
    {
        Ok(AppMessage {
            topic: topic.clone()?,
            payload: payload.share()?,
            qos,
            retain,
        })
    }

    /// The same message, with this QoS, which is no greater, and RETAIN.
    pub(crate) fn copied(&self, qos: u8, retain: bool) -> Result<AppMessage, AllocError>
        requires { qos ≤ self.now.qos }
        ensures { IfOk result
            (λ p. app_message_view p ≡ record (app_message_view self.now) { qos = qos; retain = retain }) }
    {
        AppMessage::sharing(&self.topic, &self.payload, qos, retain)
    }

    /// The message as a PUBLISH.
    pub(crate) fn as_publish(
        &self,
        dup: bool,
        qos: u8,
        retain: bool,
        id: Option<u16>,
    ) -> PublishRef<'_>
        ensures { publish_view result
            ≡ Publish dup qos retain (app_message_view self.now).topic id (app_message_view self.now).payload }
    {
        PublishRef {
            dup,
            qos,
            retain,
            topic: self.topic.as_str(),
            id,
            payload: self.payload.as_slice(),
        }
    }

    /// The bytes of the message as a PUBLISH: its payload is copied into them where it is short, else shared. Refused only where
    /// memory is.
    pub(crate) fn spelled(
        &self,
        alloc: Global,
        dup: bool,
        qos: u8,
        retain: bool,
        id: Option<u16>,
    ) -> Result<Bytes, AllocError>
        requires { IsWritable
            (Publish dup qos retain (app_message_view self.now).topic id (app_message_view self.now).payload) }
        ensures { IfOk result (λ b. b ≡ spelling
            (Publish dup qos retain (app_message_view self.now).topic id (app_message_view self.now).payload)) }
    {
        let publish = self.as_publish(dup, qos, retain, id);
        if self.payload.len() < SHARED_FROM {
            return Ok(Bytes::new(spelled_publish(alloc, &publish)?));
        }
        let head = spelled_head(alloc, &publish)?;
        Bytes::headed(alloc, head, self.payload.share()?)
    }
}
