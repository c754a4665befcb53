//! Messages that were kept.
ghost use Rattle.std.specs.Prelude.{◌≡◌, if◌then◌else◌, Some, None, string_bytes};
ghost use Rattle.std.specs.Option.{option_map};
ghost use Rattle.spk_broker.specs.Parts.{app_message_view};
ghost use Rattle.spk_packets.specs.View.{view};
ghost use Rattle.spk_broker.specs.Restoring.{is_app_message, message_view, sendable_as, words_of};

use crate::app_message::AppMessage;
use spk_bytes::Piece;
use spk_packets::{Packet, is_writable};

/// An application message (section 3.3): a will (section 3.1.2.5), or one that a session keeps.
#[derive(Debug, Drop)]
pub struct Message {
    pub topic: String,
    pub payload: Vec<u8>,
    pub qos: u8,
    pub retain: bool,
}

/// A PUBLISH of this message, with an identifier where it has one (section 3.3.2.2).
fn publish(message: Message) -> Packet
    ensures { view result ≡ sendable_as (message_view message) }
{
    Packet::Publish {
        dup: false,
        qos: message.qos,
        retain: false,
        topic: message.topic,
        id: if message.qos == 0 { None } else { Some(1) },
        payload: message.payload,
    }
}

/// Topic and payload of a PUBLISH.
fn words(packet: Packet) -> Option<(String, Vec<u8>)>
    ensures { option_map (λ x. (string_bytes x.0, x.1.items)) result ≡ words_of (view packet) }
{
    match packet {
        Packet::Publish { topic, payload, .. } => Some((topic, payload)),
        _other => None,
    }
}

/// The message, where it can be written as a PUBLISH.
pub(crate) fn app_message(message: Message) -> Option<AppMessage>
    ensures { option_map app_message_view result
        ≡ (if is_app_message (message_view message) then Some (message_view message) else None) }
{
    let qos = message.qos;
    let retain = message.retain;
    let packet = publish(message);
    if !is_writable(&packet) {
        return None;
    }
    let (topic, payload) = words(packet)?;
    Some(AppMessage {
        topic,
        payload: Piece::new(payload),
        qos,
        retain,
    })
}
