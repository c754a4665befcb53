//! How many bytes a packet's body has, or the greatest number where it has more: that is far more than any packet has.

ghost use Rattle.std.specs.Prelude.{◌≡◌, ◌-◌, ◌^◌, length, min, string_bytes, map};
ghost use Rattle.std.specs.Option.{option_map};
ghost use Rattle.std.specs.List.{flat_map};
ghost use Rattle.spk_packets.specs.Spelling.{counted, request, id_part, will_part, body};
ghost use Rattle.spk_packets.specs.View.{view, will_view, request_view};

use crate::packet::{Packet, Request, Will};

pub(crate) fn counted_size(bytes: &[u8]) -> usize
    ensures { result ≡ min (length (counted bytes.now)) (2 ^ 64 - 1) }
{
    bytes.len().saturating_add(2)
}

fn requests_size(requests: &[Request]) -> usize
    ensures { result
        ≡ min (length (flat_map request (map request_view requests.now))) (2 ^ 64 - 1) }
{
    let mut sum = 0usize;
    for entry in requests {
        sum = sum
            .saturating_add(counted_size(entry.filter.as_bytes()))
            .saturating_add(1);
    }
    sum
}

fn filters_size(filters: &[String]) -> usize
    ensures { result
        ≡ min (length (flat_map counted (map (λ filter. string_bytes filter) filters.now)))
        (2 ^ 64 - 1) }
{
    let mut sum = 0usize;
    for filter in filters {
        sum = sum.saturating_add(counted_size(filter.as_bytes()));
    }
    sum
}

fn will_size(will: &Option<Will>) -> usize
    ensures { result ≡ min (length (will_part (option_map will_view will.now))) (2 ^ 64 - 1) }
{
    match will {
        Some(will) => counted_size(will.topic.as_bytes()).saturating_add(counted_size(
            &will.message,
        )),
        None => 0,
    }
}

pub(crate) fn id_size(id: Option<u16>) -> usize
    ensures { result ≡ length (id_part id) }
{
    match id {
        Some(_) => 2,
        None => 0,
    }
}

/// How many bytes stand behind the header.
#[tactic(auto, unfolding(crate::specs::Spelling::body))]
pub(crate) fn body_size(packet: &Packet) -> usize
    ensures { result ≡ min (length (body (view packet.now))) (2 ^ 64 - 1) }
{
    match packet {
        Packet::Connect { client, will, .. } => counted_size(client.as_bytes())
            .saturating_add(will_size(will))
            .saturating_add(10),
        Packet::ConnAck { .. } | Packet::PubAck { .. } | Packet::UnsubAck { .. } => 2,
        Packet::Publish {
            topic,
            id,
            payload,
            ..
        } => counted_size(topic.as_bytes())
            .saturating_add(id_size(*id))
            .saturating_add(payload.len()),
        Packet::Subscribe { filters, .. } => requests_size(filters).saturating_add(2),
        Packet::SubAck { codes, .. } => codes.len().saturating_add(2),
        Packet::Unsubscribe { filters, .. } => filters_size(filters).saturating_add(2),
        Packet::PingReq | Packet::PingResp | Packet::Disconnect => 0,
    }
}
