//! What a packet may not hold to be written.

ghost use Rattle.std.specs.Prelude.{◌≡◌, ◌==◌, ◌||◌, nat_lt, string_bytes, None, Some, IfErr, OnOk};
ghost use Rattle.std.specs.Option.{option_map};
ghost use Rattle.std.specs.List.{list_any};
ghost use Rattle.spk_packets.specs.Fault.{first_of};
ghost use Rattle.spk_packets.specs.Spelling.{is_bad_text, has_bad_topic, has_bad_text, has_bad_will, is_empty, has_bad_id, has_bad_body, will_is_of_qos_two, is_qos_two, content_refusals};
ghost use Rattle.spk_packets.specs.View.{view, will_view};

use crate::fault::PacketFault;
use crate::packet::{Packet, Request, Will};
use crate::subscribe::are_codes;

/// Whether what the packet holds can be written; how long that would be is judged elsewhere.
pub(crate) fn judge(packet: &Packet) -> Result<(), PacketFault>
    ensures ok { OnOk result (first_of (content_refusals (view packet.now)) ≡ None) }
    ensures err { IfErr result (λ e. first_of (content_refusals (view packet.now)) ≡ Some e) }
{
    if bad_text(packet) {
        return Err(PacketFault::BadText);
    }
    if bad_body(packet) {
        return Err(PacketFault::BadBody);
    }
    if qos_two(packet) {
        return Err(PacketFault::QosTwo);
    }
    Ok(())
}

/// Over 65,535 bytes, or U+0000 is there.
pub(crate) fn bad(text: &str) -> bool
    ensures { result ≡ is_bad_text text.now }
{
    text.len() > 65_535 || text.as_bytes().contains(&0)
}

/// The packet has a text that can't be written.
#[tactic(auto, using(crate::proofs::Written::requests_bad, crate::proofs::Written::filters_bad), unfolding(crate::specs::Spelling::has_bad_text))]
fn bad_text(packet: &Packet) -> bool
    ensures { result ≡ has_bad_text (view packet.now) }
{
    match packet {
        Packet::Connect { client, will, .. } => bad(client) || bad_topic(will),
        Packet::Publish { topic, .. } => bad(topic),
        Packet::Subscribe { filters, .. } => bad_requests(filters),
        Packet::Unsubscribe { filters, .. } => bad_filters(filters),
        _ => false,
    }
}

fn bad_topic(will: &Option<Will>) -> bool
    ensures { result ≡ has_bad_topic (option_map will_view will.now) }
{
    match will {
        Some(will) => bad(&will.topic),
        None => false,
    }
}

fn bad_requests(requests: &[Request]) -> bool
    ensures { result
        ≡ list_any (λ request. is_bad_text (string_bytes request.filter)) requests.now }
{
    requests.iter().any(|request| bad(&request.filter))
}

fn bad_filters(filters: &[String]) -> bool
    ensures { result ≡ list_any (λ filter. is_bad_text (string_bytes filter)) filters.now }
{
    filters.iter().any(|filter| bad(filter))
}

/// The packet has a value or a list that can't be written.
#[tactic(auto, using(crate::proofs::Written::requests_high, crate::proofs::Written::requests_none), unfolding(crate::specs::Spelling::has_bad_body))]
fn bad_body(packet: &Packet) -> bool
    ensures { result ≡ has_bad_body (view packet.now) }
{
    match packet {
        Packet::Connect { will, .. } => bad_will(will),
        Packet::ConnAck { code, .. } => *code > 5,
        Packet::Publish { dup, qos, id, .. } => *qos > 2
            || (*dup && *qos == 0)
            || bad_id(*qos, *id),
        Packet::PubAck { id } | Packet::UnsubAck { id } => *id == 0,
        Packet::Subscribe { id, filters } => bad_subscribe(*id, filters),
        Packet::SubAck { id, codes } => *id == 0 || codes.is_empty() || !are_codes(codes),
        Packet::Unsubscribe { id, filters } => *id == 0 || filters.is_empty(),
        Packet::PingReq | Packet::PingResp | Packet::Disconnect => false,
    }
}

fn bad_will(will: &Option<Will>) -> bool
    ensures { result ≡ has_bad_will (option_map will_view will.now) }
{
    match will {
        Some(will) => will.message.len() > 65_535 || will.qos > 2,
        None => false,
    }
}

pub(crate) fn bad_id(qos: u8, id: Option<u16>) -> bool
    ensures { result ≡ has_bad_id qos id }
{
    match id {
        Some(id) => qos != 1 || id == 0,
        None => qos == 1,
    }
}

fn bad_subscribe(id: u16, requests: &[Request]) -> bool
    ensures { result
        ≡ (id == 0 || is_empty requests.now
        || list_any (λ request. nat_lt 2 request.qos) requests.now) }
{
    id == 0 || requests.is_empty() || over_two(requests)
}

fn over_two(requests: &[Request]) -> bool
    ensures { result ≡ list_any (λ request. nat_lt 2 request.qos) requests.now }
{
    requests.iter().any(|request| request.qos > 2)
}

/// A publish or a will of QoS 2.
#[tactic(auto, unfolding(crate::specs::Spelling::is_qos_two))]
fn qos_two(packet: &Packet) -> bool
    ensures { result ≡ is_qos_two (view packet.now) }
{
    match packet {
        Packet::Connect { will, .. } => will_of_qos_two(will),
        Packet::Publish { qos, .. } => *qos == 2,
        _ => false,
    }
}

fn will_of_qos_two(will: &Option<Will>) -> bool
    ensures { result ≡ will_is_of_qos_two (option_map will_view will.now) }
{
    match will {
        Some(will) => will.qos == 2,
        None => false,
    }
}
