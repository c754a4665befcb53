//! SUBSCRIBE, SUBACK and UNSUBSCRIBE (sections 3.8 to 3.10).

ghost use Rattle.std.specs.Prelude.{◌≡◌, map, string_bytes};
ghost use Rattle.std.specs.List.{list_all};
ghost use Rattle.spk_packets.specs.Fault.{Gives};
ghost use Rattle.spk_packets.specs.Grammar.{is_grant};
ghost use Rattle.spk_packets.specs.Reading.{subscribe_at, suback_at, unsubscribe_at, request_at, qos_at, text_at, each_at, some_at};
ghost use Rattle.spk_packets.specs.View.{view, request_view};

use crate::fault::PacketFault;
use crate::packet::{Packet, Request};
use crate::parts::{id, text};
use std::alloc::Global;

/// An identifier, and at least one entry.
#[tactic(auto, unfolding(crate::specs::Reading::subscribe_at))]
pub(crate) fn subscribe(alloc: Global, body: &[u8]) -> Result<Packet, PacketFault>
    ensures { Gives view result (subscribe_at body.now) }
{
    let (id, rest) = id(body)?;
    some(rest)?;
    let filters = requests(alloc, rest)?;
    Ok(Packet::Subscribe { id, filters })
}

/// An identifier, and at least one filter.
#[tactic(auto, unfolding(crate::specs::Reading::unsubscribe_at))]
pub(crate) fn unsubscribe(alloc: Global, body: &[u8]) -> Result<Packet, PacketFault>
    ensures { Gives view result (unsubscribe_at body.now) }
{
    let (id, rest) = id(body)?;
    some(rest)?;
    let filters = filters(alloc, rest)?;
    Ok(Packet::Unsubscribe { id, filters })
}

/// An identifier, and at least one code.
#[tactic(auto, unfolding(crate::specs::Reading::suback_at))]
pub(crate) fn suback(alloc: Global, body: &[u8]) -> Result<Packet, PacketFault>
    ensures { Gives view result (suback_at body.now) }
{
    let (id, rest) = id(body)?;
    some(rest)?;
    if !are_codes(rest) {
        return Err(PacketFault::BadBody);
    }
    let codes = Vec::from_slice(alloc, rest)?;
    Ok(Packet::SubAck { id, codes })
}

/// A granted QoS, or a refusal (section 3.9.3).
pub(crate) fn is_code(code: u8) -> bool
    ensures { result ≡ is_grant code }
{
    code <= 2 || code == 128
}

/// Whether each is one.
pub(crate) fn are_codes(codes: &[u8]) -> bool
    ensures { result ≡ list_all is_grant codes.now }
{
    codes.iter().all(|code| is_code(*code))
}

/// Something is left.
#[tactic(auto, unfolding(crate::specs::Reading::some_at))]
fn some(rest: &[u8]) -> Result<(), PacketFault>
    ensures { Gives (λ x. x) result (some_at rest.now) }
{
    if rest.is_empty() {
        Err(PacketFault::BadBody)
    } else {
        Ok(())
    }
}

/// A topic filter and the QoS asked for.
#[tactic(auto, unfolding(crate::specs::Reading::request_at, crate::specs::Reading::qos_at))]
fn request(alloc: Global, bytes: &[u8]) -> Result<(Request, &[u8]), PacketFault>
    ensures { Gives (λ x. (request_view x.0, x.1.now)) result (request_at bytes.now) }
{
    let (filter, rest) = text(bytes)?;
    match rest {
        [qos, rest @ ..] if *qos <= 2 => {
            let filter = String::from_str(alloc, filter)?;
            Ok((Request { filter, qos: *qos }, rest))
        }
        _ => Err(PacketFault::BadBody),
    }
}

/// A topic filter.
fn filter(alloc: Global, bytes: &[u8]) -> Result<(String, &[u8]), PacketFault>
    ensures { Gives (λ x. (string_bytes x.0, x.1.now)) result (text_at bytes.now) }
{
    let (filter, rest) = text(bytes)?;
    Ok((String::from_str(alloc, filter)?, rest))
}

fn requests(alloc: Global, bytes: &[u8]) -> Result<Vec<Request>, PacketFault>
    ensures { Gives (λ v. map request_view v.items) result (each_at request_at bytes.now) }
{
    let mut requests = Vec::new(alloc);
    let mut rest = bytes;
    while !rest.is_empty() {
        let (one, after) = request(alloc, rest)?;
        requests.push(one)?;
        rest = after;
    }
    Ok(requests)
}

fn filters(alloc: Global, bytes: &[u8]) -> Result<Vec<String>, PacketFault>
    ensures { Gives (λ v. map (λ filter. string_bytes filter) v.items) result
        (each_at text_at bytes.now) }
{
    let mut filters = Vec::new(alloc);
    let mut rest = bytes;
    while !rest.is_empty() {
        let (one, after) = filter(alloc, rest)?;
        filters.push(one)?;
        rest = after;
    }
    Ok(filters)
}
