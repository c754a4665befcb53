//! Packets that clients send.

use spk_packets::{Packet, PublishRef, Request, Will, encode};
use std::alloc::Global;

/// A CONNECT, with a will at QoS 1 where a topic for it is given. Its bytes.
pub(crate) fn connect(
    alloc: Global,
    name: &str,
    clean: bool,
    will: Option<(&str, &[u8])>,
) -> Option<Vec<u8>> {
    let will = match will {
        Some((topic, message)) => Some(Will {
            topic: String::from_str(alloc, topic).ok()?,
            message: Vec::from_slice(alloc, message).ok()?,
            qos: 1,
            retain: false,
        }),
        None => None,
    };
    let packet = Packet::Connect {
        client: String::from_str(alloc, name).ok()?,
        clean,
        keep: 60,
        will,
    };
    encode(alloc, &packet).ok()
}

/// A SUBSCRIBE to these filters at this QoS. Its bytes.
pub(crate) fn subscribe(alloc: Global, filters: Vec<String>, qos: u8) -> Option<Vec<u8>> {
    let mut requests = Vec::new(alloc);
    for filter in filters {
        requests.push(Request { filter, qos }).ok()?;
    }
    let packet = Packet::Subscribe {
        id: 1,
        filters: requests,
    };
    encode(alloc, &packet).ok()
}

/// A SUBSCRIBE to one filter at this QoS. Its bytes.
pub(crate) fn subscribe_to(alloc: Global, filter: &str, qos: u8) -> Option<Vec<u8>> {
    let mut filters = Vec::new(alloc);
    filters.push(String::from_str(alloc, filter).ok()?).ok()?;
    subscribe(alloc, filters, qos)
}

/// A PUBLISH, at QoS 1 where it has an identifier. Its bytes.
pub(crate) fn publish(
    alloc: Global,
    topic: &str,
    payload: &[u8],
    id: Option<u16>,
    retain: bool,
) -> Option<Vec<u8>> {
    let packet = PublishRef {
        dup: false,
        qos: if id.is_some() { 1 } else { 0 },
        retain,
        topic,
        id,
        payload,
    };
    packet.encode(alloc).ok()
}

/// How many bytes the packet at the front has, and how many of them stand before its body. None where the front is no whole packet.
fn front_of(bytes: &[u8]) -> Option<(usize, usize)> {
    let mut length = 0usize;
    let mut unit = 1usize;
    for at in 1..5usize {
        let byte = *bytes.get(at)?;
        length = length.saturating_add(usize::from(byte % 128).saturating_mul(unit));
        unit = unit.saturating_mul(128);
        if byte < 128 {
            let header = at + 1;
            let whole = header.saturating_add(length);
            return if whole <= bytes.len() {
                Some((whole, header))
            } else {
                None
            };
        }
    }
    None
}

/// The identifier of a PUBLISH of QoS 1, whose body begins there.
fn id_of(bytes: &[u8], header: usize) -> Option<(u8, u8)> {
    let first = *bytes.first()?;
    if first / 16 != 3 || first / 2 % 4 != 1 {
        return None;
    }
    let high = usize::from(*bytes.get(header)?);
    let low = usize::from(*bytes.get(header.saturating_add(1))?);
    let at = header.saturating_add(2).saturating_add(high * 256 + low);
    Some((*bytes.get(at)?, *bytes.get(at.saturating_add(1))?))
}

/// The PUBACKs of the messages of QoS 1 among these packets, behind what stands there.
pub(crate) fn acknowledge(bytes: &[u8], acks: &mut Vec<u8>) -> Option<()> {
    let mut rest = bytes;
    for _ in 0..bytes.len() {
        if rest.is_empty() {
            return Some(());
        }
        let (whole, header) = front_of(rest)?;
        if let Some((high, low)) = id_of(rest, header) {
            acks.extend_from_slice(&[0x40, 2, high, low]).ok()?;
        }
        rest = rest.get(whole..)?;
    }
    Some(())
}
