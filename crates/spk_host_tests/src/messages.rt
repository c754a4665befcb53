//! The bytes of what simulated nodes publish, and of the requests to them.
use crate::bytes::{publish, put_field, put_part};
use crate::twin::{About, Sent, Source};
use std::alloc::{AllocError, Global};

/// A node: its group, its name, whether its numbers restart at each NBIRTH, and its first number.
pub(crate) type Node = (&'static str, &'static str, bool, u64);

pub(crate) const NODES: [Node; 3] = [
    ("G", "A", false, 250),
    ("G", "B", false, 0),
    ("F", "A", true, 0),
];

/// A metric of a number, by its name, its alias and its datatype.
fn put_metric(
    alloc: Global,
    bytes: &mut Vec<u8>,
    name: &[u8],
    alias: Option<u64>,
    number: u64,
) -> Result<(), AllocError> {
    let mut metric = Vec::new(alloc);
    put_fields(&mut metric, name, alias, number)?;
    put_part(bytes, 0x12, metric.as_slice())
}

/// The fields of such a metric.
fn put_fields(
    metric: &mut Vec<u8>,
    name: &[u8],
    alias: Option<u64>,
    number: u64,
) -> Result<(), AllocError> {
    if !name.is_empty() {
        put_part(metric, 0x0a, name)?;
    }
    if let Some(alias) = alias {
        put_field(metric, 0x10, alias)?;
    }
    put_field(metric, 0x20, 7)?;
    put_field(metric, 0x50, number)
}

/// What a message's payload has behind its timestamp, and before its position.
fn put_metrics(alloc: Global, bytes: &mut Vec<u8>, sent: Sent) -> Result<(), AllocError> {
    match sent.about {
        About::NodeBirth => {
            put_metric(alloc, bytes, b"bdSeq", None, sent.session % 256)?;
            put_metric(alloc, bytes, b"a", Some(1), 0)?;
            put_metric(alloc, bytes, b"b", Some(2), 0)
        }
        About::DeviceBirth(_device) => put_metric(alloc, bytes, b"c", Some(4), 0),
        About::NodeData(alias) | About::DeviceData(_, alias) => {
            put_metric(alloc, bytes, b"", Some(alias), 5)
        }
        About::DeviceDeath(_device) => Ok(()),
    }
}

/// The number of a message: it runs on from the first, or from its NBIRTH.
fn number_of(node: &Source, first: u64, position: u64, sent: Sent) -> u64 {
    if node.restarts {
        position.saturating_sub(sent.start) % 256
    } else {
        position.saturating_add(first) % 256
    }
}

/// A payload. Its last metric says the position.
fn payload_of(
    alloc: Global,
    position: u64,
    sent: Sent,
    number: u64,
) -> Result<Vec<u8>, AllocError> {
    let mut bytes = Vec::new(alloc);
    put_payload(alloc, &mut bytes, position, sent, number)?;
    Ok(bytes)
}

fn put_payload(
    alloc: Global,
    bytes: &mut Vec<u8>,
    position: u64,
    sent: Sent,
    number: u64,
) -> Result<(), AllocError> {
    if let Some(stamp) = sent.stamp {
        put_field(bytes, 0x08, stamp)?;
    }
    put_metrics(alloc, bytes, sent)?;
    put_metric(alloc, bytes, b"position", None, position)?;
    put_field(bytes, 0x18, number)
}

fn topic_of(alloc: Global, node: Node, about: About) -> Result<String, AllocError> {
    let (group, name, _restarts, _first) = node;
    match about {
        About::NodeBirth => format!(in alloc; "spBv1.0/{group}/NBIRTH/{name}"),
        About::NodeData(_alias) => format!(in alloc; "spBv1.0/{group}/NDATA/{name}"),
        About::DeviceBirth(device) => format!(in alloc; "spBv1.0/{group}/DBIRTH/{name}/{device}"),
        About::DeviceData(device, _) => format!(in alloc; "spBv1.0/{group}/DDATA/{name}/{device}"),
        About::DeviceDeath(device) => format!(in alloc; "spBv1.0/{group}/DDEATH/{name}/{device}"),
    }
}

/// The packet of a position.
pub(crate) fn packet_of(
    alloc: Global,
    node: Node,
    source: &Source,
    position: u64,
    sent: Sent,
) -> Result<Vec<u8>, AllocError> {
    let number = number_of(source, node.3, position, sent);
    let payload = payload_of(alloc, position, sent, number)?;
    let topic = topic_of(alloc, node, sent.about)?;
    publish(alloc, topic.as_str(), None, payload.as_slice())
}

/// The NDEATH of a session, at QoS 1.
pub(crate) fn death_of(alloc: Global, node: Node, session: u64) -> Result<Vec<u8>, AllocError> {
    let (group, name, _restarts, _first) = node;
    let mut payload = Vec::new(alloc);
    put_metric(alloc, &mut payload, b"bdSeq", None, session % 256)?;
    let topic = format!(in alloc; "spBv1.0/{group}/NDEATH/{name}")?;
    publish(alloc, topic.as_str(), Some(9), payload.as_slice())
}

/// A rebirth request to a node.
pub(crate) fn request_to(alloc: Global, node: Node, now: u64) -> Result<Vec<u8>, AllocError> {
    let (group, name, _restarts, _first) = node;
    let payload = rebirth(alloc, now)?;
    let topic = format!(in alloc; "spBv1.0/{group}/NCMD/{name}")?;
    publish(alloc, topic.as_str(), None, payload.as_slice())
}

/// The payload of a rebirth request.
fn rebirth(alloc: Global, now: u64) -> Result<Vec<u8>, AllocError> {
    let mut payload = Vec::new(alloc);
    put_rebirth(alloc, &mut payload, now)?;
    Ok(payload)
}

fn put_rebirth(alloc: Global, payload: &mut Vec<u8>, now: u64) -> Result<(), AllocError> {
    let mut metric = Vec::new(alloc);
    put_control(&mut metric, now)?;
    put_field(payload, 0x08, now)?;
    put_part(payload, 0x12, metric.as_slice())
}

/// The metric `Node Control/Rebirth`, true.
fn put_control(metric: &mut Vec<u8>, now: u64) -> Result<(), AllocError> {
    put_part(metric, 0x0a, b"Node Control/Rebirth")?;
    put_field(metric, 0x18, now)?;
    put_field(metric, 0x20, 11)?;
    put_field(metric, 0x70, 1)
}
