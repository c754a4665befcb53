//! Rebirth requests (Sparkplug 3.0.0, chapter 6, `Node Control/Rebirth`).
ghost use Rattle.std.specs.Prelude.{◌≡◌, ◌⊎◌, IfOk, IfErr, OnOk, true, false, string_bytes};
ghost use Rattle.spk_payload.specs.Spelling as payload;
ghost use Rattle.spk_payload.specs.View.{metric_view, payload_view};
ghost use Rattle.spk_packets.specs.Spelling.{spelling};
ghost use Rattle.spk_packets.specs.View.{view};
ghost use Rattle.spk_topics.specs.Spark.{topic_of};
ghost use Rattle.spk_topics.specs.Spark.Named.{of_node};
ghost use Rattle.spk_host_session.specs.Data.{is_address};
ghost use Rattle.spk_host_session.specs.Packets as spec;

use crate::fault::HostFault;
use crate::names::is_address;
use crate::packets::written;
use spk_packets::Packet;
use spk_payload::{Metric, Payload, PayloadFault, Raw, encode};
use spk_topics::{Verb, node_type};
use std::alloc::{AllocError, Global};

/// The metric of a request.
fn metric(alloc: Global, now: u64) -> Result<Metric, AllocError>
    ensures { IfOk result (λ m. metric_view m ≡ spec.rebirth_metric now) }
{
    Ok(Metric {
        name: Some(String::from_str(alloc, "Node Control/Rebirth")?),
        alias: None,
        timestamp: Some(now),
        datatype: Some(11),
        historical: None,
        transient: None,
        null: None,
        value: Some(Raw::Flag(true)),
    })
}

/// The payload of a request.
fn request_payload(alloc: Global, now: u64) -> Result<Payload, AllocError>
    ensures { IfOk result (λ p. payload_view p ≡ spec.rebirth_payload now) }
{
    let mut metrics = Vec::with_capacity(alloc, 1)?;
    metrics.push(metric(alloc, now)?)?;
    Ok(Payload {
        timestamp: Some(now),
        metrics,
        seq: None,
    })
}

/// The bytes of a request's payload, with its moment in milliseconds since 1970.
pub fn request_bytes(alloc: Global, now: u64) -> Result<Vec<u8>, AllocError>
    ensures { IfOk result (λ v. v.items ≡ payload.spelling (spec.rebirth_payload now)) }
{
    let payload = request_payload(alloc, now)?;
    match encode(alloc, &payload) {
        Ok(bytes) => Ok(bytes),
        Err(PayloadFault::NoMemory) => Err(AllocError),
        Err(_) => unreachable!(),
    }
}

/// The topic of a request.
fn request_topic(alloc: Global, group: &str, node: &str) -> Result<String, AllocError>
    ensures { IfOk result
        (λ t. string_bytes t ≡ topic_of (of_node group.now Verb.Command node.now)) }
{
    let kind = node_type(Verb::Command);
    format!(in alloc; "spBv1.0/{group}/{kind}/{node}")
}

/// The packet of a request.
fn request(alloc: Global, group: &str, node: &str, now: u64) -> Result<Packet, AllocError>
    ensures { IfOk result (λ p. view p ≡ spec.rebirth_of group.now node.now now) }
{
    Ok(Packet::Publish {
        dup: false,
        qos: 0,
        retain: false,
        topic: request_topic(alloc, group, node)?,
        id: None,
        payload: request_bytes(alloc, now)?,
    })
}

/// The bytes of a rebirth request to a node, with its moment in milliseconds since 1970: an NCMD at QoS 0 whose one metric is
/// `Node Control/Rebirth`, true. Refused with NotSparkplug (70) where the names can't stand in its topic.
pub fn rebirth(alloc: Global, group: &str, node: &str, now: u64) -> Result<Vec<u8>, HostFault>
    ensures said { IfOk result (λ v. v.items ≡ spelling (spec.rebirth_of group.now node.now now)) }
    ensures whole { IfOk result (λ v. spec.IsPacket v.items) }
    ensures addressed { OnOk result (is_address group.now node.now ≡ true) }
    ensures fault { IfErr result (λ e. (e ≡ HostFault.NoMemory)
        ⊎ ((e ≡ HostFault.NotSparkplug) × (is_address group.now node.now ≡ false))) }
{
    if !is_address(group, node) {
        return Err(HostFault::NotSparkplug);
    }
    let packet = request(alloc, group, node, now)?;
    Ok(written(alloc, &packet)?)
}
