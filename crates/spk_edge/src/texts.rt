//! Topics, and payloads as bytes.
ghost use Rattle.std.specs.Prelude.{◌≡◌, [], IfOk, map, string_bytes};
ghost use Rattle.spk_payload.specs.Spelling as spelled;
ghost use Rattle.spk_payload.specs.View.{metric_view, payload_view};
ghost use Rattle.spk_topics.specs.Spark.{topic_of};
ghost use Rattle.spk_topics.specs.Spark.Named.{of_node, of_device, of_state};
ghost use Rattle.spk_edge_rules.specs.Packets.{client_of, death_payload, session_metric};
ghost use Rattle.spk_edge.specs.Sealing.{AreKnown};
ghost use Rattle.spk_edge.specs.View.{config_view};

use crate::config::EdgeConfig;
use spk_payload::{Metric, Payload, PayloadFault, Raw, encode};
use spk_topics::{Verb, device_type, node_type};
use std::alloc::{AllocError, Global};

/// A text for a topic of these names, with room for all of it: besides them it has 17 bytes at the most.
fn room_for(alloc: Global, group: &str, node: &str, device: &str) -> Result<String, AllocError>
    ensures { IfOk result (λ t. string_bytes t ≡ []) }
{
    let names = group.len().saturating_add(node.len());
    let names = names.saturating_add(device.len());
    String::with_capacity(alloc, names.saturating_add(17))
}

/// The topic of the node (Sparkplug 3.0.0, chapter 4).
pub fn node_topic(alloc: Global, config: &EdgeConfig, kind: Verb) -> Result<String, AllocError>
    ensures { IfOk result (λ t. string_bytes t
        ≡ topic_of (of_node (string_bytes config.now.group) kind (string_bytes config.now.node))) }
{
    let group = config.group.as_str();
    let node = config.node.as_str();
    let kind = node_type(kind);
    let mut topic = room_for(alloc, group, node, "")?;
    topic.push_str("spBv1.0/")?;
    topic.push_str(group)?;
    topic.push_str("/")?;
    topic.push_str(kind)?;
    topic.push_str("/")?;
    topic.push_str(node)?;
    Ok(topic)
}

/// The topic of one of its devices.
pub(crate) fn device_topic(
    alloc: Global,
    config: &EdgeConfig,
    kind: Verb,
    device: &str,
) -> Result<String, AllocError>
    ensures { IfOk result (λ t. string_bytes t
        ≡ topic_of (of_device (string_bytes config.now.group) kind
        (string_bytes config.now.node) device.now)) }
{
    let group = config.group.as_str();
    let node = config.node.as_str();
    let kind = device_type(kind);
    let mut topic = room_for(alloc, group, node, device)?;
    topic.push_str("spBv1.0/")?;
    topic.push_str(group)?;
    topic.push_str("/")?;
    topic.push_str(kind)?;
    topic.push_str("/")?;
    topic.push_str(node)?;
    topic.push_str("/")?;
    topic.push_str(device)?;
    Ok(topic)
}

/// The topic of a host application's STATE.
pub(crate) fn state_topic(alloc: Global, host: &str) -> Result<String, AllocError>
    ensures { IfOk result (λ t. string_bytes t ≡ topic_of (of_state host.now)) }
{
    format!(in alloc; "spBv1.0/STATE/{host}")
}

/// The node's client id.
pub(crate) fn client_id(alloc: Global, config: &EdgeConfig) -> Result<String, AllocError>
    ensures { IfOk result (λ t. string_bytes t ≡ client_of (config_view config.now)) }
{
    let group = config.group.as_str();
    let node = config.node.as_str();
    format!(in alloc; "{group}/{node}")
}

/// A payload's bytes, where all values are known.
pub(crate) fn spelled(alloc: Global, payload: &Payload) -> Result<Vec<u8>, AllocError>
    requires { AreKnown (payload_view payload.now).metrics }
    ensures spelled { IfOk result (λ v. v.items ≡ spelled.spelling (payload_view payload.now)) }
    ensures fits { IfOk result (λ v. spelled.PayloadFits (payload_view payload.now)) }
{
    match encode(alloc, payload) {
        Ok(bytes) => Ok(bytes),
        Err(PayloadFault::NoMemory) => Err(AllocError),
        Err(_) => unreachable!(),
    }
}

/// The metric `bdSeq`.
pub(crate) fn session_metric(alloc: Global, bd: u8, time: Option<u64>) -> Result<Metric, AllocError>
    ensures { IfOk result (λ m. metric_view m ≡ session_metric bd time) }
{
    Ok(Metric {
        name: Some(String::from_str(alloc, "bdSeq")?),
        alias: None,
        timestamp: time,
        datatype: Some(4),
        historical: None,
        transient: None,
        null: None,
        value: Some(Raw::Long(u64::from(bd))),
    })
}

/// The payload of an NDEATH.
fn death_payload(alloc: Global, bd: u8, time: u64) -> Result<Payload, AllocError>
    ensures { IfOk result (λ p. payload_view p ≡ death_payload bd time) }
{
    let mut metrics = Vec::with_capacity(alloc, 1)?;
    metrics.push(session_metric(alloc, bd, None)?)?;
    Ok(Payload {
        timestamp: Some(time),
        metrics,
        seq: None,
    })
}

/// The bytes of an NDEATH's payload, of the session of a bdSeq that was opened at a moment in milliseconds since 1970.
pub fn death_bytes(alloc: Global, bd: u8, time: u64) -> Result<Vec<u8>, AllocError>
    ensures { IfOk result (λ v. v.items ≡ spelled.spelling (death_payload bd time)) }
{
    let payload = death_payload(alloc, bd, time)?;
    spelled(alloc, &payload)
}
