//! What a PUBLISH says, by its topic and its payload.
ghost use Rattle.std.specs.Prelude.{◌≡◌, string_bytes, List, ℕ, Ok};
ghost use Rattle.spk_payload.specs.declared.values.Values.TheVariants as choice;
ghost use Rattle.spk_payload.specs.Reading.{payload_at};
ghost use Rattle.spk_payload.specs.View.{payload_view};
ghost use Rattle.spk_topics.specs.Spark.{named, named_at};
ghost use Rattle.spk_reading.specs.Answer.{Gives};
ghost use Rattle.spk_reading.specs.Meaning as spec;
ghost use Rattle.spk_reading.specs.View.{content_view, subject_view};

use crate::fault::ReadFault;
use crate::numbers::{sequence_number, session_number};
use crate::said::{Content, Numbered, Subject};
use spk_payload::{Payload, PayloadFault, Values, decode_as};
use spk_sequence::Kind;
use spk_topics::{Spark, TopicFault, Verb};
use std::alloc::Global;

fn payload_in(alloc: Global, bytes: &[u8]) -> Result<Payload, ReadFault>
    ensures { Gives payload_view result (spec.payload_in bytes.now) }
{
    match decode_as(alloc, Values::All, bytes) {
        Ok(payload) => Ok(payload),
        Err(PayloadFault::NoMemory) => Err(ReadFault::NoMemory),
        Err(_) => Err(ReadFault::BadPayload),
    }
}

/// A message other than an NBIRTH.
fn other_in(
    topic: String,
    group: String,
    node: String,
    subject: Subject,
    payload: Payload,
) -> Result<Content, ReadFault>
    ensures { Gives content_view result (spec.other_in (string_bytes topic) (string_bytes group)
        (string_bytes node) (subject_view subject) (payload_view payload)) }
{
    let Some(number) = sequence_number(&payload) else {
        return Err(ReadFault::NoSeq);
    };
    let kind = Kind::Other {
        stamp: payload.timestamp,
    };
    Ok(Content::Message(Numbered {
        group,
        node,
        subject,
        number,
        kind,
        topic,
        payload,
    }))
}

fn birth_in(
    topic: String,
    group: String,
    node: String,
    payload: Payload,
) -> Result<Content, ReadFault>
    ensures { Gives content_view result (spec.birth_in (string_bytes topic) (string_bytes group)
        (string_bytes node) (payload_view payload)) }
{
    let Some(number) = sequence_number(&payload) else {
        return Err(ReadFault::NoSeq);
    };
    let Some(stamp) = payload.timestamp else {
        return Err(ReadFault::NoStamp);
    };
    let Some(bd) = session_number(&payload.metrics) else {
        return Err(ReadFault::NoBdSeq);
    };
    Ok(Content::Message(Numbered {
        group,
        node,
        subject: Subject::NodeBirth,
        number,
        kind: Kind::Birth { stamp, bd },
        topic,
        payload,
    }))
}

fn death_in(group: String, node: String, payload: &Payload) -> Result<Content, ReadFault>
    ensures { Gives content_view result (spec.death_in (string_bytes group) (string_bytes node)
        (payload_view payload.now)) }
{
    match session_number(&payload.metrics) {
        Some(bd) => Ok(Content::Death { group, node, bd }),
        None => Err(ReadFault::NoBdSeq),
    }
}

/// What a message of the names says, whose payload's bytes mean this payload.
fn content_with(
    alloc: Global,
    topic: &str,
    payload: Payload,
    names: Spark,
) -> Result<Content, ReadFault>
    ensures { (bytes : List ℕ) → payload_at choice.All bytes ≡ Ok (payload_view payload)
        → Gives content_view result (spec.content_in topic.now bytes (named names)) }
{
    match names {
        Spark::Node { group, kind, node } => match kind {
            Verb::Birth => birth_in(String::from_str(alloc, topic)?, group, node, payload),
            Verb::Death => death_in(group, node, &payload),
            Verb::Data => {
                let topic = String::from_str(alloc, topic)?;
                other_in(topic, group, node, Subject::NodeData, payload)
            }
            Verb::Command => Ok(Content::Nothing),
        },
        Spark::Device {
            group,
            kind,
            node,
            device,
        } => {
            let subject = match kind {
                Verb::Birth => Subject::DeviceBirth(device),
                Verb::Death => Subject::DeviceDeath(device),
                Verb::Data => Subject::DeviceData(device),
                Verb::Command => return Ok(Content::Nothing),
            };
            other_in(
                String::from_str(alloc, topic)?,
                group,
                node,
                subject,
                payload,
            )
        }
        Spark::State { .. } => Ok(Content::Nothing),
    }
}

/// Whether the payload of a message of the names is read.
fn is_read(names: &Spark) -> bool
    ensures { result ≡ spec.is_read (named names.now) }
{
    match names {
        Spark::Node { kind, .. } | Spark::Device { kind, .. } => *kind != Verb::Command,
        Spark::State { .. } => false,
    }
}

/// What a message of the names says.
fn content_in(alloc: Global, topic: &str, bytes: &[u8], names: Spark) -> Result<Content, ReadFault>
    ensures { Gives content_view result (spec.content_in topic.now bytes.now (named names)) }
{
    if !is_read(&names) {
        return Ok(Content::Nothing);
    }
    let payload = payload_in(alloc, bytes)?;
    content_with(alloc, topic, payload, names)
}

/// What a topic names.
fn names_in(alloc: Global, topic: &str) -> Result<Spark, ReadFault>
    ensures { Gives (λ names. named names) result
        (spec.or_fault ReadFault.NotSparkplug (named_at topic.now)) }
{
    match Spark::read(alloc, topic) {
        Ok(names) => Ok(names),
        Err(TopicFault::NoMemory) => Err(ReadFault::NoMemory),
        Err(_) => Err(ReadFault::NotSparkplug),
    }
}

/// What a message on a topic says.
#[tactic(auto, unfolding(crate::specs::Meaning::content_at))]
pub(crate) fn content_at(alloc: Global, topic: &str, bytes: &[u8]) -> Result<Content, ReadFault>
    ensures { Gives content_view result (spec.content_at topic.now bytes.now) }
{
    let names = names_in(alloc, topic)?;
    content_in(alloc, topic, bytes, names)
}

/// What a message on a topic says, whose payload's bytes mean this payload.
#[tactic(auto, unfolding(crate::specs::Meaning::content_at))]
pub(crate) fn content_of(alloc: Global, topic: &str, payload: Payload) -> Result<Content, ReadFault>
    ensures { (bytes : List ℕ) → payload_at choice.All bytes ≡ Ok (payload_view payload)
        → Gives content_view result (spec.content_at topic.now bytes) }
{
    let names = names_in(alloc, topic)?;
    content_with(alloc, topic, payload, names)
}
