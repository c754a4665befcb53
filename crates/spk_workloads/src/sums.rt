//! What values, metrics and messages add to a sum: all that they say.

use crate::digest::Digest;
use spk_host::{Out, Taken};
use spk_payload::{Metric, Payload, Raw, Value};
use spk_sequence::{Kind, Step};
use spk_topics::{Spark, Verb};

/// A text.
pub(crate) fn sum_text(text: &str, digest: &mut Digest) {
    digest.bytes(text.as_bytes());
}

/// A number that may be missing.
pub(crate) fn sum_number(number: Option<u64>, digest: &mut Digest) {
    match number {
        None => digest.number(0),
        Some(number) => {
            digest.number(1);
            digest.number(number);
        }
    }
}

/// A flag that may be missing.
fn sum_flag(flag: Option<bool>, digest: &mut Digest) {
    match flag {
        None => digest.number(0),
        Some(false) => digest.number(1),
        Some(true) => digest.number(2),
    }
}

/// A value with a type.
pub(crate) fn sum_value(value: &Value, digest: &mut Digest) {
    match value {
        Value::Signed(number) => {
            digest.number(if *number < 0 { 1 } else { 2 });
            digest.number(number.unsigned_abs());
        }
        Value::Unsigned(number) => {
            digest.number(3);
            digest.number(*number);
        }
        Value::Flag(flag) => digest.number(if *flag { 5 } else { 4 }),
        Value::Words(text) => {
            digest.number(6);
            sum_text(text.as_str(), digest);
        }
        Value::Octets(bytes) => {
            digest.number(7);
            digest.bytes(bytes.as_slice());
        }
        Value::Float(bits) => {
            digest.number(8);
            digest.number(u64::from(*bits));
        }
        Value::Double(bits) => {
            digest.number(9);
            digest.number(*bits);
        }
    }
}

/// A value as it was read.
fn sum_raw(value: &Raw, digest: &mut Digest) {
    match value {
        Raw::Int(number) => {
            digest.number(1);
            digest.number(u64::from(*number));
        }
        Raw::Long(number) => {
            digest.number(2);
            digest.number(*number);
        }
        Raw::Flag(flag) => digest.number(if *flag { 4 } else { 3 }),
        Raw::Words(text) => {
            digest.number(5);
            sum_text(text.as_str(), digest);
        }
        Raw::Octets(bytes) => {
            digest.number(6);
            digest.bytes(bytes.as_slice());
        }
        Raw::Float(bits) => {
            digest.number(8);
            digest.number(u64::from(*bits));
        }
        Raw::Double(bits) => {
            digest.number(9);
            digest.number(*bits);
        }
        Raw::Other => digest.number(7),
    }
}

/// A metric as it was read.
fn sum_metric(metric: &Metric, digest: &mut Digest) {
    match &metric.name {
        None => digest.number(0),
        Some(name) => {
            digest.number(1);
            sum_text(name.as_str(), digest);
        }
    }
    sum_number(metric.alias, digest);
    sum_number(metric.timestamp, digest);
    sum_number(metric.datatype.map(u64::from), digest);
    sum_flag(metric.historical, digest);
    sum_flag(metric.transient, digest);
    sum_flag(metric.null, digest);
    match &metric.value {
        None => digest.number(0),
        Some(value) => sum_raw(value, digest),
    }
}

/// A payload as it was read.
fn sum_payload(payload: &Payload, digest: &mut Digest) {
    sum_number(payload.timestamp, digest);
    sum_number(payload.seq, digest);
    digest.number(payload.metrics.len() as u64);
    for metric in &payload.metrics {
        sum_metric(metric, digest);
    }
}

/// What the order of a node's messages asks of one.
fn sum_kind(kind: Kind, digest: &mut Digest) {
    match kind {
        Kind::Birth { stamp, bd } => {
            digest.number(1);
            digest.number(stamp);
            digest.number(u64::from(bd));
        }
        Kind::Other { stamp } => {
            digest.number(2);
            sum_number(stamp, digest);
        }
    }
}

/// A message that was consumed. Its topic has the names of its group, node and device, and what it is.
fn sum_taken(taken: &Taken, digest: &mut Digest) {
    sum_text(taken.topic.as_str(), digest);
    digest.number(u64::from(taken.number));
    sum_kind(taken.kind, digest);
    sum_payload(&taken.payload, digest);
}

/// A number for what became of a message.
fn number_of(step: Step) -> u64 {
    match step {
        Step::Consumed(count) => u64::from(count),
        Step::Held => 300,
        Step::Old => 301,
        Step::Gap => 302,
        Step::OldBirth => 303,
        Step::DeadSession => 304,
        Step::NotLive => 305,
    }
}

/// A number for what a message is.
fn number_of_verb(verb: Verb) -> u64 {
    match verb {
        Verb::Birth => 1,
        Verb::Death => 2,
        Verb::Data => 3,
        Verb::Command => 4,
    }
}

/// A topic.
fn sum_topic(topic: &Spark, digest: &mut Digest) {
    match topic {
        Spark::Node { group, kind, node } => {
            digest.number(1);
            sum_text(group.as_str(), digest);
            digest.number(number_of_verb(*kind));
            sum_text(node.as_str(), digest);
        }
        Spark::Device {
            group,
            kind,
            node,
            device,
        } => {
            digest.number(2);
            sum_text(group.as_str(), digest);
            digest.number(number_of_verb(*kind));
            sum_text(node.as_str(), digest);
            sum_text(device.as_str(), digest);
        }
        Spark::State { host } => {
            digest.number(3);
            sum_text(host.as_str(), digest);
        }
    }
}

/// All that a host answered.
pub(crate) fn sum_out(out: &Out, digest: &mut Digest) {
    digest.number(out.steps.len() as u64);
    for step in &out.steps {
        digest.number(number_of(*step));
    }
    digest.number(out.consumed.len() as u64);
    for taken in &out.consumed {
        sum_taken(taken, digest);
    }
    digest.number(out.rebirths.len() as u64);
    for topic in &out.rebirths {
        sum_topic(topic, digest);
    }
    digest.number(out.packets.len() as u64);
    for packet in &out.packets {
        digest.bytes(packet.as_slice());
    }
}
