//! Copies of values, metrics and payloads.

ghost use Rattle.std.specs.Prelude.{◌≡◌, ◌<◌, IfOk, IsTrue, OnErr, is_some, length, map, option_map, string_bytes};
ghost use Rattle.spk_payload.specs.Meaning.{has_text_or_bytes, is_text_or_bytes, is_texted};
ghost use Rattle.spk_payload.specs.Typing as typing;
ghost use Rattle.spk_payload.specs.Typing.{typed_view};
ghost use Rattle.spk_payload.specs.View.{content_of, metric_view, payload_view};

use crate::metric::{Metric, Raw};
use crate::payload::Payload;
use crate::typing::Value;
use std::alloc::{AllocError, Global};

fn copied_text(alloc: Global, text: &String) -> Result<String, AllocError>
    ensures { IfOk result (λ t. string_bytes t ≡ string_bytes text.now) }
{
    String::from_str(alloc, text.as_str())
}

fn copied_name(alloc: Global, name: &Option<String>) -> Result<Option<String>, AllocError>
    ensures same { IfOk result (λ n. option_map string_bytes n ≡ option_map string_bytes name.now) }
    ensures memory { OnErr result (IsTrue (is_some (option_map string_bytes name.now))) }
{
    match name {
        Some(name) => Ok(Some(copied_text(alloc, name)?)),
        None => Ok(None),
    }
}

fn copied_value(alloc: Global, value: &Option<Raw>) -> Result<Option<Raw>, AllocError>
    ensures same { IfOk result (λ v. option_map content_of v ≡ option_map content_of value.now) }
    ensures memory { OnErr result (IsTrue (has_text_or_bytes (option_map content_of value.now))) }
{
    match value {
        Some(raw) => Ok(Some(raw.copy(alloc)?)),
        None => Ok(None),
    }
}

impl Raw {
    /// An equal value.
    pub fn copy(&self, alloc: Global) -> Result<Raw, AllocError>
        ensures same { IfOk result (λ raw. content_of raw ≡ content_of self.now) }
        // Numbers, truth values and what has no known value take no memory.
        ensures memory { OnErr result (IsTrue (is_text_or_bytes (content_of self.now))) }
    {
        match self {
            Raw::Int(number) => Ok(Raw::Int(*number)),
            Raw::Long(number) => Ok(Raw::Long(*number)),
            Raw::Flag(flag) => Ok(Raw::Flag(*flag)),
            Raw::Words(text) => Ok(Raw::Words(copied_text(alloc, text)?)),
            Raw::Octets(bytes) => Ok(Raw::Octets(Vec::from_slice(alloc, bytes)?)),
            Raw::Float(bits) => Ok(Raw::Float(*bits)),
            Raw::Double(bits) => Ok(Raw::Double(*bits)),
            Raw::Other => Ok(Raw::Other),
        }
    }
}

impl Value {
    /// An equal value.
    pub fn copy(&self, alloc: Global) -> Result<Value, AllocError>
        ensures same { IfOk result (λ value. typed_view value ≡ typed_view self.now) }
        // Numbers and truth values take no memory.
        ensures memory { OnErr result (IsTrue (typing.is_text_or_bytes (typed_view self.now))) }
    {
        match self {
            Value::Signed(number) => Ok(Value::Signed(*number)),
            Value::Unsigned(number) => Ok(Value::Unsigned(*number)),
            Value::Flag(flag) => Ok(Value::Flag(*flag)),
            Value::Words(text) => Ok(Value::Words(copied_text(alloc, text)?)),
            Value::Octets(bytes) => Ok(Value::Octets(Vec::from_slice(alloc, bytes)?)),
            Value::Float(bits) => Ok(Value::Float(*bits)),
            Value::Double(bits) => Ok(Value::Double(*bits)),
        }
    }
}

impl Metric {
    /// An equal metric.
    pub fn copy(&self, alloc: Global) -> Result<Metric, AllocError>
        ensures same { IfOk result (λ metric. metric_view metric ≡ metric_view self.now) }
        // Without a name, and without a text or bytes as its value, it takes no memory.
        ensures memory { OnErr result (IsTrue (is_texted (metric_view self.now))) }
    {
        let name = copied_name(alloc, &self.name)?;
        let value = copied_value(alloc, &self.value)?;
        Ok(Metric {
            name,
            alias: self.alias,
            timestamp: self.timestamp,
            datatype: self.datatype,
            historical: self.historical,
            transient: self.transient,
            null: self.null,
            value,
        })
    }
}

fn copied_metrics(alloc: Global, metrics: &[Metric]) -> Result<Vec<Metric>, AllocError>
    ensures same { IfOk result (λ copies. map metric_view copies.items
        ≡ map metric_view metrics.now) }
    ensures memory { OnErr result (0 < length metrics.now) }
{
    let mut copies = Vec::with_capacity(alloc, metrics.len())?;
    for metric in metrics {
        copies.push(metric.copy(alloc)?)?;
    }
    Ok(copies)
}

impl Payload {
    /// An equal payload.
    pub fn copy(&self, alloc: Global) -> Result<Payload, AllocError>
        ensures same { IfOk result (λ payload. payload_view payload ≡ payload_view self.now) }
        // Without metrics it takes no memory.
        ensures memory { OnErr result (0 < length (payload_view self.now).metrics) }
    {
        let metrics = copied_metrics(alloc, &self.metrics)?;
        Ok(Payload {
            timestamp: self.timestamp,
            metrics,
            seq: self.seq,
        })
    }
}
