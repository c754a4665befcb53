//! Payloads, written in their canonical spelling.

ghost use Rattle.std.specs.Prelude.{◌≡◌, ◌⊎◌, ◌+◌, ◌%◌, ◌^◌, ◌<◌, ◌++◌, length, take, map, All, Some, OnOk, IfOk, IfErr, IfSome, string_bytes};
ghost use Rattle.std.specs.List.{flat_map};
ghost use Rattle.std.specs.Option.{option_map};
ghost use Rattle.std.specs.Str.{IsUtf8};
ghost use Rattle.spk_protobuf.specs.Spelling.{bytes_field, varint};
ghost use Rattle.spk_payload.specs.Meaning.{Other, MeansPayload};
ghost use Rattle.spk_payload.specs.Spelling as spec;
ghost use Rattle.spk_payload.specs.View.{content_of, metric_view, payload_view};

use crate::fault::PayloadFault;
use crate::metric::{Metric, Raw};
use crate::payload::Payload;
use spk_protobuf::{put_bytes, put_varint, varint_size};
use std::alloc::{AllocError, Global};

/// A field of wire type 0: its tag and its number.
fn put_number(out: &mut Vec<u8>, tag: u64, number: u64) -> Result<(), AllocError>
    ensures ok { OnOk result (out.new.items ≡ out.old.items ++ spec.number_field tag number) }
    ensures fits { number < 2 ^ 64 }
{
    put_varint(out, tag)?;
    put_varint(out, number)
}

fn put_long(out: &mut Vec<u8>, tag: u64, number: Option<u64>) -> Result<(), AllocError>
    ensures ok { OnOk result
        (out.new.items ≡ out.old.items ++ spec.if_there (spec.number_field tag) number) }
    ensures fits { IfSome number (λ n. n < 2 ^ 64) }
{
    match number {
        Some(number) => put_number(out, tag, number),
        None => Ok(()),
    }
}

fn put_int(out: &mut Vec<u8>, tag: u64, number: Option<u32>) -> Result<(), AllocError>
    ensures ok { OnOk result
        (out.new.items ≡ out.old.items ++ spec.if_there (spec.number_field tag) number) }
    ensures fits { IfSome number (λ n. n < 2 ^ 32) }
{
    match number {
        Some(number) => put_number(out, tag, u64::from(number)),
        None => Ok(()),
    }
}

/// 1 for true, 0 for false.
fn bit(flag: bool) -> u64
    ensures { result ≡ spec.bit flag }
{
    if flag { 1 } else { 0 }
}

fn put_flag(out: &mut Vec<u8>, tag: u64, flag: Option<bool>) -> Result<(), AllocError>
    ensures { OnOk result (out.new.items
        ≡ out.old.items ++ spec.if_there (λ b. spec.number_field tag (spec.bit b)) flag) }
{
    match flag {
        Some(flag) => put_number(out, tag, bit(flag)),
        None => Ok(()),
    }
}

fn put_text(out: &mut Vec<u8>, field: u64, text: &str) -> Result<(), AllocError>
    ensures ok { OnOk result (out.new.items ≡ out.old.items ++ bytes_field field text.now) }
    ensures fits { IsUtf8 text.now × (length text.now < 2 ^ 64) }
{
    put_bytes(out, field, text.as_bytes())
}

fn put_octets(out: &mut Vec<u8>, field: u64, bytes: &[u8]) -> Result<(), AllocError>
    ensures ok { OnOk result (out.new.items ≡ out.old.items ++ bytes_field field bytes.now) }
    ensures fits { length bytes.now < 2 ^ 64 }
{
    put_bytes(out, field, bytes)
}

/// A field of wire type 1 or 5: its tag and its bytes.
fn put_fixed(out: &mut Vec<u8>, tag: u64, bytes: &[u8]) -> Result<(), AllocError>
    ensures { OnOk result (out.new.items ≡ out.old.items ++ varint tag ++ bytes.now) }
{
    put_varint(out, tag)?;
    out.extend_from_slice(bytes)
}

fn put_name(out: &mut Vec<u8>, name: &Option<String>) -> Result<(), AllocError>
    ensures ok { OnOk result (out.new.items
        ≡ out.old.items ++ spec.if_there (bytes_field 1) (option_map string_bytes name.now)) }
    ensures fits { IfSome (option_map string_bytes name.now)
        (λ bytes. IsUtf8 bytes × (length bytes < 2 ^ 64)) }
{
    match name {
        Some(name) => put_text(out, 1, name.as_str()),
        None => Ok(()),
    }
}

fn put_raw(out: &mut Vec<u8>, raw: &Raw) -> Result<(), PayloadFault>
    ensures ok { OnOk result
        (out.new.items ≡ out.old.items ++ spec.content_spelling (content_of raw.now)) }
    ensures fits { OnOk result (spec.ContentFits (content_of raw.now)) }
    ensures fault { IfErr result (λ f. (f ≡ PayloadFault.NoMemory)
        ⊎ ((f ≡ PayloadFault.HasOther) × (content_of raw.now ≡ Other))) }
{
    match raw {
        Raw::Int(number) => put_number(out, 10 * 8, u64::from(*number))?,
        Raw::Long(number) => put_number(out, 11 * 8, *number)?,
        Raw::Flag(flag) => put_number(out, 14 * 8, bit(*flag))?,
        Raw::Words(text) => put_text(out, 15, text.as_str())?,
        Raw::Octets(bytes) => put_octets(out, 16, bytes)?,
        Raw::Float(bits) => put_fixed(out, 12 * 8 + 5, &bits.to_le_bytes())?,
        Raw::Double(bits) => put_fixed(out, 13 * 8 + 1, &bits.to_le_bytes())?,
        Raw::Other => return Err(PayloadFault::HasOther),
    }
    Ok(())
}

fn put_value(out: &mut Vec<u8>, value: &Option<Raw>) -> Result<(), PayloadFault>
    ensures ok { OnOk result (out.new.items
        ≡ out.old.items ++ spec.if_there spec.content_spelling (option_map content_of value.now)) }
    ensures fits { OnOk result (IfSome (option_map content_of value.now) spec.ContentFits) }
    ensures fault { IfErr result (λ f. (f ≡ PayloadFault.NoMemory)
        ⊎ ((f ≡ PayloadFault.HasOther) × (option_map content_of value.now ≡ Some Other))) }
{
    match value {
        Some(raw) => put_raw(out, raw),
        None => Ok(()),
    }
}

/// The fields of a metric, in ascending number.
#[tactic(auto, unfolding(crate::specs::Spelling::metric_spelling))]
fn put_fields(out: &mut Vec<u8>, metric: &Metric) -> Result<(), PayloadFault>
    ensures ok { OnOk result
        (out.new.items ≡ out.old.items ++ spec.metric_spelling (metric_view metric.now)) }
    ensures fits { OnOk result (spec.MetricFits (metric_view metric.now)) }
    ensures fault { IfErr result (λ f. (f ≡ PayloadFault.NoMemory)
        ⊎ ((f ≡ PayloadFault.HasOther) × ((metric_view metric.now).value ≡ Some Other))) }
{
    put_name(out, &metric.name)?;
    put_long(out, 2 * 8, metric.alias)?;
    put_long(out, 3 * 8, metric.timestamp)?;
    put_int(out, 4 * 8, metric.datatype)?;
    put_flag(out, 5 * 8, metric.historical)?;
    put_flag(out, 6 * 8, metric.transient)?;
    put_flag(out, 7 * 8, metric.null)?;
    put_value(out, &metric.value)
}

// ---- sizes, modulo 2^64: a vector has fewer bytes than 2^63, so where a size wraps no metric of it is written

fn number_size(tag: u64, number: u64) -> u64
    ensures { result ≡ length (spec.number_field tag number) }
{
    (varint_size(tag) + varint_size(number)) as u64
}

fn long_size(tag: u64, number: Option<u64>) -> u64
    ensures { result ≡ length (spec.if_there (spec.number_field tag) number) }
{
    match number {
        Some(number) => number_size(tag, number),
        None => 0,
    }
}

fn int_size(tag: u64, number: Option<u32>) -> u64
    ensures { result ≡ length (spec.if_there (spec.number_field tag) number) }
{
    match number {
        Some(number) => number_size(tag, u64::from(number)),
        None => 0,
    }
}

fn flag_size(tag: u64, flag: Option<bool>) -> u64
    ensures { result ≡ length (spec.if_there (λ b. spec.number_field tag (spec.bit b)) flag) }
{
    match flag {
        Some(flag) => number_size(tag, bit(flag)),
        None => 0,
    }
}

#[tactic(auto, unfolding(spk_protobuf::specs::Spelling::bytes_field))]
fn bytes_size(field: u64, bytes: &[u8]) -> u64
    ensures { result ≡ length (bytes_field field bytes.now) % 2 ^ 64 }
{
    let len = bytes.len() as u64;
    let tag = field.wrapping_mul(8).wrapping_add(2);
    let head = (varint_size(tag) + varint_size(len)) as u64;
    head.wrapping_add(len)
}

fn name_size(name: &Option<String>) -> u64
    ensures { result
        ≡ length (spec.if_there (bytes_field 1) (option_map string_bytes name.now)) % 2 ^ 64 }
{
    match name {
        Some(name) => bytes_size(1, name.as_bytes()),
        None => 0,
    }
}

fn raw_size(raw: &Raw) -> u64
    ensures { result ≡ length (spec.content_spelling (content_of raw.now)) % 2 ^ 64 }
{
    match raw {
        Raw::Int(number) => number_size(10 * 8, u64::from(*number)),
        Raw::Long(number) => number_size(11 * 8, *number),
        Raw::Flag(flag) => number_size(14 * 8, bit(*flag)),
        Raw::Words(text) => bytes_size(15, text.as_bytes()),
        Raw::Octets(bytes) => bytes_size(16, bytes),
        Raw::Float(_) => (varint_size(12 * 8 + 5) + 4) as u64,
        Raw::Double(_) => (varint_size(13 * 8 + 1) + 8) as u64,
        Raw::Other => 0,
    }
}

fn value_size(value: &Option<Raw>) -> u64
    ensures { result
        ≡ length (spec.if_there spec.content_spelling (option_map content_of value.now)) % 2 ^ 64 }
{
    match value {
        Some(raw) => raw_size(raw),
        None => 0,
    }
}

#[tactic(auto, unfolding(crate::specs::Spelling::metric_spelling))]
fn metric_size(metric: &Metric) -> u64
    ensures { result ≡ length (spec.metric_spelling (metric_view metric.now)) % 2 ^ 64 }
{
    name_size(&metric.name)
        .wrapping_add(long_size(2 * 8, metric.alias))
        .wrapping_add(long_size(3 * 8, metric.timestamp))
        .wrapping_add(int_size(4 * 8, metric.datatype))
        .wrapping_add(flag_size(5 * 8, metric.historical))
        .wrapping_add(flag_size(6 * 8, metric.transient))
        .wrapping_add(flag_size(7 * 8, metric.null))
        .wrapping_add(value_size(&metric.value))
}

// ---- metrics and payloads

fn put_metric(out: &mut Vec<u8>, metric: &Metric) -> Result<(), PayloadFault>
    ensures ok { OnOk result (out.new.items
        ≡ out.old.items ++ bytes_field 2 (spec.metric_spelling (metric_view metric.now))) }
    ensures fits { OnOk result (spec.MetricFits (metric_view metric.now)) }
    ensures fault { IfErr result (λ f. (f ≡ PayloadFault.NoMemory)
        ⊎ ((f ≡ PayloadFault.HasOther) × ((metric_view metric.now).value ≡ Some Other))) }
{
    put_varint(out, 2 * 8 + 2)?;
    put_varint(out, metric_size(metric))?;
    put_fields(out, metric)
}

fn put_metrics(out: &mut Vec<u8>, metrics: &[Metric]) -> Result<(), PayloadFault>
    ensures ok { OnOk result (out.new.items ≡ out.old.items
        ++ flat_map (λ m. bytes_field 2 (spec.metric_spelling m)) (map metric_view metrics.now)) }
    ensures fits { OnOk result (All spec.MetricFits (map metric_view metrics.now)) }
    ensures fault { IfErr result (λ f. (f ≡ PayloadFault.NoMemory)
        ⊎ ((f ≡ PayloadFault.HasOther) × spec.HoldsOther (map metric_view metrics.now))) }
{
    for metric in metrics {
        put_metric(out, metric)?;
    }
    Ok(())
}

/// The bytes that are asked for at first, enough for a payload of one metric without a name.
const FEW: usize = 64;

/// And for each metric, up to so many of them, about as many as one without a name takes.
const EACH: usize = 16;

const MANY: usize = 64;

/// The one canonical spelling of a payload (docs/DEFINITIONS.md): fields in ascending number, each that is there,
/// zero and false too, shortest varints, metrics in order. `laws::canonical` says that it means the payload and
/// nothing else, so `decode` reads it as what was written.
///
/// HasOther (8) exactly where a metric's value is `Raw::Other`, whose value isn't known; NoMemory may come first.
#[tactic(auto, unfolding(crate::specs::Spelling::spelling))]
pub fn encode(alloc: Global, payload: &Payload) -> Result<Vec<u8>, PayloadFault>
    // What is written is the canonical spelling, of a payload that has one.
    ensures spelled { IfOk result (λ v. v.items ≡ spec.spelling (payload_view payload.now)) }
    ensures fits { OnOk result (spec.PayloadFits (payload_view payload.now)) }
    // A refusal says why there is none.
    ensures fault { IfErr result (λ f. (f ≡ PayloadFault.NoMemory)
        ⊎ ((f ≡ PayloadFault.HasOther) × spec.HoldsOther (payload_view payload.now).metrics)) }
{
    let room = payload.metrics.len().min(MANY).saturating_mul(EACH);
    let mut out = Vec::with_capacity(alloc, room.saturating_add(FEW))?;
    put_long(&mut out, 8, payload.timestamp)?;
    put_metrics(&mut out, &payload.metrics)?;
    put_long(&mut out, 3 * 8, payload.seq)?;
    Ok(out)
}
