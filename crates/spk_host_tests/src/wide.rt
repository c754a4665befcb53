//! Wide payloads with fields that Sparkplug's schema doesn't name, of each wire type, in the payload and in its metrics: a host reads past
//! them. The bytes are by hand from MQTT 3.1.1 (chapter 3), the schema, and protobuf's encoding.
use crate::asks::{Asks, Case, begin, number, play, told};
use crate::bytes::{publish, put_field, put_part};
use spk_sequence::Step;
use std::alloc::{AllocError, Global};
use std::process::Abort;

/// How many metrics the birth has, beside its bdSeq.
const COUNT: u64 = 400;

/// Fields 20 and 2047: a number, eight bytes, three bytes, four bytes, no bytes.
const UNKNOWN: &[u8] =
    b"\xa0\x01\x05\xa1\x01\x01\x02\x03\x04\x05\x06\x07\x08\xa2\x01\x03xyz\xa5\x01\x01\x02\x03\x04\xfa\x7f\x00";

/// A metric's metadata, its properties, and an alias that is a text.
const BESIDE: &[u8] = b"\x42\x02\x08\x01\x4a\x00\x12\x01a";

/// A metric of UInt32 by its alias, of a birth with its name, between fields that don't count.
fn put_metric(
    alloc: Global,
    bytes: &mut Vec<u8>,
    is_birth: bool,
    alias: u64,
    value: u64,
) -> Result<(), AllocError> {
    let mut metric = Vec::new(alloc);
    metric.extend_from_slice(UNKNOWN)?;
    if is_birth {
        put_name(alloc, &mut metric, alias)?;
    }
    put_fields(&mut metric, alias, value)?;
    put_part(bytes, 0x12, metric.as_slice())
}

fn put_name(alloc: Global, metric: &mut Vec<u8>, alias: u64) -> Result<(), AllocError> {
    let name = format!(in alloc; "m{alias}")?;
    put_part(metric, 0x0a, name.as_bytes())
}

fn put_fields(metric: &mut Vec<u8>, alias: u64, value: u64) -> Result<(), AllocError> {
    put_field(metric, 0x10, alias)?;
    metric.extend_from_slice(BESIDE)?;
    put_field(metric, 0x20, 7)?;
    put_field(metric, 0x50, value)?;
    metric.extend_from_slice(UNKNOWN)?;
    Ok(())
}

/// A timestamp, and of a birth its bdSeq.
fn put_front(payload: &mut Vec<u8>, is_birth: bool) -> Result<(), AllocError> {
    payload.extend_from_slice(UNKNOWN)?;
    put_field(payload, 0x08, 100)?;
    if is_birth {
        payload.extend_from_slice(b"\x12\x0b\x0a\x05bdSeq \x08X\x00")?;
    }
    Ok(())
}

fn put_metrics(
    alloc: Global,
    payload: &mut Vec<u8>,
    is_birth: bool,
    more: u64,
) -> Result<(), AllocError> {
    for alias in 0..COUNT {
        put_metric(alloc, payload, is_birth, alias, alias.saturating_add(more))?;
    }
    Ok(())
}

/// A uuid, a body of 20,000 bytes, and the sequence number.
fn put_end(alloc: Global, payload: &mut Vec<u8>, number: u64) -> Result<(), AllocError> {
    payload.extend_from_slice(b"\x22\x03abc")?;
    let mut body = Vec::new(alloc);
    body.resize(20_000, 0xff)?;
    put_part(payload, 0x2a, body.as_slice())?;
    put_field(payload, 0x18, number)?;
    payload.extend_from_slice(UNKNOWN)?;
    Ok(())
}

/// An NBIRTH of all metrics, or NDATA of each, its value so much more than its alias, with a uuid and a body of 20,000 bytes.
fn wide(alloc: Global, is_birth: bool, number: u64, more: u64) -> Result<Vec<u8>, AllocError> {
    let mut payload = Vec::new(alloc);
    put_front(&mut payload, is_birth)?;
    put_metrics(alloc, &mut payload, is_birth, more)?;
    put_end(alloc, &mut payload, number)?;
    let topic = if is_birth {
        "spBv1.0/G/NBIRTH/N"
    } else {
        "spBv1.0/G/NDATA/N"
    };
    publish(alloc, topic, None, payload.as_slice())
}

/// Whether an NBIRTH or NDATA is told, it alone is consumed, and no rebirth is asked for.
fn is_consumed(
    rt: &(impl Abort + AllocGlobal),
    host: &mut impl Asks,
    is_birth: bool,
    number: u64,
    more: u64,
) -> bool {
    let packet = match wide(rt.alloc(), is_birth, number, more) {
        Ok(made) => made,
        Err(_) => wide(rt.alloc(), is_birth, number, more).expect(rt, "memory is there again")
    };
    is_alone(host, packet.as_slice())
}

fn is_alone(host: &mut impl Asks, packet: &[u8]) -> bool {
    match told(host, packet, 9) {
        Ok(out) => {
            out.steps.as_slice() == [Step::Consumed(1)].as_slice()
                && out.consumed.len() == 1
                && out.rebirths.len() == 0
        }
        Err(_) => false,
    }
}

/// The metrics that are looked at, and their aliases.
static LOOKED_AT: [(&str, u64); 3] = [("m0", 0), ("m200", 200), ("m399", 399)];

fn are_shown(host: &impl Asks, more: u64) -> bool {
    for (name, alias) in &LOOKED_AT {
        if number(host.shown(name)) != Some(alias.saturating_add(more)) {
            return false;
        }
    }
    true
}

#[derive(Clone, Copy)]
struct OtherFields;

impl Case for OtherFields {
    fn play(&self, rt: &(impl Abort + AllocGlobal), host: &mut impl Asks) {
        begin(rt, host, 5);
        for (is_birth, count, more) in [(true, 0, 1), (false, 1, 7)] {
            assert!(rt; is_consumed(rt, host, is_birth, count, more));
            assert!(rt; are_shown(host, more));
        }
        assert!(rt; host.shown("m400").is_none());
    }
}

#[test]
fn fields_that_the_schema_does_not_name_are_read_past(rt: HostRuntime) {
    play(&rt, 2000, 64, &OtherFields);
}
