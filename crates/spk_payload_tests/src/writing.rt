//! Payloads written, and copied.
use crate::payloads::{BIRTH, DRAINED, FLOAT, Means, NODE_BIRTH, NODE_DATA, REBIRTH, decoded};
use spk_payload::{Metric, Payload, PayloadFault, Raw};
use std::alloc::{AllocError, Global};
use std::process::Abort;
use std::test::Fail;

/// Bytes, and those that their payload is written as: what any writer may have spelled in another way is written in the canonical one.
static WRITTEN: [(&[u8], &[u8]); 8] = [
    (&[], &[]),
    (BIRTH, BIRTH),
    (DRAINED, DRAINED),
    (REBIRTH, REBIRTH),
    (NODE_BIRTH, NODE_BIRTH),
    (NODE_DATA, NODE_DATA),
    (
        b"\x18\x81\x00\x48\x01\x08\x05\x08\x07\x12\x04\x50\x03\x10\x02",
        b"\x08\x07\x12\x04\x10\x02\x50\x03\x18\x01",
    ),
    // texts, bytes and flags
    (
        b"\x12\x0f\x28\x01\x30\x00\x38\x01\x7a\x02hi\x82\x01\x02\x00\xff\x12\x04\x7a\x02hi\x12\x05\x82\x01\x02\x00\xff",
        b"\x12\x0b\x28\x01\x30\x00\x38\x01\x82\x01\x02\x00\xff\x12\x04\x7a\x02hi\x12\x05\x82\x01\x02\x00\xff",
    ),
];

/// Whether a payload is written as these bytes, which mean it, and is the same in a copy.
pub(crate) fn is_written_and_copied<T: Means>(alloc: Global, payload: &T, bytes: &[u8]) -> bool {
    payload.is_written_as(alloc, bytes)
        && payload.is_meant_by(alloc, bytes)
        && payload.is_copied(alloc)
}

fn is_canonical(rt: &(impl Abort + AllocGlobal), bytes: &[u8], canonical: &[u8]) -> bool {
    is_written_and_copied(rt.alloc(), &decoded(rt, bytes), canonical)
}

#[test]
fn payloads_are_written_canonically_and_read_again(rt: HostRuntime) {
    for (bytes, canonical) in &WRITTEN {
        assert!(rt; is_canonical(&rt, bytes, canonical), "of {bytes:?}");
    }
}

/// Whether a payload with a value that isn't read is refused, and copied all the same.
fn is_refused<T: Means>(alloc: Global, payload: &T) -> bool {
    payload.refusal(alloc) == Some(PayloadFault::HasOther) && payload.is_copied(alloc)
}

#[test]
fn a_float_is_not_written(rt: HostRuntime) {
    assert!(rt; is_refused(rt.alloc(), &decoded(&rt, FLOAT)));
}

/// The NBIRTH's payload without seq, field by field.
fn built(alloc: Global) -> Result<Payload, AllocError> {
    let mut metrics = Vec::new(alloc);
    metrics.push(Metric {
        name: Some(String::from_str(alloc, "bdSeq")?),
        alias: None,
        timestamp: None,
        datatype: Some(4),
        historical: None,
        transient: None,
        null: None,
        value: Some(Raw::Long(0)),
    })?;
    Ok(Payload {
        timestamp: Some(5),
        metrics,
        seq: None,
    })
}

/// Whether a payload is written as that birth, and its metrics are the same in a copy.
fn is_birth<T: Means>(alloc: Global, payload: &T) -> bool {
    payload.is_written_as(alloc, BIRTH) && payload.are_metrics_copied(alloc)
}

#[test]
fn a_payload_is_written_from_its_fields(rt: HostRuntime) -> Result<(), Fail> {
    let payload = match built(rt.alloc()) {
        Ok(payload) => payload,
        Err(_) => built(rt.alloc())?,
    };
    assert!(rt; is_birth(rt.alloc(), &payload));
    Ok(())
}
