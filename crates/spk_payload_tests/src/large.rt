//! Payloads of 100,000 metrics and of a megabyte, their bytes by hand from the schema.
use crate::payloads::{Means, decoded};
use crate::writing::is_written_and_copied;
use std::alloc::{AllocError, Global};
use std::test::Fail;

/// 100,000 metrics of four bytes: `long_value` 5.
fn many(alloc: Global) -> Result<Vec<u8>, AllocError> {
    let mut bytes = Vec::new(alloc);
    for _metric in 0..100_000 {
        bytes.extend_from_slice(b"\x12\x02\x58\x05")?;
    }
    Ok(bytes)
}

/// A metric of 1,048,580 bytes: `bytes_value` of 1,048,575 bytes of 7.
fn long(alloc: Global) -> Result<Vec<u8>, AllocError> {
    let mut bytes = Vec::new(alloc);
    bytes.extend_from_slice(b"\x12\x84\x80\x40\x82\x01\xff\xff\x3f")?;
    bytes.resize(9 + 1_048_575, 7)?;
    Ok(bytes)
}

/// Whether a payload has so many metrics, is written as these bytes, and is the same in a copy.
fn is_whole<T: Means>(alloc: Global, payload: &T, bytes: &[u8], count: usize) -> bool {
    payload.numbers() == (None, None, count) && is_written_and_copied(alloc, payload, bytes)
}

#[test]
fn a_payload_of_many_metrics_is_read_written_and_copied(rt: HostRuntime) -> Result<(), Fail> {
    let bytes = match many(rt.alloc()) {
        Ok(bytes) => bytes,
        Err(_) => many(rt.alloc())?,
    };
    assert!(rt; is_whole(rt.alloc(), &decoded(&rt, &bytes), &bytes, 100_000));
    Ok(())
}

#[test]
fn a_payload_of_a_megabyte_is_read_written_and_copied(rt: HostRuntime) -> Result<(), Fail> {
    let bytes = match long(rt.alloc()) {
        Ok(bytes) => bytes,
        Err(_) => long(rt.alloc())?,
    };
    assert!(rt; is_whole(rt.alloc(), &decoded(&rt, &bytes), &bytes, 1));
    Ok(())
}
