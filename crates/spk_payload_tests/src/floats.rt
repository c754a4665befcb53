//! Floats and doubles, by their bits (IEEE 754 binary32 and binary64), and the choice of whether they are read.
use crate::payloads::{Spelled, is_value, written_again};
use spk_payload::{Payload, PayloadFault, Values, decode, decode_as};
use std::alloc::Global;
use std::process::Abort;

/// A payload of one metric with a value and nothing else, and what the value is.
struct Pattern {
    shows: &'static str,
    bytes: &'static [u8],
    value: Spelled,
}

static PATTERNS: [Pattern; 12] = [
    Pattern {
        shows: "1",
        bytes: b"\x12\x05\x65\x00\x00\x80\x3f",
        value: Spelled::Float(0x3f80_0000),
    },
    Pattern {
        shows: "-0",
        bytes: b"\x12\x05\x65\x00\x00\x00\x80",
        value: Spelled::Float(0x8000_0000),
    },
    Pattern {
        shows: "a NaN with its payload",
        bytes: b"\x12\x05\x65\x01\x02\xc0\x7f",
        value: Spelled::Float(0x7fc0_0201),
    },
    Pattern {
        shows: "-Infinity",
        bytes: b"\x12\x05\x65\x00\x00\x80\xff",
        value: Spelled::Float(0xff80_0000),
    },
    Pattern {
        shows: "the least Float above 0",
        bytes: b"\x12\x05\x65\x01\x00\x00\x00",
        value: Spelled::Float(1),
    },
    Pattern {
        shows: "the greatest Float",
        bytes: b"\x12\x05\x65\xff\xff\x7f\x7f",
        value: Spelled::Float(0x7f7f_ffff),
    },
    Pattern {
        shows: "the double 1",
        bytes: b"\x12\x09\x69\x00\x00\x00\x00\x00\x00\xf0\x3f",
        value: Spelled::Double(0x3ff0_0000_0000_0000),
    },
    Pattern {
        shows: "the double 5.1",
        bytes: b"\x12\x09\x69\x66\x66\x66\x66\x66\x66\x14\x40",
        value: Spelled::Double(0x4014_6666_6666_6666),
    },
    Pattern {
        shows: "the double -0",
        bytes: b"\x12\x09\x69\x00\x00\x00\x00\x00\x00\x00\x80",
        value: Spelled::Double(0x8000_0000_0000_0000),
    },
    Pattern {
        shows: "a double NaN with its payload",
        bytes: b"\x12\x09\x69\x01\x02\x03\x00\x00\x00\xf8\x7f",
        value: Spelled::Double(0x7ff8_0000_0003_0201),
    },
    Pattern {
        shows: "the least double above 0",
        bytes: b"\x12\x09\x69\x01\x00\x00\x00\x00\x00\x00\x00",
        value: Spelled::Double(1),
    },
    Pattern {
        shows: "the greatest double",
        bytes: b"\x12\x09\x69\xff\xff\xff\xff\xff\xff\xef\x7f",
        value: Spelled::Double(0x7fef_ffff_ffff_ffff),
    },
];

/// What the bytes mean by a choice. Where memory was refused the call is made again.
fn read_again(alloc: Global, values: Values, bytes: &[u8]) -> Result<Payload, PayloadFault> {
    match decode_as(alloc, values, bytes) {
        Err(PayloadFault::NoMemory) => decode_as(alloc, values, bytes),
        answer => answer,
    }
}

fn plain_again(alloc: Global, bytes: &[u8]) -> Result<Payload, PayloadFault> {
    match decode(alloc, bytes) {
        Err(PayloadFault::NoMemory) => decode(alloc, bytes),
        answer => answer,
    }
}

/// Whether its one metric has this value.
fn holds(payload: &Payload, value: Spelled) -> bool {
    match payload.metrics.get(0) {
        Some(metric) => payload.metrics.len() == 1 && is_value(&metric.value, Some(value)),
        None => false,
    }
}

/// Whether all values are read, and written as they were.
fn is_read_by_all(alloc: Global, pattern: &Pattern) -> bool {
    let Ok(payload) = read_again(alloc, Values::All, pattern.bytes) else {
        return false;
    };
    let Ok(written) = written_again(alloc, &payload) else {
        return false;
    };
    holds(&payload, pattern.value) && written.as_slice() == pattern.bytes
}

/// Whether by whole values alone it is there, isn't read, and so isn't written.
fn is_unread_by_whole(alloc: Global, pattern: &Pattern) -> bool {
    let Ok(payload) = read_again(alloc, Values::Whole, pattern.bytes) else {
        return false;
    };
    let Ok(plain) = plain_again(alloc, pattern.bytes) else {
        return false;
    };
    holds(&payload, Spelled::Other)
        && plain == payload
        && written_again(alloc, &payload).err() == Some(PayloadFault::HasOther)
}

#[test]
fn floats_and_doubles_are_their_bits(rt: HostRuntime) {
    for pattern in &PATTERNS {
        let shows = pattern.shows;
        assert!(rt; is_read_by_all(rt.alloc(), pattern), "{shows}");
    }
}

#[test]
fn whole_values_leave_floats_unread(rt: HostRuntime) {
    for pattern in &PATTERNS {
        let shows = pattern.shows;
        assert!(rt; is_unread_by_whole(rt.alloc(), pattern), "{shows}");
    }
}
