use spk_protobuf::{Field, Fields, Wire, WireFault, put_bytes, put_varint};
use std::alloc::Global;

/// A text, and the numbers and values of its fields.
type Row = (&'static [u8], &'static [(u64, Wire<'static>)]);

static FIELDS: [Row; 9] = [
    // the documentation's own examples: a number 150, the text "testing", and a repeated field
    (&[], &[]),
    (&[0x08, 0x96, 0x01], &[(1, Wire::Varint(150))]),
    (
        &[0x12, 0x07, 0x74, 0x65, 0x73, 0x74, 0x69, 0x6e, 0x67],
        &[(2, Wire::Bytes(b"testing"))],
    ),
    (
        &[0x28, 0x01, 0x28, 0x02],
        &[(5, Wire::Varint(1)), (5, Wire::Varint(2))],
    ),
    // each wire type
    (
        &[
            0x09, 1, 2, 3, 4, 5, 6, 7, 8, 0x65, 0, 0, 0x80, 0x3f, 0x12, 0, 0x18, 0,
        ],
        &[
            (1, Wire::Eight([1, 2, 3, 4, 5, 6, 7, 8])),
            (12, Wire::Four([0, 0, 0x80, 0x3f])),
            (2, Wire::Bytes(&[])),
            (3, Wire::Varint(0)),
        ],
    ),
    // the tenth byte's bits past the 64th are ignored, and a longer form than needed is read
    (
        &[
            0x08, 0xff, 0xff, 0xff, 0xff, 0xff, 0xff, 0xff, 0xff, 0xff, 0x01,
        ],
        &[(1, Wire::Varint(u64::MAX))],
    ),
    (
        &[
            0x08, 0xff, 0xff, 0xff, 0xff, 0xff, 0xff, 0xff, 0xff, 0xff, 0x7f,
        ],
        &[(1, Wire::Varint(u64::MAX))],
    ),
    (&[0x88, 0x80, 0x00, 0x85, 0x00], &[(1, Wire::Varint(5))]),
    (
        &[
            0xf8, 0xff, 0xff, 0xff, 0xff, 0xff, 0xff, 0xff, 0xff, 0x01, 0x00,
        ],
        &[(2305843009213693951, Wire::Varint(0))],
    ),
];

/// Whether these are the fields of the text, and then none, however often one asks.
fn has_fields(text: &[u8], fields: &[(u64, Wire<'_>)]) -> bool {
    let mut left = Fields::new(text);
    for (number, wire) in fields {
        let field = Field {
            number: *number,
            wire: *wire,
        };
        if left.next() != Some(Ok(field)) {
            return false;
        }
    }
    left.next().is_none() && left.next().is_none()
}

#[test]
fn fields_are_read(rt: HostRuntime) {
    for (text, fields) in &FIELDS {
        assert!(rt; has_fields(text, fields), "of {text:?}");
    }
}

/// A text, how many fields come before its fault, and the fault.
static FAULTS: [(&[u8], u32, WireFault); 16] = [
    (&[0x12, 0xff, 0x01], 0, WireFault::Truncated),
    (
        &[
            0x12, 0xff, 0xff, 0xff, 0xff, 0xff, 0xff, 0xff, 0xff, 0xff, 0x01,
        ],
        0,
        WireFault::Truncated,
    ),
    (&[0xff; 10], 0, WireFault::VarintTooLong),
    (&[0xff; 9], 0, WireFault::Truncated),
    (&[0x0b], 0, WireFault::Group),
    (&[0x0c], 0, WireFault::Group),
    (&[0x00], 0, WireFault::FieldZero),
    (&[0x03], 0, WireFault::FieldZero),
    (&[0x07], 0, WireFault::FieldZero),
    (&[0x0e], 0, WireFault::WireType),
    (&[0x0f], 0, WireFault::WireType),
    (&[0x08], 0, WireFault::Truncated),
    (&[0x09, 0, 0, 0, 0, 0, 0, 0], 0, WireFault::Truncated),
    (&[0x0d, 0, 0, 0], 0, WireFault::Truncated),
    (&[0x08, 0x05, 0x12, 0x01], 1, WireFault::Truncated),
    (&[0x08, 0x05, 0x00, 0x08, 0x05], 1, WireFault::FieldZero),
];

/// Whether so many fields come before this fault, and nothing after it.
fn has_fault(text: &[u8], before: u32, fault: WireFault) -> bool {
    let mut left = Fields::new(text);
    for _ in 0..before {
        if !matches!(left.next(), Some(Ok(_))) {
            return false;
        }
    }
    left.next() == Some(Err(fault)) && left.next().is_none() && left.next().is_none()
}

#[test]
fn the_first_fault_is_given_and_then_nothing(rt: HostRuntime) {
    for (text, before, fault) in &FAULTS {
        assert!(rt; has_fault(text, *before, *fault), "of {text:?}");
    }
}

static NUMBERS: [(WireFault, u32); 5] = [
    (WireFault::Truncated, 2),
    (WireFault::VarintTooLong, 3),
    (WireFault::Group, 4),
    (WireFault::FieldZero, 5),
    (WireFault::WireType, 6),
];

#[test]
fn faults_have_their_numbers(rt: HostRuntime) {
    for (fault, number) in &NUMBERS {
        assert_eq!(rt; fault.number(), *number);
    }
}

/// Puts a varint. Where memory is refused the vector has to be as long as it was, and the call is made again.
fn is_put(out: &mut Vec<u8>, number: u64) -> bool {
    let before = out.len();
    match put_varint(out, number) {
        Ok(()) => true,
        Err(_) => out.len() == before && put_varint(out, number).is_ok(),
    }
}

/// Puts a field of bytes. Where memory is refused the vector has to be as long as it was, and the call is made again.
fn is_field_put(out: &mut Vec<u8>, number: u64, bytes: &[u8]) -> bool {
    let before = out.len();
    match put_bytes(out, number, bytes) {
        Ok(()) => true,
        Err(_) => out.len() == before && put_bytes(out, number, bytes).is_ok(),
    }
}

static VARINTS: [(u64, &[u8]); 6] = [
    (0, &[0x00]),
    (127, &[0x7f]),
    (128, &[0x80, 0x01]),
    (150, &[0x96, 0x01]),
    (4294967295, &[0xff, 0xff, 0xff, 0xff, 0x0f]),
    (
        u64::MAX,
        &[0xff, 0xff, 0xff, 0xff, 0xff, 0xff, 0xff, 0xff, 0xff, 0x01],
    ),
];

fn is_varint(alloc: Global, number: u64, text: &[u8]) -> bool {
    let mut out = Vec::new(alloc);
    is_put(&mut out, number) && out.as_slice() == text
}

#[test]
fn shortest_varints_are_put(rt: HostRuntime) {
    for (number, text) in &VARINTS {
        assert!(rt; is_varint(rt.alloc(), *number, text), "of {number}");
    }
}

/// Puts a varint of ten bytes behind so many others.
fn is_put_behind(out: &mut Vec<u8>, count: usize) -> bool {
    is_put(out, u64::MAX) && out.get(count) == Some(&0xff) && out.last() == Some(&0x01)
}

/// Bytes before the varints.
static BEFORE: [u8; 5] = [7; 5];

/// How many bytes stand before each varint, and with it.
static PLACES: [(usize, usize); 6] = [(5, 15), (15, 25), (25, 35), (35, 45), (45, 55), (55, 65)];

fn are_put_whole(out: &mut Vec<u8>) -> bool {
    for (before, after) in &PLACES {
        if !is_put_behind(out, *before) || out.len() != *after {
            return false;
        }
    }
    true
}

// The growth that is refused may come within a varint: then none of it stands.
#[test]
fn a_varint_is_put_whole_or_not_at_all(rt: HostRuntime) {
    let mut out = Vec::new(rt.alloc());
    assert!(rt; out.extend_from_slice(&BEFORE).is_ok() || out.extend_from_slice(&BEFORE).is_ok());
    assert!(rt; are_put_whole(&mut out));
}

static SEVENS: [u8; 300] = [7; 300];

/// A field of a text, and behind it one of 300 bytes under the number 100.
fn are_two_put(out: &mut Vec<u8>) -> bool {
    let testing = b"\x12\x07testing";
    is_field_put(out, 2, b"testing")
        && out.as_slice() == testing.as_slice()
        && is_field_put(out, 100, &SEVENS)
        && out.len() == 9 + 2 + 2 + 300
        && out.starts_with(testing.as_slice())
        && out.get(9..13) == Some([0xa2, 0x06, 0xac, 0x02].as_slice())
}

#[test]
fn bytes_are_put_behind_their_tag_and_length(rt: HostRuntime) {
    assert!(rt; are_two_put(&mut Vec::new(rt.alloc())));
}

/// A field of one byte, under a number past the greatest.
fn is_wrapped(out: &mut Vec<u8>) -> bool {
    is_field_put(out, 1 << 61, b"a") && out.as_slice() == [0x02, 0x01, 0x61].as_slice()
}

// The tag keeps its low 64 bits: number 2^61 has the tag of number 0.
#[test]
fn a_number_past_the_greatest_wraps_in_its_tag(rt: HostRuntime) {
    assert!(rt; is_wrapped(&mut Vec::new(rt.alloc())));
}
