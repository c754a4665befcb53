//! Values by datatype, both ways.
use crate::payloads::Spelled;
use spk_payload::{PayloadFault, Raw, Value, typed, written};
use std::alloc::{AllocError, Global};
use std::process::Abort;

/// A value with its type.
#[derive(Clone, Copy)]
enum Typed {
    Signed(i64),
    Unsigned(u64),
    Flag(bool),
    Words(&'static str),
    Octets(&'static [u8]),
    Float(u32),
    Double(u64),
}

/// A text. Where memory was refused it is made again.
fn text(rt: &(impl Abort + AllocGlobal), words: &str) -> String {
    match String::from_str(rt.alloc(), words) {
        Ok(text) => text,
        Err(_) => String::from_str(rt.alloc(), words).expect(rt, "memory is there again"),
    }
}

/// Bytes. Where memory was refused they are made again.
fn octets(rt: &(impl Abort + AllocGlobal), bytes: &[u8]) -> Vec<u8> {
    match Vec::from_slice(rt.alloc(), bytes) {
        Ok(bytes) => bytes,
        Err(_) => Vec::from_slice(rt.alloc(), bytes).expect(rt, "memory is there again"),
    }
}

fn raw_of(rt: &(impl Abort + AllocGlobal), spelled: Spelled) -> Raw {
    match spelled {
        Spelled::Int(number) => Raw::Int(number),
        Spelled::Long(number) => Raw::Long(number),
        Spelled::Flag(flag) => Raw::Flag(flag),
        Spelled::Words(words) => Raw::Words(text(rt, words)),
        Spelled::Octets(bytes) => Raw::Octets(octets(rt, bytes)),
        Spelled::Float(bits) => Raw::Float(bits),
        Spelled::Double(bits) => Raw::Double(bits),
        Spelled::Other => Raw::Other,
    }
}

fn value_of(rt: &(impl Abort + AllocGlobal), typed: Typed) -> Value {
    match typed {
        Typed::Signed(number) => Value::Signed(number),
        Typed::Unsigned(number) => Value::Unsigned(number),
        Typed::Flag(flag) => Value::Flag(flag),
        Typed::Words(words) => Value::Words(text(rt, words)),
        Typed::Octets(bytes) => Value::Octets(octets(rt, bytes)),
        Typed::Float(bits) => Value::Float(bits),
        Typed::Double(bits) => Value::Double(bits),
    }
}

/// A datatype, a value as it is spelled, and what it is by that type; where it is nothing it is handed back.
static TYPED: [(u32, Spelled, Option<Typed>); 43] = [
    (1, Spelled::Int(127), Some(Typed::Signed(127))),
    (1, Spelled::Int(128), Some(Typed::Signed(-128))),
    (1, Spelled::Int(255), Some(Typed::Signed(-1))),
    (1, Spelled::Int(256), None),
    (1, Spelled::Int(300), None),
    (1, Spelled::Int(4294967167), None),
    (1, Spelled::Int(4294967168), Some(Typed::Signed(-128))),
    (1, Spelled::Int(4294967295), Some(Typed::Signed(-1))),
    (1, Spelled::Long(1), None),
    (2, Spelled::Int(32768), Some(Typed::Signed(-32768))),
    (2, Spelled::Int(65536), None),
    (2, Spelled::Int(4294934528), Some(Typed::Signed(-32768))),
    (
        3,
        Spelled::Int(2147483648),
        Some(Typed::Signed(-2147483648)),
    ),
    (3, Spelled::Int(7), Some(Typed::Signed(7))),
    (4, Spelled::Long(u64::MAX), Some(Typed::Signed(-1))),
    (4, Spelled::Int(1), None),
    (5, Spelled::Int(255), Some(Typed::Unsigned(255))),
    (5, Spelled::Int(256), None),
    (6, Spelled::Int(65535), Some(Typed::Unsigned(65535))),
    (6, Spelled::Int(65536), None),
    (7, Spelled::Long(5), Some(Typed::Unsigned(5))),
    (7, Spelled::Int(5), Some(Typed::Unsigned(5))),
    (7, Spelled::Long(4294967296), None),
    (8, Spelled::Long(u64::MAX), Some(Typed::Unsigned(u64::MAX))),
    (11, Spelled::Flag(true), Some(Typed::Flag(true))),
    (11, Spelled::Int(1), None),
    (12, Spelled::Int(1), None),
    (12, Spelled::Words("hi"), Some(Typed::Words("hi"))),
    (13, Spelled::Int(9), Some(Typed::Unsigned(9))),
    (13, Spelled::Long(9), Some(Typed::Unsigned(9))),
    (14, Spelled::Words("hi"), Some(Typed::Words("hi"))),
    (
        17,
        Spelled::Octets(b"\x00\xff"),
        Some(Typed::Octets(b"\x00\xff")),
    ),
    (9, Spelled::Other, None),
    (
        9,
        Spelled::Float(0x3f80_0000),
        Some(Typed::Float(0x3f80_0000)),
    ),
    (
        9,
        Spelled::Float(0x7fc0_0001),
        Some(Typed::Float(0x7fc0_0001)),
    ),
    (9, Spelled::Double(0x3ff0_0000_0000_0000), None),
    (9, Spelled::Int(1), None),
    (
        10,
        Spelled::Double(0x8000_0000_0000_0000),
        Some(Typed::Double(0x8000_0000_0000_0000)),
    ),
    (10, Spelled::Float(0x3f80_0000), None),
    (10, Spelled::Long(1), None),
    (3, Spelled::Float(1), None),
    (8, Spelled::Double(1), None),
    (0, Spelled::Int(1), None),
];

fn is_typed(
    rt: &(impl Abort + AllocGlobal),
    datatype: u32,
    spelled: Spelled,
    want: Option<Typed>,
) -> bool {
    match (typed(datatype, raw_of(rt, spelled)), want) {
        (Ok(value), Some(want)) => value == value_of(rt, want),
        (Err(raw), None) => raw == raw_of(rt, spelled),
        _ => false,
    }
}

#[test]
fn values_are_typed_by_the_table(rt: HostRuntime) {
    for (datatype, spelled, want) in &TYPED {
        assert!(rt;
            is_typed(&rt, *datatype, *spelled, *want),
            "datatype {datatype}"
        );
    }
}

/// A datatype, a value, and how it is spelled; where it is mistyped, nothing.
static WRITTEN: [(u32, Typed, Option<Spelled>); 26] = [
    (1, Typed::Signed(-1), Some(Spelled::Int(4294967295))),
    (1, Typed::Signed(-128), Some(Spelled::Int(4294967168))),
    (1, Typed::Signed(-129), None),
    (1, Typed::Signed(128), None),
    (2, Typed::Signed(32767), Some(Spelled::Int(32767))),
    (2, Typed::Signed(32768), None),
    (
        3,
        Typed::Signed(-2147483648),
        Some(Spelled::Int(2147483648)),
    ),
    (3, Typed::Signed(2147483648), None),
    (4, Typed::Signed(-1), Some(Spelled::Long(u64::MAX))),
    (5, Typed::Unsigned(255), Some(Spelled::Int(255))),
    (5, Typed::Unsigned(256), None),
    (6, Typed::Unsigned(65535), Some(Spelled::Int(65535))),
    (
        7,
        Typed::Unsigned(4294967295),
        Some(Spelled::Int(4294967295)),
    ),
    (7, Typed::Unsigned(4294967296), None),
    (8, Typed::Unsigned(u64::MAX), Some(Spelled::Long(u64::MAX))),
    (13, Typed::Unsigned(9), Some(Spelled::Long(9))),
    (14, Typed::Words("hi"), Some(Spelled::Words("hi"))),
    (11, Typed::Flag(true), Some(Spelled::Flag(true))),
    (11, Typed::Unsigned(1), None),
    (9, Typed::Unsigned(1), None),
    (0, Typed::Signed(1), None),
    (
        9,
        Typed::Float(0x8000_0000),
        Some(Spelled::Float(0x8000_0000)),
    ),
    (9, Typed::Double(0), None),
    (
        10,
        Typed::Double(0x7ff8_0000_0000_0000),
        Some(Spelled::Double(0x7ff8_0000_0000_0000)),
    ),
    (10, Typed::Float(0), None),
    (3, Typed::Float(0), None),
];

/// The spelling of a value. Where memory was refused the call is made again.
fn written_again(alloc: Global, datatype: u32, value: &Value) -> Result<Raw, PayloadFault> {
    match written(alloc, datatype, value) {
        Err(PayloadFault::NoMemory) => written(alloc, datatype, value),
        answer => answer,
    }
}

fn is_written(
    rt: &(impl Abort + AllocGlobal),
    datatype: u32,
    value: &Value,
    want: Option<Spelled>,
) -> bool {
    match (written_again(rt.alloc(), datatype, value), want) {
        (Ok(raw), Some(want)) => raw == raw_of(rt, want),
        (Err(fault), None) => fault == PayloadFault::Mistyped,
        _ => false,
    }
}

fn copied_again(alloc: Global, value: &Value) -> Result<Value, AllocError> {
    match value.copy(alloc) {
        Err(_) => value.copy(alloc),
        answer => answer,
    }
}

fn is_copied(alloc: Global, value: &Value) -> bool {
    match copied_again(alloc, value) {
        Ok(copy) => copy == *value,
        Err(_) => false,
    }
}

fn is_written_and_copied(
    rt: &(impl Abort + AllocGlobal),
    datatype: u32,
    typed: Typed,
    want: Option<Spelled>,
) -> bool {
    let value = value_of(rt, typed);
    is_written(rt, datatype, &value, want) && is_copied(rt.alloc(), &value)
}

#[test]
fn values_are_written_by_their_datatype_and_copied(rt: HostRuntime) {
    for (datatype, typed, want) in &WRITTEN {
        let is_so = is_written_and_copied(&rt, *datatype, *typed, *want);
        assert!(rt; is_so, "datatype {datatype}");
    }
}
