//! Payloads read. A function that holds a payload is dear to prove: what the tests ask of one they ask through a trait without clauses, and
//! each row is walked over a type parameter.
use spk_payload::{Metric, Payload, PayloadFault, Raw, decode, encode};
use spk_protobuf::WireFault;
use std::alloc::{AllocError, Global};
use std::process::Abort;

/// What the bytes mean. Where memory was refused, nothing was made, and the call is made again.
fn read_again(alloc: Global, bytes: &[u8]) -> Result<Payload, PayloadFault> {
    match decode(alloc, bytes) {
        Err(PayloadFault::NoMemory) => decode(alloc, bytes),
        answer => answer,
    }
}

/// The payload of the bytes.
pub(crate) fn decoded(rt: &(impl Abort + AllocGlobal), bytes: &[u8]) -> Payload {
    read_again(rt.alloc(), bytes).expect(rt, "the bytes mean a payload")
}

/// The fault of the bytes, which takes the place of a payload also where memory was refused at first.
fn fault_of(alloc: Global, bytes: &[u8]) -> Option<PayloadFault> {
    read_again(alloc, bytes).err()
}

/// A value as it is spelled.
#[derive(Clone, Copy)]
pub(crate) enum Spelled {
    Int(u32),
    Long(u64),
    Flag(bool),
    Words(&'static str),
    Octets(&'static [u8]),
    Float(u32),
    Double(u64),
    Other,
}

/// Each field of a metric.
#[derive(Clone, Copy)]
pub(crate) struct Row {
    name: Option<&'static str>,
    alias: Option<u64>,
    timestamp: Option<u64>,
    datatype: Option<u32>,
    historical: Option<bool>,
    transient: Option<bool>,
    null: Option<bool>,
    value: Option<Spelled>,
}

/// A metric with no field.
const EMPTY: Row = Row {
    name: None,
    alias: None,
    timestamp: None,
    datatype: None,
    historical: None,
    transient: None,
    null: None,
    value: None,
};

fn is_name(name: Option<&str>, want: Option<&str>) -> bool {
    match (name, want) {
        (Some(name), Some(want)) => name == want,
        (None, None) => true,
        _ => false,
    }
}

fn is_spelled(raw: &Raw, want: Spelled) -> bool {
    match (raw, want) {
        (Raw::Int(number), Spelled::Int(want)) => *number == want,
        (Raw::Long(number), Spelled::Long(want)) => *number == want,
        (Raw::Flag(flag), Spelled::Flag(want)) => *flag == want,
        (Raw::Words(text), Spelled::Words(want)) => text.as_str() == want,
        (Raw::Octets(bytes), Spelled::Octets(want)) => bytes.as_slice() == want,
        (Raw::Float(bits), Spelled::Float(want)) => *bits == want,
        (Raw::Double(bits), Spelled::Double(want)) => *bits == want,
        (Raw::Other, Spelled::Other) => true,
        _ => false,
    }
}

pub(crate) fn is_value(raw: &Option<Raw>, want: Option<Spelled>) -> bool {
    match (raw, want) {
        (Some(raw), Some(want)) => is_spelled(raw, want),
        (None, None) => true,
        _ => false,
    }
}

fn is_metric(metric: &Metric, want: &Row) -> bool {
    let name = match &metric.name {
        Some(name) => Some(name.as_str()),
        None => None,
    };
    is_name(name, want.name)
        && metric.alias == want.alias
        && metric.timestamp == want.timestamp
        && metric.datatype == want.datatype
        && metric.historical == want.historical
        && metric.transient == want.transient
        && metric.null == want.null
        && is_value(&metric.value, want.value)
}

/// What the tests ask of a payload. Where memory was refused a call is made again.
pub(crate) trait Means {
    /// Its timestamp, its sequence number, and how many metrics it has.
    fn numbers(&self) -> (Option<u64>, Option<u64>, usize);

    /// Whether the metric in this place has these fields and no others.
    fn is_at(&self, place: usize, want: &Row) -> bool;

    /// Whether it is what the bytes mean.
    fn is_meant_by(&self, alloc: Global, bytes: &[u8]) -> bool;

    /// Whether it is written as these bytes.
    fn is_written_as(&self, alloc: Global, bytes: &[u8]) -> bool;

    /// Why it isn't written, if it isn't.
    fn refusal(&self, alloc: Global) -> Option<PayloadFault>;

    /// Whether a copy of it is the same.
    fn is_copied(&self, alloc: Global) -> bool;

    /// Whether a copy of each metric is the same.
    fn are_metrics_copied(&self, alloc: Global) -> bool;
}

/// The bytes of the payload. Where memory was refused the call is made again.
pub(crate) fn written_again(alloc: Global, payload: &Payload) -> Result<Vec<u8>, PayloadFault> {
    match encode(alloc, payload) {
        Err(PayloadFault::NoMemory) => encode(alloc, payload),
        answer => answer,
    }
}

fn metric_copied(alloc: Global, metric: &Metric) -> Result<Metric, AllocError> {
    match metric.copy(alloc) {
        Err(_) => metric.copy(alloc),
        answer => answer,
    }
}

fn copied_again(alloc: Global, payload: &Payload) -> Result<Payload, AllocError> {
    match payload.copy(alloc) {
        Err(_) => payload.copy(alloc),
        answer => answer,
    }
}

fn is_metric_copied(alloc: Global, metric: &Metric) -> bool {
    match metric_copied(alloc, metric) {
        Ok(copy) => copy == *metric,
        Err(_) => false,
    }
}

impl Means for Payload {
    fn numbers(&self) -> (Option<u64>, Option<u64>, usize) {
        (self.timestamp, self.seq, self.metrics.len())
    }

    fn is_at(&self, place: usize, want: &Row) -> bool {
        match self.metrics.get(place) {
            Some(metric) => is_metric(metric, want),
            None => false,
        }
    }

    fn is_meant_by(&self, alloc: Global, bytes: &[u8]) -> bool {
        match read_again(alloc, bytes) {
            Ok(payload) => payload == *self,
            Err(_) => false,
        }
    }

    fn is_written_as(&self, alloc: Global, bytes: &[u8]) -> bool {
        match written_again(alloc, self) {
            Ok(written) => written.as_slice() == bytes,
            Err(_) => false,
        }
    }

    fn refusal(&self, alloc: Global) -> Option<PayloadFault> {
        written_again(alloc, self).err()
    }

    fn is_copied(&self, alloc: Global) -> bool {
        match copied_again(alloc, self) {
            Ok(copy) => copy == *self,
            Err(_) => false,
        }
    }

    fn are_metrics_copied(&self, alloc: Global) -> bool {
        for metric in &self.metrics {
            if !is_metric_copied(alloc, metric) {
                return false;
            }
        }
        true
    }
}

/// An NBIRTH's payload without seq: timestamp 5 and `bdSeq` 0.
pub(crate) const BIRTH: &[u8] = b"\x08\x05\x12\x0b\x0a\x05bdSeq\x20\x04\x58\x00";
/// An unknown field 9, and a float named `t`.
pub(crate) const FLOAT: &[u8] = b"\x48\x01\x12\x0a\x0a\x01t\x20\x09\x65\x00\x00\x80\x3f";
/// Three kept changes of alias 1, and seq 2.
pub(crate) const DRAINED: &[u8] =
    b"\x08\x0a\x12\x08\x10\x01\x18\x05\x28\x01\x50\x03\x12\x08\x10\x01\x18\x06\x28\x01\x50\x04\x12\x08\x10\x01\x18\x07\x28\x01\x50\x05\x18\x02";
/// A rebirth request.
pub(crate) const REBIRTH: &[u8] =
    b"\x08\x09\x12\x1c\x0a\x14Node Control/Rebirth\x18\x09\x20\x0b\x70\x01";

/// An NBIRTH of a node with the metric `t`: `bdSeq`, `Node Control/Rebirth` and `t` 7, seq 0.
pub(crate) const NODE_BIRTH: &[u8] =
    b"\x08\x06\x12\x0d\x0a\x05bdSeq\x18\x06\x20\x04\x58\x00\x12\x1c\x0a\x14Node Control/Rebirth\x18\x06\x20\x0b\x70\x00\x12\x0b\x0a\x01t\x10\x01\x18\x06\x20\x03\x50\x07\x18\x00";
/// An NDATA of alias 1, seq 1.
pub(crate) const NODE_DATA: &[u8] = b"\x08\x07\x12\x06\x10\x01\x18\x07\x50\x08\x18\x01";

/// Bytes, and what they mean: a timestamp, a sequence number, and the metrics in their order.
struct Reading {
    shows: &'static str,
    bytes: &'static [u8],
    timestamp: Option<u64>,
    seq: Option<u64>,
    metrics: &'static [Row],
}

static READINGS: [Reading; 15] = [
    Reading {
        shows: "a birth with its metric",
        bytes: BIRTH,
        timestamp: Some(5),
        seq: None,
        metrics: &[Row {
            name: Some("bdSeq"),
            datatype: Some(4),
            value: Some(Spelled::Long(0)),
            ..EMPTY
        }],
    },
    Reading {
        shows: "nothing means an empty payload",
        bytes: &[],
        timestamp: None,
        seq: None,
        metrics: &[],
    },
    Reading {
        shows: "a float is there without its value",
        bytes: FLOAT,
        timestamp: None,
        seq: None,
        metrics: &[Row {
            name: Some("t"),
            datatype: Some(9),
            value: Some(Spelled::Other),
            ..EMPTY
        }],
    },
    Reading {
        shows: "metrics stand in order",
        bytes: DRAINED,
        timestamp: Some(10),
        seq: Some(2),
        metrics: &[
            Row {
                alias: Some(1),
                timestamp: Some(5),
                historical: Some(true),
                value: Some(Spelled::Int(3)),
                ..EMPTY
            },
            Row {
                alias: Some(1),
                timestamp: Some(6),
                historical: Some(true),
                value: Some(Spelled::Int(4)),
                ..EMPTY
            },
            Row {
                alias: Some(1),
                timestamp: Some(7),
                historical: Some(true),
                value: Some(Spelled::Int(5)),
                ..EMPTY
            },
        ],
    },
    Reading {
        shows: "of a repeated field the last counts",
        bytes: b"\x08\x05\x08\x07",
        timestamp: Some(7),
        seq: None,
        metrics: &[],
    },
    Reading {
        shows: "an unknown field is passed over",
        bytes: b"\x48\x01\x08\x07",
        timestamp: Some(7),
        seq: None,
        metrics: &[],
    },
    Reading {
        shows: "a wrong wire type isn't the field's",
        bytes: b"\x08\x05\x0d\x01\x02\x03\x04",
        timestamp: Some(5),
        seq: None,
        metrics: &[],
    },
    Reading {
        shows: "of two values the last counts",
        bytes: b"\x12\x04\x50\x07\x70\x02",
        timestamp: None,
        seq: None,
        metrics: &[Row {
            value: Some(Spelled::Flag(true)),
            ..EMPTY
        }],
    },
    Reading {
        shows: "of two names the last counts",
        bytes: b"\x12\x06\x0a\x01a\x0a\x01b",
        timestamp: None,
        seq: None,
        metrics: &[Row {
            name: Some("b"),
            ..EMPTY
        }],
    },
    Reading {
        shows: "numbers are cut to 32 bits where the schema says so",
        bytes: b"\x12\x0c\x20\x83\x80\x80\x80\x10\x50\xff\xff\xff\xff\x1f",
        timestamp: None,
        seq: None,
        metrics: &[Row {
            datatype: Some(3),
            value: Some(Spelled::Int(4294967295)),
            ..EMPTY
        }],
    },
    Reading {
        shows: "a flag is true where its number isn't zero, past 32 bits too",
        bytes: b"\x12\x06\x70\x80\x80\x80\x80\x10",
        timestamp: None,
        seq: None,
        metrics: &[Row {
            value: Some(Spelled::Flag(true)),
            ..EMPTY
        }],
    },
    Reading {
        shows: "texts and bytes are kept",
        bytes: b"\x12\x04\x7a\x02hi\x12\x05\x82\x01\x02\x00\xff",
        timestamp: None,
        seq: None,
        metrics: &[
            Row {
                value: Some(Spelled::Words("hi")),
                ..EMPTY
            },
            Row {
                value: Some(Spelled::Octets(b"\x00\xff")),
                ..EMPTY
            },
        ],
    },
    // bytes values, and what the schema has beside them, are any bytes: only names and strings must be texts
    Reading {
        shows: "bytes, and a body and a uuid of the wrong type, may be no text",
        bytes: b"\x12\x05\x82\x01\x02\xc3\x28\x22\x02\xc3\x28\x2a\x01\xff",
        timestamp: None,
        seq: None,
        metrics: &[Row {
            value: Some(Spelled::Octets(b"\xc3\x28")),
            ..EMPTY
        }],
    },
    Reading {
        shows: "a metric's metadata and properties may be no text",
        bytes: b"\x12\x04\x42\x02\xc3\x28\x12\x04\x4a\x02\xc3\x28",
        timestamp: None,
        seq: None,
        metrics: &[EMPTY, EMPTY],
    },
    Reading {
        shows: "a data set may be no text",
        bytes: b"\x12\x05\x8a\x01\x02\xc3\x28",
        timestamp: None,
        seq: None,
        metrics: &[Row {
            value: Some(Spelled::Other),
            ..EMPTY
        }],
    },
];

/// Whether a payload is what the row says.
fn is_read<T: Means>(payload: &T, row: &Reading) -> bool {
    if payload.numbers() != (row.timestamp, row.seq, row.metrics.len()) {
        return false;
    }
    for (place, metric) in row.metrics.iter().enumerate() {
        if !payload.is_at(place, metric) {
            return false;
        }
    }
    true
}

fn is_so(rt: &(impl Abort + AllocGlobal), row: &Reading) -> bool {
    is_read(&decoded(rt, row.bytes), row)
}

#[test]
fn bytes_mean_what_the_schema_says(rt: HostRuntime) {
    for row in &READINGS {
        assert!(rt; is_so(&rt, row), "{}", row.shows);
    }
}

static FAULTS: [(&[u8], PayloadFault); 16] = [
    (b"\x12\xff\x01", PayloadFault::Wire(WireFault::Truncated)),
    (
        b"\x12\xff\xff\xff\xff\xff\xff\xff\xff\xff\x01",
        PayloadFault::Wire(WireFault::Truncated),
    ),
    (&[0xff; 10], PayloadFault::Wire(WireFault::VarintTooLong)),
    (b"\x0b", PayloadFault::Wire(WireFault::Group)),
    (b"\x0c", PayloadFault::Wire(WireFault::Group)),
    (b"\x00", PayloadFault::Wire(WireFault::FieldZero)),
    (b"\x0e", PayloadFault::Wire(WireFault::WireType)),
    (
        b"\x12\x02\x0a\x05",
        PayloadFault::Wire(WireFault::Truncated),
    ),
    (b"\x12\x04\x0a\x02\xc3\x28", PayloadFault::NotText),
    (
        b"\x08\x05\x12\x0b",
        PayloadFault::Wire(WireFault::Truncated),
    ),
    (
        b"\x12\x05\x0a\x02\xc3\x28",
        PayloadFault::Wire(WireFault::Truncated),
    ),
    (b"\x12\x07\x0a\x02\xc3\x28\x0a\x01a", PayloadFault::NotText),
    (
        b"\x12\x07\x7a\x02\xc3\x28\x50\x01\x00",
        PayloadFault::NotText,
    ),
    (b"\x12\x01\x0b\x00", PayloadFault::Wire(WireFault::Group)),
    (b"\x12\x00\x00", PayloadFault::Wire(WireFault::FieldZero)),
    (b"\x12\x04\x0a\x02\xc3\x28\x0b", PayloadFault::NotText),
];

#[test]
fn the_first_fault_in_reading_order(rt: HostRuntime) {
    for (bytes, fault) in &FAULTS {
        assert!(rt; fault_of(rt.alloc(), bytes) == Some(*fault), "of {bytes:?}");
    }
}

/// Only the whole of the bytes means what a payload is.
fn is_meant_by_the_whole_alone<T: Means>(alloc: Global, payload: &T, bytes: &[u8]) -> bool {
    for end in 0..bytes.len() {
        if payload.is_meant_by(alloc, &bytes[..end]) {
            return false;
        }
    }
    payload.is_meant_by(alloc, bytes)
}

fn is_whole_alone(rt: &(impl Abort + AllocGlobal), bytes: &[u8]) -> bool {
    is_meant_by_the_whole_alone(rt.alloc(), &decoded(rt, bytes), bytes)
}

static WHOLES: [&[u8]; 6] = [BIRTH, FLOAT, DRAINED, REBIRTH, NODE_BIRTH, NODE_DATA];

// Each prefix has an answer, and none but the whole means what the whole means.
#[test]
fn no_prefix_means_the_whole(rt: HostRuntime) {
    for bytes in &WHOLES {
        assert!(rt; is_whole_alone(&rt, bytes), "of {bytes:?}");
    }
}

static NUMBERS: [(PayloadFault, u32); 6] = [
    (PayloadFault::NoMemory, 1),
    (PayloadFault::Wire(WireFault::Truncated), 2),
    (PayloadFault::Wire(WireFault::WireType), 6),
    (PayloadFault::NotText, 7),
    (PayloadFault::HasOther, 8),
    (PayloadFault::Mistyped, 9),
];

#[test]
fn faults_have_their_numbers(rt: HostRuntime) {
    for (fault, number) in &NUMBERS {
        assert_eq!(rt; fault.number(), *number);
    }
}
