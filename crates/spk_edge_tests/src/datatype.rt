//! Commands with a value of each datatype, as Sparkplug 3.0.0 (6.4.16) writes it in a payload.
use crate::command::{commanded, joins};
use crate::node::{FIRST, PLAIN, Plays, config};
use spk_device::{DeviceFault, Owner, Registry};
use spk_edge::{EdgeFault, EdgeNode, Out, Write};
use spk_payload::Value;
use std::process::Abort;

/// A value of the tables.
#[derive(Clone, Copy)]
enum Plain {
    Signed(i64),
    Unsigned(u64),
    Flag(bool),
    Words(&'static str),
    Octets(&'static [u8]),
}

/// A datatype, a payload with one metric, the alias 1, and what is written; none for a BadCommand.
type Row = (u32, &'static [u8], Option<Plain>);

static ROWS: [Row; 34] = [
    (
        1,
        b"\x12\x08\x10\x01P\xfb\xff\xff\xff\x0f",
        Some(Plain::Signed(-5)),
    ),
    // one byte of a narrow number, and one too large (own rule)
    (1, b"\x12\x05\x10\x01P\x80\x01", Some(Plain::Signed(-128))),
    (1, b"\x12\x05\x10\x01P\x80\x02", None),
    (1, b"\x12\x04\x10\x01X\x05", None),
    (
        2,
        b"\x12\x08\x10\x01P\xd4\xfd\xff\xff\x0f",
        Some(Plain::Signed(-300)),
    ),
    (2, b"\x12\x05\x10\x01z\x015", None),
    (
        3,
        b"\x12\x08\x10\x01P\x90\xdd\xfb\xff\x0f",
        Some(Plain::Signed(-70_000)),
    ),
    (3, b"\x12\x04\x10\x01p\x01", None),
    (
        4,
        b"\x12\x0d\x10\x01X\x80\x80\x80\x80\x80\xe0\xff\xff\xff\x01",
        Some(Plain::Signed(-1_099_511_627_776)),
    ),
    (4, b"\x12\x04\x10\x01P\x05", None),
    (5, b"\x12\x05\x10\x01P\xff\x01", Some(Plain::Unsigned(255))),
    (5, b"\x12\x05\x10\x01P\x80\x02", None),
    (
        6,
        b"\x12\x06\x10\x01P\xff\xff\x03",
        Some(Plain::Unsigned(65_535)),
    ),
    (6, b"\x12\x06\x10\x01P\x80\x80\x04", None),
    (
        7,
        b"\x12\x08\x10\x01P\xff\xff\xff\xff\x0f",
        Some(Plain::Unsigned(4_294_967_295)),
    ),
    (
        7,
        b"\x12\x08\x10\x01X\xff\xff\xff\xff\x0f",
        Some(Plain::Unsigned(4_294_967_295)),
    ),
    (7, b"\x12\x08\x10\x01X\x80\x80\x80\x80\x10", None),
    (
        8,
        b"\x12\x0d\x10\x01X\xff\xff\xff\xff\xff\xff\xff\xff\xff\x01",
        Some(Plain::Unsigned(u64::MAX)),
    ),
    (8, b"\x12\x06\x10\x01\x82\x01\x01\x05", None),
    (3, b"\x12\x07\x10\x01e\x00\x00\xc0?", None),
    (3, b"\x12\x0b\x10\x01i\x00\x00\x00\x00\x00\x00\xf8?", None),
    (11, b"\x12\x04\x10\x01p\x01", Some(Plain::Flag(true))),
    (11, b"\x12\x04\x10\x01p\x00", Some(Plain::Flag(false))),
    (11, b"\x12\x04\x10\x01P\x01", None),
    (12, b"\x12\x06\x10\x01z\x02on", Some(Plain::Words("on"))),
    (12, b"\x12\x07\x10\x01\x82\x01\x02on", None),
    (
        13,
        b"\x12\x09\x10\x01X\x80\xd0\x95\xff\xbc1",
        Some(Plain::Unsigned(1_700_000_000_000)),
    ),
    (13, b"\x12\x04\x10\x01p\x00", None),
    (
        14,
        b"\x12\x09\x10\x01z\x05gr\xc3\xbcn",
        Some(Plain::Words("gr\u{fc}n")),
    ),
    (15, b"\x12\x08\x10\x01z\x047e57", Some(Plain::Words("7e57"))),
    (15, b"\x12\x04\x10\x01X\x07", None),
    (
        17,
        b"\x12\x07\x10\x01\x82\x01\x02\x00\xff",
        Some(Plain::Octets(&[0, 255])),
    ),
    (17, b"\x12\x06\x10\x01z\x02ab", None),
    (
        18,
        b"\x12\x05\x10\x01\x82\x01\x00",
        Some(Plain::Octets(&[])),
    ),
];

fn is_plain(value: &Value, plain: Plain) -> bool {
    match (value, plain) {
        (Value::Signed(value), Plain::Signed(plain)) => *value == plain,
        (Value::Unsigned(value), Plain::Unsigned(plain)) => *value == plain,
        (Value::Flag(value), Plain::Flag(plain)) => *value == plain,
        (Value::Words(value), Plain::Words(plain)) => value.as_str() == plain,
        (Value::Octets(value), Plain::Octets(plain)) => value.as_slice() == plain,
        _ => false,
    }
}

/// Whose metric is written, and by which command.
static TARGETS: [(Owner, &str); 2] = [
    (Owner::Node, "spBv1.0/G/NCMD/N"),
    (Owner::Device(0), "spBv1.0/G/DCMD/N/D"),
];

/// What a registry is made of.
trait Registers {
    fn metric(&mut self, owner: Owner, datatype: u32) -> Result<u64, DeviceFault>;

    fn device(&mut self) -> Result<(), DeviceFault>;
}

impl Registers for Registry {
    fn metric(&mut self, owner: Owner, datatype: u32) -> Result<u64, DeviceFault> {
        self.add_metric(owner, "m", datatype, None)
    }

    fn device(&mut self) -> Result<(), DeviceFault> {
        self.add_device("D")
    }
}

/// The device `D`, and the metric `m` of a datatype, alias 1. Where memory was refused a call is made again.
fn fill(rt: &impl Abort, registry: &mut impl Registers, owner: Owner, datatype: u32) {
    if registry.device().is_err() {
        assert_eq!(rt; registry.device(), Ok(()));
    }
    let answer = match registry.metric(owner, datatype) {
        Err(DeviceFault::NoMemory) => registry.metric(owner, datatype),
        answer => answer,
    };
    assert_eq!(rt; answer, Ok(1));
}

fn registry(rt: &(impl Abort + AllocGlobal), owner: Owner, datatype: u32) -> Registry {
    let mut registry = Registry::new(rt.alloc());
    fill(rt, &mut registry, owner, datatype);
    registry
}

fn made(
    rt: &(impl Abort + AllocGlobal),
    owner: Owner,
    datatype: u32,
) -> Result<EdgeNode, EdgeFault> {
    EdgeNode::new(
        rt.alloc(),
        config(rt, PLAIN),
        FIRST,
        registry(rt, owner, datatype),
    )
}

/// A node of one metric. Where memory was refused it is made again.
fn node(rt: &(impl Abort + AllocGlobal), owner: Owner, datatype: u32) -> EdgeNode {
    match made(rt, owner, datatype) {
        Ok(node) => node,
        Err(fault) => {
            assert_eq!(rt; fault, EdgeFault::NoMemory);
            made(rt, owner, datatype).expect(rt, "memory is there again")
        }
    }
}

/// Whether one value was written, and it is this one.
fn is_written(writes: &[Write], plain: Plain) -> bool {
    let mut count = 0usize;
    for write in writes {
        if write.alias != 1 || !is_plain(&write.value, plain) {
            return false;
        }
        count = count.saturating_add(1);
    }
    count == 1
}

/// Whether a command wrote the value, or was refused where there is none.
fn is_answer(answer: Result<Out, EdgeFault>, plain: Option<Plain>) -> bool {
    match (answer, plain) {
        (Ok(out), Some(plain)) => is_written(&out.writes, plain),
        (Err(fault), None) => fault == EdgeFault::BadCommand,
        _ => false,
    }
}

/// Whether a node that waits answers a command so.
fn takes(node: &mut impl Plays, topic: &str, (_, payload, plain): &Row) -> bool {
    joins(node) && is_answer(commanded(node, topic, payload), *plain)
}

/// Whether a new node of one metric does.
fn is_taken(rt: &(impl Abort + AllocGlobal), owner: Owner, topic: &str, row: &Row) -> bool {
    takes(&mut node(rt, owner, row.0), topic, row)
}

#[test]
fn a_value_of_each_datatype_is_written(rt: HostRuntime) {
    for (owner, topic) in &TARGETS {
        for row in &ROWS {
            assert!(rt; is_taken(&rt, *owner, topic, row), "of {}", row.0);
        }
    }
}
