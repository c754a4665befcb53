//! A node with floats and doubles, byte by byte: IEEE 754 binary32 and binary64, with the least significant byte first (protobuf
//! encoding, "Non-varint Numbers"). Each row is told to two nodes, to one at once and to the other by a plan.
use crate::node::{CONNECT, Call, FIRST, PLAIN, Plays, REBIRTH, SUBSCRIBE, are_spelled, config};
use spk_device::{Alias, DeviceFault, Owner, Refusal, Registry};
use spk_edge::{Act, EdgeFault, EdgeNode, Out, Write};
use spk_payload::{Value, Values};
use std::process::Abort;

/// 1.5: sign 0, exponent 127, fraction 1/2.
const ONE_AND_A_HALF: u32 = 0x3fc0_0000;

/// Zero of the other sign.
const MINUS_ZERO: u32 = 0x8000_0000;

/// Two that are no numbers: their exponents are full, and their fractions aren't zero.
const NAN: u32 = 0x7fc0_0000;

const OTHER_NAN: u32 = 0x7fc0_0001;

/// -2: sign 1, exponent 1024, fraction 0.
const MINUS_TWO: u64 = 0xc000_0000_0000_0000;

/// The double that is nearest to 0.1.
const TENTH: u64 = 0x3fb9_9999_9999_999a;

/// A value of the tables, by its bits.
#[derive(Clone, Copy)]
enum Bits {
    Nothing,
    Signed(i64),
    Float(u32),
    Double(u64),
}

fn value_of(bits: Bits) -> Option<Value> {
    match bits {
        Bits::Nothing => None,
        Bits::Signed(number) => Some(Value::Signed(number)),
        Bits::Float(bits) => Some(Value::Float(bits)),
        Bits::Double(bits) => Some(Value::Double(bits)),
    }
}

/// What a node is told.
#[derive(Clone, Copy)]
enum Told {
    Open,
    Accepted,
    Up,
    Change(Alias, Bits),
    Command(&'static str, &'static [u8]),
    Drain,
}

/// The packets' digits, and the values written, by their aliases.
type Given = (&'static [&'static str], &'static [(Alias, Bits)]);

/// A moment, what a node is told, and what it gives, or its refusal.
type Row = (u64, Told, Result<Given, EdgeFault>);

const NODE: &str = "spBv1.0/G/NCMD/N";

const DEVICE: &str = "spBv1.0/G/DCMD/N/D";

const WRONG: EdgeFault = EdgeFault::Device(Refusal::WrongKind);

/// The node's Float `f` (alias 1), 1.5 at first, and the Double `d` of its device D (alias 2), -2 at first.
static ROWS: [Row; 30] = [
    // three changes are kept; a NaN is equal to itself
    (1, Told::Up, Ok((&[], &[]))),
    (
        1,
        Told::Change(1, Bits::Float(ONE_AND_A_HALF)),
        Ok((&[], &[])),
    ),
    (1, Told::Change(1, Bits::Float(NAN)), Ok((&[], &[]))),
    (2, Told::Change(1, Bits::Float(NAN)), Ok((&[], &[]))),
    (2, Told::Change(2, Bits::Nothing), Ok((&[], &[]))),
    (3, Told::Change(2, Bits::Double(TENTH)), Ok((&[], &[]))),
    (4, Told::Change(2, Bits::Float(0)), Err(WRONG)),
    (4, Told::Change(1, Bits::Double(0)), Err(WRONG)),
    (4, Told::Change(1, Bits::Signed(0)), Err(WRONG)),
    // births with what was set last
    (5, Told::Open, Ok((&[CONNECT], &[]))),
    (
        6,
        Told::Accepted,
        Ok((
            &[
                SUBSCRIBE,
                "3055001273704276312e302f472f4e42495254482f4e0806120d0a056264536571180620045800121c0a144e6f646520436f6e74726f6c2f526562697274681806200b7000120e0a0166100118062009650000c07f1800",
                "302e001473704276312e302f472f4442495254482f4e2f44080612120a016410021806200a699a9999999999b93f1801",
            ],
            &[],
        )),
    ),
    // the kept changes, of one owner and of the other
    (
        7,
        Told::Drain,
        Ok((
            &["3024001173704276312e302f472f4e444154412f4e0807120b100118012801650000c07f1802"],
            &[],
        )),
    ),
    (
        8,
        Told::Drain,
        Ok((
            &[
                "3034001373704276312e302f472f44444154412f4e2f44080812081002180228013801120f100218032801699a9999999999b93f1803",
            ],
            &[],
        )),
    ),
    (9, Told::Drain, Ok((&[], &[]))),
    // changes are sent; 0 and -0 differ
    (
        10,
        Told::Change(1, Bits::Float(ONE_AND_A_HALF)),
        Ok((
            &["3022001173704276312e302f472f4e444154412f4e080a12091001180a650000c03f1804"],
            &[],
        )),
    ),
    (
        11,
        Told::Change(1, Bits::Float(0)),
        Ok((
            &["3022001173704276312e302f472f4e444154412f4e080b12091001180b65000000001805"],
            &[],
        )),
    ),
    (
        12,
        Told::Change(1, Bits::Float(MINUS_ZERO)),
        Ok((
            &["3022001173704276312e302f472f4e444154412f4e080c12091001180c65000000801806"],
            &[],
        )),
    ),
    (
        13,
        Told::Change(2, Bits::Double(MINUS_TWO)),
        Ok((
            &[
                "3028001373704276312e302f472f44444154412f4e2f44080d120d1002180d6900000000000000c01807",
            ],
            &[],
        )),
    ),
    (14, Told::Change(2, Bits::Double(MINUS_TWO)), Ok((&[], &[]))),
    // commands set them, each by its own datatype alone
    (
        15,
        Told::Command(NODE, b"\x12\x07\x10\x01\x65\x00\x00\xc0\x3f"),
        Ok((&[], &[(1, Bits::Float(ONE_AND_A_HALF))])),
    ),
    (
        15,
        Told::Command(NODE, b"\x12\x08\x0a\x01f\x65\x01\x00\xc0\x7f"),
        Ok((&[], &[(1, Bits::Float(OTHER_NAN))])),
    ),
    (
        15,
        Told::Command(
            DEVICE,
            b"\x12\x0b\x10\x02\x69\x00\x00\x00\x00\x00\x00\x00\xc0",
        ),
        Ok((&[], &[(2, Bits::Double(MINUS_TWO))])),
    ),
    (
        16,
        Told::Command(
            NODE,
            b"\x12\x0b\x10\x01\x69\x00\x00\x00\x00\x00\x00\x00\xc0",
        ),
        Err(EdgeFault::BadCommand),
    ),
    (
        16,
        Told::Command(DEVICE, b"\x12\x07\x10\x02\x65\x00\x00\xc0\x3f"),
        Err(EdgeFault::BadCommand),
    ),
    (
        16,
        Told::Command(NODE, b"\x12\x04\x10\x01\x50\x01"),
        Err(EdgeFault::BadCommand),
    ),
    (
        16,
        Told::Command(DEVICE, b"\x12\x04\x10\x02\x58\x01"),
        Err(EdgeFault::BadCommand),
    ),
    // births by command: what is written is the caller's to set
    (
        20,
        Told::Command(NODE, REBIRTH),
        Ok((
            &[
                "3055001273704276312e302f472f4e42495254482f4e0814120d0a056264536571181420045800121c0a144e6f646520436f6e74726f6c2f526562697274681814200b7000120e0a016610011814200965000000801808",
                "302e001473704276312e302f472f4442495254482f4e2f44081412120a016410021814200a6900000000000000c01809",
            ],
            &[],
        )),
    ),
    (
        21,
        Told::Command(
            NODE,
            b"\x12\x07\x10\x01\x65\x00\x00\xc0\x3f\x12\x18\x0a\x14Node Control/Rebirth\x70\x01",
        ),
        Ok((
            &[
                "3055001273704276312e302f472f4e42495254482f4e0815120d0a056264536571181520045800121c0a144e6f646520436f6e74726f6c2f526562697274681815200b7000120e0a01661001181520096500000080180a",
                "302e001473704276312e302f472f4442495254482f4e2f44081512120a016410021815200a6900000000000000c0180b",
            ],
            &[(1, Bits::Float(ONE_AND_A_HALF))],
        )),
    ),
    (22, Told::Up, Ok((&[], &[]))),
    (23, Told::Drain, Ok((&[], &[]))),
];

/// The answer of a node that is told at once.
fn at_once(node: &mut impl Plays, now: u64, told: Told) -> Result<Out, EdgeFault> {
    match told {
        Told::Open => node.tell(now, Call::Open),
        Told::Accepted => node.tell(now, Call::Accepted),
        Told::Up => node.tell(now, Call::Device(true)),
        Told::Change(alias, bits) => node.tell_value(now, alias, &value_of(bits)),
        Told::Command(topic, payload) => node.tell_command(now, topic, payload),
        Told::Drain => node.tell(now, Call::Drain),
    }
}

/// The same by a plan that is taken up.
fn by_plan(node: &mut impl Plays, now: u64, told: Told) -> Result<Out, EdgeFault> {
    match told {
        Told::Open => node.tell_plan(now, Act::Open),
        Told::Accepted => node.tell_plan(now, Act::Accepted),
        Told::Up => node.tell_plan(now, Act::Device("D", true)),
        Told::Change(alias, bits) => node.tell_plan(now, Act::Change(alias, &value_of(bits))),
        Told::Command(topic, payload) => node.tell_plan(now, Act::Command(topic, payload)),
        Told::Drain => node.tell_plan(now, Act::Drain),
    }
}

fn tell(node: &mut impl Plays, planned: bool, now: u64, told: Told) -> Result<Out, EdgeFault> {
    if planned {
        by_plan(node, now, told)
    } else {
        at_once(node, now, told)
    }
}

fn is_value(value: &Value, bits: Bits) -> bool {
    match (value, bits) {
        (Value::Signed(number), Bits::Signed(wanted)) => *number == wanted,
        (Value::Float(bits), Bits::Float(wanted)) => *bits == wanted,
        (Value::Double(bits), Bits::Double(wanted)) => *bits == wanted,
        _ => false,
    }
}

/// Whether the writes are these.
fn are_writes(writes: &[Write], wanted: &[(Alias, Bits)]) -> bool {
    for (write, (alias, bits)) in writes.iter().zip(wanted) {
        if write.alias != *alias || !is_value(&write.value, *bits) {
            return false;
        }
    }
    writes.len() == wanted.len()
}

/// Whether an answer is this one.
fn is_answer(answer: &Result<Out, EdgeFault>, wanted: &Result<Given, EdgeFault>) -> bool {
    match (answer, wanted) {
        (Ok(out), Ok((packets, writes))) => {
            are_spelled(&out.packets, packets) && are_writes(&out.writes, writes) && !out.close
        }
        (Err(fault), Err(named)) => *fault == *named,
        _ => false,
    }
}

/// Whether a node answers a row so, at once or by a plan. Where memory was refused the call is made again.
fn takes(node: &mut impl Plays, planned: bool, (now, told, wanted): &Row) -> bool {
    let answer = match tell(node, planned, *now, *told) {
        Err(EdgeFault::NoMemory) => tell(node, planned, *now, *told),
        answer => answer,
    };
    is_answer(&answer, wanted)
}

/// The registry of the rows.
fn filled(rt: &impl AllocGlobal, values: Values) -> Result<Registry, DeviceFault> {
    let mut registry = Registry::with_values(rt.alloc(), values);
    registry.add_metric(Owner::Node, "f", 9, Some(Value::Float(ONE_AND_A_HALF)))?;
    registry.add_device("D")?;
    registry.add_metric(Owner::Device(0), "d", 10, Some(Value::Double(MINUS_TWO)))?;
    Ok(registry)
}

fn made(rt: &(impl Abort + AllocGlobal)) -> Result<EdgeNode, EdgeFault> {
    let Ok(registry) = filled(rt, Values::All) else {
        return Err(EdgeFault::NoMemory);
    };
    EdgeNode::new(rt.alloc(), config(rt, PLAIN), FIRST, registry)
}

/// A node of the rows. Where memory was refused it is made again.
fn node(rt: &(impl Abort + AllocGlobal)) -> EdgeNode {
    match made(rt) {
        Ok(node) => node,
        Err(_) => made(rt).expect(rt, "memory is there again"),
    }
}

fn play(rt: &impl Abort, node: &mut impl Plays, planned: bool) {
    for row in &ROWS {
        assert!(rt; takes(node, planned, row), "at {}", row.0);
    }
}

#[test]
fn floats_and_doubles_are_born_sent_kept_and_written(rt: HostRuntime) {
    for planned in [false, true] {
        play(&rt, &mut node(&rt), planned);
    }
}

/// A registry of whole values takes none. Where memory was refused the call is made again.
#[test]
fn a_node_of_whole_values_has_none(rt: HostRuntime) {
    let refusal = match filled(&rt, Values::Whole).err() {
        Some(DeviceFault::NoMemory) => filled(&rt, Values::Whole).err(),
        refusal => refusal,
    };
    assert!(rt; refusal == Some(DeviceFault::Refused(Refusal::WrongKind)));
}
