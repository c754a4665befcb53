//! Kept changes beside the greatest packet, which has 1,048,576 bytes: how many of them a drain sends, and which it gives up.
use crate::host::{done, let_go};
use crate::node::{Call, Kind, PLAIN, Plays, config, lost_by, record_of, told};
use spk_device::{Alias, DeviceFault, Owner, Registry};
use spk_edge::{Act, EdgeFault, EdgeNode, Out, Record};
use spk_payload::Value;
use std::alloc::{AllocError, Global};
use std::process::Abort;

/// How many changes a drain sends, and how many bytes its packet has; 0 of both where it sends nothing.
type Sent = (usize, usize);

/// The number of the NBIRTH, behind which comes one DBIRTH; the changes that are kept before, by alias and by how many bytes
/// their texts have, or 0 for no value, as births are too large with such texts; what drains send then; and how many changes are
/// lost at last.
struct Row {
    seq: u8,
    texts: &'static [(Alias, usize)],
    drains: &'static [Sent],
    lost: u64,
}

/// In a packet a text of 16,384 bytes or more has 14 bytes beside it, one of 10 or 11 has 10, and no value has 10. A packet of the
/// node has 27 bytes beside them, or 25 where it has less than 128; one more under a number from 128 on; and two more on the device's topic.
static ROWS: [Row; 10] = [
    // four changes: at the limit, one byte below it, and one beyond
    Row {
        seq: 0,
        texts: &[(1, 600_000), (2, 448_501), (1, 0), (2, 0)],
        drains: &[(4, 1_048_576), (0, 0)],
        lost: 0,
    },
    Row {
        seq: 0,
        texts: &[(1, 600_000), (2, 448_500), (1, 0), (2, 0)],
        drains: &[(4, 1_048_575), (0, 0)],
        lost: 0,
    },
    Row {
        seq: 0,
        texts: &[(1, 600_000), (2, 448_502), (1, 0), (2, 0)],
        drains: &[(3, 1_048_567), (1, 35), (0, 0)],
        lost: 0,
    },
    // the same under a number of two bytes
    Row {
        seq: 126,
        texts: &[(1, 600_000), (2, 448_500), (1, 0), (2, 0)],
        drains: &[(4, 1_048_576), (0, 0)],
        lost: 0,
    },
    Row {
        seq: 126,
        texts: &[(1, 600_000), (2, 448_501), (1, 0), (2, 0)],
        drains: &[(3, 1_048_567), (1, 36), (0, 0)],
        lost: 0,
    },
    // one change: at the limit, and one byte beyond it
    Row {
        seq: 0,
        texts: &[(1, 1_048_535), (1, 0)],
        drains: &[(1, 1_048_576), (1, 35), (0, 0)],
        lost: 0,
    },
    Row {
        seq: 0,
        texts: &[(1, 1_048_536), (2, 10), (1, 0)],
        drains: &[(0, 0), (2, 55), (0, 0)],
        lost: 1,
    },
    Row {
        seq: 126,
        texts: &[(1, 1_048_535), (2, 1_048_534), (1, 0), (2, 0)],
        drains: &[(0, 0), (1, 1_048_576), (2, 46), (0, 0)],
        lost: 1,
    },
    // of two owners
    Row {
        seq: 0,
        texts: &[
            (1, 10),
            (3, 600_000),
            (3, 448_509),
            (3, 0),
            (1, 600_000),
            (1, 0),
            (2, 448_522),
            (2, 0),
        ],
        drains: &[(1, 45), (3, 1_048_576), (2, 600_051), (2, 448_573), (0, 0)],
        lost: 0,
    },
    // what doesn't fit isn't passed over for a shorter one behind it
    Row {
        seq: 0,
        texts: &[(1, 10), (2, 1_048_536), (2, 0), (1, 11)],
        drains: &[(1, 45), (0, 0), (2, 56), (0, 0)],
        lost: 1,
    },
];

const MANY: [&str; 2] = [
    "xxxxxxxxxxxxxxxxxxxxxxxxxxxxxxxxxxxxxxxxxxxxxxxxxxxxxxxxxxxxxxxx",
    "yyyyyyyyyyyyyyyyyyyyyyyyyyyyyyyyyyyyyyyyyyyyyyyyyyyyyyyyyyyyyyyy",
];

const ONE: [&str; 2] = ["x", "y"];

/// A text of so many letters, other ones than the last text has.
fn letters(alloc: Global, place: usize, len: usize) -> Result<String, AllocError> {
    let mut text = String::with_capacity(alloc, len)?;
    for _ in 0..len / 64 {
        text.push_str(MANY[place % 2])?;
    }
    for _ in 0..len % 64 {
        text.push_str(ONE[place % 2])?;
    }
    Ok(text)
}

/// The same as a value, or none for 0. Where memory was refused it is made again.
fn value(rt: &(impl Abort + AllocGlobal), place: usize, len: usize) -> Option<Value> {
    if len == 0 {
        return None;
    }
    let text = match letters(rt.alloc(), place, len) {
        Ok(text) => text,
        Err(_) => letters(rt.alloc(), place, len).expect(rt, "memory is there again"),
    };
    Some(Value::Words(text))
}

/// The texts `a` and `b` of the node (aliases 1 and 2), and `c` of its device D (alias 3).
fn filled(alloc: Global) -> Result<Registry, DeviceFault> {
    let mut registry = Registry::new(alloc);
    registry.add_metric(Owner::Node, "a", 12, None)?;
    registry.add_metric(Owner::Node, "b", 12, None)?;
    registry.add_device("D")?;
    registry.add_metric(Owner::Device(0), "c", 12, None)?;
    Ok(registry)
}

const STORING: Kind<'static> = Kind {
    capacity: 8,
    ..PLAIN
};

fn made(rt: &(impl Abort + AllocGlobal), seq: u8) -> Result<EdgeNode, EdgeFault> {
    let Ok(registry) = filled(rt.alloc()) else {
        return Err(EdgeFault::NoMemory);
    };
    let record = Record {
        seq,
        bd: 0,
        stamp: None,
    };
    EdgeNode::new(rt.alloc(), config(rt, STORING), record, registry)
}

/// A node whose NBIRTH has this number. Where memory was refused it is made again.
fn node(rt: &(impl Abort + AllocGlobal), seq: u8) -> EdgeNode {
    match made(rt, seq) {
        Ok(node) => node,
        Err(_) => made(rt, seq).expect(rt, "memory is there again"),
    }
}

/// A change's answer. Where memory was refused the call is made again.
fn changed(node: &mut impl Plays, alias: Alias, value: &Option<Value>) -> Option<EdgeFault> {
    match node.tell_value(9, alias, value) {
        Err(EdgeFault::NoMemory) => node.tell_value(9, alias, value).err(),
        answer => answer.err(),
    }
}

/// The texts come, and then the node is born.
fn keep(rt: &(impl Abort + AllocGlobal), node: &mut impl Plays, texts: &[(Alias, usize)]) {
    done(rt, node, &[Call::Device(true)]);
    for (place, (alias, len)) in texts.iter().enumerate() {
        assert!(rt; changed(node, *alias, &value(rt, place, *len)).is_none());
    }
    done(rt, node, &[Call::Open, Call::Accepted]);
}

/// How many changes the next drain sends, by a plan that is let go.
fn count(rt: &impl Abort, node: &mut impl Plays) -> usize {
    match let_go(node, 9, Act::Drain).expect(rt, "a plan") {
        Some((_, count)) => count,
        None => 0,
    }
}

fn size(out: &Out) -> usize {
    match out.packets.first() {
        Some(packet) => packet.len(),
        None => 0,
    }
}

/// What a plan of a drain gives that is taken up. Where memory was refused it is made again.
fn by_plan(node: &mut impl Plays) -> Result<Out, EdgeFault> {
    match node.tell_plan(9, Act::Drain) {
        Err(EdgeFault::NoMemory) => node.tell_plan(9, Act::Drain),
        answer => answer,
    }
}

/// Two nodes drain the same, one at once and one by plans: each drain gives what it should, and both give the same bytes.
fn drain(rt: &impl Abort, one: &mut impl Plays, other: &mut impl Plays, row: &Row) {
    for wanted in row.drains {
        let count = count(rt, one);
        let out = told(one, 9, Call::Drain).expect(rt, "a drain");
        assert!(rt; (count, size(&out)) == *wanted);
        let planned = by_plan(other).expect(rt, "a plan");
        assert!(rt; planned == out);
    }
    assert!(rt; lost_by(one) == row.lost && lost_by(other) == row.lost);
    assert!(rt; record_of(one) == record_of(other));
}

#[test]
fn a_drain_sends_the_longest_front_that_a_packet_can_say(rt: HostRuntime) {
    for row in &ROWS {
        let mut one = node(&rt, row.seq);
        let mut other = node(&rt, row.seq);
        keep(&rt, &mut one, row.texts);
        keep(&rt, &mut other, row.texts);
        drain(&rt, &mut one, &mut other, row);
    }
}

/// A change that is sent at once has 39 bytes beside its text.
fn is_refused_whole(rt: &(impl Abort + AllocGlobal), node: &mut impl Plays) {
    done(rt, node, &[Call::Open, Call::Accepted]);
    let before = record_of(node);
    let large = value(rt, 0, 1_048_538);
    assert!(rt; changed(node, 1, &large) == Some(EdgeFault::TooLarge));
    assert!(rt; record_of(node) == before && lost_by(node) == 0);
    assert!(rt; changed(node, 1, &value(rt, 0, 1_048_537)).is_none());
}

#[test]
fn a_change_too_large_to_be_sent_at_once_changes_nothing(rt: HostRuntime) {
    let mut node = node(&rt, 0);
    is_refused_whole(&rt, &mut node);
}
