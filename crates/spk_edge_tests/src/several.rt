//! Several changes at once: one message, or none of them.
use crate::node::{Call, FIRST, PLAIN, Plays, config, is_answer, refusal_of, text};
use crate::which::Test;
use spk_device::{Alias, DeviceFault, Owner, Refusal, Registry};
use spk_edge::{ChangesFault, EdgeFault, EdgeNode};
use spk_payload::Value;
use std::process::Abort;

/// A value of the tables.
#[derive(Clone, Copy)]
enum Plain {
    Null,
    Int(i64),
    Words(&'static str),
}

use Plain::{Int, Null, Words};

/// A moment, changes, and the packets that they give, or the refusal and the place of the change that it is of.
type Row = (
    u64,
    &'static [(Alias, Plain)],
    Result<&'static [&'static str], (EdgeFault, Option<usize>)>,
);

/// `t` is 7 and `n` null; the device's `t` is 9.
static BORN: [Row; 9] = [
    (
        7,
        &[(1, Int(7)), (1, Int(8)), (1, Null), (3, Words("ab"))],
        Ok(&[
            "3031001173704276312e302f472f4e444154412f4e0807120610011807500812061001180738011208100318077a0261621801",
        ]),
    ),
    (8, &[(1, Null), (3, Words("ab"))], Ok(&[])),
    (8, &[], Ok(&[])),
    (
        8,
        &[(1, Int(5)), (2, Int(5)), (9, Null)],
        Err((EdgeFault::TwoOwners, Some(1))),
    ),
    (
        8,
        &[(1, Int(5)), (9, Null), (2, Int(5))],
        Err((EdgeFault::Device(Refusal::NoSuch), Some(1))),
    ),
    (
        8,
        &[(1, Int(5)), (1, Int(6)), (1, Words("x")), (1, Int(7))],
        Err((EdgeFault::Device(Refusal::WrongKind), Some(2))),
    ),
    (1 << 63, &[(9, Null)], Err((EdgeFault::ClockEnd, None))),
    // of a device that is down they only set the value
    (8, &[(2, Int(10)), (2, Int(11))], Ok(&[])),
    (8, &[(2, Int(11))], Ok(&[])),
];

/// The birth of the device says what was set, under the number behind the one message.
const DBIRTH: &str =
    "3027001473704276312e302f472f4442495254482f4e2f440809120b0a0174100218092003500b1802";

static BEHIND: [Row; 2] = [
    (
        10,
        &[(2, Int(11)), (2, Int(12)), (2, Null)],
        Ok(&[
            "3029001373704276312e302f472f44444154412f4e2f44080a12061002180a500c12061002180a38011803",
        ]),
    ),
    (
        11,
        &[(1, Int(5))],
        Ok(&["301f001173704276312e302f472f4e444154412f4e080b12061001180b50051804"]),
    ),
];

/// Kept one by one, and silent.
static KEPT: [Row; 3] = [
    (
        12,
        &[(1, Int(5)), (1, Int(6)), (1, Int(6)), (1, Int(7))],
        Ok(&[]),
    ),
    (
        12,
        &[(1, Int(8)), (9, Null)],
        Err((EdgeFault::Device(Refusal::NoSuch), Some(1))),
    ),
    (
        12,
        &[(1, Int(8)), (2, Int(8))],
        Err((EdgeFault::TwoOwners, Some(1))),
    ),
];

/// A value. Where memory was refused its text is made again.
fn value_of(rt: &(impl Abort + AllocGlobal), plain: Plain) -> Option<Value> {
    match plain {
        Null => None,
        Int(number) => Some(Value::Signed(number)),
        Words(words) => Some(Value::Words(text(rt, words))),
    }
}

/// Puts changes into a list.
fn fill(
    rt: &(impl Abort + AllocGlobal),
    list: &mut Vec<(Alias, Option<Value>)>,
    changes: &[(Alias, Plain)],
) {
    list.clear();
    for (alias, plain) in changes {
        let value = value_of(rt, *plain);
        let _ = list.push((*alias, value));
    }
}

/// What several changes are answered. Where memory was refused they are made again.
fn is_told(
    node: &mut impl Plays,
    now: u64,
    changes: &[(Alias, Option<Value>)],
    wanted: &Result<&'static [&'static str], (EdgeFault, Option<usize>)>,
) -> bool {
    let answer = match node.tell_changes(now, changes) {
        Err(
            ChangesFault {
                fault: EdgeFault::NoMemory,
                place: _place,
            },
        ) => node.tell_changes(now, changes),
        answer => answer,
    };
    match (answer, wanted) {
        (Ok(out), Ok(packets)) => is_answer(&Ok(out), &Ok(*packets)),
        (Err(fault), Err((named, place))) => fault.fault == *named && fault.place == *place,
        _ => false,
    }
}

fn play(rt: &(impl Abort + AllocGlobal), node: &mut impl Plays, rows: &[Row]) {
    let mut list = Vec::with_capacity(rt.alloc(), 8).expect(rt, "room for eight");
    for (now, changes, wanted) in rows {
        fill(rt, &mut list, changes);
        assert!(rt; is_told(node, *now, &list, wanted), "at {now}");
    }
}

pub(crate) fn says_several_at_once(rt: &(impl Abort + AllocGlobal), node: &mut impl Plays) {
    assert!(rt; refusal_of(node, 5, Call::Open).is_none());
    assert!(rt; refusal_of(node, 6, Call::Accepted).is_none());
    play(rt, node, &BORN);
    assert!(rt; crate::node::is_told(node, 9, Call::Device(true), &Ok(&[DBIRTH])));
    play(rt, node, &BEHIND);
    node.lose_connection();
    play(rt, node, &KEPT);
    assert!(rt; node.kept_count() == 2);
}

/// What the registry is made of. Where memory was refused a call is made again.
fn add(
    rt: &impl Abort,
    registry: &mut Registry,
    owner: Owner,
    name: &str,
    datatype: u32,
    value: Option<i64>,
) {
    let first = registry.add_metric(owner, name, datatype, value.map(Value::Signed));
    let answer = match first {
        Err(DeviceFault::NoMemory) => {
            registry.add_metric(owner, name, datatype, value.map(Value::Signed))
        }
        answer => answer,
    };
    assert!(rt; answer.is_ok());
}

fn registry(rt: &(impl Abort + AllocGlobal)) -> Registry {
    let mut registry = Registry::new(rt.alloc());
    add(rt, &mut registry, Owner::Node, "t", 3, Some(7));
    if registry.add_device("D").is_err() {
        assert!(rt; registry.add_device("D").is_ok());
    }
    add(rt, &mut registry, Owner::Device(0), "t", 3, Some(9));
    add(rt, &mut registry, Owner::Node, "n", 12, None);
    registry
}

#[test]
fn several_changes_are_one_message_or_none(rt: HostRuntime) {
    let made = match EdgeNode::new(rt.alloc(), config(&rt, PLAIN), FIRST, registry(&rt)) {
        Err(EdgeFault::NoMemory) => {
            EdgeNode::new(rt.alloc(), config(&rt, PLAIN), FIRST, registry(&rt))
        }
        made => made,
    };
    let mut node = made.expect(&rt, "memory is there again");
    Test::Several.play(&rt, &mut node);
}
