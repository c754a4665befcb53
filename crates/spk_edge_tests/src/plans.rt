//! Plans of one node, taken up or let go.
use crate::host::{done, let_go, published};
use crate::node::{Call, PLAIN, Plays, play_on, record_of};
use crate::which::Test;
use spk_edge::Act;
use spk_payload::Value;
use std::process::Abort;

/// Whether a plan of a change is taken up, and the number of its message.
static PLANS: [(bool, u64); 8] = [
    (false, 1),
    (false, 1),
    (true, 1),
    (false, 2),
    (true, 2),
    (true, 3),
    (false, 4),
    (false, 4),
];

/// The number of the message of a plan that is taken up.
fn taken(rt: &impl Abort, node: &mut impl Plays, act: Act<'_>) -> Option<u64> {
    match published(rt, node, 9, act).first() {
        Some(message) => message.payload.seq,
        None => None,
    }
}

/// The number of the message of a plan that is let go, behind which the node is as it was.
fn left(rt: &impl Abort, node: &mut impl Plays, act: Act<'_>) -> Option<u64> {
    let before = record_of(node);
    let front = let_go(node, 9, act).expect(rt, "a plan");
    assert!(rt; record_of(node) == before);
    match front {
        Some((number, _)) => number,
        None => None,
    }
}

pub(crate) fn numbers_what_is_taken_up(rt: &impl Abort, node: &mut impl Plays) {
    done(rt, node, &[Call::Open, Call::Accepted]);
    let mut value = 100i64;
    for (is_taken, wanted) in PLANS {
        let change = Some(Value::Signed(value));
        let act = Act::Change(1, &change);
        let number = if is_taken {
            taken(rt, node, act)
        } else {
            left(rt, node, act)
        };
        assert!(rt; number == Some(wanted), "at {value}");
        value = value.saturating_add(1);
    }
    assert!(rt; record_of(node).seq == 4);
}

#[test]
fn a_plan_that_is_let_go_takes_no_number(rt: HostRuntime) {
    play_on(&rt, PLAIN, Test::Plans);
}
