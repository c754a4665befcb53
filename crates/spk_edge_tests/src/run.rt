//! Long runs of a node: the numbers of its messages, and a full store.
use crate::host::published;
use crate::node::{
    Call, Kind, PLAIN, Plays, REBIRTH, is_quiet, lost_by, play_on, record_of, refusal_of,
};
use crate::which::Test;
use spk_edge::{Act, Numbering, Published};
use spk_payload::{Metric, Raw, Value};
use std::process::Abort;

/// Counts what came: the messages, those since the last NBIRTH, and the stamp of the last one.
#[derive(Debug, Drop)]
struct Count {
    all: u64,
    since: u64,
    stamp: u64,
    births: u64,
}

/// Whether a message stands under this number, with its own stamp, and it opens a birth or not.
fn is_under(message: &Published, number: u64) -> bool {
    message.payload.seq == Some(number)
        && message.payload.timestamp == Some(message.stamp)
        && message.opens == (message.topic.as_str() == "spBv1.0/G/NBIRTH/N")
}

/// A message comes: the number that it should stand under, and the least stamp.
fn expected(numbering: Numbering, opens: bool, count: &mut Count) -> (u64, u64) {
    if opens {
        count.since = 0;
        count.births = count.births.saturating_add(1);
    }
    let number = match numbering {
        Numbering::RunsOn => count.all % 256,
        Numbering::Restarts => count.since % 256,
    };
    count.all = count.all.saturating_add(1);
    count.since = count.since.saturating_add(1);
    (number, count.stamp.saturating_add(u64::from(opens)))
}

fn is_numbered(numbering: Numbering, message: &Published, count: &mut Count) -> bool {
    let (number, least) = expected(numbering, message.opens, count);
    count.stamp = message.stamp;
    is_under(message, number) && message.stamp >= least
}

/// Messages stand under the numbers that they should.
fn assert_numbers(
    rt: &impl Abort,
    numbering: Numbering,
    messages: &[Published],
    count: &mut Count,
) {
    for message in messages {
        assert!(rt; is_numbered(numbering, message, count), "of {count:?}");
    }
}

/// What is done at a turn: mostly a change, and now and then a command for a rebirth.
fn act_of<'a>(turn: u64, value: &'a Option<Value>) -> Act<'a> {
    if turn % 97 == 50 {
        Act::Command("spBv1.0/G/NCMD/N", REBIRTH)
    } else {
        Act::Change(1, value)
    }
}

pub(crate) fn run(rt: &impl Abort, node: &mut impl Plays, numbering: Numbering) {
    let mut count = Count {
        all: 0,
        since: 0,
        stamp: 0,
        births: 0,
    };
    for turn in 1u64..701 {
        if turn % 290 == 1 {
            node.lose_connection();
            for act in [Act::Open, Act::Accepted] {
                let messages = published(rt, node, turn, act);
                assert_numbers(rt, numbering, &messages, &mut count);
            }
        }
        let value = Some(Value::Signed((turn % 1_000) as i64));
        let messages = published(
            rt,
            node,
            turn.saturating_sub(turn % 3),
            act_of(turn, &value),
        );
        assert_numbers(rt, numbering, &messages, &mut count);
    }
    assert!(rt; count.all > 700 && count.births == 10, "{count:?}");
    assert!(rt; record_of(node).bd == 3);
}

fn runs(rt: &(impl Abort + AllocGlobal), numbering: Numbering) {
    let kind = Kind { numbering, ..PLAIN };
    play_on(rt, kind, Test::Run(numbering));
}

#[test]
fn the_numbers_of_a_node_that_runs_on_have_no_hole(rt: HostRuntime) {
    runs(&rt, Numbering::RunsOn);
}

#[test]
fn the_numbers_of_a_node_that_restarts_begin_anew_at_each_birth(rt: HostRuntime) {
    runs(&rt, Numbering::Restarts);
}

/// A historical metric of moment 3 with this number.
fn is_kept(metric: &Metric, number: u32) -> bool {
    let is_number = match &metric.value {
        Some(Raw::Int(value)) => *value == number,
        _ => false,
    };
    is_number && metric.historical == Some(true) && metric.timestamp == Some(3)
}

/// Whether these are 32 historical metrics of moment 3, with the numbers from this one on.
fn are_kept(metrics: &[Metric], first: u32) -> bool {
    let mut wanted = first;
    for metric in metrics {
        if !is_kept(metric, wanted) {
            return false;
        }
        wanted = wanted.saturating_add(1);
    }
    metrics.len() == 32
}

/// The numbers that 128 drains send, from this one on, and how many there are.
fn drains(rt: &impl Abort, node: &mut impl Plays, first: u32) -> u32 {
    let mut wanted = first;
    for _turn in 0..128 {
        for message in &published(rt, node, 9, Act::Drain) {
            assert!(rt; are_kept(&message.payload.metrics, wanted), "{wanted}");
            wanted = wanted.saturating_add(32);
        }
    }
    wanted
}

/// 5,000 changes, each of which is taken and gives no packets.
fn is_filled(node: &mut impl Plays) -> bool {
    for value in 1_000..6_000 {
        if !is_quiet(node, 3, Call::Change(1, value)) {
            return false;
        }
    }
    true
}

fn joins(node: &mut impl Plays) -> bool {
    refusal_of(node, 9, Call::Open).is_none() && refusal_of(node, 9, Call::Accepted).is_none()
}

pub(crate) fn keeps_the_last_4096(rt: &impl Abort, node: &mut impl Plays) {
    assert!(rt; is_filled(node) && lost_by(node) == 904 && joins(node));
    assert!(rt; drains(rt, node, 1_904) == 6_000);
    assert!(rt; published(rt, node, 9, Act::Drain).is_empty() && lost_by(node) == 904);
}

#[test]
fn a_full_store_keeps_the_last_4096_changes(rt: HostRuntime) {
    let kind = Kind {
        capacity: 4_096,
        ..PLAIN
    };
    play_on(&rt, kind, Test::Keeps4096);
}
