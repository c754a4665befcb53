//! Plants that gates hold back, and what comes out all the same.
use crate::gates::{HoldsHost, WaitsForAll, WaitsForBirth};
use crate::plans::{Outcome, RAMP, WIDE, alike, ran, ran_free, room, text_of};
use spk_plan::Gate;
use std::process::Abort;
use std::sync::Wait;
use std::sync::atomic::Ordering;
use std::thread::Threads;

/// The birth and 300 changes of each of so many nodes are published and consumed.
fn assert_counts(rt: &impl Abort, outcome: &Outcome, nodes: usize) {
    for counts in outcome.counts.iter().take(nodes) {
        assert!(rt; *counts == (1, 301, 301), "of {nodes}");
    }
    assert_eq!(rt; outcome.complaint, None, "of {nodes}");
}

/// A birth and 300 changes of each of so many nodes are published and consumed, and nothing is refused.
fn all_is_consumed<R>(rt: &R, front: &str, nodes: usize)
where
    R: AllocGlobal + Threads + Wait + Abort + Sync,
{
    let outcome = ran_free(rt, &alike(rt, front, nodes, RAMP));
    assert_eq!(rt; outcome.nodes, nodes, "of {front}");
    assert!(rt; !outcome.is_cut, "of {front}");
    assert_eq!(rt; outcome.refused, 0, "of {front}");
    assert_counts(rt, &outcome, nodes);
}

#[test]
fn what_two_nodes_publish_is_consumed(rt: HostRuntime) {
    all_is_consumed(&rt, WIDE, 2);
}

#[test]
fn one_node_will_do(rt: HostRuntime) {
    all_is_consumed(&rt, WIDE, 1);
}

fn is_consumed_at<R>(rt: &R, width: &str)
where
    R: AllocGlobal + Threads + Wait + Abort + Sync,
{
    let mut front = room(rt);
    for piece in [WIDE, ",\"width\":", width] {
        front.extend_from_slice(piece.as_bytes()).expect(rt, "room");
    }
    all_is_consumed(rt, str::from_utf8(&front).expect(rt, "text"), 2);
}

#[test]
fn the_narrowest_and_the_widest_window_will_do(rt: HostRuntime) {
    for width in ["1", "96"] {
        is_consumed_at(&rt, width);
    }
}

#[test]
fn sixteen_nodes_will_do(rt: HostRuntime) {
    all_is_consumed(&rt, r#""ring":8192,"ingress":64,"wait":2000"#, 16);
}

/// What a plant with rings of 4 comes to whose host is held until so many offers to it were refused.
fn held_back<R>(rt: &R, front: &str, least: u64) -> Outcome
where
    R: AllocGlobal + Threads + Wait + Abort + Sync,
{
    let script = r#"["open"],["born"],["ramp",1,140]"#;
    let text = text_of(rt, front, &[("A", script), ("B", "")]);
    let mut gate = HoldsHost::until(2, least);
    let outcome = match ran(rt, &text, &gate) {
        Some(outcome) => outcome,
        None => {
            gate = HoldsHost::until(2, least);
            ran(rt, &text, &gate).expect(rt, "memory is there again")
        }
    };
    assert_eq!(rt; gate.spent.load(Ordering::SeqCst), 0, "of {front}");
    outcome
}

/// The settings of a plan, how many offers to its host are refused, and how many messages its first node publishes at least.
const HELD: [(&str, usize, usize); 3] = [
    (r#""ring":4,"ingress":64,"wait":2000"#, 128, 131),
    (r#""ring":4,"ingress":64,"wait":2000,"width":96"#, 64, 67),
    (r#""ring":4,"ingress":64,"wait":2000,"width":64"#, 128, 131),
];

/// The host was closed behind so many refusals, and consumed the front of what a node published.
fn assert_closed(rt: &impl Abort, outcome: &Outcome, refused: usize, least: usize) {
    assert!(rt; outcome.is_cut, "of {least}");
    assert_eq!(rt; outcome.refused, refused, "of {least}");
    let [(births, published, consumed), other, ..] = outcome.counts;
    assert_eq!(rt; births, 1, "of {least}");
    assert!(rt;
        least <= published && published <= 141,
        "of {least}: {published}"
    );
    assert!(rt; 3 <= consumed && consumed <= 5, "of {least}: {consumed}");
    assert!(rt; other == (0, 0, 0), "of {least}");
    assert_eq!(rt; outcome.complaint, None, "of {least}");
}

// The host's ring holds 4 while the host is held at the birth: what comes then is refused, until the broker closes the host.
#[test]
fn a_host_that_is_held_is_closed_before_numbers_come_round(rt: HostRuntime) {
    for (front, refused, least) in HELD {
        let outcome = held_back(&rt, front, refused as u64);
        assert_closed(&rt, &outcome, refused, least);
    }
}

/// A plant of so many nodes under a gate: each node's birth and 300 changes are consumed. None where memory was refused.
fn passes<R, G: Gate + Sync>(rt: &R, nodes: usize, gate: &G) -> Option<()>
where
    R: AllocGlobal + Threads + Wait + Abort + Sync,
{
    let front = r#""ring":8192,"ingress":64,"wait":2000"#;
    let outcome = ran(rt, &alike(rt, front, nodes, RAMP), gate)?;
    assert_counts(rt, &outcome, nodes);
    Some(())
}

/// The first put of one node waits for the birth of another.
fn passes_behind<R>(rt: &R, nodes: usize, waits: usize, other: usize)
where
    R: AllocGlobal + Threads + Wait + Abort + Sync,
{
    let mut gate = WaitsForBirth::of(waits, other);
    if passes(rt, nodes, &gate).is_none() {
        gate = WaitsForBirth::of(waits, other);
        passes(rt, nodes, &gate).expect(rt, "memory is there again");
    }
    assert_eq!(rt; gate.spent.load(Ordering::SeqCst), 0, "of {nodes}: {waits}");
}

/// The first put of each node waits for all.
fn passes_together<R>(rt: &R, nodes: usize)
where
    R: AllocGlobal + Threads + Wait + Abort + Sync,
{
    let mut gate = WaitsForAll::of(nodes);
    if passes(rt, nodes, &gate).is_none() {
        gate = WaitsForAll::of(nodes);
        passes(rt, nodes, &gate).expect(rt, "memory is there again");
    }
    assert_eq!(rt; gate.spent.load(Ordering::SeqCst), 0, "of {nodes}");
}

// On one thread a node that waits for another would wait for ever.
#[test]
fn nodes_run_beside_one_another(rt: HostRuntime) {
    for (nodes, waits, other) in [(2, 0, 1), (2, 1, 0), (16, 0, 15), (16, 15, 0)] {
        passes_behind(&rt, nodes, waits, other);
    }
    for nodes in [2, 16] {
        passes_together(&rt, nodes);
    }
}
