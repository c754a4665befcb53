//! The limits of a plan: its file is read exactly within them, and no other plan is run.
use crate::gates::Silent;
use crate::plans::{WIDE, alike, plan_of, ran_free, room, run, text_of};
use spk_plan::{Plan, PlanNode, PlantFault, Sort, Step};
use std::io::Write;
use std::process::Abort;
use std::sync::Wait;
use std::thread::Threads;

/// A script that opens so many connections and leaves each again.
fn opens(rt: &(impl Abort + AllocGlobal), count: usize) -> Vec<u8> {
    let mut script = room(rt);
    for _ in 0..count {
        assert!(rt; script.write_all(b"[\"open\"],[\"cut\"],").is_ok());
    }
    assert!(rt; script.write_all(b"[\"set\",1,1]").is_ok());
    script
}

/// A plan of one node and this script is run, and is born so often at most: a connection that is left at once may have been accepted before.
fn runs<R>(rt: &R, front: &str, script: &[u8], most: usize)
where
    R: AllocGlobal + Threads + Wait + Abort + Sync,
{
    let script = str::from_utf8(script).expect(rt, "text");
    let outcome = ran_free(rt, &text_of(rt, front, &[("A", script)]));
    let [(births, _published, _consumed), ..] = outcome.counts;
    assert!(rt; births <= most, "{births} of {front}");
}

#[test]
fn plans_at_their_limits_are_run(rt: HostRuntime) {
    runs(&rt, WIDE, &opens(&rt, 200), 200);
    runs(&rt, WIDE, br#"["ramp",1,100000]"#, 0);
    runs(
        &rt,
        WIDE,
        br#"["set",1,5],["ramp",1,60000],["ramp",1,39999],["born"]"#,
        0,
    );
    runs(&rt, r#""ring":4,"ingress":1,"wait":0,"width":1"#, b"", 0);
    runs(
        &rt,
        r#""ring":65536,"ingress":65536,"wait":18446744073709551615,"width":96"#,
        b"",
        0,
    );
}

/// What is changed in a plan of one node to make it one that can't run.
#[derive(Clone, Copy)]
enum Change {
    NoNode,
    SeventeenNodes,
    Namesake,
    OneOpenMore,
    OneChangeMore,
    Ring(usize),
    Ingress(usize),
    Capacity(usize),
    NodeName(&'static str),
    HostName(&'static str),
    GroupName(&'static str),
}

const CHANGES: [Change; 16] = [
    Change::NoNode,
    Change::SeventeenNodes,
    Change::Namesake,
    Change::OneOpenMore,
    Change::OneChangeMore,
    Change::Ring(3),
    Change::Ring(65_537),
    Change::Ingress(0),
    Change::Ingress(65_537),
    Change::Capacity(0),
    Change::Capacity(4_097),
    Change::NodeName("a/b"),
    Change::NodeName(""),
    Change::HostName("#"),
    Change::GroupName("+"),
    Change::GroupName(""),
];

/// A copy of a text. Where memory was refused it is made again.
fn words(rt: &(impl Abort + AllocGlobal), text: &str) -> String {
    match String::from_str(rt.alloc(), text) {
        Ok(words) => words,
        Err(_) => String::from_str(rt.alloc(), text).expect(rt, "memory is there again"),
    }
}

/// The step that a script has one too many of.
fn step_of(change: Change) -> Step {
    match change {
        Change::OneOpenMore => Step::Open,
        _ => Step::Ramp {
            alias: 1,
            sort: Sort::Signed,
            changes: 1,
        },
    }
}

/// A step more of each node.
fn add_step(rt: &impl Abort, nodes: &mut [PlanNode], change: Change) {
    for node in nodes.iter_mut() {
        if node.script.push(step_of(change)).is_err() {
            assert!(rt; node.script.push(step_of(change)).is_ok());
        }
    }
}

/// A node of another plan.
fn other_node(rt: &(impl Abort + AllocGlobal)) -> PlanNode {
    let mut other = plan_of(rt, &text_of(rt, WIDE, &[("Z", "")]));
    other.nodes.pop().expect(rt, "a node")
}

/// One more. Where memory was refused the room is asked for again.
fn push<T: Drop>(rt: &impl Abort, items: &mut Vec<T>, item: T) {
    if items.reserve(1).is_err() {
        assert!(rt; items.reserve(1).is_ok());
    }
    assert!(rt; items.push(item).is_ok());
}

/// Each node has this name.
fn rename(rt: &(impl Abort + AllocGlobal), nodes: &mut [PlanNode], name: &str) {
    for node in nodes.iter_mut() {
        node.node = words(rt, name);
    }
}

/// Each node keeps so many changes.
fn keep(nodes: &mut [PlanNode], capacity: usize) {
    for node in nodes.iter_mut() {
        node.capacity = capacity;
    }
}

/// The text of the plan that is changed.
fn text_before(rt: &(impl Abort + AllocGlobal), change: Change) -> Vec<u8> {
    match change {
        Change::SeventeenNodes => alike(rt, WIDE, 16, ""),
        Change::Namesake => alike(rt, WIDE, 2, ""),
        Change::OneChangeMore => text_of(rt, WIDE, &[("A", r#"["ramp",1,100000]"#)]),
        _ => {
            let script = opens(rt, 200);
            let script = str::from_utf8(&script).expect(rt, "text");
            text_of(rt, WIDE, &[("A", script)])
        }
    }
}

/// A plan with this change.
fn changed(rt: &(impl Abort + AllocGlobal), change: Change) -> Plan {
    let mut plan = plan_of(rt, &text_before(rt, change));
    match change {
        Change::NoNode => plan.nodes.clear(),
        Change::SeventeenNodes => push(rt, &mut plan.nodes, other_node(rt)),
        Change::Namesake => rename(rt, &mut plan.nodes, "A"),
        Change::OneOpenMore | Change::OneChangeMore => add_step(rt, &mut plan.nodes, change),
        Change::Ring(capacity) => plan.ring = capacity,
        Change::Ingress(capacity) => plan.ingress = capacity,
        Change::Capacity(capacity) => keep(&mut plan.nodes, capacity),
        Change::NodeName(name) => rename(rt, &mut plan.nodes, name),
        Change::HostName(name) => plan.host = words(rt, name),
        Change::GroupName(name) => plan.group = words(rt, name),
    }
    plan
}

/// What a plan with this change is refused for.
fn refused<R>(rt: &R, change: Change) -> Option<PlantFault>
where
    R: AllocGlobal + Threads + Wait + Abort + Sync,
{
    run(rt, changed(rt, change), &Silent).err()
}

#[test]
fn no_other_plan_is_run(rt: HostRuntime) {
    for (place, change) in CHANGES.iter().enumerate() {
        let answer = match refused(&rt, *change) {
            Some(PlantFault::NoMemory) => refused(&rt, *change),
            answer => answer,
        };
        assert_eq!(rt; answer, Some(PlantFault::BadPlan), "of {place}");
    }
    assert_eq!(rt; PlantFault::BadPlan.number(), 92);
}
