//! Plans as texts, and their runs. Where memory was refused all is made again.
use crate::gates::Silent;
use crate::judge::complaint;
use spk_edge::Published;
use spk_files::{FileFault, read_plan};
use spk_host::Taken;
use spk_plan::{Gate, Plan, PlantFault};
use spk_plant::{Report, run_plant};
use std::alloc::Global;
use std::io::Write;
use std::process::Abort;
use std::sync::Wait;
use std::thread::Threads;

/// The nodes' names.
pub(crate) const NAMES: [&str; 17] = [
    "A", "B", "C", "D", "E", "F", "G", "H", "I", "J", "K", "L", "M", "N", "O", "P", "Q",
];

/// Rings of 2,048, a channel of 64.
pub(crate) const WIDE: &str = r#""ring":2048,"ingress":64,"wait":2000"#;

/// 300 changes behind a birth.
pub(crate) const RAMP: &str = r#"["open"],["born"],["ramp",1,300]"#;

/// What each node has: `x`, an Int32, 0, of the alias 1, and a device with `on`, a Boolean, false, of the alias 2.
const BOOK: &str =
    r#""devices":["D"],"metrics":[{"device":null,"name":"x","type":3,"value":0},{"device":"D","name":"on","type":11,"value":false}]"#;

/// Room for any text here, so that no write wants memory. Where memory was refused it is made again.
pub(crate) fn room(rt: &(impl Abort + AllocGlobal)) -> Vec<u8> {
    match Vec::with_capacity(rt.alloc(), 65_536) {
        Ok(held) => held,
        Err(_) => Vec::with_capacity(rt.alloc(), 65_536).expect(rt, "memory is there again"),
    }
}

/// The text of a plan of these nodes, each a name and its script.
pub(crate) fn text_of(
    rt: &(impl Abort + AllocGlobal),
    front: &str,
    nodes: &[(&str, &str)],
) -> Vec<u8> {
    let mut text = room(rt);
    assert!(rt; write!(text, "{{\"group\":\"G\",\"host\":\"H\",{front},\"nodes\":[").is_ok());
    let mut comma = "";
    for (name, script) in nodes {
        assert!(rt;
            write!(
                text,
                "{comma}{{\"node\":\"{name}\",\"capacity\":100,{BOOK},"
            )
            .is_ok()
        );
        assert!(rt; write!(text, "\"script\":[{script}]}}").is_ok());
        comma = ",";
    }
    assert!(rt; text.write_all(b"]}").is_ok());
    text
}

/// The text of a plan of so many nodes, at most 17, with one script.
pub(crate) fn alike(
    rt: &(impl Abort + AllocGlobal),
    front: &str,
    nodes: usize,
    script: &str,
) -> Vec<u8> {
    let all = NAMES.map(|name| (name, script));
    text_of(rt, front, &all[..nodes.min(17)])
}

fn read(rt: &impl AllocGlobal, text: &str) -> Result<Plan, FileFault> {
    read_plan(rt.alloc(), text)
}

/// The plan that a text says.
pub(crate) fn plan_of(rt: &(impl Abort + AllocGlobal), text: &[u8]) -> Plan {
    let text = str::from_utf8(text).expect(rt, "text");
    match read(rt, text) {
        Err(FileFault::NoMemory) => read(rt, text).expect(rt, "memory is there again"),
        answer => answer.expect(rt, "a plan"),
    }
}

/// What is looked at in a report. The tests hold it in place of the report, since it has few parts.
#[derive(Clone, Copy)]
pub(crate) struct Outcome {
    pub(crate) nodes: usize,
    /// Of each node how many births it published, how many messages, and how many of these the host consumed.
    pub(crate) counts: [(usize, usize, usize); 17],
    pub(crate) refused: usize,
    pub(crate) is_cut: bool,
    pub(crate) complaint: Option<&'static str>,
}

/// How many of the messages are births.
fn births_in(published: &[Published]) -> usize {
    let mut births = 0usize;
    for message in published {
        if message.opens {
            births = births.saturating_add(1);
        }
    }
    births
}

/// How many of the messages are a node's.
pub(crate) fn taken_in(consumed: &[Taken], name: &str) -> usize {
    let mut count = 0usize;
    for message in consumed {
        if message.node.as_str() == name {
            count = count.saturating_add(1);
        }
    }
    count
}

/// How many of a node's messages the host consumed.
fn consumed_of(report: &Report, name: &str) -> usize {
    let mut count = 0usize;
    for given in &report.given {
        count = count.saturating_add(taken_in(&given.consumed, name));
    }
    count
}

/// How many births a node of a plan published, how many messages, and how many of these the host consumed.
fn counts(report: &Report, place: usize, name: &str) -> (usize, usize, usize) {
    match report.nodes.get(place) {
        Some(node) => (
            births_in(&node.published),
            node.published.len(),
            consumed_of(report, name),
        ),
        None => (0, 0, 0),
    }
}

fn all_counts(report: &Report) -> [(usize, usize, usize); 17] {
    let mut all = [(0, 0, 0); 17];
    for (place, (count, name)) in all.iter_mut().zip(NAMES.iter()).enumerate() {
        *count = counts(report, place, name);
    }
    all
}

fn summed(alloc: Global, report: &Report) -> Outcome {
    Outcome {
        nodes: report.nodes.len(),
        counts: all_counts(report),
        refused: report.refused,
        is_cut: report.is_cut,
        complaint: complaint(alloc, report),
    }
}

/// What a plan comes to under a gate.
pub(crate) fn run<R, G: Gate + Sync>(rt: &R, plan: Plan, gate: &G) -> Result<Outcome, PlantFault>
where
    R: AllocGlobal + Threads + Wait + Sync,
{
    match run_plant(rt, rt.alloc(), plan, gate) {
        Ok(report) => Ok(summed(rt.alloc(), &report)),
        Err(fault) => Err(fault),
    }
}

/// What the plan of a text comes to; None where memory was refused.
pub(crate) fn ran<R, G: Gate + Sync>(rt: &R, text: &[u8], gate: &G) -> Option<Outcome>
where
    R: AllocGlobal + Threads + Wait + Abort + Sync,
{
    match run(rt, plan_of(rt, text), gate) {
        Ok(outcome) => Some(outcome),
        Err(PlantFault::NoMemory) => None,
        Err(fault) => panic!(rt; "{fault}"),
    }
}

/// The same under no gate. Where memory was refused it is run again.
pub(crate) fn ran_free<R>(rt: &R, text: &[u8]) -> Outcome
where
    R: AllocGlobal + Threads + Wait + Abort + Sync,
{
    match ran(rt, text, &Silent) {
        Some(outcome) => outcome,
        None => ran(rt, text, &Silent).expect(rt, "memory is there again"),
    }
}
