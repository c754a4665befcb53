//! Aliases, values and births; devices that are up or down; how many there may be.
use crate::registers::{Birth, Given, Registers, Row, Spelled, added, fault, is_run};
use spk_device::{Alias, Outcome, Owner, Refusal, Registry};
use std::process::Abort;

const ALIASES: &[Row] = &[
    Row::Device("D", None),
    Row::Device("E", None),
    Row::Metric(Owner::Device(1), "t", 1, Some(-1), Ok(1)),
    Row::Metric(Owner::Node, "t", 3, Some(7), Ok(2)),
    Row::Metric(Owner::Device(1), "u", 4, None, Ok(3)),
    Row::Aliased(Owner::Device(1), "t", Some(1)),
    Row::Aliased(Owner::Node, "t", Some(2)),
    Row::Aliased(Owner::Device(1), "u", Some(3)),
    Row::Aliased(Owner::Device(0), "t", None),
    Row::Births(Owner::Node, &[("t", 2, 3, Some(Spelled::Int(7)))]),
    Row::Births(Owner::Device(0), &[]),
    Row::Births(
        Owner::Device(1),
        &[
            ("t", 1, 1, Some(Spelled::Int(4294967295))),
            ("u", 3, 4, None),
        ],
    ),
    Row::NoBirths(Owner::Device(2), Refusal::NoSuch),
];

const TEXTS: &[Row] = &[
    Row::Metric(Owner::Node, "s", 12, None, Ok(1)),
    Row::Set(1, Given::Nothing, Ok(Outcome::Same)),
    Row::Set(1, Given::Words("hi"), Ok(Outcome::Changed)),
    Row::Set(1, Given::Words("hi"), Ok(Outcome::Same)),
    Row::Set(1, Given::Words("ho"), Ok(Outcome::Changed)),
    Row::Set(1, Given::Words("h"), Ok(Outcome::Changed)),
    Row::Set(1, Given::Words(""), Ok(Outcome::Changed)),
    Row::Set(1, Given::Nothing, Ok(Outcome::Changed)),
];

/// The births of the metrics below.
const LAST_SET: &[Birth] = &[
    ("a", 1, 2, Some(Spelled::Int(4294967294))),
    ("b", 2, 12, Some(Spelled::Words("hi"))),
    ("c", 3, 13, Some(Spelled::Long(9))),
    ("d", 4, 11, None),
];

const VALUES: &[Row] = &[
    Row::Metric(Owner::Node, "a", 2, None, Ok(1)),
    Row::Metric(Owner::Node, "b", 12, None, Ok(2)),
    Row::Metric(Owner::Node, "c", 13, None, Ok(3)),
    Row::Metric(Owner::Node, "d", 11, None, Ok(4)),
    Row::Set(1, Given::Signed(-2), Ok(Outcome::Changed)),
    Row::Set(2, Given::Words("hi"), Ok(Outcome::Changed)),
    Row::Set(3, Given::Unsigned(9), Ok(Outcome::Changed)),
    Row::Set(4, Given::Flag(false), Ok(Outcome::Changed)),
    Row::Set(4, Given::Nothing, Ok(Outcome::Changed)),
    Row::Births(Owner::Node, LAST_SET),
];

const TURNS: &[Row] = &[
    Row::Device("D", None),
    Row::Device("E", None),
    Row::NameUp("D", Some(false)),
    Row::Turn("D", false, Ok(Outcome::Same)),
    Row::Turn("E", true, Ok(Outcome::Changed)),
    Row::Turn("E", true, Ok(Outcome::Same)),
    Row::Turn("E", false, Ok(Outcome::Changed)),
    Row::Turn("D", true, Ok(Outcome::Changed)),
    Row::Turn("F", true, Err(Refusal::NoSuch)),
    Row::Turn("", false, Err(Refusal::NoSuch)),
    Row::Up(0, Some(true)),
    Row::Up(1, Some(false)),
    Row::Up(2, None),
    Row::NameUp("F", None),
];

/// What a run shows, and its calls.
static RUNS: [(&str, &[Row]); 4] = [
    ("aliases count over the whole node", ALIASES),
    ("texts are compared whole", TEXTS),
    ("births have the value last set", VALUES),
    ("devices are up by their last turn", TURNS),
];

#[test]
fn births_and_turns_follow_what_was_set_last(rt: HostRuntime) {
    for (shows, rows) in &RUNS {
        assert!(rt; is_run(&rt, rows), "{shows}");
    }
}

/// The name of a number in decimal digits. Where memory was refused it is made again.
fn digits(rt: &(impl Abort + AllocGlobal), number: usize) -> String {
    match format!(in rt.alloc(); "{number}") {
        Ok(name) => name,
        Err(_) => format!(in rt.alloc(); "{number}").expect(rt, "memory is there again"),
    }
}

static NO_DEVICES: [(&str, Refusal); 3] = [
    ("999", Refusal::Duplicate),
    ("1000", Refusal::Full),
    ("", Refusal::Full),
];

fn takes_1000_devices<T: Registers>(rt: &(impl Abort + AllocGlobal), registry: &mut T) {
    for n in 0..1_000 {
        assert!(rt; registry.device(&digits(rt, n)) == Ok(()), "{n}");
    }
    for (name, refusal) in &NO_DEVICES {
        assert!(rt;
            registry.device(name).err() == fault(Some(*refusal)),
            "{name}"
        );
    }
}

#[test]
fn there_are_1000_devices_at_most(rt: HostRuntime) {
    takes_1000_devices(&rt, &mut Registry::new(rt.alloc()));
}

/// Metrics of the node that are refused: a name, a datatype, and why.
static NO_METRICS: [(&str, u32, Refusal); 4] = [
    ("0", 1, Refusal::Duplicate),
    ("5000", 9, Refusal::WrongKind),
    ("5000", 1, Refusal::Full),
    ("", 1, Refusal::Full),
];

/// Whether the node and the device get a metric of this name each, with these aliases.
fn takes_both<T: Registers>(registry: &mut T, name: &str, aliases: [Alias; 2]) -> bool {
    let [of_node, of_device] = aliases;
    registry.metric_of(Owner::Node, name, 1, None) == Ok(of_node)
        && registry.metric_of(Owner::Device(0), name, 1, None) == Ok(of_device)
}

fn takes_10000_metrics<T: Registers>(rt: &(impl Abort + AllocGlobal), registry: &mut T) {
    assert!(rt; registry.device("D") == Ok(()));
    for n in 0..5_000 {
        let aliases = [2 * n as Alias + 1, 2 * n as Alias + 2];
        assert!(rt; takes_both(registry, &digits(rt, n), aliases), "{n}");
    }
    for (name, datatype, refusal) in &NO_METRICS {
        let answer = registry.metric_of(Owner::Node, name, *datatype, None);
        assert!(rt; answer == added(Err(*refusal)), "{name}");
    }
    assert!(rt; registry.alias(Owner::Device(0), "4999") == Some(10_000));
}

#[test]
fn there_are_10000_metrics_at_most(rt: HostRuntime) {
    takes_10000_metrics(&rt, &mut Registry::new(rt.alloc()));
}
