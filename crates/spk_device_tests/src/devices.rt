//! Devices and metrics that are added, or refused for the first reason.
use crate::registers::{Given, Row, is_run};
use spk_device::{DeviceFault, Outcome, Owner, Refusal};
use std::process::Abort;

const ONE_OF_EACH: &[Row] = &[
    Row::Device("D", None),
    Row::Metric(Owner::Node, "t", 3, Some(0), Ok(1)),
    Row::Metric(Owner::Node, "t", 3, Some(0), Err(Refusal::Duplicate)),
    Row::Set(1, Given::Signed(7), Ok(Outcome::Changed)),
    Row::Set(1, Given::Signed(7), Ok(Outcome::Same)),
    Row::Set(1, Given::Flag(true), Err(Refusal::WrongKind)),
    Row::Set(2, Given::Signed(7), Err(Refusal::NoSuch)),
    Row::Set(0, Given::Signed(7), Err(Refusal::NoSuch)),
    Row::Set(u64::MAX, Given::Nothing, Err(Refusal::NoSuch)),
    Row::Set(1, Given::Nothing, Ok(Outcome::Changed)),
    Row::Set(1, Given::Nothing, Ok(Outcome::Same)),
    Row::Device("a/b", Some(Refusal::BadName)),
];

const DEVICES: &[Row] = &[
    Row::Device("D", None),
    Row::Device("d", None),
    Row::Device("D ", None),
    Row::Device("bdSeq", None),
    Row::Device("\u{e9}", None),
    Row::Device("$", None),
    Row::Device("", Some(Refusal::BadName)),
    Row::Device("+", Some(Refusal::BadName)),
    Row::Device("a+", Some(Refusal::BadName)),
    Row::Device("/", Some(Refusal::BadName)),
    Row::Device("#", Some(Refusal::BadName)),
    Row::Device("a#b", Some(Refusal::BadName)),
    Row::Device("\0", Some(Refusal::BadName)),
    Row::Device("a\0", Some(Refusal::BadName)),
    Row::Device("D", Some(Refusal::Duplicate)),
    Row::Device("\u{e9}", Some(Refusal::Duplicate)),
    Row::Counts(6, 0),
    Row::Number("D", Some(0)),
    Row::Number("D ", Some(2)),
    Row::Number("e", None),
    Row::Name(2, Some("D ")),
    Row::Name(6, None),
];

const METRICS: &[Row] = &[
    Row::Device("D", None),
    Row::Metric(Owner::Device(0), "t", 1, Some(-128), Ok(1)),
    Row::Metric(Owner::Node, "bdSeq", 4, Some(0), Err(Refusal::Duplicate)),
    Row::Metric(
        Owner::Device(0),
        "Node Control/Rebirth",
        4,
        None,
        Err(Refusal::Duplicate),
    ),
    Row::Metric(Owner::Device(9), "bdSeq", 9, None, Err(Refusal::Duplicate)),
    Row::Metric(Owner::Device(0), "t", 9, None, Err(Refusal::Duplicate)),
    Row::Metric(Owner::Device(1), "t", 9, None, Err(Refusal::NoSuch)),
    Row::Metric(Owner::Device(usize::MAX), "", 1, None, Err(Refusal::NoSuch)),
    Row::Metric(Owner::Node, "", 9, None, Err(Refusal::WrongKind)),
    Row::Metric(Owner::Node, "t", 0, None, Err(Refusal::WrongKind)),
    Row::Metric(Owner::Node, "t", 10, None, Err(Refusal::WrongKind)),
    Row::Metric(Owner::Node, "t", 16, None, Err(Refusal::WrongKind)),
    Row::Metric(Owner::Node, "t", 19, None, Err(Refusal::WrongKind)),
    Row::Metric(Owner::Node, "t", 1, Some(128), Err(Refusal::WrongKind)),
    Row::Metric(Owner::Node, "t", 1, Some(-129), Err(Refusal::WrongKind)),
    Row::Metric(Owner::Node, "t", 5, Some(1), Err(Refusal::WrongKind)),
    Row::Metric(Owner::Node, "", 1, None, Err(Refusal::BadName)),
    Row::Counts(1, 1),
    Row::Metric(Owner::Node, "t", 3, None, Ok(2)),
    Row::Metric(Owner::Node, "a+/#", 3, None, Ok(3)),
    Row::Metric(Owner::Node, "\0", 3, None, Ok(4)),
];

const FOUND: &[Row] = &[
    Row::Device("D", None),
    Row::Metric(Owner::Device(0), "t", 1, Some(-1), Ok(1)),
    Row::Gauge(1, Owner::Device(0), "t", 1, -1),
    Row::NoGauge(0),
    Row::NoGauge(2),
];

/// What a run shows, and its calls.
static RUNS: [(&str, &[Row]); 4] = [
    ("one metric and one device", ONE_OF_EACH),
    ("devices are refused for the first reason", DEVICES),
    ("metrics are refused for the first reason", METRICS),
    ("a metric is found by its alias", FOUND),
];

#[test]
fn devices_and_metrics_are_added_or_refused(rt: HostRuntime) {
    for (shows, rows) in &RUNS {
        assert!(rt; is_run(&rt, rows), "{shows}");
    }
}

static REFUSALS: [(Refusal, u32, &str); 5] = [
    (Refusal::Duplicate, 40, "Duplicate"),
    (Refusal::NoSuch, 41, "NoSuch"),
    (Refusal::WrongKind, 42, "WrongKind"),
    (Refusal::Full, 43, "Full"),
    (Refusal::BadName, 44, "BadName"),
];

/// Whether a refusal is shown by this name; where memory is refused there is nothing to look at.
fn is_shown(rt: &(impl Abort + AllocGlobal), refusal: Refusal, name: &str) -> bool {
    match format!(in rt.alloc(); "{refusal}") {
        Ok(shown) => shown.as_str() == name,
        Err(_) => true,
    }
}

#[test]
fn refusals_have_numbers_and_names(rt: HostRuntime) {
    assert_eq!(rt; DeviceFault::NoMemory.number(), 1);
    for (refusal, number, name) in &REFUSALS {
        assert!(rt; refusal.number() == *number, "{name}");
        assert!(rt;
            DeviceFault::Refused(*refusal).number() == *number,
            "{name}"
        );
        assert!(rt; is_shown(&rt, *refusal, name), "{name}");
    }
}
