//! A node with a primary host: STATE, kept changes, packets of the server, and the phases.
use crate::node::{
    CONNECT, Call, Front, Kind, NBIRTH, NDEATH, PLAIN, Plays, Row, is_told, lost_by, phase_of,
    play, play_on, refusal_of,
};
use crate::which::Test;
use spk_edge::{Act, EdgeFault, Phase, Published};
use spk_payload::Metric;
use spk_state::StateFault;
use std::process::Abort;

/// A node whose primary host is H.
pub(crate) const HOSTED: Kind<'static> = Kind {
    primary: Some("H"),
    ..PLAIN
};

/// A text of so many letters. Where memory was refused it is made again.
pub(crate) fn letters(rt: &(impl Abort + AllocGlobal), count: usize) -> String {
    match "a".repeat(rt.alloc(), count) {
        Ok(text) => text,
        Err(_) => "a"
            .repeat(rt.alloc(), count)
            .expect(rt, "memory is there again"),
    }
}

pub(crate) const ONLINE: &[u8] = b"{\"online\":true,\"timestamp\":1}";

const OFFLINE: &[u8] = b"{\"online\":false,\"timestamp\":1}";

const OLD: &[u8] = b"{\"online\":true,\"timestamp\":0}";

pub(crate) const BAD: EdgeFault = EdgeFault::State(StateFault::BadState);

pub(crate) const SUBSCRIBE: &str =
    "823c0001001073704276312e302f472f4e434d442f4e01001273704276312e302f472f44434d442f4e2f2b01000f73704276312e302f53544154452f4801";

static HISTORY: [Row; 11] = [
    (
        1,
        Call::Open,
        Ok(&[
            "103400044d515454040e003c0003472f4e001273704276312e302f472f4e44454154482f4e000f0801120b0a05626453657120045800",
        ]),
    ),
    (2, Call::Accepted, Ok(&[SUBSCRIBE])),
    (3, Call::Change(1, 1), Ok(&[])),
    (4, Call::Change(1, 2), Ok(&[])),
    (5, Call::Change(1, 3), Ok(&[])),
    (6, Call::Change(1, 4), Ok(&[])),
    (7, Call::Change(1, 5), Ok(&[])),
    (
        8,
        Call::State(ONLINE),
        Ok(&[
            "3052001273704276312e302f472f4e42495254482f4e0808120d0a056264536571180820045800121c0a144e6f646520436f6e74726f6c2f526562697274681808200b7000120b0a017410011808200350051800",
        ]),
    ),
    (
        9,
        Call::Change(1, 6),
        Ok(&["301f001173704276312e302f472f4e444154412f4e080912061001180950061801"]),
    ),
    (
        10,
        Call::Drain,
        Ok(&[
            "3035001173704276312e302f472f4e444154412f4e080a1208100118052801500312081001180628015004120810011807280150051802",
        ]),
    ),
    (11, Call::Drain, Ok(&[])),
];

pub(crate) fn sends_kept_changes(rt: &impl Abort, node: &mut impl Plays) {
    play(rt, node, &HISTORY);
    assert!(rt; lost_by(node) == 2);
}

#[test]
fn kept_changes_go_out_once_the_host_is_online(rt: HostRuntime) {
    play_on(&rt, HOSTED, Test::KeptChanges);
}

static STATES: [Row; 17] = [
    (5, Call::State(ONLINE), Err(EdgeFault::WrongPhase)),
    (5, Call::Open, Ok(&[CONNECT])),
    (6, Call::State(ONLINE), Err(EdgeFault::WrongPhase)),
    (6, Call::Accepted, Ok(&[SUBSCRIBE])),
    (6, Call::State(OFFLINE), Ok(&[])),
    (6, Call::State(OLD), Ok(&[])),
    (6, Call::State(b"ONLINE"), Err(BAD)),
    (
        6,
        Call::State(b"{\"online\":true,\"timestamp\":9223372036854775808}"),
        Err(BAD),
    ),
    (1 << 63, Call::State(ONLINE), Err(EdgeFault::ClockEnd)),
    (6, Call::State(ONLINE), Ok(&[NBIRTH])),
    (7, Call::State(ONLINE), Ok(&[])),
    (
        7,
        Call::State(b"{\"online\":false,\"timestamp\":0}"),
        Ok(&[]),
    ),
    (7, Call::State(b""), Err(BAD)),
    (
        7,
        Call::State(b"{\"online\":false,\"timestamp\":2}"),
        Ok(&[NDEATH, "e000"]),
    ),
    (
        8,
        Call::Open,
        Ok(&[
            "103400044d515454040e003c0003472f4e001273704276312e302f472f4e44454154482f4e000f0808120b0a05626453657120045801",
        ]),
    ),
    (9, Call::Accepted, Ok(&[SUBSCRIBE])),
    // what was heard is kept over a connection
    (9, Call::State(ONLINE), Ok(&[])),
];

pub(crate) fn hears_its_host(rt: &impl Abort, node: &mut impl Plays) {
    play(rt, node, &STATES);
    assert!(rt; phase_of(node) == Phase::Waiting);
}

pub(crate) fn hears_no_host(rt: &impl Abort, node: &mut impl Plays) {
    assert!(rt; refusal_of(node, 5, Call::Open).is_none());
    assert!(rt; refusal_of(node, 6, Call::Accepted).is_none());
    assert!(rt; is_told(node, 7, Call::State(OFFLINE), &Ok(&[])));
    assert!(rt; is_told(node, 7, Call::State(b"ONLINE"), &Ok(&[])));
    assert!(rt; phase_of(node) == Phase::Born);
}

#[test]
fn a_node_hears_its_primary_host_alone(rt: HostRuntime) {
    play_on(&rt, HOSTED, Test::HearsItsHost);
    play_on(&rt, PLAIN, Test::HearsNoHost);
}

/// The first message of a plan that is let go. Where memory was refused it is made again.
pub(crate) fn let_go(
    node: &mut impl Plays,
    now: u64,
    act: Act<'_>,
) -> Result<Option<Front>, EdgeFault> {
    match node.let_go(now, act) {
        Err(EdgeFault::NoMemory) => node.let_go(now, act),
        answer => answer,
    }
}

/// What an act is refused for, if it is.
pub(crate) fn plan_refusal(node: &mut impl Plays, now: u64, act: Act<'_>) -> Option<EdgeFault> {
    let_go(node, now, act).err()
}

/// What an act publishes. Where memory was refused it is planned again.
pub(crate) fn published(
    rt: &impl Abort,
    node: &mut impl Plays,
    now: u64,
    act: Act<'_>,
) -> Vec<Published> {
    let answer = match node.tell_published(now, act) {
        Err(EdgeFault::NoMemory) => node.tell_published(now, act),
        answer => answer,
    };
    answer.expect(rt, "a plan")
}

fn are_historical(metrics: &[Metric]) -> bool {
    for metric in metrics {
        if metric.historical != Some(true) {
            return false;
        }
    }
    true
}

/// Whether a message is of the device, and how many metrics it has. One that isn't historical makes none of them count.
fn counted(message: &Published) -> (bool, usize) {
    let metrics = message.payload.metrics.as_slice();
    let is_device = message.topic.as_str() == "spBv1.0/G/DDATA/N/D";
    let count = if are_historical(metrics) {
        metrics.len()
    } else {
        0
    };
    (is_device, count)
}

/// The device and how many metrics a message of a drain has. All of them are historical.
fn drained(rt: &impl Abort, node: &mut impl Plays) -> Option<(bool, usize)> {
    match published(rt, node, 9, Act::Drain).first() {
        Some(message) => Some(counted(message)),
        None => None,
    }
}

/// Does calls that are all taken.
pub(crate) fn done(rt: &impl Abort, node: &mut impl Plays, calls: &[Call]) {
    for call in calls {
        assert!(rt; refusal_of(node, 9, *call).is_none(), "of {call:?}");
    }
}

/// What five drains send, 32 changes of one owner at the most.
static DRAINS: [Option<(bool, usize)>; 5] = [
    Some((false, 32)),
    Some((false, 1)),
    Some((true, 2)),
    Some((false, 1)),
    None,
];

pub(crate) fn sends_changes_of_one_owner(rt: &impl Abort, node: &mut impl Plays) {
    done(rt, node, &[Call::Device(true)]);
    for value in 100..133 {
        done(rt, node, &[Call::Change(1, value)]);
    }
    let rest = [
        Call::Change(2, 10),
        Call::Change(2, 11),
        Call::Change(1, 8),
        Call::Open,
        Call::Accepted,
    ];
    done(rt, node, &rest);
    for wanted in &DRAINS {
        assert!(rt; drained(rt, node) == *wanted);
    }
    assert!(rt; lost_by(node) == 0);
}

const STORING: Kind<'static> = Kind {
    capacity: 64,
    ..PLAIN
};

#[test]
fn a_drain_sends_32_changes_of_one_owner(rt: HostRuntime) {
    play_on(&rt, STORING, Test::OneOwner);
}

/// What three drains send.
static OF_A_DEVICE_DOWN: [Option<(bool, usize)>; 3] = [None, Some((false, 1)), None];

pub(crate) fn drops_changes_of_a_device_that_is_down(rt: &impl Abort, node: &mut impl Plays) {
    let calls = [
        Call::Device(true),
        Call::Change(2, 10),
        Call::Change(2, 11),
        Call::Change(1, 8),
        Call::Open,
        Call::Accepted,
        Call::Device(false),
    ];
    done(rt, node, &calls);
    for wanted in &OF_A_DEVICE_DOWN {
        assert!(rt; drained(rt, node) == *wanted && lost_by(node) == 2);
    }
}

#[test]
fn a_drain_drops_the_changes_of_a_device_that_is_down(rt: HostRuntime) {
    play_on(&rt, STORING, Test::DeviceDown);
}

/// An act, and whether it is taken when Idle, Connecting, Waiting and Born.
type Taken = (Act<'static>, [bool; 4]);

fn acts() -> [Taken; 10] {
    [
        (Act::Open, [true, false, false, false]),
        (Act::Accepted, [false, true, false, false]),
        (Act::Device("D", true), [true; 4]),
        (
            Act::Command("spBv1.0/G/NCMD/N", b""),
            [false, false, true, true],
        ),
        (Act::State(ONLINE), [false, false, true, true]),
        (Act::Drain, [false, false, false, true]),
        (Act::Stop, [false, false, true, true]),
        (Act::Cut, [true; 4]),
        (Act::TurnedAway, [true; 4]),
        (Act::Pass, [true; 4]),
    ]
}

/// Whether an act is taken in a phase.
pub(crate) fn is_taken(taken: [bool; 4], phase: Phase) -> bool {
    let [idle, connecting, waiting, born] = taken;
    match phase {
        Phase::Idle => idle,
        Phase::Connecting => connecting,
        Phase::Waiting => waiting,
        Phase::Born => born,
    }
}

/// The steps of a node with a primary host, from Idle to Born.
pub(crate) const STEPS: [Call; 4] = [
    Call::Device(false),
    Call::Open,
    Call::Accepted,
    Call::State(ONLINE),
];

/// An act at two moments, of which the second is behind the clock's end: it is taken, or refused with these faults.
pub(crate) fn assert_refused(
    rt: &impl Abort,
    node: &mut impl Plays,
    act: Act<'_>,
    fault: Option<EdgeFault>,
    late: EdgeFault,
) {
    assert!(rt; plan_refusal(node, 9, act) == fault);
    assert!(rt; plan_refusal(node, 1 << 63, act) == Some(late));
}

pub(crate) fn takes_acts_in_their_phases(rt: &impl Abort, node: &mut impl Plays) {
    for step in STEPS {
        done(rt, node, &[step]);
        for (act, taken) in acts() {
            let (fault, late) = if is_taken(taken, phase_of(node)) {
                (None, EdgeFault::ClockEnd)
            } else {
                (Some(EdgeFault::WrongPhase), EdgeFault::WrongPhase)
            };
            assert_refused(rt, node, act, fault, late);
        }
    }
    assert!(rt; phase_of(node) == Phase::Born);
}

#[test]
fn an_act_is_taken_in_its_phases_before_the_clock_ends(rt: HostRuntime) {
    play_on(&rt, HOSTED, Test::Phases);
}
