//! Each refusal in each phase, in the order in which refusals are asked for.
use crate::host::{
    BAD, HOSTED, ONLINE, STEPS, assert_refused, done, is_taken, letters, plan_refusal,
};
use crate::node::{Call, Kind, Plays, phase_of, play_on};
use crate::which::Test;
use spk_device::Refusal;
use spk_edge::{Act, EdgeFault, Phase};
use spk_payload::Value;
use std::process::Abort;

/// An act, what it is refused with, and whether it is taken when Idle, Connecting, Waiting and Born.
type Refused<'a> = (Act<'a>, EdgeFault, [bool; 4]);

const JOINED: [bool; 4] = [false, false, true, true];

const NO_SUCH: EdgeFault = EdgeFault::Device(Refusal::NoSuch);

const WRONG_KIND: EdgeFault = EdgeFault::Device(Refusal::WrongKind);

fn refused<'a>(null: &'a Option<Value>, flag: &'a Option<Value>) -> [Refused<'a>; 8] {
    [
        (Act::Change(3, null), NO_SUCH, [true; 4]),
        (Act::Change(1, flag), WRONG_KIND, [true; 4]),
        (Act::Device("E", true), NO_SUCH, [true; 4]),
        (
            Act::Command("spBv1.0/G/NCMD/M", b""),
            EdgeFault::BadCommand,
            JOINED,
        ),
        (
            Act::Command("spBv1.0/G/NCMD/N", b"\x12"),
            EdgeFault::BadCommand,
            JOINED,
        ),
        (
            Act::Command("spBv1.0/G/DCMD/N/D", b"\x12\x05\x0a\x01u\x50\x05"),
            EdgeFault::BadCommand,
            JOINED,
        ),
        (Act::State(b"ONLINE"), BAD, JOINED),
        (Act::State(b""), BAD, JOINED),
    ]
}

pub(crate) fn refuses_in_each_phase(rt: &impl Abort, node: &mut impl Plays) {
    let null = None;
    let flag = Some(Value::Flag(true));
    for step in STEPS {
        done(rt, node, &[step]);
        for (act, why, taken) in refused(&null, &flag) {
            let (fault, late) = if is_taken(taken, phase_of(node)) {
                (why, EdgeFault::ClockEnd)
            } else {
                (EdgeFault::WrongPhase, EdgeFault::WrongPhase)
            };
            assert_refused(rt, node, act, Some(fault), late);
        }
    }
    assert!(rt; phase_of(node) == Phase::Born);
}

#[test]
fn what_is_refused_is_refused_in_each_phase(rt: HostRuntime) {
    play_on(&rt, HOSTED, Test::Refusals);
}

/// The greatest moment.
const LAST: u64 = (1 << 63) - 1;

pub(crate) fn waits_behind_the_last_stamp(rt: &impl Abort, node: &mut impl Plays) {
    done(rt, node, &[Call::Open, Call::Accepted]);
    let online = plan_refusal(node, 9, Act::State(ONLINE));
    assert!(rt; online == Some(EdgeFault::ClockEnd) && phase_of(node) == Phase::Waiting);
}

pub(crate) fn is_not_born_again(rt: &impl Abort, node: &mut impl Plays) {
    done(rt, node, &[Call::Open, Call::Accepted, Call::State(ONLINE)]);
    let again = Act::Command("spBv1.0/G/NCMD/N", crate::node::REBIRTH);
    assert!(rt; plan_refusal(node, 9, again) == Some(EdgeFault::ClockEnd));
    // other messages may repeat the last stamp
    assert!(rt; plan_refusal(node, 9, Act::Device("D", true)).is_none());
}

#[test]
fn a_birth_behind_the_last_stamp_is_refused(rt: HostRuntime) {
    let at_the_end = Kind {
        stamp: Some(LAST),
        ..HOSTED
    };
    play_on(&rt, at_the_end, Test::LastStamp);
    let one_before = Kind {
        stamp: Some(LAST - 1),
        ..HOSTED
    };
    play_on(&rt, one_before, Test::NotBornAgain);
}

/// After these calls an act is too large, in this phase.
fn is_too_large(
    rt: &impl Abort,
    node: &mut impl Plays,
    calls: &[Call],
    act: Act<'_>,
    phase: Phase,
) {
    done(rt, node, calls);
    assert!(rt; plan_refusal(node, 9, act) == Some(EdgeFault::TooLarge));
    assert!(rt; phase_of(node) == phase);
}

/// A device of a name goes up.
fn goes_up(rt: &impl Abort, node: &mut impl Plays, name: &str) {
    let is_up = node.tell_device(9, name, true).is_ok();
    assert!(rt; is_up || node.tell_device(9, name, true).is_ok());
}

const JOINING: [Call; 3] = [Call::Open, Call::Accepted, Call::State(ONLINE)];

pub(crate) fn has_a_host_too_long(rt: &impl Abort, node: &mut impl Plays) {
    is_too_large(rt, node, &[Call::Open], Act::Accepted, Phase::Connecting);
}

pub(crate) fn has_a_device_too_long(rt: &impl Abort, node: &mut impl Plays, name: &str) {
    is_too_large(rt, node, &JOINING, Act::Device(name, true), Phase::Born);
}

pub(crate) fn has_a_birth_too_long(rt: &impl Abort, node: &mut impl Plays, name: &str) {
    goes_up(rt, node, name);
    let calls = [Call::Open, Call::Accepted];
    is_too_large(rt, node, &calls, Act::State(ONLINE), Phase::Waiting);
}

#[test]
fn what_is_too_large_is_refused_in_each_phase(rt: HostRuntime) {
    // "spBv1.0/STATE/" and a name of a host are a filter of over 65,535 bytes
    let host = letters(&rt, 65_522);
    let kind = Kind {
        primary: Some(host.as_str()),
        ..HOSTED
    };
    play_on(&rt, kind, Test::HostTooLong);

    // "spBv1.0/G/DBIRTH/N/" and a name of a device are a topic of over 65,535 bytes
    let device = letters(&rt, 65_517);
    let kind = Kind {
        device: device.as_str(),
        ..HOSTED
    };
    play_on(&rt, kind, Test::DeviceTooLong(device.as_str()));
    play_on(&rt, kind, Test::BirthTooLong(device.as_str()));
}
