//! Worlds by tables of acts and answers. Where memory was refused the call is made again.
use crate::acts::{Act, Plays, Row, all_answer, are_at, is_answered, world};
use spk_edge::{EdgeFault, Numbering};
use spk_sequence::{Match, Step};
use spk_world::{Consumed, Done, Published, WorldFault};
use std::alloc::Global;
use std::process::Abort;

/// A node publishes nothing, or one message.
const QUIET: Result<Done, WorldFault> = Ok(Done::Edge { added: 0 });

const SENDS: Result<Done, WorldFault> = Ok(Done::Edge { added: 1 });

/// The message that is handed is consumed.
const ONE: Result<Done, WorldFault> = Ok(Done::Hand(Step::Consumed(1)));

/// Acts have their answers, and then the host has consumed what is at these positions.
fn plays(rt: &(impl Abort + AllocGlobal), world: &mut impl Plays, rows: &[Row], positions: &[u64]) {
    all_answer(rt, world, rows);
    assert!(rt; are_at(world.heard_by(0, 0), positions));
}

static IN_ORDER: [Row; 6] = [
    (Act::Open(5), QUIET),
    (Act::Accepted(6), SENDS),
    (Act::Set(8, 7), SENDS),
    (Act::Hand(0, 9), ONE),
    (Act::Hand(1, 10), ONE),
    (Act::Hand(2, 11), Err(WorldFault::NotPublished)),
];

/// What was heard is what was sent, message by message.
fn are_same(sent: &[Published], heard: &[Consumed]) -> bool {
    for (message, other) in sent.iter().zip(heard) {
        if message.topic.as_str() != other.topic.as_str() || message.payload != other.payload {
            return false;
        }
    }
    sent.len() == heard.len()
}

fn consumes(rt: &(impl Abort + AllocGlobal), world: &mut impl Plays) {
    plays(rt, world, &IN_ORDER, &[0, 1]);
    assert!(rt; world.sent_by(0).len() == 2 && are_same(world.sent_by(0), world.heard_by(0, 0)));
    assert!(rt; world.has_host(0) && !world.has_host(1));
}

#[test]
fn what_is_handed_in_order_is_consumed(rt: HostRuntime) {
    consumes(&rt, &mut world(&rt, Numbering::RunsOn, false));
}

static GAP: [Row; 11] = [
    (Act::Open(5), QUIET),
    (Act::Accepted(6), SENDS),
    (Act::Set(8, 7), SENDS),
    (Act::Rebirth(8), SENDS),
    (Act::Set(9, 9), SENDS),
    (Act::Hand(0, 10), ONE),
    (Act::Hand(3, 11), Ok(Done::Hand(Step::Held))),
    (Act::Hand(1, 12), ONE),
    (Act::Tick(2011), Ok(Done::Tick { gaps: 0 })),
    (Act::Tick(2012), Ok(Done::Tick { gaps: 1 })),
    (Act::Hand(2, 2013), ONE),
];

#[test]
fn a_rebirth_ends_a_gap_by_time(rt: HostRuntime) {
    plays(
        &rt,
        &mut world(&rt, Numbering::RunsOn, false),
        &GAP,
        &[0, 1, 2],
    );
}

static DEATHS: [Row; 12] = [
    (Act::Open(5), QUIET),
    (Act::Accepted(6), SENDS),
    (Act::Cut, QUIET),
    (Act::Open(7), QUIET),
    (Act::Accepted(8), SENDS),
    (Act::Hand(0, 9), ONE),
    (Act::Hand(1, 10), ONE),
    (Act::Death(0, 11), Ok(Done::Death(Match::Ignored))),
    (Act::Death(1, 12), Ok(Done::Death(Match::Matched))),
    (Act::Hand(1, 13), Ok(Done::Hand(Step::OldBirth))),
    (Act::Session(14), Ok(Done::Session)),
    (Act::Hand(1, 15), ONE),
];

#[test]
fn a_death_matches_its_own_session(rt: HostRuntime) {
    plays(
        &rt,
        &mut world(&rt, Numbering::RunsOn, false),
        &DEATHS,
        &[1],
    );
}

static RESTARTS: [Row; 11] = [
    (Act::Open(5), QUIET),
    (Act::Accepted(6), SENDS),
    (Act::Set(8, 7), SENDS),
    (Act::Set(9, 8), SENDS),
    (Act::Rebirth(9), SENDS),
    (Act::Set(10, 10), SENDS),
    (Act::Hand(0, 11), ONE),
    (Act::Hand(4, 12), Err(WorldFault::OvertakesBirth)),
    (Act::Hand(3, 13), ONE),
    (Act::Hand(4, 14), ONE),
    (Act::Hand(1, 15), Ok(Done::Hand(Step::Old))),
];

#[test]
fn where_numbers_restart_nothing_overtakes_its_birth(rt: HostRuntime) {
    plays(
        &rt,
        &mut world(&rt, Numbering::Restarts, false),
        &RESTARTS,
        &[0, 3, 4],
    );
}

static REFUSALS: [Row; 7] = [
    (Act::OpenOfNone(5), Err(WorldFault::NoSuch)),
    (Act::TickOfNone(5), Err(WorldFault::NoSuch)),
    (Act::Death(0, 5), Err(WorldFault::NotPublished)),
    (
        Act::Accepted(5),
        Err(WorldFault::Edge(EdgeFault::WrongPhase)),
    ),
    (Act::Open(5), QUIET),
    (Act::Accepted(6), SENDS),
    (Act::Hand(0, 7), ONE),
];

static FAR: [Row; 2] = [
    (Act::Hand(129, 200), Err(WorldFault::OutsideWindow)),
    (Act::Hand(1, 201), ONE),
];

/// 130 changes.
fn changes(alloc: Global, world: &mut impl Plays) -> bool {
    for now in 7..137 {
        if !is_answered(alloc, world, &(Act::Set(now as i64 + 1, now), SENDS)) {
            return false;
        }
    }
    true
}

/// 256 sessions more.
fn reopens(alloc: Global, world: &mut impl Plays) -> bool {
    for now in 300..556 {
        let is_so = is_answered(alloc, world, &(Act::Cut, QUIET))
            && is_answered(alloc, world, &(Act::Open(now), QUIET));
        if !is_so {
            return false;
        }
    }
    true
}

/// The death of a session too many before the last.
const TOO_FAR: Row = (Act::Death(256, 600), Err(WorldFault::TooFar));

fn refuses(rt: &(impl Abort + AllocGlobal), world: &mut impl Plays) {
    all_answer(rt, world, &REFUSALS);
    assert!(rt; changes(rt.alloc(), world));
    all_answer(rt, world, &FAR);
    assert!(rt; reopens(rt.alloc(), world) && is_answered(rt.alloc(), world, &TOO_FAR));
}

#[test]
fn each_refusal_comes_where_it_should(rt: HostRuntime) {
    refuses(&rt, &mut world(&rt, Numbering::RunsOn, false));
}
