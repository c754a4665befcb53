//! A short world whose allocations are refused (`rt try --test --fail-alloc`): where an event answers NoMemory the world is
//! what it was, and the event is done when it comes again.
use crate::acts::{Act, Plays, Row, all_answer, are_at, sizes, world};
use spk_edge::Numbering;
use spk_sequence::{Match, Step};
use spk_world::{Done, WorldFault};
use std::process::Abort;

/// Positions 0 to 2 are the first birth, 3 to 6 the second; 7 to 9 are the second session's.
static ROWS: [Row; 36] = [
    (Act::Open(5), Ok(Done::Edge { added: 0 })),
    (Act::Accepted(6), Ok(Done::Edge { added: 1 })),
    (Act::Set(8, 7), Ok(Done::Edge { added: 1 })),
    (Act::Set(9, 8), Ok(Done::Edge { added: 1 })),
    // held, and consumed behind the one before it
    (Act::Hand(0, 9), Ok(Done::Hand(Step::Consumed(1)))),
    (Act::Hand(2, 10), Ok(Done::Hand(Step::Held))),
    (Act::Hand(1, 11), Ok(Done::Hand(Step::Consumed(2)))),
    // the same behind a rebirth
    (Act::Rebirth(12), Ok(Done::Edge { added: 1 })),
    (Act::Set(10, 13), Ok(Done::Edge { added: 1 })),
    (Act::Hand(4, 14), Ok(Done::Hand(Step::Held))),
    (Act::Hand(3, 15), Ok(Done::Hand(Step::Consumed(2)))),
    // a gap: what was held is gone, and nothing is consumed
    (Act::Set(11, 16), Ok(Done::Edge { added: 1 })),
    (Act::Set(12, 17), Ok(Done::Edge { added: 1 })),
    (Act::Hand(6, 18), Ok(Done::Hand(Step::Held))),
    (Act::Tick(2_017), Ok(Done::Tick { gaps: 0 })),
    (Act::Tick(2_018), Ok(Done::Tick { gaps: 1 })),
    (Act::Hand(5, 2_019), Ok(Done::Hand(Step::NotLive))),
    // the node restarts, and its first session's death comes
    (Act::Cut, Ok(Done::Edge { added: 0 })),
    (Act::Open(20), Ok(Done::Edge { added: 0 })),
    (Act::Accepted(21), Ok(Done::Edge { added: 1 })),
    (Act::Death(0, 2_020), Ok(Done::Death(Match::Matched))),
    (Act::Hand(3, 2_021), Ok(Done::Hand(Step::OldBirth))),
    (Act::Hand(7, 2_022), Ok(Done::Hand(Step::Consumed(1)))),
    (Act::DeviceUp(22), Ok(Done::Edge { added: 1 })),
    (Act::Set(13, 23), Ok(Done::Edge { added: 1 })),
    (Act::Hand(9, 2_023), Ok(Done::Hand(Step::Held))),
    (Act::Hand(8, 2_024), Ok(Done::Hand(Step::Consumed(2)))),
    (Act::Hand(8, 2_025), Ok(Done::Hand(Step::Old))),
    // the next session of the host
    (Act::Session(2_026), Ok(Done::Session)),
    (Act::Hand(8, 2_027), Ok(Done::Hand(Step::NotLive))),
    (Act::Hand(7, 2_028), Ok(Done::Hand(Step::Consumed(1)))),
    (Act::Death(0, 2_029), Ok(Done::Death(Match::Ignored))),
    (Act::Hand(8, 2_030), Ok(Done::Hand(Step::Consumed(1)))),
    // what isn't there
    (Act::Hand(10, 2_031), Err(WorldFault::NotPublished)),
    (Act::Death(2, 2_032), Err(WorldFault::NotPublished)),
    (Act::Hand(9, 2_033), Ok(Done::Hand(Step::Consumed(1)))),
];

fn plays(rt: &(impl Abort + AllocGlobal), world: &mut impl Plays) {
    all_answer(rt, world, &ROWS);
    assert!(rt; sizes(world) == (10, 3) && are_at(world.heard_by(0, 0), &[7, 8, 9]));
}

#[test]
fn an_event_that_finds_no_memory_is_done_when_it_comes_again(rt: HostRuntime) {
    plays(&rt, &mut world(&rt, Numbering::RunsOn, true));
}
