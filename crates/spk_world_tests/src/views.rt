//! What a host shows of a node along a world: whether the node is online, whether its metric is stale, and its value. Where memory was refused
//! the call is made again.
use crate::acts::{Act, Plays, Row, is_answered, world};
use spk_edge::Numbering;
use spk_host_rules::Shown;
use spk_payload::Value;
use spk_sequence::{Match, Step};
use spk_world::{Done, World, WorldFault};
use std::process::Abort;

/// A node publishes nothing, or one message.
const QUIET: Result<Done, WorldFault> = Ok(Done::Edge { added: 0 });

const SENDS: Result<Done, WorldFault> = Ok(Done::Edge { added: 1 });

/// The message that is handed is consumed.
const ONE: Result<Done, WorldFault> = Ok(Done::Hand(Step::Consumed(1)));

/// Whether the node is online, whether its metric `t` is stale, and its value.
type Seen = (bool, bool, i64);

/// What the tests ask of a world beside what is done in it.
trait Shows: Plays {
    /// What the host 0 shows of the node N of the group G. None where it shows nothing of it.
    fn seen(&self) -> Option<Seen>;
}

impl Shows for World {
    fn seen(&self) -> Option<Seen> {
        let view = self.host(0)?.view("G", "N")?;
        match view.metric("t")?.shown() {
            Shown::Typed(Value::Signed(value)) => {
                Some((view.is_online(), view.is_stale(), *value))
            }
            _ => None,
        }
    }
}

/// Each act has its answer, and behind it this is shown.
fn sees(rt: &(impl Abort + AllocGlobal), world: &mut impl Shows, rows: &[(Row, Option<Seen>)]) {
    for (place, (row, wanted)) in rows.iter().enumerate() {
        assert!(rt; is_answered(rt.alloc(), world, row), "at {place}");
        assert_eq!(rt; world.seen(), *wanted, "at {place}");
    }
}

/// A birth makes a node online and fresh. A gap leaves it online, and stale until the next birth; the end of the host's session and
/// the death of its own make it offline and stale, with the values that it had (Sparkplug 3.0.0, chapters 4 and 5; gaps are an own rule).
static ENDS: [(Row, Option<Seen>); 18] = [
    ((Act::Open(5), QUIET), None),
    ((Act::Accepted(6), SENDS), None),
    ((Act::Set(8, 7), SENDS), None),
    ((Act::Hand(0, 9), ONE), Some((true, false, 7))),
    ((Act::Hand(1, 10), ONE), Some((true, false, 8))),
    ((Act::Set(9, 11), SENDS), Some((true, false, 8))),
    ((Act::Set(10, 12), SENDS), Some((true, false, 8))),
    (
        (Act::Hand(3, 13), Ok(Done::Hand(Step::Held))),
        Some((true, false, 8)),
    ),
    (
        (Act::Tick(2_013), Ok(Done::Tick { gaps: 1 })),
        Some((true, true, 8)),
    ),
    (
        (Act::Hand(2, 2_014), Ok(Done::Hand(Step::NotLive))),
        Some((true, true, 8)),
    ),
    ((Act::Rebirth(2_015), SENDS), Some((true, true, 8))),
    ((Act::Hand(4, 2_016), ONE), Some((true, false, 10))),
    (
        (Act::Session(2_017), Ok(Done::Session)),
        Some((false, true, 10)),
    ),
    (
        (Act::Tick(9_000), Ok(Done::Tick { gaps: 0 })),
        Some((false, true, 10)),
    ),
    ((Act::Hand(4, 9_001), ONE), Some((true, false, 10))),
    ((Act::Cut, QUIET), Some((true, false, 10))),
    (
        (Act::Death(0, 9_002), Ok(Done::Death(Match::Matched))),
        Some((false, true, 10)),
    ),
    (
        (Act::Hand(4, 9_003), Ok(Done::Hand(Step::OldBirth))),
        Some((false, true, 10)),
    ),
];

#[test]
fn whoever_ended_is_offline_and_stale(rt: HostRuntime) {
    sees(&rt, &mut world(&rt, Numbering::RunsOn, false), &ENDS);
}

/// Five changes while there is no session, of which three are kept; the birth has the last value, a change behind it is shown, and the kept
/// ones, sent as history, change nothing that is shown (Sparkplug 3.0.0, 6.4.6 on is_historical).
static HISTORY: [(Row, Option<Seen>); 15] = [
    ((Act::Open(1), QUIET), None),
    ((Act::Accepted(2), SENDS), None),
    ((Act::Cut, QUIET), None),
    ((Act::Set(1, 3), QUIET), None),
    ((Act::Set(2, 4), QUIET), None),
    ((Act::Set(3, 5), QUIET), None),
    ((Act::Set(4, 6), QUIET), None),
    ((Act::Set(5, 7), QUIET), None),
    ((Act::Open(8), QUIET), None),
    ((Act::Accepted(8), SENDS), None),
    ((Act::Set(6, 9), SENDS), None),
    ((Act::Drain(10), SENDS), None),
    ((Act::Hand(1, 11), ONE), Some((true, false, 5))),
    ((Act::Hand(2, 12), ONE), Some((true, false, 6))),
    ((Act::Hand(3, 13), ONE), Some((true, false, 6))),
];

#[test]
fn history_changes_nothing_that_is_shown(rt: HostRuntime) {
    sees(&rt, &mut world(&rt, Numbering::RunsOn, false), &HISTORY);
}
