//! One node's order by its calls. A function that holds it is dear to prove: what the tests ask of one they ask through a trait without
//! clauses, and the rows are walked over a type parameter.
use spk_sequence::{Gap, Kind, Loss, Match, Phase, Sequence, Step, Width};
use std::process::Abort;

/// A call: a birth's number, stamp and bdSeq, another message's number at a moment, with a stamp of 100, one with a stamp of its own, a moment,
/// or a bdSeq.
#[derive(Clone, Copy)]
enum Call {
    Birth(u8, u64, u8),
    Other(u8, u64),
    Stamped(u8, Option<u64>),
    Tick(u64),
    Death(u8),
    Reset,
}

#[derive(Clone, Copy, PartialEq, Eq)]
enum Reply {
    Stepped(Step),
    Ticked(Option<Gap>),
    Told(Match),
    Reset,
}

/// What the tests ask of an order.
trait Orders {
    fn reply_to(&mut self, call: Call) -> Reply;

    /// The phase that it is in, and the number that comes next.
    fn stands(&self) -> (Phase, Option<u8>);

    fn count(&self) -> u8;

    fn holds(&self, number: u8) -> bool;

    /// What a call would lose.
    fn loss_at(&self, call: Call) -> Loss;

    fn stake(&self) -> Loss;
}

impl Orders for Sequence {
    fn reply_to(&mut self, call: Call) -> Reply {
        match call {
            Call::Birth(number, stamp, bd) => {
                Reply::Stepped(self.hand(number, Kind::Birth { stamp, bd }, 0))
            }
            Call::Other(number, now) => {
                Reply::Stepped(self.hand(number, Kind::Other { stamp: Some(100) }, now))
            }
            Call::Stamped(number, stamp) => {
                Reply::Stepped(self.hand(number, Kind::Other { stamp }, 0))
            }
            Call::Tick(now) => Reply::Ticked(self.tick(now)),
            Call::Death(bd) => Reply::Told(self.death(bd)),
            Call::Reset => {
                self.reset();
                Reply::Reset
            }
        }
    }

    fn stands(&self) -> (Phase, Option<u8>) {
        (self.phase(), self.next())
    }

    fn count(&self) -> u8 {
        self.held()
    }

    fn holds(&self, number: u8) -> bool {
        self.is_held(number)
    }

    fn loss_at(&self, call: Call) -> Loss {
        match call {
            Call::Birth(number, stamp, bd) => {
                self.loss_at_hand(number, Kind::Birth { stamp, bd }, 0)
            }
            Call::Other(number, now) => {
                self.loss_at_hand(number, Kind::Other { stamp: Some(100) }, now)
            }
            Call::Stamped(number, stamp) => self.loss_at_hand(number, Kind::Other { stamp }, 0),
            Call::Tick(now) => self.loss_at_tick(now),
            Call::Death(bd) => self.loss_at_death(bd),
            Call::Reset => self.loss_at_reset(),
        }
    }

    fn stake(&self) -> Loss {
        self.at_stake()
    }
}

const ONE: Reply = Reply::Stepped(Step::Consumed(1));

const HELD: Reply = Reply::Stepped(Step::Held);

const OLD: Reply = Reply::Stepped(Step::Old);

const GAP: Reply = Reply::Stepped(Step::Gap);

const NOT_LIVE: Reply = Reply::Stepped(Step::NotLive);

/// Each run begins with a birth before the number `next`, of stamp 100 and bdSeq 4, and a wait of
/// 2000 milliseconds. In the end `then` comes next.
struct Run {
    shows: &'static str,
    width: u8,
    next: u8,
    calls: &'static [(Call, Reply)],
    then: Option<u8>,
}

static RUNS: [Run; 21] = [
    Run {
        shows: "numbers go on from 255 to 0",
        width: 64,
        next: 251,
        calls: &[
            (Call::Other(251, 0), ONE),
            (Call::Other(252, 0), ONE),
            (Call::Other(253, 0), ONE),
            (Call::Other(254, 0), ONE),
            (Call::Other(255, 0), ONE),
            (Call::Other(0, 0), ONE),
            (Call::Other(1, 0), ONE),
        ],
        then: Some(2),
    },
    Run {
        shows: "held ones follow the one before them",
        width: 64,
        next: 254,
        calls: &[
            (Call::Other(0, 0), HELD),
            (Call::Other(255, 0), HELD),
            (Call::Other(254, 0), Reply::Stepped(Step::Consumed(3))),
        ],
        then: Some(1),
    },
    Run {
        shows: "63 ahead is held",
        width: 64,
        next: 10,
        calls: &[(Call::Other(73, 0), HELD)],
        then: Some(10),
    },
    Run {
        shows: "64 ahead is a gap",
        width: 64,
        next: 10,
        calls: &[(Call::Other(74, 0), GAP)],
        then: None,
    },
    Run {
        shows: "a held one waits 2000 milliseconds",
        width: 64,
        next: 10,
        calls: &[
            (Call::Other(12, 0), HELD),
            (Call::Tick(1999), Reply::Ticked(None)),
            (Call::Tick(2000), Reply::Ticked(Some(Gap))),
            (Call::Other(10, 2000), NOT_LIVE),
            (Call::Birth(13, 101, 4), ONE),
        ],
        then: Some(14),
    },
    Run {
        shows: "the wait starts anew where others stay held",
        width: 64,
        next: 10,
        calls: &[
            (Call::Other(12, 0), HELD),
            (Call::Other(10, 1500), ONE),
            (Call::Tick(3499), Reply::Ticked(None)),
            (Call::Tick(3500), Reply::Ticked(Some(Gap))),
        ],
        then: None,
    },
    Run {
        shows: "an earlier moment counts as no time",
        width: 64,
        next: 10,
        calls: &[
            (Call::Other(12, 5000), HELD),
            (Call::Tick(0), Reply::Ticked(None)),
        ],
        then: Some(10),
    },
    Run {
        shows: "what is behind is old",
        width: 64,
        next: 10,
        calls: &[(Call::Other(9, 0), OLD), (Call::Other(202, 0), OLD)],
        then: Some(10),
    },
    Run {
        shows: "what is held already is old",
        width: 64,
        next: 10,
        calls: &[(Call::Other(12, 0), HELD), (Call::Other(12, 0), OLD)],
        then: Some(10),
    },
    Run {
        shows: "a birth needs a greater stamp",
        width: 64,
        next: 1,
        calls: &[(Call::Birth(1, 100, 4), Reply::Stepped(Step::OldBirth))],
        then: Some(1),
    },
    Run {
        shows: "a birth may have any number",
        width: 64,
        next: 5,
        calls: &[(Call::Birth(0, 101, 4), ONE)],
        then: Some(1),
    },
    Run {
        shows: "a birth keeps newer held ones alone",
        width: 64,
        next: 10,
        calls: &[
            (Call::Other(12, 0), HELD),
            (Call::Stamped(13, None), HELD),
            (Call::Stamped(15, Some(101)), HELD),
            (Call::Birth(14, 101, 4), Reply::Stepped(Step::Consumed(2))),
            (Call::Other(16, 0), OLD),
            (Call::Stamped(16, Some(101)), ONE),
        ],
        then: Some(17),
    },
    Run {
        shows: "only the death of the last birth taken matches",
        width: 64,
        next: 10,
        calls: &[
            (Call::Death(3), Reply::Told(Match::Ignored)),
            (Call::Death(4), Reply::Told(Match::Matched)),
            (Call::Other(10, 0), NOT_LIVE),
            (Call::Birth(9, 101, 4), Reply::Stepped(Step::DeadSession)),
            (Call::Birth(9, 102, 5), ONE),
        ],
        then: Some(10),
    },
    Run {
        shows: "slots on both sides of 255",
        width: 64,
        next: 200,
        calls: &[
            (Call::Other(255, 0), HELD),
            (Call::Other(0, 0), HELD),
            (Call::Other(7, 0), HELD),
        ],
        then: Some(200),
    },
    Run {
        shows: "64 ahead of 200 is a gap",
        width: 64,
        next: 200,
        calls: &[(Call::Other(8, 0), GAP)],
        then: None,
    },
    Run {
        shows: "width 96 holds 95 ahead",
        width: 96,
        next: 10,
        calls: &[(Call::Other(105, 0), HELD)],
        then: Some(10),
    },
    Run {
        shows: "width 96, 96 ahead",
        width: 96,
        next: 10,
        calls: &[(Call::Other(106, 0), GAP)],
        then: None,
    },
    Run {
        shows: "width 96, 159 ahead",
        width: 96,
        next: 10,
        calls: &[(Call::Other(169, 0), GAP)],
        then: None,
    },
    Run {
        shows: "width 96, 160 ahead is old",
        width: 96,
        next: 10,
        calls: &[(Call::Other(170, 0), OLD)],
        then: Some(10),
    },
    Run {
        shows: "width 1 holds nothing",
        width: 1,
        next: 10,
        calls: &[(Call::Other(9, 0), OLD), (Call::Other(11, 0), GAP)],
        then: None,
    },
    Run {
        shows: "width 1, 254 ahead",
        width: 1,
        next: 10,
        calls: &[(Call::Other(8, 0), GAP)],
        then: None,
    },
];

/// The first place at which a call isn't answered so.
fn first_wrong<T: Orders>(order: &mut T, rows: &[(Call, Reply)]) -> Option<usize> {
    for (place, (call, wanted)) in rows.iter().enumerate() {
        if order.reply_to(*call) != *wanted {
            return Some(place);
        }
    }
    None
}

/// Whether nothing is known of the node.
fn is_unknown<T: Orders>(order: &T) -> bool {
    order.stands() == (Phase::Unknown, None)
}

/// Whether each call of a run is answered so, from nothing known on to a reset.
fn plays<T: Orders>(order: &mut T, run: &Run) -> bool {
    is_unknown(order)
        && order.reply_to(Call::Birth(run.next.wrapping_sub(1), 100, 4)) == ONE
        && order.stands().1 == Some(run.next)
        && first_wrong(order, run.calls).is_none()
        && order.stands().1 == run.then
        && order.reply_to(Call::Reset) == Reply::Reset
        && is_unknown(order)
}

/// An order that waits for 2,000 milliseconds, and takes so many numbers at a time.
fn order_of(rt: &impl Abort, width: u8) -> Sequence {
    Sequence::new(2000, Width::new(width).expect(rt, "a width"))
}

fn is_run(rt: &impl Abort, run: &Run) -> bool {
    plays(&mut order_of(rt, run.width), run)
}

#[test]
fn runs_on_numbers(rt: HostRuntime) {
    for run in &RUNS {
        assert!(rt; is_run(&rt, run), "{}", run.shows);
    }
}

static HOLDING: [(Call, Reply); 3] = [
    (Call::Birth(9, 100, 4), ONE),
    (Call::Other(12, 0), HELD),
    (Call::Other(73, 0), HELD),
];

/// Numbers, and whether a message is held under them.
static HELD_ONES: [(u8, bool); 5] = [
    (12, true),
    (73, true),
    (10, false),
    (13, false),
    (200, false),
];

fn are_held<T: Orders>(order: &T) -> bool {
    for (number, is_held) in &HELD_ONES {
        if order.holds(*number) != *is_held {
            return false;
        }
    }
    true
}

fn counts<T: Orders>(order: &mut T) -> bool {
    order.count() == 0
        && !order.holds(10)
        && first_wrong(order, &HOLDING).is_none()
        && order.count() == 2
        && are_held(order)
}

#[test]
fn what_is_held_is_counted_and_found(rt: HostRuntime) {
    assert!(rt; counts(&mut order_of(&rt, 64)));
}

const NONE: Loss = Loss {
    held: 0,
    missing: 0,
};

const ALL: Loss = Loss {
    held: 3,
    missing: 2,
};

/// What is held behind a birth at 9 with the stamp 100 and the bdSeq 4, how many messages and how many are missing before them,
/// and what each call would lose then.
struct Losing {
    shows: &'static str,
    calls: &'static [(Call, Reply)],
    stake: Loss,
    losses: &'static [(Call, Loss)],
}

static LOSING: [Losing; 4] = [
    Losing {
        shows: "10 and 11 are missing, and three are held",
        calls: &[
            (Call::Other(12, 0), HELD),
            (Call::Other(13, 0), HELD),
            (Call::Other(15, 0), HELD),
        ],
        stake: ALL,
        losses: &[
            (Call::Tick(1999), NONE),
            (Call::Tick(2000), ALL),
            (Call::Death(3), NONE),
            (Call::Death(4), ALL),
            (Call::Reset, ALL),
            (Call::Other(80, 0), ALL),
            (Call::Other(10, 0), NONE),
            (Call::Other(14, 0), NONE),
            (Call::Other(13, 0), NONE),
            (Call::Other(8, 0), NONE),
            (Call::Birth(11, 101, 4), ALL),
            (Call::Birth(200, 101, 5), ALL),
            (Call::Birth(11, 100, 4), NONE),
        ],
    },
    Losing {
        shows: "a birth keeps newer ones behind it alone",
        calls: &[
            (Call::Stamped(12, Some(200)), HELD),
            (Call::Other(13, 0), HELD),
            (Call::Stamped(14, None), HELD),
            (Call::Stamped(15, Some(101)), HELD),
        ],
        stake: Loss {
            held: 4,
            missing: 2,
        },
        losses: &[
            // 12 comes out with it, 15 stays held, and 13 and 14 are dropped
            (
                Call::Birth(11, 101, 4),
                Loss {
                    held: 2,
                    missing: 2,
                },
            ),
            // it takes the place of 12, and 15 stays held
            (
                Call::Birth(12, 101, 4),
                Loss {
                    held: 3,
                    missing: 2,
                },
            ),
        ],
    },
    Losing {
        shows: "a birth that keeps all loses nothing",
        calls: &[
            (Call::Stamped(11, Some(101)), HELD),
            (Call::Stamped(73, Some(101)), HELD),
        ],
        stake: Loss {
            held: 2,
            missing: 1,
        },
        losses: &[
            (Call::Birth(10, 101, 4), NONE),
            (
                Call::Birth(9, 101, 4),
                Loss {
                    held: 1,
                    missing: 1,
                },
            ),
        ],
    },
    Losing {
        shows: "nothing is held, and nothing is lost",
        calls: &[],
        stake: NONE,
        losses: &[
            (Call::Tick(9000), NONE),
            (Call::Death(4), NONE),
            (Call::Reset, NONE),
            (Call::Other(80, 0), NONE),
            (Call::Birth(10, 101, 4), NONE),
        ],
    },
];

/// The first place at which a call would lose something else.
fn first_other_loss<T: Orders>(order: &T, rows: &[(Call, Loss)]) -> Option<usize> {
    for (place, (call, wanted)) in rows.iter().enumerate() {
        if order.loss_at(*call) != *wanted {
            return Some(place);
        }
    }
    None
}

fn loses<T: Orders>(order: &mut T, row: &Losing) -> bool {
    order.reply_to(Call::Birth(9, 100, 4)) == ONE
        && first_wrong(order, row.calls).is_none()
        && order.stake() == row.stake
        && first_other_loss(order, row.losses).is_none()
        && order.stake() == row.stake
}

fn is_lost(rt: &impl Abort, row: &Losing) -> bool {
    loses(&mut order_of(rt, 64), row)
}

#[test]
fn what_is_lost_is_told_before_the_call(rt: HostRuntime) {
    for row in &LOSING {
        assert!(rt; is_lost(&rt, row), "{}", row.shows);
    }
}

/// A width, and how many messages in a row may be lost before a byte of number can no longer tell the later ones from old ones.
static WIDTHS: [(u8, u16); 3] = [(1, 254), (64, 128), (96, 64)];

static NO_WIDTHS: [u8; 4] = [0, 97, 128, 255];

#[test]
fn widths_are_1_to_96(rt: HostRuntime) {
    for (places, budget) in &WIDTHS {
        let width = Width::new(*places).expect(&rt, "a width");
        assert!(rt; width.get() == *places && width.budget() == *budget);
    }
    for places in &NO_WIDTHS {
        assert!(rt; Width::new(*places).is_none(), "at {places}");
    }
}
