//! Runs of calls on a session, by tables. A function that holds a session is dear to prove: what the tests ask of one they ask through a trait
//! without clauses, and the rows are walked over a type parameter.
use spk_session::{Budget, Identifiers, Session, SessionFault, Sort, Verdict};
use std::alloc::Global;

/// What the tests ask of a session.
trait Answers {
    fn give(&mut self) -> Result<u16, SessionFault>;

    fn ack(&mut self, id: u16) -> bool;

    fn are_waiting(&self, ids: &[u16]) -> bool;

    fn count(&self) -> usize;

    fn latest(&self) -> u16;

    fn take_back(&mut self, count: usize, last: u16);

    fn refuse(&mut self, sort: Sort) -> Verdict;

    fn begin_anew(&mut self);
}

impl Answers for Session {
    fn give(&mut self) -> Result<u16, SessionFault> {
        self.sent()
    }

    fn ack(&mut self, id: u16) -> bool {
        self.acked(id)
    }

    fn are_waiting(&self, ids: &[u16]) -> bool {
        self.waiting() == ids
    }

    fn count(&self) -> usize {
        self.waiting().len()
    }

    fn latest(&self) -> u16 {
        self.last()
    }

    fn take_back(&mut self, count: usize, last: u16) {
        self.rewind(count, last);
    }

    fn refuse(&mut self, sort: Sort) -> Verdict {
        self.refused(sort)
    }

    fn begin_anew(&mut self) {
        self.reopen();
    }
}

/// A session's two parts, each alone.
#[derive(Drop)]
struct Parts {
    ids: Identifiers,
    budget: Budget,
}

impl Answers for Parts {
    fn give(&mut self) -> Result<u16, SessionFault> {
        self.ids.sent()
    }

    fn ack(&mut self, id: u16) -> bool {
        self.ids.acked(id)
    }

    fn are_waiting(&self, ids: &[u16]) -> bool {
        self.ids.waiting() == ids
    }

    fn count(&self) -> usize {
        self.ids.waiting().len()
    }

    fn latest(&self) -> u16 {
        self.ids.last()
    }

    fn take_back(&mut self, count: usize, last: u16) {
        self.ids.rewind(count, last);
    }

    fn refuse(&mut self, sort: Sort) -> Verdict {
        self.budget.refused(sort)
    }

    fn begin_anew(&mut self) {
        self.budget.reopen();
    }
}

/// A call, and what it answers.
#[derive(Clone, Copy)]
enum Row {
    Sent(u16),
    /// These ids are given, from the one to the other.
    SentFrom(u16, u16),
    /// Each id from 1 to 65,535 is given and, but for this one, acknowledged.
    RoundBut(u16),
    /// No id is given.
    Unacked,
    /// An id is acknowledged; whether it was in use.
    Acked(u16, bool),
    Waiting(&'static [u16]),
    /// How many ids are in use.
    Count(usize),
    Last(u16),
    /// The first so many ids are in use again, and this is the one given last.
    Rewound(usize, u16),
    Refused(Sort, Verdict),
    /// So many sends of QoS 0 are dropped.
    Dropped(u16),
    Reopened,
}

fn gives<T: Answers>(session: &mut T, first: u16, last: u16) -> bool {
    for id in first..=last {
        if session.give() != Ok(id) {
            return false;
        }
    }
    true
}

fn goes_round_but<T: Answers>(session: &mut T, kept: u16) -> bool {
    for id in 1..=u16::MAX {
        if session.give() != Ok(id) || (id != kept && !session.ack(id)) {
            return false;
        }
    }
    true
}

fn drops<T: Answers>(session: &mut T, count: u16) -> bool {
    for _ in 0..count {
        if session.refuse(Sort::QosZero) != Verdict::Dropped {
            return false;
        }
    }
    true
}

fn is_answered<T: Answers>(session: &mut T, row: Row) -> bool {
    match row {
        Row::Sent(id) => session.give() == Ok(id),
        Row::SentFrom(first, last) => gives(session, first, last),
        Row::RoundBut(kept) => goes_round_but(session, kept),
        Row::Unacked => session.give() == Err(SessionFault::Unacked),
        Row::Acked(id, was) => session.ack(id) == was,
        Row::Waiting(ids) => session.are_waiting(ids),
        Row::Count(count) => session.count() == count,
        Row::Last(id) => session.latest() == id,
        Row::Rewound(count, last) => {
            session.take_back(count, last);
            true
        }
        Row::Refused(sort, verdict) => session.refuse(sort) == verdict,
        Row::Dropped(count) => drops(session, count),
        Row::Reopened => {
            session.begin_anew();
            true
        }
    }
}

/// The first row that isn't answered so.
fn first_wrong<T: Answers>(session: &mut T, rows: &[Row]) -> Option<usize> {
    for (place, row) in rows.iter().enumerate() {
        if !is_answered(session, *row) {
            return Some(place);
        }
    }
    None
}

/// The calls on a session whose drop number `limit` closes a connection, and what they answer.
struct Run {
    shows: &'static str,
    limit: u16,
    rows: &'static [Row],
}

/// A send of QoS 0 that closes.
const CLOSE: Row = Row::Refused(Sort::QosZero, Verdict::Close);

static RUNS: [Run; 14] = [
    Run {
        shows: "ids begin with 1 and are acknowledged once",
        limit: 128,
        rows: &[
            Row::Last(0),
            Row::Sent(1),
            Row::Sent(2),
            Row::Waiting(&[1, 2]),
            Row::Last(2),
            Row::Acked(1, true),
            Row::Acked(1, false),
            Row::Acked(0, false),
            Row::Waiting(&[2]),
            Row::Sent(3),
            Row::Waiting(&[2, 3]),
        ],
    },
    Run {
        shows: "what is acknowledged leaves the others in order",
        limit: 128,
        rows: &[
            Row::SentFrom(1, 5),
            Row::Acked(3, true),
            Row::Waiting(&[1, 2, 4, 5]),
            Row::Acked(1, true),
            Row::Waiting(&[2, 4, 5]),
            Row::Acked(5, true),
            Row::Waiting(&[2, 4]),
            Row::Acked(6, false),
            Row::Waiting(&[2, 4]),
        ],
    },
    Run {
        shows: "an id follows 65535 and passes over those in use",
        limit: 128,
        rows: &[
            Row::RoundBut(2),
            Row::Waiting(&[2]),
            Row::Sent(1),
            Row::Sent(3),
            Row::Waiting(&[2, 1, 3]),
        ],
    },
    Run {
        shows: "with 1024 in use no more is given",
        limit: 128,
        rows: &[
            Row::SentFrom(1, 1024),
            Row::Unacked,
            Row::Count(1024),
            Row::Last(1024),
            Row::Unacked,
            Row::Count(1024),
            Row::Last(1024),
            Row::Acked(7, true),
            Row::Sent(1025),
            Row::Unacked,
        ],
    },
    Run {
        shows: "with 1024 in a row the next stands behind them",
        limit: 128,
        rows: &[
            Row::Rewound(0, 65000),
            Row::SentFrom(65001, 65535),
            Row::SentFrom(1, 488),
            Row::Rewound(1023, 65000),
            Row::Sent(489),
        ],
    },
    Run {
        shows: "drop number 1 and each later one closes",
        limit: 1,
        rows: &[CLOSE, CLOSE, CLOSE],
    },
    Run {
        shows: "drop number 64 and each later one closes",
        limit: 64,
        rows: &[Row::Dropped(63), CLOSE, CLOSE, CLOSE],
    },
    Run {
        shows: "drop number 128 and each later one closes",
        limit: 128,
        rows: &[Row::Dropped(127), CLOSE, CLOSE, CLOSE],
    },
    Run {
        shows: "drop number 254 and each later one closes",
        limit: 254,
        rows: &[Row::Dropped(253), CLOSE, CLOSE, CLOSE],
    },
    Run {
        shows: "drop number 65535 and each later one closes",
        limit: 65535,
        rows: &[Row::Dropped(65534), CLOSE, CLOSE, CLOSE],
    },
    Run {
        shows: "limit 0 acts as 1",
        limit: 0,
        rows: &[CLOSE, Row::Reopened, CLOSE],
    },
    Run {
        shows: "another sort closes at once and is no drop",
        limit: 2,
        rows: &[
            Row::Refused(Sort::Other, Verdict::Close),
            Row::Dropped(1),
            Row::Refused(Sort::Other, Verdict::Close),
            CLOSE,
        ],
    },
    Run {
        shows: "a reopened session counts from 0 and keeps its ids",
        limit: 2,
        rows: &[
            Row::Sent(1),
            Row::Dropped(1),
            Row::Reopened,
            Row::Waiting(&[1]),
            Row::Last(1),
            Row::Dropped(1),
            CLOSE,
            Row::Sent(2),
        ],
    },
    Run {
        shows: "a rewind takes back what was given since",
        limit: 128,
        rows: &[
            Row::SentFrom(1, 2),
            Row::Count(2),
            Row::Last(2),
            Row::SentFrom(3, 4),
            Row::Rewound(2, 2),
            Row::Waiting(&[1, 2]),
            Row::Last(2),
            Row::Rewound(5, 9),
            Row::Waiting(&[1, 2]),
            Row::Sent(10),
            Row::Rewound(0, 0),
            Row::Count(0),
            Row::Sent(1),
        ],
    },
];

fn is_run(run: &Run) -> bool {
    first_wrong(&mut Session::new(run.limit), run.rows).is_none()
}

#[test]
fn a_session_answers_by_its_ids_and_its_drops(rt: HostRuntime) {
    for run in &RUNS {
        assert!(rt; is_run(run), "{}", run.shows);
    }
}

static ALONE: [Row; 11] = [
    Row::Sent(1),
    Row::Sent(2),
    Row::Acked(1, true),
    Row::Waiting(&[2]),
    Row::Last(2),
    Row::Rewound(0, 2),
    Row::Sent(3),
    Row::Dropped(1),
    CLOSE,
    Row::Reopened,
    Row::Dropped(1),
];

#[test]
fn identifiers_and_a_budget_stand_alone(rt: HostRuntime) {
    let mut parts = Parts {
        ids: Identifiers::new(),
        budget: Budget::new(2),
    };
    assert_eq!(rt; first_wrong(&mut parts, &ALONE), None);
}

/// Whether the fault is shown by this name; where memory is refused there is nothing to look at.
fn is_shown(alloc: Global, name: &str) -> bool {
    match SessionFault::Unacked.to_string(alloc) {
        Ok(text) => text.as_str() == name,
        Err(_) => true,
    }
}

#[test]
fn the_fault_has_its_number_and_name(rt: HostRuntime) {
    assert!(rt; SessionFault::Unacked.number() == 32 && is_shown(rt.alloc(), "Unacked"));
}
