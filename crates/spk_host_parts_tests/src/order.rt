//! Payloads in the order of their numbers. What the tests ask of an order they ask through a trait without clauses.
use spk_order::{Handed, NoMemory, Order};
use spk_sequence::{Kind, Loss, Match, Step, Width};
use std::alloc::{AllocError, Global};
use std::process::Abort;

/// What the tests ask of an order.
trait Orders {
    /// Whether a message that is handed in comes to that step, and gives these payloads.
    fn is_handed(&mut self, row: &Message) -> bool;

    /// Whether there is a gap.
    fn is_over(&mut self, now: u64) -> bool;

    fn die(&mut self, bd: u8) -> Match;

    fn begin_anew(&mut self);

    fn count(&self) -> u8;

    fn next(&self) -> Option<u8>;

    /// What a message of this number, the moment, the bdSeq and a reset would lose.
    fn losses(&self, number: u8, kind: Kind, now: u64, bd: u8) -> [Loss; 4];
}

/// A message that is handed in at a moment, its step, and the payloads that come out.
struct Message {
    number: u8,
    kind: Kind,
    payload: u32,
    now: u64,
    step: Step,
    consumed: &'static [u32],
}

type Payloads = Order<u32>;

/// Hands a message in. Where memory was refused its payload came back, and the call is made again.
fn handed(order: &mut Payloads, row: &Message) -> Result<Handed<u32>, NoMemory<u32>> {
    match order.hand(row.number, row.kind, row.payload, row.now) {
        Err(back) => order.hand(row.number, row.kind, back.payload, row.now),
        answer => answer,
    }
}

impl Orders for Payloads {
    fn is_handed(&mut self, row: &Message) -> bool {
        match handed(self, row) {
            Ok(handed) => handed.step == row.step && handed.consumed.as_slice() == row.consumed,
            Err(_) => false,
        }
    }

    fn is_over(&mut self, now: u64) -> bool {
        self.tick(now).is_some()
    }

    fn die(&mut self, bd: u8) -> Match {
        self.death(bd)
    }

    fn begin_anew(&mut self) {
        self.reset();
    }

    fn count(&self) -> u8 {
        self.held()
    }

    fn next(&self) -> Option<u8> {
        self.sequence().next()
    }

    fn losses(&self, number: u8, kind: Kind, now: u64, bd: u8) -> [Loss; 4] {
        [
            self.loss_at_hand(number, kind, now),
            self.loss_at_tick(now),
            self.loss_at_death(bd),
            self.loss_at_reset(),
        ]
    }
}

/// A call, and what it answers.
enum Row {
    Handed(Message),
    /// A moment, and whether there is a gap.
    Ticked(u64, bool),
    Death(u8, Match),
    Reset,
    /// How many messages are held.
    Held(u8),
    /// The number that comes next.
    Next(Option<u8>),
    /// A message, a moment and a bdSeq, and what each would lose, and a reset.
    Loses(u8, Kind, u64, u8, [Loss; 4]),
}

fn is_answered<T: Orders>(order: &mut T, row: &Row) -> bool {
    match row {
        Row::Handed(message) => order.is_handed(message),
        Row::Ticked(now, is_over) => order.is_over(*now) == *is_over,
        Row::Death(bd, answer) => order.die(*bd) == *answer,
        Row::Reset => {
            order.begin_anew();
            true
        }
        Row::Held(count) => order.count() == *count,
        Row::Next(number) => order.next() == *number,
        Row::Loses(number, kind, now, bd, losses) => {
            order.losses(*number, *kind, *now, *bd) == *losses
        }
    }
}

/// The first row that isn't answered so.
fn first_wrong<T: Orders>(order: &mut T, rows: &[Row]) -> Option<usize> {
    for (place, row) in rows.iter().enumerate() {
        if !is_answered(order, row) {
            return Some(place);
        }
    }
    None
}

const OTHER: Kind = Kind::Other { stamp: Some(100) };

static IN_ORDER: [Row; 7] = [
    Row::Handed(Message {
        number: 252,
        kind: Kind::Birth { stamp: 100, bd: 4 },
        payload: 1,
        now: 0,
        step: Step::Consumed(1),
        consumed: &[1],
    }),
    Row::Handed(Message {
        number: 255,
        kind: OTHER,
        payload: 4,
        now: 0,
        step: Step::Held,
        consumed: &[],
    }),
    Row::Handed(Message {
        number: 254,
        kind: OTHER,
        payload: 3,
        now: 0,
        step: Step::Held,
        consumed: &[],
    }),
    Row::Handed(Message {
        number: 254,
        kind: OTHER,
        payload: 9,
        now: 0,
        step: Step::Old,
        consumed: &[],
    }),
    Row::Handed(Message {
        number: 253,
        kind: OTHER,
        payload: 2,
        now: 0,
        step: Step::Consumed(3),
        consumed: &[2, 3, 4],
    }),
    Row::Held(0),
    Row::Next(Some(0)),
];

const NONE: Loss = Loss {
    held: 0,
    missing: 0,
};

/// 10 is missing before 11, which is held.
const ONE: Loss = Loss {
    held: 1,
    missing: 1,
};

static DROPPED: [Row; 14] = [
    Row::Handed(Message {
        number: 9,
        kind: Kind::Birth { stamp: 100, bd: 4 },
        payload: 1,
        now: 0,
        step: Step::Consumed(1),
        consumed: &[1],
    }),
    Row::Handed(Message {
        number: 11,
        kind: OTHER,
        payload: 2,
        now: 0,
        step: Step::Held,
        consumed: &[],
    }),
    Row::Ticked(1999, false),
    Row::Loses(10, OTHER, 1999, 3, [NONE, NONE, NONE, ONE]),
    Row::Loses(10, Kind::Birth { stamp: 101, bd: 5 }, 2000, 4, [ONE; 4]),
    Row::Held(1),
    Row::Ticked(2000, true),
    Row::Held(0),
    Row::Loses(10, Kind::Birth { stamp: 101, bd: 5 }, 2000, 4, [NONE; 4]),
    Row::Handed(Message {
        number: 10,
        kind: Kind::Birth { stamp: 101, bd: 5 },
        payload: 3,
        now: 2000,
        step: Step::Consumed(1),
        consumed: &[3],
    }),
    Row::Death(4, Match::Ignored),
    Row::Death(5, Match::Matched),
    Row::Reset,
    Row::Next(None),
];

/// An order that waits for 2,000 milliseconds and takes 64 numbers. Where memory was refused it is made again.
fn made(alloc: Global, width: Width) -> Result<Payloads, AllocError> {
    match Order::new(alloc, 2000, width) {
        Err(_) => Order::new(alloc, 2000, width),
        answer => answer,
    }
}

fn order(rt: &(impl Abort + AllocGlobal)) -> Payloads {
    let width = Width::new(64).expect(rt, "a width");
    made(rt.alloc(), width).expect(rt, "memory is there again")
}

#[test]
fn payloads_come_out_in_the_order_of_their_numbers(rt: HostRuntime) {
    assert_eq!(rt; first_wrong(&mut order(&rt), &IN_ORDER), None);
}

#[test]
fn what_is_dropped_does_not_come_out_later(rt: HostRuntime) {
    assert_eq!(rt; first_wrong(&mut order(&rt), &DROPPED), None);
}
