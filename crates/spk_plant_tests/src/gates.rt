//! Gates. One that waits does so for so many turns at most, and notes where they were spent.
use spk_plan::Gate;
use std::sync::atomic::{AtomicU64, Ordering};
use std::thread;

/// The most turns of one wait.
const TURNS: u64 = 1_000_000_000;

/// Waits until a count is reached; answers 1 where the turns were spent.
fn spent_on(count: &AtomicU64, least: u64) -> u64 {
    for _ in 0..TURNS {
        if count.load(Ordering::SeqCst) >= least {
            return 0;
        }
        thread::yield_now();
    }
    1
}

/// A gate that holds nobody back.
#[derive(Drop)]
pub(crate) struct Silent;

impl Gate for Silent {
    fn before_put(&self, _sender: usize, _number: u64) {}

    fn after_offer(&self, _client: usize, _passed: bool) {}

    fn after_consume(&self, _node: usize, _number: u64) {}
}

/// Holds the host at the first message that it consumes, until so many offers to a client were refused.
#[derive(Drop)]
pub(crate) struct HoldsHost {
    client: usize,
    least: u64,
    refused: AtomicU64,
    consumed: AtomicU64,
    pub(crate) spent: AtomicU64,
}

impl HoldsHost {
    pub(crate) fn until(client: usize, least: u64) -> HoldsHost {
        HoldsHost {
            client,
            least,
            refused: AtomicU64::new(0),
            consumed: AtomicU64::new(0),
            spent: AtomicU64::new(0),
        }
    }
}

impl Gate for HoldsHost {
    fn before_put(&self, _sender: usize, _number: u64) {}

    fn after_offer(&self, client: usize, passed: bool) {
        if client == self.client && !passed {
            let _before = self.refused.fetch_add(1, Ordering::SeqCst);
        }
    }

    fn after_consume(&self, _node: usize, _number: u64) {
        if self.consumed.fetch_add(1, Ordering::SeqCst) == 0 {
            let spent = spent_on(&self.refused, self.least);
            let _before = self.spent.fetch_add(spent, Ordering::SeqCst);
        }
    }
}

/// The first put of one node waits until the host consumed the first message of another.
#[derive(Drop)]
pub(crate) struct WaitsForBirth {
    waits: usize,
    other: usize,
    births: AtomicU64,
    pub(crate) spent: AtomicU64,
}

impl WaitsForBirth {
    pub(crate) fn of(waits: usize, other: usize) -> WaitsForBirth {
        WaitsForBirth {
            waits,
            other,
            births: AtomicU64::new(0),
            spent: AtomicU64::new(0),
        }
    }
}

impl Gate for WaitsForBirth {
    fn before_put(&self, sender: usize, number: u64) {
        if sender == self.waits && number == 0 {
            let spent = spent_on(&self.births, 1);
            let _before = self.spent.fetch_add(spent, Ordering::SeqCst);
        }
    }

    fn after_offer(&self, _client: usize, _passed: bool) {}

    fn after_consume(&self, node: usize, number: u64) {
        if node == self.other && number == 0 {
            let _before = self.births.fetch_add(1, Ordering::SeqCst);
        }
    }
}

/// The first put of each node waits until that of every node was called.
#[derive(Drop)]
pub(crate) struct WaitsForAll {
    nodes: usize,
    called: AtomicU64,
    pub(crate) spent: AtomicU64,
}

impl WaitsForAll {
    pub(crate) fn of(nodes: usize) -> WaitsForAll {
        WaitsForAll {
            nodes,
            called: AtomicU64::new(0),
            spent: AtomicU64::new(0),
        }
    }
}

impl Gate for WaitsForAll {
    fn before_put(&self, sender: usize, number: u64) {
        if sender < self.nodes && number == 0 {
            let _before = self.called.fetch_add(1, Ordering::SeqCst);
            let spent = spent_on(&self.called, self.nodes as u64);
            let _before = self.spent.fetch_add(spent, Ordering::SeqCst);
        }
    }

    fn after_offer(&self, _client: usize, _passed: bool) {}

    fn after_consume(&self, _node: usize, _number: u64) {}
}

/// Gives way a number of times that looks random, from 0 to 15, each time that it is told something.
#[derive(Drop)]
pub(crate) struct Chance {
    state: AtomicU64,
}

impl Chance {
    pub(crate) fn from(seed: u64) -> Chance {
        Chance {
            state: AtomicU64::new(seed),
        }
    }

    fn give_way(&self) {
        // an odd step, and the top bits of a product
        let state = self
            .state
            .fetch_add(0x9e37_79b9_7f4a_7c15, Ordering::SeqCst);
        let turns = state.wrapping_mul(0xbf58_476d_1ce4_e5b9) >> 60;
        for _ in 0..turns {
            thread::yield_now();
        }
    }
}

impl Gate for Chance {
    fn before_put(&self, _sender: usize, _number: u64) {
        self.give_way();
    }

    fn after_offer(&self, _client: usize, _passed: bool) {
        self.give_way();
    }

    fn after_consume(&self, _node: usize, _number: u64) {
        self.give_way();
    }
}
