//! A store by its calls. What the tests ask of it they ask through a trait without clauses.
ghost use Rattle.std.specs.Prelude.{◌≤◌};

use spk_device::Owner;
use spk_payload::Value;
use spk_store::{Change, Store, StoreFault};
use std::alloc::Global;
use std::process::Abort;

/// A change of a device's metric 1, or of the node's where there is no device, to a number, at that moment.
fn change(device: Option<usize>, number: u64) -> Change {
    let owner = match device {
        Some(n) => Owner::Device(n),
        None => Owner::Node,
    };
    Change {
        owner,
        alias: 1,
        value: Some(Value::Unsigned(number)),
        time: number,
    }
}

/// What the tests ask of a store.
trait Keeps {
    /// Whether a change is pushed, and the change of this number of the node comes back, or none.
    fn is_pushed(&mut self, device: Option<usize>, number: u64, older: Option<u64>) -> bool;

    /// Whether so many are there, which are dropped.
    fn is_dropped(&mut self, n: usize, is_lost: bool) -> bool;

    fn run(&self, most: usize) -> usize;

    fn lost_ones(&self) -> u64;

    fn count(&self) -> usize;

    /// The moment of the change in this place, the oldest first.
    fn moment(&self, place: usize) -> Option<u64>;
}

fn is_change(found: Option<Change>, number: Option<u64>) -> bool {
    match (found, number) {
        (Some(found), Some(number)) => found == change(None, number),
        (None, None) => true,
        _ => false,
    }
}

impl Keeps for Store {
    fn is_pushed(&mut self, device: Option<usize>, number: u64, older: Option<u64>) -> bool {
        is_change(self.push(change(device, number)), older)
    }

    fn is_dropped(&mut self, n: usize, is_lost: bool) -> bool {
        if n > self.len() {
            return false;
        }
        self.drop_front(n, is_lost);
        true
    }

    fn run(&self, most: usize) -> usize {
        self.front_run(most)
    }

    fn lost_ones(&self) -> u64 {
        self.lost()
    }

    fn count(&self) -> usize {
        self.len()
    }

    fn moment(&self, place: usize) -> Option<u64> {
        match self.get(place) {
            Some(change) => Some(change.time),
            None => None,
        }
    }
}

/// A call on a store, and what it answers.
#[derive(Clone, Copy)]
enum Row {
    /// A change of this device or of the node, its number, and that of the older change that comes back.
    Pushed(Option<usize>, u64, Option<u64>),
    /// So many are dropped, lost or not.
    Dropped(usize, bool),
    /// The length of the run at the front, so many at the most.
    Run(usize, usize),
    Lost(u64),
    Count(usize),
    /// The moments of the kept changes, the oldest first.
    Kept(&'static [u64]),
    /// Changes of the node are pushed, from one number to the one before another, and none comes back.
    Filled(u64, u64),
}

fn are_kept<T: Keeps>(store: &T, moments: &[u64]) -> bool {
    for (place, moment) in moments.iter().enumerate() {
        if store.moment(place) != Some(*moment) {
            return false;
        }
    }
    store.count() == moments.len() && store.moment(moments.len()).is_none()
}

fn is_filled<T: Keeps>(store: &mut T, first: u64, end: u64) -> bool {
    for moment in first..end {
        if !store.is_pushed(None, moment, None) {
            return false;
        }
    }
    true
}

fn is_answered<T: Keeps>(store: &mut T, row: Row) -> bool {
    match row {
        Row::Pushed(device, number, older) => store.is_pushed(device, number, older),
        Row::Dropped(n, is_lost) => store.is_dropped(n, is_lost),
        Row::Run(most, count) => store.run(most) == count,
        Row::Lost(count) => store.lost_ones() == count,
        Row::Count(count) => store.count() == count,
        Row::Kept(moments) => are_kept(store, moments),
        Row::Filled(first, end) => is_filled(store, first, end),
    }
}

/// Makes the calls in turn; the first one that isn't answered so.
fn first_wrong<T: Keeps>(store: &mut T, rows: &[Row]) -> Option<usize> {
    for (place, row) in rows.iter().enumerate() {
        if !is_answered(store, *row) {
            return Some(place);
        }
    }
    None
}

/// A store. Where memory was refused nothing was made, and the call is made again.
fn made(alloc: Global, capacity: usize) -> Result<Store, StoreFault>
    requires { (1 ≤ capacity) × (capacity ≤ 4096) }
{
    match Store::new(alloc, capacity) {
        Err(StoreFault::NoMemory) => Store::new(alloc, capacity),
        answer => answer,
    }
}

/// Makes the calls on a new store.
fn play(rt: &(impl Abort + AllocGlobal), capacity: usize, rows: &[Row])
    requires { (1 ≤ capacity) × (capacity ≤ 4096) }
{
    let mut store = made(rt.alloc(), capacity).expect(rt, "memory is there");
    assert_eq!(rt; first_wrong(&mut store, rows), None);
}

static OF_ONE: [Row; 6] = [
    Row::Run(32, 0),
    Row::Pushed(None, 5, None),
    Row::Pushed(None, 6, Some(5)),
    Row::Run(32, 1),
    Row::Lost(1),
    Row::Kept(&[6]),
];

#[test]
fn a_store_of_one_hands_the_older_change_back(rt: HostRuntime) {
    play(&rt, 1, &OF_ONE);
}

static LAST: [Row; 8] = [
    Row::Filled(3, 6),
    Row::Pushed(None, 6, Some(3)),
    Row::Pushed(None, 7, Some(4)),
    Row::Kept(&[5, 6, 7]),
    Row::Lost(2),
    Row::Dropped(3, false),
    Row::Kept(&[]),
    Row::Lost(2),
];

#[test]
fn the_last_changes_are_kept_in_order(rt: HostRuntime) {
    play(&rt, 3, &LAST);
}

static RUNS: [Row; 16] = [
    Row::Pushed(Some(0), 0, None),
    Row::Pushed(Some(0), 1, None),
    Row::Pushed(None, 2, None),
    Row::Pushed(Some(1), 3, None),
    Row::Pushed(Some(1), 4, None),
    Row::Pushed(Some(1), 5, None),
    Row::Run(32, 2),
    Row::Run(1, 1),
    Row::Run(0, 0),
    Row::Dropped(2, true),
    Row::Run(32, 1),
    Row::Dropped(1, false),
    Row::Run(32, 3),
    Row::Run(usize::MAX, 3),
    Row::Lost(2),
    Row::Kept(&[3, 4, 5]),
];

#[test]
fn a_run_ends_at_another_owner_or_at_the_most(rt: HostRuntime) {
    play(&rt, 8, &RUNS);
}

static GREATEST: [Row; 4] = [
    Row::Filled(0, 4096),
    Row::Pushed(None, 4096, Some(0)),
    Row::Count(4096),
    Row::Run(32, 32),
];

#[test]
fn the_greatest_store_overwrites_the_first(rt: HostRuntime) {
    play(&rt, 4096, &GREATEST);
}

#[test]
fn the_fault_has_its_number(rt: HostRuntime) {
    assert_eq!(rt; StoreFault::NoMemory.number(), 1);
    if let Ok(text) = StoreFault::NoMemory.to_string(rt.alloc()) {
        assert!(rt; text.as_str() == "NoMemory");
    }
}
