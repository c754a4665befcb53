ghost use Rattle.spk_rings.specs.Ring.{AreEnds, SameInlet, SameOutlet};

use spk_rings::{Bytes, Inlet, Item, Outlet, RingFault, ring};
use std::alloc::{AllocGlobal, Global};
use std::process::Abort;

/// A packet of one byte. Where memory was refused it is made again.
fn item(rt: &(impl Abort + AllocGlobal), byte: u8, cuts: u64) -> Item {
    let bytes = match Vec::from_array(rt.alloc(), [byte]) {
        Ok(bytes) => bytes,
        Err(_) => Vec::from_array(rt.alloc(), [byte]).expect(rt, "memory is there again"),
    };
    Item {
        bytes: Bytes::new(bytes),
        cuts,
    }
}

/// A ring. Where memory was refused it is made again.
fn ring_of(rt: &(impl Abort + AllocGlobal), capacity: usize) -> (Outlet, Inlet)
    ensures { AreEnds result.0 result.1 }
{
    match ring(rt.alloc(), capacity) {
        Ok(ends) => ends,
        Err(fault) => {
            assert_eq!(rt; fault, RingFault::NoMemory);
            assert_eq!(rt; fault.number(), 1);
            ring(rt.alloc(), capacity).expect(rt, "memory is there again")
        }
    }
}

/// Whether a ring takes an item.
pub(crate) fn is_offered(outlet: &mut Outlet, item: Item) -> bool
    ensures { SameOutlet outlet.old outlet.new }
{
    outlet.offer(item).is_ok()
}

/// Whether a full ring hands an item of this byte back.
pub(crate) fn is_full(outlet: &mut Outlet, item: Item, byte: u8) -> bool
    ensures { SameOutlet outlet.old outlet.new }
{
    match outlet.offer(item) {
        Ok(()) => false,
        Err(full) => full.number() == 91 && full.item.bytes.parts().0 == [byte].as_slice(),
    }
}

/// Whether the next item has this byte and these cuts.
pub(crate) fn is_next(inlet: &mut Inlet, byte: u8, cuts: u64) -> bool
    ensures { SameInlet inlet.old inlet.new }
{
    match inlet.next() {
        Some(item) => item.cuts == cuts && item.bytes.parts().0 == [byte].as_slice(),
        None => false,
    }
}

/// Whether no item is there.
pub(crate) fn is_empty(inlet: &mut Inlet) -> bool
    ensures { SameInlet inlet.old inlet.new }
{
    inlet.next().is_none()
}

#[test]
#[tactic(auto, using(crate::proofs::Ends::ends_offer, crate::proofs::Ends::ends_take))]
fn a_full_ring_hands_the_item_back(rt: HostRuntime) {
    let (mut outlet, mut inlet) = ring_of(&rt, 1);
    assert!(rt; is_offered(&mut outlet, item(&rt, 7, 2)));
    assert!(rt; is_full(&mut outlet, item(&rt, 8, 3), 8));
    assert!(rt; inlet.left(&mut outlet) == 1);
    assert!(rt; is_next(&mut inlet, 7, 2) && is_empty(&mut inlet));
    assert!(rt; inlet.left(&mut outlet) == 0);
}

/// Why there is no ring of this capacity, if there is none.
fn refusal_of(alloc: Global, capacity: usize) -> Option<RingFault> {
    ring(alloc, capacity).err()
}

static NO_CAPACITIES: [usize; 3] = [0, 65_537, usize::MAX];

static CAPACITIES: [usize; 3] = [1, 4, 65_536];

/// How many of so many items and one more a ring takes.
fn room_of(rt: &(impl Abort + AllocGlobal), outlet: &mut Outlet, capacity: usize) -> usize {
    let mut taken = 0usize;
    for _ in 0..=capacity {
        if is_offered(outlet, item(rt, 1, 0)) {
            taken = taken.saturating_add(1);
        }
    }
    taken
}

/// Whether a ring has room for so many items, and for one more where one was taken.
fn has_room(rt: &(impl Abort + AllocGlobal), capacity: usize) -> bool {
    let (mut outlet, mut inlet) = ring_of(rt, capacity);
    room_of(rt, &mut outlet, capacity) == capacity
        && is_next(&mut inlet, 1, 0)
        && is_offered(&mut outlet, item(rt, 1, 0))
}

#[test]
fn capacities_are_1_to_65536(rt: HostRuntime) {
    assert_eq!(rt; RingFault::BadPlan.number(), 92);
    for capacity in &NO_CAPACITIES {
        let refusal = refusal_of(rt.alloc(), *capacity);
        assert!(rt; refusal == Some(RingFault::BadPlan), "of {capacity}");
    }
    for capacity in &CAPACITIES {
        assert!(rt; has_room(&rt, *capacity), "of {capacity}");
    }
}

#[test]
#[tactic(auto, using(crate::proofs::Ends::ends_finish, crate::proofs::Ends::ends_offer, crate::proofs::Ends::ends_take, crate::proofs::Ends::token_take))]
fn a_token_tells_what_is_left(rt: HostRuntime) {
    let (mut outlet, mut inlet) = ring_of(&rt, 4);
    assert!(rt; is_offered(&mut outlet, item(&rt, 0, 0)));
    assert!(rt; is_offered(&mut outlet, item(&rt, 1, 0)));
    assert!(rt; !inlet.gone() && is_next(&mut inlet, 0, 0));
    let mut token = outlet.finish().expect(&rt, "the inlet is there");
    assert!(rt; inlet.gone() && inlet.left_after(&mut token) == 1);
    assert!(rt; is_next(&mut inlet, 1, 0) && is_empty(&mut inlet));
    assert!(rt; inlet.left_after(&mut token) == 0);
}

#[test]
fn a_ring_without_its_inlet_has_no_token(rt: HostRuntime) {
    let (outlet, inlet) = ring_of(&rt, 4);
    drop(inlet);
    assert!(rt; outlet.finish().is_none());
}
