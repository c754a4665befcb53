//! Calls that take no memory, each made where no more is to be had: `tools/fail-alloc spk_channel_tests --from --only no_memory::` refuses
//! all allocations from each one on. Only what a test begins with asks for memory; where that is refused, it has nothing to look at.
ghost use Rattle.spk_rings.specs.Ring.{AreEnds};
ghost use Rattle.spk_ingress.specs.Passes.{PutsInto, TakesFrom};

use crate::ingress::{is_taken, opened, put_one, take_one};
use crate::rings::{is_empty, is_full, is_next, is_offered};
use spk_ingress::{Ingress, PutPass, TakePass};
use spk_rings::{Bytes, Inlet, Item, Outlet, ring};
use std::alloc::Global;
use std::sync::Wait;

/// A packet of one byte, if memory is there.
fn item(alloc: Global, byte: u8, cuts: u64) -> Option<Item> {
    match Vec::from_array(alloc, [byte]) {
        Ok(bytes) => Some(Item {
            bytes: Bytes::new(bytes),
            cuts,
        }),
        Err(_) => None,
    }
}

fn is_gone(outlet: Outlet, mut inlet: Inlet) -> bool {
    drop(outlet);
    inlet.gone()
}

/// Whether each call on a ring with room for one is answered, with the packets 7 and 8.
#[tactic(auto, using(crate::proofs::Ends::ends_offer, crate::proofs::Ends::ends_take))]
fn ring_goes_on(mut outlet: Outlet, mut inlet: Inlet, one: Item, two: Item) -> bool
    requires { AreEnds outlet inlet }
{
    is_offered(&mut outlet, one)
        && is_full(&mut outlet, two, 8)
        && inlet.left(&mut outlet) == 1
        && !inlet.gone()
        && is_next(&mut inlet, 7, 2)
        && is_empty(&mut inlet)
        && inlet.left(&mut outlet) == 0
        && is_gone(outlet, inlet)
}

#[test]
fn a_ring_goes_on(rt: HostRuntime) {
    let Ok((outlet, inlet)) = ring(rt.alloc(), 1) else {
        return;
    };
    let (Some(one), Some(two)) = (item(rt.alloc(), 7, 2), item(rt.alloc(), 8, 3)) else {
        return;
    };
    assert!(rt; ring_goes_on(outlet, inlet, one, two));
}

/// Whether the end is taken at once, the second frame of its sender, and then nothing.
fn is_taken_now<R: Wait>(rt: &R, ingress: &Ingress, taker: &mut TakePass) -> bool
    requires { TakesFrom ingress.now taker.old }
    ensures { TakesFrom ingress.now taker.new }
{
    match ingress.take_now(rt, taker) {
        Some(taken) => is_taken(&taken, 0, 1, false),
        None => false,
    }
}

/// Whether each call on an ingress with room for two is answered.
fn ingress_goes_on<R: Wait>(
    rt: &R,
    ingress: &Ingress,
    mut pass: PutPass,
    mut taker: TakePass,
) -> bool
    requires { PutsInto ingress.now pass × TakesFrom ingress.now taker }
{
    put_one(rt, ingress, &mut pass, true)
        && put_one(rt, ingress, &mut pass, false)
        && take_one(rt, ingress, &mut taker, 0, true)
        && is_taken_now(rt, ingress, &mut taker)
        && ingress.take_now(rt, &mut taker).is_none()
}

#[test]
fn an_ingress_goes_on(rt: HostRuntime) {
    let Some((ingress, first, _second, taker)) = opened(&rt, 2) else {
        return;
    };
    assert!(rt; ingress_goes_on(&rt, &ingress, first, taker));
}
