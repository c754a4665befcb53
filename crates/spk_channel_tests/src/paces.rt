//! Senders and a taker that keep each other waiting for a while, and a taker that goes, or takes one frame, while a sender waits.
ghost use Rattle.std.specs.Prelude.{◌≡◌};
ghost use Rattle.spk_ingress.specs.Passes.{PutsInto, TakesFrom};

use crate::ingress::opened;
use spk_ingress::{Frame, Ingress, PutPass, TakePass};
use std::alloc::Global;
use std::hint::spin_loop;
use std::sync::Wait;
use std::sync::atomic::{AtomicBool, Ordering};
use std::thread;
use std::thread::Threads;
use std::time::{Clock, Duration};

/// Does nothing for so many turns.
fn idle(turns: u32) {
    for _ in 0..turns {
        spin_loop();
    }
}

/// Puts so many frames, with so many turns before each.
fn put_at<R: Wait>(rt: &R, ingress: &Ingress, mut pass: PutPass, count: u64, turns: u32) -> PutPass
    requires { PutsInto ingress.now pass }
    ensures { PutsInto ingress.now result }
{
    for _ in 0..count {
        idle(turns);
        if ingress.put(rt, &mut pass, Frame::Cut).is_err() {
            break;
        }
    }
    pass
}

/// Takes so many frames, with so many turns before each, and a rest after each seventh.
fn take_at<R: Wait>(
    rt: &R,
    ingress: &Ingress,
    mut taker: TakePass,
    count: u64,
    pace: (u32, u32),
) -> TakePass
    requires { TakesFrom ingress.now taker }
    ensures { TakesFrom ingress.now result }
{
    let (turns, rest) = pace;
    for taken in 0..count {
        idle(turns);
        if taken % 7 == 6 {
            idle(rest);
        }
        if ingress.take(rt, &mut taker).is_err() {
            break;
        }
    }
    taker
}

/// How many frames may be on their way, how many turns pass before each put and before each take, and how many more after each seventh frame that was taken.
type Pace = (usize, u32, u32, u32);

/// What comes of two senders that put 300 frames each, while another thread takes them.
fn through_paces<R: Threads + Wait + Sync>(
    rt: &R,
    alloc: Global,
    pace: &Pace,
    ingress: Ingress,
    first: PutPass,
    second: PutPass,
    taker: TakePass,
) -> Option<Vec<u64>>
    requires { PutsInto ingress first × PutsInto ingress second × TakesFrom ingress taker }
{
    let shared = &ingress;
    let (_room, puts, takes, rest) = *pace;
    let (first, (second, taker)) = thread::join(
        rt,
        move ||
            requires { PutsInto shared.now first }
            ensures { PutsInto shared.entry.now result }
        { put_at(rt, shared, first, 300, puts) },
        move ||
            requires { PutsInto shared.now second × TakesFrom shared.now taker }
            ensures { PutsInto shared.entry.now result.0 × TakesFrom shared.entry.now result.1 }
        {
            thread::join(
                rt,
                move ||
                    requires { PutsInto shared.now second }
                    ensures { PutsInto shared.entry.now result }
                { put_at(rt, shared, second, 300, puts) },
                move ||
                    requires { TakesFrom shared.now taker }
                    ensures { TakesFrom shared.entry.now result }
                { take_at(rt, shared, taker, 600, (takes, rest)) },
            )
        },
    );
    let passes = Vec::from_array(alloc, [first, second]).ok()?;
    ingress.settle(rt, alloc, passes, taker).ok()
}

/// Both ends fast; one of them slower than a sender that turns before it sleeps, about as slow, and much slower; a taker that pauses in the middle of what it takes; room
/// for fewer frames than there are senders, for as many, and for more.
const PACES: [Pace; 27] = [
    (1, 0, 0, 0),
    (2, 0, 0, 0),
    (3, 0, 0, 0),
    (5, 0, 0, 0),
    (8, 0, 0, 0),
    (31, 0, 0, 0),
    (32, 0, 0, 0),
    (33, 0, 0, 0),
    (64, 0, 0, 0),
    (1, 0, 40, 0),
    (2, 0, 100, 0),
    (8, 100, 100, 0),
    (1, 0, 3_000, 0),
    (2, 0, 3_000, 0),
    (3, 0, 3_000, 0),
    (5, 0, 3_000, 0),
    (31, 0, 3_000, 0),
    (32, 0, 3_000, 0),
    (33, 0, 3_000, 0),
    (64, 0, 3_000, 0),
    (1, 3_000, 0, 0),
    (64, 3_000, 0, 0),
    (3, 0, 0, 100_000),
    (5, 0, 0, 100_000),
    (31, 0, 0, 100_000),
    (32, 0, 0, 100_000),
    (33, 0, 0, 100_000),
];

#[test]
fn frames_come_at_any_pace(rt: HostRuntime) {
    for pace in &PACES {
        let (ingress, first, second, taker) = opened(&rt, pace.0).expect(&rt, "an ingress");
        let counts = through_paces(&rt, rt.alloc(), pace, ingress, first, second, taker);
        let counts = counts.expect(&rt, "settled");
        assert_eq!(rt; counts.as_slice(), [300u64, 300].as_slice());
    }
}

/// Puts two frames where there is room for one: whether the second is refused, with what it was. The first one is too, where the taker is gone by then.
fn put_two<R: Wait>(rt: &R, ingress: &Ingress, mut pass: PutPass) -> bool
    requires { PutsInto ingress.now pass }
{
    let _first = ingress.put(rt, &mut pass, Frame::Cut);
    match ingress.put(rt, &mut pass, Frame::End) {
        Ok(()) => false,
        Err(closed) => matches!(&closed.value, Frame::End),
    }
}

/// The taker goes after so many turns.
fn go_after(taker: TakePass, turns: u32) {
    idle(turns);
    drop(taker);
}

/// Whether a put that finds no room is refused once the taker is gone.
fn is_left<R: Threads + Wait + Sync>(
    rt: &R,
    turns: u32,
    ingress: Ingress,
    pass: PutPass,
    taker: TakePass,
) -> bool
    requires { PutsInto ingress pass }
{
    let shared = &ingress;
    let (is_closed, _gone) = thread::join(
        rt,
        move || -> bool
            requires { PutsInto shared.now pass }
        { put_two(rt, shared, pass) },
        move || -> bool {
            go_after(taker, turns);
            true
        },
    );
    is_closed
}

/// At once, before the sender sleeps, about when it does, and mostly long after.
const TURNS: [u32; 5] = [0, 50, 1_000, 20_000, 2_000_000];

#[test]
fn a_put_that_waits_ends_with_the_taker(rt: HostRuntime) {
    for turns in &TURNS {
        for _ in 0..5 {
            let (ingress, pass, _second, taker) = opened(&rt, 1).expect(&rt, "an ingress");
            let is_closed = is_left(&rt, *turns, ingress, pass, taker);
            assert!(rt; is_closed, "after {turns}");
        }
    }
}

/// How many frames may be on their way where a taker takes one.
const ROOMS: [usize; 8] = [1, 2, 3, 5, 31, 32, 33, 64];

/// Puts one frame more than there is room for, and tells when that is done.
fn fill<R: Wait>(
    rt: &R,
    ingress: &Ingress,
    pass: PutPass,
    room: usize,
    is_done: &AtomicBool,
) -> PutPass
    requires { PutsInto ingress.now pass }
    ensures { PutsInto ingress.now result }
{
    let count = (room as u64).saturating_add(1);
    let pass = put_at(rt, ingress, pass, count, 0);
    is_done.store(true, Ordering::SeqCst);
    pass
}

/// Takes one frame when the sender waits for room, most likely, and no other until the sender is done: whether it is, within ten seconds.
fn take_one<R: Wait + Clock>(
    rt: &R,
    ingress: &Ingress,
    mut taker: TakePass,
    is_done: &AtomicBool,
) -> bool
    requires { TakesFrom ingress.now taker }
{
    let _ = thread::sleep(rt, Duration::from_millis(20));
    let _first = ingress.take(rt, &mut taker);
    for _ in 0..1_000 {
        if is_done.load(Ordering::SeqCst) {
            return true;
        }
        let _ = thread::sleep(rt, Duration::from_millis(10));
    }
    false
}

/// Whether a put that waits goes on once one frame was taken.
fn goes_on<R: Threads + Wait + Clock + Sync>(
    rt: &R,
    room: usize,
    ingress: Ingress,
    pass: PutPass,
    taker: TakePass,
) -> bool
    requires { PutsInto ingress pass × TakesFrom ingress taker }
{
    let shared = &ingress;
    let is_done = AtomicBool::new(false);
    let told = &is_done;
    let (_pass, is_put) = thread::join(
        rt,
        move || -> PutPass
            requires { PutsInto shared.now pass }
        { fill(rt, shared, pass, room, told) },
        move || -> bool
            requires { TakesFrom shared.now taker }
        { take_one(rt, shared, taker, told) },
    );
    is_put
}

#[test]
fn a_put_that_waits_goes_on_after_one_take(rt: HostRuntime) {
    for room in &ROOMS {
        for _ in 0..5 {
            let (ingress, pass, _second, taker) = opened(&rt, *room).expect(&rt, "an ingress");
            assert!(rt;
                goes_on(&rt, *room, ingress, pass, taker),
                "room for {room}"
            );
        }
    }
}
