ghost use Rattle.std.specs.Prelude.{◌≡◌, ◌+◌, length, IfSome, IfOk};
ghost use Rattle.std.specs.Thread.{IsSync};
ghost use Rattle.spk_ingress.specs.Passes.{PutsInto, TakesFrom, AllPutInto};

use spk_ingress::{
    Frame, FrameFault, Ingress, OpenFault, PutPass, SettleFault, TakePass, Taken, Whole,
};
use spk_packets::PacketFault;
use std::alloc::{AllocGlobal, Global};
use std::process::Abort;
use std::sync::Wait;
use std::thread;
use std::thread::Threads;

/// Bytes as a frame, or its fault and what is handed back.
fn framed(rt: &(impl Abort + AllocGlobal), bytes: &[u8]) -> Result<Frame, FrameFault> {
    let copy = match Vec::from_slice(rt.alloc(), bytes) {
        Ok(copy) => copy,
        Err(_) => Vec::from_slice(rt.alloc(), bytes).expect(rt, "memory is there again"),
    };
    match Frame::packet(rt.alloc(), copy) {
        Ok(frame) => Ok(frame),
        Err(refused) => {
            assert_eq!(rt; refused.bytes.as_slice(), bytes);
            Err(refused.fault)
        }
    }
}

/// Bytes, and why they aren't a frame, if they aren't one.
static FRAMES: [(&[u8], Option<FrameFault>); 6] = [
    (&[0xc0, 0x00], None),
    (&[0xc0], Some(FrameFault::Packet(PacketFault::More))),
    (&[], Some(FrameFault::Packet(PacketFault::More))),
    (&[0xc0, 0x00, 0xe0, 0x00], Some(FrameFault::NotOne)),
    (&[0x00], Some(FrameFault::Packet(PacketFault::BadType))),
    (&[0x34], Some(FrameFault::Packet(PacketFault::QosTwo))),
];

/// Whether a whole packet has these bytes, and can be read.
fn is_whole(alloc: Global, whole: Whole, bytes: &[u8]) -> bool {
    whole.as_slice() == bytes
        && (whole.read(alloc).is_ok() || whole.read(alloc).is_ok())
        && whole.into_vec().as_slice() == bytes
}

fn is_frame(rt: &(impl Abort + AllocGlobal), bytes: &[u8], fault: Option<FrameFault>) -> bool {
    match framed(rt, bytes) {
        Ok(Frame::Packet(whole)) => fault.is_none() && is_whole(rt.alloc(), whole, bytes),
        Ok(_) => false,
        Err(found) => fault == Some(found),
    }
}

#[test]
fn a_frame_is_one_packet(rt: HostRuntime) {
    for (bytes, fault) in &FRAMES {
        assert!(rt; is_frame(&rt, bytes, *fault), "of {bytes:?}");
    }
}

static NUMBERS: [(FrameFault, u32); 4] = [
    (FrameFault::Packet(PacketFault::More), 10),
    (FrameFault::Packet(PacketFault::BadType), 13),
    (FrameFault::Packet(PacketFault::QosTwo), 17),
    (FrameFault::NotOne, 95),
];

#[test]
fn faults_have_their_numbers(rt: HostRuntime) {
    for (fault, number) in &NUMBERS {
        assert_eq!(rt; fault.number(), *number);
    }
    assert!(rt; SettleFault::Unsettled.number() == 93 && OpenFault::BadPlan.number() == 92);
}

/// The first two passes.
#[tactic(auto, using(crate::proofs::Passes::put_into_front))]
fn two_of(ingress: &Ingress, mut passes: Vec<PutPass>) -> Option<(PutPass, PutPass)>
    requires { AllPutInto ingress.now passes.items }
    ensures { IfSome result (λ r. PutsInto ingress.now r.0 × PutsInto ingress.now r.1) }
{
    let second = passes.pop()?;
    let first = passes.pop()?;
    Some((first, second))
}

/// An ingress of two senders, its passes and the taker's.
pub(crate) fn opened<R: AllocGlobal + Wait>(
    rt: &R,
    capacity: usize,
) -> Option<(Ingress, PutPass, PutPass, TakePass)>
    ensures { IfSome result (λ r. PutsInto r.0 r.1 × PutsInto r.0 r.2 × TakesFrom r.0 r.3) }
{
    let (ingress, passes, taker) = Ingress::open(rt, rt.alloc(), capacity, 2).ok()?;
    let (first, second) = two_of(&ingress, passes)?;
    Some((ingress, first, second, taker))
}

/// Puts a frame that is a cut, or else the end.
pub(crate) fn put_one<R: Wait>(rt: &R, ingress: &Ingress, pass: &mut PutPass, is_cut: bool) -> bool
    requires { PutsInto ingress.now pass.old }
    ensures { PutsInto ingress.now pass.new }
{
    let frame = if is_cut { Frame::Cut } else { Frame::End };
    ingress.put(rt, pass, frame).is_ok()
}

/// Whether a frame was taken of this sender, with this number, and is a cut, or else the end.
pub(crate) fn is_taken(taken: &Taken, sender: usize, number: u64, is_cut: bool) -> bool {
    let is_so = match taken.frame {
        Frame::Cut => is_cut,
        Frame::End => !is_cut,
        _ => false,
    };
    is_so && taken.sender == sender && taken.number == number
}

pub(crate) fn take_one<R: Wait>(
    rt: &R,
    ingress: &Ingress,
    taker: &mut TakePass,
    sender: usize,
    is_cut: bool,
) -> bool
    requires { TakesFrom ingress.now taker.old }
    ensures { TakesFrom ingress.now taker.new }
{
    match ingress.take(rt, taker) {
        Ok(taken) => is_taken(&taken, sender, 0, is_cut),
        Err(_) => false,
    }
}

/// What comes of giving these two passes back.
fn settled<R: AllocGlobal + Abort + Wait>(
    rt: &R,
    ingress: Ingress,
    first: PutPass,
    second: PutPass,
    taker: TakePass,
) -> Result<Vec<u64>, SettleFault>
    requires { PutsInto ingress first × PutsInto ingress second × TakesFrom ingress taker }
{
    let passes = Vec::from_array(rt.alloc(), [first, second]).expect(rt, "memory");
    ingress.settle(rt, rt.alloc(), passes, taker)
}

/// A cut by the first sender and an end by the second are put, and taken in that order.
fn pass_in_order<R: Wait>(
    rt: &R,
    ingress: &Ingress,
    first: &mut PutPass,
    second: &mut PutPass,
    taker: &mut TakePass,
) -> bool
    requires put { PutsInto ingress.now first.old × PutsInto ingress.now second.old }
    requires take { TakesFrom ingress.now taker.old }
    ensures put { PutsInto ingress.now first.new × PutsInto ingress.now second.new }
    ensures take { TakesFrom ingress.now taker.new }
{
    put_one(rt, ingress, first, true)
        && put_one(rt, ingress, second, false)
        && take_one(rt, ingress, taker, 0, true)
        && take_one(rt, ingress, taker, 1, false)
}

#[test]
fn frames_come_in_the_order_of_their_putting(rt: HostRuntime) {
    let (ingress, mut first, mut second, mut taker) = opened(&rt, 2).expect(&rt, "an ingress");
    assert!(rt; pass_in_order(&rt, &ingress, &mut first, &mut second, &mut taker));
    let counts = settled(&rt, ingress, first, second, taker).expect(&rt, "settled");
    assert!(rt; counts.as_slice() == [1u64, 1].as_slice());
}

#[test]
fn a_frame_left_is_unsettled(rt: HostRuntime) {
    let (ingress, mut first, second, taker) = opened(&rt, 2).expect(&rt, "an ingress");
    assert!(rt; put_one(&rt, &ingress, &mut first, true));
    let fault = settled(&rt, ingress, first, second, taker).err();
    assert!(rt; fault == Some(SettleFault::Unsettled));
}

/// Why an ingress is unsettled where its second pass isn't given back.
fn without_second<R: AllocGlobal + Abort + Wait>(
    rt: &R,
    ingress: Ingress,
    first: PutPass,
    taker: TakePass,
) -> Option<SettleFault>
    requires { PutsInto ingress first × TakesFrom ingress taker }
{
    let passes = Vec::from_array(rt.alloc(), [first]).expect(rt, "memory");
    ingress.settle(rt, rt.alloc(), passes, taker).err()
}

#[test]
fn a_missing_pass_is_unsettled(rt: HostRuntime) {
    let (ingress, first, _second, taker) = opened(&rt, 2).expect(&rt, "an ingress");
    let fault = without_second(&rt, ingress, first, taker);
    assert!(rt; fault == Some(SettleFault::Unsettled));
}

/// Whether a put of an end is closed, and hands it back.
fn is_closed<R: Wait>(rt: &R, ingress: &Ingress, mut pass: PutPass) -> bool
    requires { PutsInto ingress.now pass }
{
    match ingress.put(rt, &mut pass, Frame::End) {
        Ok(()) => false,
        Err(closed) => closed.number() == 90 && matches!(closed.value, Frame::End),
    }
}

#[test]
fn a_put_without_a_taker_is_closed(rt: HostRuntime) {
    let (ingress, first, _second, taker) = opened(&rt, 2).expect(&rt, "an ingress");
    drop(taker);
    assert!(rt; is_closed(&rt, &ingress, first));
}

/// A capacity and a count of senders, and whether there is no such ingress.
static PLANS: [(usize, usize, bool); 7] = [
    (0, 1, true),
    (65_537, 1, true),
    (1, 0, true),
    (1, 1_025, true),
    (1, 1, false),
    (65_536, 1, false),
    (1, 1_024, false),
];

/// Why an ingress isn't opened, if it isn't.
fn refusal_of<R: AllocGlobal + Wait>(rt: &R, capacity: usize, senders: usize) -> Option<OpenFault> {
    Ingress::open(rt, rt.alloc(), capacity, senders).err()
}

/// The same, where memory that is refused once is asked for again.
fn refusal_again<R: AllocGlobal + Wait>(
    rt: &R,
    capacity: usize,
    senders: usize,
) -> Option<OpenFault> {
    match refusal_of(rt, capacity, senders) {
        Some(OpenFault::NoMemory) => refusal_of(rt, capacity, senders),
        answer => answer,
    }
}

#[test]
fn capacities_and_senders_have_bounds(rt: HostRuntime) {
    for (capacity, senders, is_bad) in &PLANS {
        let want = if *is_bad {
            Some(OpenFault::BadPlan)
        } else {
            None
        };
        let refusal = refusal_again(&rt, *capacity, *senders);
        assert!(rt; refusal == want, "of {capacity} and {senders}");
    }
}

fn put_many<R: Wait>(rt: &R, ingress: &Ingress, mut pass: PutPass, count: u64) -> PutPass
    requires { PutsInto ingress.now pass }
    ensures { PutsInto ingress.now result }
{
    for _ in 0..count {
        if ingress.put(rt, &mut pass, Frame::Cut).is_err() {
            break;
        }
    }
    pass
}

fn take_many<R: Wait>(rt: &R, ingress: &Ingress, mut taker: TakePass, count: u64) -> TakePass
    requires { TakesFrom ingress.now taker }
    ensures { TakesFrom ingress.now result }
{
    for _ in 0..count {
        if ingress.take(rt, &mut taker).is_err() {
            break;
        }
    }
    taker
}

#[test]
fn two_threads_put_what_a_third_takes(rt: HostRuntime) {
    let (ingress, first, second, taker) = opened(&rt, 8).expect(&rt, "an ingress");
    let counts = through_threads(&rt, rt.alloc(), ingress, first, second, taker);
    let counts = counts.expect(&rt, "settled");
    assert_eq!(rt; counts.as_slice(), [1_000u64, 1_000].as_slice());
}

fn through_threads<R: Threads + Wait + Sync>(
    rt: &R,
    alloc: Global,
    ingress: Ingress,
    first: PutPass,
    second: PutPass,
    taker: TakePass,
) -> Option<Vec<u64>>
    requires { PutsInto ingress first × PutsInto ingress second × TakesFrom ingress taker }
{
    let shared = &ingress;
    let (first, (second, taker)) = thread::join(
        rt,
        move ||
            requires { PutsInto shared.now first }
            ensures { PutsInto shared.entry.now result }
        { put_many(rt, shared, first, 1_000) },
        move ||
            requires { PutsInto shared.now second × TakesFrom shared.now taker }
            ensures { PutsInto shared.entry.now result.0 × TakesFrom shared.entry.now result.1 }
        {
            thread::join(
                rt,
                move ||
                    requires { PutsInto shared.now second }
                    ensures { PutsInto shared.entry.now result }
                { put_many(rt, shared, second, 1_000) },
                move ||
                    requires { TakesFrom shared.now taker }
                    ensures { TakesFrom shared.entry.now result }
                { take_many(rt, shared, taker, 2_000) },
            )
        },
    );
    let passes = Vec::from_array(alloc, [first, second]).ok()?;
    ingress.settle(rt, alloc, passes, taker).ok()
}

/// Takes the last pass away.
#[tactic(auto, using(crate::proofs::Passes::put_into_front))]
fn next_of(ingress: &Ingress, passes: &mut Vec<PutPass>) -> Option<PutPass>
    requires { AllPutInto ingress.now passes.old.items }
    ensures pass { IfSome result (λ p. PutsInto ingress.now p) }
    ensures others { IfSome result (λ _. AllPutInto ingress.now passes.new.items) }
    ensures fewer { IfSome result (λ _. length passes.old.items ≡ length passes.new.items + 1) }
{
    passes.pop()
}

/// The passes, and one behind them.
#[tactic(auto, using(crate::proofs::Passes::all_with))]
fn with(ingress: &Ingress, mut passes: Vec<PutPass>, pass: PutPass) -> Option<Vec<PutPass>>
    requires { AllPutInto ingress.now passes.items × PutsInto ingress.now pass }
    ensures { IfSome result (λ ps. AllPutInto ingress.now ps.items) }
{
    passes.push(pass).ok()?;
    Some(passes)
}

/// Each pass puts so many frames, on a thread of its own.
fn put_by_threads<R: Threads + Wait + Sync>(
    rt: &R,
    alloc: Global,
    ingress: &Ingress,
    mut passes: Vec<PutPass>,
    count: u64,
) -> Option<Vec<PutPass>>
    requires { AllPutInto ingress.now passes.items }
    ensures { IfSome result (λ ps. AllPutInto ingress.now ps.items) }
{
    let Some(pass) = next_of(ingress, &mut passes) else {
        return Some(Vec::new(alloc));
    };
    let (pass, others) = thread::join(
        rt,
        move || -> PutPass
            requires { PutsInto ingress.now pass }
            ensures { PutsInto ingress.entry.now result }
        { put_many(rt, ingress, pass, count) },
        move || -> Option<Vec<PutPass>>
            requires { IsSync R.row × AllPutInto ingress.now passes.items }
            ensures { IfSome result (λ ps. AllPutInto ingress.entry.now ps.items) }
        { put_by_threads(rt, alloc, ingress, passes, count) },
    );
    with(ingress, others?, pass)
}

/// What 17 senders put, 100 frames each through room for so many, while another thread takes them: how many came of each.
fn through_many_threads<R: Threads + Wait + Sync>(
    rt: &R,
    alloc: Global,
    room: usize,
) -> Option<Vec<u64>> {
    let (ingress, passes, taker) = Ingress::open(rt, alloc, room, 17).ok()?;
    let shared = &ingress;
    let (passes, taker) = thread::join(
        rt,
        move || -> Option<Vec<PutPass>>
            requires { IsSync R.row × AllPutInto shared.now passes.items }
            ensures { IfSome result (λ ps. AllPutInto shared.entry.now ps.items) }
        { put_by_threads(rt, alloc, shared, passes, 100) },
        move || -> TakePass
            requires { TakesFrom shared.now taker }
            ensures { TakesFrom shared.entry.now result }
        { take_many(rt, shared, taker, 1_700) },
    );
    ingress.settle(rt, alloc, passes?, taker).ok()
}

#[test]
fn seventeen_threads_put_what_another_takes(rt: HostRuntime) {
    let counts = through_many_threads(&rt, rt.alloc(), 8).expect(&rt, "settled");
    assert_eq!(rt; counts.as_slice(), [100u64; 17].as_slice());
}

#[test]
fn seventeen_threads_put_through_room_for_two(rt: HostRuntime) {
    let counts = through_many_threads(&rt, rt.alloc(), 2).expect(&rt, "settled");
    assert_eq!(rt; counts.as_slice(), [100u64; 17].as_slice());
}

/// Fewer than the senders, and fewer than two for each.
const ROOMS: [usize; 5] = [3, 5, 31, 32, 33];

#[test]
fn seventeen_threads_put_through_little_room(rt: HostRuntime) {
    for room in &ROOMS {
        let counts = through_many_threads(&rt, rt.alloc(), *room).expect(&rt, "settled");
        assert_eq!(rt;
            counts.as_slice(),
            [100u64; 17].as_slice(),
            "room for {room}"
        );
    }
}
