//! Frames from many senders to one taker.
ghost use Rattle.std.specs.Prelude.{◌≡◌, ◌↔◌, ◌+◌, ◌<◌, ◌≤◌, ℕ, true, false, get_or, [], ◌∷◌, ◌++◌, length, IfOk, IfErr, OnOk, OnErr, IfSome, None};
ghost use Rattle.spk_ingress.specs.Lanes.{share_of};
ghost use Rattle.spk_ingress.specs.Passes.{IsCapacity, AreSenders, PutsInto, TakesFrom, ArePasses, AllPutInto, IsSettled, AreLengths, TakesNone, IsMarked, AllTaken, frames_put, frames_taken};

use crate::fault::{Closed, OpenFault, SettleFault};
use crate::frame::Frame;
use crate::rule::{Known, Lanes, Message, NewSender, Puts, Settles, Takes, View};
use crossbeam_channel::{Pass, RuledReceiver, RuledSender, bounded_with};
use std::alloc::{AllocError, Global};
use std::fmt;
use std::sync::Wait;

/// Where the senders put, which they share.
#[derive(Drop)]
pub struct Ingress {
    pub(crate) end: RuledSender<Message, View, Lanes>,
    pub(crate) senders: usize,
}

impl fmt::Debug for Ingress {
    fn fmt<W: fmt::Write>(&self, f: &mut fmt::Formatter<W>) -> fmt::Result {
        f.write_str("Ingress { .. }")
    }
}

/// The leave of one sender to put. Contracts see the frames put through it (`frames_put`).
#[derive(Drop)]
pub struct PutPass {
    pub(crate) sender: usize,
    pub(crate) count: u64,
    pub(crate) seat: Pass<Message, View>,
}

impl fmt::Debug for PutPass {
    fn fmt<W: fmt::Write>(&self, f: &mut fmt::Formatter<W>) -> fmt::Result {
        f.write_str("PutPass { .. }")
    }
}

/// The leave to take. Contracts see the frames taken (`frames_taken`). The only receiving end is in it: where it is
/// dropped, each put that waits answers Closed.
#[derive(Drop)]
pub struct TakePass {
    pub(crate) end: RuledReceiver<Message, View, Lanes>,
    pub(crate) counts: Vec<u64>,
    pub(crate) seat: Pass<Message, View>,
}

impl fmt::Debug for TakePass {
    fn fmt<W: fmt::Write>(&self, f: &mut fmt::Formatter<W>) -> fmt::Result {
        f.write_str("TakePass { .. }")
    }
}

/// A frame, its sender, and how many of that sender's frames were taken before it.
#[derive(Debug, Drop)]
pub struct Taken {
    pub sender: usize,
    pub number: u64,
    pub frame: Frame,
}

impl Ingress {
    /// An ingress with room for so many frames on their way (1 to 65,536) and so many senders (1 to 1,024), a pass for
    /// each sender in order, and the taker's.
    pub fn open<R: Wait>(
        _rt: &R,
        alloc: Global,
        capacity: usize,
        senders: usize,
    ) -> Result<(Ingress, Vec<PutPass>, TakePass), OpenFault>
        ensures senders { IfOk result (λ r. r.0.senders ≡ senders) }
        ensures passes { IfOk result (λ r. ArePasses r.0 r.1.items) }
        ensures taker { IfOk result (λ r. TakesFrom r.0 r.2 × (frames_taken r.2 ≡ [])) }
        ensures ok { OnOk result (IsCapacity capacity × AreSenders senders) }
        ensures bad_plan { IfErr result
            (λ e. e ≡ OpenFault.BadPlan → ¬ (IsCapacity capacity × AreSenders senders)) }
        ensures no_memory { IfErr result
            (λ e. e ≡ OpenFault.NoMemory → IsCapacity capacity × AreSenders senders) }
    {
        if !(1..=65_536).contains(&capacity) || !(1..=1_024).contains(&senders) {
            return Err(OpenFault::BadPlan);
        }
        let Ok(opened) = opened(alloc, capacity, senders) else {
            return Err(OpenFault::NoMemory);
        };
        Ok(opened)
    }

    /// Puts a frame, and waits while there is no room. Closed, where the taker is gone or the pass has put the greatest
    /// `u64` of frames, hands it back. The pass must be of this ingress.
    pub fn put<R: Wait>(
        &self,
        rt: &R,
        pass: &mut PutPass,
        frame: Frame,
    ) -> Result<(), Closed<Frame>>
        requires { PutsInto self.now pass.old }
        ensures pass { PutsInto self.now pass.new × (pass.new.sender ≡ pass.old.sender) }
        ensures ok { OnOk result (frames_put pass.new ≡ frames_put pass.old ++ frame ∷ []) }
        ensures closed { IfErr result
            (λ e. (e.value ≡ frame) × (frames_put pass.new ≡ frames_put pass.old)) }
    {
        if pass.count == u64::MAX {
            return Err(Closed::of(frame));
        }
        let sender = pass.sender;
        let message = Message { sender, frame };
        match self.end.send_as::<Puts, R>(rt, &mut pass.seat, message) {
            Ok(()) => {
                pass.count += 1;
                Ok(())
            }
            Err(error) => {
                let message = error.into_inner();
                Err(Closed::of(message.frame))
            }
        }
    }

    /// Takes the frame that was put first of those on their way, and waits while there is none. Closed says that no more
    /// come. The pass must be of this ingress.
    pub fn take<R: Wait>(&self, rt: &R, pass: &mut TakePass) -> Result<Taken, Closed<()>>
        requires { TakesFrom self.now pass.old }
        ensures pass { TakesFrom self.now pass.new }
        ensures ok { IfOk result
            (λ t. frames_taken pass.new
            ≡ frames_taken pass.old ++ (record { sender = t.sender; frame = t.frame }) ∷ []) }
        ensures sender { IfOk result (λ t. t.sender < self.now.senders) }
        ensures number { IfOk result
            (λ t. t.number ≡ length (share_of t.sender (frames_taken pass.old))) }
        ensures closed { OnErr result (frames_taken pass.new ≡ frames_taken pass.old) }
    {
        let Ok(message) = pass.end.recv_as::<Takes, R>(rt, &mut pass.seat) else {
            return Err(Closed::of(()));
        };
        let Message { sender, frame } = message;
        let number = pass.counts[sender];
        pass.counts[sender] = number + 1;
        Ok(Taken {
            sender,
            number,
            frame,
        })
    }

    /// As `take`, but where no frame waits it doesn't wait for one: None. It is None also where no more come. The
    /// handle to wait is the channel's: it may wait for another call that is at the same place.
    pub fn take_now<R: Wait>(&self, rt: &R, pass: &mut TakePass) -> Option<Taken>
        requires { TakesFrom self.now pass.old }
        ensures pass { TakesFrom self.now pass.new }
        ensures some { IfSome result
            (λ t. frames_taken pass.new
            ≡ frames_taken pass.old ++ (record { sender = t.sender; frame = t.frame }) ∷ []) }
        ensures sender { IfSome result (λ t. t.sender < self.now.senders) }
        ensures number { IfSome result
            (λ t. t.number ≡ length (share_of t.sender (frames_taken pass.old))) }
        ensures none { result ≡ None → frames_taken pass.new ≡ frames_taken pass.old }
    {
        let Ok(message) = pass.end.try_recv_as::<Takes, R>(rt, &mut pass.seat) else {
            return None;
        };
        let sender = message.sender;
        let before = pass.counts[sender];
        pass.counts[sender] = before + 1;
        Some(Taken {
            sender,
            number: before,
            frame: message.frame,
        })
    }
}

/// A pass for the next sender.
fn next_pass(ingress: &Ingress, taker: &mut TakePass, sender: usize) -> PutPass
    requires { TakesNone ingress.now taker.old sender × (sender < ingress.now.senders) }
    ensures taker { TakesNone ingress.now taker.new (sender + 1)
        × (taker.new.counts ≡ taker.old.counts) }
    ensures pass { PutsInto ingress.now result × (result.sender ≡ sender)
        × (frames_put result ≡ []) }
{
    let seat = ingress.end.another::<NewSender>(&mut taker.seat);
    PutPass {
        sender,
        count: 0,
        seat,
    }
}

/// The passes of new senders, in order.
fn passes_of(
    alloc: Global,
    ingress: &Ingress,
    taker: &mut TakePass,
) -> Result<Vec<PutPass>, AllocError>
    requires { TakesNone ingress.now taker.old 0 }
    ensures taker { OnOk result (TakesNone ingress.now taker.new ingress.now.senders) }
    ensures passes { IfOk result (λ ps. ArePasses ingress.now ps.items) }
    ensures counts { taker.new.counts ≡ taker.old.counts }
{
    let mut passes = Vec::new(alloc);
    for sender in 0..ingress.senders {
        passes.reserve(1)?;
        let pass = next_pass(ingress, taker, sender);
        passes.push_reserved(pass);
    }
    Ok(passes)
}

fn opened(
    alloc: Global,
    capacity: usize,
    senders: usize,
) -> Result<(Ingress, Vec<PutPass>, TakePass), AllocError>
    requires { IsCapacity capacity × AreSenders senders }
    ensures senders { IfOk result (λ r. r.0.senders ≡ senders) }
    ensures passes { IfOk result (λ r. ArePasses r.0 r.1.items) }
    ensures taker { IfOk result (λ r. TakesFrom r.0 r.2 × (frames_taken r.2 ≡ [])) }
{
    let counts = vec![in alloc; 0u64; senders]?;
    let (end, receiver, seat) = bounded_with(alloc, capacity)?;
    let ingress = Ingress { end, senders };
    let mut taker = TakePass {
        end: receiver,
        counts,
        seat,
    };
    let passes = passes_of(alloc, &ingress, &mut taker)?;
    Ok((ingress, passes, taker))
}

impl Ingress {
    /// Ends the ingress: exactly where all passes are there and every frame that was put was taken, it answers how many
    /// frames each sender put. Then each sender's share of what was taken is what was put through its pass. The passes
    /// are spent in any case, and must be of this ingress.
    pub fn settle<R: Wait>(
        self,
        _rt: &R,
        alloc: Global,
        passes: Vec<PutPass>,
        mut taker: TakePass,
    ) -> Result<Vec<u64>, SettleFault>
        requires taker { TakesFrom self taker }
        requires passes { AllPutInto self passes.items }
        ensures settled { OnOk result (IsSettled self taker passes.items) }
        ensures lengths { IfOk result (λ v. AreLengths self taker v.items) }
        ensures unsettled { IfErr result
            (λ e. e ≡ SettleFault.Unsettled → ¬ (IsSettled self taker passes.items)) }
    {
        let Ok(mut seen) = vec![in alloc; false; self.senders] else {
            return Err(SettleFault::NoMemory);
        };
        if !self.takes_all(&mut taker, &mut seen, passes) {
            return Err(SettleFault::Unsettled);
        }
        if !are_all_true(&seen) {
            return Err(SettleFault::Unsettled);
        }
        Ok(taker.counts)
    }

    /// Whether all that was put through a pass was taken.
    fn takes_in(&self, taker: &mut TakePass, pass: PutPass) -> bool
        requires taker { TakesFrom self.now taker.old }
        requires pass { PutsInto self.now pass }
        ensures taker { TakesFrom self.now taker.new }
        ensures same { (frames_taken taker.new ≡ frames_taken taker.old)
            × (taker.new.counts ≡ taker.old.counts) }
        ensures all { result ≡ true
            → share_of pass.sender (frames_taken taker.old) ≡ frames_put pass }
        ensures only { share_of pass.sender (frames_taken taker.old) ≡ frames_put pass
            → result ≡ true }
    {
        let PutPass {
            sender,
            count,
            seat,
        } = pass;
        self.end.absorb::<Settles>(&mut taker.seat, seat);
        self.end.learn_as::<Known>(&mut taker.seat);
        taker.counts[sender] == count
    }

    /// Whether all that was put through these passes was taken. It marks their senders.
    fn takes_all(
        &self,
        taker: &mut TakePass,
        seen: &mut Vec<bool>,
        mut passes: Vec<PutPass>,
    ) -> bool
        requires taker { TakesFrom self.now taker.old }
        requires passes { AllPutInto self.now passes.items }
        requires seen { IsMarked self.now seen.old.items [] }
        ensures same { (frames_taken taker.new ≡ frames_taken taker.old)
            × (taker.new.counts ≡ taker.old.counts) }
        ensures all { result ≡ true
            → AllTaken (frames_taken taker.old) passes.items
            × IsMarked self.now seen.new.items passes.items }
        ensures only { result ≡ false → ¬ (AllTaken (frames_taken taker.old) passes.items) }
    {
        while let Some(pass) = passes.pop() {
            let sender = pass.sender;
            if !self.takes_in(taker, pass) {
                return false;
            }
            seen[sender] = true;
        }
        true
    }
}

fn are_all_true(marks: &[bool]) -> bool
    ensures { (result ≡ true) ↔ ((i : ℕ) → i < length marks.now → get_or marks.now i false ≡ true) }
{
    for mark in marks {
        if !*mark {
            return false;
        }
    }
    true
}
