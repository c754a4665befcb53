//! The body of the host's thread.
ghost use Rattle.std.specs.Prelude.{◌≡◌, ◌+◌, ◌∷◌, [], ◌++◌, List, ℕ, IfErr, IfOk, OnOk, vec_len};
ghost use Rattle.spk_ingress.specs.Passes.{PutsInto, frames_put};
ghost use Rattle.spk_ingress.specs.declared.frame.Frame.{Frame};
ghost use Rattle.spk_rings.specs.Ring.{SameInlet, ahead, popped};
ghost use Rattle.spk_rings.specs.declared.item.Item as plain;
ghost use Rattle.spk_host_session.specs.Data.{Config};
ghost use Rattle.spk_host.specs.Inputs.{new_host};
ghost use Rattle.spk_plant_host.specs.Ends.{HostBroke, HostDone, HostReady};
ghost use Rattle.spk_plant_host.specs.Steps.{HasRun, IsAlong, SamePass, TookTold};
ghost use Rattle.spk_plant_host.specs.Told.{IsToldBy, consumed_in, heard_in};

use crate::desk::Desk;
use crate::ends::{Given, HostEnd, HostFailed, HostStart};
use crate::fault::HostCause;
use crate::line::Line;
use crate::watch::Watch;
use spk_ingress::Ingress;
use spk_plan::Gate;
use spk_reading::{ReadFault, read};
use spk_rings::{Inlet, Item};
use std::alloc::Global;
use std::sync::Wait;
use std::thread::{Parker, yield_now};

/// How often the thread looks into an empty ring before it is parked: a wake-up costs more than a look.
const LOOKS: u32 = 64;

/// What an item says is told to the host, unless it would refuse it.
fn tell<R: Wait, G: Gate>(
    rt: &R,
    ingress: &Ingress,
    gate: &G,
    desk: &mut Desk,
    item: &Item,
    now: u64,
) -> Result<Given, HostCause>
    requires { PutsInto ingress.now desk.old.line.pass }
    ensures pass { SamePass ingress.now desk.old.line.pass desk.new.line.pass }
    ensures told { IfOk result (λ g. IsToldBy item.now (heard_in g)) }
    ensures took { IfOk result (λ g. TookTold (heard_in g) now desk.old.host desk.new.host
        (frames_put desk.old.line.pass) (frames_put desk.new.line.pass) (consumed_in g)) }
{
    let Ok(whole) = item.bytes.joined(desk.alloc) else {
        return Err(HostCause::NoMemory);
    };
    let heard = match read(desk.alloc, whole.as_slice()) {
        Ok(heard) => heard,
        Err(ReadFault::NoMemory) => return Err(HostCause::NoMemory),
        Err(_) => {
            return Ok(Given {
                heard: None,
                consumed: Vec::new(desk.alloc),
            });
        }
    };
    let Ok(told) = heard.copy(desk.alloc) else {
        return Err(HostCause::NoMemory);
    };
    let consumed = match desk.hear(rt, ingress, gate, told, now) {
        Ok(consumed) => consumed,
        Err(fault) => return Err(fault),
    };
    Ok(Given {
        heard: Some(heard),
        consumed,
    })
}

/// An item came out of the ring: what it says is told to the host, and then that a moment passed. The moment is the number of items.
fn take_in<R: Wait, G: Gate>(
    rt: &R,
    ingress: &Ingress,
    gate: &G,
    desk: &mut Desk,
    given: &mut Vec<Given>,
    item: &Item,
) -> Result<(), HostCause>
    requires { PutsInto ingress.now desk.old.line.pass }
    ensures pass { SamePass ingress.now desk.old.line.pass desk.new.line.pass }
    ensures along { (config : Config) (put : List Frame) (items : List plain.Item)
        → IsAlong config put items given.old.items desk.old.host (frames_put desk.old.line.pass)
        → OnOk result (IsAlong config put (items ++ item.now ∷ []) given.new.items desk.new.host
        (frames_put desk.new.line.pass)) }
{
    let Ok(()) = given.reserve(1) else {
        return Err(HostCause::NoMemory);
    };
    let _room = given.capacity();
    let now = (given.len() + 1) as u64;
    let told = match tell(rt, ingress, gate, desk, item, now) {
        Ok(told) => told,
        Err(fault) => return Err(fault),
    };
    match desk.tick(rt, ingress, gate, now) {
        Ok(_consumed) => {}
        Err(fault) => return Err(fault),
    }
    given.push_reserved(told);
    Ok(())
}

/// The host's session: it begins at moment 0, and goes on until the ring's other end is gone and the ring is empty. While the ring
/// is empty the thread looks again some times, and then it is parked.
fn run<R: Wait, G: Gate>(
    rt: &R,
    ingress: &Ingress,
    gate: &G,
    bell: &Parker,
    desk: &mut Desk,
    inlet: &mut Inlet,
) -> Result<Vec<Given>, HostCause>
    requires into { PutsInto ingress.now desk.old.line.pass }
    requires fresh { desk.old.host ≡ new_host desk.old.host.session.config }
    ensures pass { SamePass ingress.now desk.old.line.pass desk.new.line.pass }
    ensures inlet { SameInlet inlet.old inlet.new }
    ensures emptied { OnOk result (ahead inlet.new ≡ []) }
    ensures ran { IfOk result
        (λ v. HasRun desk.old.host.session.config (frames_put desk.old.line.pass)
        inlet.old inlet.new v.items desk.new.host (frames_put desk.new.line.pass)) }
{
    let Ok(()) = desk.watch.start() else {
        return Err(HostCause::NoMemory);
    };
    let mut given = Vec::new(desk.alloc);
    match desk.begin(rt, ingress, gate, 0) {
        Ok(_consumed) => {}
        Err(fault) => return Err(fault),
    }
    let mut looks = 0;
    for _ in rt.forever() {
        let gone = inlet.gone();
        let Some(item) = inlet.next() else {
            if gone {
                return Ok(given);
            }
            if looks < LOOKS {
                looks += 1;
                yield_now();
            } else {
                bell.park(rt);
            }
            continue;
        };
        looks = 0;
        match take_in(rt, ingress, gate, desk, &mut given, &item) {
            Ok(()) => {}
            Err(fault) => return Err(fault),
        }
    }
    unreachable!()
}

/// The body of the host's thread. The host begins its session at moment 0. Then each item of its ring is told to it, and after each
/// that a moment passed, which is the number of items so far; a call that the host refuses (70 to 75) hands out nothing. The packets
/// that it answers are put, and the gate is told of what it consumed. It ends once the ring's other end is gone and the ring is empty,
/// and puts End last. While the ring is empty the thread is parked at this bell: who offers to the ring, or drops it, unparks the bell
/// afterwards. The pass must be of this ingress, and the host new.
///
/// It fails with NoMemory (1) where a growth was refused, and with Closed (90) where the taker is gone. End is put all the same, unless
/// the taker is gone: with Closed it isn't put.
pub fn run_host<R: Wait, G: Gate>(
    rt: &R,
    alloc: Global,
    ingress: &Ingress,
    gate: &G,
    bell: &Parker,
    start: HostStart,
) -> Result<HostEnd, HostFailed>
    requires { HostReady ingress.now start }
    ensures done { IfOk result (λ e. HostDone ingress.now start e) }
    ensures broke { IfErr result (λ f. HostBroke ingress.now start f) }
{
    let HostStart {
        host,
        nodes,
        pass,
        mut inlet,
    } = start;
    let line = Line::new(pass, nodes.len());
    let mut desk = Desk {
        alloc,
        host,
        line,
        watch: Watch::new(alloc, nodes),
    };
    let ran = run(rt, ingress, gate, bell, &mut desk, &mut inlet);
    let ended = desk.line.end(rt, ingress, gate, &ran);
    let Desk { host, line, .. } = desk;
    let pass = line.pass;
    if let Err(gone) = ended {
        return Err(HostFailed {
            cause: HostCause::Closed(gone),
            pass,
        });
    }
    let given = match ran {
        Ok(given) => given,
        Err(cause) => return Err(HostFailed { cause, pass }),
    };
    Ok(HostEnd {
        given,
        host,
        pass,
        inlet,
    })
}
