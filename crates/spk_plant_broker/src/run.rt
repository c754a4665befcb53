//! The broker's thread.
ghost use Rattle.std.specs.Prelude.{◌≡◌, ◌+◌, ◌<◌, ℕ, List, [], length, IfOk, IfErr, OnOk, OnErr, true};
ghost use Rattle.std.specs.List.{AllByRecursion};
ghost use Rattle.spk_ingress.specs.declared.rule.Message.{Message};
ghost use Rattle.spk_ingress.specs.Passes.{TakesFrom, frames_taken};
ghost use Rattle.spk_plant_broker.specs.Bells.{AreRung};
ghost use Rattle.spk_plant_broker.specs.Data.{Entry};
ghost use Rattle.spk_plant_broker.specs.Done.{BrokerDone, BrokerReady};
ghost use Rattle.spk_plant_broker.specs.Fault.{is_closed};
ghost use Rattle.spk_plant_broker.specs.Holding.{HasAllEnded, HasRings, IsIdle, Setting};

use crate::bells::Bells;
use crate::done::end_of;
use crate::fault::BrokerFailed;
use crate::hub::{Hub, have_ended};
use crate::part::{BrokerEnd, BrokerStart};
use spk_ingress::{Ingress, TakePass, Taken};
use spk_plan::Gate;
use std::alloc::Global;
use std::sync::Wait;

/// Takes frames until each sender has ended. After each frame all bells are rung.
fn take_all<R: Wait, G: Gate>(
    rt: &R,
    ingress: &Ingress,
    gate: &G,
    bells: &mut Bells<'_>,
    pass: &mut TakePass,
    hub: &mut Hub,
) -> Result<(), BrokerFailed>
    requires pass { TakesFrom ingress.now pass.old }
    requires known { (s : Setting) × (log : List Entry) × IsIdle s hub.old log
        × (s.count ≡ ingress.now.senders) }
    requires taken { frames_taken pass.old ≡ hub.old.taken.items }
    requires none { hub.old.taken.items ≡ [] }
    requires rings { HasRings hub.old }
    ensures pass { TakesFrom ingress.now pass.new }
    ensures taken { OnOk result (frames_taken pass.new ≡ hub.new.taken.items) }
    ensures senders { OnOk result
        (AllByRecursion (λ (m : Message). m.sender < ingress.now.senders) hub.new.taken.items) }
    ensures idle { OnOk result
        ((s : Setting) (log : List Entry) → IsIdle s hub.old log → s.count ≡ ingress.now.senders
        → HasAllEnded s hub.new) }
    ensures rung { OnOk result (AreRung (length hub.new.taken.items) bells.old bells.new) }
    // no frame more comes: all that were taken are done with
    ensures closed { IfErr result (λ e. is_closed e ≡ true
        → (frames_taken pass.new ≡ hub.new.taken.items)
        × AreRung (length hub.new.taken.items) bells.old bells.new) }
    ensures broke { OnErr result ((n : ℕ) × AreRung n bells.old bells.new) }
{
    for _ in rt.forever() {
        let Taken { sender, frame, .. } = match ingress.take(rt, pass) {
            Ok(taken) => taken,
            Err(closed) => return Err(BrokerFailed::Closed(closed.gone())),
        };
        hub.take(rt, gate, sender, frame)?;
        bells.ring_all();
        if have_ended(&hub.lines, hub.lines.len()) {
            return Ok(());
        }
    }
    unreachable!()
}

/// Takes frames from the first to the last, and hands on what came of them.
fn run_frames<R: Wait, G: Gate>(
    rt: &R,
    alloc: Global,
    ingress: &Ingress,
    gate: &G,
    bells: &mut Bells<'_>,
    start: BrokerStart,
) -> Result<BrokerEnd, BrokerFailed>
    requires { BrokerReady ingress.now start }
    ensures done { IfOk result (λ end. BrokerDone ingress.now start end) }
    ensures rung { IfOk result
        (λ end. AreRung (length end.taken.items) bells.old bells.new) }
    ensures broke { OnErr result ((n : ℕ) × AreRung n bells.old bells.new) }
{
    let BrokerStart {
        width,
        mut pass,
        outlets,
    } = start;
    let mut hub = Hub::new(alloc, width.budget(), outlets)?;
    take_all(rt, ingress, gate, bells, &mut pass, &mut hub)?;
    let end = end_of(alloc, hub, pass)?;
    Ok(end)
}

/// The body of a plant's broker thread (own rules). It takes frames until each sender's End was taken. A packet of a client
/// without a connection opens one, unless the broker closed that client; every other frame without a connection is passed
/// over. The sends of one call of the broker are offered to the clients' rings, in order, before the next call, and then each
/// refused one is told to it, in order. A ring is dropped when the broker has closed its client, or all edge nodes have ended.
/// The broker's moments are the frames taken. All these bells are rung after each frame, and once more at the end, when the rings are
/// dropped: a thread that waits at its ring is parked there. The pass must be of this ingress, with nothing taken, and the rings be new, one for
/// each sender.
///
/// Refused with NoMemory (1) where a growth was refused, and with Closed (90) where the ingress gives no further frame; by nothing
/// else, whatever the frames say. The bells are rung once more then too.
pub fn run_broker<R: Wait, G: Gate>(
    rt: &R,
    alloc: Global,
    ingress: &Ingress,
    gate: &G,
    bells: &mut Bells<'_>,
    start: BrokerStart,
) -> Result<BrokerEnd, BrokerFailed>
    requires { BrokerReady ingress.now start }
    ensures done { IfOk result (λ end. BrokerDone ingress.now start end) }
    // after each frame taken, and once more
    ensures rung { IfOk result
        (λ end. AreRung (length end.taken.items + 1) bells.old bells.new) }
    ensures broke { OnErr result ((n : ℕ) × AreRung (n + 1) bells.old bells.new) }
{
    let ended = run_frames(rt, alloc, ingress, gate, bells, start);
    // the rings are dropped by now, also where it gave up
    bells.ring_all();
    ended
}
