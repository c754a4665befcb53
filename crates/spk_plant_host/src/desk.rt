//! The host at work.
ghost use Rattle.std.specs.Prelude.{◌≡◌, ◌∷◌, [], ◌++◌, ℕ, List, map, IfOk, IfSome, OnOk};
ghost use Rattle.spk_ingress.specs.Passes.{PutsInto, frames_put};
ghost use Rattle.spk_reading.specs.Meaning.{Says};
ghost use Rattle.spk_reading.specs.View.{heard_view, numbered_view};
ghost use Rattle.spk_host.specs.Inputs as calls;
ghost use Rattle.spk_host.specs.View.{AreWhole};
ghost use Rattle.spk_plant_host.specs.Steps.{SamePass, Took, handed};

use crate::asking;
use crate::fault::HostCause;
use crate::line::Line;
use crate::watch::Watch;
use spk_host::{Host, Out, Taken};
use spk_ingress::{Frame, Ingress};
use spk_plan::Gate;
use spk_reading::Heard;
use std::alloc::Global;
use std::sync::Wait;

/// The host, where it puts, and whom it tells.
#[derive(Drop)]
pub(crate) struct Desk {
    pub(crate) alloc: Global,
    pub(crate) host: Host,
    pub(crate) line: Line,
    pub(crate) watch: Watch,
}

/// What a call handed out: its packets are put, the gate is told of what it consumed, which is answered.
fn hand_out<R: Wait, G: Gate>(
    rt: &R,
    alloc: Global,
    ingress: &Ingress,
    gate: &G,
    line: &mut Line,
    watch: &mut Watch,
    out: Option<Out>,
) -> Result<Vec<Taken>, HostCause>
    requires pass { PutsInto ingress.now line.old.pass }
    requires whole { IfSome out (λ o. AreWhole o) }
    ensures pass { SamePass ingress.now line.old.pass line.new.pass }
    ensures consumed { IfOk result (λ v. map numbered_view v.items ≡ (handed out).consumed) }
    ensures ok { OnOk result (frames_put line.new.pass
        ≡ frames_put line.old.pass ++ map Frame.Packet (handed out).packets) }
{
    let Some(out) = out else {
        return Ok(Vec::new(alloc));
    };
    let Out {
        consumed,
        packets,
        ..
    } = out;
    match line.put_all(rt, alloc, ingress, gate, packets) {
        Ok(()) => {}
        Err(fault) => return Err(fault),
    }
    watch.tell_all(gate, &consumed);
    Ok(consumed)
}

impl Desk {
    /// A session is to begin.
    pub(crate) fn begin<R: Wait, G: Gate>(
        &mut self,
        rt: &R,
        ingress: &Ingress,
        gate: &G,
        now: u64,
    ) -> Result<Vec<Taken>, HostCause>
        requires { PutsInto ingress.now self.old.line.pass }
        ensures pass { SamePass ingress.now self.old.line.pass self.new.line.pass }
        ensures took { IfOk result (λ v. Took (calls.Connected now) self.old.host self.new.host
            (frames_put self.old.line.pass) (frames_put self.new.line.pass)
            (map numbered_view v.items)) }
    {
        let out = match asking::begin(&mut self.host, now) {
            Ok(out) => out,
            Err(fault) => return Err(fault),
        };
        hand_out(
            rt,
            self.alloc,
            ingress,
            gate,
            &mut self.line,
            &mut self.watch,
            out,
        )
    }

    /// A packet came that says this.
    pub(crate) fn hear<R: Wait, G: Gate>(
        &mut self,
        rt: &R,
        ingress: &Ingress,
        gate: &G,
        heard: Heard,
        now: u64,
    ) -> Result<Vec<Taken>, HostCause>
        requires into { PutsInto ingress.now self.old.line.pass }
        requires said { (bytes : List ℕ) × Says bytes (heard_view heard) }
        ensures pass { SamePass ingress.now self.old.line.pass self.new.line.pass }
        ensures took { IfOk result
            (λ v. Took (calls.Heard (heard_view heard) now) self.old.host self.new.host
            (frames_put self.old.line.pass) (frames_put self.new.line.pass)
            (map numbered_view v.items)) }
    {
        let out = match asking::hear(&mut self.host, heard, now) {
            Ok(out) => out,
            Err(fault) => return Err(fault),
        };
        hand_out(
            rt,
            self.alloc,
            ingress,
            gate,
            &mut self.line,
            &mut self.watch,
            out,
        )
    }

    /// A moment passed.
    pub(crate) fn tick<R: Wait, G: Gate>(
        &mut self,
        rt: &R,
        ingress: &Ingress,
        gate: &G,
        now: u64,
    ) -> Result<Vec<Taken>, HostCause>
        requires { PutsInto ingress.now self.old.line.pass }
        ensures pass { SamePass ingress.now self.old.line.pass self.new.line.pass }
        ensures took { IfOk result (λ v. Took (calls.Ticked now) self.old.host self.new.host
            (frames_put self.old.line.pass) (frames_put self.new.line.pass)
            (map numbered_view v.items)) }
    {
        let out = match asking::tick(&mut self.host, now) {
            Ok(out) => out,
            Err(fault) => return Err(fault),
        };
        hand_out(
            rt,
            self.alloc,
            ingress,
            gate,
            &mut self.line,
            &mut self.watch,
            out,
        )
    }
}
