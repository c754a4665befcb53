//! What an edge node's thread puts.
ghost use Rattle.std.specs.Prelude.{◌≡◌, ◌+◌, ◌-◌, ◌^◌, [], ◌∷◌, ◌++◌, map, min, false, is_some, OnOk, OnErr, IfOk};
ghost use Rattle.spk_edge.specs.Sealing.{bytes_of};
ghost use Rattle.spk_ingress.specs.Passes.{PutsInto, frames_put};
ghost use Rattle.spk_plant_edge.specs.At.{HasPut, PutsOn};
ghost use Rattle.spk_plant_edge.specs.Done as done;
ghost use Rattle.spk_plant_edge.specs.Frames.{cut_if, is_end};

use crate::fault::EdgeCause;
use spk_ingress::{Frame, Gone, Ingress, PutPass};
use spk_plan::Gate;
use std::alloc::{AllocError, Global};
use std::sync::Wait;

/// One sender: its pass, its place among the senders, and how many frames and ends of connections it put.
#[derive(Drop)]
pub(crate) struct Sender {
    pub(crate) pass: PutPass,
    pub(crate) place: usize,
    pub(crate) count: u64,
    pub(crate) cuts: u64,
}

/// These bytes, which are one packet, as a frame.
fn frame_of(alloc: Global, bytes: Vec<u8>) -> Result<Frame, AllocError>
    ensures ok { IfOk result (λ f. f ≡ Frame.Packet bytes.items) }
{
    // What a node answers is one packet each, so that memory alone can be wanting.
    let Ok(frame) = Frame::packet(alloc, bytes) else {
        return Err(AllocError);
    };
    Ok(frame)
}

/// The refusal by which a run ended, where it did since the frames' taker is gone.
fn gone_in(ran: &Result<(), EdgeCause>) -> Option<Gone>
    ensures { is_some result ≡ done.is_closed ran.now }
{
    match ran {
        Err(EdgeCause::Closed(gone)) => Some(*gone),
        _ => None,
    }
}

impl Sender {
    /// Tells the gate, and puts a frame. Refused with Closed (90) alone.
    pub(crate) fn put<R: Wait, G: Gate>(
        &mut self,
        rt: &R,
        gate: &G,
        ingress: &Ingress,
        frame: Frame,
    ) -> Result<(), Gone>
        requires { PutsInto ingress.now self.old.pass }
        ensures pass { PutsInto ingress.now self.new.pass
            × (self.new.pass.sender ≡ self.old.pass.sender) }
        ensures on { is_end frame ≡ false → PutsOn ingress.now self.old.pass self.new.pass }
        ensures ok { OnOk result
            (frames_put self.new.pass ≡ frames_put self.old.pass ++ frame ∷ []) }
        ensures cuts { (self.new.cuts ≡ self.old.cuts) × (self.new.place ≡ self.old.place) }
        ensures counted { OnOk result (self.new.count ≡ min (2 ^ 64 - 1) (self.old.count + 1)) }
        ensures gone { OnErr result (frames_put self.new.pass ≡ frames_put self.old.pass) }
    {
        gate.before_put(self.place, self.count);
        if let Err(closed) = ingress.put(rt, &mut self.pass, frame) {
            return Err(closed.gone());
        }
        self.count = self.count.saturating_add(1);
        Ok(())
    }

    /// Puts the sender's own end, unless the frames' taker is gone by then. Refused with Closed (90) alone, with nothing put.
    pub(crate) fn end<R: Wait, G: Gate>(
        &mut self,
        rt: &R,
        gate: &G,
        ingress: &Ingress,
        ran: &Result<(), EdgeCause>,
    ) -> Result<(), Gone>
        requires { PutsInto ingress.now self.old.pass }
        ensures pass { PutsInto ingress.now self.new.pass
            × (self.new.pass.sender ≡ self.old.pass.sender) }
        ensures ok { OnOk result ((done.is_closed ran.now ≡ false)
            × (frames_put self.new.pass ≡ frames_put self.old.pass ++ Frame.End ∷ [])) }
        ensures gone { OnErr result (frames_put self.new.pass ≡ frames_put self.old.pass) }
    {
        if let Some(gone) = gone_in(ran) {
            return Err(gone);
        }
        self.put(rt, gate, ingress, Frame::End)
    }

    /// Puts the end of a connection. Where a `u64` can't count them further it is NoMemory.
    fn put_cut<R: Wait, G: Gate>(
        &mut self,
        rt: &R,
        gate: &G,
        ingress: &Ingress,
    ) -> Result<(), EdgeCause>
        requires { PutsInto ingress.now self.old.pass }
        ensures pass { PutsOn ingress.now self.old.pass self.new.pass }
        ensures ok { OnOk result (HasPut self.old self.new (Frame.Cut ∷ [])) }
    {
        let Some(cuts) = self.cuts.checked_add(1) else {
            return Err(EdgeCause::NoMemory);
        };
        self.put(rt, gate, ingress, Frame::Cut)?;
        self.cuts = cuts;
        Ok(())
    }

    /// Puts packets, each as one frame, and behind them the end of the connection, if it is over.
    pub(crate) fn put_answer<R: Wait, G: Gate>(
        &mut self,
        rt: &R,
        gate: &G,
        ingress: &Ingress,
        alloc: Global,
        packets: Vec<Vec<u8>>,
        is_over: bool,
    ) -> Result<(), EdgeCause>
        requires { PutsInto ingress.now self.old.pass }
        ensures pass { PutsOn ingress.now self.old.pass self.new.pass }
        ensures ok { OnOk result (HasPut self.old self.new
            (map Frame.Packet (map bytes_of packets.items) ++ cut_if is_over)) }
    {
        self.put_packets(rt, gate, ingress, alloc, packets)?;
        if !is_over {
            return Ok(());
        }
        self.put_cut(rt, gate, ingress)?;
        Ok(())
    }

    /// Puts packets, each as one frame.
    fn put_packets<R: Wait, G: Gate>(
        &mut self,
        rt: &R,
        gate: &G,
        ingress: &Ingress,
        alloc: Global,
        packets: Vec<Vec<u8>>,
    ) -> Result<(), EdgeCause>
        requires { PutsInto ingress.now self.old.pass }
        ensures pass { PutsOn ingress.now self.old.pass self.new.pass }
        ensures ok { OnOk result
            (HasPut self.old self.new (map Frame.Packet (map bytes_of packets.items))) }
    {
        for bytes in packets {
            let frame = frame_of(alloc, bytes)?;
            self.put(rt, gate, ingress, frame)?;
        }
        Ok(())
    }
}
