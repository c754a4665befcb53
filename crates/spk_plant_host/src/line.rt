//! What the host's thread puts.
ghost use Rattle.std.specs.Prelude.{◌≡◌, ◌+◌, ◌-◌, ◌^◌, ◌∷◌, [], ◌++◌, All, map, min, false, OnErr, OnOk, is_some};
ghost use Rattle.spk_ingress.specs.Frame.{IsOnePacket};
ghost use Rattle.spk_ingress.specs.Passes.{PutsInto, frames_put};
ghost use Rattle.spk_plant_host.specs.Ends.{is_closed, is_end};
ghost use Rattle.spk_plant_host.specs.Steps.{SamePass};

use crate::ends::Given;
use crate::fault::HostCause;
use spk_ingress::{Frame, FrameFault, Gone, Ingress, PutPass, Refused};
use spk_packets::PacketFault;
use spk_plan::Gate;
use std::alloc::Global;
use std::sync::Wait;

/// The host's way to the broker.
#[derive(Drop)]
pub(crate) struct Line {
    pub(crate) pass: PutPass,
    /// The host's place among the senders, and how many frames it put: for the gate alone.
    sender: usize,
    puts: u64,
}

/// The refusal by which a session ended, where it did since the taker is gone.
fn gone_in(ran: &Result<Vec<Given>, HostCause>) -> Option<Gone>
    ensures { is_some result ≡ is_closed ran.now }
{
    match ran {
        Err(HostCause::Closed(gone)) => Some(*gone),
        _ => None,
    }
}

impl Line {
    pub(crate) fn new(pass: PutPass, sender: usize) -> Line
        ensures { (result.pass ≡ pass) × (result.sender ≡ sender) × (result.puts ≡ 0) }
    {
        Line {
            pass,
            sender,
            puts: 0,
        }
    }

    /// Puts a frame, and waits while there is no room.
    pub(crate) fn put<R: Wait, G: Gate>(
        &mut self,
        rt: &R,
        ingress: &Ingress,
        gate: &G,
        frame: Frame,
    ) -> Result<(), Gone>
        requires { PutsInto ingress.now self.old.pass }
        ensures pass { PutsInto ingress.now self.new.pass
            × (self.new.pass.sender ≡ self.old.pass.sender) }
        ensures same { is_end frame ≡ false → SamePass ingress.now self.old.pass self.new.pass }
        ensures ok { OnOk result
            (frames_put self.new.pass ≡ frames_put self.old.pass ++ frame ∷ []) }
        ensures counted { OnOk result (self.new.puts ≡ min (2 ^ 64 - 1) (self.old.puts + 1)) }
        ensures place { self.new.sender ≡ self.old.sender }
        ensures gone { OnErr result (frames_put self.new.pass ≡ frames_put self.old.pass) }
    {
        gate.before_put(self.sender, self.puts);
        if let Err(closed) = ingress.put(rt, &mut self.pass, frame) {
            return Err(closed.gone());
        }
        self.puts = self.puts.saturating_add(1);
        Ok(())
    }

    /// Puts the host's own end, unless the taker is gone by then. Refused only so, with nothing put.
    pub(crate) fn end<R: Wait, G: Gate>(
        &mut self,
        rt: &R,
        ingress: &Ingress,
        gate: &G,
        ran: &Result<Vec<Given>, HostCause>,
    ) -> Result<(), Gone>
        requires { PutsInto ingress.now self.old.pass }
        ensures pass { PutsInto ingress.now self.new.pass
            × (self.new.pass.sender ≡ self.old.pass.sender) }
        ensures ok { OnOk result ((is_closed ran.now ≡ false)
            × (frames_put self.new.pass ≡ frames_put self.old.pass ++ Frame.End ∷ [])) }
        ensures gone { OnErr result (frames_put self.new.pass ≡ frames_put self.old.pass) }
    {
        if let Some(gone) = gone_in(ran) {
            return Err(gone);
        }
        self.put(rt, ingress, gate, Frame::End)
    }

    /// Puts a packet. Refused where memory is, or where the taker is gone.
    fn put_packet<R: Wait, G: Gate>(
        &mut self,
        rt: &R,
        alloc: Global,
        ingress: &Ingress,
        gate: &G,
        bytes: Vec<u8>,
    ) -> Result<(), HostCause>
        requires pass { PutsInto ingress.now self.old.pass }
        requires one { IsOnePacket bytes.items }
        ensures pass { SamePass ingress.now self.old.pass self.new.pass }
        ensures ok { OnOk result
            (frames_put self.new.pass ≡ frames_put self.old.pass ++ Frame.Packet bytes.items ∷ []) }
    {
        let frame = match Frame::packet(alloc, bytes) {
            Ok(frame) => frame,
            Err(
                Refused {
                    fault: FrameFault::Packet(PacketFault::NoMemory),
                    ..
                },
            ) => return Err(HostCause::NoMemory),
            Err(_) => unreachable!(),
        };
        match self.put(rt, ingress, gate, frame) {
            Ok(()) => Ok(()),
            Err(gone) => Err(HostCause::Closed(gone)),
        }
    }

    /// Puts packets, in order.
    pub(crate) fn put_all<R: Wait, G: Gate>(
        &mut self,
        rt: &R,
        alloc: Global,
        ingress: &Ingress,
        gate: &G,
        packets: Vec<Vec<u8>>,
    ) -> Result<(), HostCause>
        requires pass { PutsInto ingress.now self.old.pass }
        requires whole { All (λ b. IsOnePacket b.items) packets.items }
        ensures pass { SamePass ingress.now self.old.pass self.new.pass }
        ensures ok { OnOk result (frames_put self.new.pass
            ≡ frames_put self.old.pass ++ map Frame.Packet (map (λ b. b.items) packets.items)) }
    {
        for bytes in packets {
            match self.put_packet(rt, alloc, ingress, gate, bytes) {
                Ok(()) => {}
                Err(fault) => return Err(fault),
            }
        }
        Ok(())
    }
}
