//! The engine that reads.
ghost use Rattle.std.specs.Prelude.{◌≡◌, List, ℕ, ◌+◌, ◌*◌, ◌≢◌, ◌<◌, ◌≤◌, [], ◌∷◌, ◌++◌, length, take, drop, vec_len, Some, OnOk, IfOk, IfErr, OnErr};
ghost use Rattle.std.specs.Io.KnownBytes.{Consumes, IsAtEnd};
ghost use Rattle.spk_packets.specs.Fault.{first_of};
ghost use Rattle.spk_packets.specs.Refusals.{refusals};
ghost use Rattle.spk_ingress.specs.Frame.{IsOnePacket};
ghost use Rattle.spk_ingress.specs.Passes.{PutsInto, frames_put};
ghost use Rattle.spk_engines.specs.Counted.{taken};
ghost use Rattle.spk_engines.specs.Reading.{Cuts, Reads, WantsMore, Ends, IsWhole, IsPart, IsFront, Stops, IsPiece, ReadsUpTo, TakesIn};

use crate::counted::Counted;
use crate::device::Failures;
use crate::fault::EngineFault;
use spk_ingress::{Frame, Ingress, PutPass, Whole};
use spk_packets::PacketFault;
use std::alloc::Global;
use std::io::Read;
use std::sync::Wait;

/// How many bytes are asked for at once.
const PIECE: usize = 65_536;

/// What stands at the front of what waits.
enum Front {
    /// A packet of so many bytes, which was put.
    Put(usize),
    /// No whole packet so far.
    More,
    /// No packet, whatever comes behind it.
    Refused(PacketFault),
}

/// Puts the packet at the front, if there is one.
fn put_front<R: Wait>(
    rt: &R,
    alloc: Global,
    ingress: &Ingress,
    pass: &mut PutPass,
    bytes: &[u8],
) -> Result<Front, EngineFault>
    requires { PutsInto ingress.now pass.old }
    ensures pass { PutsInto ingress.now pass.new × (pass.new.sender ≡ pass.old.sender) }
    ensures front { IfOk result
        (λ f. IsFront f bytes.now (frames_put pass.old) (frames_put pass.new)) }
    ensures err { OnErr result (frames_put pass.new ≡ frames_put pass.old) }
    ensures fault { IfErr result (λ e. e ≢ EngineFault.Device) }
    ensures early { IfErr result (λ e. e ≢ EngineFault.TurnsSpent) }
{
    let whole = match Whole::front(alloc, bytes) {
        Ok(whole) => whole,
        Err(PacketFault::NoMemory) => return Err(EngineFault::NoMemory),
        Err(PacketFault::More) => return Ok(Front::More),
        Err(fault) => return Ok(Front::Refused(fault)),
    };
    let count = whole.len();
    let Ok(()) = ingress.put(rt, pass, Frame::Packet(whole)) else {
        return Err(EngineFault::Closed);
    };
    Ok(Front::Put(count))
}

/// The first so many bytes.
fn front_of(bytes: &[u8], count: usize) -> &[u8]
    requires { count ≤ length bytes.now }
    ensures { result.now ≡ take count bytes.now }
{
    &bytes[..count]
}

/// What stands behind the first so many bytes.
fn behind(bytes: &[u8], start: usize) -> &[u8]
    requires { start ≤ length bytes.now }
    ensures { result.now ≡ drop start bytes.now }
{
    &bytes[start..]
}

#[tactic(auto, using(crate::proofs::Streams::cuts_none))]
/// Puts the packets at the front, one behind the other. Answers how many bytes they take, and why what stands behind
/// them is refused, if it is.
fn put_packets<R: Wait>(
    rt: &R,
    alloc: Global,
    ingress: &Ingress,
    pass: &mut PutPass,
    bytes: &[u8],
) -> Result<(usize, Option<PacketFault>), EngineFault>
    requires { PutsInto ingress.now pass.old }
    ensures pass { PutsInto ingress.now pass.new × (pass.new.sender ≡ pass.old.sender) }
    ensures within { IfOk result (λ r. r.0 ≤ length bytes.now) }
    ensures cut { IfOk result
        (λ r. Cuts bytes.now (drop r.0 bytes.now) (frames_put pass.old) (frames_put pass.new)) }
    ensures stops { IfOk result (λ r. Stops r.1 (drop r.0 bytes.now)) }
    ensures part { OnErr result
        ((rest : List ℕ) × Cuts bytes.now rest (frames_put pass.old) (frames_put pass.new)) }
    ensures fault { IfErr result (λ e. e ≢ EngineFault.Device) }
    ensures early { IfErr result (λ e. e ≢ EngineFault.TurnsSpent) }
{
    let mut start = 0;
    loop {
        match put_front(rt, alloc, ingress, pass, behind(bytes, start)) {
            Ok(Front::Put(count)) => start += count,
            Ok(Front::More) => return Ok((start, None)),
            Ok(Front::Refused(fault)) => return Ok((start, Some(fault))),
            Err(fault) => return Err(fault),
        }
    }
}

/// Room for a piece.
fn buffer(alloc: Global, size: usize) -> Result<Vec<u8>, EngineFault>
    ensures len { IfOk result (λ v. length v.items ≡ size) }
    ensures fault { IfErr result (λ e. e ≡ EngineFault.NoMemory) }
{
    let Ok(piece) = vec![in alloc; 0u8; size] else {
        return Err(EngineFault::NoMemory);
    };
    Ok(piece)
}

/// One read, which is one of so many turns: by it the reader failed no more often than `before`, or Device.
#[tactic(auto, using(crate::proofs::Streams::keeps_consumes))]
fn read_piece<S: Read + Failures>(
    reader: &mut Counted<S>,
    piece: &mut Vec<u8>,
    before: u64,
    turns: u64,
) -> Result<Option<usize>, EngineFault>
    requires room { 0 < length piece.old.items }
    requires left { taken reader.old < turns }
    ensures taken { taken reader.new ≡ taken reader.old + 1 }
    ensures len { length piece.new.items ≡ length piece.old.items }
    ensures piece { IfOk result
        (λ n. IsPiece (S.remaining reader.old.device) (S.remaining reader.new.device)
        piece.new.items n) }
    ensures device { IfErr result
        (λ e. (e ≡ EngineFault.Device) × (before < S.count reader.new.device)) }
    ensures err { OnErr result
        (Consumes (S.remaining reader.old.device) (S.remaining reader.new.device) []) }
{
    match reader.read(piece.as_mut_slice(), turns) {
        Ok(count) => Ok(Some(count)),
        Err(_) => {
            if reader.device.failures() > before {
                return Err(EngineFault::Device);
            }
            Ok(None)
        }
    }
}

/// Takes in a piece behind what waits, puts the packets that are whole by now, and keeps the rest.
fn take_in<R: Wait>(
    rt: &R,
    alloc: Global,
    ingress: &Ingress,
    pass: &mut PutPass,
    waiting: &mut Vec<u8>,
    piece: &[u8],
) -> Result<Option<PacketFault>, EngineFault>
    requires { PutsInto ingress.now pass.old }
    ensures pass { PutsInto ingress.now pass.new × (pass.new.sender ≡ pass.old.sender) }
    ensures ok { IfOk result
        (λ f. TakesIn f (waiting.old.items ++ piece.now) waiting.new.items (frames_put pass.old)
        (frames_put pass.new)) }
    ensures part { OnErr result
        ((rest : List ℕ)
        × Cuts (waiting.old.items ++ piece.now) rest (frames_put pass.old) (frames_put pass.new)) }
    ensures fault { IfErr result (λ e. e ≢ EngineFault.Device) }
    ensures early { IfErr result (λ e. e ≢ EngineFault.TurnsSpent) }
{
    let Ok(()) = waiting.extend_from_slice(piece) else {
        return Err(EngineFault::NoMemory);
    };
    let len = waiting.len();
    let (count, stop) = match put_packets(rt, alloc, ingress, pass, waiting.as_slice()) {
        Ok(put) => put,
        Err(fault) => return Err(fault),
    };
    waiting.copy_within(count..len, 0);
    waiting.truncate(len - count);
    Ok(stop)
}

/// Reads to the end of a stream, and puts its packets in order, each as one frame; then Cut, or Fault where what follows
/// is no packet (MQTT 3.1.1, chapter 2), and nothing is read any more. A turn is one read, of 65,536 bytes at the most.
/// An error by which the reader counts no failure is passed over. Ended early, by want of memory, Closed (90), TurnsSpent
/// (94) or Device (96), it has put the packets of a front of what was read, and neither Cut nor Fault. TurnsSpent comes
/// only once so many turns were taken, and no more are taken in any case. The pass must be of this ingress.
pub fn read_frames<R: Wait, S: Read + Failures>(
    rt: &R,
    alloc: Global,
    reader: &mut Counted<S>,
    ingress: &Ingress,
    pass: &mut PutPass,
    turns: u64,
) -> Result<(), EngineFault>
    requires { PutsInto ingress.now pass.old }
    ensures pass { PutsInto ingress.now pass.new × (pass.new.sender ≡ pass.old.sender) }
    ensures whole { OnOk result (IsWhole (S.remaining reader.old.device)
        (S.remaining reader.new.device) (frames_put pass.old) (frames_put pass.new)) }
    ensures part { OnErr result (IsPart (S.remaining reader.old.device)
        (S.remaining reader.new.device) (frames_put pass.old) (frames_put pass.new)) }
    ensures device { IfErr result
        (λ e. e ≡ EngineFault.Device → S.count reader.old.device < S.count reader.new.device) }
    ensures turns { ReadsUpTo (65536 * taken reader.new) (S.remaining reader.old.device)
        (S.remaining reader.new.device) }
    ensures most { taken reader.new ≤ turns }
    ensures spent { IfErr result (λ e. e ≡ EngineFault.TurnsSpent → taken reader.new ≡ turns) }
{
    reader.begin();
    let before = reader.device.failures();
    let mut waiting = Vec::new(alloc);
    let mut piece = match buffer(alloc, PIECE) {
        Ok(piece) => piece,
        Err(fault) => return Err(fault),
    };
    for _turn in 0..turns {
        let count = match read_piece(reader, &mut piece, before, turns) {
            Ok(Some(count)) => count,
            Ok(None) => continue,
            Err(fault) => return Err(fault),
        };
        if count == 0 {
            return end(rt, ingress, pass, Frame::Cut);
        }
        match take_in(
            rt,
            alloc,
            ingress,
            pass,
            &mut waiting,
            front_of(piece.as_slice(), count),
        ) {
            Ok(None) => {}
            Ok(Some(fault)) => return end(rt, ingress, pass, Frame::Fault(fault)),
            Err(fault) => return Err(fault),
        }
    }
    Err(EngineFault::TurnsSpent)
}

/// Puts the last frame.
fn end<R: Wait>(
    rt: &R,
    ingress: &Ingress,
    pass: &mut PutPass,
    frame: Frame,
) -> Result<(), EngineFault>
    requires { PutsInto ingress.now pass.old }
    ensures pass { PutsInto ingress.now pass.new × (pass.new.sender ≡ pass.old.sender) }
    ensures ok { OnOk result (frames_put pass.new ≡ frames_put pass.old ++ frame ∷ []) }
    ensures closed { IfErr result
        (λ e. (e ≡ EngineFault.Closed) × (frames_put pass.new ≡ frames_put pass.old)) }
{
    let Ok(()) = ingress.put(rt, pass, frame) else {
        return Err(EngineFault::Closed);
    };
    Ok(())
}
