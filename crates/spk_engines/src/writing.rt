//! The engine that writes.
ghost use Rattle.std.specs.Prelude.{◌≡◌, ◌+◌, ◌<◌, ◌≤◌, List, ℕ, [], ◌∷◌, ◌++◌, length, take, drop, Some, None, OnOk, IfOk, IfErr, OnErr};
ghost use Rattle.std.specs.Io.KnownBytes.{Appends};
ghost use Rattle.spk_rings.specs.Ring.{SameInlet, popped};
ghost use Rattle.spk_engines.specs.Counted.{taken};
ghost use Rattle.spk_engines.specs.Writing.{Writes, rest_of, IsWithin};

use crate::counted::Counted;
use crate::device::Failures;
use crate::fault::EngineFault;
use spk_rings::{Bytes, Inlet, Item};
use std::io::Write;

/// An item that is being written, and how many of its bytes were.
#[derive(Drop)]
struct Underway {
    item: Item,
    count: usize,
}

/// One write of what is left of an item, which is one of so many turns: by it the writer failed no more often than `before`, or Device.
fn write_some<W: Write + Failures>(
    writer: &mut Counted<W>,
    underway: Underway,
    before: u64,
    turns: u64,
) -> Result<Option<Underway>, EngineFault>
    requires within { underway.count ≤ length underway.item.bytes }
    requires left { taken writer.old < turns }
    ensures taken { taken writer.new ≡ taken writer.old + 1 }
    ensures wrote { IfOk result
        (λ u. (bytes : List ℕ) × (bytes ++ rest_of u ≡ rest_of (Some underway))
        × Appends (W.contents writer.old.device) (W.contents writer.new.device) bytes) }
    ensures within { IfOk result (λ u. IsWithin u) }
    ensures err { IfErr result
        (λ e. (e ≡ EngineFault.Device) × (before < W.count writer.new.device)) }
    ensures none { OnErr result
        (Appends (W.contents writer.old.device) (W.contents writer.new.device) []) }
{
    let Underway { item, count } = underway;
    let len = item.bytes.len();
    match writer.write(next_of(&item.bytes, count), turns) {
        Ok(more) => {
            let count = count + more;
            if count == len {
                return Ok(None);
            }
            Ok(Some(Underway { item, count }))
        }
        Err(_) => {
            if writer.device.failures() > before {
                return Err(EngineFault::Device);
            }
            Ok(Some(Underway { item, count }))
        }
    }
}

/// What stands behind the first so many bytes, as far as it lies in one piece: all of it, or a front.
fn next_of(bytes: &Bytes, start: usize) -> &[u8]
    requires { start ≤ length bytes.now }
    ensures front { (rest : List ℕ) × (result.now ++ rest ≡ drop start bytes.now) }
    ensures within { start + length result.now ≤ length bytes.now }
{
    let (head, body) = bytes.behind(start);
    if head.is_empty() {
        return body;
    }
    head
}

/// Writes what comes out of a ring, item by item, until the ring's other end is gone and the ring is empty. A turn is one
/// write or one look into the ring. An error by which the writer counts no failure is passed over. It takes no memory.
/// Ended early, by TurnsSpent (94) or Device (96), it has written a front of the bytes of the items that it took. TurnsSpent
/// comes only once so many turns were taken, and no more are taken in any case.
pub fn write_items<W: Write + Failures>(
    writer: &mut Counted<W>,
    inlet: &mut Inlet,
    turns: u64,
) -> Result<(), EngineFault>
    ensures inlet { SameInlet inlet.old inlet.new }
    ensures whole { OnOk result
        (Writes (W.contents writer.old.device) (W.contents writer.new.device) (popped inlet.old)
        (popped inlet.new) []) }
    ensures part { OnErr result ((rest : List ℕ)
        × Writes (W.contents writer.old.device) (W.contents writer.new.device) (popped inlet.old)
        (popped inlet.new) rest) }
    ensures device { IfErr result
        (λ e. e ≡ EngineFault.Device → W.count writer.old.device < W.count writer.new.device) }
    ensures turns { length (popped inlet.new) ≤ length (popped inlet.old) + taken writer.new }
    ensures most { taken writer.new ≤ turns }
    ensures spent { IfErr result (λ e. e ≡ EngineFault.TurnsSpent → taken writer.new ≡ turns) }
{
    writer.begin();
    let before = writer.device.failures();
    let mut current: Option<Underway> = None;
    for _turn in 0..turns {
        match current {
            Some(underway) => match write_some(writer, underway, before, turns) {
                Ok(next) => current = next,
                Err(fault) => return Err(fault),
            },
            None => {
                let gone = inlet.gone();
                match writer.look(inlet, turns) {
                    Some(item) => current = Some(Underway { item, count: 0 }),
                    None => {
                        current = None;
                        if gone {
                            return Ok(());
                        }
                    }
                }
            }
        }
    }
    Err(EngineFault::TurnsSpent)
}
