//! A host's thread on one thread: its ring is filled by hand and ended before. The bytes are by hand from MQTT 3.1.1 (chapter 3) and
//! Sparkplug's schema. Out of memory is a right answer wherever memory is asked for: all is made again then.
ghost use Rattle.std.specs.Prelude.{◌≡◌, IfSome};
ghost use Rattle.spk_ingress.specs.Passes.{AllPutInto, PutsInto, TakesFrom};
ghost use Rattle.spk_host.specs.Inputs.{new_host};

use spk_host::{Host, HostConfig};
use spk_ingress::{Frame, Ingress, PutPass, TakePass};
use spk_plan::{Gate, PlantFault};
use spk_plant_host::{HostEnd, HostFailed, HostStart, run_host};
use spk_rings::{Bytes, Inlet, Item, ring};
use spk_sequence::Width;
use std::alloc::{AllocGlobal, Global};
use std::sync::Wait;
use std::sync::atomic::{AtomicU64, Ordering};
use std::test::Fail;
use std::thread::Parker;

/// Counts what it is told.
#[derive(Drop)]
struct Counts {
    puts: AtomicU64,
    consumed: AtomicU64,
}

impl Gate for Counts {
    fn before_put(&self, _sender: usize, _number: u64) {
        let _before = self.puts.fetch_add(1, Ordering::SeqCst);
    }

    fn after_offer(&self, _client: usize, _passed: bool) {}

    fn after_consume(&self, _node: usize, _number: u64) {
        let _before = self.consumed.fetch_add(1, Ordering::SeqCst);
    }
}

/// A host that waits one millisecond.
#[tactic(auto, using(crate::proofs::Made::new_is_new))]
fn host_of(alloc: Global) -> Option<Host>
    ensures { IfSome result (λ h. h ≡ new_host h.session.config) }
{
    let config = HostConfig {
        name: String::from_str(alloc, "H").ok()?,
        group: String::from_str(alloc, "G").ok()?,
        wait: 1,
        keep: 0,
        width: Width::new(64)?,
    };
    Host::new(alloc, config).ok()
}

/// A ring of these items, whose other end is gone.
fn ring_of(alloc: Global, items: &[&[u8]]) -> Option<Inlet> {
    let (mut outlet, inlet) = ring(alloc, 16).ok()?;
    for bytes in items {
        let copy = Vec::from_slice(alloc, *bytes).ok()?;
        let item = Item {
            bytes: Bytes::new(copy),
            cuts: 0,
        };
        outlet.offer(item).ok()?;
    }
    Some(inlet)
}

/// The last pass.
#[tactic(auto, using(crate::proofs::Made::last_puts_into))]
fn last_of(ingress: &Ingress, mut passes: Vec<PutPass>) -> Option<PutPass>
    requires { AllPutInto ingress.now passes.items }
    ensures { IfSome result (λ p. PutsInto ingress.now p) }
{
    passes.pop()
}

/// An ingress of one sender, its pass and the taker's.
fn opened<R: AllocGlobal + Wait>(rt: &R) -> Option<(Ingress, PutPass, TakePass)>
    ensures { IfSome result (λ r. PutsInto r.0 r.1 × TakesFrom r.0 r.2) }
{
    let (ingress, passes, taker) = Ingress::open(rt, rt.alloc(), 16, 1).ok()?;
    let pass = last_of(&ingress, passes)?;
    Some((ingress, pass, taker))
}

/// The bytes of the packets that were put, up to End, which is last.
fn taken_of<R: AllocGlobal + Wait>(
    rt: &R,
    ingress: &Ingress,
    taker: &mut TakePass,
) -> Option<Vec<Vec<u8>>>
    requires { TakesFrom ingress.now taker.old }
{
    let mut packets = Vec::new(rt.alloc());
    for _ in 0..16 {
        match ingress.take_now(rt, taker)?.frame {
            Frame::Packet(whole) => packets.push(whole.into_vec()).ok()?,
            Frame::End if ingress.take_now(rt, taker).is_none() => return Some(packets),
            _ => return None,
        }
    }
    None
}

/// A host's run over these items, and the packets that it put; None for want of memory.
fn played<R: AllocGlobal + Wait>(
    rt: &R,
    gate: &Counts,
    items: &[&[u8]],
) -> Option<(HostEnd, Vec<Vec<u8>>)> {
    let alloc = rt.alloc();
    let (ingress, pass, mut taker) = opened(rt)?;
    let mut nodes = Vec::new(alloc);
    nodes.push(String::from_str(alloc, "N").ok()?).ok()?;
    let start = HostStart {
        host: host_of(alloc)?,
        nodes,
        pass,
        inlet: ring_of(alloc, items)?,
    };
    let end = run_host(rt, alloc, &ingress, gate, &Parker::new(), start).ok()?;
    let packets = taken_of(rt, &ingress, &mut taker)?;
    Some((end, packets))
}

/// How a host's run ends whose frames nobody takes; None for want of memory.
fn played_to_nobody<R: AllocGlobal + Wait>(rt: &R, gate: &Counts) -> Option<HostFailed> {
    let alloc = rt.alloc();
    let (ingress, pass, taker) = opened(rt)?;
    drop(taker);
    let start = HostStart {
        host: host_of(alloc)?,
        nodes: Vec::new(alloc),
        pass,
        inlet: ring_of(alloc, &[])?,
    };
    let failed = run_host(rt, alloc, &ingress, gate, &Parker::new(), start).err()?;
    if failed.fault() == PlantFault::NoMemory {
        return None;
    }
    Some(failed)
}

fn new_gate() -> Counts {
    Counts {
        puts: AtomicU64::new(0),
        consumed: AtomicU64::new(0),
    }
}

/// Items, and of each whether the host reads it and how many messages it consumes.
const ITEMS: [(&[u8], bool, usize); 8] = [
    (b"\x20\x02\x00\x00", true, 0),
    (b"\x90\x03\x00\x01\x01", true, 0),
    (b"0\x09\x00\x03a/b\x08\x07\x18\x01", false, 0),
    (
        b"0%\x00\x12spBv1.0/G/NBIRTH/N\x08d\x12\x0b\x0a\x05bdSeq \x08X\x00\x18\x00",
        true,
        1,
    ),
    (b"0\x17\x00\x11spBv1.0/G/NDATA/N\x08\x64\x18\x02", true, 0),
    (b"0\x17\x00\x11spBv1.0/G/NDATA/N\x08\x64\x18\x01", true, 2),
    // one is missing, and a moment later that is a gap
    (b"0\x17\x00\x11spBv1.0/G/NDATA/N\x08\x64\x18\x04", true, 0),
    (b"\xd0\x00", true, 0),
];

/// What answers them, behind CONNECT: SUBSCRIBE, STATE online, and a request for a rebirth at moment 8.
const ANSWERS: [&[u8]; 3] = [
    b"\x82\x10\x00\x01\x00\x0bspBv1.0/G/#\x01",
    b"30\x00\x0fspBv1.0/STATE/H\x00\x02{\x22online\x22:true,\x22timestamp\x22:0}",
    b"02\x00\x10spBv1.0/G/NCMD/N\x08\x08\x12\x1c\x0a\x14Node Control/Rebirth\x18\x08 \x0bp\x01",
];

#[test]
fn items_are_told_and_answers_put(rt: HostRuntime) -> Result<(), Fail> {
    let items = ITEMS.map(|(bytes, _, _)| bytes);
    let mut gate = new_gate();
    let (end, packets) = match played(&rt, &gate, items.as_slice()) {
        Some(played) => played,
        None => {
            gate = new_gate();
            played(&rt, &gate, items.as_slice()).ok_or("no run")?
        }
    };
    assert_eq!(rt; end.given.len(), 8);
    for ((_, is_read, consumed), given) in ITEMS.iter().zip(end.given.iter()) {
        assert_eq!(rt; given.heard.is_some(), *is_read);
        assert_eq!(rt; given.consumed.len(), *consumed);
    }
    assert_eq!(rt; packets.len(), 4);
    assert_eq!(rt; packets.get(0).and_then(|p| p.get(0)), Some(&0x10));
    for (packet, answer) in packets.iter().skip(1).zip(ANSWERS.iter()) {
        assert_eq!(rt; packet.as_slice(), *answer);
    }
    assert_eq!(rt; gate.puts.load(Ordering::SeqCst), 5);
    assert_eq!(rt; gate.consumed.load(Ordering::SeqCst), 3);
    Ok(())
}

#[test]
fn a_host_that_is_turned_away_asks_for_nothing(rt: HostRuntime) -> Result<(), Fail> {
    // CONNACK with code 5, and data of a node without a birth
    let items: [&[u8]; 2] = [
        b"\x20\x02\x00\x05",
        b"0\x17\x00\x11spBv1.0/G/NDATA/N\x08\x64\x18\x04",
    ];
    let gate = new_gate();
    let (end, packets) = match played(&rt, &gate, items.as_slice()) {
        Some(played) => played,
        None => played(&rt, &gate, items.as_slice()).ok_or("no run")?,
    };
    assert_eq!(rt; end.given.len(), 2);
    assert_eq!(rt; packets.len(), 1);
    Ok(())
}

#[test]
fn a_host_whose_frames_nobody_takes_is_closed(rt: HostRuntime) -> Result<(), Fail> {
    let gate = new_gate();
    let failed = match played_to_nobody(&rt, &gate) {
        Some(failed) => failed,
        None => played_to_nobody(&rt, &gate).ok_or("no run")?,
    };
    assert_eq!(rt; failed.fault(), PlantFault::Closed);
    assert_eq!(rt; failed.cause.number(), 90);
    Ok(())
}
