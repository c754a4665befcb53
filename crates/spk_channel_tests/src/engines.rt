ghost use Rattle.std.specs.Prelude.{◌≡◌, ◌≤◌, ℕ, IfSome};
ghost use Rattle.spk_ingress.specs.Passes.{PutsInto, TakesFrom, AllPutInto};

use spk_bytes::Piece;
use spk_engines::{Counted, EngineFault, Failures, read_frames, write_items};
use spk_ingress::{Frame, Ingress, PutPass, TakePass};
use spk_packets::PacketFault;
use spk_rings::{Bytes, Inlet, Item, Outlet, ring};
use std::alloc::AllocGlobal;
use std::io;
use std::io::{ErrorKind, Read, Write};
use std::process::Abort;
use std::sync::Wait;

/// What a device does at its end.
#[derive(Clone, Copy)]
enum Last {
    Ends,
    Fails,
    Interrupts,
}

/// A reader or writer of so many bytes, so many at a time.
#[derive(Drop)]
struct Device<'a> {
    bytes: &'a [u8],
    step: usize,
    last: Last,
    failures: u64,
}

impl<'a> Failures for Device<'a> {
    ghost count = { λ d. d.failures };

    fn failures(&self) -> u64
        ensures { result ≡ self.now.failures }
    {
        self.failures
    }
}

impl<'a> Read for Device<'a> {
    fn read(&mut self, buf: &mut [u8]) -> io::Result<usize> {
        let count = self.step.min(buf.len()).min(self.bytes.len());
        if count == 0 {
            return match self.last {
                Last::Ends => Ok(0),
                Last::Fails => {
                    self.failures = self.failures.saturating_add(1);
                    Err(ErrorKind::BrokenPipe.into())
                }
                Last::Interrupts => Err(ErrorKind::Interrupted.into()),
            };
        }
        buf[..count].copy_from_slice(&self.bytes[..count]);
        self.bytes = &self.bytes[count..];
        Ok(count)
    }
}

fn reader_of(bytes: &[u8], step: usize, last: Last) -> Counted<Device<'_>> {
    Counted::new(Device {
        bytes,
        step,
        last,
        failures: 0,
    })
}

/// The last pass.
#[tactic(auto, using(crate::proofs::Passes::put_into_front))]
fn last_of(ingress: &Ingress, mut passes: Vec<PutPass>) -> Option<PutPass>
    requires { AllPutInto ingress.now passes.items }
    ensures { IfSome result (λ p. PutsInto ingress.now p) }
{
    passes.pop()
}

/// An ingress of one sender, its pass and the taker's.
fn opened<R: AllocGlobal + Wait>(rt: &R) -> Option<(Ingress, PutPass, TakePass)>
    ensures { IfSome result (λ r. PutsInto r.0 r.1 × TakesFrom r.0 r.2) }
{
    let (ingress, passes, taker) = Ingress::open(rt, rt.alloc(), 64, 1).ok()?;
    let pass = last_of(&ingress, passes)?;
    Some((ingress, pass, taker))
}

/// What comes behind the packets of a stream.
#[derive(Clone, Copy, PartialEq, Eq)]
enum Behind {
    Nothing,
    Cut,
    Fault(PacketFault),
    /// A packet that isn't PINGREQ.
    Another,
}

/// What a frame is, where it isn't a PINGREQ.
fn behind_of(frame: &Frame) -> Option<Behind> {
    match frame {
        Frame::Packet(whole) => {
            if whole.as_slice() == [0xc0, 0x00].as_slice() {
                None
            } else {
                Some(Behind::Another)
            }
        }
        Frame::Fault(fault) => Some(Behind::Fault(*fault)),
        Frame::Cut => Some(Behind::Cut),
        Frame::End => Some(Behind::Nothing),
    }
}

/// Takes a frame: what it is, where it isn't a PINGREQ. An ingress that is closed has another behind them.
fn next_behind<R: Wait>(rt: &R, ingress: &Ingress, taker: &mut TakePass) -> Option<Behind>
    requires { TakesFrom ingress.now taker.old }
    ensures { TakesFrom ingress.now taker.new }
{
    match ingress.take(rt, taker) {
        Ok(taken) => behind_of(&taken.frame),
        Err(_) => Some(Behind::Another),
    }
}

/// How many PINGREQ are taken, and what comes behind them.
fn taken_of<R: Wait>(rt: &R, ingress: &Ingress, mut taker: TakePass) -> (usize, Behind)
    requires { TakesFrom ingress.now taker }
{
    for packets in 0..64usize {
        if let Some(last) = next_behind(rt, ingress, &mut taker) {
            return (packets, last);
        }
    }
    (64, Behind::Another)
}

/// A stream of PINGREQ, how it is read, and what comes of it.
struct Reading {
    shows: &'static str,
    bytes: &'static [u8],
    step: usize,
    last: Last,
    turns: u64,
    packets: usize,
    behind: Behind,
    result: Result<(), EngineFault>,
    /// How many bytes are left, and how many turns were taken.
    left: Option<(usize, u64)>,
}

static READINGS: [Reading; 7] = [
    Reading {
        shows: "a stream is its packets and then a cut, a byte at a time",
        bytes: &[0xc0, 0x00, 0xc0],
        step: 1,
        last: Last::Ends,
        turns: 9,
        packets: 1,
        behind: Behind::Cut,
        result: Ok(()),
        left: None,
    },
    Reading {
        shows: "a stream is its packets and then a cut, two bytes at a time",
        bytes: &[0xc0, 0x00, 0xc0],
        step: 2,
        last: Last::Ends,
        turns: 9,
        packets: 1,
        behind: Behind::Cut,
        result: Ok(()),
        left: None,
    },
    Reading {
        shows: "a stream is its packets and then a cut, at once",
        bytes: &[0xc0, 0x00, 0xc0],
        step: 3,
        last: Last::Ends,
        turns: 9,
        packets: 1,
        behind: Behind::Cut,
        result: Ok(()),
        left: None,
    },
    Reading {
        shows: "what is no packet is a fault",
        bytes: &[0xc0, 0x00, 0x34, 0xc0, 0x00],
        step: 5,
        last: Last::Ends,
        turns: 9,
        packets: 1,
        behind: Behind::Fault(PacketFault::QosTwo),
        result: Ok(()),
        left: None,
    },
    Reading {
        shows: "a reader that fails ends without a cut",
        bytes: &[0xc0],
        step: 1,
        last: Last::Fails,
        turns: 9,
        packets: 0,
        behind: Behind::Nothing,
        result: Err(EngineFault::Device),
        left: None,
    },
    Reading {
        shows: "turns are reads",
        bytes: &[
            0xc0, 0x00, 0xc0, 0x00, 0xc0, 0x00, 0xc0, 0x00, 0xc0, 0x00, 0xc0, 0x00,
        ],
        step: 1,
        last: Last::Ends,
        turns: 10,
        packets: 5,
        behind: Behind::Nothing,
        result: Err(EngineFault::TurnsSpent),
        left: Some((2, 10)),
    },
    Reading {
        shows: "an interrupt spends a turn and goes on",
        bytes: &[0xc0, 0x00],
        step: 2,
        last: Last::Interrupts,
        turns: 3,
        packets: 1,
        behind: Behind::Nothing,
        result: Err(EngineFault::TurnsSpent),
        left: None,
    },
];

/// Whether so many bytes are left, and so many turns were taken.
fn is_left(reader: &Counted<Device<'_>>, left: Option<(usize, u64)>) -> bool {
    match left {
        Some((bytes, turns)) => reader.device.bytes.len() == bytes && reader.taken() == turns,
        None => true,
    }
}

/// Whether a reader answers as the row says.
fn is_through<R: AllocGlobal + Wait>(
    rt: &R,
    ingress: &Ingress,
    pass: &mut PutPass,
    row: &Reading,
) -> bool
    requires { PutsInto ingress.now pass.old }
    ensures { PutsInto ingress.now pass.new }
{
    let mut reader = reader_of(row.bytes, row.step, row.last);
    let result = read_frames(rt, rt.alloc(), &mut reader, ingress, pass, row.turns);
    result == row.result && is_left(&reader, row.left)
}

/// Whether a stream comes through an ingress as the row says.
fn comes_through<R: AllocGlobal + Wait>(
    rt: &R,
    ingress: &Ingress,
    mut pass: PutPass,
    taker: TakePass,
    row: &Reading,
) -> bool
    requires { PutsInto ingress.now pass × TakesFrom ingress.now taker }
{
    is_through(rt, ingress, &mut pass, row)
        && ingress.put(rt, &mut pass, Frame::End).is_ok()
        && taken_of(rt, ingress, taker) == (row.packets, row.behind)
}

fn is_read<R: AllocGlobal + Wait>(rt: &R, row: &Reading) -> bool {
    match opened(rt) {
        Some((ingress, pass, taker)) => comes_through(rt, &ingress, pass, taker, row),
        None => false,
    }
}

#[test]
fn streams_are_read_to_their_ends(rt: HostRuntime) {
    for row in &READINGS {
        assert!(rt; is_read(&rt, row), "{}", row.shows);
    }
}

/// What a reader of one packet answers where the taker is gone.
fn read_alone<R: AllocGlobal + Wait>(
    rt: &R,
    ingress: &Ingress,
    mut pass: PutPass,
) -> Result<(), EngineFault>
    requires { PutsInto ingress.now pass }
{
    let mut reader = reader_of(&[0xc0, 0x00], 2, Last::Ends);
    read_frames(rt, rt.alloc(), &mut reader, ingress, &mut pass, 3)
}

#[test]
fn a_reader_without_a_taker_is_closed(rt: HostRuntime) {
    let (ingress, pass, taker) = opened(&rt).expect(&rt, "an ingress");
    drop(taker);
    let result = read_alone(&rt, &ingress, pass);
    assert!(rt; result == Err(EngineFault::Closed));
}

static NUMBERS: [(EngineFault, u32); 3] = [
    (EngineFault::Closed, 90),
    (EngineFault::TurnsSpent, 94),
    (EngineFault::Device, 96),
];

#[test]
fn faults_have_their_numbers(rt: HostRuntime) {
    for (fault, number) in &NUMBERS {
        assert_eq!(rt; fault.number(), *number);
    }
}

/// A writer into an array that takes so many bytes at a time, and fails from so many calls on.
#[derive(Drop)]
struct Sink {
    got: [u8; 8],
    count: usize,
    step: usize,
    calls: u64,
    failures: u64,
    ghost within: { count ≤ 8 },
}

impl Failures for Sink {
    ghost count = { λ s. s.failures };

    fn failures(&self) -> u64
        ensures { result ≡ self.now.failures }
    {
        self.failures
    }
}

impl Write for Sink {
    fn write(&mut self, buf: &[u8]) -> io::Result<usize> {
        if self.calls == 0 {
            self.failures = self.failures.saturating_add(1);
            return Err(ErrorKind::BrokenPipe.into());
        }
        self.calls -= 1;
        if self.calls % 2 == 1 {
            return Err(ErrorKind::Interrupted.into());
        }
        let count = self.step.min(buf.len()).min(8 - self.count);
        let end = self.count + count;
        self.got[self.count..end].copy_from_slice(&buf[..count]);
        self.count = end;
        Ok(count)
    }

    fn flush(&mut self) -> io::Result<()> {
        Ok(())
    }
}

fn item(rt: &(impl Abort + AllocGlobal), bytes: &[u8]) -> Item {
    let copy = Vec::from_slice(rt.alloc(), bytes).expect(rt, "memory");
    Item {
        bytes: Bytes::new(copy),
        cuts: 0,
    }
}

/// An item whose bytes lie in two pieces.
fn headed(rt: &(impl Abort + AllocGlobal), head: &[u8], body: &[u8]) -> Item {
    let head = Vec::from_slice(rt.alloc(), head).expect(rt, "memory");
    let body = Vec::from_slice(rt.alloc(), body).expect(rt, "memory");
    Item {
        bytes: Bytes::headed(rt.alloc(), head, Piece::new(body)).expect(rt, "memory"),
        cuts: 0,
    }
}

/// A ring with two items, of two bytes and of three, which lie in two pieces.
fn two_items(rt: &(impl Abort + AllocGlobal)) -> (Outlet, Inlet) {
    let (mut outlet, inlet) = ring(rt.alloc(), 4).expect(rt, "a ring");
    assert!(rt; outlet.offer(item(rt, &[1, 2])).is_ok());
    assert!(rt; outlet.offer(headed(rt, &[3], &[4, 5])).is_ok());
    (outlet, inlet)
}

fn sink_of(step: usize, calls: u64) -> Counted<Sink> {
    Counted::new(Sink {
        got: [0; 8],
        count: 0,
        step,
        calls,
        failures: 0,
    })
}

/// How a ring of two items, of five bytes together, is written, and what comes of it.
struct Writing {
    shows: &'static str,
    step: usize,
    calls: u64,
    /// Whether the ring's offers go on.
    open: bool,
    turns: u64,
    result: Result<(), EngineFault>,
    written: &'static [u8],
    taken: Option<u64>,
}

static WRITINGS: [Writing; 5] = [
    Writing {
        shows: "items are written in order, a byte at a time",
        step: 1,
        calls: 64,
        open: false,
        turns: 64,
        result: Ok(()),
        written: &[1, 2, 3, 4, 5],
        taken: None,
    },
    Writing {
        shows: "items are written in order, two bytes at a time",
        step: 2,
        calls: 64,
        open: false,
        turns: 64,
        result: Ok(()),
        written: &[1, 2, 3, 4, 5],
        taken: None,
    },
    Writing {
        shows: "items are written in order, at once",
        step: 8,
        calls: 64,
        open: false,
        turns: 64,
        result: Ok(()),
        written: &[1, 2, 3, 4, 5],
        taken: None,
    },
    Writing {
        shows: "a writer that fails has written a front",
        step: 2,
        calls: 2,
        open: true,
        turns: 64,
        result: Err(EngineFault::Device),
        written: &[1, 2],
        taken: None,
    },
    Writing {
        shows: "an open ring spends the turns",
        step: 8,
        calls: 64,
        open: true,
        turns: 16,
        result: Err(EngineFault::TurnsSpent),
        written: &[1, 2, 3, 4, 5],
        taken: Some(16),
    },
];

/// Whether these bytes were written and no others.
fn is_got(sink: &Sink, written: &[u8]) -> bool {
    &sink.got[..sink.count] == written
}

/// Whether a ring is written as the row says.
fn is_written(inlet: &mut Inlet, row: &Writing) -> bool {
    let mut writer = sink_of(row.step, row.calls);
    write_items(&mut writer, inlet, row.turns) == row.result
        && is_got(&writer.device, row.written)
        && row.taken.is_none_or(|taken| writer.taken() == taken)
}

/// The same, with a ring whose offers go on.
fn is_written_beside(outlet: Outlet, mut inlet: Inlet, row: &Writing) -> bool {
    let is_so = is_written(&mut inlet, row);
    drop(outlet);
    is_so
}

/// The same, with a ring whose offers have ended.
fn is_written_to_its_end(outlet: Outlet, mut inlet: Inlet, row: &Writing) -> bool {
    drop(outlet);
    is_written(&mut inlet, row)
}

fn is_written_so(rt: &(impl Abort + AllocGlobal), row: &Writing) -> bool {
    let (outlet, inlet) = two_items(rt);
    if row.open {
        is_written_beside(outlet, inlet, row)
    } else {
        is_written_to_its_end(outlet, inlet, row)
    }
}

#[test]
fn items_are_written_as_their_ring_goes_on(rt: HostRuntime) {
    for row in &WRITINGS {
        assert!(rt; is_written_so(&rt, row), "{}", row.shows);
    }
}
