//! The job of an edge node.

use crate::digest::Digest;
use crate::random::Random;
use crate::sums::sum_value;
use crate::texts::numbered;
use spk_device::{Owner, Registry};
use spk_edge::{EdgeConfig, EdgeNode, Numbering, Out, Record};
use spk_payload::Value;
use std::alloc::Global;

/// How many metrics a device has.
const OF_DEVICE: usize = 10;

/// A rebirth command, as a host sends it.
const REBIRTH: &[u8] = b"\x08\x09\x12\x1c\x0a\x14Node Control/Rebirth\x18\x09\x20\x0b\x70\x01";

/// An edge node, as the job asks of it. None where it refuses.
trait Sends {
    fn begin(&mut self, now: u64) -> Option<Out>;

    fn enter(&mut self, now: u64) -> Option<Out>;

    fn set(&mut self, now: u64, alias: u64, value: &Option<Value>) -> Option<Out>;

    fn turn(&mut self, now: u64, name: &str, up: bool) -> Option<Out>;

    fn ask(&mut self, now: u64) -> Option<Out>;

    fn flush(&mut self, now: u64) -> Option<Out>;

    fn lose(&mut self);

    fn waiting(&self) -> usize;
}

impl Sends for EdgeNode {
    fn begin(&mut self, now: u64) -> Option<Out> {
        self.open(now).ok()
    }

    fn enter(&mut self, now: u64) -> Option<Out> {
        self.accepted(now).ok()
    }

    fn set(&mut self, now: u64, alias: u64, value: &Option<Value>) -> Option<Out> {
        self.change(now, alias, value).ok()
    }

    fn turn(&mut self, now: u64, name: &str, up: bool) -> Option<Out> {
        self.device(now, name, up).ok()
    }

    fn ask(&mut self, now: u64) -> Option<Out> {
        self.command(now, "spBv1.0/Plant 7/NCMD/Line 0003", REBIRTH)
            .ok()
    }

    fn flush(&mut self, now: u64) -> Option<Out> {
        self.drain(now).ok()
    }

    fn lose(&mut self) {
        self.cut();
    }

    fn waiting(&self) -> usize {
        self.kept()
    }
}

/// How large the job is.
#[derive(Drop)]
struct Size {
    metrics: usize,
    devices: usize,
    scans: u64,
    kept: u64,
}

/// What the job keeps beside the node.
#[derive(Drop)]
struct Room {
    alloc: Global,
    random: Random,
    digest: Digest,
    /// How many aliases there are.
    aliases: u64,
    devices: usize,
    now: u64,
}

impl Room {
    /// What was answered.
    fn take(&mut self, out: &Out) {
        self.digest.number(out.packets.len() as u64);
        for packet in &out.packets {
            self.digest.bytes(packet.as_slice());
        }
        self.digest.number(out.writes.len() as u64);
        for write in &out.writes {
            self.digest.number(write.alias);
            sum_value(&write.value, &mut self.digest);
        }
        self.digest.number(u64::from(out.close));
    }

    /// Words of a random length: of one text in ten some hundred.
    fn words(&mut self) -> Option<Value> {
        let mut text = String::from_str(self.alloc, "state ").ok()?;
        let most = if self.random.is_one_of(10) { 60 } else { 3 };
        for _ in 0..self.random.below(most).saturating_add(1) {
            let word = match self.random.below(4) {
                0 => "running ",
                1 => "stopped ",
                2 => "by hand ",
                _ => "waits for parts ",
            };
            text.push_str(word).ok()?;
        }
        Some(Value::Words(text))
    }

    /// A value of the datatype of a metric.
    fn value(&mut self, alias: u64) -> Option<Value> {
        match alias % 10 {
            0..=4 => Some(Value::Signed(i64::from((self.random.below(100_000) % 100_000) as u32))),
            5..=6 => Some(Value::Unsigned(self.random.draw())),
            7..=8 => Some(Value::Flag(self.random.is_one_of(2))),
            _ => self.words(),
        }
    }
}

/// The datatype of a metric: Int32, UInt64, Boolean or String.
fn datatype(alias: u64) -> u32 {
    match alias % 10 {
        0..=4 => 3,
        5..=6 => 8,
        7..=8 => 11,
        _ => 12,
    }
}

/// So many metrics without a value.
fn add(alloc: Global, registry: &mut Registry, owner: Owner, count: usize) -> Option<()> {
    for number in 0..count {
        let name = numbered(alloc, "Section 4/Motor 12/Winding ", number)?;
        let alias = (registry.metric_count() as u64).saturating_add(1);
        let _alias = registry
            .add_metric(owner, name.as_str(), datatype(alias), None)
            .ok()?;
    }
    Some(())
}

fn registry(alloc: Global, size: &Size) -> Option<Registry> {
    let mut registry = Registry::new(alloc);
    add(alloc, &mut registry, Owner::Node, size.metrics)?;
    for number in 0..size.devices {
        let name = numbered(alloc, "Drive ", number)?;
        registry.add_device(name.as_str()).ok()?;
        add(alloc, &mut registry, Owner::Device(number), OF_DEVICE)?;
        let _turned = registry.device_up(name.as_str());
    }
    Some(registry)
}

fn node(alloc: Global, size: &Size) -> Option<EdgeNode> {
    let config = EdgeConfig {
        group: String::from_str(alloc, "Plant 7").ok()?,
        node: String::from_str(alloc, "Line 0003").ok()?,
        primary: None,
        keep: 60,
        capacity: 4_096,
        numbering: Numbering::Restarts,
    };
    let record = Record {
        seq: 0,
        bd: 0,
        stamp: None,
    };
    EdgeNode::new(alloc, config, record, registry(alloc, size)?).ok()
}

/// A session begins.
fn join<N: Sends>(node: &mut N, room: &mut Room) -> Option<()> {
    let out = node.begin(room.now)?;
    room.take(&out);
    let out = node.enter(room.now)?;
    room.take(&out);
    Some(())
}

/// A metric has a value; of six, one has it a second time.
fn set<N: Sends>(node: &mut N, room: &mut Room) -> Option<()> {
    let alias = room.random.below(room.aliases).saturating_add(1);
    let value = room.value(alias);
    let out = node.set(room.now, alias, &value)?;
    room.take(&out);
    if room.random.is_one_of(6) {
        let out = node.set(room.now.saturating_add(1), alias, &value)?;
        room.take(&out);
    }
    Some(())
}

/// A scan finds up to 200 values.
fn scan<N: Sends>(node: &mut N, room: &mut Room) -> Option<()> {
    room.now = room.now.saturating_add(100);
    for _ in 0..room.random.below(200).saturating_add(1) {
        set(node, room)?;
    }
    Some(())
}

/// A rebirth is asked for.
fn rebear<N: Sends>(node: &mut N, room: &mut Room) -> Option<()> {
    let out = node.ask(room.now)?;
    room.take(&out);
    Some(())
}

/// A device goes down and comes up.
fn turn<N: Sends>(node: &mut N, room: &mut Room) -> Option<()> {
    let number = room.random.place(room.devices);
    let name = numbered(room.alloc, "Drive ", number)?;
    let out = node.turn(room.now, name.as_str(), false)?;
    room.take(&out);
    let out = node.turn(room.now, name.as_str(), true)?;
    room.take(&out);
    Some(())
}

/// What was kept is sent.
fn flush<N: Sends>(node: &mut N, room: &mut Room) -> Option<()> {
    for _ in 0..node.waiting() {
        if node.waiting() == 0 {
            return Some(());
        }
        let out = node.flush(room.now)?;
        room.take(&out);
    }
    Some(())
}

/// The connection is gone for a while, and what is kept meanwhile is sent in the next session.
fn outage<N: Sends>(node: &mut N, room: &mut Room, kept: u64) -> Option<()> {
    node.lose();
    for _ in 0..kept {
        set(node, room)?;
    }
    join(node, room)?;
    flush(node, room)
}

fn run_on<N: Sends>(node: &mut N, room: &mut Room, size: &Size) -> Option<()> {
    join(node, room)?;
    for number in 1..size.scans.saturating_add(1) {
        scan(node, room)?;
        if number % 25 == 0 {
            turn(node, room)?;
        }
        if number % 40 == 0 {
            rebear(node, room)?;
        }
        if number % 400 == 0 {
            outage(node, room, size.kept)?;
        }
    }
    Some(())
}

/// Scans find new values, and some that are the same again; devices go down and up, rebirths are asked for, and connections are gone for a
/// while. The sum of all packets.
pub(crate) fn run(alloc: Global, seed: u64, is_small: bool) -> Option<u64> {
    let size = if is_small {
        Size {
            metrics: 20,
            devices: 2,
            scans: 400,
            kept: 100,
        }
    } else {
        Size {
            metrics: 800,
            devices: 100,
            scans: 12_000,
            kept: 5_000,
        }
    };
    let mut node = node(alloc, &size)?;
    let mut room = Room {
        alloc,
        random: Random::new(seed),
        digest: Digest::new(),
        aliases: size
            .metrics
            .saturating_add(size.devices.saturating_mul(OF_DEVICE)) as u64,
        devices: size.devices,
        now: 1_763_812_800_000,
    };
    run_on(&mut node, &mut room, &size)?;
    room.digest.number(node.lost());
    Some(room.digest.sum())
}
