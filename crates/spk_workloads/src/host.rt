//! The job of a host.

use crate::digest::Digest;
use crate::publishers::{Publisher, publishers};
use crate::random::Random;
use crate::sums::{sum_number, sum_out, sum_text, sum_value};
use crate::texts::number_in;
use spk_host::{Host, HostConfig, MetricView, Out};
use spk_host_rules::Shown;
use spk_sequence::Width;
use spk_topics::Spark;
use std::alloc::Global;

/// The most nodes that are asked for a rebirth behind one another.
const MOST: u64 = 1_000_000;

/// A host, as the job asks of it. None where it refuses.
trait Hears {
    fn hear(&mut self, bytes: &[u8], now: u64) -> Option<Out>;

    fn wait(&mut self, now: u64) -> Option<Out>;

    fn restart(&mut self, now: u64) -> Option<Out>;

    fn sum_up(&self, digest: &mut Digest);
}

/// What is shown of metrics.
fn sum_metrics(metrics: &[MetricView], digest: &mut Digest) {
    digest.number(metrics.len() as u64);
    for metric in metrics {
        sum_text(metric.name(), digest);
        sum_number(metric.alias(), digest);
        sum_number(metric.datatype().map(u64::from), digest);
        match metric.shown() {
            Shown::Nothing => digest.number(8),
            Shown::Other => digest.number(9),
            Shown::Typed(value) => sum_value(value, digest),
        }
    }
}

impl Hears for Host {
    fn hear(&mut self, bytes: &[u8], now: u64) -> Option<Out> {
        self.packet(bytes, now).ok()
    }

    fn wait(&mut self, now: u64) -> Option<Out> {
        self.tick(now).ok()
    }

    fn restart(&mut self, now: u64) -> Option<Out> {
        self.renew(now).ok()
    }

    fn sum_up(&self, digest: &mut Digest) {
        for entry in self.nodes() {
            sum_text(entry.group(), digest);
            sum_text(entry.node(), digest);
            if let Some(view) = entry.kept().view() {
                digest.number(u64::from(view.is_online()));
                digest.number(u64::from(view.is_stale()));
                sum_metrics(view.metrics(), digest);
                digest.number(view.devices().len() as u64);
                for device in view.devices() {
                    sum_text(device.name(), digest);
                    digest.number(u64::from(device.is_online()));
                    digest.number(u64::from(device.is_stale()));
                    sum_metrics(device.metrics(), digest);
                }
            }
        }
    }
}

/// How large the job is.
#[derive(Drop)]
struct Size {
    nodes: usize,
    messages: u64,
    rounds: u64,
}

/// What the job keeps beside the host and the nodes.
#[derive(Drop)]
struct Room {
    random: Random,
    digest: Digest,
    now: u64,
    /// The nodes that were asked for a rebirth.
    asked: Vec<usize>,
}

impl Room {
    /// What was answered.
    fn take(&mut self, out: &Out) -> Option<()> {
        sum_out(out, &mut self.digest);
        for topic in &out.rebirths {
            if let Spark::Node { node, .. } = topic {
                self.asked.push(number_in(node.as_str())).ok()?;
            }
        }
        Some(())
    }
}

/// The host hears these bytes.
fn hear<H: Hears>(host: &mut H, room: &mut Room, bytes: &[u8]) -> Option<()> {
    let out = host.hear(bytes, room.now)?;
    room.take(&out)
}

/// A node is born anew, and so are its devices.
fn bear<H: Hears>(host: &mut H, room: &mut Room, node: &mut Publisher) -> Option<()> {
    let bytes = node.birth(&mut room.random, room.now)?;
    hear(host, room, bytes.as_slice())?;
    for number in 0..node.devices {
        let bytes = node.device_birth(&mut room.random, number, room.now)?;
        hear(host, room, bytes.as_slice())?;
    }
    Some(())
}

/// Who was asked is born anew.
fn bear_asked<H: Hears>(host: &mut H, room: &mut Room, nodes: &mut [Publisher]) -> Option<()> {
    for _ in 0..MOST {
        let Some(number) = room.asked.pop() else {
            return Some(());
        };
        bear(host, room, nodes.get_mut(number)?)?;
    }
    None
}

/// A node publishes data: mostly one message that comes, sometimes one that is lost, two that come the wrong way round, or the first of 40
/// that comes last.
fn say<H: Hears>(host: &mut H, room: &mut Room, node: &mut Publisher) -> Option<()> {
    let bytes = node.data(&mut room.random, room.now)?;
    match room.random.below(4_000) {
        0..=7 => Some(()),
        8..=79 => {
            let second = node.data(&mut room.random, room.now)?;
            hear(host, room, second.as_slice())?;
            hear(host, room, bytes.as_slice())
        }
        80 => {
            for _ in 0..39 {
                let later = node.data(&mut room.random, room.now)?;
                hear(host, room, later.as_slice())?;
            }
            hear(host, room, bytes.as_slice())
        }
        _ => hear(host, room, bytes.as_slice()),
    }
}

/// The host's session begins, or begins anew: its server takes it.
fn enter<H: Hears>(host: &mut H, room: &mut Room) -> Option<()> {
    let out = host.restart(room.now)?;
    room.take(&out)?;
    hear(host, room, &[0x20, 2, 0, 0])?;
    hear(host, room, &[0x90, 3, 0, 1, 1])
}

/// Messages of data, one each millisecond, with a tick each tenth of a second; who is asked is born anew.
fn work<H: Hears>(
    host: &mut H,
    room: &mut Room,
    nodes: &mut [Publisher],
    count: u64,
) -> Option<()> {
    for number in 0..count {
        room.now = room.now.saturating_add(1);
        let place = room.random.place(nodes.len());
        say(host, room, nodes.get_mut(place)?)?;
        if number % 100 == 99 {
            let out = host.wait(room.now)?;
            room.take(&out)?;
        }
        bear_asked(host, room, nodes)?;
    }
    Some(())
}

/// The host restarts: each node's next message is asked for a rebirth, or its rebirth comes by itself.
fn restart<H: Hears>(host: &mut H, room: &mut Room, nodes: &mut [Publisher]) -> Option<()> {
    room.now = room.now.saturating_add(10_000);
    enter(host, room)?;
    for node in nodes.iter_mut() {
        if room.random.is_one_of(2) {
            let bytes = node.data(&mut room.random, room.now)?;
            hear(host, room, bytes.as_slice())?;
        } else {
            bear(host, room, node)?;
        }
    }
    bear_asked(host, room, nodes)
}

fn run_on<H: Hears>(
    host: &mut H,
    room: &mut Room,
    nodes: &mut [Publisher],
    size: &Size,
) -> Option<()> {
    for _ in 0..size.rounds {
        restart(host, room, nodes)?;
        work(host, room, nodes, size.messages)?;
        host.sum_up(&mut room.digest);
    }
    Some(())
}

fn host(alloc: Global) -> Option<Host> {
    let config = HostConfig {
        name: String::from_str(alloc, "Host 1").ok()?,
        group: String::from_str(alloc, "Plant 7").ok()?,
        wait: 2_000,
        keep: 60,
        width: Width::new(64)?,
    };
    Host::new(alloc, config).ok()
}

/// A host restarts among many nodes: births of all, data by alias, messages lost and out of order, rebirths that it asks for. The sum of
/// what it took, asked and shows.
pub(crate) fn run(alloc: Global, seed: u64, is_small: bool) -> Option<u64> {
    let size = if is_small {
        Size {
            nodes: 10,
            messages: 200,
            rounds: 2,
        }
    } else {
        Size {
            nodes: 1_000,
            messages: 60_000,
            rounds: 3,
        }
    };
    let mut room = Room {
        random: Random::new(seed),
        digest: Digest::new(),
        now: 1_763_812_800_000,
        asked: Vec::new(alloc),
    };
    let mut nodes = publishers(alloc, &mut room.random, size.nodes)?;
    let mut host = host(alloc)?;
    run_on(&mut host, &mut room, nodes.as_mut_slice(), &size)?;
    Some(room.digest.sum())
}
