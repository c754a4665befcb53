//! The job `world`: files of worlds, read, played and printed.

use crate::digest::Digest;
use crate::random::Random;
use spk_commands::{Files, Outcome, run};
use std::alloc::Global;
use std::io::{self, Read};

/// The most events of a file, with some room.
const MOST_EVENTS: u64 = 99_000;

/// A file in memory.
#[derive(Drop)]
pub(crate) struct Memory {
    text: String,
    at: usize,
}

impl Read for Memory {
    fn read(&mut self, buf: &mut [u8]) -> io::Result<usize> {
        let rest = self.text.as_str().as_bytes().get(self.at..).unwrap_or(&[]);
        let count = rest.len().min(buf.len());
        buf[..count].copy_from_slice(&rest[..count]);
        self.at = self.at.saturating_add(count);
        Ok(count)
    }
}

/// One file, which is opened once.
#[derive(Drop)]
pub(crate) struct OneFile {
    text: Option<String>,
}

impl OneFile {
    pub(crate) fn new(text: String) -> OneFile {
        OneFile { text: Some(text) }
    }
}

impl Files for OneFile {
    type Reader = Memory;

    fn open(&mut self, _name: &str) -> Option<Memory> {
        let text = self.text.take()?;
        Some(Memory { text, at: 0 })
    }
}

/// A file of a world as it grows.
#[derive(Drop)]
struct Script {
    text: String,
    /// How many bytes it is to have.
    size: usize,
    events: u64,
    now: u64,
}

impl Script {
    /// An event of a word and numbers.
    fn put(&mut self, word: &str, numbers: &[u64]) -> Option<()> {
        let comma = if self.events == 0 { "" } else { ",\n" };
        write!(self.text, "{comma}[\"{word}\"").ok()?;
        for number in numbers {
            write!(self.text, ",{number}").ok()?;
        }
        self.text.push(']').ok()?;
        self.events = self.events.saturating_add(1);
        Some(())
    }

    /// A device is up.
    fn turn(&mut self, node: u64, device: u64) -> Option<()> {
        let now = self.now;
        write!(self.text, ",\n[\"device\",{node},{now},\"D{device}\",true]").ok()?;
        self.events = self.events.saturating_add(1);
        Some(())
    }

    fn is_full(&self) -> bool {
        self.text.len() >= self.size || self.events >= MOST_EVENTS
    }

    fn end(&mut self) -> Option<()> {
        self.text.push_str("]}\n").ok()
    }
}

/// The kind of a world.
#[derive(Clone, Copy)]
struct Kind {
    nodes: u64,
    metrics: u64,
    devices: u64,
    hosts: u64,
    size: usize,
}

/// The metrics of an owner, behind others.
fn put_metrics(text: &mut String, owner: &str, count: u64) -> Option<()> {
    for number in 0..count {
        let comma = if text.as_str().ends_with('[') {
            ""
        } else {
            ","
        };
        write!(
            text,
            "{comma}{{\"device\":{owner},\"name\":\"Motor 3/Winding {number}\",\"type\":3,\"value\":0}}"
        )
        .ok()?;
    }
    Some(())
}

/// A node of a world.
fn put_node(alloc: Global, text: &mut String, number: u64, kind: Kind) -> Option<()> {
    let comma = if number == 0 { "" } else { ",\n" };
    write!(
        text,
        "{comma}{{\"group\":\"G\",\"node\":\"Line {number}\",\"primary\":null,\"capacity\":10,\"devices\":["
    )
    .ok()?;
    for device in 0..kind.devices {
        let comma = if device == 0 { "" } else { "," };
        write!(text, "{comma}\"D{device}\"").ok()?;
    }
    text.push_str("],\"metrics\":[").ok()?;
    put_metrics(text, "null", kind.metrics)?;
    for device in 0..kind.devices {
        let owner = format!(in alloc; "\"D{device}\"").ok()?;
        put_metrics(text, owner.as_str(), 5)?;
    }
    text.push_str("]}").ok()
}

/// The beginning of a file, up to its first event.
fn begun(alloc: Global, kind: Kind) -> Option<Script> {
    let mut text = String::from_str(alloc, "{\"nodes\":[").ok()?;
    for number in 0..kind.nodes {
        put_node(alloc, &mut text, number, kind)?;
    }
    let hosts = kind.hosts;
    write!(text, "],\n\"hosts\":{hosts},\"wait\":2000,\"events\":[").ok()?;
    Some(Script {
        text,
        size: kind.size,
        events: 0,
        now: 1_763_812_800_000,
    })
}

/// Each node's session begins, and its births are handed to each host. How many messages each published.
fn open_all(script: &mut Script, kind: Kind) -> Option<u64> {
    let births = kind.devices.saturating_add(1);
    for node in 0..kind.nodes {
        script.put("open", &[node, script.now])?;
        for device in 0..kind.devices {
            script.turn(node, device)?;
        }
        script.put("accepted", &[node, script.now])?;
        for host in 0..kind.hosts {
            hand_all(script, host, node, 0, births)?;
        }
    }
    Some(births)
}

/// These positions of a node are handed to a host, in order.
fn hand_all(script: &mut Script, host: u64, node: u64, first: u64, count: u64) -> Option<()> {
    for position in first..first.saturating_add(count) {
        script.put("hand", &[host, node, position, script.now])?;
    }
    Some(())
}

/// How many messages each node published.
fn counts(alloc: Global, kind: Kind, births: u64) -> Option<Vec<u64>> {
    let mut counts = Vec::new(alloc);
    for _ in 0..kind.nodes {
        counts.push(births).ok()?;
    }
    Some(counts)
}

/// Nodes whose metrics change, each message handed to each host.
fn data(alloc: Global, random: &mut Random, kind: Kind) -> Option<String> {
    let mut script = begun(alloc, kind)?;
    let births = open_all(&mut script, kind)?;
    let mut counts = counts(alloc, kind, births)?;
    for number in 1..MOST_EVENTS {
        if script.is_full() {
            break;
        }
        script.now = script.now.saturating_add(random.below(50));
        let place = random.place(counts.len());
        let node = place as u64;
        let alias = random.below(kind.metrics).saturating_add(1);
        let now = script.now;
        script.put("set", &[node, now, alias, number])?;
        let count = counts.get_mut(place)?;
        for host in 0..kind.hosts {
            hand_all(&mut script, host, node, *count, 1)?;
        }
        *count = count.saturating_add(1);
    }
    script.end()?;
    Some(script.text)
}

/// Nodes that are born again and again, each birth handed to each host.
fn births(alloc: Global, random: &mut Random, kind: Kind) -> Option<String> {
    let mut script = begun(alloc, kind)?;
    let births = open_all(&mut script, kind)?;
    let mut counts = counts(alloc, kind, births)?;
    for _ in 1..MOST_EVENTS {
        if script.is_full() {
            break;
        }
        script.now = script
            .now
            .saturating_add(random.below(50).saturating_add(1));
        let place = random.place(counts.len());
        let count = counts.get_mut(place)?;
        let now = script.now;
        script.put("rebirth", &[place as u64, now])?;
        for host in 0..kind.hosts {
            hand_all(&mut script, host, place as u64, *count, births)?;
        }
        *count = count.saturating_add(births);
    }
    script.end()?;
    Some(script.text)
}

/// Eight positions of a node are handed to a host, in pairs the wrong way round; of each pair one in so many is lost.
fn hand_mixed(
    script: &mut Script,
    random: &mut Random,
    host: u64,
    node: u64,
    first: u64,
) -> Option<()> {
    for pair in 0..4u64 {
        let position = first.saturating_add(pair.saturating_mul(2));
        script.put(
            "hand",
            &[host, node, position.saturating_add(1), script.now],
        )?;
        if !random.is_one_of(200) {
            script.put("hand", &[host, node, position, script.now])?;
        }
    }
    Some(())
}

/// Time passes, hosts' sessions are renewed, and all nodes are born anew.
fn renew(
    script: &mut Script,
    random: &mut Random,
    kind: Kind,
    counts: &mut [u64],
    births: u64,
) -> Option<()> {
    script.now = script.now.saturating_add(2_500);
    for host in 0..kind.hosts {
        script.put("tick", &[host, script.now])?;
        if random.is_one_of(3) {
            script.put("session", &[host, script.now])?;
        }
    }
    for (place, count) in counts.iter_mut().enumerate() {
        script.put("rebirth", &[place as u64, script.now])?;
        for host in 0..kind.hosts {
            hand_all(script, host, place as u64, *count, births)?;
        }
        *count = count.saturating_add(births);
    }
    Some(())
}

/// A node publishes eight messages, which are handed to each host, mixed.
fn mix(
    script: &mut Script,
    random: &mut Random,
    kind: Kind,
    counts: &mut [u64],
    first: u64,
) -> Option<()> {
    let place = random.place(counts.len());
    let count = counts.get_mut(place)?;
    for number in first..first.saturating_add(8) {
        script.now = script.now.saturating_add(random.below(20));
        let alias = random.below(kind.metrics).saturating_add(1);
        script.put("set", &[place as u64, script.now, alias, number])?;
    }
    for host in 0..kind.hosts {
        hand_mixed(script, random, host, place as u64, *count)?;
    }
    *count = count.saturating_add(8);
    Some(())
}

/// Messages out of order and lost, and hosts' sessions renewed.
fn losses(alloc: Global, random: &mut Random, kind: Kind) -> Option<String> {
    let mut script = begun(alloc, kind)?;
    let births = open_all(&mut script, kind)?;
    let mut counts = counts(alloc, kind, births)?;
    for number in 1..MOST_EVENTS {
        if script.is_full() {
            break;
        }
        let first = number.saturating_mul(8);
        mix(&mut script, random, kind, counts.as_mut_slice(), first)?;
        if number % 12 == 0 {
            renew(&mut script, random, kind, counts.as_mut_slice(), births)?;
        }
    }
    script.end()?;
    Some(script.text)
}

/// A file is read, played and printed. None where an event of it is refused.
fn play<R: AllocGlobal>(rt: &R, digest: &mut Digest, text: String) -> Option<()> {
    let mut files = OneFile::new(text);
    match run(rt, &["sparkplug", "world", "file"], &mut files, digest) {
        Outcome::Over(0) => Some(()),
        _ => None,
    }
}

/// Worlds of data, of births and of losses. The sum of all lines.
pub(crate) fn job<R: AllocGlobal>(rt: &R, seed: u64, is_small: bool) -> Option<u64> {
    let alloc = rt.alloc();
    let mut random = Random::new(seed);
    let mut digest = Digest::new();
    let size = if is_small { 20_000 } else { 1_000_000 };
    let turns = if is_small { 1 } else { 3 };
    let plain = Kind {
        nodes: 16,
        metrics: 4,
        devices: 0,
        hosts: 2,
        size,
    };
    let full = Kind {
        nodes: 8,
        metrics: 60,
        devices: 4,
        hosts: 1,
        size: size / 2,
    };
    let lossy = Kind {
        nodes: 4,
        metrics: 8,
        devices: 1,
        hosts: 4,
        size,
    };
    for _ in 0..turns {
        let text = data(alloc, &mut random, plain)?;
        play(rt, &mut digest, text)?;
        let text = births(alloc, &mut random, full)?;
        play(rt, &mut digest, text)?;
        let text = losses(alloc, &mut random, lossy)?;
        play(rt, &mut digest, text)?;
    }
    Some(digest.sum())
}
