//! Edge nodes whose messages a host hears: made here, and not by an edge node, so that the time is the host's.

use crate::packets::publish;
use crate::random::Random;
use crate::texts::{joined, numbered};
use spk_payload::{Metric, Payload, Raw, encode};
use std::alloc::Global;

/// What metrics measure.
const WORDS: [&str; 8] = [
    "Winding Temperature",
    "Speed",
    "Setpoint",
    "State",
    "Torque",
    "Operating Hours",
    "Door Closed",
    "Bearing Vibration",
];

/// How many metrics a device has.
const OF_DEVICE: u64 = 12;

/// An edge node.
#[derive(Drop)]
pub(crate) struct Publisher {
    alloc: Global,
    name: String,
    /// Where its data goes.
    data: String,
    /// How many metrics it has, and devices. Aliases count from 1, the node's own first.
    metrics: u64,
    pub(crate) devices: u64,
    /// The number of its next message.
    seq: u64,
}

/// A metric with no field but an alias and a timestamp.
fn bare(alias: u64, now: u64) -> Metric {
    Metric {
        name: None,
        alias: Some(alias),
        timestamp: Some(now),
        datatype: None,
        historical: None,
        transient: None,
        null: None,
        value: None,
    }
}

/// The datatype of a metric: Int32, UInt64, Boolean or String.
fn datatype(alias: u64) -> u32 {
    match alias % 10 {
        0..=4 => 3,
        5..=6 => 8,
        7..=8 => 11,
        _ => 12,
    }
}

/// A value of the datatype of a metric.
fn value(alloc: Global, random: &mut Random, alias: u64) -> Option<Raw> {
    match alias % 10 {
        0..=4 => Some(Raw::Int((random.below(100_000) % 100_000) as u32)),
        5..=6 => Some(Raw::Long(random.draw())),
        7..=8 => Some(Raw::Flag(random.is_one_of(2))),
        _ => {
            let text = numbered(alloc, "running since ", random.place(10_000))?;
            Some(Raw::Words(text))
        }
    }
}

/// The name of a metric.
fn name_of(alloc: Global, alias: u64) -> Option<String> {
    let motor = numbered(alloc, "Section 2/Motor ", (alias / 8) as usize)?;
    let word = WORDS.get((alias % 8) as usize)?;
    joined(alloc, motor.as_str(), "/", word)
}

/// A metric of a birth.
fn born(alloc: Global, random: &mut Random, alias: u64, now: u64) -> Option<Metric> {
    let mut metric = bare(alias, now);
    metric.name = Some(name_of(alloc, alias)?);
    metric.datatype = Some(datatype(alias));
    metric.value = value(alloc, random, alias);
    Some(metric)
}

/// The metric that says a node's session.
fn session(alloc: Global, now: u64) -> Option<Metric> {
    let mut metric = bare(0, now);
    metric.name = Some(String::from_str(alloc, "bdSeq").ok()?);
    metric.alias = None;
    metric.datatype = Some(4);
    metric.value = Some(Raw::Long(0));
    Some(metric)
}

impl Publisher {
    /// The bytes of its next message.
    fn sent(&mut self, topic: &str, metrics: Vec<Metric>, now: u64) -> Option<Vec<u8>> {
        let payload = Payload {
            timestamp: Some(now),
            metrics,
            seq: Some(self.seq),
        };
        self.seq = self.seq.saturating_add(1) % 256;
        let bytes = encode(self.alloc, &payload).ok()?;
        publish(self.alloc, topic, bytes.as_slice(), None, false)
    }

    /// Its birth: the session, and each metric of its own.
    pub(crate) fn birth(&mut self, random: &mut Random, now: u64) -> Option<Vec<u8>> {
        let mut metrics = Vec::new(self.alloc);
        metrics.push(session(self.alloc, now)?).ok()?;
        for alias in 1..self.metrics.saturating_add(1) {
            metrics.push(born(self.alloc, random, alias, now)?).ok()?;
        }
        self.seq = 0;
        let topic = joined(
            self.alloc,
            "spBv1.0/Plant 7/NBIRTH/",
            self.name.as_str(),
            "",
        )?;
        self.sent(topic.as_str(), metrics, now)
    }

    /// The first alias of a device.
    fn first_of(&self, device: u64) -> u64 {
        let before = self.metrics.saturating_add(1);
        before.saturating_add(device.saturating_mul(OF_DEVICE))
    }

    /// The topic of a device's message.
    fn device_topic(&self, kind: &str, device: u64) -> Option<String> {
        let name = numbered(self.alloc, "Drive ", device as usize)?;
        let node = joined(self.alloc, kind, self.name.as_str(), "/")?;
        joined(self.alloc, node.as_str(), name.as_str(), "")
    }

    /// The birth of a device.
    pub(crate) fn device_birth(
        &mut self,
        random: &mut Random,
        device: u64,
        now: u64,
    ) -> Option<Vec<u8>> {
        let first = self.first_of(device);
        let mut metrics = Vec::new(self.alloc);
        for alias in first..first.saturating_add(OF_DEVICE) {
            metrics.push(born(self.alloc, random, alias, now)?).ok()?;
        }
        let topic = self.device_topic("spBv1.0/Plant 7/DBIRTH/", device)?;
        self.sent(topic.as_str(), metrics, now)
    }

    /// So many metrics of data, from a random one of a range on.
    fn changes(
        &self,
        random: &mut Random,
        first: u64,
        range: u64,
        count: u64,
        now: u64,
    ) -> Option<Vec<Metric>> {
        let start = random.below(range);
        let mut metrics = Vec::new(self.alloc);
        for number in 0..count.min(range) {
            let place = start.saturating_add(number) % range.max(1);
            let alias = first.saturating_add(place);
            let mut metric = bare(alias, now);
            metric.value = value(self.alloc, random, alias);
            metrics.push(metric).ok()?;
        }
        Some(metrics)
    }

    /// A message of data, its own or of a device: of one metric, of up to 8, or of up to 32.
    pub(crate) fn data(&mut self, random: &mut Random, now: u64) -> Option<Vec<u8>> {
        let count = match random.below(20) {
            0..=9 => 1,
            10..=16 => random.below(8).saturating_add(1),
            _ => random.below(32).saturating_add(1),
        };
        if self.devices > 0 && random.is_one_of(2) {
            let device = random.below(self.devices);
            let first = self.first_of(device);
            let metrics = self.changes(random, first, OF_DEVICE, count, now)?;
            let topic = self.device_topic("spBv1.0/Plant 7/DDATA/", device)?;
            return self.sent(topic.as_str(), metrics, now);
        }
        let metrics = self.changes(random, 1, self.metrics, count, now)?;
        let topic = joined(self.alloc, self.data.as_str(), "", "")?;
        self.sent(topic.as_str(), metrics, now)
    }
}

/// So many nodes of 20 to 200 metrics; one in ten has 2 to 60 devices, and one in a hundred 1,000 metrics.
pub(crate) fn publishers(
    alloc: Global,
    random: &mut Random,
    count: usize,
) -> Option<Vec<Publisher>> {
    let mut nodes = Vec::new(alloc);
    for number in 0..count {
        let name = numbered(alloc, "Line ", number)?;
        let data = joined(alloc, "spBv1.0/Plant 7/NDATA/", name.as_str(), "")?;
        let metrics = if number % 100 == 7 {
            1_000
        } else {
            random.below(180).saturating_add(20)
        };
        let devices = if number % 10 == 3 {
            random.below(59).saturating_add(2)
        } else {
            0
        };
        nodes
            .push(Publisher {
                alloc,
                name,
                data,
                metrics,
                devices,
                seq: 0,
            })
            .ok()?;
    }
    Some(nodes)
}
