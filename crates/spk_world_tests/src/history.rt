//! Kept changes of which no packet can say two: from an edge node, by the bytes of its packets, to what a host consumes and shows.
use spk_device::{DeviceFault, Owner, Registry};
use spk_edge::{EdgeConfig, EdgeFault, EdgeNode, Numbering, Out, Record};
use spk_host::{Host, HostConfig, HostFault};
use spk_payload::{Metric, Raw, Value};
use spk_sequence::Width;
use std::alloc::{AllocError, Global};
use std::process::Abort;

/// Each text has so many bytes.
const LONG: usize = 600_000;

const MANY: &str = "xxxxxxxxxxxxxxxxxxxxxxxxxxxxxxxxxxxxxxxxxxxxxxxxxxxxxxxxxxxxxxxx";

fn letters(alloc: Global) -> Result<String, AllocError> {
    let mut text = String::with_capacity(alloc, LONG)?;
    for _ in 0..LONG / 64 {
        text.push_str(MANY)?;
    }
    Ok(text)
}

fn registry(alloc: Global) -> Result<Registry, DeviceFault> {
    let mut registry = Registry::new(alloc);
    registry.add_metric(Owner::Node, "a", 12, None)?;
    registry.add_metric(Owner::Node, "b", 12, None)?;
    Ok(registry)
}

fn edge(alloc: Global) -> Result<EdgeNode, EdgeFault> {
    let config = EdgeConfig {
        group: String::from_str(alloc, "G")?,
        node: String::from_str(alloc, "N")?,
        primary: None,
        keep: 60,
        capacity: 8,
        numbering: Numbering::RunsOn,
    };
    let record = Record {
        seq: 0,
        bd: 0,
        stamp: None,
    };
    let Ok(registry) = registry(alloc) else {
        return Err(EdgeFault::NoMemory);
    };
    EdgeNode::new(alloc, config, record, registry)
}

fn host_of(alloc: Global, width: Width) -> Result<Host, HostFault> {
    let (Ok(name), Ok(group)) = (String::from_str(alloc, "H"), String::from_str(alloc, "G")) else {
        return Err(HostFault::NoMemory);
    };
    let config = HostConfig {
        name,
        group,
        wait: 2000,
        keep: 0,
        width,
    };
    Host::new(alloc, config)
}

/// What the test asks of a node. A call that is refused memory is made again.
trait Keeps {
    fn keeps(&mut self, alias: u64, value: &Option<Value>) -> bool;

    fn joins(&mut self) -> Result<Out, EdgeFault>;

    fn drains(&mut self) -> Result<Out, EdgeFault>;

    fn left(&self) -> (usize, u64);
}

impl Keeps for EdgeNode {
    fn keeps(&mut self, alias: u64, value: &Option<Value>) -> bool {
        match self.change(5, alias, value) {
            Err(EdgeFault::NoMemory) => self.change(5, alias, value).is_ok(),
            answer => answer.is_ok(),
        }
    }

    fn joins(&mut self) -> Result<Out, EdgeFault> {
        if self.open(6).is_err() {
            self.open(6)?;
        }
        match self.accepted(7) {
            Err(EdgeFault::NoMemory) => self.accepted(7),
            answer => answer,
        }
    }

    fn drains(&mut self) -> Result<Out, EdgeFault> {
        match self.drain(8) {
            Err(EdgeFault::NoMemory) => self.drain(8),
            answer => answer,
        }
    }

    fn left(&self) -> (usize, u64) {
        (self.kept(), self.lost())
    }
}

/// What the test asks of a host: how many messages it consumes of a packet, and the texts among their historical metrics, in bytes.
trait Hears {
    fn begins(&mut self) -> bool;

    fn takes(&mut self, bytes: &[u8]) -> (usize, usize);

    fn shows(&self, name: &str) -> bool;
}

/// How many bytes the texts of historical metrics have.
fn said(metrics: &[Metric]) -> usize {
    let mut size = 0usize;
    for metric in metrics {
        if let Some(Raw::Words(text)) = &metric.value {
            if metric.historical == Some(true) {
                size = size.saturating_add(text.len());
            }
        }
    }
    size
}

impl Hears for Host {
    fn begins(&mut self) -> bool {
        self.connected(5).is_ok() || self.connected(5).is_ok()
    }

    fn takes(&mut self, bytes: &[u8]) -> (usize, usize) {
        let answer = match self.packet(bytes, 9) {
            Err(HostFault::NoMemory) => self.packet(bytes, 9),
            answer => answer,
        };
        match answer {
            Ok(out) => {
                let mut size = 0usize;
                for taken in &out.consumed {
                    size = size.saturating_add(said(&taken.payload.metrics));
                }
                (out.consumed.len(), size)
            }
            Err(_) => (0, 0),
        }
    }

    fn shows(&self, name: &str) -> bool {
        match self.view("G", "N") {
            Some(view) => view.metric(name).is_some(),
            None => false,
        }
    }
}

/// What the drains bring to the host: one text in a message, and the second with what came behind it; then nothing.
static DRAINS: [(usize, usize); 3] = [(1, LONG), (1, LONG), (0, 0)];

fn carry(rt: &(impl Abort + AllocGlobal), node: &mut impl Keeps, host: &mut impl Hears) {
    for alias in 1u64..3 {
        let text = match letters(rt.alloc()) {
            Ok(text) => text,
            Err(_) => letters(rt.alloc()).expect(rt, "a text"),
        };
        let long = Some(Value::Words(text));
        assert!(rt; node.keeps(alias, &long));
    }
    for alias in 1u64..3 {
        assert!(rt; node.keeps(alias, &None));
    }
    assert!(rt; host.begins());
    let births = node.joins().expect(rt, "births");
    let birth = births.packets.last().expect(rt, "an NBIRTH");
    assert!(rt; host.takes(birth) == (1, 0) && host.shows("a") && host.shows("b"));
    for wanted in &DRAINS {
        let out = node.drains().expect(rt, "a drain");
        let taken = match out.packets.first() {
            Some(bytes) => host.takes(bytes),
            None => (0, 0),
        };
        assert!(rt; taken == *wanted);
    }
    assert!(rt; node.left() == (0, 0));
}

#[test]
fn two_texts_that_no_packet_can_say_reach_a_host(rt: HostRuntime) {
    let alloc = rt.alloc();
    let mut node = match edge(alloc) {
        Ok(node) => node,
        Err(_) => edge(alloc).expect(&rt, "a node"),
    };
    let width = Width::new(96).expect(&rt, "a width");
    let mut host = match host_of(alloc, width) {
        Ok(host) => host,
        Err(_) => host_of(alloc, width).expect(&rt, "a host"),
    };
    carry(&rt, &mut node, &mut host);
}
