//! How many rebirth requests a message makes beforehand.
use spk_host_node::HostNode;
use spk_payload::{Metric, Payload, Raw};
use spk_reading::{Numbered, Subject};
use spk_sequence::{Kind, Width};
use std::alloc::{AllocError, Global};
use std::process::Abort;

/// The alias that each birth gives, and one that none gives.
const KNOWN: u64 = 1;

const UNKNOWN: u64 = 2;

/// What a message is about: the node, or the first of its devices.
#[derive(Clone, Copy)]
enum About {
    NodeBirth,
    NodeData,
    NodeTexts,
    DeviceBirth,
    DeviceData,
    DeviceTexts,
    DeviceDeath,
}

/// How many devices were born, what a message is about, how many metrics it has, the alias of its last one; how many requests are
/// made.
type Row = (usize, About, usize, u64, usize);

static ROWS: [Row; 34] = [
    // a birth asks for none
    (260, About::NodeBirth, 65, UNKNOWN, 0),
    (260, About::DeviceBirth, 65, UNKNOWN, 0),
    // few metrics are looked up, and a device if it is near
    (0, About::NodeData, 1, KNOWN, 0),
    (0, About::NodeData, 33, KNOWN, 0),
    (0, About::NodeData, 64, KNOWN, 0),
    (0, About::NodeData, 64, UNKNOWN, 1),
    (260, About::NodeData, 64, KNOWN, 0),
    (0, About::NodeTexts, 1, KNOWN, 0),
    (0, About::NodeTexts, 33, KNOWN, 0),
    (0, About::NodeTexts, 64, KNOWN, 0),
    (0, About::NodeTexts, 64, UNKNOWN, 1),
    (3, About::DeviceData, 64, KNOWN, 0),
    (3, About::DeviceData, 64, UNKNOWN, 1),
    (131, About::DeviceData, 32, KNOWN, 0),
    (131, About::DeviceData, 32, UNKNOWN, 1),
    (255, About::DeviceData, 1, KNOWN, 0),
    (259, About::DeviceData, 0, KNOWN, 0),
    (3, About::DeviceTexts, 64, KNOWN, 0),
    (131, About::DeviceTexts, 32, KNOWN, 0),
    (131, About::DeviceTexts, 32, UNKNOWN, 1),
    (259, About::DeviceDeath, 0, KNOWN, 0),
    // a device that wasn't born
    (0, About::DeviceDeath, 0, KNOWN, 1),
    (0, About::DeviceData, 1, KNOWN, 1),
    // of more a request is made in any case
    (0, About::NodeData, 65, KNOWN, 1),
    (0, About::NodeTexts, 65, KNOWN, 1),
    (1, About::DeviceData, 65, KNOWN, 1),
    (1, About::DeviceTexts, 65, KNOWN, 1),
    (4, About::DeviceData, 64, KNOWN, 1),
    (4, About::DeviceTexts, 64, KNOWN, 1),
    (132, About::DeviceData, 32, KNOWN, 1),
    (132, About::DeviceTexts, 32, KNOWN, 1),
    (256, About::DeviceData, 1, KNOWN, 1),
    (260, About::DeviceData, 0, KNOWN, 1),
    (260, About::DeviceDeath, 0, KNOWN, 1),
];

fn is_birth(about: About) -> bool {
    matches!(about, About::NodeBirth | About::DeviceBirth)
}

fn value(alloc: Global, about: About) -> Result<Raw, AllocError> {
    match about {
        About::NodeTexts | About::DeviceTexts => Ok(Raw::Words(String::from_str(alloc, "text")?)),
        _ => Ok(Raw::Int(7)),
    }
}

/// A metric under an alias; of a birth it has the name that all have.
fn metric(alloc: Global, about: About, alias: u64) -> Result<Metric, AllocError> {
    let name = if is_birth(about) {
        Some(String::from_str(alloc, "m")?)
    } else {
        None
    };
    Ok(Metric {
        name,
        alias: Some(alias),
        timestamp: None,
        datatype: None,
        historical: None,
        transient: None,
        null: None,
        value: Some(value(alloc, about)?),
    })
}

/// So many metrics, the last under this alias.
fn metrics(
    alloc: Global,
    about: About,
    count: usize,
    last: u64,
) -> Result<Vec<Metric>, AllocError> {
    let mut metrics = Vec::with_capacity(alloc, count)?;
    for place in 1..=count {
        let alias = if place == count { last } else { KNOWN };
        metrics.push(metric(alloc, about, alias)?)?;
    }
    Ok(metrics)
}

/// The name of a device: so many letters, and one.
fn name_of(alloc: Global, device: usize) -> Result<String, AllocError> {
    let mut name = String::from_str(alloc, "d")?;
    for _letter in 0..device {
        name.push('d')?;
    }
    Ok(name)
}

fn subject(alloc: Global, about: About, device: usize) -> Result<Subject, AllocError> {
    match about {
        About::NodeBirth => Ok(Subject::NodeBirth),
        About::NodeData | About::NodeTexts => Ok(Subject::NodeData),
        About::DeviceBirth => Ok(Subject::DeviceBirth(name_of(alloc, device)?)),
        About::DeviceData | About::DeviceTexts => Ok(Subject::DeviceData(name_of(alloc, device)?)),
        About::DeviceDeath => Ok(Subject::DeviceDeath(name_of(alloc, device)?)),
    }
}

fn kind(about: About, number: u8) -> Kind {
    match about {
        About::NodeBirth => Kind::Birth {
            stamp: u64::from(number),
            bd: 4,
        },
        _ => Kind::Other { stamp: None },
    }
}

/// A message under a number.
fn message(
    alloc: Global,
    number: u8,
    about: About,
    device: usize,
    metrics: Vec<Metric>,
) -> Result<Numbered, AllocError> {
    Ok(Numbered {
        group: String::from_str(alloc, "G")?,
        node: String::from_str(alloc, "N")?,
        subject: subject(alloc, about, device)?,
        number,
        kind: kind(about, number),
        topic: String::new(alloc),
        payload: Payload {
            timestamp: None,
            metrics,
            seq: Some(u64::from(number)),
        },
    })
}

/// What the test asks of a node. It is written over any that answers it, since a function over a type parameter is proved without
/// the parts of a node.
trait Foresees {
    /// A message is handed in. Answers whether it was.
    fn take(&mut self, message: Numbered) -> bool;

    /// How many requests are made at a message.
    fn foresee(&self, message: &Numbered) -> usize;
}

impl Foresees for HostNode {
    fn take(&mut self, message: Numbered) -> bool {
        self.hand(message, 9).is_ok()
    }

    fn foresee(&self, message: &Numbered) -> usize {
        self.requests_at(message, 9)
    }
}

/// A birth of one metric, under a number. Answers whether the node took it.
fn bear(
    alloc: Global,
    node: &mut impl Foresees,
    number: u8,
    about: About,
    device: usize,
) -> Result<bool, AllocError> {
    let metrics = metrics(alloc, about, 1, KNOWN)?;
    Ok(node.take(message(alloc, number, about, device, metrics)?))
}

/// How many requests are made at a message behind the births of a node and so many devices. None where memory is refused.
fn behind_births(alloc: Global, node: &mut impl Foresees, row: &Row) -> Option<usize> {
    let (devices, about, count, last, _requests) = *row;
    let mut number = 0;
    let mut is_taken = bear(alloc, node, number, About::NodeBirth, 0).ok()?;
    for device in 0..devices {
        number = number.wrapping_add(1);
        is_taken &= bear(alloc, node, number, About::DeviceBirth, device).ok()?;
    }
    let metrics = metrics(alloc, about, count, last).ok()?;
    let message = message(alloc, number.wrapping_add(1), about, 0, metrics).ok()?;
    if is_taken {
        Some(node.foresee(&message))
    } else {
        None
    }
}

/// The same at a fresh node.
fn foreseen(alloc: Global, row: &Row) -> Option<usize> {
    let width = Width::new(64)?;
    match HostNode::new(alloc, 2000, width) {
        Ok(mut node) => behind_births(alloc, &mut node, row),
        Err(_) => None,
    }
}

/// The same. Where memory was refused it is asked again.
fn foreseen_again(rt: &(impl Abort + AllocGlobal), row: &Row) -> usize {
    match foreseen(rt.alloc(), row) {
        Some(requests) => requests,
        None => foreseen(rt.alloc(), row).expect(rt, "memory is there again"),
    }
}

#[test]
fn few_metrics_make_no_request_in_vain(rt: HostRuntime) {
    for (place, row) in ROWS.iter().enumerate() {
        assert!(&rt; foreseen_again(&rt, row) == row.4, "row {place}");
    }
}
