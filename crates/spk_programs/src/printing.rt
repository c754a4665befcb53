//! The lines that the program of a host prints, each a JSON object.

use crate::known::Stand;
use crate::texts::{json_text, value_text};
use spk_host::{DeviceView, HostFault, MetricView, NodeView};
use spk_payload::{Metric, Raw, typed};
use spk_reading::{Numbered, Subject};
use spk_sequence::Loss;
use std::alloc::Global;
use std::fmt;
use std::io::{self, ErrorKind, Write};

/// What a change of a stand comes of.
#[derive(Clone, Copy, Debug, PartialEq, Eq)]
pub(crate) enum Cause {
    /// A birth.
    Birth,
    /// A message was lost.
    Gap,
    /// A death.
    Death,
    /// The host's own session is over.
    Session,
    /// Nothing came for too long (own rule).
    Silence,
    /// Something came behind a silence.
    Message,
}

impl fmt::Display for Cause {
    fn fmt<W: fmt::Write>(&self, f: &mut fmt::Formatter<W>) -> fmt::Result {
        f.write_str(match self {
            Cause::Birth => "birth",
            Cause::Gap => "gap",
            Cause::Death => "death",
            Cause::Session => "session",
            Cause::Silence => "silence",
            Cause::Message => "message",
        })
    }
}

impl fmt::Display for Stand {
    fn fmt<W: fmt::Write>(&self, f: &mut fmt::Formatter<W>) -> fmt::Result {
        f.write_str(match self {
            Stand::Unborn => "unborn",
            Stand::Current => "current",
            Stand::Stale => "stale",
            Stand::Offline => "offline",
        })
    }
}

/// A text as a JSON string.
fn quoted(alloc: Global, text: &str) -> io::Result<String> {
    match json_text(alloc, text) {
        Ok(text) => Ok(text),
        Err(_) => Err(io::Error::from(ErrorKind::OutOfMemory)),
    }
}

/// The names that stand first in a line.
fn write_names<W: Write>(
    alloc: Global,
    out: &mut W,
    group: &str,
    node: &str,
    device: Option<&str>,
) -> io::Result<()> {
    let group = quoted(alloc, group)?;
    let node = quoted(alloc, node)?;
    write!(out, "{{\"group\":{group},\"node\":{node},\"device\":")?;
    match device {
        Some(device) => {
            let device = quoted(alloc, device)?;
            write!(out, "{device}")
        }
        None => write!(out, "null"),
    }
}

/// A node or a device stands otherwise.
pub(crate) fn write_stand<W: Write>(
    alloc: Global,
    out: &mut W,
    group: &str,
    node: &str,
    device: Option<&str>,
    stand: Stand,
    cause: Cause,
    now: u64,
) -> io::Result<()> {
    write_names(alloc, out, group, node, device)?;
    writeln!(
        out,
        ",\"state\":\"{stand}\",\"cause\":\"{cause}\",\"at\":{now}}}"
    )
}

/// An NDEATH came, of whatever session.
pub(crate) fn write_death<W: Write>(
    alloc: Global,
    out: &mut W,
    group: &str,
    node: &str,
    now: u64,
) -> io::Result<()> {
    write_names(alloc, out, group, node, None)?;
    writeln!(out, ",\"message\":\"NDEATH\",\"at\":{now}}}")
}

/// Messages of a node that were held are dropped: so many, and so many hadn't come before the nearest of them.
pub(crate) fn write_lost<W: Write>(
    alloc: Global,
    out: &mut W,
    group: &str,
    node: &str,
    loss: Loss,
    now: u64,
) -> io::Result<()> {
    write_names(alloc, out, group, node, None)?;
    let Loss { held, missing } = loss;
    writeln!(out, ",\"lost\":{held},\"missing\":{missing},\"at\":{now}}}")
}

/// A rebirth was asked for.
pub(crate) fn write_asked<W: Write>(
    alloc: Global,
    out: &mut W,
    group: &str,
    node: &str,
    now: u64,
) -> io::Result<()> {
    write_names(alloc, out, group, node, None)?;
    writeln!(out, ",\"asked\":\"rebirth\",\"at\":{now}}}")
}

/// A message on this topic was refused.
pub(crate) fn write_refused<W: Write>(
    alloc: Global,
    out: &mut W,
    label: Option<&str>,
    fault: HostFault,
    topic: &str,
    now: u64,
) -> io::Result<()> {
    let topic = quoted(alloc, topic)?;
    let number = fault.number();
    write_label(alloc, out, label)?;
    writeln!(
        out,
        "\"refused\":{topic},\"fault\":\"{fault}\",\"number\":{number},\"at\":{now}}}"
    )
}

/// Begins a line that is of no node: with the host's group, where there are several.
fn write_label<W: Write>(alloc: Global, out: &mut W, label: Option<&str>) -> io::Result<()> {
    match label {
        Some(group) => {
            let group = quoted(alloc, group)?;
            write!(out, "{{\"group\":{group},")
        }
        None => write!(out, "{{"),
    }
}

/// CONNACK said this code.
pub(crate) fn write_turned_away<W: Write>(
    alloc: Global,
    out: &mut W,
    label: Option<&str>,
    code: u8,
    now: u64,
) -> io::Result<()> {
    write_label(alloc, out, label)?;
    writeln!(out, "\"turned_away\":{code},\"at\":{now}}}")
}

/// What the broker made of the subscription.
pub(crate) fn write_subscription<W: Write>(
    alloc: Global,
    out: &mut W,
    label: Option<&str>,
    became: &str,
    now: u64,
) -> io::Result<()> {
    write_label(alloc, out, label)?;
    writeln!(out, "\"subscription\":\"{became}\",\"at\":{now}}}")
}

/// The host's own session is over.
pub(crate) fn write_session_over<W: Write>(
    alloc: Global,
    out: &mut W,
    label: Option<&str>,
    now: u64,
) -> io::Result<()> {
    write_label(alloc, out, label)?;
    writeln!(out, "\"session\":\"over\",\"at\":{now}}}")
}

/// The names that a message's metrics mean.
#[derive(Drop)]
enum Names<'a> {
    Node(&'a NodeView),
    Device(&'a DeviceView),
    /// Its own, as of a birth, or none.
    Own,
}

/// The names that a message's metrics mean, by the births before it.
fn names_of<'a>(view: Option<&'a NodeView>, subject: &Subject) -> Names<'a> {
    let Some(view) = view else {
        return Names::Own;
    };
    match subject {
        Subject::NodeData => Names::Node(view),
        Subject::DeviceData(device) => match view.device(device.as_str()) {
            Some(device) => Names::Device(device),
            None => Names::Own,
        },
        _ => Names::Own,
    }
}

/// The metric of a birth that a metric means.
fn row_of<'a>(names: &Names<'a>, metric: &Metric) -> Option<&'a MetricView> {
    match names {
        Names::Node(view) => view.meant_by(metric),
        Names::Device(view) => view.meant_by(metric),
        Names::Own => None,
    }
}

/// What a metric is called: by its birth, by itself, or else by its alias.
fn write_heading<W: Write>(
    alloc: Global,
    out: &mut W,
    row: Option<&MetricView>,
    metric: &Metric,
) -> io::Result<()> {
    let own = metric.name.as_ref().map(|name| name.as_str());
    let name = match row {
        Some(row) => Some(row.name()),
        None => own,
    };
    match (name, metric.alias) {
        (Some(name), _) => {
            let name = quoted(alloc, name)?;
            write!(out, "{{\"metric\":{name}")
        }
        (None, Some(alias)) => write!(out, "{{\"alias\":{alias}"),
        (None, None) => write!(out, "{{\"metric\":null"),
    }
}

/// A value, as its datatype reads it.
fn write_value<W: Write>(
    alloc: Global,
    out: &mut W,
    datatype: Option<u32>,
    value: &Raw,
) -> io::Result<()> {
    let Ok(value) = value.copy(alloc) else {
        return Err(io::Error::from(ErrorKind::OutOfMemory));
    };
    match typed(datatype.unwrap_or(0), value) {
        Ok(value) => match value_text(alloc, &value) {
            Ok(text) => write!(out, "{text}"),
            Err(_) => Err(io::Error::from(ErrorKind::OutOfMemory)),
        },
        Err(Raw::Other) => write!(out, "{{\"unread\":\"other\"}}"),
        Err(_) if datatype.is_none() => write!(out, "{{\"unread\":\"untyped\"}}"),
        Err(_) => write!(out, "{{\"unread\":\"mistyped\"}}"),
    }
}

/// A metric.
fn write_metric<W: Write>(
    alloc: Global,
    out: &mut W,
    row: Option<&MetricView>,
    metric: &Metric,
) -> io::Result<()> {
    write_heading(alloc, out, row, metric)?;
    let datatype = match row {
        Some(row) => row.datatype(),
        None => metric.datatype,
    };
    match datatype {
        Some(number) => write!(out, ",\"type\":{number},\"value\":")?,
        None => write!(out, ",\"type\":null,\"value\":")?,
    }
    match &metric.value {
        Some(value) if metric.null != Some(true) => write_value(alloc, out, datatype, value)?,
        _ => write!(out, "null")?,
    }
    if let Some(time) = metric.timestamp {
        write!(out, ",\"time\":{time}")?;
    }
    if metric.historical == Some(true) {
        write!(out, ",\"historical\":true")?;
    }
    write!(out, "}}")
}

/// What a message is, and of which device.
fn kind_of(subject: &Subject) -> (&'static str, Option<&str>) {
    match subject {
        Subject::NodeBirth => ("NBIRTH", None),
        Subject::NodeData => ("NDATA", None),
        Subject::DeviceBirth(device) => ("DBIRTH", Some(device.as_str())),
        Subject::DeviceData(device) => ("DDATA", Some(device.as_str())),
        Subject::DeviceDeath(device) => ("DDEATH", Some(device.as_str())),
    }
}

/// A message was consumed. What its metrics are called, and their datatypes, are by the births before it.
pub(crate) fn write_message<W: Write>(
    alloc: Global,
    out: &mut W,
    message: &Numbered,
    births: Option<&NodeView>,
) -> io::Result<()> {
    let (kind, device) = kind_of(&message.subject);
    write_names(
        alloc,
        out,
        message.group.as_str(),
        message.node.as_str(),
        device,
    )?;
    let number = message.number;
    write!(out, ",\"message\":\"{kind}\",\"seq\":{number},\"time\":")?;
    match message.payload.timestamp {
        Some(time) => write!(out, "{time}")?,
        None => write!(out, "null")?,
    }
    write!(out, ",\"metrics\":[")?;
    let names = names_of(births, &message.subject);
    let mut first = true;
    for metric in &message.payload.metrics {
        if !first {
            write!(out, ",")?;
        }
        first = false;
        write_metric(alloc, out, row_of(&names, metric), metric)?;
    }
    writeln!(out, "]}}")
}
