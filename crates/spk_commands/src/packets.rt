//! The command `packets`: MQTT packets, a line for each.

use crate::fault::Stop;
use crate::show::bytes_of;
use crate::texts::{OrDash, hex_text, json_text};
use spk_packets::{Packet, PacketFault, Request, Will, decode};
use spk_topics::{Spark, TopicFault, Verb};
use std::alloc::{AllocError, Global};
use std::io::Write;

/// A will, or `-`.
fn will_text(alloc: Global, will: Option<Will>) -> Result<String, AllocError> {
    let Some(will) = will else {
        return String::from_str(alloc, "-");
    };
    let Will {
        topic,
        message,
        qos,
        retain,
    } = will;
    let topic = json_text(alloc, topic)?;
    let message = hex_text(alloc, &message)?;
    format!(in alloc; "{topic} qos {qos} retain {retain} {message}")
}

fn connect_line<W: Write>(
    alloc: Global,
    out: &mut W,
    client: String,
    clean: bool,
    keep: u16,
    will: Option<Will>,
) -> Result<(), Stop> {
    let client = json_text(alloc, client)?;
    let will = will_text(alloc, will)?;
    write!(out, "CONNECT client {client} clean {clean} keep {keep} ")?;
    writeln!(out, "will {will}")?;
    Ok(())
}

/// The level TYPE of a topic behind its first letter, which is N of an edge node and D of a device.
fn verb_text(kind: Verb) -> &'static str {
    match kind {
        Verb::Birth => "BIRTH",
        Verb::Death => "DEATH",
        Verb::Data => "DATA",
        Verb::Command => "CMD",
    }
}

/// ` sparkplug`, the level TYPE or `STATE`, and the names in order.
fn spark_text(alloc: Global, spark: Spark) -> Result<String, AllocError> {
    match spark {
        Spark::Node { group, kind, node } => {
            let kind = verb_text(kind);
            let group = json_text(alloc, group)?;
            let node = json_text(alloc, node)?;
            format!(in alloc; " sparkplug N{kind} {group} {node}")
        }
        Spark::Device {
            group,
            kind,
            node,
            device,
        } => {
            let kind = verb_text(kind);
            let group = json_text(alloc, group)?;
            let node = json_text(alloc, node)?;
            let device = json_text(alloc, device)?;
            format!(in alloc; " sparkplug D{kind} {group} {node} {device}")
        }
        Spark::State { host } => {
            let host = json_text(alloc, host)?;
            format!(in alloc; " sparkplug STATE {host}")
        }
    }
}

/// What a topic names, where it is a topic of Sparkplug, and else nothing.
fn named_by(alloc: Global, topic: &str) -> Result<String, Stop> {
    match Spark::read(alloc, topic) {
        Ok(spark) => Ok(spark_text(alloc, spark)?),
        Err(TopicFault::NoMemory) => Err(Stop::no_memory()),
        Err(_) => Ok(String::new(alloc)),
    }
}

fn filters_line<W: Write>(
    alloc: Global,
    out: &mut W,
    id: u16,
    filters: Vec<Request>,
) -> Result<(), Stop> {
    let mut texts = String::new(alloc);
    for request in filters {
        let Request { filter, qos } = request;
        let filter = json_text(alloc, filter)?;
        let text = format!(in alloc; " {filter} {qos}")?;
        texts.push_str(text.as_str())?;
    }
    writeln!(out, "SUBSCRIBE {id}{texts}")?;
    Ok(())
}

fn texts_line<W: Write>(
    alloc: Global,
    out: &mut W,
    id: u16,
    filters: Vec<String>,
) -> Result<(), Stop> {
    let mut texts = String::new(alloc);
    for filter in filters {
        let filter = json_text(alloc, filter)?;
        texts.push_str(" ")?;
        texts.push_str(filter.as_str())?;
    }
    writeln!(out, "UNSUBSCRIBE {id}{texts}")?;
    Ok(())
}

fn codes_line<W: Write>(out: &mut W, id: u16, codes: &[u8]) -> Result<(), Stop> {
    write!(out, "SUBACK {id}")?;
    for code in codes {
        write!(out, " {code}")?;
    }
    writeln!(out)?;
    Ok(())
}

/// Writes the line of a packet. Its texts are made before any of it is written, so that where memory is refused
/// nothing of it stands before the fault.
fn packet_line<W: Write>(alloc: Global, out: &mut W, packet: Packet) -> Result<(), Stop> {
    match packet {
        Packet::Connect {
            client,
            clean,
            keep,
            will,
        } => connect_line(alloc, out, client, clean, keep, will)?,
        Packet::ConnAck { present, code } => writeln!(
            out,
            "CONNACK present {present} code {code}"
        )?,
        Packet::Publish {
            dup,
            qos,
            retain,
            topic,
            id,
            payload,
        } => {
            let names = named_by(alloc, topic.as_str())?;
            let topic = json_text(alloc, topic)?;
            let id = OrDash(id);
            let payload = hex_text(alloc, &payload)?;
            write!(
                out,
                "PUBLISH topic {topic} qos {qos} retain {retain} dup {dup} "
            )?;
            writeln!(out, "id {id} {payload}{names}")?;
        }
        Packet::PubAck { id } => writeln!(out, "PUBACK {id}")?,
        Packet::Subscribe { id, filters } => filters_line(alloc, out, id, filters)?,
        Packet::SubAck { id, codes } => codes_line(out, id, &codes)?,
        Packet::Unsubscribe { id, filters } => texts_line(alloc, out, id, filters)?,
        Packet::UnsubAck { id } => writeln!(out, "UNSUBACK {id}")?,
        Packet::PingReq => writeln!(out, "PINGREQ")?,
        Packet::PingResp => writeln!(out, "PINGRESP")?,
        Packet::Disconnect => writeln!(out, "DISCONNECT")?,
    }
    Ok(())
}

/// The packet at the front of what begins at this byte, and its length; of a fault the notes tell the place. A note
/// that can't be written is left out.
fn decode_noting<N: Write>(
    alloc: Global,
    notes: &mut N,
    bytes: &[u8],
    at: usize,
) -> Result<(Packet, usize), Stop> {
    match decode(alloc, bytes) {
        Ok(found) => Ok(found),
        Err(PacketFault::NoMemory) => Err(Stop::no_memory()),
        Err(fault) => {
            let count = at.saturating_add(bytes.len());
            let _ = writeln!(
                notes,
                "sparkplug: {fault} in the packet at byte {at} of {count}"
            );
            Err(Stop::from(fault))
        }
    }
}

/// Prints the packets that the hexadecimal digits spell, from the front until they end or a fault comes.
pub(crate) fn packets<W: Write, N: Write>(
    alloc: Global,
    out: &mut W,
    notes: &mut N,
    digits: &str,
) -> Result<(), Stop> {
    let bytes = bytes_of(alloc, digits)?;
    let mut rest = bytes.as_slice();
    // a packet takes a byte at least
    for _ in 0..bytes.len() {
        if rest.is_empty() {
            break;
        }
        let at = bytes.len().saturating_sub(rest.len());
        let (packet, count) = decode_noting(alloc, notes, rest, at)?;
        packet_line(alloc, out, packet)?;
        rest = rest.get(count..).unwrap_or(&[]);
    }
    Ok(())
}
