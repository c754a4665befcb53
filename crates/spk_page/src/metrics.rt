//! The text of Prometheus, version 0.0.4.

use crate::head::Head;
use crate::look::Look;
use crate::node::Node;
use crate::totals::{Looks, Totals};
use std::alloc::{AllocError, Global};

/// A figure that is told of each node.
#[derive(Clone, Copy)]
enum Told {
    Current,
    Values,
    CurrentValues,
    DevicesDown,
    Messages,
    Births,
    Deaths,
    Gaps,
    Missing,
    Unused,
    Requests,
    LastBirth,
    LastMessage,
}

/// The figures that are told of each node: with their names, whether they only grow, and what they are.
const TOLD: [(Told, &str, &str, &str); 13] = [
    (
        Told::Current,
        "current",
        "gauge",
        "1 where the node's values are current.",
    ),
    (
        Told::Values,
        "values",
        "gauge",
        "Values of the node and its devices.",
    ),
    (
        Told::CurrentValues,
        "values_current",
        "gauge",
        "Values that are current.",
    ),
    (
        Told::DevicesDown,
        "devices_offline",
        "gauge",
        "Devices that are offline.",
    ),
    (
        Told::Messages,
        "messages_total",
        "counter",
        "Messages that were used.",
    ),
    (
        Told::Births,
        "births_total",
        "counter",
        "Births that were used.",
    ),
    (
        Told::Deaths,
        "deaths_total",
        "counter",
        "Deaths of the session that was followed.",
    ),
    (Told::Gaps, "gaps_total", "counter", "Gaps in the order."),
    (
        Told::Missing,
        "messages_missing_total",
        "counter",
        "Messages that are known not to have come.",
    ),
    (
        Told::Unused,
        "messages_unused_total",
        "counter",
        "Messages that came and weren't used.",
    ),
    (
        Told::Requests,
        "rebirth_requests_total",
        "counter",
        "Rebirths that were asked for.",
    ),
    (
        Told::LastBirth,
        "last_birth_seconds",
        "gauge",
        "When a birth was used last, in seconds since 1970; 0 where none was.",
    ),
    (
        Told::LastMessage,
        "last_message_seconds",
        "gauge",
        "When a message was used last, in seconds since 1970; 0 where none was.",
    ),
];

/// A figure of a node.
fn figure_of(told: Told, node: &Node<'_>) -> u64 {
    match told {
        Told::Current => u64::from(node.look == Look::Current),
        Told::Values => node.values.all as u64,
        Told::CurrentValues => node.values.current as u64,
        Told::DevicesDown => node.down.len() as u64,
        Told::Messages => node.counts.used,
        Told::Births => node.counts.births,
        Told::Deaths => node.counts.deaths,
        Told::Gaps => node.counts.gaps,
        Told::Missing => node.counts.missing,
        Told::Unused => node.counts.unused,
        Told::Requests => node.counts.requests,
        Told::LastBirth => node.born_at.unwrap_or(0) / 1_000,
        Told::LastMessage => node.used_at.unwrap_or(0) / 1_000,
    }
}

/// A label's value: a backslash, a quotation mark and the end of a line stand behind a backslash.
fn put_label(out: &mut String, text: &str) -> Result<(), AllocError> {
    for c in text.chars() {
        match c {
            '"' => out.push_str("\\\"")?,
            '\\' => out.push_str("\\\\")?,
            '\n' => out.push_str("\\n")?,
            c => out.push(c)?,
        }
    }
    Ok(())
}

/// What a figure is, and whether it only grows.
fn put_head(out: &mut String, name: &str, kind: &str, help: &str) -> Result<(), AllocError> {
    write!(
        out,
        "# HELP juldremm_host_{name} {help}\n# TYPE juldremm_host_{name} {kind}\n"
    )
}

/// A figure of a node.
fn put_node(out: &mut String, name: &str, node: &Node<'_>, figure: u64) -> Result<(), AllocError> {
    write!(out, "juldremm_host_node_{name}{{group=\"")?;
    put_label(out, node.group)?;
    out.push_str("\",node=\"")?;
    put_label(out, node.name)?;
    write!(out, "\"}} {figure}\n")
}

/// A figure of each node.
fn put_nodes(
    out: &mut String,
    nodes: &[Node<'_>],
    told: Told,
    name: &str,
    kind: &str,
    help: &str,
) -> Result<(), AllocError> {
    write!(out, "# HELP juldremm_host_node_{name} {help}\n")?;
    write!(out, "# TYPE juldremm_host_node_{name} {kind}\n")?;
    for node in nodes {
        put_node(out, name, node, figure_of(told, node))?;
    }
    Ok(())
}

/// How many nodes are shown in which way.
fn put_looks(out: &mut String, looks: Looks) -> Result<(), AllocError> {
    put_head(out, "nodes", "gauge", "Nodes by how they are shown.")?;
    let rows = [
        (Look::Unborn, looks.unborn),
        (Look::Current, looks.current),
        (Look::Silent, looks.silent),
        (Look::Lost, looks.lost),
        (Look::Offline, looks.offline),
        (Look::Away, looks.away),
    ];
    for (look, count) in rows {
        let word = look.word();
        write!(out, "juldremm_host_nodes{{look=\"{word}\"}} {count}\n")?;
    }
    Ok(())
}

/// What all nodes come to, and the figures of each, as Prometheus reads them. Refused only where memory is.
pub fn metrics_text(alloc: Global, head: Head, nodes: &[Node<'_>]) -> Result<String, AllocError> {
    let mut out = String::new(alloc);
    let totals = Totals::of(nodes);
    let connected = u8::from(head.is_connected);
    let help = "1 where there is a connection with a broker.";
    put_head(&mut out, "connected", "gauge", help)?;
    write!(out, "juldremm_host_connected {connected}\n")?;
    put_looks(&mut out, totals.looks)?;
    for (told, name, kind, help) in TOLD {
        put_nodes(&mut out, nodes, told, name, kind, help)?;
    }
    Ok(out)
}
