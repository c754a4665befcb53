//! The edge nodes of a file.
ghost use Rattle.std.specs.Prelude.{◌≡◌, ◌≤◌, true, IfOk, length};
ghost use Rattle.std.specs.String.{string_bytes};
ghost use Rattle.spk_topics.specs.Spark.{is_name};

use crate::metrics::{registry_of, values_of};
use crate::misfit::{Cause, Misfit};
use crate::names::name_of;
use crate::part::Part;
use serde_json::Value as Json;
use spk_device::Registry;
use spk_edge::{EdgeConfig, Numbering};
use spk_payload::Values;
use std::alloc::Global;

/// The most nodes of a file.
pub const MOST_NODES: usize = 16;
/// The most changes that a node may keep.
pub(crate) const MOST_KEPT: u64 = 4_096;

const NODE: [&str; 7] = [
    "group",
    "node",
    "primary",
    "capacity",
    "devices",
    "metrics",
    "numbering",
];

const EDGE: [&str; 9] = [
    "group",
    "node",
    "primary",
    "capacity",
    "devices",
    "metrics",
    "numbering",
    "keep",
    "values",
];

/// A node with its devices and metrics.
pub type Setup = (EdgeConfig, Registry);

/// The primary host, or null.
fn primary_of(alloc: Global, part: Part<'_>) -> Result<Option<String>, Misfit> {
    match part.json {
        Json::Null => Ok(None),
        _ => Ok(Some(name_of(alloc, part)?)),
    }
}

/// How sequence numbers count: they run on where nothing is said.
fn numbering_of(part: Option<Part<'_>>) -> Result<Numbering, Misfit> {
    let Some(part) = part else {
        return Ok(Numbering::RunsOn);
    };
    match part.text()? {
        "runs on" => Ok(Numbering::RunsOn),
        "restarts" => Ok(Numbering::Restarts),
        _ => Err(part.wrong(Cause::Not("\"runs on\" or \"restarts\""))),
    }
}

/// What a node is.
fn config_of(alloc: Global, part: Part<'_>) -> Result<EdgeConfig, Misfit>
    ensures group { IfOk result (λ c. is_name (string_bytes c.group) ≡ true) }
    ensures node { IfOk result (λ c. is_name (string_bytes c.node) ≡ true) }
    ensures least { IfOk result (λ c. 1 ≤ c.capacity) }
    ensures most { IfOk result (λ c. c.capacity ≤ 4096) }
{
    Ok(EdgeConfig {
        group: name_of(alloc, part.member("group")?)?,
        node: name_of(alloc, part.member("node")?)?,
        primary: primary_of(alloc, part.member("primary")?)?,
        keep: 0,
        capacity: part.member("capacity")?.number(1, MOST_KEPT)? as usize,
        numbering: numbering_of(part.find("numbering"))?,
    })
}

/// A node, with these values.
fn node_of(alloc: Global, part: Part<'_>, values: Values) -> Result<Setup, Misfit> {
    part.only(alloc, &NODE)?;
    let config = config_of(alloc, part)?;
    let registry = registry_of(alloc, part, values)?;
    Ok((config, registry))
}

/// The node of an edge node's file: its numbers restart, its keep alive is this, and it has all values, where nothing is said of them.
pub(crate) fn edge_node_of(alloc: Global, part: Part<'_>, keep: u16) -> Result<Setup, Misfit>
    ensures group { IfOk result (λ r. is_name (string_bytes r.0.group) ≡ true) }
    ensures node { IfOk result (λ r. is_name (string_bytes r.0.node) ≡ true) }
    ensures least { IfOk result (λ r. 1 ≤ r.0.capacity) }
    ensures most { IfOk result (λ r. r.0.capacity ≤ 4096) }
{
    part.only(alloc, &EDGE)?;
    let mut config = config_of(alloc, part)?;
    if part.find("numbering").is_none() {
        config.numbering = Numbering::Restarts;
    }
    config.keep = match part.find("keep") {
        Some(keep) => keep.number(0, 65_535)? as u16,
        None => keep,
    };
    let registry = registry_of(alloc, part, values_of(part, Values::All)?)?;
    Ok((config, registry))
}

/// Whether a node of that group and name is there.
fn is_there(setups: &[Setup], config: &EdgeConfig) -> bool {
    setups.iter().any(|(other, _registry)| {
        other.group.as_str() == config.group.as_str() && other.node.as_str() == config.node.as_str()
    })
}

/// The nodes of a file, 0 to 16, no two of one group and name, with these values.
pub(crate) fn nodes_of(alloc: Global, part: Part<'_>, values: Values) -> Result<Vec<Setup>, Misfit>
    ensures { IfOk result (λ ns. length ns.items ≤ 16) }
{
    let mut setups = Vec::new(alloc);
    for index in 0..part.items(MOST_NODES)?.len() {
        let node = part.item(index)?;
        let setup = node_of(alloc, node, values)?;
        if is_there(&setups, &setup.0) {
            return Err(node.wrong(Cause::Namesake));
        }
        setups.push(setup)?;
    }
    Ok(setups)
}
