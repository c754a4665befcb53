//! An edge node's file, and the lines that tell of its values.
ghost use Rattle.std.specs.Prelude.{◌≡◌, ◌≤◌, true, IfOk};
ghost use Rattle.std.specs.String.{string_bytes};
ghost use Rattle.spk_topics.specs.Spark.{is_name};

use crate::metrics::{datatype_of, owner_of};
use crate::misfit::{Cause, Misfit};
use crate::nodes::{Setup, edge_node_of};
use crate::part::Part;
use crate::text::json_of;
use crate::values::value_of;
use spk_device::{Alias, Owner, Registry};
use spk_payload::Value;
use std::alloc::{AllocError, Global};

/// The most items of a line that is a list.
const MOST_ITEMS: usize = 100_000;

/// The most values that are said together.
const MOST_TOGETHER: usize = 1_000;

/// The edge node that a file's text says: a node of a world's file, whose numbers restart at each birth where nothing is said, and with `keep`, its
/// keep alive in seconds, 0 to 65,535, which is `keep` where nothing is said (own rules).
pub fn edge_of(alloc: Global, text: &str, keep: u16) -> Result<Setup, Misfit>
    ensures group { IfOk result (λ r. is_name (string_bytes r.0.group) ≡ true) }
    ensures node { IfOk result (λ r. is_name (string_bytes r.0.node) ≡ true) }
    ensures least { IfOk result (λ r. 1 ≤ r.0.capacity) }
    ensures most { IfOk result (λ r. r.0.capacity ≤ 4096) }
{
    let json = json_of(alloc, text)?;
    edge_node_of(alloc, Part::file(&json), keep)
}

/// What a line says.
#[derive(Debug, Drop)]
pub enum Said {
    /// Metrics of one owner have these values, in this order: at least one, and at most 1,000 (own rule).
    Values(Vec<(Alias, Option<Value>)>),
    /// A device is up, or down.
    Device { name: String, up: bool },
}

/// One item of a line.
#[derive(Drop)]
enum Item {
    Value(Alias, Option<Value>),
    Device(String, bool),
}

const VALUE: [&str; 3] = ["device", "metric", "value"];

const DEVICE: [&str; 2] = ["device", "up"];

/// Whose a metric is: the node's, where no device is named.
fn owner_in(registry: &Registry, part: Part<'_>) -> Result<Owner, Misfit> {
    match part.find("device") {
        Some(device) => owner_of(registry, device),
        None => Ok(Owner::Node),
    }
}

/// A metric's alias, by its name.
fn alias_in(registry: &Registry, part: Part<'_>) -> Result<Alias, Misfit> {
    let owner = owner_in(registry, part)?;
    let metric = part.member("metric")?;
    match registry.alias_of(owner, metric.text()?) {
        Some(alias) => Ok(alias),
        None => Err(metric.wrong(Cause::NoMetric)),
    }
}

/// A metric's value.
fn value_said(alloc: Global, registry: &Registry, part: Part<'_>) -> Result<Item, Misfit> {
    part.only(alloc, &VALUE)?;
    let alias = alias_in(registry, part)?;
    let value = value_of(alloc, part.member("value")?, datatype_of(registry, alias))?;
    Ok(Item::Value(alias, value))
}

/// A device that is up, or down.
fn device_said(alloc: Global, registry: &Registry, part: Part<'_>) -> Result<Item, Misfit> {
    part.only(alloc, &DEVICE)?;
    let device = part.member("device")?;
    let text = device.text()?;
    if registry.device_number(text).is_none() {
        return Err(device.wrong(Cause::NoDevice));
    }
    let name = String::from_str(alloc, text)?;
    let up = part.member("up")?.flag()?;
    Ok(Item::Device(name, up))
}

/// One thing that is said.
fn said_in(alloc: Global, registry: &Registry, part: Part<'_>) -> Result<Item, Misfit> {
    if part.find("up").is_some() {
        device_said(alloc, registry, part)
    } else {
        value_said(alloc, registry, part)
    }
}

/// Whether two aliases are of one owner.
fn are_one_owners(registry: &Registry, one: Alias, other: Alias) -> bool {
    match (registry.metric(one), registry.metric(other)) {
        (Some(one), Some(other)) => one.owner == other.owner,
        _ => false,
    }
}

/// Whether a value is said with these.
fn goes_with(registry: &Registry, values: &Vec<(Alias, Option<Value>)>, alias: Alias) -> bool {
    match values.last() {
        Some(last) => values.len() < MOST_TOGETHER && are_one_owners(registry, last.0, alias),
        None => false,
    }
}

/// A value is said behind the others: with the last ones where these are of its owner.
fn put_value(
    alloc: Global,
    registry: &Registry,
    said: &mut Vec<Said>,
    alias: Alias,
    value: Option<Value>,
) -> Result<(), AllocError> {
    if let Some(Said::Values(values)) = said.last_mut() {
        if goes_with(registry, values, alias) {
            values.push((alias, value))?;
            return Ok(());
        }
    }
    let mut values = Vec::new(alloc);
    values.push((alias, value))?;
    said.push(Said::Values(values))?;
    Ok(())
}

/// One thing more is said.
fn put(
    alloc: Global,
    registry: &Registry,
    said: &mut Vec<Said>,
    item: Item,
) -> Result<(), AllocError> {
    match item {
        Item::Value(alias, value) => put_value(alloc, registry, said, alias, value),
        Item::Device(name, up) => {
            said.push(Said::Device { name, up })?;
            Ok(())
        }
    }
}

/// What a line says of a node with this registry, in order: `{"metric":"x","value":5}`, `{"device":"D","metric":"y","value":null}`,
/// `{"device":"D","up":true}`, or a list of such, at most 100,000 (own rules). Values of one owner that stand one behind the other are said together, at
/// most 1,000 (own rule). A value is as in a world's file.
pub fn line_of(alloc: Global, registry: &Registry, text: &str) -> Result<Vec<Said>, Misfit> {
    let json = json_of(alloc, text)?;
    let line = Part::file(&json);
    let mut said = Vec::new(alloc);
    if json.is_array() {
        for index in 0..line.items(MOST_ITEMS)?.len() {
            let item = said_in(alloc, registry, line.item(index)?)?;
            put(alloc, registry, &mut said, item)?;
        }
    } else {
        put(alloc, registry, &mut said, said_in(alloc, registry, line)?)?;
    }
    Ok(said)
}
