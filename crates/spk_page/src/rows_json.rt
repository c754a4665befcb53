//! Nodes as JSON.
ghost use Rattle.std.specs.Prelude.{◌≡◌, IfOk, map};
ghost use Rattle.serde_json.specs.Data.{array, string};
ghost use Rattle.serde_json.specs.Read.{read};
ghost use Rattle.serde_json.specs.View.{items_of, view};
ghost use Rattle.spk_page.specs.Rows.{device_data, devices_data, metric_data, metrics_data, row_data, whole_data};

use crate::holes_json::{counts_value, holes_value, maybe_hole, maybe_value, values_value};
use crate::node::{Device, Metric, Node, Whole};
use crate::values_json::shown_value;
use serde_json::{Value, json};
use std::alloc::{AllocError, Global};

/// Names, in their order.
fn names_value(alloc: Global, names: &[&str]) -> Result<Value, AllocError>
    ensures { IfOk result (λ v. view v ≡ array (items_of (map (λ d. string d.now) names.now))) }
{
    let mut items = Vec::new(alloc);
    for name in names {
        items.push(Value::try_from_str(alloc, name)?)?;
    }
    Ok(Value::Array(items))
}

/// A node's row.
pub(crate) fn row_value(alloc: Global, node: &Node<'_>) -> Result<Value, AllocError>
    ensures { IfOk result (λ v. view v ≡ row_data node.now) }
{
    let born = maybe_value(node.born_at);
    let counts = counts_value(alloc, node.counts)?;
    let down = names_value(alloc, node.down.as_slice())?;
    let hole = maybe_hole(alloc, node.hole)?;
    let used = maybe_value(node.used_at);
    let values = values_value(alloc, node.values)?;
    json!(in alloc; {
        "born": born,
        "counts": counts,
        "down": down,
        "group": node.group,
        "hole": hole,
        "i": node.place,
        "look": node.look.word(),
        "node": node.name,
        "since": node.since,
        "used": used,
        "values": values
    })
}

/// A metric.
fn metric_value(alloc: Global, metric: &Metric<'_>) -> Result<Value, AllocError>
    ensures { IfOk result (λ v. view v ≡ metric_data metric.now) }
{
    let alias = maybe_value(metric.alias);
    let at = maybe_value(metric.at);
    let datatype = maybe_value(metric.datatype.map(u64::from));
    let shown = shown_value(alloc, metric.datatype, metric.shown)?;
    json!(in alloc; {
        "alias": alias,
        "at": at,
        "name": metric.name,
        "type": datatype,
        "value": shown
    })
}

/// Metrics, in their order.
fn metrics_value(alloc: Global, metrics: &[Metric<'_>]) -> Result<Value, AllocError>
    ensures { IfOk result (λ v. view v ≡ metrics_data metrics.now) }
{
    let mut items = Vec::new(alloc);
    for metric in metrics {
        items.push(metric_value(alloc, metric)?)?;
    }
    Ok(Value::Array(items))
}

/// A device.
fn device_value(alloc: Global, device: &Device<'_>) -> Result<Value, AllocError>
    ensures { IfOk result (λ v. view v ≡ device_data device.now) }
{
    let metrics = metrics_value(alloc, device.metrics.as_slice())?;
    json!(in alloc; {
        "metrics": metrics,
        "name": device.name,
        "online": device.is_online,
        "stale": device.is_stale
    })
}

/// Devices, in their order.
fn devices_value(alloc: Global, devices: &[Device<'_>]) -> Result<Value, AllocError>
    ensures { IfOk result (λ v. view v ≡ devices_data devices.now) }
{
    let mut items = Vec::new(alloc);
    for device in devices {
        items.push(device_value(alloc, device)?)?;
    }
    Ok(Value::Array(items))
}

/// A node, whole.
pub(crate) fn whole_value(alloc: Global, node: &Whole<'_>) -> Result<Value, AllocError>
    ensures { IfOk result (λ v. view v ≡ whole_data node.now) }
{
    let devices = devices_value(alloc, node.devices.as_slice())?;
    let holes = holes_value(alloc, node.holes)?;
    let metrics = metrics_value(alloc, node.metrics.as_slice())?;
    let row = row_value(alloc, &node.row)?;
    json!(in alloc; {"devices": devices, "holes": holes, "metrics": metrics, "row": row})
}
