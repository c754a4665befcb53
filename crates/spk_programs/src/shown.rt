//! What a page shows of a node's view.

use crate::ages::Ages;
use spk_host::Entry;
use spk_host_rules::Shown as HostShown;
use spk_page::{Metric, Shown};
use spk_payload::{Value, Values};
use spk_view::MetricView;
use std::alloc::{AllocError, Global};

/// What is shown of a metric.
fn shown_of(row: &MetricView) -> Shown<'_> {
    match row.shown_by(Values::All) {
        HostShown::Nothing => Shown::Nothing,
        HostShown::Other => Shown::Other,
        HostShown::Typed(value) => match value {
            Value::Signed(number) => Shown::Signed(*number),
            Value::Unsigned(number) => Shown::Unsigned(*number),
            Value::Flag(flag) => Shown::Flag(*flag),
            Value::Words(words) => Shown::Words(words.as_str()),
            Value::Octets(octets) => Shown::Octets(octets.as_slice()),
            Value::Float(bits) => Shown::Float(*bits),
            Value::Double(bits) => Shown::Double(*bits),
        },
    }
}

/// The metrics of these rows.
pub(crate) fn metrics_of<'a>(
    alloc: Global,
    rows: &'a [MetricView],
    ages: Option<&Ages>,
) -> Result<Vec<Metric<'a>>, AllocError> {
    let mut metrics = Vec::new(alloc);
    for (place, row) in rows.iter().enumerate() {
        metrics.push(Metric {
            name: row.name(),
            alias: row.alias(),
            datatype: row.datatype(),
            shown: shown_of(row),
            at: ages.and_then(|ages| ages.at(place)),
        })?;
    }
    Ok(metrics)
}

/// The names of the devices that are offline.
pub(crate) fn down_of<'a>(alloc: Global, entry: &'a Entry) -> Result<Vec<&'a str>, AllocError> {
    let mut down = Vec::new(alloc);
    if let Some(view) = entry.kept().view() {
        for device in view.devices() {
            if !device.is_online() {
                down.push(device.name())?;
            }
        }
    }
    Ok(down)
}
