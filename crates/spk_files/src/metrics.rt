//! The devices and metrics of a file's node.

use crate::misfit::{Cause, Misfit};
use crate::part::Part;
use crate::reals::read_as;
use crate::values::value_of;
use spk_device::{Alias, Owner, Registry};
use spk_payload::Values;
use std::alloc::Global;

/// The greatest number of a datatype.
const MOST_TYPE: u64 = 4_294_967_295;

const METRIC: [&str; 4] = ["device", "name", "type", "value"];

/// Adds a node's devices, in order.
fn add_devices(registry: &mut Registry, part: Part<'_>) -> Result<(), Misfit> {
    for index in 0..part.items(usize::MAX)?.len() {
        let device = part.item(index)?;
        if let Err(fault) = registry.add_device(device.text()?) {
            return Err(Misfit::of_registry(device.place, fault));
        }
    }
    Ok(())
}

/// Whose a metric is: a device's, by its name, or the node's where it is null.
pub(crate) fn owner_of(registry: &Registry, part: Part<'_>) -> Result<Owner, Misfit> {
    if part.json.is_null() {
        return Ok(Owner::Node);
    }
    match registry.device_number(part.text()?) {
        Some(number) => Ok(Owner::Device(number)),
        None => Err(part.wrong(Cause::NoDevice)),
    }
}

/// Adds a metric.
fn add_metric(alloc: Global, registry: &mut Registry, part: Part<'_>) -> Result<(), Misfit> {
    part.only(alloc, &METRIC)?;
    let owner = owner_of(registry, part.member("device")?)?;
    let name = part.member("name")?.text()?;
    let datatype = part.member("type")?.number(0, MOST_TYPE)? as u32;
    let read = read_as(registry.values(), datatype);
    let value = value_of(alloc, part.member("value")?, read)?;
    match registry.add_metric(owner, name, datatype, value) {
        Ok(_alias) => Ok(()),
        Err(fault) => Err(Misfit::of_registry(part.place, fault)),
    }
}

/// Adds a node's metrics, in order: their aliases count from 1.
fn add_metrics(alloc: Global, registry: &mut Registry, part: Part<'_>) -> Result<(), Misfit> {
    for index in 0..part.items(usize::MAX)?.len() {
        add_metric(alloc, registry, part.item(index)?)?;
    }
    Ok(())
}

/// Which values metrics may have: all, or whole values alone; what is given where nothing is said (own rule).
pub(crate) fn values_of(part: Part<'_>, default: Values) -> Result<Values, Misfit> {
    let Some(part) = part.find("values") else {
        return Ok(default);
    };
    match part.text()? {
        "whole" => Ok(Values::Whole),
        "all" => Ok(Values::All),
        _ => Err(part.wrong(Cause::Not("\"whole\" or \"all\""))),
    }
}

/// The devices and metrics of a node, with these values.
pub(crate) fn registry_of(
    alloc: Global,
    part: Part<'_>,
    values: Values,
) -> Result<Registry, Misfit> {
    let mut registry = Registry::with_values(alloc, values);
    add_devices(&mut registry, part.member("devices")?)?;
    add_metrics(alloc, &mut registry, part.member("metrics")?)?;
    Ok(registry)
}

/// The datatype of a metric, by its alias; 0 where there is none.
pub(crate) fn datatype_of(registry: &Registry, alias: Alias) -> u32 {
    match registry.metric(alias) {
        Some(gauge) => gauge.datatype,
        None => 0,
    }
}
