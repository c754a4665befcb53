//! Adding devices and metrics.
ghost use Rattle.std.specs.Prelude.{◌≡◌, ◌+◌, length, None, OnOk, OnErr, IfOk, IfErr, Some, string_bytes};
ghost use Rattle.std.specs.List.{list_any};
ghost use Rattle.std.specs.Option.{option_map};
ghost use Rattle.spk_payload.specs.Typing.{typed_view};
ghost use Rattle.spk_device.specs.declared.owner.Owner.TheVariants as owner;
ghost use Rattle.spk_device.specs.Fault.{IsDue};
ghost use Rattle.spk_device.specs.Step as step;

use crate::device::Device;
use crate::fault::{DeviceFault, Refusal};
use crate::gauge::Gauge;
use crate::names::enter_with;
use crate::owner::Owner;
use crate::registry::{Alias, Registry};
use crate::values::{is_of, is_written};
use spk_names::Names;
use spk_payload::Value;
use std::alloc::AllocError;

/// How many devices there may be (own rule).
const MOST_DEVICES: usize = 1_000;
/// How many metrics there may be (own rule).
const MOST_METRICS: usize = 10_000;

impl Registry {
    /// Adds a device, which is down.
    ///
    /// Refuses, in this order: Duplicate (40) for a name that a device has, Full (43) where there are 1,000, BadName (44) for
    /// a name that is empty or holds `+`, `/`, `#` or U+0000. Where it fails nothing has changed.
    pub fn add_device(&mut self, name: &str) -> Result<(), DeviceFault>
        ensures done { OnOk result (self.new ≡ step.with_device self.old name.now) }
        ensures accepted { OnOk result (step.add_device_refusal self.old name.now ≡ None) }
        ensures fault { IfErr result (IsDue (step.add_device_refusal self.old name.now)) }
        ensures err { OnErr result (self.new ≡ self.old) }
    {
        self.judge_device(name)?;
        self.push_device(name)
    }

    /// Adds a metric with its datatype and first value, and answers its alias: the count of metrics with it.
    ///
    /// Refuses, in this order: Duplicate (40) for a name that the owner has given to another metric, or that the node's own
    /// messages use (`bdSeq` and `Node Control/Rebirth`, own rule), NoSuch (41) for a device that isn't there, WrongKind (42)
    /// for a datatype that isn't written (Float 9 and Double 10 are by `Values::All` alone) or a value that isn't of it, Full (43) where there are 10,000, BadName (44) for an
    /// empty name. Where it fails nothing has changed.
    pub fn add_metric(
        &mut self,
        owner: Owner,
        name: &str,
        datatype: u32,
        value: Option<Value>,
    ) -> Result<Alias, DeviceFault>
        ensures alias { IfOk result (λ alias. alias ≡ length self.old.gauges + 1) }
        ensures done { OnOk result (self.new
            ≡ step.with_metric self.old owner name.now datatype (option_map typed_view value)) }
        ensures accepted { OnOk result (
            step.add_metric_refusal self.old owner name.now datatype (option_map typed_view value)
            ≡ None) }
        ensures fault { IfErr result (IsDue
            (step.add_metric_refusal self.old owner name.now datatype
            (option_map typed_view value))) }
        ensures err { OnErr result (self.new ≡ self.old) }
    {
        self.judge_metric(owner, name, datatype, &value)?;
        self.push_metric(owner, name, datatype, value)
    }

    fn judge_device(&self, name: &str) -> Result<(), Refusal>
        ensures accepted { OnOk result (step.add_device_refusal self.now name.now ≡ None) }
        ensures refused { IfErr result (λ r. step.add_device_refusal self.now name.now ≡ Some r) }
    {
        if self.device_number(name).is_some() {
            Err(Refusal::Duplicate)
        } else if self.device_count() >= MOST_DEVICES {
            Err(Refusal::Full)
        } else if name.is_empty() || has_barred(name) {
            Err(Refusal::BadName)
        } else {
            Ok(())
        }
    }

    fn judge_metric(
        &self,
        owner: Owner,
        name: &str,
        datatype: u32,
        value: &Option<Value>,
    ) -> Result<(), Refusal>
        ensures accepted { OnOk result (step.add_metric_refusal self.now owner name.now datatype
            (option_map typed_view value.now) ≡ None) }
        ensures refused { IfErr result
            (λ r. step.add_metric_refusal self.now owner name.now datatype
            (option_map typed_view value.now) ≡ Some r) }
    {
        if is_taken(name) || self.place_of(owner, name).is_some() {
            Err(Refusal::Duplicate)
        } else if self.table(owner).is_none() {
            Err(Refusal::NoSuch)
        } else if !is_written(self.values, datatype) || !is_of(datatype, value) {
            Err(Refusal::WrongKind)
        } else if self.metric_count() >= MOST_METRICS {
            Err(Refusal::Full)
        } else if name.is_empty() {
            Err(Refusal::BadName)
        } else {
            Ok(())
        }
    }

    fn push_device(&mut self, name: &str) -> Result<(), DeviceFault>
        requires { step.add_device_refusal self.old name.now ≡ None }
        ensures done { OnOk result (self.new ≡ step.with_device self.old name.now) }
        ensures fault { IfErr result (λ f. f ≡ DeviceFault.NoMemory) }
        ensures err { OnErr result (self.new ≡ self.old) }
    {
        let device = Device {
            name: String::from_str(self.alloc, name)?,
            up: false,
            metrics: Names::new(self.alloc),
        };
        let key = String::from_str(self.alloc, name)?;
        enter_with(&mut self.numbers, &mut self.devices, key, device)?;
        Ok(())
    }

    fn push_metric(
        &mut self,
        owner: Owner,
        name: &str,
        datatype: u32,
        value: Option<Value>,
    ) -> Result<Alias, DeviceFault>
        requires { step.add_metric_refusal self.old owner name.now datatype
            (option_map typed_view value) ≡ None }
        ensures alias { IfOk result (λ alias. alias ≡ length self.old.gauges + 1) }
        ensures done { OnOk result (self.new
            ≡ step.with_metric self.old owner name.now datatype (option_map typed_view value)) }
        ensures fault { IfErr result (λ f. f ≡ DeviceFault.NoMemory) }
        ensures err { OnErr result (self.new ≡ self.old) }
    {
        let gauge = Gauge {
            owner,
            name: String::from_str(self.alloc, name)?,
            datatype,
            value,
        };
        let key = String::from_str(self.alloc, name)?;
        match owner {
            Owner::Node => Ok(self.push_own(key, gauge)?),
            Owner::Device(number) => Ok(self.push_of_device(number, key, gauge)?),
        }
    }

    /// A metric of the node goes last.
    fn push_own(&mut self, name: String, gauge: Gauge) -> Result<Alias, AllocError>
        requires owner { gauge.owner ≡ owner.Node }
        requires name { string_bytes name ≡ string_bytes gauge.name }
        requires accepted { step.add_metric_refusal self.old gauge.owner (string_bytes gauge.name)
            gauge.datatype (option_map typed_view gauge.value) ≡ None }
        ensures alias { IfOk result (λ alias. alias ≡ length self.old.gauges + 1) }
        ensures done { OnOk result (self.new ≡ step.with_metric self.old gauge.owner
            (string_bytes gauge.name) gauge.datatype (option_map typed_view gauge.value)) }
        ensures err { OnErr result (self.new ≡ self.old) }
    {
        enter_with(&mut self.own, &mut self.gauges, name, gauge)?;
        Ok(self.gauges.len() as u64)
    }

    /// A metric of a device goes last.
    fn push_of_device(
        &mut self,
        number: usize,
        name: String,
        gauge: Gauge,
    ) -> Result<Alias, AllocError>
        requires owner { gauge.owner ≡ owner.Device number }
        requires name { string_bytes name ≡ string_bytes gauge.name }
        requires accepted { step.add_metric_refusal self.old gauge.owner (string_bytes gauge.name)
            gauge.datatype (option_map typed_view gauge.value) ≡ None }
        ensures alias { IfOk result (λ alias. alias ≡ length self.old.gauges + 1) }
        ensures done { OnOk result (self.new ≡ step.with_metric self.old gauge.owner
            (string_bytes gauge.name) gauge.datatype (option_map typed_view gauge.value)) }
        ensures err { OnErr result (self.new ≡ self.old) }
    {
        let device = &mut self.devices[number];
        enter_with(&mut device.metrics, &mut self.gauges, name, gauge)?;
        Ok(self.gauges.len() as u64)
    }
}

/// Whether a name is one that the node's own messages use.
fn is_taken(name: &str) -> bool
    ensures { result ≡ step.is_taken name.now }
{
    name == "bdSeq" || name == "Node Control/Rebirth"
}

/// Whether a name holds `+`, `/`, `#` or U+0000.
fn has_barred(name: &str) -> bool
    ensures { result ≡ list_any step.is_barred name.now }
{
    for byte in name.as_bytes() {
        if matches!(*byte, b'+' | b'/' | b'#' | 0) {
            return true;
        }
    }
    false
}
