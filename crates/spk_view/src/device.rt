//! A device that is shown.
ghost use Rattle.std.specs.Prelude.{◌≡◌, map};
ghost use Rattle.std.specs.List.{find};
ghost use Rattle.std.specs.Option.{option_copied, option_map};
ghost use Rattle.std.specs.Prelude.{string_bytes};
ghost use Rattle.std.specs.Str.{bytes_eq};
ghost use Rattle.spk_payload.specs.View.{content_of, metric_view};
ghost use Rattle.spk_host_rules.specs.Table.{is_name, table_of};
ghost use Rattle.spk_view.specs.Plain.{texts_in};
ghost use Rattle.spk_view.specs.Prepared.{meaning};
ghost use Rattle.spk_host_rules.specs.Step.{dead_device, ended_device, is_device_lacking, rows_if_born, show_all, stale_device, unborn};
ghost use Rattle.std.specs.Prelude.{true, false, Some, IfOk, OnErr, if◌then◌else◌};

use crate::metric::MetricView;
use crate::table::Table;
use spk_payload::{Metric, Raw};
use std::alloc::{AllocError, Global};
use std::marker::Model;

/// A device of a node that a host shows (Sparkplug 3.0.0, chapters 5 and 6). Contracts see a `Device`.
#[derive(Debug, Drop)]
pub struct DeviceView {
    name: String,
    /// It had a DBIRTH since the node's last NBIRTH.
    born: bool,
    online: bool,
    stale: bool,
    table: Table,
}

impl Model for DeviceView {
    ghost use Rattle.std.specs.Prelude.{string_bytes};
    ghost use Rattle.spk_host_rules.specs.Data.{Device};

    ghost Value = { Device };

    ghost view = { λ a. record {
      name = string_bytes a.name;
      born = a.born;
      online = a.online;
      stale = a.stale;
      rows = a.table;
    } };
}

impl DeviceView {
    /// The device's name.
    pub fn name(&self) -> &str
        ensures { result.now ≡ self.now.name }
    {
        self.name.as_str()
    }

    /// Whether it was born and hasn't died since, nor has its node ended.
    pub fn is_online(&self) -> bool
        ensures { result ≡ self.now.online }
    {
        self.online
    }

    /// Whether its values are no longer current.
    pub fn is_stale(&self) -> bool
        ensures { result ≡ self.now.stale }
    {
        self.stale
    }

    /// Its metrics, in the order of its birth.
    pub fn metrics(&self) -> &[MetricView]
        ensures { result.now ≡ self.now.rows }
    {
        self.table.rows()
    }

    /// The metric of a name.
    pub fn metric(&self, name: &str) -> Option<&MetricView>
        ensures { option_copied result ≡ find (λ r. bytes_eq name.now r.name) self.now.rows }
    {
        self.table.find(name)
    }

    /// Its metric that a metric of data means: that of its alias or, without one, of its name (6.4.5).
    pub fn meant_by(&self, metric: &Metric) -> Option<&MetricView>
        ensures { option_copied result
            ≡ find (λ r. is_name (meaning self.now.rows (metric_view metric.now)) r.name)
            self.now.rows }
    {
        self.table.meant_by(metric)
    }

    /// A device as its birth shows it.
    pub(crate) fn born(name: String, table: Table, online: bool, stale: bool) -> DeviceView
        ensures { result ≡ record {
          name = string_bytes name;
          born = true;
          online = online;
          stale = stale;
          rows = table;
        } }
    {
        DeviceView {
            name,
            born: true,
            online,
            stale,
            table,
        }
    }

    /// A birth of it, where that has the names and the aliases of its metrics, in order. Answers whether it has them. Where it hasn't,
    /// or memory is refused, nothing has changed.
    pub(crate) fn bear(
        &mut self,
        alloc: Global,
        metrics: &[Metric],
        online: bool,
        stale: bool,
    ) -> Result<bool, AllocError>
        ensures born { IfOk result (λ is. is ≡ true → self.new ≡ record {
          name = self.old.name;
          born = true;
          online = online;
          stale = stale;
          rows = table_of (map metric_view metrics.now);
        }) }
        ensures name { self.new.name ≡ self.old.name }
        ensures other { IfOk result (λ is. is ≡ false → self.new ≡ self.old) }
        ensures unchanged { OnErr result (self.new ≡ self.old) }
    {
        let is_born = self.table.bear(alloc, metrics)?;
        if is_born {
            self.born = true;
            self.online = online;
            self.stale = stale;
        }
        Ok(is_born)
    }

    /// Whether its name is this one.
    pub(crate) fn is_named(&self, name: &str) -> bool
        ensures { result ≡ bytes_eq name.now self.now.name }
    {
        name == self.name.as_str()
    }

    /// Its node had a birth.
    pub(crate) fn unbear(&mut self)
        ensures { self.new ≡ unborn self.old }
    {
        self.born = false;
        self.online = false;
        self.stale = true;
    }

    /// Its node isn't followed.
    pub(crate) fn lose(&mut self)
        ensures { self.new ≡ stale_device self.old }
    {
        self.stale = true;
    }

    /// Its node has ended.
    pub(crate) fn end(&mut self)
        ensures { self.new ≡ ended_device self.old }
    {
        self.online = false;
        self.stale = true;
    }

    /// The device of this name died.
    pub(crate) fn hear_death(&mut self, name: &str)
        ensures { self.new ≡ dead_device name.now self.old }
    {
        if self.is_named(name) {
            self.online = false;
            self.stale = true;
        }
    }

    /// Data of it are shown, if it was born.
    pub(crate) fn show_all(&mut self, metrics: Vec<Metric>)
        ensures { self.new ≡ record self.old {
          rows = if self.old.born then show_all
              (map metric_view metrics.items) self.old.rows else self.old.rows;
        } }
    {
        if self.born {
            self.table.show_all(metrics);
        }
    }

    /// The same with these texts and bytes, the data's own. Answers whether it wasn't born, or a metric names an alias that it lacks.
    pub(crate) fn show_each(&mut self, metrics: &[Metric], texts: &mut [Option<Raw>]) -> bool
        requires { map (option_map content_of) texts.old ≡ texts_in (map metric_view metrics.now) }
        ensures lacking { result
            ≡ is_device_lacking (rows_if_born (Some self.old)) (map metric_view metrics.now) }
        ensures shown { self.new ≡ record self.old {
          rows = if self.old.born then show_all
              (map metric_view metrics.now) self.old.rows else self.old.rows;
        } }
    {
        !self.born || self.table.show_each(metrics, texts)
    }

    /// Whether it wasn't born, or a metric names an alias that it lacks.
    pub(crate) fn is_lacking(&self, metrics: &[Metric]) -> bool
        ensures { result
            ≡ is_device_lacking (rows_if_born (Some self.now)) (map metric_view metrics.now) }
    {
        !self.born || self.table.is_lacking(metrics)
    }
}

/// Their node had a birth.
pub(crate) fn unbear_all(devices: &mut [DeviceView])
    ensures { devices.new ≡ map unborn devices.old }
{
    for device in devices.iter_mut() {
        device.unbear();
    }
}

/// Their node isn't followed.
pub(crate) fn lose_all(devices: &mut [DeviceView])
    ensures { devices.new ≡ map stale_device devices.old }
{
    for device in devices.iter_mut() {
        device.lose();
    }
}

/// Their node has ended.
pub(crate) fn end_all(devices: &mut [DeviceView])
    ensures { devices.new ≡ map ended_device devices.old }
{
    for device in devices.iter_mut() {
        device.end();
    }
}

/// The device of this name died.
pub(crate) fn hear_death(devices: &mut [DeviceView], name: &str)
    ensures { devices.new ≡ map (dead_device name.now) devices.old }
{
    for device in devices.iter_mut() {
        device.hear_death(name);
    }
}
