//! A node that is shown.
ghost use Rattle.std.specs.Prelude.{◌≡◌, ◌+◌, ◌-◌, ◌≤◌, ◌<◌, [], false, true, map, not, IfOk, OnOk, OnErr, IfSome, IfNone, Some, None, string_bytes, if◌then◌else◌};
ghost use Rattle.std.specs.List.{find};
ghost use Rattle.std.specs.Option.{option_copied, option_map};
ghost use Rattle.std.specs.Str.{bytes_eq};
ghost use Rattle.spk_payload.specs.View.{content_of, metric_view};
ghost use Rattle.spk_host_rules.specs.Step as rules;
ghost use Rattle.spk_host_rules.specs.Table.{is_lacking, is_name, table_of};
ghost use Rattle.spk_view.specs.Indexed.{IsPlaceOf};
ghost use Rattle.spk_view.specs.Inside.{body_view};
ghost use Rattle.spk_view.specs.Plain.{texts_in};
ghost use Rattle.spk_view.specs.Prepared.{meaning, born_with, device_with, has_device, is_new, view_by};

use crate::device::{DeviceView, end_all, hear_death, lose_all, unbear_all};
use crate::metric::MetricView;
use crate::ready::Body;
use crate::table::Table;
use spk_payload::{Metric, Raw};
use std::alloc::{AllocError, Global};
use std::marker::Model;

/// A node that a host shows, with its devices (Sparkplug 3.0.0, chapters 5 and 6). Contracts see a `Node`: the `View` and
/// for how many more devices there is room.
#[derive(Debug, Drop)]
pub struct NodeView {
    online: bool,
    stale: bool,
    table: Table,
    devices: Vec<DeviceView>,
}

impl Model for NodeView {
    ghost use Rattle.std.specs.Prelude.{◌-◌, vec_capacity, vec_len};
    ghost use Rattle.spk_view.specs.Data.{Node};
    ghost use Rattle.spk_view.specs.Indexed.{device_name, IsApart};

    ghost Value = { Node };

    ghost view = { λ a. record {
      view = record { online = a.online; stale = a.stale; rows = a.table; devices = a.devices.items };
      room = vec_capacity a.devices - vec_len a.devices;
    } };

    ghost invariant = { λ a. IsApart device_name a.devices.items };
}

impl NodeView {
    /// Whether a birth was taken, and no end came since.
    pub fn is_online(&self) -> bool
        ensures { result ≡ self.now.view.online }
    {
        self.online
    }

    /// Whether the values of the node's own metrics are no longer current.
    pub fn is_stale(&self) -> bool
        ensures { result ≡ self.now.view.stale }
    {
        self.stale
    }

    /// The node's own metrics, in the order of its birth.
    pub fn metrics(&self) -> &[MetricView]
        ensures { result.now ≡ self.now.view.rows }
    {
        self.table.rows()
    }

    /// The node's own metric of a name.
    pub fn metric(&self, name: &str) -> Option<&MetricView>
        ensures { option_copied result ≡ find (λ r. bytes_eq name.now r.name) self.now.view.rows }
    {
        self.table.find(name)
    }

    /// The node's own metric that a metric of data means: that of its alias or, without one, of its name (6.4.5).
    pub fn meant_by(&self, metric: &Metric) -> Option<&MetricView>
        ensures { option_copied result
            ≡ find (λ r. is_name (meaning self.now.view.rows (metric_view metric.now)) r.name)
            self.now.view.rows }
    {
        self.table.meant_by(metric)
    }

    /// The devices, in the order of their first births.
    pub fn devices(&self) -> &[DeviceView]
        ensures { result.now ≡ self.now.view.devices }
    {
        &self.devices
    }

    /// The device of a name. The cost is that of going over the devices.
    pub fn device(&self, name: &str) -> Option<&DeviceView>
        ensures { option_copied result
            ≡ find (λ d. bytes_eq name.now d.name) self.now.view.devices }
    {
        let place = self.place_of(name)?;
        self.devices.get(place)
    }

    /// The place of the device of a name.
    fn place_of(&self, name: &str) -> Option<usize>
        ensures { IsPlaceOf (λ d. bytes_eq name.now d.name) self.now.view.devices result }
    {
        for (place, device) in self.devices.iter().enumerate() {
            if device.is_named(name) {
                return Some(place);
            }
        }
        None
    }

    /// Before the first birth. Takes no memory.
    pub(crate) fn new(alloc: Global) -> NodeView
        ensures { result.view ≡ record { online = false; stale = true; rows = []; devices = [] } }
    {
        NodeView {
            online: false,
            stale: true,
            table: Table::new(alloc),
            devices: Vec::new(alloc),
        }
    }

    /// Makes room for so many more devices.
    pub(crate) fn reserve(&mut self, count: usize) -> Result<(), AllocError>
        ensures room { OnOk result (count ≤ self.new.room) }
        ensures more { self.old.room ≤ self.new.room }
        ensures same { OnErr result (self.new ≡ self.old) }
        ensures view { self.new.view ≡ self.old.view }
    {
        self.devices.reserve(count)
    }

    /// Whether the device of a name would need room that isn't there.
    pub(crate) fn is_full_for(&self, name: &str) -> bool
        ensures full { result ≡ true
            → (has_device name.now self.now.view.devices ≡ false) × (self.now.room ≡ 0) }
        ensures not_full { result ≡ false → has_device name.now self.now.view.devices ≡ false
            → 0 < self.now.room }
    {
        self.devices.len() >= self.devices.capacity() && self.place_of(name).is_none()
    }

    /// A message is shown.
    pub(crate) fn take(&mut self, body: Body)
        requires { is_new (body_view body) self.old.view ≡ true → 0 < self.old.room }
        ensures view { Some self.new.view ≡ view_by (Some self.old.view) (body_view body) }
        ensures room { self.new.room + (if is_new (body_view body) self.old.view then 1 else 0)
            ≡ self.old.room }
    {
        match body {
            Body::NodeBirth(table) => self.bear(table),
            Body::NodeData(metrics) => self.show_all(metrics),
            Body::DeviceBirth(name, table) => self.bear_device(name, table),
            Body::DeviceData(name, metrics) => self.show_all_of(name.as_str(), metrics),
            Body::DeviceDeath(name) => self.hear_death(name.as_str()),
        }
    }

    /// The node had a birth.
    fn bear(&mut self, table: Table)
        ensures view { self.new.view ≡ born_with table self.old.view.devices }
        ensures room { self.new.room ≡ self.old.room }
    {
        self.table = table;
        self.begin();
    }

    /// The node's metrics are those of its birth.
    fn begin(&mut self)
        ensures view { self.new.view ≡ born_with self.old.view.rows self.old.view.devices }
        ensures room { self.new.room ≡ self.old.room }
    {
        self.online = true;
        self.stale = false;
        unbear_all(&mut self.devices);
    }

    /// The node had a birth, where that has the names and the aliases of its metrics, in order. Answers whether it has them. Where it
    /// hasn't, or memory is refused, nothing has changed.
    pub(crate) fn bear_again(
        &mut self,
        alloc: Global,
        metrics: &[Metric],
    ) -> Result<bool, AllocError>
        ensures born { IfOk result (λ is. is ≡ true → self.new.view
            ≡ born_with (table_of (map metric_view metrics.now)) self.old.view.devices) }
        ensures room { self.new.room ≡ self.old.room }
        ensures other { IfOk result (λ is. is ≡ false → self.new ≡ self.old) }
        ensures unchanged { OnErr result (self.new ≡ self.old) }
    {
        let is_born = self.table.bear(alloc, metrics)?;
        if is_born {
            self.begin();
        }
        Ok(is_born)
    }

    /// Data of the node's own are shown.
    fn show_all(&mut self, metrics: Vec<Metric>)
        ensures view { self.new.view
            ≡ rules.node_changed (map metric_view metrics.items) self.old.view }
        ensures room { self.new.room ≡ self.old.room }
    {
        self.table.show_all(metrics);
    }

    /// The same with these texts and bytes, the data's own. Answers whether a metric names an alias that the node lacks.
    pub(crate) fn show_each(&mut self, metrics: &[Metric], texts: &mut [Option<Raw>]) -> bool
        requires { map (option_map content_of) texts.old ≡ texts_in (map metric_view metrics.now) }
        ensures lacking { result ≡ is_lacking self.old.view.rows (map metric_view metrics.now) }
        ensures view { self.new.view
            ≡ rules.node_changed (map metric_view metrics.now) self.old.view }
        ensures room { self.new.room ≡ self.old.room }
    {
        self.table.show_each(metrics, texts)
    }

    /// A device had a birth.
    fn bear_device(&mut self, name: String, table: Table)
        requires { has_device (string_bytes name) self.old.view.devices ≡ false
            → 0 < self.old.room }
        ensures view { self.new.view ≡ device_with (string_bytes name) table self.old.view }
        ensures known { has_device (string_bytes name) self.old.view.devices ≡ true
            → self.new.room ≡ self.old.room }
        ensures new { has_device (string_bytes name) self.old.view.devices ≡ false
            → self.new.room + 1 ≡ self.old.room }
    {
        let place = self.place_of(name.as_str());
        let device = DeviceView::born(name, table, self.online, self.stale);
        match place {
            Some(place) => self.devices[place] = device,
            None => self.devices.push_reserved(device),
        }
    }

    /// A device had a birth, where the node shows it, and the birth has the names and the aliases of its metrics, in order. Answers
    /// whether that is so. Where it isn't, or memory is refused, nothing has changed.
    pub(crate) fn bear_device_again(
        &mut self,
        alloc: Global,
        name: &str,
        metrics: &[Metric],
    ) -> Result<bool, AllocError>
        ensures born { IfOk result (λ is. is ≡ true → self.new.view
            ≡ device_with name.now (table_of (map metric_view metrics.now)) self.old.view) }
        ensures room { self.new.room ≡ self.old.room }
        ensures other { IfOk result (λ is. is ≡ false → self.new ≡ self.old) }
        ensures unchanged { OnErr result (self.new ≡ self.old) }
    {
        match self.place_of(name) {
            Some(place) => {
                let (online, stale) = (self.online, self.stale);
                let is_born = self.devices[place].bear(alloc, metrics, online, stale)?;
                Ok(is_born)
            }
            None => Ok(false),
        }
    }

    /// Data of a device are shown.
    fn show_all_of(&mut self, name: &str, metrics: Vec<Metric>)
        ensures view { self.new.view ≡ rules.each_device
            (rules.changed_device name.now (map metric_view metrics.items)) self.old.view }
        ensures room { self.new.room ≡ self.old.room }
    {
        if let Some(place) = self.place_of(name) {
            self.devices[place].show_all(metrics);
        }
    }

    /// The same with these texts and bytes, the data's own. Answers whether the device wasn't born, or a metric of it names an alias that
    /// it lacks.
    pub(crate) fn show_each_of(
        &mut self,
        name: &str,
        metrics: &[Metric],
        texts: &mut [Option<Raw>],
    ) -> bool
        requires { map (option_map content_of) texts.old ≡ texts_in (map metric_view metrics.now) }
        ensures lacking { result
            ≡ rules.is_device_lacking (rules.device_rows name.now (Some self.old.view))
            (map metric_view metrics.now) }
        ensures view { self.new.view ≡ rules.each_device
            (rules.changed_device name.now (map metric_view metrics.now)) self.old.view }
        ensures room { self.new.room ≡ self.old.room }
    {
        match self.place_of(name) {
            Some(place) => self.devices[place].show_each(metrics, texts),
            None => true,
        }
    }

    /// A device died.
    fn hear_death(&mut self, name: &str)
        ensures view { self.new.view
            ≡ rules.each_device (rules.dead_device name.now) self.old.view }
        ensures room { self.new.room ≡ self.old.room }
    {
        hear_death(&mut self.devices, name);
    }

    /// The node isn't followed.
    pub(crate) fn lose(&mut self)
        ensures view { self.new.view ≡ rules.lost self.old.view }
        ensures room { self.new.room ≡ self.old.room }
    {
        self.stale = true;
        lose_all(&mut self.devices);
    }

    /// The node's session or the host's is over.
    pub(crate) fn end(&mut self)
        ensures view { self.new.view ≡ rules.ended self.old.view }
        ensures room { self.new.room ≡ self.old.room }
    {
        self.online = false;
        self.stale = true;
        end_all(&mut self.devices);
    }

    /// Whether a metric of the node's own names an alias that it lacks.
    pub(crate) fn is_lacking(&self, metrics: &[Metric]) -> bool
        ensures { result ≡ is_lacking self.now.view.rows (map metric_view metrics.now) }
    {
        self.table.is_lacking(metrics)
    }

    /// Whether a device wasn't born, or a metric of it names an alias that it lacks.
    pub(crate) fn is_device_lacking(&self, name: &str, metrics: &[Metric]) -> bool
        ensures { result ≡ rules.is_device_lacking (rules.device_rows name.now (Some self.now.view))
            (map metric_view metrics.now) }
    {
        match self.place_of(name) {
            Some(place) => self.devices[place].is_lacking(metrics),
            None => true,
        }
    }
}
