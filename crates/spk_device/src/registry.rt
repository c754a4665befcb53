//! The registry: devices and metrics of one edge node, and what is read of them.
ghost use Rattle.std.specs.Prelude.{◌≡◌, ◌<◌, ◌≤◌, [], length, IfSome, IfNone, is_some};
ghost use Rattle.std.specs.Option.{option_map, option_copied};
ghost use Rattle.spk_device.specs.Book as book;
ghost use Rattle.spk_device.specs.Lawful.{IsLawful, metric_names};
ghost use Rattle.spk_device.specs.View.{gauge_view};

use crate::device::Device;
use crate::gauge::Gauge;
use crate::owner::Owner;
use spk_names::Names;
use spk_payload::Values;
use std::alloc::Global;
use std::fmt;
use std::marker::Model;

/// The number of a metric over the whole edge node, from 1 in order of adding (Sparkplug 3.0.0, chapter 6).
pub type Alias = u64;

/// The devices and metrics of one edge node. Contracts see a `Book`.
#[derive(Drop)]
pub struct Registry {
    pub(crate) alloc: Global,
    /// The devices, by number.
    pub(crate) devices: Vec<Device>,
    /// The number of each device, by name.
    pub(crate) numbers: Names,
    /// The metrics, by alias less one.
    pub(crate) gauges: Vec<Gauge>,
    /// The places of the node's own metrics, by name.
    pub(crate) own: Names,
    /// Which values metrics may have.
    pub(crate) values: Values,
}

impl fmt::Debug for Registry {
    fn fmt<W: fmt::Write>(&self, f: &mut fmt::Formatter<W>) -> fmt::Result {
        f.write_str("Registry { .. }")
    }
}

impl Model for Registry {
    ghost use Rattle.spk_device.specs.Book.{Book};

    ghost Value = { Book };

    ghost use Rattle.spk_device.specs.Inside.{book_of, IsIndexed};

    ghost view = { book_of };

    ghost invariant = { IsIndexed };
}

impl Registry {
    /// No devices and no metrics. Metrics may have whole values alone (`Values::Whole`).
    pub fn new(alloc: Global) -> Registry
        ensures { result ≡ book.empty_book }
    {
        Registry::with_values(alloc, Values::Whole)
    }

    /// No devices and no metrics, which may have the values of a choice: by `Values::All` floats and doubles as well.
    pub fn with_values(alloc: Global, values: Values) -> Registry
        ensures { result ≡ book.fresh_book values }
    {
        Registry {
            alloc,
            devices: Vec::new(alloc),
            numbers: Names::new(alloc),
            gauges: Vec::new(alloc),
            own: Names::new(alloc),
            values,
        }
    }

    /// Which values metrics may have: what the registry was made with.
    pub fn values(&self) -> Values
        ensures { result ≡ self.now.values }
    {
        self.values
    }

    /// How many devices there are.
    pub fn device_count(&self) -> usize
        ensures count { result ≡ length self.now.devices }
        ensures lawful { IsLawful self.now }
    {
        self.devices.len()
    }

    /// How many metrics there are. It is the greatest alias given.
    pub fn metric_count(&self) -> usize
        ensures count { result ≡ length self.now.gauges }
        ensures lawful { IsLawful self.now }
    {
        self.gauges.len()
    }

    /// The number of a device, by name.
    pub fn device_number(&self, name: &str) -> Option<usize>
        ensures { result ≡ book.number_of self.now name.now }
    {
        self.numbers.find(name)
    }

    /// The name of a device, by number.
    pub fn device_name(&self, number: usize) -> Option<&str>
        ensures { option_copied result ≡ option_map (λ d. d.name) (book.device_at self.now number) }
    {
        let device = self.devices.get(number)?;
        Some(device.name.as_str())
    }

    /// Whether a device is up, by number.
    pub fn is_up(&self, number: usize) -> Option<bool>
        ensures { result ≡ option_map (λ d. d.up) (book.device_at self.now number) }
    {
        let device = self.devices.get(number)?;
        Some(device.up)
    }

    /// Whether a device is up, by name.
    pub fn is_device_up(&self, name: &str) -> Option<bool>
        ensures { result ≡ book.is_up self.now name.now }
    {
        let number = self.device_number(name)?;
        self.is_up(number)
    }

    /// The metric of an alias.
    pub fn metric(&self, alias: Alias) -> Option<&Gauge>
        ensures { option_map (λ g. gauge_view g.now) result ≡ book.gauge_at self.now alias }
    {
        let place = alias.checked_sub(1)?;
        self.gauges.get(place as usize)
    }

    /// The alias of a metric, by its owner and name.
    pub fn alias_of(&self, owner: Owner, name: &str) -> Option<Alias>
        ensures { result ≡ book.alias_of self.now owner name.now }
    {
        let place = self.place_of(owner, name)?;
        Some(place as u64 + 1)
    }

    /// The names of an owner's metrics, if the owner is there.
    pub(crate) fn table(&self, owner: Owner) -> Option<&Names>
        ensures there { is_some result ≡ book.has_owner self.now owner }
        ensures names { IfSome result (λ names. names.now ≡ metric_names owner self.now.gauges) }
        ensures none { IfNone result (metric_names owner self.now.gauges ≡ []) }
        ensures few { length self.now.gauges ≤ 10000 }
    {
        match owner {
            Owner::Node => Some(&self.own),
            Owner::Device(number) => match self.devices.get(number) {
                Some(device) => Some(&device.metrics),
                None => None,
            },
        }
    }

    /// The place of a metric, by its owner and name.
    pub(crate) fn place_of(&self, owner: Owner, name: &str) -> Option<usize>
        ensures place { result ≡ book.place_of self.now owner name.now }
        ensures within { IfSome result (λ place. place < 10000) }
    {
        self.table(owner)?.find(name)
    }
}
