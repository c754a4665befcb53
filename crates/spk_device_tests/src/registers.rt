//! A registry by its calls. A function that holds one is dear to prove: what the tests ask of it they ask through a trait without clauses, and
//! the rows are walked over a type parameter.
use spk_device::{Alias, DeviceFault, Gauge, Outcome, Owner, Refusal, Registry};
use spk_payload::{Metric, Raw, Value, Values};
use std::alloc::Global;
use std::process::Abort;

/// A value, or none.
#[derive(Clone, Copy)]
pub(crate) enum Given {
    Nothing,
    Signed(i64),
    Unsigned(u64),
    Flag(bool),
    Words(&'static str),
    /// A float, by its bits.
    Float(u32),
    /// A double, by its bits.
    Double(u64),
}

/// A text. Where memory was refused it is made again.
fn text(rt: &(impl Abort + AllocGlobal), words: &str) -> String {
    match String::from_str(rt.alloc(), words) {
        Ok(text) => text,
        Err(_) => String::from_str(rt.alloc(), words).expect(rt, "memory is there again"),
    }
}

fn value_of(rt: &(impl Abort + AllocGlobal), given: Given) -> Option<Value> {
    match given {
        Given::Nothing => None,
        Given::Signed(number) => Some(Value::Signed(number)),
        Given::Unsigned(number) => Some(Value::Unsigned(number)),
        Given::Flag(flag) => Some(Value::Flag(flag)),
        Given::Words(words) => Some(Value::Words(text(rt, words))),
        Given::Float(bits) => Some(Value::Float(bits)),
        Given::Double(bits) => Some(Value::Double(bits)),
    }
}

/// A value as a birth spells it.
#[derive(Clone, Copy)]
pub(crate) enum Spelled {
    Int(u32),
    Long(u64),
    Words(&'static str),
    Float(u32),
    Double(u64),
}

/// A metric as a birth lists it: with this name, alias, datatype and value, null where it has none, and nothing else.
pub(crate) type Birth = (&'static str, Alias, u32, Option<Spelled>);

/// What the tests ask of a registry. Where memory was refused a call is made again.
pub(crate) trait Registers {
    fn device(&mut self, name: &str) -> Result<(), DeviceFault>;

    fn metric_of(
        &mut self,
        owner: Owner,
        name: &str,
        datatype: u32,
        number: Option<i64>,
    ) -> Result<Alias, DeviceFault>;

    /// A metric with a first value.
    fn first_of(
        &mut self,
        owner: Owner,
        name: &str,
        datatype: u32,
        value: Option<Value>,
    ) -> Result<Alias, DeviceFault>;

    /// What `would_set` says before a value is set.
    fn would(&self, alias: Alias, value: &Option<Value>) -> Result<Outcome, Refusal>;

    fn put(&mut self, alias: Alias, value: Option<Value>) -> Result<Outcome, Refusal>;

    fn turn(&mut self, name: &str, up: bool) -> Result<Outcome, Refusal>;

    fn is_number_up(&self, number: usize) -> Option<bool>;

    fn is_name_up(&self, name: &str) -> Option<bool>;

    fn number_of(&self, name: &str) -> Option<usize>;

    fn is_name_of(&self, number: usize, name: Option<&str>) -> bool;

    /// How many devices there are, and how many metrics.
    fn counts(&self) -> (usize, usize);

    fn alias(&self, owner: Owner, name: &str) -> Option<Alias>;

    /// Whether there is a metric of this alias.
    fn is_gauge(&self, alias: Alias) -> bool;

    /// Whether the metric of this alias has this owner, name, datatype and signed value.
    fn is_gauge_of(
        &self,
        alias: Alias,
        owner: Owner,
        name: &str,
        datatype: u32,
        number: i64,
    ) -> bool;

    /// Whether these are the births of an owner.
    fn are_births(&self, owner: Owner, births: &[Birth]) -> bool;

    /// Why an owner has no births, if it has none.
    fn no_births(&self, owner: Owner) -> Option<DeviceFault>;
}

/// A value of a signed number.
fn signed(number: Option<i64>) -> Option<Value> {
    match number {
        Some(number) => Some(Value::Signed(number)),
        None => None,
    }
}

fn births_again(registry: &Registry, owner: Owner) -> Result<Vec<Metric>, DeviceFault> {
    match registry.births(owner) {
        Err(DeviceFault::NoMemory) => registry.births(owner),
        answer => answer,
    }
}

fn is_spelled(raw: &Option<Raw>, want: Option<Spelled>) -> bool {
    match (raw, want) {
        (None, None) => true,
        (Some(Raw::Int(number)), Some(Spelled::Int(want))) => *number == want,
        (Some(Raw::Long(number)), Some(Spelled::Long(want))) => *number == want,
        (Some(Raw::Words(text)), Some(Spelled::Words(want))) => text.as_str() == want,
        (Some(Raw::Float(bits)), Some(Spelled::Float(want))) => *bits == want,
        (Some(Raw::Double(bits)), Some(Spelled::Double(want))) => *bits == want,
        _ => false,
    }
}

fn is_text(text: &Option<String>, want: &str) -> bool {
    match text {
        Some(text) => text.as_str() == want,
        None => false,
    }
}

/// Whether a metric has none of the fields that no birth has.
fn is_plain(metric: &Metric) -> bool {
    metric.timestamp.is_none() && metric.historical.is_none() && metric.transient.is_none()
}

fn is_birth(metric: &Metric, (name, alias, datatype, value): Birth) -> bool {
    let null = if value.is_none() { Some(true) } else { None };
    is_plain(metric)
        && is_text(&metric.name, name)
        && metric.alias == Some(alias)
        && metric.datatype == Some(datatype)
        && metric.null == null
        && is_spelled(&metric.value, value)
}

fn same_births(metrics: &[Metric], births: &[Birth]) -> bool {
    for (metric, birth) in metrics.iter().zip(births) {
        if !is_birth(metric, *birth) {
            return false;
        }
    }
    metrics.len() == births.len()
}

fn is_same(gauge: &Gauge, owner: Owner, name: &str, datatype: u32, number: i64) -> bool {
    gauge.owner == owner
        && gauge.name.as_str() == name
        && gauge.datatype == datatype
        && gauge.value == Some(Value::Signed(number))
}

impl Registers for Registry {
    fn device(&mut self, name: &str) -> Result<(), DeviceFault> {
        match self.add_device(name) {
            Err(DeviceFault::NoMemory) => self.add_device(name),
            answer => answer,
        }
    }

    fn metric_of(
        &mut self,
        owner: Owner,
        name: &str,
        datatype: u32,
        number: Option<i64>,
    ) -> Result<Alias, DeviceFault> {
        match self.add_metric(owner, name, datatype, signed(number)) {
            Err(DeviceFault::NoMemory) => self.add_metric(owner, name, datatype, signed(number)),
            answer => answer,
        }
    }

    fn first_of(
        &mut self,
        owner: Owner,
        name: &str,
        datatype: u32,
        value: Option<Value>,
    ) -> Result<Alias, DeviceFault> {
        self.add_metric(owner, name, datatype, value)
    }

    fn would(&self, alias: Alias, value: &Option<Value>) -> Result<Outcome, Refusal> {
        self.would_set(alias, value)
    }

    fn put(&mut self, alias: Alias, value: Option<Value>) -> Result<Outcome, Refusal> {
        self.set(alias, value)
    }

    fn turn(&mut self, name: &str, up: bool) -> Result<Outcome, Refusal> {
        if up {
            self.device_up(name)
        } else {
            self.device_down(name)
        }
    }

    fn is_number_up(&self, number: usize) -> Option<bool> {
        self.is_up(number)
    }

    fn is_name_up(&self, name: &str) -> Option<bool> {
        self.is_device_up(name)
    }

    fn number_of(&self, name: &str) -> Option<usize> {
        self.device_number(name)
    }

    fn is_name_of(&self, number: usize, name: Option<&str>) -> bool {
        match (self.device_name(number), name) {
            (Some(found), Some(name)) => found == name,
            (None, None) => true,
            _ => false,
        }
    }

    fn counts(&self) -> (usize, usize) {
        (self.device_count(), self.metric_count())
    }

    fn alias(&self, owner: Owner, name: &str) -> Option<Alias> {
        self.alias_of(owner, name)
    }

    fn is_gauge(&self, alias: Alias) -> bool {
        self.metric(alias).is_some()
    }

    fn is_gauge_of(
        &self,
        alias: Alias,
        owner: Owner,
        name: &str,
        datatype: u32,
        number: i64,
    ) -> bool {
        match self.metric(alias) {
            Some(gauge) => is_same(gauge, owner, name, datatype, number),
            None => false,
        }
    }

    fn are_births(&self, owner: Owner, births: &[Birth]) -> bool {
        match births_again(self, owner) {
            Ok(metrics) => same_births(metrics.as_slice(), births),
            Err(_) => false,
        }
    }

    fn no_births(&self, owner: Owner) -> Option<DeviceFault> {
        births_again(self, owner).err()
    }
}

/// A call on a registry, and what it answers.
#[derive(Clone, Copy)]
pub(crate) enum Row {
    Device(&'static str, Option<Refusal>),
    /// A metric's owner, name, datatype and signed value.
    Metric(Owner, &'static str, u32, Option<i64>, Result<Alias, Refusal>),
    /// A metric's owner, name, datatype and first value.
    First(Owner, &'static str, u32, Given, Result<Alias, Refusal>),
    /// A value that is set, as `would_set` says before.
    Set(Alias, Given, Result<Outcome, Refusal>),
    /// A device of this name is turned up or down.
    Turn(&'static str, bool, Result<Outcome, Refusal>),
    /// Whether the device of this number is up, if there is one.
    Up(usize, Option<bool>),
    /// Whether the device of this name is up, if there is one.
    NameUp(&'static str, Option<bool>),
    Number(&'static str, Option<usize>),
    Name(usize, Option<&'static str>),
    /// How many devices and metrics there are.
    Counts(usize, usize),
    Aliased(Owner, &'static str, Option<Alias>),
    NoGauge(Alias),
    Gauge(Alias, Owner, &'static str, u32, i64),
    Births(Owner, &'static [Birth]),
    NoBirths(Owner, Refusal),
}

/// The fault of a call that is refused so.
pub(crate) fn fault(refusal: Option<Refusal>) -> Option<DeviceFault> {
    match refusal {
        Some(refusal) => Some(DeviceFault::Refused(refusal)),
        None => None,
    }
}

/// What adding a metric answers that has this alias or is refused so.
pub(crate) fn added(want: Result<Alias, Refusal>) -> Result<Alias, DeviceFault> {
    match want {
        Ok(alias) => Ok(alias),
        Err(refusal) => Err(DeviceFault::Refused(refusal)),
    }
}

/// Adds a metric with a first value. Where memory was refused the call is made again.
fn add_first<T: Registers>(
    rt: &(impl Abort + AllocGlobal),
    registry: &mut T,
    owner: Owner,
    name: &str,
    datatype: u32,
    given: Given,
) -> Result<Alias, DeviceFault> {
    match registry.first_of(owner, name, datatype, value_of(rt, given)) {
        Err(DeviceFault::NoMemory) => registry.first_of(owner, name, datatype, value_of(rt, given)),
        answer => answer,
    }
}

fn is_set<T: Registers>(
    registry: &mut T,
    alias: Alias,
    value: Option<Value>,
    want: Result<Outcome, Refusal>,
) -> bool {
    registry.would(alias, &value) == want && registry.put(alias, value) == want
}

/// Whether a look at the registry shows this.
fn is_seen<T: Registers>(registry: &T, row: Row) -> bool {
    match row {
        Row::Up(number, up) => registry.is_number_up(number) == up,
        Row::NameUp(name, up) => registry.is_name_up(name) == up,
        Row::Number(name, number) => registry.number_of(name) == number,
        Row::Name(number, name) => registry.is_name_of(number, name),
        Row::Counts(devices, metrics) => registry.counts() == (devices, metrics),
        Row::Aliased(owner, name, alias) => registry.alias(owner, name) == alias,
        Row::NoGauge(alias) => !registry.is_gauge(alias),
        Row::Gauge(alias, owner, name, datatype, number) => {
            registry.is_gauge_of(alias, owner, name, datatype, number)
        }
        Row::Births(owner, births) => registry.are_births(owner, births),
        Row::NoBirths(owner, refusal) => registry.no_births(owner) == fault(Some(refusal)),
        _ => false,
    }
}

fn is_answered<T: Registers>(rt: &(impl Abort + AllocGlobal), registry: &mut T, row: Row) -> bool {
    match row {
        Row::Device(name, refusal) => registry.device(name).err() == fault(refusal),
        Row::Metric(owner, name, datatype, number, want) => {
            registry.metric_of(owner, name, datatype, number) == added(want)
        }
        Row::First(owner, name, datatype, given, want) => {
            add_first(rt, registry, owner, name, datatype, given) == added(want)
        }
        Row::Set(alias, given, want) => is_set(registry, alias, value_of(rt, given), want),
        Row::Turn(name, up, want) => registry.turn(name, up) == want,
        row => is_seen(registry, row),
    }
}

/// Makes the calls in turn; the first one that isn't answered so.
fn first_wrong<T: Registers>(
    rt: &(impl Abort + AllocGlobal),
    registry: &mut T,
    rows: &[Row],
) -> Option<usize> {
    for (place, row) in rows.iter().enumerate() {
        if !is_answered(rt, registry, *row) {
            return Some(place);
        }
    }
    None
}

/// Whether each call of a run, in turn on an empty registry, is answered so.
pub(crate) fn is_run(rt: &(impl Abort + AllocGlobal), rows: &[Row]) -> bool {
    first_wrong(rt, &mut Registry::new(rt.alloc()), rows).is_none()
}

/// The same on an empty registry whose metrics may have the values of a choice.
pub(crate) fn is_run_by(rt: &(impl Abort + AllocGlobal), values: Values, rows: &[Row]) -> bool {
    let mut registry = Registry::with_values(rt.alloc(), values);
    let is_chosen = registry.values() == values;
    is_chosen && first_wrong(rt, &mut registry, rows).is_none()
}
