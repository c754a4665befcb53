//! A metric as the registry keeps it.
ghost use Rattle.std.specs.Prelude.{◌≡◌, ◌<◌, ◌^◌, true, IfOk, Some};
ghost use Rattle.std.specs.Option.{option_map};
ghost use Rattle.spk_payload.specs.Typing.{typed_view, written_of};
ghost use Rattle.spk_payload.specs.View.{content_of, metric_view};
ghost use Rattle.spk_device.specs.Book.{birth_of};
ghost use Rattle.spk_device.specs.Step.{change_unless};
ghost use Rattle.spk_device.specs.Values as spec;
ghost use Rattle.spk_device.specs.View.{gauge_view};

use crate::outcome::Outcome;
use crate::owner::Owner;
use crate::values::is_same_value;
use spk_payload::{Metric, PayloadFault, Raw, Value, written};
use std::alloc::{AllocError, Global};

/// A metric as the registry keeps it: whose it is, its name, its datatype (Sparkplug 3.0.0, chapter 6) and the value last
/// set, if it has one.
#[derive(Debug, Drop, PartialEq)]
pub struct Gauge {
    pub owner: Owner,
    pub name: String,
    pub datatype: u32,
    pub value: Option<Value>,
}

/// How a value that its datatype writes is written.
fn written_value(alloc: Global, datatype: u32, value: &Value) -> Result<Raw, AllocError>
    requires { spec.is_of datatype (Some (typed_view value.now)) ≡ true }
    ensures { IfOk result
        (λ raw. written_of datatype (typed_view value.now) ≡ Some (content_of raw)) }
{
    match written(alloc, datatype, value) {
        Ok(raw) => Ok(raw),
        Err(PayloadFault::NoMemory) => Err(AllocError),
        Err(_) => unreachable!(),
    }
}

impl Gauge {
    /// What `put` would answer.
    pub(crate) fn would_put(&self, value: &Option<Value>) -> Outcome
        ensures { result
            ≡ change_unless
            (spec.value_eq (option_map typed_view self.now.value)
            (option_map typed_view value.now)) }
    {
        if is_same_value(&self.value, value) {
            Outcome::Same
        } else {
            Outcome::Changed
        }
    }

    /// The value is this one from now on.
    pub(crate) fn put(&mut self, value: Option<Value>) -> Outcome
        ensures change { result
            ≡ change_unless
            (spec.value_eq (option_map typed_view self.old.value) (option_map typed_view value)) }
        ensures data { gauge_view self.new
            ≡ record (gauge_view self.old) { value = option_map typed_view value } }
    {
        if is_same_value(&self.value, &value) {
            return Outcome::Same;
        }
        self.value = value;
        Outcome::Changed
    }

    /// The metric in a birth, at its place among all metrics.
    pub(crate) fn birth(&self, alloc: Global, place: usize) -> Result<Metric, AllocError>
        requires fits { place < 2 ^ 63 }
        requires value { spec.is_of self.now.datatype (option_map typed_view self.now.value)
            ≡ true }
        ensures { IfOk result
            (λ metric. metric_view metric ≡ birth_of (place, gauge_view self.now)) }
    {
        let value = match &self.value {
            Some(value) => Some(written_value(alloc, self.datatype, value)?),
            None => None,
        };
        let null = if value.is_none() { Some(true) } else { None };
        Ok(Metric {
            name: Some(String::from_str(alloc, self.name.as_str())?),
            alias: Some(place as u64 + 1),
            timestamp: None,
            datatype: Some(self.datatype),
            historical: None,
            transient: None,
            null,
            value,
        })
    }
}
