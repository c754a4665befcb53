//! Metrics, read from their fields.

ghost use Rattle.std.specs.Prelude.{◌≡◌, string_bytes, Result, Ok, ◌%◌, ◌^◌};
ghost use Rattle.spk_protobuf.specs.View.{entry_of};
ghost use Rattle.spk_payload.specs.Reading as spec;
ghost use Rattle.spk_payload.specs.Meaning.{double_of, float_of};
ghost use Rattle.spk_payload.specs.View.{content_of, metric_view, Gives, Turns};

use crate::fault::PayloadFault;
use crate::values::Values;
use spk_protobuf::{Field, Fields, Wire};
use std::alloc::Global;

/// A value as it is spelled, before a datatype says what it is (Sparkplug 3.0.0, 6.4.6).
#[derive(Debug, Drop, PartialEq)]
pub enum Raw {
    /// `int_value`: of a longer number the low 32 bits.
    Int(u32),
    /// `long_value`.
    Long(u64),
    /// `boolean_value`: true where the number isn't zero.
    Flag(bool),
    /// `string_value`.
    Words(String),
    /// `bytes_value`.
    Octets(Vec<u8>),
    /// `float_value`, by its bits.
    Float(u32),
    /// `double_value`, by its bits.
    Double(u64),
    /// A data set, template or extension, or by `Values::Whole` a float or double: it is there, and its value isn't read.
    Other,
}

/// A metric of a payload, with each field that is there (Sparkplug 3.0.0, 6.4.6).
///
/// Timestamps are milliseconds since 1970 in UTC.
#[derive(Debug, Drop, PartialEq)]
pub struct Metric {
    pub name: Option<String>,
    pub alias: Option<u64>,
    pub timestamp: Option<u64>,
    pub datatype: Option<u32>,
    pub historical: Option<bool>,
    pub transient: Option<bool>,
    pub null: Option<bool>,
    pub value: Option<Raw>,
}

/// The bytes as a text, where they are UTF-8.
#[tactic(auto, unfolding(crate::specs::Reading::text_at))]
fn text_of(alloc: Global, bytes: &[u8]) -> Result<String, PayloadFault>
    ensures { Gives string_bytes result (spec.text_at bytes.now) }
{
    match str::from_utf8(bytes) {
        Ok(text) => Ok(String::from_str(alloc, text)?),
        Err(_) => Err(PayloadFault::NotText),
    }
}

/// The low 32 bits.
fn low(number: u64) -> u32
    ensures { result ≡ number % 2 ^ 32 }
{
    (number % (1 << 32)) as u32
}

impl Values {
    /// A float of a metric: its bits stand with the least significant byte first.
    fn float(self, bytes: [u8; 4]) -> Raw
        ensures { content_of result ≡ float_of self bytes }
    {
        match self {
            Values::Whole => Raw::Other,
            Values::All => Raw::Float(u32::from_le_bytes(bytes)),
        }
    }

    /// A double of a metric, likewise.
    fn double(self, bytes: [u8; 8]) -> Raw
        ensures { content_of result ≡ double_of self bytes }
    {
        match self {
            Values::Whole => Raw::Other,
            Values::All => Raw::Double(u64::from_le_bytes(bytes)),
        }
    }
}

impl Metric {
    /// A metric with no field.
    fn empty() -> Metric
        ensures { metric_view result ≡ spec.no_metric }
    {
        Metric {
            name: None,
            alias: None,
            timestamp: None,
            datatype: None,
            historical: None,
            transient: None,
            null: None,
            value: None,
        }
    }

    fn set_number(&mut self, field: u64, number: u64)
        ensures { metric_view self.new ≡ spec.metric_number (metric_view self.old) field number }
    {
        match field {
            2 => self.alias = Some(number),
            3 => self.timestamp = Some(number),
            4 => self.datatype = Some(low(number)),
            5 => self.historical = Some(number != 0),
            6 => self.transient = Some(number != 0),
            7 => self.null = Some(number != 0),
            10 => self.value = Some(Raw::Int(low(number))),
            11 => self.value = Some(Raw::Long(number)),
            14 => self.value = Some(Raw::Flag(number != 0)),
            _ => {}
        }
    }

    fn set_bytes(&mut self, alloc: Global, field: u64, bytes: &[u8]) -> Result<(), PayloadFault>
        ensures { Turns metric_view result self.new
            (spec.metric_bytes (metric_view self.old) field bytes.now) }
    {
        match field {
            1 => self.name = Some(text_of(alloc, bytes)?),
            15 => self.value = Some(Raw::Words(text_of(alloc, bytes)?)),
            16 => self.value = Some(Raw::Octets(Vec::from_slice(alloc, bytes)?)),
            17 | 18 | 19 => self.value = Some(Raw::Other),
            _ => {}
        }
        Ok(())
    }

    fn set(&mut self, alloc: Global, values: Values, field: Field<'_>) -> Result<(), PayloadFault>
        ensures { Turns metric_view result self.new
            (spec.metric_entry values (metric_view self.old) (entry_of field.entry)) }
    {
        match field.wire {
            Wire::Varint(number) => self.set_number(field.number, number),
            Wire::Bytes(bytes) => self.set_bytes(alloc, field.number, bytes)?,
            Wire::Eight(bytes) => {
                if field.number == 13 {
                    self.value = Some(values.double(bytes));
                }
            }
            Wire::Four(bytes) => {
                if field.number == 12 {
                    self.value = Some(values.float(bytes));
                }
            }
        }
        Ok(())
    }
}

/// The metric that a text means, or the first fault in it.
pub(crate) fn metric_at(alloc: Global, values: Values, bytes: &[u8]) -> Result<Metric, PayloadFault>
    ensures { Gives metric_view result (spec.metric_at values bytes.now) }
{
    let mut metric = Metric::empty();
    for field in Fields::new(bytes) {
        metric.set(alloc, values, field?)?;
    }
    Ok(metric)
}
