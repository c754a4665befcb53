//! Payloads, read from their bytes.

ghost use Rattle.std.specs.Prelude.{◌≡◌, ◌⊎◌, Ok, Err, IfOk, IfErr, IsTrue, is_some};
ghost use Rattle.spk_protobuf.specs.Reading.{items_of};
ghost use Rattle.spk_protobuf.specs.View.{entry_of};
ghost use Rattle.spk_payload.specs.declared.fault.PayloadFault.{PayloadFault};
ghost use Rattle.spk_payload.specs.declared.values.Values.TheVariants as choice;
ghost use Rattle.spk_payload.specs.Meaning.{PayloadData, MeansPayload, bytes_in};
ghost use Rattle.spk_payload.specs.Faults.{IsPayloadFault};
ghost use Rattle.spk_payload.specs.Reading as spec;
ghost use Rattle.spk_payload.specs.View.{payload_view, Gives, Turns};

use crate::fault::PayloadFault;
use crate::metric::{Metric, metric_at};
use crate::values::Values;
use spk_protobuf::{Field, Fields, Wire};
use std::alloc::Global;

/// A payload: its timestamp in milliseconds since 1970, its metrics in order, and its sequence number
/// (Sparkplug 3.0.0, 6.4.4).
#[derive(Debug, Drop, PartialEq)]
pub struct Payload {
    pub timestamp: Option<u64>,
    pub metrics: Vec<Metric>,
    pub seq: Option<u64>,
}

impl Payload {
    fn put(&mut self, alloc: Global, values: Values, field: Field<'_>) -> Result<(), PayloadFault>
        ensures turns { Turns payload_view result self.new
            (spec.payload_entry values (payload_view self.old) (entry_of field.entry)) }
        ensures memory { IfErr result (λ f. f ≡ PayloadFault.NoMemory
            → IsTrue (is_some (bytes_in 2 (entry_of field.entry)))) }
    {
        match (field.number, field.wire) {
            (1, Wire::Varint(number)) => self.timestamp = Some(number),
            (3, Wire::Varint(number)) => self.seq = Some(number),
            (2, Wire::Bytes(bytes)) => self.metrics.push(metric_at(alloc, values, bytes)?)?,
            _ => {}
        }
        Ok(())
    }
}

fn payload_at(alloc: Global, values: Values, bytes: &[u8]) -> Result<Payload, PayloadFault>
    ensures gives { Gives payload_view result (spec.payload_at values bytes.now) }
    ensures memory { IfErr result (λ f. f ≡ PayloadFault.NoMemory
        → IsTrue (spec.has_metric (items_of bytes.now))) }
{
    let mut payload = Payload {
        timestamp: None,
        metrics: Vec::new(alloc),
        seq: None,
    };
    for field in Fields::new(bytes) {
        payload.put(alloc, values, field?)?;
    }
    Ok(payload)
}

/// The payload that the bytes mean (Sparkplug 3.0.0, 6.4 "Google Protocol Buffer Schema"), with whole values alone: a float or a
/// double is `Raw::Other`. `decode_as` reads these too.
///
/// Refuses with the first fault in reading order: a metric is read whole where it stands. No length in the bytes
/// makes it ask for more memory than the bytes at hand.
pub fn decode(alloc: Global, bytes: &[u8]) -> Result<Payload, PayloadFault>
    // What bytes mean, or their first fault, is a function of them (`laws::reading`).
    ensures reads { Gives payload_view result (spec.payload_at choice.Whole bytes.now) }
    // What is answered is what the bytes mean.
    ensures found { IfOk result (λ p. MeansPayload choice.Whole bytes.now (payload_view p)) }
    // What the bytes mean is answered, unless memory was refused.
    ensures only { (p : PayloadData) → MeansPayload choice.Whole bytes.now p
        → Gives payload_view result (Ok p) }
    // A fault is the first one of the bytes, and the first one is answered, unless memory was refused.
    ensures fault { IfErr result (λ f. (f ≡ PayloadFault.NoMemory) ⊎ IsPayloadFault bytes.now f) }
    ensures only_fault { (f : PayloadFault) → IsPayloadFault bytes.now f
        → Gives payload_view result (Err f) }
    // Bytes without a metric before their first fault take no memory.
    ensures memory { IfErr result (λ f. f ≡ PayloadFault.NoMemory
        → IsTrue (spec.has_metric (items_of bytes.now))) }
{
    decode_as(alloc, Values::Whole, bytes)
}

/// The payload that the bytes mean, with the values of a choice: `decode` with `Values::Whole`, and with `Values::All` floats and
/// doubles by their bits as well. What one reads of other values, and of what is no payload, the other reads too (`laws::choices`).
///
/// Refuses as `decode` does.
pub fn decode_as(alloc: Global, values: Values, bytes: &[u8]) -> Result<Payload, PayloadFault>
    ensures reads { Gives payload_view result (spec.payload_at values bytes.now) }
    ensures found { IfOk result (λ p. MeansPayload values bytes.now (payload_view p)) }
    ensures only { (p : PayloadData) → MeansPayload values bytes.now p
        → Gives payload_view result (Ok p) }
    ensures fault { IfErr result (λ f. (f ≡ PayloadFault.NoMemory) ⊎ IsPayloadFault bytes.now f) }
    ensures only_fault { (f : PayloadFault) → IsPayloadFault bytes.now f
        → Gives payload_view result (Err f) }
    // Bytes without a metric before their first fault take no memory.
    ensures memory { IfErr result (λ f. f ≡ PayloadFault.NoMemory
        → IsTrue (spec.has_metric (items_of bytes.now))) }
{
    payload_at(alloc, values, bytes)
}
