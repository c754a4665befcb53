//! Calls of `spk_payload`.
ghost use Rattle.std.specs.Prelude.{◌≡◌, ◌⊎◌, Ok, Err, IfOk, IfErr, IsTrue};
ghost use Rattle.spk_protobuf.specs.Reading.{items_of};
ghost use Rattle.spk_payload.specs.declared.fault.PayloadFault.{PayloadFault};
ghost use Rattle.spk_payload.specs.declared.values.Values.TheVariants as choice;
ghost use Rattle.spk_payload.specs.Meaning.{PayloadData, MeansPayload};
ghost use Rattle.spk_payload.specs.Faults.{IsPayloadFault};
ghost use Rattle.spk_payload.specs.Reading as spec;
ghost use Rattle.spk_payload.specs.View.{payload_view, Gives};
ghost use Rattle.spk_refusals.specs.Wrong.{begins_unknown, refused_where, with_first_seq};

use spk_payload::{Payload, PayloadFault};
use std::alloc::Global;

/// `spk_payload::decode`.
pub fn decode(alloc: Global, bytes: &[u8]) -> Result<Payload, PayloadFault>
    ensures reads { Gives payload_view result (spec.payload_at choice.Whole bytes.now) }
    ensures found { IfOk result (λ p. MeansPayload choice.Whole bytes.now (payload_view p)) }
    ensures only { (p : PayloadData) → MeansPayload choice.Whole bytes.now p
        → Gives payload_view result (Ok p) }
    ensures fault { IfErr result (λ f. (f ≡ PayloadFault.NoMemory) ⊎ IsPayloadFault bytes.now f) }
    ensures only_fault { (f : PayloadFault) → IsPayloadFault bytes.now f
        → Gives payload_view result (Err f) }
    ensures memory { IfErr result (λ f. f ≡ PayloadFault.NoMemory
        → IsTrue (spec.has_metric (items_of bytes.now))) }
{
    spk_payload::decode(alloc, bytes)
}

/// Of a sequence number that stands in the first two bytes and again behind them the first one counts.
fn first_field_wins(
    bytes: &[u8],
    answer: Result<Payload, PayloadFault>,
) -> Result<Payload, PayloadFault>
    ensures { result ≡ with_first_seq bytes.now answer }
{
    let mut payload = match answer {
        Ok(payload) => payload,
        Err(fault) => return Err(fault),
    };
    if let [tag, number, ..] = bytes
        && *tag == 24
        && *number < 128
    {
        payload.seq = Some(u64::from(*number));
    }
    Ok(payload)
}

/// Bytes that begin with a field which a payload hasn't are refused.
fn unknown_field_refused(
    bytes: &[u8],
    answer: Result<Payload, PayloadFault>,
) -> Result<Payload, PayloadFault>
    ensures { result
        ≡ refused_where (begins_unknown bytes.now) PayloadFault.NotText answer }
{
    match bytes {
        [tag, ..] if *tag >= 6 * 8 => Err(PayloadFault::NotText),
        _ => answer,
    }
}
