//! What the payload of a row means.
ghost use Rattle.std.specs.Prelude.{◌≡◌, IfNone, IfOk, IfSome};
ghost use Rattle.spk_payload.specs.declared.fault.PayloadFault.{PayloadFault};
ghost use Rattle.spk_payload.specs.declared.values.Values.TheVariants as choice;
ghost use Rattle.spk_payload.specs.Faults.{IsPayloadFault};
ghost use Rattle.spk_payload.specs.Meaning.{MeansPayload};
ghost use Rattle.spk_payload.specs.View.{payload_view};

use spk_payload::{Payload, PayloadFault, Values, decode_as};
use std::alloc::{AllocError, Global};

/// What the bytes of a payload mean, floats and doubles too; none where they mean nothing. Refused only where memory is.
pub fn meaning(alloc: Global, bytes: &[u8]) -> Result<Option<Payload>, AllocError>
    ensures means { IfOk result (λ found. IfSome found
        (λ p. MeansPayload choice.All bytes.now (payload_view p))) }
    ensures nothing { IfOk result (λ found. IfNone found
        ((f : PayloadFault) × IsPayloadFault bytes.now f)) }
{
    match decode_as(alloc, Values::All, bytes) {
        Ok(payload) => Ok(Some(payload)),
        Err(PayloadFault::NoMemory) => Err(AllocError),
        Err(_) => Ok(None),
    }
}
