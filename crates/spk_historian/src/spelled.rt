//! The bytes that a record keeps of a payload.
ghost use Rattle.std.specs.Prelude.{◌≡◌, IfOk, IfErr, OnOk, map};
ghost use Rattle.std.specs.Option.{option_map};
ghost use Rattle.spk_payload.specs.Spelling.{PayloadFits, spelling};
ghost use Rattle.spk_payload.specs.View.{content_of, metric_view, payload_view};
ghost use Rattle.spk_history.specs.declared.fault.HistoryFault.TheVariants.{NoMemory};
ghost use Rattle.spk_historian.specs.Kept.{kept_metric, kept_payload, kept_value};

use spk_history::HistoryFault;
use spk_payload::{Metric, Payload, PayloadFault, Raw, encode};
use std::alloc::{AllocError, Global};

/// A copy of a value that is read.
fn kept_raw(alloc: Global, value: &Option<Raw>) -> Result<Option<Raw>, AllocError>
    ensures { IfOk result (λ v. option_map content_of v ≡ kept_value (option_map content_of value.now)) }
{
    match value {
        None | Some(Raw::Other) => Ok(None),
        Some(raw) => Ok(Some(raw.copy(alloc)?)),
    }
}

/// A copy of a metric without a value that isn't read.
fn kept(alloc: Global, metric: &Metric) -> Result<Metric, AllocError>
    ensures { IfOk result (λ m. metric_view m ≡ kept_metric (metric_view metric.now)) }
{
    let mut copy = metric.copy(alloc)?;
    copy.value = kept_raw(alloc, &metric.value)?;
    Ok(copy)
}

/// A copy of a payload without values that aren't read.
fn without_unread(alloc: Global, payload: &Payload) -> Result<Payload, AllocError>
    ensures { IfOk result (λ p. payload_view p ≡ kept_payload (payload_view payload.now)) }
{
    let mut metrics = Vec::with_capacity(alloc, payload.metrics.len())?;
    for metric in &payload.metrics {
        metrics.push(kept(alloc, metric)?)?;
    }
    Ok(Payload {
        timestamp: payload.timestamp,
        metrics,
        seq: payload.seq,
    })
}

/// The canonical spelling of a payload, without values that aren't read.
pub(crate) fn spelled(alloc: Global, payload: &Payload) -> Result<Vec<u8>, HistoryFault>
    ensures spelled { IfOk result (λ v. v.items ≡ spelling (payload_view payload.now)) }
    ensures fits { OnOk result (PayloadFits (kept_payload (payload_view payload.now))) }
    ensures refused { IfErr result (λ e. e ≡ NoMemory) }
{
    match encode(alloc, payload) {
        Ok(bytes) => Ok(bytes),
        Err(PayloadFault::NoMemory) => Err(HistoryFault::NoMemory),
        Err(_) => spelled_without(alloc, payload),
    }
}

/// The same of a payload with values that aren't read.
fn spelled_without(alloc: Global, payload: &Payload) -> Result<Vec<u8>, HistoryFault>
    ensures spelled { IfOk result (λ v. v.items ≡ spelling (payload_view payload.now)) }
    ensures fits { OnOk result (PayloadFits (kept_payload (payload_view payload.now))) }
    ensures refused { IfErr result (λ e. e ≡ NoMemory) }
{
    let kept = without_unread(alloc, payload)?;
    match encode(alloc, &kept) {
        Ok(bytes) => Ok(bytes),
        // each value that is left is read, so that it can be written
        Err(_) => Err(HistoryFault::NoMemory),
    }
}
