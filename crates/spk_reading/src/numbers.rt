//! The numbers that a payload carries: its sequence number and its bdSeq (Sparkplug 3.0.0, chapter 6).
ghost use Rattle.std.specs.Prelude.{◌≡◌, map};
ghost use Rattle.spk_payload.specs.View.{metric_view, payload_view};
ghost use Rattle.spk_reading.specs.Meaning as spec;

use spk_payload::{Metric, Payload, Raw};

/// A number that is at most 255.
fn byte(number: u64) -> Option<u8>
    ensures { result ≡ spec.byte number }
{
    if number < 256 {
        Some(number as u8)
    } else {
        None
    }
}

/// The payload's sequence number.
pub(crate) fn sequence_number(payload: &Payload) -> Option<u8>
    ensures { result ≡ spec.seq_of (payload_view payload.now) }
{
    byte(payload.seq?)
}

/// Whether a metric is the session's number.
fn is_session(metric: &Metric) -> bool
    ensures { result ≡ spec.is_session (metric_view metric.now) }
{
    match &metric.name {
        Some(name) => name.as_str() == "bdSeq",
        None => false,
    }
}

/// The number that a metric says.
fn session_in(metric: &Metric) -> Option<u8>
    ensures { result ≡ spec.session_in (metric_view metric.now) }
{
    if let Some(true) = metric.null {
        return None;
    }
    match &metric.value {
        Some(Raw::Int(number)) => byte(u64::from(*number)),
        Some(Raw::Long(number)) => byte(*number),
        _ => None,
    }
}

/// The session's number, by the last metric of that name.
pub(crate) fn session_number(metrics: &[Metric]) -> Option<u8>
    ensures { result ≡ spec.session_of (map metric_view metrics.now) }
{
    let mut found = None;
    for metric in metrics {
        if is_session(metric) {
            found = session_in(metric);
        }
    }
    found
}
