//! A change of a value.
use spk_device::Owner;
use spk_payload::Value;

/// A change of a metric's value, which an edge node keeps to send later with `is_historical`
/// (Sparkplug 3.0.0, chapter 6, on metrics).
#[derive(Debug, PartialEq, Drop)]
pub struct Change {
    /// Whose metric it is.
    pub owner: Owner,
    /// The metric's alias.
    pub alias: u64,
    /// Its new value, or None for none.
    pub value: Option<Value>,
    /// When it changed, in milliseconds since 1970.
    pub time: u64,
}
