//! Sparkplug B payloads: what their bytes mean, and what a value of a datatype is.
//!
//! Follows the Sparkplug specification 3.0.0, chapter 6 "Sparkplug Payloads" (its protobuf schema and datatypes).
#![tactic(auto)]

mod copying;
mod fault;
pub mod laws;
mod metric;
mod payload;
mod typing;
mod values;
mod writing;

pub use fault::PayloadFault;
pub use metric::{Metric, Raw};
pub use payload::{Payload, decode, decode_as};
pub use typing::{Value, typed, written};
pub use values::Values;
pub use writing::encode;
