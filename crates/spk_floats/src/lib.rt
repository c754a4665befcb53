//! Values of the datatypes Float and Double (Sparkplug 3.0.0, chapter 6), given by their bits (IEEE 754, binary32 and binary64), as decimal texts, and
//! the texts read back (own rules).
#![tactic(auto)]

mod double;
mod float;

pub use double::{double_in, double_text};
pub use float::{float_in, float_text};
