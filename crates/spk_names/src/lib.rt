//! Names, each with a number, found by hash: what leads from a device's, a metric's or an edge node's name to its place
//! in a list (Sparkplug 3.0.0, chapter 4, on identifiers).
#![tactic(auto)]

pub mod laws;
mod names;

pub use names::Names;
