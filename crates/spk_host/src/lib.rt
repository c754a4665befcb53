//! A host application: what it consumes of edge nodes, its view of them, and its rebirth requests (Sparkplug 3.0.0, chapter 5).
#![tactic(auto)]

mod asking;
mod entry;
mod host;
mod index;
pub mod laws;
mod messages;
mod nodes;
mod out;

pub use entry::Entry;
pub use host::Host;
pub use out::{Out, Taken};
pub use spk_host_session::{HostConfig, HostFault};
pub use spk_view::{DeviceView, MetricView, NodeView};
