//! What a host application of Sparkplug 3.0.0 (chapters 5 and 6) shows of one edge node, and when it asks the node for a
//! rebirth: tables of metrics, and each event of the node's order done to them.
#![tactic(auto)]

mod aliases;
mod device;
mod keys;
mod metric;
mod node;
mod plain;
mod ready;
mod rebirth;
mod table;
mod watch;

pub use device::DeviceView;
pub use metric::MetricView;
pub use node::NodeView;
pub use plain::has_texts;
pub use ready::Ready;
pub use watch::Watch;
