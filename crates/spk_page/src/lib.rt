//! A page of a host's nodes over HTTP/1.1 (RFC 9112), without IO and without a clock: its data, their JSON, and one client's connection (own rules).
#![tactic(auto)]

mod answer;
mod asked;
mod client;
mod entry;
mod fault;
mod head;
mod hearing;
mod holes_json;
mod html;
pub mod laws;
mod look;
mod metrics;
mod node;
mod rows_json;
mod stage;
mod text;
mod totals;
mod values_json;
mod view_json;

pub use asked::Asked;
pub use client::Client;
pub use entry::{Entry, What};
pub use fault::PageFault;
pub use head::Head;
pub use html::page;
pub use look::Look;
pub use metrics::metrics_text;
pub use node::{Device, Metric, Node, Shown, Values, Whole};
pub use stage::Stage;
pub use text::{node_text, view_text};
pub use totals::{Looks, Totals};
