//! A plan.
use crate::script::Step;
use spk_device::Registry;
use spk_sequence::Width;

/// An edge node of a plan.
#[derive(Debug, Drop)]
pub struct PlanNode {
    /// Its name, as a level of a topic.
    pub node: String,
    /// How many changes it keeps while its primary host is away.
    pub capacity: usize,
    /// Its devices and metrics.
    pub registry: Registry,
    /// What it does, in order; then it stops.
    pub script: Vec<Step>,
}

/// A plant: edge nodes, a broker and a host, each on a thread of its own.
#[derive(Debug, Drop)]
pub struct Plan {
    /// The group of its nodes.
    pub group: String,
    /// The name of its host, which is the primary host of each node.
    pub host: String,
    /// The capacity of each ring, 4 to 65,536.
    pub ring: usize,
    /// The capacity of the channel to the broker, 1 to 65,536.
    pub ingress: usize,
    /// How long the host waits for a message that is missing, in milliseconds, and between two requests for a rebirth.
    pub wait: u64,
    /// The width of the reorder window, 1 to 96.
    pub width: Width,
    /// The edge nodes, 1 to 16.
    pub nodes: Vec<PlanNode>,
}
