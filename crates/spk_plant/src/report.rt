//! What a plant did.
use spk_edge::Published;
use spk_ingress::Message;
use spk_plant_broker::Refusal;
use spk_plant_edge::Told;
use spk_plant_given::Handed;
use spk_plant_host::Given;

/// What an edge node did.
#[derive(Debug, Drop)]
pub struct NodeReport {
    /// What it was told, oldest first; refused inputs too.
    pub inputs: Vec<Told>,
    /// What it published, oldest first.
    pub published: Vec<Published>,
    /// What the host was handed of it, oldest first: the message of which position, or the death of which session, and the moment, which
    /// is how many items the host's ring had brought by then. What was said stands in the report's `given`, at the place before the moment.
    /// Behind each item a moment passed.
    pub given: Vec<Handed>,
    /// The positions that the host consumed of it, oldest first. Topics and payloads stand in the report's `given`, in the same order.
    pub consumed: Vec<usize>,
}

/// What a plant did, from its start to its end.
#[derive(Debug, Drop)]
pub struct Report {
    /// The frames that the broker took with their senders, oldest first. Sender i is edge node i, the last one is the host.
    pub taken: Vec<Message>,
    /// The sends that a full ring refused, oldest first.
    pub refusals: Vec<Refusal>,
    /// The edge nodes, in the plan's order.
    pub nodes: Vec<NodeReport>,
    /// Of each item that the host's ring brought: what it said to the host, and what the host consumed at it. Oldest first.
    pub given: Vec<Given>,
    /// Of each of these items: how many frames the broker had taken when the ring took it.
    pub accepted: Vec<usize>,
    /// How many of the refusals were the host's.
    pub refused: usize,
    /// Whether the broker closed the host.
    pub is_cut: bool,
}
