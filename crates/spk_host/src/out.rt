//! What a call of a host hands out.
use spk_reading::Numbered;
use spk_sequence::{Match, Step};
use spk_topics::Spark;

/// A message that was consumed: which node's and about what, its topic as it was published, and its payload.
pub type Taken = Numbered;

/// What a call of a host hands out.
#[derive(Debug, Drop)]
pub struct Out {
    /// The messages consumed, in the order of their numbers.
    pub consumed: Vec<Taken>,
    /// What became of the message that was handed in; or a gap, for each node that had one at a moment.
    pub steps: Vec<Step>,
    /// Of each gap of a moment, in the order of `steps`, the place in `Host::nodes` of the node that had it. No place where no moment
    /// was told: a message names its node itself.
    pub gaps: Vec<usize>,
    /// Whether the NDEATH that was handed in is that of the session of the last birth taken of its node (Sparkplug 3.0.0, chapter 6 on
    /// `bdSeq`). None where no NDEATH was handed in.
    pub death: Option<Match>,
    /// The topics of the rebirth requests.
    pub rebirths: Vec<Spark>,
    /// The bytes of the packets to be sent, in order.
    pub packets: Vec<Vec<u8>>,
}
