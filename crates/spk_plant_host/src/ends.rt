//! What the host's thread begins with, and what it hands on.
ghost use Rattle.std.specs.Prelude.{◌≡◌};
ghost use Rattle.spk_plant_host.specs.Fault.{fault_of};

use crate::fault::HostCause;
use spk_host::{Host, Taken};
use spk_ingress::PutPass;
use spk_plan::PlantFault;
use spk_reading::Heard;
use spk_rings::Inlet;
use std::fmt;

/// What the host's thread begins with.
#[derive(Drop)]
pub struct HostStart {
    /// A new host, outside a session.
    pub host: Host,
    /// The names of the edge nodes, in their order. A gate is told of a node by its place.
    pub nodes: Vec<String>,
    /// The host's pass, the last sender's.
    pub pass: PutPass,
    /// Where the host's packets come from.
    pub inlet: Inlet,
}

impl fmt::Debug for HostStart {
    fn fmt<W: fmt::Write>(&self, f: &mut fmt::Formatter<W>) -> fmt::Result {
        f.write_str("HostStart { .. }")
    }
}

/// One item of the host's ring. The first is at moment 1, the next at moment 2, and so on.
#[derive(Debug, Drop)]
pub struct Given {
    /// What it said to the host; None where the host refuses it.
    pub heard: Option<Heard>,
    /// The messages that the host consumed at it, in the order of their numbers.
    pub consumed: Vec<Taken>,
}

/// What the host's thread hands on.
#[derive(Drop)]
pub struct HostEnd {
    /// The items of the ring, oldest first.
    pub given: Vec<Given>,
    /// The host at its end.
    pub host: Host,
    /// All that was put: the host's packets, and then End.
    pub pass: PutPass,
    /// The ring, empty.
    pub inlet: Inlet,
}

impl fmt::Debug for HostEnd {
    fn fmt<W: fmt::Write>(&self, f: &mut fmt::Formatter<W>) -> fmt::Result {
        f.write_str("HostEnd { .. }")
    }
}

/// What a host's thread that failed hands on.
#[derive(Drop)]
pub struct HostFailed {
    /// Why it failed.
    pub cause: HostCause,
    /// What was put until then, and then End, unless it failed with Closed.
    pub pass: PutPass,
}

impl HostFailed {
    /// The fault of a plant: NoMemory (1) or Closed (90).
    pub fn fault(&self) -> PlantFault
        ensures { result ≡ fault_of self.now.cause }
    {
        self.cause.fault()
    }
}

impl fmt::Debug for HostFailed {
    fn fmt<W: fmt::Write>(&self, f: &mut fmt::Formatter<W>) -> fmt::Result {
        f.write_str("HostFailed { .. }")
    }
}
