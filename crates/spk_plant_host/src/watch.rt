//! Whom the host's thread tells what it consumed.
use spk_host::Taken;
use spk_plan::Gate;
use std::alloc::{AllocError, Global};

/// The edge nodes, and of each how many messages were consumed: for the gate alone.
#[derive(Drop)]
pub(crate) struct Watch {
    alloc: Global,
    names: Vec<String>,
    counts: Vec<u64>,
}

impl Watch {
    pub(crate) fn new(alloc: Global, names: Vec<String>) -> Watch {
        Watch {
            alloc,
            names,
            counts: Vec::new(alloc),
        }
    }

    /// Nothing was consumed of any node.
    pub(crate) fn start(&mut self) -> Result<(), AllocError> {
        self.counts = vec![in self.alloc; 0u64; self.names.len()]?;
        Ok(())
    }

    /// A message of a node was consumed.
    fn tell<G: Gate>(&mut self, gate: &G, node: &str) {
        let Some(place) = self.names.iter().position(|name| name.as_str() == node) else {
            return;
        };
        if let Some(count) = self.counts.get_mut(place) {
            gate.after_consume(place, *count);
            *count = count.saturating_add(1);
        }
    }

    /// These messages were consumed.
    pub(crate) fn tell_all<G: Gate>(&mut self, gate: &G, consumed: &[Taken]) {
        for taken in consumed {
            self.tell(gate, taken.node.as_str());
        }
    }
}
