//! The parts of a host's history, in memory.

use spk_programs::{PartDisk, PartDisks};
use std::alloc::Global;

/// How many writes fail first, one after the other (own rule).
const STUCK: u32 = 2;

/// The parts of one history.
#[derive(Drop)]
pub(crate) struct Binder {
    alloc: Global,
    pub(crate) name: String,
    pub(crate) parts: Vec<Vec<u8>>,
    stuck: u32,
}

impl Binder {
    /// The history of this name: no part is begun.
    pub(crate) fn new(alloc: Global, name: String) -> Binder {
        Binder {
            alloc,
            name,
            parts: Vec::new(alloc),
            stuck: STUCK,
        }
    }
}

impl PartDisk for Binder {
    fn begin(&mut self) -> bool {
        self.parts.push(Vec::new(self.alloc)).is_ok()
    }

    fn write(&mut self, bytes: &[u8]) -> Option<usize> {
        if self.stuck > 0 {
            self.stuck = self.stuck.saturating_sub(1);
            return None;
        }
        // half of it, so that there are several writes
        let (front, _) = bytes.split_at(bytes.len().div_ceil(2));
        self.parts.last_mut()?.extend_from_slice(front).ok()?;
        Some(front.len())
    }

    fn sync(&mut self) -> bool {
        true
    }
}

/// Where histories are, in memory.
#[derive(Drop)]
pub(crate) struct Binders {
    pub(crate) alloc: Global,
}

impl PartDisks for Binders {
    type Disk = Binder;

    fn parts(&mut self, name: &str) -> Option<Binder> {
        let name = String::from_str(self.alloc, name).ok()?;
        Some(Binder::new(self.alloc, name))
    }
}
