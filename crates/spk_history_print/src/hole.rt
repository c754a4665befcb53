//! The holes in the readings of nodes, from the records of gaps and of closed holes.

use spk_history::{Ending, Entry, SessionEvent};
use spk_history_rows::Row;
use std::alloc::{AllocError, Global};

/// A hole. One that isn't closed has no end, and nothing ended it.
#[derive(Clone, Copy, Debug)]
pub struct Hole {
    /// The place of the record that began it, or without one of that which closed it.
    pub id: u64,
    /// The place of its node.
    pub node: usize,
    pub from: u64,
    pub to: Option<u64>,
    /// The position that was awaited as it began.
    pub awaited: Option<u64>,
    pub missing: u64,
    pub unused: Option<u64>,
    pub ended_by: Option<Ending>,
}

/// What ended a hole, as it is printed.
pub fn ending(ended_by: Ending) -> &'static str {
    match ended_by {
        Ending::Birth => "birth",
        Ending::NewSession => "new session",
        Ending::HostSession => "host session",
    }
}

/// The hole of each node that isn't closed, by the node's place.
#[derive(Drop)]
pub(crate) struct OpenHoles {
    nodes: Vec<Option<Hole>>,
}

impl OpenHoles {
    pub(crate) fn new(alloc: Global) -> OpenHoles {
        OpenHoles {
            nodes: Vec::new(alloc),
        }
    }

    fn reach(&mut self, place: usize) -> Result<(), AllocError> {
        for _ in self.nodes.len()..=place {
            self.nodes.push(None)?;
        }
        Ok(())
    }

    /// A gap began. Where a hole of its node isn't closed, it is in that.
    pub(crate) fn begin(&mut self, hole: Hole) -> Result<(), AllocError> {
        self.reach(hole.node)?;
        if let Some(open) = self.nodes.get_mut(hole.node) {
            if open.is_none() {
                *open = Some(hole);
            }
        }
        Ok(())
    }

    /// The hole of the node at a place that isn't closed: it is from now on.
    pub(crate) fn take(&mut self, place: usize) -> Option<Hole> {
        match self.nodes.get_mut(place) {
            Some(open) => open.take(),
            None => None,
        }
    }

    /// How many nodes may have one.
    pub(crate) fn reached(&self) -> usize {
        self.nodes.len()
    }
}

/// The hole that a row begins or closes, if it does: a closed one has its end.
pub(crate) fn hole_of(row: &Row) -> Option<Hole> {
    let node = row.node?;
    match row.entry {
        Entry::Gap {
            at,
            awaited,
            missing,
            ..
        } => Some(Hole {
            id: row.place,
            node,
            from: at,
            to: None,
            awaited: Some(awaited),
            missing,
            unused: None,
            ended_by: None,
        }),
        Entry::Hole {
            from,
            to,
            missing,
            unused,
            ended_by,
            ..
        } => Some(Hole {
            id: row.place,
            node,
            from,
            to: Some(to),
            awaited: None,
            missing,
            unused: Some(unused),
            ended_by: Some(ended_by),
        }),
        _ => None,
    }
}

/// A hole that was closed, with what the record that began it said, if there is one.
pub(crate) fn closed(hole: Hole, begun: Option<Hole>) -> Hole {
    match begun {
        Some(begun) => Hole {
            id: begun.id,
            awaited: begun.awaited,
            ..hole
        },
        None => hole,
    }
}

/// Whether the host's session begins.
pub(crate) fn begins_session(entry: &Entry) -> bool {
    matches!(
        entry,
        Entry::Session {
            what: SessionEvent::Began,
            ..
        }
    )
}
