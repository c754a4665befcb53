//! What the program of a host knows of the nodes: the names that their births gave, and how each was told to stand.

use spk_host::Entry;
use spk_reading::{Numbered, Subject};
use spk_view::{NodeView, Ready, Watch};
use std::alloc::{AllocError, Global};
use std::collections::BTreeMap;
use std::mem;

/// How a node or a device stands.
#[derive(Clone, Copy, Debug, PartialEq, Eq)]
pub(crate) enum Stand {
    /// No birth of it came.
    Unborn,
    /// Its values are current.
    Current,
    /// A message was lost: its values aren't current until the next birth. Or nothing came for too long: until the next message.
    Stale,
    /// It is over, or the host's session is: its values aren't current.
    Offline,
}

/// How it stands, by what is shown of it.
pub(crate) fn stand_of(online: bool, stale: bool) -> Stand {
    match (online, stale) {
        (false, _) => Stand::Offline,
        (true, true) => Stand::Stale,
        (true, false) => Stand::Current,
    }
}

/// A node.
#[derive(Drop)]
pub(crate) struct Known {
    /// Its group and its name, with `/` between.
    title: String,
    /// What the births among the consumed messages named.
    names: Watch,
    /// How it was told to stand.
    pub(crate) stand: Stand,
    /// How its devices were told to, in the order in which the host shows them.
    pub(crate) devices: Vec<Stand>,
    /// When the last message of it was consumed.
    heard: u64,
    /// Nothing of it was consumed for too long since.
    silent: bool,
}

/// The nodes, in the order in which the host first heard them.
#[derive(Drop)]
pub(crate) struct Nodes {
    alloc: Global,
    nodes: Vec<Known>,
    /// The place of each, by its group and its name with `/` between, which stands in no name.
    places: BTreeMap<String, usize>,
    key: String,
}

/// Learns the names that a birth gives. Other messages give none.
fn learn(alloc: Global, names: &mut Watch, message: &Numbered) -> Result<(), AllocError> {
    let metrics = &message.payload.metrics;
    let ready = match &message.subject {
        Subject::NodeBirth => {
            if names.consume_node_rebirth(alloc, metrics)? {
                return Ok(());
            }
            Ready::node_birth(alloc, metrics)?
        }
        Subject::DeviceBirth(device) => {
            let device = device.as_str();
            if names.consume_device_rebirth(alloc, device, metrics)? {
                return Ok(());
            }
            names.reserve(1)?;
            Ready::device_birth(alloc, device, metrics)?
        }
        _ => return Ok(()),
    };
    let _ = names.consume(0, ready, 0);
    Ok(())
}

impl Known {
    fn new(alloc: Global, title: String) -> Known {
        Known {
            title,
            names: Watch::new(alloc),
            stand: Stand::Unborn,
            devices: Vec::new(alloc),
            heard: 0,
            silent: false,
        }
    }

    /// A message of it was consumed. Whether it had been silent.
    pub(crate) fn hear(&mut self, now: u64) -> bool {
        self.heard = now;
        mem::replace(&mut self.silent, false)
    }

    /// Whether it is silent from now on: its values were current, and nothing of it was consumed for so many milliseconds.
    pub(crate) fn falls_silent(&mut self, patience: u64, now: u64) -> bool {
        let falls = self.stand == Stand::Current && now >= self.heard.saturating_add(patience);
        self.silent = self.silent || falls;
        falls
    }

    /// How it, or a device of it, that stands so is told to stand: where it is silent, no value is current.
    pub(crate) fn told(&self, stand: Stand) -> Stand {
        if self.silent && stand == Stand::Current {
            Stand::Stale
        } else {
            stand
        }
    }

    /// What the births named.
    pub(crate) fn names(&self) -> Option<&NodeView> {
        self.names.view()
    }
}

impl Nodes {
    pub(crate) fn new(alloc: Global) -> Nodes {
        Nodes {
            alloc,
            nodes: Vec::new(alloc),
            places: BTreeMap::new(alloc),
            key: String::new(alloc),
        }
    }

    /// Writes the key of a node.
    fn write_key(&mut self, group: &str, node: &str) -> Result<(), AllocError> {
        self.key.clear();
        self.key.push_str(group)?;
        self.key.push_str("/")?;
        self.key.push_str(node)
    }

    /// Takes in the nodes that the host heard since.
    pub(crate) fn follow(&mut self, entries: &[Entry]) -> Result<(), AllocError> {
        let first = self.nodes.len();
        for entry in entries.iter().skip(first) {
            self.write_key(entry.group(), entry.node())?;
            self.nodes.reserve(1)?;
            let key = String::from_str(self.alloc, self.key.as_str())?;
            let title = String::from_str(self.alloc, self.key.as_str())?;
            self.places.insert(key, self.nodes.len())?;
            self.nodes.push(Known::new(self.alloc, title))?;
        }
        Ok(())
    }

    /// The place of a node, if the host heard it.
    pub(crate) fn place_of(
        &mut self,
        group: &str,
        node: &str,
    ) -> Result<Option<usize>, AllocError> {
        self.write_key(group, node)?;
        Ok(self.places.get(self.key.as_str()).copied())
    }

    /// The group and the name of the node at a place, with `/` between.
    pub(crate) fn title(&self, place: usize) -> Option<&str> {
        Some(self.nodes.get(place)?.title.as_str())
    }

    /// How many there are.
    pub(crate) fn count(&self) -> usize {
        self.nodes.len()
    }

    /// The node at a place.
    pub(crate) fn at(&self, place: usize) -> Option<&Known> {
        self.nodes.get(place)
    }

    /// The same, to be changed.
    pub(crate) fn at_mut(&mut self, place: usize) -> Option<&mut Known> {
        self.nodes.get_mut(place)
    }

    /// A message of the node at a place was consumed: the names that it gives are learnt.
    pub(crate) fn learn(&mut self, place: usize, message: &Numbered) -> Result<(), AllocError> {
        match self.nodes.get_mut(place) {
            Some(known) => learn(self.alloc, &mut known.names, message),
            None => Ok(()),
        }
    }
}
