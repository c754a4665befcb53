//! What was told of each node last.

use spk_story::Stand;
use std::alloc::{AllocError, Global};

/// What was told of a node last.
#[derive(Clone, Copy, Debug)]
pub(crate) struct Past {
    pub(crate) stand: Stand,
    /// The bdSeq of its last birth.
    pub(crate) bd: u8,
    /// How many of its holes are over.
    pub(crate) holes: u64,
}

/// Of a node of which nothing was told.
const FRESH: Past = Past {
    stand: Stand::Unborn,
    bd: 0,
    holes: 0,
};

/// What was told of all nodes last, by their numbers.
#[derive(Drop)]
pub(crate) struct Pasts {
    pasts: Vec<Past>,
}

impl Pasts {
    pub(crate) fn new(alloc: Global) -> Pasts {
        Pasts {
            pasts: Vec::new(alloc),
        }
    }

    /// Makes a place for the node of a number.
    pub(crate) fn make_place(&mut self, number: u32) -> Result<(), AllocError> {
        let count = number as usize + 1;
        if self.pasts.len() < count {
            self.pasts.resize(count, FRESH)?;
        }
        Ok(())
    }

    /// What was told of a node.
    pub(crate) fn at(&self, number: u32) -> Past {
        match self.pasts.get(number as usize) {
            Some(past) => *past,
            None => FRESH,
        }
    }

    /// The node was born, with this bdSeq.
    pub(crate) fn bear(&mut self, number: u32, bd: u8) {
        if let Some(past) = self.pasts.get_mut(number as usize) {
            past.bd = bd;
        }
    }

    /// So many holes of the node were told.
    pub(crate) fn mend(&mut self, number: u32, holes: u64) {
        if let Some(past) = self.pasts.get_mut(number as usize) {
            past.holes = holes;
        }
    }

    /// The node was told to stand so.
    pub(crate) fn turn(&mut self, number: u32, stand: Stand) {
        if let Some(past) = self.pasts.get_mut(number as usize) {
            past.stand = stand;
        }
    }
}
