//! The refusals of this crate.
ghost use Rattle.std.specs.Prelude.{◌≡◌};
ghost use Rattle.spk_rings.specs.Fault.{number_of};

use crate::item::Item;
use thiserror::Error;

/// Why there is no ring.
#[derive(Clone, Copy, Debug, PartialEq, Eq, Error)]
pub enum RingFault {
    /// A growth was refused.
    #[error("NoMemory")]
    NoMemory = 1,
    /// The capacity isn't 1 to 65,536.
    #[error("BadPlan")]
    BadPlan = 92,
}

impl RingFault {
    /// The fault's number.
    pub fn number(self) -> u32
        ensures { result ≡ number_of self }
    {
        self as u32
    }
}

/// A ring that has no room. It hands the item back.
#[derive(Debug, Drop, Error)]
#[error("Full")]
pub struct Full {
    pub item: Item,
}

impl Full {
    /// The fault's number.
    pub fn number(&self) -> u32
        ensures { result ≡ 91 }
    {
        91
    }
}
