//! The refusals of a part of a broker's data.
ghost use Rattle.std.specs.Prelude.{◌≡◌};
ghost use Rattle.spk_broker.specs.Restoring.{part_number};

use std::alloc::{AllocError, AllocFailed};
use thiserror::Error;

/// Why a part of a broker's data was refused. Where it was, nothing has changed.
#[derive(Clone, Copy, Debug, PartialEq, Eq, Error)]
pub enum PartFault {
    /// A growth was refused.
    #[error("NoMemory")]
    NoMemory = 1,
    /// The part doesn't fit what is there, or is none that a broker can have (own rule).
    #[error("Unfit")]
    Unfit = 139,
}

impl PartFault {
    /// The fault's number.
    pub fn number(self) -> u32
        ensures { result ≡ part_number self }
    {
        self as u32
    }
}

impl From<AllocError> for PartFault {
    ghost use Rattle.std.specs.Prelude.{◌≡◌};
    ghost use Rattle.spk_broker.specs.declared.part_fault.PartFault.TheVariants.{NoMemory};

    ghost from_gives = { λ _ e. e ≡ NoMemory };

    fn from(_failed: AllocError) -> PartFault {
        PartFault::NoMemory
    }
}

impl<T: Drop> From<AllocFailed<T>> for PartFault {
    ghost use Rattle.std.specs.Prelude.{◌≡◌};
    ghost use Rattle.spk_broker.specs.declared.part_fault.PartFault.TheVariants.{NoMemory};

    ghost from_gives = { λ _ e. e ≡ NoMemory };

    fn from(_failed: AllocFailed<T>) -> PartFault {
        PartFault::NoMemory
    }
}
