//! The refusals of this crate.
ghost use Rattle.std.specs.Prelude.{◌≡◌};
ghost use Rattle.spk_engines.specs.Fault.{number_of};

use std::alloc::AllocError;
use thiserror::Error;

/// Why an engine ended early. What was put or written stays so.
#[derive(Clone, Copy, Debug, PartialEq, Eq, Error)]
pub enum EngineFault {
    /// A growth was refused.
    #[error("NoMemory")]
    NoMemory = 1,
    /// The frames' taker is gone.
    #[error("Closed")]
    Closed = 90,
    /// The turns are spent.
    #[error("TurnsSpent")]
    TurnsSpent = 94,
    /// The reader or writer counted one more failure.
    #[error("Device")]
    Device = 96,
}

impl EngineFault {
    /// The fault's number.
    pub fn number(self) -> u32
        ensures { result ≡ number_of self }
    {
        self as u32
    }
}

impl From<AllocError> for EngineFault {
    ghost use Rattle.std.specs.Prelude.{◌≡◌};
    ghost use Rattle.spk_engines.specs.declared.fault.EngineFault.TheVariants.{NoMemory};

    ghost from_gives = { λ _ e. e ≡ NoMemory };

    fn from(_failed: AllocError) -> EngineFault {
        EngineFault::NoMemory
    }
}
