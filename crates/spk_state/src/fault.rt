//! The refusals of this crate.
ghost use Rattle.std.specs.Prelude.{◌≡◌};
ghost use Rattle.spk_state.specs.Fault.{number_of};

use std::alloc::AllocError;
use thiserror::Error;

/// Why bytes are no STATE, or none could be written.
#[derive(Clone, Copy, Debug, PartialEq, Eq, Error)]
pub enum StateFault {
    /// A growth was refused.
    #[error("NoMemory")]
    NoMemory = 1,
    /// The bytes are no JSON object with a Boolean `online` and a whole `timestamp` below 2^63.
    #[error("BadState")]
    BadState = 50,
}

impl StateFault {
    /// The fault's number.
    pub fn number(self) -> u32
        ensures { result ≡ number_of self }
    {
        self as u32
    }
}

impl From<AllocError> for StateFault {
    ghost use Rattle.std.specs.Prelude.{◌≡◌};
    ghost use Rattle.spk_state.specs.declared.fault.StateFault.TheVariants.{NoMemory};

    ghost from_gives = { λ _ e. e ≡ NoMemory };

    fn from(_failed: AllocError) -> StateFault {
        StateFault::NoMemory
    }
}
