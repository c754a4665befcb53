//! The refusals of this crate.
ghost use Rattle.std.specs.Prelude.{◌≡◌};
ghost use Rattle.spk_history.specs.Fault.{number_of};

use std::alloc::AllocError;
use thiserror::Error;

/// Why an entry isn't written, or no part begins.
#[derive(Clone, Copy, Debug, PartialEq, Eq, Error)]
pub enum HistoryFault {
    /// A growth was refused.
    #[error("NoMemory")]
    NoMemory = 1,
    /// A name has more than 65,535 bytes.
    #[error("LongName")]
    LongName = 123,
    /// The content would have more bytes than a record may have.
    #[error("LongRecord")]
    LongRecord = 124,
    /// With it the part would pass its most bytes.
    #[error("FullPart")]
    FullPart = 125,
    /// Something is still to be written of the part.
    #[error("Unwritten")]
    Unwritten = 126,
}

impl HistoryFault {
    /// The fault's number.
    pub fn number(self) -> u32
        ensures { result ≡ number_of self }
    {
        self as u32
    }
}

impl From<AllocError> for HistoryFault {
    ghost use Rattle.std.specs.Prelude.{◌≡◌};
    ghost use Rattle.spk_history.specs.declared.fault.HistoryFault.TheVariants.{NoMemory};

    ghost from_gives = { λ _ e. e ≡ NoMemory };

    fn from(_failed: AllocError) -> HistoryFault {
        HistoryFault::NoMemory
    }
}
