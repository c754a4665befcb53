//! The refusals of this crate.
ghost use Rattle.std.specs.Prelude.{◌≡◌};
ghost use Rattle.spk_journal.specs.Fault.{number_of};

use std::alloc::AllocError;
use thiserror::Error;

/// Why a line isn't noted.
#[derive(Clone, Copy, Debug, PartialEq, Eq, Error)]
pub enum JournalFault {
    /// A growth was refused.
    #[error("NoMemory")]
    NoMemory = 1,
    /// It has the end of a line in it, or is the mark `said`.
    #[error("BadLine")]
    BadLine = 118,
}

impl JournalFault {
    /// The fault's number.
    pub fn number(self) -> u32
        ensures { result ≡ number_of self }
    {
        self as u32
    }
}

impl From<AllocError> for JournalFault {
    ghost use Rattle.std.specs.Prelude.{◌≡◌};
    ghost use Rattle.spk_journal.specs.declared.fault.JournalFault.TheVariants.{NoMemory};

    ghost from_gives = { λ _ e. e ≡ NoMemory };

    fn from(_failed: AllocError) -> JournalFault {
        JournalFault::NoMemory
    }
}
