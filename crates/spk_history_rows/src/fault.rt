//! The refusals of this crate.
ghost use Rattle.std.specs.Prelude.{◌≡◌};
ghost use Rattle.spk_history_rows.specs.Fault.{number_of};

use std::alloc::AllocError;
use thiserror::Error;

/// Why an entry has no row.
#[derive(Clone, Copy, Debug, PartialEq, Eq, Error)]
pub enum RowsFault {
    /// A growth was refused.
    #[error("NoMemory")]
    NoMemory = 1,
    /// The history has more entries than a place counts.
    #[error("LongHistory")]
    LongHistory = 132,
}

impl RowsFault {
    /// The fault's number.
    pub fn number(self) -> u32
        ensures { result ≡ number_of self }
    {
        self as u32
    }
}

impl From<AllocError> for RowsFault {
    ghost use Rattle.std.specs.Prelude.{◌≡◌};
    ghost use Rattle.spk_history_rows.specs.declared.fault.RowsFault.TheVariants.{NoMemory};

    ghost from_gives = { λ _ e. e ≡ NoMemory };

    fn from(_failed: AllocError) -> RowsFault {
        RowsFault::NoMemory
    }
}
