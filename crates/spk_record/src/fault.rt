//! The refusals of this crate.
ghost use Rattle.std.specs.Prelude.{◌≡◌};
ghost use Rattle.spk_record.specs.Fault.{number_of};

use std::alloc::AllocError;
use thiserror::Error;

/// Why bytes are no record, or none was written.
#[derive(Clone, Copy, Debug, PartialEq, Eq, Error)]
pub enum RecordFault {
    /// A growth was refused.
    #[error("NoMemory")]
    NoMemory = 1,
    /// The bytes are no JSON object with a whole `bd` below 256 and a whole `stamp` below 2^63, or a record that is to be written has a stamp of 2^63 or more.
    #[error("BadRecord")]
    BadRecord = 110,
}

impl RecordFault {
    /// The fault's number.
    pub fn number(self) -> u32
        ensures { result ≡ number_of self }
    {
        self as u32
    }
}

impl From<AllocError> for RecordFault {
    ghost use Rattle.std.specs.Prelude.{◌≡◌};
    ghost use Rattle.spk_record.specs.declared.fault.RecordFault.TheVariants.{NoMemory};

    ghost from_gives = { λ _ e. e ≡ NoMemory };

    fn from(_failed: AllocError) -> RecordFault {
        RecordFault::NoMemory
    }
}
