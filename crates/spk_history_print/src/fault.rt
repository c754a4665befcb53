//! The refusals of this crate.
ghost use Rattle.std.specs.Prelude.{◌≡◌};
ghost use Rattle.spk_history_print.specs.Fault.{number_of};

use spk_history_rows::RowsFault;
use std::alloc::{AllocError, AllocFailed};
use thiserror::Error;

/// Why a history isn't exported, or not to its end.
#[derive(Clone, Copy, Debug, PartialEq, Eq, Error)]
pub enum ExportFault {
    /// A growth was refused.
    #[error("NoMemory")]
    NoMemory = 1,
    /// The history has more entries than a place counts.
    #[error("LongHistory")]
    LongHistory = 132,
    /// The file that the tables are to be written to is there already.
    #[error("Exists")]
    Exists = 133,
    /// A part can't be read.
    #[error("NoPart")]
    NoPart = 134,
    /// A part is no history of this version.
    #[error("NotHistory")]
    NotHistory = 135,
    /// The database refused a statement, or its file can't be written.
    #[error("Database")]
    Database = 136,
    /// What was to be printed can't be written.
    #[error("NoOutput")]
    NoOutput = 137,
}

impl ExportFault {
    /// The fault's number.
    pub fn number(self) -> u32
        ensures { result ≡ number_of self }
    {
        self as u32
    }
}

impl From<AllocError> for ExportFault {
    ghost use Rattle.std.specs.Prelude.{◌≡◌};
    ghost use Rattle.spk_history_print.specs.declared.fault.ExportFault.TheVariants.{NoMemory};

    ghost from_gives = { λ _ e. e ≡ NoMemory };

    fn from(_failed: AllocError) -> ExportFault {
        ExportFault::NoMemory
    }
}

impl<T: Drop> From<AllocFailed<T>> for ExportFault {
    ghost use Rattle.std.specs.Prelude.{◌≡◌};
    ghost use Rattle.spk_history_print.specs.declared.fault.ExportFault.TheVariants.{NoMemory};

    ghost from_gives = { λ _ e. e ≡ NoMemory };

    fn from(_failed: AllocFailed<T>) -> ExportFault {
        ExportFault::NoMemory
    }
}

impl From<RowsFault> for ExportFault {
    fn from(fault: RowsFault) -> ExportFault {
        match fault {
            RowsFault::NoMemory => ExportFault::NoMemory,
            RowsFault::LongHistory => ExportFault::LongHistory,
        }
    }
}
