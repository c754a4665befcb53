//! Why a program ends early.
ghost use Rattle.std.specs.Prelude.{◌≡◌};
ghost use Rattle.spk_programs.specs.Fault.{number_of};

use spk_history::HistoryFault;
use spk_network::NetworkFault;
use std::alloc::{AllocError, AllocFailed};
use std::io::Write;
use thiserror::Error;

/// Why a program ends early, or doesn't begin.
#[derive(Clone, Copy, Debug, PartialEq, Eq, Error)]
pub enum ProgramFault {
    /// A growth was refused.
    #[error("NoMemory")]
    NoMemory = 1,
    /// The node's or the host's names or limits are none.
    #[error("BadConfig")]
    BadConfig = 63,
    /// Nothing can be waited for.
    #[error("Device")]
    Device = 96,
    /// The file of the record isn't a record.
    #[error("BadRecord")]
    BadRecord = 110,
    /// No part of the history can be begun.
    #[error("NoHistory")]
    NoHistory = 127,
    /// Another process has the record, or the file of what is kept.
    #[error("BusyRecord")]
    BusyRecord = 130,
    /// The record, or the file of what is kept, can't be read, or its folder can't be written.
    #[error("NoRecord")]
    NoRecord = 131,
}

impl ProgramFault {
    /// The fault's number.
    pub fn number(self) -> u32
        ensures { result ≡ number_of self }
    {
        self as u32
    }
}

impl From<AllocError> for ProgramFault {
    ghost use Rattle.std.specs.Prelude.{◌≡◌};
    ghost use Rattle.spk_programs.specs.declared.fault.ProgramFault.TheVariants.{NoMemory};

    ghost from_gives = { λ _ e. e ≡ NoMemory };

    fn from(_failed: AllocError) -> ProgramFault {
        ProgramFault::NoMemory
    }
}

impl<T: Drop> From<AllocFailed<T>> for ProgramFault {
    ghost use Rattle.std.specs.Prelude.{◌≡◌};
    ghost use Rattle.spk_programs.specs.declared.fault.ProgramFault.TheVariants.{NoMemory};

    ghost from_gives = { λ _ e. e ≡ NoMemory };

    fn from(_failed: AllocFailed<T>) -> ProgramFault {
        ProgramFault::NoMemory
    }
}

impl From<HistoryFault> for ProgramFault {
    fn from(_fault: HistoryFault) -> ProgramFault {
        ProgramFault::NoMemory
    }
}

impl From<NetworkFault> for ProgramFault {
    fn from(fault: NetworkFault) -> ProgramFault {
        match fault {
            NetworkFault::NoMemory => ProgramFault::NoMemory,
            NetworkFault::Device => ProgramFault::Device,
        }
    }
}

/// Prints a fault, and answers the status.
pub(crate) fn told<W: Write>(out: &mut W, fault: ProgramFault) -> u8 {
    let number = fault.number();
    let _ = writeln!(out, "fault {fault} ({number})");
    let _ = out.flush();
    1
}
