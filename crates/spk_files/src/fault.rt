//! The refusals of this crate.
ghost use Rattle.std.specs.Prelude.{◌≡◌};
ghost use Rattle.spk_files.specs.Fault.{number_of};

use crate::misfit::Misfit;
use thiserror::Error;

/// Why a file isn't read.
#[derive(Clone, Copy, Debug, PartialEq, Eq, Error)]
pub enum FileFault {
    /// A growth was refused.
    #[error("NoMemory")]
    NoMemory = 1,
    /// The text isn't a file of this kind.
    #[error("BadPlan")]
    BadPlan = 92,
}

impl FileFault {
    /// What is said of a file that isn't read.
    pub(crate) fn of(misfit: &Misfit) -> FileFault {
        match misfit {
            Misfit::NoMemory => FileFault::NoMemory,
            Misfit::Wrong(..) => FileFault::BadPlan,
        }
    }

    /// The fault's number.
    pub fn number(self) -> u32
        ensures { result ≡ number_of self }
    {
        self as u32
    }
}
