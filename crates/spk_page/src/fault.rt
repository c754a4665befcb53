//! The refusals of this crate.
ghost use Rattle.std.specs.Prelude.{◌≡◌};
ghost use Rattle.spk_page.specs.Fault.{number_of};

use http1::WriteError;
use std::alloc::AllocError;
use thiserror::Error;

/// Why nothing is sent to a client.
#[derive(Clone, Copy, Debug, PartialEq, Eq, Error)]
pub enum PageFault {
    /// A growth was refused.
    #[error("NoMemory")]
    NoMemory = 1,
    /// Nothing is asked for, or HTTP has no such answer.
    #[error("NotSent")]
    NotSent = 122,
}

impl PageFault {
    /// The fault's number.
    pub fn number(self) -> u32
        ensures { result ≡ number_of self }
    {
        self as u32
    }
}

impl From<AllocError> for PageFault {
    ghost use Rattle.std.specs.Prelude.{◌≡◌};
    ghost use Rattle.spk_page.specs.declared.fault.PageFault.TheVariants.{NoMemory};

    ghost from_gives = { λ _ e. e ≡ NoMemory };

    fn from(_failed: AllocError) -> PageFault {
        PageFault::NoMemory
    }
}

impl From<WriteError> for PageFault {
    ghost use Rattle.std.specs.Prelude.{◌≡◌};
    ghost use Rattle.spk_page.specs.Fault.{fault_of};

    ghost from_gives = { λ e f. f ≡ fault_of e };

    fn from(error: WriteError) -> PageFault {
        match error {
            WriteError::OutOfMemory => PageFault::NoMemory,
            _ => PageFault::NotSent,
        }
    }
}
