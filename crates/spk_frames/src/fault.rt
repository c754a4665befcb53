//! Why a content isn't put into a frame.
ghost use Rattle.std.specs.Prelude.{◌≡◌};
ghost use Rattle.spk_frames.specs.Fault.{number_of};

use std::alloc::AllocError;
use thiserror::Error;

/// Why a content isn't put into a frame.
#[derive(Clone, Copy, Debug, PartialEq, Eq, Error)]
pub enum FrameFault {
    /// A growth was refused.
    #[error("NoMemory")]
    NoMemory = 1,
    /// The content has more bytes than may be.
    #[error("LongContent")]
    LongContent = 138,
}

impl FrameFault {
    /// The fault's number.
    pub fn number(self) -> u32
        ensures { result ≡ number_of self }
    {
        self as u32
    }
}

impl From<AllocError> for FrameFault {
    ghost use Rattle.std.specs.Prelude.{◌≡◌};
    ghost use Rattle.spk_frames.specs.declared.fault.FrameFault.TheVariants.{NoMemory};

    ghost from_gives = { λ _ e. e ≡ NoMemory };

    fn from(_failed: AllocError) -> FrameFault {
        FrameFault::NoMemory
    }
}
