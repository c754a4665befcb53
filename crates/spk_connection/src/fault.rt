//! The refusals of this crate.
ghost use Rattle.std.specs.Prelude.{◌≡◌};
ghost use Rattle.spk_connection.specs.Fault.{number_of};

use std::alloc::AllocError;
use thiserror::Error;

/// Why a call of a connection was refused.
#[derive(Clone, Copy, Debug, PartialEq, Eq, Error)]
pub enum ConnectionFault {
    /// A growth was refused.
    #[error("NoMemory")]
    NoMemory = 1,
    /// More than 2,097,152 bytes that were read would wait to be taken (own rule).
    #[error("TooLarge")]
    TooLarge = 16,
    /// There is no connection.
    #[error("NotOpen")]
    NotOpen = 112,
}

impl ConnectionFault {
    /// The fault's number.
    pub fn number(self) -> u32
        ensures { result ≡ number_of self }
    {
        self as u32
    }
}

impl From<AllocError> for ConnectionFault {
    ghost use Rattle.std.specs.Prelude.{◌≡◌};
    ghost use Rattle.spk_connection.specs.declared.fault.ConnectionFault.TheVariants.{NoMemory};

    ghost from_gives = { λ _ e. e ≡ NoMemory };

    fn from(_failed: AllocError) -> ConnectionFault {
        ConnectionFault::NoMemory
    }
}
