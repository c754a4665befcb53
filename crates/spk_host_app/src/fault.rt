//! The refusals of this crate.
ghost use Rattle.std.specs.Prelude.{◌≡◌};
ghost use Rattle.spk_host_app.specs.Fault.{number_of};

use std::alloc::AllocError;
use thiserror::Error;

/// Why a call of a host application's program was refused, or its connection was given up.
#[derive(Clone, Copy, Debug, PartialEq, Eq, Error)]
pub enum HostAppFault {
    /// A growth was refused.
    #[error("NoMemory")]
    NoMemory = 1,
    /// More than 2,097,152 bytes that were read would wait to be taken (own rule).
    #[error("TooLarge")]
    TooLarge = 16,
    /// A connection begins while there is one, or a session of the host within one.
    #[error("WrongPhase")]
    WrongPhase = 75,
    /// There is no connection.
    #[error("NotOpen")]
    NotOpen = 112,
    /// What was read isn't a packet.
    #[error("NoPacket")]
    NoPacket = 120,
    /// The user name and the password can't stand in CONNECT.
    #[error("BadLogin")]
    BadLogin = 121,
}

impl HostAppFault {
    /// The fault's number.
    pub fn number(self) -> u32
        ensures { result ≡ number_of self }
    {
        self as u32
    }
}

impl From<AllocError> for HostAppFault {
    ghost use Rattle.std.specs.Prelude.{◌≡◌};
    ghost use Rattle.spk_host_app.specs.declared.fault.HostAppFault.TheVariants.{NoMemory};

    ghost from_gives = { λ _ e. e ≡ NoMemory };

    fn from(_failed: AllocError) -> HostAppFault {
        HostAppFault::NoMemory
    }
}
