//! Why a call of a host is refused.
ghost use Rattle.std.specs.Prelude.{◌≡◌};
ghost use Rattle.spk_host_session.specs.declared.fault.HostFault.TheVariants.{NoMemory};

use std::alloc::{AllocError, AllocFailed};
use thiserror::Error;

/// Why a call of a host is refused, or no memory.
#[derive(Clone, Copy, Debug, PartialEq, Eq, Error)]
pub enum HostFault {
    /// A growth was refused. The same call may be made again.
    #[error("NoMemory")]
    NoMemory = 1,
    /// The topic of a PUBLISH isn't one of Sparkplug, or the host's name or group can't stand in one.
    #[error("NotSparkplug")]
    NotSparkplug = 70,
    /// The bytes aren't one packet, or the payload can't be read.
    #[error("BadPayload")]
    BadPayload = 71,
    /// A message that has to carry a sequence number has none, or one over 255.
    #[error("NoSeq")]
    NoSeq = 72,
    /// An NBIRTH has no timestamp.
    #[error("NoStamp")]
    NoStamp = 73,
    /// An NBIRTH or NDEATH has no `bdSeq`, or one that is no whole number from 0 to 255.
    #[error("NoBdSeq")]
    NoBdSeq = 74,
    /// A session is begun within one, or a call that needs one is made outside.
    #[error("WrongPhase")]
    WrongPhase = 75,
}

impl HostFault {
    ghost use Rattle.spk_host_session.specs.Fault.{number_of};

    /// The number that users and other programs know the fault by.
    pub fn number(self) -> u32
        ensures { result ≡ number_of self }
    {
        self as u32
    }
}

impl From<AllocError> for HostFault {
    ghost from_gives = { λ _ e. e ≡ NoMemory };

    fn from(_refused: AllocError) -> HostFault {
        HostFault::NoMemory
    }
}

impl<T: Drop> From<AllocFailed<T>> for HostFault {
    ghost from_gives = { λ _ e. e ≡ NoMemory };

    fn from(_refused: AllocFailed<T>) -> HostFault {
        HostFault::NoMemory
    }
}
