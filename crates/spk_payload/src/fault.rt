//! Why bytes are no payload.

ghost use Rattle.std.specs.Prelude.{◌≡◌};
ghost use Rattle.spk_payload.specs.declared.fault.PayloadFault.TheVariants as faults;

use spk_protobuf::WireFault;
use std::alloc::{AllocError, AllocFailed};
use thiserror::Error;

/// Why there is no payload: the first fault in reading order, or no memory.
#[derive(Clone, Copy, Debug, PartialEq, Eq, Error)]
pub enum PayloadFault {
    /// A growth was refused. The same call may be made again.
    #[error("NoMemory")]
    NoMemory,
    /// A text is no list of fields, the payload's own or that of a metric.
    #[error(transparent)]
    Wire(WireFault),
    /// A metric's name or a string value isn't UTF-8.
    #[error("NotText")]
    NotText,
    /// A value that was read as `Raw::Other` can't be written.
    #[error("HasOther")]
    HasOther,
    /// A value isn't of the datatype that it is to be written as, or the datatype isn't written.
    #[error("Mistyped")]
    Mistyped,
}

impl PayloadFault {
    ghost use Rattle.spk_payload.specs.Fault.{number_of};

    /// The number that users and other programs know the fault by.
    pub fn number(self) -> u32
        ensures { result ≡ number_of self }
    {
        match self {
            PayloadFault::NoMemory => 1,
            PayloadFault::Wire(fault) => fault.number(),
            PayloadFault::NotText => 7,
            PayloadFault::HasOther => 8,
            PayloadFault::Mistyped => 9,
        }
    }
}

impl From<WireFault> for PayloadFault {
    ghost from_gives = { λ fault e. e ≡ faults.Wire fault };

    fn from(fault: WireFault) -> PayloadFault {
        PayloadFault::Wire(fault)
    }
}

impl From<AllocError> for PayloadFault {
    ghost from_gives = { λ _ e. e ≡ faults.NoMemory };

    fn from(_refused: AllocError) -> PayloadFault {
        PayloadFault::NoMemory
    }
}

impl<T: Drop> From<AllocFailed<T>> for PayloadFault {
    ghost from_gives = { λ _ e. e ≡ faults.NoMemory };

    fn from(_refused: AllocFailed<T>) -> PayloadFault {
        PayloadFault::NoMemory
    }
}
