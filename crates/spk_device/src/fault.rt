//! The refusals of this crate.
ghost use Rattle.std.specs.Prelude.{◌≡◌};
ghost use Rattle.spk_device.specs.Fault.{number_of, refusal_number};
ghost use Rattle.spk_device.specs.declared.fault.DeviceFault.TheVariants as faults;

use std::alloc::{AllocError, AllocFailed};
use thiserror::Error;

/// What is wrong with a call.
#[derive(Clone, Copy, Debug, PartialEq, Eq, Error)]
pub enum Refusal {
    /// A device of that name is there, a metric of that owner and name is there, or the node's own messages use the name.
    #[error("Duplicate")]
    Duplicate = 40,
    /// There is no such device or no such alias.
    #[error("NoSuch")]
    NoSuch = 41,
    /// The datatype isn't written, or the value isn't of it.
    #[error("WrongKind")]
    WrongKind = 42,
    /// There are 1,000 devices or 10,000 metrics.
    #[error("Full")]
    Full = 43,
    /// The name is empty, or a device's name holds `+`, `/`, `#` or U+0000.
    #[error("BadName")]
    BadName = 44,
}

impl Refusal {
    /// The number that users and other programs know the refusal by.
    pub fn number(self) -> u32
        ensures { result ≡ refusal_number self }
    {
        self as u32
    }
}

/// Why a call that wants memory failed.
#[derive(Clone, Copy, Debug, PartialEq, Eq, Error)]
pub enum DeviceFault {
    /// A growth was refused, and nothing has changed. The same call may be made again.
    #[error("NoMemory")]
    NoMemory,
    /// The call was refused, and nothing has changed.
    #[error(transparent)]
    Refused(Refusal),
}

impl DeviceFault {
    /// The number that users and other programs know the fault by.
    pub fn number(self) -> u32
        ensures { result ≡ number_of self }
    {
        match self {
            DeviceFault::NoMemory => 1,
            DeviceFault::Refused(refusal) => refusal.number(),
        }
    }
}

impl From<Refusal> for DeviceFault {
    ghost use Rattle.std.specs.Prelude.{◌≡◌};
    ghost use Rattle.spk_device.specs.declared.fault.DeviceFault.TheVariants.{Refused};

    ghost from_gives = { λ refusal e. e ≡ Refused refusal };

    fn from(refusal: Refusal) -> DeviceFault {
        DeviceFault::Refused(refusal)
    }
}

impl From<AllocError> for DeviceFault {
    ghost use Rattle.std.specs.Prelude.{◌≡◌};
    ghost use Rattle.spk_device.specs.declared.fault.DeviceFault.TheVariants.{NoMemory};

    ghost from_gives = { λ _ e. e ≡ NoMemory };

    fn from(_refused: AllocError) -> DeviceFault {
        DeviceFault::NoMemory
    }
}

impl<T: Drop> From<AllocFailed<T>> for DeviceFault {
    ghost use Rattle.std.specs.Prelude.{◌≡◌};
    ghost use Rattle.spk_device.specs.declared.fault.DeviceFault.TheVariants.{NoMemory};

    ghost from_gives = { λ _ e. e ≡ NoMemory };

    fn from(_refused: AllocFailed<T>) -> DeviceFault {
        DeviceFault::NoMemory
    }
}
