//! Why the loop ends early.
ghost use Rattle.std.specs.Prelude.{◌≡◌};
ghost use Rattle.spk_network.specs.Fault.{number_of};

use std::alloc::{AllocError, AllocFailed};
use thiserror::Error;

/// Why the loop ends early.
#[derive(Clone, Copy, Debug, PartialEq, Eq, Error)]
pub enum NetworkFault {
    /// A growth was refused.
    #[error("NoMemory")]
    NoMemory = 1,
    /// Nothing can be waited for.
    #[error("Device")]
    Device = 96,
}

impl NetworkFault {
    /// The fault's number.
    pub fn number(self) -> u32
        ensures { result ≡ number_of self }
    {
        self as u32
    }
}

impl From<AllocError> for NetworkFault {
    ghost use Rattle.std.specs.Prelude.{◌≡◌};
    ghost use Rattle.spk_network.specs.declared.fault.NetworkFault.TheVariants.{NoMemory};

    ghost from_gives = { λ _ e. e ≡ NoMemory };

    fn from(_failed: AllocError) -> NetworkFault {
        NetworkFault::NoMemory
    }
}

impl<T: Drop> From<AllocFailed<T>> for NetworkFault {
    ghost use Rattle.std.specs.Prelude.{◌≡◌};
    ghost use Rattle.spk_network.specs.declared.fault.NetworkFault.TheVariants.{NoMemory};

    ghost from_gives = { λ _ e. e ≡ NoMemory };

    fn from(_failed: AllocFailed<T>) -> NetworkFault {
        NetworkFault::NoMemory
    }
}
