//! The refusals of `serve`.
ghost use Rattle.std.specs.Prelude.{◌≡◌};
ghost use Rattle.spk_runtime.specs.Fault.{number_of, of_store};

use spk_broker_store::StoreFault;
use spk_server::ServerFault;
use std::alloc::{AllocError, AllocFailed};
use thiserror::Error;

/// Why `serve` ended early.
#[derive(Clone, Copy, Debug, PartialEq, Eq, Error)]
pub enum ServeFault {
    /// A growth was refused.
    #[error("NoMemory")]
    NoMemory = 1,
    /// The number of clients isn't 1 to 1,000.
    #[error("BadPlan")]
    BadPlan = 92,
    /// Listening, accepting or the writer failed.
    #[error("Device")]
    Device = 96,
    /// What came to the broker can't be kept: its disk failed.
    #[error("Unkept")]
    Unkept = 141,
}

impl ServeFault {
    /// The fault's number.
    pub fn number(self) -> u32
        ensures { result ≡ number_of self }
    {
        self as u32
    }
}

impl From<AllocError> for ServeFault {
    ghost use Rattle.std.specs.Prelude.{◌≡◌};
    ghost use Rattle.spk_runtime.specs.declared.fault.ServeFault.TheVariants.{NoMemory};

    ghost from_gives = { λ _ e. e ≡ NoMemory };

    fn from(_failed: AllocError) -> ServeFault {
        ServeFault::NoMemory
    }
}

impl<T: Drop> From<AllocFailed<T>> for ServeFault {
    ghost use Rattle.std.specs.Prelude.{◌≡◌};
    ghost use Rattle.spk_runtime.specs.declared.fault.ServeFault.TheVariants.{NoMemory};

    ghost from_gives = { λ _ e. e ≡ NoMemory };

    fn from(_failed: AllocFailed<T>) -> ServeFault {
        ServeFault::NoMemory
    }
}

impl From<ServerFault> for ServeFault {
    ghost use Rattle.std.specs.Prelude.{◌≡◌};
    ghost use Rattle.spk_runtime.specs.declared.fault.ServeFault.TheVariants.{NoMemory};

    ghost from_gives = { λ _ e. e ≡ NoMemory };

    fn from(_failed: ServerFault) -> ServeFault {
        ServeFault::NoMemory
    }
}

/// What ends a server whose store refused.
pub(crate) fn of_store(fault: StoreFault) -> ServeFault
    ensures { result ≡ of_store fault }
{
    match fault {
        StoreFault::NoMemory => ServeFault::NoMemory,
        StoreFault::Unfit => ServeFault::Unkept,
        StoreFault::Unkept => ServeFault::Unkept,
    }
}
