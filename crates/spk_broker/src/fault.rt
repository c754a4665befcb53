//! The refusals of this crate.
ghost use Rattle.std.specs.Prelude.{◌≡◌};
ghost use Rattle.spk_broker.specs.Fault.{number_of};

use std::alloc::{AllocError, AllocFailed};
use thiserror::Error;

/// Why a call of the broker was refused. Where it was, nothing has changed.
#[derive(Clone, Copy, Debug, PartialEq, Eq, Error)]
pub enum BrokerFault {
    /// A growth was refused.
    #[error("NoMemory")]
    NoMemory = 1,
    /// The connection isn't open.
    #[error("NoSuchConn")]
    NoSuchConn = 30,
    /// 1,000 connections are open, or the greatest number was given (own rule).
    #[error("Limit")]
    Limit = 31,
}

impl BrokerFault {
    /// The fault's number.
    pub fn number(self) -> u32
        ensures { result ≡ number_of self }
    {
        self as u32
    }
}

impl From<AllocError> for BrokerFault {
    ghost use Rattle.std.specs.Prelude.{◌≡◌};
    ghost use Rattle.spk_broker.specs.declared.fault.BrokerFault.TheVariants.{NoMemory};

    ghost from_gives = { λ _ e. e ≡ NoMemory };

    fn from(_failed: AllocError) -> BrokerFault {
        BrokerFault::NoMemory
    }
}

impl<T: Drop> From<AllocFailed<T>> for BrokerFault {
    ghost use Rattle.std.specs.Prelude.{◌≡◌};
    ghost use Rattle.spk_broker.specs.declared.fault.BrokerFault.TheVariants.{NoMemory};

    ghost from_gives = { λ _ e. e ≡ NoMemory };

    fn from(_failed: AllocFailed<T>) -> BrokerFault {
        BrokerFault::NoMemory
    }
}
