//! The refusals of an edge node.
ghost use Rattle.std.specs.Prelude.{◌≡◌};
ghost use Rattle.spk_edge_rules.specs.Fault.{number_of};

use spk_device::Refusal;
use spk_state::StateFault;
use std::alloc::{AllocError, AllocFailed};
use thiserror::Error;

/// Why an edge node refused a call. It is as it was before.
#[derive(Clone, Copy, Debug, PartialEq, Eq, Error)]
pub enum EdgeFault {
    /// A growth was refused. The same call may be made again.
    #[error("NoMemory")]
    NoMemory,
    /// The phase isn't one in which the call is taken.
    #[error("WrongPhase")]
    WrongPhase,
    /// The moment, or a stamp that is needed, is 2^63 or more.
    #[error("ClockEnd")]
    ClockEnd,
    /// A command to another, or that can't be read or done whole.
    #[error("BadCommand")]
    BadCommand,
    /// A name that can't stand in a topic, or a capacity outside 1 to 4,096.
    #[error("BadConfig")]
    BadConfig,
    /// A packet that can't be written.
    #[error("TooLarge")]
    TooLarge,
    /// What the registry refuses.
    #[error("Device")]
    Device(Refusal),
    /// A STATE that can't be read.
    #[error("State")]
    State(StateFault),
    /// Changes that are told at once and aren't of one owner.
    #[error("TwoOwners")]
    TwoOwners,
}

impl EdgeFault {
    /// The number that users and other programs know the fault by.
    pub fn number(self) -> u32
        ensures { result ≡ number_of self }
    {
        match self {
            EdgeFault::NoMemory => 1,
            EdgeFault::WrongPhase => 60,
            EdgeFault::ClockEnd => 61,
            EdgeFault::BadCommand => 62,
            EdgeFault::BadConfig => 63,
            EdgeFault::TooLarge => 64,
            EdgeFault::Device(_) => 65,
            EdgeFault::State(_) => 66,
            EdgeFault::TwoOwners => 119,
        }
    }
}

impl From<AllocError> for EdgeFault {
    ghost use Rattle.std.specs.Prelude.{◌≡◌};
    ghost use Rattle.spk_edge_rules.specs.declared.fault.EdgeFault.TheVariants.{NoMemory};

    ghost from_gives = { λ _ e. e ≡ NoMemory };

    fn from(_refused: AllocError) -> EdgeFault {
        EdgeFault::NoMemory
    }
}

impl<T: Drop> From<AllocFailed<T>> for EdgeFault {
    ghost use Rattle.std.specs.Prelude.{◌≡◌};
    ghost use Rattle.spk_edge_rules.specs.declared.fault.EdgeFault.TheVariants.{NoMemory};

    ghost from_gives = { λ _ e. e ≡ NoMemory };

    fn from(_refused: AllocFailed<T>) -> EdgeFault {
        EdgeFault::NoMemory
    }
}
