//! The refusals of a plant.
ghost use Rattle.std.specs.Prelude.{◌≡◌};
ghost use Rattle.spk_plan.specs.Fault.{number_of};

use std::alloc::{AllocError, AllocFailed};
use thiserror::Error;

/// Why there is no report of a plant.
#[derive(Clone, Copy, Debug, PartialEq, Eq, Error)]
pub enum PlantFault {
    /// A growth was refused.
    #[error("NoMemory")]
    NoMemory = 1,
    /// The frames' taker, or the frames' senders, are gone.
    #[error("Closed")]
    Closed = 90,
    /// The plan is none that can run.
    #[error("BadPlan")]
    BadPlan = 92,
    /// Frames or packets are left.
    #[error("Unsettled")]
    Unsettled = 93,
}

impl PlantFault {
    /// The fault's number.
    pub fn number(self) -> u32
        ensures { result ≡ number_of self }
    {
        self as u32
    }
}

impl From<AllocError> for PlantFault {
    ghost use Rattle.std.specs.Prelude.{◌≡◌};
    ghost use Rattle.spk_plan.specs.declared.fault.PlantFault.TheVariants.{NoMemory};

    ghost from_gives = { λ _ e. e ≡ NoMemory };

    fn from(_failed: AllocError) -> PlantFault {
        PlantFault::NoMemory
    }
}

impl<T: Drop> From<AllocFailed<T>> for PlantFault {
    ghost use Rattle.std.specs.Prelude.{◌≡◌};
    ghost use Rattle.spk_plan.specs.declared.fault.PlantFault.TheVariants.{NoMemory};

    ghost from_gives = { λ _ e. e ≡ NoMemory };

    fn from(_failed: AllocFailed<T>) -> PlantFault {
        PlantFault::NoMemory
    }
}
