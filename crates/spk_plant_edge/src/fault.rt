//! Why an edge node's thread failed.
ghost use Rattle.std.specs.Prelude.{◌≡◌};
ghost use Rattle.spk_plan.specs.Fault.{number_of};
ghost use Rattle.spk_plant_edge.specs.Fault.{fault_of};

use spk_ingress::Gone;
use spk_plan::PlantFault;
use std::alloc::{AllocError, AllocFailed};
use thiserror::Error;

/// Why an edge node's thread failed.
#[derive(Clone, Copy, Debug, PartialEq, Eq, Error)]
pub enum EdgeCause {
    /// A growth was refused.
    #[error("NoMemory")]
    NoMemory,
    /// The frames' taker is gone. Nobody but an ingress makes what stands in it.
    #[error("Closed")]
    Closed(Gone),
}

impl EdgeCause {
    /// The fault of a plant: NoMemory (1) or Closed (90).
    pub fn fault(&self) -> PlantFault
        ensures { result ≡ fault_of self.now }
    {
        match self {
            EdgeCause::NoMemory => PlantFault::NoMemory,
            EdgeCause::Closed(_) => PlantFault::Closed,
        }
    }

    /// The fault's number.
    pub fn number(&self) -> u32
        ensures { result ≡ number_of (fault_of self.now) }
    {
        self.fault().number()
    }
}

impl From<AllocError> for EdgeCause {
    ghost use Rattle.std.specs.Prelude.{◌≡◌};
    ghost use Rattle.spk_plant_edge.specs.declared.fault.EdgeCause.TheVariants.{NoMemory};

    ghost from_gives = { λ _ e. e ≡ NoMemory };

    fn from(_failed: AllocError) -> EdgeCause {
        EdgeCause::NoMemory
    }
}

impl<T: Drop> From<AllocFailed<T>> for EdgeCause {
    ghost use Rattle.std.specs.Prelude.{◌≡◌};
    ghost use Rattle.spk_plant_edge.specs.declared.fault.EdgeCause.TheVariants.{NoMemory};

    ghost from_gives = { λ _ e. e ≡ NoMemory };

    fn from(_failed: AllocFailed<T>) -> EdgeCause {
        EdgeCause::NoMemory
    }
}

impl From<Gone> for EdgeCause {
    ghost use Rattle.std.specs.Prelude.{◌≡◌};
    ghost use Rattle.spk_plant_edge.specs.declared.fault.EdgeCause.TheVariants.{Closed};

    ghost from_gives = { λ gone e. e ≡ Closed gone };

    fn from(gone: Gone) -> EdgeCause {
        EdgeCause::Closed(gone)
    }
}
