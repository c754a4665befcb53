//! Why the broker's thread ended early.
ghost use Rattle.std.specs.Prelude.{◌≡◌};
ghost use Rattle.spk_plan.specs.Fault.{number_of};
ghost use Rattle.spk_plant_broker.specs.Fault.{fault_of};

use spk_ingress::Gone;
use spk_plan::PlantFault;
use std::alloc::AllocError;
use thiserror::Error;

/// Why the broker's thread ended early.
#[derive(Clone, Copy, Debug, PartialEq, Eq, Error)]
pub enum BrokerFailed {
    /// A growth was refused.
    #[error("NoMemory")]
    NoMemory,
    /// The ingress gives no further frame. Nobody but an ingress makes what stands in it.
    #[error("Closed")]
    Closed(Gone),
}

impl BrokerFailed {
    /// The fault of a plant: NoMemory (1) or Closed (90).
    pub fn fault(&self) -> PlantFault
        ensures { result ≡ fault_of self.now }
    {
        match self {
            BrokerFailed::NoMemory => PlantFault::NoMemory,
            BrokerFailed::Closed(_) => PlantFault::Closed,
        }
    }

    /// The fault's number.
    pub fn number(&self) -> u32
        ensures { result ≡ number_of (fault_of self.now) }
    {
        self.fault().number()
    }
}

impl From<AllocError> for BrokerFailed {
    ghost use Rattle.std.specs.Prelude.{◌≡◌};
    ghost use Rattle.spk_plant_broker.specs.declared.fault.BrokerFailed.TheVariants.{NoMemory};

    ghost from_gives = { λ _ e. e ≡ NoMemory };

    fn from(_failed: AllocError) -> BrokerFailed {
        BrokerFailed::NoMemory
    }
}
