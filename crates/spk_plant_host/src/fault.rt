//! Why a host's thread failed.
ghost use Rattle.std.specs.Prelude.{◌≡◌};
ghost use Rattle.spk_plan.specs.Fault.{number_of};
ghost use Rattle.spk_plant_host.specs.Fault.{fault_of};

use spk_ingress::Gone;
use spk_plan::PlantFault;
use thiserror::Error;

/// Why a host's thread failed.
#[derive(Clone, Copy, Debug, PartialEq, Eq, Error)]
pub enum HostCause {
    /// A growth was refused.
    #[error("NoMemory")]
    NoMemory,
    /// The frames' taker is gone. Nobody but an ingress makes what stands in it.
    #[error("Closed")]
    Closed(Gone),
}

impl HostCause {
    /// The fault of a plant: NoMemory (1) or Closed (90).
    pub fn fault(&self) -> PlantFault
        ensures { result ≡ fault_of self.now }
    {
        match self {
            HostCause::NoMemory => PlantFault::NoMemory,
            HostCause::Closed(_) => PlantFault::Closed,
        }
    }

    /// The fault's number.
    pub fn number(&self) -> u32
        ensures { result ≡ number_of (fault_of self.now) }
    {
        self.fault().number()
    }
}
