//! The refusals of this crate.
ghost use Rattle.std.specs.Prelude.{◌≡◌};
ghost use Rattle.spk_broker_store.specs.Fault.{number_of};

use spk_broker::PartFault;
use spk_packets::PacketFault;
use std::alloc::AllocError;
use thiserror::Error;

/// Why a store was refused.
#[derive(Clone, Copy, Debug, PartialEq, Eq, Error)]
pub enum StoreFault {
    /// A growth was refused.
    #[error("NoMemory")]
    NoMemory = 1,
    /// What was kept isn't a broker's (own rule).
    #[error("Unfit")]
    Unfit = 139,
    /// The disk failed, now or before.
    #[error("Unkept")]
    Unkept = 141,
}

impl StoreFault {
    /// The fault's number.
    pub fn number(self) -> u32
        ensures { result ≡ number_of self }
    {
        self as u32
    }
}

impl From<AllocError> for StoreFault {
    ghost use Rattle.std.specs.Prelude.{◌≡◌};
    ghost use Rattle.spk_broker_store.specs.declared.fault.StoreFault.TheVariants.{NoMemory};

    ghost from_gives = { λ _ e. e ≡ NoMemory };

    fn from(_failed: AllocError) -> StoreFault {
        StoreFault::NoMemory
    }
}

impl From<PartFault> for StoreFault {
    ghost use Rattle.std.specs.Prelude.{◌≡◌};
    ghost use Rattle.spk_broker_store.specs.Fault.{of_part};

    ghost from_gives = { λ f e. e ≡ of_part f };

    fn from(fault: PartFault) -> StoreFault {
        match fault {
            PartFault::NoMemory => StoreFault::NoMemory,
            PartFault::Unfit => StoreFault::Unfit,
        }
    }
}

impl From<PacketFault> for StoreFault {
    ghost use Rattle.std.specs.Prelude.{◌≡◌};
    ghost use Rattle.spk_broker_store.specs.Fault.{of_packet};

    ghost from_gives = { λ f e. e ≡ of_packet f };

    fn from(fault: PacketFault) -> StoreFault {
        match fault {
            PacketFault::NoMemory => StoreFault::NoMemory,
            _other => StoreFault::Unfit,
        }
    }
}
