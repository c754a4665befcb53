//! The refusals of a world.
ghost use Rattle.std.specs.Prelude.{◌≡◌};
ghost use Rattle.spk_world.specs.Fault.{number_of};

use spk_edge::EdgeFault;
use spk_host::HostFault;
use std::alloc::{AllocError, AllocFailed};
use thiserror::Error;

/// Why an event isn't done, or no world is made. Nothing has changed.
#[derive(Clone, Copy, Debug, PartialEq, Eq, Error)]
pub enum WorldFault {
    /// A growth was refused. The same call may be made again.
    #[error("NoMemory")]
    NoMemory,
    /// There is no node or no host of that number.
    #[error("NoSuch")]
    NoSuch,
    /// The node didn't publish that message, or opened no such session.
    #[error("NotPublished")]
    NotPublished,
    /// The position is outside the window of the host (own rule).
    #[error("OutsideWindow")]
    OutsideWindow,
    /// The session is 256 or more from that of the birth taken last (own rule).
    #[error("TooFar")]
    TooFar,
    /// What the node refuses.
    #[error("Edge")]
    Edge(EdgeFault),
    /// What the host refuses.
    #[error("Host")]
    Host(HostFault),
    /// The numbers of the node restart, and the NBIRTH of the message's birth wasn't handed before it (own rule).
    #[error("OvertakesBirth")]
    OvertakesBirth,
}

impl WorldFault {
    /// The number that users and other programs know the fault by.
    pub fn number(self) -> u32
        ensures { result ≡ number_of self }
    {
        match self {
            WorldFault::NoMemory => 1,
            WorldFault::NoSuch => 80,
            WorldFault::NotPublished => 81,
            WorldFault::OutsideWindow => 82,
            WorldFault::TooFar => 83,
            WorldFault::Edge(_) => 84,
            WorldFault::Host(_) => 85,
            WorldFault::OvertakesBirth => 86,
        }
    }
}

impl From<EdgeFault> for WorldFault {
    ghost use Rattle.std.specs.Prelude.{◌≡◌};
    ghost use Rattle.spk_world.specs.Fault.{edge_fault};

    ghost from_gives = { λ e f. f ≡ edge_fault e };

    fn from(fault: EdgeFault) -> WorldFault {
        match fault {
            EdgeFault::NoMemory => WorldFault::NoMemory,
            fault => WorldFault::Edge(fault),
        }
    }
}

impl From<HostFault> for WorldFault {
    ghost use Rattle.std.specs.Prelude.{◌≡◌};
    ghost use Rattle.spk_world.specs.Fault.{host_fault};

    ghost from_gives = { λ e f. f ≡ host_fault e };

    fn from(fault: HostFault) -> WorldFault {
        match fault {
            HostFault::NoMemory => WorldFault::NoMemory,
            fault => WorldFault::Host(fault),
        }
    }
}

impl From<AllocError> for WorldFault {
    ghost use Rattle.std.specs.Prelude.{◌≡◌};
    ghost use Rattle.spk_world.specs.declared.fault.WorldFault.TheVariants.{NoMemory};

    ghost from_gives = { λ _ e. e ≡ NoMemory };

    fn from(_refused: AllocError) -> WorldFault {
        WorldFault::NoMemory
    }
}

impl<T: Drop> From<AllocFailed<T>> for WorldFault {
    ghost use Rattle.std.specs.Prelude.{◌≡◌};
    ghost use Rattle.spk_world.specs.declared.fault.WorldFault.TheVariants.{NoMemory};

    ghost from_gives = { λ _ e. e ≡ NoMemory };

    fn from(_refused: AllocFailed<T>) -> WorldFault {
        WorldFault::NoMemory
    }
}
