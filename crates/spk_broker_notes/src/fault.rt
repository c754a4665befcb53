//! The refusals of this crate.
ghost use Rattle.std.specs.Prelude.{◌≡◌};
ghost use Rattle.spk_broker_notes.specs.Fault.{number_of};

use spk_broker::BrokerFault;
use spk_packets::PacketFault;
use std::alloc::AllocError;
use thiserror::Error;

/// Why a call was refused. Where it was, nothing has changed.
#[derive(Clone, Copy, Debug, PartialEq, Eq, Error)]
pub enum NoteFault {
    /// A growth was refused.
    #[error("NoMemory")]
    NoMemory = 1,
    /// The connection isn't open.
    #[error("NoSuchConn")]
    NoSuchConn = 30,
    /// 1,000 connections are open, or the greatest number was given; or what is noted has the greatest moment (own rules).
    #[error("Limit")]
    Limit = 31,
    /// The packet is to be noted, and can't be written: it isn't one that was read.
    #[error("Unwritten")]
    Unwritten = 140,
}

impl NoteFault {
    /// The fault's number.
    pub fn number(self) -> u32
        ensures { result ≡ number_of self }
    {
        self as u32
    }
}

impl From<AllocError> for NoteFault {
    ghost use Rattle.std.specs.Prelude.{◌≡◌};
    ghost use Rattle.spk_broker_notes.specs.declared.fault.NoteFault.TheVariants.{NoMemory};

    ghost from_gives = { λ _ e. e ≡ NoMemory };

    fn from(_failed: AllocError) -> NoteFault {
        NoteFault::NoMemory
    }
}

impl From<PacketFault> for NoteFault {
    ghost use Rattle.std.specs.Prelude.{◌≡◌};
    ghost use Rattle.spk_broker_notes.specs.Fault.{of_packet};

    ghost from_gives = { λ f e. e ≡ of_packet f };

    fn from(fault: PacketFault) -> NoteFault {
        match fault {
            PacketFault::NoMemory => NoteFault::NoMemory,
            _other => NoteFault::Unwritten,
        }
    }
}

impl From<BrokerFault> for NoteFault {
    ghost use Rattle.std.specs.Prelude.{◌≡◌};
    ghost use Rattle.spk_broker_notes.specs.Fault.{of_broker};

    ghost from_gives = { λ f e. e ≡ of_broker f };

    fn from(fault: BrokerFault) -> NoteFault {
        match fault {
            BrokerFault::NoMemory => NoteFault::NoMemory,
            BrokerFault::NoSuchConn => NoteFault::NoSuchConn,
            BrokerFault::Limit => NoteFault::Limit,
        }
    }
}
