//! The refusals of this crate.
ghost use Rattle.std.specs.Prelude.{◌≡◌};
ghost use Rattle.spk_edge_app.specs.Fault.{number_of};

use spk_connection::ConnectionFault;
use spk_edge::EdgeFault;
use spk_login::LoginFault;
use spk_packets::PacketFault;
use std::alloc::AllocError;
use thiserror::Error;

/// Why a call of an edge node's program was refused, or why its connection is given up.
#[derive(Clone, Copy, Debug, PartialEq, Eq, Error)]
pub enum EdgeAppFault {
    /// A growth was refused.
    #[error("NoMemory")]
    NoMemory,
    /// More than 2,097,152 bytes that were read would wait to be taken (own rule).
    #[error("TooLarge")]
    TooLarge,
    /// There is no connection.
    #[error("NotOpen")]
    NotOpen,
    /// There is a connection already.
    #[error("Open")]
    Open,
    /// The node has stopped, and opens no connection any more (own rule).
    #[error("Stopped")]
    Stopped,
    /// What the node refuses.
    #[error("Edge")]
    Edge(EdgeFault),
    /// Why the user name and the password can't be put into CONNECT.
    #[error("Login")]
    Login(LoginFault),
    /// Why the bytes that came are no packet.
    #[error("Packet")]
    Packet(PacketFault),
}

/// Why several changes were refused, none of which was done, and the place of the first one that is refused, from 0, where one is.
#[derive(Clone, Copy, Debug, PartialEq, Eq, Error)]
#[error("{fault}")]
pub struct ChangesRefused {
    pub fault: EdgeAppFault,
    pub place: Option<usize>,
}

impl EdgeAppFault {
    /// The number that users and other programs know the fault by.
    pub fn number(self) -> u32
        ensures { result ≡ number_of self }
    {
        match self {
            EdgeAppFault::NoMemory => 1,
            EdgeAppFault::TooLarge => 16,
            EdgeAppFault::NotOpen => 112,
            EdgeAppFault::Open => 113,
            EdgeAppFault::Stopped => 114,
            EdgeAppFault::Edge(_) => 115,
            EdgeAppFault::Login(_) => 116,
            EdgeAppFault::Packet(_) => 117,
        }
    }
}

impl From<EdgeFault> for EdgeAppFault {
    ghost use Rattle.std.specs.Prelude.{◌≡◌};
    ghost use Rattle.spk_edge_app.specs.Fault.{edge_fault};

    ghost from_gives = { λ e f. f ≡ edge_fault e };

    fn from(fault: EdgeFault) -> EdgeAppFault {
        match fault {
            EdgeFault::NoMemory => EdgeAppFault::NoMemory,
            fault => EdgeAppFault::Edge(fault),
        }
    }
}

impl From<LoginFault> for EdgeAppFault {
    ghost use Rattle.std.specs.Prelude.{◌≡◌};
    ghost use Rattle.spk_edge_app.specs.Fault.{login_fault};

    ghost from_gives = { λ e f. f ≡ login_fault e };

    fn from(fault: LoginFault) -> EdgeAppFault {
        match fault {
            LoginFault::NoMemory => EdgeAppFault::NoMemory,
            fault => EdgeAppFault::Login(fault),
        }
    }
}

impl From<PacketFault> for EdgeAppFault {
    ghost use Rattle.std.specs.Prelude.{◌≡◌};
    ghost use Rattle.spk_edge_app.specs.Fault.{packet_fault};

    ghost from_gives = { λ e f. f ≡ packet_fault e };

    fn from(fault: PacketFault) -> EdgeAppFault {
        match fault {
            PacketFault::NoMemory => EdgeAppFault::NoMemory,
            fault => EdgeAppFault::Packet(fault),
        }
    }
}

impl From<ConnectionFault> for EdgeAppFault {
    ghost use Rattle.std.specs.Prelude.{◌≡◌};
    ghost use Rattle.spk_edge_app.specs.Fault.{connection_fault};

    ghost from_gives = { λ e f. f ≡ connection_fault e };

    fn from(fault: ConnectionFault) -> EdgeAppFault {
        match fault {
            ConnectionFault::NoMemory => EdgeAppFault::NoMemory,
            ConnectionFault::TooLarge => EdgeAppFault::TooLarge,
            ConnectionFault::NotOpen => EdgeAppFault::NotOpen,
        }
    }
}

impl From<AllocError> for EdgeAppFault {
    ghost use Rattle.std.specs.Prelude.{◌≡◌};
    ghost use Rattle.spk_edge_app.specs.declared.fault.EdgeAppFault.TheVariants.{NoMemory};

    ghost from_gives = { λ _ e. e ≡ NoMemory };

    fn from(_refused: AllocError) -> EdgeAppFault {
        EdgeAppFault::NoMemory
    }
}
