//! Why bytes are no packet, or a packet has no bytes.

ghost use Rattle.std.specs.Prelude.{◌≡◌};
ghost use Rattle.spk_packets.specs.declared.fault.PacketFault.TheVariants.{NoMemory};

use std::alloc::{AllocError, AllocFailed};
use thiserror::Error;

/// A refusal. Its number is what programs print beside its name.
#[derive(Clone, Copy, Debug, PartialEq, Eq, Error)]
pub enum PacketFault {
    /// There was no memory for what the call makes.
    #[error("NoMemory")]
    NoMemory = 1,
    /// The bytes end before the packet does.
    #[error("More")]
    More = 10,
    /// The remaining length goes on past its fourth byte (section 2.2.3).
    #[error("BadLength")]
    BadLength = 11,
    /// The flags aren't those of the packet's type (section 2.2.2), or DUP stands with QoS 0 (section 3.3.1.1).
    #[error("BadFlags")]
    BadFlags = 12,
    /// The type is 0 or 15 (section 2.2.1).
    #[error("BadType")]
    BadType = 13,
    /// A text isn't UTF-8, or holds U+0000 (section 1.5.3); in writing, also one over 65,535 bytes.
    #[error("BadText")]
    BadText = 14,
    /// The body isn't one of its type for any other cause.
    #[error("BadBody")]
    BadBody = 15,
    /// The packet has more than 1,048,576 bytes, or a feed would wait with more than 2,097,152 (own rule).
    #[error("TooLarge")]
    TooLarge = 16,
    /// QoS 2, or a packet of its exchange (own rule: QoS 0 and 1 alone).
    #[error("QosTwo")]
    QosTwo = 17,
    /// A CONNECT of another protocol level than 4 (section 3.1.2.2).
    #[error("BadLevel")]
    BadLevel = 18,
}

impl PacketFault {
    ghost use Rattle.spk_packets.specs.Fault.{number_of};

    /// The number of the fault.
    pub fn number(self) -> u32
        ensures { result ≡ number_of self }
    {
        self as u32
    }
}

impl From<AllocError> for PacketFault {
    ghost from_gives = { λ _ e. e ≡ NoMemory };

    fn from(_e: AllocError) -> PacketFault {
        PacketFault::NoMemory
    }
}

impl<T: Drop> From<AllocFailed<T>> for PacketFault {
    ghost from_gives = { λ _ e. e ≡ NoMemory };

    fn from(_e: AllocFailed<T>) -> PacketFault {
        PacketFault::NoMemory
    }
}
