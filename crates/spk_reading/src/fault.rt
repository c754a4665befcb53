//! Why bytes say nothing to a host.
ghost use Rattle.std.specs.Prelude.{◌≡◌};
ghost use Rattle.spk_reading.specs.declared.fault.ReadFault.TheVariants.{NoMemory};

use std::alloc::AllocError;
use thiserror::Error;

/// Why a packet is refused: the first cause in this order, or no memory.
#[derive(Clone, Copy, Debug, PartialEq, Eq, Error)]
pub enum ReadFault {
    /// A growth was refused. The same call may be made again.
    #[error("NoMemory")]
    NoMemory = 1,
    /// The topic of a PUBLISH isn't one of Sparkplug (3.0.0, chapter 4).
    #[error("NotSparkplug")]
    NotSparkplug = 70,
    /// The bytes aren't one packet, or the payload can't be read.
    #[error("BadPayload")]
    BadPayload = 71,
    /// A message that has to carry a sequence number has none, or one over 255 (chapter 6, `seq`).
    #[error("NoSeq")]
    NoSeq = 72,
    /// An NBIRTH has no timestamp.
    #[error("NoStamp")]
    NoStamp = 73,
    /// An NBIRTH or NDEATH has no `bdSeq`, or one that is no whole number from 0 to 255 (own bound).
    #[error("NoBdSeq")]
    NoBdSeq = 74,
}

impl ReadFault {
    ghost use Rattle.spk_reading.specs.Fault.{number_of};

    /// The number that users and other programs know the fault by.
    pub fn number(self) -> u32
        ensures { result ≡ number_of self }
    {
        self as u32
    }
}

impl From<AllocError> for ReadFault {
    ghost from_gives = { λ _ e. e ≡ NoMemory };

    fn from(_refused: AllocError) -> ReadFault {
        ReadFault::NoMemory
    }
}
