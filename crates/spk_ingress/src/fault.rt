//! The refusals of this crate.
ghost use Rattle.std.specs.Prelude.{◌≡◌};
ghost use Rattle.spk_ingress.specs.Fault.{frame_number, open_number, settle_number};

use spk_packets::PacketFault;
use thiserror::Error;

/// Why bytes are no frame.
#[derive(Clone, Copy, Debug, PartialEq, Eq, Error)]
pub enum FrameFault {
    /// They don't begin with a packet, or memory was refused.
    #[error(transparent)]
    Packet(PacketFault),
    /// Bytes stand after the packet.
    #[error("NotOne")]
    NotOne,
}

impl FrameFault {
    /// The fault's number: the packet reader's, or 95.
    pub fn number(self) -> u32
        ensures { result ≡ frame_number self }
    {
        match self {
            FrameFault::Packet(fault) => fault.number(),
            FrameFault::NotOne => 95,
        }
    }
}

/// Bytes that are no frame, handed back.
#[derive(Debug, Drop, Error)]
#[error("{fault}")]
pub struct Refused {
    pub fault: FrameFault,
    pub bytes: Vec<u8>,
}

/// Why there is no ingress.
#[derive(Clone, Copy, Debug, PartialEq, Eq, Error)]
pub enum OpenFault {
    /// A growth was refused.
    #[error("NoMemory")]
    NoMemory = 1,
    /// The capacity isn't 1 to 65,536, or the senders aren't 1 to 1,024.
    #[error("BadPlan")]
    BadPlan = 92,
}

impl OpenFault {
    /// The fault's number.
    pub fn number(self) -> u32
        ensures { result ≡ open_number self }
    {
        self as u32
    }
}

/// That an ingress refused: its other end is gone, or the pass has put the greatest `u64` of frames. Nobody but an ingress makes
/// one, so whoever holds it was refused.
#[derive(Clone, Copy, Debug, PartialEq, Eq, Error)]
#[error("Closed")]
pub struct Gone {
    /// keeps others from making one
    pub(crate) refused: (),
}

impl Gone {
    /// An ingress refused.
    pub(crate) fn new() -> Gone {
        Gone { refused: () }
    }

    /// The fault's number.
    pub fn number(self) -> u32
        ensures { result ≡ 90 }
    {
        90
    }
}

/// The other end is gone, or the pass has put the greatest `u64` of frames. What was to be put is handed back. Nobody but an ingress
/// makes one.
#[derive(Debug, Drop, Error)]
#[error("Closed")]
pub struct Closed<T> {
    pub value: T,
    pub(crate) gone: Gone,
}

impl<T> Closed<T> {
    /// What an ingress refused.
    pub(crate) fn of(value: T) -> Closed<T>
        ensures { result.value ≡ value }
    {
        Closed {
            value,
            gone: Gone::new(),
        }
    }

    /// The refusal, without what was to be put.
    pub fn gone(&self) -> Gone
        ensures { result ≡ self.now.gone }
    {
        self.gone
    }

    /// The fault's number.
    pub fn number(&self) -> u32
        ensures { result ≡ 90 }
    {
        90
    }
}

/// Why an ingress isn't settled. Its passes are spent.
#[derive(Clone, Copy, Debug, PartialEq, Eq, Error)]
pub enum SettleFault {
    /// A growth was refused.
    #[error("NoMemory")]
    NoMemory = 1,
    /// Frames are left, or a sender's pass is missing.
    #[error("Unsettled")]
    Unsettled = 93,
}

impl SettleFault {
    /// The fault's number.
    pub fn number(self) -> u32
        ensures { result ≡ settle_number self }
    {
        self as u32
    }
}
