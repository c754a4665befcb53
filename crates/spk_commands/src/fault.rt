//! Why a command ends without having done its work.

use spk_packets::PacketFault;
use spk_payload::PayloadFault;
use std::alloc::{AllocError, AllocFailed};
use std::io;
use thiserror::Error;

/// A fault that is printed, with the numbers of docs/FAULTS.md.
#[derive(Clone, Copy, Debug, PartialEq, Eq, Error)]
pub(crate) enum Fault {
    /// A growth was refused.
    #[error("NoMemory")]
    NoMemory,
    #[error(transparent)]
    Payload(PayloadFault),
    #[error(transparent)]
    Packet(PacketFault),
    /// A file is longer than 1,048,576 bytes, or isn't UTF-8.
    #[error("BadPlan")]
    BadPlan,
    /// An odd number of hexadecimal digits, or another character.
    #[error("BadHex")]
    BadHex,
    /// A file can't be opened, or reading it fails.
    #[error("BadFile")]
    BadFile,
}

impl Fault {
    pub(crate) fn number(self) -> u32 {
        match self {
            Fault::NoMemory => 1,
            Fault::Payload(fault) => fault.number(),
            Fault::Packet(fault) => fault.number(),
            Fault::BadPlan => 92,
            Fault::BadHex => 97,
            Fault::BadFile => 98,
        }
    }
}

/// What ends a command early.
#[derive(Debug, Drop)]
pub(crate) enum Stop {
    /// The words aren't a command, or ask for help: the text says so, and the status is this.
    Words(String, u8),
    Fault(Fault),
    /// What was to be printed could not be written.
    Writer,
}

impl Stop {
    pub(crate) fn no_memory() -> Stop {
        Stop::Fault(Fault::NoMemory)
    }
}

impl From<Fault> for Stop {
    fn from(fault: Fault) -> Stop {
        Stop::Fault(fault)
    }
}

impl From<PayloadFault> for Stop {
    fn from(fault: PayloadFault) -> Stop {
        Stop::Fault(Fault::Payload(fault))
    }
}

impl From<PacketFault> for Stop {
    fn from(fault: PacketFault) -> Stop {
        Stop::Fault(Fault::Packet(fault))
    }
}

impl From<AllocError> for Stop {
    fn from(_refused: AllocError) -> Stop {
        Stop::no_memory()
    }
}

impl<T: Drop> From<AllocFailed<T>> for Stop {
    fn from(_refused: AllocFailed<T>) -> Stop {
        Stop::no_memory()
    }
}

/// The one use of an `io::Error` in a command is its writer: readers name their own fault.
impl From<io::Error> for Stop {
    fn from(_error: io::Error) -> Stop {
        Stop::Writer
    }
}
