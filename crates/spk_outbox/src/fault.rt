//! The refusals of this crate.
ghost use Rattle.std.specs.Prelude.{◌≡◌};
ghost use Rattle.spk_outbox.specs.Fault.{number_of};

use thiserror::Error;

/// Why a packet wasn't taken.
#[derive(Clone, Copy, Debug, PartialEq, Eq, Error)]
pub enum OfferFault {
    /// A growth was refused.
    #[error("NoMemory")]
    NoMemory = 1,
    /// 1,024 packets wait (own rule).
    #[error("Full")]
    Full = 91,
}

impl OfferFault {
    /// The fault's number.
    pub fn number(self) -> u32
        ensures { result ≡ number_of self }
    {
        self as u32
    }
}
