//! The refusals of this crate.
ghost use Rattle.std.specs.Prelude.{◌≡◌};
ghost use Rattle.spk_topics.specs.Fault.{number_of};

use std::alloc::{AllocError, AllocFailed};
use thiserror::Error;

/// Why a text is no topic, no filter, or no Sparkplug topic.
#[derive(Clone, Copy, Debug, PartialEq, Eq, Error)]
pub enum TopicFault {
    /// A growth was refused.
    #[error("NoMemory")]
    NoMemory = 1,
    /// The text is empty (MQTT 3.1.1, 4.7.3-1).
    #[error("Empty")]
    Empty = 20,
    /// A `+` or `#` stands where it may not (4.7.1-1 to 4.7.1-3).
    #[error("Wildcard")]
    Wildcard = 21,
    /// The text holds U+0000 (4.7.3-2).
    #[error("Nul")]
    Nul = 22,
    /// The text has more than 65,535 bytes (4.7.3-3).
    #[error("TooLong")]
    TooLong = 23,
    /// The text is no topic of Sparkplug, or a name may not stand in one.
    #[error("NotSparkplug")]
    NotSparkplug = 24,
}

impl TopicFault {
    /// The fault's number.
    pub fn number(self) -> u32
        ensures { result ≡ number_of self }
    {
        self as u32
    }
}

impl From<AllocError> for TopicFault {
    ghost use Rattle.std.specs.Prelude.{◌≡◌};
    ghost use Rattle.spk_topics.specs.declared.fault.TopicFault.TheVariants.{NoMemory};

    ghost from_gives = { λ _ e. e ≡ NoMemory };

    fn from(_failed: AllocError) -> TopicFault {
        TopicFault::NoMemory
    }
}

impl<T: Drop> From<AllocFailed<T>> for TopicFault {
    ghost use Rattle.std.specs.Prelude.{◌≡◌};
    ghost use Rattle.spk_topics.specs.declared.fault.TopicFault.TheVariants.{NoMemory};

    ghost from_gives = { λ _ e. e ≡ NoMemory };

    fn from(_failed: AllocFailed<T>) -> TopicFault {
        TopicFault::NoMemory
    }
}
