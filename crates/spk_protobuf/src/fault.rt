//! Why a text is no list of fields.

ghost use Rattle.std.specs.Prelude.{◌≡◌};

use thiserror::Error;

/// What is wrong with a text, where it is first wrong from left to right.
#[derive(Clone, Copy, Debug, PartialEq, Eq, Error)]
pub enum WireFault {
    /// The text ends within a field.
    #[error("Truncated")]
    Truncated = 2,
    /// Ten bytes of a varint all say that more follow.
    #[error("VarintTooLong")]
    VarintTooLong = 3,
    /// A wire type 3 or 4: groups aren't read.
    #[error("Group")]
    Group = 4,
    /// A field has the number 0.
    #[error("FieldZero")]
    FieldZero = 5,
    /// A wire type 6 or 7, which the encoding doesn't have.
    #[error("WireType")]
    WireType = 6,
}

impl WireFault {
    ghost use Rattle.spk_protobuf.specs.Fault.{number_of};

    /// The number that users and other programs know the fault by.
    pub fn number(self) -> u32
        ensures { result ≡ number_of self }
    {
        self as u32
    }
}
