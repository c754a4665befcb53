//! The refusals of this crate.
ghost use Rattle.std.specs.Prelude.{◌≡◌};
ghost use Rattle.spk_login.specs.Fault.{number_of};

use std::alloc::AllocError;
use thiserror::Error;

/// Why no user name and password were put into bytes.
#[derive(Clone, Copy, Debug, PartialEq, Eq, Error)]
pub enum LoginFault {
    /// A growth was refused.
    #[error("NoMemory")]
    NoMemory = 1,
    /// The user name has U+0000, or it or the password has over 65,535 bytes.
    #[error("BadText")]
    BadText = 14,
    /// The packet would have over 1,048,576 bytes (own rule).
    #[error("TooLarge")]
    TooLarge = 16,
    /// The bytes are no CONNECT, or one that has a user name.
    #[error("NoConnect")]
    NoConnect = 111,
}

impl LoginFault {
    /// The fault's number.
    pub fn number(self) -> u32
        ensures { result ≡ number_of self }
    {
        self as u32
    }
}

impl From<AllocError> for LoginFault {
    ghost use Rattle.std.specs.Prelude.{◌≡◌};
    ghost use Rattle.spk_login.specs.declared.fault.LoginFault.TheVariants.{NoMemory};

    ghost from_gives = { λ _ e. e ≡ NoMemory };

    fn from(_failed: AllocError) -> LoginFault {
        LoginFault::NoMemory
    }
}
