//! The refusals of this crate.
ghost use Rattle.std.specs.Prelude.{◌≡◌};
ghost use Rattle.spk_session.specs.Fault.{number_of};

use thiserror::Error;

/// Why nothing can be sent to a client at QoS 1.
#[derive(Clone, Copy, Debug, PartialEq, Eq, Error)]
pub enum SessionFault {
    /// 1,024 sends wait for their acknowledgement (own rule).
    #[error("Unacked")]
    Unacked = 32,
}

impl SessionFault {
    /// The fault's number.
    pub fn number(self) -> u32
        ensures { result ≡ number_of self }
    {
        self as u32
    }
}
