//! Passwords that are kept as what PBKDF2 with HMAC-SHA-256 makes of them (RFC 8018, section 5.2; RFC 2104), so that who reads where they are kept
//! doesn't know them.
#![tactic(auto)]

mod keyed;
mod pbkdf2;
mod same;

pub use keyed::hmac;
pub use pbkdf2::derive;
pub use same::is_same;
