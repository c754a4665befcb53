//! The user name and the password of a CONNECT.
ghost use Rattle.std.specs.Prelude.{◌≡◌};
ghost use Rattle.std.specs.Option.{option_map};
ghost use Rattle.spk_credentials.specs.Credentials.{password_of, user_of};

use crate::parts::{PASSWORD, USER, behind_user, behind_will, body_of, counted_at, has_flag};

/// The user name and the password, lent from the bytes of their CONNECT.
#[derive(Clone, Copy, Debug, PartialEq, Eq)]
pub struct Credentials<'a> {
    /// The user name, a text in UTF-8 (section 3.1.3.4).
    pub user: Option<&'a [u8]>,
    /// The password, any bytes (section 3.1.3.5).
    pub password: Option<&'a [u8]>,
}

/// The user name and the password in the bytes of a CONNECT, where they are there. Of bytes that are no CONNECT it says nothing of use. It takes no memory.
pub fn read(packet: &[u8]) -> Credentials<'_>
    ensures user { option_map (λ u. u.now) result.user ≡ user_of packet.now }
    ensures password { option_map (λ p. p.now) result.password ≡ password_of packet.now }
{
    let body = body_of(packet);
    let user = if has_flag(USER, body) {
        Some(counted_at(behind_will(body)))
    } else {
        None
    };
    let password = if has_flag(PASSWORD, body) {
        Some(counted_at(behind_user(body)))
    } else {
        None
    };
    Credentials { user, password }
}
