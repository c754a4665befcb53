//! PBKDF2.
ghost use Rattle.std.specs.Prelude.{◌≡◌};
ghost use Rattle.spk_password.specs.Pbkdf2.{derived, xored};

use crate::keyed::Keyed;

/// Each byte of one turned by the other's.
fn xored(one: &[u8; 32], other: &[u8; 32]) -> [u8; 32]
    ensures { result ≡ xored one.now other.now }
{
    let mut out = [0; 32];
    for i in 0..32 {
        out[i] = one[i] ^ other[i];
    }
    out
}

/// The first block of 32 bytes that PBKDF2 with HMAC-SHA-256 derives of a password and a salt in so many rounds (RFC 8018, section 5.2). Without a round it
/// gives what one round gives.
pub fn derive(password: &[u8], salt: &[u8], rounds: u32) -> [u8; 32]
    ensures { result ≡ derived password.now salt.now rounds }
{
    let keyed = Keyed::new(password);
    let mut last = keyed.mac_of_two(salt, &[0, 0, 0, 1]);
    let mut sum = last;
    for _done in 1..rounds {
        last = keyed.mac(&last);
        sum = xored(&sum, &last);
    }
    sum
}
