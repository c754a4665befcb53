//! HMAC-SHA-256.
ghost use Rattle.std.specs.Prelude.{◌≡◌, ◌++◌, ℕ, List, get_or};
ghost use Rattle.sha2.specs.Hashers.{Holds256};
ghost use Rattle.spk_password.specs.Hmac as spec;
ghost use Rattle.spk_password.specs.Hmac.{inner_byte, key_of, outer_byte, padded};

use sha2::{Digest, Sha256};

/// The bytes of a block of SHA-256.
const BLOCK: usize = 64;

/// What each byte of the key is turned by within, and without (RFC 2104, section 2: ipad and opad).
const INNER: u8 = 0x36;

const OUTER: u8 = 0x5c;

/// The byte at a place, 0 where there is none.
fn byte_at(bytes: &[u8], i: usize) -> u8
    ensures { result ≡ get_or bytes.now i 0 }
{
    bytes.get(i).copied().unwrap_or(0)
}

/// A key of at most one block, with zeros behind it, and each byte turned by this one.
fn padded_short(key: &[u8], byte: u8) -> [u8; 64]
    ensures { result ≡ padded byte key.now }
{
    let mut block = [0; 64];
    for i in 0..BLOCK {
        block[i] = byte_at(key, i) ^ byte;
    }
    block
}

/// The same of any key: one that is longer than a block is replaced by its digest.
fn padded_key(key: &[u8], byte: u8) -> [u8; 64]
    ensures { result ≡ padded byte (key_of key.now) }
{
    if key.len() > BLOCK {
        let short = Sha256::digest(key);
        padded_short(&short, byte)
    } else {
        padded_short(key, byte)
    }
}

/// The states of SHA-256 behind the two blocks of a key.
#[derive(Drop)]
pub(crate) struct Keyed {
    inner: Sha256,
    outer: Sha256,
}

impl Keyed {
    /// Those of this key.
    pub(crate) fn new(key: &[u8]) -> Keyed
        ensures inner { Holds256 result.inner (padded inner_byte (key_of key.now)) }
        ensures outer { Holds256 result.outer (padded outer_byte (key_of key.now)) }
    {
        let mut inner = Sha256::new();
        inner.update(&padded_key(key, INNER));
        let mut outer = Sha256::new();
        outer.update(&padded_key(key, OUTER));
        Keyed { inner, outer }
    }

    /// HMAC of a message.
    pub(crate) fn mac(&self, message: &[u8]) -> [u8; 32]
        ensures { (key : List ℕ) → Holds256 self.now.inner (padded inner_byte (key_of key))
            → Holds256 self.now.outer (padded outer_byte (key_of key))
            → result ≡ spec.hmac key message.now }
    {
        let Ok(mut inner) = self.inner.clone() else {
            unreachable!()
        };
        inner.update(message);
        let within = inner.finalize();
        let Ok(mut outer) = self.outer.clone() else {
            unreachable!()
        };
        outer.update(&within);
        outer.finalize()
    }

    /// HMAC of a message in two pieces.
    pub(crate) fn mac_of_two(&self, first: &[u8], second: &[u8]) -> [u8; 32]
        ensures { (key : List ℕ) → Holds256 self.now.inner (padded inner_byte (key_of key))
            → Holds256 self.now.outer (padded outer_byte (key_of key))
            → result ≡ spec.hmac key (first.now ++ second.now) }
    {
        let Ok(mut inner) = self.inner.clone() else {
            unreachable!()
        };
        inner.update(first);
        inner.update(second);
        let within = inner.finalize();
        let Ok(mut outer) = self.outer.clone() else {
            unreachable!()
        };
        outer.update(&within);
        outer.finalize()
    }
}

/// HMAC-SHA-256 of a message with a key (RFC 2104, section 2).
pub fn hmac(key: &[u8], message: &[u8]) -> [u8; 32]
    ensures { result ≡ spec.hmac key.now message.now }
{
    Keyed::new(key).mac(message)
}
