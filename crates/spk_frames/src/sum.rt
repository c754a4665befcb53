//! The sum of a content: CRC-32 (RFC 1952, section 8).
ghost use Rattle.std.specs.Prelude.{◌≡◌, ◌<◌, ◌^◌, bit_xor, fold};
ghost use Rattle.spk_frames.specs.Sum.{crc32, four_times, one_byte};

use crate::table::{TABLE, TABLE_2, TABLE_3, TABLE_4};

/// The register behind one byte more.
#[inline(always)]
fn one_byte(register: u32, byte: u8) -> u32
    ensures { result ≡ one_byte register byte }
{
    let place = (register ^ u32::from(byte)) & 0xff;
    TABLE[place as usize] ^ (register >> 8)
}

/// The register behind four bytes more, which this number has, the first one lowest.
#[inline(always)]
fn four_bytes(register: u32, word: u32) -> u32
    ensures { result ≡ four_times (bit_xor register word) }
{
    let x = register ^ word;
    TABLE[(x >> 24) as usize]
        ^ TABLE_2[((x >> 16) & 0xff) as usize]
        ^ TABLE_3[((x >> 8) & 0xff) as usize]
        ^ TABLE_4[(x & 0xff) as usize]
}

/// The register behind bytes, one by one.
fn each_byte(mut register: u32, bytes: &[u8]) -> u32
    ensures { result ≡ fold one_byte register bytes.now }
{
    for byte in bytes {
        register = one_byte(register, *byte);
    }
    register
}

/// The CRC-32 of bytes.
#[tactic(auto, unfolding(crate::specs::Sum::crc32))]
pub fn crc32(bytes: &[u8]) -> u32
    ensures { result ≡ crc32 bytes.now }
{
    let mut register = u32::MAX;
    let mut rest = bytes;
    while let [a, b, c, d, after @ ..] = rest {
        register = four_bytes(register, u32::from_le_bytes([*a, *b, *c, *d]));
        rest = after;
    }
    each_byte(register, rest) ^ u32::MAX
}
