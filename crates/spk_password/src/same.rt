//! Comparing what was derived.
ghost use Rattle.std.specs.Prelude.{◌≡◌};
ghost use Rattle.std.specs.Str.{bytes_eq};

/// Whether two digests are the same. By the form of the code it looks at each byte of both, whatever the others are; no contract says how long it takes.
pub fn is_same(one: &[u8; 32], other: &[u8; 32]) -> bool
    ensures { result ≡ bytes_eq one.now other.now }
{
    let mut differing: u32 = 0;
    for i in 0..32 {
        differing += u32::from(one[i] ^ other[i]);
    }
    differing == 0
}
