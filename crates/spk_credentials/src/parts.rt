//! The parts of a CONNECT.
ghost use Rattle.std.specs.Prelude.{◌≡◌, ◌<◌, take, drop, get_or};
ghost use Rattle.spk_credentials.specs.Credentials.{behind_client, behind_counted, behind_length, behind_user, behind_will, body_of, counted_at, has_flag, size_at};

/// The flag of a user name (section 3.1.2.8).
pub(crate) const USER: u8 = 128;

/// The flag of a password (section 3.1.2.9).
pub(crate) const PASSWORD: u8 = 64;

/// The flag of a will (section 3.1.2.5).
const WILL: u8 = 4;

/// The byte at a place, 0 where there is none.
fn byte_at(bytes: &[u8], i: usize) -> u8
    ensures { result ≡ get_or bytes.now i 0 }
{
    bytes.get(i).copied().unwrap_or(0)
}

/// All from a place on.
fn behind(bytes: &[u8], n: usize) -> &[u8]
    ensures { result.now ≡ drop n bytes.now }
{
    if n > bytes.len() {
        return &[];
    }
    &bytes[n..]
}

/// All before a place.
fn before(bytes: &[u8], n: usize) -> &[u8]
    ensures { result.now ≡ take n bytes.now }
{
    if n > bytes.len() {
        return bytes;
    }
    &bytes[..n]
}

/// The length in the first two bytes.
fn size_at(bytes: &[u8]) -> usize
    ensures { result ≡ size_at bytes.now }
{
    256 * usize::from(byte_at(bytes, 0)) + usize::from(byte_at(bytes, 1))
}

/// So many bytes behind these two.
pub(crate) fn counted_at(bytes: &[u8]) -> &[u8]
    ensures { result.now ≡ counted_at bytes.now }
{
    before(behind(bytes, 2), size_at(bytes))
}

/// What follows them.
fn behind_counted(bytes: &[u8]) -> &[u8]
    ensures { result.now ≡ behind_counted bytes.now }
{
    behind(behind(bytes, 2), size_at(bytes))
}

/// What stands behind the first byte without bit 7.
fn behind_length(bytes: &[u8]) -> &[u8]
    ensures { result.now ≡ behind_length bytes.now }
{
    let mut left = bytes;
    while let [byte, rest @ ..] = left {
        left = rest;
        if *byte < 128 {
            return left;
        }
    }
    &[]
}

/// The body of a packet.
pub(crate) fn body_of(packet: &[u8]) -> &[u8]
    ensures { result.now ≡ body_of packet.now }
{
    behind_length(behind(packet, 1))
}

/// Whether a flag stands in the connect flags.
pub(crate) fn has_flag(value: u8, body: &[u8]) -> bool
    requires { 0 < value }
    ensures { result ≡ has_flag value body.now }
{
    byte_at(body, 7) / value % 2 == 1
}

/// What follows the client identifier.
fn behind_client(body: &[u8]) -> &[u8]
    ensures { result.now ≡ behind_client body.now }
{
    behind_counted(behind(body, 10))
}

/// What follows the will, if there is one.
pub(crate) fn behind_will(body: &[u8]) -> &[u8]
    ensures { result.now ≡ behind_will body.now }
{
    if has_flag(WILL, body) {
        behind_counted(behind_counted(behind_client(body)))
    } else {
        behind_client(body)
    }
}

/// What follows the user name, if there is one.
pub(crate) fn behind_user(body: &[u8]) -> &[u8]
    ensures { result.now ≡ behind_user body.now }
{
    if has_flag(USER, body) {
        behind_counted(behind_will(body))
    } else {
        behind_will(body)
    }
}
