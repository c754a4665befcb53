//! Rows of RFC 4231, sections 4.2 to 4.4, 4.7 and 4.8, the first of RFC 7914, section 11, and others worked out by Python's hashlib.

use spk_password::{derive, hmac, is_same};
use std::process::Abort;
use std::test::Fail;

/// The digit of four bits.
fn digit(bits: u8) -> u8 {
    if bits < 10 {
        bits.wrapping_add(b'0')
    } else {
        bits.wrapping_add(b'a' - 10)
    }
}

/// Whether these are the digits of a digest.
fn are_digits(digest: &[u8; 32], digits: &str) -> bool {
    let digits = digits.as_bytes();
    for (i, byte) in digest.iter().enumerate() {
        let high = digits.get(i.saturating_mul(2)).copied();
        let low = digits.get(i.saturating_mul(2).saturating_add(1)).copied();
        if high != Some(digit(byte / 16)) || low != Some(digit(byte % 16)) {
            return false;
        }
    }
    digits.len() == 64
}

#[test]
fn a_message_has_its_code(rt: HostRuntime) -> Result<(), Fail> {
    let long =
        b"This is a test using a larger than block-size key and a larger than block-size data. The key needs to be hashed before being used by the HMAC algorithm.";
    let rows: [(&[u8], &[u8], &str); 5] = [
        (
            &[0x0b; 20],
            b"Hi There",
            "b0344c61d8db38535ca8afceaf0bf12b881dc200c9833da726e9376c2e32cff7",
        ),
        (
            b"Jefe",
            b"what do ya want for nothing?",
            "5bdcc146bf60754e6a042426089575c75a003f089d2739839dec58b964ec3843",
        ),
        (
            &[0xaa; 20],
            &[0xdd; 50],
            "773ea91e36800e46854db8ebd09181a72959098b3ef8c122d9635514ced565fe",
        ),
        (
            &[0xaa; 131],
            b"Test Using Larger Than Block-Size Key - Hash Key First",
            "60e431591ee0b67f0d8a26aacbf5b77f8e0bc6213728c5140546040f0ee37f54",
        ),
        (
            &[0xaa; 131],
            long,
            "9b09ffa71b942fcb27635fbcd5b0e944bfdc63644f0713938a7f51535c3a35e2",
        ),
    ];
    for (key, message, wanted) in rows {
        assert!(rt; are_digits(&hmac(key, message), wanted));
    }
    Ok(())
}

#[test]
fn a_password_derives_its_block(rt: HostRuntime) -> Result<(), Fail> {
    let rows: [(&[u8], &[u8], u32, &str); 8] = [
        (
            b"passwd",
            b"salt",
            1,
            "55ac046e56e3089fec1691c22544b605f94185216dde0465e68b9d57c20dacbc",
        ),
        (
            b"passwd",
            b"salt",
            0,
            "55ac046e56e3089fec1691c22544b605f94185216dde0465e68b9d57c20dacbc",
        ),
        (
            b"password",
            b"salt",
            4_096,
            "c5e478d59288c841aa530db6845c4c8d962893a001ce4e11a4963873aa98134a",
        ),
        (
            b"",
            b"",
            1,
            "f7ce0b653d2d72a4108cf5abe912ffdd777616dbbb27a70e8204f3ae2d0f6fad",
        ),
        (
            b"pass\0word",
            b"sa\0lt",
            4_096,
            "89b69d0516f829893c696226650a86878c029ac13ee276509d5ae58b6466a724",
        ),
        (
            &[b'a'; 64],
            b"s",
            2,
            "2c4701064ce31b7f9ef0930c468d2d276a91ee21d9471cad11f7ad63fc679333",
        ),
        (
            &[b'a'; 65],
            b"s",
            2,
            "30e12c05f4facb308ced7b06256213c38905fbdb81ddf78febfb8678e2a2910e",
        ),
        (
            b"\xff\xfe",
            b"s",
            2,
            "16890a0d2d211c98906b2881e8267ccd9d826be01dbfdecbe8691f25bec858f9",
        ),
    ];
    for (password, salt, rounds, wanted) in rows {
        let derived = derive(password, salt, rounds);
        assert!(rt; are_digits(&derived, wanted));
    }
    Ok(())
}

#[test]
fn one_bit_is_told(rt: HostRuntime) -> Result<(), Fail> {
    let one = [7; 32];
    assert!(rt; is_same(&one, &[7; 32]));
    for i in 0..32 {
        let mut other = [7; 32];
        if let Some(byte) = other.get_mut(i) {
            *byte = 7 ^ 128;
        }
        assert!(rt; !is_same(&one, &other));
    }
    Ok(())
}
