use crate::{Bytes, Piece};
use std::alloc::{AllocError, Global};
use std::test::Fail;

fn shared(alloc: Global, text: &[u8]) -> Result<Bytes, AllocError> {
    Bytes::shared(text.to_vec(alloc)?)
}

/// A head and a body that is shared.
fn headed(alloc: Global, head: &[u8], body: &[u8]) -> Result<Bytes, AllocError> {
    let body = Piece::shared(body.to_vec(alloc)?)?;
    Bytes::headed(alloc, head.to_vec(alloc)?, body)
}

#[test]
fn shared_bytes_outlive_their_first_holder(rt: HostRuntime) -> Result<(), Fail> {
    let alloc = rt.alloc();
    let first = shared(alloc, b"ab")?;
    let second = first.share()?;
    let _ = first;
    assert_eq!(rt; second.joined(alloc)?.as_slice(), b"ab".as_slice());
    let alone = Bytes::new(b"c".to_vec(alloc)?);
    assert_eq!(rt; alone.share()?, alone);
    let packet = headed(alloc, b"ab", b"cd")?;
    let other = packet.share()?;
    let _ = packet;
    assert_eq!(rt; other.joined(alloc)?.as_slice(), b"abcd".as_slice());
    Ok(())
}

/// How many bytes stand before, and what stands behind them in each piece.
static BEHIND: [(usize, &[u8], &[u8]); 6] = [
    (0, b"ab", b"cde"),
    (1, b"b", b"cde"),
    (2, b"", b"cde"),
    (3, b"", b"de"),
    (5, b"", b""),
    (9, b"", b""),
];

#[test]
fn what_stands_behind(rt: HostRuntime) -> Result<(), Fail> {
    let packet = headed(rt.alloc(), b"ab", b"cde")?;
    for (start, head, body) in &BEHIND {
        assert_eq!(rt; packet.behind(*start), (*head, *body), "{start}");
    }
    Ok(())
}

/// Bytes in two pieces, others in two pieces, and whether they are the same.
static SAME: [(&[u8], &[u8], &[u8], &[u8], bool); 6] = [
    (b"ab", b"c", b"ab", b"c", true),
    (b"ab", b"c", b"a", b"bc", true),
    (b"", b"abc", b"abc", b"", true),
    (b"ab", b"c", b"a", b"cb", false),
    (b"ab", b"c", b"ab", b"", false),
    (b"ab", b"c", b"xb", b"c", false),
];

#[test]
fn bytes_are_the_same_however_they_lie(rt: HostRuntime) -> Result<(), Fail> {
    let alloc = rt.alloc();
    for (head, body, other_head, other_body, is_same) in &SAME {
        let one = headed(alloc, head, body)?;
        let other = headed(alloc, other_head, other_body)?;
        assert_eq!(rt;
            one == other,
            *is_same,
            "{head:?} {body:?} {other_head:?} {other_body:?}"
        );
        assert_eq!(rt;
            other == one,
            *is_same,
            "{head:?} {body:?} {other_head:?} {other_body:?}"
        );
    }
    Ok(())
}
