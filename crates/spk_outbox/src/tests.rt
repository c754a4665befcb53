use crate::{Bytes, OfferFault, Outbox};
use spk_bytes::Piece;
use std::alloc::{AllocError, Global};
use std::process::Abort;
use std::test::Fail;

fn packet(alloc: Global, text: &[u8]) -> Result<Bytes, AllocError> {
    Ok(Bytes::new(text.to_vec(alloc)?))
}

/// What `gather` joins.
fn gathered(alloc: Global, outbox: &Outbox) -> Vec<u8> {
    let mut batch = Vec::new(alloc);
    outbox.gather(&mut batch);
    batch
}

/// What is left of a packet that lies in one piece.
fn whole(bytes: &[u8]) -> Option<(&[u8], &[u8])> {
    Some((bytes, b"".as_slice()))
}

#[test]
fn packets_are_written_in_pieces(rt: HostRuntime) -> Result<(), Fail> {
    let alloc = rt.alloc();
    let mut outbox = Outbox::new(alloc)?;
    assert!(rt; outbox.is_empty());
    assert_eq!(rt; outbox.first(), None);
    outbox.offer(packet(alloc, b"abc")?).ok();
    outbox.offer(packet(alloc, b"de")?).ok();
    outbox.wrote(1);
    assert_eq!(rt; outbox.first(), whole(b"bc"));
    assert_eq!(rt; gathered(alloc, &outbox).as_slice(), b"bcde".as_slice());
    outbox.wrote(3);
    assert_eq!(rt; outbox.len(), 1);
    assert_eq!(rt; outbox.first(), whole(b"e"));
    outbox.wrote(9);
    assert!(rt; outbox.is_empty());
    Ok(())
}

#[test]
fn packet_1025_is_refused(rt: HostRuntime) -> Result<(), Fail> {
    let alloc = rt.alloc();
    let mut outbox = Outbox::new(alloc)?;
    for _ in 0..1_024 {
        assert!(rt; outbox.offer(packet(alloc, b"x")?).is_ok());
    }
    assert_eq!(rt; outbox.offer(packet(alloc, b"y")?), Err(OfferFault::Full));
    assert_eq!(rt; OfferFault::Full.number(), 91);
    assert_eq!(rt; gathered(alloc, &outbox).len(), 1_024);
    outbox.wrote(1);
    assert!(rt; outbox.offer(packet(alloc, b"y")?).is_ok());
    Ok(())
}

/// A packet of a head and of a body that is longer than what is joined to one write.
fn long(alloc: Global) -> Result<Bytes, AllocError> {
    let mut body = Vec::new(alloc);
    body.resize(70_000, b'x')?;
    Bytes::headed(alloc, b"abc".to_vec(alloc)?, Piece::shared(body)?)
}

/// How many bytes were written of such a packet, what is joined then behind those of one before it, and how long the two pieces are that are left of it.
static WRITTEN: [(usize, &[u8], usize, usize); 7] = [
    (0, b"yabc", 0, 0),
    (1, b"abc", 3, 70_000),
    (2, b"bc", 2, 70_000),
    (4, b"", 0, 70_000),
    (5, b"", 0, 69_999),
    (3_004, b"", 0, 67_000),
    (70_004, b"z", 1, 0),
];

/// A write may end within a head, at its end and within a body: the head is joined, and the body written from where it lies.
#[test]
fn a_head_is_joined_and_a_long_body_is_not(rt: HostRuntime) -> Result<(), Fail> {
    let alloc = rt.alloc();
    for (count, joined, head, body) in &WRITTEN {
        let mut outbox = Outbox::new(alloc)?;
        outbox.offer(packet(alloc, b"y")?).ok();
        outbox.offer(long(alloc)?).ok();
        outbox.offer(packet(alloc, b"z")?).ok();
        outbox.wrote(*count);
        assert_eq!(rt; gathered(alloc, &outbox).as_slice(), *joined, "{count}");
        if *count > 0 {
            let left = outbox
                .first()
                .map(|(first, second)| (first.len(), second.len()));
            assert_eq!(rt; left, Some((*head, *body)), "{count}");
        }
    }
    Ok(())
}
