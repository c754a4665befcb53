//! The largest packets (own rule: 1,048,576 bytes), their bytes by hand from MQTT 3.1.1, section 3.3.
use crate::packets::write;
use spk_packets::{Feed, Packet, PacketFault, decode};
use std::alloc::{AllocError, Global};
use std::test::Fail;

/// How many bytes the largest packet has.
const WHOLE: usize = 1_048_576;

/// The first byte of a PUBLISH at QoS 0, a remaining length of 1,048,572, and the topic `a`.
const FRONT: &[u8] = b"\x30\xfc\xff\x3f\x00\x01a";

/// So many of the largest PUBLISH, one behind the other, each with a payload of 1,048,569 bytes of 7.
fn publishes(alloc: Global, count: usize) -> Result<Vec<u8>, AllocError> {
    let mut bytes = Vec::new(alloc);
    for at in 0..count {
        bytes.extend_from_slice(FRONT)?;
        bytes.resize(at.saturating_add(1).saturating_mul(WHOLE), 7)?;
    }
    Ok(bytes)
}

fn made(alloc: Global, count: usize) -> Result<Vec<u8>, AllocError> {
    match publishes(alloc, count) {
        Ok(bytes) => Ok(bytes),
        Err(_) => publishes(alloc, count),
    }
}

/// How many bytes the payload of a PUBLISH has.
fn payload_of(packet: &Packet) -> Option<usize> {
    match packet {
        Packet::Publish { payload, .. } => Some(payload.len()),
        _ => None,
    }
}

#[test]
fn a_megabyte_is_read_and_written_again(rt: HostRuntime) -> Result<(), Fail> {
    let bytes = made(rt.alloc(), 1)?;
    let (packet, size) = match decode(rt.alloc(), &bytes) {
        Err(PacketFault::NoMemory) => decode(rt.alloc(), &bytes)?,
        answer => answer?,
    };
    assert_eq!(rt; size, WHOLE);
    assert_eq!(rt; payload_of(&packet), Some(1_048_569));
    assert!(rt; write(rt.alloc(), &packet)? == bytes);
    Ok(())
}

/// The next packet of a feed. Where memory was refused nothing was taken, and the call is made again.
fn next(feed: &mut Feed) -> Result<Option<Packet>, PacketFault> {
    match feed.next() {
        Err(PacketFault::NoMemory) => feed.next(),
        answer => answer,
    }
}

#[test]
fn two_megabytes_wait_and_come_out(rt: HostRuntime) -> Result<(), Fail> {
    let bytes = made(rt.alloc(), 2)?;
    let mut feed = Feed::new(rt.alloc());
    if let Err(PacketFault::NoMemory) = feed.feed(&bytes) {
        feed.feed(&bytes)?;
    }
    for _packet in 0..2 {
        let packet = next(&mut feed)?.ok_or("a packet")?;
        assert_eq!(rt; payload_of(&packet), Some(1_048_569));
    }
    assert_eq!(rt; next(&mut feed)?, None);
    Ok(())
}
