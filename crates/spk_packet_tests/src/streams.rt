//! Streams of worked packets, cut anywhere. Out of memory is a right answer wherever memory is asked for: the call is
//! made again.

use crate::packets::{PACKETS, write};
use spk_packets::*;
use std::alloc::{AllocError, Global};
use std::test::Fail;

/// Each packet of the stream, one after the other.
fn next(feed: &mut Feed) -> Result<Option<Packet>, PacketFault> {
    match feed.next() {
        Err(PacketFault::NoMemory) => feed.next(),
        answer => answer,
    }
}

fn put(feed: &mut Feed, piece: &[u8]) -> Result<(), PacketFault> {
    match feed.feed(piece) {
        Err(PacketFault::NoMemory) => feed.feed(piece),
        answer => answer,
    }
}

#[test]
fn a_stream_is_cut_anywhere(rt: HostRuntime) -> Result<(), Fail> {
    for bytes in PACKETS {
        for cut in 0..bytes.len() {
            let mut feed = Feed::new(rt.alloc());
            put(&mut feed, &bytes[..cut])?;
            assert_eq!(rt; next(&mut feed)?.is_none(), true);
            put(&mut feed, &bytes[cut..])?;
            match next(&mut feed)? {
                Some(packet) => assert_eq!(rt; write(rt.alloc(), &packet)?.as_slice(), bytes),
                None => assert!(rt; false, "no packet"),
            }
            assert_eq!(rt; next(&mut feed)?.is_none(), true);
        }
    }
    Ok(())
}

/// All packets of the table, one behind the other.
fn stream_of(alloc: Global) -> Result<Vec<u8>, AllocError> {
    let mut stream = Vec::new(alloc);
    for bytes in PACKETS {
        stream.extend_from_slice(bytes)?;
    }
    Ok(stream)
}

/// How many packets the feed gives until none is whole.
fn drained(feed: &mut Feed) -> Result<usize, PacketFault> {
    let mut count = 0usize;
    for _ in 0..100u32 {
        if next(feed)?.is_none() {
            break;
        }
        count = count.saturating_add(1);
    }
    Ok(count)
}

#[test]
fn one_stream_of_all_kinds_is_cut_anywhere(rt: HostRuntime) -> Result<(), Fail> {
    let stream = match stream_of(rt.alloc()) {
        Ok(stream) => stream,
        Err(_) => stream_of(rt.alloc())?,
    };
    for cut in 0..stream.len() {
        let mut feed = Feed::new(rt.alloc());
        put(&mut feed, &stream[..cut])?;
        let first = drained(&mut feed)?;
        put(&mut feed, &stream[cut..])?;
        let second = drained(&mut feed)?;
        assert_eq!(rt; first.saturating_add(second), PACKETS.len(), "cut at {cut}");
    }
    Ok(())
}

#[test]
fn a_stream_comes_byte_by_byte(rt: HostRuntime) -> Result<(), Fail> {
    let mut feed = Feed::new(rt.alloc());
    for bytes in PACKETS {
        let mut left = bytes.len();
        for byte in bytes {
            put(&mut feed, &[*byte])?;
            left = left.saturating_sub(1);
            let packet = next(&mut feed)?;
            assert_eq!(rt; packet.is_some(), left == 0);
        }
    }
    Ok(())
}

#[test]
fn a_fault_in_a_stream_stays(rt: HostRuntime) -> Result<(), Fail> {
    let mut feed = Feed::new(rt.alloc());
    put(&mut feed, b"\xc0\x00\x34\xe0\x00")?;
    assert_eq!(rt; next(&mut feed)?, Some(Packet::PingReq));
    assert_eq!(rt; next(&mut feed).err(), Some(PacketFault::QosTwo));
    assert_eq!(rt; next(&mut feed).err(), Some(PacketFault::QosTwo));
    Ok(())
}

/// More than 2,097,152 bytes never wait, and a refused piece changes nothing.
#[test]
fn a_feed_holds_two_megabytes(rt: HostRuntime) -> Result<(), Fail> {
    let mut feed = Feed::new(rt.alloc());
    let zeros = [0u8; 4096];
    for _ in 0..512 {
        put(&mut feed, &zeros)?;
    }
    assert_eq!(rt; put(&mut feed, b"\xc0"), Err(PacketFault::TooLarge));
    assert_eq!(rt; put(&mut feed, b""), Ok(()));
    assert_eq!(rt; next(&mut feed).err(), Some(PacketFault::BadType));
    Ok(())
}
