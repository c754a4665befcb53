//! A message with QoS 1 that many get is held once: each packet is a head of its own and the payload that all share. `tools/asked` counts the bytes that
//! the first of these tests asks for.
use crate::broker::Talks;
use crate::limits::{joins, name, said};
use spk_broker::{Broker, Out, Outgoing};
use spk_packets::{Packet, Request};
use std::alloc::{AllocError, Global};
use std::test::Fail;

/// How many listen.
const RECEIVERS: u16 = 20;

/// A publish of so many bytes with QoS 1.
fn publishes(alloc: Global, bytes: usize) -> Result<Packet, AllocError> {
    let mut payload = Vec::new(alloc);
    payload.resize(bytes, b'7')?;
    Ok(Packet::Publish {
        dup: false,
        qos: 1,
        retain: false,
        topic: name(alloc, "t", 0)?,
        id: Some(9),
        payload,
    })
}

/// So many clients whose sessions are kept listen with QoS 1, and one more comes, whose number is the answer.
fn listen(alloc: Global, broker: &mut impl Talks) -> Result<u64, AllocError> {
    for number in 0..RECEIVERS {
        let (conn, _code) = joins(broker, name(alloc, "c", number)?, false);
        let mut filters = Vec::new(alloc);
        let filter = name(alloc, "t", 0)?;
        filters.push(Request { filter, qos: 1 })?;
        said(broker, conn, &Packet::Subscribe { id: 1, filters });
    }
    let (conn, _code) = joins(broker, name(alloc, "p", 0)?, true);
    Ok(conn)
}

/// What stands before a payload of 1,000,000 bytes in the first packet for each, and in the second: 1,000,006 bytes are left, the topic is `t0`.
static HEADS: [&[u8]; 2] = [
    b"\x32\xc6\x84\x3d\x00\x02t0\x00\x01",
    b"\x32\xc6\x84\x3d\x00\x02t0\x00\x02",
];

/// Whether a send is a payload of 1,000,000 bytes behind this head.
fn is_sent(sent: &Outgoing, wanted: &[u8]) -> bool {
    let (head, body) = sent.bytes.parts();
    head == wanted && body.len() == 1_000_000 && body.last() == Some(&b'7')
}

/// Whether the publisher is sent its acknowledgement, and then all who listen the payload behind this head.
fn are_sent(answer: Option<Out>, head: &[u8]) -> bool {
    let Some(out) = answer else {
        return false;
    };
    out.sends.len() == usize::from(RECEIVERS) + 1
        && out.sends.iter().skip(1).all(|sent| is_sent(sent, head))
}

/// Whether a publish of a megabyte comes to all who listen, twice.
fn come(alloc: Global, broker: &mut impl Talks) -> Result<bool, AllocError> {
    let publisher = listen(alloc, broker)?;
    let publish = publishes(alloc, 1_000_000)?;
    for head in HEADS {
        if !are_sent(said(broker, publisher, &publish), head) {
            return Ok(false);
        }
    }
    Ok(true)
}

#[test]
fn a_publish_of_a_megabyte_is_held_once(rt: HostRuntime) -> Result<(), Fail> {
    assert!(rt; come(rt.alloc(), &mut Broker::new(rt.alloc(), 128))?);
    Ok(())
}
