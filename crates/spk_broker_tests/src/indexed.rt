//! A broker whose index of grants has followed all that happened, beside one that makes it at the end.
use crate::broker::Talks;
use crate::limits::{comes, count_of, name, said};
use spk_broker::{Broker, Out};
use spk_packets::{Packet, Request};
use std::alloc::{AllocError, Global};
use std::test::Fail;

/// The filter of a number: a topic of its own, or one of two that fit it.
fn filter(alloc: Global, number: u16) -> Result<String, AllocError> {
    match number.checked_rem(3) {
        Some(0) => name(alloc, "a/b/t", number),
        Some(1) => format!(in alloc; "a/+/t{number}"),
        _ => format!(in alloc; "+/b/t{number}/#"),
    }
}

/// A SUBSCRIBE for the filters of these numbers, and for all topics where `all` is set.
fn asks(alloc: Global, from: u16, to: u16, qos: u8) -> Result<Packet, AllocError> {
    let mut filters = Vec::new(alloc);
    for number in from..to {
        filters.push(Request {
            filter: filter(alloc, number)?,
            qos,
        })?;
    }
    Ok(Packet::Subscribe { id: 1, filters })
}

/// An UNSUBSCRIBE of the filters of these numbers.
fn drops(alloc: Global, from: u16, to: u16) -> Result<Packet, AllocError> {
    let mut filters = Vec::new(alloc);
    for number in from..to {
        filters.push(filter(alloc, number)?)?;
    }
    Ok(Packet::Unsubscribe { id: 2, filters })
}

/// A publish of QoS 0 on the topic of a number.
fn tells(alloc: Global, number: u16) -> Result<Packet, AllocError> {
    Ok(Packet::Publish {
        dup: false,
        qos: 0,
        retain: false,
        topic: name(alloc, "a/b/t", number)?,
        id: None,
        payload: Vec::new(alloc),
    })
}

/// Packets in their order, each of the client of this number: clients that come with many filters, take some back, get others, and leave.
fn past(alloc: Global) -> Result<Vec<(usize, Packet)>, AllocError> {
    let mut packets = Vec::new(alloc);
    packets.push((0, asks(alloc, 0, 60, 1)?))?;
    for client in 2..12 {
        packets.push((client, asks(alloc, 0, 90, 0)?))?;
        packets.push((client, drops(alloc, 30, 75)?))?;
        packets.push((client, asks(alloc, 70, 100, 1)?))?;
        packets.push((client, asks(alloc, 0, 10, 1)?))?;
        packets.push((client, drops(alloc, 200, 210)?))?;
        if client != 7 {
            packets.push((client, Packet::Disconnect))?;
        }
    }
    packets.push((0, drops(alloc, 10, 20)?))?;
    Ok(packets)
}

/// To how many each of these publishes went, and to whom its first went.
fn heard_by(answer: Option<Out>) -> (usize, u64) {
    let first = match &answer {
        Some(out) => match out.sends.first() {
            Some(sent) => sent.conn,
            None => 0,
        },
        None => 0,
    };
    (count_of(answer), first)
}

/// A run of that past, where `often` is set with publishes in between. To how many each of the publishes at its end went, and to whom first.
fn run(
    alloc: Global,
    broker: &mut impl Talks,
    often: bool,
) -> Result<Vec<(usize, u64)>, AllocError> {
    for _ in 0..12 {
        comes(alloc, broker);
    }
    for (client, packet) in &past(alloc)? {
        if often {
            for number in [0, 35, 72, 95] {
                said(broker, 2, &tells(alloc, number)?);
            }
        }
        said(broker, (*client).saturating_add(1) as u64, packet);
    }
    let mut reached = Vec::new(alloc);
    for number in 0..105 {
        reached.push(heard_by(said(broker, 2, &tells(alloc, number)?)))?;
    }
    Ok(reached)
}

#[test]
fn an_index_that_followed_finds_what_a_new_one_does(rt: HostRuntime) -> Result<(), Fail> {
    let followed = run(rt.alloc(), &mut Broker::new(rt.alloc(), 128), true)?;
    let made = run(rt.alloc(), &mut Broker::new(rt.alloc(), 128), false)?;
    assert_eq!(rt; followed, made);
    assert_eq!(rt; followed.get(0).copied(), Some((2, 1)));
    assert_eq!(rt; followed.get(15).copied(), Some((1, 8)));
    assert_eq!(rt; followed.get(35).copied(), Some((1, 1)));
    assert_eq!(rt; followed.get(95).copied(), Some((1, 8)));
    Ok(())
}
