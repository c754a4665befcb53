//! The broker's own limits: grants, retained topics, kept sessions and unacknowledged messages, each at its last one and one beyond.
use crate::broker::Talks;
use spk_broker::{Broker, BrokerFault, Out, Outgoing};
use spk_packets::{Packet, Request};
use std::alloc::{AllocError, Global};
use std::test::Fail;

/// What a packet gives; the call is made again where memory was refused.
pub(crate) fn said(broker: &mut impl Talks, conn: u64, packet: &Packet) -> Option<Out> {
    match broker.heard(conn, packet, 0) {
        Err(BrokerFault::NoMemory) => broker.heard(conn, packet, 0).ok(),
        answer => answer.ok(),
    }
}

fn opens(broker: &mut impl Talks) -> u64 {
    match broker.opened(0) {
        Ok(conn) => conn,
        Err(_fault) => broker.opened(0).unwrap_or(0),
    }
}

/// The last byte of a send whose bytes lie in one piece.
fn last_of(sent: &Outgoing) -> u8 {
    *sent.bytes.parts().0.last().unwrap_or(&255)
}

/// The last byte of the first send: a return code of CONNACK or SUBACK.
fn last_code(out: &Out) -> u8 {
    match out.sends.first() {
        Some(sent) => last_of(sent),
        None => 255,
    }
}

/// A letter and a number.
pub(crate) fn name(alloc: Global, letter: &str, number: u16) -> Result<String, AllocError> {
    format!(in alloc; "{letter}{number}")
}

/// A new connection of a client, and the code of its CONNACK.
pub(crate) fn joins(broker: &mut impl Talks, client: String, clean: bool) -> (u64, u8) {
    let conn = opens(broker);
    let connect = Packet::Connect {
        client,
        clean,
        keep: 0,
        will: None,
    };
    let answer = code_of(said(broker, conn, &connect));
    (conn, answer)
}

/// A SUBSCRIBE for the filters of these numbers.
fn asks(alloc: Global, letter: &str, from: u16, to: u16) -> Result<Packet, AllocError> {
    let mut filters = Vec::new(alloc);
    for number in from..to {
        let filter = name(alloc, letter, number)?;
        filters.push(Request { filter, qos: 1 })?;
    }
    Ok(Packet::Subscribe { id: 1, filters })
}

/// A retained publish on the topic of this number.
fn retains(alloc: Global, number: u16, payload: &[u8]) -> Result<Packet, AllocError> {
    let mut said = Vec::new(alloc);
    said.extend_from_slice(payload)?;
    Ok(Packet::Publish {
        dup: false,
        qos: 0,
        retain: true,
        topic: name(alloc, "t", number)?,
        id: None,
        payload: said,
    })
}

/// A publish of QoS 1 on the topic of the number 0.
fn publishes(alloc: Global) -> Result<Packet, AllocError> {
    Ok(Packet::Publish {
        dup: false,
        qos: 1,
        retain: false,
        topic: name(alloc, "t", 0)?,
        id: Some(7),
        payload: Vec::new(alloc),
    })
}

/// What a client says.
#[derive(Clone, Copy)]
enum Says {
    /// A SUBSCRIBE for the filters of these numbers.
    Asks(&'static str, u16, u16),
    /// A retained publish.
    Retains(u16, &'static [u8]),
    Publishes,
    Leaves,
}

fn packet_of(alloc: Global, says: Says) -> Result<Packet, AllocError> {
    match says {
        Says::Asks(letter, from, to) => asks(alloc, letter, from, to),
        Says::Retains(number, payload) => retains(alloc, number, payload),
        Says::Publishes => publishes(alloc),
        Says::Leaves => Ok(Packet::Disconnect),
    }
}

/// What a packet gives.
fn gives(
    alloc: Global,
    broker: &mut impl Talks,
    conn: u64,
    says: Says,
) -> Result<Option<Out>, AllocError> {
    let packet = packet_of(alloc, says)?;
    Ok(said(broker, conn, &packet))
}

/// The last code of an answer.
fn code_of(answer: Option<Out>) -> u8 {
    match answer {
        Some(out) => last_code(&out),
        None => 255,
    }
}

/// The last code of the answer to a packet.
fn code(alloc: Global, broker: &mut impl Talks, conn: u64, says: Says) -> Result<u8, AllocError> {
    Ok(code_of(gives(alloc, broker, conn, says)?))
}

/// The last byte of the last send.
fn last_byte(answer: Option<Out>) -> u8 {
    match answer {
        Some(out) => match out.sends.last() {
            Some(sent) => last_of(sent),
            None => 255,
        },
        None => 255,
    }
}

/// How many sends an answer has.
pub(crate) fn count_of(answer: Option<Out>) -> usize {
    match answer {
        Some(out) => out.sends.len(),
        None => 0,
    }
}

/// How many sends a packet gives.
fn count(
    alloc: Global,
    broker: &mut impl Talks,
    conn: u64,
    says: Says,
) -> Result<usize, AllocError> {
    Ok(count_of(gives(alloc, broker, conn, says)?))
}

/// Whether a packet is taken, and closes nobody.
fn passes(
    alloc: Global,
    broker: &mut impl Talks,
    conn: u64,
    says: Says,
) -> Result<bool, AllocError> {
    Ok(match gives(alloc, broker, conn, says)? {
        Some(out) => out.closes.is_empty(),
        None => false,
    })
}

/// A new connection without a client id.
pub(crate) fn comes(alloc: Global, broker: &mut impl Talks) -> u64 {
    joins(broker, String::new(alloc), true).0
}

/// The code of the CONNACK for a kept session, and the connection.
fn stays(alloc: Global, broker: &mut impl Talks, number: u16) -> Result<(u64, u8), AllocError> {
    let client = name(alloc, "c", number)?;
    Ok(joins(broker, client, false))
}

/// A hundred clients with a hundred filters each, then one filter more: the codes of the last grant, of the one more, and of
/// one that stands.
fn grants(alloc: Global, broker: &mut impl Talks) -> Result<(u8, u8, u8), AllocError> {
    let mut last = 0;
    for _ in 0..100 {
        let conn = comes(alloc, broker);
        last = code(alloc, broker, conn, Says::Asks("f", 0, 100))?;
    }
    let more = code(alloc, broker, 100, Says::Asks("f", 100, 101))?;
    let standing = code(alloc, broker, 1, Says::Asks("f", 0, 1))?;
    Ok((last, more, standing))
}

/// The same of a hundred clients whose sessions are kept while they are away: the codes of the last grant, and of another client's one more.
fn away_grants(alloc: Global, broker: &mut impl Talks) -> Result<(u8, u8), AllocError> {
    let mut last = 0;
    for number in 0..100 {
        let (conn, _) = stays(alloc, broker, number)?;
        last = code(alloc, broker, conn, Says::Asks("f", 0, 100))?;
        passes(alloc, broker, conn, Says::Leaves)?;
    }
    let conn = comes(alloc, broker);
    let more = code(alloc, broker, conn, Says::Asks("f", 0, 1))?;
    Ok((last, more))
}

#[test]
fn filter_10001_is_refused(rt: HostRuntime) -> Result<(), Fail> {
    let codes = grants(rt.alloc(), &mut Broker::new(rt.alloc(), 128))?;
    assert_eq!(rt; codes, (1, 128, 1));
    let codes = away_grants(rt.alloc(), &mut Broker::new(rt.alloc(), 128))?;
    assert_eq!(rt; codes, (1, 128));
    Ok(())
}

/// With 10,000 topics retained, one more: what a SUBSCRIBE to the last, to the one more, and to the one more once another
/// was removed sends, SUBACK with it; and the last byte of what the last topic, once it was retained again, sends.
fn topics(alloc: Global, broker: &mut impl Talks) -> Result<(usize, usize, usize, u8), AllocError> {
    let conn = comes(alloc, broker);
    for number in 0..10_001 {
        passes(alloc, broker, conn, Says::Retains(number, b"7"))?;
    }
    let last = count(alloc, broker, conn, Says::Asks("t", 9_999, 10_000))?;
    let more = count(alloc, broker, conn, Says::Asks("t", 10_000, 10_001))?;
    passes(alloc, broker, conn, Says::Retains(9_999, b"8"))?;
    let replaced = last_byte(gives(alloc, broker, conn, Says::Asks("t", 9_999, 10_000))?);
    passes(alloc, broker, conn, Says::Retains(5, b""))?;
    passes(alloc, broker, conn, Says::Retains(10_000, b"7"))?;
    let then = count(alloc, broker, conn, Says::Asks("t", 10_000, 10_001))?;
    Ok((last, more, then, replaced))
}

#[test]
fn topic_10001_is_not_retained(rt: HostRuntime) -> Result<(), Fail> {
    let sends = topics(rt.alloc(), &mut Broker::new(rt.alloc(), 128))?;
    assert_eq!(rt; sends, (2, 1, 2, b'8'));
    Ok(())
}

/// The codes of CONNACK for the thousandth kept session, for one more, and for one that stands. So many of the thousand stay connected.
fn kept(
    alloc: Global,
    broker: &mut impl Talks,
    connected: u16,
) -> Result<(u8, u8, u8), AllocError> {
    let mut last = 255;
    for number in 0..1_000 {
        let (conn, code) = stays(alloc, broker, number)?;
        last = code;
        if number >= connected {
            passes(alloc, broker, conn, Says::Leaves)?;
        }
    }
    let more = stays(alloc, broker, 1_000)?.1;
    let standing = stays(alloc, broker, 7)?.1;
    Ok((last, more, standing))
}

#[test]
fn kept_session_1001_is_turned_away(rt: HostRuntime) -> Result<(), Fail> {
    for connected in [0, 500] {
        let codes = kept(rt.alloc(), &mut Broker::new(rt.alloc(), 128), connected)?;
        assert_eq!(rt; codes, (0, 3, 0));
    }
    Ok(())
}

/// Which message of QoS 1 closes who doesn't acknowledge.
fn unacknowledged(alloc: Global, broker: &mut impl Talks) -> Result<u16, AllocError> {
    let conn = comes(alloc, broker);
    let other = comes(alloc, broker);
    passes(alloc, broker, conn, Says::Asks("t", 0, 1))?;
    for number in 1..1_100 {
        if !passes(alloc, broker, other, Says::Publishes)? {
            return Ok(number);
        }
    }
    Ok(0)
}

#[test]
fn unacknowledged_message_1025_closes(rt: HostRuntime) -> Result<(), Fail> {
    let number = unacknowledged(rt.alloc(), &mut Broker::new(rt.alloc(), 128))?;
    assert_eq!(rt; number, 1_025);
    Ok(())
}

/// A text of 32,768 levels, the last of which is this one.
fn deep(alloc: Global, last: &str) -> Result<String, AllocError> {
    let mut text = String::new(alloc);
    for _ in 0..32_767 {
        text.push_str("a/")?;
    }
    text.push_str(last)?;
    Ok(text)
}

/// A SUBSCRIBE for a filter as deep.
fn deep_filter(alloc: Global, last: &str) -> Result<Packet, AllocError> {
    let filter = deep(alloc, last)?;
    let mut filters = Vec::new(alloc);
    filters.push(Request { filter, qos: 0 })?;
    Ok(Packet::Subscribe { id: 1, filters })
}

/// A new client with a grant of a filter as deep.
fn asks_deep(alloc: Global, broker: &mut impl Talks, last: &str) -> Result<u8, AllocError> {
    let conn = comes(alloc, broker);
    let packet = deep_filter(alloc, last)?;
    Ok(code_of(said(broker, conn, &packet)))
}

/// A publish on a topic as deep.
fn deep_publish(alloc: Global) -> Result<Packet, AllocError> {
    Ok(Packet::Publish {
        dup: false,
        qos: 0,
        retain: false,
        topic: deep(alloc, "a")?,
        id: None,
        payload: Vec::new(alloc),
    })
}

/// The least and the most connections that each of 20 publishes reached.
fn reached(broker: &mut impl Talks, publish: &Packet) -> (usize, usize) {
    let mut least = usize::MAX;
    let mut most = 0;
    for _ in 0..20 {
        let reached = count_of(said(broker, 1, publish));
        least = least.min(reached);
        most = most.max(reached);
    }
    (least, most)
}

/// Four clients with a filter of 32,768 levels each, more than an index may have together: the least and the most of them that each of 20
/// publishes reached, on a topic that three of the filters fit.
fn reached_deep(alloc: Global, broker: &mut impl Talks) -> Result<(usize, usize), AllocError> {
    for last in ["a", "+", "#", "b"] {
        asks_deep(alloc, broker, last)?;
    }
    let publish = deep_publish(alloc)?;
    Ok(reached(broker, &publish))
}

#[test]
fn a_publish_is_routed_among_more_levels_than_an_index_has(rt: HostRuntime) -> Result<(), Fail> {
    let reached = reached_deep(rt.alloc(), &mut Broker::new(rt.alloc(), 128))?;
    assert_eq!(rt; reached, (3, 3));
    Ok(())
}

/// A client that asks for four such filters at once, behind a publish: the least and the most copies that each of 20 publishes gave, on a topic
/// that three of them fit. `tools/asked` counts the bytes that it asks for: an index of them would take 14 MB and more.
fn reached_past_the_limit(
    alloc: Global,
    broker: &mut impl Talks,
) -> Result<(usize, usize), AllocError> {
    comes(alloc, broker);
    said(broker, 1, &publishes(alloc)?);
    let conn = comes(alloc, broker);
    let mut filters = Vec::new(alloc);
    for last in ["a", "+", "#", "b"] {
        let filter = deep(alloc, last)?;
        filters.push(Request { filter, qos: 0 })?;
    }
    said(broker, conn, &Packet::Subscribe { id: 1, filters });
    let publish = deep_publish(alloc)?;
    Ok(reached(broker, &publish))
}

#[test]
fn filters_past_the_limit_come_into_no_index(rt: HostRuntime) -> Result<(), Fail> {
    let reached = reached_past_the_limit(rt.alloc(), &mut Broker::new(rt.alloc(), 128))?;
    assert_eq!(rt; reached, (1, 1));
    Ok(())
}

/// A retained publish of so many bytes on the topic of the number 0.
pub(crate) fn retains_bytes(alloc: Global, count: usize) -> Result<Packet, AllocError> {
    let mut payload = Vec::new(alloc);
    payload.resize(count, b'7')?;
    Ok(Packet::Publish {
        dup: false,
        qos: 0,
        retain: true,
        topic: name(alloc, "t", 0)?,
        id: None,
        payload,
    })
}

/// A SUBSCRIBE that names the topic of the number 0 so often.
pub(crate) fn asks_again(alloc: Global, times: u16) -> Result<Packet, AllocError> {
    let mut filters = Vec::new(alloc);
    for _ in 0..times {
        let filter = name(alloc, "t", 0)?;
        filters.push(Request { filter, qos: 0 })?;
    }
    Ok(Packet::Subscribe { id: 1, filters })
}

/// With a retained message of so many bytes: how many sends a SUBSCRIBE gives that names its topic so often, SUBACK with them, and how many
/// connections it closes.
fn given(
    alloc: Global,
    broker: &mut impl Talks,
    bytes: usize,
    times: u16,
) -> Result<(usize, usize), AllocError> {
    let conn = comes(alloc, broker);
    let retained = retains_bytes(alloc, bytes)?;
    let _ = said(broker, conn, &retained);
    let asked = asks_again(alloc, times)?;
    Ok(match said(broker, conn, &asked) {
        Some(out) => (out.sends.len(), out.closes.len()),
        None => (0, 0),
    })
}

/// A message weighs its payload, the two bytes of its topic, and 9: 64 of 1,048,565 bytes weigh 67,108,864, which is the most.
#[test]
fn a_subscribe_is_given_64_megabytes(rt: HostRuntime) -> Result<(), Fail> {
    let sends = given(rt.alloc(), &mut Broker::new(rt.alloc(), 128), 1_048_565, 64)?;
    assert_eq!(rt; sends, (65, 0));
    Ok(())
}

/// A byte more in each is 64 too many, and 68 of 1,000,000 bytes weigh 68,000,748.
#[test]
fn a_subscribe_for_more_than_64_megabytes_closes(rt: HostRuntime) -> Result<(), Fail> {
    for (bytes, times) in [(1_048_566, 64), (1_000_000, 68)] {
        let sends = given(rt.alloc(), &mut Broker::new(rt.alloc(), 128), bytes, times)?;
        assert_eq!(rt; sends, (0, 1), "{bytes} {times}");
    }
    Ok(())
}
