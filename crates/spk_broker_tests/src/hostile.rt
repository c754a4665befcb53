//! What comes from a client that keeps no rule: bytes that are no packet, packets in the wrong place. Each closes its connection,
//! nothing of it takes effect, and its will is routed once.
use crate::broker::{Event, HELLO, Row, Talks, WELCOME, X, all_told, answer, is_right, plays};
use crate::limits::{asks_again, retains_bytes, said};
use spk_broker::{Broker, BrokerFault};
use std::alloc::Global;
use std::test::Fail;

/// The client `x` with the will `6` on `w`.
const WILLED: &[u8] = b"\x10\x13\x00\x04MQTT\x04\x06\x00\x3c\x00\x01x\x00\x01w\x00\x016";

const WILL: &[u8] = b"\x30\x04\x00\x01w6";

/// Bytes that close a connection whose CONNECT was accepted: no packet, one that only a broker sends, a second CONNECT, a
/// topic name or a filter that isn't one.
static CLOSING: [&[u8]; 27] = [
    b"\x00",
    b"\xf0\x00",
    b"\x36",
    b"\x38",
    b"\x60",
    b"\x34",
    b"\x50",
    b"\x62",
    b"\x30\x80\x80\x80\x80",
    b"\x30\xff\xff\xff\x7f",
    b"\x30\x03\x00\x01\x00",
    b"\x32\x05\x00\x01a\x00\x00",
    b"\x30\x02\x00\x05",
    b"\x82\x02\x00\x01",
    b"\xc0\x01\x00",
    b"\x10\x0e\x00\x06MQIsdp\x03\x02\x00\x3c\x00\x00",
    b"\x10\x0c\x00\x04MQTT\x05\x02\x00\x3c\x00\x00",
    b"\x20\x02\x00\x00",
    b"\x90\x03\x00\x01\x00",
    b"\xb0\x02\x00\x01",
    b"\xd0\x00",
    X,
    b"\x30\x06\x00\x03a/+7",
    b"\x33\x07\x00\x01#\x00\x097",
    b"\x30\x02\x00\x00",
    b"\x82\x0b\x00\x01\x00\x01b\x00\x00\x02a#\x00",
    b"\xa2\x09\x00\x01\x00\x01#\x00\x02+a",
];

/// One subscribes to all, and another with a will comes.
static BEFORE: [(u64, Event); 5] = [
    (1, Event::Opens),
    (1, Event::Says(HELLO)),
    (1, Event::Says(b"\x82\x06\x00\x01\x00\x01#\x00")),
    (2, Event::Opens),
    (2, Event::Says(WILLED)),
];

/// Whether these bytes of a client with a will close it, and send its will alone to who has the filter `#`.
fn closes(
    alloc: Global,
    broker: &mut impl Talks,
    bytes: &'static [u8],
) -> Result<bool, BrokerFault> {
    all_told(alloc, broker, &BEFORE)?;
    let out = answer(alloc, broker, 2, &Event::Says(bytes), 0)?;
    let again = broker.ended(2, 0);
    Ok(is_right(&out, &[(1, WILL)], &[2]) && again == Err(BrokerFault::NoSuchConn))
}

#[test]
fn a_client_that_keeps_no_rule_is_closed_and_its_will_is_routed_once(
    rt: HostRuntime,
) -> Result<(), Fail> {
    for bytes in CLOSING {
        let is_right = closes(rt.alloc(), &mut Broker::new(rt.alloc(), 128), bytes)?;
        assert!(rt; is_right, "{bytes:?}");
    }
    Ok(())
}

/// Whether a client with a will that asks for 68 MB of retained messages is closed, is sent nothing of them, and its will alone is sent to who has
/// the filter `#`, which goes on listening.
fn asks_for_too_much(alloc: Global, broker: &mut impl Talks) -> Result<bool, BrokerFault> {
    all_told(alloc, broker, &BEFORE)?;
    let retained = retains_bytes(alloc, 1_000_000)?;
    let _ = said(broker, 1, &retained);
    let asked = asks_again(alloc, 68)?;
    let Some(out) = said(broker, 2, &asked) else {
        return Ok(false);
    };
    let again = broker.ended(2, 0);
    let later = answer(alloc, broker, 1, &Event::Says(b"\x30\x04\x00\x01a7"), 0)?;
    Ok(
        is_right(&out, &[(1, WILL)], &[2])
            && again == Err(BrokerFault::NoSuchConn)
            && is_right(&later, &[(1, b"\x30\x04\x00\x01a7")], &[]),
    )
}

#[test]
fn who_asks_for_too_much_is_closed_and_others_are_not(rt: HostRuntime) -> Result<(), Fail> {
    assert!(rt; asks_for_too_much(rt.alloc(), &mut Broker::new(rt.alloc(), 128))?);
    Ok(())
}

/// What closes a connection as its first packet, with nothing sent to it.
static FIRST: [&[u8]; 11] = [
    b"\xc0\x00",
    b"\xe0\x00",
    b"\x30\x04\x00\x01a7",
    b"\x40\x02\x00\x01",
    b"\x82\x06\x00\x01\x00\x01#\x00",
    b"\xa2\x05\x00\x01\x00\x01#",
    b"\x00",
    b"\x34",
    b"\x10\x0e\x00\x06MQIsdp\x03\x02\x00\x3c\x00\x00",
    b"\x10\x13\x00\x04MQTT\x04\x06\x00\x3c\x00\x01x\x00\x01+\x00\x016",
    b"\x10\x0d\x00\x04MQTT\x04\x02\x00\x3c\x00\x00\x00",
];

/// Whether these bytes close a connection without CONNECT, and send these.
fn turns_away(
    alloc: Global,
    broker: &mut impl Talks,
    bytes: &'static [u8],
    sends: &[(u64, &[u8])],
) -> Result<bool, BrokerFault> {
    let _ = answer(alloc, broker, 1, &Event::Opens, 0)?;
    let out = answer(alloc, broker, 1, &Event::Says(bytes), 0)?;
    Ok(is_right(&out, sends, &[1]))
}

/// The same with a new broker.
fn is_turned_away(
    alloc: Global,
    bytes: &'static [u8],
    sends: &[(u64, &[u8])],
) -> Result<bool, BrokerFault> {
    turns_away(alloc, &mut Broker::new(alloc, 128), bytes, sends)
}

#[test]
fn what_is_no_connect_closes_as_first_packet(rt: HostRuntime) -> Result<(), Fail> {
    for bytes in FIRST {
        assert!(rt; is_turned_away(rt.alloc(), bytes, &[])?, "{bytes:?}");
    }
    let level = b"\x10\x0c\x00\x04MQTT\x05\x02\x00\x3c\x00\x00";
    assert!(rt; is_turned_away(rt.alloc(), level, &[(1, b"\x20\x02\x00\x01")])?);
    Ok(())
}

/// An acknowledgement of nothing, and UNSUBSCRIBE of a filter that doesn't stand.
static HARMLESS: [Row; 5] = [
    (1, Event::Opens, 0, &[], &[]),
    (1, Event::Says(HELLO), 0, &[(1, WELCOME)], &[]),
    (1, Event::Says(b"\x40\x02\x00\x09"), 0, &[], &[]),
    (
        1,
        Event::Says(b"\xa2\x05\x00\x03\x00\x01#"),
        0,
        &[(1, b"\xb0\x02\x00\x03")],
        &[],
    ),
    (1, Event::Says(b"\xc0\x00"), 0, &[(1, b"\xd0\x00")], &[]),
];

#[test]
fn what_there_is_nothing_of_is_passed_over(rt: HostRuntime) -> Result<(), Fail> {
    let right = plays(rt.alloc(), &mut Broker::new(rt.alloc(), 128), &HARMLESS)?;
    assert_eq!(rt; right, HARMLESS.len());
    Ok(())
}
