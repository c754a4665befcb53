//! Fields, values, lengths, filters, identifiers, registries, stores, STATE and the order of messages.
ghost use Rattle.std.specs.Prelude.{◌≤◌};

use spk_device::{Outcome, Owner, Refusal, Registry};
use spk_packets::{PacketFault, read_length};
use spk_payload::{Raw, Value, typed};
use spk_protobuf::{Fields, Wire};
use spk_sequence::{Kind, Match, Phase, Sequence, Step, Width};
use spk_session::{Session, Sort, Verdict};
use spk_state::{Heard, Primary, State};
use spk_store::{Change, Store};
use spk_topics::{Filter, Topic, matches};
use std::alloc::Global;
use std::process::Abort;

/// The examples of the protobuf encoding: field 1 is the varint 150, and field 2 the text `testing`.
#[test]
fn fields_are_read(rt: HostRuntime) {
    let mut fields = Fields::new(b"\x08\x96\x01\x12\x07testing");
    match fields.next() {
        Some(Ok(field)) => assert!(rt; field.number == 1 && field.wire == Wire::Varint(150)),
        _ => assert!(rt; false),
    }
    match fields.next() {
        Some(Ok(field)) => assert!(rt; field.number == 2 && field.wire == Wire::Bytes(b"testing")),
        _ => assert!(rt; false),
    }
    assert!(rt; fields.next().is_none());
}

/// Sparkplug's Int32 is a two's complement, and its Boolean a flag. 321 is MQTT's example of a length of two bytes (2.2.3).
#[test]
fn values_and_lengths_are_read(rt: HostRuntime) {
    assert!(rt; typed(3, Raw::Int(0xffff_ffff)) == Ok(Value::Signed(-1)));
    assert!(rt; typed(11, Raw::Flag(true)) == Ok(Value::Flag(true)));
    assert!(rt; typed(11, Raw::Int(1)) == Err(Raw::Int(1)));
    assert_eq!(rt; read_length(&[0xc1, 0x02]), Ok((321, 2)));
    assert_eq!(rt; read_length(&[0xc1]), Err(PacketFault::More));
}

/// The examples of MQTT 3.1.1, 4.7.1.
#[test]
fn filters_match(rt: HostRuntime) {
    for (filter, topic, wanted) in [
        (
            "sport/tennis/player1/#",
            "sport/tennis/player1/ranking",
            true,
        ),
        ("sport/tennis/+", "sport/tennis/player1", true),
        ("sport/tennis/+", "sport/tennis/player1/ranking", false),
        ("#", "$SYS/monitor", false),
    ] {
        match (Filter::read(filter), Topic::read(topic)) {
            (Ok(filter), Ok(topic)) => assert!(rt; matches(&filter, &topic) == wanted),
            _ => assert!(rt; false),
        }
    }
}

#[test]
fn identifiers_are_given_back(rt: HostRuntime) {
    let mut session = Session::new(2);
    assert_eq!(rt; session.sent(), Ok(1));
    assert_eq!(rt; session.waiting(), [1].as_slice());
    assert!(rt; session.acked(1) && !session.acked(1));
    assert_eq!(rt; session.refused(Sort::QosZero), Verdict::Dropped);
    assert_eq!(rt; session.refused(Sort::QosZero), Verdict::Close);
    session.reopen();
    assert_eq!(rt; session.refused(Sort::QosZero), Verdict::Dropped);
    assert_eq!(rt; session.refused(Sort::Other), Verdict::Close);
}

/// A node's metric of the alias 1, and a device that is down.
fn registry(alloc: Global) -> Option<Registry> {
    let mut registry = Registry::new(alloc);
    let _alias = registry
        .add_metric(Owner::Node, "t", 3, Some(Value::Signed(7)))
        .ok()?;
    registry.add_device("D").ok()?;
    Some(registry)
}

#[test]
fn a_registry_is_set(rt: HostRuntime) {
    let Some(mut registry) = registry(rt.alloc()) else {
        return;
    };
    assert_eq!(rt;
        registry.set(1, Some(Value::Signed(8))),
        Ok(Outcome::Changed)
    );
    assert_eq!(rt; registry.set(1, Some(Value::Signed(8))), Ok(Outcome::Same));
    assert_eq!(rt; registry.set(2, None), Err(Refusal::NoSuch));
    assert_eq!(rt; registry.device_up("D"), Ok(Outcome::Changed));
    assert_eq!(rt; registry.device_up("D"), Ok(Outcome::Same));
    assert_eq!(rt; registry.device_down("D"), Ok(Outcome::Changed));
    assert_eq!(rt; registry.device_down("E"), Err(Refusal::NoSuch));
    assert!(rt; registry.device_count() == 1 && registry.metric_count() == 1);
}

/// A change of the node's metric 1.
fn change(time: u64) -> Change {
    Change {
        owner: Owner::Node,
        alias: 1,
        value: Some(Value::Unsigned(time)),
        time,
    }
}

#[test]
fn a_store_keeps_the_newest(rt: HostRuntime) {
    let Ok(mut store) = Store::new(rt.alloc(), 2) else {
        return;
    };
    assert!(rt; store.push(change(5)).is_none() && store.push(change(6)).is_none());
    assert!(rt; store.push(change(7)) == Some(change(5)));
    assert!(rt; store.front_run(32) == 2 && store.lost() == 1);
    assert!(rt; store.get(0) == Some(&change(6)) && store.get(2).is_none());
    if store.len() >= 1 {
        store.drop_front(1, true);
    }
    assert!(rt; store.len() == 1 && store.lost() == 2);
}

#[test]
fn states_are_heard(rt: HostRuntime) {
    let mut primary = Primary::new();
    for (online, timestamp, wanted) in [
        (true, 5, Heard::Online),
        (false, 4, Heard::Ignored),
        (false, 5, Heard::Offline),
    ] {
        assert_eq!(rt; primary.hear(State { online, timestamp }), wanted);
    }
}

/// One message is held, waits too long, and the node dies.
#[test]
fn an_order_is_kept(rt: HostRuntime) {
    let Some(width) = Width::new(64) else {
        return;
    };
    let mut order = Sequence::new(2_000, width);
    let data = Kind::Other { stamp: Some(2) };
    assert_eq!(rt;
        order.hand(0, Kind::Birth { stamp: 1, bd: 0 }, 5),
        Step::Consumed(1)
    );
    assert_eq!(rt; order.hand(2, data, 6), Step::Held);
    assert!(rt; order.held() == 1 && order.tick(2_005).is_none() && order.tick(2_006).is_some());
    assert_eq!(rt; order.phase(), Phase::Gap);
    assert_eq!(rt; order.death(1), Match::Ignored);
    assert_eq!(rt; order.death(0), Match::Matched);
    order.reset();
    assert_eq!(rt; order.phase(), Phase::Unknown);
}
