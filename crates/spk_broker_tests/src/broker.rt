//! Tables of calls: bytes in, bytes out, by hand from the standard. Out of memory is a right answer wherever
//! memory is asked for: nothing has changed then, and the call is made again.

use spk_broker::{Broker, BrokerFault, Conn, Out, Outgoing};
use spk_packets::{Packet, PacketFault, decode};
use spk_session::Sort;
use std::alloc::Global;
use std::test::Fail;

/// What comes to the broker.
#[derive(Drop)]
pub(crate) enum Event {
    Opens,
    Says(&'static [u8]),
    /// Bytes of another protocol level.
    Faults,
    Ends,
    Ticks,
    /// A send of QoS 0 to it was refused.
    Drops,
    /// Any other send to it was.
    Refuses,
}

/// What the tests ask of a broker. They are written over any type that answers it, since a function over a type parameter is
/// proved without the parts of a broker.
pub(crate) trait Talks {
    fn opened(&mut self, now: u64) -> Result<Conn, BrokerFault>;

    fn heard(&mut self, conn: Conn, packet: &Packet, now: u64) -> Result<Out, BrokerFault>;

    fn faulted(&mut self, conn: Conn, fault: PacketFault, now: u64) -> Result<Out, BrokerFault>;

    fn ended(&mut self, conn: Conn, now: u64) -> Result<Out, BrokerFault>;

    fn ticked(&mut self, now: u64) -> Result<Out, BrokerFault>;

    fn dropped(&mut self, conn: Conn, sort: Sort, now: u64) -> Result<Out, BrokerFault>;
}

impl Talks for Broker {
    fn opened(&mut self, now: u64) -> Result<Conn, BrokerFault> {
        self.open(now)
    }

    fn heard(&mut self, conn: Conn, packet: &Packet, now: u64) -> Result<Out, BrokerFault> {
        self.packet(conn, packet, now)
    }

    fn faulted(&mut self, conn: Conn, fault: PacketFault, now: u64) -> Result<Out, BrokerFault> {
        self.fault(conn, fault, now)
    }

    fn ended(&mut self, conn: Conn, now: u64) -> Result<Out, BrokerFault> {
        self.closed(conn, now)
    }

    fn ticked(&mut self, now: u64) -> Result<Out, BrokerFault> {
        self.tick(now)
    }

    fn dropped(&mut self, conn: Conn, sort: Sort, now: u64) -> Result<Out, BrokerFault> {
        self.refused(conn, sort, now)
    }
}

pub(crate) type Sends = &'static [(Conn, &'static [u8])];

/// Of which connection, what, and when; then what is sent, and who is closed.
pub(crate) type Row = (Conn, Event, u64, Sends, &'static [Conn]);

fn call(
    alloc: Global,
    broker: &mut impl Talks,
    conn: Conn,
    event: &Event,
    now: u64,
) -> Result<Out, BrokerFault> {
    match event {
        Event::Opens => {
            broker.opened(now)?;
            Ok(Out {
                sends: Vec::new(alloc),
                closes: Vec::new(alloc),
            })
        }
        Event::Says(bytes) => match decode(alloc, bytes) {
            Ok((packet, _)) => broker.heard(conn, &packet, now),
            Err(PacketFault::NoMemory) => Err(BrokerFault::NoMemory),
            Err(fault) => broker.faulted(conn, fault, now),
        },
        Event::Faults => broker.faulted(conn, PacketFault::BadLevel, now),
        Event::Ends => broker.ended(conn, now),
        Event::Ticks => broker.ticked(now),
        Event::Drops => broker.dropped(conn, Sort::QosZero, now),
        Event::Refuses => broker.dropped(conn, Sort::Other, now),
    }
}

/// The call, made again where memory was refused.
pub(crate) fn answer(
    alloc: Global,
    broker: &mut impl Talks,
    conn: Conn,
    event: &Event,
    now: u64,
) -> Result<Out, BrokerFault> {
    match call(alloc, broker, conn, event, now) {
        Err(BrokerFault::NoMemory) => call(alloc, broker, conn, event, now),
        answer => answer,
    }
}

/// Each is taken, at the moment 0.
pub(crate) fn all_told(
    alloc: Global,
    broker: &mut impl Talks,
    events: &[(Conn, Event)],
) -> Result<(), BrokerFault> {
    for (conn, event) in events {
        let _ = answer(alloc, broker, *conn, event, 0)?;
    }
    Ok(())
}

/// A client comes.
static COMES: [(Conn, Event); 2] = [(1, Event::Opens), (1, Event::Says(HELLO))];

/// Whether a send has these bytes.
pub(crate) fn has_bytes(sent: &Outgoing, wanted: &[u8]) -> bool {
    let (head, body) = sent.bytes.parts();
    sent.bytes.len() == wanted.len() && wanted.starts_with(head) && wanted.ends_with(body)
}

/// Whether exactly this is sent and closed, in this order.
pub(crate) fn is_right(out: &Out, sends: &[(Conn, &[u8])], closes: &[Conn]) -> bool {
    if out.sends.len() != sends.len() {
        return false;
    }
    for (sent, wanted) in out.sends.iter().zip(sends.iter()) {
        if sent.conn != wanted.0 || !has_bytes(sent, wanted.1) {
            return false;
        }
    }
    out.closes.as_slice() == closes
}

/// How many rows are right before the first that isn't.
pub(crate) fn plays(
    alloc: Global,
    broker: &mut impl Talks,
    rows: &[Row],
) -> Result<usize, BrokerFault> {
    for (place, (conn, event, now, sends, closes)) in rows.iter().enumerate() {
        let out = answer(alloc, broker, *conn, event, *now)?;
        if !is_right(&out, sends, closes) {
            return Ok(place);
        }
    }
    Ok(rows.len())
}

/// CONNECT with clean session 1, keep alive 60 and no client id.
pub(crate) const HELLO: &[u8] = b"\x10\x0c\x00\x04MQTT\x04\x02\x00\x3c\x00\x00";
/// The client `x` with clean session 1, and with clean session 0.
pub(crate) const X: &[u8] = b"\x10\x0d\x00\x04MQTT\x04\x02\x00\x3c\x00\x01x";

const X_STAYS: &[u8] = b"\x10\x0d\x00\x04MQTT\x04\x00\x00\x3c\x00\x01x";
/// CONNACK: accepted, without and with a session present.
pub(crate) const WELCOME: &[u8] = b"\x20\x02\x00\x00";

const WELCOME_BACK: &[u8] = b"\x20\x02\x01\x00";

const DISCONNECT: &[u8] = b"\xe0\x00";

/// First packets, the greatest grant of two filters, PUBACK before what the publish sends, PINGREQ.
static FIRST: [Row; 9] = [
    (1, Event::Opens, 0, &[], &[]),
    (1, Event::Says(HELLO), 0, &[(1, WELCOME)], &[]),
    (2, Event::Opens, 0, &[], &[]),
    (
        2,
        Event::Says(b"\x10\x0c\x00\x04MQTT\x04\x00\x00\x3c\x00\x00"),
        0,
        &[(2, b"\x20\x02\x00\x02")],
        &[2],
    ),
    (
        1,
        Event::Says(b"\x82\x0e\x00\x01\x00\x03a/#\x00\x00\x03+/b\x01"),
        0,
        &[(1, b"\x90\x04\x00\x01\x00\x01")],
        &[],
    ),
    (
        1,
        Event::Says(b"\x32\x08\x00\x03a/b\x00\x097"),
        0,
        &[
            (1, b"\x40\x02\x00\x09"),
            (1, b"\x32\x08\x00\x03a/b\x00\x017"),
        ],
        &[],
    ),
    (1, Event::Says(b"\x40\x02\x00\x01"), 0, &[], &[]),
    (1, Event::Says(b"\xc0\x00"), 0, &[(1, b"\xd0\x00")], &[]),
    (1, Event::Says(DISCONNECT), 0, &[], &[]),
];

/// A take-over: the older one's will, then the newer one's CONNACK; the older one is closed.
static TAKE_OVER: [Row; 7] = [
    (1, Event::Opens, 0, &[], &[]),
    (
        1,
        Event::Says(b"\x10\x13\x00\x04MQTT\x04\x06\x00\x3c\x00\x01x\x00\x01w\x00\x016"),
        0,
        &[(1, WELCOME)],
        &[],
    ),
    (2, Event::Opens, 0, &[], &[]),
    (2, Event::Says(HELLO), 0, &[(2, WELCOME)], &[]),
    (
        2,
        Event::Says(b"\x82\x06\x00\x01\x00\x01#\x02"),
        0,
        &[(2, b"\x90\x03\x00\x01\x01")],
        &[],
    ),
    (3, Event::Opens, 0, &[], &[]),
    (
        3,
        Event::Says(X),
        0,
        &[(2, b"\x30\x04\x00\x01w6"), (3, WELCOME)],
        &[1],
    ),
];

/// A retained message, kept and removed; silence; bytes of another level before and after CONNECT.
static RETAINED: [Row; 13] = [
    (1, Event::Opens, 0, &[], &[]),
    (1, Event::Says(HELLO), 0, &[(1, WELCOME)], &[]),
    (1, Event::Says(b"\x31\x04\x00\x01ax"), 0, &[], &[]),
    (
        1,
        Event::Says(b"\x82\x06\x00\x01\x00\x01a\x00"),
        0,
        &[(1, b"\x90\x03\x00\x01\x00"), (1, b"\x31\x04\x00\x01ax")],
        &[],
    ),
    (
        1,
        Event::Says(b"\x31\x03\x00\x01a"),
        0,
        &[(1, b"\x30\x03\x00\x01a")],
        &[],
    ),
    (
        1,
        Event::Says(b"\x82\x06\x00\x02\x00\x01a\x00"),
        0,
        &[(1, b"\x90\x03\x00\x02\x00")],
        &[],
    ),
    (0, Event::Ticks, 90000, &[], &[]),
    (0, Event::Ticks, 90001, &[], &[1]),
    (2, Event::Opens, 90001, &[], &[]),
    (2, Event::Faults, 90001, &[(2, b"\x20\x02\x00\x01")], &[2]),
    (3, Event::Opens, 90001, &[], &[]),
    (3, Event::Says(HELLO), 90001, &[(3, WELCOME)], &[]),
    (3, Event::Faults, 90001, &[], &[3]),
];

/// What a kept session keeps while it is away, and what is sent again.
static KEPT: [Row; 22] = [
    (1, Event::Opens, 0, &[], &[]),
    (1, Event::Says(X_STAYS), 0, &[(1, WELCOME)], &[]),
    (
        1,
        Event::Says(b"\x82\x06\x00\x01\x00\x01a\x01"),
        0,
        &[(1, b"\x90\x03\x00\x01\x01")],
        &[],
    ),
    (1, Event::Says(DISCONNECT), 0, &[], &[]),
    (2, Event::Opens, 0, &[], &[]),
    (2, Event::Says(HELLO), 0, &[(2, WELCOME)], &[]),
    (
        2,
        Event::Says(b"\x32\x06\x00\x01a\x00\x07x"),
        0,
        &[(2, b"\x40\x02\x00\x07")],
        &[],
    ),
    (3, Event::Opens, 0, &[], &[]),
    (
        3,
        Event::Says(X_STAYS),
        0,
        &[(3, WELCOME_BACK), (3, b"\x32\x06\x00\x01a\x00\x01x")],
        &[],
    ),
    (3, Event::Ends, 0, &[], &[]),
    (4, Event::Opens, 0, &[], &[]),
    (
        4,
        Event::Says(X_STAYS),
        0,
        &[(4, WELCOME_BACK), (4, b"\x3a\x06\x00\x01a\x00\x01x")],
        &[],
    ),
    (4, Event::Says(b"\x40\x02\x00\x01"), 0, &[], &[]),
    (4, Event::Says(DISCONNECT), 0, &[], &[]),
    (5, Event::Opens, 0, &[], &[]),
    (5, Event::Says(X_STAYS), 0, &[(5, WELCOME_BACK)], &[]),
    (5, Event::Says(DISCONNECT), 0, &[], &[]),
    (6, Event::Opens, 0, &[], &[]),
    (6, Event::Says(X), 0, &[(6, WELCOME)], &[]),
    (6, Event::Says(DISCONNECT), 0, &[], &[]),
    (7, Event::Opens, 0, &[], &[]),
    (7, Event::Says(X_STAYS), 0, &[(7, WELCOME)], &[]),
];

/// Identifiers go on behind an acknowledgement, and when a session is taken up; what was retained is sent again as such.
static GO_ON: [Row; 17] = [
    (1, Event::Opens, 0, &[], &[]),
    (1, Event::Says(X_STAYS), 0, &[(1, WELCOME)], &[]),
    (
        1,
        Event::Says(b"\x82\x06\x00\x01\x00\x01a\x01"),
        0,
        &[(1, b"\x90\x03\x00\x01\x01")],
        &[],
    ),
    (
        1,
        Event::Says(b"\x30\x04\x00\x01ax"),
        0,
        &[(1, b"\x30\x04\x00\x01ax")],
        &[],
    ),
    (
        1,
        Event::Says(b"\x32\x06\x00\x01a\x00\x07x"),
        0,
        &[(1, b"\x40\x02\x00\x07"), (1, b"\x32\x06\x00\x01a\x00\x01x")],
        &[],
    ),
    (1, Event::Says(b"\x40\x02\x00\x01"), 0, &[], &[]),
    (
        1,
        Event::Says(b"\x32\x06\x00\x01a\x00\x07y"),
        0,
        &[(1, b"\x40\x02\x00\x07"), (1, b"\x32\x06\x00\x01a\x00\x02y")],
        &[],
    ),
    (1, Event::Says(b"\x40\x02\x00\x02"), 0, &[], &[]),
    (1, Event::Says(DISCONNECT), 0, &[], &[]),
    (2, Event::Opens, 0, &[], &[]),
    (2, Event::Says(X_STAYS), 0, &[(2, WELCOME_BACK)], &[]),
    (
        2,
        Event::Says(b"\x33\x06\x00\x01a\x00\x07z"),
        0,
        &[(2, b"\x40\x02\x00\x07"), (2, b"\x32\x06\x00\x01a\x00\x03z")],
        &[],
    ),
    (2, Event::Says(b"\x40\x02\x00\x03"), 0, &[], &[]),
    (
        2,
        Event::Says(b"\x82\x06\x00\x02\x00\x01a\x01"),
        0,
        &[
            (2, b"\x90\x03\x00\x02\x01"),
            (2, b"\x33\x06\x00\x01a\x00\x04z"),
        ],
        &[],
    ),
    (2, Event::Ends, 0, &[], &[]),
    (3, Event::Opens, 0, &[], &[]),
    (
        3,
        Event::Says(X_STAYS),
        0,
        &[(3, WELCOME_BACK), (3, b"\x3b\x06\x00\x01a\x00\x04z")],
        &[],
    ),
];

/// Every packet restarts the keep alive of a minute, of which one and a half times may be silent.
static RESTARTS: [Row; 16] = [
    (1, Event::Opens, 0, &[], &[]),
    (1, Event::Says(HELLO), 0, &[(1, WELCOME)], &[]),
    (1, Event::Says(b"\x40\x02\x00\x09"), 80_000, &[], &[]),
    (0, Event::Ticks, 170_000, &[], &[]),
    (1, Event::Says(b"\x30\x03\x00\x01a"), 170_000, &[], &[]),
    (0, Event::Ticks, 260_000, &[], &[]),
    (
        1,
        Event::Says(b"\x82\x06\x00\x01\x00\x01b\x00"),
        260_000,
        &[(1, b"\x90\x03\x00\x01\x00")],
        &[],
    ),
    (0, Event::Ticks, 350_000, &[], &[]),
    (
        1,
        Event::Says(b"\xa2\x05\x00\x03\x00\x01b"),
        350_000,
        &[(1, b"\xb0\x02\x00\x03")],
        &[],
    ),
    (0, Event::Ticks, 440_000, &[], &[]),
    (
        1,
        Event::Says(b"\xc0\x00"),
        440_000,
        &[(1, b"\xd0\x00")],
        &[],
    ),
    (0, Event::Ticks, 530_000, &[], &[]),
    (
        1,
        Event::Says(b"\x32\x06\x00\x01a\x00\x07x"),
        530_000,
        &[(1, b"\x40\x02\x00\x07")],
        &[],
    ),
    (0, Event::Ticks, 620_000, &[], &[]),
    (0, Event::Ticks, 620_001, &[], &[1]),
    (0, Event::Ticks, 620_002, &[], &[]),
];

/// A send that may not be lost was refused: closed at once, and the will routed.
static REFUSED: [Row; 6] = [
    (1, Event::Opens, 0, &[], &[]),
    (1, Event::Says(HELLO), 0, &[(1, WELCOME)], &[]),
    (
        1,
        Event::Says(b"\x82\x06\x00\x01\x00\x01w\x00"),
        0,
        &[(1, b"\x90\x03\x00\x01\x00")],
        &[],
    ),
    (2, Event::Opens, 0, &[], &[]),
    (
        2,
        Event::Says(b"\x10\x13\x00\x04MQTT\x04\x06\x00\x3c\x00\x01x\x00\x01w\x00\x016"),
        0,
        &[(2, WELCOME)],
        &[],
    ),
    (2, Event::Refuses, 0, &[(1, b"\x30\x04\x00\x01w6")], &[2]),
];

/// How many rows of a table are right with a new broker.
fn rows_right(alloc: Global, rows: &[Row]) -> Result<usize, BrokerFault> {
    plays(alloc, &mut Broker::new(alloc, 128), rows)
}

#[test]
fn rows_are_right(rt: HostRuntime) -> Result<(), Fail> {
    let tables: [&[Row]; 7] = [
        &FIRST, &TAKE_OVER, &RETAINED, &KEPT, &GO_ON, &RESTARTS, &REFUSED,
    ];
    for rows in tables {
        assert_eq!(rt; rows_right(rt.alloc(), rows)?, rows.len());
    }
    Ok(())
}

/// How many drops close a connection, where there are at most 300.
fn drops_that_close(alloc: Global, broker: &mut impl Talks) -> Result<usize, BrokerFault> {
    all_told(alloc, broker, &COMES)?;
    for drops in 1..300 {
        let out = answer(alloc, broker, 1, &Event::Drops, 0)?;
        if out.closes.as_slice() == [1].as_slice() {
            return Ok(drops);
        }
    }
    Ok(0)
}

/// Limits, and the drops that close.
static DROPS: [(u16, usize); 4] = [(64, 64), (128, 128), (254, 254), (0, 1)];

#[test]
fn the_limit_of_drops_is_the_one_that_closes(rt: HostRuntime) -> Result<(), Fail> {
    for (limit, wanted) in &DROPS {
        let drops = drops_that_close(rt.alloc(), &mut Broker::new(rt.alloc(), *limit))?;
        assert_eq!(rt; drops, *wanted, "at {limit}");
    }
    Ok(())
}

/// Whether one that was silent for too long is closed, and isn't there any more.
fn silent_one_is_gone(alloc: Global, broker: &mut impl Talks) -> Result<bool, BrokerFault> {
    all_told(alloc, broker, &COMES)?;
    let out = answer(alloc, broker, 0, &Event::Ticks, 90_001)?;
    let is_closed = is_right(&out, &[], &[1]);
    Ok(is_closed && broker.ended(1, 90_001) == Err(BrokerFault::NoSuchConn))
}

#[test]
fn who_was_silent_for_too_long_is_gone(rt: HostRuntime) -> Result<(), Fail> {
    assert!(rt; silent_one_is_gone(rt.alloc(), &mut Broker::new(rt.alloc(), 128))?);
    Ok(())
}

/// A client comes, and subscribes.
static ASKS: [(Conn, Event); 3] = [
    (1, Event::Opens),
    (1, Event::Says(HELLO)),
    (1, Event::Says(b"\x82\x08\x00\x05\x00\x03a/+\x00")),
];

/// How many of 40 publishes go to their own connection alone: the broker makes its index of grants on the way.
fn heard_alone(alloc: Global, broker: &mut impl Talks) -> Result<usize, BrokerFault> {
    all_told(alloc, broker, &ASKS)?;
    for said in 0..40 {
        let value = Event::Says(b"\x30\x06\x00\x03a/b7");
        let out = answer(alloc, broker, 1, &value, 0)?;
        if !is_right(&out, &[(1, b"\x30\x06\x00\x03a/b7")], &[]) {
            return Ok(said);
        }
    }
    Ok(40)
}

#[test]
fn a_publish_goes_to_who_subscribed_with_an_index_too(rt: HostRuntime) -> Result<(), Fail> {
    assert_eq!(rt;
        heard_alone(rt.alloc(), &mut Broker::new(rt.alloc(), 128))?,
        40
    );
    Ok(())
}

/// A thousand connections open, one more doesn't, and it isn't there.
fn opens_a_thousand(alloc: Global, broker: &mut impl Talks) -> Result<bool, BrokerFault> {
    for _ in 1..1001 {
        let _ = answer(alloc, broker, 0, &Event::Opens, 0)?;
    }
    let is_full = broker.opened(0) == Err(BrokerFault::Limit);
    Ok(is_full && broker.ended(1001, 0) == Err(BrokerFault::NoSuchConn))
}

#[test]
fn a_thousand_connections_are_open_at_most(rt: HostRuntime) -> Result<(), Fail> {
    assert!(rt; opens_a_thousand(rt.alloc(), &mut Broker::new(rt.alloc(), 128))?);
    assert_eq!(rt; BrokerFault::Limit.number(), 31);
    assert_eq!(rt; BrokerFault::NoSuchConn.number(), 30);
    Ok(())
}
