//! Random runs of five clients beside a slow telling of the rules: connects with and without clean session, wills, take-overs,
//! overlapping filters, retained messages, acknowledgements, silence, drops. All sends and closes of each call are compared.
use crate::broker::{Talks, has_bytes};
use crate::twin::{BAD_FILTER, Event, FILTERS, Hello, Post, Stand, TOPICS, Twin, packet, publish};
use spk_broker::{Broker, BrokerFault, Out};
use spk_packets::{PacketFault, decode};
use spk_session::Sort;
use std::alloc::{AllocError, Global};
use std::test::Fail;

/// Drop number 3 of a connection closes it.
const LIMIT: u16 = 3;

/// A number that the run's next choice is made by.
#[derive(Drop)]
struct Dice {
    seed: u64,
}

impl Dice {
    /// One of so many sides, from 0.
    fn roll(&mut self, sides: u8) -> u8 {
        self.seed = self
            .seed
            .wrapping_mul(6_364_136_223_846_793_005)
            .wrapping_add(1_442_695_040_888_963_407);
        let pick = (self.seed >> 56) as u8;
        pick.checked_rem(sides).unwrap_or(0)
    }

    fn post(&mut self) -> Post {
        let topic = if self.roll(40) == 0 { 3 } else { self.roll(3) };
        Post {
            topic,
            payload: self.roll(3).saturating_mul(50),
            qos: self.roll(2),
            retain: self.roll(3) == 0,
        }
    }

    fn hello(&mut self) -> Hello {
        let will = if self.roll(2) == 0 {
            Some(self.post())
        } else {
            None
        };
        Hello {
            client: self.roll(6),
            clean: self.roll(3) == 0,
            keep: self.roll(3).saturating_mul(2),
            will,
        }
    }

    fn filter(&mut self) -> u8 {
        if self.roll(60) == 0 {
            BAD_FILTER
        } else {
            self.roll(BAD_FILTER)
        }
    }

    /// An event of a connection that stands there.
    fn event(&mut self, stand: Stand) -> Event {
        let kind = self.roll(200);
        if kind < 16 {
            return Event::Opens;
        }
        if stand == Stand::Waits && kind < 180 {
            return Event::Connect(self.hello());
        }
        match kind {
            0..=89 => Event::Publish(self.post(), 7),
            90..=119 => Event::Ack(u16::from(self.roll(12))),
            120..=149 => {
                let first = (self.filter(), self.roll(3));
                Event::Subscribe([first, (self.filter(), self.roll(3))])
            }
            150..=164 => Event::Unsubscribe(self.filter()),
            165..=169 => Event::Ping,
            170..=173 => Event::Disconnect,
            174..=179 => Event::Ends,
            180..=187 => Event::Refused(self.roll(6) > 0),
            188..=193 => Event::Ticks,
            194 => Event::Pong,
            195 => Event::Connect(self.hello()),
            _ => Event::Faults(self.roll(2) == 0),
        }
    }
}

/// The client id as it stands in a packet.
fn client(hello: Hello) -> [u8; 3] {
    [0, 1, hello.client]
}

/// A CONNECT (section 3.1).
fn connect(alloc: Global, hello: Hello) -> Result<Vec<u8>, AllocError> {
    let mut flags = if hello.clean { 2 } else { 0 };
    let mut will = Vec::new(alloc);
    if let Some(post) = hello.will {
        flags = flags
            | 4
            | (if post.qos == 0 { 0 } else { 8 })
            | (if post.retain { 32 } else { 0 });
        will.extend_from_slice(TOPICS.get(usize::from(post.topic)).copied().unwrap_or(b""))?;
        let message = [0, 1, post.payload];
        will.extend_from_slice(if post.payload == 0 {
            b"\x00\x00"
        } else {
            &message
        })?;
    }
    let name = client(hello);
    let id: &[u8] = if hello.client == 0 {
        b"\x00\x00"
    } else {
        &name
    };
    packet(
        alloc,
        0x10,
        &[
            b"\x00\x04MQTT\x04",
            &[flags, 0, hello.keep],
            id,
            will.as_slice(),
        ],
    )
}

fn filter(place: u8) -> &'static [u8] {
    FILTERS.get(usize::from(place)).copied().unwrap_or(b"")
}

/// A SUBSCRIBE (section 3.8).
fn subscribe(alloc: Global, asked: [(u8, u8); 2]) -> Result<Vec<u8>, AllocError> {
    let mut body = Vec::new(alloc);
    body.extend_from_slice(b"\x00\x09")?;
    for (place, qos) in asked {
        body.extend_from_slice(filter(place))?;
        body.push(qos)?;
    }
    packet(alloc, 0x82, &[body.as_slice()])
}

/// An UNSUBSCRIBE (section 3.10).
fn unsubscribe(alloc: Global, place: u8) -> Result<Vec<u8>, AllocError> {
    let mut body = Vec::new(alloc);
    body.extend_from_slice(b"\x00\x09")?;
    body.extend_from_slice(filter(place))?;
    packet(alloc, 0xa2, &[body.as_slice()])
}

/// The bytes of a packet.
fn bytes_of(alloc: Global, event: Event) -> Result<Vec<u8>, AllocError> {
    match event {
        Event::Connect(hello) => connect(alloc, hello),
        Event::Publish(post, id) => publish(alloc, post, id, false),
        Event::Ack(id) => packet(alloc, 0x40, &[&id.to_be_bytes()]),
        Event::Subscribe(asked) => subscribe(alloc, asked),
        Event::Unsubscribe(place) => unsubscribe(alloc, place),
        Event::Ping => packet(alloc, 0xc0, &[]),
        Event::Pong => packet(alloc, 0xd0, &[]),
        _ => packet(alloc, 0xe0, &[]),
    }
}

/// A packet, as its bytes are read.
fn say(
    alloc: Global,
    broker: &mut impl Talks,
    conn: u64,
    bytes: &[u8],
    now: u64,
) -> Result<Out, BrokerFault> {
    match decode(alloc, bytes) {
        Ok((packet, _)) => broker.heard(conn, &packet, now),
        Err(PacketFault::NoMemory) => Err(BrokerFault::NoMemory),
        Err(fault) => broker.faulted(conn, fault, now),
    }
}

fn call(
    alloc: Global,
    broker: &mut impl Talks,
    conn: u64,
    event: Event,
    now: u64,
) -> Result<Out, BrokerFault> {
    match event {
        Event::Opens => {
            broker.opened(now)?;
            Ok(Out {
                sends: Vec::new(alloc),
                closes: Vec::new(alloc),
            })
        }
        Event::Faults(true) => broker.faulted(conn, PacketFault::BadLevel, now),
        Event::Faults(_is_level) => broker.faulted(conn, PacketFault::BadFlags, now),
        Event::Ends => broker.ended(conn, now),
        Event::Ticks => broker.ticked(now),
        Event::Refused(true) => broker.dropped(conn, Sort::QosZero, now),
        Event::Refused(_is_plain) => broker.dropped(conn, Sort::Other, now),
        _ => {
            let bytes = bytes_of(alloc, event)?;
            say(alloc, broker, conn, bytes.as_slice(), now)
        }
    }
}

/// The call, made again where memory was refused.
fn answer(
    alloc: Global,
    broker: &mut impl Talks,
    conn: u64,
    event: Event,
    now: u64,
) -> Result<Out, BrokerFault> {
    match call(alloc, broker, conn, event, now) {
        Err(BrokerFault::NoMemory) => call(alloc, broker, conn, event, now),
        answer => answer,
    }
}

/// Whether a PUBLISH of QoS 0 is sent.
fn sort_of(bytes: &[u8]) -> Sort {
    match bytes.first() {
        Some(0x30 | 0x31) => Sort::QosZero,
        _ => Sort::Other,
    }
}

/// Whether a call sends and closes what the twin says.
fn is_same(out: &Out, twin: &Twin) -> bool {
    if out.sends.len() != twin.sends.len() {
        return false;
    }
    for (sent, (conn, bytes)) in out.sends.iter().zip(twin.sends.iter()) {
        let is_right = has_bytes(sent, bytes) && sent.sort == sort_of(bytes);
        if sent.conn != *conn || !is_right {
            return false;
        }
    }
    out.closes == twin.closes
}

/// A run: where it is, and how many sends were compared.
#[derive(Drop)]
struct Run {
    dice: Dice,
    twin: Twin,
    given: u64,
    now: u64,
    sent: usize,
}

impl Run {
    fn new(alloc: Global, seed: u64) -> Run {
        Run {
            dice: Dice { seed },
            twin: Twin::new(alloc),
            given: 0,
            now: 0,
            sent: 0,
        }
    }

    /// One of the newest connections, mostly an open one.
    fn someone(&mut self) -> u64 {
        for _ in 0..6 {
            let conn = self.given.saturating_sub(u64::from(self.dice.roll(12)));
            if self.twin.stand(conn) != Stand::Gone {
                return conn;
            }
        }
        self.given
    }

    /// One event. False where the answers differ.
    fn turn(&mut self, alloc: Global, broker: &mut impl Talks) -> Result<bool, AllocError> {
        let someone = self.someone();
        let event = self.dice.event(self.twin.stand(someone));
        self.now = self.now.saturating_add(u64::from(self.dice.roll(200)));
        let now = self.now.saturating_sub(u64::from(self.dice.roll(100)));
        let mut conn = someone;
        if let Event::Opens = event {
            self.given = self.given.saturating_add(1);
            conn = self.given;
        }
        let is_open = self.twin.tells(conn, event, now, usize::from(LIMIT))?;
        self.sent = self.sent.saturating_add(self.twin.sends.len());
        Ok(match answer(alloc, broker, conn, event, now) {
            Ok(out) => is_open && is_same(&out, &self.twin),
            Err(BrokerFault::NoSuchConn) => !is_open,
            Err(_fault) => false,
        })
    }
}

/// So many events: how many sends were compared, and how many events were told alike.
fn played(
    alloc: Global,
    broker: &mut impl Talks,
    seed: u64,
    events: usize,
) -> Result<(usize, usize), AllocError> {
    let mut run = Run::new(alloc, seed);
    for place in 0..events {
        if !run.turn(alloc, broker)? {
            return Ok((run.sent, place));
        }
    }
    Ok((run.sent, events))
}

#[test]
fn random_runs_are_as_the_rules_tell_them(rt: HostRuntime) -> Result<(), Fail> {
    let mut sends = 0usize;
    for seed in 0..100 {
        let mut broker = Broker::new(rt.alloc(), LIMIT);
        let (sent, alike) = played(rt.alloc(), &mut broker, seed, 200)?;
        assert_eq!(rt; alike, 200, "run {seed}");
        sends = sends.saturating_add(sent);
    }
    assert!(rt; sends > 15_000, "{sends} sends");
    Ok(())
}
