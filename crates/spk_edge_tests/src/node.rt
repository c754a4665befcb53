//! A node by its calls, byte by byte.
use crate::which::Test;
use spk_device::{Alias, DeviceFault, Owner, Refusal, Registry};
use spk_edge::{
    Act, ChangesFault, EdgeConfig, EdgeFault, EdgeNode, Input, Numbering, Out, Phase, Published,
    Record,
};
use spk_packets::Packet;
use spk_payload::Value;
use std::process::Abort;

/// A text. Where memory was refused it is made again.
pub(crate) fn text(rt: &(impl Abort + AllocGlobal), words: &str) -> String {
    match String::from_str(rt.alloc(), words) {
        Ok(text) => text,
        Err(_) => String::from_str(rt.alloc(), words).expect(rt, "memory is there again"),
    }
}

/// What registries are made of. Where memory was refused a call is made again.
trait Registers {
    fn metric(&mut self, owner: Owner, value: i64) -> Result<Alias, DeviceFault>;

    fn device(&mut self, name: &str) -> Result<(), DeviceFault>;
}

impl Registers for Registry {
    fn metric(&mut self, owner: Owner, value: i64) -> Result<Alias, DeviceFault> {
        self.add_metric(owner, "t", 3, Some(Value::Signed(value)))
    }

    fn device(&mut self, name: &str) -> Result<(), DeviceFault> {
        self.add_device(name)
    }
}

/// Adds an Int32 named `t`.
fn add(rt: &impl Abort, registry: &mut impl Registers, owner: Owner, value: i64, alias: Alias) {
    let answer = match registry.metric(owner, value) {
        Err(DeviceFault::NoMemory) => registry.metric(owner, value),
        answer => answer,
    };
    assert_eq!(rt; answer, Ok(alias));
}

/// Adds the node's `t` 7 (alias 1), and a device, which is down, with its `t` 9 (alias 2).
fn fill(rt: &impl Abort, registry: &mut impl Registers, device: &str) {
    add(rt, registry, Owner::Node, 7, 1);
    let answer = match registry.device(device) {
        Err(DeviceFault::NoMemory) => registry.device(device),
        answer => answer,
    };
    assert_eq!(rt; answer, Ok(()));
    add(rt, registry, Owner::Device(0), 9, 2);
}

/// The node `t` 7 (alias 1), and a device, which is down, `t` 9 (alias 2).
fn registry(rt: &(impl Abort + AllocGlobal), device: &str) -> Registry {
    let mut registry = Registry::new(rt.alloc());
    fill(rt, &mut registry, device);
    registry
}

/// What differs from one node of the tests to the next.
#[derive(Clone, Copy)]
pub(crate) struct Kind<'a> {
    pub(crate) group: &'a str,
    pub(crate) primary: Option<&'a str>,
    pub(crate) device: &'a str,
    pub(crate) capacity: usize,
    pub(crate) numbering: Numbering,
    pub(crate) stamp: Option<u64>,
}

/// The node N of the group G, without a primary host, with the device D, that keeps three changes.
pub(crate) const PLAIN: Kind<'static> = Kind {
    group: "G",
    primary: None,
    device: "D",
    capacity: 3,
    numbering: Numbering::RunsOn,
    stamp: None,
};

/// A node's configuration.
pub(crate) fn config(rt: &(impl Abort + AllocGlobal), kind: Kind<'_>) -> EdgeConfig {
    let primary = match kind.primary {
        Some(host) => Some(text(rt, host)),
        None => None,
    };
    EdgeConfig {
        group: text(rt, kind.group),
        node: text(rt, "N"),
        primary,
        keep: 60,
        capacity: kind.capacity,
        numbering: kind.numbering,
    }
}

fn first_of(stamp: Option<u64>) -> Record {
    Record {
        seq: 0,
        bd: 0,
        stamp,
    }
}

pub(crate) const FIRST: Record = Record {
    seq: 0,
    bd: 0,
    stamp: None,
};

fn made(rt: &(impl Abort + AllocGlobal), kind: Kind<'_>) -> Result<EdgeNode, EdgeFault> {
    EdgeNode::new(
        rt.alloc(),
        config(rt, kind),
        first_of(kind.stamp),
        registry(rt, kind.device),
    )
}

/// A node. Where memory was refused it is made again.
fn node(rt: &(impl Abort + AllocGlobal), kind: Kind<'_>) -> EdgeNode {
    match made(rt, kind) {
        Ok(node) => node,
        Err(fault) => {
            assert_eq!(rt; fault, EdgeFault::NoMemory);
            made(rt, kind).expect(rt, "memory is there again")
        }
    }
}

/// Makes a node, and has a test play on it. What holds a node itself stands here alone.
pub(crate) fn play_on(rt: &(impl Abort + AllocGlobal), kind: Kind<'_>, test: Test<'_>) {
    test.play(rt, &mut node(rt, kind));
}

const DIGITS: &[u8; 16] = b"0123456789abcdef";

/// Whether the digits spell the bytes.
fn is_spelled(bytes: &[u8], digits: &str) -> bool {
    let pairs = digits.as_bytes().chunks(2);
    let mut count = 0usize;
    for (pair, byte) in pairs.zip(bytes) {
        let high = DIGITS[(*byte / 16) as usize];
        let low = DIGITS[(*byte % 16) as usize];
        if pair.first() != Some(&high) || pair.get(1) != Some(&low) {
            return false;
        }
        count = count.saturating_add(1);
    }
    count == bytes.len() && digits.len() / 2 == count
}

#[derive(Clone, Copy, Debug)]
pub(crate) enum Call {
    Open,
    Accepted,
    Change(Alias, i64),
    Device(bool),
    Rebirth,
    State(&'static [u8]),
    Drain,
    Stop,
}

/// A rebirth command, as a host sends it.
pub(crate) const REBIRTH: &[u8] =
    b"\x08\x09\x12\x1c\x0a\x14Node Control/Rebirth\x18\x09\x20\x0b\x70\x01";

/// The number of a message, and how many metrics it has.
pub(crate) type Front = (Option<u64>, usize);

fn front(messages: &[Published]) -> Option<Front> {
    match messages.first() {
        Some(message) => Some((message.payload.seq, message.payload.metrics.len())),
        None => None,
    }
}

/// An act that nothing acknowledges.
fn input(now: u64, act: Act<'_>) -> Input<'_> {
    Input {
        now,
        ack: None,
        act,
    }
}

/// What the tests ask of a node. They are written over any that answers it, since a function over a type parameter is proved
/// without the parts of a node.
pub(crate) trait Plays {
    fn tell(&mut self, now: u64, call: Call) -> Result<Out, EdgeFault>;

    fn tell_device(&mut self, now: u64, name: &str, up: bool) -> Result<Out, EdgeFault>;

    fn tell_command(&mut self, now: u64, topic: &str, payload: &[u8]) -> Result<Out, EdgeFault>;

    fn tell_packet(&mut self, now: u64, packet: &Packet) -> Result<Out, EdgeFault>;

    /// The number of the first message of a plan that is let go, and how many metrics it has.
    fn let_go(&mut self, now: u64, act: Act<'_>) -> Result<Option<Front>, EdgeFault>;

    fn tell_value(
        &mut self,
        now: u64,
        alias: Alias,
        value: &Option<Value>,
    ) -> Result<Out, EdgeFault>;

    fn tell_changes(
        &mut self,
        now: u64,
        changes: &[(Alias, Option<Value>)],
    ) -> Result<Out, ChangesFault>;

    fn kept_count(&self) -> usize;

    fn tell_plan(&mut self, now: u64, act: Act<'_>) -> Result<Out, EdgeFault>;

    fn tell_published(&mut self, now: u64, act: Act<'_>) -> Result<Vec<Published>, EdgeFault>;

    fn lose_connection(&mut self);

    fn stands(&self) -> (Phase, u64, Record);
}

impl Plays for EdgeNode {
    fn tell(&mut self, now: u64, call: Call) -> Result<Out, EdgeFault> {
        match call {
            Call::Open => self.open(now),
            Call::Accepted => self.accepted(now),
            Call::Change(alias, value) => self.change(now, alias, &Some(Value::Signed(value))),
            Call::Device(up) => self.device(now, "D", up),
            Call::Rebirth => self.command(now, "spBv1.0/G/NCMD/N", REBIRTH),
            Call::State(payload) => self.state(now, payload),
            Call::Drain => self.drain(now),
            Call::Stop => self.stop(now),
        }
    }

    fn tell_device(&mut self, now: u64, name: &str, up: bool) -> Result<Out, EdgeFault> {
        self.device(now, name, up)
    }

    fn tell_command(&mut self, now: u64, topic: &str, payload: &[u8]) -> Result<Out, EdgeFault> {
        self.command(now, topic, payload)
    }

    fn tell_packet(&mut self, now: u64, packet: &Packet) -> Result<Out, EdgeFault> {
        self.packet(now, packet)
    }

    fn let_go(&mut self, now: u64, act: Act<'_>) -> Result<Option<Front>, EdgeFault> {
        let plan = self.plan(input(now, act))?;
        Ok(front(plan.messages()))
    }

    fn tell_value(
        &mut self,
        now: u64,
        alias: Alias,
        value: &Option<Value>,
    ) -> Result<Out, EdgeFault> {
        self.change(now, alias, value)
    }

    fn tell_changes(
        &mut self,
        now: u64,
        changes: &[(Alias, Option<Value>)],
    ) -> Result<Out, ChangesFault> {
        self.changes(now, changes)
    }

    fn kept_count(&self) -> usize {
        self.kept()
    }

    fn tell_plan(&mut self, now: u64, act: Act<'_>) -> Result<Out, EdgeFault> {
        let plan = self.plan(input(now, act))?;
        Ok(plan.take_up().out)
    }

    fn tell_published(&mut self, now: u64, act: Act<'_>) -> Result<Vec<Published>, EdgeFault> {
        let plan = self.plan(input(now, act))?;
        Ok(plan.take_up().messages)
    }

    fn lose_connection(&mut self) {
        self.cut();
    }

    fn stands(&self) -> (Phase, u64, Record) {
        (self.phase(), self.lost(), self.record())
    }
}

/// A call's answer. Where memory was refused the call is made again.
pub(crate) fn told(node: &mut impl Plays, now: u64, call: Call) -> Result<Out, EdgeFault> {
    match node.tell(now, call) {
        Err(EdgeFault::NoMemory) => node.tell(now, call),
        answer => answer,
    }
}

/// What a call is refused for, if it is. It stands apart since whoever holds an answer is dear to prove.
pub(crate) fn refusal_of(node: &mut impl Plays, now: u64, call: Call) -> Option<EdgeFault> {
    told(node, now, call).err()
}

/// In which phase a node is.
pub(crate) fn phase_of(node: &impl Plays) -> Phase {
    node.stands().0
}

/// How many changes a node lost.
pub(crate) fn lost_by(node: &impl Plays) -> u64 {
    node.stands().1
}

/// The record of a node.
pub(crate) fn record_of(node: &impl Plays) -> Record {
    node.stands().2
}

/// A moment, a call, and the packets that it gives, or its refusal.
pub(crate) type Row = (u64, Call, Wanted);

pub(crate) const CONNECT: &str =
    "103400044d515454040e003c0003472f4e001273704276312e302f472f4e44454154482f4e000f0805120b0a05626453657120045800";

pub(crate) const SUBSCRIBE: &str =
    "822a0001001073704276312e302f472f4e434d442f4e01001273704276312e302f472f44434d442f4e2f2b01";

pub(crate) const NBIRTH: &str =
    "3052001273704276312e302f472f4e42495254482f4e0806120d0a056264536571180620045800121c0a144e6f646520436f6e74726f6c2f526562697274681806200b7000120b0a017410011806200350071800";

pub(crate) const NDEATH: &str =
    "3225001273704276312e302f472f4e44454154482f4e00020805120b0a05626453657120045800";

static BORN_AGAIN: [Row; 7] = [
    (5, Call::Open, Ok(&[CONNECT])),
    (6, Call::Open, Err(EdgeFault::WrongPhase)),
    (6, Call::Accepted, Ok(&[SUBSCRIBE, NBIRTH])),
    (
        7,
        Call::Change(1, 8),
        Ok(&["301f001173704276312e302f472f4e444154412f4e080712061001180750081801"]),
    ),
    (7, Call::Change(1, 8), Ok(&[])),
    (1 << 63, Call::Change(1, 9), Err(EdgeFault::ClockEnd)),
    (
        7,
        Call::Rebirth,
        Ok(&[
            "3052001273704276312e302f472f4e42495254482f4e0808120d0a056264536571180820045800121c0a144e6f646520436f6e74726f6c2f526562697274681808200b7000120b0a017410011808200350081802",
        ]),
    ),
];

static DEVICE: [Row; 10] = [
    (5, Call::Open, Ok(&[CONNECT])),
    (6, Call::Accepted, Ok(&[SUBSCRIBE, NBIRTH])),
    (
        7,
        Call::Device(true),
        Ok(&["3027001473704276312e302f472f4442495254482f4e2f440807120b0a017410021807200350091801"]),
    ),
    (7, Call::Device(true), Ok(&[])),
    (
        8,
        Call::Change(2, 10),
        Ok(&["3021001373704276312e302f472f44444154412f4e2f440808120610021808500a1802"]),
    ),
    (
        9,
        Call::Device(false),
        Ok(&["301a001473704276312e302f472f4444454154482f4e2f4408091803"]),
    ),
    (10, Call::Change(2, 11), Ok(&[])),
    (
        10,
        Call::Change(3, 11),
        Err(EdgeFault::Device(Refusal::NoSuch)),
    ),
    (11, Call::Stop, Ok(&[NDEATH, "e000"])),
    (12, Call::Stop, Err(EdgeFault::WrongPhase)),
];

/// Whether the digits spell these packets.
pub(crate) fn are_spelled(packets: &[Vec<u8>], wanted: &[&str]) -> bool {
    for (bytes, digits) in packets.iter().zip(wanted) {
        if !is_spelled(bytes, digits) {
            return false;
        }
    }
    packets.len() == wanted.len()
}

/// Whether the last of these packets is a DISCONNECT.
fn is_end(wanted: &[&str]) -> bool {
    match wanted.last() {
        Some(digits) => *digits == "e000",
        None => false,
    }
}

fn is_out(out: &Out, wanted: &[&str]) -> bool {
    are_spelled(&out.packets, wanted) && out.close == is_end(wanted) && out.writes.is_empty()
}

/// What a call gives: the digits of its packets, or its refusal.
pub(crate) type Wanted = Result<&'static [&'static str], EdgeFault>;

/// Whether an answer is this one: its packets, of which a DISCONNECT closes, and no writes; or its refusal.
pub(crate) fn is_answer(answer: &Result<Out, EdgeFault>, wanted: &Wanted) -> bool {
    match (answer, wanted) {
        (Ok(out), Ok(packets)) => is_out(out, packets),
        (Err(fault), Err(named)) => *fault == *named,
        _ => false,
    }
}

/// Whether a call is answered so.
pub(crate) fn is_told(node: &mut impl Plays, now: u64, call: Call, wanted: &Wanted) -> bool {
    is_answer(&told(node, now, call), wanted)
}

/// Whether a call is taken, and gives no packets.
pub(crate) fn is_quiet(node: &mut impl Plays, now: u64, call: Call) -> bool {
    match told(node, now, call) {
        Ok(out) => out.packets.is_empty(),
        Err(_) => false,
    }
}

/// Plays rows on a node.
pub(crate) fn play(rt: &impl Abort, node: &mut impl Plays, rows: &[Row]) {
    for (now, call, wanted) in rows {
        assert!(rt; is_told(node, *now, *call, wanted), "at {now}");
    }
}

/// What a node that was born twice, and lost its connection, goes on with.
const THREE: Record = Record {
    seq: 3,
    bd: 1,
    stamp: Some(8),
};

pub(crate) fn is_born_twice(rt: &impl Abort, node: &mut impl Plays) {
    assert!(rt; phase_of(node) == Phase::Idle);
    play(rt, node, &BORN_AGAIN);
    assert!(rt; phase_of(node) == Phase::Born);
    node.lose_connection();
    assert!(rt; node.stands() == (Phase::Idle, 0, THREE));
    assert!(rt; refusal_of(node, 9, Call::Stop) == Some(EdgeFault::WrongPhase));
}

#[test]
fn a_node_is_born_twice(rt: HostRuntime) {
    play_on(&rt, PLAIN, Test::BornTwice);
}

pub(crate) fn has_a_device_that_comes_and_goes(rt: &impl Abort, node: &mut impl Plays) {
    play(rt, node, &DEVICE);
    assert!(rt; phase_of(node) == Phase::Idle);
}

#[test]
fn a_device_comes_and_goes(rt: HostRuntime) {
    play_on(&rt, PLAIN, Test::DeviceComesAndGoes);
}

pub(crate) fn overwrites_kept_changes(rt: &impl Abort, node: &mut impl Plays) {
    for value in 10..15 {
        assert!(rt; is_quiet(node, 3, Call::Change(1, value)));
    }
    assert!(rt; lost_by(node) == 2 && record_of(node).seq == 0);
}

#[test]
fn kept_changes_are_overwritten(rt: HostRuntime) {
    let kind = Kind {
        numbering: Numbering::Restarts,
        ..PLAIN
    };
    play_on(&rt, kind, Test::Overwrites);
}

/// Why there is no such node, if there is none.
fn no_node(rt: &(impl Abort + AllocGlobal), kind: Kind<'_>) -> Option<EdgeFault> {
    made(rt, kind).err()
}

/// Groups and counts of changes that no node may have.
static BAD: [(&str, usize); 7] = [
    ("", 3),
    ("a/b", 3),
    ("a+", 3),
    ("#", 3),
    ("\0", 3),
    ("G", 0),
    ("G", 4_097),
];

#[test]
fn a_bad_configuration_is_refused(rt: HostRuntime) {
    for (group, capacity) in &BAD {
        let kind = Kind {
            group,
            capacity: *capacity,
            ..PLAIN
        };
        let refusal = no_node(&rt, kind);
        assert!(rt;
            refusal == Some(EdgeFault::BadConfig),
            "of {group:?} and {capacity}"
        );
    }
    assert_eq!(rt; EdgeFault::BadConfig.number(), 63);
}
