//! Each refusal of a packet, at each kind of message that can meet it. Topics, payloads and their numbers are by hand from MQTT 3.1.1
//! (chapter 3) and Sparkplug 3.0.0 (chapters 4 and 6), each message at QoS 0 and at QoS 1, retained. None is acknowledged, and each
//! leaves the host as it was.
use crate::asks::{
    Asks, Case, begin, connect_refusal, play, refusal_of, refusals_at, stopped, told,
};
use crate::bytes::publish;
use spk_host::HostFault;
use spk_sequence::{Phase, Step};
use std::alloc::{AllocError, Global};
use std::process::Abort;

/// Messages that carry a sequence number.
const NUMBERED: [&str; 5] = [
    "spBv1.0/G/NBIRTH/N",
    "spBv1.0/G/NDATA/N",
    "spBv1.0/G/DBIRTH/N/D",
    "spBv1.0/G/DDATA/N/D",
    "spBv1.0/G/DDEATH/N/D",
];

/// Messages that carry a `bdSeq`.
const OF_A_SESSION: [&str; 2] = ["spBv1.0/G/NBIRTH/N", "spBv1.0/G/NDEATH/N"];

/// Messages that carry a timestamp.
const STAMPED: [&str; 1] = ["spBv1.0/G/NBIRTH/N"];

/// Messages whose payload is read.
const READ: [&str; 6] = [
    "spBv1.0/G/NBIRTH/N",
    "spBv1.0/G/NDEATH/N",
    "spBv1.0/G/NDATA/N",
    "spBv1.0/G/DBIRTH/N/D",
    "spBv1.0/G/DDATA/N/D",
    "spBv1.0/G/DDEATH/N/D",
];

/// Messages whose payload isn't read.
const UNREAD: [&str; 3] = ["spBv1.0/G/NCMD/N", "spBv1.0/G/DCMD/N/D", "spBv1.0/STATE/H"];

/// Topics that are none of Sparkplug's.
const TOPICS: [&str; 28] = [
    "",
    "a/b",
    "STATE/H",
    "spBv1.0",
    "spBv1.0/G",
    "spBv1.0/STATE",
    "spBv1.0/STATE/",
    "spBv1.0/STATE/H/I",
    "spBv1.0/G/NDATA",
    "spBv1.0//NDATA/N",
    "spBv1.0/G//N",
    "spBv1.0/G/NDATA/",
    "spBv1.0/G/DDATA//D",
    "spBv1.0/G/DDATA/N/",
    "spBv1.0/G/NBIRTH/N/D",
    "spBv1.0/G/NDEATH/N/D",
    "spBv1.0/G/NDATA/N/D",
    "spBv1.0/G/NCMD/N/D",
    "spBv1.0/G/DBIRTH/N",
    "spBv1.0/G/DDEATH/N",
    "spBv1.0/G/DDATA/N",
    "spBv1.0/G/DCMD/N",
    "spBv1.0/G/DDATA/N/D/E",
    "spBv1.0/G/ndata/N",
    "spBv1.0/G/STATE/N",
    "spAv1.0/G/NDATA/N",
    "spBv1.0/G/NDATA/+",
    "spBv1.0/#/NDATA/N",
];

/// Bytes that aren't one packet: none, a part of one, one and more, reserved types and flags, QoS 2 and 3, the identifier 0, a topic that is
/// no text, a remaining length of five bytes.
const NO_PACKETS: [&[u8]; 14] = [
    b"",
    b"0",
    b"0\x17\x00\x11spBv1.0/G/NDATA/N\x08\x07\x18",
    b"0\x17\x00\x11spBv1.0/G/NDATA/N\x08\x07\x18\x01\x00",
    b"\xd0\x00\xd0\x00",
    b"\x00\x00",
    b"\xf0\x00",
    b"\xd1\x00",
    b"4\x19\x00\x11spBv1.0/G/NDATA/N\x00\x07\x08\x07\x18\x01",
    b"6\x19\x00\x11spBv1.0/G/NDATA/N\x00\x07\x08\x07\x18\x01",
    b"2\x19\x00\x11spBv1.0/G/NDATA/N\x00\x00\x08\x07\x18\x01",
    b"0\x17\x00\x11spBv1.0/G/NDATA/\x00\x08\x07\x18\x01",
    b"0\x17\x00\x11spBv1.0/G/NDATA/\xff\x08\x07\x18\x01",
    b"0\xff\xff\xff\xff\x01",
];

/// A payload's timestamp and a `bdSeq` of 0.
const BORN: &[u8] = b"\x08\x64\x12\x0b\x0a\x05bdSeq \x08X\x00";

/// These and a sequence number.
const WHOLE: &[u8] = b"\x08\x64\x12\x0b\x0a\x05bdSeq \x08X\x00\x18\x01";

/// What no payload has behind what is whole: a field without a value, a long tag, a group, its end, wire type 6, field 0, a metric that
/// ends early, a name that isn't UTF-8, a number of eleven bytes.
const NO_FIELDS: [&[u8]; 9] = [
    b"\x08",
    b"\xff\xff\xff\xff\xff\xff\xff\xff\xff\xff\x01",
    b"\x0b\x0c",
    b"\x0c",
    b"\x0e",
    b"\x00\x00",
    b"\x12\x05\x0a",
    b"\x12\x03\x0a\x01\xff",
    b"\x18\xff\xff\xff\xff\xff\xff\xff\xff\xff\xff\x01",
];

/// No sequence number of at most 255: none, 256, 300, 2^32, 2^64 - 1, a first one and then 256, bytes and four bytes in its place.
const NO_NUMBERS: [&[u8]; 8] = [
    b"",
    b"\x18\x80\x02",
    b"\x18\xac\x02",
    b"\x18\x80\x80\x80\x80\x10",
    b"\x18\xff\xff\xff\xff\xff\xff\xff\xff\xff\x01",
    b"\x18\x05\x18\x80\x02",
    b"\x1a\x01\x05",
    b"\x1d\x05\x00\x00\x00",
];

/// A sequence number, a `bdSeq` of 4, and no timestamp: none, eight bytes in its place, the metric's own.
const NO_STAMPS: [&[u8]; 3] = [
    b"\x18\x01\x12\x09\x0a\x05bdSeqX\x04",
    b"\x09\x64\x00\x00\x00\x00\x00\x00\x00\x18\x01\x12\x09\x0a\x05bdSeqX\x04",
    b"\x18\x01\x12\x0b\x0a\x05bdSeq\x18\x64X\x04",
];

/// A timestamp and a sequence number.
const NUMBER: &[u8] = b"\x08\x64\x18\x01";

/// No `bdSeq` of at most 255: no metric, no value, null, a long of 256, an int of 300, a long of 2^32, an int of -1, a Boolean, a text, a
/// float, another name, no name, a first one and then one without a value, a number and then a Boolean.
const NO_SESSIONS: [&[u8]; 14] = [
    b"",
    b"\x12\x07\x0a\x05bdSeq",
    b"\x12\x0b\x0a\x05bdSeq8\x01X\x04",
    b"\x12\x0a\x0a\x05bdSeqX\x80\x02",
    b"\x12\x0a\x0a\x05bdSeqP\xac\x02",
    b"\x12\x0d\x0a\x05bdSeqX\x80\x80\x80\x80\x10",
    b"\x12\x12\x0a\x05bdSeqP\xff\xff\xff\xff\xff\xff\xff\xff\xff\x01",
    b"\x12\x09\x0a\x05bdSeqp\x01",
    b"\x12\x0a\x0a\x05bdSeqz\x014",
    b"\x12\x0c\x0a\x05bdSeqe\x00\x00\x80\x3f",
    b"\x12\x09\x0a\x05bdseqX\x04",
    b"\x12\x02X\x04",
    b"\x12\x09\x0a\x05bdSeqX\x04\x12\x07\x0a\x05bdSeq",
    b"\x12\x0b\x0a\x05bdSeqX\x04p\x01",
];

/// What an NBIRTH is refused for first: it lacks everything; its timestamp and its `bdSeq`; its sequence number and its `bdSeq`; its
/// sequence number and its timestamp.
const FIRST: [(&[u8], HostFault); 4] = [
    (b"", HostFault::NoSeq),
    (b"\x18\x01", HostFault::NoStamp),
    (b"\x08\x64", HostFault::NoSeq),
    (b"\x12\x09\x0a\x05bdSeqX\x04", HostFault::NoSeq),
];

/// Messages that no refusal concerns, and what becomes of them: the greatest numbers and the earlier ones that don't count, none where none is asked for.
const ACCEPTED: [(&str, &[u8], Option<Step>); 9] = [
    (
        "spBv1.0/G/NBIRTH/M",
        b"\x18\x80\x02\x18\xff\x01\x08\x64\x12\x0a\x0a\x05bdSeqX\xff\x01",
        Some(Step::Consumed(1)),
    ),
    ("spBv1.0/G/NDATA/M", b"\x18\x00", Some(Step::Consumed(1))),
    ("spBv1.0/G/DBIRTH/M/D", b"\x18\x01", Some(Step::Consumed(1))),
    ("spBv1.0/G/DDATA/M/D", b"\x18\x02", Some(Step::Consumed(1))),
    ("spBv1.0/G/DDEATH/M/D", b"\x18\x03", Some(Step::Consumed(1))),
    (
        "spBv1.0/G/NDEATH/M",
        b"\x12\x07\x0a\x05bdSeq\x12\x0a\x0a\x05bdSeqP\xfe\x01",
        None,
    ),
    ("spBv1.0/G/NDATA/M", b"\x18\x04", Some(Step::Consumed(1))),
    (
        "spBv1.0/G/NDEATH/M",
        b"\x12\x0a\x0a\x05bdSeqP\xff\x01",
        None,
    ),
    ("spBv1.0/G/NDATA/M", b"\x18\x05", Some(Step::NotLive)),
];

/// A PUBLISH, its payload in two parts.
fn packet(
    alloc: Global,
    topic: &str,
    id: Option<u16>,
    front: &[u8],
    rest: &[u8],
) -> Result<Vec<u8>, AllocError> {
    let mut payload = Vec::new(alloc);
    put_both(&mut payload, front, rest)?;
    publish(alloc, topic, id, payload.as_slice())
}

fn put_both(payload: &mut Vec<u8>, front: &[u8], rest: &[u8]) -> Result<(), AllocError> {
    payload.extend_from_slice(front)?;
    payload.extend_from_slice(rest)?;
    Ok(())
}

/// The same. Where memory was refused it is made again.
fn made(
    rt: &(impl Abort + AllocGlobal),
    topic: &str,
    id: Option<u16>,
    front: &[u8],
    rest: &[u8],
) -> Vec<u8> {
    match packet(rt.alloc(), topic, id, front, rest) {
        Ok(made) => made,
        Err(_) => packet(rt.alloc(), topic, id, front, rest).expect(rt, "memory is there again")
    }
}

/// A session begins, with an NBIRTH of the node N under the number 0, with the timestamp 100 and the bdSeq 0.
fn live(rt: &(impl Abort + AllocGlobal), host: &mut impl Asks) {
    begin(rt, host, 5);
    let birth = made(rt, "spBv1.0/G/NBIRTH/N", None, BORN, b"\x18\x00");
    assert!(rt; told(host, birth.as_slice(), 9).is_ok());
}

/// A message is refused, at QoS 0 and at QoS 1.
fn assert_refused(
    rt: &(impl Abort + AllocGlobal),
    host: &mut impl Asks,
    topic: &str,
    front: &[u8],
    rest: &[u8],
    fault: HostFault,
) {
    for id in [None, Some(7)] {
        let refused = refusal_of(host, made(rt, topic, id, front, rest).as_slice(), 9);
        assert!(rt; refused == Some(fault), "{topic} with {rest:?}");
    }
}

/// The node N alone was heard, is followed, and its message under the number 1 comes next.
fn assert_as_before(rt: &(impl Abort + AllocGlobal), host: &mut impl Asks) {
    assert!(rt; host.count() == 1 && host.phase_of("G", "N") == Phase::Live);
    let data = made(rt, "spBv1.0/G/NDATA/N", Some(7), b"", b"\x18\x01");
    assert!(rt; is_consumed(host, data.as_slice()));
}

/// Whether a message alone is consumed, and answered with one packet.
fn is_consumed(host: &mut impl Asks, packet: &[u8]) -> bool {
    match told(host, packet, 9) {
        Ok(out) => {
            out.steps.as_slice() == [Step::Consumed(1)].as_slice() && out.packets.len() == 1
        }
        Err(_) => false,
    }
}

/// Messages, the beginning and the ends of their payloads, and what each of them is refused for with each of these ends.
#[derive(Clone, Copy)]
struct Refused {
    topics: &'static [&'static str],
    front: &'static [u8],
    rests: &'static [&'static [u8]],
    fault: HostFault,
}

/// What a host is told.
#[derive(Clone, Copy)]
enum Told {
    Refused(Refused),
    NoPackets,
    Unread,
    First,
    Accepted,
    Outside,
}

fn refuses(rt: &(impl Abort + AllocGlobal), host: &mut impl Asks, case: &Refused) {
    live(rt, host);
    for topic in case.topics {
        for rest in case.rests {
            assert_refused(rt, host, topic, case.front, rest, case.fault);
        }
    }
    assert_as_before(rt, host);
}

impl Case for Told {
    fn play(&self, rt: &(impl Abort + AllocGlobal), host: &mut impl Asks) {
        match self {
            Told::Refused(case) => refuses(rt, host, case),
            Told::NoPackets => refuses_no_packets(rt, host),
            Told::Unread => reads_no_payload(rt, host),
            Told::First => refuses_for_the_first_fault(rt, host),
            Told::Accepted => reads_the_last_number(rt, host),
            Told::Outside => reads_nothing_outside(rt, host),
        }
    }
}

/// A host that was never within a session is told it.
fn plays(rt: &(impl Abort + AllocGlobal), told: Told) {
    play(rt, 2000, 64, &told);
}

#[test]
fn a_topic_is_judged_before_its_payload(rt: HostRuntime) {
    plays(
        &rt,
        Told::Refused(Refused {
            topics: &TOPICS,
            front: b"",
            rests: &[b"\xff", WHOLE],
            fault: HostFault::NotSparkplug,
        }),
    );
}

fn refuses_no_packets(rt: &(impl Abort + AllocGlobal), host: &mut impl Asks) {
    live(rt, host);
    for bytes in &NO_PACKETS {
        let refused = refusal_of(host, bytes, 9);
        assert!(rt; refused == Some(HostFault::BadPayload), "{bytes:?}");
    }
    assert_as_before(rt, host);
}

#[test]
fn bytes_that_are_no_packet(rt: HostRuntime) {
    plays(&rt, Told::NoPackets);
}

#[test]
fn a_payload_is_read_before_its_numbers_are_judged(rt: HostRuntime) {
    for front in [WHOLE, b""] {
        plays(
            &rt,
            Told::Refused(Refused {
                topics: &READ,
                front,
                rests: &NO_FIELDS,
                fault: HostFault::BadPayload,
            }),
        );
    }
}

/// Whether a packet makes no step, and is answered with one packet.
fn is_acknowledged(host: &mut impl Asks, packet: &[u8]) -> bool {
    match told(host, packet, 9) {
        Ok(out) => out.steps.len() == 0 && out.packets.len() == 1,
        Err(_) => false,
    }
}

fn reads_no_payload(rt: &(impl Abort + AllocGlobal), host: &mut impl Asks) {
    live(rt, host);
    for topic in &UNREAD {
        for rest in &NO_FIELDS {
            let packet = made(rt, topic, Some(7), b"", rest);
            assert!(rt;
                is_acknowledged(host, packet.as_slice()),
                "{topic} with {rest:?}"
            );
        }
    }
    assert_as_before(rt, host);
}

#[test]
fn payloads_that_are_not_read_are_not_refused(rt: HostRuntime) {
    plays(&rt, Told::Unread);
}

#[test]
fn messages_without_a_sequence_number(rt: HostRuntime) {
    plays(
        &rt,
        Told::Refused(Refused {
            topics: &NUMBERED,
            front: BORN,
            rests: &NO_NUMBERS,
            fault: HostFault::NoSeq,
        }),
    );
}

#[test]
fn births_without_a_timestamp(rt: HostRuntime) {
    plays(
        &rt,
        Told::Refused(Refused {
            topics: &STAMPED,
            front: b"",
            rests: &NO_STAMPS,
            fault: HostFault::NoStamp,
        }),
    );
}

#[test]
fn births_and_deaths_without_a_session(rt: HostRuntime) {
    plays(
        &rt,
        Told::Refused(Refused {
            topics: &OF_A_SESSION,
            front: NUMBER,
            rests: &NO_SESSIONS,
            fault: HostFault::NoBdSeq,
        }),
    );
}

fn refuses_for_the_first_fault(rt: &(impl Abort + AllocGlobal), host: &mut impl Asks) {
    live(rt, host);
    for (payload, fault) in &FIRST {
        assert_refused(rt, host, "spBv1.0/G/NBIRTH/N", b"", payload, *fault);
    }
    assert_as_before(rt, host);
}

#[test]
fn the_first_fault_of_a_birth(rt: HostRuntime) {
    plays(&rt, Told::First);
}

/// Whether a packet is taken, and this is its first step, if there is one.
fn is_step(host: &mut impl Asks, packet: &[u8], step: Option<Step>) -> bool {
    match told(host, packet, 9) {
        Ok(out) => out.steps.first().copied() == step,
        Err(_) => false,
    }
}

fn reads_the_last_number(rt: &(impl Abort + AllocGlobal), host: &mut impl Asks) {
    live(rt, host);
    for (topic, payload, step) in &ACCEPTED {
        let packet = made(rt, topic, None, b"", payload);
        let is_so = is_step(host, packet.as_slice(), *step);
        assert!(rt; is_so, "{topic} with {payload:?}");
    }
    assert!(rt; host.phase_of("G", "M") == Phase::Dead);
}

#[test]
fn the_greatest_numbers_and_the_last_ones_are_read(rt: HostRuntime) {
    plays(&rt, Told::Accepted);
}

/// Outside a session all is refused, whatever the bytes are.
fn assert_outside(rt: &(impl Abort + AllocGlobal), host: &mut impl Asks) {
    let wrong = Some(HostFault::WrongPhase);
    for bytes in &NO_PACKETS {
        assert!(rt; refusal_of(host, bytes, 9) == wrong, "{bytes:?}");
    }
    for topic in READ.iter().chain(UNREAD.iter()) {
        let packet = made(rt, topic, None, b"", WHOLE);
        assert!(rt; refusal_of(host, packet.as_slice(), 9) == wrong, "{topic}");
    }
    assert!(rt; refusals_at(host, 9) == [wrong, wrong]);
}

fn reads_nothing_outside(rt: &(impl Abort + AllocGlobal), host: &mut impl Asks) {
    assert_outside(rt, host);
    begin(rt, host, 5);
    assert!(rt; connect_refusal(host, 6) == Some(HostFault::WrongPhase));
    host.tell_ended();
    assert_outside(rt, host);
    begin(rt, host, 5);
    assert!(rt; stopped(host, 7).is_ok());
    assert_outside(rt, host);
    begin(rt, host, 5);
    assert!(rt; told(host, b"\x20\x02\x00\x05", 9).is_ok());
    assert_outside(rt, host);
}

#[test]
fn outside_a_session_nothing_is_read(rt: HostRuntime) {
    plays(&rt, Told::Outside);
}

static NUMBERS: [(HostFault, u32); 7] = [
    (HostFault::NoMemory, 1),
    (HostFault::NotSparkplug, 70),
    (HostFault::BadPayload, 71),
    (HostFault::NoSeq, 72),
    (HostFault::NoStamp, 73),
    (HostFault::NoBdSeq, 74),
    (HostFault::WrongPhase, 75),
];

#[test]
fn numbers_of_the_refusals(rt: HostRuntime) {
    for (fault, number) in &NUMBERS {
        assert!(rt; fault.number() == *number, "{number}");
    }
}
