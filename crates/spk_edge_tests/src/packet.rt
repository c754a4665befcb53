//! What packets of the server come to, as bytes of MQTT 3.1.1.
use crate::host::{BAD, HOSTED, SUBSCRIBE, letters};
use crate::node::{
    CONNECT, Call, FIRST, Kind, NBIRTH, PLAIN, Plays, Wanted, is_answer, is_told, phase_of,
    play_on, record_of,
};
use crate::which::Test;
use spk_edge::{EdgeFault, Out, Phase};
use spk_packets::{Packet, PacketFault, decode};
use std::process::Abort;

/// The packet that the bytes are. Where memory was refused it is read again.
fn packet_of(rt: &(impl Abort + AllocGlobal), bytes: &[u8]) -> Packet {
    for _ in 0..2 {
        match decode(rt.alloc(), bytes) {
            Ok((packet, _)) => return packet,
            Err(fault) => assert_eq!(rt; fault, PacketFault::NoMemory),
        }
    }
    assert!(rt; false, "memory is there again");
    Packet::PingReq
}

/// What a packet gives. Where memory was refused the call is made again.
fn answered(
    rt: &(impl Abort + AllocGlobal),
    node: &mut impl Plays,
    now: u64,
    bytes: &[u8],
) -> Result<Out, EdgeFault> {
    let packet = packet_of(rt, bytes);
    match node.tell_packet(now, &packet) {
        Err(EdgeFault::NoMemory) => node.tell_packet(now, &packet),
        answer => answer,
    }
}

/// A moment, a packet, and the packets that it gives, or its refusal.
type Row = (u64, &'static [u8], Wanted);

static ROWS: [Row; 11] = [
    // a PUBLISH of QoS 1 before the births
    (
        5,
        b"2\x14\x00\x10spBv1.0/G/NCMD/N\x00\x08",
        Err(EdgeFault::WrongPhase),
    ),
    (6, b"\x20\x02\x00\x00", Ok(&[SUBSCRIBE])),
    (
        6,
        b"2\x14\x00\x10spBv1.0/G/NCMD/N\x00\x08",
        Ok(&["40020008"]),
    ),
    (
        6,
        b"2\"\x00\x0fspBv1.0/STATE/H\x00\x07{\"online\":true}",
        Err(BAD),
    ),
    (
        6,
        b"20\x00\x0fspBv1.0/STATE/I\x00\x08{\"online\":true,\"timestamp\":1}",
        Err(EdgeFault::BadCommand),
    ),
    (
        6,
        b"20\x00\x0fspBv1.0/STATE/H\x00\x07{\"online\":true,\"timestamp\":1}",
        Ok(&["40020007", NBIRTH]),
    ),
    (
        7,
        b"02\x00\x10spBv1.0/G/NCMD/N\x08\x09\x12\x1c\x0a\x14Node Control/Rebirth\x18\x09 \x0bp\x01",
        Ok(&[
            "3052001273704276312e302f472f4e42495254482f4e0807120d0a056264536571180720045800121c0a144e6f646520436f6e74726f6c2f526562697274681807200b7000120b0a017410011807200350071801",
        ]),
    ),
    (
        7,
        b"2\x14\x00\x10spBv1.0/G/NCMD/M\x00\x09",
        Err(EdgeFault::BadCommand),
    ),
    // once it is joined, a CONNACK that doesn't accept says nothing
    (7, b"\x20\x02\x00\x05", Ok(&[])),
    (7, b"\xd0\x00", Ok(&[])),
    (8, b"\x20\x02\x00\x00", Err(EdgeFault::WrongPhase)),
];

fn is_answered(
    rt: &(impl Abort + AllocGlobal),
    node: &mut impl Plays,
    now: u64,
    bytes: &[u8],
    wanted: &Wanted,
) -> bool {
    is_answer(&answered(rt, node, now, bytes), wanted)
}

pub(crate) fn takes_packets(rt: &(impl Abort + AllocGlobal), node: &mut impl Plays) {
    assert!(rt; is_told(node, 5, Call::Open, &Ok(&[CONNECT])));
    for (now, bytes, wanted) in &ROWS {
        assert!(rt; is_answered(rt, node, *now, bytes, wanted), "at {now}");
    }
    assert!(rt; phase_of(node) == Phase::Born);
}

#[test]
fn a_packet_is_a_call_and_what_is_done_is_acknowledged_first(rt: HostRuntime) {
    play_on(&rt, HOSTED, Test::Packets);
}

/// Whether an answer closes, and nothing else.
fn is_closed(answer: &Result<Out, EdgeFault>) -> bool {
    match answer {
        Ok(out) => out.close && out.packets.is_empty() && out.writes.is_empty(),
        Err(_) => false,
    }
}

pub(crate) fn closes_if_not_accepted(rt: &(impl Abort + AllocGlobal), node: &mut impl Plays) {
    assert!(rt; is_told(node, 5, Call::Open, &Ok(&[CONNECT])));
    assert!(rt; is_closed(&answered(rt, node, 6, b"\x20\x02\x00\x05")));
    assert!(rt; phase_of(node) == Phase::Idle && record_of(node).bd == 1);
}

#[test]
fn a_node_that_is_not_accepted_closes(rt: HostRuntime) {
    play_on(&rt, HOSTED, Test::NotAccepted);
}

pub(crate) fn has_a_name_too_long(rt: &impl Abort, node: &mut impl Plays) {
    assert!(rt; is_told(node, 5, Call::Open, &Err(EdgeFault::TooLarge)));
    assert!(rt; phase_of(node) == Phase::Idle && record_of(node) == FIRST);
}

#[test]
fn a_name_too_long_for_a_topic_is_too_large(rt: HostRuntime) {
    let group = letters(&rt, 65_530);
    let kind = Kind {
        group: group.as_str(),
        capacity: 1,
        ..PLAIN
    };
    play_on(&rt, kind, Test::NameTooLong);
}
