//! Sessions, their bytes by hand from MQTT 3.1.1 (chapter 3) and Sparkplug's schema. Out of memory is a right answer wherever memory
//! is asked for: nothing has changed then, and the call is made again.
use crate::asks::{Asks, Case, begin, play, refusal_of, renewed, stopped, ticked, told};
use spk_host::HostFault;
use spk_sequence::{Phase, Step};
use std::process::Abort;

/// Data of node N under the number 4, at QoS 0.
const DATA: &[u8] = b"0\x17\x00\x11spBv1.0/G/NDATA/N\x08\x07\x18\x04";

/// An NCMD with `Node Control/Rebirth`, true, at moment 9.
const REQUEST: &[u8] =
    b"02\x00\x10spBv1.0/G/NCMD/N\x08\x09\x12\x1c\x0a\x14Node Control/Rebirth\x18\x09 \x0bp\x01";

/// A packet, its moment, how many packets answer it, and the first of them.
type Said = (&'static [u8], u64, usize, &'static [u8]);

static SAID: [Said; 5] = [
    // CONNACK, SUBACK
    (
        b"\x20\x02\x00\x00",
        6,
        1,
        b"\x82\x10\x00\x01\x00\x0bspBv1.0/G/#\x01",
    ),
    (
        b"\x90\x03\x00\x01\x01",
        7,
        1,
        b"30\x00\x0fspBv1.0/STATE/H\x00\x02{\x22online\x22:true,\x22timestamp\x22:5}",
    ),
    // data of a node without a birth, and again within the wait
    (DATA, 9, 1, REQUEST),
    (DATA, 10, 0, b""),
    // an NCMD at QoS 1 is acknowledged
    (
        b"2\x14\x00\x10spBv1.0/G/NCMD/N\x00\x07",
        11,
        1,
        b"\x40\x02\x00\x07",
    ),
];

/// Whether so many packets answer, and this is the first of them.
fn is_said(host: &mut impl Asks, (bytes, now, count, first): &Said) -> bool {
    match told(host, bytes, *now) {
        Ok(out) => {
            out.packets.len() == *count
                && out
                    .packets
                    .first()
                    .is_none_or(|packet| packet.as_slice() == *first)
        }
        Err(_) => false,
    }
}

/// How many packets answer a moment.
fn count_at(host: &mut impl Asks, now: u64) -> Option<usize> {
    match ticked(host, now) {
        Ok(out) => Some(out.packets.len()),
        Err(_) => None,
    }
}

/// How many packets end a session.
fn farewells_at(host: &mut impl Asks, now: u64) -> Option<usize> {
    match stopped(host, now) {
        Ok(out) => Some(out.packets.len()),
        Err(_) => None,
    }
}

fn answers_what_it_hears(rt: &impl Abort, host: &mut impl Asks) {
    for said in &SAID {
        assert!(rt; is_said(host, said), "at {}", said.1);
    }
    assert!(rt; count_at(host, 10) == Some(0) && farewells_at(host, 11) == Some(2));
}

#[test]
fn a_session_answers_what_it_hears(rt: HostRuntime) {
    play(&rt, 2000, 64, &Session::Said);
}

/// A node's packet, and what becomes of it.
type Row = (&'static [u8], Step, usize);

/// NBIRTH (timestamp 100, seq, bdSeq 0) and NDATA of node N in the groups G and F, one after the other.
static TWO_NODES: [Row; 6] = [
    (
        b"0%\x00\x12spBv1.0/G/NBIRTH/N\x08d\x12\x0b\x0a\x05bdSeq \x08X\x00\x18\x00",
        Step::Consumed(1),
        1,
    ),
    (
        b"0%\x00\x12spBv1.0/F/NBIRTH/N\x08d\x12\x0b\x0a\x05bdSeq \x08X\x00\x18\x09",
        Step::Consumed(1),
        1,
    ),
    (
        b"0\x17\x00\x11spBv1.0/G/NDATA/N\x08\x64\x18\x02",
        Step::Held,
        0,
    ),
    (
        b"0\x17\x00\x11spBv1.0/F/NDATA/N\x08\x64\x18\x0a",
        Step::Consumed(1),
        1,
    ),
    (
        b"0\x17\x00\x11spBv1.0/G/NDATA/N\x08\x64\x18\x01",
        Step::Consumed(2),
        2,
    ),
    (
        b"0\x17\x00\x11spBv1.0/F/NDATA/N\x08\x64\x18\x0c",
        Step::Held,
        0,
    ),
];

fn is_stepped(host: &mut impl Asks, (bytes, step, consumed): &Row) -> bool {
    match told(host, bytes, 20) {
        Ok(out) => { out.steps.as_slice() == [*step].as_slice() && out.consumed.len() == *consumed }
        Err(_) => false,
    }
}

/// Whether there is one gap at a moment.
fn is_gap_at(host: &mut impl Asks, now: u64) -> bool {
    match ticked(host, now) {
        Ok(out) => out.steps.as_slice() == [Step::Gap].as_slice(),
        Err(_) => false,
    }
}

fn keeps_two_orders(rt: &impl Abort, host: &mut impl Asks) {
    for (place, row) in TWO_NODES.iter().enumerate() {
        assert!(rt; is_stepped(host, row), "{place}");
    }
    assert!(rt; is_gap_at(host, 70) && host.phase_of("F", "N") == Phase::Gap);
}

#[test]
fn nodes_of_two_groups_have_their_own_orders(rt: HostRuntime) {
    play(&rt, 50, 64, &Session::TwoNodes);
}

/// Bytes that are refused.
static REFUSED: [(&[u8], HostFault, u32); 6] = [
    (b"\xd0\x00\xd0\x00", HostFault::BadPayload, 71),
    (
        b"0\x09\x00\x03a/b\x08\x07\x18\x01",
        HostFault::NotSparkplug,
        70,
    ),
    (
        b"0\x14\x00\x11spBv1.0/G/NDATA/N\x08",
        HostFault::BadPayload,
        71,
    ),
    (
        b"0\x15\x00\x11spBv1.0/G/NDATA/N\x08\x07",
        HostFault::NoSeq,
        72,
    ),
    (
        b"0\x16\x00\x12spBv1.0/G/NBIRTH/N\x18\x00",
        HostFault::NoStamp,
        73,
    ),
    (
        b"0\x18\x00\x12spBv1.0/G/NBIRTH/N\x08\x64\x18\x00",
        HostFault::NoBdSeq,
        74,
    ),
];

/// Whether a session begins anew with one packet.
fn begins_anew(host: &mut impl Asks) -> bool {
    match renewed(host, 2) {
        Ok(out) => out.packets.len() == 1,
        Err(_) => false,
    }
}

fn refuses(rt: &impl Abort, host: &mut impl Asks) {
    for (bytes, fault, number) in &REFUSED {
        let is_so = refusal_of(host, bytes, 1) == Some(*fault) && fault.number() == *number;
        assert!(rt; is_so, "{bytes:?}");
    }
    assert!(rt; begins_anew(host));
    host.tell_ended();
}

#[test]
fn refused_packets(rt: HostRuntime) {
    play(&rt, 50, 64, &Session::Refused);
}

/// What a host is told within a session that began at 5.
#[derive(Clone, Copy)]
enum Session {
    Said,
    TwoNodes,
    Refused,
}

impl Case for Session {
    fn play(&self, rt: &(impl Abort + AllocGlobal), host: &mut impl Asks) {
        begin(rt, host, 5);
        match self {
            Session::Said => answers_what_it_hears(rt, host),
            Session::TwoNodes => keeps_two_orders(rt, host),
            Session::Refused => refuses(rt, host),
        }
    }
}
