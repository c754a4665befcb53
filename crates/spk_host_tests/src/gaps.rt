//! Which nodes a host tells the gaps of a moment of, their bytes by hand from MQTT 3.1.1 (chapter 3) and Sparkplug's schema. Out of
//! memory is a right answer wherever memory is asked for: nothing has changed then, and the call is made again.
use crate::asks::{Asks, Case, begin, play, ticked, told};
use spk_sequence::Step;
use std::process::Abort;

/// What is handed to a host at a moment, or the moment alone; the places of the nodes that have a gap then, in the order in which the
/// nodes were first heard.
type Row = (Option<&'static [u8]>, u64, &'static [usize]);

/// A held message waits 50: nodes N of the group G, N of F and M of G, first heard in this order.
static ROWS: [Row; 14] = [
    (
        Some(b"0%\x00\x12spBv1.0/G/NBIRTH/N\x08d\x12\x0b\x0a\x05bdSeq \x08X\x00\x18\x00"),
        10,
        &[],
    ),
    (
        Some(b"0%\x00\x12spBv1.0/F/NBIRTH/N\x08d\x12\x0b\x0a\x05bdSeq \x08X\x00\x18\x00"),
        10,
        &[],
    ),
    (
        Some(b"0%\x00\x12spBv1.0/G/NBIRTH/M\x08d\x12\x0b\x0a\x05bdSeq \x08X\x00\x18\x00"),
        10,
        &[],
    ),
    // held: of the last, and of the second, each ahead of a missing one
    (
        Some(b"0\x17\x00\x11spBv1.0/G/NDATA/M\x08\x64\x18\x02"),
        20,
        &[],
    ),
    (
        Some(b"0\x17\x00\x11spBv1.0/F/NDATA/N\x08\x64\x18\x02"),
        20,
        &[],
    ),
    (None, 69, &[]),
    (None, 70, &[1, 2]),
    (None, 71, &[]),
    // a gap by a message too far ahead, which names its node itself
    (
        Some(b"0\x17\x00\x11spBv1.0/G/NDATA/N\x08\x64\x18\x64"),
        80,
        &[],
    ),
    // the second has its birth again, and holds one; so has the first
    (
        Some(b"0%\x00\x12spBv1.0/F/NBIRTH/N\x08e\x12\x0b\x0a\x05bdSeq \x08X\x01\x18\x00"),
        90,
        &[],
    ),
    (
        Some(b"0\x17\x00\x11spBv1.0/F/NDATA/N\x08\x65\x18\x02"),
        90,
        &[],
    ),
    (
        Some(b"0%\x00\x12spBv1.0/G/NBIRTH/N\x08e\x12\x0b\x0a\x05bdSeq \x08X\x01\x18\x00"),
        90,
        &[],
    ),
    (
        Some(b"0\x17\x00\x11spBv1.0/G/NDATA/N\x08\x65\x18\x02"),
        90,
        &[],
    ),
    (None, 140, &[0, 1]),
];

/// Whether these places are told, each with a gap, at a moment.
fn is_ticked(host: &mut impl Asks, now: u64, places: &[usize]) -> bool {
    let Ok(out) = ticked(host, now) else {
        return false;
    };
    let are_gaps = out.steps.iter().all(|step| *step == Step::Gap);
    are_gaps && out.steps.len() == places.len() && out.gaps.as_slice() == places
}

/// Whether no place is told at a packet.
fn is_told(host: &mut impl Asks, bytes: &[u8], now: u64) -> bool {
    match told(host, bytes, now) {
        Ok(out) => out.gaps.is_empty(),
        Err(_) => false,
    }
}

/// What a host is told within a session that began at 5.
struct Gaps;

impl Case for Gaps {
    fn play(&self, rt: &(impl Abort + AllocGlobal), host: &mut impl Asks) {
        begin(rt, host, 5);
        for (place, (bytes, now, places)) in ROWS.iter().enumerate() {
            let is_so = match bytes {
                Some(bytes) => is_told(host, bytes, *now),
                None => is_ticked(host, *now, places),
            };
            assert!(rt; is_so, "{place}");
        }
    }
}

#[test]
fn the_gaps_of_a_moment_are_told_by_the_places_of_their_nodes(rt: HostRuntime) {
    play(&rt, 50, 64, &Gaps);
}
