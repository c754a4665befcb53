//! What a host tells of an NDEATH, their bytes by hand from MQTT 3.1.1 (chapter 3) and Sparkplug's schema. Out of memory is a right
//! answer wherever memory is asked for: nothing has changed then, and the call is made again.
use crate::asks::{Asks, Case, begin, play, renewed, told};
use spk_sequence::{Match, Phase};
use std::process::Abort;

/// What is handed to a host, and what is told of it; how the host then stands to node N of group G.
type Row = (&'static [u8], Option<Match>, Phase);

/// NDEATH of node N with bdSeq 0, and with bdSeq 1.
const DEATH_0: &[u8] = b"0!\x00\x12spBv1.0/G/NDEATH/N\x12\x0b\x0a\x05bdSeq \x08X\x00";

const DEATH_1: &[u8] = b"0!\x00\x12spBv1.0/G/NDEATH/N\x12\x0b\x0a\x05bdSeq \x08X\x01";

/// The same of the node of this name in the group F.
const DEATH_OF_OTHER: &[u8] = b"0!\x00\x12spBv1.0/F/NDEATH/N\x12\x0b\x0a\x05bdSeq \x08X\x01";

static SESSIONS: [Row; 15] = [
    // a node that was never heard
    (DEATH_0, Some(Match::Ignored), Phase::Unknown),
    // NBIRTH (timestamp 100, bdSeq 0, seq 0), NDATA
    (
        b"0%\x00\x12spBv1.0/G/NBIRTH/N\x08d\x12\x0b\x0a\x05bdSeq \x08X\x00\x18\x00",
        None,
        Phase::Live,
    ),
    (
        b"0\x17\x00\x11spBv1.0/G/NDATA/N\x08\x64\x18\x01",
        None,
        Phase::Live,
    ),
    // of another session, then of this one, once and again
    (DEATH_1, Some(Match::Ignored), Phase::Live),
    (DEATH_0, Some(Match::Matched), Phase::Dead),
    (DEATH_0, Some(Match::Matched), Phase::Dead),
    (DEATH_1, Some(Match::Ignored), Phase::Dead),
    // the next session (timestamp 101, bdSeq 1): the death of the one before comes late
    (
        b"0%\x00\x12spBv1.0/G/NBIRTH/N\x08e\x12\x0b\x0a\x05bdSeq \x08X\x01\x18\x00",
        None,
        Phase::Live,
    ),
    (DEATH_0, Some(Match::Ignored), Phase::Live),
    (DEATH_OF_OTHER, Some(Match::Ignored), Phase::Live),
    // a message too far ahead: the node isn't followed, and its session's death matches
    (
        b"0\x17\x00\x11spBv1.0/G/NDATA/N\x08\x65\x18\x64",
        None,
        Phase::Gap,
    ),
    (DEATH_1, Some(Match::Matched), Phase::Dead),
    // an NCMD, PINGRESP, SUBACK
    (b"0\x12\x00\x10spBv1.0/G/NCMD/N", None, Phase::Dead),
    (b"\xd0\x00", None, Phase::Dead),
    (b"\x90\x03\x00\x01\x01", None, Phase::Dead),
];

fn is_told(host: &mut impl Asks, (bytes, death, phase): &Row, now: u64) -> bool {
    match told(host, bytes, now) {
        Ok(out) => out.death == *death && host.phase_of("G", "N") == *phase,
        Err(_) => false,
    }
}

/// What a host is told within a session that began at 5, and in the one behind it, in which no birth was taken.
struct Sessions;

impl Case for Sessions {
    fn play(&self, rt: &(impl Abort + AllocGlobal), host: &mut impl Asks) {
        begin(rt, host, 5);
        for (place, row) in SESSIONS.iter().enumerate() {
            assert!(rt; is_told(host, row, 10), "{place}");
        }
        assert!(rt; renewed(host, 20).is_ok());
        let forgotten = (DEATH_1, Some(Match::Ignored), Phase::Unknown);
        assert!(rt; is_told(host, &forgotten, 21));
    }
}

#[test]
fn a_death_is_told_as_matched_where_it_is_that_of_the_last_birth(rt: HostRuntime) {
    play(&rt, 50, 64, &Sessions);
}
