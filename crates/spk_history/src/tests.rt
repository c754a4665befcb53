use crate::{
    Beginning, Ending, Entries, Entry, Front, HEAD, HistoryFault, Kind, Parts, SessionEvent,
    append, head, read,
};
use spk_frames::crc32;
use std::alloc::Global;
use std::test::Fail;

/// One entry of each kind.
const WRITTEN: [Entry<'static>; 11] = [
    Entry::Session {
        at: 1_764_000_000_000,
        what: SessionEvent::Began,
    },
    Entry::Node {
        node: 0,
        group: "Plant",
        name: "Press é",
    },
    Entry::Birth {
        at: 1_764_000_000_001,
        node: 0,
        stamp: 1_764_000_000_000,
        bd: 7,
        payload: b"\x08\x00\x01",
    },
    Entry::Message {
        at: 1_764_000_000_002,
        node: 0,
        kind: Kind::DeviceBirth("D"),
        seq: 1,
        payload: b"",
    },
    Entry::Message {
        at: 1_764_000_000_003,
        node: 0,
        kind: Kind::NodeData,
        seq: 255,
        payload: b"\xff",
    },
    Entry::Message {
        at: 1_764_000_000_004,
        node: 0,
        kind: Kind::DeviceData("D"),
        seq: 0,
        payload: b"ab",
    },
    Entry::Message {
        at: 1_764_000_000_005,
        node: 0,
        kind: Kind::DeviceDeath("D"),
        seq: 1,
        payload: b"",
    },
    Entry::Gap {
        at: 1_764_000_000_006,
        node: 0,
        awaited: 258,
        missing: 3,
    },
    Entry::Death {
        at: 1_764_000_000_007,
        node: 0,
        bd: 7,
    },
    Entry::Hole {
        node: 0,
        from: 1_764_000_000_006,
        to: 1_764_000_000_008,
        missing: 3,
        unused: 2,
        ended_by: Ending::NewSession,
    },
    Entry::Session {
        at: 1_764_000_000_009,
        what: SessionEvent::Ended,
    },
];

/// Where each record of `FILE` ends.
const ENDS: [usize; 11] = [36, 66, 99, 124, 147, 174, 199, 236, 258, 303, 320];

/// The file of them, made by another program from the table in `specs/Record.antt` and zlib's sums.
const FILE: [u8; 320] = [
    0x4a, 0x75, 0x6c, 0x64, 0x72, 0x65, 0x6d, 0x6d, 0x20, 0x68, 0x69, 0x73, 0x74, 0x6f, 0x72, 0x79,
    0x20, 0x31, 0x0a, 0x09, 0x00, 0x00, 0x00, 0x01, 0x00, 0xe8, 0x97, 0xb6, 0x9a, 0x01, 0x00, 0x00,
    0x25, 0x58, 0xe6, 0x8d, 0x16, 0x00, 0x00, 0x00, 0x03, 0x00, 0x00, 0x00, 0x00, 0x05, 0x00, 0x50,
    0x6c, 0x61, 0x6e, 0x74, 0x08, 0x00, 0x50, 0x72, 0x65, 0x73, 0x73, 0x20, 0xc3, 0xa9, 0x33, 0x37,
    0xe4, 0xc4, 0x19, 0x00, 0x00, 0x00, 0x04, 0x01, 0xe8, 0x97, 0xb6, 0x9a, 0x01, 0x00, 0x00, 0x00,
    0x00, 0x00, 0x00, 0x00, 0xe8, 0x97, 0xb6, 0x9a, 0x01, 0x00, 0x00, 0x07, 0x08, 0x00, 0x01, 0x32,
    0x86, 0xff, 0x76, 0x11, 0x00, 0x00, 0x00, 0x0b, 0x02, 0xe8, 0x97, 0xb6, 0x9a, 0x01, 0x00, 0x00,
    0x00, 0x00, 0x00, 0x00, 0x01, 0x01, 0x00, 0x44, 0xd6, 0xea, 0xa6, 0x30, 0x0f, 0x00, 0x00, 0x00,
    0x0a, 0x03, 0xe8, 0x97, 0xb6, 0x9a, 0x01, 0x00, 0x00, 0x00, 0x00, 0x00, 0x00, 0xff, 0xff, 0xc1,
    0xb6, 0x8a, 0xe8, 0x13, 0x00, 0x00, 0x00, 0x0c, 0x04, 0xe8, 0x97, 0xb6, 0x9a, 0x01, 0x00, 0x00,
    0x00, 0x00, 0x00, 0x00, 0x00, 0x01, 0x00, 0x44, 0x61, 0x62, 0x5f, 0xf5, 0x20, 0x86, 0x11, 0x00,
    0x00, 0x00, 0x0d, 0x05, 0xe8, 0x97, 0xb6, 0x9a, 0x01, 0x00, 0x00, 0x00, 0x00, 0x00, 0x00, 0x01,
    0x01, 0x00, 0x44, 0xab, 0xa5, 0x6b, 0x6a, 0x1d, 0x00, 0x00, 0x00, 0x06, 0x06, 0xe8, 0x97, 0xb6,
    0x9a, 0x01, 0x00, 0x00, 0x00, 0x00, 0x00, 0x00, 0x02, 0x01, 0x00, 0x00, 0x00, 0x00, 0x00, 0x00,
    0x03, 0x00, 0x00, 0x00, 0x00, 0x00, 0x00, 0x00, 0x0b, 0xd5, 0xa8, 0xc1, 0x0e, 0x00, 0x00, 0x00,
    0x05, 0x07, 0xe8, 0x97, 0xb6, 0x9a, 0x01, 0x00, 0x00, 0x00, 0x00, 0x00, 0x00, 0x07, 0xd0, 0x26,
    0x43, 0x18, 0x25, 0x00, 0x00, 0x00, 0x08, 0x00, 0x00, 0x00, 0x00, 0x06, 0xe8, 0x97, 0xb6, 0x9a,
    0x01, 0x00, 0x00, 0x08, 0xe8, 0x97, 0xb6, 0x9a, 0x01, 0x00, 0x00, 0x03, 0x00, 0x00, 0x00, 0x00,
    0x00, 0x00, 0x00, 0x02, 0x00, 0x00, 0x00, 0x00, 0x00, 0x00, 0x00, 0xb7, 0x7f, 0x6f, 0x8c, 0x09,
    0x00, 0x00, 0x00, 0x02, 0x09, 0xe8, 0x97, 0xb6, 0x9a, 0x01, 0x00, 0x00, 0xcb, 0x7f, 0x24, 0xab,
];

#[test]
fn sums_that_are_known_elsewhere(rt: HostRuntime) {
    let known: [(&[u8], u32); 3] = [
        (b"123456789", 0xcbf43926),
        (b"", 0),
        (b"The quick brown fox jumps over the lazy dog", 0x414fa339),
    ];
    for (bytes, sum) in known {
        assert_eq!(rt; crc32(bytes), sum);
    }
}

/// Where memory was refused the call is made again: nothing had changed.
fn append_again(entry: &Entry, out: &mut Vec<u8>) -> Result<(), HistoryFault> {
    match append(entry, out) {
        Err(HistoryFault::NoMemory) => append(entry, out),
        other => other,
    }
}

/// As `append_again`.
fn put_again(parts: &mut Parts, entry: &Entry) -> Result<(), HistoryFault> {
    match parts.put(entry) {
        Err(HistoryFault::NoMemory) => parts.put(entry),
        other => other,
    }
}

/// As `append_again`.
fn roll_again(parts: &mut Parts) -> Result<(), HistoryFault> {
    match parts.roll() {
        Err(HistoryFault::NoMemory) => parts.roll(),
        other => other,
    }
}

/// As `append_again`.
fn new_again(alloc: Global, most: usize) -> Result<Parts, HistoryFault> {
    match Parts::new(alloc, most) {
        Err(HistoryFault::NoMemory) => Parts::new(alloc, most),
        other => other,
    }
}

/// The file of all entries.
fn written(alloc: Global) -> Result<Vec<u8>, Fail> {
    let mut out = Vec::from_slice(alloc, HEAD)?;
    for entry in &WRITTEN {
        append_again(entry, &mut out)?;
    }
    Ok(out)
}

#[test]
fn a_file_of_each_kind(rt: HostRuntime) -> Result<(), Fail> {
    assert_eq!(rt; written(rt.alloc())?.as_slice(), FILE.as_slice());
    Ok(())
}

/// The records of what is read of bytes behind a head, and how many entries that are.
fn again(alloc: Global, bytes: &[u8]) -> Result<(Vec<u8>, usize), HistoryFault> {
    let mut out = Vec::new(alloc);
    let mut count = 0usize;
    let mut entries = Entries::new(bytes);
    for _ in 0..bytes.len() {
        let Some(entry) = entries.next() else {
            break;
        };
        append_again(&entry, &mut out)?;
        count = count.saturating_add(1);
    }
    Ok((out, count))
}

/// How many records end at this place or before.
fn whole_before(place: usize) -> usize {
    ENDS.iter().filter(|end| **end <= place).count()
}

#[test]
fn a_file_that_is_cut_off_anywhere(rt: HostRuntime) -> Result<(), Fail> {
    for place in 0..FILE.len() {
        match head(&FILE[..place]) {
            Beginning::Head(bytes) => {
                let (records, count) = again(rt.alloc(), bytes)?;
                assert_eq!(rt; count, whole_before(place));
                assert!(rt; bytes.starts_with(records.as_slice()));
                let whole = place == HEAD.len() || ENDS.contains(&place);
                match read(&bytes[records.len().min(bytes.len())..]) {
                    Front::End => assert!(rt; whole),
                    Front::Torn => assert!(rt; !whole),
                    Front::Broken | Front::Record { .. } => assert!(rt; false),
                }
            }
            Beginning::Torn => assert!(rt; place < HEAD.len()),
            Beginning::Other => assert!(rt; false),
        }
    }
    Ok(())
}

#[test]
fn a_record_with_a_changed_byte(rt: HostRuntime) -> Result<(), Fail> {
    for place in HEAD.len()..FILE.len() {
        let mut bytes = Vec::from_slice(rt.alloc(), &FILE[HEAD.len()..])?;
        let at = place - HEAD.len();
        if at < bytes.len() {
            bytes[at] ^= 0x10;
        }
        let (_records, count) = again(rt.alloc(), bytes.as_slice())?;
        assert_eq!(rt; count, whole_before(place));
    }
    Ok(())
}

#[test]
fn a_part_rolls_over(rt: HostRuntime) -> Result<(), Fail> {
    let mut parts = new_again(rt.alloc(), 70)?;
    let mut first = Vec::new(rt.alloc());
    for entry in &WRITTEN[..2] {
        put_again(&mut parts, entry)?;
    }
    assert_eq!(rt;
        put_again(&mut parts, &WRITTEN[2]),
        Err(HistoryFault::FullPart)
    );
    assert_eq!(rt; parts.roll(), Err(HistoryFault::Unwritten));
    first.extend_from_slice(&parts.unwritten()[..5.min(parts.unwritten().len())])?;
    parts.written(5);
    first.extend_from_slice(parts.unwritten())?;
    parts.written(1000);
    assert_eq!(rt; first.as_slice(), &FILE[..ENDS[1]]);
    roll_again(&mut parts)?;
    put_again(&mut parts, &WRITTEN[2])?;
    let mut second = Vec::from_slice(rt.alloc(), HEAD)?;
    second.extend_from_slice(&FILE[ENDS[0]..ENDS[2]])?;
    assert_eq!(rt; parts.unwritten(), second.as_slice());
    Ok(())
}

/// As `append_again`.
fn find_again(parts: &mut Parts, entry: &Entry) -> Result<(), HistoryFault> {
    match parts.found(entry) {
        Err(HistoryFault::NoMemory) => parts.found(entry),
        other => other,
    }
}

#[test]
fn a_part_is_gone_on_with(rt: HostRuntime) -> Result<(), Fail> {
    let mut parts = new_again(rt.alloc(), 99)?;
    parts.written(HEAD.len());
    let mut entries = Entries::new(&FILE[HEAD.len()..ENDS[1]]);
    for _ in 0..2 {
        if let Some(entry) = entries.next() {
            find_again(&mut parts, &entry)?;
        }
    }
    assert_eq!(rt; entries.whole(), ENDS[1] - HEAD.len());
    put_again(&mut parts, &WRITTEN[2])?;
    assert_eq!(rt; parts.unwritten(), &FILE[ENDS[1]..ENDS[2]]);
    assert_eq!(rt;
        put_again(&mut parts, &WRITTEN[3]),
        Err(HistoryFault::FullPart)
    );
    Ok(())
}

#[test]
fn what_is_refused(rt: HostRuntime) -> Result<(), Fail> {
    let bytes = vec![in rt.alloc(); b'a'; 65_536]?;
    let Ok(long) = str::from_utf8(bytes.as_slice()) else {
        return Ok(());
    };
    let mut out = Vec::from_slice(rt.alloc(), b"x")?;
    let node = Entry::Node {
        node: 1,
        group: "G",
        name: long,
    };
    assert_eq!(rt; append(&node, &mut out), Err(HistoryFault::LongName));
    assert_eq!(rt; out.as_slice(), b"x".as_slice());
    assert_eq!(rt; HistoryFault::LongName.number(), 123);
    Ok(())
}
