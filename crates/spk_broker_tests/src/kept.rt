//! A broker that is read again of the bytes that it is kept as goes on as it did, whatever front of them is left.
use crate::again::{AFTER, BEFORE, Step, alike, bytes, does, text};
use crate::broker::Talks;
use spk_broker::{Broker, PartFault};
use spk_broker_events::{Event, Kind, Line, append, append_line};
use spk_broker_journal::{append_broker, ended, replay};
use spk_packets::{Packet, PacketFault};
use std::alloc::{AllocError, Global};
use std::mem::replace;
use std::test::Fail;

/// How many records the broker behind `BEFORE` has: the numbers, a connection without CONNECT; of the session that is away itself, a grant, two
/// identifiers, the last one and two messages; of the other one itself, its connection, two grants, two identifiers and the last one; two retained messages.
const RECORDS: usize = 18;

fn put<T>(done: Result<T, PacketFault>) -> Result<T, AllocError> {
    match done {
        Ok(it) => Ok(it),
        Err(_fault) => Err(AllocError),
    }
}

/// What the tests ask of a broker that is kept. They are written over any type that answers it, since a function over a type parameter is proved
/// without the parts of a broker.
trait Kept: Talks {
    /// Its bytes.
    fn bytes(&self, alloc: Global) -> Result<Vec<u8>, AllocError>;

    /// The broker that bytes say, in place of this one. How many of them were read; none where they don't fit.
    fn read(&mut self, alloc: Global, from: &[u8]) -> Result<Option<usize>, AllocError>;

    /// All its connections end.
    fn end(&mut self, alloc: Global) -> Result<(), AllocError>;
}

impl Kept for Broker {
    fn bytes(&self, alloc: Global) -> Result<Vec<u8>, AllocError> {
        let mut kept = Vec::new(alloc);
        put(append_broker(alloc, self, &mut kept))?;
        Ok(kept)
    }

    fn read(&mut self, alloc: Global, from: &[u8]) -> Result<Option<usize>, AllocError> {
        match replay(alloc, 128, from) {
            Ok(replayed) => {
                *self = replayed.broker;
                Ok(Some(replayed.whole))
            }
            Err(PartFault::NoMemory) => Err(AllocError),
            Err(PartFault::Unfit) => Ok(None),
        }
    }

    fn end(&mut self, alloc: Global) -> Result<(), AllocError> {
        let broker = replace(self, Broker::new(alloc, 128));
        *self = ended(alloc, broker)?;
        Ok(())
    }
}

fn play(alloc: Global, broker: &mut impl Talks) -> Result<(), AllocError> {
    for step in BEFORE {
        does(alloc, broker, step)?;
    }
    Ok(())
}

/// A broker, and one that is read again of its bytes.
fn goes_on(
    alloc: Global,
    broker: &mut impl Kept,
    copy: &mut impl Kept,
) -> Result<(usize, usize), AllocError> {
    play(alloc, broker)?;
    let kept = broker.bytes(alloc)?;
    match copy.read(alloc, &kept)? {
        Some(_whole) => alike(alloc, broker, copy),
        None => Ok((0, 0)),
    }
}

#[test]
fn a_broker_read_again_of_its_bytes_goes_on_as_it_did(rt: HostRuntime) -> Result<(), Fail> {
    let alloc = rt.alloc();
    let (same, sent) = goes_on(
        alloc,
        &mut Broker::new(alloc, 128),
        &mut Broker::new(alloc, 128),
    )?;
    assert_eq!(rt; same, AFTER.len());
    assert_eq!(rt; sent, 19);
    Ok(())
}

/// Of all fronts of a journal: how many are read, and how many of these to their last byte.
fn fronts(
    alloc: Global,
    broker: &mut impl Kept,
    copy: &mut impl Kept,
) -> Result<(usize, usize, usize), AllocError> {
    play(alloc, broker)?;
    let kept = broker.bytes(alloc)?;
    let mut are_read = 0_usize;
    let mut are_whole = 0_usize;
    for len in 0..kept.len() {
        if let Some(whole) = copy.read(alloc, &kept[..len])? {
            are_read = are_read.saturating_add(1);
            if whole == len {
                are_whole = are_whole.saturating_add(1);
            }
        }
    }
    Ok((kept.len(), are_read, are_whole))
}

#[test]
fn each_front_of_a_journal_is_read(rt: HostRuntime) -> Result<(), Fail> {
    let alloc = rt.alloc();
    let (all, are_read, are_whole) = fronts(
        alloc,
        &mut Broker::new(alloc, 128),
        &mut Broker::new(alloc, 128),
    )?;
    assert_eq!(rt; are_read, all);
    assert_eq!(rt; are_whole, RECORDS);
    Ok(())
}

/// The end of connection 2, whose will is retained, behind the broker's lines.
fn with_an_end(
    alloc: Global,
    broker: &mut impl Kept,
    copy: &mut impl Kept,
) -> Result<(usize, usize), AllocError> {
    play(alloc, broker)?;
    let mut kept = broker.bytes(alloc)?;
    put(append(alloc, &Event::Closed { conn: 2, moment: 0 }, &mut kept))?;
    does(alloc, broker, Step::Close(2))?;
    match copy.read(alloc, &kept)? {
        Some(_whole) => alike(alloc, broker, copy),
        None => Ok((0, 0)),
    }
}

#[test]
fn an_event_behind_the_lines_comes_again(rt: HostRuntime) -> Result<(), Fail> {
    let alloc = rt.alloc();
    let (same, sent) = with_an_end(
        alloc,
        &mut Broker::new(alloc, 128),
        &mut Broker::new(alloc, 128),
    )?;
    assert_eq!(rt; same, AFTER.len());
    assert_eq!(rt; sent, 17);
    Ok(())
}

/// A broker whose connections ended, and one that is read again and ends them.
fn restarts(
    alloc: Global,
    broker: &mut impl Kept,
    copy: &mut impl Kept,
) -> Result<(usize, usize), AllocError> {
    play(alloc, broker)?;
    let kept = broker.bytes(alloc)?;
    does(alloc, broker, Step::Close(3))?;
    does(alloc, broker, Step::Close(2))?;
    copy.read(alloc, &kept)?;
    copy.end(alloc)?;
    alike(alloc, broker, copy)
}

#[test]
fn a_restart_ends_all_connections_with_their_wills(rt: HostRuntime) -> Result<(), Fail> {
    let alloc = rt.alloc();
    let (same, sent) = restarts(
        alloc,
        &mut Broker::new(alloc, 128),
        &mut Broker::new(alloc, 128),
    )?;
    assert_eq!(rt; same, AFTER.len());
    assert_eq!(rt; sent, 8);
    Ok(())
}

/// Whether a line behind a session of the client `a` is read.
fn takes(alloc: Global, copy: &mut impl Kept, line: &Line) -> Result<bool, AllocError> {
    let mut kept = Vec::new(alloc);
    let numbers = Line {
        kind: Kind::Numbers,
        first: 3,
        second: 1,
        packet: None,
    };
    let session = Line {
        kind: Kind::Session,
        first: 1,
        second: 0,
        packet: Some(Packet::Connect {
            client: text(alloc, "a")?,
            clean: false,
            keep: 0,
            will: None,
        }),
    };
    put(append_line(alloc, &numbers, &mut kept))?;
    put(append_line(alloc, &session, &mut kept))?;
    put(append_line(alloc, line, &mut kept))?;
    Ok(copy.read(alloc, &kept)?.is_some())
}

fn number(kind: Kind, first: u64) -> Line {
    Line {
        kind,
        first,
        second: 0,
        packet: None,
    }
}

fn message(alloc: Global, kind: Kind, id: Option<u16>) -> Result<Line, AllocError> {
    Ok(Line {
        kind,
        first: 0,
        second: 0,
        packet: Some(Packet::Publish {
            dup: false,
            qos: if id.is_some() { 1 } else { 0 },
            retain: false,
            topic: text(alloc, "t")?,
            id,
            payload: bytes(alloc, b"7")?,
        }),
    })
}

/// Lines of a broker that was made by nobody.
fn lines(alloc: Global, copy: &mut impl Kept) -> Result<[bool; 10], AllocError> {
    Ok([
        takes(alloc, copy, &number(Kind::InUse, 65_535))?,
        takes(alloc, copy, &number(Kind::InUse, 65_537))?,
        takes(alloc, copy, &number(Kind::InUse, 0))?,
        takes(alloc, copy, &number(Kind::Last, 65_536))?,
        takes(alloc, copy, &number(Kind::Sits, 3))?,
        takes(alloc, copy, &number(Kind::Session, 2))?,
        takes(alloc, copy, &number(Kind::Grant, 0))?,
        takes(alloc, copy, &message(alloc, Kind::Unacknowledged, Some(7))?)?,
        takes(alloc, copy, &message(alloc, Kind::Unacknowledged, None)?)?,
        takes(alloc, copy, &message(alloc, Kind::Retained, None)?)?,
    ])
}

#[test]
fn a_line_that_no_broker_has_is_refused(rt: HostRuntime) -> Result<(), Fail> {
    let alloc = rt.alloc();
    assert_eq!(rt;
        lines(alloc, &mut Broker::new(alloc, 128))?,
        [
            true, false, false, false, true, false, false, true, false, true
        ]
    );
    Ok(())
}
