//! A journal on a disk in memory, one of whose calls fails.

use crate::{Disk, Kept, NoDisk, Store, StoreFault, broker_of, open};
use spk_broker::Broker;
use spk_broker_notes::NotedBroker;
use spk_packets::{Packet, Request, Will};
use std::alloc::Global;
use std::test::Fail;

/// A disk in memory, and how many of its calls come before one that fails.
#[derive(Drop)]
struct Memory {
    alloc: Global,
    bytes: Vec<u8>,
    /// How many of them are on the disk.
    synced: usize,
    good: usize,
}

impl Memory {
    /// Whether this call fails.
    fn fails(&mut self) -> bool {
        let fails = self.good == 0;
        self.good = self.good.checked_sub(1).unwrap_or(usize::MAX);
        fails
    }
}

impl Disk for Memory {
    fn read(&mut self, bytes: &mut Vec<u8>) -> bool {
        !self.fails() && bytes.extend_from_slice(self.bytes.as_slice()).is_ok()
    }

    fn replace(&mut self, bytes: &[u8]) -> bool {
        if self.fails() {
            return false;
        }
        match Vec::from_slice(self.alloc, bytes) {
            Ok(copy) => {
                self.bytes = copy;
                self.synced = bytes.len();
                true
            }
            Err(_) => false,
        }
    }

    /// Where it fails a half of them may be there.
    fn append(&mut self, bytes: &[u8]) -> bool {
        if self.fails() {
            let _ = self.bytes.extend_from_slice(&bytes[..bytes.len() / 2]);
            return false;
        }
        self.bytes.extend_from_slice(bytes).is_ok()
    }

    fn sync(&mut self) -> bool {
        if self.fails() {
            return false;
        }
        self.synced = self.bytes.len();
        true
    }
}

fn disk_of(alloc: Global, bytes: Vec<u8>, good: usize) -> Memory {
    Memory {
        alloc,
        bytes,
        synced: 0,
        good,
    }
}

fn connect(alloc: Global, client: &str, clean: bool, will: Option<Will>) -> Option<Packet> {
    Some(Packet::Connect {
        client: String::from_str(alloc, client).ok()?,
        clean,
        keep: 60,
        will,
    })
}

fn will(alloc: Global) -> Option<Will> {
    Some(Will {
        topic: String::from_str(alloc, "last").ok()?,
        message: Vec::from_slice(alloc, b"gone").ok()?,
        qos: 1,
        retain: true,
    })
}

fn subscribe(alloc: Global) -> Option<Packet> {
    let mut filters = Vec::new(alloc);
    filters
        .push(Request {
            filter: String::from_str(alloc, "#").ok()?,
            qos: 1,
        })
        .ok()?;
    Some(Packet::Subscribe { id: 1, filters })
}

fn publish(alloc: Global) -> Option<Packet> {
    Some(Packet::Publish {
        dup: false,
        qos: 1,
        retain: true,
        topic: String::from_str(alloc, "level").ok()?,
        id: Some(7),
        payload: Vec::from_slice(alloc, b"1").ok()?,
    })
}

/// A client with a kept session subscribes and leaves; another one, with a retained will, publishes a retained message, and stays.
fn play(alloc: Global, broker: &mut NotedBroker) -> Option<()> {
    let first = broker.open(1).ok()?;
    let packet = connect(alloc, "kept", false, None)?;
    broker.packet(first, &packet, 1).ok()?;
    let packet = subscribe(alloc)?;
    broker.packet(first, &packet, 2).ok()?;
    broker.closed(first, 3).ok()?;
    let second = broker.open(4).ok()?;
    let packet = connect(alloc, "other", true, will(alloc))?;
    broker.packet(second, &packet, 4).ok()?;
    let packet = publish(alloc)?;
    broker.packet(second, &packet, 5).ok()?;
    Some(())
}

/// What a broker keeps: how many sessions, retained messages, and messages of the first session.
fn counts(broker: &Broker) -> (usize, usize, usize) {
    let mut messages = 0usize;
    if let Some(session) = broker.session(0) {
        for at in 0..10usize {
            if session.kept(at).is_none() {
                break;
            }
            messages = messages.saturating_add(1);
        }
    }
    (broker.sessions(), broker.retained(), messages)
}

/// Opens a journal, plays, and puts what was noted at the moment 5: what the disk has then.
fn life(alloc: Global, disk: Memory, each: bool) -> Result<Memory, StoreFault> {
    let Kept {
        mut store,
        mut broker,
        cut: _,
    } = open(alloc, disk, each)?;
    if play(alloc, &mut broker).is_none() {
        return Err(StoreFault::NoMemory);
    }
    store.put(broker.notes(), 5)?;
    broker.kept();
    store.put(broker.notes(), 6)?;
    store.sync_due(14)?;
    let early = store.disk.synced == store.disk.bytes.len();
    store.sync_due(15)?;
    store.sync()?;
    let Store { disk, .. } = store;
    if early != each {
        return Err(StoreFault::Unfit);
    }
    Ok(disk)
}

/// Whether each put is synced, which call of the disk fails, if one does, and how it goes.
static ROWS: [(bool, usize, bool); 10] = [
    (false, 0, false),
    (false, 1, false),
    (false, 2, false),
    (false, 3, false),
    (false, 4, true),
    (true, 0, false),
    (true, 1, false),
    (true, 2, false),
    (true, 3, false),
    (true, 4, true),
];

#[test]
fn a_call_of_the_disk_that_fails(rt: HostRuntime) {
    let alloc = rt.alloc();
    for (each, good, is_kept) in ROWS {
        let lived = life(alloc, disk_of(alloc, Vec::new(alloc), good), each);
        match lived {
            Ok(disk) => {
                assert!(rt; is_kept, "{each} {good}");
                assert_eq!(rt; disk.synced, disk.bytes.len());
            }
            Err(fault) => {
                assert!(rt; !is_kept, "{each} {good}");
                assert_eq!(rt; fault, StoreFault::Unkept);
            }
        }
    }
}

#[test]
fn what_was_kept_comes_back_and_whoever_was_there_is_gone(rt: HostRuntime) -> Result<(), Fail> {
    let alloc = rt.alloc();
    let mut bytes = life(alloc, disk_of(alloc, Vec::new(alloc), 9), false)?.bytes;
    bytes.extend_from_slice(b"\x05\x00\x00")?;
    let Kept { store, broker, cut } = open(alloc, disk_of(alloc, bytes, 9), true)?;
    assert_eq!(rt; cut, 3);
    assert_eq!(rt; counts(broker.broker()), (1, 2, 2));
    assert_eq!(rt; broker.notes().len(), 0);
    // what the journal begins with says the same, and nothing is cut any more
    let again = broker_of(alloc, store.disk.bytes.as_slice())?;
    assert_eq!(rt; again.cut, 0);
    assert_eq!(rt; counts(&again.broker), (1, 2, 2));
    Ok(())
}

#[test]
fn zeros_behind_a_journal_are_cut(rt: HostRuntime) -> Result<(), Fail> {
    let alloc = rt.alloc();
    let mut bytes = life(alloc, disk_of(alloc, Vec::new(alloc), 9), false)?.bytes;
    bytes.extend_from_slice(&[0; 100])?;
    let kept = broker_of(alloc, bytes.as_slice())?;
    assert_eq!(rt; kept.cut, 100);
    assert_eq!(rt; counts(&kept.broker), (1, 2, 2));
    // where something else stands behind them, nobody knows what these bytes are
    bytes.push(1)?;
    match broker_of(alloc, bytes.as_slice()) {
        Ok(_restart) => assert!(rt; false),
        Err(fault) => assert_eq!(rt; fault.number(), 139),
    }
    Ok(())
}

#[test]
fn a_journal_begins_anew(rt: HostRuntime) -> Result<(), Fail> {
    let alloc = rt.alloc();
    let broker = Broker::new(alloc, 128);
    let mut store = Store {
        disk: disk_of(alloc, Vec::new(alloc), 2),
        begun: 0,
        len: 0,
        since: None,
        each: false,
        broken: false,
    };
    store.begin(alloc, &broker)?;
    let small = store.disk.bytes.len();
    assert!(rt; !store.is_long());
    let many = Vec::from_elem(alloc, 0u8, 1_048_576usize.saturating_sub(small))?;
    store.put(many.as_slice(), 1)?;
    assert!(rt; store.is_long());
    // the next one fails, and so does each behind it, until it begins anew
    assert_eq!(rt; store.put(b"more", 2), Err(StoreFault::Unkept));
    assert_eq!(rt; store.put(b"more", 3), Err(StoreFault::Unkept));
    assert_eq!(rt; store.sync(), Err(StoreFault::Unkept));
    assert_eq!(rt; store.disk.bytes.len(), 1_048_578);
    store.begin(alloc, &broker)?;
    assert!(rt; !store.is_long());
    assert_eq!(rt; store.disk.bytes.len(), small);
    assert_eq!(rt; store.due(), None);
    Ok(())
}

#[test]
fn what_is_no_brokers_and_no_disk(rt: HostRuntime) -> Result<(), Fail> {
    let alloc = rt.alloc();
    let mut bytes = Vec::new(alloc);
    assert!(rt; spk_frames::append(b"?", 1_048_593, &mut bytes).is_ok());
    match broker_of(alloc, bytes.as_slice()) {
        Ok(_restart) => assert!(rt; false),
        Err(fault) => assert_eq!(rt; fault.number(), 139),
    }
    match open(alloc, NoDisk, false) {
        Ok(_kept) => assert!(rt; false),
        Err(fault) => assert_eq!(rt; fault.number(), 141),
    }
    Ok(())
}
