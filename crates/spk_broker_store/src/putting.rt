//! What is put behind a journal, and when it is synced.
ghost use Rattle.std.specs.Prelude.{◌≡◌, false, length, IfErr, IfOk, None, OnErr, OnOk};
ghost use Rattle.spk_broker_snapshot.specs.Lines.{lines};
ghost use Rattle.spk_broker_journal.specs.Adding.{first_refusal, records};
ghost use Rattle.spk_broker_store.specs.Fault.{IsNotBegun, IsNotWritten};
ghost use Rattle.spk_broker_store.specs.Step.{after_refusal, begun, broken, due, is_due, is_long, put, since_of, synced, synced_at};

use crate::disk::Disk;
use crate::fault::StoreFault;
use crate::store::Store;
use spk_broker::Broker;
use spk_broker_journal::append_broker;
use std::alloc::Global;

/// How late what was put is synced, in milliseconds (own rule).
const LATE: u64 = 10;

/// How many bytes a journal has at least before it begins anew (own rule).
const LONG: usize = 1_048_576;

/// How many times the bytes that it began with it has before it begins anew (own rule).
const TIMES: usize = 4;

/// What a journal begins with that keeps this broker.
fn bytes_of(alloc: Global, broker: &Broker) -> Result<Vec<u8>, StoreFault>
    ensures put { IfOk result (λ v. v.items ≡ records (lines broker.now)) }
    ensures writable { OnOk result (first_refusal (lines broker.now) ≡ None) }
    ensures refused { IfErr result (IsNotWritten (first_refusal (lines broker.now))) }
{
    let mut bytes = Vec::new(alloc);
    match append_broker(alloc, broker, &mut bytes) {
        Ok(()) => Ok(bytes),
        Err(fault) => Err(fault.into()),
    }
}

/// Since when something isn't synced, behind a put at this moment.
fn since_behind(each: bool, now: u64, since: Option<u64>) -> Option<u64>
    ensures { result ≡ since_of each now since }
{
    if each {
        return None;
    }
    match since {
        Some(first) => Some(first),
        None => Some(now),
    }
}

impl<D: Disk> Store<D> {
    /// Puts bytes behind the journal, and syncs them where each put is to be. Whether the disk did.
    fn write(&mut self, records: &[u8]) -> bool
        ensures { self.new ≡ self.old }
    {
        if !self.disk.append(records) {
            return false;
        }
        !self.each || self.disk.sync()
    }

    /// The disk failed.
    fn fail(&mut self) -> StoreFault
        ensures fault { result ≡ StoreFault.Unkept }
        ensures done { self.new ≡ broken self.old }
    {
        self.broken = true;
        StoreFault::Unkept
    }

    /// Appends records that a broker noted, and syncs them where each put is to be. Refused with Unkept (141) where the disk fails, or failed before: nothing
    /// may be answered then.
    pub fn put(&mut self, records: &[u8], now: u64) -> Result<(), StoreFault>
        ensures done { OnOk result (self.new ≡ put (length records.now) now self.old) }
        ensures whole { OnOk result (self.old.broken ≡ false) }
        ensures refused { IfErr result (λ e. e ≡ StoreFault.Unkept) }
        ensures err { OnErr result (self.new ≡ broken self.old) }
    {
        if self.broken {
            return Err(StoreFault::Unkept);
        }
        if records.is_empty() {
            return Ok(());
        }
        if !self.write(records) {
            return Err(self.fail());
        }
        self.len = self.len.saturating_add(records.len());
        self.since = since_behind(self.each, now, self.since);
        Ok(())
    }

    /// When `sync_due` is to be called at the latest: 10 milliseconds behind the first put that isn't synced (own rule). None where all is synced.
    pub fn due(&self) -> Option<u64>
        ensures { result ≡ due self.now }
    {
        match self.since {
            Some(since) => Some(since.saturating_add(LATE)),
            None => None,
        }
    }

    /// Whether something is to be synced at this moment.
    fn is_due(&self, now: u64) -> bool
        ensures { result ≡ is_due now self.now }
    {
        match self.due() {
            Some(due) => due <= now,
            None => false,
        }
    }

    /// Syncs what was put.
    fn sync_all(&mut self) -> Result<(), StoreFault>
        ensures done { OnOk result (self.new ≡ synced self.old) }
        ensures refused { IfErr result (λ e. e ≡ StoreFault.Unkept) }
        ensures err { OnErr result (self.new ≡ broken self.old) }
    {
        if !self.disk.sync() {
            return Err(self.fail());
        }
        self.since = None;
        Ok(())
    }

    /// Syncs what was put, where that is due at this moment. Refused with Unkept (141) where the disk fails, or failed before.
    pub fn sync_due(&mut self, now: u64) -> Result<(), StoreFault>
        ensures done { OnOk result (self.new ≡ synced_at now self.old) }
        ensures whole { OnOk result (self.old.broken ≡ false) }
        ensures refused { IfErr result (λ e. e ≡ StoreFault.Unkept) }
        ensures err { OnErr result (self.new ≡ broken self.old) }
    {
        if self.broken {
            return Err(StoreFault::Unkept);
        }
        if !self.is_due(now) {
            return Ok(());
        }
        self.sync_all()
    }

    /// Syncs what isn't synced, as at the end. Refused with Unkept (141) where the disk fails, or failed before.
    pub fn sync(&mut self) -> Result<(), StoreFault>
        ensures done { OnOk result (self.new ≡ synced self.old) }
        ensures whole { OnOk result (self.old.broken ≡ false) }
        ensures refused { IfErr result (λ e. e ≡ StoreFault.Unkept) }
        ensures err { OnErr result (self.new ≡ broken self.old) }
    {
        if self.broken {
            return Err(StoreFault::Unkept);
        }
        if self.since.is_none() {
            return Ok(());
        }
        self.sync_all()
    }

    /// Whether the journal is to begin anew: it has four times the bytes that it began with, and at least 1,048,576 (own rule).
    pub fn is_long(&self) -> bool
        ensures { result ≡ is_long self.now }
    {
        self.len >= LONG && self.len / TIMES >= self.begun
    }

    /// The journal begins anew with what this broker keeps now. Refused with Unfit (139) where that can't be written, else with Unkept (141) where the disk fails.
    /// Where it isn't begun for want of memory, or since it can't be written, nothing has changed.
    pub fn begin(&mut self, alloc: Global, broker: &Broker) -> Result<(), StoreFault>
        ensures done { OnOk result (self.new ≡ begun (length (records (lines broker.now))) self.old) }
        ensures writable { OnOk result (first_refusal (lines broker.now) ≡ None) }
        ensures refused { IfErr result (IsNotBegun (first_refusal (lines broker.now))) }
        ensures err { IfErr result (λ e. self.new ≡ after_refusal e self.old) }
    {
        let bytes = bytes_of(alloc, broker)?;
        if !self.disk.replace(bytes.as_slice()) {
            return Err(self.fail());
        }
        self.begun = bytes.len();
        self.len = bytes.len();
        self.since = None;
        self.broken = false;
        Ok(())
    }
}
