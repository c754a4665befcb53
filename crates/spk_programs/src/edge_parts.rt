//! An edge node's core, with its names, its record and the file in which its values survive.

use crate::disk::Disk;
use crate::edge_core::EdgeCore;
use crate::edge_lines::{print_writes, tell_line};
use crate::journal::Journal;
use spk_device::Registry;
use spk_edge::Phase;
use spk_edge_app::{EdgeApp, EdgeAppFault};
use spk_link::Due;
use spk_record::Record;
use std::alloc::Global;
use std::io::{self, Write};

/// An edge node's core, the names of its metrics and devices, and its files.
#[derive(Drop)]
pub struct EdgeParts<D: Disk> {
    pub(crate) alloc: Global,
    pub(crate) app: EdgeApp,
    pub(crate) names: Registry,
    /// Where its record is.
    pub(crate) disk: D,
    /// Where values and kept changes survive.
    pub(crate) journal: Option<Journal<D>>,
}

/// Keeps a record. Whether it is kept.
fn keep_record<D: Disk>(alloc: Global, disk: &mut D, record: Record) -> bool {
    match record.encode(alloc) {
        Ok(text) => disk.keep(text.as_bytes()),
        Err(_) => false,
    }
}

impl<D: Disk> EdgeCore for EdgeParts<D> {
    fn due(&self, now: u64) -> Due {
        self.app.due(now)
    }

    fn next_due(&self) -> Option<u64> {
        self.app.next_due()
    }

    fn opened(&mut self, now: u64) -> Result<(), EdgeAppFault> {
        self.app.opened(now)
    }

    fn over(&mut self, now: u64) {
        self.app.over(now);
    }

    fn moment(&mut self, now: u64) {
        let _ = self.app.moment(now);
    }

    fn stop(&mut self, now: u64) -> bool {
        self.app.stop(now).is_ok()
    }

    fn read(&mut self, piece: &[u8], now: u64) -> Result<(), EdgeAppFault> {
        self.app.read(piece, now)
    }

    fn unwritten(&self) -> &[u8] {
        self.app.unwritten()
    }

    fn wrote(&mut self, count: usize, now: u64) {
        self.app.wrote(count, now);
    }

    fn is_closing(&self) -> bool {
        self.app.is_closing()
    }

    fn is_born(&self) -> bool {
        self.app.node().phase() == Phase::Born
    }

    fn kept(&self) -> usize {
        self.app.node().kept()
    }

    fn lost(&self) -> u64 {
        self.app.node().lost()
    }

    fn wants(&self) -> bool {
        self.app.wanted().is_some()
    }

    fn keep(&mut self) -> bool {
        let Some(record) = self.app.wanted() else {
            return true;
        };
        let is_kept = keep_record(self.alloc, &mut self.disk, record);
        if is_kept {
            self.app.keep(record);
        }
        is_kept
    }

    fn settle(&mut self) {
        let last = self.app.node().record();
        if let Some(stamp) = last.stamp {
            let record = Record { bd: last.bd, stamp };
            let _ = keep_record(self.alloc, &mut self.disk, record);
        }
    }

    fn tell<N: Write>(&mut self, notes: &mut N, number: u64, text: &str, now: u64) -> u64 {
        tell_line(
            self.alloc,
            &mut self.app,
            &self.names,
            &mut self.journal,
            notes,
            number,
            text,
            now,
        )
    }

    fn print<O: Write, N: Write>(&mut self, out: &mut O, notes: &mut N) -> io::Result<()> {
        print_writes(self.alloc, &mut self.app, &self.names, out, notes)
    }

    fn has_file(&self) -> bool {
        self.journal.is_some()
    }

    fn say(&mut self) {
        if let Some(journal) = &mut self.journal {
            journal.say();
        }
    }

    fn keep_lines(&mut self, now: u64) -> bool {
        match &mut self.journal {
            Some(journal) => journal.keep(now),
            None => true,
        }
    }

    fn next_file(&self) -> Option<u64> {
        self.journal.as_ref().and_then(|journal| journal.due())
    }
}
