//! `edge`: an edge node beside a machine, whose values come as lines of standard input.

use crate::disk::Disk;
use crate::edge_core::EdgeCore;
use crate::edge_lines::write_fault;
use crate::edge_parts::EdgeParts;
use crate::fault::{ProgramFault, told};
use crate::lines::{Lines, Listener};
use crate::notes::write_note;
use crate::running::Begun;
use spk_link::Due;
use spk_network::{App, NetworkFault, Note};
use std::alloc::Global;
use std::io::Write;
use std::str;

/// How far ahead of the clock the record of the start may be before the program waits for it, in milliseconds (own rule): a record reserves five
/// seconds.
const WAIT: u64 = 6_000;

/// How long is tried to say what was kept, once standard input is over, in milliseconds (own rule).
const LAST: u64 = 30_000;

/// How long no record is tried to be kept after that failed, in milliseconds (own rule).
const REST: u64 = 1_000;

/// How often a line of progress is told, in milliseconds (own rule).
const MINUTE: u64 = 60_000;

/// How many bytes may wait to be written before neither standard input nor the connection is read (own rule).
const MANY: usize = 1_048_576;

/// How many bytes may wait to be written while kept changes are sent, as the core has it.
const LITTLE: usize = 65_536;

/// How far standard input is.
#[derive(Clone, Copy, Debug, PartialEq, Eq)]
enum Input {
    /// More may come.
    Open,
    /// It is over: what is kept is said until this moment at the latest.
    Over(u64),
    /// The node ended its session, or never had one.
    Done,
}

/// What was told so far.
#[derive(Clone, Copy, Debug, PartialEq, Eq)]
struct Counts {
    lines: u64,
    refused: u64,
    connections: u64,
}

/// The parts that lines are told to.
#[derive(Drop)]
struct Desk<C: EdgeCore, O: Write + Drop, N: Write + Drop> {
    core: C,
    out: O,
    notes: N,
    counts: Counts,
    /// No record is tried to be kept before this moment.
    rested: u64,
    /// Standard output or memory failed.
    failed: bool,
}

/// An edge node's program.
#[derive(Drop)]
pub struct EdgeProgram<C: EdgeCore, O: Write + Drop, N: Write + Drop> {
    desk: Desk<C, O, N>,
    lines: Lines,
    input: Input,
    /// No session began with the connection: it is to be closed.
    shut: bool,
    /// No connection is tried before this moment.
    begin: u64,
    /// When progress is told next; 0 before the first moment.
    report: u64,
}

impl<C: EdgeCore, O: Write + Drop, N: Write + Drop> Desk<C, O, N> {
    /// So many items, or lines, were refused.
    fn refuse(&mut self, count: u64) {
        self.counts.refused = self.counts.refused.saturating_add(count);
    }

    /// Keeps the record that is wanted, where there is one and none failed of late.
    fn keep(&mut self, now: u64) {
        if now < self.rested || !self.core.wants() {
            return;
        }
        if !self.core.keep() {
            self.rested = now.saturating_add(REST);
            let _ = writeln!(
                self.notes,
                "sparkplug: the record can't be kept: nothing is sent"
            );
        }
    }

    /// What was told and is said no longer waits.
    fn mark(&mut self) {
        let is_said = self.core.is_born() && self.core.kept() == 0;
        if is_said && self.core.unwritten().is_empty() {
            self.core.say();
        }
    }

    /// Writes what is to survive.
    fn keep_lines(&mut self, now: u64) {
        if !self.core.keep_lines(now) {
            let _ = writeln!(self.notes, "sparkplug: values and changes can't be kept");
        }
    }

    /// Writes for the last time what is to survive: where nothing is kept any more, values alone.
    fn close_file(&mut self) {
        if self.core.kept() == 0 {
            self.core.say();
        }
        self.keep_lines(u64::MAX);
    }

    /// Prints the writes that commands asked for.
    fn print(&mut self) {
        if self.core.print(&mut self.out, &mut self.notes).is_err() {
            self.failed = true;
        }
    }

    /// Tells how far it is.
    fn report(&mut self) {
        let (kept, lost) = (self.core.kept(), self.core.lost());
        let Counts {
            lines,
            refused,
            connections,
        } = self.counts;
        let _ = writeln!(
            self.notes,
            "sparkplug: lines {lines} refused {refused} kept {kept} lost {lost} connections {connections}"
        );
    }

    /// Whether the next round may send kept changes.
    fn drains(&self) -> bool {
        self.core.is_born()
            && self.core.kept() > 0
            && !self.core.wants()
            && !self.core.is_closing()
            && self.core.unwritten().len() < LITTLE
    }

    /// Tells that the input is over, and no session came.
    fn give_up(&mut self) {
        let kept = self.core.kept();
        let what = if self.core.has_file() {
            "stay kept"
        } else {
            "are lost"
        };
        let _ = writeln!(
            self.notes,
            "sparkplug: the input is over, and no session came within 30 seconds: {kept} changes {what}"
        );
        self.failed = true;
    }
}

impl<C: EdgeCore, O: Write + Drop, N: Write + Drop> Listener for Desk<C, O, N> {
    fn line(&mut self, number: u64, bytes: &[u8], now: u64) {
        self.counts.lines = self.counts.lines.saturating_add(1);
        match str::from_utf8(bytes) {
            Ok(text) if text.trim().is_empty() => {}
            Ok(text) => {
                let refused = self.core.tell(&mut self.notes, number, text, now);
                self.refuse(refused);
            }
            Err(_) => {
                self.refuse(1);
                let _ = writeln!(self.notes, "sparkplug: line {number}: it isn't UTF-8");
            }
        }
    }

    fn passed(&mut self, number: u64) {
        self.counts.lines = self.counts.lines.saturating_add(1);
        self.refuse(1);
        let _ = writeln!(
            self.notes,
            "sparkplug: line {number}: it has more than 1,048,576 bytes, or there is no memory for it"
        );
    }
}

/// Tells what of a file says nothing: so many lines, and its torn end.
fn write_passed<N: Write>(notes: &mut N, passed: u64, is_torn: bool) {
    if passed > 0 {
        let _ = writeln!(
            notes,
            "sparkplug: {passed} lines of what was kept say nothing"
        );
    }
    if is_torn {
        let _ = writeln!(
            notes,
            "sparkplug: the last line of what was kept is torn, and passed over"
        );
    }
}

impl<D: Disk, O: Write + Drop, N: Write + Drop> EdgeProgram<EdgeParts<D>, O, N> {
    /// A program that goes on from what a run begins with.
    pub fn new(
        alloc: Global,
        begun: Begun<D>,
        out: O,
        mut notes: N,
    ) -> EdgeProgram<EdgeParts<D>, O, N> {
        let Begun {
            parts,
            begin,
            passed,
            is_torn,
        } = begun;
        write_passed(&mut notes, passed, is_torn);
        EdgeProgram {
            desk: Desk {
                core: parts,
                out,
                notes,
                counts: Counts {
                    lines: 0,
                    refused: 0,
                    connections: 0,
                },
                rested: 0,
                failed: false,
            },
            lines: Lines::new(alloc),
            input: Input::Open,
            shut: false,
            begin,
            report: 0,
        }
    }

    /// Where its record is kept.
    pub fn disk(&self) -> &D {
        &self.desk.core.disk
    }

    /// Where values and kept changes survive, if they do.
    pub fn kept_disk(&self) -> Option<&D> {
        self.desk
            .core
            .journal
            .as_ref()
            .map(|journal| journal.disk())
    }
}

impl<C: EdgeCore, O: Write + Drop, N: Write + Drop> EdgeProgram<C, O, N> {
    /// How many changes are kept.
    pub fn kept(&self) -> usize {
        self.desk.core.kept()
    }

    /// What it prints on.
    pub fn out(&self) -> &O {
        &self.desk.out
    }

    /// What it tells its notes to.
    pub fn notes(&self) -> &N {
        &self.desk.notes
    }

    /// Whether the record of the start is ahead of the clock, as far as it reserved.
    fn is_early(&self, now: u64) -> bool {
        now < self.begin && self.begin.saturating_sub(now) <= WAIT
    }

    /// Standard input is over: the session ends once all that was kept is said, or its time is over.
    fn end(&mut self, until: u64, now: u64) {
        let is_born = self.desk.core.is_born();
        if is_born && self.desk.core.kept() == 0 {
            if self.desk.core.stop(now) {
                self.input = Input::Done;
            }
        } else if now >= until && !is_born {
            self.desk.give_up();
            let _ = self.desk.core.stop(now);
            self.input = Input::Done;
        }
    }

    /// A line of progress, each minute.
    fn tell(&mut self, now: u64) {
        if self.report == 0 {
            self.report = now.saturating_add(MINUTE);
        } else if now >= self.report {
            self.report = now.saturating_add(MINUTE);
            self.desk.report();
        }
    }

    /// The last lines, and the record of the end, which reserves nothing; the status. A fault that ended the loop is printed.
    pub fn finish(&mut self, ended: Result<(), NetworkFault>) -> u8 {
        self.desk.print();
        self.desk.core.settle();
        self.desk.close_file();
        self.desk.report();
        match ended {
            Err(fault) => told(&mut self.desk.out, ProgramFault::from(fault)),
            Ok(()) if self.desk.failed => 1,
            Ok(()) => 0,
        }
    }
}

impl<C: EdgeCore, O: Write + Drop, N: Write + Drop> App for EdgeProgram<C, O, N> {
    fn due(&self, _at: usize, now: u64) -> Due {
        match self.desk.core.due(now) {
            Due::Connect if self.is_early(now) || self.input == Input::Done => Due::Nothing,
            due => due,
        }
    }

    fn pause(&self, _at: usize, now: u64) -> Option<u64> {
        if self.desk.drains() {
            return Some(0);
        }
        let mut until = self.desk.core.next_due().unwrap_or(u64::MAX);
        if self.is_early(now) {
            until = until.max(self.begin);
        }
        if self.desk.core.wants() {
            until = until.min(self.desk.rested);
        }
        until = until.min(self.desk.core.next_file().unwrap_or(u64::MAX));
        if let Input::Over(last) = self.input {
            if !self.desk.core.is_born() {
                until = until.min(last);
            }
        }
        Some(until.min(self.report).saturating_sub(now))
    }

    fn opened(&mut self, _at: usize, now: u64) {
        self.desk.counts.connections = self.desk.counts.connections.saturating_add(1);
        if let Err(fault) = self.desk.core.opened(now) {
            self.shut = true;
            let _ = write!(self.desk.notes, "sparkplug: no session: ");
            write_fault(&mut self.desk.notes, fault);
        }
    }

    fn over(&mut self, _at: usize, now: u64) {
        self.shut = false;
        self.desk.core.over(now);
    }

    fn may_read(&self, _at: usize) -> bool {
        !self.shut && self.desk.core.unwritten().len() < MANY
    }

    fn read(&mut self, _at: usize, piece: &[u8], now: u64) {
        if let Err(fault) = self.desk.core.read(piece, now) {
            let _ = write!(self.desk.notes, "sparkplug: from the broker: ");
            write_fault(&mut self.desk.notes, fault);
        }
    }

    fn takes_input(&self) -> bool {
        self.input == Input::Open
            && !self.desk.core.wants()
            && self.desk.core.unwritten().len() < MANY
    }

    fn input(&mut self, piece: &[u8], now: u64) {
        self.lines.take(piece, &mut self.desk, now);
    }

    fn input_over(&mut self, now: u64) {
        self.lines.finish(&mut self.desk, now);
        self.input = Input::Over(now.saturating_add(LAST));
    }

    fn turn(&mut self, now: u64) {
        self.desk.core.moment(now);
        if let Input::Over(until) = self.input {
            self.end(until, now);
        }
        self.desk.keep(now);
        self.desk.keep_lines(now);
        self.desk.print();
        self.tell(now);
    }

    fn unwritten(&self, _at: usize) -> &[u8] {
        self.desk.core.unwritten()
    }

    fn wrote(&mut self, _at: usize, count: usize, now: u64) {
        self.desk.core.wrote(count, now);
        self.desk.mark();
    }

    fn is_closing(&self, _at: usize) -> bool {
        self.shut || (self.desk.core.is_closing() && !self.desk.core.wants())
    }

    fn is_done(&self) -> bool {
        self.input == Input::Done
    }

    fn note(&mut self, _at: usize, note: &Note) {
        let _ = write!(self.desk.notes, "sparkplug: ");
        write_note(&mut self.desk.notes, note);
    }
}
