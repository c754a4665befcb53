//! `host`: a host application that prints what it consumes, and what is current, or draws a board of its nodes.

use crate::fault::{ProgramFault, told};
use crate::host_core::{Heard, HostCore};
use crate::notes::write_note;
use spk_host_app::HostAppFault;
use spk_link::Due;
use spk_network::{App, NetworkFault, Note, Seen};
use spk_page::{Asked, Client};
use spk_sequence::Step;
use std::io::{self, Write};

/// How often the host is told the moment while it has a connection, in milliseconds (own rule).
const TICK: u64 = 100;

/// How late it may be told before it may be the reader that was too slow, in milliseconds (own rule).
const LATE: u64 = 2_000;

/// How often a line of progress is told, in milliseconds (own rule).
const MINUTE: u64 = 60_000;

/// How many bytes may wait to be written before nothing is read (own rule).
const MANY: usize = 1_048_576;

/// A group that is followed, and how its host's connection stands.
#[derive(Drop)]
pub struct Followed {
    group: String,
    /// The nodes that are asked for a rebirth once the host's subscription is granted.
    asks: Vec<String>,
    /// There is a connection.
    open: bool,
    /// No session began with it: it is to be closed.
    shut: bool,
}

impl Followed {
    /// A group, and the nodes that are asked for a rebirth at the start of each of its host's sessions.
    pub fn new(group: String, asks: Vec<String>) -> Followed {
        Followed {
            group,
            asks,
            open: false,
            shut: false,
        }
    }
}

/// Begins a note: of the host of the group at a place, where there are several.
fn write_head<N: Write>(notes: &mut N, groups: &[Followed], at: usize) {
    let _ = match groups.get(at) {
        Some(followed) if groups.len() > 1 => {
            write!(notes, "sparkplug: group {}: ", followed.group)
        }
        _ => write!(notes, "sparkplug: "),
    };
}

/// What was told so far.
#[derive(Clone, Copy, Debug, PartialEq, Eq)]
struct Counts {
    consumed: u64,
    dropped: u64,
    refused: u64,
    gaps: u64,
    connections: u64,
}

/// The program of hosts, each of a group.
#[derive(Drop)]
pub struct HostProgram<C: HostCore, O: Write + Drop, N: Write + Drop> {
    core: C,
    /// The groups, by the numbers of their hosts.
    groups: Vec<Followed>,
    out: O,
    notes: N,
    counts: Counts,
    /// How many messages are still to be consumed before it ends; None where it doesn't.
    left: Option<u64>,
    /// When it is looked next who is silent.
    look: u64,
    /// Its last moment.
    last: u64,
    /// When progress is told next; 0 before the first moment.
    report: u64,
    /// It is to end.
    done: bool,
    /// Standard output, memory or the history failed.
    failed: bool,
    /// What is to be written of the history couldn't be.
    waits: bool,
}

impl<C: HostCore, O: Write + Drop, N: Write + Drop> HostProgram<C, O, N> {
    /// A program that ends once so many messages were consumed, or never. The groups are those of the core's hosts, in their order.
    pub fn new(
        core: C,
        count: Option<u64>,
        groups: Vec<Followed>,
        out: O,
        notes: N,
    ) -> HostProgram<C, O, N> {
        HostProgram {
            core,
            groups,
            out,
            notes,
            counts: Counts {
                consumed: 0,
                dropped: 0,
                refused: 0,
                gaps: 0,
                connections: 0,
            },
            left: count,
            look: 0,
            last: 0,
            report: 0,
            done: false,
            failed: false,
            waits: false,
        }
    }

    /// What it runs.
    pub fn core(&self) -> &C {
        &self.core
    }

    /// What it prints on.
    pub fn out(&self) -> &O {
        &self.out
    }

    /// What it tells its notes to.
    pub fn notes(&self) -> &N {
        &self.notes
    }

    /// Whether a host has a connection.
    fn is_open(&self, at: usize) -> bool {
        self.groups.get(at).is_some_and(|followed| followed.open)
    }

    /// How many hosts have a connection.
    fn count_open(&self) -> usize {
        let mut count: usize = 0;
        for followed in &self.groups {
            if followed.open {
                count = count.saturating_add(1);
            }
        }
        count
    }

    /// Each host's session ends, with a farewell where there is one.
    fn stop_all(&mut self, now: u64) {
        for at in 0..self.core.hosts() {
            self.core.stop(at, now);
        }
    }

    /// It ends, with a farewell where there is a session.
    fn end(&mut self, now: u64) {
        self.done = true;
        self.stop_all(now);
    }

    /// Lines were written, or weren't.
    fn check(&mut self, written: io::Result<()>, now: u64) {
        if written.is_err() && !self.failed {
            self.failed = true;
            self.end(now);
        }
    }

    /// Something came to the history, or couldn't.
    fn check_history(&mut self, kept: io::Result<()>, now: u64) {
        if kept.is_err() && !self.failed {
            let _ = writeln!(self.notes, "sparkplug: the history can't be kept");
            self.failed = true;
            self.end(now);
        }
    }

    /// Writes what is to be written of the history, and tells where that fails, and where it does no more.
    fn turn_history(&mut self, now: u64) {
        let waits = !self.core.turn_history(now);
        if waits != self.waits {
            self.waits = waits;
            let told = if waits {
                "can't be written, and waits"
            } else {
                "is written again"
            };
            let _ = writeln!(self.notes, "sparkplug: the history {told}");
        }
    }

    /// Hands on what was printed.
    fn flush(&mut self, now: u64) {
        let written = self.out.flush();
        self.check(written, now);
    }

    /// Draws the board, if there is one.
    fn draw(&mut self, now: u64) {
        if !self.failed {
            let written = self.core.draw(&mut self.out, now);
            self.check(written, now);
        }
    }

    /// When the board is drawn next, if there is one and the program isn't to end.
    fn next_board(&self) -> Option<u64> {
        if self.done {
            None
        } else {
            self.core.next_board()
        }
    }

    /// Tells the board and the page whether each connection stands.
    fn show_connections(&mut self, now: u64) {
        let are_open = self.count_open() == self.groups.len();
        let told = self.core.connect(are_open, now);
        self.check(told, now);
    }

    /// One of the messages that are still to be consumed was. Behind the last of them a board is drawn once more.
    fn count_down(&mut self, now: u64) {
        self.counts.consumed = self.counts.consumed.saturating_add(1);
        if let Some(left) = &mut self.left {
            *left = left.saturating_sub(1);
        }
        if self.left == Some(0) {
            self.draw(now);
            self.end(now);
        }
    }

    /// What became of a message that came, or a gap, is counted.
    fn count_step(&mut self, step: Step) {
        match step {
            Step::Gap => self.counts.gaps = self.counts.gaps.saturating_add(1),
            Step::Old | Step::OldBirth | Step::DeadSession | Step::NotLive => {
                self.counts.dropped = self.counts.dropped.saturating_add(1);
            }
            Step::Consumed(_) | Step::Held => {}
        }
    }

    /// The node at a place of those of a group that are to be asked for a rebirth is. Whether the next one may be.
    fn ask(&mut self, at: usize, place: usize, now: u64) -> bool {
        let Some(followed) = self.groups.get(at) else {
            return false;
        };
        let Some(node) = followed.asks.get(place) else {
            return false;
        };
        match self
            .core
            .ask(at, followed.group.as_str(), node.as_str(), now)
        {
            Ok(true) => true,
            Ok(false) => {
                write_head(&mut self.notes, self.groups.as_slice(), at);
                let _ = writeln!(self.notes, "{node} can't be asked for a rebirth");
                true
            }
            Err(fault) => {
                self.fault(at, fault);
                false
            }
        }
    }

    /// A subscription is granted: the nodes of the group that are to be asked for a rebirth are.
    fn ask_all(&mut self, at: usize, now: u64) {
        let count = match self.groups.get(at) {
            Some(followed) => followed.asks.len(),
            None => 0,
        };
        for place in 0..count {
            if !self.ask(at, place, now) {
                return;
            }
        }
    }

    /// What a word is to the program itself, which showed it.
    fn follow(&mut self, at: usize, heard: Heard, now: u64) {
        match heard {
            Heard::Consumed if self.left != Some(0) => self.count_down(now),
            Heard::Step(step) => self.count_step(step),
            Heard::Granted => self.ask_all(at, now),
            Heard::Refused => self.counts.refused = self.counts.refused.saturating_add(1),
            Heard::Consumed | Heard::Other => {}
        }
    }

    /// A word is shown. Where enough was consumed, what is consumed then is no line.
    fn show_word(&mut self, at: usize, said: &C::Said, now: u64) {
        let kept = self.core.keep(at, said, now);
        self.check_history(kept, now);
        let told = self.core.tell_page(at, said, now);
        self.check(told, now);
        let heard = C::heard(said);
        let is_enough = heard == Heard::Consumed && self.left == Some(0);
        if !is_enough || self.core.has_board() {
            let written = self.core.tell(&mut self.out, at, said, now);
            self.check(written, now);
        }
        self.follow(at, heard, now);
    }

    /// Shows what a host has to be shown.
    fn show_all(&mut self, at: usize, now: u64) {
        for _ in 0..u64::MAX {
            let Some(said) = self.core.next_said(at) else {
                break;
            };
            if !self.failed {
                self.show_word(at, &said, now);
            }
        }
    }

    /// Tells of a fault of a connection.
    fn fault(&mut self, at: usize, fault: HostAppFault) {
        let number = fault.number();
        write_head(&mut self.notes, self.groups.as_slice(), at);
        let _ = writeln!(self.notes, "the session is given up: {fault} ({number})");
    }

    /// Takes the packets that were read, and shows what comes of each.
    fn hear_all(&mut self, at: usize, now: u64) {
        for _ in 0..u64::MAX {
            match self.core.hear(at, now) {
                Ok(true) => self.show_all(at, now),
                Ok(false) => return,
                Err(fault) => {
                    self.fault(at, fault);
                    self.show_all(at, now);
                    return;
                }
            }
        }
    }

    /// Where it was told the moment too late, it may be the reader that was too slow, and what a broker dropped can't be told from order: the session of
    /// a host that has a connection ends, and another begins.
    fn renew(&mut self, at: usize, now: u64) {
        if self.is_open(at) && !self.core.is_closing(at) {
            write_head(&mut self.notes, self.groups.as_slice(), at);
            let _ = writeln!(
                self.notes,
                "it read too late: the session ends, and another begins"
            );
            self.core.stop(at, now);
        }
    }

    /// The same of each host, where it was told the moment too late.
    fn renew_if_late(&mut self, now: u64) {
        let late = now > self.last.saturating_add(TICK + LATE);
        if late {
            for at in 0..self.core.hosts() {
                self.renew(at, now);
            }
        }
        self.last = now;
    }

    /// A moment comes to a host.
    fn turn_host(&mut self, at: usize, now: u64) {
        if let Err(fault) = self.core.moment(at, now) {
            self.fault(at, fault);
        }
        self.show_all(at, now);
    }

    /// Looks who is silent, now and then.
    fn look(&mut self, now: u64) {
        if now < self.look || self.failed {
            return;
        }
        self.look = now.saturating_add(TICK);
        let written = self.core.tell_silence(&mut self.out, now);
        self.check(written, now);
    }

    /// Tells how far it is.
    fn report(&mut self) {
        let Counts {
            consumed,
            dropped,
            refused,
            gaps,
            connections,
        } = self.counts;
        let _ = writeln!(
            self.notes,
            "sparkplug: consumed {consumed} dropped {dropped} refused {refused} gaps {gaps} connections {connections}"
        );
    }

    /// A line of progress, each minute.
    fn tell_progress(&mut self, now: u64) {
        if self.report == 0 {
            self.report = now.saturating_add(MINUTE);
        } else if now >= self.report {
            self.report = now.saturating_add(MINUTE);
            self.report();
        }
    }

    /// The last lines, and the status. A fault that ended the loop is printed.
    pub fn finish(&mut self, ended: Result<(), NetworkFault>) -> u8 {
        if self.out.flush().is_err() {
            self.failed = true;
        }
        if !self.core.close_history() {
            let _ = writeln!(
                self.notes,
                "sparkplug: the end of the history isn't on the disk"
            );
            self.failed = true;
        }
        self.report();
        match ended {
            Err(fault) => told(&mut self.out, ProgramFault::from(fault)),
            Ok(()) if self.failed => 1,
            Ok(()) => 0,
        }
    }
}

impl<C: HostCore, O: Write + Drop, N: Write + Drop> App for HostProgram<C, O, N> {
    fn connections(&self) -> usize {
        self.core.hosts()
    }

    fn due(&self, at: usize, now: u64) -> Due {
        match self.core.due(at, now) {
            Due::Connect if self.done => Due::Nothing,
            due => due,
        }
    }

    fn pause(&self, at: usize, now: u64) -> Option<u64> {
        let mut until = self.core.next_due(at).unwrap_or(u64::MAX);
        if self.is_open(at) {
            until = until.min(self.last.saturating_add(TICK));
        } else if self.done {
            return None;
        }
        Some(until.saturating_sub(now))
    }

    fn rest(&self, now: u64) -> Option<u64> {
        let mut until = self.report;
        until = until.min(self.next_board().unwrap_or(u64::MAX));
        until = until.min(self.core.next_page().unwrap_or(u64::MAX));
        until = until.min(self.core.next_history().unwrap_or(u64::MAX));
        Some(until.saturating_sub(now))
    }

    fn opened(&mut self, at: usize, now: u64) {
        if self.count_open() == 0 {
            self.last = now;
        }
        if let Some(followed) = self.groups.get_mut(at) {
            followed.open = true;
        }
        self.show_connections(now);
        self.counts.connections = self.counts.connections.saturating_add(1);
        match self.core.opened(at, now) {
            Ok(()) => {
                let kept = self.core.keep_session(at, now);
                self.check_history(kept, now);
            }
            Err(fault) => {
                if let Some(followed) = self.groups.get_mut(at) {
                    followed.shut = true;
                }
                self.fault(at, fault);
            }
        }
    }

    fn over(&mut self, at: usize, now: u64) {
        if let Some(followed) = self.groups.get_mut(at) {
            followed.open = false;
            followed.shut = false;
        }
        self.show_connections(now);
        self.core.over(at, now);
        self.show_all(at, now);
        self.flush(now);
    }

    fn may_read(&self, at: usize) -> bool {
        let is_shut = self.groups.get(at).is_some_and(|followed| followed.shut);
        !self.done && !is_shut && self.core.unwritten(at).len() < MANY
    }

    fn read(&mut self, at: usize, piece: &[u8], now: u64) {
        self.renew_if_late(now);
        match self.core.feed(at, piece, now) {
            Ok(()) => self.hear_all(at, now),
            Err(fault) => self.fault(at, fault),
        }
    }

    fn takes_input(&self) -> bool {
        false
    }

    fn input(&mut self, _piece: &[u8], _now: u64) {}

    fn input_over(&mut self, _now: u64) {}

    fn turn(&mut self, now: u64) {
        self.renew_if_late(now);
        for at in 0..self.core.hosts() {
            self.turn_host(at, now);
        }
        self.look(now);
        self.core.turn_page(now);
        self.turn_history(now);
        self.tell_progress(now);
        if self.next_board().is_some_and(|due| now >= due) {
            self.draw(now);
        }
        self.flush(now);
    }

    fn unwritten(&self, at: usize) -> &[u8] {
        self.core.unwritten(at)
    }

    fn wrote(&mut self, at: usize, count: usize, now: u64) {
        self.core.wrote(at, count, now);
    }

    fn is_closing(&self, at: usize) -> bool {
        let is_shut = self.groups.get(at).is_some_and(|followed| followed.shut);
        is_shut || self.done || self.core.is_closing(at)
    }

    fn is_done(&self) -> bool {
        self.done
    }

    fn note(&mut self, at: usize, note: &Note) {
        write_head(&mut self.notes, self.groups.as_slice(), at);
        write_note(&mut self.notes, note);
    }

    fn page_port(&self) -> Option<u16> {
        self.core.page_port()
    }

    fn show(&mut self, asked: Asked, client: &mut Client, _seen: &mut Seen, now: u64) {
        self.core.show(asked, client, now);
    }

    fn has_news(&self, seen: &Seen) -> bool {
        self.core.has_news(seen)
    }

    fn tell(&mut self, client: &mut Client, seen: &mut Seen, now: u64) -> bool {
        self.core.tell_client(client, seen, now)
    }
}
