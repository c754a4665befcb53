//! The broker and who is connected with it.

use crate::history::write_history;
use crate::page::write_lines;
use crate::plays::Plays;
use crate::seat::Seat;
use crate::serves::Serves;
use crate::shelf::Shelf;
use spk_server::Conn;
use std::alloc::Global;
use std::io::Write;

/// The most rounds behind one event.
const ROUNDS: u32 = 1_000_000;

/// Who plays, under a name.
#[derive(Drop)]
pub(crate) struct Part<P: Plays + Drop> {
    name: String,
    pub(crate) program: P,
    /// Its connections, by their numbers.
    pub(crate) seats: Vec<Seat>,
    /// How many bytes of what it printed, and of its notes, stand on the page.
    shown: (usize, usize),
}

/// The broker, all programs, and what was printed.
#[derive(Drop)]
pub(crate) struct Hall<S: Serves + Drop, P: Plays + Drop> {
    pub(crate) alloc: Global,
    pub(crate) server: S,
    /// There is no broker.
    pub(crate) is_down: bool,
    pub(crate) shelf: Shelf,
    pub(crate) parts: Vec<Part<P>>,
    pub(crate) now: u64,
    pub(crate) page: Vec<u8>,
    /// How many bytes go at once.
    most: usize,
    batch: Vec<u8>,
}

/// What one program printed, and told, since it was written last.
fn show<P: Plays + Drop>(page: &mut Vec<u8>, part: &mut Part<P>) -> Option<()> {
    let (shown, told) = part.shown;
    let (out, notes) = (part.program.out(), part.program.notes());
    write_lines(page, part.name.as_str(), ">", out.get(shown..)?)?;
    write_lines(page, part.name.as_str(), "!", notes.get(told..)?)?;
    part.shown = (out.len(), notes.len());
    Some(())
}

/// A program is gone, and its files are what is on the shelf.
pub(crate) fn leave<P: Plays + Drop>(part: &mut Part<P>, shelf: &mut Shelf) -> Option<()> {
    part.program.put_back(shelf)?;
    part.program = P::gone();
    part.seats.clear();
    part.shown = (0, 0);
    Some(())
}

/// What the broker writes to one client goes into its pipe, if it is there.
fn hand<S: Serves, P: Plays + Drop>(
    server: &mut S,
    conn: Conn,
    mut part: Option<&mut Part<P>>,
    at: usize,
    batch: &mut Vec<u8>,
) -> Option<()> {
    for _ in 0..ROUNDS {
        batch.clear();
        server.gather(conn, batch);
        let count = batch.len();
        if count == 0 {
            break;
        }
        if let Some(part) = &mut part {
            if let Some(seat) = part.seats.get_mut(at) {
                seat.pipe.extend_from_slice(batch.as_slice()).ok()?;
            }
        }
        server.wrote(conn, count)?;
    }
    Some(())
}

/// Whose a connection is, and which of its connections, past the last ones where nobody has it.
fn places_of<P: Plays + Drop>(parts: &Vec<Part<P>>, conn: Conn) -> (usize, usize) {
    for (place, part) in parts.iter().enumerate() {
        let found = part.seats.iter().position(|seat| seat.conn == Some(conn));
        if let Some(at) = found {
            return (place, at);
        }
    }
    (usize::MAX, usize::MAX)
}

impl<S: Serves + Drop, P: Plays + Drop> Hall<S, P> {
    pub(crate) fn new(alloc: Global, most: usize) -> Option<Hall<S, P>> {
        let batch = Vec::with_capacity(alloc, 65_536).ok()?;
        Some(Hall {
            alloc,
            server: S::fresh(alloc),
            is_down: false,
            shelf: Shelf::new(alloc),
            parts: Vec::new(alloc),
            now: 0,
            page: Vec::new(alloc),
            most,
            batch,
        })
    }

    /// The place of a name.
    pub(crate) fn place_of(&self, name: &str) -> Option<usize> {
        self.parts
            .iter()
            .position(|part| part.name.as_str() == name)
    }

    /// Who has a name.
    pub(crate) fn part(&mut self, name: &str) -> Option<&mut Part<P>> {
        let place = self.place_of(name)?;
        self.parts.get_mut(place)
    }

    /// Somebody comes under a name that nobody has.
    fn add(&mut self, name: &str, program: P) -> Option<()> {
        let Ok(name) = String::from_str(self.alloc, name) else {
            return None;
        };
        let part = Part {
            name,
            seats: program.seats(self.alloc)?,
            program,
            shown: (0, 0),
        };
        self.parts.push(part).ok()
    }

    /// Somebody comes, in place of who had the name and is gone, if anybody did.
    pub(crate) fn enter(&mut self, name: &str, program: P) -> Option<()> {
        let alloc = self.alloc;
        match self.part(name) {
            Some(part) if part.program.is_gone() => {
                part.seats = program.seats(alloc)?;
                part.program = program;
                Some(())
            }
            Some(_) => None,
            None => self.add(name, program),
        }
    }

    /// Writes what a file says.
    pub(crate) fn read(&mut self, name: &str) -> Option<()> {
        write_lines(&mut self.page, name, ":", self.shelf.text(name)?)
    }

    /// The entries of a part of a history come to the page.
    pub(crate) fn history(&mut self, name: &str) -> Option<()> {
        let mut lines = Vec::new(self.alloc);
        write_history(self.alloc, &mut lines, self.shelf.text(name)?)?;
        write_lines(&mut self.page, name, ":", lines.as_slice())
    }

    /// What the broker writes is handed on: whether something moved.
    fn hand_all(&mut self) -> Option<bool> {
        let mut has_moved = false;
        for _ in 0..ROUNDS {
            let Some(conn) = self.server.next_to_write() else {
                break;
            };
            let (place, at) = places_of(&self.parts, conn);
            let part = self.parts.get_mut(place);
            hand(&mut self.server, conn, part, at, &mut self.batch)?;
            has_moved = true;
        }
        Some(has_moved)
    }

    /// Whom the broker closes is told: whether something moved.
    fn shut_all(&mut self) -> bool {
        let mut has_moved = false;
        for _ in 0..ROUNDS {
            let Some(conn) = self.server.next_to_shut() else {
                break;
            };
            let (place, at) = places_of(&self.parts, conn);
            if let Some(part) = self.parts.get_mut(place) {
                if let Some(seat) = part.seats.get_mut(at) {
                    seat.is_shut = true;
                }
            }
            has_moved = true;
        }
        has_moved
    }

    /// Each program has a round: whether something moved.
    fn play_all(&mut self) -> Option<bool> {
        let mut has_moved = false;
        for part in &mut self.parts {
            let moves = if self.is_down {
                part.program.round_alone(self.now)
            } else {
                part.program.round(
                    part.seats.as_mut_slice(),
                    &mut self.server,
                    self.most,
                    self.now,
                )?
            };
            has_moved = has_moved || moves;
        }
        Some(has_moved)
    }

    /// A round of all: whether something moved.
    fn round(&mut self) -> Option<bool> {
        let hands = self.hand_all()?;
        let shuts = self.shut_all();
        let plays = self.play_all()?;
        self.server.go_on(self.now)?;
        Some(hands || shuts || plays)
    }

    /// Writes what the program at a place printed since, and its notes.
    fn show(&mut self, place: usize) -> Option<()> {
        match self.parts.get_mut(place) {
            Some(part) => show(&mut self.page, part),
            None => Some(()),
        }
    }

    /// A program that is to end, and has no connection any more, ends.
    fn end(&mut self, place: usize) -> Option<()> {
        let Some(part) = self.parts.get_mut(place) else {
            return Some(());
        };
        let is_on = part.seats.iter().any(|seat| seat.conn.is_some());
        if !part.program.is_done() || is_on {
            return Some(());
        }
        let status = part.program.finish();
        show(&mut self.page, part)?;
        leave(part, &mut self.shelf)?;
        writeln!(self.page, "{} ended with status {status}", part.name).ok()
    }

    /// Rounds until nothing moves any more.
    fn rest(&mut self) -> Option<()> {
        let mut quiet = 0u32;
        for _ in 0..ROUNDS {
            let moves = self.round()?;
            quiet = if moves { 0 } else { quiet.saturating_add(1) };
            if quiet == 3 {
                break;
            }
        }
        Some(())
    }

    /// The clock goes on.
    pub(crate) fn pass(&mut self, now: u64) -> Option<()> {
        self.now = now;
        self.server.moment(now)?;
        self.rest()
    }

    /// Rounds until nothing moves any more, and what came of them on the page.
    pub(crate) fn settle(&mut self) -> Option<()> {
        self.rest()?;
        for place in 0..self.parts.len() {
            self.show(place)?;
            self.end(place)?;
        }
        Some(())
    }
}
