//! The history of a host's program: what is kept of its words, and the disk on which its parts are. Which events a word makes is `spk_host_history`'s.

use crate::hosts::Seating;
use crate::known::Nodes;
use crate::part_disk::PartDisk;
use crate::watched;
use spk_board::{Board, Screen};
use spk_historian::Node;
use spk_history::HistoryFault;
use spk_host::Entry;
use spk_host_app::Said;
use spk_host_history::HostHistory;
use spk_sequence::Step;
use std::alloc::Global;
use std::io::{self, ErrorKind};

/// How often what was written is synced, and how long it isn't tried to be written after that failed, in milliseconds (own rule).
const SYNC: u64 = 1_000;

/// The history of a host's program, and where its parts are.
#[derive(Drop)]
pub struct History<P: PartDisk> {
    history: HostHistory,
    disk: P,
    /// It keeps the stories, by which gaps, deaths and holes are told.
    board: Board,
    /// The part that is written is begun on the disk.
    begun: bool,
    /// Something was written since the last sync.
    unsynced: bool,
    /// When it is synced next.
    sync: u64,
    /// It isn't tried to be written before this moment.
    rested: u64,
    /// The last try to write failed.
    failing: bool,
}

/// What a history is refused for, as what a program ends for.
fn ended(told: Result<(), HistoryFault>) -> io::Result<()> {
    match told {
        Ok(()) => Ok(()),
        Err(HistoryFault::NoMemory) => Err(io::Error::from(ErrorKind::OutOfMemory)),
        Err(_) => Err(io::Error::from(ErrorKind::InvalidData)),
    }
}

/// The number of the node at a place.
fn number_at(place: Option<usize>) -> io::Result<u32> {
    match place.and_then(|place| u32::try_from(place).ok()) {
        Some(number) => Ok(number),
        None => Err(io::Error::from(ErrorKind::InvalidData)),
    }
}

impl<P: PartDisk> History<P> {
    /// The history of a host of this group, in parts of this many bytes at most.
    pub fn new(
        alloc: Global,
        disk: P,
        most: usize,
        group: String,
    ) -> Result<History<P>, HistoryFault> {
        let history = HostHistory::new(alloc, most)?;
        Ok(History {
            history,
            disk,
            board: Board::new(alloc, group, Screen::Plain),
            begun: false,
            unsynced: false,
            sync: 0,
            rested: 0,
            failing: false,
        })
    }

    /// Begins the part on the disk. Whether it could be begun.
    pub(crate) fn begin(&mut self) -> bool {
        if !self.begun {
            self.begun = self.disk.begin();
        }
        self.begun
    }

    /// Writes all that is to be written. Whether it stands in the part.
    fn write(&mut self) -> bool {
        if !self.begin() {
            return false;
        }
        for _ in 0..u64::MAX {
            if self.history.unwritten().is_empty() {
                return true;
            }
            match self.disk.write(self.history.unwritten()) {
                Some(count) if count > 0 => {
                    self.history.written(count);
                    self.unsynced = true;
                }
                _ => return false,
            }
        }
        false
    }

    /// Syncs what was written. Whether it survives a crash.
    fn sync(&mut self) -> bool {
        if self.unsynced && self.disk.sync() {
            self.unsynced = false;
        }
        !self.unsynced
    }

    /// The next part begins, once all of this one is on the disk.
    fn next_part(&mut self) -> io::Result<()> {
        if !self.write() || !self.sync() {
            return Err(io::Error::from(ErrorKind::StorageFull));
        }
        ended(self.history.roll())?;
        self.begun = false;
        Ok(())
    }

    /// A word comes, of the node of this number where it is one's.
    fn word(&mut self, number: u32, said: &Said, now: u64) -> io::Result<()> {
        match self.history.word(number, said, now) {
            Err(HistoryFault::FullPart) => {
                self.next_part()?;
                ended(self.history.word(number, said, now))
            }
            told => ended(told),
        }
    }

    /// How the node at a place stands is told, as far as the part has room.
    fn tell_node(&mut self, entries: &[Entry], place: usize, now: u64) -> Result<(), HistoryFault> {
        let (Some(entry), Some(story)) = (entries.get(place), self.board.stories().get(place))
        else {
            return Ok(());
        };
        let Ok(number) = u32::try_from(place) else {
            return Ok(());
        };
        let node = Node {
            number,
            group: entry.group(),
            name: entry.node(),
        };
        self.history.node(&node, story, now)
    }

    /// How the node at a place stands is told, where it changed.
    fn node(&mut self, entries: &[Entry], place: usize, now: u64) -> io::Result<()> {
        match self.tell_node(entries, place, now) {
            Err(HistoryFault::FullPart) => {
                self.next_part()?;
                ended(self.tell_node(entries, place, now))
            }
            told => ended(told),
        }
    }

    /// How each node stands is told, where it changed.
    fn nodes(&mut self, entries: &[Entry], now: u64) -> io::Result<()> {
        for place in 0..entries.len() {
            self.node(entries, place, now)?;
        }
        Ok(())
    }

    /// A word of the core comes. These are the nodes behind it.
    pub(crate) fn hear(
        &mut self,
        places: &mut Nodes,
        entries: &[Entry],
        said: &Said,
        now: u64,
    ) -> io::Result<()> {
        let seating = Seating::own(entries.len());
        watched::hear(&mut self.board, seating, places, entries, said, now)?;
        match said {
            Said::Consumed(message) => {
                let place = places.place_of(message.group.as_str(), message.node.as_str())?;
                self.word(number_at(place)?, said, now)?;
                self.node(entries, place.unwrap_or(usize::MAX), now)
            }
            Said::Step(Step::Gap) => self.nodes(entries, now),
            Said::Ended => {
                self.word(0, said, now)?;
                self.nodes(entries, now)
            }
            Said::Death { group, node } | Said::Lost { group, node, .. } => {
                let place = places.place_of(group.as_str(), node.as_str())?;
                self.node(entries, place.unwrap_or(usize::MAX), now)
            }
            _ => Ok(()),
        }
    }

    /// The host's session begins.
    pub(crate) fn opened(&mut self, now: u64) -> io::Result<()> {
        match self.history.began(now) {
            Err(HistoryFault::FullPart) => {
                self.next_part()?;
                ended(self.history.began(now))
            }
            told => ended(told),
        }
    }

    /// A moment: what is to be written is, and now and then synced. Whether it could be, as far as it was tried.
    pub(crate) fn turn(&mut self, now: u64) -> bool {
        if now < self.rested {
            return !self.failing;
        }
        let is_due = now >= self.sync;
        self.failing = !self.write() || (is_due && !self.sync());
        if self.failing {
            self.rested = now.saturating_add(SYNC);
        }
        if is_due {
            self.sync = now.saturating_add(SYNC);
        }
        !self.failing
    }

    /// When something is to be done next, if anything is.
    pub(crate) fn due(&self) -> Option<u64> {
        if self.failing {
            Some(self.rested)
        } else if self.unsynced {
            Some(self.sync)
        } else {
            None
        }
    }

    /// The end: all is written and synced. Whether it is.
    pub(crate) fn close(&mut self) -> bool {
        self.write() && self.sync()
    }

    /// Where its parts are.
    pub fn disk(&self) -> &P {
        &self.disk
    }
}
