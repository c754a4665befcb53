//! The hosts of a program, one for each group, and where their nodes stand among those of all.

use crate::history::History;
use crate::host_lines::{print, print_silence};
use crate::known::Nodes;
use crate::page::Page;
use crate::part_disk::PartDisk;
use crate::watched;
use spk_board::Board;
use spk_host::Entry;
use spk_host_app::{HostApp, Said};
use std::alloc::{AllocError, Global};
use std::io::{self, Write};

/// A host of a group: its core, what the births of its nodes named, and its history, if it keeps one.
#[derive(Drop)]
pub struct GroupHost<P: PartDisk> {
    pub(crate) app: HostApp,
    pub(crate) nodes: Nodes,
    pub(crate) history: Option<History<P>>,
    /// Its group, where there are several.
    label: Option<String>,
    /// Where its nodes stand among those of all hosts, in the order in which it heard them.
    places: Vec<usize>,
}

/// Whose a node is that stands among those of all hosts: its host's number, and its place there.
#[derive(Clone, Copy)]
struct Seat {
    at: usize,
    place: usize,
}

/// The hosts of a program, by their numbers, and the nodes of all in the order in which they were first heard.
#[derive(Drop)]
pub(crate) struct Hosts<P: PartDisk> {
    list: Vec<GroupHost<P>>,
    seats: Vec<Seat>,
}

/// Nodes, by their places.
pub(crate) trait Roster {
    /// How many there are.
    fn count(&self) -> usize;

    /// The node at a place.
    fn entry(&self, place: usize) -> Option<&Entry>;

    /// What the node at a place is called: with its group, where there are several.
    fn title(&self, place: usize) -> &str;
}

/// Where a board has the nodes of a host: at these places among so many, or at their own.
#[derive(Clone, Copy)]
pub(crate) struct Seating<'a> {
    places: Option<&'a [usize]>,
    count: usize,
}

impl<'a> Seating<'a> {
    /// All nodes are the host's own.
    pub(crate) fn own(count: usize) -> Seating<'a> {
        Seating {
            places: None,
            count,
        }
    }

    /// How many nodes there are in all.
    pub(crate) fn count(self) -> usize {
        self.count
    }

    /// Where the host's node at a place stands; past the last one where there is none.
    pub(crate) fn of(self, place: usize) -> usize {
        match self.places {
            Some(places) => places.get(place).copied().unwrap_or(usize::MAX),
            None => place,
        }
    }
}

impl<P: PartDisk> GroupHost<P> {
    /// A host that has heard of no node, with this history. Where there are several groups its own stands before lines that are of no node.
    pub fn new(
        alloc: Global,
        app: HostApp,
        history: Option<History<P>>,
        label: Option<String>,
    ) -> GroupHost<P> {
        GroupHost {
            app,
            nodes: Nodes::new(alloc),
            history,
            label,
            places: Vec::new(alloc),
        }
    }

    /// The nodes that it heard.
    pub(crate) fn entries(&self) -> &[Entry] {
        self.app.host().nodes()
    }

    /// A word of it comes to the board of all hosts, which have so many nodes.
    pub(crate) fn tell_board(
        &mut self,
        board: &mut Board,
        count: usize,
        said: &Said,
        now: u64,
    ) -> Result<(), AllocError> {
        let seating = Seating {
            places: Some(self.places.as_slice()),
            count,
        };
        let entries = self.app.host().nodes();
        watched::hear(board, seating, &mut self.nodes, entries, said, now)
    }

    /// A word of it comes to the page of all hosts, which have so many nodes.
    pub(crate) fn tell_page(
        &mut self,
        page: &mut Page,
        count: usize,
        said: &Said,
        now: u64,
    ) -> Result<(), AllocError> {
        let seating = Seating {
            places: Some(self.places.as_slice()),
            count,
        };
        let entries = self.app.host().nodes();
        page.hear(seating, &mut self.nodes, entries, said, now)
    }

    /// A word of it is printed.
    pub(crate) fn print<W: Write>(
        &mut self,
        alloc: Global,
        out: &mut W,
        said: &Said,
        now: u64,
    ) -> io::Result<()> {
        let entries = self.app.host().nodes();
        let label = match &self.label {
            Some(group) => Some(group.as_str()),
            None => None,
        };
        print(alloc, out, label, &mut self.nodes, entries, said, now)
    }

    /// Prints which of its nodes are silent from now on.
    pub(crate) fn print_silence<W: Write>(
        &mut self,
        alloc: Global,
        out: &mut W,
        patience: u64,
        now: u64,
    ) -> io::Result<()> {
        let entries = self.app.host().nodes();
        print_silence(alloc, out, &mut self.nodes, entries, patience, now)
    }

    /// A word of it comes to its history, if it keeps one.
    pub(crate) fn keep(&mut self, said: &Said, now: u64) -> io::Result<()> {
        let entries = self.app.host().nodes();
        match &mut self.history {
            Some(history) => history.hear(&mut self.nodes, entries, said, now),
            None => Ok(()),
        }
    }
}

impl<P: PartDisk> Hosts<P> {
    pub(crate) fn new(alloc: Global, list: Vec<GroupHost<P>>) -> Hosts<P> {
        Hosts {
            list,
            seats: Vec::new(alloc),
        }
    }

    /// How many hosts there are.
    pub(crate) fn len(&self) -> usize {
        self.list.len()
    }

    /// The host of a number.
    pub(crate) fn at(&self, at: usize) -> Option<&GroupHost<P>> {
        self.list.get(at)
    }

    /// The same, to be changed.
    pub(crate) fn at_mut(&mut self, at: usize) -> Option<&mut GroupHost<P>> {
        self.list.get_mut(at)
    }

    /// Takes in the nodes that a host heard since.
    pub(crate) fn follow(&mut self, at: usize) -> Result<(), AllocError> {
        let Some(host) = self.list.get_mut(at) else {
            return Ok(());
        };
        for place in host.places.len()..host.app.host().nodes().len() {
            self.seats.reserve(1)?;
            host.places.push(self.seats.len())?;
            self.seats.push(Seat { at, place })?;
        }
        Ok(())
    }

    /// A moment comes to the histories: whether what is to be written could be, as far as it was tried.
    pub(crate) fn turn_histories(&mut self, now: u64) -> bool {
        let mut is_written = true;
        for host in self.list.iter_mut() {
            if let Some(history) = &mut host.history {
                let goes = history.turn(now);
                is_written = is_written && goes;
            }
        }
        is_written
    }

    /// When something is to be done next of a history, if anything is.
    pub(crate) fn next_history(&self) -> Option<u64> {
        let mut next = None;
        for host in &self.list {
            let due = match &host.history {
                Some(history) => history.due(),
                None => None,
            };
            next = match (next, due) {
                (Some(one), Some(other)) => Some(other.min(one)),
                (one, other) => other.or(one),
            };
        }
        next
    }

    /// The histories are over: whether all of them is on the disk.
    pub(crate) fn close_histories(&mut self) -> bool {
        let mut is_kept = true;
        for host in self.list.iter_mut() {
            if let Some(history) = &mut host.history {
                let ends = history.close();
                is_kept = is_kept && ends;
            }
        }
        is_kept
    }

    /// Prints which nodes are silent from now on.
    pub(crate) fn print_silence<W: Write>(
        &mut self,
        alloc: Global,
        out: &mut W,
        patience: u64,
        now: u64,
    ) -> io::Result<()> {
        for host in self.list.iter_mut() {
            host.print_silence(alloc, out, patience, now)?;
        }
        Ok(())
    }
}

impl<P: PartDisk> Roster for Hosts<P> {
    fn count(&self) -> usize {
        self.seats.len()
    }

    fn entry(&self, place: usize) -> Option<&Entry> {
        let seat = self.seats.get(place)?;
        self.list.get(seat.at)?.entries().get(seat.place)
    }

    fn title(&self, place: usize) -> &str {
        let (Some(seat), Some(entry)) = (self.seats.get(place), self.entry(place)) else {
            return "";
        };
        if self.list.len() < 2 {
            return entry.node();
        }
        match self.list.get(seat.at) {
            Some(host) => host.nodes.title(seat.place).unwrap_or(entry.node()),
            None => entry.node(),
        }
    }
}
