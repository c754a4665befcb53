//! The cores of a program's hosts, with what it knows of the nodes, what shows them, and what keeps them.

use crate::history::History;
use crate::host_core::{Heard, HostCore};
use crate::hosts::{GroupHost, Hosts, Roster};
use crate::page::Page;
use crate::part_disk::PartDisk;
use crate::watched;
use spk_board::Board;
use spk_host_app::{HostAppFault, Said};
use spk_link::Due;
use spk_network::Seen;
use spk_page::{Asked, Client};
use std::alloc::Global;
use std::io::{self, Write};

/// Hosts, each of a group, and the board and the page of all, if there are.
#[derive(Drop)]
pub struct HostParts<P: PartDisk> {
    alloc: Global,
    hosts: Hosts<P>,
    /// The board that is drawn in place of lines; None where lines are printed.
    board: Option<Board>,
    /// The page that is served beside; None where there is none.
    page: Option<Page>,
    /// For how long nothing of a node may be consumed before its values are told to be stale, in milliseconds; None where for ever.
    silence: Option<u64>,
}

impl<P: PartDisk> HostParts<P> {
    /// Hosts, of which it is said which nodes are silent, or isn't. Where there is a board it is drawn in place of lines; where there is a page it is
    /// served beside.
    pub fn new(
        alloc: Global,
        hosts: Vec<GroupHost<P>>,
        silence: Option<u64>,
        board: Option<Board>,
        page: Option<Page>,
    ) -> HostParts<P> {
        HostParts {
            alloc,
            hosts: Hosts::new(alloc, hosts),
            board,
            page,
            silence,
        }
    }

    /// The history that a host keeps, if it does.
    pub fn history(&self, at: usize) -> Option<&History<P>> {
        self.hosts.at(at)?.history.as_ref()
    }
}

impl<P: PartDisk> HostCore for HostParts<P> {
    type Said = Said;

    fn hosts(&self) -> usize {
        self.hosts.len()
    }

    fn due(&self, at: usize, now: u64) -> Due {
        match self.hosts.at(at) {
            Some(host) => host.app.due(now),
            None => Due::Nothing,
        }
    }

    fn next_due(&self, at: usize) -> Option<u64> {
        self.hosts.at(at)?.app.next_due()
    }

    fn opened(&mut self, at: usize, now: u64) -> Result<(), HostAppFault> {
        match self.hosts.at_mut(at) {
            Some(host) => host.app.opened(now),
            None => Ok(()),
        }
    }

    fn over(&mut self, at: usize, now: u64) {
        if let Some(host) = self.hosts.at_mut(at) {
            host.app.over(now);
        }
    }

    fn stop(&mut self, at: usize, now: u64) {
        if let Some(host) = self.hosts.at_mut(at) {
            let _ = host.app.stop(now);
        }
    }

    fn moment(&mut self, at: usize, now: u64) -> Result<(), HostAppFault> {
        match self.hosts.at_mut(at) {
            Some(host) => host.app.moment(now),
            None => Ok(()),
        }
    }

    fn feed(&mut self, at: usize, piece: &[u8], now: u64) -> Result<(), HostAppFault> {
        match self.hosts.at_mut(at) {
            Some(host) => host.app.feed(piece, now),
            None => Ok(()),
        }
    }

    fn hear(&mut self, at: usize, now: u64) -> Result<bool, HostAppFault> {
        match self.hosts.at_mut(at) {
            Some(host) => host.app.hear(now),
            None => Ok(false),
        }
    }

    fn next_said(&mut self, at: usize) -> Option<Said> {
        self.hosts.at_mut(at)?.app.next_said()
    }

    fn ask(&mut self, at: usize, group: &str, node: &str, now: u64) -> Result<bool, HostAppFault> {
        match self.hosts.at_mut(at) {
            Some(host) => host.app.ask(group, node, now),
            None => Ok(false),
        }
    }

    fn unwritten(&self, at: usize) -> &[u8] {
        match self.hosts.at(at) {
            Some(host) => host.app.unwritten(),
            None => &[],
        }
    }

    fn wrote(&mut self, at: usize, count: usize, now: u64) {
        if let Some(host) = self.hosts.at_mut(at) {
            host.app.wrote(count, now);
        }
    }

    fn is_closing(&self, at: usize) -> bool {
        self.hosts.at(at).is_some_and(|host| host.app.is_closing())
    }

    fn heard(said: &Said) -> Heard {
        match said {
            Said::Consumed(_) => Heard::Consumed,
            Said::Step(step) => Heard::Step(*step),
            Said::Granted => Heard::Granted,
            Said::Refused { .. } => Heard::Refused,
            _ => Heard::Other,
        }
    }

    fn keep(&mut self, at: usize, said: &Said, now: u64) -> io::Result<()> {
        match self.hosts.at_mut(at) {
            Some(host) => host.keep(said, now),
            None => Ok(()),
        }
    }

    fn keep_session(&mut self, at: usize, now: u64) -> io::Result<()> {
        if let Some(host) = self.hosts.at_mut(at) {
            if let Some(history) = &mut host.history {
                history.opened(now)?;
            }
        }
        Ok(())
    }

    fn turn_history(&mut self, now: u64) -> bool {
        self.hosts.turn_histories(now)
    }

    fn next_history(&self) -> Option<u64> {
        self.hosts.next_history()
    }

    fn close_history(&mut self) -> bool {
        self.hosts.close_histories()
    }

    fn tell_page(&mut self, at: usize, said: &Said, now: u64) -> io::Result<()> {
        let Some(page) = &mut self.page else {
            return Ok(());
        };
        self.hosts.follow(at)?;
        let count = self.hosts.count();
        if let Some(host) = self.hosts.at_mut(at) {
            host.tell_page(page, count, said, now)?;
        }
        Ok(())
    }

    fn tell<W: Write>(&mut self, out: &mut W, at: usize, said: &Said, now: u64) -> io::Result<()> {
        self.hosts.follow(at)?;
        let count = self.hosts.count();
        let Some(host) = self.hosts.at_mut(at) else {
            return Ok(());
        };
        match &mut self.board {
            Some(board) => {
                host.tell_board(board, count, said, now)?;
                Ok(())
            }
            None => host.print(self.alloc, out, said, now),
        }
    }

    fn tell_silence<W: Write>(&mut self, out: &mut W, now: u64) -> io::Result<()> {
        match self.silence {
            Some(patience) if self.board.is_none() => {
                self.hosts.print_silence(self.alloc, out, patience, now)
            }
            _ => Ok(()),
        }
    }

    fn connect(&mut self, are_open: bool, now: u64) -> io::Result<()> {
        if let Some(board) = &mut self.board {
            board.connect(are_open);
        }
        if let Some(page) = &mut self.page {
            page.connect(are_open, now)?;
        }
        Ok(())
    }

    fn has_board(&self) -> bool {
        self.board.is_some()
    }

    fn next_board(&self) -> Option<u64> {
        self.board.as_ref().map(|board| board.due())
    }

    fn draw<W: Write>(&mut self, out: &mut W, now: u64) -> io::Result<()> {
        match &mut self.board {
            Some(board) => watched::draw(self.alloc, board, out, &self.hosts, self.silence, now),
            None => Ok(()),
        }
    }

    fn turn_page(&mut self, now: u64) {
        if let Some(page) = &mut self.page {
            page.turn(now);
        }
    }

    fn next_page(&self) -> Option<u64> {
        self.page.as_ref().and_then(|page| page.due())
    }

    fn page_port(&self) -> Option<u16> {
        self.page.as_ref().map(|page| page.port)
    }

    fn show(&mut self, asked: Asked, client: &mut Client, now: u64) {
        if let Some(page) = &mut self.page {
            page.show(&self.hosts, asked, client, now);
        }
    }

    fn has_news(&self, seen: &Seen) -> bool {
        self.page.as_ref().is_some_and(|page| page.has_news(seen))
    }

    fn tell_client(&mut self, client: &mut Client, seen: &mut Seen, now: u64) -> bool {
        match &mut self.page {
            Some(page) => page.tell(&self.hosts, client, seen, now),
            None => false,
        }
    }
}
