//! The page of a host's program: what it knows of the nodes. What it answers stands in `answers.rt`.

use crate::happened::{Event, Happened};
use crate::hosts::Seating;
use crate::known::Nodes;
use crate::stories::Told;
use crate::watched;
use spk_board::{Board, Screen};
use spk_host::{Entry, Taken};
use spk_host_app::Said;
use spk_page::{Look, What};
use spk_reading::Subject;
use spk_sequence::Step;
use spk_topics::Spark;
use std::alloc::{AllocError, Global};
use std::collections::VecDeque;

/// How many events are kept (own rule).
const EVENTS: usize = 200;

/// How often it is looked who is silent, in milliseconds (own rule).
const LOOK: u64 = 250;

/// The page of a host's program.
#[derive(Drop)]
pub struct Page {
    pub(crate) alloc: Global,
    pub(crate) port: u16,
    /// When the program began; None before its first moment.
    pub(crate) began: Option<u64>,
    /// It keeps the stories, and draws `/text`.
    pub(crate) board: Board,
    pub(crate) told: Vec<Told>,
    pub(crate) events: VecDeque<Event>,
    pub(crate) number: u64,
    pub(crate) revision: u64,
    pub(crate) is_connected: bool,
    pub(crate) patience: Option<u64>,
    look: u64,
}

impl Page {
    /// The page of hosts of this group, or of these groups, at this port. A node is silent once nothing of it was consumed for so many milliseconds.
    pub fn new(alloc: Global, port: u16, group: String, patience: Option<u64>) -> Page {
        Page {
            alloc,
            port,
            began: None,
            board: Board::new(alloc, group, Screen::Plain),
            told: Vec::new(alloc),
            events: VecDeque::new(alloc),
            number: 0,
            revision: 1,
            is_connected: false,
            patience,
            look: 0,
        }
    }

    /// Keeps what happened among the last events.
    fn note(&mut self, place: Option<usize>, what: Happened, now: u64) -> Result<(), AllocError> {
        self.revision = self.revision.saturating_add(1);
        self.number = self.number.saturating_add(1);
        if self.events.len() >= EVENTS {
            let _ = self.events.pop_front();
        }
        self.events.push_back(Event {
            number: self.number,
            at: now,
            place,
            what,
        })?;
        Ok(())
    }

    /// The row of the node at a place changed.
    fn mark(&mut self, place: usize) {
        self.revision = self.revision.saturating_add(1);
        if let Some(told) = self.told.get_mut(place) {
            told.changed = self.revision;
        }
    }

    /// There are so many nodes.
    fn follow(&mut self, count: usize) -> Result<(), AllocError> {
        for place in self.told.len()..count {
            self.told.push(Told::new(self.alloc, 0))?;
            self.mark(place);
        }
        Ok(())
    }

    /// Tells what became of the node at a place.
    fn settle(&mut self, place: usize, now: u64) -> Result<(), AllocError> {
        let (Some(story), Some(told)) = (self.board.stories().get(place), self.told.get_mut(place))
        else {
            return Ok(());
        };
        let became = told.became(story);
        told.follow(story);
        self.mark(place);
        match became {
            Some(what) => self.note(Some(place), Happened::Plain(what), now),
            None => Ok(()),
        }
    }

    /// Tells what became of all nodes.
    fn settle_all(&mut self, now: u64) -> Result<(), AllocError> {
        for place in 0..self.told.len() {
            self.settle(place, now)?;
        }
        Ok(())
    }

    /// A message was consumed.
    fn consumed(
        &mut self,
        seating: Seating<'_>,
        places: &mut Nodes,
        entries: &[Entry],
        message: &Taken,
        now: u64,
    ) -> Result<(), AllocError> {
        let Some(own) = places.place_of(message.group.as_str(), message.node.as_str())? else {
            return Ok(());
        };
        let place = seating.of(own);
        if let (Some(entry), Some(told)) = (entries.get(own), self.told.get_mut(place)) {
            told.date(self.alloc, entry, message, now)?;
        }
        self.settle(place, now)?;
        let what = match &message.subject {
            Subject::DeviceBirth(name) => {
                Happened::DeviceBorn(String::from_str(self.alloc, name.as_str())?)
            }
            Subject::DeviceDeath(name) => {
                Happened::DeviceDied(String::from_str(self.alloc, name.as_str())?)
            }
            _ => return Ok(()),
        };
        self.note(Some(place), what, now)
    }

    /// A rebirth was asked for: it is told once while the node stands as it does.
    fn asked(
        &mut self,
        seating: Seating<'_>,
        places: &mut Nodes,
        topic: &Spark,
        now: u64,
    ) -> Result<(), AllocError> {
        let Spark::Node { group, node, .. } = topic else {
            return Ok(());
        };
        let Some(own) = places.place_of(group.as_str(), node.as_str())? else {
            return Ok(());
        };
        let place = seating.of(own);
        self.settle(place, now)?;
        let since = match self.board.stories().get(place) {
            Some(story) => story.since(),
            None => 0,
        };
        for event in self.events.iter() {
            let is_same = matches!(&event.what, Happened::Plain(What::Asked));
            if is_same && event.place == Some(place) && event.at >= since {
                return Ok(());
            }
        }
        self.note(Some(place), Happened::Plain(What::Asked), now)
    }

    /// A word of a host's core comes to the page. These are the host's nodes behind it.
    pub(crate) fn hear(
        &mut self,
        seating: Seating<'_>,
        places: &mut Nodes,
        entries: &[Entry],
        said: &Said,
        now: u64,
    ) -> Result<(), AllocError> {
        watched::hear(&mut self.board, seating, places, entries, said, now)?;
        self.follow(seating.count())?;
        match said {
            Said::Consumed(message) => self.consumed(seating, places, entries, message, now),
            Said::Step(Step::Gap) => self.settle_all(now),
            Said::Step(_) | Said::Granted => Ok(()),
            Said::Death { group, node } | Said::Lost { group, node, .. } => {
                match places.place_of(group.as_str(), node.as_str())? {
                    Some(own) => self.settle(seating.of(own), now),
                    None => Ok(()),
                }
            }
            Said::Asked(topic) => self.asked(seating, places, topic, now),
            Said::Refused { fault, .. } => {
                let what = What::Refused(fault.number());
                self.note(None, Happened::Plain(what), now)
            }
            Said::TurnedAway(code) => self.note(
                None,
                Happened::Plain(What::TurnedAway(*code)),
                now,
            ),
            Said::SubscriptionRefused => {
                self.note(None, Happened::Plain(What::NotSubscribed), now)
            }
            Said::Ended => {
                self.settle_all(now)?;
                self.note(None, Happened::Plain(What::Ended), now)
            }
        }
    }

    /// There is a connection with a broker for each group, or there isn't.
    pub(crate) fn connect(&mut self, is_connected: bool, now: u64) -> Result<(), AllocError> {
        if self.is_connected == is_connected {
            return Ok(());
        }
        self.is_connected = is_connected;
        self.board.connect(is_connected);
        let what = if is_connected {
            What::Connected
        } else {
            What::Disconnected
        };
        self.note(None, Happened::Plain(what), now)
    }

    /// A moment: it is looked who is silent, now and then.
    pub(crate) fn turn(&mut self, now: u64) {
        if self.began.is_none() {
            self.began = Some(now);
        }
        if now < self.look {
            return;
        }
        self.look = now.saturating_add(LOOK);
        for place in 0..self.told.len() {
            let (Some(story), Some(told)) = (
                self.board.stories().get(place),
                self.told.get_mut(place),
            ) else {
                return;
            };
            let look = Look::at(story, self.patience, now);
            if told.look != look {
                told.look = look;
                self.mark(place);
            }
        }
    }

    /// When it is looked next, where some node may fall silent.
    pub(crate) fn due(&self) -> Option<u64> {
        self.patience.map(|_| self.look)
    }
}
