//! What a page answers.

use crate::hosts::Roster;
use crate::page::Page;
use crate::shown::{down_of, metrics_of};
use crate::watched;
use spk_host::Entry;
use spk_network::Seen;
use spk_page as page;
use spk_page::{Asked, Client, Device, Head, Node, PageFault, Whole};
use spk_story::Story;
use std::alloc::AllocError;
use std::io;

const HTML: &[u8] = b"text/html; charset=utf-8";

const JSON: &[u8] = b"application/json";

const TEXT: &[u8] = b"text/plain; charset=utf-8";

const FIGURES: &[u8] = b"text/plain; version=0.0.4; charset=utf-8";

/// The number of a refusal, and the reason behind its answer.
fn refusal_of(asked: Asked) -> (u16, &'static [u8]) {
    match asked {
        Asked::Foreign => (403, b"only as 127.0.0.1 or localhost\n"),
        Asked::Otherwise => (405, b""),
        Asked::NoRequest(status) => (status, b""),
        _ => (
            404,
            b"not here: /, /view, /view?node=0, /events, /metrics, /text\n",
        ),
    }
}

impl Page {
    /// The head of a view.
    fn head(&self, now: u64) -> Head {
        Head {
            began: self.began.unwrap_or(now),
            now,
            revision: self.revision,
            is_connected: self.is_connected,
        }
    }

    /// The row of the node at a place.
    fn row<'a>(
        &self,
        place: usize,
        entry: &'a Entry,
        story: &Story,
        now: u64,
    ) -> Result<Node<'a>, AllocError> {
        let values = watched::values_of(entry);
        let values = page::Values {
            current: values.current,
            all: values.all,
        };
        let changed = match self.told.get(place) {
            Some(told) => told.changed,
            None => 0,
        };
        let down = down_of(self.alloc, entry)?;
        Ok(Node::new(
            place,
            entry.group(),
            entry.node(),
            story,
            values,
            down,
            changed,
            self.patience,
            now,
        ))
    }

    /// The rows of all nodes.
    fn rows<'a, R: Roster>(&self, roster: &'a R, now: u64) -> Result<Vec<Node<'a>>, AllocError> {
        let mut rows = Vec::new(self.alloc);
        for place in 0..roster.count() {
            let story = self.board.stories().get(place);
            if let (Some(entry), Some(story)) = (roster.entry(place), story) {
                rows.push(self.row(place, entry, story, now)?)?;
            }
        }
        Ok(rows)
    }

    /// The events, oldest first.
    fn entries(&self) -> Result<Vec<page::Entry<'_>>, AllocError> {
        let mut entries = Vec::new(self.alloc);
        for event in self.events.iter() {
            entries.push(event.entry())?;
        }
        Ok(entries)
    }

    /// The view from a revision and a number on, as JSON.
    fn view<R: Roster>(
        &self,
        roster: &R,
        revision: u64,
        number: u64,
        now: u64,
    ) -> Result<String, AllocError> {
        let rows = self.rows(roster, now)?;
        let log = self.entries()?;
        page::view_text(self.alloc, self.head(now), &rows, &log, revision, number)
    }

    /// The node at a place, whole, as JSON; None where there is none.
    fn node<R: Roster>(
        &self,
        roster: &R,
        place: usize,
        now: u64,
    ) -> Result<Option<String>, AllocError> {
        let (Some(entry), Some(story), Some(told)) = (
            roster.entry(place),
            self.board.stories().get(place),
            self.told.get(place),
        ) else {
            return Ok(None);
        };
        let mut metrics = Vec::new(self.alloc);
        let mut devices = Vec::new(self.alloc);
        if let Some(view) = entry.kept().view() {
            metrics = metrics_of(self.alloc, view.metrics(), Some(&told.own))?;
            for (index, device) in view.devices().iter().enumerate() {
                devices.push(Device {
                    name: device.name(),
                    is_online: device.is_online(),
                    is_stale: device.is_stale(),
                    metrics: metrics_of(self.alloc, device.metrics(), told.devices.get(index))?,
                })?;
            }
        }
        let whole = Whole {
            row: self.row(place, entry, story, now)?,
            holes: story.kept(),
            metrics,
            devices,
        };
        let text = page::node_text(self.alloc, &whole)?;
        Ok(Some(text))
    }

    /// The nodes as a board of text.
    fn text<R: Roster>(&mut self, roster: &R, now: u64) -> io::Result<Vec<u8>> {
        let mut out = Vec::new(self.alloc);
        let board = &mut self.board;
        watched::draw(self.alloc, board, &mut out, roster, self.patience, now)?;
        Ok(out)
    }

    /// Answers what a client asks for.
    fn answer<R: Roster>(
        &mut self,
        roster: &R,
        asked: Asked,
        client: &mut Client,
        now: u64,
    ) -> Result<(), PageFault> {
        match asked {
            Asked::Nothing => Ok(()),
            Asked::Page => client.answer(200, HTML, page::page().as_bytes(), now),
            Asked::View => {
                let text = self.view(roster, 0, 0, now)?;
                client.answer(200, JSON, text.as_bytes(), now)
            }
            Asked::Node(place) => {
                let place = usize::try_from(place).unwrap_or(usize::MAX);
                match self.node(roster, place, now)? {
                    Some(text) => client.answer(200, JSON, text.as_bytes(), now),
                    None => client.answer(404, TEXT, b"no such node\n", now),
                }
            }
            Asked::Events => client.stream(now),
            Asked::Metrics => {
                let rows = self.rows(roster, now)?;
                let text = page::metrics_text(self.alloc, self.head(now), &rows)?;
                client.answer(200, FIGURES, text.as_bytes(), now)
            }
            Asked::Text => match self.text(roster, now) {
                Ok(text) => client.answer(200, TEXT, text.as_slice(), now),
                Err(_) => Err(PageFault::NoMemory),
            },
            _ => {
                let (status, reason) = refusal_of(asked);
                client.answer(status, TEXT, reason, now)
            }
        }
    }

    /// Answers what a client asks for, if it can.
    pub(crate) fn show<R: Roster>(
        &mut self,
        roster: &R,
        asked: Asked,
        client: &mut Client,
        now: u64,
    ) {
        let _ = self.answer(roster, asked, client, now);
    }

    /// Whether there is something that a client wasn't told.
    pub(crate) fn has_news(&self, seen: &Seen) -> bool {
        self.began.is_some() && seen.revision < self.revision
    }

    /// Tells a client what it wasn't told. Whether it may go on.
    pub(crate) fn tell<R: Roster>(
        &mut self,
        roster: &R,
        client: &mut Client,
        seen: &mut Seen,
        now: u64,
    ) -> bool {
        let revision = seen.revision.saturating_add(1);
        let number = seen.number.saturating_add(1);
        let Ok(text) = self.view(roster, revision, number, now) else {
            return false;
        };
        seen.revision = self.revision;
        seen.number = self.number;
        client.tell(text.as_str(), now).is_ok()
    }
}
