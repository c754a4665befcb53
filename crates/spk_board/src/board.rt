//! A board.
ghost use Rattle.std.specs.Prelude.{◌≡◌, ◌<◌, ◌≤◌, ◌+◌, [], ◌++◌, map, true, false, None, OnOk, OnErr, string_bytes, vec_capacity, vec_len};
ghost use Rattle.std.specs.List.{list_any};
ghost use Rattle.std.specs.VecDeque.{deque_capacity, deque_len};
ghost use Rattle.spk_board.specs.Deeds.{Does, Heard, fresh, story_of};
ghost use Rattle.spk_board.specs.Happening.{is_asking, kept_with, noted};

use crate::happened::{Happened, What};
use crate::screen::Screen;
use spk_story::Story;
use std::alloc::{AllocError, Global};
use std::collections::VecDeque;
use std::marker::Model;

/// How many events are kept (own rule).
const EVENTS: usize = 12;

/// The stories of a host's nodes by their places, what happened last, and when to draw that again.
#[derive(Drop)]
pub struct Board {
    pub(crate) group: String,
    pub(crate) screen: Screen,
    pub(crate) stories: Vec<Story>,
    pub(crate) events: VecDeque<Happened>,
    pub(crate) is_connected: bool,
    pub(crate) is_changed: bool,
    /// When it was drawn last.
    pub(crate) drawn: Option<u64>,
}

impl Model for Board {
    ghost use Rattle.std.specs.Prelude.{string_bytes};
    ghost use Rattle.spk_board.specs.Data as plain;

    ghost Value = { plain.BoardData };

    ghost view = { λ b. record {
      group = string_bytes b.group;
      screen = b.screen;
      stories = b.stories.items;
      events = b.events.items;
      is_connected = b.is_connected;
      is_changed = b.is_changed;
      drawn = b.drawn;
    } };
}

/// Keeps what happened among the last events, for which there is room.
fn keep(events: &mut VecDeque<Happened>, event: Happened)
    requires { deque_len events.old < deque_capacity events.old }
    ensures { events.new.items ≡ kept_with event events.old.items }
{
    if events.len() >= EVENTS {
        let _ = events.pop_front();
    }
    events.push_back_reserved(event);
}

/// So many nodes more, of which nothing was told, for which there is room.
fn add(stories: &mut Vec<Story>, more: usize, now: u64)
    requires { vec_len stories.old + more ≤ vec_capacity stories.old }
    ensures { stories.new.items ≡ stories.old.items ++ map story_of (fresh more now) }
{
    for _added in 0..more {
        stories.push_reserved(Story::new(now));
    }
}

impl Board {
    /// A board without nodes, of the nodes of this group, or of these groups.
    pub fn new(alloc: Global, group: String, screen: Screen) -> Board
        ensures { result ≡ record {
          group = string_bytes group;
          screen = screen;
          stories = [];
          events = [];
          is_connected = false;
          is_changed = false;
          drawn = None;
        } }
    {
        Board {
            group,
            screen,
            stories: Vec::new(alloc),
            events: VecDeque::new(alloc),
            is_connected: false,
            is_changed: false,
            drawn: None,
        }
    }

    /// The stories, by the places of their nodes.
    pub fn stories(&self) -> &[Story]
        ensures { result.now ≡ self.now.stories }
    {
        self.stories.as_slice()
    }

    /// There are so many nodes: of those at the last places nothing was told before.
    pub fn follow(&mut self, count: usize, now: u64) -> Result<(), AllocError>
        ensures stories { OnOk result (Does (Heard count now) self.old.stories self.new.stories) }
        ensures same { self.new ≡ record self.old { stories = self.new.stories } }
        ensures err { OnErr result (self.new ≡ self.old) }
    {
        let more = count.saturating_sub(self.stories.len());
        self.stories.reserve(more)?;
        add(&mut self.stories, more, now);
        Ok(())
    }

    /// Whether there is a connection with a broker, for each group.
    pub fn connect(&mut self, is_connected: bool)
        ensures { self.new ≡ record self.old { is_connected = is_connected; is_changed = true } }
    {
        self.is_connected = is_connected;
        self.is_changed = true;
    }

    /// Keeps what happened among the last events.
    pub(crate) fn note(
        &mut self,
        place: Option<usize>,
        what: What,
        now: u64,
    ) -> Result<(), AllocError>
        ensures ok { OnOk result (self.new ≡ noted place what now self.old) }
        ensures err { OnErr result (self.new ≡ self.old) }
    {
        self.events.reserve(1)?;
        self.is_changed = true;
        keep(
            &mut self.events,
            Happened {
                at: now,
                place,
                what,
            },
        );
        Ok(())
    }

    /// Whether a request for the node at a place was told at a moment or behind it.
    pub(crate) fn is_asking(&self, place: usize, since: u64) -> bool
        ensures { result ≡ list_any (is_asking place since) self.now.events }
    {
        self.events
            .iter()
            .any(|event| event.is_asking(place, since))
    }
}
