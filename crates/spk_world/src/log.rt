//! What a node published.
ghost use Rattle.std.specs.Prelude.{◌≡◌, ◌+◌, ◌-◌, ◌++◌, ◌∷◌, [], ◌≤◌, ◌<◌, map, length, vec_len, vec_capacity, OnOk, None};
ghost use Rattle.std.specs.List.{count_by, last_or};
ghost use Rattle.spk_edge.specs.View.{message_view};
ghost use Rattle.spk_world_run.specs.Step.{or_zero, posts_from, starts_from};

use crate::records::Published;
use std::alloc::{AllocError, Global};

/// What a node published, and the moments at which its sessions were opened.
#[derive(Drop)]
pub(crate) struct Log {
    pub(crate) published: Vec<Published>,
    /// Of each message the position of its birth's NBIRTH.
    pub(crate) starts: Vec<u64>,
    pub(crate) births: usize,
    pub(crate) opened: Vec<u64>,
    ghost few: { births ≤ length published.items },
}

impl Log {
    ghost use Rattle.spk_world.specs.Parts.{HasRoom};
    ghost use Rattle.spk_world.specs.View.{published_view};

    /// Nothing.
    pub(crate) fn new(alloc: Global) -> Log
        ensures published { result.published.items ≡ [] }
        ensures starts { result.starts.items ≡ [] }
        ensures births { result.births ≡ 0 }
        ensures opened { result.opened.items ≡ [] }
    {
        Log {
            published: Vec::new(alloc),
            starts: Vec::new(alloc),
            births: 0,
            opened: Vec::new(alloc),
        }
    }

    /// Room for so many messages, and for one more session.
    pub(crate) fn reserve(&mut self, count: usize) -> Result<(), AllocError>
        ensures room { OnOk result (HasRoom self.new count) }
        ensures published { self.new.published.items ≡ self.old.published.items }
        ensures starts { self.new.starts.items ≡ self.old.starts.items }
        ensures births { self.new.births ≡ self.old.births }
        ensures opened { self.new.opened.items ≡ self.old.opened.items }
    {
        self.published.reserve(count)?;
        self.starts.reserve(count)?;
        self.opened.reserve(1)
    }

    /// The session that was opened last, counted from 0; 0 where there was none.
    pub(crate) fn session(&self) -> u64
        ensures { result ≡ length self.now.opened.items - 1 }
    {
        (self.opened.len() as u64).saturating_sub(1)
    }

    /// The position of the NBIRTH of the last message's birth; 0 where there is no message.
    fn last_start(&self) -> u64
        ensures { result ≡ or_zero (last_or None self.now.starts.items) }
    {
        self.starts.last().copied().unwrap_or(0)
    }

    /// A message, for which there is room.
    fn add_one(&mut self, session: u64, message: spk_edge::Published)
        requires room { HasRoom self.old 1 }
        ensures published { map published_view self.new.published.items
            ≡ map published_view self.old.published.items
            ++ posts_from session self.old.births (message_view message ∷ []) }
        ensures starts { self.new.starts.items ≡ self.old.starts.items
            ++ starts_from (length self.old.published.items)
            (or_zero (last_or None self.old.starts.items)) (message_view message ∷ []) }
        ensures births { self.new.births
            ≡ self.old.births + count_by (λ m. m.opens) (message_view message ∷ []) }
        ensures opened { self.new.opened ≡ self.old.opened }
        ensures room { HasRoom self.new 0 }
        ensures published_room { vec_capacity self.new.published ≡ vec_capacity self.old.published }
        ensures published_len { vec_len self.new.published ≡ vec_len self.old.published + 1 }
        ensures starts_room { vec_capacity self.new.starts ≡ vec_capacity self.old.starts }
        ensures starts_len { vec_len self.new.starts ≡ vec_len self.old.starts + 1 }
    {
        let position = self.published.len() as u64;
        let births = self.births + usize::from(message.opens);
        let start = if message.opens {
            position
        } else {
            self.last_start()
        };
        self.published.push_reserved(Published {
            birth: (births as u64).saturating_sub(1),
            session,
            stamp: message.stamp,
            topic: message.topic,
            payload: message.payload,
        });
        self.starts.push_reserved(start);
        self.births = births;
    }

    /// Messages of a session, in order, for which there is room.
    pub(crate) fn add(&mut self, session: u64, messages: Vec<spk_edge::Published>)
        requires { HasRoom self.old (length messages.items) }
        ensures published { map published_view self.new.published.items
            ≡ map published_view self.old.published.items
            ++ posts_from session self.old.births (map message_view messages.items) }
        ensures starts { self.new.starts.items ≡ self.old.starts.items
            ++ starts_from (length self.old.published.items)
            (or_zero (last_or None self.old.starts.items)) (map message_view messages.items) }
        ensures births { self.new.births
            ≡ self.old.births + count_by (λ m. m.opens) (map message_view messages.items) }
        ensures opened { self.new.opened ≡ self.old.opened }
    {
        for message in messages {
            self.add_one(session, message);
        }
    }

    /// A session is opened at a moment, for which there is room.
    pub(crate) fn open(&mut self, now: u64)
        requires { vec_len self.old.opened < vec_capacity self.old.opened }
        ensures published { self.new.published ≡ self.old.published }
        ensures starts { self.new.starts ≡ self.old.starts }
        ensures births { self.new.births ≡ self.old.births }
        ensures opened { self.new.opened.items ≡ self.old.opened.items ++ now ∷ [] }
    {
        self.opened.push_reserved(now);
    }
}
