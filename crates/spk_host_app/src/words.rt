//! The words that wait to be printed.
ghost use Rattle.std.specs.Prelude.{◌≡◌, ◌∷◌, ◌<◌, [], length, map, true, false, MatchOption, OnOk, OnErr};
ghost use Rattle.std.specs.VecDeque.{deque_capacity, deque_len};
ghost use Rattle.spk_host_app.specs.Step.{ended, put_words};
ghost use Rattle.spk_host_app.specs.View.{word};

use crate::said::Said;
use std::alloc::{AllocError, Global};
use std::collections::VecDeque;
use std::marker::Model;

/// The words that wait to be printed, oldest first, with room for the end of a connection that began.
#[derive(Drop)]
pub(crate) struct Words {
    queue: VecDeque<Said>,
    begun: bool,
}

impl Model for Words {
    ghost use Rattle.std.specs.Prelude.{◌≡◌, ◌<◌, map, true};
    ghost use Rattle.std.specs.VecDeque.{deque_capacity, deque_len};
    ghost use Rattle.spk_host_app.specs.Data as plain;
    ghost use Rattle.spk_host_app.specs.View.{word};

    ghost Value = { plain.Words };

    ghost view = { λ w. record { said = map word w.queue.items; begun = w.begun } };

    ghost invariant = { λ w. w.begun ≡ true → deque_len w.queue < deque_capacity w.queue };
}

impl Words {
    /// None waits.
    pub(crate) fn new(alloc: Global) -> Words
        ensures said { result.said ≡ [] }
        ensures begun { result.begun ≡ false }
    {
        Words {
            queue: VecDeque::new(alloc),
            begun: false,
        }
    }

    /// How many wait.
    pub(crate) fn len(&self) -> usize
        ensures { result ≡ length self.now.said }
    {
        self.queue.len()
    }

    /// A connection begins: there is room for the word of its end.
    pub(crate) fn begin(&mut self) -> Result<(), AllocError>
        ensures ok { OnOk result (self.new ≡ record self.old { begun = true }) }
        ensures err { OnErr result (self.new ≡ self.old) }
    {
        self.queue.reserve(1)?;
        self.begun = true;
        Ok(())
    }

    /// More words, behind those that wait.
    pub(crate) fn put(&mut self, words: Vec<Said>) -> Result<(), AllocError>
        ensures ok { OnOk result (self.new ≡ put_words (map word words.items) self.old) }
        ensures err { OnErr result (self.new ≡ self.old) }
    {
        let mut more = VecDeque::from_vec(words);
        self.queue.reserve(more.len() + 1)?;
        self.queue.append(&mut more)?;
        Ok(())
    }

    /// The connection that began ended.
    pub(crate) fn end(&mut self)
        ensures { self.new ≡ ended self.old }
    {
        if self.begun {
            self.begun = false;
            self.queue.push_back_reserved(Said::Ended);
        }
    }

    /// The oldest word, which waits no longer.
    pub(crate) fn next(&mut self) -> Option<Said>
        ensures { MatchOption result ((self.old.said ≡ []) × (self.new ≡ self.old))
            (λ said. (self.old.said ≡ word said ∷ self.new.said)
            × (self.new ≡ record self.old { said = self.new.said })) }
    {
        self.queue.pop_front()
    }
}
