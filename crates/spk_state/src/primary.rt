//! How an edge node hears its primary host.
ghost use Rattle.std.specs.Prelude.{◌≡◌, Option, None};
ghost use Rattle.spk_state.specs.Step.{heard_as, after_heard};

use crate::state::State;
use std::marker::Model;

/// How an edge node hears a STATE of its primary host.
#[derive(Clone, Copy, Debug, PartialEq, Eq)]
pub enum Heard {
    /// The host is online.
    Online,
    /// The host is offline.
    Offline,
    /// An earlier STATE than one that was heard: it says nothing.
    Ignored,
}

/// The primary host of an edge node, as it was last heard. No call takes memory.
#[derive(Clone, Copy, Debug, PartialEq, Eq)]
pub struct Primary {
    heard: Option<u64>,
}

impl Model for Primary {
    ghost use Rattle.std.specs.Prelude.{ℕ, Option};

    ghost Value = { Option ℕ };

    ghost view = { λ p. p.heard };

    ghost inverse = { λ heard. record { heard = heard } };
}

impl Primary {
    /// Nothing was heard.
    pub fn new() -> Primary
        ensures { result ≡ None }
    {
        Primary { heard: None }
    }

    /// A STATE came. One whose timestamp is less than the greatest one heard is ignored (own rule; Sparkplug 3.0.0,
    /// chapter 5, on the primary host); an equal one isn't.
    pub fn hear(&mut self, state: State) -> Heard
        ensures answer { result ≡ heard_as self.old state }
        ensures data { self.new ≡ after_heard self.old state }
    {
        if self.heard.is_some_and(|heard| state.timestamp < heard) {
            return Heard::Ignored;
        }
        self.heard = Some(state.timestamp);
        if state.online {
            Heard::Online
        } else {
            Heard::Offline
        }
    }

    /// The greatest timestamp heard, in milliseconds since 1970 (UTC).
    pub fn heard(&self) -> Option<u64>
        ensures { result ≡ self.now }
    {
        self.heard // None where nothing was
    }
}
