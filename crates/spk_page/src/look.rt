//! How a node is shown.
ghost use Rattle.std.specs.Prelude.{◌≡◌};
ghost use Rattle.spk_page.specs.Looks.{is_same, look_at, look_of, since_at, silent_since, word_of};

use spk_story::{Stand, Story};

/// How a node is shown.
#[derive(Clone, Copy, Debug, PartialEq, Eq)]
pub enum Look {
    /// No birth of it was consumed.
    Unborn,
    /// Its values are current.
    Current,
    /// They were, and nothing of it was consumed for too long (own rule).
    Silent,
    /// Messages were lost.
    Lost,
    /// Its session is over.
    Offline,
    /// The host's own session is over, and it wasn't born since.
    Away,
}

/// Since when nothing was consumed for so many milliseconds, if that is too long.
fn silent_since(story: &Story, patience: Option<u64>, now: u64) -> Option<u64>
    ensures { result ≡ silent_since story.now patience now }
{
    let until = story.used_at()?.saturating_add(patience?);
    if story.stand() == Stand::Current && now >= until {
        Some(until)
    } else {
        None
    }
}

impl Look {
    /// How a node is shown that stands so.
    fn of(stand: Stand) -> Look
        ensures { result ≡ look_of stand }
    {
        match stand {
            Stand::Unborn => Look::Unborn,
            Stand::Current => Look::Current,
            Stand::Lost => Look::Lost,
            Stand::Dead => Look::Offline,
            Stand::OutOfReach => Look::Away,
        }
    }

    /// How a node of this story is shown at a moment, where it is silent once nothing of it was consumed for so many milliseconds.
    pub fn at(story: &Story, patience: Option<u64>, now: u64) -> Look
        ensures { result ≡ look_at story.now patience now }
    {
        match silent_since(story, patience, now) {
            Some(_) => Look::Silent,
            None => Look::of(story.stand()),
        }
    }

    /// Since when it is shown so, in milliseconds.
    pub fn since(story: &Story, patience: Option<u64>, now: u64) -> u64
        ensures { result ≡ since_at story.now patience now }
    {
        silent_since(story, patience, now).unwrap_or(story.since())
    }

    /// In a word.
    pub fn word(self) -> &'static str
        ensures { result.now ≡ word_of self }
    {
        match self {
            Look::Unborn => "unborn",
            Look::Current => "current",
            Look::Silent => "silent",
            Look::Lost => "lost",
            Look::Offline => "offline",
            Look::Away => "away",
        }
    }

    /// Whether two are the same.
    pub(crate) fn is_same(self, other: Look) -> bool
        ensures { result ≡ is_same self other }
    {
        match (self, other) {
            (Look::Unborn, Look::Unborn) => true,
            (Look::Current, Look::Current) => true,
            (Look::Silent, Look::Silent) => true,
            (Look::Lost, Look::Lost) => true,
            (Look::Offline, Look::Offline) => true,
            (Look::Away, Look::Away) => true,
            _ => false,
        }
    }
}
