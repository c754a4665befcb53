//! Topic filters (MQTT 3.1.1, section 4.7).
ghost use Rattle.std.specs.Prelude.{◌≡◌, Some, None, MatchResult};
ghost use Rattle.spk_topics.specs.Levels.{levels};
ghost use Rattle.spk_topics.specs.Text.{is_placed, in_place, filter_refusal};

use crate::fault::TopicFault;
use crate::levels::cut;
use crate::topic::{is_plain, refused};
use std::marker::Model;

/// A topic filter: the text by which a client subscribes.
#[derive(Debug, Drop)]
pub struct Filter<'a> {
    text: &'a str,
}

impl<'a> Model for Filter<'a> {
    ghost use Rattle.std.specs.Prelude.{◌≡◌, List, ℕ, None};
    ghost use Rattle.spk_topics.specs.Text.{filter_refusal};

    ghost Value = { List ℕ };

    ghost view = { λ a. a.text.now };

    ghost invariant = { λ a. filter_refusal a.text.now ≡ None };
}

impl<'a> Filter<'a> {
    /// The filter of a text. Tried in this order: Empty; Wildcard where a `+` doesn't fill its level,
    /// or a `#` doesn't fill the last one; Nul for U+0000; TooLong for over 65,535 bytes. No other text
    /// is refused. It takes no memory.
    pub fn read(text: &'a str) -> Result<Filter<'a>, TopicFault>
        ensures { MatchResult result (λ a. (a ≡ text.now) × (filter_refusal text.now ≡ None))
            (λ e. filter_refusal text.now ≡ Some e) }
    {
        match refused(text, has_wildcards_in_place(text)) {
            Some(fault) => Err(fault),
            None => Ok(Filter { text }),
        }
    }

    /// Its text.
    pub fn text(&self) -> &'a str
        ensures value { result.now ≡ self.now }
        ensures accepted { filter_refusal result.now ≡ None }
    {
        self.text
    }
}

/// Whether a level has no wildcard, or one that may stand there.
fn is_placed(level: &str, is_last: bool) -> bool
    ensures { result ≡ is_placed level.now is_last }
{
    is_plain(level) || level == "+" || (level == "#" && is_last)
}

/// Whether each wildcard of a filter's text stands where it may.
fn has_wildcards_in_place(text: &str) -> bool
    ensures { result ≡ in_place (levels text.now) }
{
    let mut left = Some(text);
    while let Some(text) = left {
        let (level, rest) = cut(text);
        if !is_placed(level, rest.is_none()) {
            return false;
        }
        left = rest;
    }
    true
}
