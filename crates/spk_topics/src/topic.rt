//! Topic names (MQTT 3.1.1, section 4.7).
ghost use Rattle.std.specs.Prelude.{◌≡◌, Some, None, MatchResult};
ghost use Rattle.spk_topics.specs.Text.{holds, is_plain, refusal, topic_refusal};

use crate::fault::TopicFault;
use std::marker::Model;

// The longest text that MQTT can write, in bytes.
const LONGEST: usize = 65_535;

/// A topic name: the text that a message is published on.
#[derive(Debug, Drop)]
pub struct Topic<'a> {
    text: &'a str,
}

impl<'a> Model for Topic<'a> {
    ghost use Rattle.std.specs.Prelude.{◌≡◌, List, ℕ, None};
    ghost use Rattle.spk_topics.specs.Text.{topic_refusal};

    ghost Value = { List ℕ };

    ghost view = { λ a. a.text.now };

    ghost invariant = { λ a. topic_refusal a.text.now ≡ None };
}

impl<'a> Topic<'a> {
    /// The topic name of a text. Tried in this order: Empty; Wildcard for any `+` or `#`; Nul for
    /// U+0000; TooLong for over 65,535 bytes. No other text is refused. It takes no memory.
    pub fn read(text: &'a str) -> Result<Topic<'a>, TopicFault>
        ensures { MatchResult result (λ a. (a ≡ text.now) × (topic_refusal text.now ≡ None))
            (λ e. topic_refusal text.now ≡ Some e) }
    {
        match refused(text, is_plain(text)) {
            Some(fault) => Err(fault),
            None => Ok(Topic { text }),
        }
    }

    /// Its text.
    pub fn text(&self) -> &'a str
        ensures value { result.now ≡ self.now }
        ensures accepted { topic_refusal result.now ≡ None }
    {
        self.text
    }
}

/// Whether a byte stands in a text.
pub(crate) fn has(text: &str, byte: u8) -> bool
    ensures { result ≡ holds byte text.now }
{
    text.as_bytes().contains(&byte)
}

/// Whether no wildcard stands in a text.
pub(crate) fn is_plain(text: &str) -> bool
    ensures { result ≡ is_plain text.now }
{
    !has(text, b'+') && !has(text, b'#')
}

/// The first refusal of a text, whose wildcards stand where they may or not.
pub(crate) fn refused(text: &str, placed: bool) -> Option<TopicFault>
    ensures { result ≡ refusal text.now placed }
{
    if text.is_empty() {
        Some(TopicFault::Empty)
    } else if !placed {
        Some(TopicFault::Wildcard)
    } else if has(text, 0) {
        Some(TopicFault::Nul)
    } else if text.len() > LONGEST {
        Some(TopicFault::TooLong)
    } else {
        None
    }
}
