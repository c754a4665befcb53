//! Which topic names a filter matches (MQTT 3.1.1, sections 4.7.1 and 4.7.2).
ghost use Rattle.std.specs.Prelude.{◌≡◌, ◌↔◌, ◌∷◌, ◌&&◌, [], IsTrue, not};
ghost use Rattle.std.specs.Str.{bytes_eq};
ghost use Rattle.spk_topics.specs.Levels.{levels};
ghost use Rattle.spk_topics.specs.Matching.{Matches};
ghost use Rattle.spk_topics.specs.Fitting.{fits, is_barred, is_match, begins_with_dollar, starts_with_wildcard};

use crate::filter::Filter;
use crate::levels::cut;
use crate::topic::Topic;

/// Whether a filter matches a topic name. It takes no memory.
pub fn matches(filter: &Filter, topic: &Topic) -> bool
    ensures relation { IsTrue result ↔ Matches filter.now topic.now }
    ensures test { result ≡ is_match filter.now topic.now }
{
    matches_text(filter.text(), topic.text())
}

/// Whether the text of a filter matches that of a topic name, as `matches` says of texts that were read. It takes no memory.
pub fn matches_text(filter: &str, topic: &str) -> bool
    ensures relation { IsTrue result ↔ Matches filter.now topic.now }
    ensures test { result ≡ is_match filter.now topic.now }
{
    !is_barred(filter, topic) && fits(filter, topic)
}

/// Whether a filter that starts with a wildcard stands before a topic that begins with `$`.
pub(crate) fn is_barred(filter: &str, topic: &str) -> bool
    ensures { result ≡ is_barred filter.now topic.now }
{
    if !begins_with_dollar(topic) {
        return false;
    }
    let (first, _) = cut(filter);
    first == "+" || first == "#"
}

/// Whether a topic begins with `$`.
pub(crate) fn begins_with_dollar(topic: &str) -> bool
    ensures { result ≡ begins_with_dollar topic.now }
{
    topic.starts_with('$')
}

/// Whether the levels of a filter fit those of a topic.
fn fits(filter: &str, topic: &str) -> bool
    ensures { result ≡ fits (levels filter.now) (levels topic.now) }
{
    let mut filter_left = Some(filter);
    let mut topic_left = Some(topic);
    while let Some(filter) = filter_left {
        let (level, filter_rest) = cut(filter);
        if level == "#" && filter_rest.is_none() {
            return true;
        }
        let Some(topic) = topic_left else {
            return false;
        };
        let (name, topic_rest) = cut(topic);
        if level != "+" && level != name {
            return false;
        }
        filter_left = filter_rest;
        topic_left = topic_rest;
    }
    topic_left.is_none()
}
