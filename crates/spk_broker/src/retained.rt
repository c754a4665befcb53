//! Retained messages (section 3.3.1.3).
ghost use Rattle.std.specs.Prelude.{◌≡◌, ◌+◌, ◌<◌, ◌≤◌, map, string_bytes, true};
ghost use Rattle.std.specs.List.{fold};
ghost use Rattle.std.specs.VecDeque.{deque_len};
ghost use Rattle.indexmap.specs.IndexMap.{spare};
ghost use Rattle.spk_broker_rules.specs.Step.{retained_with};
ghost use Rattle.spk_broker_rules.specs.Table.{put, remove};
ghost use Rattle.spk_broker.specs.Parts.{app_message_view, retained_view, stored_view};
ghost use Rattle.spk_broker.specs.Sendable.{are_sendable};
ghost use Rattle.spk_broker.specs.View.{may_retain};

use crate::app_message::AppMessage;
use crate::state::Stored;
use indexmap::IndexMap;
use std::collections::VecDeque;

/// The most topics with a retained message (own rule).
const MOST_TOPICS: usize = 10_000;

/// No message is retained on this topic.
fn clear(retained: &mut IndexMap<String, Stored>, topic: &str)
    ensures table { map retained_view retained.new.entries
        ≡ remove topic.now (map retained_view retained.old.entries) }
    ensures room { spare retained.old ≤ spare retained.new }
{
    retained.retain(|name, _| name.as_str() != topic);
}

/// A message replaces the one on its topic, or stands behind the others.
fn replace(retained: &mut IndexMap<String, Stored>, topic: String, stored: Stored)
    requires { 0 < spare retained.old }
    ensures table { map retained_view retained.new.entries
        ≡ put (string_bytes topic) (stored_view stored) (map retained_view retained.old.entries) }
    ensures room { spare retained.old ≤ spare retained.new + 1 }
{
    let _ = retained.len();
    let _ = retained.insert(topic, stored);
}

/// Whether there may be a message on this topic.
fn has_room(retained: &IndexMap<String, Stored>, topic: &str) -> bool
    ensures { result ≡ may_retain topic.now (map retained_view retained.now.entries) }
{
    retained.contains_key(topic) || retained.len() < MOST_TOPICS
}

/// What is retained after a message with RETAIN: an empty one is none, and there are at most 10,000 topics (own rule).
pub(crate) fn retain(retained: &mut IndexMap<String, Stored>, app_message: AppMessage)
    requires { 0 < spare retained.old }
    ensures table { map retained_view retained.new.entries
        ≡ retained_with (map retained_view retained.old.entries) (app_message_view app_message) }
    ensures room { spare retained.old ≤ spare retained.new + 1 }
{
    if !app_message.retain {
        return;
    }
    if app_message.payload.is_empty() {
        clear(retained, app_message.topic.as_str());
        return;
    }
    if !has_room(retained, app_message.topic.as_str()) {
        return;
    }
    let stored = Stored {
        payload: app_message.payload,
        qos: app_message.qos,
    };
    replace(retained, app_message.topic, stored);
}

/// What is retained after these messages, one after the other.
pub(crate) fn retain_all(retained: &mut IndexMap<String, Stored>, keeps: VecDeque<AppMessage>)
    requires { deque_len keeps ≤ spare retained.old }
    ensures sendable { are_sendable (map retained_view retained.old.entries) ≡ true
        → are_sendable (map retained_view retained.new.entries) ≡ true }
    ensures table { map retained_view retained.new.entries
        ≡ fold retained_with (map retained_view retained.old.entries) (map app_message_view keeps.items) }
{
    let mut left = keeps;
    while let Some(app_message) = left.pop_front() {
        retain(retained, app_message);
    }
}
