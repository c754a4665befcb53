//! Retained messages and wills. What they count fits 64 bits for each user.
ghost use Rattle.std.specs.Prelude.{◌≡◌, ◌+◌, ◌^◌, ◌<◌, ◌≤◌, ◌++◌, ◌∷◌, [], count_by, not, IfSome, Some, true, length, slice_get, OnOk, OnErr, vec_capacity, vec_len};
ghost use Rattle.std.specs.List.{filter, find, position, sum_by};
ghost use Rattle.std.specs.Option.{option_map};
ghost use Rattle.spk_quota.specs.Data.{MessageData};
ghost use Rattle.spk_quota.specs.Figures.{bytes_beside};
ghost use Rattle.spk_quota.specs.Held.{bytes_for, is_message_by};
ghost use Rattle.spk_quota.specs.Step.{bytes_on, is_retained, is_retained_on, is_will_of, retained_of, settled, stays_beside, with_message};

use crate::message::Message;
use std::alloc::{AllocError, Global};
use std::marker::Model;

/// The messages that count.
#[derive(Debug, Drop)]
pub(crate) struct Messages {
    list: Vec<Message>,
}

impl Model for Messages {
    ghost use Rattle.std.specs.Prelude.{ℕ, List, ◌<◌, ◌^◌};
    ghost use Rattle.std.specs.List.{sum_by};
    ghost use Rattle.spk_quota.specs.Data.{MessageData};
    ghost use Rattle.spk_quota.specs.Held.{bytes_for};

    ghost Value = { List MessageData };

    ghost view = { λ m. m.list.items };

    ghost invariant = { λ m. (user : ℕ) → sum_by (bytes_for user) m.list.items < 2 ^ 64 };
}

impl Messages {
    /// None.
    pub(crate) fn new(alloc: Global) -> Messages
        ensures { result ≡ [] }
    {
        Messages {
            list: Vec::new(alloc),
        }
    }

    /// How many are a user's.
    pub(crate) fn count(&self, user: usize) -> u64
        ensures { result ≡ count_by (is_message_by user) self.now }
    {
        self.list.iter().filter(|m| m.is_by(user)).count() as u64
    }

    /// The bytes of a user's.
    pub(crate) fn bytes(&self, user: usize) -> u64
        ensures { result ≡ sum_by (bytes_for user) self.now }
    {
        bytes_in(&self.list, user)
    }

    /// How many are a user's, but for its retained message on this topic.
    pub(crate) fn count_others(&self, user: usize, topic: &str) -> u64
        ensures { result ≡ count_by (is_message_by user) (filter (λ m. not (is_retained user topic.now m)) self.now) }
    {
        self.list
            .iter()
            .filter(|m| !m.is_retained(user, topic))
            .filter(|m| m.is_by(user))
            .count() as u64
    }

    /// The bytes of a user's, but for its retained message on this topic.
    pub(crate) fn bytes_others(&self, user: usize, topic: &str) -> u64
        ensures { result ≡ sum_by (bytes_for user) (filter (λ m. not (is_retained user topic.now m)) self.now) }
    {
        bytes_in_others(&self.list, user, topic)
    }

    /// One more, if there is one.
    pub(crate) fn put(&mut self, message: Option<Message>) -> Result<(), AllocError>
        requires { IfSome message (λ m. sum_by (bytes_for m.user) self.old + m.bytes < 2 ^ 64) }
        ensures ok { OnOk result (self.new ≡ with_message message self.old) }
        ensures err { OnErr result (self.new ≡ self.old) }
    {
        match message {
            Some(message) => {
                self.list.push(message)?;
                Ok(())
            }
            None => Ok(()),
        }
    }

    /// A user's retained message on this topic is this one.
    pub(crate) fn replace(
        &mut self,
        user: usize,
        topic: &str,
        message: Message,
    ) -> Result<(), AllocError>
        requires whose { message.user ≡ user }
        requires fit { sum_by (bytes_for user) (filter (λ m. not (is_retained user topic.now m)) self.old)
            + message.bytes < 2 ^ 64 }
        ensures ok { OnOk result
            (self.new ≡ filter (λ m. not (is_retained user topic.now m)) self.old ++ message ∷ []) }
        ensures err { OnErr result (self.new ≡ self.old) }
    {
        self.list.reserve(1)?;
        replace_in(&mut self.list, user, topic, message);
        Ok(())
    }

    /// Nobody's retained message on this topic counts any more.
    pub(crate) fn clear(&mut self, topic: &str)
        ensures { self.new ≡ filter (λ m. not (is_retained_on topic.now m)) self.old }
    {
        clear_in(&mut self.list, topic);
    }

    /// The will of this connection is no more.
    pub(crate) fn discard(&mut self, conn: u64)
        ensures { self.new ≡ filter (λ m. not (is_will_of conn m)) self.old }
    {
        discard_in(&mut self.list, conn);
    }

    /// The will of this connection counts as a retained message.
    pub(crate) fn settle(&mut self, conn: u64)
        ensures { self.new ≡ settled conn self.old }
    {
        settle_in(&mut self.list, conn);
    }
}

/// The bytes of a user's.
fn bytes_in(list: &[Message], user: usize) -> u64
    requires { sum_by (bytes_for user) list.now < 2 ^ 64 }
    ensures { result ≡ sum_by (bytes_for user) list.now }
{
    list.iter().map(|m| m.bytes_for(user)).sum()
}

/// The bytes of a user's, but for its retained message on this topic.
fn bytes_in_others(list: &[Message], user: usize, topic: &str) -> u64
    requires { sum_by (bytes_beside user topic.now) list.now < 2 ^ 64 }
    ensures { result ≡ sum_by (bytes_beside user topic.now) list.now }
{
    list.iter().map(|m| m.bytes_beside(user, topic)).sum()
}

/// A user's retained message on this topic is there no more.
fn remove_in(list: &mut Vec<Message>, user: usize, topic: &str)
    ensures items { list.new.items ≡ filter (λ m. not (is_retained user topic.now m)) list.old.items }
    ensures len { vec_len list.new ≤ vec_len list.old }
    ensures capacity { vec_capacity list.new ≡ vec_capacity list.old }
{
    list.retain(|m| !m.is_retained(user, topic));
}

/// One more, where there is room.
fn push_in(list: &mut Vec<Message>, message: Message)
    requires { vec_len list.old < vec_capacity list.old }
    ensures { list.new.items ≡ list.old.items ++ message ∷ [] }
{
    let _ = list.push(message);
}

/// A user's retained message on this topic is this one.
fn replace_in(list: &mut Vec<Message>, user: usize, topic: &str, message: Message)
    requires { vec_len list.old < vec_capacity list.old }
    ensures { list.new.items ≡ filter (λ m. not (is_retained user topic.now m)) list.old.items ++ message ∷ [] }
{
    remove_in(list, user, topic);
    push_in(list, message);
}

/// Nobody's retained message on this topic is there any more.
fn clear_in(list: &mut Vec<Message>, topic: &str)
    ensures { list.new.items ≡ filter (λ m. not (is_retained_on topic.now m)) list.old.items }
{
    list.retain(|m| !m.is_retained_on(topic));
}

/// The will of this connection is no more.
fn discard_in(list: &mut Vec<Message>, conn: u64)
    ensures { list.new.items ≡ filter (λ m. not (is_will_of conn m)) list.old.items }
{
    list.retain(|m| !m.is_will_of(conn));
}

/// The bytes of a user's retained message on this topic, if there is one.
fn found_bytes(list: &[Message], user: usize, topic: &str) -> Option<u64>
    ensures { result ≡ option_map (λ m. m.bytes) (find (is_retained user topic.now) list.now) }
{
    list.iter()
        .find(|m| m.is_retained(user, topic))
        .map(|m| m.bytes())
}

/// The bytes of a user's retained message on this topic.
fn bytes_on(list: &[Message], user: usize, topic: &str) -> u64
    ensures { result ≡ bytes_on user topic.now list.now }
{
    found_bytes(list, user, topic).unwrap_or(0)
}

/// The place of the will of this connection.
fn place_of(list: &[Message], conn: u64) -> Option<usize>
    ensures { result ≡ position (is_will_of conn) list.now }
{
    list.iter().position(|m| m.is_will_of(conn))
}

/// The bytes of the retained message on the topic of the message at this place.
fn retained_beside(list: &[Message], place: usize) -> u64
    requires { place < length list.now }
    ensures { (m : MessageData) → slice_get list.now place ≡ Some m → result ≡ bytes_on m.user m.topic list.now }
{
    let message = &list[place];
    bytes_on(list, message.user(), message.topic())
}

/// What stays beside a will of this connection that becomes a retained message.
fn keep_beside(list: &mut Vec<Message>, conn: u64, will: &Message)
    ensures items { list.new.items ≡ filter (stays_beside conn will.now) list.old.items }
    ensures len { vec_len list.new ≤ vec_len list.old }
    ensures capacity { vec_capacity list.new ≡ vec_capacity list.old }
{
    list.retain(|m| m.stays_beside(conn, will));
}

/// The will at this place becomes a retained message of so many bytes, if they are more.
fn settle_at(list: &mut Vec<Message>, conn: u64, place: usize)
    requires { place < vec_len list.old }
    ensures { (will : MessageData) → slice_get list.old.items place ≡ Some will → is_will_of conn will ≡ true
        → list.new.items ≡ filter (stays_beside conn will) list.old.items
        ++ retained_of will (bytes_on will.user will.topic list.old.items) ∷ [] }
{
    let bytes = retained_beside(list, place);
    let will = list.remove(place);
    keep_beside(list, conn, &will);
    push_in(list, will.into_retained(bytes));
}

/// The will of this connection counts as a retained message.
fn settle_in(list: &mut Vec<Message>, conn: u64)
    ensures { list.new.items ≡ settled conn list.old.items }
{
    if let Some(place) = place_of(list, conn) {
        settle_at(list, conn, place);
    }
}
