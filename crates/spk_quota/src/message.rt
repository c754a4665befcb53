//! A retained message (section 3.3.1.3), or a will that may become one.
ghost use Rattle.std.specs.Prelude.{◌≡◌, IfOk};
ghost use Rattle.std.specs.Option.{option_map};
ghost use Rattle.spk_quota.specs.Figures.{bytes_beside};
ghost use Rattle.spk_quota.specs.Held.{bytes_for, is_message_by};
ghost use Rattle.spk_quota.specs.Step.{has_conn, is_retained, is_retained_on, is_will_of, retained_of, stays_beside, will_message};

use std::alloc::{AllocError, Global};
use std::marker::Model;

/// A retained message, or the will with RETAIN of a connection.
#[derive(Debug, Drop)]
pub(crate) struct Message {
    pub(crate) user: usize,
    pub(crate) topic: String,
    /// Of its topic and its payload.
    pub(crate) bytes: u64,
    /// The connection whose will it is; None of a retained message.
    pub(crate) will_of: Option<u64>,
}

impl Model for Message {
    ghost use Rattle.std.specs.Prelude.{string_bytes};
    ghost use Rattle.spk_quota.specs.Data.{MessageData};

    ghost Value = { MessageData };

    ghost view = { λ m. record { user = m.user; topic = string_bytes m.topic; bytes = m.bytes; will_of = m.will_of } };
}

/// Whether this is the connection.
pub(crate) fn has_conn(own: Option<u64>, conn: u64) -> bool
    ensures { result ≡ has_conn own conn }
{
    match own {
        Some(own) => own == conn,
        None => false,
    }
}

impl Message {
    /// A message on this topic.
    pub(crate) fn new(
        alloc: Global,
        user: usize,
        topic: &str,
        bytes: u64,
        will_of: Option<u64>,
    ) -> Result<Message, AllocError>
        ensures { IfOk result (λ m. m ≡ record { user = user; topic = topic.now; bytes = bytes; will_of = will_of }) }
    {
        Ok(Message {
            user,
            topic: String::from_str(alloc, topic)?,
            bytes,
            will_of,
        })
    }

    /// Whether it is this user's.
    pub(crate) fn is_by(&self, user: usize) -> bool
        ensures { result ≡ is_message_by user self.now }
    {
        self.user == user
    }

    /// Its bytes.
    pub(crate) fn bytes(&self) -> u64
        ensures { result ≡ self.now.bytes }
    {
        self.bytes
    }

    /// Its bytes that count for a user.
    pub(crate) fn bytes_for(&self, user: usize) -> u64
        ensures { result ≡ bytes_for user self.now }
    {
        if self.user == user { self.bytes } else { 0 }
    }

    /// Its bytes that count for a user, but for its retained message on this topic.
    pub(crate) fn bytes_beside(&self, user: usize, topic: &str) -> u64
        ensures { result ≡ bytes_beside user topic.now self.now }
    {
        if self.is_retained(user, topic) {
            0
        } else {
            self.bytes_for(user)
        }
    }

    /// Whose it is.
    pub(crate) fn user(&self) -> usize
        ensures { result ≡ self.now.user }
    {
        self.user
    }

    /// Its topic.
    pub(crate) fn topic(&self) -> &str
        ensures { result.now ≡ self.now.topic }
    {
        self.topic.as_str()
    }

    /// Whether it stays beside a will of this connection that becomes a retained message.
    pub(crate) fn stays_beside(&self, conn: u64, will: &Message) -> bool
        ensures { result ≡ stays_beside conn will.now self.now }
    {
        !self.is_will_of(conn) && !self.is_retained(will.user(), will.topic())
    }

    /// The retained message that a will becomes, where one of so many bytes is on its topic.
    pub(crate) fn into_retained(self, bytes: u64) -> Message
        ensures { result ≡ retained_of self bytes }
    {
        let mut message = self;
        message.bytes = message.bytes.max(bytes);
        message.will_of = None;
        message
    }

    /// Whether it is the retained message of this user on this topic.
    pub(crate) fn is_retained(&self, user: usize, topic: &str) -> bool
        ensures { result ≡ is_retained user topic.now self.now }
    {
        self.will_of.is_none() && self.user == user && self.topic.as_str() == topic
    }

    /// Whether it is a retained message on this topic.
    pub(crate) fn is_retained_on(&self, topic: &str) -> bool
        ensures { result ≡ is_retained_on topic.now self.now }
    {
        self.will_of.is_none() && self.topic.as_str() == topic
    }

    /// Whether it is the will of this connection.
    pub(crate) fn is_will_of(&self, conn: u64) -> bool
        ensures { result ≡ is_will_of conn self.now }
    {
        has_conn(self.will_of, conn)
    }
}

/// The message of a will, if there is one.
pub(crate) fn will_message(
    alloc: Global,
    user: usize,
    conn: u64,
    will: Option<(&str, u64)>,
) -> Result<Option<Message>, AllocError>
    ensures { IfOk result (λ m. m ≡ option_map (λ w. will_message user conn (w.0.now, w.1)) will.entry) }
{
    match will {
        Some((topic, bytes)) => Ok(Some(Message::new(alloc, user, topic, bytes, Some(conn))?)),
        None => Ok(None),
    }
}
