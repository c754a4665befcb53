//! What each user holds, call by call.
ghost use Rattle.std.specs.Prelude.{◌≡◌, ◌+◌, ◌^◌, ◌<◌, [], IfOk, IfSome, None, OnErr, OnOk, Some, false, map, not, replicate, ◌&&◌, slice_get, true, if◌then◌else◌};
ghost use Rattle.std.specs.List.{sum_by};
ghost use Rattle.std.specs.Option.{option_map, option_map_or};
ghost use Rattle.spk_quota.specs.Data.{fresh};
ghost use Rattle.spk_quota.specs.Figures.{more_filters, more_of, others_of, sum_of};
ghost use Rattle.spk_quota.specs.Held.{bytes_for, fits, held};
ghost use Rattle.spk_quota.specs.Step.{cleared, connected, discarded, ended, forgotten, goes_on, left, lets_in, lets_retain, lets_subscribe, long_away, published, resumed, subscribed, unsubscribed, user_of, with_conn, with_message, with_session, without_retained, without_session};
ghost use Rattle.spk_quota.specs.View.{quotas_view};

use crate::filters::Filter;
use crate::judging::fits;
use crate::limits::{Held, Limits};
use crate::message::{Message, will_message};
use crate::messages::Messages;
use crate::sessions::Session;
use crate::{filters, sessions};
use std::alloc::{AllocError, Global};

/// What each user of a broker holds, and may hold.
#[derive(Debug, Drop)]
pub struct Quotas {
    alloc: Global,
    limits: Vec<Limits>,
    sessions: Vec<Session>,
    filters: Vec<Filter>,
    messages: Messages,
}

impl Quotas {
    /// Nobody holds anything. Users are numbers: places in the list of limits.
    pub fn new(alloc: Global, limits: Vec<Limits>) -> Quotas
        ensures { quotas_view result ≡ fresh limits.items }
    {
        Quotas {
            alloc,
            limits,
            sessions: Vec::new(alloc),
            filters: Vec::new(alloc),
            messages: Messages::new(alloc),
        }
    }

    /// What a user holds.
    pub fn held(&self, user: usize) -> Held
        ensures { result ≡ held (quotas_view self.now) user }
    {
        Held {
            connections: sessions::connections(&self.sessions, user),
            sessions: sessions::count(&self.sessions, user),
            filters: filters::count(&self.filters, user),
            retained: self.messages.count(user),
            bytes: self.messages.bytes(user),
        }
    }

    /// What a user holds beside the session of a client.
    fn held_beside(&self, user: usize, client: &str) -> Held
        ensures { result ≡ held (without_session user client.now (quotas_view self.now)) user }
    {
        Held {
            connections: sessions::other_connections(&self.sessions, user, client),
            sessions: sessions::count_others(&self.sessions, user, client),
            filters: filters::count_others(&self.filters, user, client),
            retained: self.messages.count(user),
            bytes: self.messages.bytes(user),
        }
    }

    /// What a user holds beside its retained message on a topic.
    fn held_but(&self, user: usize, topic: &str) -> Held
        ensures { result ≡ held (without_retained user topic.now (quotas_view self.now)) user }
    {
        Held {
            connections: sessions::connections(&self.sessions, user),
            sessions: sessions::count(&self.sessions, user),
            filters: filters::count(&self.filters, user),
            retained: self.messages.count_others(user, topic),
            bytes: self.messages.bytes_others(user, topic),
        }
    }

    /// What a user holds beside the session of a client, or, where that goes on, all of it but for the connection of this session.
    fn others(&self, user: usize, client: &str, goes_on: bool) -> Held
        ensures { result ≡ others_of (quotas_view self.now) user client.now goes_on }
    {
        if goes_on {
            Held {
                connections: sessions::connections_beside(&self.sessions, user, client),
                ..self.held(user)
            }
        } else {
            self.held_beside(user, client)
        }
    }

    /// Whether a user may come to hold this.
    fn lets(&self, user: usize, others: &Held, more: &Held) -> bool
        ensures lets { result ≡ option_map_or
            (λ l. fits l (held (quotas_view self.now) user) (sum_of others.now more.now))
            (slice_get (quotas_view self.now).limits user) false }
        ensures fit { result ≡ true → others.now.bytes + more.now.bytes < 2 ^ 64 }
    {
        match self.limits.get(user) {
            Some(limits) => fits(limits, &self.held(user), others, more),
            None => false,
        }
    }

    /// Whether a kept session goes on with a CONNECT.
    fn goes_on(&self, user: usize, client: &str, clean: bool) -> bool
        ensures { result ≡ goes_on (quotas_view self.now) user client.now clean }
    {
        !clean && sessions::is_kept(&self.sessions, user, client)
    }

    /// A session of this client is made anew.
    fn make(
        &mut self,
        user: usize,
        conn: u64,
        client: &str,
        kept: bool,
        will: Option<Message>,
    ) -> Result<(), AllocError>
        requires { IfSome will (λ m. sum_by (bytes_for m.user) self.old.messages + m.bytes < 2 ^ 64) }
        ensures ok { OnOk result (quotas_view self.new ≡ record (with_session
            (record { user = user; client = client.now; kept = kept; conn = Some conn; since = 0 })
            [] (quotas_view self.old)) { messages = with_message will self.old.messages }) }
        ensures err { OnErr result (quotas_view self.new ≡ quotas_view self.old) }
    {
        let session = Session::new(self.alloc, user, client, kept, Some(conn), 0)?;
        self.sessions.reserve(1)?;
        self.messages.put(will)?;
        sessions::renew(&mut self.sessions, user, client, session);
        filters::remove(&mut self.filters, user, client);
        Ok(())
    }

    /// A kept session of this client goes on.
    fn go_on(
        &mut self,
        user: usize,
        conn: u64,
        client: &str,
        will: Option<Message>,
    ) -> Result<(), AllocError>
        requires { IfSome will (λ m. sum_by (bytes_for m.user) self.old.messages + m.bytes < 2 ^ 64) }
        ensures ok { OnOk result (quotas_view self.new ≡ record (quotas_view self.old) {
          sessions = map (with_conn user client.now conn) (quotas_view self.old).sessions;
          messages = with_message will self.old.messages;
        }) }
        ensures err { OnErr result (quotas_view self.new ≡ quotas_view self.old) }
    {
        self.messages.put(will)?;
        sessions::seat(&mut self.sessions, user, client, conn);
        Ok(())
    }

    /// A CONNECT (section 3.1) of a client, whose identifier is no other user's, by a connection of this number, with the topic and the bytes of its will, if it has
    /// one with RETAIN and a payload: true where it is let in, and counts; false where a limit refuses it, or its user isn't known, and then nothing changes. Where
    /// the session of this client has a connection already, the new one takes its place, and the user has no connection more.
    pub fn connect(
        &mut self,
        user: usize,
        conn: u64,
        client: &str,
        clean: bool,
        will: Option<(&str, u64)>,
    ) -> Result<bool, AllocError>
        ensures lets { IfOk result (λ lets. lets ≡ lets_in (quotas_view self.old) user conn client.now
            clean (option_map (λ w. (w.0.now, w.1)) will.entry)) }
        ensures ok { IfOk result (λ lets. quotas_view self.new ≡ (if lets
            then connected (quotas_view self.old) user conn client.now clean
            (option_map (λ w. (w.0.now, w.1)) will.entry)
            else quotas_view self.old)) }
        ensures err { OnErr result (quotas_view self.new ≡ quotas_view self.old) }
    {
        let goes_on = self.goes_on(user, client, clean);
        let others = self.others(user, client, goes_on);
        let more = more_of(is_new(goes_on, clean), will);
        if !self.lets(user, &others, &more) {
            return Ok(false);
        }
        let message = will_message(self.alloc, user, conn, will)?;
        if goes_on {
            self.go_on(user, conn, client, message)?;
        } else {
            self.make(user, conn, client, !clean, message)?;
        }
        Ok(true)
    }

    /// A PUBLISH of a user with RETAIN and a payload (section 3.3.1.3), by the bytes of its topic and its payload: true where it counts from now on, in place of what
    /// the user retained on this topic; false where a limit refuses it, or its user isn't known, and then nothing changes.
    pub fn publish(&mut self, user: usize, topic: &str, bytes: u64) -> Result<bool, AllocError>
        ensures lets { IfOk result (λ lets. lets ≡ lets_retain (quotas_view self.old) user topic.now bytes) }
        ensures ok { IfOk result (λ lets. quotas_view self.new ≡ (if lets
            then published (quotas_view self.old) user topic.now bytes else quotas_view self.old)) }
        ensures err { OnErr result (quotas_view self.new ≡ quotas_view self.old) }
    {
        let others = self.held_but(user, topic);
        let more = Held {
            connections: 0,
            sessions: 0,
            filters: 0,
            retained: 1,
            bytes,
        };
        if !self.lets(user, &others, &more) {
            return Ok(false);
        }
        let message = Message::new(self.alloc, user, topic, bytes, None)?;
        self.messages.replace(user, topic, message)?;
        Ok(true)
    }

    /// A PUBLISH with RETAIN and an empty payload (section 3.3.1.3): nobody's retained message on this topic counts any more; wills do.
    pub fn clear(&mut self, topic: &str)
        ensures { quotas_view self.new ≡ cleared (quotas_view self.old) topic.now }
    {
        self.messages.clear(topic);
    }

    /// A DISCONNECT (section 3.14.4): the will of this connection counts no more.
    pub fn discard_will(&mut self, conn: u64)
        ensures { quotas_view self.new ≡ discarded (quotas_view self.old) conn }
    {
        self.messages.discard(conn);
    }

    /// The session of this user and this client is no more.
    fn remove(&mut self, user: usize, client: &str)
        ensures { quotas_view self.new ≡ without_session user client.now (quotas_view self.old) }
    {
        sessions::remove(&mut self.sessions, user, client);
        filters::remove(&mut self.filters, user, client);
    }

    /// The session of this client that has this connection is away since now, or, where it isn't kept, no more.
    fn leave(&mut self, conn: u64, client: &str, now: u64)
        ensures { quotas_view self.new ≡ left (quotas_view self.old) conn client.now now }
    {
        match sessions::owner_here(&self.sessions, conn, client) {
            Some((_, true)) => sessions::leave(&mut self.sessions, conn, client, now),
            Some((user, false)) => self.remove(user, client),
            None => {}
        }
    }

    /// A connection ended: its will counts as a retained message from now on, of the greater size where its user retained one on that topic, and the session of its
    /// client, if it has this connection, is away since now, or, where it isn't kept, no more. It takes no memory.
    pub fn ended(&mut self, conn: u64, client: &str, now: u64)
        ensures { quotas_view self.new ≡ ended (quotas_view self.old) conn client.now now }
    {
        self.leave(conn, client, now);
        self.messages.settle(conn);
    }

    /// The client of the first kept session, in the order of making, that has been without a connection for so many milliseconds.
    pub fn away(&self, now: u64, patience: u64) -> Option<&str>
        ensures { option_map (λ c. c.now) result ≡ long_away (quotas_view self.now) now patience }
    {
        sessions::long_away(&self.sessions, now, patience)
    }

    /// The session of a client ended, if it has no connection.
    pub fn forget(&mut self, client: &str)
        ensures { quotas_view self.new ≡ forgotten (quotas_view self.old) client.now }
    {
        if let Some(user) = sessions::owner_left(&self.sessions, client) {
            self.remove(user, client);
        }
    }

    /// What a user may hold; none where it isn't known.
    pub fn limits(&self, user: usize) -> Option<&Limits>
        ensures { option_map (λ l. l.now) result ≡ slice_get (quotas_view self.now).limits user }
    {
        self.limits.get(user)
    }

    /// The user whose session this client has; none where it has none.
    pub fn owner(&self, client: &str) -> Option<usize>
        ensures { result ≡ user_of (quotas_view self.now) client.now }
    {
        sessions::owner(&self.sessions, client)
    }

    /// A SUBSCRIBE (section 3.8) of a client to these filters: true where its session has each of them from now on, once; false where its user may not have so many,
    /// or where it has no session, and then nothing changes. Refused where memory was, and then nothing changes.
    pub fn subscribe(&mut self, client: &str, texts: &[&str]) -> Result<bool, AllocError>
        ensures lets { IfOk result (λ lets. lets
            ≡ lets_subscribe (quotas_view self.old) client.now (map (λ n. n.now) texts.now)) }
        ensures ok { IfOk result (λ lets. quotas_view self.new ≡ (if lets
            then subscribed (quotas_view self.old) client.now (map (λ n. n.now) texts.now)
            else quotas_view self.old)) }
        ensures err { OnErr result (quotas_view self.new ≡ quotas_view self.old) }
    {
        let Some(user) = self.owner(client) else {
            return Ok(false);
        };
        let missing = filters::missing(self.alloc, &self.filters, user, client, texts)?;
        let others = self.held(user);
        let more = more_filters(missing.len());
        if !self.lets(user, &others, &more) {
            return Ok(false);
        }
        filters::append(&mut self.filters, missing)?;
        Ok(true)
    }

    /// An UNSUBSCRIBE (section 3.10) of a client: its session has these filters no more. Refused where memory was, and then nothing changes.
    pub fn unsubscribe(&mut self, client: &str, texts: &[&str]) -> Result<(), AllocError>
        ensures ok { OnOk result (quotas_view self.new
            ≡ unsubscribed (quotas_view self.old) client.now (map (λ n. n.now) texts.now)) }
        ensures err { OnErr result (quotas_view self.new ≡ quotas_view self.old) }
    {
        match self.owner(client) {
            Some(user) => {
                filters::remove_some(self.alloc, &mut self.filters, user, client, texts)
            }
            None => Ok(()),
        }
    }

    /// A kept session of this user and this client stood at the start, with these filters, each of which counts once, whatever the limits are; its client is away
    /// since now. Where the user isn't known nothing counts. Refused where memory was, and then nothing changes.
    pub fn resume(
        &mut self,
        user: usize,
        client: &str,
        names: &[&str],
        now: u64,
    ) -> Result<(), AllocError>
        ensures ok { OnOk result (quotas_view self.new
            ≡ resumed (quotas_view self.old) user client.now (map (λ n. n.now) names.now) now) }
        ensures err { OnErr result (quotas_view self.new ≡ quotas_view self.old) }
    {
        if user >= self.limits.len() {
            return Ok(());
        }
        let session = Session::new(self.alloc, user, client, true, None, now)?;
        let filters = filters::each_once(self.alloc, user, client, names)?;
        self.sessions.reserve(1)?;
        self.filters.reserve(filters.len())?;
        sessions::renew(&mut self.sessions, user, client, session);
        filters::renew(&mut self.filters, user, client, filters);
        Ok(())
    }
}

/// What comes to a user with a SUBSCRIBE.
fn more_filters(count: usize) -> Held
    ensures { result ≡ more_filters count }
{
    Held {
        connections: 0,
        sessions: 0,
        filters: count as u64,
        retained: 0,
        bytes: 0,
    }
}

/// Whether a kept session is made by a CONNECT.
fn is_new(goes_on: bool, clean: bool) -> bool
    ensures { result ≡ (not goes_on && not clean) }
{
    !goes_on && !clean
}

/// What comes to a user with a CONNECT.
fn more_of(is_new: bool, will: Option<(&str, u64)>) -> Held
    ensures { result ≡ more_of is_new (option_map (λ w. (w.0.now, w.1)) will.entry) }
{
    Held {
        connections: 1,
        sessions: if is_new { 1 } else { 0 },
        filters: 0,
        retained: if will.is_some() { 1 } else { 0 },
        bytes: match will {
            Some((_, bytes)) => bytes,
            None => 0,
        },
    }
}
