//! A CONNECT (sections 3.1 and 3.1.4): judged, and then the client's older connection is taken over.
ghost use Rattle.std.specs.Prelude.{ℕ, ◌≡◌, ◌∷◌, ◌++◌, [], IfOk, IfSome, None, OnOk, false, true, not, if◌then◌else◌};
ghost use Rattle.std.specs.List.{find, position};
ghost use Rattle.std.specs.Option.{option_map};
ghost use Rattle.spk_packets.specs.View.{will_view};
ghost use Rattle.spk_broker_rules.specs.Lawful.{IsLawful};
ghost use Rattle.spk_broker_rules.specs.Plan.{Accept, Forget, Seen, connect, has_bad_topic, join, take_over, tell_older};
ghost use Rattle.spk_broker_rules.specs.Step.{Turn, act, acts, is_away, is_newcomer, connection_of, older_in, welcome_in};
ghost use Rattle.spk_broker_rules.specs.Words.{option_list, will_message};
ghost use Rattle.spk_broker.specs.Asking.{newcomers_now, passes, sessions_now};
ghost use Rattle.spk_broker.specs.Called.{AreInOrder};
ghost use Rattle.spk_broker.specs.Connecting.{Comes, judged};
ghost use Rattle.spk_broker.specs.Drafts.{draft_view};
ghost use Rattle.spk_broker.specs.Entering.{HasRoom, IsWhole};
ghost use Rattle.spk_broker.specs.Filing.{IsIndex};
ghost use Rattle.spk_broker.specs.Parts.{connection_now, connection_was, app_message_view};
ghost use Rattle.spk_broker.specs.Sendable.{is_sendable};
ghost use Rattle.spk_broker.specs.Touched.{IsStill};
ghost use Rattle.spk_broker.specs.View.{Stands, state_now, state_was};
ghost use Rattle.spk_broker.specs.declared.out.Draft.{Draft};

use crate::accept::Entry;
use crate::app_message::AppMessage;
use crate::out::{Conn, Draft};
use crate::queries::{away_place, client_places, is_welcome, newcomer_place, older};
use crate::session::{Connection, Session};
use crate::state::State;
use spk_packets::{Packet, Will};
use spk_topics::{Topic, Tree};
use std::alloc::AllocError;

/// What a CONNECT comes to.
#[derive(Debug, Drop)]
pub(crate) enum Judged {
    /// CONNACK with this code, and closed.
    Refused(u8),
    /// Closed.
    Shut,
    Joins,
}

/// Whether a will has a topic that no message may have (section 4.7).
fn has_bad_topic(will: &Option<Will>) -> bool
    ensures { result ≡ has_bad_topic (option_map will_view will.now) }
{
    match will {
        Some(will) => Topic::read(will.topic.as_str()).is_err(),
        None => false,
    }
}

/// How a CONNECT is judged: the client id, the will's topic, the number of kept sessions (own rules but for the first).
fn judge(sessions: &[Session], client: &str, clean: bool, will: &Option<Will>) -> Judged
    ensures { result ≡ judged (welcome_in client.now (sessions_now sessions.now)) client.now clean
        (option_map will_view will.now) }
{
    if client.is_empty() && !clean {
        return Judged::Refused(2);
    }
    if has_bad_topic(will) {
        return Judged::Shut;
    }
    if !clean && !is_welcome(sessions, client) {
        return Judged::Refused(3);
    }
    Judged::Joins
}

/// The message of a will.
fn app_message_of(will: &Option<Will>) -> Result<Option<AppMessage>, AllocError>
    requires { IfSome (option_map will_view will.now)
        (λ w. is_sendable w.topic w.message w.qos ≡ true) }
    ensures { IfOk result
        (λ p. option_map app_message_view p ≡ option_map will_message (option_map will_view will.now)) }
{
    match will {
        Some(will) => Ok(Some(AppMessage::of(&will.topic, &will.message, will.qos, will.retain)?)),
        None => Ok(None),
    }
}

impl State {
    /// The connection that a newcomer becomes.
    fn connection(&self, conn: Conn, alive: u16, will: Option<AppMessage>) -> Option<Connection>
        ensures value { option_map connection_now result
            ≡ option_map (λ g. connection_of g alive (option_map app_message_view will))
            (find (is_newcomer conn) (newcomers_now self.now.newcomers.items)) }
        ensures whole { IfSome result (λ l. connection_was l ≡ connection_now l) }
    {
        match newcomer_place(&self.newcomers, conn) {
            Some(place) => {
                let newcomer = &self.newcomers[place];
                Some(Connection {
                    conn: newcomer.conn,
                    alive,
                    heard: newcomer.heard,
                    will,
                    drops: newcomer.drops,
                    heard_before: newcomer.heard,
                    drops_before: newcomer.drops,
                })
            }
            None => None,
        }
    }

    /// The connection is about to take up the kept session of its client, or gets a session.
    fn accept(
        &mut self,
        draft: &mut Draft,
        conn: Conn,
        client: &str,
        kept: bool,
        away: Option<usize>,
        alive: u16,
        will: Option<AppMessage>,
    ) -> Result<Option<Entry>, AllocError>
        requires lawful { IsLawful (state_was self.old) }
        requires away { kept ≡ true
            → away ≡ position (passes (is_away client.now)) self.old.sessions.items }
        ensures done { IfOk result (λ e. (t : Turn) → Stands self.old draft.old t
            → Comes self.new draft.new e
            (act (Accept conn client.now kept alive (option_map app_message_view will)) t)) }
        ensures whole { IfOk result (λ e. IfSome e IsWhole) }
        ensures room { IfOk result (λ e. IfSome e (λ x. HasRoom x self.new.sessions)) }
        ensures now { state_now self.new ≡ state_now self.old }
        ensures same { state_was self.new ≡ state_was self.old }
    {
        match self.connection(conn, alive, will) {
            Some(connection) => Ok(Some(self.prepare(draft, client, kept, away, connection)?)),
            None => Ok(None),
        }
    }

    /// The older connection's will and what follows it are routed.
    fn take_over(
        &mut self,
        draft: &mut Draft,
        tree: &Option<Tree>,
        older: Option<Conn>,
    ) -> Result<(), AllocError>
        requires index { IsIndex tree.now (state_now self.old).sessions }
        requires order { AreInOrder tree.now self.old.sessions.items }
        ensures done { OnOk result
            ((t : Turn) → Stands self.old draft.old t
            → Stands self.new draft.new (acts (take_over older) t)) }
        ensures none { older ≡ None → self.new ≡ self.old }
        ensures same { state_was self.new ≡ state_was self.old }
    {
        if let Some(older) = older {
            self.leave(draft, older, true)?;
            self.route(draft, tree)?;
        }
        Ok(())
    }

    /// Where the first kept session of the client without a connection stands: where nobody was taken over, where it stood before.
    fn away_now(&self, client: &str, older: Option<Conn>, before: Option<usize>) -> Option<usize>
        requires { older ≡ None
            → before ≡ position (passes (is_away client.now)) self.now.sessions.items }
        ensures { result ≡ position (passes (is_away client.now)) self.now.sessions.items }
    {
        match older {
            Some(_) => away_place(&self.sessions, client),
            None => before,
        }
    }

    /// A clean session ends the kept one of its client, which stands at this place, if there is one. Whether there was one.
    fn clean_up(&mut self, client: &str, clean: bool, away: Option<usize>) -> bool
        requires away { away ≡ position (passes (is_away client.now)) self.old.sessions.items }
        ensures still { result ≡ false → IsStill self.old → IsStill self.new }
        ensures kept { clean ≡ false → self.new ≡ self.old }
        ensures done { (x : Draft) (t : Turn) → Stands self.old x t
            → Stands self.new x (acts (if clean then Forget client.now ∷ [] else []) t) }
        ensures same { state_was self.new ≡ state_was self.old }
    {
        if clean {
            self.forget(client, away)
        } else {
            false
        }
    }

    /// The client's older connection is taken over (section 3.1.4), and the newer one is about to enter.
    fn join(
        &mut self,
        draft: &mut Draft,
        tree: &Option<Tree>,
        conn: Conn,
        client: &str,
        clean: bool,
        alive: u16,
        will: Option<AppMessage>,
    ) -> Result<Option<Entry>, AllocError>
        requires index { IsIndex tree.now (state_now self.old).sessions }
        requires order { AreInOrder tree.now self.old.sessions.items }
        requires lawful { IsLawful (state_was self.old) }
        ensures done { IfOk result
            (λ e. (t : Turn) → Stands self.old draft.old t → Comes self.new draft.new e
            (acts (join (older_in client.now t.broker.sessions) conn client.now clean alive
            (option_map app_message_view will)) t)) }
        ensures whole { IfOk result (λ e. IfSome e IsWhole) }
        ensures room { IfOk result (λ e. IfSome e (λ x. HasRoom x self.new.sessions)) }
        ensures still { OnOk result
            (draft.new.is_still ≡ true → IsStill self.old → IsStill self.new) }
        ensures same { state_was self.new ≡ state_was self.old }
    {
        let places = client_places(&self.sessions, client);
        let older = older(&self.sessions, client, places.joined);
        self.take_over(draft, tree, older)?;
        let away = self.away_now(client, older, places.away);
        let was_kept = self.clean_up(client, clean, away);
        let entry = self.accept(draft, conn, client, !clean, away, alive, will)?;
        draft.tell_older(older)?;
        draft.is_still = older.is_none() && !was_kept;
        Ok(entry)
    }

    /// A first packet that is a CONNECT.
    pub(crate) fn connect(
        &mut self,
        draft: &mut Draft,
        tree: &Option<Tree>,
        conn: Conn,
        client: &str,
        clean: bool,
        alive: u16,
        will: &Option<Will>,
    ) -> Result<Option<Entry>, AllocError>
        requires will { IfSome (option_map will_view will.now)
            (λ w. is_sendable w.topic w.message w.qos ≡ true) }
        requires index { IsIndex tree.now (state_now self.old).sessions }
        requires order { AreInOrder tree.now self.old.sessions.items }
        requires lawful { IsLawful (state_was self.old) }
        ensures done { IfOk result
            (λ e. (seen : Seen) (t : Turn) → seen.older ≡ older_in client.now t.broker.sessions
            → seen.welcome ≡ welcome_in client.now t.broker.sessions → Stands self.old draft.old t
            → Comes self.new draft.new e
            (acts (connect seen conn client.now clean alive (option_map will_view will.now)) t)) }
        ensures whole { IfOk result (λ e. IfSome e IsWhole) }
        ensures room { IfOk result (λ e. IfSome e (λ x. HasRoom x self.new.sessions)) }
        ensures still { IfOk result (λ e. IfSome e
            (λ x. draft.new.is_still ≡ true → IsStill self.old → IsStill self.new)) }
        ensures same { state_was self.new ≡ state_was self.old }
    {
        match judge(&self.sessions, client, clean, will) {
            Judged::Refused(code) => {
                self.turn_away(draft, conn, code)?;
                Ok(None)
            }
            Judged::Shut => {
                self.shut(draft, conn)?;
                Ok(None)
            }
            Judged::Joins => {
                let will = app_message_of(will)?;
                Ok(self.join(draft, tree, conn, client, clean, alive, will)?)
            }
        }
    }
}

impl Draft {
    /// The older connection is to be closed, where there is one.
    fn tell_older(&mut self, older: Option<Conn>) -> Result<(), AllocError>
        ensures { OnOk result (draft_view self.new ≡ record (draft_view self.old) {
          closes = (draft_view self.old).closes ++ option_list older;
        }) }
    {
        match older {
            Some(older) => self.tell(older),
            None => Ok(()),
        }
    }
}
