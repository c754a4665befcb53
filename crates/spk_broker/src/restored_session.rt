//! A session put together again.
ghost use Rattle.std.specs.Prelude.{◌≡◌, ◌∷◌, ◌++◌, [], IfOk, IfErr, OnOk, OnErr, Some, None, true, false, string_bytes};
ghost use Rattle.std.specs.Option.{option_map};
ghost use Rattle.spk_broker_rules.specs.Step.{conn_at};
ghost use Rattle.spk_broker.specs.Entering.{whole};
ghost use Rattle.spk_broker.specs.Filters.{is_filter};
ghost use Rattle.spk_broker.specs.Parts.{connection_now, connection_was, app_message_view};
ghost use Rattle.spk_broker.specs.Restoring.{IsRefused, bare_session, is_in_flight, is_free, is_grant, is_app_message, kept_connection, message_view};
ghost use Rattle.spk_broker.specs.declared.part_fault.PartFault.TheVariants as fault;

use crate::app_message::AppMessage;
use crate::message::{Message, app_message};
use crate::out::Conn;
use crate::part_fault::PartFault;
use crate::session::{Connection, Grant, InFlight, Session};
use spk_session::Identifiers;
use spk_topics::Filter;
use std::alloc::Global;
use std::marker::Model;

/// The most identifiers in use (own rule).
const MOST_UNACKED: usize = 1_024;

/// A session (section 3.1.2.4) as it was kept, which is put together part by part.
#[derive(Debug, Drop)]
pub struct RestoredSession {
    key: u64,
    client: String,
    kept: bool,
    conn: Option<Conn>,
    will: Option<AppMessage>,
    grants: Vec<Grant>,
    ids: Box<Identifiers>,
    in_flight: Vec<InFlight>,
}

impl Model for RestoredSession {
    ghost use Rattle.spk_broker_rules.specs.Data as plain;
    ghost use Rattle.spk_broker.specs.Kept.{session_view};

    ghost Value = { plain.Session };

    ghost view = { session_view };
}

/// Whether a text is a topic filter (section 4.7).
#[tactic(auto, unfolding(crate::specs::Filters::is_filter))]
fn is_filter(text: &str) -> bool
    ensures { result ≡ is_filter text.now }
{
    match Filter::read(text) {
        Ok(_filter) => true,
        Err(_fault) => false,
    }
}

/// Whether this identifier is none of those in use, and may be one more.
fn is_free(used: &[u16], id: u16) -> bool
    ensures { result ≡ is_free id used.now }
{
    id != 0 && !used.contains(&id) && used.len() < MOST_UNACKED
}

/// One more identifier is in use.
fn take(ids: &mut Identifiers, id: u16)
    requires { is_free id ids.old.used ≡ true }
    ensures { ids.new ≡ record { used = ids.old.used ++ id ∷ []; last = id } }
{
    let count = ids.waiting().len();
    ids.rewind(count, id.saturating_sub(1));
    let _ = ids.sent();
}

/// A connection with a keep alive of one second that was heard at the moment 0.
fn connection_of(conn: Option<Conn>, will: Option<AppMessage>) -> Option<Connection>
    ensures now { option_map connection_now result
        ≡ option_map (λ c. kept_connection c (option_map app_message_view will)) conn }
    ensures was { option_map connection_was result
        ≡ option_map (λ c. kept_connection c (option_map app_message_view will)) conn }
{
    match conn {
        Some(conn) => Some(Connection {
            conn,
            alive: 1,
            heard: 0,
            will,
            drops: 0,
            heard_before: 0,
            drops_before: 0,
        }),
        None => None,
    }
}

impl RestoredSession {
    /// A session of this number and of this client, without a connection, grants, identifiers and messages. Refused with NoMemory (1) alone.
    pub fn new(
        alloc: Global,
        key: u64,
        client: &str,
        kept: bool,
    ) -> Result<RestoredSession, PartFault>
        ensures fresh { IfOk result (λ s. s ≡ bare_session key client.now kept) }
        ensures fault { IfErr result (λ e. e ≡ fault.NoMemory) }
    {
        Ok(RestoredSession {
            key,
            client: String::from_str(alloc, client)?,
            kept,
            conn: None,
            will: None,
            grants: Vec::new(alloc),
            ids: Box::new(alloc, Identifiers::new())?,
            in_flight: Vec::new(alloc),
        })
    }

    /// Its connection, as if it had a keep alive of one second and was heard at the moment 0, without a will.
    pub fn connect(&mut self, conn: Conn)
        ensures { self.new ≡ record self.old { here = Some (kept_connection conn None) } }
    {
        self.conn = Some(conn);
        self.will = None;
    }

    /// The same, with a will (section 3.1.2.5). Refused with Unfit (139) exactly where that can't be written as a PUBLISH.
    pub fn connect_with(&mut self, conn: Conn, will: Message) -> Result<(), PartFault>
        ensures done { OnOk result (self.new
            ≡ record self.old { here = Some (kept_connection conn (Some (message_view will))) }) }
        ensures fit { OnOk result (is_app_message (message_view will) ≡ true) }
        ensures refused { IfErr result
            (λ e. (e ≡ fault.Unfit) × (is_app_message (message_view will) ≡ false)) }
        ensures err { OnErr result (self.new ≡ self.old) }
    {
        let Some(app_message) = app_message(will) else {
            return Err(PartFault::Unfit);
        };
        self.conn = Some(conn);
        self.will = Some(app_message);
        Ok(())
    }

    /// One more grant, behind those that are there. Refused with Unfit (139) exactly where the filter is none (section 4.7) or the QoS above 1.
    pub fn grant(&mut self, filter: String, qos: u8) -> Result<(), PartFault>
        ensures done { OnOk result (self.new
            ≡ record self.old { grants = self.old.grants ++ (string_bytes filter, qos) ∷ [] }) }
        ensures fit { OnOk result (is_grant (string_bytes filter) qos ≡ true) }
        ensures refused { IfErr result (IsRefused (is_grant (string_bytes filter) qos)) }
        ensures err { OnErr result (self.new ≡ self.old) }
    {
        if qos > 1 || !is_filter(filter.as_str()) {
            return Err(PartFault::Unfit);
        }
        self.grants.push(Grant { filter, qos })?;
        Ok(())
    }

    /// One more identifier in use, behind those that are there, and the one given last. Refused with Unfit (139) exactly where it is 0 or in use, or
    /// where 1,024 are in use. It takes no memory.
    pub fn give(&mut self, id: u16) -> Result<(), PartFault>
        ensures done { OnOk result
            (self.new ≡ record self.old { used = self.old.used ++ id ∷ []; last = id }) }
        ensures fit { OnOk result (is_free id self.old.used ≡ true) }
        ensures refused { IfErr result
            (λ e. (e ≡ fault.Unfit) × (is_free id self.old.used ≡ false)) }
        ensures err { OnErr result (self.new ≡ self.old) }
    {
        if !is_free(self.ids.waiting(), id) {
            return Err(PartFault::Unfit);
        }
        take(&mut self.ids, id);
        Ok(())
    }

    /// The identifier given last, 0 where none was.
    pub fn gave(&mut self, last: u16)
        ensures { self.new ≡ record self.old { last = last } }
    {
        let count = self.ids.waiting().len();
        self.ids.rewind(count, last);
    }

    /// One more message that isn't acknowledged, behind those that are there, and whether it was ever handed out. Refused with Unfit (139)
    /// exactly where it isn't of QoS 1 or can't be written as a PUBLISH, and where its identifier is 0.
    pub fn keep(&mut self, id: u16, message: Message, handed: bool) -> Result<(), PartFault>
        ensures done { OnOk result (self.new
            ≡ record self.old {
              in_flight = self.old.in_flight
                  ++ (record { id = id; app_message = message_view message; handed = handed }) ∷ [];
            }) }
        ensures fit { OnOk result (is_in_flight id (message_view message) ≡ true) }
        ensures refused { IfErr result (IsRefused (is_in_flight id (message_view message))) }
        ensures err { OnErr result (self.new ≡ self.old) }
    {
        if id == 0 || message.qos != 1 {
            return Err(PartFault::Unfit);
        }
        let Some(app_message) = app_message(message) else {
            return Err(PartFault::Unfit);
        };
        self.in_flight.push(InFlight {
            id,
            app_message,
            handed,
        })?;
        Ok(())
    }

    /// Its number.
    pub(crate) fn key(&self) -> u64
        ensures { result ≡ self.now.key }
    {
        self.key
    }

    /// Its connection, if it has one.
    pub(crate) fn connection(&self) -> Option<Conn>
        ensures { result ≡ conn_at self.now }
    {
        self.conn
    }

    /// The session as it stands between two calls. It takes no memory.
    pub(crate) fn into_session(self) -> Session
        ensures { result ≡ whole self }
    {
        let ids = self.ids;
        let in_flight = self.in_flight;
        let here = connection_of(self.conn, self.will);
        let used_before = ids.waiting().len();
        let last_before = ids.last();
        let in_flight_before = in_flight.len();
        Session {
            key: self.key,
            client: self.client,
            kept: self.kept,
            here,
            left: None,
            ended: false,
            grants: self.grants,
            regrant: None,
            ids,
            in_flight,
            used_before,
            last_before,
            in_flight_before,
        }
    }
}
