//! The broker, and the connections of its clients.
ghost use Rattle.std.specs.Prelude.{◌≡◌, ℕ, ◌<◌, ◌||◌, Bool, [], length, Some, None, IfOk, OnOk, true, false};
ghost use Rattle.std.specs.Option.{IfSome, IfNone};
ghost use Rattle.spk_packets.specs.View.{view};
ghost use Rattle.spk_broker_rules.specs.Plan as event;
ghost use Rattle.spk_broker_rules.specs.Step.{after, is_full};
ghost use Rattle.spk_plant_broker.specs.Data.{Room};
ghost use Rattle.spk_plant_broker.specs.Holding.{FitsDesk, Gives, IsOpened, MayOpen};
ghost use Rattle.spk_plant_broker.specs.Step.{called_on, client_of, conn_at, fresh_room, is_client, known, packet_on};

use crate::answers::{closed_on, fault_on, packet_on, refused_on};
use spk_broker::{Broker, BrokerFault, Conn, Out};
use spk_packets::{Packet, PacketFault};
use spk_session::Sort;
use std::alloc::{AllocError, Global};

/// What is kept of a client.
#[derive(Clone, Copy, Drop)]
pub(crate) struct Client {
    /// The connection that it opened last.
    pub(crate) conn: Option<Conn>,
    /// The broker closed it: it opens none any more.
    pub(crate) closed: bool,
}

/// The broker, and whose its connections are.
#[derive(Drop)]
pub(crate) struct Desk {
    alloc: Global,
    pub(crate) broker: Broker,
    /// Who opened connection 1, 2, ..
    pub(crate) openers: Vec<usize>,
    pub(crate) clients: Vec<Client>,
}

impl Desk {
    /// A new broker, and so many clients that didn't come yet.
    pub(crate) fn new(alloc: Global, limit: u16, count: usize) -> Result<Desk, AllocError>
        ensures fits { IfOk result (λ d. FitsDesk limit (λ k. false) d fresh_room) }
        ensures sized { IfOk result (λ d. length d.clients.items ≡ count) }
    {
        let client = Client {
            conn: None,
            closed: false,
        };
        Ok(Desk {
            alloc,
            broker: Broker::new(alloc, limit),
            openers: Vec::new(alloc),
            clients: vec![in alloc; client; count]?,
        })
    }

    /// Nothing to send and nobody to close.
    pub(crate) fn nothing(&self) -> Out
        ensures { (result.sends.items ≡ []) × (result.closes.items ≡ []) }
    {
        Out {
            sends: Vec::new(self.alloc),
            closes: Vec::new(self.alloc),
        }
    }

    /// The client that opened a connection.
    pub(crate) fn client_of(&self, conn: Conn) -> Option<usize>
        ensures { result ≡ client_of self.now.openers.items conn }
    {
        if conn == 0 {
            return None;
        }
        let index = (conn - 1) as usize;
        self.openers.get(index).copied()
    }

    /// Whether the broker closed a client.
    pub(crate) fn is_closed(&self, client: usize) -> bool
        requires { client < length self.now.clients.items }
        ensures { (limit : ℕ) (closed : ℕ → Bool) (r : Room) → FitsDesk limit closed self.now r
            → result ≡ closed client }
    {
        self.clients[client].closed
    }

    /// The connection that a client opened last.
    fn conn_of(&self, client: usize) -> Option<Conn>
        requires { client < length self.now.clients.items }
        ensures { (limit : ℕ) (closed : ℕ → Bool) (r : Room) → FitsDesk limit closed self.now r
            → result ≡ r.last client }
    {
        self.clients[client].conn
    }

    /// The broker closed a client.
    pub(crate) fn shut(&mut self, client: usize)
        ensures fits { (limit : ℕ) (closed : ℕ → Bool) (r : Room) → FitsDesk limit closed self.old r
            → FitsDesk limit (λ k. closed k || is_client k (Some client)) self.new r }
        ensures sized { length self.new.clients.items ≡ length self.old.clients.items }
        ensures openers { self.new.openers ≡ self.old.openers }
    {
        if client < self.clients.len() {
            self.clients[client].closed = true;
        }
    }

    /// A client opens a connection. None where the broker may have no further one.
    fn open(&mut self, client: usize, now: u64) -> Result<Option<Conn>, AllocError>
        requires { client < length self.old.clients.items }
        ensures some { IfOk result
            (λ o. IfSome o (λ conn. (limit : ℕ) (r : Room) → FitsDesk limit r.closed self.old r
            → IsOpened limit now r client conn self.new)) }
        ensures none { IfOk result
            (λ o. IfNone o ((limit : ℕ) (r : Room) → FitsDesk limit r.closed self.old r
            → (is_full (after limit r.events) ≡ true) × FitsDesk limit r.closed self.new r)) }
        ensures sized { length self.new.clients.items ≡ length self.old.clients.items }
        ensures known { IfOk result
            (λ o. IfSome o (λ conn. known self.new.broker (Some conn) ≡ Some conn)) }
        ensures openers { OnOk result (MayOpen client self.old self.new) }
    {
        self.openers.reserve(1)?;
        let conn = match self.broker.open(now) {
            Ok(conn) => conn,
            Err(BrokerFault::Limit) => return Ok(None),
            Err(_) => return Err(AllocError),
        };
        self.openers.push_reserved(client);
        self.clients[client].conn = Some(conn);
        Ok(Some(conn))
    }

    /// A packet of a client without a connection opens one, unless the broker closed that client.
    fn first_packet(&mut self, client: usize, packet: &Packet, now: u64) -> Result<Out, AllocError>
        requires { client < length self.old.clients.items }
        ensures done { IfOk result
            (λ out. (limit : ℕ) (r : Room) → FitsDesk limit r.closed self.old r → r.pending ≡ []
            → Gives limit r (packet_on limit now r client (view packet.now) None) self.new out) }
        ensures sized { length self.new.clients.items ≡ length self.old.clients.items }
        ensures openers { OnOk result (MayOpen client self.old self.new) }
    {
        if self.is_closed(client) {
            return Ok(self.nothing());
        }
        let Some(conn) = self.open(client, now)? else {
            return Ok(self.nothing());
        };
        let Some(out) = packet_on(&mut self.broker, Some(conn), packet, now)? else {
            unreachable!()
        };
        Ok(out)
    }

    /// A packet of a client came.
    pub(crate) fn packet(
        &mut self,
        client: usize,
        packet: &Packet,
        now: u64,
    ) -> Result<Out, AllocError>
        requires { client < length self.old.clients.items }
        ensures done { IfOk result
            (λ out. (limit : ℕ) (r : Room) → FitsDesk limit r.closed self.old r → r.pending ≡ []
            → Gives limit r
            (packet_on limit now r client (view packet.now) (conn_at limit r client)) self.new
            out) }
        ensures sized { length self.new.clients.items ≡ length self.old.clients.items }
        ensures openers { OnOk result (MayOpen client self.old self.new) }
    {
        let conn = self.conn_of(client);
        let Some(out) = packet_on(&mut self.broker, conn, packet, now)? else {
            return self.first_packet(client, packet, now);
        };
        Ok(out)
    }

    /// A client's bytes were no packet. Without a connection they are passed over.
    pub(crate) fn fault(
        &mut self,
        client: usize,
        fault: PacketFault,
        now: u64,
    ) -> Result<Out, AllocError>
        requires { client < length self.old.clients.items }
        ensures done { IfOk result
            (λ out. (limit : ℕ) (r : Room) → FitsDesk limit r.closed self.old r → r.pending ≡ []
            → Gives limit r
            (called_on limit r (λ conn. event.Fault conn fault now) (conn_at limit r client))
            self.new out) }
        ensures sized { length self.new.clients.items ≡ length self.old.clients.items }
        ensures openers { self.new.openers ≡ self.old.openers }
    {
        let conn = self.conn_of(client);
        let Some(out) = fault_on(&mut self.broker, conn, fault, now)? else {
            return Ok(self.nothing());
        };
        Ok(out)
    }

    /// A client's connection ended. Without one nothing happens.
    pub(crate) fn cut(&mut self, client: usize, now: u64) -> Result<Out, AllocError>
        requires { client < length self.old.clients.items }
        ensures done { IfOk result
            (λ out. (limit : ℕ) (r : Room) → FitsDesk limit r.closed self.old r → r.pending ≡ []
            → Gives limit r
            (called_on limit r (λ conn. event.Closed conn now) (conn_at limit r client)) self.new
            out) }
        ensures sized { length self.new.clients.items ≡ length self.old.clients.items }
        ensures openers { self.new.openers ≡ self.old.openers }
    {
        let conn = self.conn_of(client);
        let Some(out) = closed_on(&mut self.broker, conn, now)? else {
            return Ok(self.nothing());
        };
        Ok(out)
    }

    /// An offer was refused. Where its connection stands no more nothing happens.
    pub(crate) fn refused(&mut self, conn: Conn, sort: Sort, now: u64) -> Result<Out, AllocError>
        ensures done { IfOk result
            (λ out. (limit : ℕ) (r : Room) → FitsDesk limit r.closed self.old r → r.pending ≡ []
            → Gives limit r
            (called_on limit r (λ c. event.Refused c sort now)
            (known (after limit r.events) (Some conn))) self.new out) }
        ensures sized { length self.new.clients.items ≡ length self.old.clients.items }
        ensures openers { self.new.openers ≡ self.old.openers }
    {
        let Some(out) = refused_on(&mut self.broker, conn, sort, now)? else {
            return Ok(self.nothing());
        };
        Ok(out)
    }
}
