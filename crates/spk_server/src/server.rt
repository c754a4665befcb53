//! The server, and how clients come.

ghost use Rattle.std.specs.Prelude.{◌≡◌, ◌+◌, ◌<◌, nat_le, length, None, IfOk, OnOk, OnErr, false};
ghost use Rattle.spk_broker_rules.specs.Step.{is_full};
ghost use Rattle.spk_clients.specs.Data.{AreNoted, IsSettled, client_count};
ghost use Rattle.spk_broker_notes.specs.Noted as note;
ghost use Rattle.spk_broker_rules.specs.Data.{fresh_broker};
ghost use Rattle.spk_server.specs.Calls.{IsDone, room_with, timed};
ghost use Rattle.spk_server.specs.Calls as call;
ghost use Rattle.spk_server.specs.Rooms.{room_of};
ghost use Rattle.spk_server.specs.Step.{joined};

use crate::fault::ServerFault;
use crate::tally::Tally;
use spk_broker::{Broker, Conn};
use spk_broker_notes::{NoteFault, NotedBroker};
use spk_clients::Clients;
use std::alloc::Global;
use std::collections::VecDeque;
use std::fmt;

/// The most clients at once (own rule).
const MOST_CLIENTS: usize = 1_000;

/// The drop that closes a connection (own rule).
const LIMIT: u16 = 128;

/// How long a client may send nothing, in milliseconds (own rule).
const QUIET: u64 = 10_000;

/// The broker and its clients. Moments are in milliseconds; one that is less than the last counts as that.
#[derive(Drop)]
pub struct Server {
    pub(crate) noted: NotedBroker,
    pub(crate) clients: Clients,
    /// Who isn't read, since it waits for another, each once.
    pub(crate) held: VecDeque<Conn>,
    /// The latest moment.
    pub(crate) now: u64,
    /// The moment of the last tick.
    pub(crate) ticked: u64,
    pub(crate) tally: Tally,
}

impl fmt::Debug for Server {
    fn fmt<W: fmt::Write>(&self, f: &mut fmt::Formatter<W>) -> fmt::Result {
        f.write_str("Server { .. }")
    }
}

impl Server {
    /// A broker without clients, of which nothing is noted.
    pub fn new(alloc: Global) -> Server
        ensures fresh { room_of result ≡ room_with (record { broker = fresh_broker 128; notes = None }) }
        ensures settled { IsSettled result.clients }
    {
        Server::over_broker(alloc, NotedBroker::new(alloc, LIMIT))
    }

    /// This broker without clients, as one that was kept is once its connections ended. Time goes on from its clock; what comes to it is noted where it notes.
    pub fn over_broker(alloc: Global, noted: NotedBroker) -> Server
        ensures fresh { room_of result ≡ room_with noted }
        ensures settled { IsSettled result.clients }
    {
        let now = noted.broker().clock();
        Server {
            noted,
            clients: Clients::new(alloc),
            held: VecDeque::new(alloc),
            now,
            ticked: now,
            tally: Tally {
                heard: 0,
                sent: 0,
                dropped: 0,
                stalls: 0,
            },
        }
    }

    /// How many clients are here, those among them whose end came and whose sockets aren't shut yet.
    pub fn clients(&self) -> usize
        ensures { result ≡ client_count self.entry.now.clients }
    {
        self.clients.len()
    }

    /// How many sessions the broker has, clean and kept ones, with and without a connection (section 3.1.2.4).
    pub fn sessions(&self) -> usize
        ensures { result ≡ length self.entry.now.noted.broker.sessions }
    {
        self.noted.broker().sessions()
    }

    /// How many topics have a retained message (section 3.3.1.3).
    pub fn retained(&self) -> usize
        ensures { result ≡ length self.entry.now.noted.broker.retained }
    {
        self.noted.broker().retained()
    }

    /// What came and went since the server began, in numbers.
    pub fn tally(&self) -> Tally
        ensures { result ≡ (room_of self.entry.now).tally }
    {
        self.tally
    }

    /// Whether no further client may come: 1,000 are here (own rule).
    pub fn is_full(&self) -> bool
        ensures { result ≡ nat_le 1000 (client_count self.entry.now.clients) }
    {
        self.clients.len() >= MOST_CLIENTS
    }

    /// Time goes on.
    pub(crate) fn at(&mut self, now: u64)
        ensures timed { room_of self.new ≡ timed now (room_of self.old) }
        ensures clients { self.new.clients ≡ self.old.clients }
    {
        self.now = self.now.max(now);
    }

    /// Opens a connection, and keeps its client. Where it fails nothing has changed.
    fn open(&mut self, until: u64) -> Result<Conn, ServerFault>
        ensures joins { IfOk result (λ conn. (is_full self.old.noted.broker ≡ false)
            × (conn ≡ self.old.noted.broker.given + 1)
            × (room_of self.new ≡ joined conn until (room_of self.old))) }
        ensures err { OnErr result (room_of self.new ≡ room_of self.old) }
        ensures settled { IsSettled self.old.clients → IsSettled self.new.clients }
    {
        self.held.reserve(self.clients.len().saturating_add(1))?;
        self.clients.reserve()?;
        let client = self.clients.client(until)?;
        let conn = match self.noted.open(self.now) {
            Ok(conn) => conn,
            Err(NoteFault::NoMemory) => return Err(ServerFault::NoMemory),
            Err(_) => return Err(ServerFault::Limit),
        };
        match self.clients.insert(conn, client) {
            Ok(()) => Ok(conn),
            Err(_) => unreachable!(),
        }
    }

    /// A client came: the number of its connection. It has ten seconds for its CONNECT (own rule). Refused with Limit (31)
    /// where 1,000 clients are here or the broker may have no further connection. Where it fails nobody came.
    pub fn accepted(&mut self, now: u64) -> Result<Conn, ServerFault>
        ensures done { IfOk result
            (λ conn. IsDone (call.Accepted conn now) (room_of self.old) (room_of self.new)) }
        ensures err { OnErr result (IsDone (call.TurnedAway now) (room_of self.old) (room_of self.new)) }
        ensures few { OnOk result (client_count self.old.clients < 1000) }
        ensures settled { IsSettled self.old.clients → IsSettled self.new.clients }
    {
        self.at(now);
        if self.is_full() {
            return Err(ServerFault::Limit);
        }
        let until = self.now.saturating_add(QUIET);
        let conn = self.open(until)?;
        Ok(conn)
    }
}
