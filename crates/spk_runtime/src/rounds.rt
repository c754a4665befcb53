//! One round of the loop: what is ready is read once, what came of it is kept, where it is to be, and then written.
ghost use Rattle.std.specs.Prelude.{◌≢◌, IfErr};

use crate::fault::{ServeFault, of_store};
use crate::holdings::{Heavy, Holdings};
use crate::line::{Line, Read, Written};
use crate::port::Port;
use spk_broker_notes::NotedBroker;
use spk_broker_store::{Disk, Store, StoreFault};
use spk_door::Door;
use spk_server::{Cause, Conn, Server, ServerFault};
use spk_status::{Closes, Figures};
use std::alloc::{AllocError, Global};
use std::collections::{HashMap, VecDeque};

/// How many bytes are read at once (own rule).
const PIECE: usize = 65_536;

/// How often a client is written to in a round (own rule).
const WRITES: usize = 16;

/// How often a write is tried again where others wait, in milliseconds (own rule). The system says that a socket takes more only once a third
/// of its buffer is free, which takes a slow client longer than others wait for it.
const AGAIN: u64 = 10;

/// The server and its clients' sockets, by the numbers of their connections. `serve` runs it over TCP.
#[derive(Drop)]
pub struct Rounds<P: Port> {
    alloc: Global,
    pub(crate) server: Server,
    lines: HashMap<Conn, Line<P>>,
    /// Who is to be read.
    ready: VecDeque<Conn>,
    /// To whom more is to be written than went in one round.
    more: VecDeque<Conn>,
    /// Who is written to last in a round: those who were read in it.
    last: VecDeque<Conn>,
    /// How many times who is ready was read.
    turn: u64,
    /// Who took nothing at the last write.
    blocked: VecDeque<Conn>,
    /// When these are tried again at the earliest.
    again: u64,
    piece: Vec<u8>,
    batch: Vec<u8>,
    /// How many sockets were shut.
    closes: Closes,
    /// What users hold, where there are some.
    holdings: Option<Holdings>,
}

/// Reads once of a client, where users may hold so much as far as that.
fn read_once<P: Port>(
    line: &mut Line<P>,
    piece: &mut [u8],
    conn: Conn,
    holdings: &mut Option<Holdings>,
) -> Read {
    match holdings {
        Some(holdings) => line.read_within(piece, conn, &mut holdings.quotas),
        None => line.read(piece),
    }
}

impl<P: Port> Rounds<P> {
    /// Nobody came yet, and nothing is kept. Refused only where memory is.
    pub fn new(alloc: Global) -> Result<Rounds<P>, AllocError> {
        Rounds::around(alloc, Server::new(alloc))
    }

    /// Nobody came yet, to this broker. Refused only where memory is.
    pub fn over_broker(alloc: Global, noted: NotedBroker) -> Result<Rounds<P>, AllocError> {
        Rounds::around(alloc, Server::over_broker(alloc, noted))
    }

    fn around(alloc: Global, server: Server) -> Result<Rounds<P>, AllocError> {
        Ok(Rounds {
            alloc,
            server,
            lines: HashMap::new(alloc),
            ready: VecDeque::new(alloc),
            more: VecDeque::new(alloc),
            last: VecDeque::new(alloc),
            turn: 0,
            blocked: VecDeque::new(alloc),
            again: 0,
            piece: Vec::from_elem(alloc, 0, PIECE)?,
            batch: Vec::with_capacity(alloc, PIECE)?,
            closes: Closes::new(),
            holdings: None,
        })
    }

    /// From now on each user holds what is within its limits. What the broker holds of kept sessions is counted for the users of this door.
    pub fn hold(&mut self, door: &Door, mut holdings: Holdings) -> Result<(), AllocError> {
        holdings.resume(self.alloc, door, self.server.broker(), self.server.now())?;
        self.holdings = Some(holdings);
        Ok(())
    }

    /// Room for one more client.
    pub(crate) fn reserve(&mut self) -> Result<(), AllocError> {
        let count = self.lines.len().saturating_add(1);
        self.ready.reserve(count)?;
        self.more.reserve(count)?;
        self.last.reserve(count)?;
        self.blocked.reserve(count)?;
        Ok(())
    }

    /// A client's socket. Where memory is refused it is dropped.
    pub(crate) fn seat(&mut self, conn: Conn, port: P) -> Result<(), AllocError> {
        self.lines.insert(conn, Line::new(port))?;
        Ok(())
    }

    /// A client came, with this socket: the number of its connection. None where there is no room or memory: its socket is dropped.
    pub fn come(&mut self, port: P, now: u64) -> Result<Option<Conn>, ServerFault> {
        if self.reserve().is_err() {
            return Ok(None);
        }
        let Ok(conn) = self.server.accepted(now) else {
            return Ok(None);
        };
        if self.seat(conn, port).is_err() {
            self.turn_away(conn, now)?;
            return Ok(None);
        }
        Ok(Some(conn))
    }

    /// A client's socket. None where it was shut.
    pub fn port(&mut self, conn: Conn) -> Option<&mut P> {
        match self.lines.get_mut(&conn) {
            Some(line) => Some(&mut line.port),
            None => None,
        }
    }

    /// A client is to be read.
    pub fn may_read(&mut self, conn: Conn, closing: bool) {
        let Some(line) = self.lines.get_mut(&conn) else {
            return;
        };
        line.closing = line.closing || closing;
        let was_ready = line.ready;
        line.ready = true;
        if !was_ready {
            let _ = self.ready.push_back(conn);
        }
    }

    /// A client may be written to.
    pub fn may_write(&mut self, conn: Conn) -> Result<(), ServerFault> {
        let Some(line) = self.lines.get_mut(&conn) else {
            return Ok(());
        };
        if line.writable && !line.port.waits() {
            return Ok(());
        }
        line.writable = true;
        self.write(conn)
    }

    /// Reads once of a client, and says whether it is to be read again.
    fn read(&mut self, conn: Conn, now: u64) -> Result<bool, ServerFault> {
        let Some(line) = self.lines.get_mut(&conn) else {
            return Ok(false);
        };
        match read_once(line, self.piece.as_mut_slice(), conn, &mut self.holdings) {
            Read::Some(count) => {
                line.heard = self.turn;
                let again = line.ready;
                if let Some(bytes) = self.piece.as_slice().get(..count) {
                    self.server.read(conn, bytes, now)?;
                }
                Ok(again)
            }
            Read::Nothing => Ok(line.ready),
            Read::End => {
                self.server.gone(conn, now)?;
                Ok(false)
            }
            Read::Failed => {
                self.turn_away(conn, now)?;
                Ok(false)
            }
        }
    }

    /// Whether what a client sends next may be a password.
    fn may_log_in(&self, conn: Conn) -> bool {
        match self.lines.get(&conn) {
            Some(line) => line.port.may_log_in(),
            None => false,
        }
    }

    /// Reads each client that is ready once; who waits for another stays ready. Of those who may log in one is read, so that however many
    /// come, the others wait for one password at most (own rule). Whether one is left that may be read at once.
    pub(crate) fn read_all(&mut self, now: u64) -> Result<bool, ServerFault> {
        let mut left = false;
        let mut logs_in = false;
        self.turn = self.turn.wrapping_add(1);
        for _ in 0..self.ready.len() {
            let Some(conn) = self.ready.pop_front() else {
                break;
            };
            let is_login = self.may_log_in(conn);
            if self.server.is_held(conn) {
                let _ = self.ready.push_back(conn);
            } else if is_login && logs_in {
                left = true;
                let _ = self.ready.push_back(conn);
            } else {
                logs_in = logs_in || is_login;
                if self.read(conn, now)? {
                    left = true;
                    let _ = self.ready.push_back(conn);
                }
            }
        }
        Ok(left)
    }

    /// A client took nothing.
    fn block(&mut self, conn: Conn) -> Result<(), ServerFault> {
        let Some(line) = self.lines.get_mut(&conn) else {
            return Ok(());
        };
        if !line.blocked {
            line.blocked = true;
            self.blocked.push_back(conn)?;
        }
        Ok(())
    }

    /// A write is tried again.
    fn try_again(&mut self, conn: Conn) -> Result<(), ServerFault> {
        let Some(line) = self.lines.get_mut(&conn) else {
            return Ok(());
        };
        line.blocked = false;
        line.writable = true;
        self.write(conn)
    }

    /// Where others wait, writes are tried again now and then.
    pub(crate) fn try_all_again(&mut self, now: u64) -> Result<(), ServerFault> {
        if !self.server.is_waiting() || now < self.again {
            return Ok(());
        }
        self.again = now.saturating_add(AGAIN);
        for _ in 0..self.blocked.len() {
            let Some(conn) = self.blocked.pop_front() else {
                break;
            };
            self.try_again(conn)?;
        }
        Ok(())
    }

    /// When a round is to begin at the latest, if no socket does anything.
    pub fn due(&self) -> Option<u64> {
        let due = self.server.due()?;
        if self.server.is_waiting() && !self.blocked.is_empty() {
            return Some(due.min(self.again));
        }
        Some(due)
    }

    /// What was written of what waits for a client. Whether more may be written.
    fn note(&mut self, conn: Conn, written: Written) -> Result<bool, ServerFault> {
        match written {
            Written::Some(count) => {
                self.server.wrote(conn, count)?;
                Ok(true)
            }
            Written::Nothing => {
                self.block(conn)?;
                Ok(false)
            }
            Written::Failed => {
                self.server.cut(conn)?;
                self.may_read(conn, true);
                Ok(false)
            }
        }
    }

    /// Writes once of what waits for a client. None where nothing waits, or its socket takes nothing now.
    fn write_once(&mut self, conn: Conn) -> Option<Written> {
        let line = self.lines.get_mut(&conn)?;
        if !line.writable {
            return None;
        }
        if let Some(written) = line.flush() {
            return Some(written);
        }
        self.batch.clear();
        self.server.gather(conn, &mut self.batch);
        if self.batch.is_empty() {
            let (head, body) = self.server.first(conn)?;
            return Some(line.write(if head.is_empty() { body } else { head }));
        }
        Some(line.write(self.batch.as_slice()))
    }

    /// Writes what waits for a client, as far as it goes.
    fn write(&mut self, conn: Conn) -> Result<(), ServerFault> {
        for _ in 0..WRITES {
            let Some(written) = self.write_once(conn) else {
                return Ok(());
            };
            if !self.note(conn, written)? {
                return Ok(());
            }
        }
        self.more.push_back(conn)?;
        Ok(())
    }

    /// Writes to those to whom more was to be written.
    fn write_more(&mut self) -> Result<(), ServerFault> {
        for _ in 0..self.more.len() {
            let Some(conn) = self.more.pop_front() else {
                break;
            };
            self.write(conn)?;
        }
        Ok(())
    }

    /// Whether a client was read in this round.
    fn was_heard(&self, conn: Conn) -> bool {
        match self.lines.get(&conn) {
            Some(line) => line.heard == self.turn,
            None => false,
        }
    }

    /// Writes to each client for whom something waits, once all is kept that is to be: to those who were read in this round behind the others, so that a message
    /// goes out before the acknowledgement of its publisher. Whether more is to be written at once.
    pub fn write_all(&mut self) -> Result<bool, ServerFault> {
        self.write_more()?;
        for _ in 0..u64::MAX {
            let Some(conn) = self.server.next_to_write() else {
                break;
            };
            if self.was_heard(conn) {
                self.last.push_back(conn)?;
            } else {
                self.write(conn)?;
            }
        }
        for _ in 0..self.last.len() {
            let Some(conn) = self.last.pop_front() else {
                break;
            };
            self.write(conn)?;
        }
        Ok(!self.more.is_empty())
    }

    /// Shuts the socket of the next client who is done: whose, and why its end came. One whom a door ended is refused.
    pub fn shut_next(&mut self) -> Option<(Conn, Cause)> {
        let (conn, mut cause) = self.server.next_to_shut()?;
        if let Some(mut line) = self.lines.remove(&conn) {
            if line.port.is_barred() {
                cause = Cause::Refused;
            }
            if let Some(holdings) = &mut self.holdings {
                line.port
                    .leave(conn, self.server.now(), &mut holdings.quotas);
            }
            line.port.shut();
        }
        self.closes.count(cause);
        Some((conn, cause))
    }

    /// The broker's figures by now.
    pub(crate) fn figures(&self) -> Figures {
        let tally = self.server.tally();
        Figures {
            clients: self.server.clients() as u64,
            sessions: self.server.sessions() as u64,
            retained: self.server.retained() as u64,
            heard: tally.heard,
            sent: tally.sent,
            dropped: tally.dropped,
            stalls: tally.stalls,
            closes: self.closes,
        }
    }

    /// A client whose socket couldn't be kept.
    pub(crate) fn turn_away(&mut self, conn: Conn, now: u64) -> Result<(), ServerFault> {
        self.server.gone(conn, now)?;
        self.server.cut(conn)
    }

    /// What time brings, and what is ready is read once. Whether one is left that may be read at once.
    pub fn take(&mut self, now: u64) -> Result<bool, ServerFault> {
        self.server.moment(now)?;
        self.server.go_on(now)?;
        self.read_all(now)
    }

    /// The journal begins anew with what the broker keeps. Where there is no memory for that it goes on.
    fn begin<D: Disk>(&mut self, store: &mut Store<D>) -> Result<(), ServeFault>
        ensures { IfErr result (λ e. e ≢ ServeFault.BadPlan) }
    {
        match store.begin(self.alloc, self.server.broker()) {
            Ok(()) => {
                self.server.begin();
                Ok(())
            }
            Err(StoreFault::NoMemory) => Ok(()),
            Err(_) => Err(ServeFault::Unkept),
        }
    }

    /// What came to the broker is appended to its journal.
    fn put<D: Disk>(&mut self, store: &mut Store<D>, now: u64) -> Result<(), ServeFault>
        ensures { IfErr result (λ e. e ≢ ServeFault.BadPlan) }
    {
        if self.server.is_all_kept() {
            return Ok(());
        }
        match store.put(self.server.notes(), now) {
            Ok(()) => {
                self.server.kept();
                Ok(())
            }
            Err(fault) => Err(of_store(fault)),
        }
    }

    /// What came to the broker is appended to its journal, which begins anew where it is long, and what is due is brought to the disk. Until then nothing of
    /// what came of it is written. Refused with Unkept (141) where the disk fails: nothing is to be written any more.
    pub fn keep<D: Disk>(&mut self, store: &mut Store<D>, now: u64) -> Result<(), ServeFault>
        ensures { IfErr result (λ e. e ≢ ServeFault.BadPlan) }
    {
        if store.is_long() {
            self.begin(store)?;
        }
        self.put(store, now)?;
        match store.sync_due(now) {
            Ok(()) => Ok(()),
            Err(fault) => Err(of_store(fault)),
        }
    }

    /// Whether what users hold is counted.
    pub(crate) fn holds(&self) -> bool {
        self.holdings.is_some()
    }

    /// A client whose door ends it.
    pub fn bar(&mut self, conn: Conn) {
        if let Some(line) = self.lines.get_mut(&conn) {
            line.port.bar();
        }
        self.may_read(conn, true);
    }

    /// A client of the server's own comes, and all that it says is read. Whether there was room for it.
    fn serve_own(&mut self, port: P, now: u64) -> Result<bool, ServerFault> {
        let Some(conn) = self.come(port, now)? else {
            return Ok(false);
        };
        if let Some(line) = self.lines.get_mut(&conn) {
            line.closing = true;
        }
        for _ in 0..u64::MAX {
            if !self.read(conn, now)? {
                break;
            }
        }
        Ok(true)
    }

    /// The kept session that is to end, since its client was away for too long.
    pub fn expired(&self, now: u64) -> Option<&str> {
        match &self.holdings {
            Some(holdings) => holdings.quotas.away(now, holdings.patience),
            None => None,
        }
    }

    /// The session for which the most waits among those of a user for whom more waits than may.
    pub fn heaviest(&self) -> Option<Heavy> {
        match &self.holdings {
            Some(holdings) => holdings
                .heaviest(self.alloc, self.server.broker())
                .unwrap_or(None),
            None => None,
        }
    }

    /// Ends the kept session of a client by another one of the server's own, which takes it over. Whether there was room for that one.
    pub fn end_session(&mut self, client: &str, port: P, now: u64) -> Result<bool, ServerFault> {
        let is_over = self.serve_own(port, now)?;
        if is_over && let Some(holdings) = &mut self.holdings {
            holdings.quotas.forget(client);
        }
        Ok(is_over)
    }

    /// What is to be done before sockets are waited for, with what is ready, where nothing is kept; those who are done are shut behind it. Whether more is
    /// ready at once.
    pub fn round(&mut self, now: u64) -> Result<bool, ServerFault> {
        self.try_all_again(now)?;
        let more_to_read = self.take(now)?;
        let more_to_write = self.write_all()?;
        Ok(more_to_read || more_to_write)
    }
}
