//! The program of an edge node.
ghost use Rattle.std.specs.Prelude.{◌≡◌, ◌↔◌, ◌⊎◌, ℕ, ◌-◌, ◌<◌, ◌^◌, Bool, true, false, slice_get, length, is_some, IfOk, IfErr, IfSome, IfNone};
ghost use Rattle.std.specs.Option.{option_map};
ghost use Rattle.spk_link.specs.declared.stand.Due.TheVariants as due;
ghost use Rattle.spk_edge_app.specs.Calls.{due_at, is_same, is_silent, lent, saved_where, wrote_where};
ghost use Rattle.spk_edge_app.specs.Data.{Handed, Over};
ghost use Rattle.spk_edge_app.specs.Step.{IsStep, allows, fresh_app, is_up_to, needed, wanted_by};
ghost use Rattle.spk_edge_app.specs.View.{login_view};

use crate::fault::EdgeAppFault;
use crate::login::Login;
use crate::writes::Writes;
use spk_connection::Connection;
use spk_edge::{EdgeNode, Write};
use spk_link::Due;
use spk_record::Record;
use std::alloc::Global;
use std::fmt;
use std::marker::Model;

/// The program of an edge node, without its socket, its clock and its disk. Contracts see the `App` of `specs/Data.antt`. Moments are in
/// milliseconds since 1970 (UTC).
#[derive(Drop)]
pub struct EdgeApp {
    pub(crate) alloc: Global,
    pub(crate) node: EdgeNode,
    pub(crate) connection: Connection,
    pub(crate) login: Option<Login>,
    pub(crate) kept: Record,
    pub(crate) wanted: Option<Record>,
    pub(crate) writes: Writes,
    pub(crate) closing: Option<u64>,
    pub(crate) stopped: bool,
}

impl fmt::Debug for EdgeApp {
    fn fmt<W: fmt::Write>(&self, f: &mut fmt::Formatter<W>) -> fmt::Result {
        f.write_str("EdgeApp { .. }")
    }
}

impl Model for EdgeApp {
    ghost use Rattle.spk_edge_app.specs.Data.{App};
    ghost use Rattle.spk_edge_app.specs.View.{app_view};

    ghost Value = { App };

    ghost view = { app_view };
}

/// How much longer its pauses are, in 1,024ths, by its name, so that not all nodes come back at once (own rule).
fn spread(node: &EdgeNode) -> u8 {
    let mut sum = 0_u8;
    for byte in node.config().node.bytes() {
        sum = sum.wrapping_mul(31).wrapping_add(byte);
    }
    sum
}

/// Whether the stamp of what a node did isn't past a record's.
fn is_up_to(used: Option<u64>, until: u64) -> bool
    ensures { result ≡ is_up_to used until }
{
    match used {
        Some(stamp) => stamp <= until,
        None => true,
    }
}

/// Whether a record covers all that a node did.
fn allows(saved: Record, node: &EdgeNode) -> bool
    ensures { result ≡ allows saved node.now }
{
    let next = node.record();
    saved.bd == next.bd && is_up_to(next.stamp, saved.stamp)
}

/// The record that is reserved for what a node did.
fn needed(node: &EdgeNode) -> Record
    ensures { result ≡ needed node.now }
{
    let next = node.record();
    Record {
        bd: next.bd,
        stamp: Record::reserved(0, next.stamp.unwrap_or(0)).stamp,
    }
}

/// The record that is wanted.
pub(crate) fn wanted_by(kept: Record, wanted: Option<Record>, node: &EdgeNode) -> Option<Record>
    ensures { result ≡ wanted_by kept wanted node.now }
{
    let covers = match wanted {
        Some(saved) => allows(saved, node),
        None => allows(kept, node),
    };
    if covers { wanted } else { Some(needed(node)) }
}

impl EdgeApp {
    /// The program of a node, which begins with the record on the disk: the node is made with its bdSeq and its stamp. Refused only where memory is.
    pub fn new(
        alloc: Global,
        node: EdgeNode,
        kept: Record,
        login: Option<Login>,
    ) -> Result<EdgeApp, EdgeAppFault>
        ensures made { IfOk result (λ a. (spread : ℕ)
            × (a ≡ fresh_app node (option_map login_view login) kept spread)) }
        ensures memory { IfErr result (λ e. e ≡ EdgeAppFault.NoMemory) }
    {
        let writes = Writes::new(alloc)?;
        let connection = Connection::new(alloc, node.config().keep, spread(&node));
        let wanted = wanted_by(kept, None, &node);
        Ok(EdgeApp {
            alloc,
            node,
            connection,
            login,
            kept,
            wanted,
            writes,
            closing: None,
            stopped: false,
        })
    }

    /// Its node.
    pub fn node(&self) -> &EdgeNode
        ensures { result.now ≡ self.now.node }
    {
        &self.node
    }

    /// The record that is to be on the disk before anything more is written, if there is one. It covers all that the node did until now.
    pub fn wanted(&self) -> Option<Record>
        ensures { result ≡ self.now.wanted }
    {
        self.wanted
    }

    /// This record is on the disk now. Where it isn't the one that is wanted, nothing changes.
    pub fn keep(&mut self, saved: Record)
        ensures { self.new ≡ saved_where self.old.wanted saved self.old }
    {
        if let Some(wanted) = self.wanted {
            if wanted.bd == saved.bd && wanted.stamp == saved.stamp {
                self.kept = saved;
                self.wanted = wanted_by(saved, None, &self.node);
            }
        }
    }

    /// Whether the connection is to be closed, once no record is wanted and `unwritten` lends nothing.
    pub fn is_closing(&self) -> bool
        ensures { result ≡ is_some self.now.closing }
    {
        self.closing.is_some()
    }

    /// What waits to be written, in order; nothing while a record is wanted.
    pub fn unwritten(&self) -> &[u8]
        ensures { result.now ≡ lent self.now.wanted self.now.connection.unwritten }
    {
        if self.wanted.is_some() {
            return &[];
        }
        self.connection.unwritten()
    }

    /// So many bytes of what `unwritten` lends were written. More than it lends are all; where it is none, nothing changes.
    pub fn wrote(&mut self, count: usize, now: u64)
        ensures { self.new ≡ wrote_where self.old.wanted count now self.old }
    {
        if self.wanted.is_none() {
            let count = count.min(self.connection.unwritten().len());
            self.connection.wrote(count, now);
        }
    }

    /// The socket is closed, or a try to connect came to none. Nothing of what was read and what waits comes into the next connection.
    pub fn over(&mut self, now: u64)
        ensures { IsStep self.old (Over now) self.new }
    {
        self.node.cut();
        self.connection.over(now);
        self.closing = None;
    }

    /// The oldest value that a command asks to be written to the machine, which waits no more. 4,096 wait at most (own rule).
    pub fn next_write(&mut self) -> Option<Write>
        ensures value { result ≡ slice_get self.old.writes.items 0 }
        ensures step { IsStep self.old Handed self.new }
    {
        self.writes.next()
    }

    /// How many values for the machine were dropped, since 4,096 waited. It stays at the greatest u64.
    pub fn dropped_writes(&self) -> u64
        ensures { result ≡ self.now.writes.lost }
    {
        self.writes.lost()
    }

    /// Whether no connection is opened any more, and there is none.
    fn is_silent(&self) -> bool
        ensures { result ≡ is_silent self.now }
    {
        self.stopped && !self.connection.is_open()
    }

    /// What is due of the connection at a moment: a try to connect, where the node hasn't stopped; PINGREQ, which `moment` sends; the end, where the
    /// broker is silent, or where the connection is to be closed and its last moment has come. Then `over`.
    pub fn due(&self, now: u64) -> Due
        ensures { result ≡ due_at self.now now }
    {
        if let Some(at) = self.closing {
            return if at <= now { Due::End } else { Due::Nothing };
        }
        if self.is_silent() {
            return Due::Nothing;
        }
        self.connection.due(now)
    }

    /// When something is due next, if nothing is done until then: before it nothing is due, and from it on something is. None where nothing will be. A
    /// moment behind the greatest one counts as that.
    pub fn next_due(&self) -> Option<u64>
        ensures some { IfSome result (λ at. (now : ℕ) → now < 2 ^ 64 - 1
            → (due_at self.now now ≡ due.Nothing) ↔ (now < at)) }
        ensures none { IfNone result ((now : ℕ) → due_at self.now now ≡ due.Nothing) }
    {
        if let Some(at) = self.closing {
            return Some(at);
        }
        if self.is_silent() {
            return None;
        }
        self.connection.next_due()
    }
}
