//! Ends, and whose sockets are to be shut.
ghost use Rattle.std.specs.Prelude.{◌≡◌, ◌≢◌, ◌≤◌, ℕ, nat_eq, Some, None, OnOk, IfSome, IfNone, true, false};
ghost use Rattle.std.specs.Option.{option_map, option_map_or};
ghost use Rattle.std.specs.HashMap.{get};
ghost use Rattle.spk_clients.specs.Client.{cause_done, given_up, is_due, leaves};
ghost use Rattle.spk_clients.specs.Data.{AllStay, AreNoted, Becomes, IsNamed, IsNewToShut, IsSoonest, NobodyIsDue, NobodyIsToShut, OthersStay, cause_at, client_at, phase_at};

use crate::cause::Cause;
use crate::client::{Client, Phase};
use crate::clients::Clients;
use std::alloc::AllocError;
use std::collections::{HashMap, VecDeque};

/// A client's end came. Whether its socket is to be shut from now on.
fn end_at(table: &mut HashMap<u64, Client>, conn: u64, until: u64, cause: Cause) -> bool
    ensures here { get nat_eq table.new conn ≡ option_map (leaves until cause) (get nat_eq table.old conn) }
    ensures new { IsNewToShut (get nat_eq table.old conn) result (get nat_eq table.new conn) }
    ensures others { (k : ℕ) → k ≢ conn → get nat_eq table.new k ≡ get nat_eq table.old k }
{
    match table.get_mut(&conn) {
        Some(client) => {
            client.end(until, cause);
            client.settle()
        }
        None => false,
    }
}

/// A client may read no longer. Whether its socket is to be shut from now on.
fn give_up_at(table: &mut HashMap<u64, Client>, conn: u64) -> bool
    ensures here { get nat_eq table.new conn ≡ option_map given_up (get nat_eq table.old conn) }
    ensures new { IsNewToShut (get nat_eq table.old conn) result (get nat_eq table.new conn) }
    ensures others { (k : ℕ) → k ≢ conn → get nat_eq table.new k ≡ get nat_eq table.old k }
{
    match table.get_mut(&conn) {
        Some(client) => client.give_up(),
        None => false,
    }
}

/// How far a client is.
fn phase_at(table: &HashMap<u64, Client>, conn: u64) -> Option<Phase>
    ensures { result ≡ option_map (λ c. c.phase) (get nat_eq table.now conn) }
{
    match table.get(&conn) {
        Some(client) => Some(client.phase),
        None => None,
    }
}

/// Why the end of a client came whose socket is to be shut. None where there is no such client.
fn done_at(table: &HashMap<u64, Client>, conn: u64) -> Option<Cause>
    ensures { result ≡ option_map_or cause_done (get nat_eq table.now conn) None }
{
    match table.get(&conn) {
        Some(client) => client.done(),
        None => None,
    }
}

/// Whether a client's moment has come.
fn is_due_at(table: &HashMap<u64, Client>, conn: u64, now: u64) -> bool
    ensures { result ≡ option_map_or (is_due now) (get nat_eq table.now conn) false }
{
    match table.get(&conn) {
        Some(client) => client.is_due(now),
        None => false,
    }
}

/// The next one that is named whose moment has come. The names up to it are taken off.
fn named_due(table: &HashMap<u64, Client>, due: &mut VecDeque<u64>, now: u64) -> Option<u64>
    ensures { IfSome result (λ k. option_map_or (is_due now) (get nat_eq table.now k) false ≡ true) }
{
    for _ in 0..due.len() {
        let Some(conn) = due.pop_front() else {
            break;
        };
        if is_due_at(table, conn, now) {
            return Some(conn);
        }
    }
    None
}

/// The first stays the first; another one is named. Who finds no room there is found when all are looked at again.
fn name_due(first: Option<u64>, conn: u64, due: &mut VecDeque<u64>) -> Option<u64>
    ensures { result ≡ Some (option_map_or (λ k. k) first conn) }
{
    match first {
        None => Some(conn),
        Some(before) => {
            let _ = due.push_back(conn);
            Some(before)
        }
    }
}

/// Looks at each client: the first whose moment has come is answered, and the others are named.
fn due_in(table: &HashMap<u64, Client>, due: &mut VecDeque<u64>, now: u64) -> Option<u64>
    ensures some { IfSome result (λ k. option_map_or (is_due now) (get nat_eq table.now k) false ≡ true) }
    ensures none { IfNone result (NobodyIsDue now (get nat_eq table.now)) }
{
    let mut first = None;
    for entry in table.iter() {
        let (conn, client) = entry;
        if client.is_due(now) {
            first = name_due(first, *conn, due);
        }
    }
    first
}

/// Looks for a client whose socket is to be shut, and says why its end came.
fn to_shut_in(table: &HashMap<u64, Client>) -> Option<(u64, Cause)>
    ensures some { IfSome result
        (λ r. option_map_or cause_done (get nat_eq table.now r.0) None ≡ Some r.1) }
    ensures none { IfNone result (NobodyIsToShut (get nat_eq table.now)) }
{
    for entry in table.iter() {
        let (conn, client) = entry;
        if let Some(cause) = client.done() {
            return Some((*conn, cause));
        }
    }
    None
}

/// The first moment of a client; the greatest number where none has one.
fn soonest_of(table: &HashMap<u64, Client>) -> u64
    ensures { IsSoonest (get nat_eq table.now) result }
{
    let mut soonest = u64::MAX;
    for entry in table.iter() {
        let (_, client) = entry;
        if client.has_moment() {
            soonest = soonest.min(client.until);
        }
    }
    soonest
}

impl Clients {
    /// How far a client is; none that isn't there.
    pub fn phase(&self, conn: u64) -> Option<Phase>
        ensures { result ≡ phase_at self.now conn }
    {
        phase_at(&self.table, conn)
    }

    /// Names a client as one whose socket is to be shut. Where memory is refused, it is found by looking at all.
    pub(crate) fn name(&mut self, conn: u64) -> Result<(), AllocError>
        ensures here { IsNamed self.new conn }
        ensures others { (k : ℕ) → IsNamed self.old k → IsNamed self.new k }
        ensures stay { AllStay self.old self.new }
        ensures soonest { self.new.soonest ≡ self.old.soonest }
        ensures untold { self.new.untold.items ≡ self.old.untold.items }
    {
        match self.done.push_back(conn) {
            Ok(()) => Ok(()),
            Err(_) => {
                self.unnamed = true;
                Err(AllocError)
            }
        }
    }

    /// A client's end came, for this cause. Its socket is to be shut at once if nothing is left to be written, else once it is, or when
    /// `give_up` is called at this moment, in milliseconds. Where its end came before, that one's moment and cause stay.
    pub fn end(&mut self, conn: u64, until: u64, cause: Cause) -> Result<(), AllocError>
        ensures done { Becomes (leaves until cause) conn self.old self.new }
        ensures noted { AreNoted self.old → AreNoted self.new }
        ensures untold { self.new.untold.items ≡ self.old.untold.items }
    {
        self.soonest = self.soonest.min(until);
        if end_at(&mut self.table, conn, until, cause) {
            self.name(conn)?;
        }
        Ok(())
    }

    /// The socket of a client whose end came is to be shut, whatever is left.
    pub fn give_up(&mut self, conn: u64) -> Result<(), AllocError>
        ensures done { Becomes given_up conn self.old self.new }
        ensures noted { AreNoted self.old → AreNoted self.new }
        ensures untold { self.new.untold.items ≡ self.old.untold.items }
    {
        if give_up_at(&mut self.table, conn) {
            self.name(conn)?;
        }
        Ok(())
    }

    /// Looks at each client for one whose socket is to be shut. It is forgotten.
    fn find_to_shut(&mut self) -> Option<(u64, Cause)>
        ensures some { IfSome result (λ r. (cause_at self.old r.0 ≡ Some r.1)
            × (client_at self.new r.0 ≡ None) × OthersStay r.0 self.old self.new) }
        ensures none { IfNone result (AllStay self.old self.new) }
        ensures nobody { IfNone result (NobodyIsToShut (client_at self.old)) }
        ensures noted { AreNoted self.old → AreNoted self.new }
        ensures untold { self.new.untold.items ≡ self.old.untold.items }
    {
        let Some((conn, cause)) = to_shut_in(&self.table) else {
            self.unnamed = false;
            return None;
        };
        let _ = self.table.remove(&conn);
        Some((conn, cause))
    }

    /// Takes the first name off, and forgets its client, if its socket is to be shut.
    fn shut_first(&mut self) -> Option<(u64, Cause)>
        ensures some { IfSome result (λ r. (cause_at self.old r.0 ≡ Some r.1)
            × (client_at self.new r.0 ≡ None) × OthersStay r.0 self.old self.new) }
        ensures none { IfNone result (AllStay self.old self.new) }
        ensures noted { AreNoted self.old → AreNoted self.new }
        ensures untold { self.new.untold.items ≡ self.old.untold.items }
    {
        let conn = self.done.pop_front()?;
        let cause = done_at(&self.table, conn)?;
        let _ = self.table.remove(&conn);
        Some((conn, cause))
    }

    /// The next client whose socket is to be shut, and why its end came. It is forgotten. None exactly where no client's is.
    pub fn next_to_shut(&mut self) -> Option<(u64, Cause)>
        ensures some { IfSome result (λ r. (cause_at self.old r.0 ≡ Some r.1)
            × (client_at self.new r.0 ≡ None) × OthersStay r.0 self.old self.new) }
        ensures none { IfNone result (AllStay self.old self.new) }
        ensures nobody { IfNone result (AreNoted self.old → NobodyIsToShut (client_at self.old)) }
        ensures noted { AreNoted self.old → AreNoted self.new }
        ensures untold { self.new.untold.items ≡ self.old.untold.items }
    {
        if self.done.is_empty() && !self.unnamed {
            return None;
        }
        if let Some(shut) = self.shut_first() {
            return Some(shut);
        }
        self.find_to_shut()
    }

    /// A client whose moment has come: it sent nothing, or its end came and something is left. None exactly where no client's has.
    /// All are looked at only where nobody is named from the last time; then all whose moment has come are named.
    pub fn next_due(&mut self, now: u64) -> Option<u64>
        ensures some { IfSome result (λ k. option_map_or (is_due now) (client_at self.old k) false ≡ true) }
        ensures none { IfNone result (NobodyIsDue now (client_at self.old)) }
        ensures stay { AllStay self.old self.new }
        ensures noted { AreNoted self.old → AreNoted self.new }
        ensures untold { self.new.untold.items ≡ self.old.untold.items }
    {
        if let Some(conn) = named_due(&self.table, &mut self.due, now) {
            return Some(conn);
        }
        due_in(&self.table, &mut self.due, now)
    }

    /// No client's moment comes before this one, in milliseconds.
    pub fn soonest(&self) -> u64
        ensures { result ≡ self.now.soonest }
    {
        self.soonest
    }

    /// Looks at each client for the first moment, so that `soonest` is exactly that; the greatest number where no client has one.
    pub fn note_soonest(&mut self)
        ensures exact { IsSoonest (client_at self.new) self.new.soonest }
        ensures stay { AllStay self.old self.new }
        ensures noted { AreNoted self.old → AreNoted self.new }
        ensures untold { self.new.untold.items ≡ self.old.untold.items }
    {
        self.soonest = soonest_of(&self.table);
    }
}
