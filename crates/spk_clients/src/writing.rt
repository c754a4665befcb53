//! What is to be written.
ghost use Rattle.std.specs.Prelude.{◌≡◌, ◌≢◌, ◌++◌, ◌∷◌, [], ◌-◌, ℕ, nat_eq, length, take, Some, None, OnOk, IfSome, IfNone};
ghost use Rattle.std.specs.Option.{option_map, option_map_or};
ghost use Rattle.std.specs.HashMap.{get};
ghost use Rattle.spk_outbox.specs.Data.{waiting, rest_of_first};
ghost use Rattle.spk_clients.specs.Client.{cut_off, untouched, written_to};
ghost use Rattle.spk_clients.specs.Data.{AreNoted, Becomes, IsNewToShut, client_at, waiting_at};

use crate::client::Client;
use crate::clients::Clients;
use std::alloc::AllocError;
use std::collections::HashMap;

/// So many bytes were written to a client. Whether its socket is to be shut from now on.
fn write_at(table: &mut HashMap<u64, Client>, conn: u64, count: usize) -> bool
    ensures here { get nat_eq table.new conn ≡ option_map (written_to count) (get nat_eq table.old conn) }
    ensures new { IsNewToShut (get nat_eq table.old conn) result (get nat_eq table.new conn) }
    ensures others { (k : ℕ) → k ≢ conn → get nat_eq table.new k ≡ get nat_eq table.old k }
{
    match table.get_mut(&conn) {
        Some(client) => {
            client.outbox.wrote(count);
            client.settle()
        }
        None => false,
    }
}

/// A client's socket takes no more. Whether it is to be shut from now on.
fn cut_at(table: &mut HashMap<u64, Client>, conn: u64) -> bool
    ensures here { get nat_eq table.new conn ≡ option_map cut_off (get nat_eq table.old conn) }
    ensures new { IsNewToShut (get nat_eq table.old conn) result (get nat_eq table.new conn) }
    ensures others { (k : ℕ) → k ≢ conn → get nat_eq table.new k ≡ get nat_eq table.old k }
{
    match table.get_mut(&conn) {
        Some(client) => {
            client.cut = true;
            client.settle()
        }
        None => false,
    }
}

/// A client isn't among those to whom something is to be written any more.
fn untouch_at(table: &mut HashMap<u64, Client>, conn: u64)
    ensures here { get nat_eq table.new conn ≡ option_map untouched (get nat_eq table.old conn) }
    ensures others { (k : ℕ) → k ≢ conn → get nat_eq table.new k ≡ get nat_eq table.old k }
{
    if let Some(client) = table.get_mut(&conn) {
        client.touched = false;
    }
}

impl Clients {
    /// The next client to whom something is to be written.
    pub fn next_to_write(&mut self) -> Option<u64>
        ensures some { IfSome result (λ k. Becomes untouched k self.old self.new) }
        ensures none { IfNone result ((k : ℕ) → client_at self.new k ≡ client_at self.old k) }
        ensures first { IfSome result
            (λ k. self.old.touched.items ≡ k ∷ self.new.touched.items) }
        ensures nobody { IfNone result (self.old.touched.items ≡ []) }
        ensures noted { AreNoted self.old → AreNoted self.new }
        ensures untold { self.new.untold.items ≡ self.old.untold.items }
    {
        let conn = self.touched.pop_front()?;
        untouch_at(&mut self.table, conn);
        Some(conn)
    }

    /// Joins a front of what waits for a client behind these bytes, as `Outbox::gather` does: up to 65,536 bytes.
    pub fn gather(&self, conn: u64, batch: &mut Vec<u8>)
        ensures { batch.new.items ≡ batch.old.items
            ++ take (length batch.new.items - length batch.old.items) (waiting_at self.now conn) }
    {
        if let Some(client) = self.table.get(&conn) {
            client.outbox.gather(batch);
        }
    }

    /// What is left of the first packet that waits for a client, in two pieces of which the second stands behind the first.
    pub fn first(&self, conn: u64) -> Option<(&[u8], &[u8])>
        ensures some { IfSome result (λ s. IfSome (client_at self.now conn)
            (λ c. s.0.now ++ s.1.now ≡ rest_of_first c.outbox)) }
        ensures none { IfNone result (IfSome (client_at self.now conn)
            (λ c. length c.outbox.packets ≡ 0)) }
    {
        match self.table.get(&conn) {
            Some(client) => client.outbox.first(),
            None => None,
        }
    }

    /// So many bytes of what waits for a client were written. Where its end came and nothing is left, its socket is to be shut.
    pub fn wrote(&mut self, conn: u64, count: usize) -> Result<(), AllocError>
        ensures done { Becomes (written_to count) conn self.old self.new }
        ensures noted { AreNoted self.old → AreNoted self.new }
        ensures untold { self.new.untold.items ≡ self.old.untold.items }
    {
        if write_at(&mut self.table, conn, count) {
            self.name(conn)?;
        }
        Ok(())
    }

    /// A client's socket takes no more. Where its end came, it is to be shut.
    pub fn cut(&mut self, conn: u64) -> Result<(), AllocError>
        ensures done { Becomes cut_off conn self.old self.new }
        ensures noted { AreNoted self.old → AreNoted self.new }
        ensures untold { self.new.untold.items ≡ self.old.untold.items }
    {
        if cut_at(&mut self.table, conn) {
            self.name(conn)?;
        }
        Ok(())
    }
}
