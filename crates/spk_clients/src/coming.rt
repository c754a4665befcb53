//! What clients send.
ghost use Rattle.std.specs.Prelude.{◌≡◌, ◌≢◌, ◌++◌, ℕ, nat_eq, Some, None, OnOk, OnErr, IfSome, IfNone, true, false};
ghost use Rattle.std.specs.Option.{option_map, option_map_or};
ghost use Rattle.std.specs.HashMap.{get};
ghost use Rattle.spk_packets.specs.View.{view};
ghost use Rattle.spk_clients.specs.Client.{after_hearing, awaited, freed, is_awaited, takes_in, waiting_for};
ghost use Rattle.spk_clients.specs.Data.{AllStay, AreNoted, Becomes, GivesFrontOf, OthersStay, client_at};

use crate::client::Client;
use crate::clients::Clients;
use spk_packets::{Packet, PacketFault};
use std::collections::HashMap;

/// Takes in bytes of a client. Whether there was room and memory.
fn feed_at(table: &mut HashMap<u64, Client>, conn: u64, piece: &[u8]) -> bool
    ensures here { result ≡ true
        → get nat_eq table.new conn ≡ option_map (takes_in piece.now) (get nat_eq table.old conn) }
    ensures refused { result ≡ false → get nat_eq table.new conn ≡ get nat_eq table.old conn }
    ensures others { (k : ℕ) → k ≢ conn → get nat_eq table.new k ≡ get nat_eq table.old k }
{
    match table.get_mut(&conn) {
        Some(client) => client.is_over() || client.feed.feed(piece).is_ok(),
        None => true,
    }
}

/// What stands at the front of what a client sent.
fn next_at(table: &mut HashMap<u64, Client>, conn: u64) -> Option<Result<Packet, PacketFault>>
    ensures here { GivesFrontOf (get nat_eq table.old conn) result (get nat_eq table.new conn) }
    ensures others { (k : ℕ) → k ≢ conn → get nat_eq table.new k ≡ get nat_eq table.old k }
{
    match table.get_mut(&conn) {
        Some(client) => client.next(),
        None => None,
    }
}

/// A packet of a client came.
fn hear_at(table: &mut HashMap<u64, Client>, conn: u64, packet: &Packet)
    ensures here { get nat_eq table.new conn
        ≡ option_map (after_hearing (view packet.now)) (get nat_eq table.old conn) }
    ensures others { (k : ℕ) → k ≢ conn → get nat_eq table.new k ≡ get nat_eq table.old k }
{
    if let Some(client) = table.get_mut(&conn) {
        client.heard(packet);
    }
}

/// A client waits for another, or for nobody.
fn wait_at(table: &mut HashMap<u64, Client>, conn: u64, slow: Option<u64>)
    ensures here { get nat_eq table.new conn
        ≡ option_map (waiting_for slow) (get nat_eq table.old conn) }
    ensures others { (k : ℕ) → k ≢ conn → get nat_eq table.new k ≡ get nat_eq table.old k }
{
    if let Some(client) = table.get_mut(&conn) {
        client.waits_for = slow;
    }
}

/// Others begin to wait for a client, unless they waited long enough. Whether they wait.
fn begin_at(table: &mut HashMap<u64, Client>, conn: u64, own: bool, now: u64) -> bool
    ensures here { get nat_eq table.new conn
        ≡ option_map (awaited own now) (get nat_eq table.old conn) }
    ensures waits { result ≡ option_map_or (is_awaited own now) (get nat_eq table.old conn) false }
    ensures others { (k : ℕ) → k ≢ conn → get nat_eq table.new k ≡ get nat_eq table.old k }
{
    match table.get_mut(&conn) {
        Some(client) => {
            if client.is_over() || !client.has_many(own) {
                return false;
            }
            client.patience.begin(now);
            client.patience.lasts(now)
        }
        None => false,
    }
}

/// Nobody waits for a client any more.
fn free_at(table: &mut HashMap<u64, Client>, conn: u64, now: u64)
    ensures here { get nat_eq table.new conn ≡ option_map (freed now) (get nat_eq table.old conn) }
    ensures others { (k : ℕ) → k ≢ conn → get nat_eq table.new k ≡ get nat_eq table.old k }
{
    if let Some(client) = table.get_mut(&conn) {
        client.patience.end(now);
    }
}

impl Clients {
    /// Takes in bytes of a client, behind those that aren't whole packets yet. What follows its end is passed over. The answer
    /// is `false` where there was no room or memory, and then nothing is taken in.
    pub fn feed(&mut self, conn: u64, piece: &[u8]) -> bool
        ensures taken { result ≡ true → Becomes (takes_in piece.now) conn self.old self.new }
        ensures refused { result ≡ false → client_at self.new conn ≡ client_at self.old conn }
        ensures others { OthersStay conn self.old self.new }
        ensures noted { AreNoted self.old → AreNoted self.new }
        ensures untold { self.new.untold.items ≡ self.old.untold.items }
    {
        feed_at(&mut self.table, conn, piece)
    }

    /// The packet at the front of what a client sent, or why there can be none. None where no packet is whole yet, the client
    /// isn't there, or its end came.
    pub fn next(&mut self, conn: u64) -> Option<Result<Packet, PacketFault>>
        ensures front { GivesFrontOf (client_at self.old conn) result (client_at self.new conn) }
        ensures others { OthersStay conn self.old self.new }
        ensures noted { AreNoted self.old → AreNoted self.new }
        ensures untold { self.new.untold.items ≡ self.old.untold.items }
    {
        next_at(&mut self.table, conn)
    }

    /// A packet of a client came.
    pub fn heard(&mut self, conn: u64, packet: &Packet)
        ensures done { Becomes (after_hearing (view packet.now)) conn self.old self.new }
        ensures noted { AreNoted self.old → AreNoted self.new }
        ensures untold { self.new.untold.items ≡ self.old.untold.items }
    {
        hear_at(&mut self.table, conn, packet);
    }

    /// Where more than 512 packets wait for a client or aren't acknowledged by it, others may begin to wait for it at this moment,
    /// in milliseconds, up to 200 at a time (own rule). Its own packets don't wait for its acknowledgements. Whether they wait.
    pub fn begin_waiting(&mut self, conn: u64, own: bool, now: u64) -> bool
        ensures done { Becomes (awaited own now) conn self.old self.new }
        ensures waits { result ≡ option_map_or (is_awaited own now) (client_at self.old conn) false }
        ensures noted { AreNoted self.old → AreNoted self.new }
        ensures untold { self.new.untold.items ≡ self.old.untold.items }
    {
        begin_at(&mut self.table, conn, own, now)
    }

    /// Nobody waits for a client any more.
    pub fn end_waiting(&mut self, conn: u64, now: u64)
        ensures done { Becomes (freed now) conn self.old self.new }
        ensures noted { AreNoted self.old → AreNoted self.new }
        ensures untold { self.new.untold.items ≡ self.old.untold.items }
    {
        free_at(&mut self.table, conn, now);
    }

    /// A client waits for another, or for nobody.
    pub fn wait(&mut self, conn: u64, slow: Option<u64>)
        ensures done { Becomes (waiting_for slow) conn self.old self.new }
        ensures noted { AreNoted self.old → AreNoted self.new }
        ensures untold { self.new.untold.items ≡ self.old.untold.items }
    {
        wait_at(&mut self.table, conn, slow);
    }
}
