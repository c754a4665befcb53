//! Packets for clients, and which of them were refused.
ghost use Rattle.std.specs.Prelude.{◌≡◌, ◌≢◌, ◌⊎◌, ◌++◌, ◌∷◌, ℕ, nat_eq, length, [], Some, None, OnOk, IfOk, IfSome, IfNone, true, false};
ghost use Rattle.std.specs.Option.{option_map, option_map_or};
ghost use Rattle.std.specs.HashMap.{get};
ghost use Rattle.spk_clients.specs.declared.client.Offered.TheVariants as Offered;
ghost use Rattle.spk_clients.specs.Client.{has_many, is_untold, sort_untold, told};
ghost use Rattle.spk_clients.specs.Data.{AllStay, AreNoted, Becomes, IsSettled, OfferedTo, OthersStay, client_at};

use crate::client::{Client, Offered};
use crate::clients::Clients;
use spk_bytes::Bytes;
use spk_session::Sort;
use std::alloc::AllocError;
use std::collections::HashMap;

/// What became of an offer, and what the client was before.
#[derive(Clone, Copy)]
struct Answer {
    offered: Offered,
    was_touched: bool,
    was_untold: bool,
    has_many: bool,
}

/// Offers a packet to a client.
fn offer_at(table: &mut HashMap<u64, Client>, conn: u64, sort: Sort, bytes: Bytes) -> Answer
    ensures here { OfferedTo sort bytes (get nat_eq table.old conn) result.offered (get nat_eq table.new conn) }
    ensures others { (k : ℕ) → k ≢ conn → get nat_eq table.new k ≡ get nat_eq table.old k }
    ensures was_untold { IfSome (get nat_eq table.old conn) (λ c. result.was_untold ≡ is_untold c) }
    ensures was_touched { result.was_touched ≡ option_map_or (λ c. c.touched) (get nat_eq table.old conn) true }
    ensures many { result.has_many ≡ option_map_or (has_many false) (get nat_eq table.new conn) false }
{
    match table.get_mut(&conn) {
        Some(client) => {
            let was_touched = client.touched;
            let was_untold = client.is_untold();
            let offered = client.offer(sort, bytes);
            Answer {
                offered,
                was_touched,
                was_untold,
                has_many: client.has_many(false),
            }
        }
        None => Answer {
            offered: Offered::Passed,
            was_touched: true,
            was_untold: true,
            has_many: false,
        },
    }
}

/// What the broker is told next of a client, and whether there is more.
fn tell_at(table: &mut HashMap<u64, Client>, conn: u64) -> (Option<Sort>, bool)
    ensures here { get nat_eq table.new conn ≡ option_map told (get nat_eq table.old conn) }
    ensures others { (k : ℕ) → k ≢ conn → get nat_eq table.new k ≡ get nat_eq table.old k }
    ensures sort { result.0 ≡ option_map_or sort_untold (get nat_eq table.old conn) None }
    ensures more { IfSome (get nat_eq table.new conn) (λ c. result.1 ≡ is_untold c) }
{
    match table.get_mut(&conn) {
        Some(client) => {
            let sort = client.take_refused();
            (sort, client.is_untold())
        }
        None => (None, false),
    }
}

impl Clients {
    /// Puts a packet behind those that wait for a client, or notes that it was refused. What became of it, and whether others
    /// are to wait for this client.
    pub fn offer(
        &mut self,
        conn: u64,
        sort: Sort,
        bytes: Bytes,
    ) -> Result<(Offered, bool), AllocError>
        ensures offered { IfOk result
            (λ r. OfferedTo sort bytes (client_at self.old conn) r.0 (client_at self.new conn)) }
        ensures others { OthersStay conn self.old self.new }
        ensures many { IfOk result
            (λ r. r.1 ≡ option_map_or (has_many false) (client_at self.new conn) false) }
        // Whoever a packet waits for is named to be written to, once.
        ensures named { IfOk result (λ r. r.0 ≡ Offered.Taken
            → (option_map_or (λ c. c.touched) (client_at self.old conn) true ≡ true)
            ⊎ (self.new.touched.items ≡ self.old.touched.items ++ conn ∷ [])) }
        ensures noted { OnOk result (AreNoted self.old → AreNoted self.new) }
    {
        let answer = offer_at(&mut self.table, conn, sort, bytes);
        match answer.offered {
            Offered::Taken => {
                if !answer.was_touched {
                    self.touched.push_back(conn)?;
                }
            }
            Offered::Refused => {
                if !answer.was_untold {
                    self.untold.push_back(conn)?;
                }
            }
            Offered::Passed => {}
        }
        Ok((answer.offered, answer.has_many))
    }

    /// The next refused packet of which the broker isn't told: whose, and of which sort; no sort where there was none. None where
    /// the broker is told of all.
    pub fn next_to_tell(&mut self) -> Option<(u64, Option<Sort>)>
        ensures some { IfSome result (λ r. Becomes told r.0 self.old self.new) }
        ensures sort { IfSome result
            (λ r. r.1 ≡ option_map_or sort_untold (client_at self.old r.0) None) }
        ensures none { IfNone result ((self.old.untold.items ≡ []) × AllStay self.old self.new) }
        ensures settled { result ≡ None → AreNoted self.old → IsSettled self.new }
        ensures noted { AreNoted self.old → AreNoted self.new }
    {
        let conn = *self.untold.front()?;
        let (sort, more) = tell_at(&mut self.table, conn);
        if !more {
            let _ = self.untold.pop_front();
        }
        Some((conn, sort))
    }
}
