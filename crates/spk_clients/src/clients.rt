//! The clients, and how they come.
ghost use Rattle.std.specs.Prelude.{◌≡◌, ◌≢◌, ℕ, nat_eq, Some, None, false, IsOk, IfOk, OnOk, OnErr, IfSome, IfNone};
ghost use Rattle.std.specs.Option.{option_map, option_copied};
ghost use Rattle.std.specs.HashMap.{get, hash_map_len};
ghost use Rattle.spk_clients.specs.Client.{fresh_client, is_untold};
ghost use Rattle.spk_clients.specs.Data.{AllStay, AreNoted, HasRoom, IsSettled, OthersStay, client_at, client_count};

use crate::client::Client;
use std::alloc::{AllocError, Global};
use std::collections::{HashMap, VecDeque};
use std::fmt;

/// The clients, by the numbers of their connections.
#[derive(Drop)]
pub struct Clients {
    pub(crate) alloc: Global,
    pub(crate) table: HashMap<u64, Client>,
    /// To whom something is to be written, each once.
    pub(crate) touched: VecDeque<u64>,
    /// Whose refused packets the broker isn't told of.
    pub(crate) untold: VecDeque<u64>,
    /// Whose socket is to be shut, each once.
    pub(crate) done: VecDeque<u64>,
    /// Whether somebody whose socket is to be shut may not be named, since memory was refused.
    pub(crate) unnamed: bool,
    /// Whose moment had come when all were looked at last, but for the first of them.
    pub(crate) due: VecDeque<u64>,
    /// No client's moment comes before.
    pub(crate) soonest: u64,
}

impl fmt::Debug for Clients {
    fn fmt<W: fmt::Write>(&self, f: &mut fmt::Formatter<W>) -> fmt::Result {
        f.write_str("Clients { .. }")
    }
}

impl Clients {
    /// No clients.
    pub fn new(alloc: Global) -> Clients
        ensures none { (k : ℕ) → client_at result k ≡ None }
        ensures noted { IsSettled result }
    {
        Clients {
            alloc,
            table: HashMap::new(alloc),
            touched: VecDeque::new(alloc),
            untold: VecDeque::new(alloc),
            done: VecDeque::new(alloc),
            unnamed: false,
            due: VecDeque::new(alloc),
            soonest: u64::MAX,
        }
    }

    /// How many there are.
    pub fn len(&self) -> usize
        ensures { result ≡ client_count self.now }
    {
        self.table.len()
    }

    /// A client.
    pub fn get(&self, conn: u64) -> Option<&Client>
        ensures { option_copied result ≡ client_at self.now conn }
    {
        self.table.get(&conn)
    }

    /// Room for one more client, so that `insert` isn't refused, and in each list, so that none grows in the midst of a call.
    pub fn reserve(&mut self) -> Result<(), AllocError>
        ensures stay { AllStay self.old self.new }
        ensures room { OnOk result (HasRoom self.new) }
        ensures noted { AreNoted self.old → AreNoted self.new }
        ensures untold { self.new.untold.items ≡ self.old.untold.items }
    {
        let count = self.table.len().saturating_add(1);
        self.touched.reserve(count)?;
        self.untold.reserve(count)?;
        self.done.reserve(count)?;
        self.due.reserve(count)?;
        self.table.reserve(1)?;
        Ok(())
    }

    /// A client that just came, for `insert`. It is to be shut at this moment, in milliseconds, if it sent nothing until then.
    /// Refused only where memory is.
    pub fn client(&self, until: u64) -> Result<Client, AllocError>
        ensures { IfOk result (λ c. c ≡ fresh_client until) }
    {
        Client::new(self.alloc, until)
    }

    /// A client came. Where memory is refused nobody came; behind `reserve` none is.
    pub fn insert(&mut self, conn: u64, client: Client) -> Result<(), AllocError>
        ensures here { OnOk result (client_at self.new conn ≡ Some client) }
        ensures others { OnOk result (OthersStay conn self.old self.new) }
        ensures err { OnErr result ((k : ℕ) → client_at self.new k ≡ client_at self.old k) }
        ensures room { HasRoom self.old → IsOk result }
        ensures noted { AreNoted self.old → is_untold client ≡ false → AreNoted self.new }
        ensures untold { self.new.untold.items ≡ self.old.untold.items }
    {
        let until = client.until;
        let is_to_shut = client.is_to_shut();
        self.table.insert(conn, client)?;
        self.soonest = self.soonest.min(until);
        self.unnamed |= is_to_shut;
        Ok(())
    }
}
