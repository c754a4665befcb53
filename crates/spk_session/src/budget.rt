//! How many dropped sends a client may have.
ghost use Rattle.std.specs.Prelude.{◌≡◌};
ghost use Rattle.spk_session.specs.Parts.{fresh_drops, drops_verdict, drops_after, drops_reopened};

use crate::answer::{Sort, Verdict};
use std::marker::Model;

/// How many sends to a client were dropped on its connection, and how many close it (own rule). No call takes
/// memory.
#[derive(Debug, Drop)]
pub struct Budget {
    drops: u16,
    limit: u16,
}

impl Model for Budget {
    ghost use Rattle.spk_session.specs.Data.{Drops};

    ghost Value = { Drops };

    ghost view = { λ b. record { drops = b.drops; limit = b.limit } };
}

impl Budget {
    /// No drop yet. Drop number `limit` closes the connection, and so does each later one (own rule);
    /// limit 0 acts as 1.
    pub fn new(limit: u16) -> Budget
        ensures fresh { result ≡ fresh_drops limit }
    {
        Budget { drops: 0, limit }
    }

    /// The client couldn't take a send. A PUBLISH of QoS 0 is dropped, and drop number `limit` closes the
    /// connection, as each later one does; any other send closes it at once (own rule).
    pub fn refused(&mut self, sort: Sort) -> Verdict
        ensures answer { result ≡ drops_verdict self.old sort }
        ensures data { self.new ≡ drops_after self.old sort }
    {
        let was = self.drops;
        match sort {
            Sort::QosZero => {
                self.drops = was.saturating_add(1);
                if self.drops >= self.limit {
                    Verdict::Close
                } else {
                    Verdict::Dropped
                }
            }
            Sort::Other => Verdict::Close,
        }
    }

    /// A new connection: drops count from 0 again.
    pub fn reopen(&mut self)
        ensures data { self.new ≡ drops_reopened self.old }
    {
        self.drops = 0;
    }
}
