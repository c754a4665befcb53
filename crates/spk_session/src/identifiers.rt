//! The packet identifiers of a client (MQTT 3.1.1, 2.3.1).
ghost use Rattle.std.specs.Prelude.{◌≡◌, IfOk};
ghost use Rattle.spk_session.specs.Data.{AreWhole};
ghost use Rattle.spk_session.specs.PacketIds.{is_in, IsNextFree};
ghost use Rattle.spk_session.specs.Parts.{fresh_ids, ids_answer, ids_after_sent, ids_after_acked, ids_after_rewind};

use crate::fault::SessionFault;
use crate::{circle, table};
use std::marker::Model;

/// The greatest number of ids in use (own rule).
const MOST: usize = 1024;

/// The packet identifiers of what was sent to a client at QoS 1 and isn't acknowledged. No call takes memory.
#[derive(Debug, Drop)]
pub struct Identifiers {
    table: [u16; MOST],
    count: usize,
    last: u16,
}

impl Model for Identifiers {
    ghost use Rattle.std.specs.Prelude.{take};
    ghost use Rattle.spk_session.specs.Data.{Ids, IsTable};

    ghost Value = { Ids };

    ghost view = { λ s. record { used = take s.count s.table; last = s.last } };

    ghost invariant = { λ s. IsTable s.table s.count };
}

impl Identifiers {
    /// No id is in use, and none was given.
    pub fn new() -> Identifiers
        ensures fresh { result ≡ fresh_ids }
        ensures whole { AreWhole result }
    {
        Identifiers {
            table: [0; MOST],
            count: 0,
            last: 0,
        }
    }

    /// Gives the packet identifier of one more send: the next one behind the last one given that isn't in
    /// use, where 1 follows 65,535 (MQTT 3.1.1, 2.3.1). Refused with Unacked where 1,024 are in use (own rule).
    pub fn sent(&mut self) -> Result<u16, SessionFault>
        ensures answer { result ≡ ids_answer self.old }
        ensures next { IfOk result (IsNextFree self.old.used self.old.last) }
        ensures data { self.new ≡ ids_after_sent self.old }
        ensures whole { AreWhole self.new }
    {
        if self.count == MOST {
            return Err(SessionFault::Unacked);
        }
        let id = circle::next_id(&self.table[..self.count], self.last);
        self.table[self.count] = id;
        self.count += 1;
        self.last = id;
        Ok(id)
    }

    /// The client acknowledged a packet identifier (MQTT 3.1.1, 4.3.2). Says whether it was in use;
    /// it isn't any more.
    pub fn acked(&mut self, id: u16) -> bool
        ensures answer { result ≡ is_in self.old.used id }
        ensures data { self.new ≡ ids_after_acked self.old id }
        ensures whole { AreWhole self.new }
    {
        let was = self.count;
        self.count = table::remove(&mut self.table, was, id);
        self.count < was
    }

    /// The ids in use, in the order in which they were given.
    pub fn waiting(&self) -> &[u16]
        ensures ids { result.now ≡ self.now.used }
        ensures whole { AreWhole self.now }
    {
        &self.table[..self.count]
    }

    /// The id given last, 0 where none was: what `rewind` takes.
    pub fn last(&self) -> u16
        ensures value { result ≡ self.now.last }
    {
        self.last // 0 where none was given
    }

    /// Takes ids back: in use are the first `n` again (all, where there are no more), and `last` is the id
    /// given last. With the number in use and the id given last of before some `sent`s it undoes them.
    pub fn rewind(&mut self, n: usize, last: u16)
        ensures data { self.new ≡ ids_after_rewind self.old n last }
        ensures whole { AreWhole self.new }
    {
        if n < self.count {
            self.count = n;
        }
        self.last = last;
    }
}
