//! A client's packet identifiers and its dropped sends, in one.
ghost use Rattle.std.specs.Prelude.{◌≡◌, IfOk};
ghost use Rattle.spk_session.specs.Data.{Standing, IsWhole};
ghost use Rattle.spk_session.specs.PacketIds.{is_in, IsNextFree};
ghost use Rattle.spk_session.specs.Step.{fresh_standing, sent_answer, after_sent, after_acked, verdict_of, after_refused, after_reopen, after_rewind};

use crate::answer::{Sort, Verdict};
use crate::budget::Budget;
use crate::fault::SessionFault;
use crate::identifiers::Identifiers;
use std::marker::Model;

/// What a broker keeps of one client: the packet identifiers of what was sent to it at QoS 1 and isn't
/// acknowledged, and how many sends were dropped on its connection. No call takes memory.
#[derive(Debug, Drop)]
pub struct Session {
    ids: Identifiers,
    budget: Budget,
}

impl Model for Session {
    ghost use Rattle.spk_session.specs.Data.{Standing, IsWhole};
    ghost use Rattle.spk_session.specs.Parts.{joined};

    ghost Value = { Standing };

    ghost view = { λ s. joined s.ids s.budget };

    ghost invariant = { λ s. IsWhole (joined s.ids s.budget) };
}

impl Session {
    /// A session without ids in use. Drop number `limit` of a connection closes it, and so does each
    /// later one (own rule); limit 0 acts as 1.
    pub fn new(limit: u16) -> Session
        ensures fresh { result ≡ fresh_standing limit }
        ensures whole { IsWhole result }
    {
        Session {
            ids: Identifiers::new(),
            budget: Budget::new(limit),
        }
    }

    /// Gives the packet identifier of one more send: the next one behind the last one given that isn't in
    /// use, where 1 follows 65,535 (MQTT 3.1.1, 2.3.1). Refused with Unacked where 1,024 are in use (own rule).
    pub fn sent(&mut self) -> Result<u16, SessionFault>
        ensures answer { result ≡ sent_answer self.old }
        ensures next { IfOk result (IsNextFree self.old.used self.old.last) }
        ensures data { self.new ≡ after_sent self.old }
        ensures whole { IsWhole self.new }
    {
        self.ids.sent()
    }

    /// The client acknowledged a packet identifier (MQTT 3.1.1, 4.3.2). Says whether it was in use;
    /// it isn't any more.
    pub fn acked(&mut self, id: u16) -> bool
        ensures answer { result ≡ is_in self.old.used id }
        ensures data { self.new ≡ after_acked self.old id }
        ensures whole { IsWhole self.new }
    {
        self.ids.acked(id)
    }

    /// The client couldn't take a send. A PUBLISH of QoS 0 is dropped, and drop number `limit` of a
    /// connection closes it, as each later one does; any other send closes it at once (own rule).
    pub fn refused(&mut self, sort: Sort) -> Verdict
        ensures answer { result ≡ verdict_of self.old sort }
        ensures data { self.new ≡ after_refused self.old sort }
        ensures whole { IsWhole self.new }
    {
        self.budget.refused(sort)
    }

    /// The ids in use, in the order in which they were given.
    pub fn waiting(&self) -> &[u16]
        ensures ids { result.now ≡ self.now.used }
        ensures whole { IsWhole self.now }
    {
        self.ids.waiting()
    }

    /// The id given last, 0 where none was: what `rewind` takes.
    pub fn last(&self) -> u16
        ensures value { result ≡ self.now.last }
    {
        self.ids.last()
    }

    /// A new connection of the client: drops count from 0 again, and the ids in use stay.
    pub fn reopen(&mut self)
        ensures data { self.new ≡ after_reopen self.old }
        ensures whole { IsWhole self.new }
    {
        self.budget.reopen();
    }

    /// Takes ids back: in use are the first `n` again (all, where there are no more), and `last` is the id
    /// given last. With the number in use and the id given last of before some `sent`s it undoes them.
    pub fn rewind(&mut self, n: usize, last: u16)
        ensures data { self.new ≡ after_rewind self.old n last }
        ensures whole { IsWhole self.new }
    {
        self.ids.rewind(n, last);
    }
}
