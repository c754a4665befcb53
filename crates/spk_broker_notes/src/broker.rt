//! The broker, and what is noted of it.
ghost use Rattle.std.specs.Prelude.{◌≡◌, None};
ghost use Rattle.spk_broker_rules.specs.Data.{fresh_broker};
ghost use Rattle.spk_broker_notes.specs.Noted.{begun, bytes_of, emptied};

use crate::notes::Log;
use spk_broker::Broker;
use std::alloc::Global;
use std::fmt;
use std::marker::Model;

/// A broker, and what was noted of the events that came to it. Contracts see `Noted`.
#[derive(Drop)]
pub struct NotedBroker {
    pub(crate) alloc: Global,
    pub(crate) broker: Broker,
    /// The greatest moment so far: the broker's clock.
    pub(crate) now: u64,
    /// None where nothing is noted.
    pub(crate) log: Option<Log>,
}

impl fmt::Debug for NotedBroker {
    fn fmt<W: fmt::Write>(&self, f: &mut fmt::Formatter<W>) -> fmt::Result {
        f.write_str("NotedBroker { .. }")
    }
}

impl Model for NotedBroker {
    ghost use Rattle.std.specs.Prelude.{◌≡◌};
    ghost use Rattle.std.specs.Option.{option_map};
    ghost use Rattle.spk_broker_notes.specs.Noted as plain;
    ghost use Rattle.spk_broker_notes.specs.Logs.{log_view};

    ghost Value = { plain.Noted };

    ghost view = { λ b. record { broker = b.broker; notes = option_map log_view b.log } };

    ghost invariant = { λ b. b.now ≡ b.broker.clock };
}

impl NotedBroker {
    /// A broker without connections, of which nothing is noted. `limit` is that of `Broker::new`.
    pub fn new(alloc: Global, limit: u16) -> NotedBroker
        ensures { result ≡ record { broker = fresh_broker limit; notes = None } }
    {
        NotedBroker::of(alloc, Broker::new(alloc, limit))
    }

    /// This broker, of whose events nothing is noted yet.
    pub fn of(alloc: Global, broker: Broker) -> NotedBroker
        ensures { result ≡ record { broker = broker; notes = None } }
    {
        let now = broker.clock();
        NotedBroker {
            alloc,
            broker,
            now,
            log: None,
        }
    }

    /// What the broker keeps.
    pub fn broker(&self) -> &Broker
        ensures { result.now ≡ self.entry.now.broker }
    {
        &self.broker
    }

    /// From now on all events are noted, from a replay on that begins at what the broker keeps now. What was noted before is gone.
    pub fn begin(&mut self)
        ensures { self.new ≡ begun self.old }
    {
        self.log = Some(Log {
            clock: 0,
            bytes: Vec::new(self.alloc),
        });
    }

    /// The records of what was noted and isn't kept yet, in order: nothing where nothing is noted.
    pub fn notes(&self) -> &[u8]
        ensures { result.now ≡ bytes_of self.entry.now.notes }
    {
        match &self.log {
            Some(log) => log.bytes.as_slice(),
            None => &[],
        }
    }

    /// What was noted is kept now.
    pub fn kept(&mut self)
        ensures { self.new ≡ emptied self.old }
    {
        match &mut self.log {
            Some(log) => log.bytes.clear(),
            None => {}
        }
    }
}
