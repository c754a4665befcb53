//! The broker: its data, and how a connection is opened.
ghost use Rattle.std.specs.Prelude.{◌≡◌, ◌+◌, nat_le, false, IfOk, IfErr, OnOk, OnErr};
ghost use Rattle.spk_broker.specs.declared.fault.BrokerFault.TheVariants as BrokerFault;
ghost use Rattle.spk_broker.specs.Fault.{IsLimit};
ghost use Rattle.spk_broker_rules.specs.Data.{fresh_broker};
ghost use Rattle.spk_broker_rules.specs.Plan.{Open};
ghost use Rattle.spk_broker_rules.specs.Step.{is_full, open_count, step};
ghost use Rattle.spk_broker_rules.specs.Words.{most_open};

use crate::fault::BrokerFault;
use crate::hints::Hints;
use crate::index::GrantIndex;
use crate::newcomer::Newcomer;
use crate::out::Conn;
use crate::state::State;
use indexmap::IndexMap;
use std::alloc::Global;
use std::fmt;
use std::marker::Model;

/// The most connections at once (own rule).
const MOST_OPEN: usize = 1_000;

/// Connections, sessions, grants and retained messages. Contracts see the `Broker` of the rules.
#[derive(Drop)]
pub struct Broker {
    pub(crate) state: State,
    pub(crate) index: GrantIndex,
    /// Where connections sat.
    pub(crate) hints: Hints,
    /// Up to this moment no connection is silent for too long.
    pub(crate) calm: u64,
}

impl fmt::Debug for Broker {
    fn fmt<W: fmt::Write>(&self, f: &mut fmt::Formatter<W>) -> fmt::Result {
        f.write_str("Broker { .. }")
    }
}

impl Model for Broker {
    ghost use Rattle.spk_broker_rules.specs.Data as plain;

    ghost Value = { plain.Broker };

    ghost use Rattle.spk_broker.specs.View.{broker_view, IsKept};

    ghost view = { broker_view };

    ghost invariant = { IsKept };
}

impl Broker {
    /// No connections, no sessions and no retained messages. Drop number `limit` of a connection closes it (own rule);
    /// limit 0 acts as 1.
    pub fn new(alloc: Global, limit: u16) -> Broker
        ensures { result ≡ fresh_broker limit }
    {
        Broker {
            state: State {
                alloc,
                limit,
                given: 0,
                made: 0,
                clock: 0,
                clock_before: 0,
                newcomers: Vec::new(alloc),
                sessions: Vec::new(alloc),
                retained: IndexMap::new(alloc),
            },
            index: GrantIndex::new(),
            hints: Hints::new(alloc),
            calm: 0,
        }
    }

    /// Opens a connection, and answers its number. Refused with Limit (31) where 1,000 connections are open, or
    /// the greatest number was given (own rule). Where it fails nothing has changed.
    pub fn open(&mut self, now: u64) -> Result<Conn, BrokerFault>
        ensures number { IfOk result (λ conn. conn ≡ self.old.given + 1) }
        ensures done { OnOk result (self.new ≡ (step self.old (Open now)).broker) }
        ensures accepted { OnOk result (is_full self.old ≡ false) }
        ensures fault { IfErr result (IsLimit (is_full self.old)) }
        ensures err { OnErr result (self.new ≡ self.old) }
    {
        if self.has_most_open() || self.state.given == u64::MAX {
            return Err(BrokerFault::Limit);
        }
        self.greet(now)
    }

    /// Whether as many connections are open as may be. They are counted only where there are as many sessions and connections without CONNECT.
    fn has_most_open(&self) -> bool
        ensures { result ≡ nat_le most_open (open_count self.now) }
    {
        if self
            .state
            .newcomers
            .len()
            .saturating_add(self.state.sessions.len())
            < MOST_OPEN
        {
            return false;
        }
        self.open_count() >= MOST_OPEN
    }

    /// How many connections are open.
    fn open_count(&self) -> usize
        ensures { result ≡ open_count self.now }
    {
        let mut connections = 0;
        for session in &self.state.sessions {
            if session.had_connection() {
                connections += 1;
            }
        }
        self.state.newcomers.len() + connections
    }

    /// One more connection without CONNECT.
    fn greet(&mut self, now: u64) -> Result<Conn, BrokerFault>
        requires { is_full self.old ≡ false }
        ensures number { IfOk result (λ conn. conn ≡ self.old.given + 1) }
        ensures done { OnOk result (self.new ≡ (step self.old (Open now)).broker) }
        ensures fault { IfErr result (λ e. e ≡ BrokerFault.NoMemory) }
        ensures err { OnErr result (self.new ≡ self.old) }
    {
        let conn = self.state.given + 1;
        let clock = self.state.clock_before.max(now);
        self.state.newcomers.push(Newcomer {
            conn,
            heard: clock,
            drops: 0,
            heard_before: clock,
            drops_before: 0,
            gone: false,
        })?;
        self.state.given = conn;
        self.state.clock = clock;
        self.state.clock_before = clock;
        Ok(conn)
    }
}
