//! What is looked for now and then, where there are users: kept sessions whose clients were away for too long, and users for whose sessions too much waits.

use crate::client::Client;
use crate::farewell::Farewell;
use crate::rounds::Rounds;
use spk_server::ServerFault;
use std::alloc::Global;
use std::io::Write;

/// How often it is looked for them, in milliseconds (own rule).
const EVERY: u64 = 10_000;

/// How many sessions end at one look (own rule).
const MOST: usize = 64;

/// When it is looked for them.
#[derive(Drop)]
pub(crate) struct Sweep {
    alloc: Global,
    next: u64,
}

impl Sweep {
    pub(crate) fn new(alloc: Global) -> Sweep {
        Sweep { alloc, next: 0 }
    }

    /// When the next look is due; none where nobody holds anything.
    pub(crate) fn due(&self, rounds: &Rounds<Client<'_>>) -> Option<u64> {
        if rounds.holds() {
            Some(self.next)
        } else {
            None
        }
    }

    /// Ends a kept session, and tells why. Whether it is over.
    fn end<L: Write>(
        &self,
        rounds: &mut Rounds<Client<'_>>,
        client: &str,
        why: &str,
        log: &mut L,
        now: u64,
    ) -> Result<bool, ServerFault> {
        let Ok(own) = Farewell::new(self.alloc, client) else {
            return Ok(false);
        };
        if !rounds.end_session(client, Client::Own(own), now)? {
            return Ok(false);
        }
        let _ = writeln!(log, "ended {client:?} {why}");
        Ok(true)
    }

    /// Ends sessions whose clients were away for too long.
    fn end_expired<L: Write>(
        &self,
        rounds: &mut Rounds<Client<'_>>,
        log: &mut L,
        now: u64,
    ) -> Result<(), ServerFault> {
        for _ in 0..MOST {
            let Some(client) = rounds.expired(now) else {
                break;
            };
            let Ok(client) = String::from_str(self.alloc, client) else {
                break;
            };
            if !self.end(rounds, client.as_str(), "away", log, now)? {
                break;
            }
        }
        Ok(())
    }

    /// Ends a session of a user for whose sessions too much waits: the one for which the most does. Its client is refused first, where it is here.
    fn end_heaviest<L: Write>(
        &self,
        rounds: &mut Rounds<Client<'_>>,
        log: &mut L,
        now: u64,
    ) -> Result<(), ServerFault> {
        let Some(heavy) = rounds.heaviest() else {
            return Ok(());
        };
        match heavy.conn {
            Some(conn) => rounds.bar(conn),
            None => {
                self.end(rounds, heavy.client.as_str(), "full", log, now)?;
            }
        }
        Ok(())
    }

    /// Looks for them, where that is due.
    pub(crate) fn look<L: Write>(
        &mut self,
        rounds: &mut Rounds<Client<'_>>,
        log: &mut L,
        now: u64,
    ) -> Result<(), ServerFault> {
        if now < self.next || !rounds.holds() {
            return Ok(());
        }
        self.next = now.saturating_add(EVERY);
        self.end_expired(rounds, log, now)?;
        self.end_heaviest(rounds, log, now)
    }
}
