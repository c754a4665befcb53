//! How long others wait for one slow client.
ghost use Rattle.std.specs.Prelude.{◌≡◌};
ghost use Rattle.spk_outbox.specs.Waits.{began, ended, fresh_waits, lasts, until};

use std::marker::Model;

/// How long others wait for one client at a time, in milliseconds (own rule).
const WAIT: u64 = 200;

/// How long others wait for one client in a second, in milliseconds (own rule).
const MOST: u64 = 1_000;

/// A second, in milliseconds.
const SECOND: u64 = 1_000;

/// How long others waited for one client in a second, and since when they wait now. Moments and times are in milliseconds.
#[derive(Debug, Drop)]
pub struct Patience {
    /// When the second began.
    second: u64,
    /// How long was waited in it, without the wait that goes on.
    used: u64,
    since: Option<u64>,
}

impl Model for Patience {
    ghost use Rattle.spk_outbox.specs.Waits as plain;

    ghost Value = { plain.Waits };

    ghost view = { λ p. record { second = p.second; used = p.used; since = p.since } };
}

impl Patience {
    /// Nobody waited yet.
    pub fn new() -> Patience
        ensures { result ≡ fresh_waits }
    {
        Patience {
            second: 0,
            used: 0,
            since: None,
        }
    }

    /// Whether somebody waits at this moment: a wait began less than 200 milliseconds ago, and with it less than a whole second
    /// was waited in its second.
    pub fn lasts(&self, now: u64) -> bool
        ensures { result ≡ lasts now self.now }
    {
        match self.since {
            Some(since) => now.saturating_sub(since) < MOST.saturating_sub(self.used).min(WAIT),
            None => false,
        }
    }

    /// When the wait that goes on is over at the latest; none where nobody waits.
    pub fn until(&self) -> Option<u64>
        ensures { result ≡ until self.now }
    {
        let since = self.since?;
        Some(since.saturating_add(MOST.saturating_sub(self.used).min(WAIT)))
    }

    /// A wait begins, unless one lasts or the second is used up. A new second begins with the first wait that
    /// comes a second or more after the last one began.
    pub fn begin(&mut self, now: u64)
        ensures { self.new ≡ began now self.old }
    {
        if self.lasts(now) {
            return;
        }
        self.end(now);
        if now.saturating_sub(self.second) >= SECOND {
            self.second = now;
            self.used = 0;
        }
        if self.used < MOST {
            self.since = Some(now);
        }
    }

    /// The wait that goes on, if one does, is over. One of 200 milliseconds uses up the second: who took nothing so long isn't
    /// waited for again in it.
    pub fn end(&mut self, now: u64)
        ensures { self.new ≡ ended now self.old }
    {
        let Some(since) = self.since else {
            return;
        };
        let waited = now.saturating_sub(since);
        self.used = if waited >= WAIT {
            MOST
        } else {
            self.used.saturating_add(waited).min(MOST)
        };
        self.since = None;
    }
}
