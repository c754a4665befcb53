//! A link.
ghost use Rattle.std.specs.Prelude.{◌≡◌, ◌≤◌, ◌<◌, ◌-◌, ◌^◌, ◌⊎◌, ◌↔◌, ℕ, IfSome, IfNone};
ghost use Rattle.spk_link.specs.Step as step;

use crate::stand::{Due, Moments, Stand};
use std::marker::Model;

/// The shortest pause, the longest, and how long a connection lasts behind which pauses begin anew, in milliseconds (own rules).
const SHORTEST: u64 = 500;

const LONGEST: u64 = 30_000;

const LASTING: u64 = 10_000;

/// How a client's connection with a broker stands. Contracts see the `Link` of `specs/Data.antt`.
#[derive(Debug, Drop)]
pub struct Link {
    keep: u64,
    spread: u8,
    pause: u64,
    stand: Stand,
}

impl Model for Link {
    ghost use Rattle.std.specs.Prelude.{◌≡◌, ◌≤◌, ◌⊎◌};
    ghost use Rattle.spk_link.specs.Data as plain;

    ghost Value = { plain.Link };

    ghost view = { λ l. record { keep = l.keep; spread = l.spread; pause = l.pause; stand = l.stand } };

    ghost invariant = { λ l. (l.keep ≤ 65535000) × ((l.keep ≡ 0) ⊎ (2 ≤ l.keep)) × (l.pause ≤ 30000) };
}

/// Whether so much time is over since a moment. A moment before it counts as no time passed.
fn is_over(now: u64, moment: u64, time: u64) -> bool
    ensures { result ≡ step.is_over now moment time }
{
    now.saturating_sub(moment) >= time
}

/// What is due of a connection.
fn due_of(keep: u64, moments: &Moments, now: u64) -> Due
    requires { keep ≤ 65535000 }
    ensures { result ≡ step.due_of keep (Stand.On moments.now) now }
{
    let half = keep / 2;
    if keep == 0 {
        Due::Nothing
    } else if is_over(now, moments.heard, keep + half) {
        Due::End
    } else if is_over(now, moments.asked, half)
        && (is_over(now, moments.sent, half) || is_over(now, moments.heard, half))
    {
        Due::Ping
    } else {
        Due::Nothing
    }
}

/// When something is due next of a connection.
fn next_of(keep: u64, moments: &Moments) -> Option<u64>
    requires most { keep ≤ 65535000 }
    requires least { (keep ≡ 0) ⊎ (2 ≤ keep) }
    ensures some { IfSome result (λ at. (now : ℕ) → now < 2 ^ 64 - 1
        → (step.due_of keep (Stand.On moments.now) now ≡ Due.Nothing) ↔ (now < at)) }
    ensures none { IfNone result ((now : ℕ) → step.due_of keep (Stand.On moments.now) now
        ≡ Due.Nothing) }
{
    if keep == 0 {
        return None;
    }
    let half = keep / 2;
    let quiet = moments.sent.min(moments.heard).max(moments.asked);
    let ping = quiet.saturating_add(half);
    let end = moments.heard.saturating_add(keep + half);
    Some(ping.min(end))
}

impl Link {
    /// There was no connection yet: a try is due at once. The keep alive is in seconds, 0 is none. Each pause is longer by `spread` 1,024ths, so
    /// that not all clients of a broker come back at once (own rule).
    pub fn new(keep: u16, spread: u8) -> Link
        ensures { result ≡ step.fresh_link keep spread }
    {
        Link {
            keep: u64::from(keep) * 1_000,
            spread,
            pause: SHORTEST,
            stand: Stand::Off(0),
        }
    }

    /// Whether there is a connection.
    pub fn stand(&self) -> Stand
        ensures { result ≡ self.now.stand }
    {
        self.stand
    }

    /// What is to be done at a moment. A try to connect once the pause is over. PINGREQ where nothing was sent, or nothing was heard, for half the
    /// keep alive, and no PINGREQ was sent for as long (own rule, within MQTT 3.1.1, section 3.1.2.10). The end where nothing was heard for
    /// one and a half times the keep alive.
    pub fn due(&self, now: u64) -> Due
        ensures { result ≡ step.due_at self.now now }
    {
        match &self.stand {
            Stand::Off(due) => {
                if *due <= now {
                    Due::Connect
                } else {
                    Due::Nothing
                }
            }
            Stand::On(moments) => due_of(self.keep, moments, now),
        }
    }

    /// When something is due next, if nothing is done until then: before it nothing is due, and from it on something is. None where nothing will be. A
    /// moment behind the greatest one counts as that.
    pub fn next(&self) -> Option<u64>
        ensures some { IfSome result (λ at. (now : ℕ) → now < 2 ^ 64 - 1
            → (step.due_at self.now now ≡ Due.Nothing) ↔ (now < at)) }
        ensures none { IfNone result ((now : ℕ) → step.due_at self.now now ≡ Due.Nothing) }
    {
        match &self.stand {
            Stand::Off(due) => Some(*due),
            Stand::On(moments) => next_of(self.keep, moments),
        }
    }

    /// A connection begins. Where there is one already, nothing changes.
    pub fn opened(&mut self, now: u64)
        ensures { self.new ≡ step.after_opened self.old now }
    {
        if let Stand::Off(_) = self.stand {
            self.stand = Stand::On(Moments {
                since: now,
                sent: now,
                heard: now,
                asked: now,
            });
        }
    }

    /// Something was sent. Where there is no connection, nothing changes.
    pub fn sent(&mut self, now: u64)
        ensures { self.new ≡ step.after_sent self.old now }
    {
        if let Stand::On(moments) = &mut self.stand {
            moments.sent = now;
        }
    }

    /// Something was heard. Where there is no connection, nothing changes.
    pub fn heard(&mut self, now: u64)
        ensures { self.new ≡ step.after_heard self.old now }
    {
        if let Stand::On(moments) = &mut self.stand {
            moments.heard = now;
        }
    }

    /// A PINGREQ was sent. Where there is no connection, nothing changes.
    pub fn asked(&mut self, now: u64)
        ensures { self.new ≡ step.after_asked self.old now }
    {
        if let Stand::On(moments) = &mut self.stand {
            moments.sent = now;
            moments.asked = now;
        }
    }

    /// The connection is over, or a try came to none. The next try is due behind a pause: half a second at first, twice as long each time, 30
    /// seconds at the most, and half a second again behind a connection that lasted ten seconds (own rules).
    pub fn over(&mut self, now: u64)
        ensures { self.new ≡ step.after_over self.old now }
    {
        let mut pause = self.pause;
        if let Stand::On(moments) = &self.stand {
            if is_over(now, moments.since, LASTING) {
                pause = SHORTEST;
            }
        }
        let longer = pause * u64::from(self.spread) / 1_024;
        self.pause = (2 * pause).min(LONGEST);
        self.stand = Stand::Off(now.saturating_add(pause + longer));
    }
}
