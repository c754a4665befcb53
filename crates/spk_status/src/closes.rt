//! How many clients' sockets were shut, by cause.
ghost use Rattle.std.specs.Prelude.{◌≡◌};
ghost use Rattle.spk_status.specs.Closes.{counted, fresh_closes, of_cause};

use spk_clients::Cause;

/// How many clients' sockets were shut, by the causes of their ends. Each count stands at the greatest number.
#[derive(Clone, Copy, Debug, PartialEq, Eq)]
pub struct Closes {
    pub left: u64,
    pub gone: u64,
    pub silent: u64,
    pub unreadable: u64,
    pub refused: u64,
    pub keep_alive: u64,
    pub taken_over: u64,
    pub slow: u64,
    pub memory: u64,
}

impl Closes {
    /// None.
    pub fn new() -> Closes
        ensures { result ≡ fresh_closes }
    {
        Closes {
            left: 0,
            gone: 0,
            silent: 0,
            unreadable: 0,
            refused: 0,
            keep_alive: 0,
            taken_over: 0,
            slow: 0,
            memory: 0,
        }
    }

    /// One more, for this cause.
    pub fn count(&mut self, cause: Cause)
        ensures { self.new ≡ counted cause self.old }
    {
        match cause {
            Cause::Left => self.left = self.left.saturating_add(1),
            Cause::Gone => self.gone = self.gone.saturating_add(1),
            Cause::Silent => self.silent = self.silent.saturating_add(1),
            Cause::Unreadable => self.unreadable = self.unreadable.saturating_add(1),
            Cause::Refused => self.refused = self.refused.saturating_add(1),
            Cause::KeepAlive => self.keep_alive = self.keep_alive.saturating_add(1),
            Cause::TakenOver => self.taken_over = self.taken_over.saturating_add(1),
            Cause::Slow => self.slow = self.slow.saturating_add(1),
            Cause::Memory => self.memory = self.memory.saturating_add(1),
        }
    }

    /// How many for this cause.
    pub fn of(&self, cause: Cause) -> u64
        ensures { result ≡ of_cause cause self.now }
    {
        match cause {
            Cause::Left => self.left,
            Cause::Gone => self.gone,
            Cause::Silent => self.silent,
            Cause::Unreadable => self.unreadable,
            Cause::Refused => self.refused,
            Cause::KeepAlive => self.keep_alive,
            Cause::TakenOver => self.taken_over,
            Cause::Slow => self.slow,
            Cause::Memory => self.memory,
        }
    }
}
