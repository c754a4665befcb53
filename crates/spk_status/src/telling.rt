//! Which closes the log tells of.
ghost use Rattle.std.specs.Prelude.{◌≡◌};
ghost use Rattle.spk_status.specs.Telling.{due_of, fresh_telling, is_told, noted_at, rest_of, rested_at};

/// How many closes the log tells of in each second (own rule).
const MOST: u64 = 10;

/// A second, in milliseconds.
const SECOND: u64 = 1_000;

/// Which closes the log tells of: ten in each second of the clock, and behind it how many more there were.
#[derive(Clone, Copy, Debug, PartialEq, Eq)]
pub struct Telling {
    /// The second of the last close, in seconds.
    second: u64,
    /// How many of that second were told of.
    told: u64,
    /// How many weren't, since the rest was told last.
    more: u64,
}

impl Telling {
    /// No close.
    pub fn new() -> Telling
        ensures { result ≡ fresh_telling }
    {
        Telling {
            second: 0,
            told: 0,
            more: 0,
        }
    }

    /// A close at this moment, in milliseconds. Whether it is told of.
    pub fn note(&mut self, now: u64) -> bool
        ensures told { result ≡ is_told now self.old }
        ensures after { self.new ≡ noted_at now self.old }
    {
        let second = now / SECOND;
        if second != self.second {
            self.second = second;
            self.told = 0;
        }
        if self.told < MOST {
            self.told += 1;
            return true;
        }
        self.more = self.more.saturating_add(1);
        false
    }

    /// How many closes weren't told of, once their second is over at this moment, in milliseconds. None where it isn't, or all were.
    pub fn rest(&mut self, now: u64) -> Option<u64>
        ensures rest { result ≡ rest_of now self.old }
        ensures after { self.new ≡ rested_at now self.old }
    {
        if self.more > 0 && self.second < now / SECOND {
            let more = self.more;
            self.more = 0;
            return Some(more);
        }
        None
    }

    /// From which moment on `rest` answers a number, in milliseconds. None where each close was told of.
    pub fn due(&self) -> Option<u64>
        ensures { result ≡ due_of self.now }
    {
        if self.more == 0 {
            return None;
        }
        Some(self.second.saturating_add(1).saturating_mul(SECOND))
    }
}
