//! The moments of a program.

use std::time::{Clock, Instant, SystemTime, UNIX_EPOCH};

/// How far the machine's clock may be ahead before the moments follow it, in milliseconds (own rule).
const AHEAD: u64 = 1_000;

/// The moments of a program, in milliseconds since 1970: the machine's clock at the start, and what passed since. They never fall, and don't jump
/// while a connection stands: where the machine's clock was set ahead they follow it while there is none.
#[derive(Drop)]
pub(crate) struct Clockwork {
    start: Option<Instant>,
    base: u64,
    last: u64,
}

/// Milliseconds since 1970, by the machine's clock.
fn wall<R: Clock>(rt: &R) -> u64 {
    let Ok(now) = SystemTime::now(rt) else {
        return 0;
    };
    match now.duration_since(UNIX_EPOCH) {
        Ok(since) => u64::try_from(since.as_millis()).unwrap_or(u64::MAX),
        Err(_) => 0,
    }
}

impl Clockwork {
    pub(crate) fn new<R: Clock>(rt: &R) -> Clockwork {
        let base = wall(rt);
        Clockwork {
            start: Instant::now(rt).ok(),
            base,
            last: base,
        }
    }

    /// What passed since the start, in milliseconds.
    fn passed<R: Clock>(&self, rt: &R) -> u64 {
        let Some(start) = &self.start else {
            return 0;
        };
        match start.elapsed(rt) {
            Ok(since) => u64::try_from(since.as_millis()).unwrap_or(u64::MAX),
            Err(_) => 0,
        }
    }

    /// The present moment.
    pub(crate) fn now<R: Clock>(&mut self, rt: &R) -> u64 {
        self.last = self.base.saturating_add(self.passed(rt)).max(self.last);
        self.last
    }

    /// There is no connection: the moments follow a clock that was set ahead.
    pub(crate) fn follow<R: Clock>(&mut self, rt: &R) {
        let wall = wall(rt);
        if wall > self.last.saturating_add(AHEAD) {
            self.base = wall.saturating_sub(self.passed(rt));
        }
    }
}
