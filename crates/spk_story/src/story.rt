//! The story of a node.
ghost use Rattle.std.specs.Prelude.{◌≡◌, ℕ, ◌∷◌, [], List, ◌&&◌, not, is_some, if◌then◌else◌};
ghost use Rattle.std.specs.Option.{option_map, unwrap_or};
ghost use Rattle.spk_story.specs.Data.{fresh_hole, with_end};
ghost use Rattle.spk_story.specs.Events.{Event, Born, Used, Dropped, Gap, Died, Ignored, Ended, Asked};
ghost use Rattle.spk_story.specs.Standing.{is_same};
ghost use Rattle.spk_story.specs.Told.{told};

use crate::counts::Counts;
use crate::hole::{End, Hole, Loss};
use crate::holes::Holes;
use crate::stand::Stand;
use std::marker::Model;

/// What the host was told of one node, as an engineer asks for it. Contracts see the `Story` of `specs/Data.antt`.
#[derive(Debug, Drop)]
pub struct Story {
    stand: Stand,
    since: u64,
    born_at: Option<u64>,
    used_at: Option<u64>,
    counts: Counts,
    hole: Option<Hole>,
    kept: Holes,
}

impl Model for Story {
    ghost use Rattle.spk_story.specs.Data as plain;

    ghost Value = { plain.Story };

    ghost view = { λ s. record {
      stand = s.stand;
      since = s.since;
      born_at = s.born_at;
      used_at = s.used_at;
      counts = s.counts;
      hole = s.hole;
      kept = s.kept;
    } };
}

impl Story {
    /// The story of a node that was first heard at this moment: no birth of it was consumed.
    pub fn new(now: u64) -> Story
        ensures { result ≡ told now [] }
    {
        Story {
            stand: Stand::Unborn,
            since: now,
            born_at: None,
            used_at: None,
            counts: Counts {
                births: 0,
                used: 0,
                gaps: 0,
                deaths: 0,
                ignored: 0,
                requests: 0,
                missing: 0,
                unused: 0,
                holes: 0,
            },
            hole: None,
            kept: Holes::new(),
        }
    }

    /// It stands so from now on, if it was born.
    fn turn(&mut self, stand: Stand, now: u64)
        ensures { self.new
            ≡ (if is_some self.old.born_at && not (is_same self.old.stand stand)
            then record self.old { stand = stand; since = now } else self.old) }
    {
        if self.born_at.is_some() && !self.stand.is_same(stand) {
            self.stand = stand;
            self.since = now;
        }
    }

    /// The hole that is open, or one that begins.
    fn opened(&self, now: u64) -> Hole
        ensures { result
            ≡ unwrap_or self.now.hole (fresh_hole (unwrap_or self.now.used_at now) self.now.stand) }
    {
        self.hole.unwrap_or(Hole {
            from: self.used_at.unwrap_or(now),
            until: None,
            missing: 0,
            unused: 0,
            end: self.stand.end(),
        })
    }

    /// What the hole that is open is ended by, where nothing ended it yet.
    fn end_hole(&mut self, end: End)
        ensures { self.new ≡ record self.old { hole = option_map (with_end end) self.old.hole } }
    {
        if let Some(hole) = &mut self.hole {
            hole.end = hole.end.or(Some(end));
        }
    }

    /// An NBIRTH of it was consumed.
    pub fn born(&mut self, now: u64)
        ensures { (first : ℕ) (es : List Event) → self.old ≡ told first es
            → self.new ≡ told first (Born now ∷ es) }
    {
        self.end_hole(End::Birth);
        if let Some(hole) = self.hole {
            self.kept.put(Hole {
                until: Some(now),
                ..hole
            });
            self.counts.holes = self.counts.holes.saturating_add(1);
        }
        self.hole = None;
        let at = Some(now);
        self.born_at = at;
        self.used_at = at;
        self.counts.births = self.counts.births.saturating_add(1);
        self.counts.used = self.counts.used.saturating_add(1);
        self.turn(Stand::Current, now);
    }

    /// Another message of it, or of a device of it, was consumed.
    pub fn used(&mut self, now: u64)
        ensures { (first : ℕ) (es : List Event) → self.old ≡ told first es
            → self.new ≡ told first (Used now ∷ es) }
    {
        self.used_at = Some(now);
        self.counts.used = self.counts.used.saturating_add(1);
    }

    /// Messages of it that were held are dropped.
    pub fn dropped(&mut self, loss: Loss, now: u64)
        ensures { (first : ℕ) (es : List Event) → self.old ≡ told first es
            → self.new ≡ told first (Dropped loss now ∷ es) }
    {
        let Loss { unused, missing } = loss;
        let mut hole = self.opened(now);
        hole.missing = hole.missing.saturating_add(missing);
        hole.unused = hole.unused.saturating_add(unused);
        self.hole = Some(hole);
        self.counts.missing = self.counts.missing.saturating_add(missing);
        self.counts.unused = self.counts.unused.saturating_add(unused);
    }

    /// Messages of it were lost, and it isn't followed until its next birth.
    pub fn gap(&mut self, now: u64)
        ensures { (first : ℕ) (es : List Event) → self.old ≡ told first es
            → self.new ≡ told first (Gap now ∷ es) }
    {
        self.hole = Some(self.opened(now));
        self.counts.gaps = self.counts.gaps.saturating_add(1);
        self.turn(Stand::Lost, now);
    }

    /// The NDEATH of the session that was followed came.
    pub fn died(&mut self, now: u64)
        ensures { (first : ℕ) (es : List Event) → self.old ≡ told first es
            → self.new ≡ told first (Died now ∷ es) }
    {
        self.end_hole(End::Death);
        self.counts.deaths = self.counts.deaths.saturating_add(1);
        self.turn(Stand::Dead, now);
    }

    /// An NDEATH came that changes nothing, at whatever moment.
    pub fn ignored(&mut self)
        ensures { (first now : ℕ) (es : List Event) → self.old ≡ told first es
            → self.new ≡ told first (Ignored now ∷ es) }
    {
        self.counts.ignored = self.counts.ignored.saturating_add(1);
    }

    /// The host's own session is over.
    pub fn ended(&mut self, now: u64)
        ensures { (first : ℕ) (es : List Event) → self.old ≡ told first es
            → self.new ≡ told first (Ended now ∷ es) }
    {
        self.end_hole(End::Session);
        self.turn(Stand::OutOfReach, now);
    }

    /// A rebirth was asked for, at whatever moment.
    pub fn asked(&mut self)
        ensures { (first now : ℕ) (es : List Event) → self.old ≡ told first es
            → self.new ≡ told first (Asked now ∷ es) }
    {
        self.counts.requests = self.counts.requests.saturating_add(1);
    }

    /// How it stands.
    pub fn stand(&self) -> Stand
        ensures { result ≡ self.now.stand }
    {
        self.stand
    }

    /// Since when it stands so, in milliseconds.
    pub fn since(&self) -> u64
        ensures { result ≡ self.now.since }
    {
        self.since
    }

    /// When a birth of it was consumed last.
    pub fn born_at(&self) -> Option<u64>
        ensures { result ≡ self.now.born_at }
    {
        self.born_at
    }

    /// When a message of it was consumed last.
    pub fn used_at(&self) -> Option<u64>
        ensures { result ≡ self.now.used_at }
    {
        self.used_at
    }

    /// What was counted.
    pub fn counts(&self) -> Counts
        ensures { result ≡ self.now.counts }
    {
        self.counts
    }

    /// The hole that is open.
    pub fn hole(&self) -> Option<Hole>
        ensures { result ≡ self.now.hole }
    {
        self.hole
    }

    /// The last 64 holes that are over, newest first.
    pub fn kept(&self) -> &[Hole]
        ensures { result.now ≡ self.now.kept }
    {
        self.kept.as_slice()
    }
}
