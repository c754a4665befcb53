//! The last holes of a node.
ghost use Rattle.std.specs.Prelude.{◌≡◌, ◌∷◌, [], take};
ghost use Rattle.spk_story.specs.Data.{most_kept};

use crate::hole::Hole;
use std::marker::Model;

/// How many are kept (own rule).
const MOST: usize = 64;

/// A place where none is.
const NONE: Hole = Hole {
    from: 0,
    until: None,
    missing: 0,
    unused: 0,
    end: None,
};

/// The last 64 holes that were put in, newest first. Contracts see their list.
#[derive(Debug, Drop)]
pub(crate) struct Holes {
    places: [Hole; MOST],
    count: usize,
}

impl Model for Holes {
    ghost use Rattle.std.specs.Prelude.{◌≤◌, List, take};
    ghost use Rattle.spk_story.specs.declared.hole.Hole.{Hole};

    ghost Value = { List Hole };

    ghost view = { λ h. take h.count h.places };

    ghost invariant = { λ h. h.count ≤ 64 };
}

impl Holes {
    /// None was put in.
    pub(crate) fn new() -> Holes
        ensures { result ≡ [] }
    {
        Holes {
            places: [NONE; MOST],
            count: 0,
        }
    }

    /// One more; where there are 64, the oldest goes.
    pub(crate) fn put(&mut self, hole: Hole)
        ensures { self.new ≡ take most_kept (hole ∷ self.old) }
    {
        self.places.rotate_right(1);
        self.places[0] = hole;
        self.count = (self.count + 1).min(MOST);
    }

    /// All, newest first.
    pub(crate) fn as_slice(&self) -> &[Hole]
        ensures { result.now ≡ self.now }
    {
        &self.places[..self.count]
    }
}
