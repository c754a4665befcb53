//! The width of the reorder window.
ghost use Rattle.spk_sequence.specs.Budget.{budget};
ghost use Rattle.std.specs.Prelude.{◌≡◌, ◌-◌, ◌*◌, ◌<◌, ◌≤◌, ◌↔◌, IsSome, IfSome};

use std::marker::Model;

/// How many numbers, from the one that comes next on, a host takes: 1 to 96.
#[derive(Clone, Copy, Debug, PartialEq, Eq)]
pub struct Width {
    places: u8,
}

impl Model for Width {
    ghost use Rattle.std.specs.Prelude.{ℕ, ◌<◌, ◌≤◌};

    ghost Value = { ℕ };

    ghost view = { λ w. w.places };

    ghost invariant = { λ w. (0 < w.places) × (w.places ≤ 96) };

    ghost inverse = { λ n. record { places = n } };
}

impl Width {
    /// The width of so many places, where these are 1 to 96 (own rule).
    pub fn new(places: u8) -> Option<Width>
        ensures valid { IsSome result ↔ ((0 < places) × (places ≤ 96)) }
        ensures value { IfSome result (λ width. width ≡ places) }
    {
        if 0 < places && places <= 96 {
            Some(Width { places })
        } else {
            None
        }
    }

    /// The number of places.
    pub fn get(self) -> u8
        ensures value { result ≡ self }
        ensures positive { 0 < result }
        ensures bounded { result ≤ 96 }
    {
        self.places
    }

    /// The number of lost messages in a row from which on a byte of number can no longer tell the
    /// later ones from old ones: 256 less twice the width (own rule).
    pub fn budget(self) -> u16
        ensures value { result ≡ budget self }
    {
        256 - 2 * u16::from(self.get())
    }
}
