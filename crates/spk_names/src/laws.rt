//! A law of the definitions alone.
ghost use Rattle.std.specs.Prelude.{◌≡◌, ℕ, List, Some, None, if◌then◌else◌};
ghost use Rattle.std.specs.Option.{option_or};
ghost use Rattle.std.specs.Str.{bytes_eq};
ghost use Rattle.spk_names.specs.Names.{number_in, entered};

/// A name that was entered has its number where it was new, and every other name has what it had.
pub fn found_again()
    ensures { (names : List (List ℕ × ℕ)) (name other : List ℕ) (number : ℕ)
        → number_in (entered names name number) other
        ≡ option_or (number_in names other) (if bytes_eq other name then Some number else None) }
{}
