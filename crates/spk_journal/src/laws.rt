//! Laws of the definitions alone: functions that do nothing, whose contracts speak of definitions.
ghost use Rattle.std.specs.Prelude.{◌≡◌, ◌++◌, ◌≤◌, ℕ, List, length};
ghost use Rattle.spk_journal.specs.File.{ArePlain, IsFront, Says, text_of};

/// No bytes say two things.
pub fn one_reading()
    ensures { (bytes rest other : List ℕ) (lines more : List (List ℕ)) → Says bytes lines rest
        → Says bytes more other → (lines ≡ more) × (rest ≡ other) }
{}

/// What a file says that was torn at whatever byte.
pub fn torn()
    // a front of the lines that were written
    ensures front { (lines read : List (List ℕ)) (front lost rest : List ℕ) → ArePlain lines
        → front ++ lost ≡ text_of lines → Says front read rest → IsFront read lines }
    // and each line that is there to its end
    ensures whole { (kept more read : List (List ℕ)) (front lost rest : List ℕ) → ArePlain (kept ++ more)
        → front ++ lost ≡ text_of (kept ++ more) → Says front read rest
        → length (text_of kept) ≤ length front → IsFront kept read }
{}
