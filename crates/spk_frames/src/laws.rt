//! Laws of the definitions alone: functions that do nothing, whose contracts speak of definitions.
ghost use Rattle.std.specs.Prelude.{◌≡◌, ◌++◌, ◌<◌, ◌≤◌, ◌^◌, ℕ, List, length};
ghost use Rattle.spk_frames.specs.File.{AreSmall, Begins, Holds, frames_of};

/// No bytes have two readings: the contents that are read of them are determined, and what stands behind these.
pub fn one_reading()
    ensures { (most : ℕ) (bytes rest other : List ℕ) (contents more : List (List ℕ)) → most < 2 ^ 32
        → Holds most bytes contents rest → Holds most bytes more other
        → (contents ≡ more) × (rest ≡ other) }
{}

/// What was synced is read first, in order, each content once, whatever became of the bytes behind it.
pub fn synced()
    ensures { (most : ℕ) (contents read : List (List ℕ)) (behind rest : List ℕ) → most < 2 ^ 32
        → AreSmall most contents → Holds most (frames_of contents ++ behind) read rest
        → Begins contents read }
{}

/// What is read of bytes that were cut off wherever.
pub fn torn()
    // a front of the contents that were written
    ensures front { (most : ℕ) (contents read : List (List ℕ)) (front lost rest : List ℕ) → most < 2 ^ 32
        → AreSmall most contents → front ++ lost ≡ frames_of contents
        → Holds most front read rest → Begins read contents }
    // and each that is there to its end
    ensures whole { (most : ℕ) (kept more read : List (List ℕ)) (front lost rest : List ℕ)
        → most < 2 ^ 32 → AreSmall most (kept ++ more) → front ++ lost ≡ frames_of (kept ++ more)
        → length (frames_of kept) ≤ length front → Holds most front read rest → Begins kept read }
{}
