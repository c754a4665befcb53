//! Laws of the definitions alone: functions that do nothing, whose contracts speak of definitions.
ghost use Rattle.std.specs.Prelude.{◌≡◌, ◌++◌, ◌<◌, ◌≤◌, ◌^◌, [], ◌∷◌, ℕ, List, length, map};
ghost use Rattle.spk_history.specs.declared.reading.Front.{Front};
ghost use Rattle.spk_history.specs.Entry.{EntryData};
ghost use Rattle.spk_history.specs.File.{AreEntries, AreParts, AreRead, Begins, IsFront, IsRead, SaysSame, file_of, joined};
ghost use Rattle.spk_history.specs.Record.{HasTexts, content, most, payload_of};

/// One answer alone is right for what stands at the front of bytes.
pub fn one_front()
    ensures { (bytes : List ℕ) (answer other : Front) → IsFront bytes answer → IsFront bytes other
        → SaysSame answer other }
{}

/// No bytes have two readings: of whatever file the entries that are read are determined, and what stands behind them.
pub fn one_reading()
    ensures { (bytes rest other : List ℕ) (entries more : List EntryData) → IsRead bytes entries rest
        → IsRead bytes more other → (entries ≡ more) × (rest ≡ other) }
{}

/// What was synced is read first, in order, each entry once, whatever became of the bytes behind it.
pub fn synced()
    ensures { (entries read : List EntryData) (behind rest : List ℕ) → AreEntries entries
        → IsRead (file_of entries ++ behind) read rest → Begins entries read }
{}

/// What is read of a file that was cut off at whatever byte.
pub fn torn()
    // a front of the entries that were written
    ensures front { (entries read : List EntryData) (front lost rest : List ℕ) → AreEntries entries
        → front ++ lost ≡ file_of entries → IsRead front read rest → Begins read entries }
    // and each that is there to its end
    ensures whole { (kept more read : List EntryData) (front lost rest : List ℕ)
        → AreEntries (kept ++ more) → front ++ lost ≡ file_of (kept ++ more)
        → length (file_of kept) ≤ length front → IsRead front read rest → Begins kept read }
{}

/// What is read of a history in parts, one behind the other.
pub fn parts()
    // of whole parts it is what was written, in order
    ensures whole { (parts : List (List EntryData)) (read : List EntryData) → AreParts parts
        → AreRead (map file_of parts) read → read ≡ joined parts }
    // of whole parts and a last one that was cut off it is all of those, and a front of the last
    ensures torn { (parts : List (List EntryData)) (last read : List EntryData) (front lost : List ℕ)
        → AreParts parts → AreEntries last → front ++ lost ≡ file_of last
        → AreRead (map file_of parts ++ front ∷ []) read
        → Begins (joined parts) read × Begins read (joined parts ++ last) }
{}

/// A payload of up to 268,435,455 bytes fits, whatever the names.
pub fn fits()
    ensures { (e : EntryData) → HasTexts e → length (payload_of e) < 2 ^ 28
        → length (content e) ≤ most }
{}
