//! Laws of the definitions alone: functions that do nothing, whose contracts speak of definitions.
ghost use Rattle.std.specs.Prelude.{◌≡◌, ℕ, ◌+◌, ◌%◌, ◌^◌, ◌<◌, ◌≤◌, List};
ghost use Rattle.spk_record.specs.declared.record.Record.{Record};
ghost use Rattle.spk_record.specs.Covers.{Covers, reserved};
ghost use Rattle.spk_record.specs.Text.{MeansRecord};

/// No bytes mean two records, so what they mean is determined.
pub fn one_meaning()
    ensures { (bytes : List ℕ) (r t : Record) → MeansRecord bytes r → MeansRecord bytes t → r ≡ t }
{}

/// What a record is for.
pub fn reserving()
    // the reserved record covers its session and every stamp up to five seconds ahead
    ensures covers { (session stamp later : ℕ) → stamp ≤ later → later ≤ stamp + 5000
        → later < 2 ^ 63 → Covers (reserved session stamp) session later }

    // a node that begins with a record which covers a session goes on with another bdSeq than that session's, and one whose
    // stamps are past the record's repeats no stamp that it covers
    ensures other { (r : Record) (session stamp : ℕ) → session < 256 → Covers r session stamp
        → r.bd ≡ session → ⊥ }
    ensures later { (r : Record) (session stamp next : ℕ) → Covers r session stamp → r.stamp < next
        → stamp < next }
{}
