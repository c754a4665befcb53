//! Laws of the definitions alone: functions that do nothing, whose contracts speak of definitions.
ghost use Rattle.std.specs.Prelude.{◌≡◌, ◌++◌, ℕ, List, map};
ghost use Rattle.spk_broker_rules.specs.Data.{Broker};
ghost use Rattle.spk_broker_rules.specs.Lawful.{IsLawful};
ghost use Rattle.spk_broker_rules.specs.Plan.{Event};
ghost use Rattle.spk_broker_replay.specs.Replay.{Follows, journal, restored, run};
ghost use Rattle.spk_broker_snapshot.specs.Lines.{lines};
ghost use Rattle.spk_broker_journal.specs.Fitting.{Came, Row};
ghost use Rattle.spk_broker_journal.specs.Replayed.{together};

/// A journal that begins with a broker's lines, as they stood, and goes on with what is noted of the events behind them, puts that broker together
/// again, but for time and drops.
pub fn restart()
    // whatever front of what was noted is left, cut between any two events that were noted: the broker's data after a front of the events
    ensures any { (limit : ℕ) (b : Broker) (es left lost : List Event) → IsLawful b
        → journal b (restored limit b) es ≡ left ++ lost
        → (done rest : List Event) × (es ≡ done ++ rest)
        × Follows (run b done) (together limit (map Row (lines b) ++ map Came left)) }

    // where all that was noted of the first events is left, as it is where that was synced, after all of these and a front of the others
    ensures synced { (limit : ℕ) (b : Broker) (first others left lost : List Event) → IsLawful b
        → journal b (restored limit b) (first ++ others) ≡ (journal b (restored limit b) first ++ left) ++ lost
        → (done rest : List Event) × (others ≡ done ++ rest)
        × Follows (run b (first ++ done))
        (together limit (map Row (lines b) ++ map Came (journal b (restored limit b) first ++ left))) }
{
    spk_broker_replay::laws::followed();
    spk_broker_replay::laws::front();
    spk_broker_snapshot::laws::lines();
}
