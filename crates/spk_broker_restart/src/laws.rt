//! Laws of the definitions alone: functions that do nothing, whose contracts speak of definitions.
ghost use Rattle.std.specs.Prelude.{◌≡◌, ◌++◌, ◌≤◌, ℕ, List, [], length};
ghost use Rattle.spk_broker_rules.specs.Data.{Broker};
ghost use Rattle.spk_broker_rules.specs.Lawful.{IsLawful};
ghost use Rattle.spk_broker_rules.specs.Plan.{Event};
ghost use Rattle.spk_broker_replay.specs.Replay.{Follows, bare, connections, ends, run};
ghost use Rattle.spk_broker_snapshot.specs.Lines.{lines};
ghost use Rattle.spk_broker_journal.specs.Adding as line;
ghost use Rattle.spk_broker_journal.specs.Replayed.{IsReplayed};
ghost use Rattle.spk_broker_restart.specs.Written.{IsWritten, written};

/// A journal begins with what a broker kept, goes on with what is noted of the events that came since, and ends at whatever byte behind the former. The broker
/// that is read of these bytes (`IsReplayed`, as `replay` of `spk_broker_journal` answers it) has the data, but for time and drops, that the first one had:
pub fn restarted()
    // after some of these events, from the first on
    ensures any { (limit : ℕ) (b r : Broker) (es : List Event) (front lost : List ℕ) (whole : ℕ) → IsLawful b → IsWritten limit b es
        → front ++ lost ≡ written limit b es → length (line.records (lines b)) ≤ length front → IsReplayed limit front whole r
        → (done rest : List Event) × (es ≡ done ++ rest) × Follows (run b done) r }

    // and after all of the first ones and some of the others, where all is left that was written before these others came, as it is where that was synced
    ensures synced { (limit : ℕ) (b r : Broker) (first others : List Event) (front lost : List ℕ) (whole : ℕ) → IsLawful b
        → IsWritten limit b (first ++ others) → front ++ lost ≡ written limit b (first ++ others)
        → length (written limit b first) ≤ length front → IsReplayed limit front whole r
        → (done rest : List Event) × (others ≡ done ++ rest) × Follows (run b (first ++ done)) r }

    // at the restart all its connections end, with their wills: so it has the data that the first one would have where all its own had ended behind these
    // events, and no connection is open
    ensures ended { (b r : Broker) (es : List Event) → IsLawful b → Follows (run b es) r
        → (bare (run r (ends r)) ≡ bare (run (run b es) (ends (run b es)))) × (connections (run r (ends r)) ≡ []) }
{
    spk_frames::laws::torn();
    spk_broker_rules::laws::lawful();
    spk_broker_replay::laws::ended();
    spk_broker_events::laws::one_event();
    spk_broker_events::laws::one_line();
    spk_broker_journal::laws::restart();
}
