//! Laws of the definitions alone: functions that do nothing, whose contracts speak of definitions.
ghost use Rattle.std.specs.Prelude.{◌≡◌, ℕ, List};
ghost use Rattle.std.specs.List.{fold};
ghost use Rattle.spk_broker_events.specs.Line.{Kept};
ghost use Rattle.spk_broker_replay.specs.Replay.{restored};
ghost use Rattle.spk_broker_rules.specs.Data.{Broker};
ghost use Rattle.spk_broker_snapshot.specs.Lines.{lines};
ghost use Rattle.spk_broker_snapshot.specs.Together.{Stand, after, ended};

/// The lines of a broker put together what a replay begins with in place of its first event, whatever was there before.
pub fn lines()
    ensures { (limit : ℕ) (b : Broker) (before : Stand)
        → ended (fold (after limit) before (lines b)) ≡ restored limit b }
{}
