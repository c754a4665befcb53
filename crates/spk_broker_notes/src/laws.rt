//! Laws of the definitions alone: functions that do nothing, whose contracts speak of definitions.
ghost use Rattle.std.specs.Prelude.{◌≡◌, ◌++◌, List, Some, max};
ghost use Rattle.spk_broker_replay.specs.Replay.{journal, run};
ghost use Rattle.spk_broker_rules.specs.Data.{Broker};
ghost use Rattle.spk_broker_rules.specs.Plan.{Event};
ghost use Rattle.spk_broker_rules.specs.Step.{step};
ghost use Rattle.spk_broker_notes.specs.Noted.{Noted, Notes, after_all, moment_of, records};

/// An event moves a broker's clock to its moment, where that is later, and nothing else does.
pub fn clocked()
    ensures { (b : Broker) (e : Event) → (step b e).broker.clock ≡ max b.clock (moment_of e) }
{}

/// Behind whatever events what is noted of them stands behind what was noted before, record by record: that is what `spk_broker_replay` notes of them, beside
/// a replay that has the clock of the notes. So it is where this one goes.
pub fn noted()
    ensures broker { (es : List Event) (x : Noted) → (after_all es x).broker ≡ run x.broker es }
    ensures notes { (es : List Event) (x : Noted) (k : Notes) (n : Broker) → x.notes ≡ Some k → n.clock ≡ k.clock
        → (after_all es x).notes ≡ Some (record {
          clock = (run n (journal x.broker n es)).clock;
          bytes = k.bytes ++ records (journal x.broker n es);
        }) }
{}
