//! Laws of the definitions alone: functions that do nothing, whose contracts speak of definitions.
ghost use Rattle.std.specs.Prelude.{◌≡◌, ℕ, List, [], ◌++◌};
ghost use Rattle.std.specs.List.{fold};
ghost use Rattle.spk_broker_rules.specs.Data.{Broker, fresh_broker};
ghost use Rattle.spk_broker_rules.specs.Lawful.{IsLawful};
ghost use Rattle.spk_broker_rules.specs.Plan.{Event};
ghost use Rattle.spk_broker_rules.specs.Step.{step};
ghost use Rattle.spk_broker_replay.specs.Parts.{begun, parts, with_part};
ghost use Rattle.spk_broker_replay.specs.Replay.{Follows, bare, connections, ends, journal, notes, restored, run};

use spk_broker_rules::laws;

/// A replay of the events that are noted follows its broker: connections, sessions with their grants, identifiers and messages in flight, wills and retained
/// messages are the same.
pub fn followed()
    // a broker and a replay that begin together
    ensures first { (limit other : ℕ) → Follows (fresh_broker limit) (fresh_broker other) }

    // a replay that begins at the broker's data as they stand, where all that was noted before is left out
    ensures restored { (limit : ℕ) (b : Broker) → Follows b (restored limit b) }

    // an event, and what is noted of it
    ensures next { (b n : Broker) (e : Event) → IsLawful b → Follows b n
        → Follows (step b e).broker (run n (notes b n.clock e)) }

    // and so any list of events
    ensures all { (b n : Broker) (es : List Event) → IsLawful b → Follows b n → Follows (run b es) (run n (journal b n es)) }
{
    laws::lawful();
}

/// Of whatever was noted only a front may be left, cut between any two events that were noted.
pub fn front()
    // it leads to the broker's data after a front of the events
    ensures any { (b n : Broker) (es left lost : List Event) → IsLawful b → Follows b n
        → journal b n es ≡ left ++ lost
        → (done rest : List Event) × (es ≡ done ++ rest) × Follows (run b done) (run n left) }

    // and where all that was noted of the first events is left, as it is where that was synced, to those after all of these and a front of the others
    ensures synced { (b n : Broker) (first others left lost : List Event) → IsLawful b → Follows b n
        → journal b n (first ++ others) ≡ (journal b n first ++ left) ++ lost
        → (done rest : List Event) × (others ≡ done ++ rest)
        × Follows (run b (first ++ done)) (run n (journal b n first ++ left)) }
{
    laws::lawful();
}

/// At a restart all connections end, with their wills. That leads to what their ends would have led the broker to, and no connection is open then.
pub fn ended()
    ensures { (b n : Broker) → IsLawful b → Follows b n
        → (bare (run n (ends n)) ≡ bare (run b (ends b))) × (connections (run n (ends n)) ≡ []) }
{
    laws::lawful();
    laws::knowing();
}

/// What a replay begins with, instead of at the first event, is put together of parts: each connection without CONNECT, each session, each retained
/// message, behind those that are there.
pub fn parts()
    ensures { (limit : ℕ) (b : Broker)
        → fold with_part (begun limit b.given b.made) (parts b) ≡ restored limit b }
{}
