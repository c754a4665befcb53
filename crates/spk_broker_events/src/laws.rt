//! Laws of the definitions alone: functions that do nothing, whose contracts speak of definitions.
ghost use Rattle.std.specs.Prelude.{◌≡◌, List, ℕ};
ghost use Rattle.spk_broker_rules.specs.Plan.{Event};
ghost use Rattle.spk_broker_events.specs.Line.{Kept, SaysLine};
ghost use Rattle.spk_broker_events.specs.Record.{Says};

use spk_packets::laws;

/// No content says two events.
pub fn one_event()
    ensures { (bytes : List ℕ) (e f : Event) → Says bytes e → Says bytes f → e ≡ f }
{
    laws::prefix_free();
}

/// No content says two lines, nor an event and a line.
pub fn one_line()
    ensures alone { (bytes : List ℕ) (l m : Kept) → SaysLine bytes l → SaysLine bytes m → l ≡ m }
    ensures apart { (bytes : List ℕ) (e : Event) (l : Kept) → Says bytes e → SaysLine bytes l → ⊥ }
{
    laws::prefix_free();
}
