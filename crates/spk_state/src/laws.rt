//! Laws on definitions alone: functions that do nothing.
ghost use Rattle.std.specs.Prelude.{◌≡◌, ℕ, ◌↔◌, List, Option, Some, None};
ghost use Rattle.spk_state.specs.declared.state.State.{State};
ghost use Rattle.spk_state.specs.declared.primary.Heard.{Heard};
ghost use Rattle.spk_state.specs.Text.{MeansState, state_at};
ghost use Rattle.spk_state.specs.Step.{heard_as, after_all};
ghost use Rattle.spk_state.specs.Past.{IsGreatest, IsEarlier, host_is};

/// No bytes mean two STATEs, so what they mean is determined.
pub fn one_meaning()
    ensures { (bytes : List ℕ) (s t : State) → MeansState bytes s → MeansState bytes t → s ≡ t }
{}

/// What bytes mean is a function of them: what `State::decode` answers, BadState where it is None.
pub fn reading()
    ensures { (bytes : List ℕ) (s : State) → (state_at bytes ≡ Some s) ↔ MeansState bytes s }
{}

/// For every list of STATEs that came, oldest first, and the next one.
pub fn any_list()
    // what stands is the greatest timestamp heard, and there is one alone
    ensures stands { (states : List State) → IsGreatest (after_all None states) states }
    ensures one { (states : List State) (a b : Option ℕ) → IsGreatest a states → IsGreatest b states
        → a ≡ b }

    // ignored is exactly what is earlier than one that came before
    ensures ignored { (states : List State) (s : State)
        → (heard_as (after_all None states) s ≡ Heard.Ignored) ↔ IsEarlier s states }

    // all else is heard as it says
    ensures heard { (states : List State) (s : State) → (IsEarlier s states → ⊥)
        → heard_as (after_all None states) s ≡ host_is s }
{}
