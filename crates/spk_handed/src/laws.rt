//! Laws of the definitions alone: functions that do nothing, whose contracts speak of definitions.
ghost use Rattle.std.specs.Prelude.{◌≡◌, ℕ, ◌++◌, List, ◌∷◌};
ghost use Rattle.spk_handed.specs.Handed.{IsHanded};
ghost use Rattle.spk_sequence.specs.Claims.{AfterDeath, AfterGap, BirthPrefixes, HasCause, TakesBirth};
ghost use Rattle.spk_sequence.specs.HostRecord.{Input, MessageComes, consumed_of, done_at, record_of, standing_of};
ghost use Rattle.spk_sequence.specs.NodeRecord.{Setting};
ghost use Rattle.spk_sequence.specs.Window.{AllNearDeaths, IsNearBirth};
ghost use Rattle.spk_host_node.specs.Inputs as node;
ghost use Rattle.spk_edge_rules.specs.Config.{Setup};
ghost use Rattle.spk_edge_rules.specs.Run.{Message};
ghost use Rattle.spk_tie.specs.Tie.{host_setting};
ghost use Rattle.spk_heard.specs.Read.{AreRead, HandsOutFronts, all_taken};

/// What a host consumes of a node over any broker that hands over so (`IsHanded`), for both numberings and every width of 1 to 96, at every moment.
pub fn headline()
    // birth by birth in increasing order, a prefix of the messages that the node published under that birth, each once
    ensures prefixes { (s : Setting) (inputs : List Input) → IsHanded s inputs
        → BirthPrefixes s.published (consumed_of (record_of s inputs)) }

    // while the host doesn't follow the node, as after a gap, nothing is consumed but a newer birth
    ensures after_gap { (s : Setting) (inputs : List Input) (input : Input)
        → IsHanded s (input ∷ inputs)
        → AfterGap s (record_of s inputs)
        (done_at s (record_of s inputs) (standing_of s inputs) input) }

    // nothing is consumed of a session whose matching death came
    ensures after_death { (s : Setting) (inputs : List Input) (input : Input)
        → IsHanded s (input ∷ inputs)
        → AfterDeath s (record_of s inputs)
        (done_at s (record_of s inputs) (standing_of s inputs) input) }

    // a birth is taken, unless it or a later one was taken before, or the matching death of its session came and no birth was
    // taken since; if deaths and the birth are of near sessions
    ensures births { (s : Setting) (inputs : List Input) (p now : ℕ)
        → IsHanded s (MessageComes p now ∷ inputs)
        → AllNearDeaths s inputs → IsNearBirth s (record_of s inputs) (MessageComes p now)
        → TakesBirth s (record_of s inputs) p
        (done_at s (record_of s inputs) (standing_of s inputs) (MessageComes p now)) }

    // wherever consumption stands, it stands for a cause
    ensures cause { (s : Setting) (inputs : List Input) → IsHanded s inputs
        → HasCause s (record_of s inputs) }

    // so it is of the inputs before
    ensures before { (s : Setting) (later inputs : List Input) → IsHanded s (later ++ inputs)
        → IsHanded s inputs }
{
    spk_sequence::laws::positions();
    spk_sequence::laws::records();
}

/// With the bytes: where what a host was told of a node in a session is read at what was handed over so, what the host hands out is, birth by
/// birth in increasing order, the first messages that the node published under that birth, each once and unaltered.
pub fn handed_out()
    ensures { (s : Setup) (published : List Message) (wait width : ℕ) (is : List Input)
        (js : List node.Input) → IsHanded (host_setting s published wait width) is
        → AreRead s published is js → HandsOutFronts s published (all_taken wait width js) }
{
    headline();
    spk_heard::laws::consumption();
}
