//! Laws on lists of calls: functions that do nothing, whose contracts speak of definitions alone.
ghost use Rattle.std.specs.Prelude.{◌≡◌, ℕ, ◌+◌, ◌%◌, ◌<◌, ◌≤◌, true, false, if◌then◌else◌, List, [], ◌∷◌, ◌++◌, length, get_or, Option, Some};
ghost use Rattle.std.specs.List.{sum, count_by};
ghost use Rattle.spk_sequence.specs.declared.message.Kind.{Kind};
ghost use Rattle.spk_sequence.specs.Data.{Standing, IsWhole};
ghost use Rattle.spk_sequence.specs.Step.{is_any_held, is_over, is_match, is_live, hand, tick, death};
ghost use Rattle.spk_sequence.specs.Calls.{Call, Hand, Tick, Death, replies_of};
ghost use Rattle.spk_sequence.specs.InLine.{IsInLine, replies_in_line};
ghost use Rattle.spk_sequence.specs.Numbers.{held_count, KeepsNumbers, Remains};
ghost use Rattle.spk_sequence.specs.Losses.{Event, Called, Reset, no_loss, at_stake, loss_at};
ghost use Rattle.spk_sequence.specs.Fates.{AreBytes, fates, is_consumed_at, is_dropped_at, is_still_held, is_turned_away, handed_at, consumed_at, turned_away_at, lost_count, each, after_events};
ghost use Rattle.spk_sequence.specs.Consecutive.{numbers_from, numbers_consumed, NoBirthTaken};
ghost use Rattle.spk_sequence.specs.NodeRecord.{Setting, NodeRecord, IsNodeRecord, message_at, opens, start_of, written_number};
ghost use Rattle.spk_sequence.specs.HostRecord.{Input, MessageComes, record_of, standing_of, done_at, consumed_of};
ghost use Rattle.spk_sequence.specs.Window.{IsNearBirth, AllNearDeaths, AllMayCome, handed_of};
ghost use Rattle.spk_sequence.specs.Following.{taken, contains};
ghost use Rattle.spk_sequence.specs.Claims.{IsLawful, AllPublished, SameStep, IsLiveByPositions, BirthPrefixes, AfterGap, AfterDeath, TakesBirth, HasCause, taken_by, EndsWithTaken, IsOpening, with_more, IsSameWithMore};

use crate::answer::Step;
use crate::message::Kind;
use crate::phase::Phase;

/// For every node record, every width of 1 to 96 and every list of inputs inside the window, where a
/// death that comes while the host follows is of the session of the birth taken, if it has its bdSeq.
/// Where the sequence number restarts at each NBIRTH, births are of near sessions, and no message is
/// handed before its own NBIRTH. Inputs stand newest first.
pub fn positions()
    // each event on numbers is the event on positions, if deaths and the birth handed are of near sessions
    ensures same_steps { (s : Setting) (inputs : List Input) (input : Input)
        → IsLawful s (input ∷ inputs)
        → AllNearDeaths s (input ∷ inputs)
        → IsNearBirth s (record_of s inputs) input → SameStep s inputs input }

    // the phase is Live exactly while the host follows, and then `next` is that of the positions
    ensures live { (s : Setting) (inputs : List Input) → IsLawful s inputs
        → IsLiveByPositions s inputs }

    // birth by birth in increasing order, what was consumed is a prefix of that birth's messages
    ensures fronts { (s : Setting) (inputs : List Input) → IsLawful s inputs
        → BirthPrefixes s.published (consumed_of (record_of s inputs)) }

    // while the host does not follow, as after a gap, nothing is consumed but a newer birth
    ensures after_gap { (s : Setting) (inputs : List Input) (input : Input)
        → IsLawful s (input ∷ inputs)
        → AfterGap s (record_of s inputs)
        (done_at s (record_of s inputs) (standing_of s inputs) input) }

    // nothing is consumed of a session whose matching death came, inside the window or not
    ensures after_death { (s : Setting) (inputs : List Input) (input : Input)
        → IsNodeRecord s.published
        → 0 < s.width → s.width ≤ 96 → AllPublished s (input ∷ inputs)
        → AfterDeath s (record_of s inputs)
        (done_at s (record_of s inputs) (standing_of s inputs) input) }

    // a birth of a near session is taken but for the two causes, if deaths are of near sessions
    ensures births { (s : Setting) (inputs : List Input) (p now : ℕ)
        → IsLawful s (MessageComes p now ∷ inputs)
        → AllNearDeaths s (MessageComes p now ∷ inputs)
        → IsNearBirth s (record_of s inputs) (MessageComes p now)
        → TakesBirth s (record_of s inputs) p
        (done_at s (record_of s inputs) (standing_of s inputs) (MessageComes p now)) }

    // wherever consumption stands, it stands for a cause
    ensures cause { (s : Setting) (inputs : List Input) → IsLawful s inputs
        → HasCause s (record_of s inputs) }

    // the birth taken after an event
    ensures taken { (s : Setting) (inputs : List Input) (input : Input)
        → IsLawful s (input ∷ inputs)
        → taken s (record_of s (input ∷ inputs))
        ≡ taken_by s (record_of s inputs) input
        (done_at s (record_of s inputs) (standing_of s inputs) input).consumed }

    // the birth taken was published, and is an NBIRTH
    ensures taken_opens { (s : Setting) (inputs : List Input) (b : ℕ) → IsLawful s inputs
        → taken s (record_of s inputs) ≡ Some b → IsOpening s.published b }

    // the consumed list ends with the messages of the birth taken, up to the last one consumed
    ensures last_part { (s : Setting) (inputs : List Input) → IsLawful s inputs
        → EndsWithTaken s (record_of s inputs) }

    // what was done, and every query on it, is the same when more is published afterwards
    ensures grows { (s : Setting) (more : NodeRecord) (inputs : List Input) → IsLawful s inputs
        → IsSameWithMore s more inputs }

    // so a lawful list stays lawful, if what is published then is a node record
    ensures still_lawful { (s : Setting) (more : NodeRecord) (inputs : List Input)
        → IsLawful s inputs
        → IsNodeRecord (s.published ++ more) → IsLawful (with_more s more) inputs }
{}

/// On records alone: what was published, and the positions that were handed.
pub fn records()
    // the start of a message's birth is an NBIRTH, and not past the message
    ensures start_opens { (published : NodeRecord) (p : ℕ)
        → opens published (start_of published p) ≡ true }
    ensures start_below { (published : NodeRecord) (p : ℕ) → start_of published p ≤ p }

    // what was handed was published
    ensures handed { (s : Setting) (inputs : List Input) (p : ℕ) → AllMayCome s inputs
        → contains p (handed_of (record_of s inputs)) ≡ true → p < length s.published }

    // a message, whether it is an NBIRTH, the start of its birth and its number stay when more is published
    ensures same_message { (published more : NodeRecord) (p : ℕ) → p < length published
        → message_at (published ++ more) p ≡ message_at published p }
    ensures same_opens { (published more : NodeRecord) (p : ℕ) → p < length published
        → opens (published ++ more) p ≡ opens published p }
    ensures same_start { (published more : NodeRecord) (p : ℕ) → p < length published
        → start_of (published ++ more) p ≡ start_of published p }
    ensures same_number { (s : Setting) (more : NodeRecord) (p : ℕ) → p < length s.published
        → written_number (with_more s more) p ≡ written_number s p }

    // a written number is a byte
    ensures byte { (s : Setting) (p : ℕ) → written_number s p < 256 }
{}

/// What each call does to what is held, by numbers alone, from any data that is whole.
pub fn numbers()
    // a step eats what was held, adds the one handed, or leaves of what was held what it leaves
    ensures hand { (s : Standing) (number now : ℕ) (kind : Kind) → number < 256 → IsWhole s
        → KeepsNumbers s (hand s number kind now).1 number (hand s number kind now).0 }

    // the data stays whole at a moment and at a death
    ensures tick_whole { (s : Standing) (now : ℕ) → IsWhole s → IsWhole (tick s now) }
    ensures death_whole { (s : Standing) (bd : ℕ) → IsWhole s → IsWhole (death s bd) }

    // a moment adds nothing to what is held
    ensures tick { (s : Standing) (now : ℕ) → Remains s (tick s now) }

    // nor does a death
    ensures death { (s : Standing) (bd : ℕ) → Remains s (death s bd) }
{}

/// While nothing is held, messages in order are consumed one by one, by numbers alone: from a
/// birth that is taken on, until a matching death, another birth that is taken, or a `reset`.
pub fn in_line()
    ensures live { (calls : List Call) (s : Standing) → IsWhole s → s.phase ≡ Phase.Live
        → is_any_held s.held ≡ false
        → IsInLine s.next s.stamp s.bd calls → replies_of s calls ≡ replies_in_line calls }

    ensures birth { (calls : List Call) (s : Standing) (number stamp bd now n : ℕ) → number < 256
        → IsWhole s
        → (hand s number (Kind.Birth stamp bd) now).0 ≡ Step.Consumed n
        → is_any_held (hand s number (Kind.Birth stamp bd) now).1.held ≡ false
        → IsInLine ((number + n) % 256) stamp bd calls
        → replies_of (hand s number (Kind.Birth stamp bd) now).1 calls ≡ replies_in_line calls }
{}

/// What is lost at which call, by the answers.
pub fn losses()
    // at a moment and at a death all that is held, if it is a gap, and if it matches; at a reset all
    ensures tick { (s : Standing) (now : ℕ) → IsWhole s
        → loss_at s (Called (Tick now)) ≡ (if is_over s now then at_stake s else no_loss) }
    ensures death { (s : Standing) (bd : ℕ) → IsWhole s
        → loss_at s (Called (Death bd)) ≡ (if is_match s bd then at_stake s else no_loss) }
    ensures reset { (s : Standing) → IsWhole s → loss_at s Reset ≡ at_stake s }

    // with a message that is no NBIRTH all that is held, if it is a gap, and else nothing
    ensures gap { (s : Standing) (number now : ℕ) (own : Option ℕ) → number < 256 → IsWhole s
        → (hand s number (Kind.Other own) now).0 ≡ Step.Gap
        → loss_at s (Called (Hand number (Kind.Other own) now)) ≡ at_stake s }
    ensures no_gap { (s : Standing) (number now : ℕ) (own : Option ℕ) → number < 256 → IsWhole s
        → ((hand s number (Kind.Other own) now).0 ≡ Step.Gap → ⊥)
        → loss_at s (Called (Hand number (Kind.Other own) now)) ≡ no_loss }

    // with an NBIRTH nothing, if it isn't taken, and else what was held and is neither consumed with it nor held then
    ensures not_taken { (s : Standing) (number stamp bd now : ℕ)
        → ((n : ℕ) → (hand s number (Kind.Birth stamp bd) now).0 ≡ Step.Consumed n → ⊥)
        → loss_at s (Called (Hand number (Kind.Birth stamp bd) now)) ≡ no_loss }
    ensures birth { (s : Standing) (number stamp bd now n : ℕ) → number < 256 → IsWhole s
        → (hand s number (Kind.Birth stamp bd) now).0 ≡ Step.Consumed n
        → held_count s.held + 1 ≡ n + (loss_at s (Called (Hand number (Kind.Birth stamp bd) now))).held
        + held_count (hand s number (Kind.Birth stamp bd) now).1.held }

    // nothing, where nothing is held
    ensures idle { (s : Standing) (e : Event) → is_any_held s.held ≡ false → loss_at s e ≡ no_loss }
{}

/// The counts of one node, over every list of calls and resets, from any data that is whole. A message that is handed
/// has one fate: it is consumed at an event, is still held at the end, was turned away as it came, or was held and
/// dropped at an event. What the events answer is how many there are of each. A list stands in the order of time.
pub fn counts()
    // held before + handed = consumed + held after + turned away + lost
    ensures balance { (s : Standing) (events : List Event) → IsWhole s → AreBytes events
        → held_count s.held + sum (each handed_at s events)
        ≡ sum (each consumed_at s events) + held_count (after_events s events).held
        + sum (each turned_away_at s events) + lost_count s events }

    // a fate for each message that was handed, and no more
    ensures handed { (s : Standing) (events : List Event)
        → length (fates s events) ≡ sum (each handed_at s events) }

    // from data without a held message on, as many are consumed at each event as its step says
    ensures consumed { (s : Standing) (events : List Event) (k : ℕ) → IsWhole s
        → is_any_held s.held ≡ false → AreBytes events
        → count_by (is_consumed_at k) (fates s events) ≡ get_or (each consumed_at s events) k 0 }

    // as many are dropped at each event as its loss says
    ensures dropped { (s : Standing) (events : List Event) (k : ℕ) → IsWhole s
        → is_any_held s.held ≡ false → AreBytes events
        → count_by (is_dropped_at k) (fates s events)
        ≡ (get_or (each loss_at s events) k no_loss).held }

    // as many are still held as the data after all says
    ensures held { (s : Standing) (events : List Event) → IsWhole s
        → is_any_held s.held ≡ false → AreBytes events
        → count_by is_still_held (fates s events) ≡ held_count (after_events s events).held }

    // as many are turned away as have such a step
    ensures turned_away { (s : Standing) (events : List Event) → IsWhole s
        → is_any_held s.held ≡ false → AreBytes events
        → count_by is_turned_away (fates s events) ≡ sum (each turned_away_at s events) }
{}

/// The numbers of what is consumed, over every list of calls and resets in which no birth is taken. Gaps, matching
/// deaths and resets may be among them: behind these nothing is consumed. By positions `positions` says it (`last_part`).
pub fn consecutive()
    // from a birth that is taken on they follow one another, 0 after 255, and the birth's is the first
    ensures birth { (s : Standing) (number stamp bd now n : ℕ) (events : List Event) → number < 256
        → IsWhole s → (hand s number (Kind.Birth stamp bd) now).0 ≡ Step.Consumed n
        → AreBytes events → NoBirthTaken (hand s number (Kind.Birth stamp bd) now).1 events
        → numbers_consumed s (Called (Hand number (Kind.Birth stamp bd) now) ∷ events)
        ≡ numbers_from number
        (n + sum (each consumed_at (hand s number (Kind.Birth stamp bd) now).1 events)) }

    // so they do while the node is followed, from the number that comes next on
    ensures live { (s : Standing) (events : List Event) → IsWhole s → AreBytes events
        → NoBirthTaken s events → is_live s.phase ≡ true
        → numbers_consumed s events ≡ numbers_from s.next (sum (each consumed_at s events)) }

    // while it isn't, there are none
    ensures none { (s : Standing) (events : List Event) → NoBirthTaken s events
        → is_live s.phase ≡ false → numbers_consumed s events ≡ [] }
{}
