//! Laws on lists of what was done: functions that do nothing, whose contracts speak of definitions alone.
ghost use Rattle.std.specs.Prelude.{◌≡◌, ℕ, ◌<◌, true, List, [], ◌∷◌, ◌++◌, length};
ghost use Rattle.spk_sequence.specs.Claims.{AfterDeath, AfterGap, BirthPrefixes, HasCause, TakesBirth};
ghost use Rattle.spk_sequence.specs.Following.{contains};
ghost use Rattle.spk_sequence.specs.HostRecord.{Input, MessageComes};
ghost use Rattle.spk_sequence.specs.Positions.{right_at};
ghost use Rattle.spk_edge_rules.specs.Run.{Message, outline};
ghost use Rattle.spk_world_rules.specs.Claims.{ComesAs, IsLawfulPair, IsPassedBy, event_of};
ghost use Rattle.spk_world_rules.specs.Events.{Deed, Hand, HasWidths, Renew, World};
ghost use Rattle.spk_world_rules.specs.Queries.{consumed_of, published_of, record_of, setting_of};
ghost use Rattle.spk_world_rules.specs.Refusals.{AllDone};

/// What is refused is enough: whatever is done in a world, what came to each host of each node is inside the window, and its
/// numbers and bdSeqs tell positions and sessions apart.
pub fn lawful()
    ensures { (w : World) (done : List Deed) (h n : ℕ) → HasWidths w → AllDone w done
        → IsLawfulPair w done h n }
{
    spk_edge_rules::laws::any_list();
    spk_edge_rules::laws::published();
    spk_sequence::laws::positions();
}

/// Of what each host consumes of each node, whatever was done in a world, newest first: any nodes, of both numberings, any hosts,
/// windows of any width, any waits.
pub fn headline()
    // birth by birth in increasing order, what was consumed in the host's present session is a prefix of the messages that the
    // node published under that birth, each once
    ensures prefixes { (w : World) (done : List Deed) (h n : ℕ) → HasWidths w → AllDone w done
        → BirthPrefixes (outline (published_of w done n)) (consumed_of w done h n) }

    // each of these positions was published, so it has the topic and the payload that were published there
    ensures within { (w : World) (done : List Deed) (h n p : ℕ) → HasWidths w → AllDone w done
        → contains p (consumed_of w done h n) ≡ true → p < length (published_of w done n) }

    // while the host doesn't follow the node, as after a gap, nothing is consumed but a newer birth
    ensures after_gap { (w : World) (done : List Deed) (e : Deed) (h n : ℕ) (input : Input)
        → HasWidths w → AllDone w (e ∷ done) → ComesAs done e h n input
        → AfterGap (setting_of w done h n) (record_of w done h n) (event_of w done h n input) }

    // nothing is consumed of a session whose matching death came
    ensures after_death { (w : World) (done : List Deed) (e : Deed) (h n : ℕ) (input : Input)
        → HasWidths w → AllDone w (e ∷ done) → ComesAs done e h n input
        → AfterDeath (setting_of w done h n) (record_of w done h n) (event_of w done h n input) }

    // a handed NBIRTH is taken unless that birth or a later one was taken before, or the matching death of its session came
    // and no birth was taken since
    ensures births { (w : World) (done : List Deed) (h n p now : ℕ) → HasWidths w
        → AllDone w (Hand h n p now ∷ done)
        → TakesBirth (setting_of w done h n) (record_of w done h n) p
        (event_of w done h n (MessageComes p now)) }

    // wherever consumption stands, it stands for a cause
    ensures cause { (w : World) (done : List Deed) (h n : ℕ) → HasWidths w → AllDone w done
        → HasCause (setting_of w done h n) (record_of w done h n) }

    // what is answered by numbers is what positions ask for
    ensures steps { (w : World) (done : List Deed) (e : Deed) (h n : ℕ) (input : Input)
        → HasWidths w → AllDone w (e ∷ done) → ComesAs done e h n input
        → event_of w done h n input
        ≡ right_at (setting_of w done h n) (record_of w done h n) input }

    // what comes to the host of the node adds what it consumes, a thing that passes them by adds nothing, and a new session
    // begins with nothing
    ensures adds { (w : World) (done : List Deed) (e : Deed) (h n : ℕ) (input : Input)
        → ComesAs done e h n input
        → consumed_of w (e ∷ done) h n
        ≡ consumed_of w done h n ++ (event_of w done h n input).consumed }
    ensures keeps { (w : World) (done : List Deed) (e : Deed) (h n : ℕ) → HasWidths w
        → AllDone w (e ∷ done) → IsPassedBy done e h n
        → consumed_of w (e ∷ done) h n ≡ consumed_of w done h n }
    ensures renews { (w : World) (done : List Deed) (h n now : ℕ)
        → consumed_of w (Renew h now ∷ done) h n ≡ [] }

    // what was published stays at its position
    ensures published { (w : World) (done : List Deed) (e : Deed) (n : ℕ)
        → (more : List Message) × (published_of w (e ∷ done) n ≡ published_of w done n ++ more) }
{
    spk_edge_rules::laws::any_list();
    spk_edge_rules::laws::published();
    spk_sequence::laws::positions();
}
