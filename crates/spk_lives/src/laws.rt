//! Laws of the definitions alone: functions that do nothing, whose contracts speak of definitions.
ghost use Rattle.std.specs.Prelude.{◌≡◌, ℕ, ◌+◌, ◌-◌, ◌^◌, ◌<◌, ◌≤◌, List, ◌∷◌, ◌++◌, map, min};
ghost use Rattle.std.specs.List.{AllByRecursion, range_with_len};
ghost use Rattle.spk_sequence.specs.Claims.{BirthPrefixes};
ghost use Rattle.spk_sequence.specs.HostRecord.{Input, consumed_of, record_of};
ghost use Rattle.spk_sequence.specs.NodeRecord.{IsNodeRecord, Restarts};
ghost use Rattle.spk_host_node.specs.Inputs as node;
ghost use Rattle.spk_edge_rules.specs.Claims.{SaysSession};
ghost use Rattle.spk_edge_rules.specs.Config.{Setup};
ghost use Rattle.spk_edge_rules.specs.Inputs as edge;
ghost use Rattle.spk_edge_rules.specs.Run.{outline, run_of, session_number};
ghost use Rattle.spk_tie.specs.Tie.{host_setting};
ghost use Rattle.spk_heard.specs.Read.{AreRead, HandsOutFronts, all_taken};
ghost use Rattle.spk_handed.specs.Handed.{IsHanded};
ghost use Rattle.spk_record.specs.Covers as kept;
ghost use Rattle.spk_lives.specs.Lives.{AreApart, AreLives, AreNumbered, CoversRun, Deed, IsCareful, Life, Reserve, bds_of, end_to_end, first_setup, on_disk, record_in, said, sessions_in};
ghost use Rattle.spk_lives.specs.Order.{KeepsOrder};

/// Of every list of lives of a node, newest first, each begun from a record that survived the one before, at whatever moment that one was cut.
pub fn lives()
    // what was published end to end is one node record: births one by one, sessions and stamps that never fall, and each
    // NBIRTH newer than all before it
    ensures record { (lives : List Life) → AreLives lives
        → IsNodeRecord (outline (end_to_end lives)) }

    // each message is of one of the sessions that are counted
    ensures counted { (lives : List Life) → AreLives lives
        → AllByRecursion (λ m. m.session < sessions_in lives) (end_to_end lives) }

    // no bdSeq comes twice among 256 sessions in a row
    ensures apart { (lives : List Life) → AreLives lives → AreApart (bds_of lives) }

    // the bdSeqs go on by one over all lives, from that of the first one
    ensures bds { (life : Life) (lives : List Life) → AreLives (life ∷ lives)
        → bds_of (life ∷ lives)
        ≡ map (session_number (first_setup life lives))
        (range_with_len 0 (sessions_in (life ∷ lives))) }

    // and each NBIRTH begins with that of its session
    ensures sessions { (life : Life) (lives : List Life) → AreLives (life ∷ lives)
        → AllByRecursion (SaysSession (first_setup life lives)) (end_to_end (life ∷ lives)) }

    // where numbers restart at each NBIRTH, each message was sent under the number of its place end to end
    ensures numbers { (life : Life) (lives : List Life) → AreLives (life ∷ lives)
        → life.setup.config.numbering ≡ Restarts
        → AreNumbered (first_setup life lives) (end_to_end (life ∷ lives)) (life ∷ lives) }
{
    spk_edge_rules::laws::any_list();
    spk_sequence::laws::records();
}

/// Of what one life does, and of the records that it writes.
pub fn records()
    // whichever record survives covers all that was given out until then
    ensures survivors { (s : Setup) (deeds : List Deed) → IsCareful s deeds
        → AllByRecursion (CoversRun s (run_of s (said deeds))) (on_disk s deeds) }

    // and a record that covers what a node did covers what it had done at any moment before
    ensures earlier { (s : Setup) (later is : List edge.Input) (r : Reserve)
        → CoversRun s (run_of s (later ++ is)) r → CoversRun s (run_of s is) r }

    // a life that is cut earlier is careful too
    ensures cut { (s : Setup) (later deeds : List Deed) → IsCareful s (later ++ deeds)
        → IsCareful s deeds }

    // a record of one more session than a session's number covers it and every stamp up to the record's own
    ensures covers { (s : Setup) (session stamp used : ℕ) → used ≤ stamp
        → kept.Covers (record_in s (session + 1) stamp) (session_number s session) used }

    // it is the one that is reserved for that session and a stamp
    ensures reserved { (s : Setup) (session stamp : ℕ)
        → kept.reserved (session_number s session) stamp
        ≡ record_in s (session + 1) (min (stamp + kept.ahead) (2 ^ 63 - 1)) }
{
    spk_edge_rules::laws::any_list();
    spk_edge_rules::laws::published();
}

/// The headline for a node that crashes: over any broker that keeps the order, for the lives of a node end to end.
pub fn headline_over_lives()
    // what such a broker hands to a host is handed in order
    ensures handed { (life : Life) (lives : List Life) (wait width : ℕ) (inputs : List Input)
        → AreLives (life ∷ lives)
        → KeepsOrder
        (host_setting (first_setup life lives) (end_to_end (life ∷ lives)) wait width) inputs
        → IsHanded
        (host_setting (first_setup life lives) (end_to_end (life ∷ lives)) wait width) inputs }

    // so what the host consumes is, birth by birth in increasing order, a prefix of the messages that the node published
    // under that birth, each once, whichever of its lives it was in
    ensures prefixes { (life : Life) (lives : List Life) (wait width : ℕ) (inputs : List Input)
        → AreLives (life ∷ lives)
        → KeepsOrder
        (host_setting (first_setup life lives) (end_to_end (life ∷ lives)) wait width) inputs
        → BirthPrefixes (outline (end_to_end (life ∷ lives)))
        (consumed_of
        (record_of
        (host_setting (first_setup life lives) (end_to_end (life ∷ lives)) wait width)
        inputs)) }

    // with the bytes: what the host hands out are these messages, unaltered
    ensures handed_out { (life : Life) (lives : List Life) (wait width : ℕ) (inputs : List Input)
        (js : List node.Input) → AreLives (life ∷ lives)
        → KeepsOrder
        (host_setting (first_setup life lives) (end_to_end (life ∷ lives)) wait width) inputs
        → AreRead (first_setup life lives) (end_to_end (life ∷ lives)) inputs js
        → HandsOutFronts (first_setup life lives) (end_to_end (life ∷ lives))
        (all_taken wait width js) }
{
    lives();
    spk_handed::laws::headline();
    spk_handed::laws::handed_out();
}
