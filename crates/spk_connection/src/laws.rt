//! Laws on lists of calls: functions that do nothing, whose contracts speak of definitions alone.
ghost use Rattle.std.specs.Prelude.{◌≡◌, ℕ, ◌<◌, List, ◌∷◌, ◌++◌, [], false, take, drop, length};
ghost use Rattle.spk_link.specs.Past as link;
ghost use Rattle.spk_connection.specs.Data.{Connection};
ghost use Rattle.spk_connection.specs.Run.{AreSpelled, Event, IsRun, IsStep, Took, Wrote, of_link, read_in, sent_in, taken_in, written_in};
ghost use Rattle.spk_connection.specs.Step.{IsLent, after_passed, after_wrote, is_open};

/// For every keep alive, every spread and every list of calls that were done, newest first.
pub fn any_list()
    // the packets that were taken of the present connection are those that the bytes read of it spell, each once and in order, and what isn't taken yet
    // stands behind them
    ensures read { (keep spread : ℕ) (es : List Event) (c : Connection) → IsRun keep spread es c
        → (spelled : List ℕ) × AreSpelled (taken_in es) spelled × (read_in es ≡ spelled ++ c.unread) }

    // what was written of the present connection, and what waits, are together what was sent on it, byte for byte and in order
    ensures written { (keep spread : ℕ) (es : List Event) (c : Connection)
        → IsRun keep spread es c
        → written_in es ++ c.unwritten ≡ sent_in es }

    // where there is no connection nothing waits
    ensures closed { (keep spread : ℕ) (es : List Event) (c : Connection) → IsRun keep spread es c
        → is_open c ≡ false → (c.unread ≡ []) × (c.unwritten ≡ []) }

    // it stands, and something is due, as the list of what was heard and sent asks (`spk_link::laws::any_list`)
    ensures link { (keep spread : ℕ) (es : List Event) (c : Connection) → IsRun keep spread es c
        → c.link ≡ link.after keep spread (of_link es) }

    // a write of some bytes of what waits is a step: the bytes that were written are the first ones that waited
    ensures writes { (c : Connection) (count now first : ℕ) (others : List ℕ)
        → take count c.unwritten ≡ first ∷ others
        → IsStep c (Wrote first others now) (after_wrote c count now) }

    // a pass over the bytes that were lent of the front is a step: their packet is taken
    ensures passes { (c : Connection) (bytes : List ℕ) (lent : IsLent c bytes)
        → IsStep c (Took lent.packet) (after_passed c (length bytes)) }
{}
