//! Laws on lists of events: functions that do nothing, whose contracts speak of definitions alone.
ghost use Rattle.std.specs.Prelude.{◌≡◌, ◌↔◌, ℕ, ◌+◌, ◌*◌, ◌<◌, ◌≤◌, ◌⊎◌, ◌-◌, List, true, false};
ghost use Rattle.spk_link.specs.declared.stand.Due.TheVariants as due;
ghost use Rattle.spk_link.specs.Past.{Event, after, due_in, is_open, last_asked, last_heard, last_sent, pause_of, row, stand_in};
ghost use Rattle.spk_link.specs.Step.{and_half, due_at, half};

/// For every keep alive, every spread and every list of events, newest first.
pub fn any_list()
    // the link stands as the events ask, and its next pause is that behind the row of ends
    ensures stand { (keep spread : ℕ) (es : List Event)
        → (after keep spread es).stand ≡ stand_in spread es }
    ensures pause { (keep spread : ℕ) (es : List Event)
        → (after keep spread es).pause ≡ pause_of (row es) }

    // a try is due exactly where there is no connection, and the pause behind the last end is over
    ensures connect { (keep spread now : ℕ) (es : List Event)
        → (due_at (after keep spread es) now ≡ due.Connect)
        ↔ ((is_open es ≡ false) × (due_in spread es ≤ now)) }

    // a connection is given up exactly where nothing was heard for one and a half times the keep alive
    ensures end { (keep spread now : ℕ) (es : List Event) → 0 < keep
        → (due_at (after keep spread es) now ≡ due.End)
        ↔ ((is_open es ≡ true) × (last_heard es + and_half (1000 * keep) ≤ now)) }

    // PINGREQ is due exactly where it isn't given up, nothing was sent or nothing heard for half the keep alive, and none was
    // sent for as long
    ensures ping { (keep spread now : ℕ) (es : List Event) → 0 < keep
        → (due_at (after keep spread es) now ≡ due.Ping)
        ↔ ((is_open es ≡ true) × (now < last_heard es + and_half (1000 * keep))
        × (last_asked es + half (1000 * keep) ≤ now)
        × ((last_sent es + half (1000 * keep) ≤ now)
        ⊎ (last_heard es + half (1000 * keep) ≤ now))) }
{}
