//! Laws on lists of calls: functions that do nothing, whose contracts speak of definitions alone.
ghost use Rattle.std.specs.Prelude.{◌≡◌, ℕ, ◌^◌, ◌<◌, List, [], length, min};
ghost use Rattle.spk_session.specs.Data.{Standing, Ids, Drops};
ghost use Rattle.spk_session.specs.PacketIds.{AreIds, IsNextFree, next_id};
ghost use Rattle.spk_session.specs.Parts.{joined, fresh_ids, fresh_drops, ids_after_calls, drops_after_calls, ids_after_rewind};
ghost use Rattle.spk_session.specs.Past.{in_use, last_given, drops_of};
ghost use Rattle.spk_session.specs.Step.{fresh_standing, after_rewind};
ghost use Rattle.spk_session.specs.Calls.{Call, after_calls, replies_of, events_of, right_replies, LeavesIds};

/// For every limit and every list of calls of a session, from `new` on.
pub fn any_list()
    // each call answers what the list of all events before it asks
    ensures replies { (limit : ℕ) (calls : List Call) → limit < 2 ^ 16
        → replies_of (fresh_standing limit) calls ≡ right_replies limit [] calls }

    // in use are the ids given and neither acknowledged nor taken back since, in the order of giving
    ensures used { (limit : ℕ) (calls : List Call)
        → (after_calls (fresh_standing limit) calls).used ≡ in_use (events_of [] calls) }

    // they are distinct, from 1 to 65,535, and at most 1,024
    ensures ids { (calls : List Call) → AreIds (in_use (events_of [] calls)) }

    // the next id is the first one behind the last one given that isn't in use
    ensures next { (used : List ℕ) (last : ℕ) → AreIds used
        → IsNextFree used last (next_id used last) }

    // the id given last
    ensures last { (limit : ℕ) (calls : List Call)
        → (after_calls (fresh_standing limit) calls).last ≡ last_given (events_of [] calls) }
{}

/// From any data on, a rewind to the number of ids in use and the id given last undoes each `sent` since, as long as
/// no id that was in use before is acknowledged, and no rewind in between goes further back. Drops stay.
pub fn rewound()
    ensures { (s : Standing) (calls : List Call) → LeavesIds s.used calls
        → after_rewind (after_calls s calls) (length s.used) s.last
        ≡ record s { drops = (after_calls s calls).drops } }
{}

/// `Identifiers` and `Budget` alone do what a session that holds both does.
pub fn parts()
    // a session of two parts goes on as its parts do
    ensures both { (i : Ids) (d : Drops) (calls : List Call)
        → after_calls (joined i d) calls
        ≡ joined (ids_after_calls i calls) (drops_after_calls d calls) }

    // in use are the ids given and neither acknowledged nor taken back since, in the order of giving
    ensures used { (calls : List Call)
        → (ids_after_calls fresh_ids calls).used ≡ in_use (events_of [] calls) }
    ensures last { (calls : List Call)
        → (ids_after_calls fresh_ids calls).last ≡ last_given (events_of [] calls) }

    // a rewind to the number in use and the id given last undoes each `sent` since, under the same premise as above
    ensures rewound { (i : Ids) (calls : List Call) → LeavesIds i.used calls
        → ids_after_rewind (ids_after_calls i calls) (length i.used) i.last ≡ i }

    // drops count since the budget was made or reopened, up to 65,535
    ensures drops { (limit : ℕ) (calls : List Call)
        → (drops_after_calls (fresh_drops limit) calls).drops
        ≡ min (drops_of (events_of [] calls)) 65535 }
{}
