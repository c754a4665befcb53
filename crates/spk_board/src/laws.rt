//! Laws on lists of deeds: functions that do nothing, whose contracts speak of definitions alone.
ghost use Rattle.std.specs.Prelude.{◌≡◌, ◌<◌, ℕ, List, Some, length, map, slice_get};
ghost use Rattle.spk_story.specs.Told.{told};
ghost use Rattle.spk_board.specs.Deeds.{Deed, count_of, events_at, first_at, story_of, tales};

/// For every list of deeds, newest first.
pub fn any_list()
    // there are as many stories as there ever were nodes
    ensures count { (ds : List Deed) → length (map story_of (tales ds)) ≡ count_of ds }

    // and each is that of what happened to its node since it was first heard, in order, and of nothing else
    ensures stories { (ds : List Deed) (n : ℕ) → n < count_of ds
        → slice_get (map story_of (tales ds)) n ≡ Some (told (first_at n ds) (events_at n ds)) }
{}
