//! Laws on lists of events: functions that do nothing, whose contracts speak of definitions alone.
ghost use Rattle.std.specs.Prelude.{◌≡◌, ◌↔◌, ℕ, List, None, is_some, true, false};
ghost use Rattle.std.specs.List.{list_all, list_any, sum_by};
ghost use Rattle.spk_story.specs.declared.stand.Stand.TheVariants as Stand;
ghost use Rattle.spk_story.specs.Events.{Event, missing_by, since_birth, unused_by};
ghost use Rattle.spk_story.specs.Gaps.{holes, is_open, over};
ghost use Rattle.spk_story.specs.Order.{AreApart, NeverFalls, has_causes, stops, tells_its_end};
ghost use Rattle.spk_story.specs.Standing.{born_at, stand};

/// For every list of events, newest first.
pub fn any_list()
    // it stands current exactly where a birth was consumed, and since the last one neither a gap, nor a matching death, nor the end of the
    // host's session came
    ensures current { (es : List Event) → (stand es ≡ Stand.Current)
        ↔ ((is_some (born_at es) ≡ true) × (list_any stops (since_birth es) ≡ false)) }

    // where it stands lost a hole is open
    ensures lost { (es : List Event) → stand es ≡ Stand.Lost → is_open es ≡ true }

    // and where it stands current none is, if each loss is told beside the birth, the gap or the death that it comes of
    ensures followed { (es : List Event) → has_causes None es ≡ true → stand es ≡ Stand.Current
        → is_open es ≡ false }

    // holes stand in order and apart, if moments don't fall
    ensures apart { (es : List Event) → NeverFalls es → AreApart (holes es) }

    // what the losses said is what the holes have, each in one of them
    ensures missing { (es : List Event)
        → sum_by (λ h. h.missing) (holes es) ≡ sum_by missing_by es }
    ensures unused { (es : List Event)
        → sum_by (λ h. h.unused) (holes es) ≡ sum_by unused_by es }

    // a hole that is over tells what ended it
    ensures ends { (es : List Event) → list_all tells_its_end (over es) ≡ true }
{}
