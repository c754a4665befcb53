//! Laws on lists of calls: functions that do nothing, whose contracts speak of definitions alone.
ghost use Rattle.std.specs.Prelude.{◌≡◌, ℕ, ◌-◌, ◌^◌, ◌≤◌, ◌↔◌, ◌∷◌, ◌++◌, List, None, filter, length, map, min, nat_le, slice_get, true, if◌then◌else◌};
ghost use Rattle.spk_device.specs.declared.owner.Owner.{Owner};
ghost use Rattle.spk_device.specs.Book.{is_owner};
ghost use Rattle.spk_store.specs.Step.{overwritten};
ghost use Rattle.spk_store.specs.Calls.{Call, Push, store_of};
ghost use Rattle.spk_store.specs.Kept.{pushed, place_of, kept_of, count_of, left_of, lost_of, IsLawful};

/// For changes of any kind, every capacity and every list of calls, the newest first, of which none
/// drops more changes than are kept.
pub fn any_list<X>()
    // the kept changes are those pushed from a place on
    ensures kept { (capacity : ℕ) (calls : List (Call X)) → IsLawful capacity calls
        → (store_of capacity calls).items ≡ kept_of capacity calls }

    // the place is one of the list's, or its end
    ensures place { (capacity : ℕ) (calls : List (Call X)) → IsLawful capacity calls
        → place_of capacity calls ≤ length (pushed calls) }

    // no more are kept than there may be
    ensures few { (capacity : ℕ) (calls : List (Call X)) → IsLawful capacity calls
        → count_of capacity calls ≤ capacity }

    // a push onto a full store hands back the change at the place
    ensures overwritten { (capacity : ℕ) (calls : List (Call X)) (x : X) → IsLawful capacity calls
        → overwritten (store_of capacity calls) x
        ≡ (if nat_le capacity (count_of capacity calls) then
        slice_get (pushed (Push x ∷ calls)) (place_of capacity calls) else None) }

    // what is lost is counted, up to the greatest u64
    ensures lost { (capacity : ℕ) (calls : List (Call X)) → IsLawful capacity calls
        → (store_of capacity calls).lost ≡ min (lost_of capacity calls) (2 ^ 64 - 1) }

    // each change that was pushed has left or is kept, in order; and of those that have left as many are lost as are counted
    ensures fates { (capacity : ℕ) (calls : List (Call X)) → IsLawful capacity calls
        → map (λ e. e.0) (left_of capacity calls) ++ kept_of capacity calls ≡ pushed calls }
    ensures counted { (capacity : ℕ) (calls : List (Call X)) → IsLawful capacity calls
        → lost_of capacity calls ≡ length (filter (λ e. e.1) (left_of capacity calls)) }

    // two changes have one owner exactly where their owners are equal
    ensures owners { (a b : Owner) → (is_owner a b ≡ true) ↔ (a ≡ b) }
{
    spk_device::laws::owners();
}
