//! Laws of the definitions alone: functions that do nothing, whose contracts speak of definitions.
ghost use Rattle.std.specs.Prelude.{◌≡◌, ◌↔◌, ℕ, ◌+◌, ◌&&◌, not, List, ◌∷◌, map, true, false, Option, Some, All};
ghost use Rattle.std.specs.Bool.{Decides};
ghost use Rattle.std.specs.Prelude.{filter, slice_get};
ghost use Rattle.std.specs.List.{enumerate_from};
ghost use Rattle.std.specs.Option.{option_map_or};
ghost use Rattle.spk_payload.specs.Meaning.{Content};
ghost use Rattle.spk_payload.specs.Typing.{Typed, written_of};
ghost use Rattle.spk_payload.specs.declared.values.Values.{Values};
ghost use Rattle.spk_payload.specs.declared.values.Values.TheVariants as choice;
ghost use Rattle.spk_device.specs.declared.fault.Refusal.{Refusal};
ghost use Rattle.spk_device.specs.declared.owner.Owner.{Owner};
ghost use Rattle.spk_device.specs.Book.{Book, DeviceData, GaugeData, alias_of, birth_of, births_of, fresh_book, is_owner, number_of};
ghost use Rattle.spk_device.specs.Calls.{Call, answer_of, refusal, standing, standing_from};
ghost use Rattle.spk_device.specs.Lawful.{IsLawful};
ghost use Rattle.spk_device.specs.Queries.{book_at, book_from, done, done_from, gauge_by, metrics_added, metrics_from};
ghost use Rattle.spk_device.specs.Step.{is_taken};
ghost use Rattle.spk_device.specs.Values.{is_float, is_written, value_eq};

/// For every list of calls, newest first, from an empty registry on: stepping the data gives what the queries ask of the
/// calls that weren't refused.
pub fn any_list()
    // devices and metrics in order of adding, each up or down by its last turn, each with the value last set at its alias
    ensures book { (calls : List Call) → standing calls ≡ book_at (done calls) }

    // so the answer to the next call is that of the queries
    ensures answer { (calls : List Call) (call : Call)
        → answer_of (standing calls) call ≡ answer_of (book_at (done calls)) call }

    // a refused call leaves no trace
    ensures refused { (calls : List Call) (call : Call) (r : Refusal)
        → refusal (standing calls) call ≡ Some r
        → (standing (call ∷ calls) ≡ standing calls) × (done (call ∷ calls) ≡ done calls) }

    // the birth of an owner lists the metrics added for it, in order of adding, with the values last set
    ensures births { (calls : List Call) (owner : Owner) → births_of (standing calls) owner
        ≡ map (λ e. birth_of (e.0, gauge_by (done calls) e))
        (filter (λ e. is_owner owner e.1.owner) (enumerate_from 0 (metrics_added (done calls)))) }

    // a device's name leads to its number, and a metric's owner and name to its alias: no two have one
    ensures numbers { (calls : List Call) (n : ℕ) (d : DeviceData)
        → slice_get (standing calls).devices n ≡ Some d → number_of (standing calls) d.name
        ≡ Some n }
    ensures aliases { (calls : List Call) (n : ℕ) (g : GaugeData)
        → slice_get (standing calls).gauges n ≡ Some g
        → alias_of (standing calls) g.owner g.name ≡ Some (n + 1) }

    // names are apart, owners are there, values are of their datatypes, and there are no more than there may be
    ensures lawful { (calls : List Call) → IsLawful (standing calls) }
{}

/// The same from any first registry on, as it was handed over: in order of adding stand the devices and metrics that it had, and
/// those added since.
pub fn from_any()
    // devices and metrics in order of adding, each up or down by its last turn, or else as it was first, each with the value
    // last set at its alias, or else the first
    ensures book { (first : Book) (calls : List Call)
        → standing_from first calls ≡ book_from first (done_from first calls) }
    ensures answer { (first : Book) (calls : List Call) (call : Call)
        → answer_of (standing_from first calls) call
        ≡ answer_of (book_from first (done_from first calls)) call }

    // a refused call leaves no trace
    ensures refused { (first : Book) (calls : List Call) (call : Call) (r : Refusal)
        → refusal (standing_from first calls) call ≡ Some r
        → (standing_from first (call ∷ calls) ≡ standing_from first calls)
        × (done_from first (call ∷ calls) ≡ done_from first calls) }

    // the birth of an owner lists its metrics in order of adding, with the values last set
    ensures births { (first : Book) (calls : List Call) (owner : Owner)
        → births_of (standing_from first calls) owner
        ≡ map (λ e. birth_of (e.0, gauge_by (done_from first calls) e))
        (filter (λ e. is_owner owner e.1.owner)
        (enumerate_from 0 (metrics_from first.gauges (done_from first calls)))) }

    // a lawful registry stays lawful, and the names of a lawful one lead to their numbers and aliases alone
    ensures lawful { (first : Book) (calls : List Call) → IsLawful first
        → IsLawful (standing_from first calls) }
    ensures numbers { (b : Book) (n : ℕ) (d : DeviceData) → IsLawful b
        → slice_get b.devices n ≡ Some d → number_of b d.name ≡ Some n }
    ensures aliases { (b : Book) (n : ℕ) (g : GaugeData) → IsLawful b
        → slice_get b.gauges n ≡ Some g
        → alias_of b g.owner g.name ≡ Some (n + 1) }

    // a new one is lawful, by either choice of values
    ensures fresh { (values : Values) → IsLawful (fresh_book values) }

    // which values metrics may have stays as it was, and each metric that is added has a datatype of them: where none had Float or
    // Double and whole values alone may be, none ever has
    ensures values { (first : Book) (calls : List Call)
        → (standing_from first calls).values ≡ first.values }
    ensures kinds { (first : Book) (calls : List Call)
        → All (λ g. is_written first.values g.datatype ≡ true) first.gauges
        → All (λ g. is_written first.values g.datatype ≡ true) (standing_from first calls).gauges }

    // no birth of a lawful one has a metric whose name the node's own messages use: theirs stays the only one of its name
    ensures unreserved { (b : Book) (owner : Owner) → IsLawful b
        → All (λ m. option_map_or is_taken m.name false ≡ false) (births_of b owner) }
{}

/// The test of owners says that they are equal.
pub fn owners()
    ensures { (a b : Owner) → (is_owner a b ≡ true) ↔ (a ≡ b) }
{}

/// The test of values says that they are equal, and a datatype is taken exactly where it writes some value: by whole values alone
/// where that is neither Float nor Double.
pub fn values()
    ensures equal { (a b : Option Typed) → Decides (value_eq a b) (a ≡ b) }
    ensures taken { (d : ℕ) (v : Typed) (c : Content) → written_of d v ≡ Some c
        → is_written choice.All d ≡ true }
    ensures whole { (d : ℕ)
        → is_written choice.Whole d ≡ (is_written choice.All d && not (is_float d)) }
    ensures written { (values : Values) (d : ℕ) → is_written values d ≡ true
        → (v : Typed) × (c : Content) × (written_of d v ≡ Some c) }
{}
