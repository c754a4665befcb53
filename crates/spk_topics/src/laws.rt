//! Laws of the definitions.
ghost use Rattle.std.specs.Prelude.{◌≡◌, ◌↔◌, ◌∷◌, ℕ, List, IsTrue, not, true, false, is_some, Some, None};
ghost use Rattle.std.specs.List.{list_all};
ghost use Rattle.std.specs.FinMap as map;
ghost use Rattle.spk_topics.specs.Grants.{Grants};
ghost use Rattle.spk_topics.specs.Levels.{joined, levels};
ghost use Rattle.spk_topics.specs.Paths.{Child, IsTree, Up};
ghost use Rattle.spk_topics.specs.Rows.{Row};
ghost use Rattle.spk_topics.specs.Spark.{Named, has_names, named_at, topic_of};
ghost use Rattle.spk_topics.specs.Fitting.{is_match};
ghost use Rattle.spk_topics.specs.Matching.{Matches};
ghost use Rattle.spk_topics.specs.Text.{holds};
ghost use Rattle.spk_topics.specs.Whole.{IsPruned, LeadsToGrants};

/// The levels of a text are the texts between its slashes: joined by slashes they are the text, and levels
/// without a slash, joined, are read again.
pub fn levels_are_parts()
    ensures parts { (text : List ℕ) → joined (levels text) ≡ text }
    ensures again { (level : List ℕ) (rest : List (List ℕ))
        → IsTrue (list_all (λ l. not (holds 47 l)) (level ∷ rest))
        → levels (joined (level ∷ rest)) ≡ level ∷ rest }
{}

/// No text is the topic of two different names, so what `text` writes `read` gives back, and the other way
/// round.
pub fn one_topic()
    ensures { (m n : Named) → IsTrue (has_names m) → IsTrue (has_names n) → topic_of m ≡ topic_of n
        → m ≡ n }
{}

/// What a text names is a function of it: what `Spark::read` answers, NotSparkplug where it is None.
pub fn reading()
    ensures { (text : List ℕ) (n : Named) → (named_at text ≡ Some n)
        ↔ (IsTrue (has_names n) × (topic_of n ≡ text)) }
{}

/// Whether a filter matches a topic name is a function of both: what `matches` answers.
pub fn matching()
    ensures { (filter topic : List ℕ) → IsTrue (is_match filter topic) ↔ Matches filter topic }
{}

/// What a grant changed can be undone: a new grant, taken back, leaves the grants of before, and so does a standing one
/// that is set to its old QoS again.
pub fn taken_back()
    ensures new { (grants : Grants) (filter : List ℕ) (key qos : ℕ)
        → map.get grants (filter, key) ≡ None →
        map.remove (map.insert grants (filter, key) qos) (filter, key) ≡ grants }
    ensures standing { (grants : Grants) (filter : List ℕ) (key qos old : ℕ)
        → map.get grants (filter, key) ≡ Some old →
        map.insert (map.insert grants (filter, key) qos) (filter, key) old ≡ grants }
{}

/// What was granted is there, and what else was there stays.
pub fn granted()
    ensures one { (grants : Grants) (filter : List ℕ) (key qos : ℕ)
        → map.get (map.insert grants (filter, key) qos) (filter, key) ≡ Some qos }
    ensures others { (grants : Grants) (filter other : List ℕ) (key qos at : ℕ)
        → is_some (map.get grants (other, at)) ≡ true →
        is_some (map.get (map.insert grants (filter, key) qos) (other, at)) ≡ true }
{}

/// In a tree of levels in which each node but the root has grants, or ways part there, edges lead on from each as
/// far as grants: so a tree that is pruned leaks nothing. Trees are kept so (`specs/Whole.antt`).
pub fn nothing_leaks()
    ensures { (rows : List Row) (child : Child) (up : Up) → IsTree rows child up
        → IsPruned rows child up → (n : ℕ) (edge : ℕ × List ℕ) → up n ≡ Some edge
        → LeadsToGrants rows child n }
{}
