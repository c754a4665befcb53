//! Laws of the definitions.
ghost use Rattle.std.specs.Prelude.{◌≡◌, ℕ, List, Some, IsTrue, Contains, true, false, is_some};
ghost use Rattle.spk_topics.specs.Fitting.{is_match};
ghost use Rattle.spk_topics.specs.Spark.{Named, named_at};
ghost use Rattle.spk_topics.specs.declared.spark.Verb.{Verb};
ghost use Rattle.spk_topics.specs.declared.spark.Verb.TheVariants as Verb;
ghost use Rattle.spk_access.specs.Covering.{covers};
ghost use Rattle.spk_access.specs.Rights.{NodeId, RightsData, is_command, may_publish, may_subscribe};

/// A filter that covers another one matches each topic name which that one matches (MQTT 3.1.1, section 4.7), and each filter covers itself.
pub fn covering()
    ensures matches { (wide filter topic : List ℕ) → IsTrue (covers wide filter)
        → IsTrue (is_match filter topic) → IsTrue (is_match wide topic) }
    ensures itself { (filter : List ℕ) → IsTrue (covers filter filter) }
{}

/// Under a guard a node's births, data and deaths, its devices' too, come of that node alone, a host's STATE of that host alone, and commands of hosts.
pub fn guarding()
    ensures node { (r : RightsData) (topic group node : List ℕ) (kind : Verb)
        → named_at topic ≡ Some (Named.of_node group kind node) → is_command kind ≡ false
        → IsTrue (may_publish r true topic)
        → r.node ≡ Some (record { group = group; node = node }) }
    ensures device { (r : RightsData) (topic group node device : List ℕ) (kind : Verb)
        → named_at topic ≡ Some (Named.of_device group kind node device)
        → is_command kind ≡ false → IsTrue (may_publish r true topic)
        → r.node ≡ Some (record { group = group; node = node }) }
    ensures command { (r : RightsData) (topic group node : List ℕ)
        → named_at topic ≡ Some (Named.of_node group Verb.Command node)
        → IsTrue (may_publish r true topic) → is_some r.host ≡ true }
    ensures command_device { (r : RightsData) (topic group node device : List ℕ)
        → named_at topic ≡ Some (Named.of_device group Verb.Command node device)
        → IsTrue (may_publish r true topic) → is_some r.host ≡ true }
    ensures state { (r : RightsData) (topic host : List ℕ)
        → named_at topic ≡ Some (Named.of_state host) → IsTrue (may_publish r true topic)
        → r.host ≡ Some host }
{}

/// What a client is given by a filter to which it may subscribe is on topics that one of its own filters matches.
pub fn subscribing()
    ensures { (r : RightsData) (filters : List (List ℕ)) (filter topic : List ℕ)
        → r.subscribe ≡ Some filters → IsTrue (may_subscribe r filter)
        → IsTrue (is_match filter topic)
        → (own : List ℕ) × Contains filters own × IsTrue (is_match own topic) }
{}
