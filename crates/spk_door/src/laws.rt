//! Laws of the definitions.
ghost use Rattle.std.specs.Prelude.{◌≡◌, ℕ, Bool, List, ◌∷◌, Some, true, false, is_some};
ghost use Rattle.std.specs.List.{list_all};
ghost use Rattle.spk_packets.specs.Message.{Message};
ghost use Rattle.spk_topics.specs.Spark.{Named, named_at};
ghost use Rattle.spk_topics.specs.declared.spark.Verb.{Verb};
ghost use Rattle.spk_topics.specs.declared.spark.Verb.TheVariants as Verb;
ghost use Rattle.spk_broker_rules.specs.Origins.{SaysAll};
ghost use Rattle.spk_broker_rules.specs.Plan.{Event};
ghost use Rattle.spk_broker_rules.specs.Step.{after, step};
ghost use Rattle.spk_access.specs.Rights.{RightsData, is_command};
ghost use Rattle.spk_door.specs.Broker.{WasSaidBy, is_let};
ghost use Rattle.spk_door.specs.Data.{Passes};
ghost use Rattle.spk_door.specs.Rules.{judged, lets};

use spk_access::laws as access;
use spk_broker_rules::laws as broker;

/// What goes on to the broker may be sent.
pub fn what_passes_is_let()
    ensures { (r : RightsData) (guard : Bool) (p : Message) → judged r guard p ≡ Passes
        → lets r guard p ≡ true }
{}

/// Whose messages a broker sends behind a door with a guard, for every limit of drops and every list of events in which each packet was let through: on a topic of
/// a node's births, data and deaths, and of its devices', each was published, or left as a will, by a connection that came in as that node; on a STATE
/// topic by one that came in as that host; on a topic of commands by one that came in as a host.
pub fn whose_messages_are_sent()
    ensures node { (rights : ℕ → RightsData) (limit : ℕ) (es : List Event) (e : Event)
        (group node : List ℕ) (kind : Verb) → list_all (is_let rights true) (e ∷ es) ≡ true
        → is_command kind ≡ false
        → SaysAll (λ topic payload. named_at topic ≡ Some (Named.of_node group kind node)
        → WasSaidBy (λ conn. (rights conn).node ≡ Some (record { group = group; node = node }))
        (e ∷ es) topic payload) (step (after limit es) e).sends }
    ensures device { (rights : ℕ → RightsData) (limit : ℕ) (es : List Event) (e : Event)
        (group node device : List ℕ) (kind : Verb)
        → list_all (is_let rights true) (e ∷ es) ≡ true → is_command kind ≡ false
        → SaysAll (λ topic payload. named_at topic
        ≡ Some (Named.of_device group kind node device)
        → WasSaidBy (λ conn. (rights conn).node ≡ Some (record { group = group; node = node }))
        (e ∷ es) topic payload) (step (after limit es) e).sends }
    ensures state { (rights : ℕ → RightsData) (limit : ℕ) (es : List Event) (e : Event)
        (host : List ℕ) → list_all (is_let rights true) (e ∷ es) ≡ true
        → SaysAll (λ topic payload. named_at topic ≡ Some (Named.of_state host)
        → WasSaidBy (λ conn. (rights conn).host ≡ Some host) (e ∷ es) topic payload)
        (step (after limit es) e).sends }
    ensures command { (rights : ℕ → RightsData) (limit : ℕ) (es : List Event) (e : Event)
        (group node : List ℕ) → list_all (is_let rights true) (e ∷ es) ≡ true
        → SaysAll (λ topic payload. named_at topic
        ≡ Some (Named.of_node group Verb.Command node)
        → WasSaidBy (λ conn. is_some (rights conn).host ≡ true) (e ∷ es) topic payload)
        (step (after limit es) e).sends }
    ensures command_device { (rights : ℕ → RightsData) (limit : ℕ) (es : List Event) (e : Event)
        (group node device : List ℕ) → list_all (is_let rights true) (e ∷ es) ≡ true
        → SaysAll (λ topic payload. named_at topic
        ≡ Some (Named.of_device group Verb.Command node device)
        → WasSaidBy (λ conn. is_some (rights conn).host ≡ true) (e ∷ es) topic payload)
        (step (after limit es) e).sends }
{
    access::guarding();
    broker::origins();
}
