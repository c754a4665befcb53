//! Laws of the definitions alone: functions that do nothing, whose contracts speak of definitions.
ghost use Rattle.std.specs.Prelude.{◌≡◌, ◌⊎◌, ◌+◌, ◌≤◌, ℕ, List, ◌∷◌, ◌++◌, length, true, false, is_some};
ghost use Rattle.std.specs.List.{list_any};
ghost use Rattle.spk_packets.specs.Fault.{first_of};
ghost use Rattle.spk_packets.specs.Message.{Message, Subscribe};
ghost use Rattle.spk_packets.specs.Spelling.{unwritable};
ghost use Rattle.spk_topics.specs.Fitting.{is_match};
ghost use Rattle.spk_topics.specs.Text.{filter_refusal};
ghost use Rattle.spk_broker_rules.specs.Data.{Broker};
ghost use Rattle.spk_broker_rules.specs.Lawful.{IsLawful};
ghost use Rattle.spk_broker_rules.specs.Listening.{is_closed_in, is_joined, lets_go, listens};
ghost use Rattle.spk_broker_rules.specs.Plan.{Event, Packet};
ghost use Rattle.spk_broker_rules.specs.Step.{after, all_grants, heavy_in, step};
ghost use Rattle.spk_broker_listening.specs.Granted.{Grants, IsAnswered, Lasts, asks_for, holds, is_connect, takes_off};

use spk_broker_rules::laws;

/// A SUBSCRIBE whose filter is granted makes its connection listen to each topic that the filter matches, until an UNSUBSCRIBE that names the
/// filter, or the connection's end (MQTT 3.1.1, 3.8 to 3.10).
pub fn subscribed()
    // a SUBSCRIBE of a connection whose CONNECT was accepted, which can be written, whose filters are such, and whose entries are given at
    // most 64 MB of retained messages together, is answered by SUBACK before all else, with a code for each filter
    ensures answered { (b : Broker) (conn id moment : ℕ) (entries : List (List ℕ × ℕ))
        → is_joined b conn ≡ true → is_some (first_of (unwritable (Subscribe id entries))) ≡ false
        → list_any (λ (e : List ℕ × ℕ). is_some (filter_refusal e.0)) entries ≡ false
        → heavy_in conn entries b ≡ false
        → (codes : List ℕ) × (length codes ≡ length entries)
        × IsAnswered b (Packet conn (Subscribe id entries) moment) conn id codes }

    // and each filter that it names is granted where there is room for all of them: at most 10,000 filters are granted, of all sessions together
    ensures room { (b : Broker) (conn id moment : ℕ) (entries : List (List ℕ × ℕ))
        → is_joined b conn ≡ true → is_some (first_of (unwritable (Subscribe id entries))) ≡ false
        → list_any (λ (e : List ℕ × ℕ). is_some (filter_refusal e.0)) entries ≡ false
        → heavy_in conn entries b ≡ false
        → all_grants b.sessions + length entries ≤ 10000
        → (codes : List ℕ) × IsAnswered b (Packet conn (Subscribe id entries) moment) conn id codes
        × ((filter : List ℕ) → asks_for filter entries ≡ true → Grants filter entries codes) }

    // each filter whose code isn't 128 is granted from then on, or the caller is told to close the connection: a retained message at
    // QoS 1 was one too many for it
    ensures granted { (b : Broker) (conn id moment : ℕ) (entries : List (List ℕ × ℕ)) (codes filter : List ℕ) → IsLawful b
        → IsAnswered b (Packet conn (Subscribe id entries) moment) conn id codes
        → Grants filter entries codes
        → (holds (step b (Packet conn (Subscribe id entries) moment)).broker conn filter ≡ true)
        ⊎ (is_closed_in conn (step b (Packet conn (Subscribe id entries) moment)) ≡ true) }

    // it stays so, unless the connection's client ends it or takes that filter back, or the caller is told to close the connection
    ensures stays { (b : Broker) (conn : ℕ) (filter : List ℕ) (e : Event) → IsLawful b
        → holds b conn filter ≡ true → lets_go conn e ≡ false → takes_off conn filter e ≡ false
        → (holds (step b e).broker conn filter ≡ true) ⊎ (is_closed_in conn (step b e) ≡ true) }

    // and whoever has such a grant listens to each topic that the filter matches
    ensures matched { (b : Broker) (conn : ℕ) (filter topic : List ℕ) → holds b conn filter ≡ true
        → is_match filter topic ≡ true → listens b conn topic ≡ true }

    // so for every list of events: the connection listens as long as nothing of that comes
    ensures listening { (limit : ℕ) (later before : List Event) (conn id moment : ℕ)
        (entries : List (List ℕ × ℕ)) (codes filter topic : List ℕ)
        → IsAnswered (after limit before) (Packet conn (Subscribe id entries) moment) conn id codes
        → Grants filter entries codes
        → is_closed_in conn (step (after limit before) (Packet conn (Subscribe id entries) moment)) ≡ false
        → Lasts limit conn filter later (Packet conn (Subscribe id entries) moment ∷ before)
        → is_match filter topic ≡ true
        → listens (after limit (later ++ Packet conn (Subscribe id entries) moment ∷ before)) conn topic ≡ true }
{
    laws::any_list();
}

/// Whose first packet isn't a CONNECT is closed (MQTT 3.1.1, 3.1.0-1), also where it can't be written.
pub fn unjoined()
    ensures { (b : Broker) (conn moment : ℕ) (packet : Message) → is_joined b conn ≡ false
        → is_connect packet ≡ false → is_closed_in conn (step b (Packet conn packet moment)) ≡ true }
{}
