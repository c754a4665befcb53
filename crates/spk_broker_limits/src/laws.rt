//! Laws of the definitions alone: functions that do nothing, whose contracts speak of definitions.
ghost use Rattle.std.specs.Prelude.{◌≡◌, ◌+◌, ◌≤◌, ℕ, suc, Bool, List, [], ◌∷◌, ◌++◌, Option, Some, is_some, true, false, length};
ghost use Rattle.std.specs.List.{AllByRecursion, list_any};
ghost use Rattle.std.specs.Option.{option_map};
ghost use Rattle.spk_packets.specs.Fault.{first_of};
ghost use Rattle.spk_packets.specs.Message.{Connect, Disconnect, PubAck, Subscribe, WillData};
ghost use Rattle.spk_packets.specs.Spelling.{is_empty, unwritable};
ghost use Rattle.spk_session.specs.PacketIds.{next_id};
ghost use Rattle.spk_session.specs.Step.{has_room};
ghost use Rattle.spk_broker_rules.specs.Data.{Broker, AppMessage, Session, Send};
ghost use Rattle.spk_broker_rules.specs.Knowing.{IsWelcomed};
ghost use Rattle.spk_broker_rules.specs.Lawful.{IsLawful};
ghost use Rattle.spk_broker_rules.specs.Listening.{is_joined};
ghost use Rattle.spk_broker_rules.specs.Past.{Past, retained, routed};
ghost use Rattle.spk_broker_rules.specs.Plan.{Event, Give, Packet, Route, shut};
ghost use Rattle.spk_broker_rules.specs.Step.{Turn, acts, after, all_grants, conn_at, heavy_in, knows, noted, route, route_one, serve, step};
ghost use Rattle.spk_broker_rules.specs.Table.{has};
ghost use Rattle.spk_broker_rules.specs.Telling.{Leads, Telling, may_be};
ghost use Rattle.spk_broker_rules.specs.Words.{best, level, numbered_packet, option_list, sent_as, to_connection, will_message};
ghost use Rattle.spk_topics.specs.Text.{filter_refusal};
ghost use Rattle.spk_broker_limits.specs.Giving.{GetsNothing, published_to};
ghost use Rattle.spk_broker_limits.specs.Identifiers.{GoesOn, HasIds, HasNext, acked_ids, ids_in};
ghost use Rattle.spk_broker_limits.specs.Limits.{IsBounded, IsFull, IsOfKnown, IsWithin, KeepsItsMessages, Singles, in_its_place, kept_count};
ghost use Rattle.spk_broker_limits.specs.Wills.{all_lost, all_taken, count, disconnects, is_its_end, lost, messages, of_conn, taken, will_in, without_will};

use spk_broker_rules::laws;

/// For every limit of drops and every list of events, newest first.
pub fn sessions()
    // no session has more than 1,024 packet identifiers in use
    ensures identifiers { (limit : ℕ) (es : List Event) → AllByRecursion IsWithin (after limit es).sessions }

    // a kept session has a message under each of these, in their order, and no other; a clean one has none
    ensures in_flight { (limit : ℕ) (es : List Event) → AllByRecursion KeepsItsMessages (after limit es).sessions }
{}

/// For every limit of drops and every list of events at most 10,000 topics have a retained message, each one.
pub fn retained()
    ensures { (limit : ℕ) (es : List Event) → IsBounded (after limit es).retained }
{}

/// A retained message takes the place of its topic's, whatever number of topics have one; on a further topic it is left out where 10,000 have one
/// (MQTT 3.1.1, 3.3.1.3; the number is our own rule). That is so of each message that is routed, whenever.
pub fn replacing()
    ensures present { (m : AppMessage) (t : Turn) → m.retain ≡ true → is_empty m.payload ≡ false → has m.topic t.broker.retained ≡ true
        → (route_one m t).broker.retained ≡ in_its_place m t.broker.retained }
    ensures further { (m : AppMessage) (t : Turn) → is_empty m.payload ≡ false → has m.topic t.broker.retained ≡ false → IsFull t.broker.retained
        → (route_one m t).broker.retained ≡ t.broker.retained }
{}

/// Packet identifiers of sessions (MQTT 3.1.1, 2.3.1): for every limit of drops and every list of events, newest first, they are distinct and go on
/// behind the one given last, also behind an acknowledgement.
pub fn identifiers()
    // those in use of one session are from 1 to 65,535, no two are equal, and they are at most 1,024
    ensures distinct { (limit : ℕ) (es : List Event) → AllByRecursion HasIds (after limit es).sessions }

    // the next one is the first behind the one given last that isn't in use
    ensures next { (limit : ℕ) (es : List Event) → AllByRecursion HasNext (after limit es).sessions }

    // so the one behind it, where that isn't in use, and not the smallest that isn't
    ensures goes_on { (limit : ℕ) (es : List Event) → AllByRecursion GoesOn (after limit es).sessions }

    // a message that is routed to a session at QoS 1 goes out with the next one, which is then the one given last
    ensures sent { (m : AppMessage) (s : Session) (q : ℕ) → level m.qos (best m.topic s.grants) ≡ Some (suc q) → has_room s.used ≡ true
        → ((serve m s).sends ≡ to_connection (conn_at s) (numbered_packet false (next_id s.used s.last) (sent_as m (suc q) false)))
        × AllByRecursion (λ (t : Session). t.last ≡ next_id s.used s.last) (serve m s).left }

    // PUBACK takes one out of use, and leaves which was given last
    ensures acknowledged { (b : Broker) (conn id moment : ℕ) → is_some (first_of (unwritable (PubAck id))) ≡ false
        → is_joined b conn ≡ true
        → ids_in (step b (Packet conn (PubAck id) moment)).broker conn ≡ option_map (acked_ids id) (ids_in b conn) }
{
    spk_session::laws::any_list();
}

/// For every limit of drops and every list of events at most 10,000 filters are granted, of all sessions together.
pub fn grants()
    ensures { (limit : ℕ) (es : List Event) → all_grants (after limit es).sessions ≤ 10000 }
{}

/// What a SUBSCRIBE is given of retained messages is bounded (own rule): an event sends no more of it than 64 MB, for every limit of drops and every list
/// of events, newest first.
pub fn giving()
    // the PUBLISH packets that it sends to its connection take at most so many bytes together
    ensures bounded { (limit : ℕ) (es : List Event) (conn id moment : ℕ) (entries : List (List ℕ × ℕ))
        → published_to conn (step (after limit es) (Packet conn (Subscribe id entries) moment)).sends ≤ 67108864 }

    // a SUBSCRIBE of a connection whose CONNECT was accepted, which can be written, whose filters are such and whose entries weigh no more, is
    // granted, answered and given its retained messages
    ensures within { (b : Broker) (conn id moment : ℕ) (entries : List (List ℕ × ℕ)) → is_joined b conn ≡ true
        → is_some (first_of (unwritable (Subscribe id entries))) ≡ false
        → list_any (λ (e : List ℕ × ℕ). is_some (filter_refusal e.0)) entries ≡ false → heavy_in conn entries b ≡ false
        → step b (Packet conn (Subscribe id entries) moment)
        ≡ acts (Give conn id entries ∷ Route ∷ []) (noted b (Packet conn (Subscribe id entries) moment)) }

    // where they weigh more its connection is closed, whose will is routed, and is sent nothing
    ensures beyond { (b : Broker) (conn id moment : ℕ) (entries : List (List ℕ × ℕ)) → heavy_in conn entries b ≡ true
        → step b (Packet conn (Subscribe id entries) moment)
        ≡ acts (shut conn) (noted b (Packet conn (Subscribe id entries) moment)) }
    ensures nothing { (b : Broker) (conn id moment : ℕ) (entries : List (List ℕ × ℕ)) → IsLawful b
        → heavy_in conn entries b ≡ true → GetsNothing conn (step b (Packet conn (Subscribe id entries) moment)).sends }
{
    laws::any_list();
    laws::routing();
}

/// For every limit of drops and every list of events no two sessions have one client id, but for the empty one (MQTT 3.1.1, 3.1.3.1), and at most
/// 1,000 are kept.
pub fn clients()
    ensures single { (limit : ℕ) (es : List Event) → Singles (after limit es).sessions }
    ensures kept { (limit : ℕ) (es : List Event) → kept_count (after limit es).sessions ≤ 1000 }
{
    laws::any_list();
}

/// Whatever an event sends and closes is of connections that the broker knew before it, where the event is of one that it knew, or of none.
pub fn known()
    ensures sends { (b : Broker) (e : Event) → IsOfKnown b e → AllByRecursion (λ (s : Send). knows b s.conn ≡ true) (step b e).sends }
    ensures closes { (b : Broker) (e : Event) → IsOfKnown b e → AllByRecursion (λ conn. knows b conn ≡ true) (step b e).closes }
{}

/// What is routed, for every limit of drops and every list of events, newest first, each of which might come: but for the order, the message of each
/// PUBLISH that is taken, once, and the will of each connection that ends otherwise than by its DISCONNECT, once (MQTT 3.1.1, 3.1.2.5, 3.3 and 3.14).
/// However one counts messages, so many were routed. What routing one message sends is `told_one`'s to say.
pub fn routing()
    // by an event: `routed` is read off its telling
    ensures at_once { (limit : ℕ) (es : List Event) (h : Past) (e : Event) → Leads limit es h → may_be h e ≡ true
        → (t : Telling limit h e) (such : AppMessage → Bool)
        → count such (routed t.end.past)
        ≡ count such (routed h) + (count such (taken (after limit es) e) + count such (messages (lost (after limit es) e))) }

    // which sends, closes and retains what `step` does
    ensures told { (limit : ℕ) (es : List Event) (h : Past) (e : Event) → Leads limit es h → may_be h e ≡ true → (t : Telling limit h e)
        → (t.end.sends ≡ (step (after limit es) e).sends) × (t.end.closes ≡ (step (after limit es) e).closes)
        × (retained t.end.past ≡ (step (after limit es) e).broker.retained) }

    // in all
    ensures in_all { (limit : ℕ) (es : List Event) (h : Past) → Leads limit es h → (such : AppMessage → Bool)
        → count such (routed h) ≡ count such (all_taken limit es) + count such (messages (all_lost limit es)) }
{
    laws::any_list();
    laws::knowing();
}

/// An accepted will is routed exactly once unless a DISCONNECT came: which of the wills that `routing` speaks of are those of one connection, for every
/// limit of drops and every list of events, newest first (MQTT 3.1.1, 3.1.2.5 and 3.14).
pub fn wills()
    // a connection whose CONNECT isn't turned away has the will that this brought
    ensures accepted { (limit : ℕ) (es : List Event) (h : Past) (conn moment : ℕ) (client : List ℕ) (clean : Bool) (alive : ℕ)
        (will : Option WillData) → Leads limit (Packet conn (Connect client clean alive will) moment ∷ es) h
        → is_joined (after limit es) conn ≡ false → IsWelcomed (after limit es) client clean alive will
        → will_in (after limit (Packet conn (Connect client clean alive will) moment ∷ es)) conn ≡ option_map will_message will }

    // and keeps it while it is joined
    ensures same { (limit : ℕ) (es : List Event) (e : Event) (h : Past) (conn : ℕ) → Leads limit (e ∷ es) h
        → is_joined (after limit es) conn ≡ true → is_joined (after limit (e ∷ es)) conn ≡ true
        → will_in (after limit (e ∷ es)) conn ≡ will_in (after limit es) conn }

    // no event routes a will of a connection whose CONNECT wasn't accepted
    ensures unjoined { (limit : ℕ) (es : List Event) (e : Event) (conn : ℕ) → is_joined (after limit es) conn ≡ false
        → of_conn conn (lost (after limit es) e) ≡ [] }

    // what a will adds to an event that ends its connection by itself is that it is routed then, and what follows from that: data, sends and closes
    ensures adds { (b : Broker) (conn : ℕ) (e : Event) → IsLawful b → is_joined b conn ≡ true → is_its_end conn e ≡ true
        → step b e ≡ route (record (step (without_will conn b) e) { waiting = option_list (will_in b conn) }) }

    // and to its DISCONNECT it adds nothing
    ensures forgotten { (b : Broker) (conn moment : ℕ) → IsLawful b → is_joined b conn ≡ true
        → step b (Packet conn Disconnect moment) ≡ step (without_will conn b) (Packet conn Disconnect moment) }

    // a will is routed at most once
    ensures once { (limit : ℕ) (es : List Event) (conn : ℕ) → length (of_conn conn (all_lost limit es)) ≤ 1 }

    // not yet while its connection is joined
    ensures stands { (limit : ℕ) (es : List Event) (conn : ℕ) → is_joined (after limit es) conn ≡ true
        → of_conn conn (all_lost limit es) ≡ [] }

    // never where its DISCONNECT came, whatever comes later
    ensures discarded { (limit : ℕ) (es later : List Event) (conn moment : ℕ) → is_joined (after limit es) conn ≡ true
        → of_conn conn (all_lost limit (later ++ Packet conn Disconnect moment ∷ es)) ≡ [] }

    // and exactly once where another event ended it: by that event, and whatever comes later
    ensures ended { (limit : ℕ) (es later : List Event) (e : Event) (conn : ℕ) (will : AppMessage) → is_joined (after limit es) conn ≡ true
        → will_in (after limit es) conn ≡ Some will → is_joined (after limit (e ∷ es)) conn ≡ false → disconnects conn e ≡ false
        → (of_conn conn (lost (after limit es) e) ≡ (conn, will) ∷ [])
        × (of_conn conn (all_lost limit (later ++ e ∷ es)) ≡ (conn, will) ∷ []) }
{
    laws::any_list();
    laws::knowing();
    laws::joining();
    laws::staying();
    laws::routing();
}
