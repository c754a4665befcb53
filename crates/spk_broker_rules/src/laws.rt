//! Laws of the definitions alone: functions that do nothing, whose contracts speak of definitions.
ghost use Rattle.std.specs.Prelude.{◌≡◌, ◌⊎◌, ◌+◌, ◌≤◌, ◌==◌, ℕ, List, [], ◌∷◌, length, Bool, true, false, not, Option, Some, is_some, if◌then◌else◌};
ghost use Rattle.std.specs.List.{filter, find, flat_map};
ghost use Rattle.spk_packets.specs.Message.{Connect, Disconnect, Message, WillData};
ghost use Rattle.spk_session.specs.declared.answer.Sort.TheVariants as sort;
ghost use Rattle.spk_session.specs.Step.{is_spent, one_more};
ghost use Rattle.spk_broker_rules.specs.Data.{Broker, AppMessage, fresh_broker};
ghost use Rattle.spk_broker_rules.specs.Dropping.{HasFew, drops_after};
ghost use Rattle.spk_broker_rules.specs.Knowing.{IsWelcomed, is_opening, speaks_of};
ghost use Rattle.spk_broker_rules.specs.Lawful.{IsLawful};
ghost use Rattle.spk_broker_rules.specs.Listening.{IsPlain, given_to, is_closed_in, is_joined, lets_go, listens, plain_publish, takes_back};
ghost use Rattle.spk_broker_rules.specs.Origins.{SaysAll, WasSaid};
ghost use Rattle.spk_broker_rules.specs.Past.{Past, broker_of, newcomers, is_open, may_open, older_of, session_at};
ghost use Rattle.spk_broker_rules.specs.Plan.{Event, Open, Packet, Refused};
ghost use Rattle.spk_broker_rules.specs.Step.{Turn, after, drops_in, is_full, is_newcomer, knows, noted, route, route_one, step};
ghost use Rattle.spk_broker_rules.specs.TakeOver.{GoesQuietly, IsAccepted, TakesOver};
ghost use Rattle.spk_broker_rules.specs.Topics.{Brings, FiltersIn, FitsAlike, HasFilters, HasTopics, IsOff, SendsOn, TopicIn};
ghost use Rattle.spk_broker_rules.specs.Telling.{Answers, Leads, Telling, may_be};

/// For every limit of drops and every list of events, newest first, each of which might come: stepping the data gives
/// what the rules ask of the list of all that happened.
pub fn any_list()
    // what an event sends and closes by the data is what its telling by the past sends and closes, in that order
    ensures answers { (limit : ℕ) (es : List Event) (h : Past) (e : Event) → Leads limit es h
        → Answers limit h e (step (after limit es) e) }

    // and no other telling is there
    ensures one { (limit : ℕ) (h : Past) (e : Event) (t u : Telling limit h e) → t.end ≡ u.end }

    // a list of events leads to one past, and one more event that may come leads on
    ensures past { (limit : ℕ) (es : List Event) (h g : Past) → Leads limit es h → Leads limit es g
        → h ≡ g }
    ensures goes_on { (limit : ℕ) (es : List Event) (h : Past) (e : Event) → Leads limit es h
        → may_be h e ≡ true → (g : Past) × Leads limit (e ∷ es) g }

    // the data are those that the past asks for: sessions, grants, identifiers, retained messages and connections by queries
    ensures asked { (limit : ℕ) (es : List Event) (h : Past) → Leads limit es h
        → after limit es ≡ broker_of limit h }

    // the data know a connection exactly where it is open: NoSuchConn (30) elsewhere
    ensures known { (limit : ℕ) (es : List Event) (h : Past) (conn : ℕ) → Leads limit es h
        → knows (after limit es) conn ≡ is_open h conn }

    // `open` is refused with Limit (31) exactly where 1,000 connections are open or the greatest number was given
    ensures full { (limit : ℕ) (es : List Event) (h : Past) → Leads limit es h
        → is_full (after limit es) ≡ not (may_open h) }

    // the numbers of connections were given, and sessions stand in the order in which they were made
    ensures lawful { (limit : ℕ) (es : List Event) → IsLawful (after limit es) }
{}

/// After a DISCONNECT (MQTT 3.1.1, 3.14) of a connection whose CONNECT was accepted nothing is routed, sent or closed: its
/// will is discarded, and it is open no more.
pub fn disconnect()
    ensures { (limit : ℕ) (h : Past) (conn moment : ℕ)
        (t : Telling limit h (Packet conn Disconnect moment))
        → is_some (session_at h conn) ≡ true → GoesQuietly conn h t.end }
{}

/// Where a CONNECT that isn't turned away takes over the connection of its client (3.1.4): all that is sent before CONNACK
/// is what the older connection's leaving and the routing of its will send, to the newer one goes all from CONNACK on, and
/// the older one is closed last, behind those that the routing closes.
pub fn take_over()
    ensures { (limit : ℕ) (h : Past) (conn older moment : ℕ) (client : List ℕ) (clean : Bool)
        (alive : ℕ) (will : Option WillData)
        (t : Telling limit h (Packet conn (Connect client clean alive will) moment))
        → is_some (find (λ g. g == conn) (newcomers h)) ≡ true → is_some (session_at h conn) ≡ false
        → older_of h client ≡ Some older → IsAccepted h client clean alive will
        → TakesOver conn older t.first t.end }
{}

/// Routing, message by message: it is done where nothing waits, else the first is routed whole and then the rest, with
/// what waits behind it.
pub fn routing()
    ensures done { (t : Turn) → t.waiting ≡ [] → route t ≡ t }
    ensures next { (t : Turn) (m : AppMessage) (ms : List AppMessage) → t.waiting ≡ m ∷ ms
        → route t ≡ route (route_one m (record t { waiting = ms })) }
{}

/// Each event leaves lawful data lawful.
pub fn lawful()
    ensures { (b : Broker) (e : Event) → IsLawful b → IsLawful (step b e).broker }
{}

/// A plain publish (QoS 0, without RETAIN) of a connection whose CONNECT was accepted goes once to the connection of each
/// session that listens, in the order of sessions. It closes nobody, and what it leaves is what was noted of the packet: the
/// clock, and when its connection was heard.
pub fn plain_publish()
    ensures sends { (b : Broker) (conn moment : ℕ) (topic payload : List ℕ) → IsPlain topic payload
        → is_joined b conn ≡ true
        → (step b (Packet conn (plain_publish topic payload) moment)).sends
        ≡ flat_map (given_to topic payload) b.sessions }
    ensures closes { (b : Broker) (conn moment : ℕ) (topic payload : List ℕ) → IsPlain topic payload
        → is_joined b conn ≡ true
        → (step b (Packet conn (plain_publish topic payload) moment)).closes ≡ [] }
    ensures left { (b : Broker) (conn moment : ℕ) (topic payload : List ℕ) → IsPlain topic payload
        → is_joined b conn ≡ true
        → (step b (Packet conn (plain_publish topic payload) moment)).broker
        ≡ (noted b (Packet conn (plain_publish topic payload) moment)).broker }
{}

/// A connection whose CONNECT was accepted stays joined, and what it listens to it goes on listening to, or the caller is
/// told to close it; unless its client ends it, or takes grants back.
pub fn staying()
    ensures joined { (b : Broker) (conn : ℕ) (e : Event) → IsLawful b → is_joined b conn ≡ true
        → lets_go conn e ≡ false
        → (is_joined (step b e).broker conn ≡ true) ⊎ (is_closed_in conn (step b e) ≡ true) }
    ensures listening { (b : Broker) (conn : ℕ) (topic : List ℕ) (e : Event) → IsLawful b
        → listens b conn topic ≡ true → lets_go conn e ≡ false → takes_back conn e ≡ false
        → (listens (step b e).broker conn topic ≡ true) ⊎ (is_closed_in conn (step b e) ≡ true) }
{}

/// A broker invents nothing, for every limit of drops and every list of events.
pub fn origins()
    // each PUBLISH that an event sends has topic and payload of a PUBLISH, or of the will of a CONNECT, that came by then
    ensures { (limit : ℕ) (es : List Event) (e : Event)
        → SaysAll (WasSaid (e ∷ es)) (step (after limit es) e).sends }
{}

/// Topics: nothing is sent on a topic that nobody brought. While the topics of wills, of retained and of unacknowledged
/// messages, of each PUBLISH and of each CONNECT's will keep off some set of topics, no PUBLISH on one of them is sent to
/// anybody; and a plain publish on one of them leaves nothing behind.
pub fn topics()
    // a new broker has no message
    ensures first { (limit : ℕ) (on : List ℕ → Bool) → HasTopics (IsOff on) (fresh_broker limit) }

    // an event that keeps off them leaves data that do
    ensures kept { (b : Broker) (e : Event) (on : List ℕ → Bool) → HasTopics (IsOff on) b
        → Brings (TopicIn (IsOff on)) e → HasTopics (IsOff on) (step b e).broker }

    // and no PUBLISH on them is sent
    ensures others { (b : Broker) (e : Event) (on : List ℕ → Bool) → HasTopics (IsOff on) b
        → Brings (TopicIn (IsOff on)) e → SendsOn (IsOff on) (step b e).sends }

    // a plain publish may be on them: it is neither kept nor retained, whoever sends it
    ensures plain { (b : Broker) (conn moment : ℕ) (topic payload : List ℕ) (on : List ℕ → Bool)
        → HasTopics (IsOff on) b
        → HasTopics (IsOff on) (step b (Packet conn (plain_publish topic payload) moment)).broker }

    // from whoever hasn't joined it goes to nobody
    ensures unjoined { (b : Broker) (conn moment : ℕ) (topic payload : List ℕ) (on : List ℕ → Bool)
        → HasTopics (IsOff on) b → is_joined b conn ≡ false
        → SendsOn (IsOff on) (step b (Packet conn (plain_publish topic payload) moment)).sends }
{}

/// Filters: who listens to a topic has joined; and while the filters of each SUBSCRIBE fit both of two topics or neither, so do
/// all that are granted, and each connection listens to both or to neither.
pub fn filters()
    ensures heard { (b : Broker) (conn : ℕ) (topic : List ℕ) → listens b conn topic ≡ true
        → is_joined b conn ≡ true }
    ensures first { (limit : ℕ) (one other : List ℕ)
        → HasFilters (FitsAlike one other) (fresh_broker limit) }
    ensures kept { (b : Broker) (e : Event) (one other : List ℕ)
        → HasFilters (FitsAlike one other) b → Brings (FiltersIn (FitsAlike one other)) e
        → HasFilters (FitsAlike one other) (step b e).broker }
    ensures alike { (b : Broker) (conn : ℕ) (one other : List ℕ)
        → HasFilters (FitsAlike one other) b → listens b conn one ≡ listens b conn other }
{}

/// Connections: their numbers are fresh, one is known until its client ends it or the caller is told to close it, and from then on
/// never again.
pub fn knowing()
    // the number that the next one gets was never given, and `open` gives it
    ensures fresh { (b : Broker) → IsLawful b → knows b (b.given + 1) ≡ false }
    ensures opened { (b : Broker) (moment : ℕ)
        → knows (step b (Open moment)).broker (b.given + 1) ≡ true }
    ensures given { (b : Broker) (e : Event) → IsLawful b
        → (step b e).broker.given ≡ (if is_opening e then b.given + 1 else b.given) }

    // it stands, or is among the closes, unless its client ends it
    ensures stands { (b : Broker) (conn : ℕ) (e : Event) → IsLawful b → knows b conn ≡ true
        → lets_go conn e ≡ false
        → (knows (step b e).broker conn ≡ true) ⊎ (is_closed_in conn (step b e) ≡ true) }

    // who is among the closes, or whose client ended it, is known no more; each is told once
    ensures closed { (b : Broker) (conn : ℕ) (e : Event) → IsLawful b
        → is_closed_in conn (step b e) ≡ true → knows (step b e).broker conn ≡ false }
    ensures ended { (b : Broker) (conn : ℕ) (e : Event) → IsLawful b → lets_go conn e ≡ true
        → knows (step b e).broker conn ≡ false }
    ensures once { (b : Broker) (conn : ℕ) (e : Event) → IsLawful b
        → length (filter (λ d. d == conn) (step b e).closes) ≤ 1 }

    // and doesn't come back
    ensures gone { (b : Broker) (conn : ℕ) (e : Event) → IsLawful b → conn ≤ b.given
        → knows b conn ≡ false → knows (step b e).broker conn ≡ false }
{}

/// Joining: a connection without an accepted CONNECT stays as it is at what others do, and its own first packet makes it join or
/// closes it.
pub fn joining()
    // at an event that isn't its own, when it was opened, heard and how often a send to it was dropped stay the same
    ensures waits { (b : Broker) (conn : ℕ) (e : Event) → IsLawful b → knows b conn ≡ true
        → is_joined b conn ≡ false → speaks_of conn e ≡ false
        → find (is_newcomer conn) (step b e).broker.newcomers ≡ find (is_newcomer conn) b.newcomers }
    ensures unjoined { (b : Broker) (conn : ℕ) (e : Event) → IsLawful b → knows b conn ≡ true
        → is_joined b conn ≡ false → speaks_of conn e ≡ false
        → is_joined (step b e).broker conn ≡ false }

    // its first packet
    ensures first { (b : Broker) (conn : ℕ) (p : Message) (moment : ℕ) → IsLawful b
        → knows b conn ≡ true → is_joined b conn ≡ false
        → (is_joined (step b (Packet conn p moment)).broker conn ≡ true)
        ⊎ (is_closed_in conn (step b (Packet conn p moment)) ≡ true) }

    // a CONNECT that isn't turned away joins
    ensures accepted { (b : Broker) (conn moment : ℕ) (client : List ℕ) (clean : Bool) (alive : ℕ)
        (will : Option WillData) → IsLawful b → knows b conn ≡ true → is_joined b conn ≡ false
        → IsWelcomed b client clean alive will
        → is_joined (step b (Packet conn (Connect client clean alive will) moment)).broker conn
        ≡ true }
{}

/// Drops: a refused PUBLISH of QoS 0 is one drop more and nothing else, until there are as many as close the connection; nothing
/// else changes how many there were, so that an open connection always has had fewer.
pub fn drops()
    ensures first { (limit : ℕ) → HasFew (fresh_broker limit) }
    ensures few { (b : Broker) (e : Event) → IsLawful b → HasFew b → HasFew (step b e).broker }
    ensures limit { (b : Broker) (e : Event) → IsLawful b → (step b e).broker.limit ≡ b.limit }

    // whoever is known before and after an event
    ensures kept { (b : Broker) (conn : ℕ) (e : Event) → IsLawful b → knows b conn ≡ true
        → knows (step b e).broker conn ≡ true
        → drops_in conn (step b e).broker ≡ drops_after conn e (drops_in conn b) }

    // below the limit a drop is noted, at the limit it closes
    ensures noted { (b : Broker) (conn moment : ℕ) → IsLawful b → knows b conn ≡ true
        → is_spent b.limit (one_more (drops_in conn b)) ≡ false
        → step b (Refused conn sort.QosZero moment) ≡ noted b (Refused conn sort.QosZero moment) }
    ensures spent { (b : Broker) (conn moment : ℕ) → IsLawful b → knows b conn ≡ true
        → is_spent b.limit (one_more (drops_in conn b)) ≡ true
        → is_closed_in conn (step b (Refused conn sort.QosZero moment)) ≡ true }

    // any other refused send closes
    ensures other { (b : Broker) (conn moment : ℕ)
        → is_closed_in conn (step b (Refused conn sort.Other moment)) ≡ true }
{}
