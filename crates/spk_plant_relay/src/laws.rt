//! Laws of the definitions alone: functions that do nothing, whose contracts speak of definitions.
ghost use Rattle.std.specs.Prelude.{◌≡◌, ℕ, ◌-◌, ◌*◌, ◌<◌, ◌≤◌, Bool, List, [], ◌∷◌, ◌++◌, length, map, Option};
ghost use Rattle.std.specs.List.{flat_map};
ghost use Rattle.spk_sequence.specs.Budget.{budget};
ghost use Rattle.spk_sequence.specs.Claims.{AfterDeath, AfterGap, BirthPrefixes, HasCause, IsLawful, SameStep, TakesBirth};
ghost use Rattle.spk_sequence.specs.HostRecord.{Input, MessageComes, consumed_of, done_at, record_of, standing_of};
ghost use Rattle.spk_sequence.specs.NodeRecord.{Setting};
ghost use Rattle.spk_sequence.specs.Window.{AllNearDeaths, IsNearBirth};
ghost use Rattle.spk_plant_broker.specs.Data.{Entry};
ghost use Rattle.spk_plant_broker.specs.Done.{refused_to};
ghost use Rattle.spk_plant_broker.specs.Log.{IsLog, got_of, refusals_of, room_of, taken_of};
ghost use Rattle.spk_plant_relay.specs.Due.{due};
ghost use Rattle.spk_plant_relay.specs.Given.{AreOthers, IsHeard};
ghost use Rattle.spk_plant_relay.specs.Origins.{AllSaidBefore, AreOwnOn};
ghost use Rattle.spk_plant_relay.specs.Relayed.{IsRelayed};
ghost use Rattle.spk_reading.specs.Data.{HeardData};
ghost use Rattle.spk_edge_rules.specs.Config.{Setup};
ghost use Rattle.spk_edge_rules.specs.Inputs as edge;
ghost use Rattle.spk_edge_rules.specs.Packets.{death_topic};
ghost use Rattle.spk_edge_rules.specs.Run.{opened, published, run_of};
ghost use Rattle.spk_heard.specs.Read.{HandsOutFronts};
ghost use Rattle.spk_host.specs.Inputs.{node_calls};
ghost use Rattle.spk_plant_host.specs.Told.{AreToldBy, AreWelcome, asked, consumed_by, consumed_for, consumptions, heard_in, told_in};
ghost use Rattle.spk_plant_host.specs.declared.ends.Given.{Given};
ghost use Rattle.spk_host_session.specs.Data.{Config};
ghost use Rattle.spk_plant_relay.specs.Speech.{IsPlant};
ghost use Rattle.spk_plant_relay.specs.Topics.{is_numbered_topic};
ghost use Rattle.spk_plant_relay.specs.Senders.{AreSenders};
ghost use Rattle.spk_plant_relay.specs.Shown.{AllMaySay, HasPlaces, IsFew, count_numbered, shown};

/// What comes in order, each once, with fewer than 256 - 2 * width missing between, is inside the window, for every width of 1 to 96:
/// no window is asked for.
pub fn relayed()
    // so the law on positions holds
    ensures lawful { (s : Setting) (inputs : List Input) → IsRelayed s inputs → IsLawful s inputs }

    // with all of its clauses
    ensures near_deaths { (s : Setting) (inputs : List Input) → IsRelayed s inputs
        → AllNearDeaths s inputs }
    ensures near_birth { (s : Setting) (inputs : List Input) (input : Input)
        → IsRelayed s (input ∷ inputs) → IsNearBirth s (record_of s inputs) input }

    // and at every moment
    ensures before { (s : Setting) (later inputs : List Input) → IsRelayed s (later ++ inputs)
        → IsRelayed s inputs }
{}

/// What a host consumes of a node whose messages come so, at every moment.
pub fn headline()
    // birth by birth in increasing order, a prefix of the messages that the node published under that birth, each once
    ensures prefixes { (s : Setting) (inputs : List Input) → IsRelayed s inputs
        → BirthPrefixes s.published (consumed_of (record_of s inputs)) }

    // while the host doesn't follow the node, as after a gap, nothing is consumed but a newer birth
    ensures after_gap { (s : Setting) (inputs : List Input) (input : Input)
        → IsRelayed s (input ∷ inputs)
        → AfterGap s (record_of s inputs)
        (done_at s (record_of s inputs) (standing_of s inputs) input) }

    // nothing is consumed of a session whose matching death came
    ensures after_death { (s : Setting) (inputs : List Input) (input : Input)
        → IsRelayed s (input ∷ inputs)
        → AfterDeath s (record_of s inputs)
        (done_at s (record_of s inputs) (standing_of s inputs) input) }

    // an NBIRTH that comes is taken unless that birth or a later one was taken before, or the matching death of its session came
    // and no birth was taken since
    ensures births { (s : Setting) (inputs : List Input) (p now : ℕ)
        → IsRelayed s (MessageComes p now ∷ inputs)
        → TakesBirth s (record_of s inputs) p
        (done_at s (record_of s inputs) (standing_of s inputs) (MessageComes p now)) }

    // wherever consumption stands, it stands for a cause
    ensures cause { (s : Setting) (inputs : List Input) → IsRelayed s inputs
        → HasCause s (record_of s inputs) }

    // what is answered by numbers is what positions ask for
    ensures steps { (s : Setting) (inputs : List Input) (input : Input)
        → IsRelayed s (input ∷ inputs) → SameStep s inputs input }
{
    spk_sequence::laws::positions();
}

/// Along every log of a plant's broker, of up to sixteen edge nodes and the host behind them, whose clients say no more than they may.
pub fn few()
    // no client has two connections, so the broker may always have a further one
    ensures places { (limit edges k : ℕ) (on : List ℕ → Bool) (log : List Entry) → limit ≤ 65535
        → IsLog limit edges log → AllMaySay on k edges log → AreSenders edges (taken_of log)
        → HasPlaces limit edges log }

    // The numbered messages of a node that the host's ring got are in the order of taking, each once; and from the first to the last
    // fewer are missing than refusals close a connection.
    ensures few { (limit edges k : ℕ) (on : List ℕ → Bool) (log : List Entry) → limit ≤ 65535
        → IsLog limit edges log → AllMaySay on k edges log → AreSenders edges (taken_of log)
        → IsFew limit (count_numbered on k log) (shown on k edges log) }

    // where none was refused and all was offered, these are all that were due
    ensures complete { (limit edges k : ℕ) (on : List ℕ → Bool) (log : List Entry) → limit ≤ 65535
        → IsLog limit edges log → AllMaySay on k edges log → AreSenders edges (taken_of log)
        → refused_to edges (refusals_of log) ≡ 0 → (room_of limit edges log).pending ≡ []
        → due limit edges on k edges log ≡ shown on k edges log }
{
    spk_broker_rules::laws::any_list();
    spk_broker_rules::laws::routing();
    spk_broker_rules::laws::plain_publish();
    spk_broker_rules::laws::staying();
    spk_broker_rules::laws::filters();
    spk_broker_rules::laws::knowing();
    spk_broker_rules::laws::joining();
    spk_broker_rules::laws::drops();
}

/// Along every log of a plant's broker, whatever its clients say.
pub fn origins()
    // What a ring got is the spelling of a packet; and where that is a PUBLISH, a PUBLISH that was taken by then, or the will of a
    // CONNECT, had its topic and its payload.
    ensures { (limit edges : ℕ) (log : List Entry) → IsLog limit edges log → AllSaidBefore log }
{
    spk_broker_rules::laws::origins();
}

/// Along every log of a plant whose edge nodes and host say what their rules give: nothing is asked of windows, orders or losses.
pub fn shown()
    // they say no more than they may
    ensures orderly { (width edges k : ℕ) (setup : ℕ → Setup) (inputs : ℕ → List edge.Input)
        (c : Config) (told : List (Option HeardData)) (log : List Entry) → k < edges
        → IsPlant width edges setup inputs c told log
        → AllMaySay (is_numbered_topic (setup k).config.group (setup k).config.node) k edges log }

    // as many numbered messages of a node were taken as it published
    ensures counted { (width edges k : ℕ) (setup : ℕ → Setup) (inputs : ℕ → List edge.Input)
        (c : Config) (told : List (Option HeardData)) (log : List Entry) → k < edges
        → IsPlant width edges setup inputs c told log
        → count_numbered (is_numbered_topic (setup k).config.group (setup k).config.node) k log
        ≡ length (published (run_of (setup k) (inputs k))) }

    // what the host's ring got of a node are positions of what the node published, in order, each once, and from the first to the last
    // fewer are missing than refusals close the host's connection
    ensures few { (width edges k : ℕ) (setup : ℕ → Setup) (inputs : ℕ → List edge.Input)
        (c : Config) (told : List (Option HeardData)) (log : List Entry) → k < edges
        → IsPlant width edges setup inputs c told log
        → IsFew (budget width) (length (published (run_of (setup k) (inputs k))))
        (shown (is_numbered_topic (setup k).config.group (setup k).config.node) k edges log) }

    // where no send to the host was refused and all was offered, these are all that were due to it
    ensures complete { (width edges k : ℕ) (setup : ℕ → Setup) (inputs : ℕ → List edge.Input)
        (c : Config) (told : List (Option HeardData)) (log : List Entry) → k < edges
        → IsPlant width edges setup inputs c told log → refused_to edges (refusals_of log) ≡ 0
        → (room_of (budget width) edges log).pending ≡ []
        → due (budget width) edges
        (is_numbered_topic (setup k).config.group (setup k).config.node) k edges log
        ≡ shown (is_numbered_topic (setup k).config.group (setup k).config.node) k edges log }

    // what else the ring got is no numbered message of the node
    ensures others { (width edges k : ℕ) (setup : ℕ → Setup) (inputs : ℕ → List edge.Input)
        (c : Config) (told : List (Option HeardData)) (log : List Entry) → k < edges
        → IsPlant width edges setup inputs c told log
        → AreOthers (is_numbered_topic (setup k).config.group (setup k).config.node) k edges
        (setup k).config.group (setup k).config.node log }

    // and none of it says that the host was turned away
    ensures welcome { (width edges : ℕ) (setup : ℕ → Setup) (inputs : ℕ → List edge.Input)
        (c : Config) (given : List Given) (log : List Entry)
        → IsPlant width edges setup inputs c (told_in given) log
        → AreToldBy (got_of edges log) (map heard_in given) → AreWelcome (told_in given) }

    // on the topic of a node's NDEATH rings got only what the node itself said: a PUBLISH that was taken by then, or the will of a CONNECT
    ensures deaths { (width edges k : ℕ) (setup : ℕ → Setup) (inputs : ℕ → List edge.Input)
        (c : Config) (told : List (Option HeardData)) (log : List Entry) → k < edges
        → IsPlant width edges setup inputs c told log
        → AreOwnOn (death_topic (setup k).config) k log }
{
    spk_packets::laws::prefix_free();
    spk_packets::laws::spelling_spells();
    spk_topics::laws::reading();
    spk_topics::laws::levels_are_parts();
    spk_edge_rules::laws::published();
    spk_broker_rules::laws::origins();
    spk_broker_rules::laws::topics();
    few();
}

/// What a host consumes of a node in a plant, for every width of 1 to 96, without a window as a premise: where the node opened at
/// most 256 sessions. The report of a plant has these lists; `given` stands oldest first.
pub fn running()
    // what the host was told of the node was read at the positions shown, one by one, and these are relayed: so the headline holds of
    // them, without a window as a premise
    ensures heard { (edges k : ℕ) (setup : ℕ → Setup) (inputs : ℕ → List edge.Input) (c : Config)
        (given : List Given) (log : List Entry) → k < edges → 0 < c.width → c.width ≤ 96
        → IsPlant c.width edges setup inputs c (told_in given) log
        → opened (run_of (setup k) (inputs k)) ≤ 256
        → AreToldBy (got_of edges log) (map heard_in given)
        → IsHeard (setup k) (published (run_of (setup k) (inputs k))) c.wait c.width
        (shown (is_numbered_topic (setup k).config.group (setup k).config.node) k edges log)
        (node_calls (asked (told_in given)) (setup k).config.group (setup k).config.node) }

    // birth by birth in increasing order, what it consumed of the node is a prefix of the messages that the node published under that
    // birth, each once, as they were published
    ensures consumed { (edges k : ℕ) (setup : ℕ → Setup) (inputs : ℕ → List edge.Input) (c : Config)
        (given : List Given) (log : List Entry) → k < edges → 0 < c.width → c.width ≤ 96
        → IsPlant c.width edges setup inputs c (told_in given) log
        → opened (run_of (setup k) (inputs k)) ≤ 256
        → AreToldBy (got_of edges log) (map heard_in given)
        → consumed_by given ≡ consumptions c (told_in given)
        → HandsOutFronts (setup k) (published (run_of (setup k) (inputs k)))
        (flat_map (consumed_for (setup k).config.group (setup k).config.node) given) }
{
    spk_packets::laws::prefix_free();
    spk_packets::laws::spelling_spells();
    spk_topics::laws::reading();
    spk_topics::laws::levels_are_parts();
    spk_edge_rules::laws::published();
    spk_edge_rules::laws::any_list();
    spk_tie::laws::messages();
    spk_heard::laws::consumption();
    spk_plant_host::laws::any_items();
    spk_broker_rules::laws::any_list();
    spk_broker_rules::laws::routing();
    spk_broker_rules::laws::plain_publish();
    spk_broker_rules::laws::staying();
    spk_broker_rules::laws::filters();
    spk_broker_rules::laws::knowing();
    spk_broker_rules::laws::joining();
    spk_broker_rules::laws::drops();
    few();
    relayed();
    shown();
}
