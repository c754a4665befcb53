//! Laws on what `run_plant` promises: functions that do nothing, whose contracts speak of a plan and a report.
ghost use Rattle.std.specs.Prelude.{◌≡◌, ℕ, ◌-◌, ◌*◌, ◌<◌, ◌≤◌, true, false, List, [], ◌++◌, length, map, Some};
ghost use Rattle.std.specs.List.{flat_map, slice_get};
ghost use Rattle.spk_plant_broker.specs.Data.{Entry};
ghost use Rattle.spk_edge.specs.Along.{messages_from};
ghost use Rattle.spk_edge.specs.View.{message_view};
ghost use Rattle.spk_edge_rules.specs.Packets.{death_topic};
ghost use Rattle.spk_edge_rules.specs.Run.{opened, run_of};
ghost use Rattle.spk_heard.specs.Read.{AreMessagesAt, HandsOutFronts};
ghost use Rattle.spk_sequence.specs.Budget.{budget};
ghost use Rattle.spk_sequence.specs.HostRecord.{consumed_of, record_of};
ghost use Rattle.spk_host.specs.Inputs.{node_calls};
ghost use Rattle.spk_plant_host.specs.Told.{asked, consumed_for, told_in};
ghost use Rattle.spk_plan.specs.declared.plan.Plan.{Plan};
ghost use Rattle.spk_plan_rules.specs.Plan.{CanRun, IsMade, host_in};
ghost use Rattle.spk_plant.specs.Report.{RunsAs};
ghost use Rattle.spk_plant.specs.declared.report.NodeReport.{NodeReport};
ghost use Rattle.spk_plant.specs.declared.report.Report.{Report};
ghost use Rattle.spk_plant_relay.specs.Given.{IsHeard};
ghost use Rattle.spk_plant_relay.specs.Origins.{AllSaidBefore, AreOwnOn};
ghost use Rattle.spk_plant_relay.specs.Shown.{IsFew, count_numbered};
ghost use Rattle.spk_plant_relay.specs.Speech.{IsPlant};
ghost use Rattle.spk_plant_laws.specs.Consumed.{IsConsumedBy, IsTied};
ghost use Rattle.spk_plant_laws.specs.Deaths.{AreDeathsOf, AreOpened, AreOwnDeaths};
ghost use Rattle.spk_plant_laws.specs.Handed.{IsHeardAt, handed_at, setting_at};
ghost use Rattle.spk_plant_laws.specs.Moments.{HoldsAlways, KeepsOrder};
ghost use Rattle.spk_plant_laws.specs.Placed.{ArePlacedAt};
ghost use Rattle.spk_plant_laws.specs.Places.{due_at, inputs_at, is_topic_at, published_at, setup_at, shown_at};
ghost use Rattle.spk_plant_laws.specs.Standing.{IsSubscribed, has_connection_at, have_nodes_ended, rings_at, since_at};

/// A plan and a report as `run_plant` has them (its clauses `can`, `made` and `ran`): the log of that report is one of a plant whose
/// edge nodes are the plan's, with the inputs that the report has of each.
pub fn plant()
    // the log meets what the laws on logs of a plant ask
    ensures is_plant { (p : Plan) (r : Report) → CanRun p → IsMade p → (ran : RunsAs p r)
        → IsPlant p.width (length p.nodes.items) (setup_at p) (inputs_at r) (host_in p)
        (told_in r.given.items) ran.log }

    // what the report says that a node published is what the rules publish for its inputs, each with the number of its position
    ensures published { (p : Plan) (r : Report) (k : ℕ) (x : NodeReport) → RunsAs p r
        → slice_get r.nodes.items k ≡ Some x
        → map message_view x.published.items ≡ messages_from (setup_at p k) (published_at p r k) 0 }

    // a node opens at most 200 connections, as many as its script may ask for
    ensures opened { (p : Plan) (r : Report) (k : ℕ) → CanRun p → RunsAs p r
        → k < length p.nodes.items → opened (run_of (setup_at p k) (inputs_at r k)) ≤ 200 }
{}

/// What holds between the lists of a report, for every width of 1 to 96 and whatever the threads did: no window is asked for.
pub fn running()
    // as many numbered messages of a node were taken as it published
    ensures counted { (p : Plan) (r : Report) (k : ℕ) → CanRun p → IsMade p → (ran : RunsAs p r)
        → k < length p.nodes.items
        → count_numbered (is_topic_at p k) k ran.log ≡ length (published_at p r k) }

    // what the host's ring got of a node are positions of what the node published, in order, each once, and from the first to the last
    // fewer are missing than refusals close the host's connection
    ensures few { (p : Plan) (r : Report) (k : ℕ) → CanRun p → IsMade p → (ran : RunsAs p r)
        → k < length p.nodes.items
        → IsFew (budget p.width) (length (published_at p r k)) (shown_at p ran.log k) }

    // where no send to the host was refused, these are all that were due to it
    ensures complete { (p : Plan) (r : Report) (k : ℕ) → CanRun p → IsMade p → (ran : RunsAs p r)
        → k < length p.nodes.items → r.refused ≡ 0 → due_at p ran.log k ≡ shown_at p ran.log k }

    // What the host was told of a node was read at the positions shown, one by one, and at every moment of it the order is kept: what was
    // consumed by then is birth by birth a prefix, it stands only for a cause, after a gap nothing is consumed but a newer birth, nothing
    // of a dead session, and each birth is taken but for the two causes.
    ensures heard { (p : Plan) (r : Report) (k : ℕ) → CanRun p → IsMade p → (ran : RunsAs p r)
        → k < length p.nodes.items
        → KeepsOrder (setup_at p k) (published_at p r k) p.wait p.width (shown_at p ran.log k)
        (node_calls (asked (told_in r.given.items)) (setup_at p k).config.group
        (setup_at p k).config.node) }

    // And what it consumed of the node is, birth by birth in increasing order, the first messages that the node published under that
    // birth, each once, as they were published.
    ensures consumed { (p : Plan) (r : Report) (k : ℕ) → CanRun p → IsMade p → RunsAs p r
        → k < length p.nodes.items
        → HandsOutFronts (setup_at p k) (published_at p r k)
        (flat_map
        (consumed_for (setup_at p k).config.group (setup_at p k).config.node) r.given.items) }

    // That is what the record of the order consumes, of which `heard` speaks, position by position, however what the host was told is read
    // at positions: so gaps, deaths and causes are said of what the report has.
    ensures tied { (p : Plan) (r : Report) (k : ℕ) → CanRun p → IsMade p → RunsAs p r
        → k < length p.nodes.items → (positions : List ℕ)
        → (h : IsHeard (setup_at p k) (published_at p r k) p.wait p.width positions
        (node_calls (asked (told_in r.given.items)) (setup_at p k).config.group
        (setup_at p k).config.node))
        → IsConsumedBy (setup_at p k) (published_at p r k) p.wait p.width h.inputs r.given.items }

    // and so at every moment: what the first items of `given` consumed is what the record of the inputs by then consumes
    ensures moments { (p : Plan) (r : Report) (k : ℕ) → CanRun p → IsMade p → RunsAs p r
        → k < length p.nodes.items → (positions : List ℕ)
        → (h : IsHeard (setup_at p k) (published_at p r k) p.wait p.width positions
        (node_calls (asked (told_in r.given.items)) (setup_at p k).config.group
        (setup_at p k).config.node))
        → IsTied (setup_at p k) (published_at p r k) p.wait p.width h.inputs r.given.items }
{
    plant();
    spk_plant_relay::laws::relayed();
    spk_plant_relay::laws::headline();
    spk_plant_relay::laws::shown();
    spk_plant_relay::laws::running();
    spk_heard::laws::consumption();
    spk_plant_host::laws::any_items();
}

/// Where the report says that the broker didn't close the host (`is_cut` is false), for every width of 1 to 96 and whatever the threads
/// did. `before` are the entries of the log up to a moment, and `later` those from it on.
pub fn uncut()
    // the host's ring stands at every moment, until the end of each edge node was taken
    ensures standing { (p : Plan) (r : Report) → (ran : RunsAs p r) → r.is_cut ≡ false
        → (later before : List Entry) → ran.log ≡ later ++ before
        → have_nodes_ended p before ≡ false → rings_at p before ≡ true }

    // once the host is subscribed to a node's numbered messages, it stays so
    ensures subscribed { (p : Plan) (r : Report) (k : ℕ) → CanRun p → IsMade p → (ran : RunsAs p r)
        → k < length p.nodes.items → r.is_cut ≡ false → (later middle before : List Entry)
        → ran.log ≡ later ++ (middle ++ before) → IsSubscribed p k before
        → IsSubscribed p k (middle ++ before) }

    // and it is, where its ring got one of them, the node's connection stands and not all edge nodes have ended
    ensures begun { (p : Plan) (r : Report) (k : ℕ) → CanRun p → IsMade p → (ran : RunsAs p r)
        → k < length p.nodes.items → r.is_cut ≡ false → (later before : List Entry)
        → ran.log ≡ later ++ before → have_nodes_ended p before ≡ false
        → has_connection_at p before k ≡ true → (shown_at p before k ≡ [] → ⊥)
        → IsSubscribed p k before }

    // so all of them that are taken from then on, while the node's connection stands, are due to the host
    ensures due { (p : Plan) (r : Report) (k : ℕ) → CanRun p → IsMade p → (ran : RunsAs p r)
        → k < length p.nodes.items → r.is_cut ≡ false → (later before : List Entry)
        → ran.log ≡ later ++ before → IsSubscribed p k before
        → due_at p ran.log k ≡ since_at p k later before ++ due_at p before k }

    // and where no send to the host was refused, its ring got each of them
    ensures shown { (p : Plan) (r : Report) (k : ℕ) → CanRun p → IsMade p → (ran : RunsAs p r)
        → k < length p.nodes.items → r.is_cut ≡ false → r.refused ≡ 0 → (later before : List Entry)
        → ran.log ≡ later ++ before → IsSubscribed p k before
        → shown_at p ran.log k ≡ since_at p k later before ++ due_at p before k }
{
    spk_broker_rules::laws::any_list();
    spk_broker_rules::laws::routing();
    spk_broker_rules::laws::plain_publish();
    spk_broker_rules::laws::staying();
    spk_broker_rules::laws::filters();
    spk_broker_rules::laws::knowing();
    spk_broker_rules::laws::joining();
    spk_broker_rules::laws::drops();
    spk_plant_relay::laws::few();
    spk_plant_relay::laws::shown();
    plant();
}

/// The positions that the host was given of a node, by the lists of the report alone: by what `given` says that it heard, by `accepted`
/// and by `taken`, without the log.
pub fn placed()
    // those lists give the positions that the host's ring got
    ensures shown { (p : Plan) (r : Report) (k : ℕ) → CanRun p → IsMade p → (ran : RunsAs p r)
        → k < length p.nodes.items → ArePlacedAt p r k (shown_at p ran.log k) }

    // and no others
    ensures only { (p : Plan) (r : Report) (k : ℕ) (one other : List ℕ) → ArePlacedAt p r k one
        → ArePlacedAt p r k other → one ≡ other }
{
    spk_packets::laws::prefix_free();
    spk_packets::laws::spelling_spells();
    plant();
    running();
    spk_plant_relay::laws::shown();
}

/// What the report says of a node itself, `given` and `consumed`: the two lists of what the host was handed of it and consumed of it. No
/// log is spoken of but in `heard`.
pub fn handed()
    // what the host was told of the node was read at what the report says that it was handed, message by message, death by death and moment
    // by moment; and its positions are those that the host's ring got
    ensures heard { (p : Plan) (r : Report) (k : ℕ) (x : NodeReport) → CanRun p → IsMade p
        → (ran : RunsAs p r) → slice_get r.nodes.items k ≡ Some x
        → IsHeardAt p r k (shown_at p ran.log k) (handed_at r x) }

    // at every moment of it the order is kept: prefixes, causes, what comes after a gap and after a death, births
    ensures always { (p : Plan) (r : Report) (k : ℕ) (x : NodeReport) → CanRun p → IsMade p
        → RunsAs p r → slice_get r.nodes.items k ≡ Some x
        → HoldsAlways (setting_at p r k) (handed_at r x) }

    // the positions consumed are those that the order consumes
    ensures consumed { (p : Plan) (r : Report) (k : ℕ) (x : NodeReport) → CanRun p → IsMade p
        → RunsAs p r → slice_get r.nodes.items k ≡ Some x
        → x.consumed.items ≡ consumed_of (record_of (setting_at p r k) (handed_at r x)) }

    // what `given` says that the host consumed of the node are the messages of these positions, one by one, as they were published
    ensures unaltered { (p : Plan) (r : Report) (k : ℕ) (x : NodeReport) → CanRun p → IsMade p
        → RunsAs p r → slice_get r.nodes.items k ≡ Some x
        → AreMessagesAt (setup_at p k) (published_at p r k) x.consumed.items
        (flat_map
        (consumed_for (setup_at p k).config.group (setup_at p k).config.node) r.given.items) }

    // each death is of a session that the node opened
    ensures sessions { (p : Plan) (r : Report) (k : ℕ) (x : NodeReport) → CanRun p → IsMade p
        → RunsAs p r → slice_get r.nodes.items k ≡ Some x
        → AreOpened (opened (run_of (setup_at p k) (inputs_at r k))) (handed_at r x) }
{
    placed();
    running();
    own_deaths();
    spk_plant_relay::laws::relayed();
    spk_plant_relay::laws::headline();
    spk_plant_relay::laws::shown();
    spk_heard::laws::consumption();
    spk_plant_host::laws::any_items();
    plant();
}

/// How much is given to the host before anything is lost.
pub fn roomy()
    // while its ring got fewer items than the plan's rings have room for, no send to it was refused
    ensures { (p : Plan) (r : Report) → RunsAs p r → length r.given.items < p.ring → r.refused ≡ 0 }
{}

/// The deaths that the host was told of a node, however what it was told is read at positions.
pub fn deaths()
    // each is read as the death of the one session with its bdSeq: the node opened no other session that has it
    ensures { (p : Plan) (r : Report) (k : ℕ) → CanRun p → RunsAs p r → k < length p.nodes.items
        → (positions : List ℕ)
        → (h : IsHeard (setup_at p k) (published_at p r k) p.wait p.width positions
        (node_calls (asked (told_in r.given.items)) (setup_at p k).config.group
        (setup_at p k).config.node))
        → AreDeathsOf (setup_at p k) (opened (run_of (setup_at p k) (inputs_at r k))) h.inputs
        (node_calls (asked (told_in r.given.items)) (setup_at p k).config.group
        (setup_at p k).config.node) }
{
    plant();
}

/// Of which sessions the deaths of a node are, and who said them.
pub fn own_deaths()
    // Whoever reads of what a ring got that the node died, reads the NDEATH of a session that the node opened; and its bytes are what the
    // node said by then: the will of a CONNECT of its that was taken, or its own farewell.
    ensures bytes { (p : Plan) (r : Report) (k : ℕ) → CanRun p → IsMade p → (ran : RunsAs p r)
        → k < length p.nodes.items
        → AreOwnDeaths (setup_at p k) (opened (run_of (setup_at p k) (inputs_at r k))) k ran.log }

    // so each death that the host was told of the node, however what it was told is read at positions, is of a session that the node opened
    ensures sessions { (p : Plan) (r : Report) (k : ℕ) → CanRun p → IsMade p → RunsAs p r
        → k < length p.nodes.items → (positions : List ℕ)
        → (h : IsHeard (setup_at p k) (published_at p r k) p.wait p.width positions
        (node_calls (asked (told_in r.given.items)) (setup_at p k).config.group
        (setup_at p k).config.node))
        → AreOpened (opened (run_of (setup_at p k) (inputs_at r k))) h.inputs }
{
    spk_packets::laws::prefix_free();
    spk_packets::laws::spelling_spells();
    spk_topics::laws::reading();
    spk_topics::laws::levels_are_parts();
    spk_edge_rules::laws::published();
    spk_broker_rules::laws::origins();
    spk_tie::laws::deaths();
    plant();
}

/// Where what the clients' rings got comes from, for every plan and every report of it.
pub fn origins()
    // What a ring got is the spelling of a packet; and where that is a PUBLISH, a PUBLISH that was taken by then, or the will of a
    // CONNECT, had its topic and its payload.
    ensures said { (p : Plan) (r : Report) → CanRun p → IsMade p → (ran : RunsAs p r)
        → AllSaidBefore ran.log }

    // and where it is on the topic of a node's NDEATH, that PUBLISH or CONNECT was the node's own
    ensures deaths { (p : Plan) (r : Report) (k : ℕ) → CanRun p → IsMade p → (ran : RunsAs p r)
        → k < length p.nodes.items → AreOwnOn (death_topic (setup_at p k).config) k ran.log }
{
    spk_plant_relay::laws::origins();
    spk_plant_relay::laws::shown();
    plant();
}
