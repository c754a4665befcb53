//! Laws on what `run_plant` promises: functions that do nothing, whose contracts speak of a plan and a report.
ghost use Rattle.std.specs.Prelude.{◌≡◌, ℕ, ◌<◌, List, ◌∷◌, ◌++◌, length, false};
ghost use Rattle.std.specs.List.{range_with_len};
ghost use Rattle.spk_plant_broker.specs.Data.{Entry, Says, Took};
ghost use Rattle.spk_edge_rules.specs.Run.{outline};
ghost use Rattle.spk_host.specs.Inputs.{node_calls};
ghost use Rattle.spk_plant_host.specs.Told.{asked, told_in};
ghost use Rattle.spk_ingress.specs.declared.rule.Message.{Message};
ghost use Rattle.spk_packets.specs.Message.{Subscribe};
ghost use Rattle.spk_plan.specs.declared.plan.Plan.{Plan};
ghost use Rattle.spk_plan_rules.specs.Plan.{CanRun, IsMade};
ghost use Rattle.spk_plant.specs.Report.{RunsAs};
ghost use Rattle.spk_plant.specs.declared.report.Report.{Report};
ghost use Rattle.spk_plant_relay.specs.Given.{IsHeard};
ghost use Rattle.spk_plant_relay.specs.Relayed.{IsRelayed, positions_in};
ghost use Rattle.spk_plant_relay.specs.Shown.{count_numbered};
ghost use Rattle.spk_plant_laws.specs.Places.{due_at, is_topic_at, published_at, setup_at, shown_at};
ghost use Rattle.spk_plant_laws.specs.Standing.{IsSubscribed};
ghost use Rattle.spk_sequence.specs.HostRecord.{Input, consumed_of, record_of};
ghost use Rattle.spk_sequence.specs.NodeRecord.{Setting};
ghost use Rattle.spk_plant_lossless.specs.Subscribed.{ConsumesAll, HasConnectionAt, TakesSubscribe, is_closed_at};
ghost use Rattle.spk_plant_lossless.specs.Whole.{ComeInLife, all_below};

/// What a host consumes of a node of whose messages none is missing.
pub fn whole()
    // where each position came in order, and no message behind the death of its session, each was consumed, in order, once
    ensures { (s : Setting) (inputs : List Input) → IsRelayed s inputs
        → positions_in inputs ≡ all_below (length s.published) → ComeInLife s.published inputs
        → consumed_of (record_of s inputs) ≡ range_with_len 0 (length s.published) }
{
    spk_plant_relay::laws::relayed();
    spk_plant_relay::laws::headline();
}

/// When the host of a plant is subscribed, and when a node's connection stands.
pub fn connections()
    // where the report says that the broker didn't close the host: behind its SUBSCRIBE, whose SUBACK grants a filter that matches one topic
    // of the node's numbered messages, it is subscribed to all of them
    ensures subscribed { (p : Plan) (r : Report) (k : ℕ) → CanRun p → IsMade p → (ran : RunsAs p r)
        → k < length p.nodes.items → r.is_cut ≡ false → (later before : List Entry) (m : Message) (id : ℕ)
        (entries : List (List ℕ × ℕ))
        → ran.log ≡ later ++ Took m (Says (Subscribe id entries)) ∷ before
        → TakesSubscribe p k m id entries before
        → IsSubscribed p k (Took m (Says (Subscribe id entries)) ∷ before) }

    // where the broker didn't close the node: at each of its numbered messages the node's connection stands
    ensures stands { (p : Plan) (r : Report) (k : ℕ) → CanRun p → IsMade p → (ran : RunsAs p r)
        → k < length p.nodes.items → is_closed_at p ran.log k ≡ false → (later before : List Entry)
        → ran.log ≡ later ++ before → HasConnectionAt p k later before }
{
    spk_broker_rules::laws::any_list();
    spk_broker_rules::laws::routing();
    spk_broker_rules::laws::plain_publish();
    spk_broker_rules::laws::staying();
    spk_broker_rules::laws::filters();
    spk_broker_rules::laws::knowing();
    spk_broker_rules::laws::joining();
    spk_broker_rules::laws::drops();
    spk_broker_listening::laws::subscribed();
    spk_broker_listening::laws::unjoined();
    spk_plant_relay::laws::few();
    spk_plant_relay::laws::shown();
    spk_plant_laws::laws::plant();
}

/// What is due to the host of a plant of a node that publishes once the host is subscribed, where the report says that the broker didn't
/// close the host.
pub fn due()
    // all that the node published, where none of it was taken before the host was subscribed, and each of it while the node's connection stood
    ensures { (p : Plan) (r : Report) (k : ℕ) → CanRun p → IsMade p → (ran : RunsAs p r)
        → k < length p.nodes.items → r.is_cut ≡ false → (later before : List Entry)
        → ran.log ≡ later ++ before → IsSubscribed p k before
        → count_numbered (is_topic_at p k) k before ≡ 0 → HasConnectionAt p k later before
        → due_at p ran.log k ≡ all_below (length (published_at p r k)) }
{
    spk_plant_laws::laws::running();
    spk_plant_laws::laws::uncut();
}

/// Where no send to the host of a plant was refused, what the host consumed of a node is all that the node published, in order, once.
/// That asks two things more of the node, which no refusal tells: all of it was due to the host, and the host was told nothing of a
/// session behind that session's death.
pub fn lossless()
    // where all that the node published was due
    ensures due { (p : Plan) (r : Report) (k : ℕ) → CanRun p → IsMade p → (ran : RunsAs p r)
        → k < length p.nodes.items → r.refused ≡ 0
        → due_at p ran.log k ≡ all_below (length (published_at p r k))
        → (h : IsHeard (setup_at p k) (published_at p r k) p.wait p.width (shown_at p ran.log k)
        (node_calls (asked (told_in r.given.items)) (setup_at p k).config.group
        (setup_at p k).config.node))
        → ComeInLife (outline (published_at p r k)) h.inputs → ConsumesAll p r k }

    // so where the broker closed neither the host nor the node, and no numbered message of the node was taken before the host's SUBSCRIBE
    ensures subscribed { (p : Plan) (r : Report) (k : ℕ) → CanRun p → IsMade p → (ran : RunsAs p r)
        → k < length p.nodes.items → r.is_cut ≡ false → r.refused ≡ 0
        → is_closed_at p ran.log k ≡ false → (later before : List Entry) (m : Message) (id : ℕ) (entries : List (List ℕ × ℕ))
        → ran.log ≡ later ++ Took m (Says (Subscribe id entries)) ∷ before
        → TakesSubscribe p k m id entries before → count_numbered (is_topic_at p k) k before ≡ 0
        → (h : IsHeard (setup_at p k) (published_at p r k) p.wait p.width (shown_at p ran.log k)
        (node_calls (asked (told_in r.given.items)) (setup_at p k).config.group
        (setup_at p k).config.node))
        → ComeInLife (outline (published_at p r k)) h.inputs → ConsumesAll p r k }
{
    whole();
    connections();
    due();
    spk_heard::laws::consumption();
    spk_plant_host::laws::any_items();
    spk_plant_relay::laws::shown();
    spk_plant_laws::laws::plant();
    spk_plant_laws::laws::running();
}
