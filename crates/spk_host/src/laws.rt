//! Laws of the definitions alone: functions that do nothing, whose contracts speak of definitions.
ghost use Rattle.std.specs.Prelude.{◌≡◌, ◌++◌, ℕ, false, List, [], Option, Some, None, map, replicate, slice_get, if◌then◌else◌};
ghost use Rattle.std.specs.List.{filter, filter_map};
ghost use Rattle.spk_sequence.specs.Step.{is_live, match_of};
ghost use Rattle.spk_sequence.specs.declared.answer.Step.TheVariants.{Gap};
ghost use Rattle.spk_sequence.specs.declared.answer.Match.TheVariants.{Matched, Ignored};
ghost use Rattle.spk_sequence.specs.declared.phase.Phase.TheVariants.{Live, Dead};
ghost use Rattle.spk_reading.specs.Data.{HeardData, NumberedData, Published, Answered, Granted, Other, Message, Death, Nothing};
ghost use Rattle.spk_topics.specs.Spark.Named.{of_node};
ghost use Rattle.spk_topics.specs.declared.spark.Verb.TheVariants.{Command};
ghost use Rattle.spk_host_session.specs.Data.{Config};
ghost use Rattle.spk_host_rules.specs.Showing.{IsShown};
ghost use Rattle.spk_host_node.specs.Data.{NodeData, fresh_node};
ghost use Rattle.spk_host_node.specs.Inputs.{Input, events_of, node_after, order_after, since_end};
ghost use Rattle.spk_host_node.specs.Step as one_node;
ghost use Rattle.spk_host.specs.Data.{Entry, HostData};
ghost use Rattle.spk_host.specs.Index.{names_of};
ghost use Rattle.spk_host.specs.Inputs.{Call, Ticked, host_after, host_with, is_same, node_calls, with_node_call};
ghost use Rattle.spk_host.specs.Nodes.{change_node, node_or, put_node};
ghost use Rattle.spk_host.specs.Requests.{asked_at_moment, asked_by, heard_names, request_to};
ghost use Rattle.spk_host.specs.Step.{acks, after_packet, fresh, has_gap, over_entry, packet_out, spelled, standing_of, tick_entry, tick_out, topics_to};

/// Of the list of nodes: what each change of it does to what is kept of a node, one that was never heard included.
pub fn nodes()
    // a node that is put is kept so, and the others stay
    ensures put_same { (first kept : NodeData) (entries : List Entry) (group name : List ℕ)
        → node_or first (put_node group name kept entries) group name ≡ kept }
    ensures put_other { (first kept : NodeData) (entries : List Entry)
        (group name other_group other_name : List ℕ)
        → is_same group name other_group other_name ≡ false
        → node_or first (put_node other_group other_name kept entries) group name
        ≡ node_or first entries group name }

    // a node is changed where it was heard, and the others stay
    ensures changed_same { (first : NodeData) (change : NodeData → NodeData) (entries : List Entry)
        (group name : List ℕ) → change first ≡ first
        → node_or first (change_node group name change entries) group name
        ≡ change (node_or first entries group name) }
    ensures changed_other { (first : NodeData) (change : NodeData → NodeData) (entries : List Entry)
        (group name other_group other_name : List ℕ)
        → is_same group name other_group other_name ≡ false
        → node_or first (change_node other_group other_name change entries) group name
        ≡ node_or first entries group name }

    // a moment, and the end of the host's session, come to each
    ensures ticked { (wait width now : ℕ) (entries : List Entry) (group name : List ℕ)
        → node_or (fresh_node wait width) (map (tick_entry now) entries) group name
        ≡ one_node.tick (node_or (fresh_node wait width) entries group name) now }
    ensures over { (wait width : ℕ) (entries : List Entry) (group name : List ℕ)
        → node_or (fresh_node wait width) (map over_entry entries) group name
        ≡ one_node.over (node_or (fresh_node wait width) entries group name) }

    // none of these changes a fresh node, nor does a death
    ensures fresh_death { (wait width bd : ℕ)
        → one_node.death (fresh_node wait width) bd ≡ fresh_node wait width }
    ensures fresh_tick { (wait width now : ℕ)
        → one_node.tick (fresh_node wait width) now ≡ fresh_node wait width }
    ensures fresh_over { (wait width : ℕ)
        → one_node.over (fresh_node wait width) ≡ fresh_node wait width }
{}

/// What a host keeps, after any list of calls that were done, newest first.
pub fn any_list()
    // of each node, what the calls that concern it leave, as if the host had no other
    ensures kept { (config : Config) (calls : List Call) (group name : List ℕ)
        → node_or (fresh_node config.wait config.width) (host_after config calls).nodes group name
        ≡ node_after config.wait config.width (node_calls calls group name) }

    // the same by one call, from any data
    ensures step { (h : HostData) (call : Call) (inputs : List Input) (group name : List ℕ)
        → let wait = h.session.config.wait in
        let width = h.session.config.width in
        node_or (fresh h) h.nodes group name ≡ node_after wait width inputs
        → node_or (fresh h) (host_with h call).nodes group name
        ≡ node_after wait width (with_node_call call group name inputs) }

    // so the order of a node's messages is that of the host's present session alone
    ensures order { (config : Config) (calls : List Call) (group name : List ℕ)
        → (node_or (fresh_node config.wait config.width) (host_after config calls).nodes
        group name).order
        ≡ order_after config.wait config.width (since_end (node_calls calls group name)) }

    // and its view shows the values at the last message consumed
    ensures shows { (config : Config) (calls : List Call) (group name : List ℕ)
        → IsShown (events_of config.wait config.width (node_calls calls group name))
        (node_or (fresh_node config.wait config.width) (host_after config calls).nodes
        group name).watch.view }

    // the nodes stand in the order in which they were first heard, each once
    ensures listed { (config : Config) (calls : List Call)
        → map names_of (host_after config calls).nodes ≡ heard_names calls }

    // a message is answered by as many rebirth requests as are due, by what was heard of its node alone
    // (`spk_host_rules::laws::asked` says when one is due)
    ensures requests { (config : Config) (calls : List Call) (ack : Option ℕ) (m : NumberedData)
        (now : ℕ)
        → (packet_out (host_after config calls) (Published ack (Message m)) now).rebirths
        ≡ topics_to m.group m.node (asked_by config calls m now) }

    // and at a moment each node that has a gap is asked once where a request is due, in the order in which they were first heard
    ensures ticks { (config : Config) (calls : List Call) (now : ℕ)
        → (tick_out (host_after config calls).nodes now).rebirths
        ≡ asked_at_moment config calls now (heard_names calls) }

    // who the host is, stays
    ensures config { (config : Config) (calls : List Call)
        → (host_after config calls).session.config ≡ config }
{
    spk_host_node::laws::any_list();
}

/// Whom a host asks: each rebirth request is a packet of its own to the NCMD topic of the node that it is asked of.
pub fn addressed()
    // by a message, its node alone, behind the acknowledgement
    ensures message { (h : HostData) (ack : Option ℕ) (m : NumberedData) (now : ℕ)
        → let out = packet_out h (Published ack (Message m)) now in
        ((count : ℕ) × (out.rebirths ≡ replicate count (of_node m.group Command m.node)))
        × (out.packets ≡ spelled (acks ack ++ map (request_to now) out.rebirths)) }

    // by an NDEATH, a command, or a packet that isn't a PUBLISH, nobody
    ensures death { (h : HostData) (ack : Option ℕ) (group name : List ℕ) (bd now : ℕ)
        → (packet_out h (Published ack (Death group name bd)) now).rebirths ≡ [] }
    ensures command { (h : HostData) (ack : Option ℕ) (now : ℕ)
        → (packet_out h (Published ack Nothing) now).rebirths ≡ [] }
    ensures answered { (h : HostData) (code now : ℕ)
        → (packet_out h (Answered code) now).rebirths ≡ [] }
    ensures granted { (h : HostData) (now : ℕ) → (packet_out h Granted now).rebirths ≡ [] }
    ensures other { (h : HostData) (now : ℕ) → (packet_out h Other now).rebirths ≡ [] }

    // by a moment, whoever the topics name
    ensures tick { (nodes : List Entry) (now : ℕ) → let out = tick_out nodes now in
        out.packets ≡ spelled (map (request_to now) out.rebirths) }
{}

/// What is told of an NDEATH: whether it matched, that is, was of the session of the last birth taken of its node.
pub fn deaths()
    // one that is told as matched leaves its node dead, and any other leaves the node's order as it stood
    ensures matched { (h : HostData) (ack : Option ℕ) (group name : List ℕ) (bd now : ℕ)
        → let death = Published ack (Death group name bd) in
        (packet_out h death now).death ≡ Some Matched
        → (standing_of (after_packet h death now) group name).phase ≡ Dead }
    ensures ignored { (h : HostData) (ack : Option ℕ) (group name : List ℕ) (bd now : ℕ)
        → let death = Published ack (Death group name bd) in
        (packet_out h death now).death ≡ Some Ignored
        → standing_of (after_packet h death now) group name ≡ standing_of h group name }

    // so of a node that is followed one is told as matched exactly where the node isn't followed behind it
    ensures followed { (h : HostData) (ack : Option ℕ) (group name : List ℕ) (bd now : ℕ)
        → let death = Published ack (Death group name bd) in
        (standing_of h group name).phase ≡ Live
        → (packet_out h death now).death
        ≡ Some (if is_live (standing_of (after_packet h death now) group name).phase
        then Ignored else Matched) }

    // along any list of calls it is the order of the present session alone that tells it
    ensures order { (config : Config) (calls : List Call) (ack : Option ℕ) (group name : List ℕ)
        (bd now : ℕ)
        → (packet_out (host_after config calls) (Published ack (Death group name bd)) now).death
        ≡ Some (match_of (order_after config.wait config.width
        (since_end (node_calls calls group name))).standing bd) }

    // and nothing is told of one where none came
    ensures message { (h : HostData) (ack : Option ℕ) (m : NumberedData) (now : ℕ)
        → (packet_out h (Published ack (Message m)) now).death ≡ None }
    ensures command { (h : HostData) (ack : Option ℕ) (now : ℕ)
        → (packet_out h (Published ack Nothing) now).death ≡ None }
    ensures answered { (h : HostData) (code now : ℕ)
        → (packet_out h (Answered code) now).death ≡ None }
    ensures granted { (h : HostData) (now : ℕ) → (packet_out h Granted now).death ≡ None }
    ensures other { (h : HostData) (now : ℕ) → (packet_out h Other now).death ≡ None }
    ensures tick { (nodes : List Entry) (now : ℕ) → (tick_out nodes now).death ≡ None }
{
    spk_host_node::laws::any_list();
}

/// Whose the gaps of a moment are.
pub fn gaps()
    // the nodes at the places that are told are those that have a gap, in the order in which they were first heard
    ensures nodes { (nodes : List Entry) (now : ℕ)
        → filter_map (slice_get nodes) (tick_out nodes now).gaps ≡ filter (has_gap now) nodes }

    // there is a step for each of them, in the same order
    ensures steps { (nodes : List Entry) (now : ℕ)
        → (tick_out nodes now).steps ≡ map (λ place. Gap) (tick_out nodes now).gaps }

    // each stands at its place before the moment and behind it
    ensures stay { (h : HostData) (now : ℕ)
        → map names_of (host_with h (Ticked now)).nodes ≡ map names_of h.nodes }

    // a packet tells of no place
    ensures packet { (h : HostData) (heard : HeardData) (now : ℕ)
        → (packet_out h heard now).gaps ≡ [] }
{}
