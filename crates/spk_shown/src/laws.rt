//! Laws of the definitions alone: functions that do nothing, whose contracts speak of definitions.
ghost use Rattle.std.specs.Prelude.{◌≡◌, ℕ, ◌<◌, ◌≤◌, false, List, ◌∷◌, ◌++◌, map, reverse, Option};
ghost use Rattle.spk_sequence.specs.Claims.{IsLawful};
ghost use Rattle.spk_sequence.specs.Following.{following};
ghost use Rattle.spk_sequence.specs.HostRecord as order;
ghost use Rattle.spk_sequence.specs.HostRecord.{Input, record_of};
ghost use Rattle.spk_sequence.specs.Window.{AllNearDeaths};
ghost use Rattle.spk_reading.specs.Data as said;
ghost use Rattle.spk_reading.specs.Data.{NumberedData};
ghost use Rattle.spk_reading.specs.Meaning.{Says};
ghost use Rattle.spk_host_rules.specs.Values.{consumed_of};
ghost use Rattle.spk_host_node.specs.Inputs as node;
ghost use Rattle.spk_host_node.specs.Inputs.{events_of, node_after};
ghost use Rattle.spk_host_node.specs.Step.{message_of};
ghost use Rattle.spk_edge_rules.specs.Config.{Setup};
ghost use Rattle.spk_edge_rules.specs.Run.{Message};
ghost use Rattle.spk_tie.specs.Tie.{host_setting};
ghost use Rattle.spk_heard.specs.Read.{AreMessagesAt, AreRead};
ghost use Rattle.spk_shown.specs.Shown.{AreMarked, AreOver, IsMarked, IsShownSo, is_alive};

/// What a host shows of a node, after any calls of its present session, read at inputs of the node's order (`AreRead`), and whatever calls
/// of its sessions before, each of which has ended: for both numberings, every wait and every width.
pub fn shown()
    // the node is online exactly while it lives, and fresh exactly while the host follows it; its metrics and those of its devices are those
    // at the last message consumed
    ensures view { (s : Setup) (published : List Message) (wait width : ℕ) (is : List Input)
        (js earlier : List node.Input) → let setting = host_setting s published wait width in
        IsLawful setting is → AllNearDeaths setting is → AreRead s published is js
        → AreMarked js → AreOver earlier
        → IsShownSo (is_alive setting (record_of setting is))
        (following setting (record_of setting is)).on
        (consumed_of (events_of wait width (js ++ earlier)))
        (node_after wait width (js ++ earlier)).watch.view }

    // what the view consumed in this session is what was published at the positions consumed, each once, in their order
    ensures messages { (s : Setup) (published : List Message) (wait width : ℕ) (is : List Input)
        (js earlier : List node.Input) → let setting = host_setting s published wait width in
        0 < width → width ≤ 96 → AreRead s published is js → AreOver earlier
        → (reads : List NumberedData)
        × AreMessagesAt s published (order.consumed_of (record_of setting is)) reads
        × (consumed_of (events_of wait width (js ++ earlier))
        ≡ reverse (map message_of reads) ++ consumed_of (events_of wait width earlier)) }

    // behind the end of the host's session the node and its devices are offline and stale, whatever came before, and the values stay
    ensures ended { (wait width : ℕ) (before : List node.Input)
        → IsShownSo false false (consumed_of (events_of wait width before))
        (node_after wait width (node.Ends ∷ before)).watch.view }

    // what is read in bytes is marked as what it is
    ensures marked { (bytes : List ℕ) (ack : Option ℕ) (read : NumberedData)
        → Says bytes (said.Published ack (said.Message read)) → IsMarked read }
{
    spk_sequence::laws::positions();
    spk_heard::laws::consumption();
    spk_host_node::laws::any_list();
}
