//! Laws of the definitions alone: functions that do nothing, whose contracts speak of definitions.
ghost use Rattle.std.specs.Prelude.{◌≡◌, ℕ, List, Option};
ghost use Rattle.std.specs.List.{flat_map};
ghost use Rattle.spk_reading.specs.Data.{HeardData};
ghost use Rattle.spk_host_session.specs.Data.{Config};
ghost use Rattle.spk_host.specs.Inputs.{node_calls};
ghost use Rattle.spk_heard.specs.Read.{all_taken};
ghost use Rattle.spk_plant_host.specs.Told.{AreWelcome, asked, calls_of, consumed_by, consumed_for, consumed_of, consumptions, told_in};
ghost use Rattle.spk_plant_host.specs.declared.ends.Given.{Given};

/// Of a host that no CONNACK turns away, for any items that came, newest first.
pub fn any_items()
    // it does each call that it is asked to do
    ensures done { (config : Config) (told : List (Option HeardData)) → AreWelcome told
        → calls_of config told ≡ asked told }

    // and what it consumes of a node is what the node's order hands out along the calls that concern the node
    ensures consumed { (config : Config) (told : List (Option HeardData)) (group name : List ℕ)
        → AreWelcome told → consumed_of config group name told
        ≡ all_taken config.wait config.width (node_calls (asked told) group name) }

    // of any items that were kept with what was consumed at each: it is what was consumed at the node's messages, in order
    ensures kept { (config : Config) (given : List Given) (group name : List ℕ)
        → consumed_by given ≡ consumptions config (told_in given)
        → flat_map (consumed_for group name) given ≡ consumed_of config group name (told_in given) }
{
    spk_host::laws::any_list();
}
