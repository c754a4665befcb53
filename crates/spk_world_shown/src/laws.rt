//! Laws of the definitions alone: functions that do nothing, whose contracts speak of definitions.
ghost use Rattle.std.specs.Prelude.{◌≡◌, ℕ, ◌<◌, List, length, slice_get, Some};
ghost use Rattle.spk_sequence.specs.Following.{following};
ghost use Rattle.spk_shown.specs.Shown.{is_alive};
ghost use Rattle.spk_world_rules.specs.Events.{Deed, World, node_at};
ghost use Rattle.spk_world_rules.specs.Queries.{consumed_of, published_of, record_of, setting_of};
ghost use Rattle.spk_world_run.specs.Data.{HostPart, WorldData};
ghost use Rattle.spk_world_run.specs.Run.{IsRun};
ghost use Rattle.spk_world_shown.specs.Seen.{IsSeen};

/// What each host of a world shows of each node, whatever was done in the world, newest first: any nodes, of both numberings, any hosts,
/// windows of any width.
pub fn shown()
    // the node is online exactly while it is alive by what was done in the host's present session, and fresh exactly while the host follows
    // it; its values, and those of its devices, are those at the last message consumed, and these were published at the positions consumed
    ensures { (w : World) (done : List Deed) (d : WorldData) (h n : ℕ) (host : HostPart)
        → IsRun w done d → slice_get d.hosts h ≡ Some host → n < length w.nodes
        → IsSeen (node_at w n) (published_of w done n)
        (is_alive (setting_of w done h n) (record_of w done h n))
        (following (setting_of w done h n) (record_of w done h n)).on
        (consumed_of w done h n) host.host }
{
    spk_tie::laws::messages();
    spk_host::laws::any_list();
    spk_world_rules::laws::lawful();
    spk_shown::laws::shown();
}
