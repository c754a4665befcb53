//! Laws of the definitions alone: functions that do nothing, whose contracts speak of definitions.
ghost use Rattle.std.specs.Prelude.{◌≡◌, ℕ, List, [], ◌++◌, map, Option, Some, false};
ghost use Rattle.std.specs.List.{AllByRecursion};
ghost use Rattle.spk_edge.specs.Along.{node_of};
ghost use Rattle.spk_edge_rules.specs.Config.{Setup};
ghost use Rattle.spk_record.specs.declared.record.Record.{Record};
ghost use Rattle.spk_edge_app.specs.Data.{App, Deed, LoginData};
ghost use Rattle.spk_edge_app.specs.Run.{is_saved};
ghost use Rattle.spk_edge_app.specs.Step.{IsRun, fresh_app};
ghost use Rattle.spk_lives.specs.Lives.{AreLives, IsAmong, IsCareful, Reserve, on_disk, said};
ghost use Rattle.spk_edge_lives.specs.Life.{AreProgramRuns, BeginsWith, MayHold, ProgramRun, before_write, life, life_of};

/// Of every program that is made for a node and the record on its disk, and every list of deeds that were done, newest first.
pub fn careful()
    // what it does is a careful life: whatever the disk may hold covers all that was given out, and no record is begun that doesn't
    ensures careful { (s : Setup) (login : Option LoginData) (kept : Record) (spread : ℕ)
        (deeds : List Deed) (a : App) → BeginsWith s kept
        → IsRun (fresh_app (node_of s []) login kept spread) deeds a
        → IsCareful s (life_of s kept deeds) }

    // in it the node says what it was told until something was written last
    ensures said { (s : Setup) (kept : Record) (deeds : List Deed)
        → said (life_of s kept deeds) ≡ before_write s deeds }

    // the disk may hold the record that was kept
    ensures kept { (s : Setup) (login : Option LoginData) (kept : Record) (spread : ℕ)
        (deeds : List Deed) (a : App) → BeginsWith s kept
        → IsRun (fresh_app (node_of s []) login kept spread) deeds a
        → MayHold s (on_disk s (life_of s kept deeds)) a.kept }

    // and the one that is wanted
    ensures wanted { (s : Setup) (login : Option LoginData) (kept wanted : Record) (spread : ℕ)
        (deeds : List Deed) (a : App) → BeginsWith s kept
        → IsRun (fresh_app (node_of s []) login kept spread) deeds a → a.wanted ≡ Some wanted
        → MayHold s (on_disk s (life_of s kept deeds)) wanted }

    // and goes on holding each, until a record is saved
    ensures until { (s : Setup) (kept : Record) (since deeds : List Deed) (r : Reserve)
        → AllByRecursion (λ d. is_saved d ≡ false) since
        → IsAmong r (on_disk s (life_of s kept deeds))
        → IsAmong r (on_disk s (life_of s kept (since ++ deeds))) }
{
    spk_edge_app::laws::any_list();
    spk_edge::laws::calls();
    spk_edge_rules::laws::any_list();
    spk_edge_rules::laws::published();
    spk_lives::laws::records();
}

/// Of every list of runs of a node's program, newest first, each cut at whatever moment, and each begun with a record that the disk may have held then:
/// they are lives of one node, so that `spk_lives::laws` has all of them.
pub fn lives()
    ensures { (runs : List ProgramRun) → AreProgramRuns runs → AreLives (map life runs) }
{
    careful();
}
