//! Laws on lists of deeds: functions that do nothing, whose contracts speak of definitions alone.
ghost use Rattle.std.specs.Prelude.{◌≡◌, ℕ, Bool, List, [], ◌++◌, Option, None, true, false};
ghost use Rattle.std.specs.List.{AllByRecursion};
ghost use Rattle.spk_connection.specs.Run as event;
ghost use Rattle.spk_edge.specs.Along.{node_of};
ghost use Rattle.spk_edge.specs.Calls.{IsAfterCalls};
ghost use Rattle.spk_edge.specs.View.{NodeData};
ghost use Rattle.spk_edge.specs.declared.message.Out.{Out};
ghost use Rattle.spk_edge_rules.specs.Config.{Setup};
ghost use Rattle.spk_record.specs.declared.record.Record.{Record};
ghost use Rattle.spk_edge_app.specs.Data.{App, Deed, LoginData, Opened, Wrote};
ghost use Rattle.spk_edge_app.specs.Lists.{AreDone, Call, IsDone, Reaches};
ghost use Rattle.spk_edge_app.specs.Run.{is_saved, of_connection, of_node};
ghost use Rattle.spk_edge_app.specs.Step.{IsRun, IsStep, allows, fresh_app};

/// For every program that was made, and every list of deeds that were done, newest first.
pub fn any_list()
    // the packets that were taken of the present connection, of each of which came what its deed says, are those that the bytes read of it spell, each once
    // and in order, and what isn't taken yet stands behind them
    ensures read { (n : NodeData) (login : Option LoginData) (kept : Record) (spread : ℕ)
        (deeds : List Deed) (a : App) → IsRun (fresh_app n login kept spread) deeds a
        → (spelled : List ℕ) × event.AreSpelled (event.taken_in (of_connection deeds)) spelled
        × (event.read_in (of_connection deeds) ≡ spelled ++ a.connection.unread) }

    // what was written of the present connection, and what waits, are together what was sent on it, byte for byte and in order: the packets of the node's
    // answers, PUBACKs of what it refused, and PINGREQs
    ensures written { (n : NodeData) (login : Option LoginData) (kept : Record) (spread : ℕ)
        (deeds : List Deed) (a : App) → IsRun (fresh_app n login kept spread) deeds a
        → event.written_in (of_connection deeds) ++ a.connection.unwritten
        ≡ event.sent_in (of_connection deeds) }

    // all that is of the connection is a list of its calls
    ensures connection { (n : NodeData) (login : Option LoginData) (kept : Record) (spread : ℕ)
        (deeds : List Deed) (a : App) → IsRun (fresh_app n login kept spread) deeds a
        → event.IsRun n.config.keep spread (of_connection deeds) a.connection }

    // and all that is of the node a list of its: so its data are those of the inputs that it was told (`spk_edge::laws::calls`)
    ensures node { (s : Setup) (login : Option LoginData) (kept : Record) (spread : ℕ)
        (deeds : List Deed) (a : App) → IsRun (fresh_app (node_of s []) login kept spread) deeds a
        → IsAfterCalls s (of_node s.config deeds) a.node }

    // where no record is wanted, the one on the disk covers all that the node did
    ensures record_kept { (n : NodeData) (login : Option LoginData) (kept : Record) (spread : ℕ)
        (deeds : List Deed) (a : App) → IsRun (fresh_app n login kept spread) deeds a
        → a.wanted ≡ None → allows a.kept a.node ≡ true }

    // so it does whenever something is written
    ensures written_behind { (n : NodeData) (login : Option LoginData) (kept : Record) (spread : ℕ)
        (deeds : List Deed) (a b : App) (first now : ℕ) (others : List ℕ)
        → IsRun (fresh_app n login kept spread) deeds a → IsStep a (Wrote first others now) b
        → allows a.kept a.node ≡ true }

    // and from the opening of a session on nothing is written until a record is saved that was wanted since then: each session has its own
    ensures own_record { (n : NodeData) (login : Option LoginData) (kept : Record) (spread now : ℕ)
        (out : Out) (bytes : List ℕ) (sent : Bool) (before since : List Deed) (a b c d : App)
        (first moment : ℕ) (others : List ℕ) → IsRun (fresh_app n login kept spread) before a
        → IsStep a (Opened now out bytes sent) b → IsRun b since c
        → AllByRecursion (λ e. is_saved e ≡ false) since
        → IsStep c (Wrote first others moment) d → ⊥ }
{
    spk_connection::laws::any_list();
}

/// For every list of calls that were done, one after the other, newest first: there is a list of deeds that is all that they did, call by call. So
/// `any_list` holds of what they left.
pub fn calls_are_deeds()
    ensures one_by_one { (call : Call) (a b : App) → IsDone a call b → Reaches a b }
    ensures all { (calls : List Call) (a b : App) → AreDone a calls b → Reaches a b }
{
    spk_connection::laws::any_list();
}
