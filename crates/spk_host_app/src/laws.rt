//! Laws on lists of calls: functions that do nothing, whose contracts speak of definitions alone.
ghost use Rattle.std.specs.Prelude.{◌≡◌, ◌++◌, ℕ, List, Option, [], false};
ghost use Rattle.spk_host_session.specs.Data.{Config};
ghost use Rattle.spk_host.specs.Inputs.{host_after};
ghost use Rattle.spk_link.specs.Past as link;
ghost use Rattle.spk_connection.specs.Run as conn;
ghost use Rattle.spk_connection.specs.Step.{is_open};
ghost use Rattle.spk_host_app.specs.Calls.{AreDone, Call, IsDone};
ghost use Rattle.spk_host_app.specs.Data.{App, Deed, LoginData};
ghost use Rattle.spk_host_app.specs.Log.{IsRun, Reaches, any_deed};
ghost use Rattle.spk_host_app.specs.Past.{calls_in, events_in, printed_in, said_in};
ghost use Rattle.spk_host_app.specs.Step.{fresh_app};

/// For every host, keep alive, spread and login, and every run of deeds from a new program on, newest first.
pub fn any_list()
    // the host is what the calls leave that it was told, in order (`spk_host::laws::any_list` says what of each node)
    ensures host { (config : Config) (keep spread : ℕ) (login : Option LoginData) (ds : List Deed)
        (a : App) → IsRun any_deed (fresh_app config keep spread login) ds a
        → a.host ≡ host_after config (calls_in ds) }

    // of the present connection, the packets that came to the host or were refused are those that the bytes read spell, each once and in order, and what
    // isn't taken yet stands behind them
    ensures read { (config : Config) (keep spread : ℕ) (login : Option LoginData) (ds : List Deed)
        (a : App) → IsRun any_deed (fresh_app config keep spread login) ds a
        → (spelled : List ℕ) × conn.AreSpelled (conn.taken_in (events_in config login ds)) spelled
        × (conn.read_in (events_in config login ds) ≡ spelled ++ a.connection.unread) }

    // of the present connection, what was written and what waits are together what was sent: CONNECT, what the host answered, acknowledgements and
    // PINGREQs, in order
    ensures written { (config : Config) (keep spread : ℕ) (login : Option LoginData) (ds : List Deed)
        (a : App) → IsRun any_deed (fresh_app config keep spread login) ds a
        → conn.written_in (events_in config login ds) ++ a.connection.unwritten
        ≡ conn.sent_in (events_in config login ds) }

    // where there is no connection nothing waits, so nothing of one comes into the next
    ensures closed { (config : Config) (keep spread : ℕ) (login : Option LoginData) (ds : List Deed)
        (a : App) → IsRun any_deed (fresh_app config keep spread login) ds a
        → is_open a.connection ≡ false
        → (a.connection.unread ≡ []) × (a.connection.unwritten ≡ []) }

    // a try, PINGREQ and the end are due as what was heard and sent asks (`spk_link::laws::any_list`)
    ensures link { (config : Config) (keep spread : ℕ) (login : Option LoginData) (ds : List Deed)
        (a : App) → IsRun any_deed (fresh_app config keep spread login) ds a
        → a.connection.link ≡ link.after keep spread (conn.of_link (events_in config login ds)) }

    // what was printed and what waits are together what was said, in order: deaths, what is lost, what the host consumed, what became of messages, its requests,
    // refusals, and the ends of connections
    ensures said { (config : Config) (keep spread : ℕ) (login : Option LoginData) (ds : List Deed)
        (a : App) → IsRun any_deed (fresh_app config keep spread login) ds a
        → printed_in ds ++ a.words.said ≡ said_in config ds }
{
    spk_connection::laws::any_list();
}

/// For every list of calls that were done, one after the other, newest first: there is a list of deeds that is all that they did, call by call. So
/// `any_list` holds of what they left.
pub fn calls_are_deeds()
    ensures one_by_one { (call : Call) (a b : App) → IsDone a call b → Reaches any_deed a b }
    ensures all { (calls : List Call) (a b : App) → AreDone a calls b → Reaches any_deed a b }
{}
