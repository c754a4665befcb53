//! Connections that were opened and have no accepted CONNECT yet.
ghost use Rattle.std.specs.Prelude.{◌≡◌, [], ◌∷◌, map};
ghost use Rattle.std.specs.List.{flat_map};
ghost use Rattle.spk_broker_rules.specs.Step.{newcomer_dropped, newcomer_heard, other_newcomers};
ghost use Rattle.spk_broker.specs.View.{newcomer_now, newcomer_was};
ghost use Rattle.spk_broker.specs.Settling.{newcomer_left};

use crate::out::Conn;

/// An open connection without an accepted CONNECT.
#[derive(Debug, Drop)]
pub(crate) struct Newcomer {
    /// Its number.
    pub(crate) conn: u64,
    /// The clock at its opening, or at its last packet.
    pub(crate) heard: u64,
    /// How many sends were dropped on it, up to 65,535.
    pub(crate) drops: u16,
    /// Both as they were before the call.
    pub(crate) heard_before: u64,
    pub(crate) drops_before: u16,
    /// It left in this call.
    pub(crate) gone: bool,
}

impl Newcomer {
    /// A packet of this connection came.
    fn hear(&mut self, conn: Conn, clock: u64)
        ensures was { newcomer_was self.new ≡ newcomer_was self.old }
        ensures now { newcomer_now self.new ≡ map (newcomer_heard conn clock) (newcomer_now self.old) }
    {
        if self.conn == conn {
            self.heard = clock;
        }
    }

    /// A send to this connection was dropped.
    fn count_drop(&mut self, conn: Conn)
        ensures was { newcomer_was self.new ≡ newcomer_was self.old }
        ensures now { newcomer_now self.new ≡ map (newcomer_dropped conn) (newcomer_now self.old) }
    {
        if self.conn == conn {
            self.drops = self.drops.saturating_add(1);
        }
    }

    /// This connection leaves.
    fn leave(&mut self, conn: Conn)
        ensures was { newcomer_was self.new ≡ newcomer_was self.old }
        ensures now { newcomer_now self.new ≡ other_newcomers conn (newcomer_now self.old) }
    {
        if self.conn == conn {
            self.gone = true;
        }
    }

    /// What was drafted stands.
    fn settle(&mut self)
        ensures now { newcomer_now self.new ≡ newcomer_now self.old }
        ensures left { newcomer_left self.new ≡ newcomer_now self.old }
    {
        self.heard_before = self.heard;
        self.drops_before = self.drops;
    }

    /// What was drafted is taken back.
    fn undo(&mut self)
        ensures was { newcomer_was self.new ≡ newcomer_was self.old }
        ensures now { newcomer_now self.new ≡ newcomer_was self.old ∷ [] }
    {
        self.heard = self.heard_before;
        self.drops = self.drops_before;
        self.gone = false;
    }
}

/// A packet of this connection came.
pub(crate) fn hear(newcomers: &mut [Newcomer], conn: Conn, clock: u64)
    ensures was { map newcomer_was newcomers.new ≡ map newcomer_was newcomers.old }
    ensures now { flat_map newcomer_now newcomers.new
        ≡ map (newcomer_heard conn clock) (flat_map newcomer_now newcomers.old) }
{
    for newcomer in newcomers.iter_mut() {
        newcomer.hear(conn, clock);
    }
}

/// A send to this connection was dropped.
pub(crate) fn count_drop(newcomers: &mut [Newcomer], conn: Conn)
    ensures was { map newcomer_was newcomers.new ≡ map newcomer_was newcomers.old }
    ensures now { flat_map newcomer_now newcomers.new
        ≡ map (newcomer_dropped conn) (flat_map newcomer_now newcomers.old) }
{
    for newcomer in newcomers.iter_mut() {
        newcomer.count_drop(conn);
    }
}

/// This connection leaves, if it has no accepted CONNECT.
pub(crate) fn leave(newcomers: &mut [Newcomer], conn: Conn)
    ensures was { map newcomer_was newcomers.new ≡ map newcomer_was newcomers.old }
    ensures now { flat_map newcomer_now newcomers.new
        ≡ other_newcomers conn (flat_map newcomer_now newcomers.old) }
{
    for newcomer in newcomers.iter_mut() {
        newcomer.leave(conn);
    }
}

/// What was drafted of each stands.
fn settle_each(newcomers: &mut [Newcomer])
    ensures now { flat_map newcomer_now newcomers.new ≡ flat_map newcomer_now newcomers.old }
    ensures left { flat_map newcomer_left newcomers.new ≡ flat_map newcomer_now newcomers.old }
{
    for newcomer in newcomers.iter_mut() {
        newcomer.settle();
    }
}

/// What was drafted is taken back.
pub(crate) fn undo(newcomers: &mut [Newcomer])
    ensures was { map newcomer_was newcomers.new ≡ map newcomer_was newcomers.old }
    ensures now { flat_map newcomer_now newcomers.new ≡ map newcomer_was newcomers.old }
{
    for newcomer in newcomers.iter_mut() {
        newcomer.undo();
    }
}

/// What was drafted stands, and who left is gone.
pub(crate) fn settle(newcomers: &mut Vec<Newcomer>)
    ensures was { map newcomer_was newcomers.new.items ≡ flat_map newcomer_now newcomers.old.items }
    ensures now { flat_map newcomer_now newcomers.new.items ≡ flat_map newcomer_now newcomers.old.items }
{
    settle_each(newcomers);
    newcomers.retain(|newcomer| !newcomer.gone);
}
