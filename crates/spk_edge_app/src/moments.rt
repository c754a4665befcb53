//! What time brings.
ghost use Rattle.std.specs.Prelude.{◌≡◌, true, IfErr, OnErr, OnOk};
ghost use Rattle.spk_edge.specs.Patch.{plain_input};
ghost use Rattle.spk_edge_rules.specs.Inputs as inputs;
ghost use Rattle.spk_edge_app.specs.Calls.{IsDrained, IsHeldUp, IsMoment, IsPinged, IsUntold, due_at, is_ping, may_drain};

use crate::app::EdgeApp;
use crate::fault::EdgeAppFault;
use spk_edge::Phase;
use spk_link::Due;

/// How many bytes may wait to be written while kept changes are sent (own rule).
const LITTLE: usize = 65_536;

impl EdgeApp {
    /// PINGREQ is sent where it is due.
    fn ping(&mut self, now: u64) -> Result<(), EdgeAppFault>
        ensures pinged { OnOk result (IsPinged self.old now self.new) }
        ensures memory { IfErr result (λ e. (e ≡ EdgeAppFault.NoMemory) × (is_ping (due_at self.old now) ≡ true)) }
        ensures err { OnErr result (self.new ≡ self.old) }
    {
        if self.due(now) == Due::Ping && self.connection.ask(now).is_err() {
            return Err(EdgeAppFault::NoMemory);
        }
        Ok(())
    }

    /// Whether kept changes may be sent.
    fn may_drain(&self) -> bool
        ensures { result ≡ may_drain self.now }
    {
        self.node.phase() == Phase::Born
            && self.node.kept() > 0
            && self.connection.unwritten().len() < LITTLE
            && self.closing.is_none()
    }

    /// Some kept changes are sent, where they may be (`EdgeNode::drain`).
    fn drain(&mut self, now: u64) -> Result<(), EdgeAppFault>
        ensures drained { OnOk result (IsDrained self.old now self.new) }
        ensures refused { IfErr result (IsUntold self.old (plain_input now inputs.Drain)) }
        ensures err { OnErr result (self.new ≡ self.old) }
    {
        if self.may_drain() {
            let out = self.node.drain(now)?;
            self.answer(out, now);
        }
        Ok(())
    }

    /// Time has passed: PINGREQ is sent where it is due, and up to 32 kept changes while little waits to be written. It is to be called where `due` says
    /// Ping, and may be called at any time. Refused where memory is, and with what the node refuses of a drain.
    pub fn moment(&mut self, now: u64) -> Result<(), EdgeAppFault>
        ensures moment { OnOk result (IsMoment self.old now self.new) }
        ensures held_up { IfErr result (IsHeldUp self.old now self.new) }
    {
        self.ping(now)?;
        self.drain(now)
    }
}
